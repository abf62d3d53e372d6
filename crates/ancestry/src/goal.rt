// What a walk is to find out. An enum and no closure: the two ends of one walk stand beside each other in one match.
#[derive(Clone, Copy)]
pub enum Goal {
    // how many commits only one of the two reaches
    Counts,
    // the common ancestors that no other one reaches
    Bases,
}
