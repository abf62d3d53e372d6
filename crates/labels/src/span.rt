// The label of the interval kind. It stands alone, since the formulas over it name it.
#[derive(Clone, Copy)]
pub struct Span {
    // the least number among a commit and its ancestors
    pub low: u32,
    // above the high of each parent, up to the greatest u32
    pub high: u32,
}
