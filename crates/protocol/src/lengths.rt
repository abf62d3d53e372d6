// The lengths of the lists that a question is lent, where the request sets them.
#[derive(Clone, Copy, Default, PartialEq, Eq)]
pub struct Lengths {
    pub results: Option<usize>,
    pub marks: Option<usize>,
    pub queue: Option<usize>,
}
