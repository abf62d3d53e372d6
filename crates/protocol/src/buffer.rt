// The lists that a question is lent.
#[derive(Clone, Copy, PartialEq, Eq)]
pub enum Buffer {
    Results,
    Marks,
    Queue,
}
