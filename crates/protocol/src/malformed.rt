// A word that does not have the form of what it should say.
#[derive(Clone, Copy, Debug, PartialEq, Eq)]
pub struct Malformed;
