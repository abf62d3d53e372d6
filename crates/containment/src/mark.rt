// What the mark of a commit tells. The bytes that callers lend hold 0 and 1, and 2 only while a question is worked on.
#[derive(Clone, Copy)]
pub enum Mark {
    Clear = 0,
    OnTrail = 1,
    // on the trail, and known to reach the target
    Reaching = 2,
}
