// What the table of commits holds of one commit.
use crate::object_id::ObjectId;

#[derive(Clone, Copy, PartialEq, Eq, Debug)]
pub struct CommitRow {
    pub id: ObjectId,
    pub tree: ObjectId,
    pub date: u64,
    // the topological level
    pub level: u32,
    // the corrected commit date
    pub corrected: u64,
    // where the commit's parents begin in the table of parents, and how many there are: a row has no memory of its own
    pub from: u32,
    pub size: u32,
}

impl CommitRow {
    // What a table may hold before commits are added.
    pub const EMPTY: CommitRow = CommitRow {
        id: ObjectId::ZERO,
        tree: ObjectId::ZERO,
        date: 0,
        level: 0,
        corrected: 0,
        from: 0,
        size: 0,
    };
}
