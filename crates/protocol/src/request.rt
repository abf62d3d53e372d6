// What a line asks for.
ghost use Rattle.std.specs.Prelude.{◌≡◌, min};

use crate::kind::Kind;
use crate::lengths::Lengths;
use history::ObjectId;

// A label kind and the lengths of the tables.
#[derive(Clone, Copy)]
pub struct Opening {
    pub kind: Kind,
    pub rows: usize,
    pub labels: usize,
    pub order: usize,
    pub parents: usize,
}

impl Opening {
    // How many commits such tables take: as a history answers it, told of the lengths before there are tables.
    pub fn capacity(self) -> usize
        ensures { result ≡ min (min self.rows self.labels) (min self.order 65536) }
    {
        self.rows.min(self.labels).min(self.order.min(65_536))
    }

    // How many listed parents such tables take, in the same way.
    pub fn parent_capacity(self) -> usize
        ensures { result ≡ min self.parents 262144 }
    {
        self.parents.min(262_144)
    }
}

#[derive(Drop)]
pub struct Addition {
    pub id: ObjectId,
    pub tree: ObjectId,
    pub date: u64,
    pub parents: Vec<u32>,
}

// Which of the tips contain the target.
#[derive(Drop)]
pub struct Containment {
    pub target: u32,
    pub tips: Vec<u32>,
    pub lengths: Lengths,
}

// Two commits whose ancestors are compared.
#[derive(Clone, Copy)]
pub struct TwoCommits {
    pub a: u32,
    pub b: u32,
    pub lengths: Lengths,
}

// Where a file is to be written, and the length of the buffer for it where the request sets that.
#[derive(Drop)]
pub struct Writing {
    pub path: String,
    pub length: Option<usize>,
}

#[derive(Drop)]
pub enum Request {
    // a blank line or a comment: a case here, since no request at all is the end of the input
    Nothing,
    Open(Opening),
    Add(Addition),
    Find(ObjectId),
    Show(u32),
    Contains(Containment),
    AheadBehind(TwoCommits),
    MergeBases(TwoCommits),
    Write(Writing),
}
