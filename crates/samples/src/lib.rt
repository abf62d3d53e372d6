// What the tests make their histories of. It has no functions, so there is nothing to promise.
#![tactic(auto)]

// A commit to add. Its id begins with a byte and goes on with zeros.
#[derive(Clone, Copy)]
pub struct Given<'a> {
    pub id: u8,
    pub date: u64,
    pub parents: &'a [u32],
}

// Seven commits with two roots and a merge of three.
pub const SEVEN: [Given<'static>; 7] = [
    Given {
        id: 0x50,
        date: 100,
        parents: &[],
    },
    Given {
        id: 0x30,
        date: 90,
        parents: &[0],
    },
    Given {
        id: 0x40,
        date: 120,
        parents: &[0],
    },
    Given {
        id: 0x20,
        date: 130,
        parents: &[1, 2],
    },
    Given {
        id: 0x60,
        date: 110,
        parents: &[2, 1],
    },
    Given {
        id: 0x10,
        date: 50,
        parents: &[],
    },
    Given {
        id: 0x70,
        date: 140,
        parents: &[3, 4, 5],
    },
];
