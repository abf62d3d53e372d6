// The elements that walks queue.
ghost use Rattle.std.specs.Prelude.{nat_lt};
ghost use Rattle.frontier.specs.Orders.{lexical};
ghost use Rattle.std.proofs.Common.{rules};

use crate::order::Ranked;

// A commit by its number: the greatest number comes first.
#[derive(Clone, Copy, PartialEq, Eq, Debug)]
pub struct ByNumber {
    pub number: u32,
}

impl Ranked for ByNumber {
    ghost before = { λ x y. nat_lt y.number x.number };

    ghost ordered = { Prim.search rules };

    fn comes_first(self, other: ByNumber) -> bool {
        other.number < self.number
    }
}

// A commit by its date: the latest comes first, and of equal dates the greatest number.
#[derive(Clone, Copy, PartialEq, Eq, Debug)]
pub struct ByDate {
    pub date: u64,
    pub number: u32,
}

impl Ranked for ByDate {
    ghost before = { λ x y. lexical y.date y.number x.date x.number };

    ghost ordered = { Prim.search rules };

    fn comes_first(self, other: ByDate) -> bool {
        (self.date, self.number) > (other.date, other.number)
    }
}

// A commit of a file by its level: the lowest comes first, and of equal levels the lowest position in the file. Not one type with `ByDate`: each names
// its parts, and one wants the greatest first, the other the least.
#[derive(Clone, Copy, PartialEq, Eq, Debug)]
pub struct ByLevel {
    pub level: u32,
    pub position: u32,
}

impl Ranked for ByLevel {
    ghost before = { λ x y. lexical x.level x.position y.level y.position };

    ghost ordered = { Prim.search rules };

    fn comes_first(self, other: ByLevel) -> bool {
        (self.level, self.position) < (other.level, other.position)
    }
}
