// The history's tables. The ghost fields say what makes every access safe, and that what is held beside the commits is what the rules make of them.
// That ids differ and that the order by id is right is no field: a load writes commits first, and their order at the end.
ghost use Rattle.std.specs.Prelude.{◌≡◌, ◌≤◌, length};
ghost use Rattle.history.specs.Computed.{Computed};
ghost use Rattle.history.specs.History.{Proper};
ghost use Rattle.history.specs.Tables.{Inside, Earlier, Bounded, Within, commits};

use crate::row::CommitRow;
use labels::LabelKind;

#[derive(Drop)]
pub struct CommitGraph<'a, K: LabelKind> {
    // one entry a commit, by number
    pub(crate) rows: &'a mut [CommitRow],
    // apart from the rows, whose type is the same for every label kind
    pub(crate) labels: &'a mut [K::Label],
    // the commits' numbers in rising order of their ids
    pub(crate) order: &'a mut [u32],
    // one entry for each listed parent
    pub(crate) parents: &'a mut [u32],
    // how many entries hold commits, and how many listed parents: the tables are lent, and often longer
    pub(crate) count: usize,
    pub(crate) used: usize,
    ghost rowed: { count ≤ length rows.now },
    ghost labelled: { count ≤ length labels.now },
    ghost listed: { count ≤ length order.now },
    ghost few: { count ≤ 65536 },
    ghost parented: { used ≤ length parents.now },
    ghost short: { used ≤ 262144 },
    ghost inside: { Inside rows.now count used },
    ghost earlier: { Earlier rows.now parents.now count },
    ghost bounded: { Bounded rows.now count },
    ghost within: { Within order.now count },
    ghost unused: { count ≡ 0 → used ≡ 0 },
    ghost proper: { Proper (commits rows.now parents.now count) },
    ghost computed: { Computed K.LabelKind.start K.LabelKind.grown (commits rows.now parents.now count) rows.now labels.now count used },
}
