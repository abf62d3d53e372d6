// The kind that tells nothing: it has one label, and never rules a commit out.
ghost use Rattle.labels.specs.Kinds.{blank_start, blank_grown, blank_allows};
ghost use Rattle.std.proofs.Common.{rules};

use crate::kind::LabelKind;

pub struct Blank;

impl LabelKind for Blank {
    type Label = ();

    ghost start = { blank_start };

    ghost grown = { blank_grown };

    ghost allows = { blank_allows };

    ghost transitive = { Prim.search rules };

    ghost over = { Prim.search rules };

    ghost kept = { Prim.search rules };

    fn first(_number: u32, _date: u64) {}

    fn grow(_x: (), _p: ()) {}

    fn may(_x: (), _y: ()) -> bool {
        true
    }
}
