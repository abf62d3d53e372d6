// Two kinds side by side: a label has both labels, and a commit is ruled out when either part rules it out.
ghost use Rattle.labels.specs.Kinds.{pair_start, pair_grown, pair_allows};
ghost use Rattle.labels.specs.Lawful.{pair_laws};

use crate::kind::LabelKind;

pub struct Pair<A, B>(A, B);

impl<A: LabelKind, B: LabelKind> LabelKind for Pair<A, B> {
    type Label = (A::Label, B::Label);

    ghost start = { pair_start A.LabelKind.start B.LabelKind.start };

    ghost grown = { pair_grown A.LabelKind.grown B.LabelKind.grown };

    ghost allows = { pair_allows A.LabelKind.allows B.LabelKind.allows };

    ghost transitive = { (pair_laws A.laws B.laws).transitive };

    ghost over = { (pair_laws A.laws B.laws).over };

    ghost kept = { (pair_laws A.laws B.laws).kept };

    fn first(number: u32, date: u64) -> (A::Label, B::Label) {
        (A::first(number, date), B::first(number, date))
    }

    fn grow(x: (A::Label, B::Label), p: (A::Label, B::Label)) -> (A::Label, B::Label) {
        (A::grow(x.0, p.0), B::grow(x.1, p.1))
    }

    fn may(x: (A::Label, B::Label), y: (A::Label, B::Label)) -> bool {
        A::may(x.0, y.0) && B::may(x.1, y.1)
    }
}
