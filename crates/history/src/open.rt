// Opening an empty history over lent tables.
ghost use Rattle.std.specs.Prelude.{◌≡◌, min, [], length};
ghost use Rattle.history.specs.Graph.{Represents};
ghost use Rattle.history.specs.Model.{opened};

use crate::graph::CommitGraph;
use crate::row::CommitRow;
use labels::LabelKind;

impl<'a, K: LabelKind> CommitGraph<'a, K> {
    // An empty history. The table of parents takes one entry for each listed parent, each other table one entry a commit.
    pub fn open(
        rows: &'a mut [CommitRow],
        labels: &'a mut [K::Label],
        order: &'a mut [u32],
        parents: &'a mut [u32],
    ) -> CommitGraph<'a, K>
        ensures tables { (result.rows.now ≡ rows.old) × (result.labels.now ≡ labels.old) × (result.order.now ≡ order.old) × (result.parents.now ≡ parents.old) }
        ensures empty { Represents K.LabelKind.start K.LabelKind.grown (opened (length rows.old) (length labels.old) (length order.old) (length parents.old)) result }
    {
        CommitGraph {
            rows,
            labels,
            order,
            parents,
            count: 0,
            used: 0,
        }
    }
}
