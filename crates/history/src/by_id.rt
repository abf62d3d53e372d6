// The commits in the order of their ids.
ghost use Rattle.std.specs.Prelude.{◌≡◌, take};

use crate::graph::CommitGraph;
use labels::LabelKind;

impl<'a, K: LabelKind> CommitGraph<'a, K> {
    // The commits' numbers in rising order of id.
    pub fn by_id(&self) -> &[u32]
        ensures { result.now ≡ take self.now.count self.now.order.now }
    {
        &self.order[..self.count]
    }
}
