// Putting the order by id right, where commits were written without it.
ghost use Rattle.std.specs.Prelude.{◌≡◌, ℕ, ◌<◌, length, slice_index};
ghost use Rattle.history.specs.Graph.{Filled, Represents};
ghost use Rattle.history.specs.Model.{Model};
ghost use Rattle.history.specs.Room.{Reordered};
ghost use Rattle.history.specs.Tables.{Rising, Complete};

use crate::graph::CommitGraph;
use labels::LabelKind;

impl<'a, K: LabelKind> CommitGraph<'a, K> {
    // Writes the order by id anew. Only our own crates call this, with the numbers of all commits.
    pub fn put_order(&mut self, order: &[u32])
        requires long { length order.now ≡ self.old.count }
        requires held { (i : ℕ) → i < self.old.count → slice_index order.now i < self.old.count }
        ensures tables { Reordered self.old self.new order.now }
        ensures represents { (m : Model) → Filled K.LabelKind.start K.LabelKind.grown m self.old → Rising self.old.rows.now order.now self.old.count → Complete order.now self.old.count → Represents K.LabelKind.start K.LabelKind.grown m self.new }
    {
        self.order[..self.count].copy_from_slice(order);
    }
}
