// What a walk reads of a commit. Only our own crates call these, with numbers that are held.
ghost use Rattle.std.specs.Prelude.{◌≡◌, ◌<◌, slice_index, slice_index_or};
ghost use Rattle.history.specs.Graph.{history, labels};
ghost use Rattle.history.specs.History.{parents_of};
ghost use Rattle.history.specs.Tables.{row_of};

use crate::graph::CommitGraph;
use crate::row::CommitRow;
use labels::LabelKind;

impl<'a, K: LabelKind> CommitGraph<'a, K> {
    pub fn row_at(&self, number: usize) -> CommitRow
        requires { number < self.now.count }
        ensures { result ≡ row_of self.now.rows.now number }
    {
        self.rows[number]
    }

    pub fn parents_at(&self, number: usize) -> &[u32]
        requires { number < self.now.count }
        ensures { result.now ≡ parents_of (history self.now) number }
    {
        let row = self.row_at(number);
        let from = row.from as usize;
        &self.parents[from..from + row.size as usize]
    }

    pub fn label_at(&self, number: usize) -> K::Label
        requires { number < self.now.count }
        ensures { (d : K.Label) → result ≡ slice_index_or (labels self.now) number d }
    {
        self.labels[number]
    }

    // The commit at a place of the order by id.
    pub fn number_at(&self, place: usize) -> u32
        requires { place < self.now.count }
        ensures value { result ≡ slice_index self.now.order.now place }
        ensures held { result < self.now.count }
    {
        self.order[place]
    }
}
