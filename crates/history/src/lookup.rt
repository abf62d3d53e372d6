// Finding a commit by its id.
ghost use Rattle.std.specs.Prelude.{◌≡◌, ◌<◌, ◌≤◌, ◌&&◌, nat_lt};
ghost use Rattle.history.specs.Graph.{Represents};
ghost use Rattle.history.specs.History.{find_id};
ghost use Rattle.history.specs.Ids.{precedes};
ghost use Rattle.history.specs.Model.{Model};
ghost use Rattle.history.specs.Order.{Splits};
ghost use Rattle.history.specs.Tables.{row_of, Rising};

use crate::graph::CommitGraph;
use crate::object_id::ObjectId;
use labels::LabelKind;

impl<'a, K: LabelKind> CommitGraph<'a, K> {
    fn id_at(&self, number: usize) -> ObjectId
        requires { number < self.now.count }
        ensures { result ≡ (row_of self.now.rows.now number).id }
    {
        self.rows[number].id
    }

    // Whether the number is a commit's, and its id comes before the other.
    fn comes_before(&self, number: u32, id: ObjectId) -> bool
        ensures { result ≡ (nat_lt number self.now.count && precedes (row_of self.now.rows.now number).id.bytes id.bytes) }
    {
        let number = number as usize;
        number < self.count && self.id_at(number).is_before(id)
    }

    // How many commits have an id before this one, found by halving.
    pub fn place(&self, id: ObjectId) -> usize
        ensures within { result ≤ self.now.count }
        ensures splits { Rising self.now.rows.now self.now.order.now self.now.count → Splits self.now.rows.now self.now.order.now self.now.count id.bytes result result }
    {
        self.by_id().partition_point(|n| self.comes_before(*n, id))
    }

    // The number of the commit that has the id, or that there is none.
    pub fn find(&self, id: ObjectId) -> Option<u32>
        ensures { (m : Model) → Represents K.LabelKind.start K.LabelKind.grown m self.now → result ≡ find_id m.commits id.bytes }
    {
        let place = self.place(id);
        if place >= self.count {
            return None;
        }
        let number = self.number_at(place);
        if self.id_at(number as usize) == id {
            Some(number)
        } else {
            None
        }
    }
}
