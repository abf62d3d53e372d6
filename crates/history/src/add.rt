// Adding a commit.
ghost use Rattle.std.specs.Prelude.{◌≡◌, ◌≤◌, true, length, is_ok, MatchResult};
ghost use Rattle.history.specs.Graph.{Represents, FilledWith, capacity, parent_capacity};
ghost use Rattle.history.specs.Model.{Model, all_below, add_refusal, add_reply, after_add, commit_given, refused_with};
ghost use Rattle.history.specs.Order.{Placed};
ghost use Rattle.history.specs.Room.{Fits, Appended, given};

use crate::graph::CommitGraph;
use crate::object_id::ObjectId;
use crate::refusal::Refusal;
use crate::row::CommitRow;
use labels::LabelKind;

const LATEST_DATE: u64 = 17_179_869_183;

const MOST_PARENTS: usize = 64;

const MOST_COMMITS: usize = 65_536;

const MOST_LISTED: usize = 262_144;

// A commit as it is given. The public calls take its parts one by one, as callers have them.
#[derive(Clone, Copy)]
struct NewCommit<'a> {
    id: ObjectId,
    tree: ObjectId,
    date: u64,
    parents: &'a [u32],
}

// Whether each parent is one of the first `count` commits.
fn all_held(parents: &[u32], count: usize) -> bool
    ensures { result ≡ all_below parents.now count }
{
    parents.iter().all(|p| (*p as usize) < count)
}

impl<'a, K: LabelKind> CommitGraph<'a, K> {
    // How many commits the tables can hold.
    pub fn capacity(&self) -> usize
        ensures { result ≡ capacity self.now }
    {
        let of_rows = self.rows.len().min(self.labels.len());
        of_rows.min(self.order.len().min(MOST_COMMITS))
    }

    // How many listed parents they can hold.
    pub fn parent_capacity(&self) -> usize
        ensures { result ≡ parent_capacity self.now }
    {
        self.parents.len().min(MOST_LISTED)
    }

    // Refuses a commit that cannot be added.
    fn admits(&self, new: &NewCommit) -> Result<(), Refusal>
        ensures refusal { (m : Model) → Represents K.LabelKind.start K.LabelKind.grown m self.now → refused_with result ≡ add_refusal m (given new.now) }
        ensures fits { is_ok result ≡ true → Fits self.now new.now.date new.now.parents.now }
    {
        if new.date > LATEST_DATE {
            return Err(Refusal::DateTooLate);
        }
        if new.parents.len() > MOST_PARENTS {
            return Err(Refusal::TooManyParents);
        }
        if !all_held(new.parents, self.count) {
            return Err(Refusal::ParentNotHeld);
        }
        if self.find(new.id).is_some() {
            return Err(Refusal::IdHeld);
        }
        if self.count >= self.capacity() {
            return Err(Refusal::CapacityPassed);
        }
        if self.used + new.parents.len() > self.parent_capacity() {
            return Err(Refusal::ParentCapacityPassed);
        }
        Ok(())
    }

    // Writes the commit behind the others, and its number into the order by id at the place.
    fn append_at(&mut self, place: usize, new: &NewCommit) -> u32
        requires fits { Fits self.old new.now.date new.now.parents.now }
        requires among { place ≤ self.old.count }
        ensures number { result ≡ self.old.count }
        ensures tables { Appended self.old self.new (length new.now.parents.now) }
        ensures filled { FilledWith K.LabelKind.start K.LabelKind.grown (given new.now) self.old self.new }
        ensures order { Placed self.old.rows.now self.old.order.now self.new.rows.now self.new.order.now self.old.count new.now.id.bytes place }
    {
        let number = self.count;
        let used = self.used;
        let behind = used + new.parents.len();
        let growth = self.growth(new.date, new.parents);
        self.parents[used..behind].copy_from_slice(new.parents);
        self.rows[number] = CommitRow {
            id: new.id,
            tree: new.tree,
            date: new.date,
            level: growth.level,
            corrected: growth.corrected,
            from: used as u32,
            size: new.parents.len() as u32,
        };
        self.labels[number] = growth.label;
        // counted first, and then moved to its place: the order by id holds counted commits alone
        self.order[number] = number as u32;
        self.used = behind;
        self.count = number + 1;
        self.order[place..=number].rotate_right(1);
        number as u32
    }

    // Writes the commit behind the others, and its number at the end of the order by id, which is to be put right later. Only our own crates call this.
    pub fn append_unordered(
        &mut self,
        id: ObjectId,
        tree: ObjectId,
        date: u64,
        parents: &[u32],
    ) -> u32
        requires fits { Fits self.old date parents.now }
        ensures number { result ≡ self.old.count }
        ensures tables { Appended self.old self.new (length parents.now) }
        ensures filled { FilledWith K.LabelKind.start K.LabelKind.grown (commit_given id tree date parents.now) self.old self.new }
    {
        let last = self.count;
        self.append_at(
            last,
            &NewCommit {
                id,
                tree,
                date,
                parents,
            },
        )
    }

    // Adds a commit at the end and answers its number, or says why it cannot be added; nothing changes then.
    pub fn add(
        &mut self,
        id: ObjectId,
        tree: ObjectId,
        date: u64,
        parents: &[u32],
    ) -> Result<u32, Refusal>
        ensures reply { (m : Model) → Represents K.LabelKind.start K.LabelKind.grown m self.old → result ≡ add_reply m (commit_given id tree date parents.now) }
        ensures represents { (m : Model) → Represents K.LabelKind.start K.LabelKind.grown m self.old → Represents K.LabelKind.start K.LabelKind.grown (after_add m (commit_given id tree date parents.now)) self.new }
        ensures tables { MatchResult result (λ _. Appended self.old self.new (length parents.now)) (λ _. self.new ≡ self.old) }
    {
        let new = NewCommit {
            id,
            tree,
            date,
            parents,
        };
        self.admits(&new)?;
        let place = self.place(id);
        Ok(self.append_at(place, &new))
    }
}
