// A queue in the first entries of a slice.
ghost use Rattle.std.specs.Prelude.{◌≡◌, ◌+◌, ◌<◌, ◌≤◌, ◌∷◌, length, take, drop, MatchOption};
ghost use Rattle.std.specs.List.Sorted.{IsPermutation};
ghost use Rattle.frontier.specs.Heaps.{Queued, Queued-prop, TakenOut};

use crate::heap::{put_last, take_first};
use crate::order::Ranked;

// The elements that wait, in the first `count` entries that the caller lends.
#[derive(Drop)]
pub struct Queue<'q, T: Ranked> {
    pub(crate) entries: &'q mut [T],
    pub(crate) count: usize,
    ghost within: { count ≤ length entries.now },
    ghost queued: { Queued T.Ranked.before entries.now count } by { Queued-prop T.Ranked.before entries.now count },
}

#[tactic(auto, unfolding(crate::specs::Heaps::Queued))]
impl<'q, T: Ranked> Queue<'q, T> {
    // The queue that the first `count` entries hold.
    pub fn of(entries: &'q mut [T], count: usize) -> Queue<'q, T>
        requires within { count ≤ length entries.old }
        requires queued { Queued T.Ranked.before entries.old count }
        ensures count { result.count ≡ count }
        ensures entries { result.entries.now ≡ entries.old }
        ensures same_reference { result.entries.ghost_name ≡ entries.entry.ghost_name }
    {
        Queue { entries, count }
    }

    // An empty queue.
    pub fn over(entries: &'q mut [T]) -> Queue<'q, T>
        ensures empty { result.count ≡ 0 }
        ensures entries { result.entries.now ≡ entries.old }
        ensures same_reference { result.entries.ghost_name ≡ entries.entry.ghost_name }
    {
        Queue::of(entries, 0)
    }

    // Puts in x.
    pub fn push(&mut self, x: T)
        requires room { self.old.count < length self.old.entries.now }
        ensures count { self.new.count ≡ self.old.count + 1 }
        ensures holds { IsPermutation (x ∷ take self.old.count self.old.entries.now) (take self.new.count self.new.entries.now) }
        ensures rest { drop self.new.count self.new.entries.now ≡ drop self.new.count self.old.entries.now }
        ensures long { length self.new.entries.now ≡ length self.old.entries.now }
        ensures same_reference { self.new.entries.ghost_name ≡ self.old.entries.ghost_name }
    {
        put_last(&mut self.entries[..self.count + 1], x);
        self.count += 1;
    }

    // Takes out the element that comes first, if there is one.
    pub fn pop(&mut self) -> Option<T>
        ensures cases { MatchOption result ((self.old.count ≡ 0) × (self.new ≡ self.old)) (λ x. (self.new.count + 1 ≡ self.old.count) × TakenOut T.Ranked.before self.old.entries.now self.new.entries.now self.old.count x) }
        ensures rest { drop self.old.count self.new.entries.now ≡ drop self.old.count self.old.entries.now }
        ensures long { length self.new.entries.now ≡ length self.old.entries.now }
        ensures same_reference { self.new.entries.ghost_name ≡ self.old.entries.ghost_name }
    {
        if self.count == 0 {
            return None;
        }
        self.count -= 1;
        Some(take_first(&mut self.entries[..self.count + 1]))
    }
}
