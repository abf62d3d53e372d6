// A binary heap that fills its slice: its entries go up and down until each comes after its parent. The functions take the slice alone: while an entry
// moves, what `Queue` always keeps does not hold.
ghost use Rattle.std.specs.Prelude.{◌≡◌, ◌+◌, ◌-◌, ◌*◌, ◌<◌, ◌∷◌, length, take, slice_index_or};
ghost use Rattle.std.specs.List.Sorted.{IsPermutation};
ghost use Rattle.frontier.specs.Heaps.{First, Queued, Sinking, SoonerChild};

use crate::order::Ranked;

// Whether the entry at i comes before the one at j.
fn sooner<T: Ranked>(heap: &[T], i: usize, j: usize) -> bool
    requires i_within { i < length heap.now }
    requires j_within { j < length heap.now }
    ensures { (d : T) → result ≡ T.Ranked.before (slice_index_or heap.now i d) (slice_index_or heap.now j d) }
{
    heap[i].comes_first(heap[j])
}

// Moves the last entry up past each parent that it comes before.
#[tactic(auto, unfolding(crate::specs::Heaps::Queued))]
fn sift_up<T: Ranked>(heap: &mut [T])
    requires some { 0 < length heap.old }
    requires queued { Queued T.Ranked.before heap.old (length heap.old - 1) }
    ensures queued { Queued T.Ranked.before heap.new (length heap.new) }
    ensures shuffled { IsPermutation heap.old heap.new }
{
    let mut i = heap.len() - 1;
    // no count: it climbs from child to parent
    while i > 0 {
        let parent = (i - 1) / 2;
        if !sooner(heap, i, parent) {
            return;
        }
        heap.swap(i, parent);
        i = parent;
    }
}

// The child of entry i that comes first of its one or two.
fn sooner_child<T: Ranked>(heap: &[T], i: usize) -> usize
    requires { 2 * i + 1 < length heap.now }
    ensures { SoonerChild T.Ranked.before heap.now (length heap.now) i result }
{
    let left = 2 * i + 1;
    let right = left + 1;
    if right < heap.len() && sooner(heap, right, left) {
        return right;
    }
    left
}

// Moves the first entry down past each child that comes before it.
#[tactic(auto, unfolding(crate::specs::Heaps::Queued))]
fn sift_down<T: Ranked>(heap: &mut [T])
    requires { Sinking T.Ranked.before heap.old (length heap.old) 0 }
    ensures queued { Queued T.Ranked.before heap.new (length heap.new) }
    ensures shuffled { IsPermutation heap.old heap.new }
{
    let mut i = 0;
    // no count: it goes down from parent to child
    while i < heap.len() / 2 {
        let child = sooner_child(heap, i);
        if !sooner(heap, child, i) {
            return;
        }
        heap.swap(i, child);
        i = child;
    }
}

// Puts x at the last place, which is free, and lets it rise.
#[tactic(auto, using(crate::proofs::Fronts::put_holds), unfolding(crate::specs::Heaps::Queued))]
pub(crate) fn put_last<T: Ranked>(heap: &mut [T], x: T)
    requires some { 0 < length heap.old }
    requires queued { Queued T.Ranked.before heap.old (length heap.old - 1) }
    ensures queued { Queued T.Ranked.before heap.new (length heap.new) }
    ensures holds { IsPermutation (x ∷ take (length heap.old - 1) heap.old) heap.new }
{
    let last = heap.len() - 1;
    heap[last] = x;
    sift_up(heap);
}

// Takes out the first entry, which leaves the last place free.
#[tactic(auto, unfolding(crate::specs::Heaps::Queued))]
pub(crate) fn take_first<T: Ranked>(heap: &mut [T]) -> T
    requires some { 0 < length heap.old }
    requires queued { Queued T.Ranked.before heap.old (length heap.old) }
    ensures first { First T.Ranked.before heap.old (length heap.old) result }
    ensures queued { Queued T.Ranked.before heap.new (length heap.old - 1) }
    ensures holds { IsPermutation (result ∷ take (length heap.old - 1) heap.new) heap.old }
{
    let last = heap.len() - 1;
    let first = heap[0];
    heap.swap(0, last);
    sift_down(&mut heap[..last]);
    first
}
