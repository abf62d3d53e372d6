// Which commits a merge starts from.
ghost use Rattle.std.specs.Prelude.{◌≡◌, ℕ, ◌+◌, max, List, length, slice_set};
ghost use Rattle.history.specs.Graph.{history};
ghost use Rattle.ancestry.specs.Ancestry.{Bases, filled};
ghost use Rattle.ancestry.specs.Refusing.{walk_refusal, counted_reply, Cleared, Lent, LentBack, Merged};

use crate::goal::Goal;
use crate::marks::Marks;
use crate::paint::Paint;
use crate::refuse::check;
use crate::walk::Walk;
use frontier::ByNumber;
use history::{CommitGraph, Refusal};
use labels::LabelKind;

// Puts a result at its place, if the list has that place. By index: a write through `get_mut` tells a proof nothing of the list.
fn note(results: &mut [u32], place: usize, number: u32)
    ensures { results.new ≡ slice_set results.old place number }
{
    if place < results.len() {
        results[place] = number;
    }
}

// The count of the results, or the length needed where the list is too short for them. As for a file's buffer, but of a `u32`: the two crates share only
// the refusal.
fn reply(room: usize, found: u32) -> Result<u32, Refusal>
    ensures { result ≡ counted_reply room found }
{
    if room < found as usize {
        return Err(Refusal::ResultTooShort(found as usize));
    }
    Ok(found)
}

// Lists on clear marks, as many as the walk needs, and counts all merge bases. Counted by hand: the count is also the answer, which an `enumerate`
// does not leave behind. The walk begins in here: a caller with both guard and walk would know nothing of its marks at the end.
fn list<K: LabelKind>(
    graph: &CommitGraph<'_, K>,
    a: u32,
    b: u32,
    results: &mut [u32],
    marks: &mut [u8],
    queue: &mut [ByNumber],
) -> u32
    requires { Lent a b graph.now.count marks.old queue.old }
    ensures { (list : List ℕ) × Bases (history graph.now) a b 0 list × (results.new ≡ filled list results.old) × (result ≡ length list) }
{
    let mut found: u32 = 0;
    for (number, paint) in Walk::begin(graph, Goal::Bases, a, b, marks, queue) {
        if paint == Paint::Both {
            note(results, found as usize, number);
            found += 1;
        }
    }
    found
}

// The common ancestors that no other common ancestor reaches, in falling number, and how many there are. Marks and queue must have an entry for each
// commit up to the greater of the two; these marks are put back to 0. A list that is too short holds the first that fit.
pub fn merge_bases<K: LabelKind>(
    graph: &CommitGraph<'_, K>,
    a: u32,
    b: u32,
    results: &mut [u32],
    marks: &mut [u8],
    queue: &mut [ByNumber],
) -> Result<u32, Refusal>
    ensures answer { Merged (history graph.now) a b (walk_refusal (length (history graph.now)) (max a b) (length marks.old) (length queue.old)) results.old results.new result }
    ensures buffers { LentBack (walk_refusal (length (history graph.now)) (max a b) (length marks.old) (length queue.old)) (max a b + 1) marks.old marks.new queue.old queue.new }
{
    let top = a.max(b) as usize;
    check(graph.held(), top, marks.len(), queue.len())?;
    let used = top + 1;
    let guard = Marks::over(marks, used);
    let found = list(
        graph,
        a,
        b,
        results,
        &mut guard.bytes[0..used],
        &mut queue[0..used],
    );
    reply(results.len(), found)
}
