// How far two lines have parted.
ghost use Rattle.std.specs.Prelude.{◌≡◌, ◌+◌, max, length, IfOk, MatchResult};
ghost use Rattle.history.specs.Graph.{history};
ghost use Rattle.history.specs.Model.{refused_with};
ghost use Rattle.ancestry.specs.Ancestry.{Parted};
ghost use Rattle.ancestry.specs.Refusing.{walk_refusal, Cleared, Lent};

use crate::goal::Goal;
use crate::marks::Marks;
use crate::paint::Paint;
use crate::refuse::check;
use crate::walk::Walk;
use frontier::ByNumber;
use history::{CommitGraph, Refusal};
use labels::LabelKind;

// Counts on clear marks, as many as the walk needs. Not one with `list`: that one lists a paint, this one counts two. A `for`, since one walk gives both
// counts, and no chain does. The walk begins in here: a caller with both guard and walk would know nothing of its marks at the end.
fn count<K: LabelKind>(
    graph: &CommitGraph<'_, K>,
    a: u32,
    b: u32,
    marks: &mut [u8],
    queue: &mut [ByNumber],
) -> (u32, u32)
    requires { Lent a b graph.now.count marks.old queue.old }
    ensures { Parted (history graph.now) a b result.0 result.1 }
{
    let mut ahead = 0;
    let mut behind = 0;
    for (_, paint) in Walk::begin(graph, Goal::Counts, a, b, marks, queue) {
        match paint {
            Paint::Left => ahead += 1,
            Paint::Right => behind += 1,
            _ => {}
        }
    }
    (ahead, behind)
}

// The ancestors that only a has, and those that only b has, counted. Marks and queue must have an entry for each commit up to the greater of the two;
// these marks are put back to 0.
pub fn ahead_behind<K: LabelKind>(
    graph: &CommitGraph<'_, K>,
    a: u32,
    b: u32,
    marks: &mut [u8],
    queue: &mut [ByNumber],
) -> Result<(u32, u32), Refusal>
    ensures refusal { refused_with result ≡ walk_refusal (length (history graph.now)) (max a b) (length marks.old) (length queue.old) }
    ensures answer { IfOk result (λ x. Parted (history graph.now) a b x.0 x.1) }
    ensures buffers { MatchResult result (λ _. Cleared (max a b + 1) marks.old marks.new queue.old queue.new) (λ _. (marks.new ≡ marks.old) × (queue.new ≡ queue.old)) }
{
    let top = a.max(b) as usize;
    check(graph.held(), top, marks.len(), queue.len())?;
    let used = top + 1;
    let guard = Marks::over(marks, used);
    Ok(count(graph, a, b, &mut guard.bytes[0..used], &mut queue[0..used]))
}
