// The queue of a load: every file position, the lowest level first.
ghost use Rattle.std.specs.Prelude.{◌≡◌, ◌<◌, ◌≤◌, length, take, drop, sum_by};
ghost use Rattle.graph_reader.specs.Bytes.{told_count};
ghost use Rattle.graph_reader.specs.Verdict.{parents_in, total_of};
ghost use Rattle.loading.specs.Waiting.{AllWait, key, listed_by};

use frontier::{ByLevel, Queue};
use graph_reader::GraphFile;

// A position as it waits: with its level.
fn waiting(source: &GraphFile<'_>, position: usize) -> ByLevel
    requires held { position < told_count source.now.file.now }
    requires few { position ≤ 65536 }
    ensures { result ≡ key source.now.file.now position }
{
    ByLevel {
        level: source.level(position),
        position: position as u32,
    }
}

// Queues each position with its level, in the entries that are lent.
pub(crate) fn queue_all<'q>(source: &GraphFile<'_>, lent: &'q mut [ByLevel]) -> Queue<'q, ByLevel>
    requires { told_count source.now.file.now ≤ length lent.old }
    ensures count { result.count ≡ told_count source.now.file.now }
    ensures waiting { AllWait source.now.file.now (told_count source.now.file.now) result.entries.now }
    ensures listed { sum_by (listed_by source.now.file.now) (take (told_count source.now.file.now) result.entries.now) ≡ total_of (parents_in source.now.file.now) }
    ensures rest { drop (told_count source.now.file.now) result.entries.now ≡ drop (told_count source.now.file.now) lent.old }
    ensures same_reference { result.entries.ghost_name ≡ lent.entry.ghost_name }
{
    let mut queue = Queue::over(lent);
    // a position is what a file calls a commit by
    for position in 0..source.count() {
        queue.push(waiting(source, position));
    }
    queue
}
