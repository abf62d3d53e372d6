// Numbering the commits of a file, and writing them into the tables.
ghost use Rattle.std.specs.Prelude.{◌≡◌, ℕ, ◌+◌, ◌<◌, ◌≤◌, List, [], map, length, take, None, sum_by, slice_index, slice_set};
ghost use Rattle.graph_reader.specs.Bytes.{told_count};
ghost use Rattle.graph_reader.specs.FileCommits.{file_commit, renumbered};
ghost use Rattle.graph_reader.specs.Verdict.{parents_in, total_of};
ghost use Rattle.history.specs.Graph.{Filled, capacity, parent_capacity};
ghost use Rattle.history.specs.History.{find_id};
ghost use Rattle.history.specs.Model.{Model, plus};
ghost use Rattle.history.specs.Room.{Appended};
ghost use Rattle.loading.specs.Filling.{Roomy, Admitted};
ghost use Rattle.loading.specs.Waiting.{AllWait, listed_by};

use arrayvec::ArrayVec;
use frontier::{ByLevel, Queue};
use graph_reader::GraphFile;
use history::CommitGraph;
use labels::LabelKind;

// The numbers that the positions of a list were given.
#[tactic(auto, using(std::proofs::lemmas::List::map_more))]
fn numbers_of(positions: &[u32], places: &[u32]) -> ArrayVec<u32, 64>
    requires few { length positions.now ≤ 64 }
    requires held { (j : ℕ) → j < length positions.now → slice_index positions.now j < length places.now }
    ensures { result.items ≡ map (λ q. slice_index places.now q) positions.now }
{
    let mut numbers = ArrayVec::new();
    // pushed one by one: `collect` would ask for an allocator and could fail
    for position in positions {
        numbers.push(places[*position as usize]);
    }
    numbers
}

// Writes the commit at a position behind the others, and notes its number.
fn admit<K: LabelKind>(
    graph: &mut CommitGraph<'_, K>,
    source: &GraphFile<'_>,
    places: &mut [u32],
    position: usize,
)
    requires held { position < told_count source.now.file.now }
    requires long { told_count source.now.file.now ≤ length places.old }
    requires sound { ((file_commit source.now.file.now position).date ≤ 17179869183) × (length (file_commit source.now.file.now position).parents ≤ 64) }
    requires listed { (j : ℕ) → j < length (file_commit source.now.file.now position).parents → slice_index (file_commit source.now.file.now position).parents j < told_count source.now.file.now }
    requires numbered { (j : ℕ) → j < length (file_commit source.now.file.now position).parents → slice_index places.old (slice_index (file_commit source.now.file.now position).parents j) < graph.old.count }
    requires room { graph.old.count < capacity graph.old }
    requires parent_room { graph.old.used + length (file_commit source.now.file.now position).parents ≤ parent_capacity graph.old }
    ensures places { places.new ≡ slice_set places.old position graph.old.count }
    ensures tables { Appended graph.old graph.new (length (file_commit source.now.file.now position).parents) }
    ensures filled { (m : Model) → Filled K.LabelKind.start K.LabelKind.grown m graph.old → find_id m.commits (file_commit source.now.file.now position).id ≡ None → Filled K.LabelKind.start K.LabelKind.grown (plus m (renumbered places.old (file_commit source.now.file.now position))) graph.new }
{
    let positions = source.parents(position);
    let numbers = numbers_of(positions.as_slice(), places);
    let number = graph.append_unordered(
        source.id(position),
        source.tree(position),
        source.date(position),
        numbers.as_slice(),
    );
    places[position] = number;
}

// Takes out one position after another, and admits the commit there.
pub(crate) fn admit_all<K: LabelKind>(
    graph: &mut CommitGraph<'_, K>,
    source: &GraphFile<'_>,
    queue: &mut Queue<'_, ByLevel>,
    places: &mut [u32],
)
    requires all { queue.old.count ≡ told_count source.now.file.now }
    requires waiting { AllWait source.now.file.now (told_count source.now.file.now) queue.old.entries.now }
    requires listed { sum_by (listed_by source.now.file.now) (take (told_count source.now.file.now) queue.old.entries.now) ≡ total_of (parents_in source.now.file.now) }
    requires room { Roomy source.now.file.now graph.old places.old }
    ensures admitted { Admitted K.LabelKind.start K.LabelKind.grown source.now.file.now graph.old graph.new queue.old.entries.now queue.new.entries.now places.old places.new }
    ensures same_reference { queue.new.entries.ghost_name ≡ queue.old.entries.ghost_name }
{
    while let Some(next) = queue.pop() {
        admit(graph, source, places, next.position as usize);
    }
}
