// Loading a file.
ghost use Rattle.std.specs.Prelude.{◌≡◌, ℕ, ◌≤◌, List, [], length, Ok, MatchResult};
ghost use Rattle.graph_file.specs.Encoding.{FileOrder, layout_of};
ghost use Rattle.graph_file.specs.Layout.{file_bytes};
ghost use Rattle.graph_reader.specs.Bytes.{told_count};
ghost use Rattle.history.specs.Graph.{Represents};
ghost use Rattle.history.specs.History.{Commit, Wellformed, parent_total};
ghost use Rattle.history.specs.Model.{Model};
ghost use Rattle.loading.specs.Filling.{Roomy};
ghost use Rattle.loading.specs.Loads.{load_reply, Loaded};

use crate::admit::admit_all;
use crate::queue::queue_all;
use crate::refusal::LoadRefusal;
use crate::room::admissible;
use frontier::ByLevel;
use graph_reader::GraphFile;
use history::CommitGraph;
use labels::LabelKind;

// Admits all commits of a file for which there is room, and puts the order by id right: the file has the ids in their order. The lent parts go on one by
// one: a struct over them would have to say of each call that it holds the same slices.
fn fill<K: LabelKind>(
    graph: &mut CommitGraph<'_, K>,
    source: &GraphFile<'_>,
    queue: &mut [ByLevel],
    places: &mut [u32],
)
    requires room { Roomy source.now.file.now graph.old places.old }
    requires queue { told_count source.now.file.now ≤ length queue.old }
    ensures { Loaded K.LabelKind.start K.LabelKind.grown source.now.file.now graph.old graph.new queue.old queue.new places.old places.new }
{
    let mut waiting = queue_all(source, queue);
    admit_all(graph, source, &mut waiting, places);
    graph.put_order(&places[0..source.count()]);
}

// Loads a file into an empty history and answers how many commits it has, or says why it cannot be loaded; nothing changes then. The commits are
// numbered in rising level, and of equal levels in rising file position; entry p of `places` becomes the number of the commit at file position p.
pub fn load<K: LabelKind>(
    graph: &mut CommitGraph<'_, K>,
    file: &[u8],
    queue: &mut [ByLevel],
    places: &mut [u32],
) -> Result<usize, LoadRefusal>
    ensures reply { (m : Model) → Represents K.LabelKind.start K.LabelKind.grown m graph.old → result ≡ load_reply m file.now (length queue.old) (length places.old) }
    ensures loaded { MatchResult result (λ _. Loaded K.LabelKind.start K.LabelKind.grown file.now graph.old graph.new queue.old queue.new places.old places.new) (λ _. (graph.new ≡ graph.old) × (queue.new ≡ queue.old) × (places.new ≡ places.old)) }
    ensures accepts { (m : Model) (h : List Commit) (order : List ℕ) → Represents K.LabelKind.start K.LabelKind.grown m graph.old → m.commits ≡ [] → Wellformed h → FileOrder h order → file.now ≡ file_bytes (layout_of h order) → length h ≤ m.capacity → parent_total h ≤ m.parent_capacity → length h ≤ length queue.old → length h ≤ length places.old → result ≡ Ok (length h) }
{
    let source = admissible(graph, file, queue.len(), places.len())?;
    fill(graph, &source, queue, places);
    Ok(source.count())
}
