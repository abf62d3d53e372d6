// When a file can be loaded.
ghost use Rattle.std.specs.Prelude.{◌≡◌, IfOk};
ghost use Rattle.graph_reader.specs.Bytes.{told_count};
ghost use Rattle.graph_reader.specs.Verdict.{parents_in, total_of};
ghost use Rattle.history.specs.Graph.{capacity, parent_capacity};
ghost use Rattle.history.specs.Model.{refused_with};
ghost use Rattle.loading.specs.Loads.{room_refusal, load_refusal};

use crate::refusal::LoadRefusal;
use graph_reader::{GraphFile, read};
use history::{CommitGraph, Refusal};
use labels::LabelKind;

// Refuses a file where there is no room for its commits.
fn check_room<K: LabelKind>(
    graph: &CommitGraph<'_, K>,
    source: &GraphFile<'_>,
    queue: usize,
    places: usize,
) -> Result<(), Refusal>
    ensures { refused_with result ≡ room_refusal (capacity graph.now) (parent_capacity graph.now) (told_count source.now.file.now) (total_of (parents_in source.now.file.now)) queue places }
{
    let count = source.count();
    if graph.capacity() < count {
        return Err(Refusal::CapacityPassed);
    }
    if graph.parent_capacity() < source.parent_total() {
        return Err(Refusal::ParentCapacityPassed);
    }
    if queue < count || places < count {
        return Err(Refusal::BufferTooShort);
    }
    Ok(())
}

// A file that can be loaded, or why it cannot.
#[tactic(auto, unfolding(crate::specs::Loads::load_refusal))]
pub(crate) fn admissible<'f, K: LabelKind>(
    graph: &CommitGraph<'_, K>,
    file: &'f [u8],
    queue: usize,
    places: usize,
) -> Result<GraphFile<'f>, LoadRefusal>
    ensures refusal { refused_with result ≡ load_refusal graph.now.count (capacity graph.now) (parent_capacity graph.now) file.now queue places }
    ensures same { IfOk result (λ source. source.file.now ≡ file.now) }
{
    if 0 < graph.held() {
        return Err(LoadRefusal::HistoryNotEmpty);
    }
    let source = read(file)?;
    check_room(graph, &source, queue, places)?;
    Ok(source)
}
