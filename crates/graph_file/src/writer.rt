// Writing a history as a commit-graph file.
ghost use Rattle.std.specs.Prelude.{◌≡◌, ◌≤◌, length};
ghost use Rattle.graph_file.specs.Encoding.{layout_of};
ghost use Rattle.graph_file.specs.Layout.{file_bytes};
ghost use Rattle.graph_file.specs.Outputs.{Puts, Room};
ghost use Rattle.graph_file.specs.Placing.{placed, WhenFiled, extras, listed, file_size};
ghost use Rattle.graph_file.specs.Writing.{Written, written_reply};
ghost use Rattle.history.specs.Graph.{Represents, history};
ghost use Rattle.history.specs.Model.{Model};

use crate::edge_list::put_edges;
use crate::fan_out::put_fan_out;
use crate::front::put_front;
use crate::ids::put_ids;
use crate::output::Output;
use crate::rows::put_rows;
use crate::sizes::Sizes;
use history::{CommitGraph, Refusal};
use labels::LabelKind;

// The whole file, one part behind another.
fn put_parts<K: LabelKind>(graph: &CommitGraph<'_, K>, output: &mut Output<'_>, sizes: Sizes)
    requires sized { (sizes.commits ≡ graph.now.count) × (sizes.edges ≡ extras (history graph.now) (listed graph.now)) }
    requires room { Room output.old (file_size sizes.commits sizes.edges) }
    ensures same_reference { output.new.bytes.ghost_name ≡ output.old.bytes.ghost_name }
    ensures puts { WhenFiled graph.now (λ h order. Puts output.old output.new (file_bytes (layout_of h order))) }
{
    put_front(output, sizes);
    put_fan_out(graph, output);
    put_ids(graph, output);
    put_rows(graph, output);
    put_edges(graph, output);
}

fn put_file<K: LabelKind>(graph: &CommitGraph<'_, K>, buffer: &mut [u8], sizes: Sizes)
    requires sized { (sizes.commits ≡ graph.now.count) × (sizes.edges ≡ extras (history graph.now) (listed graph.now)) }
    requires room { file_size sizes.commits sizes.edges ≤ length buffer.old }
    ensures { WhenFiled graph.now (λ h order. buffer.new ≡ placed buffer.old 0 (file_bytes (layout_of h order))) }
{
    let mut output = Output::over(buffer);
    put_parts(graph, &mut output, sizes);
}

// The size needed, unless there is less room.
fn checked_size(room: usize, needed: usize) -> Result<usize, Refusal>
    ensures { result ≡ written_reply room needed }
{
    if room < needed {
        return Err(Refusal::ResultTooShort(needed));
    }
    Ok(needed)
}

// Fills the buffer with the history's file and answers its length. A buffer that is too short stands, and the refusal carries the length needed; bytes
// behind the file stand.
pub fn write<K: LabelKind>(graph: &CommitGraph<'_, K>, buffer: &mut [u8]) -> Result<usize, Refusal>
    ensures { (m : Model) → Represents K.LabelKind.start K.LabelKind.grown m graph.now → Written m.commits buffer.old buffer.new result }
{
    let sizes = Sizes::of(graph);
    let size = checked_size(buffer.len(), sizes.file())?;
    put_file(graph, buffer, sizes);
    Ok(size)
}
