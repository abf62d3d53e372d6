// OIDF: for each byte, how many ids begin with it or a lower one.
ghost use Rattle.std.specs.Prelude.{◌≡◌, ◌<◌, ◌≤◌, length, slice_index, nat_le};
ghost use Rattle.std.specs.List.{prefix_len};
ghost use Rattle.graph_file.specs.Layout.{fan_out_bytes};
ghost use Rattle.graph_file.specs.Outputs.{Moved, Puts, Room};
ghost use Rattle.graph_file.specs.Placing.{WhenFiled, ids_of, Held};
ghost use Rattle.history.specs.Tables.{row_of};

use crate::output::Output;
use history::CommitGraph;
use labels::LabelKind;

// The first byte of a commit's id.
fn first_byte<K: LabelKind>(graph: &CommitGraph<'_, K>, number: u32) -> u8
    requires { number < graph.now.count }
    ensures { result ≡ slice_index (row_of graph.now.rows.now number).id.bytes 0 }
{
    graph.row_at(number as usize).id.bytes[0]
}

// How many of the commits in front have ids that begin with the byte or a lower one.
fn count_up_to<K: LabelKind>(graph: &CommitGraph<'_, K>, numbers: &[u32], byte: u8) -> usize
    requires { Held graph.now numbers.now }
    ensures within { result ≤ length numbers.now }
    ensures counted { result ≡ prefix_len (λ n. nat_le (slice_index (row_of graph.now.rows.now n).id.bytes 0) byte) numbers.now }
{
    numbers
        .iter()
        .take_while(|n| first_byte(graph, **n) <= byte)
        .count()
}

pub(crate) fn put_fan_out<K: LabelKind>(graph: &CommitGraph<'_, K>, output: &mut Output<'_>)
    requires { Room output.old 1024 }
    ensures moved { Moved output.old output.new 1024 }
    ensures puts { WhenFiled graph.now (λ h order. Puts output.old output.new (fan_out_bytes (ids_of h order))) }
{
    let numbers = graph.by_id();
    let mut count = 0;
    // a word for each byte: the count goes on where the last one stopped
    for byte in 0..=u8::MAX {
        count += count_up_to(graph, &numbers[count..], byte);
        output.put_word(count as u32);
    }
}
