// CDAT: a row for each commit.
ghost use Rattle.std.specs.Prelude.{◌≡◌, ◌+◌, ◌*◌, ◌/◌, ◌%◌, ◌<◌, ◌≤◌};
ghost use Rattle.graph_file.specs.Encoding.{row_of_commit, rows_from};
ghost use Rattle.graph_file.specs.Layout.{row_bytes, data_bytes};
ghost use Rattle.graph_file.specs.Outputs.{Moved, Puts, Room};
ghost use Rattle.graph_file.specs.Placing.{WhenFiled};

use crate::output::{Output, low_word};
use crate::parent_words::{first_word, second_word};
use crate::sizes::extra_edges;
use history::{CommitGraph, CommitRow};
use labels::LabelKind;

// Level times 4 plus the date's two highest bits.
fn generation_word(row: CommitRow) -> u32
    ensures { result ≡ (row.level * 4 + row.date / 4294967296) % 4294967296 }
{
    low_word(row.level as u64 * 4 + row.date / 4_294_967_296)
}

// The row of a commit whose words in EDGE begin at `start`.
fn put_row<K: LabelKind>(
    graph: &CommitGraph<'_, K>,
    output: &mut Output<'_>,
    number: usize,
    start: usize,
)
    requires held { number < graph.now.count }
    requires small { start ≤ 17179869184 }
    requires room { Room output.old 36 }
    ensures moved { Moved output.old output.new 36 }
    ensures puts { WhenFiled graph.now (λ h order. Puts output.old output.new (row_bytes (row_of_commit h order number start))) }
{
    let row = graph.row_at(number);
    let parents = graph.parents_at(number);
    output.put_bytes(&row.tree.bytes);
    output.put_word(first_word(graph, parents));
    output.put_word(second_word(graph, parents, start));
    output.put_word(generation_word(row));
    output.put_word(low_word(row.date));
}

pub(crate) fn put_rows<K: LabelKind>(graph: &CommitGraph<'_, K>, output: &mut Output<'_>)
    requires { Room output.old (36 * graph.now.count) }
    ensures moved { Moved output.old output.new (36 * graph.now.count) }
    ensures puts { WhenFiled graph.now (λ h order. Puts output.old output.new (data_bytes (rows_from h order 0 order))) }
{
    let mut start = 0;
    // `start` goes on from row to row: a commit's words begin where those before it end
    for number in graph.by_id() {
        let number = *number as usize;
        put_row(graph, output, number, start);
        start += extra_edges(graph.parents_at(number));
    }
}
