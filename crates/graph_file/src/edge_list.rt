// EDGE: the parents from the second on, of the commits with more than two.
ghost use Rattle.std.specs.Prelude.{◌*◌, length};
ghost use Rattle.std.specs.List.{flat_map};
ghost use Rattle.graph_file.specs.Encoding.{extra, closed, edges_from};
ghost use Rattle.graph_file.specs.Layout.{edge_bytes};
ghost use Rattle.graph_file.specs.Outputs.{Moved, Puts, Room};
ghost use Rattle.graph_file.specs.Placing.{WhenFiled, extras, listed, Held};
ghost use Rattle.history.specs.Graph.{history};
ghost use Rattle.history.specs.History.{parents_of};

use crate::output::Output;
use crate::parent_words::{last_word, position_of};
use history::CommitGraph;
use labels::LabelKind;

// A list of parents, the last marked.
fn put_closed<K: LabelKind>(graph: &CommitGraph<'_, K>, output: &mut Output<'_>, rest: &[u32])
    requires held { Held graph.now rest.now }
    requires room { Room output.old (4 * length rest.now) }
    ensures moved { Moved output.old output.new (4 * length rest.now) }
    ensures puts { WhenFiled graph.now (λ h order. Puts output.old output.new (edge_bytes (closed order rest.now))) }
{
    if let [others @ .., last] = rest {
        for parent in others {
            output.put_word(position_of(graph, *parent));
        }
        output.put_word(last_word(graph, *last));
    }
}

// The words of one commit.
fn put_edges_of<K: LabelKind>(graph: &CommitGraph<'_, K>, output: &mut Output<'_>, parents: &[u32])
    requires held { Held graph.now parents.now }
    requires room { Room output.old (4 * extra parents.now) }
    ensures moved { Moved output.old output.new (4 * extra parents.now) }
    ensures puts { WhenFiled graph.now (λ h order. Puts output.old output.new (edge_bytes (edges_from order parents.now))) }
{
    if parents.len() > 2 {
        put_closed(graph, output, &parents[1..]);
    }
}

pub(crate) fn put_edges<K: LabelKind>(graph: &CommitGraph<'_, K>, output: &mut Output<'_>)
    requires { Room output.old (4 * extras (history graph.now) (listed graph.now)) }
    ensures moved { Moved output.old output.new (4 * extras (history graph.now) (listed graph.now)) }
    ensures puts { WhenFiled graph.now (λ h order. Puts output.old output.new (edge_bytes (flat_map (λ n. edges_from order (parents_of h n)) order))) }
{
    for number in graph.by_id() {
        put_edges_of(graph, output, graph.parents_at(*number as usize));
    }
}
