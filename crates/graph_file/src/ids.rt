// OIDL: the ids, in rising order.
ghost use Rattle.std.specs.Prelude.{◌*◌};
ghost use Rattle.graph_file.specs.Layout.{id_bytes};
ghost use Rattle.graph_file.specs.Outputs.{Moved, Puts, Room};
ghost use Rattle.graph_file.specs.Placing.{WhenFiled, ids_of};

use crate::output::Output;
use history::CommitGraph;
use labels::LabelKind;

pub(crate) fn put_ids<K: LabelKind>(graph: &CommitGraph<'_, K>, output: &mut Output<'_>)
    requires { Room output.old (20 * graph.now.count) }
    ensures moved { Moved output.old output.new (20 * graph.now.count) }
    ensures puts { WhenFiled graph.now (λ h order. Puts output.old output.new (id_bytes (ids_of h order))) }
{
    for number in graph.by_id() {
        let id = graph.row_at(*number as usize).id;
        output.put_bytes(&id.bytes);
    }
}
