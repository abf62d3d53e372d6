// The words by which a file names parents.
ghost use Rattle.std.specs.Prelude.{◌≡◌, ◌+◌, ◌%◌, ◌<◌, ◌≤◌};
ghost use Rattle.graph_file.specs.Encoding.{position, first_word, second_word};
ghost use Rattle.graph_file.specs.ParentWords.{mark};
ghost use Rattle.graph_file.specs.Placing.{WhenFiled, Held};

use crate::output::low_word;
use history::CommitGraph;
use labels::LabelKind;

// Stands in the place of a parent that there is not.
pub const NO_PARENT: u32 = 0x7000_0000;

// Marks the last word of a list in EDGE, and a second parent word that points into EDGE.
pub const MARK: u32 = 0x8000_0000;

// The file position of a commit. Numbers are taken bare, each with its bound: they come from lists of plain numbers.
pub(crate) fn position_of<K: LabelKind>(graph: &CommitGraph<'_, K>, number: u32) -> u32
    requires { number < graph.now.count }
    ensures within { result ≤ 65536 }
    ensures value { WhenFiled graph.now (λ h order. result ≡ position order number) }
{
    graph.place(graph.row_at(number as usize).id) as u32
}

// The first parent word of a commit.
pub(crate) fn first_word<K: LabelKind>(graph: &CommitGraph<'_, K>, parents: &[u32]) -> u32
    requires { Held graph.now parents.now }
    ensures { WhenFiled graph.now (λ h order. result ≡ first_word order parents.now) }
{
    match parents {
        [] => NO_PARENT,
        [first, ..] => position_of(graph, *first),
    }
}

// The second parent word of a commit whose words in EDGE begin at `start`.
pub(crate) fn second_word<K: LabelKind>(
    graph: &CommitGraph<'_, K>,
    parents: &[u32],
    start: usize,
) -> u32
    requires held { Held graph.now parents.now }
    requires small { start ≤ 17179869184 }
    ensures { WhenFiled graph.now (λ h order. result ≡ second_word order start parents.now % 4294967296) }
{
    match parents {
        [] | [_] => NO_PARENT,
        [_, second] => position_of(graph, *second),
        _ => low_word(MARK as u64 + start as u64),
    }
}

// The last word of a list in EDGE.
pub(crate) fn last_word<K: LabelKind>(graph: &CommitGraph<'_, K>, number: u32) -> u32
    requires { number < graph.now.count }
    ensures { WhenFiled graph.now (λ h order. result ≡ mark + position order number) }
{
    MARK + position_of(graph, number)
}
