// How long the parts of a file are.
ghost use Rattle.std.specs.Prelude.{◌≡◌, ◌≤◌};
ghost use Rattle.std.specs.List.{sum_by};
ghost use Rattle.graph_file.specs.Encoding.{extra};
ghost use Rattle.graph_file.specs.Placing.{chunk_count, front_size, file_size, extras, listed, Held};
ghost use Rattle.history.specs.Graph.{history};
ghost use Rattle.history.specs.History.{parents_of};

use history::CommitGraph;
use labels::LabelKind;

// How many words of EDGE a commit with these parents takes.
pub fn extra_edges(parents: &[u32]) -> usize
    ensures { result ≡ extra parents.now }
{
    let size = parents.len();
    if size > 2 { size - 1 } else { 0 }
}

// How many words of EDGE these commits take.
fn edges_of<K: LabelKind>(graph: &CommitGraph<'_, K>, numbers: &[u32]) -> usize
    requires held { Held graph.now numbers.now }
    requires small { sum_by (λ n. extra (parents_of (history graph.now) n)) numbers.now ≤ 17179869184 }
    ensures { result ≡ sum_by (λ n. extra (parents_of (history graph.now) n)) numbers.now }
{
    numbers
        .iter()
        .map(|n| extra_edges(graph.parents_at(*n as usize)))
        .sum()
}

// How many commits a file holds, and how many words of EDGE they take.
#[derive(Clone, Copy)]
pub(crate) struct Sizes {
    pub(crate) commits: usize,
    pub(crate) edges: usize,
    ghost few: { commits ≤ 65536 },
    ghost short: { edges ≤ 17179869184 },
}

impl Sizes {
    pub(crate) fn of<K: LabelKind>(graph: &CommitGraph<'_, K>) -> Sizes
        ensures commits { result.commits ≡ graph.now.count }
        ensures edges { result.edges ≡ extras (history graph.now) (listed graph.now) }
    {
        let commits = graph.held();
        let edges = edges_of(graph, graph.by_id());
        Sizes { commits, edges }
    }

    // Four chunks with extra edges, three without.
    pub(crate) fn chunks(self) -> u8
        ensures { result ≡ chunk_count self.edges }
    {
        if self.edges > 0 { 4 } else { 3 }
    }

    // Where the first chunk begins.
    pub(crate) fn front(self) -> usize
        ensures { result ≡ front_size self.edges }
    {
        8 + 12 * (self.chunks() as usize + 1)
    }

    pub(crate) fn file(self) -> usize
        ensures { result ≡ file_size self.commits self.edges }
    {
        self.front() + 1024 + 20 * self.commits + 36 * self.commits + 4 * self.edges
    }
}
