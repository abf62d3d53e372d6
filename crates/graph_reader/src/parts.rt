// The parts of a file that hold its commits.
ghost use Rattle.std.specs.Prelude.{◌≡◌, ◌*◌, ◌<◌, ◌≤◌, length, MatchOption};
ghost use Rattle.graph_reader.specs.Bytes.{word_in};

use crate::data_chunk::DataChunk;
use crate::edge_chunk::EdgeChunk;
use crate::id_chunk::IdChunk;

// `count` commits, and `entries` words of EDGE: kept beside the chunks, since each parent word is compared with them and a length would be divided each time.
#[derive(Clone, Copy)]
pub struct Parts<'f> {
    pub(crate) ids: IdChunk<'f>,
    pub(crate) rows: DataChunk<'f>,
    pub(crate) edges: EdgeChunk<'f>,
    pub(crate) count: usize,
    pub(crate) entries: usize,
    ghost few: { count ≤ 65536 },
    ghost short: { entries ≤ 262144 },
    ghost identified: { length ids.bytes.now ≡ 20 * count },
    ghost rowed: { length rows.bytes.now ≡ 36 * count },
    ghost edged: { length edges.bytes.now ≡ 4 * entries },
    ghost ids_low: { ids.place ≤ 2000000 },
    ghost rows_low: { rows.place ≤ 2000000 },
    ghost edges_low: { edges.place ≤ 4000000 },
}

impl Parts<'_> {
    // The word of EDGE at an index, if there is one.
    pub fn entry(&self, i: usize) -> Option<u32>
        ensures { MatchOption result (self.now.entries ≤ i) (λ word. (i < self.now.entries) × (word ≡ word_in self.now.edges.bytes.now i)) }
    {
        if i >= self.entries {
            return None;
        }
        Some(self.edges.entry(i))
    }
}
