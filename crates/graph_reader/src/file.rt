// A file without fault, with its parts.
ghost use Rattle.std.specs.Prelude.{◌≡◌, ℕ, ◌<◌, false, is_some, slice_index};
ghost use Rattle.graph_reader.specs.Bytes.{ids_begin, data_begin, data_end, told_count, told_edges, id_chunk, data_chunk, edge_chunk};
ghost use Rattle.graph_reader.specs.Verdict.{file_fault};

use crate::parts::Parts;

#[derive(Clone, Copy)]
pub struct GraphFile<'f> {
    pub file: &'f [u8],
    pub(crate) parts: Parts<'f>,
    ghost counted: { parts.count ≡ told_count file.now },
    ghost edged: { parts.entries ≡ told_edges file.now },
    ghost ids: { parts.ids.bytes.now ≡ id_chunk file.now },
    ghost rows: { parts.rows.bytes.now ≡ data_chunk file.now },
    ghost edges: { parts.edges.bytes.now ≡ edge_chunk file.now },
    ghost ids_at: { parts.ids.place ≡ ids_begin file.now },
    ghost rows_at: { parts.rows.place ≡ data_begin file.now },
    ghost edges_at: { parts.edges.place ≡ data_end file.now },
    ghost faultless: { is_some (file_fault file.now) ≡ false },
    ghost small: { (i : ℕ) → slice_index file.now i < 256 },
}
