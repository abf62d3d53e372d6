// Reading a file: its first fault, or the file with its parts.
ghost use Rattle.std.specs.Prelude.{◌≡◌, ℕ, ◌<◌, None, IfOk, slice_index};
ghost use Rattle.graph_reader.specs.Faults.{container_fault};
ghost use Rattle.graph_reader.specs.Holding.{Holds};
ghost use Rattle.graph_reader.specs.Verdict.{chunk_fault, fan_out_fault, file_fault};
ghost use Rattle.history.specs.Model.{refused_with};
ghost use Rattle.history.specs.declared.load_fault.ChunkFault.TheVariants.{WrongFanOut};
ghost use Rattle.std.specs.Option.{option_map};

use crate::chunk::Chunk;
use crate::container::{Counted, Front, check_container};
use crate::fan_out_chunk::FanOutChunk;
use crate::file::GraphFile;
use crate::first_bytes::fan_out_counts;
use crate::parts::Parts;
use history::{ChunkFault, LoadFault};

// The parts of a file whose container is right.
fn cut(file: &[u8]) -> Parts<'_>
    requires { container_fault file.now ≡ None }
    ensures held { Holds file.now result }
    ensures small { (i : ℕ) → slice_index file.now i < 256 }
{
    let front = Front { file };
    let count = front.told_count() as usize;
    let entries = Counted { front }.told_edges() as usize;
    let ids = front.ids_begin() as usize;
    let rows = ids + 20 * count;
    let edges = ids + 56 * count;
    Parts {
        ids: Chunk {
            bytes: &file[ids..rows],
            place: ids,
        },
        rows: Chunk {
            bytes: &file[rows..edges],
            place: rows,
        },
        edges: Chunk {
            bytes: &file[edges..edges + 4 * entries],
            place: edges,
        },
        count,
        entries,
    }
}

// Refuses a word of OIDF that is not the count it should be. File and parts go side by side until the last test is passed: only then are they a GraphFile.
fn check_fan_out(file: &[u8], parts: &Parts<'_>) -> Result<(), ChunkFault>
    requires fine { container_fault file.now ≡ None }
    requires held { Holds file.now parts.now }
    ensures { refused_with result ≡ option_map WrongFanOut (fan_out_fault file.now) }
{
    let begin = Front { file }.chunks_begin() as usize;
    let chunk: FanOutChunk<'_> = Chunk {
        bytes: &file[begin..begin + 1024],
        place: begin,
    };
    chunk.check_counts(fan_out_counts(parts.ids.ids()))
}

// Refuses a file for the first fault of what its chunks hold.
#[tactic(auto, using(crate::proofs::PartsHeld::order_held, crate::proofs::PartsHeld::parents_held_by))]
fn check_chunks(file: &[u8], parts: &Parts<'_>) -> Result<(), ChunkFault>
    requires fine { container_fault file.now ≡ None }
    requires held { Holds file.now parts.now }
    ensures { refused_with result ≡ chunk_fault file.now }
{
    check_fan_out(file, parts)?;
    parts.ids.check_order(parts.count)?;
    parts.check_parents()
}

// A file that is known to be without fault.
pub fn open(file: &[u8]) -> GraphFile<'_>
    requires { file_fault file.now ≡ None }
    ensures { result.file.now ≡ file.now }
{
    GraphFile {
        file,
        parts: cut(file),
    }
}

// A file without fault, or the first fault of another.
#[tactic(auto, using(crate::proofs::PartsHeld::parents_right, crate::proofs::PartsHeld::levels_decide), unfolding(crate::specs::Verdict::file_fault))]
pub fn read(file: &[u8]) -> Result<GraphFile<'_>, LoadFault>
    ensures fault { refused_with result ≡ file_fault file.now }
    ensures same { IfOk result (λ read. read.file.now ≡ file.now) }
{
    check_container(file)?;
    let parts = cut(file);
    check_chunks(file, &parts)?;
    parts.check_levels()?;
    Ok(open(file))
}

// A file's first fault, if it has one. An `Option`, since it asks for the fault alone.
pub fn fault_of(file: &[u8]) -> Option<LoadFault>
    ensures { result ≡ file_fault file.now }
{
    read(file).err()
}
