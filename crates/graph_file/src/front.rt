// The header and the table of chunks.
ghost use Rattle.std.specs.Prelude.{◌≡◌, ℕ, ◌+◌, ◌-◌, ◌*◌, List, [], ◌++◌, length, if◌then◌else◌, codes, nat_lt};
ghost use Rattle.graph_file.specs.Layout.{Layout, header, contents};
ghost use Rattle.graph_file.specs.Outputs.{Moved, Puts, Room};
ghost use Rattle.graph_file.specs.Placing.{chunk_count, front_size, file_size, Sized};
ghost use Rattle.graph_file.specs.Words.{word, long_word};

use crate::output::Output;
use crate::sizes::Sizes;

// The format's name, version 1, ids of 20 bytes, the number of chunks, no base files.
fn put_header(output: &mut Output<'_>, sizes: Sizes)
    requires { Room output.old 8 }
    ensures moved { Moved output.old output.new 8 }
    ensures puts { (es : List ℕ) → length es ≡ sizes.edges → Puts output.old output.new (header es) }
{
    output.put_bytes(b"CGPH");
    output.put_bytes(&[1, 1, sizes.chunks(), 0]);
}

// A row of the table of chunks.
fn put_entry(output: &mut Output<'_>, name: &[u8; 4], place: usize)
    requires { Room output.old 12 }
    ensures moved { Moved output.old output.new 12 }
    ensures puts { Puts output.old output.new (name.now ++ long_word place) }
{
    output.put_bytes(name);
    output.put_long(place);
}

// The row of EDGE, if there is one, and the closing row.
fn put_last_entries(output: &mut Output<'_>, sizes: Sizes)
    requires { Room output.old (12 * (chunk_count sizes.edges - 2)) }
    ensures moved { Moved output.old output.new (12 * (chunk_count sizes.edges - 2)) }
    ensures puts { Puts output.old output.new ((if nat_lt 0 sizes.edges then codes "EDGE" ++ long_word (front_size sizes.edges + 1024 + 20 * sizes.commits + 36 * sizes.commits) else []) ++ (word 0 ++ long_word (file_size sizes.commits sizes.edges))) }
{
    let size = sizes.file();
    if sizes.edges > 0 {
        put_entry(output, b"EDGE", size - 4 * sizes.edges);
    }
    put_entry(output, &[0; 4], size);
}

// The table of chunks.
fn put_contents(output: &mut Output<'_>, sizes: Sizes)
    requires { Room output.old (front_size sizes.edges - 8) }
    ensures moved { Moved output.old output.new (front_size sizes.edges - 8) }
    ensures puts { (l : Layout) → Sized l sizes.commits sizes.edges → Puts output.old output.new (contents l) }
{
    let first = sizes.front();
    put_entry(output, b"OIDF", first);
    put_entry(output, b"OIDL", first + 1024);
    put_entry(output, b"CDAT", first + 1024 + 20 * sizes.commits);
    put_last_entries(output, sizes);
}

// All that stands before the first chunk.
pub(crate) fn put_front(output: &mut Output<'_>, sizes: Sizes)
    requires { Room output.old (front_size sizes.edges) }
    ensures moved { Moved output.old output.new (front_size sizes.edges) }
    ensures puts { (l : Layout) → Sized l sizes.commits sizes.edges → Puts output.old output.new (header l.edges ++ contents l) }
{
    put_header(output, sizes);
    put_contents(output, sizes);
}
