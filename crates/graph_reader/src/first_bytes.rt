// Counting ids by their first byte.
ghost use Rattle.std.specs.Prelude.{◌≡◌, ℕ, ◌<◌, ◌≤◌, List, length, slice_index};
ghost use Rattle.graph_reader.specs.ChunkFaults.{begun_by};
ghost use Rattle.graph_file.specs.Layout.{fan_out};

// How many of the ids begin with each byte.
fn tally(ids: &[[u8; 20]]) -> [u32; 256]
    requires { length ids.now ≤ 65536 }
    ensures { (i : ℕ) → i < 256 → slice_index result i ≡ begun_by ids.now i }
{
    let mut counts = [0u32; 256];
    for id in ids {
        counts[id[0] as usize] += 1;
    }
    counts
}

// Sums the counts up to each byte. By index: each step reads what the one before wrote.
fn sum_up(mut counts: [u32; 256]) -> [u32; 256]
    requires { (i : ℕ) → i < 256 → slice_index counts i ≤ 65536 }
    ensures { (ids : List (List ℕ)) → ((i : ℕ) → i < 256 → slice_index counts i ≡ begun_by ids i) → (i : ℕ) → i < 256 → slice_index result i ≡ fan_out ids i }
{
    for i in 1..256 {
        counts[i] += counts[i - 1];
    }
    counts
}

// How many of the ids have a first byte of at most each value.
pub fn fan_out_counts(ids: &[[u8; 20]]) -> [u32; 256]
    requires { length ids.now ≤ 65536 }
    ensures { (i : ℕ) → i < 256 → slice_index result i ≡ fan_out ids.now i }
{
    sum_up(tally(ids))
}
