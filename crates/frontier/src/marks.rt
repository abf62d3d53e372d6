// The marks of a walk: a byte a commit.
ghost use Rattle.std.specs.Prelude.{◌≡◌, ℕ, ◌<◌, ◌≤◌, length, drop, slice_index};

// Puts the first `used` marks to 0.
pub fn clear(marks: &mut [u8], used: usize)
    requires { used ≤ length marks.old }
    ensures zero { (k : ℕ) → k < used → slice_index marks.new k ≡ 0 }
    ensures rest { drop used marks.new ≡ drop used marks.old }
{
    marks[..used].fill(0);
}
