// Marks that are put back to 0 on every way out: a guard over lent bytes, since a walk has no heap of its own.
ghost use Rattle.std.specs.Prelude.{◌≡◌, ℕ, ◌<◌, ◌≤◌, length, drop, slice_index};

use frontier::clear;

pub struct Marks<'m> {
    pub bytes: &'m mut [u8],
    // beside the whole slice: the guard also says that the bytes behind the used ones stand
    pub used: usize,
}

impl<'m> Marks<'m> {
    // Clears the first `used` marks.
    pub fn over(lent: &'m mut [u8], used: usize) -> Marks<'m>
        requires { used ≤ length lent.old }
        ensures same_reference { result.bytes.ghost_name ≡ lent.entry.ghost_name }
        ensures used { result.used ≡ used }
        ensures long { length result.bytes.now ≡ length lent.old }
        ensures zero { (k : ℕ) → k < used → slice_index result.bytes.now k ≡ 0 }
        ensures rest { drop used result.bytes.now ≡ drop used lent.old }
    {
        clear(lent, used);
        Marks { bytes: lent, used }
    }
}

impl Drop for Marks<'_> {
    fn drop(self)
        requires { self.used ≤ length self.bytes.now }
        ensures zero { (k : ℕ) → k < self.entry.used → slice_index self.exit.0.now k ≡ 0 }
        ensures rest { drop self.entry.used self.exit.0.now ≡ drop self.entry.used self.entry.bytes.now }
    {
        let Marks { bytes, used } = self;
        clear(bytes, used);
    }
}
