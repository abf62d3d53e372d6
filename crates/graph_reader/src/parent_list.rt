// The parents of a commit of a file, as file positions: at most 64, by value. Not an `ArrayVec`, which is no `Copy`.
ghost use Rattle.std.specs.Prelude.{◌≤◌};

#[derive(Clone, Copy)]
pub struct ParentList {
    pub(crate) positions: [u32; 64],
    pub(crate) size: usize,
    ghost few: { size ≤ 64 },
}
