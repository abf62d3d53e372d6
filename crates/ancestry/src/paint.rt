// The paint of a walk from two commits, and the byte that holds it.
ghost use Rattle.std.specs.Prelude.{◌≡◌};
ghost use Rattle.ancestry.specs.Paints.{paint_of, byte_of, joined, passed};

#[derive(Clone, Copy, Debug, PartialEq, Eq)]
pub enum Paint {
    // not reached so far
    Clear,
    // reached from the first commit
    Left,
    // reached from the second commit
    Right,
    // reached from both
    Both,
    // reached from a commit that both reach
    Below,
}

impl From<u8> for Paint {
    ghost from_gives = { λ byte paint. paint ≡ paint_of byte };

    fn from(byte: u8) -> Paint {
        match byte {
            0 => Paint::Clear,
            1 => Paint::Left,
            2 => Paint::Right,
            3 => Paint::Both,
            _ => Paint::Below,
        }
    }
}

impl From<Paint> for u8 {
    ghost from_gives = { λ paint byte. byte ≡ byte_of paint };

    fn from(paint: Paint) -> u8 {
        paint as u8
    }
}

impl Paint {
    // The paint of a commit that bears one paint when another arrives. One match on the two, so that each pair is seen in one place.
    pub fn with(self, arriving: Paint) -> Paint
        ensures { result ≡ joined self arriving }
    {
        match (self, arriving) {
            (present, Paint::Clear) => present,
            (Paint::Clear, _) => arriving,
            (Paint::Left, Paint::Left) => Paint::Left,
            (Paint::Right, Paint::Right) => Paint::Right,
            (Paint::Below, _) => Paint::Below,
            (_, Paint::Below) => Paint::Below,
            (_, _) => Paint::Both,
        }
    }

    // What a commit's paint lays on its parents.
    pub fn passed_on(self) -> Paint
        ensures { result ≡ passed self }
    {
        match self {
            Paint::Both => Paint::Below,
            paint => paint,
        }
    }
}
