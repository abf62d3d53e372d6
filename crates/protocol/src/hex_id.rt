// Ids as 40 hex digits.
ghost use Rattle.std.specs.Prelude.{MatchOption, MatchResult};
ghost use Rattle.protocol.specs.Words.{Hex, Spells};

use crate::malformed::Malformed;
use hex::FromHex;
use history::ObjectId;
use std::fmt;
use std::str::FromStr;

// The bytes that 40 hex digits say.
fn spelled(text: &str) -> Option<[u8; 20]>
    ensures { MatchOption result (Hex text.now → ⊥) (λ bytes. Spells text.now bytes) }
{
    <[u8; 20]>::from_hex(text).ok()
}

// An id that is read from 40 hex digits of either case, and written in lowercase.
#[derive(Clone, Copy)]
pub struct HexId(pub ObjectId);

impl FromStr for HexId {
    type Err = Malformed;

    ghost from_str_gives = { λ text r. MatchResult r (λ id. Spells text id.0.bytes) (λ _. Hex text → ⊥) };

    fn from_str(text: &str) -> Result<HexId, Malformed> {
        let bytes = spelled(text).ok_or(Malformed)?;
        Ok(HexId(ObjectId { bytes }))
    }
}

impl fmt::Display for HexId {
    fn fmt<W: fmt::Write>(&self, f: &mut fmt::Formatter<W>) -> fmt::Result {
        // by byte: what `hex` writes needs memory of its own, or is a buffer of bytes, which would have to be read as text again
        for b in self.0.bytes {
            write!(f, "{b:02x}")?;
        }
        Ok(())
    }
}
