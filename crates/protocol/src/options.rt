// The options of a question: NAME=LENGTH, each name at most once.
ghost use Rattle.std.specs.Prelude.{◌≡◌, ◌≢◌, MatchResult};
ghost use Rattle.protocol.specs.Buffers.{buffer_word, length_of, with_length};

use crate::buffer::Buffer;
use crate::lengths::Lengths;
use crate::malformed::Malformed;
use crate::numbers::table_length;
use crate::parse_error::{ParseError, Part};
use std::str::FromStr;

impl FromStr for Buffer {
    type Err = Malformed;

    ghost use Rattle.protocol.specs.declared.buffer.Buffer.{Buffer};

    ghost from_str_gives = { λ word r. MatchResult r (λ b. word ≡ buffer_word b) (λ _. (b : Buffer) → word ≢ buffer_word b) };

    fn from_str(word: &str) -> Result<Buffer, Malformed> {
        match word {
            "results" => Ok(Buffer::Results),
            "marks" => Ok(Buffer::Marks),
            "queue" => Ok(Buffer::Queue),
            _ => Err(Malformed),
        }
    }
}

impl From<Buffer> for Part {
    fn from(buffer: Buffer) -> Part {
        match buffer {
            Buffer::Results => Part::Results,
            Buffer::Marks => Part::Marks,
            Buffer::Queue => Part::Queue,
        }
    }
}

// By list, twice: one method that lent the field as `&mut` would need a contract on what the caller leaves there.
impl Lengths {
    fn of(self, buffer: Buffer) -> Option<usize>
        ensures { result ≡ length_of self buffer }
    {
        match buffer {
            Buffer::Results => self.results,
            Buffer::Marks => self.marks,
            Buffer::Queue => self.queue,
        }
    }

    fn set(&mut self, buffer: Buffer, length: usize)
        ensures { self.new ≡ with_length self.old buffer length }
    {
        match buffer {
            Buffer::Results => self.results = Some(length),
            Buffer::Marks => self.marks = Some(length),
            Buffer::Queue => self.queue = Some(length),
        }
    }
}

// The options of a question that were read so far.
#[derive(Clone, Copy)]
pub struct Options {
    pub lengths: Lengths,
    // whether the length of the results is one of them: a flag, since questions differ in nothing else
    pub has_results: bool,
}

impl Options {
    pub fn none(has_results: bool) -> Options {
        Options {
            lengths: Lengths::default(),
            has_results,
        }
    }

    pub fn is_empty(self) -> bool {
        self.lengths == Lengths::default()
    }

    // The list that a name stands for, if the question is lent it.
    fn named(self, name: &str) -> Option<Buffer> {
        let buffer = name.parse::<Buffer>().ok();
        buffer.filter(|b| self.has_results || *b != Buffer::Results)
    }

    // Sets what a word says, at its place in the line.
    pub fn set(&mut self, place: usize, word: &str) -> Result<(), ParseError> {
        let (name, value) = word.split_once('=').ok_or(ParseError::NoOption(place))?;
        let buffer = self.named(name).ok_or(ParseError::NoOption(place))?;
        if self.lengths.of(buffer).is_some() {
            return Err(ParseError::Repeated(buffer.into(), place));
        }
        let length = table_length(value).ok_or(ParseError::Unreadable(buffer.into(), place))?;
        self.lengths.set(buffer, length);
        Ok(())
    }
}
