// The words of a line, taken one after another.
use crate::hex_id::HexId;
use crate::kind::Kind;
use crate::lengths::Lengths;
use crate::numbers::{number, short_number, table_length};
use crate::options::Options;
use crate::parse_error::{ParseError, Part};
use history::ObjectId;
use std::alloc::Global;
use std::iter::Zip;
use std::ops::RangeFrom;
use std::str::SplitWhitespace;

// The words that are left, each with its place in the line, from 1.
#[derive(Drop)]
pub struct Words<'a>(Zip<RangeFrom<usize>, SplitWhitespace<'a>>);

impl<'a> Words<'a> {
    pub fn of(line: &'a str) -> Words<'a> {
        Words((1..).zip(line.split_whitespace()))
    }

    pub fn first(&mut self) -> Option<&'a str> {
        let (_, word) = self.0.next()?;
        Some(word)
    }

    // The next word, as `read` reads it.
    fn next<T: Drop, F: FnOnce(&str) -> Option<T>>(
        &mut self,
        part: Part,
        read: F,
    ) -> Result<T, ParseError>
        requires { F.IsAlwaysCallable read }
    {
        let (place, word) = self.0.next().ok_or(ParseError::Missing(part))?;
        read(word).ok_or(ParseError::Unreadable(part, place))
    }

    pub fn kind(&mut self) -> Result<Kind, ParseError> {
        self.next(Part::Kind, |word| word.parse().ok())
    }

    pub fn length(&mut self, part: Part) -> Result<usize, ParseError> {
        self.next(part, table_length)
    }

    pub fn id(&mut self, part: Part) -> Result<ObjectId, ParseError> {
        let HexId(id) = self.next(part, |word| word.parse().ok())?;
        Ok(id)
    }

    pub fn date(&mut self) -> Result<u64, ParseError> {
        self.next(Part::Date, number)
    }

    pub fn commit(&mut self, part: Part) -> Result<u32, ParseError> {
        self.next(part, short_number)
    }

    pub fn path(&mut self, heap: Global) -> Result<String, ParseError> {
        let (_, word) = self.0.next().ok_or(ParseError::Missing(Part::Path))?;
        Ok(String::from_str(heap, word)?)
    }

    // The length that the one word left sets, if there is one.
    pub fn last_length(&mut self) -> Result<Option<usize>, ParseError> {
        let Some((place, word)) = self.0.next() else {
            return Ok(None);
        };
        let length = table_length(word).ok_or(ParseError::Unreadable(Part::File, place))?;
        self.end()?;
        Ok(Some(length))
    }

    // The parents, which are all the words that are left.
    pub fn parents(self, heap: Global) -> Result<Vec<u32>, ParseError> {
        let mut parents = Vec::new(heap);
        for (place, word) in self.0 {
            parents.push(short_number(word).ok_or(ParseError::Unreadable(Part::Parent, place))?)?;
        }
        Ok(parents)
    }

    // The tips and then the options, which are all the words that are left.
    pub fn tips(self, heap: Global) -> Result<(Vec<u32>, Lengths), ParseError> {
        let mut tips = Vec::new(heap);
        let mut options = Options::none(true);
        for (place, word) in self.0 {
            if options.is_empty() && !word.contains('=') {
                tips.push(short_number(word).ok_or(ParseError::Unreadable(Part::Tip, place))?)?;
            } else {
                options.set(place, word)?;
            }
        }
        Ok((tips, options.lengths))
    }

    // The options, which are all the words that are left.
    pub fn options(self, has_results: bool) -> Result<Lengths, ParseError> {
        let mut options = Options::none(has_results);
        for (place, word) in self.0 {
            options.set(place, word)?;
        }
        Ok(options.lengths)
    }

    pub fn end(&mut self) -> Result<(), ParseError> {
        match self.0.next() {
            Some((place, _)) => Err(ParseError::Extra(place)),
            None => Ok(()),
        }
    }
}
