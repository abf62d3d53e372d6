// Why a line is no request.
use crate::limits::{LONGEST_LINE, LONGEST_TABLE};
use std::alloc::{AllocError, AllocFailed};
use std::error::Error;
use std::fmt;

// What a word of a request says.
#[derive(Clone, Copy, Debug, PartialEq, Eq)]
pub enum Part {
    Kind,
    Rows,
    Labels,
    Order,
    Parents,
    Id,
    Tree,
    Date,
    Parent,
    Number,
    Target,
    Tip,
    First,
    Second,
    Results,
    Marks,
    Queue,
    Path,
    File,
}

impl fmt::Display for Part {
    fn fmt<W: fmt::Write>(&self, f: &mut fmt::Formatter<W>) -> fmt::Result {
        f.write_str(match *self {
            Part::Kind => "the label kind",
            Part::Rows => "the length of the rows",
            Part::Labels => "the length of the labels",
            Part::Order => "the length of the order",
            Part::Parents => "the length of the parents",
            Part::Id => "the id",
            Part::Tree => "the tree's id",
            Part::Date => "the date",
            Part::Parent => "a parent",
            Part::Number => "the commit's number",
            Part::Target => "the target's number",
            Part::Tip => "a tip",
            Part::First => "the first commit's number",
            Part::Second => "the second commit's number",
            Part::Results => "the length of the results",
            Part::Marks => "the length of the marks",
            Part::Queue => "the length of the queue",
            Part::Path => "the path",
            Part::File => "the length of the buffer",
        })
    }
}

impl Part {
    fn form(self) -> Form {
        match self {
            Part::Kind => Form::Kind,
            Part::Rows
            | Part::Labels
            | Part::Order
            | Part::Parents
            | Part::Results
            | Part::Marks
            | Part::Queue
            | Part::File => Form::Number(LONGEST_TABLE as u64),
            Part::Path => Form::Path,
            Part::Id | Part::Tree => Form::Id,
            Part::Date => Form::Number(u64::MAX),
            Part::Parent | Part::Number | Part::Target | Part::Tip | Part::First | Part::Second => {
                Form::Number(u32::MAX as u64)
            }
        }
    }
}

// What a word has to be.
#[derive(Clone, Copy)]
enum Form {
    Kind,
    Id,
    Path,
    // up to this
    Number(u64),
}

impl fmt::Display for Form {
    fn fmt<W: fmt::Write>(&self, f: &mut fmt::Formatter<W>) -> fmt::Result {
        match *self {
            Form::Kind => f.write_str(
                "blank, level, byte-level, corrected-date, interval or two of these joined by +",
            ),
            Form::Id => f.write_str("40 hex digits"),
            Form::Path => f.write_str("a path"),
            Form::Number(most) => write!(f, "a decimal number up to {most}"),
        }
    }
}

#[derive(Clone, Copy, Debug, PartialEq, Eq)]
pub enum ParseError {
    NotText,
    TooLong,
    UnknownRequest,
    // a word that should be there
    Missing(Part),
    // a word that does not have its form, and its place in the line, from 1
    Unreadable(Part, usize),
    // the place of a word too many
    Extra(usize),
    // the place of a word that is none of the request's options
    NoOption(usize),
    // a length that was set before, and the place of the word that sets it again
    Repeated(Part, usize),
    NoMemory,
}

impl fmt::Display for ParseError {
    fn fmt<W: fmt::Write>(&self, f: &mut fmt::Formatter<W>) -> fmt::Result {
        match *self {
            ParseError::NotText => f.write_str("the line is not UTF-8 text"),
            ParseError::TooLong => write!(f, "the line is longer than {LONGEST_LINE} bytes"),
            ParseError::UnknownRequest => f.write_str(
                "word 1 is not open, add, find, show, contains, ahead-behind, merge-bases or write",
            ),
            ParseError::Missing(part) => write!(f, "{part} is missing"),
            ParseError::Unreadable(part, place) => {
                let form = part.form();
                write!(f, "word {place}: {part} is not {form}")
            }
            ParseError::Extra(place) => write!(f, "word {place} is one too many"),
            ParseError::NoOption(place) => write!(
                f,
                "word {place} is not an option of the request"
            ),
            ParseError::Repeated(part, place) => write!(f, "word {place} sets {part} again"),
            ParseError::NoMemory => f.write_str("there is no memory for the request"),
        }
    }
}

impl Error for ParseError {}

impl From<AllocError> for ParseError {
    fn from(_e: AllocError) -> ParseError {
        ParseError::NoMemory
    }
}

impl<T: Drop> From<AllocFailed<T>> for ParseError {
    fn from(_e: AllocFailed<T>) -> ParseError {
        ParseError::NoMemory
    }
}
