// Why a call is refused.
ghost use Rattle.std.specs.Prelude.{◌≡◌};
ghost use Rattle.history.specs.Refusals.{refusal_number, refusal_values};
ghost use Rattle.std.specs.Option.{option_to_list};

use std::fmt;

#[derive(Clone, Copy, PartialEq, Eq, Debug)]
pub enum Refusal {
    // the date is over 17,179,869,183
    DateTooLate,
    // there are more than 64 parents
    TooManyParents,
    // a parent's number is not held
    ParentNotHeld,
    // a commit with the id is held already
    IdHeld,
    // the tables have no room for one commit more
    CapacityPassed,
    // the table of parents has no room for the parents
    ParentCapacityPassed,
    // the marks or the queue are too short
    BufferTooShort,
    // the list for the results is too short: the length needed
    ResultTooShort(usize),
    // a named commit is not held
    CommitNotHeld,
}

impl Refusal {
    // The enum is the kind of refusal; other programs are told its number.
    pub fn number(self) -> u32
        ensures { result ≡ refusal_number self }
    {
        match self {
            Refusal::DateTooLate => 1,
            Refusal::TooManyParents => 2,
            Refusal::ParentNotHeld => 3,
            Refusal::IdHeld => 4,
            Refusal::CapacityPassed => 5,
            Refusal::ParentCapacityPassed => 6,
            Refusal::BufferTooShort => 7,
            Refusal::ResultTooShort(_) => 8,
            Refusal::CommitNotHeld => 9,
        }
    }

    // The length that would have been enough, where the refusal carries one.
    pub fn needed(self) -> Option<usize>
        ensures { option_to_list result ≡ refusal_values self }
    {
        match self {
            Refusal::ResultTooShort(needed) => Some(needed),
            _ => None,
        }
    }
}

impl fmt::Display for Refusal {
    fn fmt<W: fmt::Write>(&self, f: &mut fmt::Formatter<W>) -> fmt::Result {
        let words = match *self {
            Refusal::DateTooLate => "the date is over 17179869183",
            Refusal::TooManyParents => "there are more than 64 parents",
            Refusal::ParentNotHeld => "a parent is not held",
            Refusal::IdHeld => "the id is held already",
            Refusal::CapacityPassed => "there is no room for one commit more",
            Refusal::ParentCapacityPassed => "there is no room for the parents",
            Refusal::BufferTooShort => "the marks or the queue are too short",
            Refusal::ResultTooShort(needed) => {
                return write!(
                    f,
                    "the list or buffer for the results is too short, {needed} needed"
                );
            }
            Refusal::CommitNotHeld => "a named commit is not held",
        };
        f.write_str(words)
    }
}
