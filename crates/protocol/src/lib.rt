// The requests of the program, read from lines.
#![tactic(auto)]

mod base_kind;
mod buffer;
mod hex_id;
mod kind;
mod lengths;
mod limits;
mod line;
mod malformed;
mod numbers;
mod options;
mod parse_error;
mod request;
mod words;

pub use base_kind::BaseKind;
pub use hex_id::HexId;
pub use kind::Kind;
pub use lengths::Lengths;
pub use limits::LONGEST_LINE;
pub use line::parse;
pub use parse_error::{ParseError, Part};
pub use request::{Addition, Containment, Opening, Request, TwoCommits, Writing};
