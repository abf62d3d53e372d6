// Reachability labels: the interface of a label kind, its three laws, and the kinds.
#![tactic(auto)]

mod blank;
mod byte_level;
mod corrected_date;
mod interval;
mod kind;
mod level;
mod pair;
mod span;
mod step;
mod stepped;

pub use blank::Blank;
pub use byte_level::ByteLevel;
pub use corrected_date::CorrectedDate;
pub use interval::Interval;
pub use kind::LabelKind;
pub use level::Level;
pub use pair::Pair;
pub use span::Span;
pub use step::Step;
pub use stepped::Stepped;
