// The queue of a walk: which of the commits that are waiting is looked at next. The queue is a binary heap in a slice that the caller
// lends, the same for every kind of element.
#![tactic(auto)]

mod elements;
mod heap;
mod marks;
mod order;
mod queue;

pub use elements::{ByDate, ByLevel, ByNumber};
pub use marks::clear;
pub use order::Ranked;
pub use queue::Queue;
