// What commits have behind them: how far two lines have parted, and where a merge of them starts.
#![tactic(auto)]

mod bases;
mod goal;
mod marks;
mod paint;
mod parted;
mod refuse;
mod walk;

pub use bases::merge_bases;
pub use parted::ahead_behind;
