// Git's commit-graph file: writing it, and what its words mean.
#![tactic(auto)]

mod edge_list;
mod fan_out;
mod front;
mod ids;
mod output;
mod parent_words;
mod rows;
mod sizes;
mod writer;

pub use parent_words::{MARK, NO_PARENT};
pub use sizes::extra_edges;
pub use writer::write;
