// A commit history over lent tables: opening, adding commits, finding and reading them.
#![tactic(auto)]

mod add;
mod by_id;
mod graph;
mod growth;
mod load_fault;
mod lookup;
mod object_id;
mod open;
mod read;
mod refusal;
mod reorder;
mod row;
mod steps;

pub use graph::CommitGraph;
pub use load_fault::{ChunkFault, ContainerFault, HistoryFault, LoadFault};
pub use object_id::ObjectId;
pub use refusal::Refusal;
pub use row::CommitRow;
