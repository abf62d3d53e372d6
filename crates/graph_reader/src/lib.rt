// Reading Git's commit-graph file: what it holds, or what is wrong with it.
#![tactic(auto)]

mod chunk;
mod commits;
mod container;
mod data_chunk;
mod edge_chunk;
mod fan_out_chunk;
mod file;
mod first_bytes;
mod id_chunk;
mod levels;
mod parent_list;
mod parent_lists;
mod parents;
mod parts;
mod reading;

pub use file::GraphFile;
pub use parent_list::ParentList;
pub use reading::{fault_of, open, read};
