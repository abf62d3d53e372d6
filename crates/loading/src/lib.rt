// Loading a commit-graph file into an empty history.
#![tactic(auto)]

mod admit;
mod loader;
mod queue;
mod refusal;
mod room;

pub use loader::load;
pub use refusal::LoadRefusal;
