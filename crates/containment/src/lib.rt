// Which tips contain a commit.
#![tactic(auto)]

mod answer;
mod mark;
mod question;
mod room;
mod settle;
mod tell;
mod walk;

pub use answer::contains;
