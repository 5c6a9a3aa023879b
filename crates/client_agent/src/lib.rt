//! A client of the group: the agent of one node, and what it does with each input.
#![tactic(auto)]

mod agent;
mod asking;
mod ended;
mod ids;
mod life;
mod listing;
mod reporting;
mod running;
mod started;
mod starting;

pub use agent::Agent;
pub use running::RunningAllocation;
