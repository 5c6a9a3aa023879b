//! Scenarios played on a group: what each step does to the group, to its messages in flight and to
//! its workers. Nothing is read or printed here.
#![tactic(auto)]

pub mod flight;
pub mod lines;
pub mod play;
pub mod stage;
mod waiting;
