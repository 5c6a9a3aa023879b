//! The evaluations that a leader gives to scheduling workers: which are out, how often each was
//! given, and which comes next.
#![tactic(auto)]

mod answers;
mod balance;
mod broker;
mod laws;
mod lists;
mod ranks;
mod rebuild;
mod reserved_tree;
mod task;
mod tasks;
mod tree;

pub use answers::{PairError, SerialsUsedUp};
pub use broker::Broker;
pub use laws::{holds_what_is_pending, worked_run};
