//! The plans that wait at the leader's desk.
#![tactic(auto)]

mod laws;
mod queue;
mod queued;
mod worked;

pub use laws::plans_join_the_queue;
pub use queue::PlanQueue;
pub use queued::QueuedPlan;
pub use worked::{worked_full_queue, worked_order};
