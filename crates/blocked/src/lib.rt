//! The evaluations that are blocked: which wait for room, and which are due.
#![tactic(auto)]

mod blocked;
mod due;
mod held;
mod laws;
mod of_job;
mod order;
mod rebuild;
mod rooms;

pub use blocked::Blocked;
pub use laws::blocked_is_of_the_state;
