//! What waits for the scheduling workers of one server, what becomes of what they take up, and how
//! many plans they submitted.
#![tactic(auto)]

mod plan_counts;
mod server_workers;
mod work_queue;

pub use server_workers::{Handled, ServerWorkers, TakenWork};
