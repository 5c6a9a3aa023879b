//! What a run tells at its end: how a group's servers and clients stand, and what runs.
#![tactic(auto)]

mod allocations;
mod clients;
mod fault;
mod last_lines;
mod newest;
mod numbers;
mod servers;

pub use fault::EndError;
pub use last_lines::print_end;
pub use numbers::{EndNumbers, end_numbers};
