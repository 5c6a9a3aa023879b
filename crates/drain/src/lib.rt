//! Which allocations move next off a node that is drained.
#![tactic(auto)]

mod group;
mod marked;
mod moves;

pub use moves::{is_done, next_moves};
