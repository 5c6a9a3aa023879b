//! A plain look at a group: what has to hold of it whatever happened to it, by loops over its rows
//! and by the texts of its servers' states, and by none of the words that contracts cite.
#![tactic(auto)]

mod fault;
mod looks;
mod state;
mod texts;

pub use fault::Fault;
pub use looks::{Looks, starts_once};
pub use state::state_fault;
