//! How what a server of a log stores is kept in the records of a journal: what an item changed of
//! it, and what a journal has of it.
#![tactic(auto)]

mod delta;
mod reading;

pub use delta::{Before, LogDelta, changed, joined, remember};
pub use reading::{Unread, stable_of};
