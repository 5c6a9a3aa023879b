//! A group whose servers need recovery is settled by a call: servers of the log alone, or a whole
//! group.
#![tactic(auto)]

mod calls;
mod calm_event;
mod choosing;
mod down_servers;
mod driven;
mod events;
mod group_driven;
mod log_driven;
mod reading;
mod restarts;
mod rounds;
mod settling;
#[cfg(test)]
mod tests;
mod unsettled;

pub use calls::{settle, settle_group};
pub use restarts::{settle_all, settle_all_of_group};
pub use unsettled::Unsettled;
