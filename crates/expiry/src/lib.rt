//! Which nodes are not down, and how often they were heard of.
#![tactic(auto)]

mod errors;
mod expiry;
mod heartbeat_count;
mod laws;
mod worked;

pub use errors::{ExpiryError, UnknownNode};
pub use expiry::Expiry;
pub use laws::{desks_go_by_counts, others_than_down_are_held};
pub use worked::worked_heartbeats;
