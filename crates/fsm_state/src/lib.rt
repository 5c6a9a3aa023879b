//! The replicated state of a Nomad server group: its commands, what they do, and which a state
//! refuses.
#![tactic(auto)]

mod admission;
mod apply;
mod cluster;
mod lists;
mod new_evaluations;
mod replicated;
mod room;
mod text;

pub use admission::plans::may_hold;
pub use admission::touching::after_reports;
pub use cluster::{Cluster, is_among};
pub use room::{TakesRoom, taken};
