//! The leader's desk: what a server has beside the log while it leads, to see evaluations worked
//! on, plans accepted and nodes watched.
#![tactic(auto)]

mod desk;
mod desk_error;
mod drains;
mod expiring;
mod following;
mod judged;
mod laws;
mod made;
mod open_desk;
mod turns;

pub use desk::Desk;
pub use desk_error::DeskError;
pub use following::follow;
pub use judged::JudgedPlan;
pub use laws::{calls_are_of_the_group, calls_stay_over_the_state};
