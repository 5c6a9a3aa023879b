//! How a group stands after some of a run's events, as a text or as JSON.
#![tactic(auto)]

mod applied;
mod commands;
mod deliveries;
mod desk;
mod entries;
mod fault;
mod gathering;
mod group;
mod inspecting;
mod metrics;
mod moments;
mod states;

pub use fault::InspectError;
pub use inspecting::{Form, inspect};
pub use moments::each_moment;
pub use sim_report_lines::{Change, Moments};
