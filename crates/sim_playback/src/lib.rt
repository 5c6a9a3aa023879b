//! A run's events, played again from the beginning by a group, and the lines that are written of it.
#![tactic(auto)]

mod fault;
mod group;
mod printing;

pub use fault::PlaybackError;
pub use group::{begin, hand_event};
pub use printing::print_lines;
