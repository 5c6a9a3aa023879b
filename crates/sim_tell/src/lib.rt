//! What each event of a run did, a line an event.
#![tactic(auto)]

mod cells;
mod changes;
mod lines;
mod newest;
mod sent;
mod standing;
mod words;

pub use lines::{event_lines, tell};
