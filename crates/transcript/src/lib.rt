//! Transcripts: what happened to a group, as a text that can be played again.
#![tactic(auto)]

mod writing;

pub use event_texts::{Transcript, read, read_event};
pub use writing::write;
