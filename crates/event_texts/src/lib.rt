//! Events as lines of text, and transcripts, which are texts of such lines.
#![tactic(auto)]

mod event;
mod line;
mod list;
mod reading;
mod request;
mod spelled;
mod transcript;
mod word;
mod worker;
mod writing;

pub use event::{read_beat, read_event};
pub use reading::read;
pub use transcript::{Transcript, write};
pub use word::{read_number, read_server};
