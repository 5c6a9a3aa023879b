//! Messages as frames of bytes, and frames one after the other in one buffer.
#![tactic(auto)]

mod append;
mod body;
mod frames;
mod header;
mod install;
mod kind;
mod laws;
mod log_message;
mod message;
mod reading;
mod services;
mod vote;
mod writing;

pub use append::{Append, AppendHead, AppendReply, MOST_ENTRIES};
pub use body::Body;
pub use frames::{Frame, Frames};
pub use install::{Install, InstallHead, InstallReply};
pub use kind::Kind;
pub use laws::frames_are_whole;
pub use log_message::{LogBody, LogMessage, is_log_frame, read_log_message};
pub use message::Message;
pub use reading::read_message;
pub use vote::{VoteReply, VoteRequest};
pub use writing::write_message;
