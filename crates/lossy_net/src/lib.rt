//! Messages on their way: the queues in which they wait, and what becomes of them, which are lost
//! and which are delivered more than once.
#![tactic(auto)]

mod fates;
mod message_fate;
mod net;
mod worked;

pub use fates::Fates;
pub use message_fate::{MessageFate, fate};
pub use net::{Net, PutBack};
pub use worked::{worked_fates, worked_words};
