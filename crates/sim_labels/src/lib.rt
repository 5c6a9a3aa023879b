//! The words by which all that shows a run names its messages and its events.
#![tactic(auto)]

mod events;
mod messages;
mod words;

pub use events::{event_label, named_label};
pub use messages::message_label;
pub use words::{
    actor_text, alloc_text, client_word, desired_word, drain_word, eval_text, name_text, node_word,
    role_word, status_word, token_text,
};
