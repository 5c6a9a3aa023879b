//! What can happen to a group: its events, and the inputs of its servers and clients.
#![tactic(auto)]

mod client_input;
mod event;
mod server_input;

pub use client_input::ClientInput;
pub use event::Event;
pub use server_input::ServerInput;
