//! A server of the group: its part of the log, and the leader's desk beside it.
#![tactic(auto)]

mod server;
mod server_desk;

pub use server::{Outbox, Server};
