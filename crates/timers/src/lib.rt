//! Time as an item: what a server or a client of the group is to do by itself once so many
//! milliseconds have passed.
#![tactic(auto)]

mod client_timers;
mod due;
mod election;
mod laws;
mod period;
mod server_timers;
mod settings;
mod watch;

pub use client_timers::{ClientDue, ClientTimers};
pub use due::{Due, Looked, Seen};
pub use laws::{
    beats_are_heard_before_an_expiry, timeouts_come_after_their_waits, turns_come_as_often,
};
pub use server_timers::ServerTimers;
pub use settings::{ClientSettings, Settings};
pub use watch::Sighting;
