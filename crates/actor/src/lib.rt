//! One actor's step: what a server or a client of a group makes of what comes to it. Want of memory
//! is its crash, which sends nothing.
#![tactic(auto)]

mod clients;
mod group_actor;
mod servers;
mod stepped;

pub use clients::{deliver_to_client, hand_client, is_client_frame, is_client_restart};
pub use group_actor::GroupActor;
pub use servers::{deliver_sent_to_server, deliver_to_server, hand_server, is_frame, is_restart};
pub use stepped::{Stepped, no_output};
