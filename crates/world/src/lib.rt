//! The whole group in one value: its servers and clients, and all frames that were ever sent; and
//! its servers alone, over any machine.
#![tactic(auto)]

mod done;
mod event;
mod group;
mod history;
mod input;
mod machines;
mod room;
mod tickets;
mod world;

pub use done::Done;
pub use event::RaftEvent;
pub use group::World;
pub use world::RaftWorld;
