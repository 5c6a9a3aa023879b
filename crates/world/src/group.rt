//! A group of servers and clients: what is kept beside its actors, and the group itself.
mod history;
mod ranges;
mod states;
mod world;

pub use world::World;
