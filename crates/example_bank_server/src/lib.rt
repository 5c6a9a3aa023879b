//! One server of a group that replicates a bank, as the actor of a process. It takes items of bytes,
//! frames and events of its own, and what it stores is in a journal before a frame that tells of it
//! leaves.
#![tactic(auto)]

mod law;
mod lines;
mod node;
mod start;

pub use law::{live, processes_keep_one_book};
pub use lines::Words;
pub use node::Node;
pub use start::{StartError, begin};
