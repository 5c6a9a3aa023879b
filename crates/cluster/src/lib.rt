//! Servers and clients of a group as threads: each in a cell under a lock of its own, each of its
//! steps noted in the book that all share, and the world to which the notes of all of them come, in
//! the order of their stamps and played again. The crates below it have the other parts.
#![tactic(auto)]

mod closing;
mod joining;
mod merging;
mod numbering;
mod replaying;

pub use cells::{
    Cell, CellTurn, Cells, Envelope, GroupActor, KeptEvent, OwnInput, OwnedCells, StampedEvent,
    Stepped, cells_of, turn,
};
pub use group_threads::{
    Gate, GroupThreads, NetSettings, OpenGate, RunningGroup, WorkerTurn, start, stop, worker_turn,
};
pub use joining::close;
pub use workers::{Handled, ServerWorkers, TakenWork};
