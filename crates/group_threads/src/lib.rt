//! A group whose actors stand in cells, on threads: one thread for each actor and each worker, the
//! messages that wait between them, and the bells by which they sleep.
#![tactic(auto)]

mod bell;
mod posting;
mod running;
mod worker;

pub use running::{GroupThreads, NetSettings, RunningGroup, start, stop};
pub use worker::{Gate, OpenGate, WorkerTurn, worker_turn};
