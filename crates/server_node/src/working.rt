//! What a server's workers do.
ghost use Rattle.std.specs.Prelude.{IfOk};
ghost use Rattle.server_node.specs.Working.{AsksOwn};

use fsm_state::Cluster;
use group_inputs::ServerInput;
use rows::{Index, NoMemory};
use std::alloc::Global;
use workers::{Handled, ServerWorkers};

/// What became of a worker's step.
#[derive(Drop)]
pub enum Worked {
    /// None was to be done, or what waits needs a later state.
    Nothing,
    /// It was done, and nothing is asked.
    Dropped,
    /// It asks for something, by this input of its server.
    Asks(ServerInput),
}

/// A worker takes up the oldest that waits, and goes on with it at this state.
pub fn work(
    alloc: Global,
    workers: &mut ServerWorkers,
    state: &Cluster,
    index: Index,
) -> Result<Worked, NoMemory>
    ensures { IfOk result AsksOwn }
{
    let Some(taken) = workers.take() else {
        return Ok(Worked::Nothing);
    };
    let step = taken.next(alloc, state, index)?;
    match workers.go_on(taken, step)? {
        Handled::Waits => Ok(Worked::Nothing),
        Handled::Dropped => Ok(Worked::Dropped),
        Handled::Asks(input) => Ok(Worked::Asks(input)),
    }
}
