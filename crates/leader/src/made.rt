//! The evaluations that the last entry made.
ghost use Rattle.std.specs.Prelude.{◌≡◌, true, IfOk, OnErr};
ghost use Rattle.leader.specs.Following.{tells_desk};
ghost use Rattle.leader.specs.Inner.Changes.{TouchChanged, TellsEvals};

use fsm_state::Cluster;
use fsm_tables::Tables;
use rows::{Command, EntryIndex, EvalId, Evaluation, NoMemory, Sequence};
use std::alloc::Global;

/// The evaluations that the last entry made to touch jobs, at most one for each job. They stand in
/// the slots from 0 on, without a gap unless the table is full.
fn made(alloc: Global, state: &Cluster) -> Result<Sequence<Evaluation>, NoMemory>
    ensures { IfOk result (λ rows. TouchChanged state.now rows) }
{
    let mut rows = Sequence::new(alloc);
    let Some(index) = EntryIndex::new(state.applied().get()) else {
        return Ok(rows);
    };
    let is_full = state.eval_table().len() >= Tables::MOST_EVALS;
    for slot in 0..Tables::MOST_JOBS {
        let id = EvalId {
            index,
            slot: slot as u8,
        };
        match state.eval(id) {
            Some(row) => rows.push(*row)?,
            None if is_full => {}
            None => return Ok(rows),
        }
    }
    Ok(rows)
}

/// The evaluations that a command made or replaced, as they stand in the state that it left.
pub(crate) fn changed_evals(
    alloc: Global,
    command: &Command,
    state: &Cluster,
) -> Result<Sequence<Evaluation>, NoMemory>
    ensures ok { IfOk result (λ rows. TellsEvals command.now state.now rows) }
    ensures memory { OnErr result (tells_desk command.now state.now ≡ true) }
{
    match command {
        Command::JobPut(_)
        | Command::JobStop(_)
        | Command::NodeDown(_)
        | Command::Migrate(_)
        | Command::EvalPut(_)
        | Command::Report(_, _) => made(alloc, state),
        Command::EvalStatus(id, _) => {
            let mut rows = Sequence::new(alloc);
            if let Some(row) = state.eval(*id) {
                rows.push(*row)?;
            }
            Ok(rows)
        }
        Command::Noop
        | Command::NodePut(_)
        | Command::Disconnect(_)
        | Command::Drain(_, _)
        | Command::DrainDone(_)
        | Command::Plan(_) => Ok(Sequence::new(alloc)),
    }
}
