//! What is listed and was never started is started, if it fits.
ghost use Rattle.std.specs.Prelude.{◌≡◌, OnOk};
ghost use Rattle.rows.specs.Sizes.{fits};
ghost use Rattle.group_model.specs.Agents.{starts, starts_one};
ghost use Rattle.client_agent.specs.Capacity.{FitTogether};
ghost use Rattle.client_agent.specs.Inner.Rooms.{IsLeftBeside};
ghost use Rattle.client_agent.specs.Inner.Runs.{runs_of, MoreIds};

use crate::running::RunningAllocation;
use crate::started::Started;
use rows::{ListedAllocation, NoMemory, Size, Usage};

/// What is left of a node of this size beside what runs there.
fn left_beside(whole: &Size, running: &[RunningAllocation]) -> Usage
    requires { FitTogether whole.now running.now }
    ensures { IsLeftBeside whole.now running.now result }
{
    let mut left = Usage::of(*whole);
    for one in running {
        left = left.take(Usage::of(one.size));
    }
    left
}

/// Whether this fits into what is left.
fn has_room(left: Usage, size: Size) -> bool
    ensures { result ≡ fits size left }
{
    Usage::of(size).is_within(left)
}

/// A listed one starts on a node of this size, if it never did and fits into what is left.
#[tactic(auto, using(crate::proofs::Fits::beside_more))]
fn start_one(
    whole: &Size,
    row: &ListedAllocation,
    started: &mut Started,
    running: &mut Vec<RunningAllocation>,
    left: &mut Usage,
) -> Result<(), NoMemory>
    requires { IsLeftBeside whole.now running.old.items left.old }
    ensures ok { OnOk result (runs_of started.new running.new.items
        ≡ starts_one whole.now row.now (runs_of started.old running.old.items)) }
    ensures left { OnOk result (IsLeftBeside whole.now running.new.items left.new) }
    ensures grows { MoreIds started.old started.new }
{
    if started.has(&row.id) || !has_room(*left, row.size) {
        return Ok(());
    }
    running.push(RunningAllocation {
        id: row.id,
        size: row.size,
    })?;
    started.push(&row.id)?;
    *left = left.take(Usage::of(row.size));
    Ok(())
}

/// Each listed one that never started does, in order, if it fits beside what runs on a node of this
/// size. Without memory some may have.
pub(crate) fn start_listed(
    whole: Size,
    rows: &[ListedAllocation],
    started: &mut Started,
    running: &mut Vec<RunningAllocation>,
) -> Result<(), NoMemory>
    requires { FitTogether whole running.old.items }
    ensures ok { OnOk result (runs_of started.new running.new.items
        ≡ starts whole rows.now (runs_of started.old running.old.items)) }
    ensures fit { OnOk result (FitTogether whole running.new.items) }
    ensures grows { MoreIds started.old started.new }
{
    let mut left = left_beside(&whole, running);
    for row in rows {
        start_one(&whole, row, started, running, &mut left)?;
    }
    Ok(())
}
