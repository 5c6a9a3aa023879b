//! What an agent reports of the allocations that it is shown.
ghost use Rattle.std.specs.Prelude.{◌≡◌, List, IfOk};
ghost use Rattle.group_model.specs.Agents.{Running, state_to_report, news_of, news, is_known};
ghost use Rattle.client_agent.specs.Inner.Ids.{AreRunning};
ghost use Rattle.client_agent.specs.Inner.Runs.{runs_of};

use crate::ended::Ended;
use crate::ids::Ids;
use crate::running::{RunningAllocation, ids_of};
use crate::started::Started;
use rows::{AllocId, ListedAllocation, LiveState, NoMemory, Report, ReportedState, Sequence};
use std::alloc::Global;

/// The most reports at once: 64.
const MOST: usize = 64;

/// What the agent says of an allocation, if it was ever started. Its end counts as failed where it
/// is not known.
fn state_to_report(
    started: &Started,
    running: &Ids,
    ended: &Ended,
    id: &AllocId,
) -> Option<ReportedState>
    ensures { (all : List Running) → AreRunning all running.now
        → result ≡ state_to_report (runs_of started.now all) ended.now id.now }
{
    if running.has(id) {
        return Some(ReportedState::Running);
    }
    match ended.end_of(id) {
        Some(true) => Some(ReportedState::Complete),
        Some(false) => Some(ReportedState::Failed),
        None if started.has(id) => Some(ReportedState::Failed),
        None => None,
    }
}

/// Whether the list says so already.
fn is_known(listed: LiveState, state: ReportedState) -> bool
    ensures { result ≡ is_known listed state }
{
    match (listed, state) {
        (LiveState::Running, ReportedState::Running) => true,
        _ => false,
    }
}

/// What is to be reported of a listed one of this state: that which the list does not say already.
fn news_of(row: &ListedAllocation, state: Option<ReportedState>) -> Option<Report>
    ensures { result ≡ news_of row.now state }
{
    match state {
        Some(state) if !is_known(row.state, state) => Some(Report { id: row.id, state }),
        _ => None,
    }
}

/// The first 64 reports, in the order of the list.
pub(crate) fn news(
    alloc: Global,
    rows: &[ListedAllocation],
    started: &Started,
    running: &[RunningAllocation],
    ended: &Ended,
) -> Result<Sequence<Report>, NoMemory>
    ensures { IfOk result (λ items. items
        ≡ news (runs_of started.now running.now) ended.now rows.now) }
{
    let ids = ids_of(alloc, running)?;
    let mut items = Sequence::new(alloc);
    for row in rows {
        if items.len() == MOST {
            return Ok(items);
        }
        let state = state_to_report(started, &ids, ended, &row.id);
        let Some(item) = news_of(row, state) else {
            continue;
        };
        items.push(item)?;
    }
    Ok(items)
}
