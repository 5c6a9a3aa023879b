//! The allocations that run on a node.
ghost use Rattle.std.specs.Prelude.{◌≡◌, not, filter, IfOk};
ghost use Rattle.rows.specs.Listings.{AreListed};
ghost use Rattle.fsm_model.specs.Words.{same_alloc};
ghost use Rattle.group_model.specs.Agents.{Running, is_shown, runs};
ghost use Rattle.client_agent.specs.Inner.Ids.{AreRunning};

use crate::ids::Ids;
use rows::{AllocId, ListedAllocation, NoMemory, Size};
use std::alloc::Global;
use std::marker::Model;

/// An allocation that runs on a node. (Nomad documentation, "Allocations".)
#[derive(Clone, Copy, Debug, PartialEq, Eq)]
pub struct RunningAllocation {
    /// Its id.
    pub id: AllocId,
    /// What it takes of the node.
    pub size: Size,
}

impl Model for RunningAllocation {
    ghost use Rattle.group_model.specs.Agents.{Running};

    ghost Value = { Running };

    ghost view = { λ a. record { id = a.id; size = a.size } };

    ghost inverse = { λ r. record { id = r.id; size = r.size } };
}

/// Whether an id is listed, in the logarithm of the list.
fn is_shown(rows: &[ListedAllocation], id: &AllocId) -> bool
    requires { AreListed rows.now }
    ensures { result ≡ is_shown rows.now id.now }
{
    rows.binary_search_by(|row| row.id.cmp(id)).is_ok()
}

/// Whether an allocation runs.
pub(crate) fn is_running(running: &[RunningAllocation], id: &AllocId) -> bool
    ensures { result ≡ runs running.now id.now }
{
    for one in running {
        if one.id == *id {
            return true;
        }
    }
    false
}

/// The ids of those that run, to be looked up.
pub(crate) fn ids_of(alloc: Global, running: &[RunningAllocation]) -> Result<Ids, NoMemory>
    ensures { IfOk result (AreRunning running.now) }
{
    let mut ids = Ids::none(alloc);
    for one in running {
        ids.add(one.id)?;
    }
    Ok(ids)
}

/// What is not listed stops.
pub(crate) fn keep_shown(running: &mut Vec<RunningAllocation>, rows: &[ListedAllocation])
    requires { AreListed rows.now }
    ensures { let stays = λ (r : Running). is_shown rows.now r.id in
        running.new.items ≡ filter stays running.old.items }
{
    running.retain(|one| is_shown(rows, &one.id));
}

/// One stops.
pub(crate) fn stop(running: &mut Vec<RunningAllocation>, id: &AllocId)
    ensures { let stays = λ (r : Running). not (same_alloc r.id id.now) in
        running.new.items ≡ filter stays running.old.items }
{
    running.retain(|one| one.id != *id);
}
