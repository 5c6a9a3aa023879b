//! The live allocations of a node, as its agent is shown them.
ghost use Rattle.std.specs.Prelude.{◌≡◌, map, IfOk};
ghost use Rattle.group_model.specs.ClientRequests.{listed_state, shown, listed};

use fsm_state::Cluster;
use machine::Machine;
use rows::{
    Allocation, ClientState, ListedAllocation, Listing, LiveState, NoMemory, NodeId, Sequence,
};
use std::alloc::Global;

/// What its agent is told of a live allocation's work.
fn listed_state(state: ClientState) -> LiveState
    ensures { result ≡ listed_state state }
{
    match state {
        ClientState::Running => LiveState::Running,
        ClientState::Unknown => LiveState::Unknown,
        _ => LiveState::Pending,
    }
}

/// A live allocation, as its agent is shown it.
fn shown(row: &Allocation) -> ListedAllocation
    ensures { result ≡ shown row.now }
{
    ListedAllocation {
        id: row.id,
        size: row.size,
        state: listed_state(row.client),
    }
}

/// Allocations, as their agent is shown them.
fn all_shown(alloc: Global, rows: &[Allocation]) -> Result<Sequence<ListedAllocation>, NoMemory>
    ensures { IfOk result (λ all. all ≡ map shown rows.now) }
{
    let mut all = Vec::new(alloc);
    for row in rows {
        all.push(shown(row))?;
    }
    Ok(Sequence::from_vec(all))
}

/// The live allocations of a node.
pub(super) fn listed(alloc: Global, state: &Cluster, node: NodeId) -> Result<Listing, NoMemory>
    ensures { IfOk result (λ listing. listing ≡ listed node state.now) }
{
    // Its rows are known to be few and in rising id.
    let _count = state.count();
    let rows = state.live_on(node)?;
    match Listing::check(all_shown(alloc, rows.as_slice())?) {
        Ok(listing) => Ok(listing),
        Err(_) => unreachable!(),
    }
}
