ghost use Rattle.std.specs.Prelude.{◌≡◌, ◌⊎◌, [], true, false, Ok, Err, is_ok, IfOk, IfErr, OnErr, filter, map, not, take};
ghost use Rattle.rows.specs.declared.refusal.Refusal.TheVariants as refusals;
ghost use Rattle.rows.specs.declared.node.DrainMode.TheVariants as drains;
ghost use Rattle.group_model.specs.Drains.{is_done, next_moves, moves_of};
ghost use Rattle.group_model.specs.Drains.{firsts};
ghost use Rattle.drain.specs.Inner.Groups.{first_stays};

use crate::group::JobGroup;
use crate::marked::{Marked, is_met};
use fsm_state::Cluster;
use fsm_tables::Table;
use rows::{AllocId, Allocation, DrainMode, NoMemory, NodeId, Refusal, Sequence};
use std::alloc::Global;

/// The most allocations that move at once: 64.
const MOST: usize = 64;

/// Whether nothing lives on a node, so that its drain is done. It takes one step, and no memory.
/// (Nomad documentation, "node drain" command.)
pub fn is_done(state: &Cluster, node: NodeId) -> bool
    ensures { result ≡ is_done node state.now }
{
    state.alloc_table().ranges();
    let in_use = state.used(node).cpu() > 0;
    !in_use
}

/// The ids of the first 64 allocations that are not on the move.
fn resting(alloc: Global, rows: &[Allocation]) -> Result<Sequence<AllocId>, NoMemory>
    ensures { let those = filter (λ a. not a.migrate) rows.now in
        IfOk result (λ ids. ids ≡ take 64 (map (λ a. a.id) those)) }
{
    let mut ids = Sequence::new(alloc);
    for row in rows {
        if ids.len() == MOST {
            return Ok(ids);
        }
        if row.migrate {
            continue;
        }
        ids.push(row.id)?;
    }
    Ok(ids)
}

/// The moves by force: all that is not on the move. A node without live allocations takes no
/// memory.
fn forced(alloc: Global, state: &Cluster, node: NodeId) -> Result<Sequence<AllocId>, NoMemory>
    ensures ok { IfOk result (λ ids. ids ≡ moves_of drains.Force node state.now) }
    ensures memory { OnErr result (is_done node state.now ≡ false) }
{
    if is_done(state, node) {
        return Ok(Sequence::new(alloc));
    }
    let rows = state.live_on(node)?;
    let ids = resting(alloc, rows.as_slice())?;
    Ok(ids)
}

/// The ids of the first 64 that are each the first of its job and group, of which none is on the
/// move.
fn first_of_groups(
    alloc: Global,
    state: &Cluster,
    rows: &[Allocation],
) -> Result<Sequence<AllocId>, NoMemory>
    ensures { IfOk result (λ ids. ids ≡ first_stays state.now (firsts [] rows.now)) }
{
    let mut met: Table<JobGroup> = Table::empty(alloc);
    let mut marked = Marked::none(alloc);
    let mut ids = Sequence::new(alloc);
    for row in rows {
        if ids.len() == MOST {
            return Ok(ids);
        }
        if is_met(&met, row) {
            continue;
        }
        met.put(JobGroup::of(row))?;
        if marked.group_moves(state, row)? {
            continue;
        }
        ids.push(row.id)?;
    }
    Ok(ids)
}

/// The moves without force: one of each job and group of which none is on the move. A node without
/// live allocations takes no memory.
fn one_by_one(alloc: Global, state: &Cluster, node: NodeId) -> Result<Sequence<AllocId>, NoMemory>
    ensures ok { IfOk result (λ ids. ids ≡ moves_of drains.Slow node state.now) }
    ensures memory { OnErr result (is_done node state.now ≡ false) }
{
    if is_done(state, node) {
        return Ok(Sequence::new(alloc));
    }
    let rows = state.live_on(node)?;
    let ids = first_of_groups(alloc, state, rows.as_slice())?;
    Ok(ids)
}

/// The next moves off a node that is drained, at most 64, in rising id: with force its live
/// allocations that are not on the move; without force, of each job and group of which no live
/// allocation is on the move on any node, the one of the least id. `UnknownNode` where there is no
/// such node, `NotDraining` where it is not drained, and `NoMemory` only where neither applies and
/// an allocation lives on the node. It takes time of the node's live allocations and of those of
/// their jobs. (Nomad documentation, "node drain" command.)
pub fn next_moves(
    alloc: Global,
    state: &Cluster,
    node: NodeId,
) -> Result<Sequence<AllocId>, Refusal>
    ensures ok { IfOk result (λ ids. next_moves state.now node ≡ Ok ids) }
    ensures err { let moves = next_moves state.now node in
        IfErr result (λ e. (e ≡ refusals.NoMemory) ⊎ (moves ≡ Err e)) }
    ensures memory { let moves = next_moves state.now node in
        IfErr result (λ e. e ≡ refusals.NoMemory → is_ok moves ≡ true) }
    ensures lives { IfErr result (λ e. e ≡ refusals.NoMemory → is_done node state.now ≡ false) }
{
    let Some(row) = state.node(node) else {
        return Err(Refusal::UnknownNode);
    };
    let ids = match row.drain {
        DrainMode::Off => return Err(Refusal::NotDraining),
        DrainMode::Slow => one_by_one(alloc, state, row.number)?,
        DrainMode::Force => forced(alloc, state, row.number)?,
    };
    Ok(ids)
}
