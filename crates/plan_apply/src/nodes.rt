//! The places of a plan, node by node: of each node all or none.
ghost use Rattle.std.specs.Prelude.{◌≡◌, ◌+◌, ◌++◌, ◌≤◌, ◌&&◌, Some, IfOk, OnOk, length, map};
ghost use Rattle.rows.specs.Keys.{alloc_id};
ghost use Rattle.fsm_model.specs.Words.{node_of};
ghost use Rattle.group_model.specs.Acceptance.{bears, claimed, on, kept_where, keep_places, keep_upto};
ghost use Rattle.plan_apply.specs.Inner.Overlay.{kept_so_far, stops_alone};
ghost use Rattle.plan_apply.specs.Inner.Stops.{AreEnded};

use crate::accepted::Kept;
use crate::names::are_alone;
use crate::places::{all_sized, places_on};
use crate::room::has_room;
use fsm_state::Cluster;
use rows::{AcceptedPlace, Allocation, Job, NoMemory, Node, NodeId, Place, Plan, Ranged, Sequence};
use std::alloc::Global;

/// Whether a node bears more places beside those that are kept, once the rows stop: each of their
/// names is held once, and the node's use is within its size.
fn bears(
    state: &Cluster,
    job: &Job,
    stopped: &[Allocation],
    kept: &Kept,
    more: &[AcceptedPlace],
    node: &Node,
) -> bool
    requires ended { AreEnded state.now stopped.now }
    requires few_stops { length stopped.now ≤ 64 }
    requires few_places { length kept.now.places + length more.now ≤ 64 }
    ensures { let cs = claimed state.now job.now.name (kept_so_far stopped.now kept.now) in
        result ≡ bears job.now.name cs node.now more.now }
{
    are_alone(state, &job.name, stopped, kept, more)
        && has_room(state, &job.name, stopped, kept, more, node)
}

/// The places that a node keeps, with their groups' sizes: all of them or none.
fn kept_where(
    alloc: Global,
    state: &Cluster,
    job: &Job,
    stopped: &[Allocation],
    kept: &Kept,
    places: &[Place],
    node: NodeId,
) -> Result<Option<Sequence<AcceptedPlace>>, NoMemory>
    requires ended { AreEnded state.now stopped.now }
    requires few_stops { length stopped.now ≤ 64 }
    requires few_places { length kept.now.places + length places.now ≤ 64 }
    ensures { let cs = claimed state.now job.now.name (kept_so_far stopped.now kept.now) in
        IfOk result (λ o. o ≡ kept_where job.now cs places.now (node_of node state.now)) }
{
    let Some(row) = state.node(node) else {
        return Ok(None);
    };
    match all_sized(alloc, job, row, places)? {
        Some(more) if bears(state, job, stopped, kept, more.as_slice(), row) => Ok(Some(more)),
        _ => Ok(None),
    }
}

/// Puts places to the end.
fn add_all(to: &mut Sequence<AcceptedPlace>, more: &[AcceptedPlace]) -> Result<(), NoMemory>
    ensures { OnOk result (to.new ≡ to.old ++ more.now) }
{
    for place in more {
        to.push(*place)?;
    }
    Ok(())
}

/// Keeps the places of a node, if there are any, or notes the node as one that refuses them.
fn keep_places(
    alloc: Global,
    state: &Cluster,
    job: &Job,
    stopped: &[Allocation],
    kept: &mut Kept,
    places: &[Place],
    node: NodeId,
) -> Result<(), NoMemory>
    requires ended { AreEnded state.now stopped.now }
    requires few_stops { length stopped.now ≤ 64 }
    requires few_places { length kept.old.places + length places.now ≤ 64 }
    ensures { let before = kept_so_far stopped.now kept.old in
        let after = keep_places state.now job.now node before places.now in
        OnOk result (kept_so_far stopped.now kept.new ≡ after) }
{
    if places.is_empty() {
        return Ok(());
    }
    match kept_where(alloc, state, job, stopped, kept, places, node)? {
        Some(more) => add_all(&mut kept.places, more.as_slice()),
        None => kept.refused.push(node),
    }
}

/// The same for the node of a number, with the plan's places on it.
fn keep_number(
    alloc: Global,
    state: &Cluster,
    job: &Job,
    stopped: &[Allocation],
    kept: &mut Kept,
    plan: &Plan,
    number: u8,
) -> Result<(), NoMemory>
    requires number { (1 ≤ number) × (number ≤ 64) }
    requires ended { AreEnded state.now stopped.now }
    requires few_stops { length stopped.now ≤ 64 }
    requires few_places { length kept.old.places + length (on number plan.now.places) ≤ 64 }
    ensures { let before = kept_so_far stopped.now kept.old in
        let after = keep_places state.now job.now number before (on number plan.now.places) in
        OnOk result (kept_so_far stopped.now kept.new ≡ after) }
{
    match NodeId::from_number(number) {
        Some(node) => {
            let places = places_on(alloc, node, plan.places.as_slice())?;
            keep_places(alloc, state, job, stopped, kept, places.as_slice(), node)
        }
        None => unreachable!(),
    }
}

/// What is kept of a plan's places, once the rows stop: node by node, in rising number.
pub(crate) fn kept_places(
    alloc: Global,
    state: &Cluster,
    job: &Job,
    stopped: &[Allocation],
    plan: &Plan,
) -> Result<Kept, NoMemory>
    requires ended { AreEnded state.now stopped.now }
    requires few_stops { length stopped.now ≤ 64 }
    ensures kept { let start = stops_alone (map alloc_id stopped.now) in
        IfOk result (λ kept. kept_so_far stopped.now kept
        ≡ keep_upto state.now job.now plan.now start 64) }
    ensures few { IfOk result (λ kept. length kept.places ≤ 64) }
{
    plan.ranges();
    let mut kept = Kept {
        places: Sequence::new(alloc),
        refused: Sequence::new(alloc),
    };
    for before in 0..NodeId::MOST {
        keep_number(alloc, state, job, stopped, &mut kept, plan, before + 1)?;
    }
    Ok(kept)
}
