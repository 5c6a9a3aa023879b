//! A plan that grows: its stops and places so far, and how full the nodes are with them.
ghost use Rattle.std.specs.Prelude.{◌≡◌, ◌++◌, ◌∷◌, [], IfOk, OnOk, map, option_map};
ghost use Rattle.group_model.specs.Scheduling.{is_full, with_stop, first_part, IsNext, GoesOn};
ghost use Rattle.scheduler.specs.Inner.Loads.{load_less, with_load};
ghost use Rattle.scheduler.specs.Inner.Growing.{part_of, fresh, first_unwanted, AreLoads, AreLiveRows};

use crate::load::{Load, best, loads_of, put_on, take_off};
use crate::wanted::{WantedName, is_wanted, wanted_groups};
use fsm_state::{Cluster, is_among};
use rows::{AcceptedPlace, AllocId, Allocation, Group, JobName, NoMemory, Sequence};
use std::alloc::Global;

/// The most stops, and the most places, of a plan: 64.
const MOST: usize = 64;

/// The first stops and places of a plan, and how full the nodes are once they are done.
#[derive(Drop)]
pub(crate) struct Growing {
    /// The stops.
    pub stops: Sequence<AllocId>,
    /// The places, with the sizes of their groups.
    pub places: Sequence<AcceptedPlace>,
    /// How full the nodes are: all of the state's, in rising number.
    pub loads: Vec<Load>,
}

/// The allocation, unless it stops already.
fn fresh<'a>(ids: &[AllocId], row: Option<&'a Allocation>) -> Option<&'a Allocation>
    ensures { option_map (λ r. r.now) result ≡ fresh ids.now (option_map (λ r. r.now) row.entry) }
{
    match row {
        Some(row) if !is_among(row.id, ids) => Some(row),
        _ => None,
    }
}

/// Whether there is no more to come.
fn is_full(plan: &Growing) -> bool
    ensures { result ≡ is_full (part_of plan.now) }
{
    plan.stops.len() >= MOST || plan.places.len() >= MOST
}

/// An allocation stops, if there is one.
fn stop(plan: &mut Growing, row: Option<&Allocation>) -> Result<(), NoMemory>
    ensures part { let a = option_map (λ r. r.now) row.entry in
        OnOk result (part_of plan.new ≡ with_stop a (part_of plan.old)) }
    ensures loads { let a = option_map (λ r. r.now) row.entry in
        let off = load_less (fresh plan.old.stops a) in
        OnOk result (plan.new.loads.items ≡ map off plan.old.loads.items) }
{
    let gone = fresh(plan.stops.as_slice(), row);
    take_off(&mut plan.loads, gone);
    if let Some(row) = row {
        plan.stops.push(row.id)?;
    }
    Ok(())
}

/// An allocation is made.
fn add_place(plan: &mut Growing, place: AcceptedPlace) -> Result<(), NoMemory>
    ensures stops { OnOk result (plan.new.stops ≡ plan.old.stops) }
    ensures places { OnOk result (plan.new.places ≡ plan.old.places ++ place ∷ []) }
    ensures loads { OnOk result (plan.new.loads.items ≡ map (with_load place) plan.old.loads.items) }
{
    put_on(&mut plan.loads, &place);
    plan.places.push(place)
}

/// A missing name goes to the best node, if one takes it, and its old allocation stops.
fn place(
    plan: &mut Growing,
    state: &Cluster,
    job: &JobName,
    name: &WantedName,
) -> Result<(), NoMemory>
    requires { AreLoads state.now job.now plan.old }
    ensures loads { OnOk result (AreLoads state.now job.now plan.new) }
    ensures next { let next = part_of plan.new in
        OnOk result (IsNext state.now job.now name.now (part_of plan.old) next) }
{
    state.node_table().ranges();
    state.alloc_table().ranges();
    let old = name.live(state, job);
    let gone = fresh(plan.stops.as_slice(), old);
    let Some(at) = best(&plan.loads, &name.group, gone) else {
        return Ok(());
    };
    let place = AcceptedPlace {
        group: name.group.name,
        index: name.index,
        node: plan.loads[at].node.number,
        size: name.group.size,
    };
    stop(plan, old)?;
    add_place(plan, place)?;
    Ok(())
}

/// Name after name, until the plan is full.
pub(crate) fn place_all(
    plan: &mut Growing,
    state: &Cluster,
    job: &JobName,
    names: &[WantedName],
) -> Result<(), NoMemory>
    requires { AreLoads state.now job.now plan.old }
    ensures { let whole = part_of plan.new in
        OnOk result (GoesOn state.now job.now (part_of plan.old) names.now whole) }
{
    for name in names {
        if is_full(plan) {
            return Ok(());
        }
        place(plan, state, job, name)?;
    }
    Ok(())
}

/// The first of these stop that no group wants, as many as a plan has at most.
fn stop_unwanted(
    plan: &mut Growing,
    state: &Cluster,
    job: &JobName,
    groups: &[Group],
    rows: &[Allocation],
) -> Result<(), NoMemory>
    requires empty { part_of plan.old ≡ record { stops = []; places = [] } }
    requires loads { AreLoads state.now job.now plan.old }
    requires live { AreLiveRows state.now rows.now }
    ensures part { let those = first_unwanted groups.now rows.now in
        OnOk result (part_of plan.new ≡ record { stops = those; places = [] }) }
    ensures loads { OnOk result (AreLoads state.now job.now plan.new) }
{
    state.alloc_table().ranges();
    for row in rows {
        if plan.stops.len() == MOST {
            return Ok(());
        }
        if is_wanted(groups, row) {
            continue;
        }
        stop(plan, Some(row))?;
    }
    Ok(())
}

/// A plan with the stops of what is not wanted: the job's live allocations of other names.
pub(crate) fn first_stops(
    alloc: Global,
    state: &Cluster,
    job: &JobName,
) -> Result<Growing, NoMemory>
    ensures part { IfOk result (λ plan. part_of plan ≡ first_part state.now job.now) }
    ensures loads { IfOk result (λ plan. AreLoads state.now job.now plan) }
{
    state.alloc_table().ranges();
    let rows = state.live_of_job(job)?;
    let groups = wanted_groups(state, job);
    let mut plan = Growing {
        stops: Sequence::new(alloc),
        places: Sequence::new(alloc),
        loads: loads_of(alloc, state)?,
    };
    stop_unwanted(&mut plan, state, job, groups, rows.as_slice())?;
    Ok(plan)
}
