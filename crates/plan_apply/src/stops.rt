//! Which stops of a plan are kept, as the rows that they name.
ghost use Rattle.std.specs.Prelude.{◌≡◌, IfOk, OnOk, map};
ghost use Rattle.std.specs.List.{list_any};
ghost use Rattle.rows.specs.Keys.{alloc_id};
ghost use Rattle.fsm_tables.specs.Lookups.{lives_for};
ghost use Rattle.fsm_model.specs.Words.{same_alloc};
ghost use Rattle.group_model.specs.Acceptance.{kept_stops};
ghost use Rattle.plan_apply.specs.Inner.Stops.{with_stopped, with_live_stop, AreEnded};

use fsm_state::Cluster;
use fsm_tables::is_live;
use rows::{AllocId, Allocation, JobName, NoMemory, Plan, Sequence};
use std::alloc::Global;

/// Whether one of these rows is the allocation's.
pub(crate) fn has_row(rows: &[Allocation], id: AllocId) -> bool
    ensures { result ≡ list_any (same_alloc id) (map alloc_id rows.now) }
{
    for row in rows {
        if id == row.id {
            return true;
        }
    }
    false
}

/// Whether a row is a live one of the job.
fn lives_for(row: &Allocation, job: &JobName) -> bool
    ensures { result ≡ lives_for job.now row.now }
{
    is_live(row) && row.job == *job
}

/// Adds a row that is not there yet.
fn add_row(rows: &mut Sequence<Allocation>, row: &Allocation) -> Result<(), NoMemory>
    ensures { OnOk result (rows.new ≡ with_stopped rows.old row.now) }
{
    if has_row(rows.as_slice(), row.id) {
        Ok(())
    } else {
        rows.push(*row)
    }
}

/// Adds the row of a stop, if it is a live one of the job that is not there yet.
fn add_stop(
    rows: &mut Sequence<Allocation>,
    state: &Cluster,
    job: &JobName,
    id: AllocId,
) -> Result<(), NoMemory>
    ensures ids { let ids = map alloc_id rows.old in
        OnOk result (map alloc_id rows.new ≡ with_live_stop state.now job.now ids id) }
    ensures ended { OnOk result (AreEnded state.now rows.old → AreEnded state.now rows.new) }
{
    match state.alloc(id) {
        Some(row) if lives_for(row, job) => add_row(rows, row),
        _ => Ok(()),
    }
}

/// The rows that stop: the live ones of the plan's job that its stops name, once each, in the order
/// of first mention.
pub(crate) fn stopped_by(
    alloc: Global,
    state: &Cluster,
    plan: &Plan,
) -> Result<Sequence<Allocation>, NoMemory>
    ensures ids { IfOk result (λ rows. map alloc_id rows ≡ kept_stops state.now plan.now) }
    ensures ended { IfOk result (λ rows. AreEnded state.now rows) }
{
    let mut rows = Sequence::new(alloc);
    for id in plan.stops.as_slice() {
        add_stop(&mut rows, state, &plan.job, *id)?;
    }
    Ok(rows)
}

/// The ids of rows.
pub(crate) fn ids_of(alloc: Global, rows: &[Allocation]) -> Result<Sequence<AllocId>, NoMemory>
    ensures { IfOk result (λ ids. ids ≡ map alloc_id rows.now) }
{
    let mut ids = Sequence::new(alloc);
    for row in rows {
        ids.push(row.id)?;
    }
    Ok(ids)
}
