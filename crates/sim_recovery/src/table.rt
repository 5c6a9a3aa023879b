//! What brings a group back from many moments of a run.
ghost use Rattle.std.specs.Prelude.{◌≡◌, ◌≢◌, ◌<◌, ◌≤◌, ◌++◌, ◌∷◌, ◌==◌, ◌%◌, [], true, false, IfErr, IfOk, OnOk, length, take};
ghost use Rattle.group_inputs.specs.Events.{group_events};
ghost use Rattle.sim_labels.specs.Groups.{MayBe, MayNotBe};
ghost use Rattle.sim_recovery.specs.Farthest.{IsFarthest};
ghost use Rattle.sim_recovery.specs.Recoveries.{AreWayRows, HasNoRoom, HasNoRoomOnce, IsWayRow, IsTable, moments_of};
ghost use Rattle.sim_recovery.specs.declared.fault.RecoveryError.TheVariants as errors;

use crate::counts::{Counts, counts_of};
use crate::farthest::farthest_of;
use crate::fault::RecoveryError;
use crate::recovering::{back_from, taken_behind};
use group_inputs::Event;
use rows::{NoMemory, NodeSpec};
use std::alloc::Global;

/// How many moments are told of at most. A run is played anew for each.
pub const MOST_ROWS: usize = 1_000;

/// What brings a group back from one moment of a run.
#[derive(Clone, Copy)]
pub struct WayRow {
    /// After how many events.
    pub after: usize,
    /// How many events it takes, by their kinds.
    pub counts: Counts,
}

/// What brings it back from many moments.
#[derive(Drop)]
pub struct Table {
    /// A row for each of them, in their order.
    pub rows: Vec<WayRow>,
    /// The row of the moment from which it takes the most events; of several the first.
    pub farthest: WayRow,
}

// A number more, if it is a multiple of another.
fn put_multiple(moments: &mut Vec<usize>, every: usize, after: usize) -> Result<(), NoMemory>
    requires { 1 ≤ every }
    ensures multiple { OnOk result ((after % every == 0) ≡ true
        → moments.new.items ≡ moments.old.items ++ after ∷ []) }
    ensures other { OnOk result ((after % every == 0) ≡ false
        → moments.new.items ≡ moments.old.items) }
{
    if after % every == 0 {
        moments.push(after)?;
    }
    Ok(())
}

// After each so many of all events, from none on, and after all.
fn moments_of(alloc: Global, every: usize, all: usize) -> Result<Vec<usize>, NoMemory>
    requires { 1 ≤ every }
    ensures { IfOk result (λ moments. moments.items ≡ moments_of every all) }
{
    let mut moments = Vec::new(alloc);
    for after in 0..all {
        put_multiple(&mut moments, every, after)?;
    }
    moments.push(all)?;
    Ok(moments)
}

// The first so many events, or all where there are fewer.
fn first_of(events: &[Event], after: usize) -> &[Event]
    ensures { group_events result.now ≡ take after (group_events events.now) }
{
    match events.get(..after) {
        Some(front) => front,
        None => events,
    }
}

// The row of a moment.
fn row_at(
    alloc: Global,
    servers: usize,
    nodes: &[NodeSpec],
    events: &[Event],
    after: usize,
) -> Result<WayRow, RecoveryError>
    ensures row { IfOk result (IsWayRow servers nodes.now (group_events events.now) after) }
    ensures room { IfErr result (λ error. error ≡ errors.NoRoom
        → HasNoRoomOnce servers nodes.now (group_events events.now)) }
    ensures fault { IfErr result (λ error. error ≢ errors.Group → MayBe servers nodes.now) }
    ensures no_group { IfErr result (λ error. error ≡ errors.Group → MayNotBe servers nodes.now) }
    ensures many { IfErr result (λ error. error ≢ errors.TooMany) }
{
    let back = back_from(alloc, servers, nodes, first_of(events, after))?;
    let counts = counts_of(taken_behind(&back.world, back.before));
    Ok(WayRow { after, counts })
}

// A row more.
fn put_row(rows: &mut Vec<WayRow>, row: WayRow) -> Result<(), NoMemory>
    ensures { OnOk result (rows.new.items ≡ rows.old.items ++ row ∷ []) }
{
    rows.push(row)?;
    Ok(())
}

// A row for each of these moments.
fn rows_at(
    alloc: Global,
    servers: usize,
    nodes: &[NodeSpec],
    events: &[Event],
    moments: &[usize],
) -> Result<Vec<WayRow>, RecoveryError>
    ensures rows { IfOk result (λ rows. AreWayRows servers nodes.now (group_events events.now)
        moments.now rows.items) }
    ensures room { IfErr result (λ error. error ≡ errors.NoRoom
        → HasNoRoomOnce servers nodes.now (group_events events.now)) }
    ensures fault { IfErr result (λ error. error ≢ errors.Group → MayBe servers nodes.now) }
    ensures no_group { IfErr result (λ error. error ≡ errors.Group → MayNotBe servers nodes.now) }
    ensures many { IfErr result (λ error. error ≢ errors.TooMany) }
{
    let mut rows = Vec::new(alloc);
    for after in moments {
        let row = row_at(alloc, servers, nodes, events, *after)?;
        put_row(&mut rows, row)?;
    }
    Ok(rows)
}

// The farthest of rows, of which there is one at least.
fn farthest_in(rows: &[WayRow]) -> WayRow
    requires { 0 < length rows.now }
    ensures { IsFarthest rows.now result }
{
    let Some((first, others)) = rows.split_first() else {
        unreachable!();
    };
    farthest_of(first, others)
}

/// What brings the group of a run back from each moment after a multiple of `every` events, and
/// from the last. The run is played anew for each of them.
///
/// It is refused with `TooMany` where there are more than 1,000 of them, then with `Group` where
/// there is no such group, with `NoRoom` where a server has no room for two more terms or entries
/// at one of them, and with `NoMemory`.
pub fn table_of(
    alloc: Global,
    servers: usize,
    nodes: &[NodeSpec],
    events: &[Event],
    every: usize,
) -> Result<Table, RecoveryError>
    requires { 1 ≤ every }
    ensures told { IfOk result (IsTable servers nodes.now (group_events events.now) every) }
    ensures few { OnOk result (length (moments_of every (length events.now)) ≤ MOST_ROWS) }
    ensures many { IfErr result (λ error. error ≡ errors.TooMany
        → MOST_ROWS < length (moments_of every (length events.now))) }
    ensures room { IfErr result (λ error. error ≡ errors.NoRoom
        → HasNoRoomOnce servers nodes.now (group_events events.now)) }
    ensures fault { IfErr result (λ error. error ≢ errors.Group → error ≢ errors.TooMany
        → error ≢ errors.NoMemory → MayBe servers nodes.now) }
    ensures no_group { IfErr result (λ error. error ≡ errors.Group → MayNotBe servers nodes.now) }
{
    let moments = moments_of(alloc, every, events.len())?;
    if MOST_ROWS < moments.len() {
        return Err(RecoveryError::TooMany);
    }
    let rows = rows_at(alloc, servers, nodes, events, &moments)?;
    let farthest = farthest_in(&rows);
    Ok(Table { rows, farthest })
}
