//! The runs under many keys, on many threads.
ghost use Rattle.std.specs.Prelude.{◌≡◌, IfErr, IfOk, MatchResult, Ok, Some, length, slice_get, slice_set};
ghost use Rattle.std.specs.List.{All};
ghost use Rattle.sim_sweep.specs.Inner.Found.{AreFound, ArePlaced, IsNumbered, StayFound};
ghost use Rattle.sim_sweep.specs.Rows.{AreRows, IsRow, WhyNoRow, key_at};

use crate::row::{Row, row_of};
use crate::task::Task;
use rayon::prelude::*;
use rows::{NoMemory, Refusal};
use std::alloc::Global;
use std::sync::atomic::{AtomicU64, Ordering};
use std::thread::Threads;

/// Who is told how far a sweep is.
pub trait Progress {
    /// So many of so many runs are over.
    fn done(&self, done: u64, all: u64);

    /// Something else is told next.
    fn clear(&self);
}

/// Nobody is told.
#[derive(Clone, Copy)]
pub struct Unseen;

impl Progress for Unseen {
    fn done(&self, _done: u64, _all: u64) {}

    fn clear(&self) {}
}

/// The row of the key at a position.
#[derive(Clone, Copy)]
pub struct NumberedRow {
    /// The position of its key, from 0.
    pub position: u32,
    /// How the run under that key ended.
    pub row: Row,
}

/// Plays a scenario under each key of a task, on so many threads, and answers a row for each key,
/// in their order: the same rows whatever the number of threads is. A thread takes the next key
/// once it is done with one, so that a long run does not hold up the others. Fails with 12 where a
/// line is no step's or there is no such group, and with 1 where there is no memory.
pub fn sweep<R: Threads + Sync, P: Progress + Sync>(
    rt: &R,
    alloc: Global,
    task: &Task<'_>,
    jobs: usize,
    progress: &P,
) -> Result<Vec<Row>, Refusal>
    ensures rows { IfOk result (λ rows. AreRows task.now.scenario.now task.now.settings
        task.now.first task.now.count rows.items) }
    ensures refused { IfErr result (WhyNoRow task.now.scenario.now task.now.settings) }
{
    let brought = brought_by_all(rt, alloc, task, jobs, progress)?;
    let found = found_rows(alloc, task, &brought)?;
    in_order(alloc, task, &found)
}

// What each of so many workers brings.
fn brought_by_all<R: Threads + Sync, P: Progress + Sync>(
    rt: &R,
    alloc: Global,
    task: &Task<'_>,
    jobs: usize,
    progress: &P,
) -> Result<Vec<Vec<NumberedRow>>, Refusal>
    ensures brought { IfOk result (λ brought. All (λ rows. All (IsNumbered task.now.scenario.now
        task.now.settings task.now.first) rows.items) brought.items) }
    ensures refused { IfErr result (WhyNoRow task.now.scenario.now task.now.settings) }
{
    let (next, done) = (AtomicU64::new(0), AtomicU64::new(0));
    (0..jobs)
        .into_par_iter()
        .with_min_len(1)
        .map(
            |_worker: usize| -> Result<Vec<NumberedRow>, Refusal>
                ensures { MatchResult result (λ rows. All (IsNumbered task.entry.now.scenario.now
                    task.entry.now.settings task.entry.now.first) rows.items)
                    (WhyNoRow task.entry.now.scenario.now task.entry.now.settings) }
            { brought_by_one(alloc, task, &next, &done, progress) },
        )
        .collect::<Result<Vec<Vec<NumberedRow>>, Refusal>>(rt, alloc)?
}

// What one worker brings: it plays under the next key, as long as there is one.
fn brought_by_one<P: Progress>(
    alloc: Global,
    task: &Task<'_>,
    next: &AtomicU64,
    done: &AtomicU64,
    progress: &P,
) -> Result<Vec<NumberedRow>, Refusal>
    ensures brought { IfOk result (λ rows. All (IsNumbered task.now.scenario.now
        task.now.settings task.now.first) rows.items) }
    ensures refused { IfErr result (WhyNoRow task.now.scenario.now task.now.settings) }
{
    let mut rows = Vec::new(alloc);
    for _ in 0..task.count {
        let position = next.fetch_add(1, Ordering::SeqCst);
        if u64::from(task.count) <= position {
            break;
        }
        rows.push(numbered_at(alloc, task, position as u32)?)?;
        let before = done.fetch_add(1, Ordering::SeqCst);
        progress.done(before.wrapping_add(1), u64::from(task.count));
    }
    Ok(rows)
}

// Plays under the key at a position.
fn numbered_at(alloc: Global, task: &Task<'_>, position: u32) -> Result<NumberedRow, Refusal>
    ensures row { IfOk result (IsNumbered task.now.scenario.now task.now.settings
        task.now.first) }
    ensures refused { IfErr result (WhyNoRow task.now.scenario.now task.now.settings) }
{
    let row = row_of(alloc, task.scenario, task.settings, task.key(position))?;
    Ok(NumberedRow { position, row })
}

// By the places of their keys, the rows that were brought.
fn found_rows(
    alloc: Global,
    task: &Task<'_>,
    brought: &[Vec<NumberedRow>],
) -> Result<Vec<Option<Row>>, NoMemory>
    requires { All (λ rows. All (IsNumbered task.now.scenario.now task.now.settings
        task.now.first) rows.items) brought.now }
    ensures found { IfOk result (λ found. AreFound task.now.scenario.now task.now.settings
        task.now.first found.items) }
    ensures size { IfOk result (λ found. length found.items ≡ task.now.count) }
    ensures put { IfOk result (λ found. All (λ rows. ArePlaced rows.items found.items)
        brought.now) }
{
    let mut found = vec![in alloc; None; task.count as usize]?;
    for rows in brought {
        put_rows(task, rows, &mut found);
    }
    Ok(found)
}

// Puts rows at their places.
fn put_rows(task: &Task<'_>, rows: &[NumberedRow], found: &mut [Option<Row>])
    requires rows { All (IsNumbered task.now.scenario.now task.now.settings task.now.first)
        rows.now }
    requires found { AreFound task.now.scenario.now task.now.settings task.now.first found.old }
    ensures found { AreFound task.now.scenario.now task.now.settings task.now.first found.new }
    ensures put { ArePlaced rows.now found.new }
    ensures kept { StayFound found.old found.new }
{
    for placed in rows {
        put_row(task, placed, found);
    }
}

// Puts a row at its place, where there is such a place.
fn put_row(task: &Task<'_>, placed: &NumberedRow, found: &mut [Option<Row>])
    requires row { IsNumbered task.now.scenario.now task.now.settings task.now.first placed.now }
    requires found { AreFound task.now.scenario.now task.now.settings task.now.first found.old }
    ensures found { AreFound task.now.scenario.now task.now.settings task.now.first found.new }
    ensures put { found.new ≡ slice_set found.old placed.now.position (Some placed.now.row) }
{
    let position = placed.position as usize;
    if position < found.len() {
        found[position] = Some(placed.row);
    }
}

// A row for each key, in order.
fn in_order(alloc: Global, task: &Task<'_>, found: &[Option<Row>]) -> Result<Vec<Row>, Refusal>
    requires { AreFound task.now.scenario.now task.now.settings task.now.first found.now }
    ensures rows { IfOk result (λ rows. AreRows task.now.scenario.now task.now.settings
        task.now.first task.now.count rows.items) }
    ensures refused { IfErr result (WhyNoRow task.now.scenario.now task.now.settings) }
{
    let mut rows = Vec::new(alloc);
    for position in 0..task.count {
        rows.push(row_at(alloc, task, found, position)?)?;
    }
    Ok(rows)
}

// The row of the key at a position. One that no worker brought is played here: each is brought,
// which no contract can tell of a number that threads share.
fn row_at(
    alloc: Global,
    task: &Task<'_>,
    found: &[Option<Row>],
    position: u32,
) -> Result<Row, Refusal>
    requires { AreFound task.now.scenario.now task.now.settings task.now.first found.now }
    ensures row { IfOk result (IsRow task.now.scenario.now task.now.settings
        (key_at task.now.first position)) }
    ensures found { (row : Row) → slice_get found.now position ≡ Some (Some row)
        → result ≡ Ok row }
    ensures refused { IfErr result (WhyNoRow task.now.scenario.now task.now.settings) }
{
    match found.get(position as usize).copied() {
        Some(Some(row)) => Ok(row),
        _ => row_of(alloc, task.scenario, task.settings, task.key(position)),
    }
}
