//! What many runs come to.
ghost use Rattle.std.specs.Prelude.{◌≡◌, ◌∷◌, [], IfOk, MatchOption};
ghost use Rattle.sim_sweep.specs.Summaries.{IsSummary, IsWorst, all_run, class_by, class_of, has_refused, is_led, is_worse};

use crate::row::Row;
use crate::spread::{Spread, spread_of};
use rows::NoMemory;
use std::alloc::Global;

/// What the runs of a sweep, of which there is one at least, come to.
#[derive(Clone, Copy, Debug, PartialEq, Eq)]
pub struct Summary {
    /// How many runs there are.
    pub runs: usize,
    /// In how many of them a server leads in the end, in the greatest term of all.
    pub led: usize,
    /// In how many of them each allocation that is told runs, and one is told at least.
    pub running: usize,
    /// In how many of them a step was refused.
    pub refused: usize,
    /// Of the greatest terms.
    pub terms: Spread,
    /// Of the numbers of messages.
    pub messages: Spread,
    /// Of the numbers of events.
    pub events: Spread,
    /// The key of the worst run; of equally bad ones, of the first.
    pub worst: u64,
}

/// Whether a server leads in the end, in the greatest term of all.
pub fn is_led(row: &Row) -> bool
    ensures { result ≡ is_led row.now }
{
    row.end.leader.is_some()
}

/// Whether each allocation that is told runs, and one is told at least.
pub fn all_run(row: &Row) -> bool
    ensures { result ≡ all_run row.now }
{
    0 < row.end.live && row.end.running == row.end.live
}

/// Whether a step was refused.
pub fn has_refused(row: &Row) -> bool
    ensures { result ≡ has_refused row.now }
{
    0 < row.refused
}

fn class_by(led: bool, running: bool, refused: bool) -> u8
    ensures { result ≡ class_by led running refused }
{
    match (led, running, refused) {
        (false, _, _) => 0,
        (true, false, _) => 1,
        (true, true, true) => 2,
        (true, true, false) => 3,
    }
}

/// How well a run ended: 0 for not even with a leader; 1 for with one, but not with each allocation
/// running; 2 for with both, but with refused steps; 3 for with both, and without.
pub fn class_of(row: &Row) -> u8
    ensures { result ≡ class_of row.now }
{
    class_by(is_led(row), all_run(row), has_refused(row))
}

/// Whether a run is worse than another: it ended less well, or as well after more events.
pub fn is_worse(one: &Row, other: &Row) -> bool
    ensures { result ≡ is_worse one.now other.now }
{
    let (own, its) = (class_of(one), class_of(other));
    own < its || (own == its && other.end.events < one.end.events)
}

// The first of the runs that none is worse than.
fn worst_of(first: &Row, others: &[Row]) -> Row
    ensures { IsWorst (first.now ∷ others.now) result }
{
    let mut worst = *first;
    for row in others {
        if is_worse(row, &worst) {
            worst = *row;
        }
    }
    worst
}

/// What these runs come to; none where there is no run.
pub fn summary_of(alloc: Global, rows: &[Row]) -> Result<Option<Summary>, NoMemory>
    ensures { IfOk result (λ s. MatchOption s (rows.now ≡ []) (IsSummary rows.now)) }
{
    let Some((first, others)) = rows.split_first() else {
        return Ok(None);
    };
    let terms = spread_of(rows.iter().map(|row| row.end.term).collect(alloc)?)?;
    let messages = spread_of(
        rows.iter()
            .map(|row| row.end.messages as u64)
            .collect(alloc)?,
    )?;
    let events = spread_of(rows.iter().map(|row| row.end.events as u64).collect(alloc)?)?;
    let (Some(terms), Some(messages), Some(events)) = (terms, messages, events) else {
        return Ok(None);
    };
    Ok(Some(Summary {
        runs: rows.len(),
        led: rows.iter().filter(|row| is_led(row)).count(),
        running: rows.iter().filter(|row| all_run(row)).count(),
        refused: rows.iter().filter(|row| has_refused(row)).count(),
        terms,
        messages,
        events,
        worst: worst_of(first, others).key,
    }))
}
