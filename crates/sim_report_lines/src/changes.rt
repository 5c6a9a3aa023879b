//! What changes from the lines of one moment to those of the next.
ghost use Rattle.std.specs.Prelude.{◌≡◌, ◌≤◌, IfSome, IsTrue, slice_get};
ghost use Rattle.serde.specs.Event.{InSeq, Sends, Then, WritesSeq, unsigned};

use crate::texts::EMPTY_LINE;
use rows::NoMemory;
use serde::{Described, Serialize, Serializer};
use std::alloc::Global;
use std::mem;

/// Lines that stand in place of others.
#[derive(Drop)]
pub struct Change {
    /// Where: the place, from 0, of the first line that goes, counted in the lines of the moment
    /// before.
    pub at: usize,
    /// How many lines go.
    pub gone: usize,
    /// The lines that come in their place: their places among all lines.
    pub come: Vec<usize>,
}

impl Described for Change {
    ghost writes = { λ c. InSeq 3 (Then (Sends (unsigned c.at)) (Then (Sends (unsigned c.gone))
        (WritesSeq (λ place. Sends (unsigned place)) c.come.items))) };
}

/// As an array: where, how many lines go, and the places of those that come.
impl Serialize for Change {
    fn serialize<S: Serializer>(&self, out: &mut S) -> Result<(), S::Error> {
        (self.at, self.gone, &self.come).serialize(out)
    }
}

// How far lines are looked for one by one.
const NEAR: usize = 16;

/// The changes, in rising order, that make these lines of those old ones, all of them by their
/// places among all lines. `stood` says where among the old ones each line may stand.
pub(crate) fn changes_between(
    alloc: Global,
    old: &[usize],
    new: &[usize],
    stood: &[usize],
) -> Result<Vec<Change>, NoMemory> {
    let mut walk = Walk::new(alloc);
    for line in new {
        walk.step(alloc, old, *line, stood)?;
    }
    walk.pass_to(alloc, old.len())?;
    Ok(walk.changes)
}

// The changes so far: so many of the old lines were passed, and behind them come these.
#[derive(Drop)]
struct Walk {
    changes: Vec<Change>,
    passed: usize,
    come: Vec<usize>,
}

impl Walk {
    fn new(alloc: Global) -> Walk {
        Walk {
            changes: Vec::new(alloc),
            passed: 0,
            come: Vec::new(alloc),
        }
    }

    // One new line more.
    fn step(
        &mut self,
        alloc: Global,
        old: &[usize],
        line: usize,
        stood: &[usize],
    ) -> Result<(), NoMemory> {
        match kept_at(old, self.passed, line, stood) {
            Some(at) => self.keep(alloc, at),
            None => {
                self.come.push(line)?;
                Ok(())
            }
        }
    }

    // The old line at a place stays.
    fn keep(&mut self, alloc: Global, at: usize) -> Result<(), NoMemory> {
        self.pass_to(alloc, at)?;
        self.passed = at.saturating_add(1);
        Ok(())
    }

    // The old lines up to a place go, and those that came stand in their place.
    fn pass_to(&mut self, alloc: Global, at: usize) -> Result<(), NoMemory> {
        if self.passed == at && self.come.is_empty() {
            return Ok(());
        }
        let come = mem::replace(&mut self.come, Vec::new(alloc));
        self.changes.push(Change {
            at: self.passed,
            gone: at.saturating_sub(self.passed),
            come,
        })?;
        self.passed = at;
        Ok(())
    }
}

// Where a line stands among the old ones from a place on, if it is to stay there. An empty line,
// which stands before each table, stays right there or nowhere.
fn kept_at(old: &[usize], from: usize, line: usize, stood: &[usize]) -> Option<usize>
    ensures { IfSome result (λ at. (from ≤ at) × (slice_get old.now at ≡ Some line)) }
{
    if is_at(old, from, line) {
        return Some(from);
    }
    if line == EMPTY_LINE {
        return None;
    }
    match near(old, from, line) {
        Some(at) => Some(at),
        None => far(old, from, line, stood),
    }
}

fn is_at(old: &[usize], at: usize, line: usize) -> bool
    ensures { IsTrue result → slice_get old.now at ≡ Some line }
{
    match old.get(at) {
        Some(one) => *one == line,
        None => false,
    }
}

// Where a line stands within the next few.
fn near(old: &[usize], from: usize, line: usize) -> Option<usize>
    ensures { IfSome result (λ at. (from ≤ at) × (slice_get old.now at ≡ Some line)) }
{
    for at in from..from.saturating_add(NEAR) {
        if is_at(old, at, line) {
            return Some(at);
        }
    }
    None
}

// Where a line stands, if that is where it is said to stand.
fn far(old: &[usize], from: usize, line: usize, stood: &[usize]) -> Option<usize>
    ensures { IfSome result (λ at. (from ≤ at) × (slice_get old.now at ≡ Some line)) }
{
    let at = *stood.get(line)?;
    if from <= at && is_at(old, at, line) {
        return Some(at);
    }
    None
}
