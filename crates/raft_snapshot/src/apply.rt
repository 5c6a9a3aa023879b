//! Entries of a log are applied to a machine.

ghost use Rattle.std.specs.Prelude.{◌≡◌, ◌+◌, ◌^◌, ◌<◌, ◌≤◌, length, take, drop, OnOk};
ghost use Rattle.machine_model.specs.After.{after_from};
ghost use Rattle.raft_model.specs.Logs.{commands};
ghost use Rattle.raft_snapshot.specs.Bases.{state_from};
ghost use Rattle.raft_snapshot.specs.Watching.{SeesAll};

use crate::log::Log;
use crate::watch::{Unwatched, Watch};
use machine::{Coded, Entry, Machine};
use rows::{LeaderTerm, NoMemory};

/// A leader of this term applies an entry, and a watcher sees it.
fn apply_watched<M: Machine, W: Watch<M>>(
    machine: &mut M,
    term: LeaderTerm,
    entry: &Entry<Coded<M>>,
    watch: &mut W,
) -> Result<(), NoMemory>
    requires { M.spec.count machine.old + 1 < 2 ^ 40 }
    ensures state { OnOk result (machine.new
        ≡ M.spec.applied machine.old entry.now.command) }
    ensures seen { OnOk result (W.sees watch.old term entry.now machine.new watch.new) }
{
    machine.apply(entry.command.command())?;
    watch.see(term, entry, machine)
}

/// A leader of this term applies the entries, one after the other, and a watcher sees each.
fn apply_all_watched<M: Machine, W: Watch<M>>(
    machine: &mut M,
    term: LeaderTerm,
    entries: &[Entry<Coded<M>>],
    watch: &mut W,
) -> Result<(), NoMemory>
    requires { M.spec.count machine.old + length entries.now < 2 ^ 40 }
    ensures state { OnOk result (machine.new
        ≡ after_from M.spec machine.old (commands entries.now)) }
    ensures seen { OnOk result
        (SeesAll M.spec W.sees term machine.old entries.now watch.old watch.new) }
{
    for entry in entries {
        apply_watched(machine, term, entry, watch)?;
    }
    Ok(())
}

/// A leader of this term applies the entries of a log behind the first `from`, up to the first
/// `to`, and a watcher sees each with the state that it left. Without memory the machine and the
/// watcher are fit only to be dropped.
pub fn apply_range_watched<M: Machine, W: Watch<M>>(
    machine: &mut M,
    term: LeaderTerm,
    log: &Log<M>,
    from: u64,
    to: u64,
    watch: &mut W,
) -> Result<(), NoMemory>
    requires covered { log.now.base.index ≤ from }
    requires order { from ≤ to }
    requires within { to ≤ length log.now.entries }
    requires state { machine.old ≡ state_from M.spec log.now.base (take from log.now.entries) }
    ensures state { OnOk result
        (machine.new ≡ state_from M.spec log.now.base (take to log.now.entries)) }
    ensures seen { OnOk result (SeesAll M.spec W.sees term
        (state_from M.spec log.now.base (take from log.now.entries))
        (drop from (take to log.now.entries)) watch.old watch.new) }
{
    let _last = log.last();
    let _covered = log.covered();
    let entries = &log.behind(from)[..(to - from) as usize];
    apply_all_watched(machine, term, entries, watch)
}

/// The term that is named where nobody watches, and none is asked for.
fn first_term() -> LeaderTerm {
    match LeaderTerm::new(1) {
        Some(term) => term,
        None => unreachable!(),
    }
}

/// Applies the entries, one after the other.
pub(crate) fn apply_all<M: Machine>(
    machine: &mut M,
    entries: &[Entry<Coded<M>>],
) -> Result<(), NoMemory>
    requires { M.spec.count machine.old + length entries.now < 2 ^ 40 }
    ensures { OnOk result (machine.new ≡ after_from M.spec machine.old (commands entries.now)) }
{
    apply_all_watched(machine, first_term(), entries, &mut Unwatched)
}

/// Brings a machine on from the state after the first `from` entries of a log to that after the
/// first `to`. Without memory it is fit only to be dropped.
pub fn apply_range<M: Machine>(
    machine: &mut M,
    log: &Log<M>,
    from: u64,
    to: u64,
) -> Result<(), NoMemory>
    requires covered { log.now.base.index ≤ from }
    requires order { from ≤ to }
    requires within { to ≤ length log.now.entries }
    requires state { machine.old ≡ state_from M.spec log.now.base (take from log.now.entries) }
    ensures { OnOk result
        (machine.new ≡ state_from M.spec log.now.base (take to log.now.entries)) }
{
    apply_range_watched(machine, first_term(), log, from, to, &mut Unwatched)
}
