//! A leader's entries are taken over into a log.

ghost use Rattle.std.specs.Prelude.{◌≡◌, ◌+◌, ◌^◌, ◌<◌, ◌≤◌, ◌++◌, length, take, drop, max, OnOk, OnErr, IfOk, MatchOption};
ghost use Rattle.raft_model.specs.Logs.{merge};
ghost use Rattle.raft_snapshot.specs.Bases.{state_from};

use crate::apply::{apply_all, apply_range};
use crate::log::Log;
use machine::{Coded, Entry, Machine};
use rows::NoMemory;

/// How many of the entries that follow `prev` are passed over before the first that differs or is
/// missing; none where all are there.
fn first_new<M: Machine>(
    log: &Log<M>,
    commit: u64,
    prev: u64,
    entries: &[Entry<Coded<M>>],
) -> Option<usize>
    requires index { prev + length entries.now < 2 ^ 40 }
    requires covered { log.now.base.index ≤ commit }
    requires committed { commit ≤ length log.now.entries }
    requires start { prev ≤ length log.now.entries }
    ensures { MatchOption result
        ((merge commit prev log.now.entries entries.now ≡ log.now.entries)
        × (prev + length entries.now ≤ length log.now.entries))
        (λ k. (merge commit prev log.now.entries entries.now
        ≡ take (prev + k) log.now.entries ++ drop k entries.now)
        × (k < length entries.now) × (commit ≤ prev + k)
        × (prev + k ≤ length log.now.entries)) }
{
    for (i, entry) in entries.iter().enumerate() {
        if !log.stays(commit, prev + i as u64 + 1, entry.term) {
            return Some(i);
        }
    }
    None
}

/// Cuts the log and puts a tail behind what stays, the machine brought on first. Want of memory
/// leaves the log as it was.
fn splice<M: Machine>(
    log: &mut Log<M>,
    machine: &mut M,
    commit: u64,
    risen: u64,
    keep: u64,
    tail: Vec<Entry<Coded<M>>>,
) -> Result<(), NoMemory>
    requires covered { log.old.base.index ≤ commit }
    requires committed { commit ≤ keep }
    requires rises { commit ≤ risen }
    requires cut { keep ≤ length log.old.entries }
    requires reach { risen ≤ keep + length tail.items }
    requires short { keep + length tail.items < 2 ^ 40 }
    requires state { machine.old
        ≡ state_from M.spec log.old.base (take commit log.old.entries) }
    ensures base { log.new.base ≡ log.old.base }
    ensures ok { OnOk result (log.new.entries ≡ take keep log.old.entries ++ tail.items) }
    ensures state { OnOk result (machine.new ≡ state_from M.spec log.old.base
        (take risen (take keep log.old.entries ++ tail.items))) }
    ensures err { OnErr result (log.new ≡ log.old) }
{
    if risen <= keep {
        apply_range(machine, log, commit, risen)?;
    } else {
        let _covered = log.covered();
        apply_range(machine, log, commit, keep)?;
        apply_all(machine, &tail[..(risen - keep) as usize])?;
    }
    log.replace_behind(keep, tail)
}

/// The last entries, from the one at place `k` on.
fn rest_of<T: Drop>(mut entries: Vec<T>, k: usize) -> Result<Vec<T>, NoMemory>
    requires { k ≤ length entries.items }
    ensures { IfOk result (λ rest. rest.items ≡ drop k entries.items) }
{
    if k == 0 {
        return Ok(entries);
    }
    Ok(entries.split_off(k)?)
}

/// Makes the log what a leader's entries make it, the machine brought on first to `risen` of its
/// entries. Want of memory leaves the log as it was, and the machine fit only to be dropped. (Raft,
/// Figure 2, AppendEntries, receiver 3 to 5.)
pub fn append_entries<M: Machine>(
    log: &mut Log<M>,
    machine: &mut M,
    commit: u64,
    risen: u64,
    prev: u64,
    entries: Vec<Entry<Coded<M>>>,
) -> Result<(), NoMemory>
    requires index { prev + length entries.items < 2 ^ 40 }
    requires start { prev ≤ length log.old.entries }
    requires covered { log.old.base.index ≤ commit }
    requires committed { commit ≤ length log.old.entries }
    requires rises { commit ≤ risen }
    requires reach { risen ≤ max commit (prev + length entries.items) }
    requires state { machine.old
        ≡ state_from M.spec log.old.base (take commit log.old.entries) }
    ensures base { log.new.base ≡ log.old.base }
    ensures ok { OnOk result
        (log.new.entries ≡ merge commit prev log.old.entries entries.items) }
    ensures state { OnOk result
        (machine.new ≡ state_from M.spec log.old.base (take risen log.new.entries)) }
    ensures within { OnOk result (risen ≤ length log.new.entries) }
    ensures err { OnErr result (log.new ≡ log.old) }
{
    match first_new(log, commit, prev, &entries) {
        None => apply_range(machine, log, commit, risen),
        Some(k) => {
            let tail = rest_of(entries, k)?;
            splice(log, machine, commit, risen, prev + k as u64, tail)
        }
    }
}
