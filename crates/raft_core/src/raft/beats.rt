//! What a leader sends at a beat. (Raft, extended version 2014, section 5.3, and Figure 2,
//! leaders.)

ghost use Rattle.std.specs.Prelude.{◌≡◌, ◌≢◌, ◌-◌, ◌^◌, ◌<◌, ◌≤◌, ◌∷◌, [], true, ℕ, List, length, slice_index, take, drop, OnOk, OnErr};
ghost use Rattle.machine_model.specs.declared.entry.Entry.{Entry as LogEntry};
ghost use Rattle.raft_model.specs.Logs.{term_at};
ghost use Rattle.raft_model.specs.Messages.{to_others, Append as AppendBody, Install as InstallBody};
ghost use Rattle.raft_model.specs.Quorums.{index_at};
ghost use Rattle.raft_model.specs.Rafts.{is_up, is_leader};
ghost use Rattle.raft_snapshot.specs.Bases.{IsBaseOf};
ghost use Rattle.raft_core.specs.Inner.Beats.{sent_from};
ghost use Rattle.raft_core.specs.Inner.Moves.{Beats};
ghost use Rattle.raft_core.specs.Frames.{Sends};
ghost use Rattle.raft_core.specs.Inner.Turns.{OutOfMemoryTurn, KeepsFront};

use super::Raft;
use super::votes::server_at;
use crate::log::term_at;
use crate::role::Role;
use machine::{Coded, Entry, Machine};
use raft_snapshot::Log;
use rows::{Index, NoMemory, ServerId, Term};
use wire::{AppendHead, Frames, InstallHead};

/// The entries behind an index, at most 32: no Append has more.
fn entries_behind<M: Machine>(log: &Log<M>, index: u64) -> &[Entry<Coded<M>>]
    requires { log.now.base.index ≤ index }
    ensures { result.now ≡ take 32 (drop index log.now.entries) }
{
    let all = log.behind(index);
    &all[..all.len().min(32)]
}

/// Sends another server the entries of the log from index `next` on, at most 32.
#[tactic(auto, using(crate::proofs::Sends::another))]
fn send_entries<M: Machine>(
    outbox: &mut Frames,
    me: ServerId,
    to: ServerId,
    term: Term,
    commit: Index,
    log: &Log<M>,
    next: u64,
) -> Result<(), NoMemory>
    requires other { me ≢ to }
    requires behind { log.now.base.index < next }
    requires most { next ≤ 2 ^ 40 }
    ensures ok { OnOk result (Sends M.spec outbox.old outbox.new (record {
      from = me;
      to = to;
      term = term;
      body =
          AppendBody (next - 1) (term_at log.now.entries (next - 1)) commit (take 32 (drop (next - 1) log.now.entries));
    } ∷ [])) }
    ensures err { OnErr result (outbox.new ≡ outbox.old) }
{
    let Some(prev_index) = Index::new(next - 1) else {
        unreachable!()
    };
    let head = AppendHead {
        term,
        prev_index,
        prev_term: term_at(log, prev_index.get()),
        commit,
    };
    // The last index is below 2^40, and so is that of the last entry that is sent.
    let _last = log.last().get();
    outbox.send_append(me, to, &head, entries_behind(log, prev_index.get()))
}

/// Sends another server what the log covers, of which there is some.
#[tactic(auto, using(crate::proofs::Sends::another))]
fn send_snapshot<M: Machine>(
    outbox: &mut Frames,
    me: ServerId,
    to: ServerId,
    term: Term,
    log: &Log<M>,
) -> Result<(), NoMemory>
    requires other { me ≢ to }
    requires some { 1 ≤ log.now.base.index }
    ensures ok { OnOk result ((covered : List (LogEntry M.Command)) →
        IsBaseOf M.spec log.now.base covered → Sends M.spec outbox.old outbox.new
        (record { from = me; to = to; term = term; body = InstallBody covered } ∷ [])) }
    ensures front { KeepsFront outbox.old outbox.new }
    ensures err { OnErr result (outbox.new ≡ outbox.old) }
{
    let snapshot = log.snapshot();
    let head = InstallHead {
        term,
        index: snapshot.index(),
        index_term: snapshot.term(),
    };
    outbox.send_install(me, to, &head, snapshot.state())
}

/// Sends another server what it needs from index `next` on: what the log covers, where that is all
/// that is left of it, else entries.
fn send_from<M: Machine>(
    outbox: &mut Frames,
    me: ServerId,
    to: ServerId,
    term: Term,
    commit: Index,
    log: &Log<M>,
    next: u64,
) -> Result<(), NoMemory>
    requires other { me ≢ to }
    requires least { 1 ≤ next }
    requires most { next ≤ 2 ^ 40 }
    ensures ok { OnOk result ((covered : List (LogEntry M.Command)) →
        IsBaseOf M.spec log.now.base covered → Sends M.spec outbox.old outbox.new
        (sent_from me term commit covered log.now.entries next to ∷ [])) }
    ensures front { KeepsFront outbox.old outbox.new }
    ensures err { OnErr result (outbox.new ≡ outbox.old) }
{
    if next <= log.covered().get() {
        send_snapshot(outbox, me, to, term, log)
    } else {
        send_entries(outbox, me, to, term, commit, log, next)
    }
}

/// Sends all others what they need from their next indexes on, in rising number.
fn send_to_others<M: Machine>(
    outbox: &mut Frames,
    me: ServerId,
    term: Term,
    commit: Index,
    log: &Log<M>,
    next: &[u64],
) -> Result<(), NoMemory>
    requires few { length next.now ≤ 5 }
    requires least { (j : ℕ) → j < length next.now → 1 ≤ slice_index next.now j }
    requires most { (j : ℕ) → slice_index next.now j ≤ 2 ^ 40 }
    ensures ok { OnOk result ((covered : List (LogEntry M.Command)) →
        IsBaseOf M.spec log.now.base covered → Sends M.spec outbox.old outbox.new
        (to_others me (λ to. sent_from me term commit covered log.now.entries (index_at next.now to) to)
        (length next.now))) }
    ensures err { OnErr result (KeepsFront outbox.old outbox.new) }
{
    for (position, first) in next.iter().enumerate() {
        if position != me.position() {
            send_from(outbox, me, server_at(position), term, commit, log, *first)?;
        }
    }
    Ok(())
}

impl<M: Machine> Raft<M> {
    /// A leader sends to each other server; others send nothing, and take no memory.
    pub(super) fn beat(&self, outbox: &mut Frames) -> Result<(), NoMemory>
        requires { is_up self.now.server.mode ≡ true }
        ensures taken { OnOk result (Beats M.spec self.now outbox.old outbox.new) }
        ensures lost { OnErr result ((is_leader self.now.server.mode ≡ true)
            × OutOfMemoryTurn self.now self.now outbox.old outbox.new) }
    {
        self.covered_is_committed();
        match self.role {
            Role::Follower => Ok(()),
            Role::Candidate => Ok(()),
            Role::Leader => send_to_others(
                outbox,
                self.me,
                self.term,
                self.commit,
                &self.log,
                &self.next,
            ),
        }
    }
}
