//! Entries that a leader sends. (Raft, Figure 2, AppendEntries, receiver; section 5.3.)

ghost use Rattle.std.specs.Prelude.{◌≡◌, ◌≢◌, ◌+◌, ◌^◌, ◌<◌, ◌≤◌, ◌||◌, nat_le, true, false, List, length, OnOk, OnErr};
ghost use Rattle.machine_model.specs.declared.entry.Entry.{Entry};
ghost use Rattle.raft_model.specs.Logs.{has};
ghost use Rattle.raft_model.specs.Rafts.{is_up, is_leader, term_observed, following, follows_append};
ghost use Rattle.raft_model.specs.Steps.{receives};
ghost use Rattle.raft_model.specs.Messages.{Append as AppendBody};
ghost use Rattle.raft_core.specs.Inner.Views.{with_server};
ghost use Rattle.raft_core.specs.Inner.Turns.{TurnTaken, OutOfMemoryTurn};
ghost use Rattle.raft_core.specs.RaftView.{KeepsProjected};

use super::Raft;
use crate::release::forget;
use crate::role::Role;
use crate::sending::answer;
use machine::{Coded, Entry, Machine};
use raft_snapshot::append_entries;
use rows::{Index, NoMemory, ServerId, Term};
use wire::{Append, AppendHead, AppendReply, Frames};

impl<M: Machine> Raft<M> {
    /// It follows the sender of an Append or of a snapshot, in the sender's term.
    pub(super) fn follow(&mut self, from: ServerId, term: Term)
        requires { is_up self.old.server.mode ≡ true }
        ensures { self.new ≡ with_server self.old (following
            (term_observed term self.old.server) from) }
    {
        self.observe_term(term);
        self.known = Some(from);
        self.role = Role::Follower;
        forget(&mut self.projected);
    }

    /// The entry before those that came is not held: the reply says where to try again.
    fn refuse_append(
        &mut self,
        from: ServerId,
        head: &AppendHead,
        outbox: &mut Frames,
    ) -> Result<(), NoMemory>
        requires up { is_up self.old.server.mode ≡ true }
        requires other { from ≢ self.old.me }
        requires later { self.old.server.term ≤ head.now.term }
        requires missing { (nat_le head.now.prev_index self.old.server.commit || has
            self.old.server.log head.now.prev_index head.now.prev_term) ≡ false }
        ensures taken { OnOk result ((entries : List (Entry M.Command)) →
            TurnTaken M.spec self.old.base self.old self.new outbox.old outbox.new
            (follows_append self.old.me (following
            (term_observed head.now.term self.old.server) from) from
            head.now.prev_index head.now.prev_term head.now.commit entries)) }
        ensures kept { OnOk result (KeepsProjected self.old self.new) }
        ensures lost { OnErr result (OutOfMemoryTurn self.old self.new outbox.old outbox.new) }
    {
        let last = self.log.last().get();
        let at = (head.prev_index.get() - 1).min(last);
        let Some(at) = Index::new(at) else {
            unreachable!()
        };
        let reply = AppendReply {
            term: head.term,
            asked: head.term,
            ok: false,
            at,
        };
        answer::<M>(outbox, self.me, from, &reply)?;
        self.follow(from, head.term);
        Ok(())
    }

    /// The entry before those that came is held: the log takes them up, and what the leader
    /// committed of them is applied.
    #[inline(always)]
    fn accept_append(
        &mut self,
        from: ServerId,
        head: &AppendHead,
        entries: Vec<Entry<Coded<M>>>,
        outbox: &mut Frames,
    ) -> Result<(), NoMemory>
        requires up { is_up self.old.server.mode ≡ true }
        requires other { from ≢ self.old.me }
        requires later { self.old.server.term ≤ head.now.term }
        requires held { (nat_le head.now.prev_index self.old.server.commit || has
            self.old.server.log head.now.prev_index head.now.prev_term) ≡ true }
        requires places { head.now.prev_index + length entries.items < 2 ^ 40 }
        ensures taken { OnOk result
            (TurnTaken M.spec self.old.base self.old self.new outbox.old outbox.new
            (follows_append self.old.me (following
            (term_observed head.now.term self.old.server) from) from
            head.now.prev_index head.now.prev_term head.now.commit entries.items)) }
        ensures kept { OnOk result (KeepsProjected self.old self.new) }
        ensures lost { OnErr result (OutOfMemoryTurn self.old self.new outbox.old outbox.new) }
    {
        forget(&mut self.projected);
        let Some(reached) = Index::new(head.prev_index.get() + entries.len() as u64) else {
            unreachable!()
        };
        let reply = AppendReply {
            term: head.term,
            asked: head.term,
            ok: true,
            at: reached,
        };
        answer::<M>(outbox, self.me, from, &reply)?;
        let commit = self.commit.get();
        let Some(risen) = Index::new(commit.max(head.commit.get().min(reached.get()))) else {
            unreachable!()
        };
        let Some(machine) = &mut self.machine else {
            unreachable!()
        };
        // The one change of the log comes last, and is whole or not at all.
        let prev = head.prev_index.get();
        match append_entries(&mut self.log, machine, commit, risen.get(), prev, entries) {
            Ok(()) => {
                self.commit = risen;
                // A candidate needs room for one more entry, which there may not be any more.
                self.role = Role::Follower;
                self.follow(from, head.term);
                Ok(())
            }
            Err(lacking) => {
                // The machine may have been brought on in part: the server is down.
                forget(&mut self.machine);
                Err(lacking)
            }
        }
    }

    /// Entries come, or none: a leader is heard of.
    #[inline(always)]
    pub(super) fn handle_append(
        &mut self,
        from: ServerId,
        message: Append<M>,
        outbox: &mut Frames,
    ) -> Result<(), NoMemory>
        requires up { is_up self.old.server.mode ≡ true }
        requires other { from ≢ self.old.me }
        ensures taken { OnOk result
            (TurnTaken M.spec self.old.base self.old self.new outbox.old outbox.new
            (receives M.spec.noop self.old.size self.old.me
            (term_observed message.head.term self.old.server) from message.head.term
            (AppendBody message.head.prev_index message.head.prev_term message.head.commit
            message.entries))) }
        ensures kept { OnOk result (KeepsProjected self.old self.new) }
        ensures lost { OnErr result (OutOfMemoryTurn self.old self.new outbox.old outbox.new) }
    {
        let (head, entries) = message.into_parts();
        let (term, its_term) = (self.term.get(), head.term.get());
        if its_term < term {
            let reply = AppendReply {
                term: self.term,
                asked: head.term,
                ok: false,
                at: Index::ZERO,
            };
            return answer::<M>(outbox, self.me, from, &reply);
        }
        if its_term == term && self.is_leader() {
            return Ok(());
        }
        let prev = head.prev_index.get();
        if self.log.stays(self.commit.get(), prev, head.prev_term) {
            self.accept_append(from, &head, entries, outbox)
        } else {
            self.refuse_append(from, &head, outbox)
        }
    }
}
