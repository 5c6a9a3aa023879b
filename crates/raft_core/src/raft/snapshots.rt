//! Snapshots: a log's applied entries are covered, and what a leader covers takes the place of a
//! log that lacks it. (Raft, extended version 2014, section 7, and Figure 13.)

ghost use Rattle.std.specs.Prelude.{◌≡◌, ◌≢◌, ◌<◌, ◌≤◌, true, false, OnOk, OnErr};
ghost use Rattle.raft_model.specs.Rafts.{is_up, is_leader, term_observed, following, installed};
ghost use Rattle.raft_model.specs.Steps.{receives};
ghost use Rattle.raft_model.specs.Messages.{Install as InstallBody};
ghost use Rattle.raft_snapshot.specs.Bases.{noop_prefix};
ghost use Rattle.raft_snapshot.specs.Compacted.{base_after};
ghost use Rattle.raft_core.specs.Frames.{base_of};
ghost use Rattle.raft_core.specs.Inner.Moves.{Compacts};
ghost use Rattle.raft_core.specs.Inner.Turns.{TurnTaken, OutOfMemoryTurn};
ghost use Rattle.raft_core.specs.RaftView.{SameNumber, KeepsProjected};

use super::Raft;
use crate::release::forget;
use crate::role::Role;
use crate::sending::send;
use machine::Machine;
use raft_snapshot::Snapshot;
use rows::{Index, NoMemory, ServerId};
use wire::{Body, Frames, Install, InstallHead, InstallReply};

impl<M: Machine> Raft<M> {
    /// A snapshot above the commit index takes the place of the log up to its index, and is
    /// applied; what follows it in the log stays where the log holds its last entry.
    fn restore_snapshot(
        &mut self,
        from: ServerId,
        head: &InstallHead,
        state: M,
    ) -> Result<(), NoMemory>
        requires up { is_up self.old.server.mode ≡ true }
        requires later { self.old.server.term ≤ head.now.term }
        requires counted { M.spec.count state ≡ head.now.index }
        requires above { self.old.server.commit < head.now.index }
        ensures same { SameNumber self.old self.new }
        ensures base { OnOk result (self.new.base
            ≡ record { index = head.now.index; term = head.now.index_term; state = state }) }
        ensures server { OnOk result (self.new.server
            ≡ installed (following (term_observed head.now.term self.old.server) from)
            (noop_prefix M.spec head.now.index head.now.index_term)) }
        ensures lost { OnErr result (self.new ≡ self.old) }
    {
        let machine = state.fork()?;
        let Some(snapshot) = Snapshot::new(head.index, head.index_term, state) else {
            unreachable!()
        };
        forget(&mut self.projected);
        // A candidate needs room for one more entry, which there may not be any more.
        self.role = Role::Follower;
        self.log.install(snapshot);
        self.machine = Some(machine);
        self.commit = self.log.covered();
        self.follow(from, head.term);
        Ok(())
    }

    /// A snapshot of a leader of its own term or a greater one: the sender is followed, and what is
    /// above the commit index is taken over.
    fn follow_install(
        &mut self,
        from: ServerId,
        head: &InstallHead,
        state: M,
        outbox: &mut Frames,
    ) -> Result<(), NoMemory>
        requires up { is_up self.old.server.mode ≡ true }
        requires other { from ≢ self.old.me }
        requires later { self.old.server.term ≤ head.now.term }
        requires follows { self.old.server.term ≡ head.now.term →
            is_leader self.old.server.mode ≡ false }
        requires counted { M.spec.count state ≡ head.now.index }
        ensures taken { OnOk result (TurnTaken M.spec
            (base_after self.old.base self.old.server head.now.term
            (record { index = head.now.index; term = head.now.index_term; state = state }))
            self.old self.new outbox.old outbox.new
            (receives M.spec.noop self.old.size self.old.me
            (term_observed head.now.term self.old.server) from head.now.term
            (InstallBody (noop_prefix M.spec head.now.index head.now.index_term)))) }
        ensures led { OnOk result (is_leader self.new.server.mode ≡ false) }
        ensures lost { OnErr result (OutOfMemoryTurn self.old self.new outbox.old outbox.new) }
    {
        let reply = InstallReply {
            term: head.term,
            asked: head.term,
            at: head.index,
        };
        send::<M>(outbox, self.me, from, Body::InstallReply(reply))?;
        if head.index.get() <= self.commit.get() {
            self.follow(from, head.term);
            return Ok(());
        }
        self.restore_snapshot(from, head, state)
    }

    /// A snapshot comes. It is large: so this stands apart from what other messages go through.
    #[inline(never)]
    pub(super) fn handle_install(
        &mut self,
        from: ServerId,
        message: Box<Install<M>>,
        outbox: &mut Frames,
    ) -> Result<(), NoMemory>
        requires up { is_up self.old.server.mode ≡ true }
        requires other { from ≢ self.old.me }
        ensures taken { OnOk result (TurnTaken M.spec
            (base_after self.old.base self.old.server message.value.head.term (base_of message.value))
            self.old self.new outbox.old outbox.new
            (receives M.spec.noop self.old.size self.old.me
            (term_observed message.value.head.term self.old.server) from message.value.head.term
            (InstallBody (noop_prefix M.spec message.value.head.index message.value.head.index_term)))) }
        ensures led { OnOk result (is_leader self.new.server.mode ≡ true → self.new ≡ self.old) }
        ensures lost { OnErr result (OutOfMemoryTurn self.old self.new outbox.old outbox.new) }
    {
        let (head, state) = Box::into_inner(message).into_parts();
        let (term, its_term) = (self.term.get(), head.term.get());
        if its_term < term {
            let reply = InstallReply {
                term: self.term,
                asked: head.term,
                at: Index::ZERO,
            };
            return send::<M>(outbox, self.me, from, Body::InstallReply(reply));
        }
        if its_term == term && self.is_leader() {
            return Ok(());
        }
        self.follow_install(from, &head, state, outbox)
    }

    /// All that is applied is covered from now on, by the state that is applied. Where nothing is
    /// newly applied it changes nothing.
    pub(super) fn compact(&mut self) -> Result<(), NoMemory>
        requires { is_up self.old.server.mode ≡ true }
        ensures same { SameNumber self.old self.new }
        ensures taken { OnOk result (Compacts M.spec self.old self.new) }
        ensures kept { OnOk result (KeepsProjected self.old self.new) }
        ensures lost { OnErr result (self.new ≡ self.old) }
    {
        self.covered_is_committed();
        if self.commit.get() == self.log.covered().get() {
            return Ok(());
        }
        let Some(machine) = &self.machine else {
            unreachable!()
        };
        let state = machine.fork()?;
        self.log.compact(self.commit, state);
        Ok(())
    }
}
