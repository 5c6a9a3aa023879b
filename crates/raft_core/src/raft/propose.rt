//! Commands that are proposed, and a leader's machine after its whole log.

ghost use Rattle.std.specs.Prelude.{◌≡◌, ◌+◌, ◌^◌, ◌<◌, true, false, List, length, None, OnOk, OnErr, IfOk, IfErr};
ghost use Rattle.raft_model.specs.Logs.{state_after};
ghost use Rattle.wire.specs.Frames.{Frame};
ghost use Rattle.raft_model.specs.Rafts.{Raft as AnyRaft, extended, is_leader};
ghost use Rattle.raft_model.specs.Steps.{Propose};
ghost use Rattle.raft_snapshot.specs.Bases.{state_from};
ghost use Rattle.raft_core.specs.RaftView.{SameNumber, SameRaft};
ghost use Rattle.raft_core.specs.Inner.Proposals.{shown_refusal, IsShownRefused};
ghost use Rattle.raft_core.specs.Inputs.{Own};
ghost use Rattle.raft_core.specs.Steps.{RefinesRaft, Takes};
ghost use Rattle.raft_core.specs.Refusals.{HidesNothing, IsRefused, IsNotProjected};
ghost use Rattle.raft_core.specs.Tickets.{IsTicket};

use super::Raft;
use crate::not_projected::NotProjected;
use crate::ticket::Ticket;
use machine::{Coded, Entry, Machine};
use raft_snapshot::{project, project_next};
use rows::{Index, Leader, NoMemory, Refusal};

impl<M: Machine> Raft<M> {
    ghost use Rattle.raft_core.specs.contracts.raft.Raft.{the_row};
    ghost use Rattle.std.specs.Borrow.{sem};
    ghost use Rattle.std.specs.Io.BufRead.{Rests};

    /// Whether it holds a leader's machine after its whole log, so that `projected` takes no
    /// memory. No unless it leads.
    pub fn has_projected(&self) -> bool
        ensures value { result ≡ self.now.projected }
        ensures leads { (s : AnyRaft M.Command) → RefinesRaft M.spec self.now s → result ≡ true →
            is_leader s.mode ≡ true }
    {
        self.projected.is_some()
    }

    /// A leader's machine after its whole log is made where it holds none. A machine is large: so
    /// this stands apart from what each proposal goes through.
    #[inline(never)]
    fn make_projected(&mut self) -> Result<(), NoMemory>
        requires { is_leader self.old.server.mode ≡ true }
        ensures same { SameRaft self.old self.new }
        ensures has { OnOk result (self.new.projected ≡ true) }
        ensures lacked { OnErr result (self.old.projected ≡ false) }
    {
        if self.projected.is_some() {
            return Ok(());
        }
        let Some(machine) = &self.machine else {
            unreachable!()
        };
        let projected = project(machine, self.commit.get(), &self.log)?;
        self.projected = Some(projected);
        Ok(())
    }

    /// The machine after the whole log, of one that holds it.
    fn projected_machine(&self) -> &M
        requires { self.now.projected ≡ true }
        ensures { result.now ≡ state_from M.spec self.now.base self.now.server.log }
    {
        match &self.projected {
            Some(projected) => projected,
            None => unreachable!(),
        }
    }

    /// Whether a proposal is taken, or why not.
    fn weigh(&mut self, command: &M::Command) -> Result<(), Refusal>
        ensures same { SameRaft self.old self.new }
        ensures kept { self.old.projected ≡ true → self.new.projected ≡ true }
        ensures leads { OnOk result (is_leader self.old.server.mode ≡ true) }
        ensures index_left { OnOk result (length self.old.server.log + 1 < 2 ^ 40) }
        ensures taken { OnOk result (shown_refusal M.spec self.old command.now ≡ None) }
        ensures refused { IfErr result (λ cause.
            IsShownRefused M.spec self.old command.now cause) }
    {
        if !self.is_up() {
            return Err(Refusal::Down);
        }
        if !self.is_leader() {
            return Err(Refusal::NotLeader(Leader::new(self.known)));
        }
        if self.log.last().get() + 1 >= Index::LIMIT {
            return Err(Refusal::Exhausted);
        }
        self.make_projected()?;
        match self.projected_machine().admits(command)? {
            None => Ok(()),
            Some(refusal) => Err(refusal),
        }
    }

    /// A leader appends a command that its machine admits after its whole log, committed or not, and
    /// answers where it stands. Whether it stays there is for later: `proposal_status` tells, of
    /// this server or another.
    ///
    /// One that is down refuses with `Down`, one that does not lead with `NotLeader` and the leader
    /// that it knows, one whose last index is 2^40 - 1 with `Exhausted`; else the machine may
    /// refuse the command. Any refusal leaves the server as it was, also one with `NoMemory`.
    ///
    /// The machine after the whole log is made where there is none, and kept. A refusal never drops
    /// it; a command that it finds no memory to apply is appended, and it is dropped.
    ///
    /// Nothing is committed by it: a leader alone is no quorum of 3 or 5. So a watcher has nothing
    /// to see.
    pub fn propose(&mut self, command: M::Command) -> Result<Ticket, Refusal>
        ensures same { SameNumber self.old self.new }
        // Whatever was sent before, nothing is sent.
        ensures taken { OnOk result ((s : AnyRaft M.Command) (sent : List Frame) →
            RefinesRaft M.spec self.old s →
            Takes M.spec self.old s (Own (Propose command)) self.new sent sent) }
        ensures leads { OnOk result (is_leader self.new.server.mode ≡ true) }
        ensures shown { OnOk result ((self.new.base ≡ self.old.base)
            × (self.new.server ≡ extended self.old.server command)) }
        // It is the last entry of the log, in the leader's own term.
        ensures ticket { IfOk result (λ t. (s : AnyRaft M.Command) →
            RefinesRaft M.spec self.new s → IsTicket s command t.index t.term) }
        ensures refused { IfErr result (λ cause. (s : AnyRaft M.Command) →
            RefinesRaft M.spec self.old s →
            IsRefused M.spec self.old.size self.old.me s (Own (Propose command)) cause) }
        ensures unhidden { IfErr result (λ cause. (s : AnyRaft M.Command) →
            RefinesRaft M.spec self.old s →
            HidesNothing M.spec self.old.size self.old.me s (Own (Propose command)) cause) }
        ensures unchanged { OnErr result (SameRaft self.old self.new) }
        ensures kept { OnErr result (self.old.projected ≡ true → self.new.projected ≡ true) }
    {
        self.covered_is_committed();
        self.weigh(&command)?;
        let term = self.term;
        self.log.append(Entry {
            term: self.term,
            command: Coded::new(command),
        })?;
        project_next(&mut self.projected, &self.log);
        Ok(Ticket {
            index: self.log.last(),
            term,
        })
    }

    /// A leader's machine after its whole log, committed or not. It is made where it holds none,
    /// and kept while it leads.
    ///
    /// There is none, with `Down`, of one that is down, with `NotLeader` of one that does not lead
    /// (`known_leader` says who may be asked), and with `NoMemory`, which comes only where it held
    /// none. The server stays as it was on every answer, want of memory among them.
    pub fn projected(&mut self) -> Result<&M, NotProjected>
        ensures value { IfOk result (λ r. (s : AnyRaft M.Command) →
            RefinesRaft M.spec self.old s →
            (is_leader s.mode ≡ true) × (r.now ≡ state_after M.spec s.log)) }
        ensures refused { IfErr result (λ why. (s : AnyRaft M.Command) →
            RefinesRaft M.spec self.old s → IsNotProjected s why) }
        ensures held { OnErr result (self.old.projected ≡ false) }
        ensures* same { sem 𝓛 (Rests (the_row M.row M.Command.row M.Machine) self.entry (λ n.
            SameRaft self.old n × OnOk result (n.projected ≡ true))) }
    {
        if self.machine.is_none() {
            return Err(NotProjected::Down);
        }
        if !self.role.leads() {
            return Err(NotProjected::NotLeader);
        }
        self.make_projected()?;
        Ok(self.projected_machine())
    }
}
