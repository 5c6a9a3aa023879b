mod appends;
mod beats;
mod frames;
mod propose;
mod replies;
mod snapshots;
mod storing;
mod votes;

ghost use Rattle.std.specs.Prelude.{◌≡◌, ◌≤◌, true, false, is_some, None, length, take, replicate, OnOk, OnErr, IfOk, IfErr, IfSome, MatchBool, MatchOption};
ghost use Rattle.raft_model.specs.Logs.{last_term, state_after};
ghost use Rattle.raft_model.specs.Rafts.{Raft as AnyRaft, is_up, is_leader, term_observed, crashed, restarted};
ghost use Rattle.raft_core.specs.Inputs.{handed};
ghost use Rattle.raft_core.specs.Steps.{RefinesRaft, Stores, Takes, role_of, IsGroupMember};
ghost use Rattle.raft_core.specs.Refusals.{refusal, HidesNothing, IsRefused, RefusalLeaves, RefusalShows, Stays, WhyNot};
ghost use Rattle.raft_core.specs.Inner.Stops.{EndsRefused};
ghost use Rattle.raft_core.specs.Inner.Views.{with_server};
ghost use Rattle.raft_core.specs.Inner.Moves.{MovesBy, IsReadIn};
ghost use Rattle.raft_core.specs.StoredParts.{stored_part, MayKeepLog};
ghost use Rattle.raft_core.specs.Tickets.{HasTermAt, HasNoTermAt, proposal_status_of};
ghost use Rattle.raft_core.specs.RaftView.{SameNumber, IsCrashOf, KeepsProjected};
ghost use Rattle.raft_snapshot.specs.Compacted.{IsCompacted, compacted_state};
ghost use Rattle.raft_snapshot.specs.Watching.{SeesStep, ShowsStep};

use crate::input::Input;
use crate::release::forget;
use crate::role::Role;
use crate::ticket::{ProposalStatus, Ticket};
use machine::Machine;
use raft_snapshot::{Log, Stable, Unwatched, Watch};
use rows::{Index, LeaderTerm, NoMemory, Refusal, ServerId, Term, is_group_size};
use std::alloc::Global;
use std::marker::Model;
use wire::Frames;

/// One server of a group of 3 or 5. Term, vote and log, with the snapshot of what that covers, are
/// stored; the rest is lost in a crash. It is down while it has no machine.
#[derive(Drop)]
pub struct Raft<M: Machine> {
    alloc: Global,
    me: ServerId,
    size: usize,
    term: Term,
    vote: Option<ServerId>,
    log: Log<M>,
    machine: Option<M>,
    role: Role,
    commit: Index,
    known: Option<ServerId>,
    votes: Vec<bool>,
    next: Vec<u64>,
    matched: Vec<u64>,
    /// A leader's machine after its whole log, committed or not, once a call has asked for it. What
    /// the leader appends is applied to it; without memory for that it is dropped, and the next
    /// call that needs one makes it again.
    projected: Option<M>,
}

impl<M: Machine> Model for Raft<M> {
    ghost use Rattle.raft_core.specs.RaftView.{RaftView, with_projected, while_up, mode_of, RaftInvariant};

    ghost Value = { RaftView M M.Command };

    ghost view = { λ a. with_projected a.me a.size a.log.base a.projected (while_up a.machine (record { term = a.term; vote = a.vote; log = a.log.entries; covered = a.log.base.index; commit = a.commit; known = a.known; mode = mode_of a.role a.votes.items a.next.items a.matched.items })) };

    ghost invariant = { λ a. RaftInvariant M.spec a.me a.size a.term a.log.base a.log.entries a.role a.commit a.votes.items a.next.items a.matched.items a.machine a.projected };
}

/// A stored part that could not be started, and why: the number is past the group's size, or that
/// is not 3 or 5 (`OutOfRange`), or memory was wanting (`NoMemory`).
#[derive(Drop)]
pub struct NotRestarted<M: Machine> {
    /// Why it was refused.
    pub refusal: Refusal,
    /// What was handed in.
    pub stable: Stable<M>,
}

/// The lists by server number: votes, next indexes and match indexes.
#[derive(Drop)]
struct Levels {
    votes: Vec<bool>,
    next: Vec<u64>,
    matched: Vec<u64>,
}

fn no_levels(alloc: Global, size: usize) -> Result<Levels, NoMemory>
    ensures votes { IfOk result (λ l. l.votes.items ≡ replicate size false) }
    ensures next { IfOk result (λ l. l.next.items ≡ replicate size 1) }
    ensures matched { IfOk result (λ l. l.matched.items ≡ replicate size 0) }
{
    Ok(Levels {
        votes: vec![in alloc; false; size]?,
        next: vec![in alloc; 1; size]?,
        matched: vec![in alloc; 0; size]?,
    })
}

fn is_member(size: usize, me: ServerId) -> bool
    ensures { MatchBool result (IsGroupMember size me) (IsGroupMember size me → ⊥) }
{
    is_group_size(size) && me.position() < size
}

impl<M: Machine> Raft<M> {
    /// The server of this number in a group of `size` that starts with what it stored: a follower
    /// that knows no leader, and has applied what its snapshot covers.
    ///
    /// It is refused with `OutOfRange` where `size` is not 3 or 5 or the number is past it, and
    /// with `NoMemory`; the stored part is handed back then.
    pub fn restart(
        alloc: Global,
        me: ServerId,
        size: usize,
        stable: Stable<M>,
    ) -> Result<Raft<M>, NotRestarted<M>>
        ensures member { OnOk result (IsGroupMember size me) }
        ensures number { IfOk result (λ r. (r.me ≡ me) × (r.size ≡ size)) }
        ensures shown { IfOk result (λ r. stored_part r ≡ stable) }
        ensures server { IfOk result (λ r. (s : AnyRaft M.Command) → Stores M.spec stable s →
            RefinesRaft M.spec r (restarted s)) }
        ensures refused { IfErr result (λ e. (e.stable ≡ stable) × WhyNot size me e.refusal) }
    {
        if !is_member(size, me) {
            return Err(NotRestarted {
                refusal: Refusal::OutOfRange,
                stable,
            });
        }
        let Ok(levels) = no_levels(alloc, size) else {
            return Err(NotRestarted {
                refusal: Refusal::NoMemory,
                stable,
            });
        };
        let Levels {
            votes,
            next,
            matched,
        } = levels;
        let (term, vote, log) = stable.into_parts();
        let Ok(machine) = log.state().fork() else {
            return Err(NotRestarted {
                refusal: Refusal::NoMemory,
                stable: Stable::from_parts(term, vote, log),
            });
        };
        let commit = log.covered();
        Ok(Raft {
            alloc,
            me,
            size,
            term,
            vote,
            log,
            machine: Some(machine),
            role: Role::Follower,
            commit,
            known: None,
            votes,
            next,
            matched,
            projected: None,
        })
    }

    /// What it stores; the rest is gone.
    pub fn into_stable(self) -> Stable<M>
        ensures stored { (s : AnyRaft M.Command) → RefinesRaft M.spec self s →
            Stores M.spec result s }
        ensures shown { result ≡ stored_part self }
    {
        self.covered_is_committed();
        let Raft {
            term,
            vote,
            log,
            ..
        } = self;
        Stable::from_parts(term, vote, log)
    }

    /// Its number.
    pub fn me(&self) -> ServerId
        ensures { result ≡ self.now.me }
    {
        self.me
    }

    /// How many servers its group has.
    pub fn size(&self) -> usize
        ensures { result ≡ self.now.size }
    {
        self.size
    }

    /// What it is doing, while it is up.
    pub fn role(&self) -> Option<Role>
        ensures value { (s : AnyRaft M.Command) → RefinesRaft M.spec self.now s →
            result ≡ role_of s.mode }
        ensures shown { result ≡ role_of self.now.server.mode }
    {
        match self.machine {
            Some(_) => Some(self.role),
            None => None,
        }
    }

    /// The leader of its term, where it has followed an Append of that server's; none while it is
    /// down. A server that leads or stands for election knows none, and a greater term or a restart
    /// makes it forget.
    pub fn known_leader(&self) -> Option<ServerId>
        ensures value { (s : AnyRaft M.Command) → RefinesRaft M.spec self.now s →
            result ≡ s.known }
        ensures shown { result ≡ self.now.server.known }
    {
        match self.machine {
            Some(_) => self.known,
            None => None,
        }
    }

    /// Its current term, also while it is down.
    pub fn term(&self) -> Term
        ensures value { (s : AnyRaft M.Command) → RefinesRaft M.spec self.now s →
            result ≡ s.term }
        ensures shown { result ≡ self.now.server.term }
    {
        self.term
    }

    /// The vote that it gave in its term, if it did, also while it is down.
    pub fn vote(&self) -> Option<ServerId>
        ensures { result ≡ self.now.server.vote }
    {
        self.vote
    }

    /// How many entries its snapshot covers, also while it is down: the index of the last one.
    pub fn covered(&self) -> Index
        ensures value { result ≡ self.now.base.index }
        ensures within { result ≤ length self.now.server.log }
    {
        self.log.covered()
    }

    /// The index of the last entry of its log, also while it is down; 0 where there is none.
    pub fn last(&self) -> Index
        ensures value { (s : AnyRaft M.Command) → RefinesRaft M.spec self.now s →
            result ≡ length s.log }
        ensures shown { result ≡ length self.now.server.log }
    {
        self.log.last()
    }

    /// The term of the last entry of its log, also while it is down and where its snapshot covers
    /// that entry; 0 where there is none.
    pub fn last_term(&self) -> Term
        ensures value { (s : AnyRaft M.Command) → RefinesRaft M.spec self.now s →
            result ≡ last_term s.log }
        ensures shown { result ≡ last_term self.now.server.log }
    {
        self.log.last_term()
    }

    /// The term of the entry at an index, also while it is down; none where its snapshot covers that
    /// entry, and where there is none.
    pub fn term_at(&self, index: Index) -> Option<Term>
        ensures value { (s : AnyRaft M.Command) → RefinesRaft M.spec self.now s →
            MatchOption result (HasNoTermAt s index) (λ t. HasTermAt s index t) }
        ensures shown { let s = self.now.server in
            MatchOption result (HasNoTermAt s index) (λ t. HasTermAt s index t) }
    {
        self.covered_is_committed();
        self.shown_term_at(index)
    }

    /// The same, by what is shown.
    fn shown_term_at(&self, index: Index) -> Option<Term>
        ensures { let s = self.now.server in
            MatchOption result (HasNoTermAt s index) (λ t. HasTermAt s index t) }
    {
        if index.get() <= self.log.covered().get() || index.get() > self.log.last().get() {
            return None;
        }
        self.log.term_at(index.get())
    }

    /// What it knows of a command by its ticket, while it is up.
    pub fn proposal_status(&self, ticket: Ticket) -> Option<ProposalStatus>
        ensures value { (s : AnyRaft M.Command) → RefinesRaft M.spec self.now s →
            result ≡ proposal_status_of s ticket.index ticket.term }
    {
        let applied = self.applied()?;
        if applied.get() < ticket.index.get() {
            return Some(ProposalStatus::Pending);
        }
        match self.term_at(ticket.index) {
            None => Some(ProposalStatus::Compacted),
            Some(term) if term.get() == ticket.term.get() => Some(ProposalStatus::Committed),
            Some(_) => Some(ProposalStatus::Superseded),
        }
    }

    /// How many entries are applied, while it is up: all that are committed.
    pub fn applied(&self) -> Option<Index>
        ensures value { (s : AnyRaft M.Command) → RefinesRaft M.spec self.now s →
            MatchOption result (is_up s.mode ≡ false) (λ n. (is_up s.mode ≡ true)
            × (n ≡ s.commit)) }
        ensures held { (s : AnyRaft M.Command) → RefinesRaft M.spec self.now s →
            IfSome result (λ n. n ≤ length s.log) }
        ensures shown { let s = self.now.server in
            MatchOption result (is_up s.mode ≡ false) (λ n. (is_up s.mode ≡ true)
            × (n ≡ s.commit)) }
    {
        match self.machine {
            Some(_) => Some(self.commit),
            None => None,
        }
    }

    /// The machine after the committed entries, while it is up.
    pub fn machine(&self) -> Option<&M>
        ensures value { (s : AnyRaft M.Command) → RefinesRaft M.spec self.now s →
            MatchOption result (is_up s.mode ≡ false) (λ r. (is_up s.mode ≡ true)
            × (r.now ≡ state_after M.spec (take s.commit s.log))) }
        ensures shown { is_some result ≡ is_up self.now.server.mode }
    {
        self.covered_is_committed();
        self.applied_machine()
    }

    /// The same, in the state that is applied by what is shown.
    fn applied_machine(&self) -> Option<&M>
        ensures state { MatchOption result (is_up self.now.server.mode ≡ false)
            (λ r. (is_up self.now.server.mode ≡ true)
            × (r.now ≡ compacted_state M.spec self.now.base self.now.server)) }
        ensures up { is_some result ≡ is_up self.now.server.mode }
    {
        self.machine.as_ref()
    }

    /// Whether it is up: it has not crashed since it last started.
    pub fn is_up(&self) -> bool
        ensures value { (s : AnyRaft M.Command) → RefinesRaft M.spec self.now s →
            result ≡ is_up s.mode }
        ensures shown { result ≡ is_up self.now.server.mode }
    {
        match self.machine {
            Some(_) => true,
            None => false,
        }
    }

    /// Its term while it leads.
    pub fn leader_term(&self) -> Option<LeaderTerm>
        ensures value { (s : AnyRaft M.Command) → RefinesRaft M.spec self.now s →
            MatchOption result (is_leader s.mode ≡ false) (λ n. (is_leader s.mode ≡ true)
            × (n ≡ s.term)) }
        ensures shown { let s = self.now.server in
            MatchOption result (is_leader s.mode ≡ false) (λ n. (is_leader s.mode ≡ true)
            × (n ≡ s.term)) }
    {
        if self.machine.is_none() || !self.role.leads() {
            return None;
        }
        let Some(term) = LeaderTerm::new(self.term.get()) else {
            unreachable!()
        };
        Some(term)
    }

    fn is_leader(&self) -> bool
        requires { is_up self.now.server.mode ≡ true }
        ensures { result ≡ is_leader self.now.server.mode }
    {
        self.role.leads()
    }

    /// It stops: what it does not store is lost. One that is down stays so. It takes no memory.
    pub fn crash(&mut self)
        ensures same { SameNumber self.old self.new }
        ensures crashed { (s : AnyRaft M.Command) → RefinesRaft M.spec self.old s →
            RefinesRaft M.spec self.new (crashed s) }
        ensures shown { IsCrashOf self.old self.new }
    {
        self.go_down();
    }

    fn go_down(&mut self)
        ensures view { self.new ≡ with_server self.old (crashed self.old.server) }
        ensures idle { is_up self.old.server.mode ≡ false → self.new ≡ self.old }
    {
        forget(&mut self.machine);
        forget(&mut self.projected);
    }

    /// It starts again: a follower that knows no leader, with what its snapshot covers applied.
    #[inline(never)]
    fn revive(&mut self) -> Result<(), NoMemory>
        requires { is_up self.old.server.mode ≡ false }
        ensures ok { OnOk result (self.new ≡ with_server self.old (restarted self.old.server)) }
        ensures err { OnErr result (self.new ≡ self.old) }
    {
        let machine = self.log.state().fork()?;
        self.role = Role::Follower;
        self.projected = None;
        self.commit = self.log.covered();
        self.known = None;
        self.matched.fill(0);
        self.machine = Some(machine);
        Ok(())
    }

    /// What its snapshot covers is committed, and it shows no entry of that: so much is known of
    /// each server.
    pub fn covered_is_committed(&self)
        ensures { IsCompacted self.now.base self.now.server }
    {
        let _ = self.log.covered();
    }

    /// What is committed is in the log.
    fn committed(&self)
        ensures { self.now.server.commit ≤ length self.now.server.log }
    {
        let _ = self.log.covered();
    }

    /// A greater term makes the server a follower of that term, without a vote or a known leader.
    fn observe_term(&mut self, term: Term)
        requires { is_up self.old.server.mode ≡ true }
        ensures { self.new ≡ with_server self.old (term_observed term self.old.server) }
    {
        if self.term.get() < term.get() {
            self.term = term;
            self.vote = None;
            self.known = None;
            self.role = Role::Follower;
            forget(&mut self.projected);
        }
    }

    /// One input is taken. After want of memory what is stored is as it was, and frames may stand
    /// behind those that were there.
    #[tactic(auto, using(crate::proofs::Keeps::kept_by_view))]
    fn try_step<W: Watch<M>>(
        &mut self,
        input: Input,
        outbox: &mut Frames,
        watch: &mut W,
    ) -> Result<(), Refusal>
        ensures same { SameNumber self.old self.new }
        ensures taken { OnOk result (MovesBy M.spec self.old (handed input.entry)
            self.new outbox.old outbox.new) }
        ensures admitted { OnOk result (
            refusal M.spec self.old.size self.old.me self.old.server (handed input.entry) ≡ None) }
        ensures read { OnOk result (IsReadIn M.spec (handed input.entry)) }
        ensures kept { OnOk result (KeepsProjected self.old self.new) }
        ensures stopped { IfErr result (λ cause.
            EndsRefused M.spec self.old (handed input.entry) cause self.new outbox.old outbox.new) }
        ensures unhidden { IfErr result (λ cause. HidesNothing M.spec self.old.size self.old.me
            self.old.server (handed input.entry) cause) }
        ensures led { OnOk result (is_leader self.new.server.mode ≡ true →
            self.new.base.index ≤ self.old.server.commit) }
        ensures seen { OnOk result (ShowsStep M.spec W.sees self.old.base self.old.server
            self.new.server watch.old watch.new) }
        ensures unseen { IfErr result (λ cause. RefusalShows cause watch.old watch.new) }
    {
        let is_up = self.is_up();
        self.covered_is_committed();
        match input {
            Input::Restart => {
                if is_up {
                    return Err(Refusal::OutOfRange);
                }
                self.revive()?;
                Ok(())
            }
            Input::Crash => {
                if !is_up {
                    return Err(Refusal::Down);
                }
                self.go_down();
                Ok(())
            }
            Input::Timeout => {
                if !is_up {
                    return Err(Refusal::Down);
                }
                self.timeout(outbox)
            }
            Input::Beat => {
                if !is_up {
                    return Err(Refusal::Down);
                }
                self.beat(outbox)?;
                Ok(())
            }
            Input::Compact => {
                if !is_up {
                    return Err(Refusal::Down);
                }
                self.compact()?;
                Ok(())
            }
            Input::Frame(bytes) => {
                if !is_up {
                    return Err(Refusal::Down);
                }
                self.handle_frame(bytes, outbox, watch)
            }
        }
    }

    /// One step: the server takes an input, and the frames of the messages that it sends are put
    /// behind those in the outbox.
    ///
    /// One that is down refuses every input but Restart with `Down`. Then of a frame `Frame` names
    /// the offset of its first fault, or 1 where its kind is none by which servers keep one log, 2
    /// where its sender is not of the group, or 3 where it is for another server; a Timeout is
    /// refused with `Exhausted` where the term or the last index is 2^40 - 1; a Restart of one that
    /// is up with `OutOfRange`. A refusal changes nothing and sends nothing. With `NoMemory` the
    /// server is down, with its stored part as it was and nothing sent; it never comes in place of
    /// another refusal, but of a frame's. A leader that leads on keeps its machine after its whole
    /// log.
    pub fn step(&mut self, input: Input, outbox: &mut Frames) -> Result<(), Refusal>
        ensures same { SameNumber self.old self.new }
        ensures taken { OnOk result ((s : AnyRaft M.Command) → RefinesRaft M.spec self.old s →
            Takes M.spec self.old s (handed input.entry) self.new outbox.old outbox.new) }
        ensures admitted { OnOk result ((s : AnyRaft M.Command) → RefinesRaft M.spec self.old s →
            refusal M.spec self.old.size self.old.me s (handed input.entry) ≡ None) }
        ensures kept { OnOk result (KeepsProjected self.old self.new) }
        ensures keeps { OnOk result (MayKeepLog (handed input.entry) self.old self.new) }
        ensures refused { IfErr result (λ cause. (s : AnyRaft M.Command) →
            RefinesRaft M.spec self.old s →
            IsRefused M.spec self.old.size self.old.me s (handed input.entry) cause) }
        ensures unhidden { IfErr result (λ cause. (s : AnyRaft M.Command) →
            RefinesRaft M.spec self.old s →
            HidesNothing M.spec self.old.size self.old.me s (handed input.entry) cause) }
        ensures left { IfErr result (λ cause. (s : AnyRaft M.Command) →
            RefinesRaft M.spec self.old s →
            RefusalLeaves M.spec self.old s (handed input.entry) cause self.new) }
        ensures stays { IfErr result (λ cause.
            Stays (handed input.entry) cause self.old self.new) }
        ensures unsent { OnErr result (outbox.new ≡ outbox.old) }
    {
        self.step_watched(input, outbox, &mut Unwatched)
    }

    /// The same step, watched: the watcher sees each entry that a leader newly applies, once and in
    /// order, with the state that it left.
    ///
    /// A refusal shows it nothing. With `NoMemory` it is fit only to be dropped.
    pub fn step_watched<W: Watch<M>>(
        &mut self,
        input: Input,
        outbox: &mut Frames,
        watch: &mut W,
    ) -> Result<(), Refusal>
        ensures same { SameNumber self.old self.new }
        ensures taken { OnOk result ((s : AnyRaft M.Command) → RefinesRaft M.spec self.old s →
            Takes M.spec self.old s (handed input.entry) self.new outbox.old outbox.new) }
        ensures admitted { OnOk result ((s : AnyRaft M.Command) → RefinesRaft M.spec self.old s →
            refusal M.spec self.old.size self.old.me s (handed input.entry) ≡ None) }
        ensures kept { OnOk result (KeepsProjected self.old self.new) }
        ensures keeps { OnOk result (MayKeepLog (handed input.entry) self.old self.new) }
        ensures refused { IfErr result (λ cause. (s : AnyRaft M.Command) →
            RefinesRaft M.spec self.old s →
            IsRefused M.spec self.old.size self.old.me s (handed input.entry) cause) }
        ensures unhidden { IfErr result (λ cause. (s : AnyRaft M.Command) →
            RefinesRaft M.spec self.old s →
            HidesNothing M.spec self.old.size self.old.me s (handed input.entry) cause) }
        ensures left { IfErr result (λ cause. (s : AnyRaft M.Command) →
            RefinesRaft M.spec self.old s →
            RefusalLeaves M.spec self.old s (handed input.entry) cause self.new) }
        ensures stays { IfErr result (λ cause.
            Stays (handed input.entry) cause self.old self.new) }
        ensures unsent { OnErr result (outbox.new ≡ outbox.old) }
        ensures seen { OnOk result ((s next : AnyRaft M.Command) →
            RefinesRaft M.spec self.old s → RefinesRaft M.spec self.new next →
            SeesStep M.spec W.sees s next watch.old watch.new) }
        ensures unseen { IfErr result (λ cause. RefusalShows cause watch.old watch.new) }
    {
        let before = outbox.len();
        self.covered_is_committed();
        self.committed();
        match self.try_step(input, outbox, watch) {
            Ok(()) => {
                self.covered_is_committed();
                Ok(())
            }
            Err(cause) => match cause {
                Refusal::NoMemory => {
                    outbox.truncate(before);
                    self.go_down();
                    Err(Refusal::NoMemory)
                }
                other => Err(other),
            },
        }
    }
}
