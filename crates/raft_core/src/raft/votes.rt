//! Elections. (Raft, section 5.2, and section 5.4.1.)

ghost use Rattle.std.specs.Prelude.{◌≡◌, ◌≢◌, ◌+◌, ◌^◌, ◌<◌, ◌≤◌, true, length, None, OnOk, OnErr, IfErr};
ghost use Rattle.raft_model.specs.Rafts.{is_up, term_observed, grants, election_started, vote_request_to, counted, won, crashed};
ghost use Rattle.raft_model.specs.Steps.{receives, Timeout};
ghost use Rattle.raft_model.specs.Messages.{to_others, VoteRequest as VoteRequestBody, VoteReply as VoteReplyBody};
ghost use Rattle.raft_model.specs.Quorums.{count, is_quorum, marked};
ghost use Rattle.raft_core.specs.Frames.{Sends};
ghost use Rattle.raft_core.specs.Inputs.{Own};
ghost use Rattle.raft_core.specs.Refusals.{refusal, HidesNothing};
ghost use Rattle.raft_core.specs.Inner.Moves.{Moves};
ghost use Rattle.raft_core.specs.Inner.Stops.{EndsRefused};
ghost use Rattle.raft_core.specs.Inner.Turns.{SameBase, TurnTaken, OutOfMemoryTurn, KeepsFront};
ghost use Rattle.raft_core.specs.RaftView.{SameNumber, KeepsProjected};

use super::Raft;
use crate::role::Role;
use crate::sending::send;
use machine::{Coded, Entry, Machine};
use rows::{Index, NoMemory, Refusal, ServerId, Term};
use wire::{Body, Frames, VoteReply, VoteRequest};

/// The server at a place, from 0.
pub(super) fn server_at(position: usize) -> ServerId
    requires { position < 5 }
    ensures { result ≡ position }
{
    match ServerId::from_position(position) {
        Some(server) => server,
        None => unreachable!(),
    }
}

/// How many servers gave their vote.
fn count_votes(votes: &[bool]) -> usize
    ensures count { result ≡ count (marked votes.now) (length votes.now) }
    ensures bound { result ≤ length votes.now }
{
    let mut held = 0;
    for vote in votes {
        if *vote {
            held += 1;
        }
    }
    held
}

/// Whether more than half of the servers gave their vote.
#[tactic(auto, unfolding(raft_model::specs::Quorums::is_quorum))]
fn is_quorum(votes: &[bool]) -> bool
    requires { length votes.now ≤ 5 }
    ensures { result ≡ is_quorum (length votes.now) (marked votes.now) }
{
    2 * count_votes(votes) > votes.len()
}

/// Asks all others for their votes, in rising number.
fn ask<M: Machine>(
    me: ServerId,
    size: usize,
    request: &VoteRequest,
    outbox: &mut Frames,
) -> Result<(), NoMemory>
    requires { size ≤ 5 }
    ensures ok { OnOk result (Sends M.spec outbox.old outbox.new
        (to_others me (λ to. record {
          from = me;
          to = to;
          term = request.now.term;
          body =
              VoteRequestBody request.now.last_index request.now.last_term;
        }) size)) }
    ensures err { OnErr result (KeepsFront outbox.old outbox.new) }
{
    for position in 0..size {
        if position != me.position() {
            send::<M>(outbox, me, server_at(position), Body::VoteRequest(*request))?;
        }
    }
    Ok(())
}

impl<M: Machine> Raft<M> {
    /// Whether a request gets this server's vote.
    fn may_grant(&self, from: ServerId, request: &VoteRequest) -> bool
        requires { is_up self.now.server.mode ≡ true }
        ensures { result ≡ grants
            (term_observed request.now.term self.now.server) from request.now.term
            request.now.last_index request.now.last_term }
    {
        let last_term = self.log.last_term().get();
        let its_last_term = request.last_term.get();
        let is_up_to_date = last_term < its_last_term
            || last_term == its_last_term && self.log.last().get() <= request.last_index.get();
        let is_free = match self.vote {
            None => true,
            Some(other) => other.position() == from.position(),
        };
        let (term, its_term) = (self.term.get(), request.term.get());
        is_up_to_date && (term < its_term || term == its_term && is_free)
    }

    /// Its term, once it has met that of a message.
    fn later(&self, term: Term) -> Term
        requires { is_up self.now.server.mode ≡ true }
        ensures { result ≡ (term_observed term self.now.server).term }
    {
        if self.term.get() < term.get() {
            term
        } else {
            self.term
        }
    }

    /// A request for a vote is answered.
    pub(super) fn handle_vote_request(
        &mut self,
        from: ServerId,
        request: &VoteRequest,
        outbox: &mut Frames,
    ) -> Result<(), NoMemory>
        requires up { is_up self.old.server.mode ≡ true }
        requires other { from ≢ self.old.me }
        ensures taken { OnOk result
            (TurnTaken M.spec self.old.base self.old self.new outbox.old outbox.new
            (receives M.spec.noop self.old.size self.old.me
            (term_observed request.now.term self.old.server) from request.now.term
            (VoteRequestBody request.now.last_index request.now.last_term))) }
        ensures kept { OnOk result (KeepsProjected self.old self.new) }
        ensures lost { OnErr result (OutOfMemoryTurn self.old self.new outbox.old outbox.new) }
    {
        let granted = self.may_grant(from, request);
        let asked = request.term;
        let term = self.later(asked);
        let reply = VoteReply {
            term,
            asked,
            granted,
        };
        send::<M>(outbox, self.me, from, Body::VoteReply(reply))?;
        self.observe_term(asked);
        if granted {
            self.vote = Some(from);
        }
        Ok(())
    }

    /// It leads, and appends a no-op of its term.
    #[inline(never)]
    fn become_leader(&mut self) -> Result<(), NoMemory>
        requires up { is_up self.old.server.mode ≡ true }
        requires elected { 1 ≤ self.old.server.term }
        requires index_left { length self.old.server.log + 1 < 2 ^ 40 }
        ensures same { SameBase self.old self.new }
        ensures won { OnOk result (self.new.server
            ≡ won M.spec.noop self.old.size self.old.server) }
        ensures lost { OnErr result (crashed self.new.server ≡ crashed self.old.server) }
    {
        self.projected = None;
        let first = self.log.last().get() + 1;
        self.next.fill(first);
        self.matched.fill(0);
        self.log.append(Entry {
            term: self.term,
            command: Coded::new(M::noop()),
        })?;
        self.role = Role::Leader;
        Ok(())
    }

    /// A candidate counts a vote, and leads with those of a quorum.
    fn count_vote(&mut self, from: ServerId) -> Result<(), NoMemory>
        requires up { is_up self.old.server.mode ≡ true }
        requires member { from < self.old.size }
        ensures same { SameBase self.old self.new }
        ensures counted { OnOk result (self.new.server
            ≡ counted M.spec.noop self.old.size self.old.server from self.old.server.mode) }
        ensures kept { OnOk result (KeepsProjected self.old self.new) }
        ensures lost { OnErr result (crashed self.new.server ≡ crashed self.old.server) }
    {
        match self.role {
            Role::Follower => Ok(()),
            Role::Leader => Ok(()),
            Role::Candidate => {
                self.votes[from.position()] = true;
                if !is_quorum(&self.votes) {
                    return Ok(());
                }
                self.become_leader()
            }
        }
    }

    /// The answer to a request for a vote counts where it answers one of this term.
    #[tactic(auto, using(crate::proofs::Keeps::kept_by_view))]
    pub(super) fn handle_vote_reply(
        &mut self,
        from: ServerId,
        reply: &VoteReply,
    ) -> Result<(), NoMemory>
        requires up { is_up self.old.server.mode ≡ true }
        requires member { from < self.old.size }
        ensures same { SameBase self.old self.new }
        ensures taken { OnOk result (self.new.server
            ≡ (receives M.spec.noop self.old.size self.old.me
            (term_observed reply.now.term self.old.server) from reply.now.term
            (VoteReplyBody reply.now.asked reply.now.granted)).server) }
        ensures kept { OnOk result (KeepsProjected self.old self.new) }
        ensures lost { OnErr result (crashed self.new.server ≡ crashed self.old.server) }
    {
        if self.term.get() < reply.term.get() {
            self.observe_term(reply.term);
            return Ok(());
        }
        if reply.asked.get() == self.term.get() && reply.granted {
            return self.count_vote(from);
        }
        Ok(())
    }

    /// It stands in the next term, with its own vote, and asks all others for theirs.
    #[inline(never)]
    pub(super) fn start_election(&mut self, outbox: &mut Frames) -> Result<(), NoMemory>
        requires up { is_up self.old.server.mode ≡ true }
        requires term { self.old.server.term + 1 < 2 ^ 40 }
        requires index_left { length self.old.server.log + 1 < 2 ^ 40 }
        ensures taken { OnOk result
            (TurnTaken M.spec self.old.base self.old self.new outbox.old outbox.new
            (record {
              server = election_started self.old.size self.old.me self.old.server;
              sent = to_others
                  self.old.me (vote_request_to self.old.me (election_started self.old.size self.old.me self.old.server))
                  self.old.size;
            })) }
        ensures kept { OnOk result (KeepsProjected self.old self.new) }
        ensures lost { OnErr result (OutOfMemoryTurn self.old self.new outbox.old outbox.new) }
    {
        let term = self.term.next();
        let request = VoteRequest {
            term,
            last_index: self.last(),
            last_term: self.log.last_term(),
        };
        ask::<M>(self.me, self.size, &request, outbox)?;
        self.projected = None;
        self.term = term;
        self.vote = Some(self.me);
        self.known = None;
        self.votes.fill(false);
        self.votes[self.me.position()] = true;
        self.role = Role::Candidate;
        Ok(())
    }

    /// It has heard of no leader: unless it leads, it stands for election.
    pub(super) fn timeout(&mut self, outbox: &mut Frames) -> Result<(), Refusal>
        requires { is_up self.old.server.mode ≡ true }
        ensures same { SameNumber self.old self.new }
        ensures taken { OnOk result (
            Moves M.spec self.old.base self.old Timeout self.new outbox.old outbox.new) }
        ensures admitted { OnOk result (
            refusal M.spec self.old.size self.old.me self.old.server (Own Timeout) ≡ None) }
        ensures kept { OnOk result (KeepsProjected self.old self.new) }
        ensures stopped { IfErr result (λ cause.
            EndsRefused M.spec self.old (Own Timeout) cause self.new outbox.old outbox.new) }
        ensures unhidden { IfErr result (λ cause. HidesNothing M.spec self.old.size self.old.me
            self.old.server (Own Timeout) cause) }
    {
        if self.is_leader() {
            return Ok(());
        }
        if self.term.get() + 1 >= Term::LIMIT {
            return Err(Refusal::Exhausted);
        }
        if self.log.last().get() + 1 >= Index::LIMIT {
            return Err(Refusal::Exhausted);
        }
        self.start_election(outbox)?;
        Ok(())
    }
}
