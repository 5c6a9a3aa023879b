mod asks;
mod clients;
mod frames;
mod gate;
mod idle;
mod listing;
mod log;
mod plans;
mod proposing;
mod replies;
mod requests;
mod steps;
mod storing;
mod turns;

ghost use Rattle.std.specs.Prelude.{◌≡◌, true, false, length, IfOk, IfErr, MatchOption};
ghost use Rattle.std.specs.Arc.{arc_value};
ghost use Rattle.raft_model.specs.Logs.{last_term};
ghost use Rattle.raft_model.specs.Rafts.{is_up};
ghost use Rattle.raft_core.specs.Steps.{role_of};
ghost use Rattle.raft_core.specs.Refusals.{WhyNot};
ghost use Rattle.raft_core.specs.Tickets.{proposal_status_of};
ghost use Rattle.group_model.specs.Desks.{applied_state};
ghost use Rattle.group_model.specs.Servers.{Server as AnyServer, newcomer};
ghost use Rattle.server.specs.ServerViews.{RefinesServer};
ghost use Rattle.server.specs.Refusals.{WhyNoSnapshot};

use crate::server_desk::ServerDesk;
use fsm_state::Cluster;
use leader::Desk;
use machine::Machine;
use raft_core::{ProposalStatus, Raft, Role, Stable, Ticket};
use rows::{Index, Refusal, Sequence, ServerId, Term, Work};
use std::alloc::Global;
use std::marker::Model;
use std::sync::Arc;
use wire::Frames;

/// What a server sends and hands out.
#[derive(Drop)]
pub struct Outbox {
    /// The frames of the messages that it sends.
    pub frames: Frames,
    /// What came for its workers.
    pub work: Sequence<Work>,
}

/// A server of a group of 3 or 5: its part of the log, whose machine is the replicated state, and
/// the leader's desk, which is open while it leads and has applied an entry of its term. (Nomad
/// documentation, "Consensus Protocol" and "Scheduling in Nomad".)
#[derive(Drop)]
pub struct Server {
    alloc: Global,
    raft: Raft<Cluster>,
    desk: ServerDesk,
}

impl Model for Server {
    ghost use Rattle.std.specs.Prelude.{◌≡◌, true, IfSome};
    ghost use Rattle.raft_model.specs.Rafts.{is_leader};
    ghost use Rattle.server.specs.ServerViews.{ServerView};

    ghost Value = { ServerView };

    ghost view = { λ s. record { raft = s.raft; desk = s.desk } };

    ghost invariant = { λ s. IfSome s.desk (λ o. is_leader s.raft.server.mode ≡ true) };
}

impl Server {
    /// The server of this number in a group of `size`, before its first input.
    ///
    /// It is refused with `OutOfRange` where `size` is not 3 or 5 or the number is past it, and
    /// with `NoMemory`.
    pub fn new(alloc: Global, me: ServerId, size: usize) -> Result<Server, Refusal>
        ensures number { IfOk result (λ s. (s.raft.me ≡ me) × (s.raft.size ≡ size)) }
        ensures newcomer { IfOk result (λ s. RefinesServer s newcomer) }
        ensures refused { IfErr result (λ e. WhyNot size me e) }
    {
        match Server::restart(alloc, me, size, Stable::new(alloc)) {
            Ok(server) => Ok(server),
            Err(not) => Err(not.refusal),
        }
    }

    /// Its number.
    pub fn me(&self) -> ServerId
        ensures { result ≡ self.now.raft.me }
    {
        self.raft.me()
    }

    /// Its part of the log.
    pub fn raft(&self) -> &Raft<Cluster>
        ensures { result.now ≡ self.now.raft }
    {
        &self.raft
    }

    /// What it is doing in the group, while it is up.
    pub fn role(&self) -> Option<Role>
        ensures value { (s : AnyServer) → RefinesServer self.now s → result ≡ role_of s.raft.mode }
        ensures shown { result ≡ role_of self.now.raft.server.mode }
    {
        self.raft.role()
    }

    /// Its current term, also while it is down.
    pub fn term(&self) -> Term
        ensures value { (s : AnyServer) → RefinesServer self.now s → result ≡ s.raft.term }
        ensures shown { result ≡ self.now.raft.server.term }
    {
        self.raft.term()
    }

    /// The index of the last entry of its log, also while it is down; 0 where there is none.
    pub fn last(&self) -> Index
        ensures value { (s : AnyServer) → RefinesServer self.now s → result ≡ length s.raft.log }
        ensures shown { result ≡ length self.now.raft.server.log }
    {
        self.raft.last()
    }

    /// The term of the last entry of its log, also while it is down and where its snapshot covers
    /// that entry; 0 where there is none.
    pub fn last_term(&self) -> Term
        ensures value { (s : AnyServer) → RefinesServer self.now s → result ≡ last_term s.raft.log }
        ensures shown { result ≡ last_term self.now.raft.server.log }
    {
        self.raft.last_term()
    }

    /// How many entries are applied, while it is up: all that are committed.
    pub fn applied(&self) -> Option<Index>
        ensures value { (s : AnyServer) → RefinesServer self.now s →
            MatchOption result (is_up s.raft.mode ≡ false) (λ n. (is_up s.raft.mode ≡ true)
            × (n ≡ s.raft.commit)) }
        ensures shown { let s = self.now.raft.server in
            MatchOption result (is_up s.mode ≡ false) (λ n. (is_up s.mode ≡ true)
            × (n ≡ s.commit)) }
    {
        self.raft.applied()
    }

    /// What it knows of a command by its ticket, while it is up.
    pub fn proposal_status(&self, ticket: Ticket) -> Option<ProposalStatus>
        ensures { (s : AnyServer) → RefinesServer self.now s →
            result ≡ proposal_status_of s.raft ticket.index ticket.term }
    {
        self.raft.proposal_status(ticket)
    }

    /// The replicated state after the committed entries, while it is up.
    pub fn state(&self) -> Option<&Cluster>
        ensures { (s : AnyServer) → RefinesServer self.now s →
            MatchOption result (is_up s.raft.mode ≡ false) (λ r. (is_up s.raft.mode ≡ true)
            × (r.now ≡ applied_state s.raft)) }
    {
        self.raft.machine()
    }

    /// The leader's desk, which is closed where the server does not lead, or has not applied an
    /// entry of its term.
    pub fn desk(&self) -> &Desk
        ensures { result.now ≡ self.now.desk }
    {
        &self.desk.desk
    }

    /// A copy of the replicated state after the committed entries, and how many those are.
    ///
    /// It is refused with `Down` while the server is down, and with `NoMemory`.
    pub fn snapshot(&self) -> Result<(Arc<Cluster>, Index), Refusal>
        ensures state { IfOk result (λ p. (s : AnyServer) → RefinesServer self.now s →
            (is_up s.raft.mode ≡ true) × (arc_value p.0 ≡ applied_state s.raft) × (p.1 ≡ s.raft.commit)) }
        ensures refused { IfErr result (λ e. (s : AnyServer) → RefinesServer self.now s →
            WhyNoSnapshot s e) }
    {
        let (Some(state), Some(applied)) = (self.raft.machine(), self.raft.applied()) else {
            return Err(Refusal::Down);
        };
        Ok((Arc::new(self.alloc, state.fork()?)?, applied))
    }
}
