ghost use Rattle.std.specs.Prelude.{◌≡◌};
ghost use Rattle.fields_model.specs.Format.{GivesExactly};
ghost use Rattle.wire.specs.Messages.{is_of_log, is_of_desk, is_of_agent, may_come_from, may_go, is_server, is_another_server};
ghost use Rattle.wire.specs.Grammar.{kind, number_of_kind};
ghost use Rattle.wire.specs.Laws.GrammarLaws.{kind_lawful};

use fields::{Field, read_u8, write_u8};
use rows::{Actor, NoMemory, Refusal, Version};
use std::alloc::Global;

/// What a message is, as the second byte of its frame says it.
#[derive(Clone, Copy, Debug, PartialEq, Eq)]
pub enum Kind {
    /// 1: a candidate asks for a vote.
    VoteRequest,
    /// 2: the answer to a candidate.
    VoteReply,
    /// 3: a leader sends entries.
    Append,
    /// 4: the answer to a leader.
    AppendReply,
    /// 5: a leader sends a state.
    Install,
    /// 6: the answer to a leader that sent a state.
    InstallReply,
    /// 7: a worker asks for an evaluation.
    Take,
    /// 8: an evaluation for a worker, or that there is none.
    Delivered,
    /// 9: a worker submits a plan.
    Submit,
    /// 10: what became of a plan.
    PlanResult,
    /// 11: a worker ends its work on an evaluation.
    Finish,
    /// 12: a worker gives an evaluation back.
    Nack,
    /// 13: a worker's request is refused.
    Refused,
    /// 14: a node's agent registers.
    Register,
    /// 15: a node's agent says that the node is still there.
    Heartbeat,
    /// 16: a node's agent asks which allocations the node is to run.
    Pull,
    /// 17: the live allocations of a node.
    List,
    /// 18: a node's agent says what became of allocations.
    Report,
    /// 19: whether an agent's request is taken.
    Told,
}

impl Kind {
    /// Its number, which is the second byte of a frame.
    pub fn number(self) -> u8
        ensures { result ≡ number_of_kind self }
    {
        match self {
            Kind::VoteRequest => 1,
            Kind::VoteReply => 2,
            Kind::Append => 3,
            Kind::AppendReply => 4,
            Kind::Install => 5,
            Kind::InstallReply => 6,
            Kind::Take => 7,
            Kind::Delivered => 8,
            Kind::Submit => 9,
            Kind::PlanResult => 10,
            Kind::Finish => 11,
            Kind::Nack => 12,
            Kind::Refused => 13,
            Kind::Register => 14,
            Kind::Heartbeat => 15,
            Kind::Pull => 16,
            Kind::List => 17,
            Kind::Report => 18,
            Kind::Told => 19,
        }
    }

    /// Whether the message is one of those by which servers keep one log.
    pub fn is_of_log(self) -> bool
        ensures { result ≡ is_of_log self }
    {
        match self {
            Kind::VoteRequest | Kind::VoteReply => true,
            Kind::Append | Kind::AppendReply => true,
            Kind::Install | Kind::InstallReply => true,
            _ => false,
        }
    }

    /// Whether the message is one of those that workers and the leader's desk send each other.
    pub fn is_of_desk(self) -> bool
        ensures { result ≡ is_of_desk self }
    {
        match self {
            Kind::Take | Kind::Submit | Kind::Finish | Kind::Nack => true,
            Kind::Delivered | Kind::PlanResult | Kind::Refused => true,
            _ => false,
        }
    }

    /// Whether the message is one that a node's agent sends.
    pub fn is_of_agent(self) -> bool
        ensures { result ≡ is_of_agent self }
    {
        matches!(
            self,
            Kind::Register | Kind::Heartbeat | Kind::Pull | Kind::Report
        )
    }

    /// Whether this actor sends messages of the kind: an agent's come from clients, and all others
    /// from servers.
    pub fn may_come_from(self, from: &Actor) -> bool
        ensures { result ≡ may_come_from self from.now }
    {
        if self.is_of_agent() {
            !is_server(from)
        } else {
            is_server(from)
        }
    }

    /// Whether messages of the kind go from this actor to that one: those by which servers keep one
    /// log go to another server, those of workers and the leader's desk to any, an agent's to a
    /// server, and what it is told or shown comes from a server.
    pub fn may_go(self, from: &Actor, to: &Actor) -> bool
        ensures { result ≡ may_go self from.now to.now }
    {
        match self {
            Kind::VoteRequest | Kind::VoteReply => is_another_server(from, to),
            Kind::Append | Kind::AppendReply => is_another_server(from, to),
            Kind::Install | Kind::InstallReply => is_another_server(from, to),
            Kind::Register | Kind::Heartbeat => !is_server(from) && is_server(to),
            Kind::Pull | Kind::Report => !is_server(from) && is_server(to),
            Kind::List | Kind::Told => is_server(from) && !is_server(to),
            _ => is_server(from) && is_server(to),
        }
    }
}

fn is_server(actor: &Actor) -> bool
    ensures { result ≡ is_server actor.now }
{
    matches!(actor, Actor::Server(_))
}

fn is_another_server(from: &Actor, to: &Actor) -> bool
    ensures { result ≡ is_another_server from.now to.now }
{
    is_server(from) && is_server(to) && to != from
}

impl Field for Kind {
    ghost format = { λ _. kind };

    ghost lawful = { λ _. kind_lawful };

    fn read_at(
        _version: Version,
        _alloc: Global,
        bytes: &[u8],
        at: usize,
    ) -> Result<(Kind, usize), Refusal>
        ensures { GivesExactly result (kind.read bytes.now at) }
    {
        match read_u8(bytes, at)? {
            (1, next) => Ok((Kind::VoteRequest, next)),
            (2, next) => Ok((Kind::VoteReply, next)),
            (3, next) => Ok((Kind::Append, next)),
            (4, next) => Ok((Kind::AppendReply, next)),
            (5, next) => Ok((Kind::Install, next)),
            (6, next) => Ok((Kind::InstallReply, next)),
            (7, next) => Ok((Kind::Take, next)),
            (8, next) => Ok((Kind::Delivered, next)),
            (9, next) => Ok((Kind::Submit, next)),
            (10, next) => Ok((Kind::PlanResult, next)),
            (11, next) => Ok((Kind::Finish, next)),
            (12, next) => Ok((Kind::Nack, next)),
            (13, next) => Ok((Kind::Refused, next)),
            (14, next) => Ok((Kind::Register, next)),
            (15, next) => Ok((Kind::Heartbeat, next)),
            (16, next) => Ok((Kind::Pull, next)),
            (17, next) => Ok((Kind::List, next)),
            (18, next) => Ok((Kind::Report, next)),
            (19, next) => Ok((Kind::Told, next)),
            _ => Err(Refusal::Frame(at)),
        }
    }

    fn append(&self, out: &mut Vec<u8>) -> Result<(), NoMemory> {
        write_u8(&self.number(), out)
    }
}
