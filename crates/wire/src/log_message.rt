//! Messages by which servers keep one log. They are most of what is sent, and small: a value of
//! them has no room for a plan or a list, which a `Message` has.
ghost use Rattle.std.specs.Prelude.{◌≡◌, true, IfErr, IfOk, Ok};
ghost use Rattle.rows.specs.declared.actor.Actor.TheVariants as actors;
ghost use Rattle.rows.specs.declared.refusal.Refusal.TheVariants as refusals;
ghost use Rattle.fields_model.specs.Format.{Answers, Gives};
ghost use Rattle.wire.specs.declared.kind.Kind.TheVariants as kinds;
ghost use Rattle.wire.specs.Messages.{Message as MessageOf, is_another_server, is_of_log, is_server, kind_of, log_body, may_go, takes_memory};
ghost use Rattle.wire.specs.Frames.{IsFrame, MessageFits, frame_takes_memory, is_log_frame, message_at, message_text};
ghost use Rattle.wire.specs.Grammar.{body};
ghost use Rattle.wire.specs.Inner.Readings.{AnswersBody};

use crate::append::{Append, AppendReply, read_append};
use crate::header::read_header;
use crate::install::{Install, InstallReply, read_install};
use crate::kind::Kind;
use crate::reading::read_size;
use crate::vote::{VoteReply, VoteRequest};
use fields::{Field, read_u8};
use machine::Machine;
use rows::{Actor, Refusal, ServerId, Version};
use std::alloc::Global;
use std::marker::Model;

/// What a message by which servers keep one log says, by its kind.
#[derive(Drop)]
pub enum LogBody<M: Machine> {
    /// A candidate asks for a vote.
    VoteRequest(VoteRequest),
    /// The answer to a candidate.
    VoteReply(VoteReply),
    /// A leader sends entries.
    Append(Append<M>),
    /// The answer to a leader.
    AppendReply(AppendReply),
    /// A leader sends a state. It stands apart, since it is rare, and large where the machine is.
    Install(Box<Install<M>>),
    /// The answer to a leader that sent a state.
    InstallReply(InstallReply),
}

/// A message of one server to another by which they keep one log, in a group that replicates the
/// machine `M`.
#[derive(Drop)]
pub struct LogMessage<M: Machine> {
    from: ServerId,
    to: ServerId,
    body: LogBody<M>,
}

impl<M: Machine> Model for LogMessage<M> {
    ghost use Rattle.std.specs.Prelude.{◌≡◌, true};
    ghost use Rattle.rows.specs.declared.actor.Actor.TheVariants as actors;
    ghost use Rattle.wire.specs.Messages.{Message, is_another_server, log_body};

    ghost Value = { Message M M.Command };

    ghost view = { λ m. record { from = actors.Server m.from; to = actors.Server m.to; body = log_body m.body } };

    ghost invariant = { λ m. is_another_server (actors.Server m.from) (actors.Server m.to) ≡ true };
}

impl<M: Machine> LogMessage<M> {
    /// Who sends it.
    pub fn from(&self) -> ServerId
        ensures { self.now.from ≡ actors.Server result }
    {
        self.from
    }

    /// Who receives it.
    pub fn to(&self) -> ServerId
        ensures { self.now.to ≡ actors.Server result }
    {
        self.to
    }

    /// What it says, for keeps.
    pub fn into_body(self) -> LogBody<M>
        ensures value { self.body ≡ log_body result }
        ensures allowed { is_another_server self.from self.to ≡ true }
    {
        let LogMessage { body, .. } = self;
        body
    }
}

/// Whether some bytes say, by the second of them, that they are the frame of a message by which
/// servers keep one log. Whether they are one, `read_log_message` finds.
pub fn is_log_frame(bytes: &[u8]) -> bool
    ensures { result ≡ is_log_frame bytes.now }
{
    match read_u8(bytes, 1) {
        Ok((kind, _)) => 1 <= kind && kind <= 6,
        Err(_) => false,
    }
}

// The body of an `Install`, and the place after it. Its state is large where the machine is, and room
// for it is cleared: so this stands apart from what all other messages go through.
#[inline(never)]
fn read_install_body<M: Machine>(
    alloc: Global,
    bytes: &[u8],
    at: usize,
) -> Result<(LogBody<M>, usize), Refusal>
    ensures { AnswersBody M.spec (takes_memory kinds.Install ≡ true) (λ b. log_body b)
        bytes.now at result ((body M.spec kinds.Install).read bytes.now at) }
{
    let (install, end) = read_install(alloc, bytes, at)?;
    Ok((LogBody::Install(Box::new(alloc, install)?), end))
}

// The body of a message of this kind, and the place after it.
#[inline(always)]
fn read_log_body<M: Machine>(
    alloc: Global,
    kind: Kind,
    bytes: &[u8],
    at: usize,
) -> Result<(LogBody<M>, usize), Refusal>
    requires { is_of_log kind ≡ true }
    ensures { AnswersBody M.spec (takes_memory kind ≡ true) (λ b. log_body b) bytes.now at result
        ((body M.spec kind).read bytes.now at) }
{
    let version = Version::newest();
    match kind {
        Kind::VoteRequest => {
            let (request, end) = VoteRequest::read_at(version, alloc, bytes, at)?;
            Ok((LogBody::VoteRequest(request), end))
        }
        Kind::VoteReply => {
            let (reply, end) = VoteReply::read_at(version, alloc, bytes, at)?;
            Ok((LogBody::VoteReply(reply), end))
        }
        Kind::Append => {
            let (append, end) = read_append(alloc, bytes, at)?;
            Ok((LogBody::Append(append), end))
        }
        Kind::AppendReply => {
            let (reply, end) = AppendReply::read_at(version, alloc, bytes, at)?;
            Ok((LogBody::AppendReply(reply), end))
        }
        Kind::Install => read_install_body(alloc, bytes, at),
        Kind::InstallReply => {
            let (reply, end) = InstallReply::read_at(version, alloc, bytes, at)?;
            Ok((LogBody::InstallReply(reply), end))
        }
        _ => unreachable!(),
    }
}

// The server that an actor is.
fn server_of(actor: &Actor) -> ServerId
    requires { is_server actor.now ≡ true }
    ensures { actor.now ≡ actors.Server result }
{
    match actor {
        Actor::Server(server) => *server,
        Actor::Client(_) => unreachable!(),
    }
}

// The message of a frame by which servers keep one log, or its first fault.
#[tactic(auto, unfolding(crate::specs::Frames::message_at), using(crate::proofs::LogFrames::log_kind, crate::proofs::LogFrames::log_goes))]
#[inline(always)]
fn read_log_frame<M: Machine>(alloc: Global, bytes: &[u8]) -> Result<LogMessage<M>, Refusal>
    requires { is_log_frame bytes.now ≡ true }
    ensures exact { Answers (frame_takes_memory bytes.now ≡ true) result
        (message_at M.spec bytes.now) }
    ensures log { IfOk result (λ m. is_of_log (kind_of m.body) ≡ true) }
    ensures allowed { IfOk result (λ m. may_go (kind_of m.body) m.from m.to ≡ true) }
{
    let (header, at) = read_header(alloc, bytes, 0)?;
    let (_, at) = read_size(bytes, at)?;
    let (body, end) = read_log_body(alloc, header.kind, bytes, at)?;
    if end != bytes.len() {
        return Err(Refusal::Frame(end));
    }
    Ok(LogMessage {
        from: server_of(&header.from),
        to: server_of(&header.to),
        body,
    })
}

/// The message of a frame by which servers keep one log, which must be all of the bytes. What is no
/// frame is refused as by `read_message`.
#[inline(always)]
pub fn read_log_message<M: Machine>(alloc: Global, bytes: &[u8]) -> Result<LogMessage<M>, Refusal>
    requires { is_log_frame bytes.now ≡ true }
    // What is read has just these bytes.
    ensures found { IfOk result (λ m. IsFrame M.spec m bytes.now) }
    // A message's bytes are read, unless memory runs out.
    ensures only { (m : MessageOf M M.Command) → MessageFits M.spec m
        → bytes.now ≡ message_text M.spec m → Gives result (Ok m) }
    // Which field is at fault.
    ensures exact { Gives result (message_at M.spec bytes.now) }
    // Memory can run out only where the second byte says that there is a list or a state.
    ensures memory { IfErr result (λ e. e ≡ refusals.NoMemory
        → frame_takes_memory bytes.now ≡ true) }
    // It is one by which servers keep one log, and goes where such go.
    ensures log { IfOk result (λ m. is_of_log (kind_of m.body) ≡ true) }
    ensures allowed { IfOk result (λ m. may_go (kind_of m.body) m.from m.to ≡ true) }
{
    read_log_frame(alloc, bytes)
}
