ghost use Rattle.std.specs.Prelude.{◌≡◌, true, IfOk, OnOk};
ghost use Rattle.fields_model.specs.Format.{Puts};
ghost use Rattle.wire.specs.Messages.{takes_memory, kind_of};
ghost use Rattle.wire.specs.Grammar.{body};
ghost use Rattle.wire.specs.Frames.{agrees};
ghost use Rattle.wire.specs.Inner.Readings.{AnswersBody};
ghost use Rattle.wire.specs.Inner.Said.{said_body, IsInRange};

use crate::append::{Append, AppendHead, AppendReply, append_append, read_append};
use crate::install::{Install, InstallHead, InstallReply, append_install, read_install};
use crate::kind::Kind;
use crate::services::{
    append_request, append_response, read_desk_body, request_kind, response_kind,
};
use crate::vote::{VoteReply, VoteRequest};
use fields::{Field, read_told_reason, write_told_reason};
use machine::{Coded, Entry, Machine};
use rows::{
    ClassName, ClientRequestKind, Index, Listing, NoMemory, Reason, Refusal, Reports, Size,
    Version, WorkerRequest, WorkerResponse,
};
use std::alloc::Global;

/// What a message says, by its kind.
#[derive(Drop)]
pub enum Body<M: Machine> {
    /// A candidate asks for a vote.
    VoteRequest(VoteRequest),
    /// The answer to a candidate.
    VoteReply(VoteReply),
    /// A leader sends entries.
    Append(Append<M>),
    /// The answer to a leader.
    AppendReply(AppendReply),
    /// A leader sends a state.
    Install(Install<M>),
    /// The answer to a leader that sent a state.
    InstallReply(InstallReply),
    /// What a server's workers ask of the leader's desk.
    Request(WorkerRequest),
    /// What the leader's desk answers.
    Response(WorkerResponse),
    /// A node's agent registers the node, of this class and size. (Nomad documentation,
    /// "Architecture".)
    Register(ClassName, Size),
    /// A node's agent says that the node is still there. (Nomad documentation, "server" block of
    /// the agent configuration: heartbeats.)
    Heartbeat,
    /// A node's agent asks which allocations the node is to run. (Nomad documentation,
    /// "Allocations".)
    Pull,
    /// The live allocations of the agent's node, in the state after this many entries.
    List(Index, Listing),
    /// A node's agent says what became of allocations.
    Report(Reports),
    /// Which request of an agent is answered: it is taken, or it is refused for this reason.
    Told(ClientRequestKind, Option<Reason>),
}

impl<M: Machine> Body<M> {
    /// The kind of the message.
    pub fn kind(&self) -> Kind
        ensures { result ≡ kind_of self.now }
    {
        match self {
            Body::VoteRequest(_) => Kind::VoteRequest,
            Body::VoteReply(_) => Kind::VoteReply,
            Body::Append(_) => Kind::Append,
            Body::AppendReply(_) => Kind::AppendReply,
            Body::Install(_) => Kind::Install,
            Body::InstallReply(_) => Kind::InstallReply,
            Body::Request(request) => request_kind(request),
            Body::Response(response) => response_kind(response),
            Body::Register(_, _) => Kind::Register,
            Body::Heartbeat => Kind::Heartbeat,
            Body::Pull => Kind::Pull,
            Body::List(_, _) => Kind::List,
            Body::Report(_) => Kind::Report,
            Body::Told(_, _) => Kind::Told,
        }
    }
}

/// The body of a message of this kind, and the place after it. An Install takes the rest of the
/// bytes.
pub fn read_body<M: Machine>(
    alloc: Global,
    kind: Kind,
    bytes: &[u8],
    at: usize,
) -> Result<(Body<M>, usize), Refusal>
    // Memory is wanted for a kind that holds a list or a state alone.
    ensures value { AnswersBody M.spec (takes_memory kind ≡ true) (λ b. b) bytes.now at result
        ((body M.spec kind).read bytes.now at) }
    ensures same_kind { IfOk result (λ b. kind_of b.0 ≡ kind) }
{
    let version = Version::newest();
    match kind {
        Kind::VoteRequest => {
            let (request, end) = VoteRequest::read_at(version, alloc, bytes, at)?;
            Ok((Body::VoteRequest(request), end))
        }
        Kind::VoteReply => {
            let (reply, end) = VoteReply::read_at(version, alloc, bytes, at)?;
            Ok((Body::VoteReply(reply), end))
        }
        Kind::Append => {
            let (append, end) = read_append(alloc, bytes, at)?;
            Ok((Body::Append(append), end))
        }
        Kind::AppendReply => {
            let (reply, end) = AppendReply::read_at(version, alloc, bytes, at)?;
            Ok((Body::AppendReply(reply), end))
        }
        Kind::Install => {
            let (install, end) = read_install(alloc, bytes, at)?;
            Ok((Body::Install(install), end))
        }
        Kind::InstallReply => {
            let (reply, end) = InstallReply::read_at(version, alloc, bytes, at)?;
            Ok((Body::InstallReply(reply), end))
        }
        Kind::Register => {
            let (class, at) = ClassName::read_at(version, alloc, bytes, at)?;
            let (size, end) = Size::read_at(version, alloc, bytes, at)?;
            Ok((Body::Register(class, size), end))
        }
        Kind::Heartbeat => Ok((Body::Heartbeat, at)),
        Kind::Pull => Ok((Body::Pull, at)),
        Kind::List => {
            let (index, at) = Index::read_at(version, alloc, bytes, at)?;
            let (rows, end) = Listing::read_at(version, alloc, bytes, at)?;
            Ok((Body::List(index, rows), end))
        }
        Kind::Report => {
            let (items, end) = Reports::read_at(version, alloc, bytes, at)?;
            Ok((Body::Report(items), end))
        }
        Kind::Told => {
            let (asked, at) = ClientRequestKind::read_at(version, alloc, bytes, at)?;
            let (reason, end) = read_told_reason(bytes, at)?;
            Ok((Body::Told(asked, reason), end))
        }
        _ => read_desk_body(alloc, kind, bytes, at),
    }
}

/// Puts the body to the end.
#[inline(never)]
pub fn append_body<M: Machine>(value: &Body<M>, out: &mut Vec<u8>) -> Result<(), NoMemory>
    ensures value { Puts (body M.spec (kind_of value.now)) value.now
        result out.old.items out.new.items }
    ensures agrees { OnOk result (agrees M.spec value.now ≡ true) }
{
    match value {
        Body::VoteRequest(request) => request.append(out),
        Body::VoteReply(reply) => reply.append(out),
        Body::Append(append) => append_append(&append.head(), append.entries(), out),
        Body::AppendReply(reply) => reply.append(out),
        Body::Install(install) => append_install(&install.head(), install.state(), out),
        Body::InstallReply(reply) => reply.append(out),
        Body::Request(request) => append_request::<M>(request, out),
        Body::Response(response) => append_response::<M>(response, out),
        Body::Register(class, size) => {
            class.append(out)?;
            size.append(out)
        }
        Body::Heartbeat | Body::Pull => Ok(()),
        Body::List(index, rows) => {
            index.append(out)?;
            rows.append(out)
        }
        Body::Report(items) => items.append(out),
        Body::Told(asked, reason) => {
            asked.append(out)?;
            write_told_reason(reason, out)
        }
    }
}

/// What is to be sent: a body, or the parts of one that stay where they are, as entries in a log,
/// or the state that a log begins with.
#[derive(Drop)]
pub enum Said<'a, M: Machine> {
    /// A body.
    Body(&'a Body<M>),
    /// The answer to a leader.
    Answer(&'a AppendReply),
    /// The parts of an `Append`.
    Entries(&'a AppendHead, &'a [Entry<Coded<M>>]),
    /// The parts of an `Install`.
    State(&'a InstallHead, &'a M),
}

impl<'a, M: Machine> Said<'a, M> {
    /// The kind of the message.
    pub fn kind(&self) -> Kind
        ensures { result ≡ kind_of (said_body self.now) }
    {
        match self {
            Said::Body(body) => body.kind(),
            Said::Answer(_) => Kind::AppendReply,
            Said::Entries(_, _) => Kind::Append,
            Said::State(_, _) => Kind::Install,
        }
    }
}

/// Puts what is said to the end.
#[inline(always)]
pub fn append_said<M: Machine>(said: &Said<'_, M>, out: &mut Vec<u8>) -> Result<(), NoMemory>
    requires { IsInRange M.spec said.now }
    ensures value { Puts (body M.spec (kind_of (said_body said.now))) (said_body said.now)
        result out.old.items out.new.items }
    ensures agrees { OnOk result (agrees M.spec (said_body said.now) ≡ true) }
{
    match said {
        Said::Body(body) => append_body(body, out),
        Said::Answer(reply) => reply.append(out),
        Said::Entries(head, entries) => append_append(head, entries, out),
        Said::State(head, state) => append_install(head, *state, out),
    }
}
