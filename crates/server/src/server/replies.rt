//! Messages that the server sends beside the log's.
ghost use Rattle.std.specs.Prelude.{◌≡◌, option_map, OnOk, OnErr};
ghost use Rattle.rows.specs.declared.worker.WorkerResponse.TheVariants as responses;
ghost use Rattle.rows.specs.Reasons.{reason_of};
ghost use Rattle.group_model.specs.Messages.{BetweenServers, ToClient, Asks, Answers};
ghost use Rattle.group_model.specs.Messages.{Listing as Lists};
ghost use Rattle.group_model.specs.ClientRequests.{tells};
ghost use Rattle.server.specs.Inner.Replies.{SendsOne};

use fsm_state::Cluster;
use rows::{
    AskedRequest, ClientId, ClientRequestKind, Index, Listing, NoMemory, Reason, Refusal, ServerId,
    WorkerRequest, WorkerResponse,
};
use wire::{Body, Frames, Message};

/// What a server's workers ask of another one's desk, or of its own.
pub(super) fn send_request(
    frames: &mut Frames,
    from: ServerId,
    to: ServerId,
    request: WorkerRequest,
) -> Result<(), NoMemory>
    ensures sent { let message = BetweenServers from to (Asks request) in
        OnOk result (SendsOne frames.old frames.new message) }
    ensures unsent { OnErr result (frames.new ≡ frames.old) }
{
    let body: Body<Cluster> = Body::Request(request);
    let message = Message::between(from, to, body);
    frames.send(&message)
}

/// What a server's desk answers to the workers of another one, or to its own.
pub(super) fn send_response(
    frames: &mut Frames,
    from: ServerId,
    to: ServerId,
    response: WorkerResponse,
) -> Result<(), NoMemory>
    ensures sent { let message = BetweenServers from to (Answers response) in
        OnOk result (SendsOne frames.old frames.new message) }
    ensures unsent { OnErr result (frames.new ≡ frames.old) }
{
    let body: Body<Cluster> = Body::Response(response);
    let message = Message::between(from, to, body);
    frames.send(&message)
}

/// That a request of workers is refused.
pub(super) fn send_refusal(
    frames: &mut Frames,
    from: ServerId,
    to: ServerId,
    asked: AskedRequest,
    refusal: Refusal,
) -> Result<(), NoMemory>
    ensures sent { let response = responses.Refused asked (reason_of refusal) in
        OnOk result (SendsOne frames.old frames.new (BetweenServers from to (Answers response))) }
    ensures unsent { OnErr result (frames.new ≡ frames.old) }
{
    let response = WorkerResponse::Refused(asked, Reason::of(refusal));
    send_response(frames, from, to, response)
}

/// Why a client's request is refused, as a message tells it.
fn told_reason(refusal: Option<Refusal>) -> Option<Reason>
    ensures { result ≡ option_map reason_of refusal }
{
    match refusal {
        Some(refusal) => Some(Reason::of(refusal)),
        None => None,
    }
}

/// That a client's request is taken, or why it is refused.
pub(super) fn send_told(
    frames: &mut Frames,
    from: ServerId,
    to: ClientId,
    kind: ClientRequestKind,
    refusal: Option<Refusal>,
) -> Result<(), NoMemory>
    ensures sent { OnOk result (SendsOne frames.old frames.new (tells from to kind refusal)) }
    ensures unsent { OnErr result (frames.new ≡ frames.old) }
{
    let body: Body<Cluster> = Body::Told(kind, told_reason(refusal));
    let message = Message::to_client(from, to, body);
    frames.send(&message)
}

/// The live allocations of a client's node, in the state of this index.
pub(super) fn send_listing(
    frames: &mut Frames,
    from: ServerId,
    to: ClientId,
    index: Index,
    rows: Listing,
) -> Result<(), NoMemory>
    ensures sent { let message = ToClient from to (Lists index rows) in
        OnOk result (SendsOne frames.old frames.new message) }
    ensures unsent { OnErr result (frames.new ≡ frames.old) }
{
    let body: Body<Cluster> = Body::List(index, rows);
    let message = Message::to_client(from, to, body);
    frames.send(&message)
}
