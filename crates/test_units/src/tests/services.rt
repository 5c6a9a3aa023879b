//! Messages of workers, the leader's desk and agents: the bytes of a value of each kind, put
//! together by hand from the format, and where other bytes are at fault.
use crate::tests::lines::put_many;
use crate::tests::service_frames::{
    BLOCKED, COMPLETE, DELIVERED, EACH, HEARTBEAT, LIST, LONGEST, MOST_LISTED, NACK, NONE_LISTED,
    NOTHING, PULL, REGISTER, REPORT, REPORT_REFUSED, RESULT, SUBMIT, SUBMIT_REFUSED, TAKE,
    TAKE_REFUSED, TAKEN, UNKNOWN_LISTED,
};
use crate::tests::texts::NONE;
use machine::Tally;
use rows::{
    Actor, AllocId, AskedRequest, Batch, ClientId, ClientRequestKind, Delivery, EntryIndex, EvalId,
    EvalOutcome, Index, Leader, LeaderTerm, ListedAllocation, Listing, LiveState, Name, NodeId,
    Ordinal, Place, PlaceCount, Plan, PlanResult, Reason, Refusal, Report, ReportedState, Reports,
    RisingNodes, Sequence, Serial, ServerId, Size, Token, WorkerRequest, WorkerResponse,
};
use std::alloc::Global;
use wire::{Body, Kind, Message, read_message, write_message};

/// What is no fault of the bytes: memory was wanting, or the message that is read is written
/// otherwise.
const WRONG: usize = usize::MAX - 1;

/// A message that is put together here: who sends it to whom, as a frame says it, and what it says.
#[derive(Clone, Copy)]
enum Of {
    Take,
    Delivered,
    None,
    Submit,
    PlanResult,
    Blocked,
    Complete,
    Nack,
    TakeRefused,
    SubmitRefused,
    Register,
    Heartbeat,
    Pull,
    List,
    NoneListed,
    UnknownListed,
    Report,
    Taken,
    ReportRefused,
}

/// A message, its kind, its frame, and where the fields of its body begin.
type Row = (Of, Kind, &'static [u8], &'static [usize]);

const ROWS: &[Row] = &[
    (Of::Take, Kind::Take, TAKE, &[]),
    (
        Of::Delivered,
        Kind::Delivered,
        DELIVERED,
        &[8, 9, 17, 19, 27, 35],
    ),
    (Of::None, Kind::Delivered, NOTHING, &[8]),
    (
        Of::Submit,
        Kind::Submit,
        SUBMIT,
        &[8, 16, 18, 26, 34, 38, 46, 54, 55, 63, 64, 65, 67, 68],
    ),
    (
        Of::PlanResult,
        Kind::PlanResult,
        RESULT,
        &[8, 16, 18, 26, 34, 42, 43, 44, 45],
    ),
    (Of::Blocked, Kind::Finish, BLOCKED, &[8, 16, 18, 26, 34, 35]),
    (
        Of::Complete,
        Kind::Finish,
        COMPLETE,
        &[8, 16, 18, 26, 34, 35],
    ),
    (Of::Nack, Kind::Nack, NACK, &[8, 16, 18, 26]),
    (
        Of::TakeRefused,
        Kind::Refused,
        TAKE_REFUSED,
        &[8, 9, 10, 11],
    ),
    (
        Of::SubmitRefused,
        Kind::Refused,
        SUBMIT_REFUSED,
        &[8, 9, 10, 18, 20, 28, 36, 37],
    ),
    (Of::Register, Kind::Register, REGISTER, &[8, 14, 18, 22]),
    (Of::Heartbeat, Kind::Heartbeat, HEARTBEAT, &[]),
    (Of::Pull, Kind::Pull, PULL, &[]),
    (
        Of::List,
        Kind::List,
        LIST,
        &[8, 16, 20, 28, 29, 33, 37, 41, 42, 50, 51, 55, 59, 63],
    ),
    (Of::NoneListed, Kind::List, NONE_LISTED, &[8, 16]),
    (
        Of::UnknownListed,
        Kind::List,
        UNKNOWN_LISTED,
        &[8, 16, 20, 28, 29, 33, 37, 41],
    ),
    (
        Of::Report,
        Kind::Report,
        REPORT,
        &[8, 9, 17, 18, 19, 27, 28, 29, 37, 38],
    ),
    (Of::Taken, Kind::Told, TAKEN, &[8, 9, 10]),
    (Of::ReportRefused, Kind::Told, REPORT_REFUSED, &[8, 9, 10]),
];

/// A frame; the place of one byte and another value there; and where it is at fault then.
type Change = (&'static [u8], usize, u8, usize);

const CHANGES: &[Change] = &[
    // A kind that is none.
    (TAKE, 1, 0, 1),
    (TAKE, 1, 20, 1),
    (TAKE, 1, 255, 1),
    // The body as that of another kind, where the sender and the receiver are of its sort.
    (TAKE, 1, 15, 2),
    (TAKE, 1, 16, 2),
    (TAKE, 1, 17, 3),
    (TAKE, 1, 18, 2),
    (HEARTBEAT, 1, 7, 2),
    (HEARTBEAT, 1, 14, 8),
    (HEARTBEAT, 1, 16, NONE),
    (HEARTBEAT, 1, 17, 2),
    (HEARTBEAT, 1, 18, 8),
    (HEARTBEAT, 1, 19, 2),
    (PULL, 1, 15, NONE),
    (LIST, 1, 8, 3),
    (LIST, 1, 15, 2),
    (LIST, 1, 18, 2),
    (LIST, 1, 19, 8),
    (REPORT, 1, 15, 8),
    (REPORT, 1, 16, 8),
    (REPORT, 1, 17, 2),
    // A sender or a receiver of the wrong sort; a server may send to itself and to others, but of
    // the kinds of the log to others alone.
    (TAKE, 1, 5, 3),
    (TAKE, 1, 6, 3),
    (TAKE, 2, 129, 2),
    (TAKE, 3, 129, 3),
    (TAKE, 3, 5, NONE),
    (DELIVERED, 2, 129, 2),
    (DELIVERED, 3, 129, 3),
    (DELIVERED, 3, 1, NONE),
    (SUBMIT, 2, 129, 2),
    (SUBMIT, 3, 129, 3),
    (SUBMIT, 2, 1, NONE),
    (RESULT, 2, 129, 2),
    (RESULT, 3, 129, 3),
    (RESULT, 3, 1, NONE),
    (BLOCKED, 2, 129, 2),
    (BLOCKED, 3, 129, 3),
    (BLOCKED, 2, 1, NONE),
    (NACK, 2, 129, 2),
    (NACK, 3, 129, 3),
    (NACK, 2, 1, NONE),
    (TAKE_REFUSED, 2, 129, 2),
    (TAKE_REFUSED, 3, 129, 3),
    (TAKE_REFUSED, 3, 1, NONE),
    (REGISTER, 2, 1, 2),
    (REGISTER, 3, 130, 3),
    (HEARTBEAT, 2, 1, 2),
    (HEARTBEAT, 2, 128, 2),
    (HEARTBEAT, 2, 192, NONE),
    (HEARTBEAT, 2, 193, 2),
    (HEARTBEAT, 3, 0, 3),
    (HEARTBEAT, 3, 129, 3),
    (HEARTBEAT, 3, 5, NONE),
    (HEARTBEAT, 3, 6, 3),
    (PULL, 2, 5, 2),
    (PULL, 3, 192, 3),
    (PULL, 3, 1, NONE),
    (LIST, 2, 129, 2),
    (LIST, 2, 5, NONE),
    (LIST, 3, 1, 3),
    (LIST, 3, 192, NONE),
    (REPORT, 2, 1, 2),
    (REPORT, 2, 192, NONE),
    (REPORT, 3, 129, 3),
    (REPORT, 3, 5, NONE),
    (TAKEN, 2, 129, 2),
    (TAKEN, 3, 1, 3),
    // The version, and the length of the body.
    (HEARTBEAT, 0, 0, 0),
    (HEARTBEAT, 7, 1, 4),
    (PULL, 0, 1, 0),
    (PULL, 0, 2, 0),
    (PULL, 4, 1, 4),
    (LIST, 0, 4, 0),
    (LIST, 7, 55, 4),
    (REPORT, 0, 2, 0),
    (REPORT, 7, 32, 4),
    // An evaluation for a worker: the option's tag, the evaluation, the token, the index.
    (DELIVERED, 8, 2, 8),
    (DELIVERED, 8, 0, 9),
    (DELIVERED, 16, 0, 9),
    (DELIVERED, 11, 1, 9),
    (DELIVERED, 17, 1, 17),
    (DELIVERED, 26, 0, 19),
    (DELIVERED, 34, 0, 27),
    (DELIVERED, 35, 1, 35),
    (DELIVERED, 42, 0, NONE),
    (NOTHING, 8, 1, 9),
    // A plan: its counts are at most 64, and are read.
    (SUBMIT, 15, 0, 8),
    (SUBMIT, 16, 1, 16),
    (SUBMIT, 25, 0, 18),
    (SUBMIT, 33, 0, 26),
    (SUBMIT, 34, 0, 34),
    (SUBMIT, 34, 33, 34),
    (SUBMIT, 35, 65, 34),
    (SUBMIT, 38, 1, 38),
    (SUBMIT, 46, 1, 46),
    (SUBMIT, 54, 0, 56),
    (SUBMIT, 54, 2, 64),
    (SUBMIT, 54, 65, 54),
    (SUBMIT, 62, 0, 55),
    (SUBMIT, 63, 63, NONE),
    (SUBMIT, 63, 64, 63),
    (SUBMIT, 64, 0, 65),
    (SUBMIT, 64, 2, 69),
    (SUBMIT, 64, 64, 69),
    (SUBMIT, 64, 65, 64),
    (SUBMIT, 65, 0, 65),
    (SUBMIT, 66, 65, 65),
    (SUBMIT, 67, 64, 67),
    (SUBMIT, 68, 0, 68),
    (SUBMIT, 68, 65, 68),
    // What became of a plan: nodes rise strictly, and their count is read up to 255.
    (RESULT, 15, 0, 8),
    (RESULT, 25, 0, 18),
    (RESULT, 34, 1, 34),
    (RESULT, 42, 65, 42),
    (RESULT, 42, 0, NONE),
    (RESULT, 43, 1, 45),
    (RESULT, 43, 3, 46),
    (RESULT, 43, 255, 46),
    (RESULT, 44, 0, 44),
    (RESULT, 44, 65, 44),
    (RESULT, 44, 64, 45),
    (RESULT, 45, 3, 45),
    (RESULT, 45, 2, 45),
    (RESULT, 45, 65, 45),
    (RESULT, 45, 4, NONE),
    // How an evaluation ends: the snapshot is 0 unless it is blocked.
    (BLOCKED, 15, 0, 8),
    (BLOCKED, 33, 0, 26),
    (BLOCKED, 34, 0, 34),
    (BLOCKED, 34, 4, 34),
    (BLOCKED, 34, 2, 35),
    (BLOCKED, 34, 3, 35),
    (BLOCKED, 35, 1, 35),
    (BLOCKED, 42, 0, NONE),
    (COMPLETE, 34, 1, NONE),
    (COMPLETE, 34, 3, NONE),
    (COMPLETE, 42, 1, 35),
    // An evaluation that is given back.
    (NACK, 15, 0, 8),
    (NACK, 16, 1, 16),
    (NACK, 25, 0, 18),
    (NACK, 33, 0, 26),
    // A refusal: no evaluation exactly for a take, and a leader only of number 2.
    (TAKE_REFUSED, 8, 0, 8),
    (TAKE_REFUSED, 8, 8, 8),
    (TAKE_REFUSED, 8, 10, 8),
    (TAKE_REFUSED, 8, 13, 8),
    (TAKE_REFUSED, 8, 9, 9),
    (TAKE_REFUSED, 9, 1, 9),
    (TAKE_REFUSED, 9, 2, 9),
    (TAKE_REFUSED, 10, 0, 10),
    (TAKE_REFUSED, 10, 22, 10),
    (TAKE_REFUSED, 10, 1, 11),
    (TAKE_REFUSED, 10, 3, 11),
    (TAKE_REFUSED, 11, 0, NONE),
    (TAKE_REFUSED, 11, 5, NONE),
    (TAKE_REFUSED, 11, 6, 11),
    (SUBMIT_REFUSED, 8, 7, 9),
    (SUBMIT_REFUSED, 8, 11, NONE),
    (SUBMIT_REFUSED, 8, 12, NONE),
    (SUBMIT_REFUSED, 9, 0, 9),
    (SUBMIT_REFUSED, 9, 2, 9),
    (SUBMIT_REFUSED, 17, 0, 10),
    (SUBMIT_REFUSED, 18, 1, 18),
    (SUBMIT_REFUSED, 27, 0, 20),
    (SUBMIT_REFUSED, 35, 0, 28),
    (SUBMIT_REFUSED, 36, 0, 36),
    (SUBMIT_REFUSED, 36, 1, NONE),
    (SUBMIT_REFUSED, 36, 2, NONE),
    (SUBMIT_REFUSED, 36, 21, NONE),
    (SUBMIT_REFUSED, 36, 22, 36),
    (SUBMIT_REFUSED, 37, 1, 37),
];

/// The same of what clients and servers tell each other, in the body of a frame.
const CLIENT_CHANGES: &[Change] = &[
    // A node that registers: its class and size.
    (REGISTER, 8, 0, 8),
    (REGISTER, 8, 33, 8),
    (REGISTER, 9, 76, 8),
    (REGISTER, 14, 1, 14),
    (REGISTER, 18, 1, 18),
    (REGISTER, 22, 1, 22),
    (REGISTER, 25, 0, NONE),
    // What an agent is shown: at most 65,536 allocations, whose ids rise strictly, and of each what
    // is known.
    (LIST, 8, 1, 8),
    (LIST, 10, 1, 8),
    (LIST, 11, 1, NONE),
    (LIST, 15, 0, NONE),
    (LIST, 16, 1, 16),
    (LIST, 17, 1, 16),
    (LIST, 18, 1, 64),
    (LIST, 19, 0, 20),
    (LIST, 19, 1, 42),
    (LIST, 19, 3, 64),
    (MOST_LISTED, 19, 0, 20),
    (MOST_LISTED, 19, 1, 16),
    (LIST, 22, 1, 20),
    (LIST, 27, 0, 20),
    (LIST, 27, 9, 42),
    (LIST, 28, 62, NONE),
    (LIST, 28, 63, 42),
    (LIST, 28, 64, 28),
    (LIST, 29, 1, 29),
    (LIST, 33, 1, 33),
    (LIST, 37, 1, 37),
    (LIST, 40, 1, NONE),
    (LIST, 41, 1, NONE),
    (LIST, 41, 2, NONE),
    (LIST, 41, 3, 41),
    (LIST, 44, 1, 42),
    (LIST, 49, 0, 42),
    (LIST, 49, 7, 42),
    (LIST, 49, 9, NONE),
    (LIST, 50, 0, 42),
    (LIST, 50, 1, NONE),
    (LIST, 50, 64, 50),
    (LIST, 54, 0, 51),
    (LIST, 58, 63, NONE),
    (LIST, 58, 65, 55),
    (LIST, 62, 63, NONE),
    (LIST, 62, 65, 59),
    (LIST, 63, 0, NONE),
    (LIST, 63, 2, NONE),
    (LIST, 63, 3, 63),
    (LIST, 63, 255, 63),
    (NONE_LISTED, 19, 1, 20),
    (UNKNOWN_LISTED, 41, 0, NONE),
    (UNKNOWN_LISTED, 41, 1, NONE),
    (UNKNOWN_LISTED, 41, 3, 41),
    (UNKNOWN_LISTED, 41, 5, 41),
    // What an agent reports: 1 to 64 items.
    (REPORT, 8, 0, 8),
    (REPORT, 8, 1, 19),
    (REPORT, 8, 2, 29),
    (REPORT, 8, 4, 39),
    (REPORT, 8, 64, 39),
    (REPORT, 8, 65, 8),
    (REPORT, 8, 255, 8),
    (REPORT, 11, 1, 9),
    (REPORT, 16, 0, 9),
    (REPORT, 17, 64, 17),
    (REPORT, 18, 0, 18),
    (REPORT, 18, 1, NONE),
    (REPORT, 18, 3, NONE),
    (REPORT, 18, 4, 18),
    (REPORT, 21, 1, 19),
    (REPORT, 26, 0, 19),
    (REPORT, 26, 1, NONE),
    (REPORT, 27, 1, NONE),
    (REPORT, 27, 64, 27),
    (REPORT, 28, 0, 28),
    (REPORT, 28, 4, 28),
    (REPORT, 38, 0, 38),
    (REPORT, 38, 4, 38),
    // The answer to an agent: 0 where its request is taken.
    (TAKEN, 8, 13, 8),
    (TAKEN, 8, 15, NONE),
    (TAKEN, 8, 16, 8),
    (TAKEN, 8, 17, 8),
    (TAKEN, 8, 18, NONE),
    (TAKEN, 8, 19, 8),
    (TAKEN, 9, 21, NONE),
    (TAKEN, 9, 22, 9),
    (TAKEN, 10, 1, 10),
    (REPORT_REFUSED, 9, 0, NONE),
    (REPORT_REFUSED, 10, 5, NONE),
    (REPORT_REFUSED, 10, 6, 10),
];

fn fault_of(alloc: Global, bytes: &[u8]) -> usize {
    match read_message::<Tally>(alloc, bytes) {
        Err(Refusal::Frame(place)) => place,
        Err(_) => WRONG,
        Ok(message) => {
            let mut again = Vec::new(alloc);
            let written = write_message(&message, &mut again);
            if written.is_ok() && again.as_slice() == bytes {
                NONE
            } else {
                WRONG
            }
        }
    }
}

fn eval_of(index: u64, slot: u8) -> Option<EvalId> {
    let index = EntryIndex::new(index)?;
    Some(EvalId { index, slot })
}

fn token_of(serial: u64) -> Option<Token> {
    let term = LeaderTerm::new(1)?;
    let serial = Serial::new(serial)?;
    Some(Token { term, serial })
}

fn stops_of(alloc: Global) -> Option<Batch<AllocId>> {
    let index = EntryIndex::new(3)?;
    let slot = Ordinal::new(2)?;
    let mut stops = Sequence::new(alloc);
    stops.push(AllocId { index, slot }).ok()?;
    Batch::check(stops).ok()
}

fn places_of(alloc: Global) -> Option<Batch<Place>> {
    let group = Name::from_bytes(b"a")?;
    let node = NodeId::from_number(7)?;
    let index = Ordinal::new(0)?;
    let mut places = Sequence::new(alloc);
    places.push(Place { group, index, node }).ok()?;
    Batch::check(places).ok()
}

fn plan_of(alloc: Global, eval: EvalId, token: Token) -> Option<Plan> {
    let job = Name::from_bytes(b"web")?;
    let version = Index::new(2)?;
    let snapshot = Index::new(5)?;
    let stops = stops_of(alloc)?;
    let places = places_of(alloc)?;
    Some(Plan {
        eval,
        token,
        job,
        version,
        snapshot,
        stops,
        places,
    })
}

fn result_of(alloc: Global, eval: EvalId, token: Token) -> Option<PlanResult> {
    let last = Index::new(9)?;
    let placed = PlaceCount::new(64)?;
    let mut nodes = Sequence::new(alloc);
    nodes.push(NodeId::from_number(3)?).ok()?;
    nodes.push(NodeId::from_number(64)?).ok()?;
    let refused = RisingNodes::check(nodes).ok()?;
    Some(PlanResult {
        eval,
        token,
        last,
        placed,
        refused,
    })
}

fn delivery_of(eval: EvalId, token: Token) -> Option<Delivery> {
    let wait = Index::new(4)?;
    Some(Delivery { eval, token, wait })
}

fn request(asked: WorkerRequest) -> Option<Body<Tally>> {
    Some(Body::Request(asked))
}

fn response(answer: WorkerResponse) -> Option<Body<Tally>> {
    Some(Body::Response(answer))
}

/// What a worker or the desk says of an evaluation under this token.
fn desk_body(alloc: Global, of: Of, eval: EvalId, token: Token) -> Option<Body<Tally>> {
    match of {
        Of::Submit => request(WorkerRequest::Submit(plan_of(alloc, eval, token)?)),
        Of::PlanResult => response(WorkerResponse::PlanResult(result_of(alloc, eval, token)?)),
        Of::Blocked => {
            let outcome = EvalOutcome::Blocked(Index::new(5)?);
            request(WorkerRequest::Finish(eval, token, outcome))
        }
        Of::Complete => request(WorkerRequest::Finish(eval, token, EvalOutcome::Complete)),
        Of::Nack => request(WorkerRequest::Nack(eval, token)),
        Of::TakeRefused => {
            let leader = Leader::new(ServerId::from_number(3));
            let why = Reason::NotLeader(leader);
            response(WorkerResponse::Refused(AskedRequest::Take, why))
        }
        Of::SubmitRefused => {
            let asked = AskedRequest::Submit(eval, token);
            response(WorkerResponse::Refused(asked, Reason::TokenDiffers))
        }
        _ => None,
    }
}

fn id_of(slot: u8) -> Option<AllocId> {
    let index = EntryIndex::new(8)?;
    let slot = Ordinal::new(slot)?;
    Some(AllocId { index, slot })
}

fn row_of(slot: u8, size: (u32, u32, u32), state: LiveState) -> Option<ListedAllocation> {
    let id = id_of(slot)?;
    let size = Size::check(size.0, size.1, size.2).ok()?;
    Some(ListedAllocation { id, size, state })
}

fn listing_of(alloc: Global) -> Option<Listing> {
    let mut rows = Sequence::new(alloc);
    rows.push(row_of(0, (600, 300, 0), LiveState::Pending)?)
        .ok()?;
    rows.push(row_of(63, (1, 1_000_000, 1_000_000), LiveState::Running)?)
        .ok()?;
    Listing::check(rows).ok()
}

fn unknown_of(alloc: Global) -> Option<Listing> {
    let mut rows = Sequence::new(alloc);
    rows.push(row_of(1, (600, 300, 0), LiveState::Unknown)?)
        .ok()?;
    Listing::check(rows).ok()
}

fn reports_of(alloc: Global) -> Option<Reports> {
    let mut items = Sequence::new(alloc);
    for (slot, state) in [
        (1, ReportedState::Complete),
        (63, ReportedState::Failed),
        (1, ReportedState::Running),
    ] {
        let id = id_of(slot)?;
        items.push(Report { id, state }).ok()?;
    }
    Reports::check(items).ok()
}

/// What an agent says or is shown of allocations.
fn agent_body(alloc: Global, of: Of) -> Option<Body<Tally>> {
    match of {
        Of::List => Some(Body::List(Index::new(9)?, listing_of(alloc)?)),
        Of::NoneListed => {
            let rows = Listing::check(Sequence::new(alloc)).ok()?;
            Some(Body::List(Index::ZERO, rows))
        }
        Of::UnknownListed => Some(Body::List(Index::new(9)?, unknown_of(alloc)?)),
        Of::Report => Some(Body::Report(reports_of(alloc)?)),
        _ => None,
    }
}

fn body_of(alloc: Global, of: Of) -> Option<Body<Tally>> {
    match of {
        Of::Take => request(WorkerRequest::Take),
        Of::Delivered => {
            let delivery = delivery_of(eval_of(4, 0)?, token_of(1)?)?;
            response(WorkerResponse::Delivered(Some(delivery)))
        }
        Of::None => response(WorkerResponse::Delivered(None)),
        Of::Register => {
            let class = Name::from_bytes(b"linux")?;
            let size = Size::check(1000, 1000, 5).ok()?;
            Some(Body::Register(class, size))
        }
        Of::Heartbeat => Some(Body::Heartbeat),
        Of::Pull => Some(Body::Pull),
        Of::List | Of::NoneListed | Of::UnknownListed | Of::Report => agent_body(alloc, of),
        Of::Taken => Some(Body::Told(ClientRequestKind::Register, None)),
        Of::ReportRefused => {
            let why = Reason::NotLeader(Leader::new(None));
            Some(Body::Told(ClientRequestKind::Report, Some(why)))
        }
        _ => desk_body(alloc, of, eval_of(4, 1)?, token_of(3)?),
    }
}

/// The actor of a byte of a frame.
fn actor_of(code: u8) -> Option<Actor> {
    if code > 128 {
        Some(Actor::Client(ClientId::from_number(code - 128)?))
    } else {
        Some(Actor::Server(ServerId::from_number(code)?))
    }
}

fn message_of(alloc: Global, of: Of, from: u8, to: u8) -> Option<Message<Tally>> {
    let body = body_of(alloc, of)?;
    Message::new(actor_of(from)?, actor_of(to)?, body)
}

/// Whether the message is written as its frame.
fn is_written(alloc: Global, row: &Row) -> bool {
    let (of, kind, frame, _) = *row;
    let mut out = Vec::new(alloc);
    let from = frame.get(2).copied().unwrap_or(0);
    let to = frame.get(3).copied().unwrap_or(0);
    match message_of(alloc, of, from, to) {
        Some(message) => {
            message.kind() == kind
                && write_message(&message, &mut out).is_ok()
                && out.as_slice() == frame
        }
        None => false,
    }
}

/// Whether the frame is read as a message of its kind, which is written so again.
fn is_read(alloc: Global, row: &Row) -> bool {
    let (_, kind, frame, _) = *row;
    let same = match read_message::<Tally>(alloc, frame) {
        Ok(message) => message.kind() == kind,
        Err(_) => false,
    };
    same && fault_of(alloc, frame) == NONE
}

/// Where the field begins that a cut at this place cuts: the last one that begins there or before.
fn field_at(starts: &[usize], place: usize) -> usize {
    let mut at = 0;
    for start in starts {
        if *start <= place {
            at = *start;
        }
    }
    at
}

/// The fault of a frame that ends at this place, or is one byte longer, and says that length.
fn fault_of_end(alloc: Global, frame: &[u8], end: usize) -> usize {
    let mut bytes = Vec::new(alloc);
    let copied = bytes
        .extend_from_slice(frame.get(..end).unwrap_or(frame))
        .is_ok();
    let longer = end <= frame.len() || bytes.push(0).is_ok();
    if let Some(byte) = bytes.get_mut(7) {
        *byte = end.saturating_sub(8).min(255) as u8;
    }
    if copied && longer {
        fault_of(alloc, &bytes)
    } else {
        WRONG
    }
}

/// Whether each cut of the body is at fault at the field that it cuts, and one byte more at the
/// end.
fn are_ends_at_fault(alloc: Global, row: &Row) -> bool {
    let (_, _, frame, starts) = *row;
    for end in 8..frame.len() {
        if fault_of_end(alloc, frame, end) != field_at(starts, end) {
            return false;
        }
    }
    frame.len() < 100 && fault_of_end(alloc, frame, frame.len() + 1) == frame.len()
}

fn is_changed(alloc: Global, change: &Change) -> bool {
    let (frame, at, value, place) = *change;
    let mut bytes = Vec::new(alloc);
    let copied = bytes.extend_from_slice(frame).is_ok();
    match bytes.get_mut(at) {
        Some(byte) => *byte = value,
        None => return false,
    }
    copied && fault_of(alloc, &bytes) == place
}

/// Whether a list of as many allocations as are allowed, from 1.0 to 1024.63, is read and written
/// again as it was, and is at fault at the last byte with another value there.
fn is_longest_read(alloc: Global) -> bool {
    let mut bytes = Vec::new(alloc);
    let whole = bytes.extend_from_slice(LONGEST).is_ok()
        && put_many(&mut bytes, "allocation", 0, 65535, EACH)
        && bytes.len() == 1_441_812
        && fault_of(alloc, &bytes) == NONE;
    if let Some(byte) = bytes.get_mut(1_441_811) {
        *byte = 3;
    }
    whole && fault_of(alloc, &bytes) == 1_441_811
}

#[test]
fn reads_and_writes_service_messages(rt: HostRuntime) {
    for (number, row) in ROWS.iter().enumerate() {
        assert!(rt; is_written(rt.alloc(), row), "written {number}");
        assert!(rt; is_read(rt.alloc(), row), "read {number}");
        assert!(rt; are_ends_at_fault(rt.alloc(), row), "ends {number}");
    }
    assert!(rt; is_longest_read(rt.alloc()));
}

#[test]
fn names_faults_of_service_messages(rt: HostRuntime) {
    for (number, change) in CHANGES.iter().enumerate() {
        assert!(rt; is_changed(rt.alloc(), change), "change {number}");
    }
    for (number, change) in CLIENT_CHANGES.iter().enumerate() {
        assert!(rt;
            is_changed(rt.alloc(), change),
            "change {number} of a client's"
        );
    }
}
