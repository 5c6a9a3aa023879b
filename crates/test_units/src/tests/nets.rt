//! The queues of a net: what is kept, in which order it comes out, and what is refused. Envelopes
//! are numbers here.
use lossy_net::Net;
use rows::{Actor, ClientId, Refusal, ServerId};
use std::alloc::Global;
use std::sync::Wait;

// An actor by its number.
#[derive(Clone, Copy)]
enum Who {
    Server(u8),
    Client(u8),
}

// Numbers of refusals.
const OUT_OF_RANGE: u8 = 12;

const QUEUE_FULL: u8 = 17;

// What is done at an actor's queue, and what comes of it.
enum Step {
    // The envelope is kept, or handed back with this refusal.
    Put(Who, u32, Option<u8>),
    // What is taken.
    Take(Who, Result<Option<u32>, u8>),
}

// Of a net of room 2 with queues for server 1 and client 1 alone.
const STEPS: &[Step] = &[
    Step::Take(Who::Server(1), Ok(None)),
    Step::Put(Who::Server(1), 7, None),
    Step::Put(Who::Server(1), 8, None),
    Step::Put(Who::Server(1), 9, Some(QUEUE_FULL)),
    // The other queue is not full, and nothing of this one waits there.
    Step::Take(Who::Client(1), Ok(None)),
    Step::Put(Who::Client(1), 5, None),
    Step::Take(Who::Server(1), Ok(Some(7))),
    Step::Put(Who::Server(1), 9, None),
    Step::Put(Who::Server(1), 10, Some(QUEUE_FULL)),
    Step::Put(Who::Server(2), 11, Some(OUT_OF_RANGE)),
    Step::Take(Who::Server(2), Err(OUT_OF_RANGE)),
    Step::Put(Who::Client(2), 12, Some(OUT_OF_RANGE)),
    Step::Take(Who::Client(2), Err(OUT_OF_RANGE)),
    Step::Take(Who::Server(1), Ok(Some(8))),
    Step::Put(Who::Client(1), 6, None),
    Step::Put(Who::Client(1), 7, Some(QUEUE_FULL)),
    Step::Take(Who::Server(1), Ok(Some(9))),
    Step::Take(Who::Server(1), Ok(None)),
    Step::Take(Who::Client(1), Ok(Some(5))),
    Step::Take(Who::Client(1), Ok(Some(6))),
    Step::Take(Who::Client(1), Ok(None)),
];

// Two actors, a room, and what a net of them is refused for.
type Row = (Who, Who, usize, Option<u8>);

const NETS: &[Row] = &[
    (Who::Server(1), Who::Client(1), 0, Some(OUT_OF_RANGE)),
    (Who::Server(1), Who::Client(1), 1, None),
    (Who::Server(1), Who::Server(2), 65_536, None),
    (Who::Server(1), Who::Client(1), 65_537, Some(OUT_OF_RANGE)),
    (
        Who::Server(1),
        Who::Client(1),
        usize::MAX,
        Some(OUT_OF_RANGE),
    ),
    (Who::Client(64), Who::Client(5), 2, None),
    (Who::Server(1), Who::Server(1), 2, Some(OUT_OF_RANGE)),
    (Who::Client(64), Who::Client(64), 2, Some(OUT_OF_RANGE)),
];

fn actor(who: Who) -> Option<Actor> {
    match who {
        Who::Server(number) => Some(Actor::Server(ServerId::from_number(number)?)),
        Who::Client(number) => Some(Actor::Client(ClientId::from_number(number)?)),
    }
}

fn is_put<R: Wait>(rt: &R, net: &Net<u32>, who: Who, envelope: u32, wanted: Option<u8>) -> bool {
    let Some(actor) = actor(who) else {
        return false;
    };
    match net.put(rt, actor, envelope) {
        Ok(()) => wanted.is_none(),
        Err(back) => back.envelope == envelope && wanted == Some(back.refusal.number()),
    }
}

fn takes<R: Wait>(rt: &R, net: &Net<u32>, who: Who) -> Option<Result<Option<u32>, u8>> {
    let actor = actor(who)?;
    Some(net.take(rt, actor).map_err(|refusal| refusal.number()))
}

// The place of the first step that does not come as it should.
fn first_unmet<R: Wait>(rt: &R, net: &Net<u32>) -> Option<usize> {
    for (place, step) in STEPS.iter().enumerate() {
        let met = match step {
            Step::Put(who, envelope, wanted) => is_put(rt, net, *who, *envelope, *wanted),
            Step::Take(who, wanted) => takes(rt, net, *who) == Some(*wanted),
        };
        if !met {
            return Some(place);
        }
    }
    None
}

// What a net of these actors and this room is refused for.
fn refused(alloc: Global, actors: &[Actor], capacity: usize) -> Option<u8> {
    let net: Result<Net<u32>, Refusal> = Net::new(alloc, actors, capacity);
    match net {
        Ok(_net) => None,
        Err(refusal) => Some(refusal.number()),
    }
}

fn is_row(alloc: Global, row: &Row) -> Option<bool> {
    let (first, second, capacity, wanted) = *row;
    let actors = [actor(first)?, actor(second)?];
    Some(refused(alloc, &actors, capacity) == wanted)
}

// With queues for server 1 and client 1.
fn net_of(alloc: Global, capacity: usize) -> Option<Net<u32>> {
    let actors = [actor(Who::Server(1))?, actor(Who::Client(1))?];
    Net::new(alloc, &actors, capacity).ok()
}

// Whether an empty queue of this room keeps so many envelopes, and no more.
fn holds<R: Wait>(rt: &R, net: &Net<u32>, who: Who, capacity: u32) -> bool {
    for envelope in 0..capacity {
        if !is_put(rt, net, who, envelope, None) {
            return false;
        }
    }
    is_put(rt, net, who, capacity, Some(QUEUE_FULL)) && takes(rt, net, who) == Some(Ok(Some(0)))
}

#[test]
fn nets_are_refused(rt: HostRuntime) {
    for (number, row) in NETS.iter().enumerate() {
        assert!(rt; is_row(rt.alloc(), row) == Some(true), "net {number}");
    }
    assert!(rt; refused(rt.alloc(), &[], 1).is_none());
}

#[test]
fn envelopes_wait_in_their_queues(rt: HostRuntime) {
    let net = net_of(rt.alloc(), 2).expect(&rt, "a net");
    assert_eq!(rt; first_unmet(&rt, &net), None);
    let great = net_of(rt.alloc(), 65_536).expect(&rt, "a great net");
    assert!(rt; holds(&rt, &great, Who::Client(1), 65_536));
}
