//! Cells of a group: turns of actors one after another, what each refuses and keeps, groups for
//! which no cells open, and the nodes of clients. What is sent, and where, is worked out by hand
//! from Raft, extended version 2014, sections 5.2, 5.3 and 7; the stamps and places are counted by
//! hand.
ghost use Rattle.std.specs.Prelude.{◌≡◌};

use client_agent::Agent;
use cluster::{
    Cell, CellTurn, Cells, Envelope, GroupActor, KeptEvent, OwnInput, StampedEvent, cells_of,
    close, turn,
};
use event_book::{ActorEvent, ActorSeat, Book, BookId, Noted, OpenedBook, OutputList};
use group_inputs::{ClientInput, ServerInput};
use raft_core::Role;
use rows::{Actor, ClientId, Name, NodeId, NodeSpec, Refusal, Sequence, ServerId, Size};
use std::alloc::Global;
use std::marker::Brand;
use std::sync::Wait;
use std::test::*;
use world::World;

/// Servers have numbers from 1, and clients from 129.
type Number = u8;

/// What comes to an actor.
#[derive(Clone, Copy)]
enum Come {
    // Inputs of a server's own.
    Timeout,
    Beat,
    Compact,
    Crash,
    Restart,
    // An input of a server's own that is a frame.
    Frame,
    // Inputs of a client's own.
    Ping,
    Fall,
    // The first of the messages that were sent and not handed over yet.
    Message,
}

use Come::{Beat, Compact, Crash, Fall, Frame, Message, Ping, Restart, Timeout};

/// What a cell keeps: the stamp, for a delivery the stamp and the place of its message, and how
/// many messages were sent.
type Kept = (u64, Option<(u64, u64)>, usize);

/// Whose turn it is; what comes, and for whom, where it is an input; the number of the refusal, 0
/// where there is none; for whom the messages are that are sent; and what that actor's cell keeps
/// then, which is nothing where there is no such cell.
type Row = (
    Number,
    (Come, Number),
    u8,
    &'static [Number],
    &'static [Kept],
);

// Server 1 asks both others for their votes. Server 2 gives its vote.
const ASKED: Kept = (0, None, 2);

const VOTED: Kept = (1, Some((0, 0)), 1);

const TURNS: &[Row] = &[
    (1, (Timeout, 1), 0, &[2, 3], &[ASKED]),
    (2, (Message, 0), 0, &[1], &[VOTED]),
    // What is for server 3 comes to server 2, and what is for server 1 to server 3.
    (2, (Message, 0), 12, &[], &[VOTED]),
    (3, (Message, 0), 12, &[], &[]),
    (2, (Timeout, 1), 12, &[], &[VOTED]),
    // The group has no such actors.
    (4, (Timeout, 4), 12, &[], &[]),
    (130, (Ping, 130), 12, &[], &[]),
    // A server takes no input of a client, no frame as an input, and no restart while it is up.
    (3, (Ping, 3), 12, &[], &[]),
    (3, (Frame, 3), 12, &[], &[]),
    (3, (Restart, 3), 12, &[], &[]),
    // A server is down: it refuses what it would take, and what is not for it.
    (1, (Crash, 1), 0, &[], &[ASKED, (2, None, 0)]),
    (1, (Timeout, 1), 16, &[], &[ASKED, (2, None, 0)]),
    (1, (Timeout, 2), 16, &[], &[ASKED, (2, None, 0)]),
    // Server 3 asks for votes; one of those asked is down, the other voted in that term.
    (3, (Timeout, 3), 0, &[1, 2], &[(3, None, 2)]),
    (1, (Message, 0), 16, &[], &[ASKED, (2, None, 0)]),
    (
        1,
        (Restart, 1),
        0,
        &[],
        &[ASKED, (2, None, 0), (4, None, 0)],
    ),
    (2, (Message, 0), 0, &[3], &[VOTED, (5, Some((3, 1)), 1)]),
    (
        3,
        (Message, 0),
        0,
        &[],
        &[(3, None, 2), (6, Some((5, 0)), 0)],
    ),
    // A client takes no input of a server. Once it is down, it and no other refuses what it would
    // take, and what is not for it.
    (129, (Timeout, 129), 12, &[], &[]),
    (129, (Fall, 129), 0, &[], &[(7, None, 0)]),
    (129, (Ping, 129), 16, &[], &[(7, None, 0)]),
    (129, (Timeout, 2), 16, &[], &[(7, None, 0)]),
    (2, (Ping, 129), 12, &[], &[VOTED, (5, Some((3, 1)), 1)]),
];

// What server 1 keeps once it leads: the vote, a beat, and the answer of server 2.
const HEARD_VOTE: Kept = (3, Some((1, 0)), 0);

const FIRST_BEAT: Kept = (4, None, 2);

const HEARD: Kept = (6, Some((5, 0)), 0);

const COVERED: Kept = (7, None, 0);

const NEXT_BEAT: Kept = (9, None, 2);

// What servers 2 and 3 keep: server 2 takes the first entry, and server 3 is away.
const FOLLOWED: Kept = (5, Some((4, 0)), 1);

const AWAY: Kept = (2, None, 0);

const BACK: Kept = (8, None, 0);

// Server 3 is away while the first entry is committed and covered; what comes for it meanwhile is
// refused. Then it gets the leader's snapshot, and its answer comes.
const SNAPSHOT: &[Row] = &[
    (1, (Timeout, 1), 0, &[2, 3], &[ASKED]),
    (2, (Message, 0), 0, &[1], &[VOTED]),
    (3, (Crash, 3), 0, &[], &[AWAY]),
    (3, (Message, 0), 16, &[], &[AWAY]),
    (1, (Message, 0), 0, &[], &[ASKED, HEARD_VOTE]),
    (1, (Beat, 1), 0, &[2, 3], &[ASKED, HEARD_VOTE, FIRST_BEAT]),
    (2, (Message, 0), 0, &[1], &[VOTED, FOLLOWED]),
    (3, (Message, 0), 16, &[], &[AWAY]),
    (
        1,
        (Message, 0),
        0,
        &[],
        &[ASKED, HEARD_VOTE, FIRST_BEAT, HEARD],
    ),
    (
        1,
        (Compact, 2),
        12,
        &[],
        &[ASKED, HEARD_VOTE, FIRST_BEAT, HEARD],
    ),
    (
        1,
        (Compact, 1),
        0,
        &[],
        &[ASKED, HEARD_VOTE, FIRST_BEAT, HEARD, COVERED],
    ),
    (3, (Compact, 3), 16, &[], &[AWAY]),
    (3, (Restart, 3), 0, &[], &[AWAY, BACK]),
    (
        1,
        (Beat, 1),
        0,
        &[2, 3],
        &[ASKED, HEARD_VOTE, FIRST_BEAT, HEARD, COVERED, NEXT_BEAT],
    ),
    (
        2,
        (Message, 0),
        0,
        &[1],
        &[VOTED, FOLLOWED, (10, Some((9, 0)), 1)],
    ),
    (
        3,
        (Message, 0),
        0,
        &[1],
        &[AWAY, BACK, (11, Some((9, 1)), 1)],
    ),
    (
        2,
        (Compact, 2),
        0,
        &[],
        &[VOTED, FOLLOWED, (10, Some((9, 0)), 1), (12, None, 0)],
    ),
    (
        1,
        (Message, 0),
        0,
        &[],
        &[
            ASKED,
            HEARD_VOTE,
            FIRST_BEAT,
            HEARD,
            COVERED,
            NEXT_BEAT,
            (13, Some((10, 0)), 0),
        ],
    ),
    (
        1,
        (Message, 0),
        0,
        &[],
        &[
            ASKED,
            HEARD_VOTE,
            FIRST_BEAT,
            HEARD,
            COVERED,
            NEXT_BEAT,
            (13, Some((10, 0)), 0),
            (14, Some((11, 0)), 0),
        ],
    ),
];

// What server 1 keeps of five: it asks all four others for their votes; with two of five it does not
// lead, and its beat sends nothing; with three it leads, and beats; and it hears a vote too late.
const ASKED_FOUR: Kept = (0, None, 4);

const SECOND_VOTE: Kept = (5, Some((1, 0)), 0);

const NO_BEAT: Kept = (6, None, 0);

const THIRD_VOTE: Kept = (7, Some((2, 0)), 0);

const FOUR_BEATS: Kept = (8, None, 4);

const LATE_VOTE: Kept = (9, Some((3, 0)), 0);

// Five servers: turns that send four messages, each of which comes.
const FIVE: &[Row] = &[
    (1, (Timeout, 1), 0, &[2, 3, 4, 5], &[ASKED_FOUR]),
    (2, (Message, 0), 0, &[1], &[(1, Some((0, 0)), 1)]),
    (3, (Message, 0), 0, &[1], &[(2, Some((0, 1)), 1)]),
    (4, (Message, 0), 0, &[1], &[(3, Some((0, 2)), 1)]),
    (5, (Message, 0), 0, &[1], &[(4, Some((0, 3)), 1)]),
    (1, (Message, 0), 0, &[], &[ASKED_FOUR, SECOND_VOTE]),
    (1, (Beat, 1), 0, &[], &[ASKED_FOUR, SECOND_VOTE, NO_BEAT]),
    (
        1,
        (Message, 0),
        0,
        &[],
        &[ASKED_FOUR, SECOND_VOTE, NO_BEAT, THIRD_VOTE],
    ),
    (
        1,
        (Beat, 1),
        0,
        &[2, 3, 4, 5],
        &[ASKED_FOUR, SECOND_VOTE, NO_BEAT, THIRD_VOTE, FOUR_BEATS],
    ),
    (
        1,
        (Message, 0),
        0,
        &[],
        &[
            ASKED_FOUR,
            SECOND_VOTE,
            NO_BEAT,
            THIRD_VOTE,
            FOUR_BEATS,
            LATE_VOTE,
        ],
    ),
];

/// What is done with the seats of a book, or with their cells, before these open.
#[derive(Clone, Copy)]
enum Seats {
    AsTheyAre,
    // The last of them notes something.
    LastNotes,
    // The last of them is not handed over.
    LastKept,
    // The cell of the last of them takes an input before the cells open.
    LastTakes,
    // The cells open for one client fewer.
    ForFewer,
}

use Seats::{AsTheyAre, ForFewer, LastKept, LastNotes, LastTakes};

/// How many servers the group is to have, and how many nodes; the servers of the book, and how many
/// clients it has; what is done with the seats; and the number of the refusal, if there is one.
type Opening = ((usize, usize), (&'static [Number], u8), Seats, Option<u8>);

const OPENINGS: &[Opening] = &[
    ((3, 0), (&[1, 2, 3], 0), AsTheyAre, None),
    ((5, 2), (&[4, 1, 3, 5, 2], 2), AsTheyAre, None),
    ((3, 64), (&[1, 2, 3], 64), AsTheyAre, None),
    ((4, 0), (&[1, 2, 3, 4], 0), AsTheyAre, Some(12)),
    ((3, 65), (&[1, 2, 3], 64), AsTheyAre, Some(12)),
    // The book has an actor that the group has not.
    ((3, 0), (&[1, 2, 3, 4], 0), AsTheyAre, Some(12)),
    ((3, 0), (&[1, 2, 3], 1), AsTheyAre, Some(12)),
    // The group has an actor that the book has not.
    ((3, 0), (&[1, 2], 0), AsTheyAre, Some(12)),
    ((5, 0), (&[1, 2, 3, 5], 0), AsTheyAre, Some(12)),
    ((3, 2), (&[1, 2, 3], 1), AsTheyAre, Some(12)),
    ((3, 0), (&[1, 2, 3], 0), LastNotes, Some(12)),
    ((3, 1), (&[1, 2, 3], 1), LastNotes, Some(12)),
    ((3, 0), (&[1, 2, 3], 0), LastKept, Some(12)),
    ((3, 0), (&[1, 2, 3], 0), LastTakes, Some(12)),
    ((3, 2), (&[1, 2, 3], 2), ForFewer, Some(12)),
];

pub(super) fn actor(number: Number) -> Result<Actor, Refusal> {
    if number <= 128 {
        let id = ServerId::from_number(number).ok_or(Refusal::OutOfRange)?;
        Ok(Actor::Server(id))
    } else {
        let id = ClientId::from_number(number - 128).ok_or(Refusal::OutOfRange)?;
        Ok(Actor::Client(id))
    }
}

fn number_of(actor: Actor) -> Number {
    match actor {
        Actor::Server(id) => id.number(),
        Actor::Client(id) => 128 + id.number(),
    }
}

fn own(alloc: Global, come: Come) -> Result<OwnInput, Refusal> {
    let input = match come {
        Timeout => ServerInput::Timeout,
        Beat => ServerInput::Beat,
        Compact => ServerInput::Compact,
        Crash => ServerInput::Crash,
        Restart => ServerInput::Restart,
        Frame | Message => ServerInput::Frame(Sequence::new(alloc)),
        Fall => return Ok(OwnInput::client(alloc, ClientInput::Crash)?),
        Ping => {
            let Actor::Server(first) = actor(1)? else {
                return Err(Refusal::OutOfRange);
            };
            return Ok(OwnInput::client(alloc, ClientInput::Ping(first))?);
        }
    };
    Ok(OwnInput::server(alloc, input)?)
}

// What comes, and which messages wait then.
fn next<B: BookId>(
    alloc: Global,
    come: (Come, Number),
    waiting: &mut Vec<Envelope<B>>,
) -> Result<Envelope<B>, Refusal> {
    if let Message = come.0
        && !waiting.is_empty()
    {
        return Ok(waiting.remove(0));
    }
    Ok(Envelope::own(actor(come.1)?, own(alloc, come.0)?))
}

fn is_kept(event: &StampedEvent, wanted: &Kept) -> bool {
    let from = match &event.event {
        KeptEvent::Own(_) => None,
        KeptEvent::Delivery { stamp, place } => Some((*stamp, *place)),
        KeptEvent::Crash => return false,
    };
    event.stamp == wanted.0 && from == wanted.1 && event.sent == wanted.2
}

fn are_kept(events: &[StampedEvent], wanted: &[Kept]) -> bool {
    events.len() == wanted.len() && events.iter().zip(wanted).all(|(e, w)| is_kept(e, w))
}

// Whether the cell of an actor keeps this.
fn keeps<B: BookId, R: Wait>(rt: &R, cells: &Cells<B>, actor: Actor, wanted: &[Kept]) -> bool {
    match cells.lock(rt, actor) {
        Some(cell) => are_kept(cell.inputs(), wanted),
        None => wanted.is_empty(),
    }
}

// Whether the messages are for these actors, in order.
fn are_for<B: BookId>(sent: &[Envelope<B>], wanted: &[Number]) -> bool {
    sent.len() == wanted.len()
        && sent
            .iter()
            .zip(wanted)
            .all(|(e, n)| number_of(e.receiver()) == *n)
}

// The number of the refusal; what is sent waits behind the other messages. None of it may lack
// memory.
fn answer<B: BookId>(
    taken: Result<CellTurn<B>, Refusal>,
    to: &[Number],
    waiting: &mut Vec<Envelope<B>>,
) -> Result<Option<u8>, Refusal> {
    let CellTurn { sent, unsent, .. } = match taken {
        Ok(turn) => turn,
        Err(cause) => return Ok(to.is_empty().then_some(cause.number())),
    };
    let are_wanted = unsent == 0 && are_for(sent.as_slice(), to);
    for envelope in sent {
        waiting.push(envelope)?;
    }
    Ok(are_wanted.then_some(0))
}

/// How an actor takes what comes.
#[derive(Clone, Copy)]
enum Way {
    // By `turn`.
    ByTurn,
    // By its cell, whose lock the caller holds.
    ByHand,
}

use Way::{ByHand, ByTurn};

fn taken<B: BookId, R: Wait>(
    rt: &R,
    alloc: Global,
    cells: &Cells<B>,
    me: Actor,
    envelope: Envelope<B>,
    way: Way,
) -> Result<CellTurn<B>, Refusal> {
    match way {
        ByTurn => turn(rt, cells, me, envelope),
        ByHand => {
            let Some(mut cell) = cells.lock(rt, me) else {
                return Err(Refusal::OutOfRange);
            };
            cell.take(alloc, cells.book(), envelope)
        }
    }
}

// A turn, and whether it does what is wanted.
fn is_played<B: BookId, R: Wait>(
    rt: &R,
    alloc: Global,
    cells: &Cells<B>,
    row: &Row,
    way: Way,
    waiting: &mut Vec<Envelope<B>>,
) -> Result<bool, Refusal> {
    let me = actor(row.0)?;
    let envelope = next(alloc, row.1, waiting)?;
    let answered = answer(taken(rt, alloc, cells, me, envelope, way), row.3, waiting)?;
    Ok(answered == Some(row.2) && keeps(rt, cells, me, row.4))
}

// How the group stands in the end: how many events were noted and how many messages sent; whether
// server 3 still stands for election, and how many entries it has applied.
type End = (usize, usize, bool, u64);

// After the last turn: each of its stamps stands for one event, and the messages are those of the
// rows. Server 2 had voted for server 1 in that term, so server 3 has its own vote alone.
const END: End = (8, 6, true, 0);

// After the last of those with a snapshot, of which server 3 has its one entry.
const SNAPSHOT_END: End = (15, 10, false, 1);

// After the last of those of five: server 3 follows the leader for which it voted.
const FIVE_END: End = (10, 12, false, 0);

fn end_of(world: &World) -> Result<End, Refusal> {
    let Actor::Server(third) = actor(3)? else {
        return Err(Refusal::OutOfRange);
    };
    let Some(server) = world.server(third) else {
        return Err(Refusal::OutOfRange);
    };
    let stands = server.role() == Some(Role::Candidate);
    let applied = match server.applied() {
        Some(index) => index.get(),
        None => 0,
    };
    Ok((world.trace().len(), world.sent().len(), stands, applied))
}

// How many of the turns of a group of this size go as is wanted, up to the first that does not; and
// how the world stands to which the group closes then.
fn play<B: BookId, R: Wait>(
    rt: &R,
    alloc: Global,
    size: usize,
    opened: OpenedBook<OwnInput>,
    nodes: Vec<NodeSpec>,
    rows: &'static [Row],
    way: Way,
) -> Result<(usize, End), Refusal>
    requires book { opened ≡ (B.table, B.actors) }
    requires nodes { nodes.items ≡ B.nodes }
{
    let (book, seats) = opened.seats::<B>(alloc)?;
    let cells = cells_of(alloc, size, nodes.as_slice(), &book, seats)?;
    let cells = Cells::open(alloc, size, nodes.len(), book, cells)?;
    let mut waiting = Vec::new(alloc);
    let mut played = rows.len();
    for (place, row) in rows.iter().enumerate() {
        if !is_played(rt, alloc, &cells, row, way, &mut waiting)? {
            played = place;
            break;
        }
    }
    drop(waiting);
    let world = close(alloc, cells.into_cells()?)?;
    Ok((played, end_of(&world)?))
}

fn actors(alloc: Global, servers: &[Number], clients: u8) -> Result<Vec<Actor>, Refusal> {
    let mut all = Vec::new(alloc);
    for number in servers {
        all.push(actor(*number)?)?;
    }
    for number in 0..clients.min(64) {
        all.push(actor(129 + number)?)?;
    }
    Ok(all)
}

// A client's node; which client it is of, its place says. No two have as much memory.
fn node(place: usize) -> Result<NodeSpec, Refusal> {
    Ok(NodeSpec {
        number: NodeId::from_number(1).ok_or(Refusal::OutOfRange)?,
        class: Name::read("linux")?,
        size: Size::check(1000, 2000 + place.min(1000) as u32, 0)?,
    })
}

pub(super) fn nodes(alloc: Global, count: usize) -> Result<Vec<NodeSpec>, Refusal> {
    let mut all = Vec::new(alloc);
    for place in 0..count.min(100) {
        all.push(node(place)?)?;
    }
    Ok(all)
}

fn prepared<B: BookId>(
    alloc: Global,
    book: &Book<OwnInput, B>,
    seats: Vec<ActorSeat<OwnInput, B>>,
    how: Seats,
) -> Result<Vec<ActorSeat<OwnInput, B>>, Refusal> {
    let mut seats = seats;
    let Some(mut last) = seats.pop() else {
        return Ok(seats);
    };
    match how {
        AsTheyAre => seats.push(last)?,
        LastNotes => {
            let noted = Noted {
                event: ActorEvent::Own(own(alloc, Timeout)?),
                outputs: OutputList(Vec::new(alloc)),
            };
            last.note(book, &noted)?;
            seats.push(last)?;
        }
        LastKept => (),
        LastTakes | ForFewer => seats.push(last)?,
    }
    Ok(seats)
}

// The cell of the last seat takes an input.
fn used<B: BookId>(
    alloc: Global,
    book: &Book<OwnInput, B>,
    cells: Vec<Cell<B>>,
    number: Number,
) -> Result<Vec<Cell<B>>, Refusal> {
    let mut cells = cells;
    if let Some(last) = cells.last_mut() {
        last.take(
            alloc,
            book,
            Envelope::own(actor(number)?, own(alloc, Timeout)?),
        )?;
    }
    Ok(cells)
}

// The cells of a group open.
fn open<B: BookId>(
    alloc: Global,
    opened: OpenedBook<OwnInput>,
    nodes: Vec<NodeSpec>,
    size: usize,
    how: Seats,
) -> Result<(), Refusal>
    requires book { opened ≡ (B.table, B.actors) }
    requires nodes { nodes.items ≡ B.nodes }
{
    let (book, seats) = opened.seats::<B>(alloc)?;
    let seats = prepared(alloc, &book, seats, how)?;
    let mut cells = cells_of(alloc, size, nodes.as_slice(), &book, seats)?;
    let mut clients = nodes.len();
    match how {
        LastTakes => cells = used(alloc, &book, cells, 3)?,
        ForFewer => clients = clients.saturating_sub(1),
        AsTheyAre | LastNotes | LastKept => (),
    }
    let _cells = Cells::open(alloc, size, clients, book, cells)?;
    Ok(())
}

pub(super) fn opened(
    alloc: Global,
    servers: &[Number],
    clients: u8,
) -> Result<OpenedBook<OwnInput>, Refusal> {
    OpenedBook::new(alloc, actors(alloc, servers, clients)?)
}

// Whether a cell took nothing, and its actor is this one: a client has the node of its place, with
// its number.
fn is_new<B: BookId>(cell: &Cell<B>, wanted: Actor) -> Result<bool, Refusal> {
    let is_wanted = match (cell.actor(), wanted) {
        (GroupActor::Server(server), Actor::Server(id)) => server.me() == id,
        (GroupActor::Client(client), Actor::Client(id)) => {
            has_node(client.node(), usize::from(id.number()))?
        }
        _ => false,
    };
    Ok(is_wanted && cell.inputs().is_empty())
}

// Whether it is the node of this client.
fn has_node(found: NodeSpec, number: usize) -> Result<bool, Refusal> {
    let wanted = node(number.saturating_sub(1))?;
    Ok(usize::from(found.number.number()) == number && found.size == wanted.size)
}

fn have_nodes(clients: &[Agent]) -> Result<bool, Refusal> {
    for (place, client) in clients.iter().enumerate() {
        if !has_node(client.node(), place.saturating_add(1))? {
            return Ok(false);
        }
    }
    Ok(true)
}

// How many new cells have the actor of their seat, with the node of its place; and whether these are
// the nodes of the world to which they close.
fn new_ones<B: BookId>(
    alloc: Global,
    opened: OpenedBook<OwnInput>,
    nodes: Vec<NodeSpec>,
) -> Result<(usize, bool), Refusal>
    requires book { opened ≡ (B.table, B.actors) }
    requires nodes { nodes.items ≡ B.nodes }
{
    let (book, seats) = opened.seats::<B>(alloc)?;
    let cells = cells_of(alloc, 3, nodes.as_slice(), &book, seats)?;
    let mut count = 0usize;
    for (cell, wanted) in cells.iter().zip(book.actors()) {
        if is_new(cell, *wanted)? {
            count = count.saturating_add(1);
        }
    }
    let cells = Cells::open(alloc, 3, nodes.len(), book, cells)?;
    let world = close(alloc, cells.into_cells()?)?;
    Ok((count, have_nodes(world.clients())?))
}

#[test]
fn cells_take_turns(rt: HostRuntime) -> Result<(), Fail> {
    let book = opened(rt.alloc(), &[1, 2, 3], 1)?;
    let nodes = nodes(rt.alloc(), 1)?;
    let (played, end) = play::<Brand, _>(&rt, rt.alloc(), 3, book, nodes, TURNS, ByTurn)?;
    assert!(rt; played == TURNS.len(), "turn {played}");
    assert!(rt; end == END, "events {}, messages {}", end.0, end.1);
    Ok(())
}

#[test]
fn cells_in_hand_take_the_same_turns(rt: HostRuntime) -> Result<(), Fail> {
    let book = opened(rt.alloc(), &[1, 2, 3], 1)?;
    let nodes = nodes(rt.alloc(), 1)?;
    let (played, end) = play::<Brand, _>(&rt, rt.alloc(), 3, book, nodes, TURNS, ByHand)?;
    assert!(rt; played == TURNS.len(), "turn {played}");
    assert!(rt; end == END, "events {}, messages {}", end.0, end.1);
    Ok(())
}

#[test]
fn cells_take_a_snapshot(rt: HostRuntime) -> Result<(), Fail> {
    let book = opened(rt.alloc(), &[1, 2, 3], 0)?;
    let nodes = nodes(rt.alloc(), 0)?;
    let (played, end) = play::<Brand, _>(&rt, rt.alloc(), 3, book, nodes, SNAPSHOT, ByTurn)?;
    assert!(rt; played == SNAPSHOT.len(), "turn {played}");
    assert!(rt; end == SNAPSHOT_END, "events {}, messages {}", end.0, end.1);
    Ok(())
}

#[test]
fn a_turn_sends_four_messages(rt: HostRuntime) -> Result<(), Fail> {
    let book = opened(rt.alloc(), &[1, 2, 3, 4, 5], 0)?;
    let nodes = nodes(rt.alloc(), 0)?;
    let (played, end) = play::<Brand, _>(&rt, rt.alloc(), 5, book, nodes, FIVE, ByTurn)?;
    assert!(rt; played == FIVE.len(), "turn {played}");
    assert!(rt; end == FIVE_END, "events {}, messages {}", end.0, end.1);
    Ok(())
}

#[test]
fn each_client_has_its_own_node(rt: HostRuntime) -> Result<(), Fail> {
    let book = opened(rt.alloc(), &[3, 1, 2], 5)?;
    let nodes = nodes(rt.alloc(), 5)?;
    let (count, closed) = new_ones::<Brand>(rt.alloc(), book, nodes)?;
    assert!(rt; count == 8, "new cells {count}");
    assert!(rt; closed, "nodes of the world");
    Ok(())
}

#[test]
fn cells_open_for_the_actors_of_a_group(rt: HostRuntime) -> Result<(), Fail> {
    for (number, row) in OPENINGS.iter().enumerate() {
        let (group, (servers, clients), how, wanted) = *row;
        let book = opened(rt.alloc(), servers, clients)?;
        let nodes = nodes(rt.alloc(), group.1)?;
        let refused = open::<Brand>(rt.alloc(), book, nodes, group.0, how).err();
        assert!(rt; refused.map(|e| e.number()) == wanted, "opening {number}");
    }
    Ok(())
}
