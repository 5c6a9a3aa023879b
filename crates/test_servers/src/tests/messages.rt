//! Messages given as values: their frames, and what is read from these; and the outbox that keeps
//! them.
use crate::tests::frames::{APPEND, GRANTED, INSTALL, INSTALLED, REPLY, VOTE};
use machine::{Coded, Entry, Tally, TallyCommand};
use rows::{Actor, Index, ServerId};
use std::alloc::Global;
use wire::{Append, AppendHead, Body, Frames, Install, InstallHead, Kind, Message, read_message};

/// A message: its kind, its sender and its receiver; its numbers in the order of its frame, 1 for a
/// yes, and of a snapshot the last one what its state adds up to; its entries, each with its term
/// and with what it adds, 0 for the no-op; and its frame.
type Row = (Kind, u8, u8, [u64; 4], &'static [(u64, u16)], &'static [u8]);

const MESSAGES: &[Row] = &[
    (Kind::VoteRequest, 1, 2, [1, 0, 0, 0], &[], VOTE),
    (
        Kind::Append,
        1,
        2,
        [3, 4, 2, 4],
        &[(2, 0), (3, 258)],
        APPEND,
    ),
    (Kind::VoteReply, 2, 1, [3, 2, 1, 0], &[], GRANTED),
    (Kind::AppendReply, 2, 1, [3, 2, 1, 5], &[], REPLY),
    (Kind::Install, 1, 2, [3, 5, 2, 258], &[], INSTALL),
    (Kind::InstallReply, 2, 1, [3, 2, 5, 0], &[], INSTALLED),
];

// What the outbox has at the end: the Append and the Install are sent from their parts too, and a
// frame that is cut away again leaves its place to the last one.
const SENT: &[(u8, &[u8])] = &[
    (2, VOTE),
    (2, APPEND),
    (2, APPEND),
    (1, GRANTED),
    (1, REPLY),
    (2, INSTALL),
    (2, INSTALL),
    (1, INSTALLED),
    (2, VOTE),
    (1, REPLY),
];

fn numbers_of_append(head: &AppendHead) -> [u64; 4] {
    [
        head.term.get(),
        head.prev_index.get(),
        head.prev_term.get(),
        head.commit.get(),
    ]
}

fn numbers_of_install(head: &InstallHead, sum: u16) -> [u64; 4] {
    [
        head.term.get(),
        head.index.get(),
        head.index_term.get(),
        u64::from(sum),
    ]
}

fn numbers_of(body: &Body<Tally>) -> [u64; 4] {
    match body {
        Body::VoteRequest(said) => {
            [
                said.term.get(),
                said.last_index.get(),
                said.last_term.get(),
                0,
            ]
        }
        Body::VoteReply(said) => {
            [
                said.term.get(),
                said.asked.get(),
                if said.granted { 1 } else { 0 },
                0,
            ]
        }
        Body::Append(append) => numbers_of_append(&append.head()),
        Body::AppendReply(said) => {
            [
                said.term.get(),
                said.asked.get(),
                if said.ok { 1 } else { 0 },
                said.at.get(),
            ]
        }
        Body::Install(install) => numbers_of_install(&install.head(), install.state().sum()),
        Body::InstallReply(said) => [said.term.get(), said.asked.get(), said.at.get(), 0],
        _ => [0; 4],
    }
}

/// The term of an entry, and what it adds, 0 for the no-op.
fn entry_of(entry: &Entry<Coded<Tally>>) -> (u64, u16) {
    match entry.command.command() {
        TallyCommand::Noop => (entry.term.get(), 0),
        TallyCommand::Add(amount) => (entry.term.get(), amount.get()),
    }
}

fn has_entries(append: &Append<Tally>, list: &[(u64, u16)]) -> bool {
    for (entry, wanted) in append.entries().iter().zip(list) {
        if entry_of(entry) != *wanted {
            return false;
        }
    }
    append.entries().len() == list.len()
}

fn is_server(actor: Actor, number: u8) -> bool {
    match actor {
        Actor::Server(server) => server.number() == number,
        _ => false,
    }
}

/// Whether the frame is read as the message of its row.
fn says(alloc: Global, row: &Row) -> bool {
    let (kind, from, to, numbers, list, frame) = *row;
    let Ok(message) = read_message::<Tally>(alloc, frame) else {
        return false;
    };
    let entries = match message.body() {
        Body::Append(append) => has_entries(append, list),
        _ => list.is_empty(),
    };
    entries
        && message.kind() == kind
        && is_server(message.from(), from)
        && is_server(message.to(), to)
        && numbers_of(message.body()) == numbers
}

// The body, with its `Append` or its `Install` put together of its parts.
fn put_together(body: Body<Tally>) -> Option<Body<Tally>> {
    match body {
        Body::Append(append) => {
            let (head, entries) = append.into_parts();
            match Append::new(head, entries) {
                Some(append) => Some(Body::Append(append)),
                None => None,
            }
        }
        Body::Install(install) => {
            let (head, state) = install.into_parts();
            match Install::new(head, state) {
                Some(install) => Some(Body::Install(install)),
                None => None,
            }
        }
        other => Some(other),
    }
}

fn send(outbox: &mut Frames, from: Actor, to: Actor, body: Body<Tally>) -> bool {
    match Message::new(from, to, body) {
        Some(message) => outbox.send(&message).is_ok(),
        None => false,
    }
}

/// Sends the message of a frame, put together anew.
fn sends(outbox: &mut Frames, alloc: Global, frame: &[u8]) -> bool {
    let Ok(message) = read_message::<Tally>(alloc, frame) else {
        return false;
    };
    let (from, to) = (message.from(), message.to());
    match put_together(message.into_body()) {
        Some(body) => send(outbox, from, to, body),
        None => false,
    }
}

fn server_of(actor: Actor) -> Option<ServerId> {
    match actor {
        Actor::Server(server) => Some(server),
        Actor::Client(_) => None,
    }
}

// Sends an `Append` or an `Install` from its parts, and no other message.
fn send_parts(outbox: &mut Frames, from: ServerId, to: ServerId, body: &Body<Tally>) -> bool {
    if from == to {
        return false;
    }
    match body {
        Body::Append(append) => {
            let sent = outbox.send_append(from, to, &append.head(), append.entries());
            sent.is_ok()
        }
        Body::Install(install) => {
            let sent = outbox.send_install(from, to, &install.head(), install.state());
            sent.is_ok()
        }
        _ => true,
    }
}

/// Sends the `Append` or the `Install` of a frame from its parts, and no other message.
fn sends_parts(outbox: &mut Frames, alloc: Global, frame: &[u8]) -> bool {
    let Ok(message) = read_message::<Tally>(alloc, frame) else {
        return false;
    };
    let Some(from) = server_of(message.from()) else {
        return false;
    };
    let Some(to) = server_of(message.to()) else {
        return false;
    };
    send_parts(outbox, from, to, message.body())
}

/// Whether the entries of the frame are too many behind this index.
fn is_too_far(alloc: Global, frame: &[u8], index: u64) -> bool {
    let Ok(message) = read_message::<Tally>(alloc, frame) else {
        return false;
    };
    match (message.into_body(), Index::new(index)) {
        (Body::Append(append), Some(prev_index)) => {
            let (head, entries) = append.into_parts();
            Append::new(AppendHead { prev_index, ..head }, entries).is_none()
        }
        _ => false,
    }
}

// The body, its snapshot one of this index, if the state is of it.
fn at_index(body: Body<Tally>, index: Index) -> Option<Body<Tally>> {
    match body {
        Body::Install(install) => {
            let (head, state) = install.into_parts();
            match Install::new(InstallHead { index, ..head }, state) {
                Some(install) => Some(Body::Install(install)),
                None => None,
            }
        }
        other => Some(other),
    }
}

/// Sends the snapshot of a frame as one of this index, if its state is of it.
fn sends_at(outbox: &mut Frames, alloc: Global, frame: &[u8], index: u64) -> bool {
    let Ok(message) = read_message::<Tally>(alloc, frame) else {
        return false;
    };
    let Some(index) = Index::new(index) else {
        return false;
    };
    let (from, to) = (message.from(), message.to());
    match at_index(message.into_body(), index) {
        Some(body) => send(outbox, from, to, body),
        None => false,
    }
}

fn fill(outbox: &mut Frames, alloc: Global) -> bool {
    let mut sent = true;
    for row in MESSAGES {
        sent = sent
            && says(alloc, row)
            && sends_parts(outbox, alloc, row.5)
            && sends(outbox, alloc, row.5);
    }
    sent && sends(outbox, alloc, VOTE) && sends(outbox, alloc, GRANTED) && outbox.len() == 10
}

fn is_filled(outbox: &Frames) -> bool {
    for (at, (to, bytes)) in SENT.iter().enumerate() {
        let Some(frame) = outbox.get(at) else {
            return false;
        };
        if !is_server(frame.to(), *to) || frame.bytes() != *bytes {
            return false;
        }
    }
    outbox.len() == SENT.len() && outbox.get(SENT.len()).is_none()
}

#[test]
fn says_and_hears(rt: HostRuntime) {
    let mut outbox = Frames::new(rt.alloc());
    assert!(rt; fill(&mut outbox, rt.alloc()));
    outbox.truncate(9);
    assert!(rt; sends(&mut outbox, rt.alloc(), REPLY));
    assert!(rt; is_filled(&outbox));
    // The second entry's index would be 2^40.
    assert!(rt; is_too_far(rt.alloc(), APPEND, 1_099_511_627_774));
    // Its state has counted five commands.
    assert!(rt; sends_at(&mut outbox, rt.alloc(), INSTALL, 5));
    assert!(rt; !sends_at(&mut outbox, rt.alloc(), INSTALL, 4));
    assert!(rt; !sends_at(&mut outbox, rt.alloc(), INSTALL, 0));
}
