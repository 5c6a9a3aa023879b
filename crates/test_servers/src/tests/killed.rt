//! Three servers with a bank, as processes that are killed. Server 1 comes to lead though a frame is
//! lost. Server 3 is killed while it appends, and begins again from what its journal has. Server 1
//! is killed when one of two frames has left; server 2 leads next, though server 3 loses the power
//! before its vote is synced. Server 1 is killed when its record is written, reads it back, and
//! loses the power. Then all three are level.
//!
//! Beside them a world goes through their past: a kill is a crash, what it took back is no event,
//! and what it left unsaid is one. Frames and lines are worked out by hand, from Raft (extended
//! version 2014, sections 5.2 to 5.4, Figure 2) and from the bank's rules. So both are the same,
//! byte for byte.
mod process;
mod shown;
mod streams;

use crate::tests::banks::{Step, command_of, event_of, number_of};
use Item::{Message, Says};
use Step::{Beat, Crash, Deliver, Deposit, Open, Restart, Timeout, Transfer, Withdraw};
use example_bank::Bank;
use journal::item_of;
use process::Process;
use rows::ServerId;
use shown::shown;
use std::alloc::Global;
use streams::Kill;
use wire::Frames;
use world::{RaftEvent, RaftWorld};

/// What comes to a process.
#[derive(Clone, Copy)]
enum Item {
    /// An item of these bytes.
    Says(&'static [u8]),
    /// A message: they are numbered from 1, in the order in which the world's servers sent them.
    Message(usize),
}

/// What a process does.
#[derive(Clone, Copy)]
enum Act {
    /// It begins again.
    Begins,
    /// It takes a message.
    Hears(usize),
    /// It takes these items, which come at once.
    Takes(&'static [Item]),
    /// It is killed within what it does with these.
    Dies(&'static [Item], Kill),
}

use Act::{Begins, Dies, Hears, Takes};

/// A process and what it does; what happens in the world; and how the three servers stand then:
/// nothing of one that does not run.
type Row = (u8, Act, &'static [Step], [&'static str; 3]);

// The server's own events.
const ENDS: Item = Says(&[b'T']);

const BEATS: Item = Says(&[b'B']);

// Proposals: to open an account; to pay 100 into the first; to move 30 from the first to the second;
// and to pay 10 out of the second.
const OPENS: Item = Says(&[b'P', 1]);

const PAYS_IN: Item = Says(&[b'P', 2, 0, 0, 0, 0, 0, 0, 0, 0, 0, 100]);

const MOVES: Item = Says(&[b'P', 4, 0, 0, 0, 1, 0, 0, 0, 0, 0, 0, 0, 30]);

const PAYS_OUT: Item = Says(&[b'P', 3, 0, 1, 0, 0, 0, 0, 0, 0, 0, 10]);

const DOWN: &str = "";

const NEW_2: &str = "server 2 follower term 0 last 0 applied 0 balances\n";

const NEW_3: &str = "server 3 follower term 0 last 0 applied 0 balances\n";

const STANDS_1: &str = "server 1 candidate term 1 last 0 applied 0 balances\n";

const LEADS_1: &str = "server 1 leader term 1 last 1 applied 0 balances\n";

const ASKED_1: &str = "server 1 leader term 1 last 4 applied 0 balances\n";

const PAID_1: &str = "server 1 leader term 1 last 4 applied 4 balances 100 0\n";

const VOTED_2: &str = "server 2 follower term 1 last 0 applied 0 balances\n";

const TOLD_2: &str = "server 2 follower term 1 last 4 applied 0 balances\n";

const PAID_2: &str = "server 2 follower term 1 last 5 applied 4 balances 100 0\n";

const STANDS_2: &str = "server 2 candidate term 2 last 5 applied 4 balances 100 0\n";

const LEADS_2: &str = "server 2 leader term 2 last 6 applied 4 balances 100 0\n";

const ASKED_2: &str = "server 2 leader term 2 last 7 applied 4 balances 100 0\n";

const ALL_2: &str = "server 2 leader term 2 last 7 applied 7 balances 70 20\n";

const TOLD_3: &str = "server 3 follower term 1 last 4 applied 0 balances\n";

const VOTED_3: &str = "server 3 follower term 2 last 4 applied 0 balances\n";

const ALL_3: &str = "server 3 follower term 2 last 7 applied 7 balances 70 20\n";

const BACK_1: &str = "server 1 follower term 1 last 5 applied 0 balances\n";

const READS_1: &str = "server 1 follower term 2 last 7 applied 0 balances\n";

const TOLD_1: &str = "server 1 follower term 2 last 7 applied 4 balances 100 0\n";

const ALL_1: &str = "server 1 follower term 2 last 7 applied 7 balances 70 20\n";

const ROWS: &[Row] = &[
    // Server 1 asks for votes by messages 1 and 2. Server 2 votes by message 3; message 2 is lost.
    (1, Takes(&[ENDS]), &[Timeout(1)], [STANDS_1, NEW_2, NEW_3]),
    (2, Hears(1), &[Deliver(1)], [STANDS_1, VOTED_2, NEW_3]),
    (1, Hears(3), &[Deliver(3)], [LEADS_1, VOTED_2, NEW_3]),
    // Three commands and a beat come at once. Messages 4 and 5 have the four entries.
    (
        1,
        Takes(&[OPENS, OPENS, PAYS_IN, BEATS]),
        &[Open(1), Open(1), Deposit(1, 0, 100), Beat(1)],
        [ASKED_1, VOTED_2, NEW_3],
    ),
    // Server 2 answers by message 6. Server 3 is killed when a part of its record is written: it
    // never took message 5.
    (2, Hears(4), &[Deliver(4)], [ASKED_1, TOLD_2, NEW_3]),
    (
        3,
        Dies(&[Message(5)], Kill::Writing(20)),
        &[Crash(3)],
        [ASKED_1, TOLD_2, DOWN],
    ),
    (3, Begins, &[Restart(3)], [ASKED_1, TOLD_2, NEW_3]),
    (1, Hears(6), &[Deliver(6)], [PAID_1, TOLD_2, NEW_3]),
    // It is told once more. Its answer, message 7, is lost.
    (3, Hears(5), &[Deliver(5)], [PAID_1, TOLD_2, TOLD_3]),
    // Message 8 leaves, and message 9 does not.
    (
        1,
        Dies(&[MOVES, BEATS], Kill::Sending(1)),
        &[Transfer(1, 0, 1, 30), Beat(1), Crash(1)],
        [DOWN, TOLD_2, TOLD_3],
    ),
    // Message 10 is its answer. Server 2 asks for votes by messages 11 and 12.
    (2, Hears(8), &[Deliver(8)], [DOWN, PAID_2, TOLD_3]),
    (2, Takes(&[ENDS]), &[Timeout(2)], [DOWN, STANDS_2, TOLD_3]),
    // The vote of server 3 is written, but not synced when the power is lost: it never voted.
    (
        3,
        Dies(&[Message(12)], Kill::PowerLost),
        &[Crash(3)],
        [DOWN, STANDS_2, DOWN],
    ),
    (3, Begins, &[Restart(3)], [DOWN, STANDS_2, TOLD_3]),
    // It votes by message 13.
    (3, Hears(12), &[Deliver(12)], [DOWN, STANDS_2, VOTED_3]),
    (2, Hears(13), &[Deliver(13)], [DOWN, LEADS_2, VOTED_3]),
    // Server 1 stored what it sent to one server alone.
    (1, Begins, &[Restart(1)], [BACK_1, LEADS_2, VOTED_3]),
    // Messages 14 and 15 have the two entries of term 2.
    (
        2,
        Takes(&[PAYS_OUT, BEATS]),
        &[Withdraw(2, 1, 10), Beat(2)],
        [BACK_1, ASKED_2, VOTED_3],
    ),
    // The whole record is written when server 1 is killed, before it is synced. So it took message
    // 14, and its answer, message 16, never left. It reads the record back.
    (
        1,
        Dies(&[Message(14)], Kill::Writing(1000)),
        &[Deliver(14), Crash(1)],
        [DOWN, ASKED_2, VOTED_3],
    ),
    (1, Begins, &[Restart(1)], [READS_1, ASKED_2, VOTED_3]),
    // What it read back is synced before it acts. So a loss of power takes back only that it stands
    // for election.
    (
        1,
        Dies(&[ENDS], Kill::PowerLost),
        &[Crash(1)],
        [DOWN, ASKED_2, VOTED_3],
    ),
    (1, Begins, &[Restart(1)], [READS_1, ASKED_2, VOTED_3]),
    // It answers by message 17.
    (1, Hears(14), &[Deliver(14)], [TOLD_1, ASKED_2, VOTED_3]),
    (2, Hears(17), &[Deliver(17)], [TOLD_1, ALL_2, VOTED_3]),
    // Server 3 lacks the fifth entry, and says so by message 18. Messages 19 and 20 come next.
    (3, Hears(15), &[Deliver(15)], [TOLD_1, ALL_2, VOTED_3]),
    (
        2,
        Takes(&[Message(18), BEATS]),
        &[Deliver(18), Beat(2)],
        [TOLD_1, ALL_2, VOTED_3],
    ),
    (1, Hears(19), &[Deliver(19)], [ALL_1, ALL_2, VOTED_3]),
    (3, Hears(20), &[Deliver(20)], [ALL_1, ALL_2, ALL_3]),
];

/// The server of a proposal.
fn asked(step: Step) -> Option<ServerId> {
    match step {
        Open(server) | Deposit(server, _, _) | Withdraw(server, _, _) | Transfer(server, _, _, _) =>
            ServerId::from_number(server),
        _ => None,
    }
}

/// The event of a step.
fn happening(alloc: Global, step: Step) -> Option<RaftEvent<Bank>> {
    match command_of(step) {
        Some(command) => {
            let command = Box::new(alloc, command).ok()?;
            Some(RaftEvent::Propose(asked(step)?, command))
        }
        None => event_of(step),
    }
}

/// Whether all this happens in the world, and none of it is refused.
fn happens(alloc: Global, world: &mut RaftWorld<Bank>, steps: &[Step]) -> Option<bool> {
    for step in steps {
        if number_of(world.step(happening(alloc, *step)?)) != 0 {
            return Some(false);
        }
    }
    Some(true)
}

/// Puts a message to the end, which is to be the server's. The receiver's number is the fourth byte
/// behind the length.
fn put_message(message: &[u8], server: u8, batch: &mut Vec<u8>) -> Option<()> {
    if *message.get(7)? != server {
        return None;
    }
    batch.extend_from_slice(message).ok()
}

/// What comes at once.
fn batch_of(alloc: Global, server: u8, items: &[Item], messages: &[Vec<u8>]) -> Option<Vec<u8>> {
    let mut batch = Vec::new(alloc);
    for item in items {
        match *item {
            Says(bytes) => {
                let item = item_of(alloc, bytes).ok()?;
                batch.extend_from_slice(item.as_slice()).ok()?;
            }
            Message(number) => {
                let message = messages.get(number.checked_sub(1)?)?;
                put_message(message.as_slice(), server, &mut batch)?;
            }
        }
    }
    Some(batch)
}

/// Whether this item is the frame at a place among these.
fn is_frame(item: &[u8], frames: &Frames, place: usize) -> Option<bool> {
    Some(item.get(4..)? == frames.get(place)?.bytes())
}

/// Keeps what left as the next messages, and whether each is the world's.
fn carry(sent: Vec<Vec<u8>>, frames: &Frames, messages: &mut Vec<Vec<u8>>) -> Option<bool> {
    for item in sent {
        if !is_frame(item.as_slice(), frames, messages.len())? {
            return Some(false);
        }
        messages.push(item).ok()?;
    }
    Some(true)
}

/// What did not leave has a number too, and no bytes. Answers how many that are.
fn skip(alloc: Global, frames: &Frames, messages: &mut Vec<Vec<u8>>) -> Option<usize> {
    let left = messages.len();
    for _ in left..frames.len() {
        messages.push(Vec::new(alloc)).ok()?;
    }
    Some(frames.len().saturating_sub(left))
}

/// What a process does; the items that left are answered.
fn sent_by(
    alloc: Global,
    process: &mut Process,
    act: Act,
    messages: &[Vec<u8>],
) -> Option<Vec<Vec<u8>>> {
    let server = process.me().number();
    match act {
        Begins => {
            process.begin(alloc)?;
            Some(Vec::new(alloc))
        }
        Hears(number) => {
            let batch = batch_of(alloc, server, &[Message(number)], messages)?;
            process.take(alloc, batch, Kill::Never)
        }
        Takes(items) => {
            let batch = batch_of(alloc, server, items, messages)?;
            process.take(alloc, batch, Kill::Never)
        }
        Dies(items, kill) => {
            let batch = batch_of(alloc, server, items, messages)?;
            process.take(alloc, batch, kill)
        }
    }
}

/// Whether each process says that it stands so, and the world's server does.
fn stand(
    alloc: Global,
    world: &RaftWorld<Bank>,
    processes: &[Process],
    lines: [&str; 3],
) -> Option<bool> {
    for (process, line) in processes.iter().zip(lines) {
        let other = shown(alloc, world, process.me())?;
        if process.line() != line.as_bytes() || other.as_slice() != line.as_bytes() {
            return Some(false);
        }
    }
    Some(true)
}

/// Whether a row goes as it says.
fn goes(
    alloc: Global,
    world: &mut RaftWorld<Bank>,
    processes: &mut [Process],
    messages: &mut Vec<Vec<u8>>,
    row: &Row,
) -> Option<bool> {
    let (server, does, steps, lines) = *row;
    let place = ServerId::from_number(server)?.position();
    let sent = sent_by(alloc, processes.get_mut(place)?, does, messages.as_slice())?;
    let happened = happens(alloc, world, steps)?;
    let carried = carry(sent, world.sent(), messages)?;
    let lost = skip(alloc, world.sent(), messages)?;
    let is_all = lost == 0 || matches!(does, Dies(_, _));
    Some(happened && carried && is_all && stand(alloc, world, processes, lines)?)
}

/// Three processes that have begun.
fn begun(alloc: Global) -> Option<Vec<Process>> {
    let mut processes = Vec::new(alloc);
    for number in 1..=3 {
        let mut process = Process::new(alloc, ServerId::from_number(number)?);
        process.begin(alloc)?;
        processes.push(process).ok()?;
    }
    Some(processes)
}

/// How many rows go as they say.
fn played(alloc: Global) -> Option<usize> {
    let mut world = RaftWorld::new(alloc, 3).ok()?;
    let mut processes = begun(alloc)?;
    let mut messages = Vec::new(alloc);
    for (number, row) in ROWS.iter().enumerate() {
        if !goes(alloc, &mut world, &mut processes, &mut messages, row)? {
            return Some(number);
        }
    }
    Some(ROWS.len())
}

#[test]
fn killed_processes(rt: HostRuntime) {
    let rows = played(rt.alloc());
    assert!(rt; rows == Some(ROWS.len()), "row {rows:?}");
}
