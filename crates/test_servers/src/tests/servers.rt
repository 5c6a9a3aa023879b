//! Single servers: what each does with its inputs, one after another. (Raft, extended version 2014,
//! section 5 and Figure 2.)
use crate::tests::frames::V;
use machine::{Amount, Machine, Tally, TallyCommand};
use raft_core::{Input, NotProjected, Raft, Role, Stable};
use rows::{Actor, Refusal, ServerId};
use std::alloc::Global;
use wire::Frames;

/// A frame: its kind (1 a vote request, 2 a vote reply, 3 an Append, 4 the answer to one, 5 an
/// Install, 6 the answer to one), its sender, its receiver and the length of its body; the numbers
/// that the body begins with, and the bytes behind these.
#[derive(Clone, Copy)]
pub(super) struct Frame(
    pub(super) u8,
    pub(super) u8,
    pub(super) u8,
    pub(super) u8,
    pub(super) &'static [u64],
    pub(super) &'static [u8],
);

/// What is done with a server.
#[derive(Clone, Copy)]
pub(super) enum Act {
    Timeout,
    Beat,
    Compact,
    Crash,
    Restart,
    // A frame comes.
    Hear(Frame),
    // A command is proposed that adds this.
    Propose(u16),
    // The machine after the whole log is looked at: its count and its sum.
    Ahead(u64, u16),
    // It is made anew of what it stored.
    Reload,
}

use Act::{Ahead, Beat, Compact, Crash, Hear, Propose, Reload, Restart, Timeout};

/// An act; the number of the refusal, 0 where there is none, with the leader or the place that goes
/// with it; and what the server is then: its role (0 down, 1 follower, 2 candidate, 3 leader), its
/// term, its last index, how many entries are applied (99 while it is down), and the leader that it
/// knows. And how many frames it sends, the first of them in full.
pub(super) type RaftTurn = (Act, (u8, usize), [u64; 5], usize, &'static [Frame]);

/// Nothing is refused.
pub(super) const TAKEN: (u8, usize) = (0, 0);

// What stands behind the numbers: of a vote reply, that it is granted, and that it is not.
pub(super) const YES: &[u8] = &[1];

const NO: &[u8] = &[0];

// Of an answer to an Append: the log is held up to a place; it is not, and the leader is to try
// again from the first entry.
const OK_1: &[u8] = &[1, 0, 0, 0, 0, 0, 0, 0, 1];

pub(super) const OK_2: &[u8] = &[1, 0, 0, 0, 0, 0, 0, 0, 2];

pub(super) const OK_3: &[u8] = &[1, 0, 0, 0, 0, 0, 0, 0, 3];

pub(super) const NOT_OK: &[u8] = &[0, 0, 0, 0, 0, 0, 0, 0, 0];

// Of an Append: its entries, no-ops of these terms.
pub(super) const OF_NONE: &[u8] = &[0];

pub(super) const OF_1: &[u8] = &[1, 0, 0, 0, 0, 0, 0, 0, 1, 0];

pub(super) const OF_2: &[u8] = &[1, 0, 0, 0, 0, 0, 0, 0, 2, 0];

pub(super) const OF_3: &[u8] = &[1, 0, 0, 0, 0, 0, 0, 0, 3, 0];

pub(super) const OF_1_1: &[u8] = &[2, 0, 0, 0, 0, 0, 0, 0, 1, 0, 0, 0, 0, 0, 0, 0, 0, 1, 0];

const OF_1_3: &[u8] = &[2, 0, 0, 0, 0, 0, 0, 0, 1, 0, 0, 0, 0, 0, 0, 0, 0, 3, 0];

pub(super) const OF_2_2_2: &[u8] = &[
    3, 0, 0, 0, 0, 0, 0, 0, 2, 0, 0, 0, 0, 0, 0, 0, 0, 2, 0, 0, 0, 0, 0, 0, 0, 0, 2, 0,
];

const OF_1_1_2_3: &[u8] = &[
    4, 0, 0, 0, 0, 0, 0, 0, 1, 0, 0, 0, 0, 0, 0, 0, 0, 1, 0, 0, 0, 0, 0, 0, 0, 0, 2, 0, 0, 0, 0, 0,
    0, 0, 0, 3, 0,
];

// Server 1 asks for votes in term 1.
const ASKS_2: Frame = Frame(1, 1, 2, 24, &[1, 0, 0], &[]);

const ASKS_3: Frame = Frame(1, 1, 3, 24, &[1, 0, 0], &[]);

// It has a vote in term 1.
const VOTE_OF_2: Frame = Frame(2, 2, 1, 17, &[1, 1], YES);

const VOTE_OF_3: Frame = Frame(2, 3, 1, 17, &[1, 1], YES);

// Another vote is needed, and the same vote counts once. It leads in term 1, crashes, and leads
// again in term 3.
pub(super) const LEADS: &[RaftTurn] = &[
    (Timeout, TAKEN, [2, 1, 0, 0, 0], 4, &[ASKS_2, ASKS_3]),
    (Hear(VOTE_OF_2), TAKEN, [2, 1, 0, 0, 0], 0, &[]),
    (Hear(VOTE_OF_2), TAKEN, [2, 1, 0, 0, 0], 0, &[]),
    (Hear(VOTE_OF_3), TAKEN, [3, 1, 1, 0, 0], 0, &[]),
    (Crash, TAKEN, [0, 1, 1, 99, 0], 0, &[]),
    (Timeout, (16, 0), [0, 1, 1, 99, 0], 0, &[]),
    (Restart, TAKEN, [1, 1, 1, 0, 0], 0, &[]),
    (Restart, (12, 0), [1, 1, 1, 0, 0], 0, &[]),
    (
        Timeout,
        TAKEN,
        [2, 2, 1, 0, 0],
        4,
        &[Frame(1, 1, 2, 24, &[2, 1, 1], &[])],
    ),
    (
        Timeout,
        TAKEN,
        [2, 3, 1, 0, 0],
        4,
        &[Frame(1, 1, 2, 24, &[3, 1, 1], &[])],
    ),
    (
        Hear(Frame(2, 2, 1, 17, &[3, 3], YES)),
        TAKEN,
        [2, 3, 1, 0, 0],
        0,
        &[],
    ),
    (
        Hear(Frame(2, 3, 1, 17, &[3, 3], YES)),
        TAKEN,
        [3, 3, 2, 0, 0],
        0,
        &[],
    ),
];

/// A server of this number in a group of so many, first one list of turns and then another.
pub(super) type Case = (u8, usize, &'static [RaftTurn], &'static [RaftTurn]);

const ELECTIONS: &[Case] = &[
    (
        1,
        3,
        &[],
        &[
            (Timeout, TAKEN, [2, 1, 0, 0, 0], 2, &[ASKS_2, ASKS_3]),
            (Hear(VOTE_OF_3), TAKEN, [3, 1, 1, 0, 0], 0, &[]),
        ],
    ),
    // The first of these is for server 2.
    (
        3,
        3,
        &[],
        &[
            (Hear(ASKS_2), (15, 3), [1, 0, 0, 0, 0], 0, &[]),
            (Hear(ASKS_3), TAKEN, [1, 1, 0, 0, 0], 1, &[VOTE_OF_3]),
        ],
    ),
    (
        2,
        5,
        &[],
        &[(Hear(ASKS_2), TAKEN, [1, 1, 0, 0, 0], 1, &[VOTE_OF_2])],
    ),
    (
        3,
        5,
        &[],
        &[(Hear(ASKS_3), TAKEN, [1, 1, 0, 0, 0], 1, &[VOTE_OF_3])],
    ),
    // It gave its vote, and a crash does not make it forget.
    (
        2,
        3,
        &[],
        &[
            (Hear(ASKS_2), TAKEN, [1, 1, 0, 0, 0], 1, &[VOTE_OF_2]),
            (Crash, TAKEN, [0, 1, 0, 99, 0], 0, &[]),
            (Restart, TAKEN, [1, 1, 0, 0, 0], 0, &[]),
            (
                Hear(Frame(1, 3, 2, 24, &[1, 0, 0], &[])),
                TAKEN,
                [1, 1, 0, 0, 0],
                1,
                &[Frame(2, 2, 3, 17, &[1, 1], NO)],
            ),
        ],
    ),
    // In the greatest term none stands for election any more.
    (
        1,
        3,
        &[],
        &[
            (
                Hear(Frame(2, 2, 1, 17, &[1_099_511_627_775, 0], NO)),
                TAKEN,
                [1, 1_099_511_627_775, 0, 0, 0],
                0,
                &[],
            ),
            (Reload, TAKEN, [1, 1_099_511_627_775, 0, 0, 0], 0, &[]),
            (Timeout, (14, 0), [1, 1_099_511_627_775, 0, 0, 0], 0, &[]),
        ],
    ),
    // The terms of its entries, as it sends them to a server that has none.
    (
        1,
        5,
        LEADS,
        &[
            (
                Hear(Frame(4, 2, 1, 25, &[3, 3], NOT_OK)),
                TAKEN,
                [3, 3, 2, 0, 0],
                0,
                &[],
            ),
            (
                Beat,
                TAKEN,
                [3, 3, 2, 0, 0],
                4,
                &[Frame(3, 1, 2, 51, &[3, 0, 0, 0], OF_1_3)],
            ),
            (Reload, TAKEN, [1, 3, 2, 0, 0], 0, &[]),
        ],
    ),
];

// A leader in term 3 with entries of the terms 1 and 3.
const LEADERS: &[Case] = &[
    // An entry of an older term is not committed by counting.
    (
        1,
        5,
        LEADS,
        &[
            (
                Hear(Frame(4, 2, 1, 25, &[3, 3], OK_1)),
                TAKEN,
                [3, 3, 2, 0, 0],
                0,
                &[],
            ),
            (
                Hear(Frame(4, 3, 1, 25, &[3, 3], OK_1)),
                TAKEN,
                [3, 3, 2, 0, 0],
                0,
                &[],
            ),
            (
                Hear(Frame(4, 2, 1, 25, &[3, 3], OK_2)),
                TAKEN,
                [3, 3, 2, 0, 0],
                0,
                &[],
            ),
            (
                Hear(Frame(4, 3, 1, 25, &[3, 3], OK_2)),
                TAKEN,
                [3, 3, 2, 2, 0],
                0,
                &[],
            ),
        ],
    ),
    // An ok below match, and a refusal, leave match and begin right behind it.
    (
        1,
        5,
        LEADS,
        &[
            (
                Beat,
                TAKEN,
                [3, 3, 2, 0, 0],
                4,
                &[Frame(3, 1, 2, 42, &[3, 1, 1, 0], OF_3)],
            ),
            (
                Hear(Frame(4, 2, 1, 25, &[3, 3], OK_2)),
                TAKEN,
                [3, 3, 2, 0, 0],
                0,
                &[],
            ),
            (
                Beat,
                TAKEN,
                [3, 3, 2, 0, 0],
                4,
                &[Frame(3, 1, 2, 33, &[3, 2, 3, 0], OF_NONE)],
            ),
            (
                Hear(Frame(4, 2, 1, 25, &[3, 3], OK_1)),
                TAKEN,
                [3, 3, 2, 0, 0],
                0,
                &[],
            ),
            (
                Beat,
                TAKEN,
                [3, 3, 2, 0, 0],
                4,
                &[Frame(3, 1, 2, 33, &[3, 2, 3, 0], OF_NONE)],
            ),
            (
                Hear(Frame(4, 2, 1, 25, &[3, 3], NOT_OK)),
                TAKEN,
                [3, 3, 2, 0, 0],
                0,
                &[],
            ),
            (
                Beat,
                TAKEN,
                [3, 3, 2, 0, 0],
                4,
                &[Frame(3, 1, 2, 33, &[3, 2, 3, 0], OF_NONE)],
            ),
        ],
    ),
    // What is past its last entry counts for nothing.
    (
        1,
        5,
        LEADS,
        &[
            (
                Hear(Frame(4, 2, 1, 25, &[3, 3], OK_3)),
                TAKEN,
                [3, 3, 2, 0, 0],
                0,
                &[],
            ),
            (
                Hear(Frame(4, 3, 1, 25, &[3, 3], OK_3)),
                TAKEN,
                [3, 3, 2, 0, 0],
                0,
                &[],
            ),
            (
                Beat,
                TAKEN,
                [3, 3, 2, 0, 0],
                4,
                &[Frame(3, 1, 2, 42, &[3, 1, 1, 0], OF_3)],
            ),
        ],
    ),
    // Nobody else leads its term; one of an older term is told so.
    (
        1,
        5,
        LEADS,
        &[
            (
                Hear(Frame(3, 2, 1, 42, &[3, 0, 0, 0], OF_3)),
                TAKEN,
                [3, 3, 2, 0, 0],
                0,
                &[],
            ),
            (
                Hear(Frame(3, 2, 1, 42, &[2, 0, 0, 0], OF_2)),
                TAKEN,
                [3, 3, 2, 0, 0],
                1,
                &[Frame(4, 1, 2, 25, &[3, 2], NOT_OK)],
            ),
        ],
    ),
    // A proposal is weighed against the whole log, though nothing is committed.
    (
        1,
        5,
        LEADS,
        &[
            (Propose(600), TAKEN, [3, 3, 3, 0, 0], 0, &[]),
            (Ahead(3, 600), TAKEN, [3, 3, 3, 0, 0], 0, &[]),
            (Propose(500), (12, 0), [3, 3, 3, 0, 0], 0, &[]),
            (Propose(400), TAKEN, [3, 3, 4, 0, 0], 0, &[]),
        ],
    ),
];

// A follower of server 2.
const FOLLOWERS: &[Case] = &[
    // A shorter Append leaves a longer log.
    (
        1,
        3,
        &[],
        &[
            (
                Hear(Frame(3, 2, 1, 51, &[1, 0, 0, 0], OF_1_1)),
                TAKEN,
                [1, 1, 2, 0, 2],
                1,
                &[Frame(4, 1, 2, 25, &[1, 1], OK_2)],
            ),
            (
                Hear(Frame(3, 2, 1, 42, &[1, 0, 0, 0], OF_1)),
                TAKEN,
                [1, 1, 2, 0, 2],
                1,
                &[Frame(4, 1, 2, 25, &[1, 1], OK_1)],
            ),
        ],
    ),
    // Committed entries are passed over: it keeps those of term 1, as it shows when it leads.
    (
        1,
        3,
        &[],
        &[
            (
                Hear(Frame(3, 2, 1, 51, &[1, 0, 0, 2], OF_1_1)),
                TAKEN,
                [1, 1, 2, 2, 2],
                1,
                &[Frame(4, 1, 2, 25, &[1, 1], OK_2)],
            ),
            (
                Hear(Frame(3, 2, 1, 60, &[2, 0, 0, 0], OF_2_2_2)),
                TAKEN,
                [1, 2, 3, 2, 2],
                1,
                &[Frame(4, 1, 2, 25, &[2, 2], OK_3)],
            ),
            (Reload, TAKEN, [1, 2, 3, 0, 0], 0, &[]),
            (
                Timeout,
                TAKEN,
                [2, 3, 3, 0, 0],
                2,
                &[Frame(1, 1, 2, 24, &[3, 3, 2], &[])],
            ),
            (
                Hear(Frame(2, 2, 1, 17, &[3, 3], YES)),
                TAKEN,
                [3, 3, 4, 0, 0],
                0,
                &[],
            ),
            (
                Hear(Frame(4, 2, 1, 25, &[3, 3], NOT_OK)),
                TAKEN,
                [3, 3, 4, 0, 0],
                0,
                &[],
            ),
            (
                Beat,
                TAKEN,
                [3, 3, 4, 0, 0],
                2,
                &[Frame(3, 1, 2, 69, &[3, 0, 0, 0], OF_1_1_2_3)],
            ),
        ],
    ),
    // The entry before those that come is missing.
    (
        1,
        3,
        &[],
        &[(
            Hear(Frame(3, 2, 1, 42, &[1, 5, 0, 0], OF_1)),
            TAKEN,
            [1, 1, 0, 0, 2],
            1,
            &[Frame(4, 1, 2, 25, &[1, 1], NOT_OK)],
        )],
    ),
    // It refuses proposals, and names the leader that it knows.
    (
        1,
        3,
        &[],
        &[
            (Propose(1), (2, 0), [1, 0, 0, 0, 0], 0, &[]),
            (
                Hear(Frame(3, 2, 1, 42, &[1, 0, 0, 0], OF_1)),
                TAKEN,
                [1, 1, 1, 0, 2],
                1,
                &[Frame(4, 1, 2, 25, &[1, 1], OK_1)],
            ),
            (Propose(1), (2, 2), [1, 1, 1, 0, 2], 0, &[]),
            (Ahead(0, 0), (2, 0), [1, 1, 1, 0, 2], 0, &[]),
            (Crash, TAKEN, [0, 1, 1, 99, 0], 0, &[]),
            (Propose(1), (16, 0), [0, 1, 1, 99, 0], 0, &[]),
            (Ahead(0, 0), (16, 0), [0, 1, 1, 99, 0], 0, &[]),
        ],
    ),
];

// Puts the bytes of a frame in the place of others.
pub(super) fn put_frame(bytes: &mut Vec<u8>, frame: &Frame) -> bool {
    let Frame(kind, from, to, size, numbers, rest) = *frame;
    bytes.clear();
    let mut put = bytes
        .extend_from_slice(&[V, kind, from, to, 0, 0, 0, size])
        .is_ok();
    for number in numbers {
        put = put && bytes.extend_from_slice(&number.to_be_bytes()).is_ok();
    }
    put && bytes.extend_from_slice(rest).is_ok()
}

/// The number of a refusal, with the leader or the place that goes with it.
pub(super) fn number_of(answer: Result<(), Refusal>) -> (u8, usize) {
    match answer {
        Ok(()) => TAKEN,
        Err(refusal) => match refusal {
            Refusal::Frame(place) => (15, place),
            Refusal::NotLeader(leader) => match leader.get() {
                Some(server) => (2, server.number() as usize),
                None => (2, 0),
            },
            _ => (refusal.number(), 0),
        },
    }
}

/// What the machine after the whole log is refused for, and whether it has this count and this sum.
fn ahead(raft: &mut Raft<Tally>, count: u64, sum: u16) -> (u8, usize) {
    match raft.projected() {
        Ok(ahead) if ahead.count() == count && ahead.sum() == sum => TAKEN,
        Err(NotProjected::NotLeader) => (2, 0),
        Err(NotProjected::Down) => (16, 0),
        _ => (99, 0),
    }
}

pub(super) fn propose(raft: &mut Raft<Tally>, number: u16) -> (u8, usize) {
    match Amount::new(number) {
        Some(amount) => match raft.propose(TallyCommand::Add(amount)) {
            Ok(ticket) if ticket.index == raft.last() && ticket.term == raft.term() => TAKEN,
            Ok(_) => (98, 0),
            Err(refusal) => number_of(Err(refusal)),
        },
        None => (99, 0),
    }
}

/// Acts on a server, all but `Reload`, which does nothing here.
fn perform(raft: &mut Raft<Tally>, act: &Act, bytes: &[u8], sent: &mut Frames) -> (u8, usize) {
    let input = match act {
        Timeout => Input::Timeout,
        Beat => Input::Beat,
        Compact => Input::Compact,
        Crash => Input::Crash,
        Restart => Input::Restart,
        Hear(_) => Input::Frame(bytes),
        Propose(number) => return propose(raft, *number),
        Ahead(count, sum) => return ahead(raft, *count, *sum),
        Reload => return TAKEN,
    };
    number_of(raft.step(input, sent))
}

fn role_of(raft: &Raft<Tally>) -> u64 {
    match raft.role() {
        None => 0,
        Some(Role::Follower) => 1,
        Some(Role::Candidate) => 2,
        Some(Role::Leader) => 3,
    }
}

fn applied_of(raft: &Raft<Tally>) -> u64 {
    match (raft.applied(), raft.machine()) {
        (Some(applied), Some(machine)) if machine.count() == applied.get() => applied.get(),
        (None, None) => 99,
        _ => 98,
    }
}

/// What a server is.
fn shown(raft: &Raft<Tally>) -> [u64; 5] {
    let known = match raft.known_leader() {
        Some(server) => u64::from(server.number()),
        None => 0,
    };
    [
        role_of(raft),
        raft.term().get(),
        raft.last().get(),
        applied_of(raft),
        known,
    ]
}

fn is_sent(sent: &Frames, frames: &[Frame], bytes: &mut Vec<u8>) -> bool {
    for (at, wanted) in frames.iter().enumerate() {
        let Some(frame) = sent.get(at) else {
            return false;
        };
        let same = put_frame(bytes, wanted) && frame.bytes() == bytes.as_slice();
        if !same || !matches!(frame.to(), Actor::Server(to) if to.number() == wanted.2) {
            return false;
        }
    }
    true
}

fn holds(raft: &mut Raft<Tally>, alloc: Global, turn: &RaftTurn) -> bool {
    let (act, answer, state, count, frames) = *turn;
    let mut sent = Frames::new(alloc);
    let mut bytes = Vec::new(alloc);
    let heard = match act {
        Hear(frame) => put_frame(&mut bytes, &frame),
        _ => true,
    };
    heard
        && perform(raft, &act, &bytes, &mut sent) == answer
        && shown(raft) == state
        && sent.len() == count
        && is_sent(&sent, frames, &mut bytes)
}

fn reload(raft: Raft<Tally>, alloc: Global, me: ServerId, size: usize) -> Option<Raft<Tally>> {
    Raft::restart(alloc, me, size, raft.into_stable()).ok()
}

// Plays turns, a server that reloads being made anew before its turn is looked at.
fn play(
    alloc: Global,
    me: ServerId,
    size: usize,
    turns: &[RaftTurn],
    start: Raft<Tally>,
) -> Option<Raft<Tally>> {
    let mut raft = start;
    for turn in turns {
        if let Reload = turn.0 {
            raft = reload(raft, alloc, me, size)?;
        }
        if !holds(&mut raft, alloc, turn) {
            return None;
        }
    }
    Some(raft)
}

pub(super) fn is_played(alloc: Global, case: &Case) -> Option<bool> {
    let (me, size, start, more) = *case;
    let me = ServerId::from_number(me)?;
    let raft = Raft::restart(alloc, me, size, Stable::new(alloc)).ok()?;
    let raft = play(alloc, me, size, start, raft)?;
    Some(play(alloc, me, size, more, raft).is_some())
}

#[test]
fn acts_as_a_server(rt: HostRuntime) {
    for cases in [ELECTIONS, LEADERS, FOLLOWERS] {
        for (number, case) in cases.iter().enumerate() {
            assert!(rt; is_played(rt.alloc(), case) == Some(true), "case {number}");
        }
    }
}
