//! One client: what its agent does with its inputs, one after another. The refusals and what it
//! runs are worked out by hand from the rules of clients, and the frames put together from the
//! format.
use crate::tests::frames::V;
use crate::tests::servers::{TAKEN, number_of};
use client_agent::{Agent, RunningAllocation};
use group_inputs::ClientInput;
use rows::{Actor, AllocId, EntryIndex, Name, NodeId, NodeSpec, Ordinal, Sequence, ServerId, Size};
use std::alloc::Global;
use wire::Frames;

/// What is done with the client.
#[derive(Clone, Copy)]
enum Act {
    // A frame comes.
    Hear(&'static [u8]),
    // It is to register with the server of this number; to send it a heartbeat; to ask it for its
    // list.
    Register(u8),
    Ping(u8),
    Pull(u8),
    // An allocation ends, complete or failed.
    End(Id, bool),
    Crash,
    Restart,
}

use Act::{Crash, End, Hear, Ping, Pull, Register, Restart};

/// An allocation's id.
type Id = (u64, u8);

/// The id of what runs, its cpu, its memory and its disk.
type Run = (Id, u32, u32, u32);

/// What is known of the client: while it is up the index of its last list, and what runs; and what
/// it ever started.
type Known = (Option<(u64, &'static [Run])>, &'static [Id]);

/// An act; the number of the refusal, 0 where there is none, with the place that goes with it; the
/// one frame that is sent, empty where none is; and what is known of the client then.
type AgentTurn = (Act, (u8, usize), &'static [u8], Known);

/// Nothing is sent.
const NONE: &[u8] = &[];

// It is up or down, and never started anything.
const UP: Known = (Some((0, &[])), &[]);

const DOWN: Known = (None, &[]);

// Client 1 registers with server 2, a node of class `linux`, 1000, 2000 and 7 of disk; and so with
// server 1.
const REGISTERS: &[u8] = &[
    V, 14, 129, 2, 0, 0, 0, 18, //
    5, 108, 105, 110, 117, 120, 0, 0, 3, 232, 0, 0, 7, 208, 0, 0, 0, 7,
];

const REGISTERS_AGAIN: &[u8] = &[
    V, 14, 129, 1, 0, 0, 0, 18, //
    5, 108, 105, 110, 117, 120, 0, 0, 3, 232, 0, 0, 7, 208, 0, 0, 0, 7,
];

// It sends server 3 a heartbeat, and asks server 1 for its list.
const PINGS: &[u8] = &[V, 15, 129, 3, 0, 0, 0, 0];

const PULLS: &[u8] = &[V, 16, 129, 1, 0, 0, 0, 0];

// Server 1 tells client 1 that its Register is taken; server 4 does; it tells client 2; and the
// first of these without its last byte.
const TELLS: &[u8] = &[V, 19, 1, 129, 0, 0, 0, 3, 14, 0, 0];

const FOURTH_TELLS: &[u8] = &[V, 19, 4, 129, 0, 0, 0, 3, 14, 0, 0];

const TELLS_SECOND: &[u8] = &[V, 19, 1, 130, 0, 0, 0, 3, 14, 0, 0];

const CUT: &[u8] = &[V, 19, 1, 129, 0, 0, 0, 3, 14, 0];

// Server 4 tells client 2; server 1 asks itself for an evaluation.
const FOURTH_TELLS_SECOND: &[u8] = &[V, 19, 4, 130, 0, 0, 0, 3, 14, 0, 0];

const ASKS: &[u8] = &[V, 7, 1, 1, 0, 0, 0, 0];

// Lists for client 1: of server 1 in the state of index 9, 8.0 of 600 and 300 is pending; the same
// of server 2; it runs there, by server 3. By server 2, index 7: 5.0 of 100 and 100.
const LIST_9: &[u8] = &[
    V, 17, 1, 129, 0, 0, 0, 34, 0, 0, 0, 0, 0, 0, 0, 9, 0, 0, 0, 1, //
    0, 0, 0, 0, 0, 0, 0, 8, 0, 0, 0, 2, 88, 0, 0, 1, 44, 0, 0, 0, 0, 0,
];

const LIST_9_OF_2: &[u8] = &[
    V, 17, 2, 129, 0, 0, 0, 34, 0, 0, 0, 0, 0, 0, 0, 9, 0, 0, 0, 1, //
    0, 0, 0, 0, 0, 0, 0, 8, 0, 0, 0, 2, 88, 0, 0, 1, 44, 0, 0, 0, 0, 0,
];

const LIST_9_OF_3: &[u8] = &[
    V, 17, 3, 129, 0, 0, 0, 34, 0, 0, 0, 0, 0, 0, 0, 9, 0, 0, 0, 1, //
    0, 0, 0, 0, 0, 0, 0, 8, 0, 0, 0, 2, 88, 0, 0, 1, 44, 0, 0, 0, 0, 1,
];

const LIST_7: &[u8] = &[
    V, 17, 2, 129, 0, 0, 0, 34, 0, 0, 0, 0, 0, 0, 0, 7, 0, 0, 0, 1, //
    0, 0, 0, 0, 0, 0, 0, 5, 0, 0, 0, 0, 100, 0, 0, 0, 100, 0, 0, 0, 0, 0,
];

// Of server 1, index 10: 8.0 runs. Index 11: 8.0 is pending.
const LIST_10: &[u8] = &[
    V, 17, 1, 129, 0, 0, 0, 34, 0, 0, 0, 0, 0, 0, 0, 10, 0, 0, 0, 1, //
    0, 0, 0, 0, 0, 0, 0, 8, 0, 0, 0, 2, 88, 0, 0, 1, 44, 0, 0, 0, 0, 1,
];

const LIST_11: &[u8] = &[
    V, 17, 1, 129, 0, 0, 0, 34, 0, 0, 0, 0, 0, 0, 0, 11, 0, 0, 0, 1, //
    0, 0, 0, 0, 0, 0, 0, 8, 0, 0, 0, 2, 88, 0, 0, 1, 44, 0, 0, 0, 0, 0,
];

// Of server 1, index 9 and 10: 8.0 is unknown.
const LIST_9_UNKNOWN: &[u8] = &[
    V, 17, 1, 129, 0, 0, 0, 34, 0, 0, 0, 0, 0, 0, 0, 9, 0, 0, 0, 1, //
    0, 0, 0, 0, 0, 0, 0, 8, 0, 0, 0, 2, 88, 0, 0, 1, 44, 0, 0, 0, 0, 2,
];

const LIST_10_UNKNOWN: &[u8] = &[
    V, 17, 1, 129, 0, 0, 0, 34, 0, 0, 0, 0, 0, 0, 0, 10, 0, 0, 0, 1, //
    0, 0, 0, 0, 0, 0, 0, 8, 0, 0, 0, 2, 88, 0, 0, 1, 44, 0, 0, 0, 0, 2,
];

// The first of them by server 4, for client 2, without its last byte, and with 8.0 twice.
const LIST_OF_4: &[u8] = &[
    V, 17, 4, 129, 0, 0, 0, 34, 0, 0, 0, 0, 0, 0, 0, 9, 0, 0, 0, 1, //
    0, 0, 0, 0, 0, 0, 0, 8, 0, 0, 0, 2, 88, 0, 0, 1, 44, 0, 0, 0, 0, 0,
];

const LIST_FOR_2: &[u8] = &[
    V, 17, 1, 130, 0, 0, 0, 34, 0, 0, 0, 0, 0, 0, 0, 9, 0, 0, 0, 1, //
    0, 0, 0, 0, 0, 0, 0, 8, 0, 0, 0, 2, 88, 0, 0, 1, 44, 0, 0, 0, 0, 0,
];

const CUT_LIST: &[u8] = &[
    V, 17, 1, 129, 0, 0, 0, 34, 0, 0, 0, 0, 0, 0, 0, 9, 0, 0, 0, 1, //
    0, 0, 0, 0, 0, 0, 0, 8, 0, 0, 0, 2, 88, 0, 0, 1, 44, 0, 0, 0, 0,
];

const DOUBLE: &[u8] = &[
    V, 17, 1, 129, 0, 0, 0, 56, 0, 0, 0, 0, 0, 0, 0, 9, 0, 0, 0, 2, //
    0, 0, 0, 0, 0, 0, 0, 8, 0, 0, 0, 2, 88, 0, 0, 1, 44, 0, 0, 0, 0, 0, //
    0, 0, 0, 0, 0, 0, 0, 8, 0, 0, 0, 2, 88, 0, 0, 1, 44, 0, 0, 0, 0, 0,
];

// Client 1 reports to server 1 that 8.0 runs, and to server 2; that it is complete; that it failed.
const RUNS: &[u8] = &[V, 18, 129, 1, 0, 0, 0, 11, 1, 0, 0, 0, 0, 0, 0, 0, 8, 0, 1];

const RUNS_FOR_2: &[u8] = &[V, 18, 129, 2, 0, 0, 0, 11, 1, 0, 0, 0, 0, 0, 0, 0, 8, 0, 1];

const IS_COMPLETE: &[u8] = &[V, 18, 129, 1, 0, 0, 0, 11, 1, 0, 0, 0, 0, 0, 0, 0, 8, 0, 2];

const HAS_FAILED: &[u8] = &[V, 18, 129, 1, 0, 0, 0, 11, 1, 0, 0, 0, 0, 0, 0, 0, 8, 0, 3];

// What is known of the client while 8.0 runs, and when the second list was taken and it does not.
const RUNS_8: &[Run] = &[((8, 0), 600, 300, 0)];

const HAS_8: Known = (Some((9, RUNS_8)), &[(8, 0)]);

const HAD_8: Known = (Some((10, &[])), &[(8, 0)]);

// Four are pending in the state of index 9: 8.0 of 600 and 300; 8.1 of 401 and 1, and 8.2 of 1 and
// 701, which do not fit beside it; and 8.3 of 400 and 700, which just does.
const LIST_OF_FOUR: &[u8] = &[
    V, 17, 1, 129, 0, 0, 0, 100, 0, 0, 0, 0, 0, 0, 0, 9, 0, 0, 0, 4, //
    0, 0, 0, 0, 0, 0, 0, 8, 0, 0, 0, 2, 88, 0, 0, 1, 44, 0, 0, 0, 0, 0, //
    0, 0, 0, 0, 0, 0, 0, 8, 1, 0, 0, 1, 145, 0, 0, 0, 1, 0, 0, 0, 0, 0, //
    0, 0, 0, 0, 0, 0, 0, 8, 2, 0, 0, 0, 1, 0, 0, 2, 189, 0, 0, 0, 0, 0, //
    0, 0, 0, 0, 0, 0, 0, 8, 3, 0, 0, 1, 144, 0, 0, 2, 188, 0, 0, 0, 0, 0,
];

const TWO_RUN: &[u8] = &[
    V, 18, 129, 1, 0, 0, 0, 21, 2, 0, 0, 0, 0, 0, 0, 0, 8, 0, 1, //
    0, 0, 0, 0, 0, 0, 0, 8, 3, 1,
];

// When 8.0 is complete and 8.3 failed, 8.1 and 8.2 run. Later all four count as failed.
const OTHERS_RUN: &[u8] = &[
    V, 18, 129, 1, 0, 0, 0, 41, 4, 0, 0, 0, 0, 0, 0, 0, 8, 0, 2, //
    0, 0, 0, 0, 0, 0, 0, 8, 1, 1, //
    0, 0, 0, 0, 0, 0, 0, 8, 2, 1, //
    0, 0, 0, 0, 0, 0, 0, 8, 3, 3,
];

const ALL_FAILED: &[u8] = &[
    V, 18, 129, 1, 0, 0, 0, 41, 4, 0, 0, 0, 0, 0, 0, 0, 8, 0, 3, //
    0, 0, 0, 0, 0, 0, 0, 8, 1, 3, //
    0, 0, 0, 0, 0, 0, 0, 8, 2, 3, //
    0, 0, 0, 0, 0, 0, 0, 8, 3, 3,
];

// Index 12: 8.1 is pending and 8.3 runs. Index 13: 8.0 is pending. Index 14: none is live.
const LIST_12: &[u8] = &[
    V, 17, 1, 129, 0, 0, 0, 56, 0, 0, 0, 0, 0, 0, 0, 12, 0, 0, 0, 2, //
    0, 0, 0, 0, 0, 0, 0, 8, 1, 0, 0, 1, 145, 0, 0, 0, 1, 0, 0, 0, 0, 0, //
    0, 0, 0, 0, 0, 0, 0, 8, 3, 0, 0, 1, 144, 0, 0, 2, 188, 0, 0, 0, 0, 1,
];

const SECOND_RUNS: &[u8] = &[V, 18, 129, 1, 0, 0, 0, 11, 1, 0, 0, 0, 0, 0, 0, 0, 8, 1, 1];

const LIST_13: &[u8] = &[
    V, 17, 1, 129, 0, 0, 0, 34, 0, 0, 0, 0, 0, 0, 0, 13, 0, 0, 0, 1, //
    0, 0, 0, 0, 0, 0, 0, 8, 0, 0, 0, 2, 88, 0, 0, 1, 44, 0, 0, 0, 0, 0,
];

const LIST_14: &[u8] = &[
    V, 17, 1, 129, 0, 0, 0, 12, 0, 0, 0, 0, 0, 0, 0, 14, 0, 0, 0, 0,
];

const RUNS_8_3: Run = ((8, 3), 400, 700, 0);

const BOTH_RUN: Known = (
    Some((9, &[((8, 0), 600, 300, 0), RUNS_8_3])),
    &[(8, 0), (8, 3)],
);

const THREE: &[Id] = &[(8, 0), (8, 3), (8, 1)];

const FOUR: &[Id] = &[(8, 0), (8, 3), (8, 1), (8, 2)];

// What is asked of servers, and what comes from them and is no list.
const ASKS_AND_HEARS: &[AgentTurn] = &[
    (Restart, (12, 0), NONE, UP),
    (Register(2), TAKEN, REGISTERS, UP),
    (Register(4), (12, 0), NONE, UP),
    (Ping(3), TAKEN, PINGS, UP),
    (Ping(4), (12, 0), NONE, UP),
    (Pull(1), TAKEN, PULLS, UP),
    (Pull(5), (12, 0), NONE, UP),
    (End((8, 0), true), (21, 0), NONE, UP),
    (Hear(TELLS), TAKEN, NONE, UP),
    (Hear(CUT), (15, 4), NONE, UP),
    (Hear(FOURTH_TELLS), (15, 2), NONE, UP),
    (Hear(FOURTH_TELLS_SECOND), (15, 2), NONE, UP),
    (Hear(REGISTERS), (15, 3), NONE, UP),
    (Hear(PINGS), (15, 3), NONE, UP),
    (Hear(PULLS), (15, 3), NONE, UP),
    (Hear(RUNS), (15, 3), NONE, UP),
    (Hear(TELLS_SECOND), (15, 3), NONE, UP),
    (Hear(ASKS), (15, 3), NONE, UP),
    (Crash, TAKEN, NONE, DOWN),
    (Crash, (16, 0), NONE, DOWN),
    (Register(2), (16, 0), NONE, DOWN),
    (Register(4), (16, 0), NONE, DOWN),
    (Ping(3), (16, 0), NONE, DOWN),
    (Ping(4), (16, 0), NONE, DOWN),
    (Pull(1), (16, 0), NONE, DOWN),
    (Pull(5), (16, 0), NONE, DOWN),
    (End((8, 0), false), (16, 0), NONE, DOWN),
    (Hear(CUT), (16, 0), NONE, DOWN),
    (Hear(LIST_9), (16, 0), NONE, DOWN),
    (Restart, TAKEN, NONE, UP),
    (Register(1), TAKEN, REGISTERS_AGAIN, UP),
];

// An allocation starts once, and is reported to whoever lists it otherwise; it ends; and how it
// ended is not known any more after a crash.
const STARTS_ONCE: &[AgentTurn] = &[
    (Hear(LIST_OF_4), (15, 2), NONE, UP),
    (Hear(LIST_FOR_2), (15, 3), NONE, UP),
    (Hear(CUT_LIST), (15, 4), NONE, UP),
    (Hear(DOUBLE), (15, 42), NONE, UP),
    (Hear(LIST_9), TAKEN, RUNS, HAS_8),
    (Hear(LIST_7), TAKEN, NONE, HAS_8),
    (Hear(LIST_9), TAKEN, RUNS, HAS_8),
    (Hear(LIST_9_OF_2), TAKEN, RUNS_FOR_2, HAS_8),
    (Hear(LIST_9_OF_3), TAKEN, NONE, HAS_8),
    (Hear(TELLS), TAKEN, NONE, HAS_8),
    (End((5, 0), true), (21, 0), NONE, HAS_8),
    (End((8, 0), true), TAKEN, NONE, (Some((9, &[])), &[(8, 0)])),
    (Hear(LIST_10), TAKEN, IS_COMPLETE, HAD_8),
    (End((8, 0), true), (21, 0), NONE, HAD_8),
    (Hear(LIST_9), TAKEN, NONE, HAD_8),
    (Crash, TAKEN, NONE, (None, &[(8, 0)])),
    (End((8, 0), true), (16, 0), NONE, (None, &[(8, 0)])),
    (Hear(LIST_10), (16, 0), NONE, (None, &[(8, 0)])),
    (Restart, TAKEN, NONE, (Some((0, &[])), &[(8, 0)])),
    (
        End((8, 0), true),
        (21, 0),
        NONE,
        (Some((0, &[])), &[(8, 0)]),
    ),
    (Hear(LIST_10), TAKEN, HAS_FAILED, HAD_8),
    (
        Hear(LIST_11),
        TAKEN,
        HAS_FAILED,
        (Some((11, &[])), &[(8, 0)]),
    ),
];

// What is listed as unknown is as any other: it starts once, runs on, and is reported as what it
// is.
const UNKNOWN_ONES: &[AgentTurn] = &[
    (Hear(LIST_9_UNKNOWN), TAKEN, RUNS, HAS_8),
    (Hear(LIST_9_OF_3), TAKEN, NONE, HAS_8),
    (Hear(LIST_9_UNKNOWN), TAKEN, RUNS, HAS_8),
    (End((8, 0), true), TAKEN, NONE, (Some((9, &[])), &[(8, 0)])),
    (Hear(LIST_10_UNKNOWN), TAKEN, IS_COMPLETE, HAD_8),
    (Hear(LIST_9_UNKNOWN), TAKEN, NONE, HAD_8),
    (Crash, TAKEN, NONE, (None, &[(8, 0)])),
    (Restart, TAKEN, NONE, (Some((0, &[])), &[(8, 0)])),
    (Hear(LIST_10_UNKNOWN), TAKEN, HAS_FAILED, HAD_8),
];

// What is not listed any more stops, and does not start again.
const STOPS: &[AgentTurn] = &[
    (Hear(LIST_OF_FOUR), TAKEN, TWO_RUN, BOTH_RUN),
    (Hear(LIST_OF_FOUR), TAKEN, TWO_RUN, BOTH_RUN),
    (
        Hear(LIST_12),
        TAKEN,
        SECOND_RUNS,
        (Some((12, &[RUNS_8_3, ((8, 1), 401, 1, 0)])), THREE),
    ),
    (Hear(LIST_13), TAKEN, HAS_FAILED, (Some((13, &[])), THREE)),
    (Hear(LIST_14), TAKEN, NONE, (Some((14, &[])), THREE)),
];

// What ended leaves its room to others.
const ENDS: &[AgentTurn] = &[
    (Hear(LIST_OF_FOUR), TAKEN, TWO_RUN, BOTH_RUN),
    (
        End((8, 3), false),
        TAKEN,
        NONE,
        (Some((9, RUNS_8)), &[(8, 0), (8, 3)]),
    ),
    (
        End((8, 1), true),
        (21, 0),
        NONE,
        (Some((9, RUNS_8)), &[(8, 0), (8, 3)]),
    ),
    (
        End((8, 0), true),
        TAKEN,
        NONE,
        (Some((9, &[])), &[(8, 0), (8, 3)]),
    ),
    (
        Hear(LIST_OF_FOUR),
        TAKEN,
        OTHERS_RUN,
        (Some((9, &[((8, 1), 401, 1, 0), ((8, 2), 1, 701, 0)])), FOUR),
    ),
    (Crash, TAKEN, NONE, (None, FOUR)),
    (Restart, TAKEN, NONE, (Some((0, &[])), FOUR)),
    (
        Hear(LIST_OF_FOUR),
        TAKEN,
        ALL_FAILED,
        (Some((9, &[])), FOUR),
    ),
];

// Four are pending in the state of index 9, on a node of disk 100: 8.0 of 60; 8.1 of 41, which does
// not fit beside it; 8.2 of 40, which just does; and 8.3 of none.
const LIST_ON_DISK: &[u8] = &[
    V, 17, 1, 129, 0, 0, 0, 100, 0, 0, 0, 0, 0, 0, 0, 9, 0, 0, 0, 4, //
    0, 0, 0, 0, 0, 0, 0, 8, 0, 0, 0, 0, 1, 0, 0, 0, 1, 0, 0, 0, 60, 0, //
    0, 0, 0, 0, 0, 0, 0, 8, 1, 0, 0, 0, 1, 0, 0, 0, 1, 0, 0, 0, 41, 0, //
    0, 0, 0, 0, 0, 0, 0, 8, 2, 0, 0, 0, 1, 0, 0, 0, 1, 0, 0, 0, 40, 0, //
    0, 0, 0, 0, 0, 0, 0, 8, 3, 0, 0, 0, 1, 0, 0, 0, 1, 0, 0, 0, 0, 0,
];

const THREE_RUN: &[u8] = &[
    V, 18, 129, 1, 0, 0, 0, 31, 3, 0, 0, 0, 0, 0, 0, 0, 8, 0, 1, //
    0, 0, 0, 0, 0, 0, 0, 8, 2, 1, //
    0, 0, 0, 0, 0, 0, 0, 8, 3, 1,
];

// When 8.0 is complete 8.1 runs too.
const LAST_RUNS: &[u8] = &[
    V, 18, 129, 1, 0, 0, 0, 41, 4, 0, 0, 0, 0, 0, 0, 0, 8, 0, 2, //
    0, 0, 0, 0, 0, 0, 0, 8, 1, 1, //
    0, 0, 0, 0, 0, 0, 0, 8, 2, 1, //
    0, 0, 0, 0, 0, 0, 0, 8, 3, 1,
];

const ON_DISK_2: Run = ((8, 2), 1, 1, 40);

const ON_DISK_3: Run = ((8, 3), 1, 1, 0);

const THREE_ON_DISK: &[Id] = &[(8, 0), (8, 2), (8, 3)];

// What does not fit on what is left of the node's disk is not started, and starts when that is
// free.
const FILLS_ITS_DISK: &[AgentTurn] = &[
    (
        Hear(LIST_ON_DISK),
        TAKEN,
        THREE_RUN,
        (
            Some((9, &[((8, 0), 1, 1, 60), ON_DISK_2, ON_DISK_3])),
            THREE_ON_DISK,
        ),
    ),
    (
        End((8, 0), true),
        TAKEN,
        NONE,
        (Some((9, &[ON_DISK_2, ON_DISK_3])), THREE_ON_DISK),
    ),
    (
        Hear(LIST_ON_DISK),
        TAKEN,
        LAST_RUNS,
        (
            Some((9, &[ON_DISK_2, ON_DISK_3, ((8, 1), 1, 1, 41)])),
            &[(8, 0), (8, 2), (8, 3), (8, 1)],
        ),
    ),
];

/// The memory and the disk of the client's node, and what is done with the client.
const PLAYS: &[((u32, u32), &[AgentTurn])] = &[
    ((2000, 7), ASKS_AND_HEARS),
    ((1000, 0), STARTS_ONCE),
    ((1000, 0), UNKNOWN_ONES),
    ((1000, 0), STOPS),
    ((1000, 0), ENDS),
    ((1000, 100), FILLS_ITS_DISK),
];

// The front of the frame of a list of 70 allocations, of one of 65,536, and of a report of 64; and
// what stands behind the id of each in the list: 1, 1 and 0, and that it is pending, or runs.
const LIST_OF_70: &[u8] = &[
    V, 17, 1, 129, 0, 0, 6, 16, 0, 0, 0, 0, 0, 0, 0, 9, 0, 0, 0, 70,
];

const LIST_OF_MOST: &[u8] = &[
    V, 17, 1, 129, 0, 22, 0, 12, 0, 0, 0, 0, 0, 0, 4, 0, 0, 1, 0, 0,
];

const REPORT_OF_64: &[u8] = &[V, 18, 129, 1, 0, 0, 2, 129, 64];

const IS_PENDING: &[u8] = &[0, 0, 0, 1, 0, 0, 0, 1, 0, 0, 0, 0, 0];

const IS_RUNNING: &[u8] = &[0, 0, 0, 1, 0, 0, 0, 1, 0, 0, 0, 0, 1];

/// A list of many: the front of its frame, how many are listed, and how many of them, first in the
/// list, as running.
type Many = (&'static [u8], u32, u32);

const LISTS_OF_MANY: &[(u32, &[Many])] = &[
    (
        1000,
        &[
            (LIST_OF_70, 70, 0),
            (LIST_OF_70, 70, 5),
            (LIST_OF_70, 70, 6),
        ],
    ),
    (
        1_000_000,
        &[(LIST_OF_MOST, 65_536, 0), (LIST_OF_MOST, 65_536, 65_472)],
    ),
];

fn id_of(id: Id) -> Option<AllocId> {
    let index = EntryIndex::new(id.0)?;
    let slot = Ordinal::new(id.1)?;
    Some(AllocId { index, slot })
}

fn input_of(alloc: Global, act: &Act) -> Option<ClientInput> {
    match act {
        Hear(bytes) => {
            let mut frame = Vec::new(alloc);
            frame.extend_from_slice(bytes).ok()?;
            Some(ClientInput::Frame(Sequence::from_vec(frame)))
        }
        Register(server) => Some(ClientInput::Register(ServerId::from_number(*server)?)),
        Ping(server) => Some(ClientInput::Ping(ServerId::from_number(*server)?)),
        Pull(server) => Some(ClientInput::Pull(ServerId::from_number(*server)?)),
        End(id, ok) => Some(ClientInput::End(id_of(*id)?, *ok)),
        Crash => Some(ClientInput::Crash),
        Restart => Some(ClientInput::Restart),
    }
}

/// What the act is answered; a frame may be handed in by its own call.
fn answer_to(
    agent: &mut Agent,
    alloc: Global,
    act: &Act,
    is_received: bool,
    sent: &mut Frames,
) -> Option<(u8, usize)> {
    match act {
        Hear(bytes) if is_received => Some(number_of(agent.receive(bytes, sent))),
        _ => {
            let input = input_of(alloc, act)?.try_clone(alloc).ok()?;
            Some(number_of(agent.step(input, sent)))
        }
    }
}

/// Whether this frame alone is sent, to the server that stands in it, or none where it is empty.
fn is_sent(sent: &Frames, frame: &[u8]) -> bool {
    match (sent.get(0), frame.get(3)) {
        (Some(first), Some(to)) => {
            let Actor::Server(server) = first.to() else {
                return false;
            };
            sent.len() == 1 && first.bytes() == frame && server.number() == *to
        }
        (first, _) => first.is_none() && frame.is_empty(),
    }
}

fn is_id(id: AllocId, wanted: Id) -> bool {
    id.index.get() == wanted.0 && id.slot.get() == wanted.1
}

fn are_ids(ids: &[AllocId], wanted: &[Id]) -> bool {
    let mut same = ids.len() == wanted.len();
    for (id, other) in ids.iter().zip(wanted) {
        same = same && is_id(*id, *other);
    }
    same
}

fn are_running(all: &[RunningAllocation], wanted: &[Run]) -> bool {
    let mut same = all.len() == wanted.len();
    for (one, (id, cpu, mem, disk)) in all.iter().zip(wanted) {
        same = same
            && is_id(one.id, *id)
            && one.size.cpu.get() == *cpu
            && one.size.mem.get() == *mem
            && one.size.disk.get() == *disk;
    }
    same
}

fn is_known(agent: &Agent, known: &Known) -> bool {
    let (life, started) = *known;
    let same = match (agent.seen(), agent.running(), life) {
        (Some(seen), Some(running), Some((index, wanted))) => {
            agent.is_up() && seen.get() == index && are_running(running, wanted)
        }
        (None, None, None) => !agent.is_up(),
        _ => false,
    };
    same && are_ids(agent.started(), started)
}

fn holds(agent: &mut Agent, alloc: Global, turn: &AgentTurn, is_received: bool) -> bool {
    let (act, answer, frame, known) = turn;
    let mut sent = Frames::new(alloc);
    answer_to(agent, alloc, act, is_received, &mut sent) == Some(*answer)
        && is_sent(&sent, frame)
        && is_known(agent, known)
}

fn node_of(cpu: u32, mem: u32, disk: u32) -> Option<NodeSpec> {
    Some(NodeSpec {
        number: NodeId::from_number(1)?,
        class: Name::from_bytes(b"linux")?,
        size: Size::check(cpu, mem, disk).ok()?,
    })
}

fn is_played(
    alloc: Global,
    room: (u32, u32),
    turns: &[AgentTurn],
    is_received: bool,
) -> Option<bool> {
    let (mem, disk) = room;
    let node = node_of(1000, mem, disk)?;
    let mut agent = Agent::new(alloc, node, 3).ok()?;
    for turn in turns {
        if !holds(&mut agent, alloc, turn, is_received) {
            return Some(false);
        }
    }
    Some(agent.node() == node)
}

// The allocations from one to another, 1.0 to 1.63 and 2.0 on, with these bytes behind the id of
// each.
fn put_many(out: &mut Vec<u8>, first: u32, end: u32, rest: &[u8]) -> bool {
    let mut put = true;
    for number in first..end {
        put = put
            && out.extend_from_slice(&[0; 4]).is_ok()
            && out
                .extend_from_slice(&(number / 64 + 1).to_be_bytes())
                .is_ok()
            && out.push((number % 64) as u8).is_ok()
            && out.extend_from_slice(rest).is_ok();
    }
    put
}

/// Whether all of the list run then, and the first 64 that are listed as pending are reported.
fn are_first_reported(agent: &mut Agent, alloc: Global, many: &Many) -> bool {
    let (front, count, known) = *many;
    let (mut list, mut report) = (Vec::new(alloc), Vec::new(alloc));
    let mut sent = Frames::new(alloc);
    list.extend_from_slice(front).is_ok()
        && put_many(&mut list, 0, known, IS_RUNNING)
        && put_many(&mut list, known, count, IS_PENDING)
        && report.extend_from_slice(REPORT_OF_64).is_ok()
        && put_many(&mut report, known, known.saturating_add(64), &[1])
        && agent.receive(&list, &mut sent).is_ok()
        && is_sent(&sent, &report)
        && agent.started().len() == count as usize
        && matches!(agent.running(), Some(all) if all.len() == count as usize)
}

fn are_many_reported(alloc: Global, size: u32, lists: &[Many]) -> Option<bool> {
    let mut agent = Agent::new(alloc, node_of(size, size, 0)?, 3).ok()?;
    let mut reported = true;
    for many in lists {
        reported = reported && are_first_reported(&mut agent, alloc, many);
    }
    Some(reported)
}

#[test]
fn acts_as_a_client(rt: HostRuntime) {
    for (number, (room, turns)) in PLAYS.iter().enumerate() {
        for is_received in [false, true] {
            assert!(rt;
                is_played(rt.alloc(), *room, turns, is_received) == Some(true),
                "play {number}, received {is_received}"
            );
        }
    }
    for (size, lists) in LISTS_OF_MANY {
        assert!(rt;
            are_many_reported(rt.alloc(), *size, lists) == Some(true),
            "node of {size}"
        );
    }
}
