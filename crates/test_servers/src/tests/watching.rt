//! What a watcher sees of single servers: of the entries that each newly applies while it leads.
ghost use Rattle.std.specs.Prelude.{◌≡◌, List, ℕ, ◌∷◌, [], ◌++◌};

use crate::tests::servers::{
    Act, Frame, OF_1, OF_3, OK_2, OK_3, TAKEN, YES, number_of, propose, put_frame,
};
use Act::{Ahead, Beat, Compact, Crash, Hear, Propose, Reload, Restart, Timeout};
use machine::{Coded, Entry, Machine, Tally};
use raft_core::{Input, Raft, Stable, Watch};
use rows::{LeaderTerm, NoMemory, Refusal, ServerId};
use std::alloc::Global;
use std::marker::Model;
use wire::{Frames, is_log_frame, read_log_message};

/// A watcher that writes down four numbers an entry: the leader's term and the entry's, and the
/// count and the sum of the state that it left.
#[derive(Drop)]
struct Diary {
    written: Vec<u64>,
}

impl Model for Diary {
    ghost use Rattle.std.specs.Prelude.{List, ℕ};

    ghost Value = { List ℕ };

    ghost view = { λ d. d.written.items };
}

impl Watch<Tally> for Diary {
    ghost sees = { λ d term entry state new.
        new ≡ d ++ term ∷ entry.term ∷ state.count ∷ state.sum ∷ [] };

    fn see(
        &mut self,
        term: LeaderTerm,
        entry: &Entry<Coded<Tally>>,
        machine: &Tally,
    ) -> Result<(), NoMemory> {
        let line = [
            term.get(),
            entry.term.get(),
            machine.count(),
            u64::from(machine.sum()),
        ];
        self.written.extend_from_slice(&line)?;
        Ok(())
    }
}

/// An act; the number of the refusal, 0 where there is none, with the place that goes with it; and
/// what the watcher writes down.
type WatchedTurn = (Act, (u8, usize), &'static [u64]);

const VOTE: WatchedTurn = (Hear(Frame(2, 2, 1, 17, &[1, 1], YES)), TAKEN, &[]);

const OK_4: &[u8] = &[1, 0, 0, 0, 0, 0, 0, 0, 4];

// Server 1 leads in term 1, is told twice what others hold, and sees each entry once. It crashes,
// and leads in term 2: an older entry is not committed until one of its own term is, and then it
// sees all of them, since it starts from nothing. It sees nothing of what it hears as a follower.
const LEADS: &[WatchedTurn] = &[
    (Timeout, TAKEN, &[]),
    VOTE,
    (Propose(5), TAKEN, &[]),
    (Propose(7), TAKEN, &[]),
    (
        Hear(Frame(4, 2, 1, 25, &[1, 1], OK_2)),
        TAKEN,
        &[1, 1, 1, 0, 1, 1, 2, 5],
    ),
    (Hear(Frame(4, 2, 1, 25, &[1, 1], OK_2)), TAKEN, &[]),
    (
        Hear(Frame(4, 3, 1, 25, &[1, 1], OK_3)),
        TAKEN,
        &[1, 1, 3, 12],
    ),
    (Beat, TAKEN, &[]),
    (Hear(Frame(4, 4, 1, 25, &[1, 1], OK_3)), (15, 2), &[]),
    (Hear(Frame(4, 4, 3, 25, &[1, 1], OK_3)), (15, 2), &[]),
    (Hear(Frame(4, 2, 3, 25, &[1, 1], OK_3)), (15, 3), &[]),
    (Hear(Frame(7, 2, 1, 0, &[], &[])), (15, 1), &[]),
    (Hear(Frame(7, 4, 3, 0, &[], &[])), (15, 1), &[]),
    (Crash, TAKEN, &[]),
    (Hear(Frame(4, 2, 1, 25, &[1, 1], OK_3)), (16, 0), &[]),
    (Hear(Frame(4, 4, 1, 25, &[1, 1], OK_3)), (16, 0), &[]),
    (Hear(Frame(7, 2, 1, 0, &[], &[])), (16, 0), &[]),
    (Restart, TAKEN, &[]),
    (Timeout, TAKEN, &[]),
    (Hear(Frame(2, 3, 1, 17, &[2, 2], YES)), TAKEN, &[]),
    (Hear(Frame(4, 3, 1, 25, &[2, 2], OK_3)), TAKEN, &[]),
    (
        Hear(Frame(4, 3, 1, 25, &[2, 2], OK_4)),
        TAKEN,
        &[2, 1, 1, 0, 2, 1, 2, 5, 2, 1, 3, 12, 2, 2, 4, 12],
    ),
    (Hear(Frame(3, 2, 1, 42, &[3, 4, 2, 5], OF_3)), TAKEN, &[]),
];

// It follows server 2, which committed an entry, and sees nothing; then it leads in term 2, and
// sees its own entry alone.
const FOLLOWS: &[WatchedTurn] = &[
    (Hear(Frame(3, 2, 1, 42, &[1, 0, 0, 1], OF_1)), TAKEN, &[]),
    (Timeout, TAKEN, &[]),
    (Hear(Frame(2, 3, 1, 17, &[2, 2], YES)), TAKEN, &[]),
    (
        Hear(Frame(4, 3, 1, 25, &[2, 2], OK_2)),
        TAKEN,
        &[2, 2, 2, 0],
    ),
];

const OK_10: &[u8] = &[1, 0, 0, 0, 0, 0, 0, 0, 10];

// Of a snapshot: the state after nine commands, which add 33.
const NINE_33: &[u8] = &[0, 0, 0, 0, 0, 0, 0, 9, 0, 33];

// It covers what it saw, and sees nothing by that; after a crash it leads in term 2, and sees what
// follows the snapshot alone. Then it gets a snapshot, of which it sees nothing, leads in term 4,
// and sees its own entry.
const COVERS: &[WatchedTurn] = &[
    (Timeout, TAKEN, &[]),
    VOTE,
    (Propose(5), TAKEN, &[]),
    (
        Hear(Frame(4, 2, 1, 25, &[1, 1], OK_2)),
        TAKEN,
        &[1, 1, 1, 0, 1, 1, 2, 5],
    ),
    (Compact, TAKEN, &[]),
    (Propose(7), TAKEN, &[]),
    (
        Hear(Frame(4, 2, 1, 25, &[1, 1], OK_3)),
        TAKEN,
        &[1, 1, 3, 12],
    ),
    (Crash, TAKEN, &[]),
    (Compact, (16, 0), &[]),
    (Restart, TAKEN, &[]),
    (Timeout, TAKEN, &[]),
    (Hear(Frame(2, 3, 1, 17, &[2, 2], YES)), TAKEN, &[]),
    (
        Hear(Frame(4, 3, 1, 25, &[2, 2], OK_4)),
        TAKEN,
        &[2, 1, 3, 12, 2, 2, 4, 12],
    ),
    (Hear(Frame(5, 2, 1, 34, &[3, 9, 3], NINE_33)), TAKEN, &[]),
    (Timeout, TAKEN, &[]),
    (Hear(Frame(2, 3, 1, 17, &[4, 4], YES)), TAKEN, &[]),
    (
        Hear(Frame(4, 3, 1, 25, &[4, 4], OK_10)),
        TAKEN,
        &[4, 4, 10, 33],
    ),
    (Hear(Frame(6, 3, 1, 24, &[4, 4, 9], &[])), TAKEN, &[]),
];

/// Hears what is read from a frame of the log; a frame of another kind comes as it is.
fn hear(
    raft: &mut Raft<Tally>,
    alloc: Global,
    bytes: &[u8],
    sent: &mut Frames,
    diary: &mut Diary,
) -> Result<(), Refusal> {
    if !is_log_frame(bytes) {
        return raft.step_watched(Input::Frame(bytes), sent, diary);
    }
    raft.receive_message(read_log_message(alloc, bytes)?, sent, diary)
}

/// Acts on a server: what comes as a frame is read first, or not.
fn perform(
    raft: &mut Raft<Tally>,
    alloc: Global,
    act: &Act,
    is_read: bool,
    bytes: &[u8],
    diary: &mut Diary,
) -> (u8, usize) {
    let mut sent = Frames::new(alloc);
    let input = match act {
        Timeout => Input::Timeout,
        Beat => Input::Beat,
        Compact => Input::Compact,
        Crash => Input::Crash,
        Restart => Input::Restart,
        Hear(_) if is_read => return number_of(hear(raft, alloc, bytes, &mut sent, diary)),
        Hear(_) => Input::Frame(bytes),
        Propose(number) => return propose(raft, *number),
        Ahead(_, _) | Reload => return (99, 0),
    };
    number_of(raft.step_watched(input, &mut sent, diary))
}

fn holds(raft: &mut Raft<Tally>, alloc: Global, is_read: bool, turn: &WatchedTurn) -> bool {
    let (act, answer, seen) = *turn;
    let mut diary = Diary {
        written: Vec::new(alloc),
    };
    let mut bytes = Vec::new(alloc);
    let heard = match act {
        Hear(frame) => put_frame(&mut bytes, &frame),
        _ => true,
    };
    heard
        && perform(raft, alloc, &act, is_read, &bytes, &mut diary) == answer
        && diary.written.as_slice() == seen
}

fn is_played(alloc: Global, turns: &[WatchedTurn], is_read: bool) -> Option<bool> {
    let me = ServerId::from_number(1)?;
    let mut raft = Raft::restart(alloc, me, 3, Stable::new(alloc)).ok()?;
    for turn in turns {
        if !holds(&mut raft, alloc, is_read, turn) {
            return Some(false);
        }
    }
    Some(true)
}

#[test]
fn sees_what_a_leader_applies(rt: HostRuntime) {
    for turns in [LEADS, FOLLOWS, COVERS] {
        for is_read in [false, true] {
            assert!(rt;
                is_played(rt.alloc(), turns, is_read) == Some(true),
                "read {is_read}"
            );
        }
    }
}
