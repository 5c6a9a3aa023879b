//! Frames of messages, byte by byte: whole, cut, with one byte changed, and with so many entries.
use machine::Tally;
use rows::Refusal;
use std::alloc::Global;
use wire::{read_message, write_message};

/// The version that frames have, and their first byte.
pub(crate) const V: u8 = 3;

/// No fault: the bytes are the frame of the message that is read.
const NONE: usize = usize::MAX;

/// What is no fault of the bytes: memory was wanting, or the message that is read is written
/// otherwise.
const WRONG: usize = usize::MAX - 1;

/// The published frame of a vote request from server 1 to server 2, of term 1 and an empty log.
pub(crate) const VOTE: &[u8] = &[
    V, 1, 1, 2, 0, 0, 0, 24, 0, 0, 0, 0, 0, 0, 0, 1, 0, 0, 0, 0, 0, 0, 0, 0, 0, 0, 0, 0, 0, 0, 0, 0,
];

/// Server 1 sends server 2, in term 3, two entries behind place 4 of term 2, with commit index 4:
/// the no-op of term 2, and in term 3 the command that adds 258.
pub(crate) const APPEND: &[u8] = &[
    V, 3, 1, 2, 0, 0, 0, 53, //
    0, 0, 0, 0, 0, 0, 0, 3, //
    0, 0, 0, 0, 0, 0, 0, 4, //
    0, 0, 0, 0, 0, 0, 0, 2, //
    0, 0, 0, 0, 0, 0, 0, 4, //
    2, //
    0, 0, 0, 0, 0, 0, 0, 2, 0, //
    0, 0, 0, 0, 0, 0, 0, 3, 1, 1, 2,
];

/// Server 2 tells server 1, in term 3, that it has its vote, which was asked for in term 2.
pub(crate) const GRANTED: &[u8] = &[
    V, 2, 2, 1, 0, 0, 0, 17, 0, 0, 0, 0, 0, 0, 0, 3, 0, 0, 0, 0, 0, 0, 0, 2, 1,
];

/// Server 2 tells server 1, in term 3, that it has the entries of the leader of term 2 up to place
/// 5.
pub(crate) const REPLY: &[u8] = &[
    V, 4, 2, 1, 0, 0, 0, 25, //
    0, 0, 0, 0, 0, 0, 0, 3, //
    0, 0, 0, 0, 0, 0, 0, 2, //
    1, //
    0, 0, 0, 0, 0, 0, 0, 5,
];

/// Server 1 sends server 2, in term 3, a snapshot of five entries, the last of term 2: five
/// commands were applied, and they add 258.
pub(crate) const INSTALL: &[u8] = &[
    V, 5, 1, 2, 0, 0, 0, 34, //
    0, 0, 0, 0, 0, 0, 0, 3, //
    0, 0, 0, 0, 0, 0, 0, 5, //
    0, 0, 0, 0, 0, 0, 0, 2, //
    0, 0, 0, 0, 0, 0, 0, 5, 1, 2,
];

/// Server 2 tells server 1, in term 3, that it has a snapshot of the leader of term 2 up to place
/// 5.
pub(crate) const INSTALLED: &[u8] = &[
    V, 6, 2, 1, 0, 0, 0, 24, //
    0, 0, 0, 0, 0, 0, 0, 3, //
    0, 0, 0, 0, 0, 0, 0, 2, //
    0, 0, 0, 0, 0, 0, 0, 5,
];

const FRAMES: &[&[u8]] = &[VOTE, APPEND, INSTALL, GRANTED, REPLY, INSTALLED];

/// Where bytes are at fault as a frame.
fn fault_of(alloc: Global, bytes: &[u8]) -> usize {
    match read_message::<Tally>(alloc, bytes) {
        Err(Refusal::Frame(place)) => place,
        Err(_) => WRONG,
        Ok(message) => {
            let mut again = Vec::new(alloc);
            let written = write_message(&message, &mut again);
            if written.is_ok() && again.as_slice() == bytes {
                NONE
            } else {
                WRONG
            }
        }
    }
}

// Which frames, which of their places, which values are put there, and where the frame is then at
// fault: each first and last, frames in the order of the list. The first rule that fits counts, and
// where none does, there is no fault.
type Rule = ((usize, usize), (usize, usize), (u8, u8), usize);

const ALL: (usize, usize) = (0, 5);

const ANY: (u8, u8) = (0, 255);

const RULES: &[Rule] = &[
    (ALL, (0, 0), ANY, 0),
    // The body as that of another kind: a vote request ends at 32, and so does the answer to a
    // snapshot; a vote reply at 25, an answer to an Append at 33, and an Append has one more field
    // in front of its count. A frame that is too short for it is cut in its last field, and 1 or 3
    // is no flag's place there. A flag of 1 with what stands behind it is a number past 2^40.
    ((5, 5), (1, 1), (1, 1), NONE),
    ((1, 2), (1, 1), (1, 1), 32),
    ((3, 4), (1, 1), (1, 1), 24),
    ((0, 2), (1, 1), (2, 2), 25),
    ((4, 5), (1, 1), (2, 2), 25),
    ((0, 0), (1, 1), (3, 3), 32),
    ((5, 5), (1, 1), (3, 3), 32),
    ((2, 2), (1, 1), (3, 3), 41),
    ((3, 4), (1, 1), (3, 3), 24),
    ((1, 2), (1, 1), (4, 4), 33),
    ((0, 0), (1, 1), (4, 4), 25),
    ((3, 3), (1, 1), (4, 4), 25),
    ((5, 5), (1, 1), (4, 4), 25),
    // A snapshot has an index past 0, and its state ends at 42.
    ((0, 0), (1, 1), (5, 5), 16),
    ((1, 1), (1, 1), (5, 5), 42),
    ((3, 4), (1, 1), (5, 5), 24),
    ((5, 5), (1, 1), (5, 5), 32),
    ((0, 0), (1, 1), (6, 6), NONE),
    ((1, 2), (1, 1), (6, 6), 32),
    ((3, 4), (1, 1), (6, 6), 24),
    // As that of a message of workers or the desk: nothing, or nothing behind an option's tag, is
    // left over at once; else an evaluation at 8 and a token at 18, whose term is 0 or cut, or its
    // serial at 26, stand in front of the rest. None of the frames begins with the kind of a
    // request. Agents send servers 14 to 16 and 18, and servers send agents 17 and 19.
    (ALL, (1, 1), (7, 7), 8),
    (ALL, (1, 1), (8, 8), 9),
    ((0, 0), (1, 1), (9, 12), 18),
    ((3, 3), (1, 1), (9, 12), 18),
    ((4, 5), (1, 1), (9, 12), 26),
    ((1, 2), (1, 1), (9, 9), 34),
    ((1, 1), (1, 1), (10, 10), 44),
    ((2, 2), (1, 1), (10, 10), 42),
    ((1, 2), (1, 1), (11, 12), 34),
    (ALL, (1, 1), (13, 13), 8),
    (ALL, (1, 1), (14, 16), 2),
    (ALL, (1, 1), (18, 18), 2),
    (ALL, (1, 1), (17, 19), 3),
    (ALL, (1, 1), ANY, 1),
    // A server sends to another one.
    ((0, 2), (2, 2), (2, 2), 3),
    ((0, 2), (3, 3), (1, 1), 3),
    ((3, 5), (2, 2), (1, 1), 3),
    ((3, 5), (3, 3), (2, 2), 3),
    (ALL, (2, 3), (3, 5), NONE),
    (ALL, (2, 2), ANY, 2),
    (ALL, (3, 3), ANY, 3),
    (ALL, (4, 7), ANY, 4),
    // Terms and indexes are below 2^40.
    (ALL, (8, 10), ANY, 8),
    (ALL, (16, 18), ANY, 16),
    ((0, 2), (24, 26), ANY, 24),
    ((5, 5), (24, 26), ANY, 24),
    ((1, 2), (32, 34), ANY, 32),
    // With none or one entry the rest is left over, with more the next is cut, and there are at
    // most 32.
    ((1, 1), (40, 40), (0, 0), 41),
    ((1, 1), (40, 40), (1, 1), 50),
    ((1, 1), (40, 40), (3, 32), 61),
    ((1, 1), (40, 40), ANY, 40),
    ((1, 1), (41, 43), ANY, 41),
    // A command that adds takes two bytes more, and the next one's tag is then 2.
    ((1, 1), (49, 49), (1, 1), 60),
    ((1, 1), (49, 49), ANY, 49),
    ((1, 1), (50, 52), ANY, 50),
    ((1, 1), (58, 58), (0, 0), 59),
    ((1, 1), (58, 58), ANY, 58),
    // An amount is at most 1,000.
    ((1, 1), (59, 59), (4, 255), 59),
    // A snapshot's index is past 0, and is its state's count; what that adds is at most 1,000.
    ((2, 2), (23, 23), (0, 0), 16),
    ((2, 2), (19, 23), ANY, 32),
    ((2, 2), (35, 39), ANY, 32),
    ((2, 2), (40, 40), (4, 255), 40),
    // A flag is 0 or 1.
    ((3, 4), (24, 24), (2, 255), 24),
    ((4, 4), (25, 27), ANY, 25),
];

fn fault_of_change(frame: usize, at: usize, value: u8) -> usize {
    for rule in RULES {
        let (frames, places, values, place) = *rule;
        if frames.0 <= frame
            && frame <= frames.1
            && places.0 <= at
            && at <= places.1
            && values.0 <= value
            && value <= values.1
        {
            return place;
        }
    }
    NONE
}

// Cut anywhere a frame is at fault at the length in its header, or where it ends before that.
fn is_refused_cut(alloc: Global, frame: &[u8]) -> bool {
    for cut in 0..frame.len() {
        if fault_of(alloc, frame.get(..cut).unwrap_or(&[])) != cut.min(4) {
            return false;
        }
    }
    true
}

// With another value of one byte it is at fault as the rules say, and it is left as it was.
fn is_changed(alloc: Global, frame: usize, at: usize, bytes: &mut [u8]) -> bool {
    let old = bytes.get(at).copied().unwrap_or(0);
    let mut holds = true;
    for value in 0..=255u8 {
        if let Some(byte) = bytes.get_mut(at) {
            *byte = value;
        }
        let wanted = if value == old {
            NONE
        } else {
            fault_of_change(frame, at, value)
        };
        holds = holds && fault_of(alloc, bytes) == wanted;
    }
    if let Some(byte) = bytes.get_mut(at) {
        *byte = old;
    }
    holds
}

// The index before the entries, how many there are, and the fault: at most 32, and each has an
// index below 2^40.
const COUNTS: &[(u64, u8, usize)] = &[
    (0, 32, NONE),
    (0, 33, 40),
    (0, 255, 40),
    (1_099_511_627_775, 0, NONE),
    (1_099_511_627_775, 1, 40),
    (1_099_511_627_773, 2, NONE),
    (1_099_511_627_774, 2, 40),
    (1_099_511_627_743, 32, NONE),
    (1_099_511_627_744, 32, 40),
    (1_099_511_627_776, 0, 16),
];

// Entries of term 1, no-ops, in an Append of term 1 from server 1 to server 2.
fn put_append(out: &mut Vec<u8>, prev_index: u64, count: u8) -> bool {
    let size = 33 + 9 * u32::from(count);
    let mut put = true;
    out.clear();
    for part in [
        &[V, 3, 1, 2][..],
        &size.to_be_bytes(),
        &[0, 0, 0, 0, 0, 0, 0, 1],
        &prev_index.to_be_bytes(),
        &[0; 16],
        &[count],
    ] {
        put = put && out.extend_from_slice(part).is_ok();
    }
    for _ in 0..count {
        put = put && out.extend_from_slice(&[0, 0, 0, 0, 0, 0, 0, 1, 0]).is_ok();
    }
    put
}

fn is_counted(alloc: Global, bytes: &mut Vec<u8>) -> bool {
    for (prev_index, count, place) in COUNTS {
        if !put_append(bytes, *prev_index, *count) || fault_of(alloc, bytes) != *place {
            return false;
        }
    }
    true
}

fn is_read(alloc: Global, number: usize, frame: &[u8], bytes: &mut Vec<u8>) -> bool {
    bytes.clear();
    let mut holds = bytes.extend_from_slice(frame).is_ok()
        && fault_of(alloc, frame) == NONE
        && is_refused_cut(alloc, frame);
    for at in 0..frame.len() {
        holds = holds && is_changed(alloc, number, at, bytes);
    }
    holds
}

#[test]
fn reads_frames(rt: HostRuntime) {
    let mut bytes = Vec::new(rt.alloc());
    for (number, frame) in FRAMES.iter().enumerate() {
        assert!(rt;
            is_read(rt.alloc(), number, frame, &mut bytes),
            "frame {number}"
        );
    }
    assert!(rt; is_counted(rt.alloc(), &mut bytes));
}
