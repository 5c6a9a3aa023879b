//! What a plain look finds in states that no log makes, and in lists of ids. What is wanted is
//! worked out by hand from what is promised of a state: no node holds more than it has, no name is
//! live twice, and each live allocation's node is there. An allocation is live that is to run, and
//! is pending, running or unknown.
use fsm_state::Cluster;
use machine::Machine;
use rows::{AllocId, EntryIndex, Ordinal, Refusal, Version};
use std::alloc::{AllocError, Global};
use std::test::*;
use test_oracle::{Fault, starts_once, state_fault};

/// A node: its number, and its processor time, memory and disk.
type NodeRow = (u8, [u32; 3]);

/// An allocation: the letters of its job and of its group, its index, its node, what it takes
/// there, what is wanted of it, and what is known of it.
type AllocRow = (u8, u8, u8, u8, [u32; 3], u8, u8);

/// What is wanted: that it runs, or that it stops.
const RUN: u8 = 0;

const STOP: u8 = 1;

/// What is known.
const PENDING: u8 = 0;

const RUNNING: u8 = 1;

const COMPLETE: u8 = 2;

const FAILED: u8 = 3;

const LOST: u8 = 4;

const UNKNOWN: u8 = 5;

/// Of each node another part is the least.
const NODES: &[NodeRow] = &[
    (1, [1000, 2000, 100]),
    (2, [200, 1000, 2000]),
    (3, [2000, 300, 1000]),
];

/// Five are live: they fill nodes 1 and 3, and leave 50, 999 and 1 of node 2. Two are not, are of
/// the first one's name, and are on a node that the state lacks.
const ROWS: &[AllocRow] = &[
    (b'w', b'g', 0, 1, [400, 1500, 0], RUN, RUNNING),
    (b'w', b'g', 1, 1, [600, 500, 100], RUN, PENDING),
    (b'w', b'g', 2, 2, [150, 1, 1999], RUN, RUNNING),
    (b'w', b'g', 3, 3, [1, 100, 500], RUN, PENDING),
    (b'w', b'g', 4, 3, [1999, 200, 500], RUN, UNKNOWN),
    (b'w', b'g', 0, 4, [5000, 5000, 5000], STOP, RUNNING),
    (b'w', b'g', 0, 4, [5000, 5000, 5000], RUN, LOST),
];

const ROOM: Option<Fault> = Some(Fault::Room);

const NAMES: Option<Fault> = Some(Fault::Names);

/// One more, and what is wrong then.
const MORE: &[(AllocRow, Option<Fault>)] = &[
    // It fills node 2, or is past that by one in one part.
    ((b'v', b'g', 0, 2, [50, 999, 1], RUN, RUNNING), None),
    ((b'v', b'g', 0, 2, [51, 999, 1], RUN, RUNNING), ROOM),
    ((b'v', b'g', 0, 2, [50, 1000, 1], RUN, RUNNING), ROOM),
    ((b'v', b'g', 0, 2, [50, 999, 2], RUN, RUNNING), ROOM),
    // The nodes that are full take nothing more, the first and the last.
    ((b'v', b'g', 0, 1, [1, 1, 0], RUN, RUNNING), ROOM),
    ((b'v', b'g', 0, 3, [1, 1, 0], RUN, RUNNING), ROOM),
    // There is no such node.
    ((b'v', b'g', 0, 4, [1, 1, 0], RUN, RUNNING), ROOM),
    // The name of the first, which is on node 1; of the third, on this node; and of the fifth.
    ((b'w', b'g', 0, 2, [1, 1, 0], RUN, RUNNING), NAMES),
    ((b'w', b'g', 2, 2, [1, 1, 0], RUN, RUNNING), NAMES),
    ((b'w', b'g', 4, 2, [1, 1, 0], RUN, RUNNING), NAMES),
    // It differs from the third in its job, its group or its index.
    ((b'v', b'g', 2, 2, [1, 1, 0], RUN, RUNNING), None),
    ((b'w', b'h', 2, 2, [1, 1, 0], RUN, RUNNING), None),
    ((b'w', b'g', 5, 2, [1, 1, 0], RUN, RUNNING), None),
    ((b'g', b'w', 2, 2, [1, 1, 0], RUN, RUNNING), None),
];

/// What is wanted of one and what is known of it, and whether it is live.
const LIVES: &[(u8, u8, bool)] = &[
    (RUN, PENDING, true),
    (RUN, RUNNING, true),
    (RUN, COMPLETE, false),
    (RUN, FAILED, false),
    (RUN, LOST, false),
    (RUN, UNKNOWN, true),
    (STOP, PENDING, false),
    (STOP, RUNNING, false),
    (STOP, COMPLETE, false),
    (STOP, FAILED, false),
    (STOP, LOST, false),
    (STOP, UNKNOWN, false),
];

fn put_size(text: &mut Vec<u8>, size: [u32; 3]) -> Result<(), AllocError> {
    for part in size {
        text.extend_from_slice(&part.to_be_bytes())?;
    }
    Ok(())
}

// It is ready and eligible, of class x, and last had room by the first entry.
fn put_node(text: &mut Vec<u8>, node: &NodeRow) -> Result<(), AllocError> {
    let (number, size) = *node;
    text.extend_from_slice(&[number, 1, b'x'])?;
    put_size(text, size)?;
    text.extend_from_slice(&[0, 1, 0, 0, 0, 0, 0, 0, 0, 0, 1])
}

// It was made by the entry of this number, for evaluation 1.0, and is not to move.
fn put_row(text: &mut Vec<u8>, entry: u8, row: &AllocRow) -> Result<(), AllocError> {
    let (job, group, index, node, size, desired, client) = *row;
    text.extend_from_slice(&[0, 0, 0, 0, 0, 0, 0, entry, 0])?;
    text.extend_from_slice(&[1, job, 1, group, index, node])?;
    put_size(text, size)?;
    text.extend_from_slice(&[desired, client, 0, 0, 0, 0, 0, 0, 0, 0, 1, 0, 0])
}

// The text of a state of 99 entries, without jobs and evaluations, which has the nodes and the rows
// and one row more.
fn text_with(alloc: Global, more: &AllocRow) -> Result<Vec<u8>, AllocError> {
    let mut text = Vec::new(alloc);
    text.extend_from_slice(&[0, 0, 0, 0, 0, 0, 0, 99, 0, 0, 0, 0, 0, 0, 0, 3])?;
    for node in NODES {
        put_node(&mut text, node)?;
    }
    text.extend_from_slice(&[0, 0, 0, 0, 0, 0, 0, 8])?;
    let mut entry: u8 = 0;
    for row in ROWS {
        entry = entry.saturating_add(1);
        put_row(&mut text, entry, row)?;
    }
    put_row(&mut text, 99, more)?;
    Ok(text)
}

// What is wrong with that state.
fn fault_with(alloc: Global, more: &AllocRow) -> Result<Option<Fault>, Refusal> {
    let text = text_with(alloc, more)?;
    let state = Cluster::load(Version::newest(), alloc, &text)?;
    Ok(state_fault(&state))
}

fn is_fault_with(alloc: Global, more: &AllocRow, fault: Option<Fault>) -> bool {
    match fault_with(alloc, more) {
        Ok(found) => found == fault,
        Err(_) => false,
    }
}

// Whether one that is live takes room and holds its name, on another node and on this one, and has
// to have its node; and one that is not does none of that.
fn is_live_or_not(alloc: Global, row: &(u8, u8, bool)) -> bool {
    let (desired, client, is_live) = *row;
    let (room, name) = if is_live { (ROOM, NAMES) } else { (None, None) };
    let too_much = (b'v', b'g', 0, 2, [51, 1, 0], desired, client);
    let astray = (b'v', b'g', 0, 4, [1, 1, 0], desired, client);
    let of_another = (b'w', b'g', 0, 2, [1, 1, 0], desired, client);
    let of_one_here = (b'w', b'g', 2, 2, [1, 1, 0], desired, client);
    is_fault_with(alloc, &too_much, room)
        && is_fault_with(alloc, &astray, room)
        && is_fault_with(alloc, &of_another, name)
        && is_fault_with(alloc, &of_one_here, name)
}

#[test]
fn faults_of_states_are_found(rt: HostRuntime) {
    for (more, fault) in MORE {
        assert!(rt; is_fault_with(rt.alloc(), more, *fault));
    }
}

#[test]
fn what_is_not_live_is_no_fault(rt: HostRuntime) {
    for row in LIVES {
        assert!(rt; is_live_or_not(rt.alloc(), row));
    }
}

/// What a client started, each by its entry and its place there, and whether that is each once.
const STARTS: &[(&[(u64, u8)], bool)] = &[
    (&[], true),
    (&[(5, 0)], true),
    (&[(5, 0), (5, 1)], true),
    (&[(5, 1), (6, 1), (5, 0), (6, 0)], true),
    (&[(5, 0), (5, 0)], false),
    (&[(5, 0), (5, 1), (5, 0)], false),
    (&[(5, 0), (6, 0), (7, 0), (7, 0)], false),
    (&[(5, 0), (6, 0), (6, 0), (6, 0), (7, 0)], false),
];

fn ids_of(alloc: Global, ids: &[(u64, u8)]) -> Option<Vec<AllocId>> {
    let mut all = Vec::new(alloc);
    for (entry, slot) in ids {
        let index = EntryIndex::new(*entry)?;
        let slot = Ordinal::new(*slot)?;
        all.push(AllocId { index, slot }).ok()?;
    }
    Some(all)
}

fn is_once_or_not(alloc: Global, row: &(&[(u64, u8)], bool)) -> bool {
    match ids_of(alloc, row.0) {
        Some(ids) => starts_once(&ids) == row.1,
        None => false,
    }
}

#[test]
fn starts_are_each_once(rt: HostRuntime) {
    for row in STARTS {
        assert!(rt; is_once_or_not(rt.alloc(), row));
    }
}
