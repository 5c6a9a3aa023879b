//! A state that was stored in the first version, which says nothing of disk, as it is read today;
//! and in the second, in which no node is disconnected.
use fsm_model::{old_commands_have_no_disk, old_states_stay_safe};
use fsm_state::Cluster;
use machine::Machine;
use rows::{AllocId, Command, EntryIndex, NodeId, Ordinal, Refusal, Version};
use std::alloc::Global;

/// The state of server 1 where the compacted long row ends, in the first version, as another
/// program of the rules wrote it: after eight entries, two nodes of `linux` 1000 1000, and 5.0 and
/// 5.1 of 600 and 300 run on them.
const STATE: &[u8] = &[
    0, 0, 0, 0, 0, 0, 0, 8, 0, 0, 0, 1, 3, 119, 101, 98, 50, 0, 0, 0, 0, 0, 0, 0, 0, 4, 1, 4, 109,
    97, 105, 110, 2, 5, 108, 105, 110, 117, 120, 0, 0, 2, 88, 0, 0, 1, 44, 0, 0, 0, 2, 1, 5, 108,
    105, 110, 117, 120, 0, 0, 3, 232, 0, 0, 3, 232, 0, 1, 0, 0, 0, 0, 0, 0, 0, 0, 2, 2, 5, 108,
    105, 110, 117, 120, 0, 0, 3, 232, 0, 0, 3, 232, 0, 1, 0, 0, 0, 0, 0, 0, 0, 0, 3, 0, 0, 0, 1, 0,
    0, 0, 0, 0, 0, 0, 4, 0, 0, 3, 119, 101, 98, 50, 2, 0, 0, 0, 0, 0, 0, 0, 0, 0, 0, 0, 2, 0, 0, 0,
    0, 0, 0, 0, 5, 0, 3, 119, 101, 98, 4, 109, 97, 105, 110, 0, 1, 0, 0, 2, 88, 0, 0, 1, 44, 0, 1,
    0, 0, 0, 0, 0, 0, 0, 0, 4, 0, 0, 0, 0, 0, 0, 0, 0, 0, 5, 1, 3, 119, 101, 98, 4, 109, 97, 105,
    110, 1, 2, 0, 0, 2, 88, 0, 0, 1, 44, 0, 1, 0, 0, 0, 0, 0, 0, 0, 0, 4, 0, 0,
];

/// The command of that row's second entry in the first version: node 1, `linux` 1000 1000.
const JOINS: &[u8] = &[3, 1, 5, 108, 105, 110, 117, 120, 0, 0, 3, 232, 0, 0, 3, 232];

/// The same in the second version, with disk 0; and the command of a later row: node 1 is
/// disconnected.
const JOINS_IN_SECOND: &[u8] = &[
    3, 1, 5, 108, 105, 110, 117, 120, 0, 0, 3, 232, 0, 0, 3, 232, 0, 0, 0, 0,
];

const DISCONNECTS: &[u8] = &[12, 1];

// What lives on a node takes 600 of it and 300, and no disk.
fn is_used(state: &Cluster, number: u8) -> bool {
    let Some(node) = NodeId::from_number(number) else {
        return false;
    };
    let used = state.used(node);
    used.cpu() == 600 && used.mem() == 300 && used.disk() == 0
}

// The disk of allocation 5.0.
fn disk_of(state: &Cluster) -> Option<u32> {
    let index = EntryIndex::new(5)?;
    let slot = Ordinal::new(0)?;
    Some(state.alloc(AllocId { index, slot })?.size.disk.get())
}

// It is read as of its version alone, and each disk in it is 0. It has 217 bytes, and 237 today:
// four more for each of its five sizes.
fn is_read(alloc: Global, version: Version) -> Option<bool> {
    old_states_stay_safe();
    let state = Cluster::load(version, alloc, STATE).ok()?;
    let mut text = Vec::new(alloc);
    state.save(&mut text).ok()?;
    let is_whole = text.len() == 237;
    let is_old = Cluster::load(Version::newest(), alloc, STATE).is_err();
    let is_new = Cluster::load(version, alloc, &text).is_err();
    let has_none = disk_of(&state) == Some(0) && is_used(&state, 1) && is_used(&state, 2);
    Some(state.count() == 8 && is_whole && is_old && is_new && has_none)
}

fn is_command_read(alloc: Global, version: Version) -> Option<bool> {
    old_commands_have_no_disk();
    let (command, size) = Cluster::read_command(version, alloc, JOINS).ok()?;
    match &command {
        Command::NodePut(node) => Some(size == JOINS.len() && node.size.disk.get() == 0),
        _ => Some(false),
    }
}

// The text, today, of the state that these bytes are as of this version.
fn text_today(alloc: Global, version: Version, bytes: &[u8]) -> Option<Vec<u8>> {
    let state = Cluster::load(version, alloc, bytes).ok()?;
    let mut text = Vec::new(alloc);
    state.save(&mut text).ok()?;
    Some(text)
}

// These bytes with another one at an offset.
fn with_byte(alloc: Global, bytes: &[u8], offset: usize, byte: u8) -> Option<Vec<u8>> {
    let mut text = Vec::new(alloc);
    text.extend_from_slice(bytes).ok()?;
    *text.get_mut(offset)? = byte;
    Some(text)
}

// Today these bytes are a state in which the same lives on both nodes.
fn lives_on_both(alloc: Global, bytes: &[u8]) -> bool {
    match Cluster::load(Version::newest(), alloc, bytes) {
        Ok(state) => is_used(&state, 1) && is_used(&state, 2),
        Err(_) => false,
    }
}

fn fault_of(alloc: Global, version: Version, bytes: &[u8]) -> Option<Refusal> {
    Cluster::load(version, alloc, bytes).err()
}

// A state of the second version is the same today, where node 1 may be disconnected, as it says at
// byte 74: there it may not.
fn is_second_read(alloc: Global, first: Version, second: Version) -> Option<bool> {
    let text = text_today(alloc, first, STATE)?;
    let again = text_today(alloc, second, &text)?;
    let away = with_byte(alloc, &text, 74, 2)?;
    let is_refused = fault_of(alloc, second, &away) == Some(Refusal::Frame(74));
    Some(again == text && lives_on_both(alloc, &away) && is_refused)
}

fn are_second_commands_read(alloc: Global, second: Version) -> Option<bool> {
    let (command, size) = Cluster::read_command(second, alloc, JOINS_IN_SECOND).ok()?;
    let is_join = matches!(command, Command::NodePut(_)) && size == JOINS_IN_SECOND.len();
    let is_refused = Cluster::read_command(second, alloc, DISCONNECTS).err()
        == Some(Refusal::Frame(0));
    let (command, size) = Cluster::read_command(Version::newest(), alloc, DISCONNECTS).ok()?;
    let is_known = match command {
        Command::Disconnect(node) => node.number() == 1 && size == 2,
        _ => false,
    };
    Some(is_join && is_refused && is_known)
}

#[test]
fn an_old_state_is_read(rt: HostRuntime) {
    let (Some(first), Some(second)) = (Version::new(1), Version::new(2)) else {
        panic!(rt; "no such version")
    };
    assert!(rt; is_read(rt.alloc(), first) == Some(true));
    assert!(rt; is_command_read(rt.alloc(), first) == Some(true));
    assert!(rt; is_second_read(rt.alloc(), first, second) == Some(true));
    assert!(rt; are_second_commands_read(rt.alloc(), second) == Some(true));
}
