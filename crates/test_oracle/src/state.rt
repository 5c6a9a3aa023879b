//! One replicated state: the room on its nodes, and the names of what lives.
use crate::fault::Fault;
use fsm_state::Cluster;
use fsm_tables::Table;
use rows::{Allocation, ClientState, Desired, Node};

// It is to run, and is not known to have ended, nor given up as lost.
fn lives(row: &Allocation) -> bool {
    let is_wanted = matches!(row.desired, Desired::Run);
    is_wanted
        && matches!(
            row.client,
            ClientState::Pending | ClientState::Running | ClientState::Unknown
        )
}

// What lives on a node is no more than that has.
fn has_room(node: &Node, rows: &Table<Allocation>) -> bool {
    let mut cpu: u64 = 0;
    let mut mem: u64 = 0;
    let mut disk: u64 = 0;
    for row in rows.rows() {
        if lives(row) && row.node == node.number {
            cpu = cpu.saturating_add(u64::from(row.size.cpu.get()));
            mem = mem.saturating_add(u64::from(row.size.mem.get()));
            disk = disk.saturating_add(u64::from(row.size.disk.get()));
        }
    }
    cpu <= u64::from(node.size.cpu.get())
        && mem <= u64::from(node.size.mem.get())
        && disk <= u64::from(node.size.disk.get())
}

fn has_node(nodes: &Table<Node>, row: &Allocation) -> bool {
    for node in nodes.rows() {
        if node.number == row.node {
            return true;
        }
    }
    false
}

fn have_room(nodes: &Table<Node>, rows: &Table<Allocation>) -> bool {
    for node in nodes.rows() {
        if !has_room(node, rows) {
            return false;
        }
    }
    for row in rows.rows() {
        if lives(row) && !has_node(nodes, row) {
            return false;
        }
    }
    true
}

fn has_name_of(row: &Allocation, other: &Allocation) -> bool {
    row.job == other.job && row.group == other.group && row.index == other.index
}

// How many of those that live have the name of this one.
fn count_named(rows: &Table<Allocation>, name: &Allocation) -> usize {
    let mut count: usize = 0;
    for row in rows.rows() {
        if lives(row) && has_name_of(row, name) {
            count = count.saturating_add(1);
        }
    }
    count
}

// No two of those that live are of one name.
fn are_named_once(rows: &Table<Allocation>) -> bool {
    for row in rows.rows() {
        if count_named(rows, row) > 1 {
            return false;
        }
    }
    true
}

/// What is wrong with a replicated state by itself: `Room`, and else `Names`.
pub fn state_fault(state: &Cluster) -> Option<Fault> {
    let rows = state.alloc_table();
    if !have_room(state.node_table(), rows) {
        return Some(Fault::Room);
    }
    if !are_named_once(rows) {
        return Some(Fault::Names);
    }
    None
}
