//! The parts of a desk that follow the applied state, entry by entry.
ghost use Rattle.std.specs.Prelude.{◌≡◌, ◌≤◌, true, length, OnOk, OnErr};
ghost use Rattle.fsm_model.specs.Words.{node_of};
ghost use Rattle.group_model.specs.Brokers.{broker_over};
ghost use Rattle.group_model.specs.Blocked.{blocked_over};
ghost use Rattle.group_model.specs.Expiry.{heartbeat_counts_over};
ghost use Rattle.blocked.specs.Rooms.{blocked_of};
ghost use Rattle.leader.specs.Following.{AreOf, WereOf, has_just_room, tells_desk};
ghost use Rattle.leader.specs.Inner.Changes.{broker_after, blocked_after};
ghost use Rattle.leader.specs.Inner.Changes.{at_node, tell_job, tell_node, tell_rooms};

use crate::made::changed_evals;
use blocked::Blocked;
use eval_broker::Broker;
use expiry::Expiry;
use fsm_state::Cluster;
use rows::{Command, Evaluation, NoMemory, NodeId};
use std::alloc::Global;

/// Tells of evaluations that were made or replaced in this state.
fn tell_evals(
    alloc: Global,
    broker: &mut Broker,
    blocked: &mut Blocked,
    rows: &[Evaluation],
    state: &Cluster,
) -> Result<(), NoMemory>
    ensures broker { OnOk result (broker.new ≡ broker_after rows.now broker.old) }
    ensures blocked { OnOk result (
        blocked_of blocked.new ≡ blocked_after state.now rows.now (blocked_of blocked.old)) }
    ensures memory { OnErr result (1 ≤ length rows.now) }
{
    for row in rows {
        broker.changed(row)?;
        blocked.changed(alloc, row, state)?;
    }
    Ok(())
}

/// Tells of a job's row that a command made or replaced.
fn tell_job(
    alloc: Global,
    blocked: &mut Blocked,
    command: &Command,
    state: &Cluster,
) -> Result<(), NoMemory>
    ensures ok { OnOk result (
        blocked_of blocked.new ≡ tell_job command.now state.now (blocked_of blocked.old)) }
    ensures memory { OnErr result (tells_desk command.now state.now ≡ true) }
{
    if let Command::JobPut(spec) = command {
        if let Some(row) = state.job(&spec.name) {
            blocked.put_job(alloc, row)?;
        }
    }
    Ok(())
}

/// Whether the last entry gave a node room.
fn has_just_room(state: &Cluster) -> bool
    ensures { result ≡ has_just_room state.now }
{
    let count = state.applied();
    for node in state.node_table().rows() {
        if node.room == count {
            return true;
        }
    }
    false
}

/// Tells of nodes that a command gave room.
fn tell_rooms(
    alloc: Global,
    blocked: &mut Blocked,
    command: &Command,
    state: &Cluster,
) -> Result<(), NoMemory>
    ensures ok { OnOk result (
        blocked_of blocked.new ≡ tell_rooms command.now state.now (blocked_of blocked.old)) }
    ensures memory { OnErr result (tells_desk command.now state.now ≡ true) }
{
    match command {
        Command::NodePut(_) => blocked.renew_rooms(alloc, state.node_table()),
        Command::Plan(_) | Command::Report(_, _) if has_just_room(state) => {
            blocked.renew_rooms(alloc, state.node_table())
        }
        _ => Ok(()),
    }
}

/// Tells of a node's row, if there is one.
fn tell_row(expiry: &mut Expiry, number: NodeId, state: &Cluster) -> Result<(), NoMemory>
    ensures { OnOk result (expiry.new ≡ at_node (node_of number state.now) expiry.old) }
{
    match state.node(number) {
        Some(row) => expiry.changed(row),
        None => Ok(()),
    }
}

/// Tells of a node that a command made ready, disconnected, or took down.
fn tell_node(expiry: &mut Expiry, command: &Command, state: &Cluster) -> Result<(), NoMemory>
    ensures ok { OnOk result (expiry.new ≡ tell_node command.now state.now expiry.old) }
    ensures memory { OnErr result (tells_desk command.now state.now ≡ true) }
{
    match command {
        Command::NodePut(spec) => tell_row(expiry, spec.number, state),
        Command::NodeDown(number) => tell_row(expiry, *number, state),
        Command::Disconnect(number) => tell_row(expiry, *number, state),
        _ => Ok(()),
    }
}

/// Follows an entry that was applied, by its command and the state that it left. Where the broker,
/// the blocked evaluations and the counts of heartbeats were of the state before it, they are of
/// this one then. It takes time of the command and of the nodes, and where a job is put of the
/// blocked evaluations. Without memory the three are only to be dropped.
/// - `broker`, `blocked`, `expiry`: each is what following the whole state would give.
/// - `again`: so they are of the state that the entry left.
/// - `memory`: memory is wanting only where they are to be told of something.
pub fn follow(
    alloc: Global,
    broker: &mut Broker,
    blocked: &mut Blocked,
    expiry: &mut Expiry,
    command: &Command,
    state: &Cluster,
) -> Result<(), NoMemory>
    ensures broker { let old = blocked_of blocked.old in OnOk result (
        WereOf command.now state.now broker.old old expiry.old
        → broker.new ≡ broker_over state.now.evals broker.old) }
    ensures blocked { let old = blocked_of blocked.old in OnOk result (
        WereOf command.now state.now broker.old old expiry.old
        → blocked_of blocked.new ≡ blocked_over state.now) }
    ensures expiry { let old = blocked_of blocked.old in OnOk result (
        WereOf command.now state.now broker.old old expiry.old
        → expiry.new ≡ heartbeat_counts_over state.now.nodes expiry.old) }
    ensures again { let old = blocked_of blocked.old in OnOk result (
        WereOf command.now state.now broker.old old expiry.old
        → AreOf state.now broker.new (blocked_of blocked.new) expiry.new) }
    ensures memory { OnErr result (tells_desk command.now state.now ≡ true) }
{
    let rows = changed_evals(alloc, command, state)?;
    tell_job(alloc, blocked, command, state)?;
    tell_evals(alloc, broker, blocked, rows.as_slice(), state)?;
    tell_rooms(alloc, blocked, command, state)?;
    tell_node(expiry, command, state)
}
