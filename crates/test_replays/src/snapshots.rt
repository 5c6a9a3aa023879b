//! Copies of a server's replicated state, taken while the group goes on.
use fsm_state::Cluster;
use group_inputs::Event;
use rows::{AllocId, ClientState, EntryIndex, EvalId, EvalStatus, Index, Ordinal, ServerId};
use sim_scenario::scenario::Scenario;
use std::alloc::Global;
use std::io;
use std::sync::Arc;
use world::World;

fn status_word(status: EvalStatus) -> &'static str {
    match status {
        EvalStatus::Pending => "pending",
        EvalStatus::Blocked => "blocked",
        EvalStatus::Complete => "complete",
        EvalStatus::Failed => "failed",
    }
}

fn state_word(state: ClientState) -> &'static str {
    match state {
        ClientState::Pending => "pending",
        ClientState::Running => "running",
        ClientState::Complete => "complete",
        ClientState::Failed => "failed",
        ClientState::Lost => "lost",
        ClientState::Unknown => "unknown",
    }
}

fn evaluation_word(state: &Cluster, entry: u64) -> &'static str {
    let Some(index) = EntryIndex::new(entry) else {
        return "none";
    };
    match state.eval(EvalId { index, slot: 0 }) {
        Some(row) => status_word(row.status),
        None => "none",
    }
}

fn allocation_word(state: &Cluster, entry: u64) -> &'static str {
    let (Some(index), Some(slot)) = (EntryIndex::new(entry), Ordinal::new(0)) else {
        return "none";
    };
    match state.alloc(AllocId { index, slot }) {
        Some(row) => state_word(row.client),
        None => "none",
    }
}

// A copy of the server's state once it has applied that many entries, with how many it has.
fn copy_from(world: &World, server: ServerId, applied: u64) -> Option<(Arc<Cluster>, Index)> {
    let member = world.server(server)?;
    if member.applied()?.get() < applied {
        return None;
    }
    match member.snapshot() {
        Ok(copy) => Some(copy),
        Err(_) => None,
    }
}

fn say_copy(rt: &HostRuntime, copy: Option<(Arc<Cluster>, Index)>) -> io::Result<()> {
    let Some((state, index)) = copy else {
        return println!(rt; "  no copy");
    };
    let evaluation = evaluation_word(&state, 4);
    let allocation = allocation_word(&state, 5);
    println!(rt; "  a copy at {index}: 4.0 {evaluation}, 5.0 {allocation}")
}

// An event of a trace is taken.
fn follow(alloc: Global, again: &mut World, event: &Event) -> Option<()> {
    again.step(event.try_clone(alloc).ok()?).ok()?;
    Some(())
}

type Copied = Option<(Arc<Cluster>, Index)>;

// A group's trace comes to another one, and a copy is taken there when the server has applied five
// entries. None where an event is refused.
fn copy_at(alloc: Global, again: &mut World, world: &World, server: ServerId) -> Option<Copied> {
    let mut old = None;
    for event in world.trace() {
        follow(alloc, again, event)?;
        old = older(old, again, server);
    }
    Some(old)
}

fn older(old: Copied, world: &World, server: ServerId) -> Copied {
    match old {
        Some(copy) => Some(copy),
        None => copy_from(world, server, 5),
    }
}

/// Plays a group's trace once more. A copy of the first server's state is taken when it has applied
/// five entries, and one at the end; then both say what they have of evaluation 4.0 and allocation
/// 5.0.
pub(crate) fn copies(rt: &HostRuntime, world: &World, played: &Scenario) -> io::Result<()> {
    let alloc = rt.alloc();
    let servers = usize::from(played.settings.servers);
    let (Some(first), Ok(mut again)) = (
        ServerId::from_number(1),
        World::new(alloc, servers, &played.nodes),
    ) else {
        return Ok(());
    };
    let Some(old) = copy_at(alloc, &mut again, world, first) else {
        return println!(rt; "  an event of the trace is refused");
    };
    say_copy(rt, old)?;
    say_copy(rt, copy_from(&again, first, 5))
}
