//! What is seen of actors from outside: of two groups to which the same led, it is the same.
use client_agent::{Agent, RunningAllocation};
use fsm_state::Cluster;
use machine::Machine;
use raft_core::Role;
use raft_snapshot::write_stable;
use rows::{AllocId, Index, NoMemory, ServerId, Term};
use server::Server;
use std::alloc::Global;
use wire::Frames;
use world::World;

/// What is seen of a server.
#[derive(Drop, PartialEq, Eq)]
pub(super) struct ShownServer {
    role: Option<Role>,
    term: Term,
    last: Index,
    applied: Option<Index>,
    // The text of its replicated state; empty while it is down.
    state: Vec<u8>,
    /// The text of what it stores.
    pub(super) stored: Vec<u8>,
}

/// What is seen of a client.
#[derive(Drop, PartialEq, Eq)]
pub(super) struct ShownClient {
    seen: Option<Index>,
    running: Vec<RunningAllocation>,
    /// What it ever started.
    pub(super) started: Vec<AllocId>,
}

/// What is seen of an actor.
#[derive(Drop, PartialEq, Eq)]
pub(super) enum Shown {
    /// Of a server.
    Server(ShownServer),
    /// Of a client.
    Client(ShownClient),
}

// The text of a replicated state; none where there is no state.
fn state_text(alloc: Global, state: Option<&Cluster>) -> Result<Vec<u8>, NoMemory> {
    let mut text = Vec::new(alloc);
    if let Some(state) = state {
        state.save(&mut text)?;
    }
    Ok(text)
}

// The text of what a server stores.
fn stored_text(alloc: Global, server: &Server) -> Result<Vec<u8>, NoMemory> {
    let mut text = Vec::new(alloc);
    write_stable(&server.stable()?, &mut text)?;
    Ok(text)
}

/// What is seen of a server.
pub(super) fn shown_server(alloc: Global, server: &Server) -> Result<Shown, NoMemory> {
    Ok(Shown::Server(ShownServer {
        role: server.role(),
        term: server.term(),
        last: server.last(),
        applied: server.applied(),
        state: state_text(alloc, server.state())?,
        stored: stored_text(alloc, server)?,
    }))
}

/// What is seen of a client.
pub(super) fn shown_client(alloc: Global, client: &Agent) -> Result<Shown, NoMemory> {
    let running = match client.running() {
        Some(running) => running.to_vec(alloc)?,
        None => Vec::new(alloc),
    };
    Ok(Shown::Client(ShownClient {
        seen: client.seen(),
        running,
        started: client.started().to_vec(alloc)?,
    }))
}

// What is seen of the server at a position, if there is one.
fn push_server(
    alloc: Global,
    world: &World,
    position: usize,
    out: &mut Vec<Shown>,
) -> Result<(), NoMemory> {
    if let Some(id) = ServerId::from_position(position)
        && let Some(server) = world.server(id)
    {
        out.push(shown_server(alloc, server)?)?;
    }
    Ok(())
}

fn push_client(alloc: Global, client: &Agent, out: &mut Vec<Shown>) -> Result<(), NoMemory> {
    out.push(shown_client(alloc, client)?)?;
    Ok(())
}

fn push_all(alloc: Global, world: &World, out: &mut Vec<Shown>) -> Result<(), NoMemory> {
    for position in 0..world.size() {
        push_server(alloc, world, position, out)?;
    }
    for client in world.clients() {
        push_client(alloc, client, out)?;
    }
    Ok(())
}

/// What is seen of a group's servers, and then of its clients.
pub(super) fn shown_group(alloc: Global, world: &World) -> Result<Vec<Shown>, NoMemory> {
    let mut all = Vec::new(alloc);
    push_all(alloc, world, &mut all)?;
    Ok(all)
}

/// Whether these are the same messages, in the same order and for the same receivers.
pub(super) fn are_same_frames(one: &Frames, other: &Frames) -> bool {
    if one.len() != other.len() {
        return false;
    }
    for at in 0..one.len() {
        let (Some(left), Some(right)) = (one.get(at), other.get(at)) else {
            return false;
        };
        if left.to() != right.to() || left.bytes() != right.bytes() {
            return false;
        }
    }
    true
}
