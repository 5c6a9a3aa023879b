//! The numbers of the last lines of a run.
ghost use Rattle.std.specs.Prelude.{◌≡◌, IfOk, MatchResult, OnErr};
ghost use Rattle.group_model.specs.Servers.{Server as AnyServer};
ghost use Rattle.server.specs.ServerViews.{RefinesServer};
ghost use Rattle.sim_ending.specs.EndNumbers.{HasNumbers, IsFirstLeader, RowNumbers, greatest_term, is_running, later, leads_in};
ghost use Rattle.sim_ending.specs.Endings.{HasRows, InEachRun};
ghost use Rattle.sim_ending.specs.Inner.Tells.{OfServers};

use crate::allocations::live_rows;
use crate::newest::newest_state;
use crate::servers::server_at;
use raft_core::Role;
use rows::{Allocation, ClientState, NoMemory, ServerId, Term};
use server::Server;
use std::alloc::Global;
use world::World;

/// How a run ended, in numbers: those of its last lines.
#[derive(Clone, Copy, Debug, PartialEq, Eq)]
pub struct EndNumbers {
    /// The greatest term of a server.
    pub term: u64,
    /// The first server that leads in that term; none where none leads in it.
    pub leader: Option<ServerId>,
    /// How many allocations are told: the live ones of the newest state.
    pub live: usize,
    /// How many of these run.
    pub running: usize,
    /// How many events happened.
    pub events: usize,
    /// How many messages were sent.
    pub messages: usize,
}

/// The numbers of the last lines that `print_end` tells of a group. It may want memory, but only
/// where there are allocations to tell.
pub fn end_numbers(alloc: Global, world: &World) -> Result<EndNumbers, NoMemory>
    ensures { MatchResult result (HasNumbers world.now)
        (λ e. InEachRun world.now (λ w. HasRows w.servers)) }
{
    // Each group has a run.
    world.one_list();
    let term = greatest_term(world);
    let leader = leader_in(world, term);
    let (live, running) = row_numbers(alloc, world)?;
    Ok(EndNumbers {
        term: term.get(),
        leader,
        live,
        running,
        events: world.trace().len(),
        messages: world.sent().len(),
    })
}

// The greatest term of a server.
fn greatest_term(world: &World) -> Term
    ensures { OfServers world.now.servers (λ servers. result ≡ greatest_term servers) }
{
    let mut term = Term::ZERO;
    for place in 0..world.size() {
        term = later(term, server_at(world, place).term());
    }
    term
}

// The later of two terms.
fn later(one: Term, other: Term) -> Term
    ensures { result ≡ later one other }
{
    if one < other { other } else { one }
}

// The first server that leads in a term.
fn leader_in(world: &World, term: Term) -> Option<ServerId>
    ensures { OfServers world.now.servers (λ servers. IsFirstLeader term servers result) }
{
    for position in 0..world.size() {
        if leads_in(server_at(world, position), term) {
            return ServerId::from_position(position);
        }
    }
    None
}

// Whether a server leads in a term.
fn leads_in(server: &Server, term: Term) -> bool
    ensures { (s : AnyServer) → RefinesServer server.now s → result ≡ leads_in term s }
{
    match server.role() {
        Some(Role::Leader) => server.term() == term,
        _ => false,
    }
}

// How many allocations are told, and how many of them run.
fn row_numbers(alloc: Global, world: &World) -> Result<(usize, usize), NoMemory>
    ensures counts { IfOk result (λ counts. OfServers world.now.servers
        (RowNumbers counts.0 counts.1)) }
    ensures memory { OnErr result (OfServers world.now.servers HasRows) }
{
    let Some(state) = newest_state(world) else {
        return Ok((0, 0));
    };
    let rows = live_rows(alloc, state)?;
    Ok((
        rows.len(),
        rows.iter().filter(|row| is_running(row)).count(),
    ))
}

fn is_running(row: &Allocation) -> bool
    ensures { result ≡ is_running row.now }
{
    row.client == ClientState::Running
}
