//! How a group stands: what a step of settling may change.
ghost use Rattle.std.specs.Prelude.{◌≡◌, ◌++◌, ◌/◌, false, IfNone, IfOk, IfSome, MatchOption, OnOk, count_by};
ghost use Rattle.std.specs.Prelude.{length, map, nat_lt, option_map};
ghost use Rattle.std.specs.List.{flat_map, list_any};
ghost use Rattle.sim_expand.specs.Inner.Standings.{IsLatestLeader, StandsSo, has_all_applied};
ghost use Rattle.sim_expand.specs.Inner.GroupStandings.{GroupStandsSo, NoServerAt, StandsAt};
ghost use Rattle.sim_expand.specs.Inner.GroupStandings.{running_at, running_id};
ghost use Rattle.sim_expand.specs.Inner.Standings.{is_behind, is_shorter, is_up, later, leads, plans_of};

use client_agent::{Agent, RunningAllocation};
use raft_core::Role;
use rows::{AllocId, Index, NoMemory, ServerId, Term};
use server::Server;
use sim_play::play::Play;
use std::alloc::Global;

/// How a server stands.
#[derive(Clone, Copy, PartialEq, Eq)]
pub(crate) struct ServerStanding {
    /// The server.
    pub id: ServerId,
    /// What it is doing, while it is up.
    pub role: Option<Role>,
    /// Its term.
    pub term: Term,
    /// The index of the last entry of its log.
    pub last: Index,
    /// How many entries it has applied, while it is up.
    pub applied: Option<Index>,
    /// How many answers wait for its workers.
    pub waiting: usize,
    /// How many plans wait at its desk; none do where that is closed.
    pub plans: usize,
}

/// How a group stands.
#[derive(Drop, PartialEq, Eq)]
pub(crate) struct Standing {
    /// Its servers, in order.
    pub servers: Vec<ServerStanding>,
    /// What runs at its clients, in order; of one that is down nothing is told.
    pub running: Vec<AllocId>,
    /// Whether messages are in flight.
    pub in_flight: bool,
}

// ---- how a group stands

fn server_standing(id: ServerId, server: &Server, waiting: usize) -> ServerStanding
    ensures { StandsSo id server.now waiting result }
{
    ServerStanding {
        id,
        role: server.role(),
        term: server.term(),
        last: server.last(),
        applied: server.applied(),
        waiting,
        plans: plans_of(server),
    }
}

fn plans_of(server: &Server) -> usize
    ensures { result ≡ plans_of server.now.desk }
{
    match server.desk().plans() {
        Some(plans) => plans.len(),
        None => 0,
    }
}

// How the server at a place of a play stands; none where there is none.
fn standing_at(play: &Play, position: usize) -> Option<ServerStanding>
    ensures some { IfSome result (StandsAt play.now position) }
    ensures none { IfNone result (NoServerAt play.now position) }
{
    let id = ServerId::from_position(position)?;
    let server = play.world.server(id)?;
    Some(server_standing(id, server, play.workers[id.position()].len()))
}

/// How the group of a play stands.
pub(crate) fn standing_of(alloc: Global, play: &Play) -> Result<Standing, NoMemory>
    ensures { IfOk result (GroupStandsSo play.now) }
{
    let running = running_of(alloc, play.world.clients())?;
    let mut servers = Vec::new(alloc);
    for position in 0..play.world.size() {
        if let Some(own) = standing_at(play, position) {
            servers.push(own)?;
        }
    }
    Ok(Standing {
        servers,
        running,
        in_flight: play.flight.len() > 0,
    })
}

// What runs at these clients, in order.
fn running_of(alloc: Global, clients: &[Agent]) -> Result<Vec<AllocId>, NoMemory>
    ensures { IfOk result (λ ids. ids.items ≡ flat_map running_at clients.now) }
{
    let mut running = Vec::new(alloc);
    for client in clients {
        put_running(client, &mut running)?;
    }
    Ok(running)
}

fn put_running(client: &Agent, running: &mut Vec<AllocId>) -> Result<(), NoMemory>
    ensures { OnOk result (running.new.items ≡ running.old.items ++ running_at client.now) }
{
    match client.running() {
        Some(own) => put_ids(own, running),
        None => Ok(()),
    }
}

fn put_ids(own: &[RunningAllocation], ids: &mut Vec<AllocId>) -> Result<(), NoMemory>
    ensures { OnOk result (ids.new.items ≡ ids.old.items ++ map running_id own.now) }
{
    for allocation in own {
        ids.push(allocation.id)?;
    }
    Ok(())
}

// ---- who leads

/// The server that leads in the greatest term in which one leads; none where none leads.
pub(crate) fn leader(servers: &[ServerStanding]) -> Option<&ServerStanding>
    ensures { MatchOption result (list_any leads servers.now ≡ false)
        (λ own. IsLatestLeader servers.now own.now) }
{
    let mut found = None;
    for server in servers {
        found = later(found, server);
    }
    found
}

// Of what was found and one server more, the one that leads in the later term.
fn later<'a>(
    found: Option<&'a ServerStanding>,
    server: &'a ServerStanding,
) -> Option<&'a ServerStanding>
    ensures { option_map (λ s. s.now) result
        ≡ later (option_map (λ s. s.now) found.entry) server.now }
{
    if !leads(server) {
        return found;
    }
    match found {
        Some(other) if server.term <= other.term => found,
        _ => Some(server),
    }
}

fn leads(server: &ServerStanding) -> bool
    ensures { result ≡ leads server.now }
{
    match server.role {
        Some(Role::Leader) => true,
        Some(Role::Candidate | Role::Follower) | None => false,
    }
}

// ---- how far the logs are

/// Whether all of its log is applied at a server, which is up.
pub(crate) fn has_all_applied(own: &ServerStanding) -> bool
    ensures { result ≡ has_all_applied own.now }
{
    match own.applied {
        Some(applied) => applied == own.last,
        None => false,
    }
}

/// Whether more than half of the servers are up.
pub(crate) fn is_quorum_up(servers: &[ServerStanding]) -> bool
    ensures { result ≡ nat_lt (length servers.now / 2) (count_by is_up servers.now) }
{
    let up = servers.iter().filter(|server| is_up(server)).count();
    servers.len() / 2 < up
}

fn is_up(server: &ServerStanding) -> bool
    ensures { result ≡ is_up server.now }
{
    server.applied.is_some()
}

/// Whether a server that is up has a shorter log than this one.
pub(crate) fn is_one_shorter(servers: &[ServerStanding], own: &ServerStanding) -> bool
    ensures { result ≡ list_any (λ s. is_shorter s own.now) servers.now }
{
    servers.iter().any(|other| is_shorter(other, own))
}

fn is_shorter(other: &ServerStanding, own: &ServerStanding) -> bool
    ensures { result ≡ is_shorter other.now own.now }
{
    is_up(other) && other.last < own.last
}

/// Whether a server that is up has applied less than this one.
pub(crate) fn is_one_behind(servers: &[ServerStanding], own: &ServerStanding) -> bool
    ensures { result ≡ list_any (λ s. is_behind s own.now) servers.now }
{
    servers.iter().any(|other| is_behind(other, own))
}

fn is_behind(other: &ServerStanding, own: &ServerStanding) -> bool
    ensures { result ≡ is_behind other.now own.now }
{
    match (other.applied, own.applied) {
        (Some(less), Some(most)) => less < most,
        _ => false,
    }
}
