//! What a `settle` does next.
ghost use Rattle.std.specs.Prelude.{◌≡◌, ◌≤◌, false, true, IfOk, MatchOption, length, map};
ghost use Rattle.std.specs.Prelude.{string_bytes};
ghost use Rattle.std.specs.List.{All, list_any};
ghost use Rattle.rows.specs.Fits.{NodeIdFits};
ghost use Rattle.sim_expand.specs.Inner.Taking.{IsNoFlowLine};
ghost use Rattle.sim_expand.specs.Inner.Firsts.{first_of};
ghost use Rattle.sim_expand.specs.Inner.Standings.{may_commit};
ghost use Rattle.sim_expand.specs.Inner.Uses.{goes_on};

use crate::standing::{
    ServerStanding, Standing, has_all_applied, is_one_behind, is_one_shorter, is_quorum_up, leader,
};
use crate::useful::{gives_out, goes_on, is_any_asking, is_asking};
use client_agent::Agent;
use fsm_state::Cluster;
use rows::{NoMemory, ServerId};
use sim_play::play::Play;
use std::alloc::{AllocError, Global};
use world::World;

/// Something that is left to do.
#[derive(Clone, Copy)]
pub(crate) enum Left {
    /// A worker of a server goes on.
    Work(ServerId),
    /// A server weighs a plan.
    Plan(ServerId),
    /// A server sends what the others lack.
    Beat(ServerId),
    /// A server's workers ask it for an evaluation.
    Take(ServerId),
    /// Clients ask a server for their lists: those that start or stop something by that, or also
    /// those that only report.
    Pull(ServerId, bool),
}

/// The first of what is left to do; none where nothing is.
pub(crate) fn next_of(
    alloc: Global,
    play: &Play,
    standing: &Standing,
) -> Result<Option<Left>, NoMemory> {
    if let Some(server) = at_work(play, &standing.servers) {
        return Ok(Some(Left::Work(server)));
    }
    match leader(&standing.servers) {
        Some(own) => led_by(alloc, &play.world, &standing.servers, own),
        None => Ok(None),
    }
}

// The first server of which a worker goes on.
fn at_work(play: &Play, servers: &[ServerStanding]) -> Option<ServerId>
    ensures { MatchOption result (list_any (λ s. goes_on play.now s.id) servers.now ≡ false)
        (λ id. goes_on play.now id ≡ true) }
{
    for own in servers {
        if goes_on(play, own.id) {
            return Some(own.id);
        }
    }
    None
}

// The first of what is left to do at the leader, and with what it knows.
fn led_by(
    alloc: Global,
    world: &World,
    servers: &[ServerStanding],
    own: &ServerStanding,
) -> Result<Option<Left>, NoMemory> {
    let Some(member) = world.server(own.id) else {
        return Ok(None);
    };
    let Some(state) = member.state() else {
        return Ok(None);
    };
    let news = has_all_applied(own);
    let uses = Uses {
        plan: own.plans > 0,
        commit: may_commit(servers, own),
        take: gives_out(alloc, member.desk(), state)?,
        pull: is_any_asking(state, world.clients(), news)?,
        tell: is_one_behind(servers, own),
    };
    Ok(first_of(uses, own.id, news))
}

// Which steps would be of use at a leader: that it weighs a plan; that it sends what is not applied
// there; that its workers ask for an evaluation; that clients ask for their lists; and that it
// sends what others have not applied.
#[derive(Clone, Copy)]
struct Uses {
    plan: bool,
    commit: bool,
    take: bool,
    pull: bool,
    tell: bool,
}

// The first of them.
fn first_of(uses: Uses, server: ServerId, news: bool) -> Option<Left>
    ensures { result ≡ first_of uses server news }
{
    if uses.plan {
        Some(Left::Plan(server))
    } else if uses.commit {
        Some(Left::Beat(server))
    } else if uses.take {
        Some(Left::Take(server))
    } else if uses.pull {
        Some(Left::Pull(server, news))
    } else if uses.tell {
        Some(Left::Beat(server))
    } else {
        None
    }
}

// Whether not all of a leader's log is applied there, and a beat may help: a quorum is up, or one
// that is up has a shorter log.
fn may_commit(servers: &[ServerStanding], own: &ServerStanding) -> bool
    ensures { result ≡ may_commit servers.now own.now }
{
    !has_all_applied(own) && (is_quorum_up(servers) || is_one_shorter(servers, own))
}

// ---- lines

/// The line by which a server's workers go on.
pub(crate) fn work_line(alloc: Global, server: ServerId) -> Result<String, AllocError>
    ensures { IfOk result (λ line. IsNoFlowLine (string_bytes line)) }
{
    format!(in alloc; "work {server}")
}

/// The line by which a server weighs a plan.
pub(crate) fn plan_line(alloc: Global, server: ServerId) -> Result<String, AllocError>
    ensures { IfOk result (λ line. IsNoFlowLine (string_bytes line)) }
{
    format!(in alloc; "plan {server}")
}

/// The line by which a server sends what the others lack.
pub(crate) fn beat_line(alloc: Global, server: ServerId) -> Result<String, AllocError>
    ensures { IfOk result (λ line. IsNoFlowLine (string_bytes line)) }
{
    format!(in alloc; "beat {server}")
}

/// The line by which a server's workers ask it for an evaluation.
pub(crate) fn take_line(alloc: Global, server: ServerId) -> Result<String, AllocError>
    ensures { IfOk result (λ line. IsNoFlowLine (string_bytes line)) }
{
    format!(in alloc; "take {server} {server}")
}

fn pull_line(alloc: Global, client: usize, server: ServerId) -> Result<String, AllocError>
    requires { NodeIdFits client }
    ensures { IfOk result (λ line. IsNoFlowLine (string_bytes line)) }
{
    format!(in alloc; "pull {client} {server}")
}

/// The lines by which clients ask a server for their lists: those for whom that is of use.
pub(crate) fn pull_lines(
    alloc: Global,
    world: &World,
    server: ServerId,
    news: bool,
) -> Result<Vec<String>, NoMemory>
    ensures steps { IfOk result (λ lines. All IsNoFlowLine (map string_bytes lines.items)) }
    ensures few { IfOk result (λ lines. length lines.items ≤ 64) }
{
    let mut lines = Vec::new(alloc);
    for (place, client) in world.clients().iter().enumerate() {
        if asks_at(world, server, client, news)? {
            lines.push(pull_line(alloc, place + 1, server)?)?;
        }
    }
    Ok(lines)
}

fn asks_at(world: &World, server: ServerId, client: &Agent, news: bool) -> Result<bool, NoMemory> {
    match state_of(world, server) {
        Some(state) => is_asking(state, client, news),
        None => Ok(false),
    }
}

fn state_of(world: &World, server: ServerId) -> Option<&Cluster> {
    world.server(server)?.state()
}
