//! How an actor stands, and what an event changed of that.
ghost use Rattle.std.specs.Prelude.{◌≡◌, IfOk, OnOk, Some, slice_get, string_bytes};
ghost use Rattle.sim_tell.specs.Words.{with_word};
ghost use Rattle.sim_tell.specs.Standings.{standing_in, server_there, client_there, server_standing, client_standing, leads, same_role};
ghost use Rattle.world.specs.GroupView.{client_view};
ghost use Rattle.sim_tell.specs.StandingWords.{change_words, with_server, with_role, with_doing, with_term, with_log, with_commit, with_client, with_up, with_seen};
ghost use Rattle.sim_tell.specs.declared.standing.Standing.TheVariants as standings;

use crate::words::part;
use client_agent::Agent;
use raft_core::Role;
use rows::{Actor, ClientId, NoMemory, ServerId};
use server::Server;
use sim_labels::role_word;
use std::alloc::Global;
use world::World;

/// How a server stands.
#[derive(Clone, Copy)]
pub(crate) struct ServerStanding {
    /// What it is doing.
    pub role: Option<Role>,
    /// Its term.
    pub term: u64,
    /// How many entries it has applied, and none while it is down.
    pub applied: u64,
    /// How many its log has.
    pub last: u64,
}

/// How a client stands.
#[derive(Clone, Copy)]
pub(crate) struct ClientStanding {
    /// Whether it is up.
    pub up: bool,
    /// The index of the list that it took last.
    pub seen: u64,
}

/// How an actor stands.
#[derive(Clone, Copy)]
pub(crate) enum Standing {
    /// There is no such actor.
    None,
    /// A server.
    Server(ServerStanding),
    /// A client.
    Client(ClientStanding),
}

impl Standing {
    /// How an actor of a group stands.
    pub(crate) fn of(world: &World, actor: Option<Actor>) -> Standing
        ensures { result ≡ standing_in world.now actor }
    {
        match actor {
            Some(actor) => Standing::of_actor(world, actor),
            None => Standing::None,
        }
    }

    fn of_actor(world: &World, actor: Actor) -> Standing
        ensures { result ≡ standing_in world.now (Some actor) }
    {
        match actor {
            Actor::Server(id) => Standing::of_server_at(world, id),
            Actor::Client(id) => Standing::of_client_at(world, id),
        }
    }

    fn of_server_at(world: &World, id: ServerId) -> Standing
        ensures { result ≡ server_there (slice_get world.now.servers id) }
    {
        match world.server(id) {
            Some(server) => Standing::of_server(server),
            None => Standing::None,
        }
    }

    fn of_client_at(world: &World, id: ClientId) -> Standing
        ensures { result ≡ client_there (client_view world.now.clients id) }
    {
        match world.client(id) {
            Some(client) => Standing::of_client(client),
            None => Standing::None,
        }
    }

    fn of_server(server: &Server) -> Standing
        ensures { result ≡ standings.Server (server_standing server.now) }
    {
        Standing::Server(ServerStanding {
            role: server.role(),
            term: server.term().get(),
            applied: applied_of(server),
            last: server.last().get(),
        })
    }

    fn of_client(client: &Agent) -> Standing
        ensures { result ≡ standings.Client (client_standing client.now) }
    {
        Standing::Client(ClientStanding {
            up: client.is_up(),
            seen: seen_of(client),
        })
    }
}

fn applied_of(server: &Server) -> u64
    ensures { result ≡ (server_standing server.now).applied }
{
    match server.applied() {
        Some(applied) => applied.get(),
        None => 0,
    }
}

fn seen_of(client: &Agent) -> u64
    ensures { result ≡ (client_standing client.now).seen }
{
    match client.seen() {
        Some(seen) => seen.get(),
        None => 0,
    }
}

/// What an event changed of its actor, in the words of pictures.
pub(crate) fn changed(alloc: Global, before: Standing, after: Standing) -> Result<String, NoMemory>
    ensures { IfOk result (λ words. string_bytes words ≡ change_words before after) }
{
    let mut words = String::new(alloc);
    match (before, after) {
        (Standing::Server(before), Standing::Server(after)) => {
            push_server(&mut words, before, after)?;
        }
        (Standing::Client(before), Standing::Client(after)) => {
            push_client(&mut words, before, after)?;
        }
        _ => {}
    }
    Ok(words)
}

fn push_server(
    words: &mut String,
    before: ServerStanding,
    after: ServerStanding,
) -> Result<(), NoMemory>
    ensures { OnOk result (string_bytes words.new
        ≡ with_server before after (string_bytes words.old)) }
{
    push_role(words, before, after)?;
    push_log(words, before.last, after.last)?;
    push_commit(words, before.applied, after.applied)
}

// That a server leads a term, or what else it does now, and a later term.
fn push_role(
    words: &mut String,
    before: ServerStanding,
    after: ServerStanding,
) -> Result<(), NoMemory>
    ensures { OnOk result (string_bytes words.new
        ≡ with_role before after (string_bytes words.old)) }
{
    if !leads(after.role) {
        push_doing(words, before.role, after.role)?;
        return push_term(words, before.term, after.term);
    }
    if leads(before.role) && before.term == after.term {
        return Ok(());
    }
    let term = after.term;
    part(words)?;
    write!(words, "leads t{term}")?;
    Ok(())
}

fn leads(role: Option<Role>) -> bool
    ensures { result ≡ leads role }
{
    match role {
        Some(Role::Leader) => true,
        _ => false,
    }
}

fn is_same_role(before: Option<Role>, after: Option<Role>) -> bool
    ensures { result ≡ same_role before after }
{
    match (before, after) {
        (None, None) => true,
        (Some(Role::Follower), Some(Role::Follower)) => true,
        (Some(Role::Candidate), Some(Role::Candidate)) => true,
        (Some(Role::Leader), Some(Role::Leader)) => true,
        _ => false,
    }
}

fn push_doing(words: &mut String, before: Option<Role>, after: Option<Role>) -> Result<(), NoMemory>
    ensures { OnOk result (string_bytes words.new
        ≡ with_doing before after (string_bytes words.old)) }
{
    if is_same_role(before, after) {
        return Ok(());
    }
    push_word(words, role_word(after))
}

fn push_term(words: &mut String, before: u64, after: u64) -> Result<(), NoMemory>
    ensures { OnOk result (string_bytes words.new
        ≡ with_term before after (string_bytes words.old)) }
{
    if before < after {
        part(words)?;
        write!(words, "t{after}")?;
    }
    Ok(())
}

// How long its log is, where that is another length now.
fn push_log(words: &mut String, before: u64, after: u64) -> Result<(), NoMemory>
    ensures { OnOk result (string_bytes words.new
        ≡ with_log before after (string_bytes words.old)) }
{
    if before != after {
        part(words)?;
        write!(words, "log @{after}")?;
    }
    Ok(())
}

fn push_commit(words: &mut String, before: u64, after: u64) -> Result<(), NoMemory>
    ensures { OnOk result (string_bytes words.new
        ≡ with_commit before after (string_bytes words.old)) }
{
    if before < after {
        part(words)?;
        write!(words, "commit {after}")?;
    }
    Ok(())
}

fn push_client(
    words: &mut String,
    before: ClientStanding,
    after: ClientStanding,
) -> Result<(), NoMemory>
    ensures { OnOk result (string_bytes words.new
        ≡ with_client before after (string_bytes words.old)) }
{
    push_up(words, before.up, after.up)?;
    if after.up {
        push_seen(words, before.seen, after.seen)?;
    }
    Ok(())
}

fn push_up(words: &mut String, before: bool, after: bool) -> Result<(), NoMemory>
    ensures { OnOk result (string_bytes words.new
        ≡ with_up before after (string_bytes words.old)) }
{
    match (before, after) {
        (false, true) => push_word(words, "up"),
        (true, false) => push_word(words, "down"),
        _ => Ok(()),
    }
}

fn push_word(words: &mut String, word: &str) -> Result<(), NoMemory>
    ensures { OnOk result (string_bytes words.new ≡ with_word (string_bytes words.old) word.now) }
{
    part(words)?;
    words.push_str(word)?;
    Ok(())
}

fn push_seen(words: &mut String, before: u64, after: u64) -> Result<(), NoMemory>
    ensures { OnOk result (string_bytes words.new
        ≡ with_seen before after (string_bytes words.old)) }
{
    if before < after {
        part(words)?;
        write!(words, "seen {after}")?;
    }
    Ok(())
}
