//! The words of ids, names and states.
ghost use Rattle.std.specs.Prelude.{◌≡◌, IfOk, string_bytes};
ghost use Rattle.sim_labels.specs.Words.{actor_text, eval_text, alloc_text, token_text, name_text, role_word, node_word, drain_word, status_word, desired_word, client_word};

use raft_core::Role;
use rows::{
    Actor, AllocId, Allocation, ClientState, Desired, DrainMode, EvalId, EvalStatus, NoMemory,
    NodeStatus, Token,
};
use std::alloc::Global;

/// A server or a client, as pictures name it: `S1`, `c1`.
pub fn actor_text(alloc: Global, actor: Actor) -> Result<String, NoMemory>
    ensures { IfOk result (λ text. string_bytes text ≡ actor_text actor) }
{
    match actor {
        Actor::Server(server) => Ok(format!(in alloc; "S{server}")?),
        Actor::Client(client) => Ok(format!(in alloc; "c{client}")?),
    }
}

/// An evaluation's id.
pub fn eval_text(alloc: Global, id: &EvalId) -> Result<String, NoMemory>
    ensures { IfOk result (λ text. string_bytes text ≡ eval_text id.now) }
{
    let (entry, slot) = (id.index.get(), id.slot);
    Ok(format!(in alloc; "{entry}.{slot}")?)
}

/// An allocation's id.
pub fn alloc_text(alloc: Global, id: &AllocId) -> Result<String, NoMemory>
    ensures { IfOk result (λ text. string_bytes text ≡ alloc_text id.now) }
{
    let (entry, slot) = (id.index.get(), id.slot.get());
    Ok(format!(in alloc; "{entry}.{slot}")?)
}

/// A token.
pub fn token_text(alloc: Global, token: &Token) -> Result<String, NoMemory>
    ensures { IfOk result (λ text. string_bytes text ≡ token_text token.now) }
{
    let (term, serial) = (token.term.get(), token.serial.get());
    Ok(format!(in alloc; "{term}.{serial}")?)
}

/// An allocation's name.
pub fn name_text(alloc: Global, row: &Allocation) -> Result<String, NoMemory>
    ensures { IfOk result (λ text. string_bytes text ≡ name_text row.now) }
{
    let (job, group, index) = (row.job, row.group, row.index.get());
    Ok(format!(in alloc; "{job}.{group}[{index}]")?)
}

/// What a server is doing.
pub fn role_word(role: Option<Role>) -> &'static str
    ensures { result.now ≡ role_word role }
{
    match role {
        None => "down",
        Some(Role::Follower) => "follower",
        Some(Role::Candidate) => "candidate",
        Some(Role::Leader) => "leader",
    }
}

/// Whether a node is heard of.
pub fn node_word(status: NodeStatus) -> &'static str
    ensures { result.now ≡ node_word status }
{
    match status {
        NodeStatus::Ready => "ready",
        NodeStatus::Down => "down",
        NodeStatus::Disconnected => "disconnected",
    }
}

/// How a node is emptied.
pub fn drain_word(drain: DrainMode) -> &'static str
    ensures { result.now ≡ drain_word drain }
{
    match drain {
        DrainMode::Off => "off",
        DrainMode::Slow => "slow",
        DrainMode::Force => "force",
    }
}

/// How far the work of an evaluation is.
pub fn status_word(status: EvalStatus) -> &'static str
    ensures { result.now ≡ status_word status }
{
    match status {
        EvalStatus::Pending => "pending",
        EvalStatus::Blocked => "blocked",
        EvalStatus::Complete => "complete",
        EvalStatus::Failed => "failed",
    }
}

/// What is wanted of an allocation.
pub fn desired_word(desired: Desired) -> &'static str
    ensures { result.now ≡ desired_word desired }
{
    match desired {
        Desired::Run => "run",
        Desired::Stop => "stop",
    }
}

/// What is known of an allocation's work.
pub fn client_word(state: ClientState) -> &'static str
    ensures { result.now ≡ client_word state }
{
    match state {
        ClientState::Pending => "pending",
        ClientState::Running => "running",
        ClientState::Complete => "complete",
        ClientState::Failed => "failed",
        ClientState::Lost => "lost",
        ClientState::Unknown => "unknown",
    }
}
