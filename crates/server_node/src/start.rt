//! What a server's process starts from.
ghost use Rattle.std.specs.Prelude.{◌≡◌, ℕ, true, IfErr, IfOk, option_map};
ghost use Rattle.fsm_model.specs.ClusterMachine.{cluster_spec};
ghost use Rattle.raft_core.specs.Steps.{IsGroupMember};
ghost use Rattle.raft_records.specs.Starts.{IsAnothers, IsBadStore};
ghost use Rattle.server_node.specs.Lives.{BeginsWith, header_text};
ghost use Rattle.server_node.specs.Statuses.{is_of_beginning};
ghost use Rattle.server_node.specs.declared.fault.Fault.TheVariants as faults;

use crate::fault::Fault;
use crate::node::ServerNode;
use raft_records::{Unread, stable_of};
use rows::{Refusal, ServerId};
use server::Server;
use std::alloc::Global;
use timers::ServerTimers;

/// The server of what the store has, or where there is none a new one, with these timers. The header
/// is the first line of its journal.
pub fn begin(
    alloc: Global,
    me: ServerId,
    size: usize,
    header: &[u8],
    stored: Option<&[u8]>,
    timers: ServerTimers,
) -> Result<ServerNode, Fault>
    ensures begins { IfOk result (λ node. header.now ≡ header_text size me →
        BeginsWith size me (option_map (λ text. text.now) stored.entry) node) }
    ensures usage { IfErr result (λ fault. fault ≡ faults.Usage → IsGroupMember size me → ⊥) }
    ensures fault { IfErr result (λ fault. (place : ℕ) → fault ≡ faults.BadStore place →
        IsBadStore cluster_spec header.now (option_map (λ text. text.now) stored.entry) place) }
    ensures another { IfErr result (λ fault. fault ≡ faults.Another →
        IsAnothers header.now (option_map (λ text. text.now) stored.entry)) }
    ensures early { IfErr result (λ fault. is_of_beginning fault ≡ true) }
{
    let stable = match stable_of(alloc, header, stored) {
        Ok(stable) => stable,
        Err(Unread::NoMemory) => return Err(Fault::NoMemory),
        Err(Unread::Another) => return Err(Fault::Another),
        Err(Unread::At(place)) => return Err(Fault::BadStore(place)),
    };
    match Server::restart(alloc, me, size, stable) {
        Ok(server) => Ok(ServerNode::new(alloc, server, timers)),
        Err(refused) => match refused.refusal {
            Refusal::NoMemory => Err(Fault::NoMemory),
            _ => Err(Fault::Usage),
        },
    }
}
