//! How a group's transcript is written.
ghost use Rattle.std.specs.Prelude.{◌≡◌, IfOk, map};
ghost use Rattle.event_texts.specs.Transcripts.{IsTranscript};
ghost use Rattle.world.specs.GroupView.{node_in};
ghost use Rattle.transcript.specs.Records.{record_of};

use client_agent::Agent;
use rows::{NoMemory, NodeSpec};
use std::alloc::Global;
use world::World;

// The nodes of these clients, in order.
fn nodes_of(alloc: Global, clients: &[Agent]) -> Result<Vec<NodeSpec>, NoMemory>
    ensures { IfOk result (λ nodes. nodes.items ≡ map node_in clients.now) }
{
    let mut nodes = Vec::new(alloc);
    for client in clients {
        nodes.push(client.node())?;
    }
    Ok(nodes)
}

/// The transcript of a group: its servers, its clients' nodes, and the events that happened to it.
pub fn write(alloc: Global, world: &World) -> Result<Vec<u8>, NoMemory>
    ensures { IfOk result (λ text. IsTranscript (record_of world.now) text.items) }
{
    // No message has a number past the greatest length.
    let _sent = world.sent().len();
    let nodes = nodes_of(alloc, world.clients())?;
    event_texts::write(alloc, world.size(), &nodes, world.trace())
}
