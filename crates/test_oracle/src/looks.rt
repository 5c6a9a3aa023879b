//! A group, moment by moment.
use crate::fault::Fault;
use crate::state::state_fault;
use crate::texts::Texts;
use client_agent::Agent;
use rows::{AllocId, NoMemory, ServerId};
use server::Server;
use std::alloc::Global;
use world::World;

/// Whether each of the ids that a client ever started stands among them once.
pub fn starts_once(ids: &[AllocId]) -> bool {
    for id in ids {
        let mut count: usize = 0;
        for other in ids {
            if other == id {
                count = count.saturating_add(1);
            }
        }
        if count != 1 {
            return false;
        }
    }
    true
}

// What is wrong with a group's clients.
fn clients_fault(clients: &[Agent]) -> Option<Fault> {
    for client in clients {
        if !starts_once(client.started()) {
            return Some(Fault::Starts);
        }
    }
    None
}

// What is wrong with a server, whose text is the one that was seen, or is not.
fn server_fault(server: &Server, is_seen: bool) -> Option<Fault> {
    if !is_seen {
        return Some(Fault::States);
    }
    state_fault(server.state()?)
}

fn server_at(world: &World, position: usize) -> Option<&Server> {
    world.server(ServerId::from_position(position)?)
}

/// What was seen of a group so far: the texts of its servers' states, by how many entries they had
/// applied.
#[derive(Drop)]
pub struct Looks {
    texts: Texts,
}

impl Looks {
    /// Nothing was looked at yet.
    pub fn new(alloc: Global) -> Looks {
        Looks {
            texts: Texts::new(alloc),
        }
    }

    /// What is wrong with a group as it stands: states of two texts at as many entries, here or in
    /// what was looked at before; more on a node than that has; two that live of one name; or one
    /// that a client started twice. It tells the first fault of the first server that has one, and
    /// of the clients only where no server has one. The states count as seen from now on, up to
    /// that server's.
    pub fn look(&mut self, alloc: Global, world: &World) -> Result<Option<Fault>, NoMemory> {
        for place in 0..world.size() {
            if let Some(server) = server_at(world, place) {
                let is_seen = self.texts.take_in(alloc, server)?;
                if let Some(fault) = server_fault(server, is_seen) {
                    return Ok(Some(fault));
                }
            }
        }
        Ok(clients_fault(world.clients()))
    }

    /// The same of a group that came to nothing new: each state was seen before.
    pub fn look_back(&self, alloc: Global, world: &World) -> Result<Option<Fault>, NoMemory> {
        for place in 0..world.size() {
            if let Some(server) = server_at(world, place) {
                let is_seen = self.texts.has(alloc, server)?;
                if let Some(fault) = server_fault(server, is_seen) {
                    return Ok(Some(fault));
                }
            }
        }
        Ok(clients_fault(world.clients()))
    }
}
