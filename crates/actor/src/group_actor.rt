//! One actor of a group.
ghost use Rattle.actor.specs.Actors.{IsUpActor};

use client_agent::Agent;
use server::Server;

/// An actor of a group.
#[derive(Drop)]
pub enum GroupActor {
    /// One of its servers.
    Server(Server),
    /// The agent of one of its clients.
    Client(Agent),
}

impl GroupActor {
    /// Whether it is up.
    pub fn is_up(&self) -> bool
        ensures { IsUpActor self.now result }
    {
        match self {
            GroupActor::Server(server) => server.applied().is_some(),
            GroupActor::Client(client) => client.is_up(),
        }
    }
}
