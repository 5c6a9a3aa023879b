//! What can happen to a group of servers and clients.
ghost use Rattle.std.specs.Prelude.{◌≡◌, IfOk, OnErr};
ghost use Rattle.group_model.specs.Worlds.{AtServer, AtClient};
ghost use Rattle.group_inputs.specs.Handings.{handing};
ghost use Rattle.group_inputs.specs.Events.{server_input, client_input, group_event, HasInput, IsSameEvent};

use crate::client_input::ClientInput;
use crate::server_input::ServerInput;
use rows::{ClientId, NoMemory, ServerId};
use std::alloc::Global;

/// What can happen to a group. A loss is a message that is never delivered, a repeat one that is
/// delivered twice. An input stands apart, so that each event costs two words.
#[derive(Drop)]
pub enum Event {
    /// The k-th message of all that were ever sent, from 1, comes to its receiver.
    Deliver(u64),
    /// A server takes an input of its own, which is no frame.
    Server(ServerId, Box<ServerInput>),
    /// A client takes an input of its own, which is no frame.
    Client(ClientId, Box<ClientInput>),
}

impl Event {
    /// A server takes this input.
    pub fn server(alloc: Global, server: ServerId, input: ServerInput) -> Result<Event, NoMemory>
        ensures { IfOk result (λ event.
            group_event event ≡ AtServer server (server_input (handing input))) }
    {
        Ok(Event::Server(server, Box::new(alloc, input)?))
    }

    /// A client takes this input.
    pub fn client(alloc: Global, client: ClientId, input: ClientInput) -> Result<Event, NoMemory>
        ensures { IfOk result (λ event.
            group_event event ≡ AtClient client (client_input input)) }
    {
        Ok(Event::Client(client, Box::new(alloc, input)?))
    }

    /// The same event once more. Memory may be wanting for an event with an input, never for a
    /// delivery.
    pub fn try_clone(&self, alloc: Global) -> Result<Event, NoMemory>
        ensures same { IfOk result (λ again. group_event again ≡ group_event self.now) }
        // A frame too, byte for byte.
        ensures whole { IfOk result (λ again. IsSameEvent self.now again) }
        ensures memory { OnErr result (HasInput (group_event self.now)) }
    {
        match self {
            Event::Deliver(k) => Ok(Event::Deliver(*k)),
            Event::Server(server, input) => {
                let input = input.as_ref().try_clone(alloc)?;
                Ok(Event::Server(*server, Box::new(alloc, input)?))
            }
            Event::Client(client, input) => {
                let input = input.as_ref().try_clone(alloc)?;
                Ok(Event::Client(*client, Box::new(alloc, input)?))
            }
        }
    }
}
