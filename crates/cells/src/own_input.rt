//! What an actor takes of its own accord.
ghost use Rattle.std.specs.Prelude.{◌≡◌, ℕ, IfOk};
ghost use Rattle.rows.specs.declared.actor.Actor.TheVariants.{Server, Client};
ghost use Rattle.group_model.specs.Worlds.{AtServer, AtClient};
ghost use Rattle.group_inputs.specs.Handings.{handing};
ghost use Rattle.group_inputs.specs.Events.{server_input, client_input};
ghost use Rattle.cells.specs.Actors.{IsServerInput, IsClientInput};
ghost use Rattle.cells.specs.Actors.{own_event};

use group_inputs::{ClientInput, ServerInput};
use rows::NoMemory;
use std::alloc::Global;

/// An input of a server's or a client's own, which is no frame. It stands apart, so that what is
/// noted of it costs a word.
#[derive(Drop)]
pub enum OwnInput {
    /// A server takes it.
    Server(Box<ServerInput>),
    /// A client takes it.
    Client(Box<ClientInput>),
}

impl OwnInput {
    /// An input of a server.
    /// - `event`: it is that event of the server that takes it.
    /// - `kind`: it is one of a server, and no client's.
    pub fn server(alloc: Global, input: ServerInput) -> Result<OwnInput, NoMemory>
        ensures event { IfOk result (λ own. (i : ℕ) →
            own_event (Server i) own ≡ AtServer i (server_input (handing input))) }
        ensures kind { IfOk result (λ own. IsServerInput own (handing input)) }
    {
        Ok(OwnInput::Server(Box::new(alloc, input)?))
    }

    /// An input of a client.
    /// - `event`: it is that event of the client that takes it.
    /// - `kind`: it is one of a client, and no server's.
    pub fn client(alloc: Global, input: ClientInput) -> Result<OwnInput, NoMemory>
        ensures event { IfOk result (λ own. (c : ℕ) →
            own_event (Client c) own ≡ AtClient c (client_input input)) }
        ensures kind { IfOk result (λ own. IsClientInput own input) }
    {
        Ok(OwnInput::Client(Box::new(alloc, input)?))
    }
}
