ghost use Rattle.std.specs.Prelude.{◌≡◌, IfOk, OnErr};
ghost use Rattle.group_inputs.specs.Handings.{IsFrameInput};

use rows::{AllocId, NoMemory, Sequence, ServerId};
use std::alloc::Global;

/// What comes to a client.
#[derive(Drop)]
pub enum ClientInput {
    /// A frame from the net: all of its bytes.
    Frame(Sequence<u8>),
    /// It is to register its node with this server. (Nomad documentation, "Nomad agents": a client
    /// registers itself with the servers.)
    Register(ServerId),
    /// It is to send a heartbeat to this server. (Nomad documentation, "server" block of the agent
    /// configuration: heartbeats.)
    Ping(ServerId),
    /// It is to ask this server which allocations its node is to run. (Nomad documentation,
    /// "Allocations".)
    Pull(ServerId),
    /// An allocation that runs ends: complete where the flag is set, else failed. (Nomad
    /// documentation, "Allocations": client status.)
    End(AllocId, bool),
    /// It stops, and loses what it does not store.
    Crash,
    /// It starts again with what it stored.
    Restart,
}

impl ClientInput {
    /// The same input once more. Only a frame's copy takes memory.
    pub fn try_clone(&self, alloc: Global) -> Result<ClientInput, NoMemory>
        ensures same { IfOk result (λ again. again ≡ self.now) }
        ensures frame { OnErr result (IsFrameInput self.now) }
    {
        match self {
            ClientInput::Frame(bytes) => Ok(ClientInput::Frame(bytes.try_clone(alloc)?)),
            ClientInput::Register(server) => Ok(ClientInput::Register(*server)),
            ClientInput::Ping(server) => Ok(ClientInput::Ping(*server)),
            ClientInput::Pull(server) => Ok(ClientInput::Pull(*server)),
            ClientInput::End(id, ok) => Ok(ClientInput::End(*id, *ok)),
            ClientInput::Crash => Ok(ClientInput::Crash),
            ClientInput::Restart => Ok(ClientInput::Restart),
        }
    }
}
