ghost use Rattle.std.specs.Prelude.{◌≡◌, IfOk};
ghost use Rattle.raft_model.specs.Worlds.{IsEvent};
ghost use Rattle.world.specs.Events.{world_event};
ghost use Rattle.world.specs.Inner.Inputs.{is_restart};

use machine::Machine;
use raft_snapshot::command_again;
use rows::{NoMemory, ServerId};
use std::alloc::Global;

/// What can happen to a group of servers. A loss is a message that is never delivered, a repeat one
/// that is delivered twice. (Raft, extended version 2014, section 5.)
#[derive(Drop)]
pub enum RaftEvent<M: Machine> {
    /// The k-th message of all that were ever sent, from 1, comes to its receiver.
    Deliver(u64),
    /// A server's election timer ends.
    Timeout(ServerId),
    /// A server's heartbeat timer ends: a leader sends to each other server the entries that it may
    /// lack. (Raft, section 5.2.)
    Beat(ServerId),
    /// A command is proposed to a server. (Raft, section 5.3.) It stands apart, so that the other
    /// events cost no more than two words.
    Propose(ServerId, Box<M::Command>),
    /// A server covers all entries that it has applied by the state after them. (Raft, section 7.)
    Compact(ServerId),
    /// A server stops, and keeps what it stores.
    Crash(ServerId),
    /// A server that is down starts again from what it stores.
    Restart(ServerId),
}

impl<M: Machine> RaftEvent<M> {
    /// The same event.
    pub(crate) fn again(&self, alloc: Global) -> Result<RaftEvent<M>, NoMemory>
        ensures { IfOk result (λ again. (world_event again ≡ world_event self.now)
            × IsEvent M.spec (world_event again)) }
    {
        match self {
            RaftEvent::Deliver(k) => Ok(RaftEvent::Deliver(*k)),
            RaftEvent::Timeout(server) => Ok(RaftEvent::Timeout(*server)),
            RaftEvent::Beat(server) => Ok(RaftEvent::Beat(*server)),
            RaftEvent::Propose(server, command) => {
                let command = command_again::<M>(alloc, command.as_ref())?;
                Ok(RaftEvent::Propose(*server, Box::new(alloc, command)?))
            }
            RaftEvent::Compact(server) => Ok(RaftEvent::Compact(*server)),
            RaftEvent::Crash(server) => Ok(RaftEvent::Crash(*server)),
            RaftEvent::Restart(server) => Ok(RaftEvent::Restart(*server)),
        }
    }

    /// Whether a server starts again.
    pub(crate) fn is_restart(&self) -> bool
        ensures { result ≡ is_restart (world_event self.now) }
    {
        match self {
            RaftEvent::Restart(_) => true,
            RaftEvent::Deliver(_) => false,
            RaftEvent::Timeout(_) => false,
            RaftEvent::Beat(_) => false,
            RaftEvent::Propose(_, _) => false,
            RaftEvent::Compact(_) => false,
            RaftEvent::Crash(_) => false,
        }
    }
}
