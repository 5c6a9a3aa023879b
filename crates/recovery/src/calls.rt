//! A group is settled.
ghost use Rattle.std.specs.Prelude.{IfOk, IfErr};
ghost use Rattle.recovery.specs.Settling.{IsSettled, WhyUnsettled};
ghost use Rattle.recovery.specs.GroupSettling.{IsGroupSettled, WhyGroupUnsettled};

use crate::settling::settle_driven;
use crate::unsettled::Unsettled;
use machine::Machine;
use rows::ServerId;
use std::alloc::Global;
use world::{RaftWorld, World};

/// Settles a group of the log: the server with the best log among those that are up is let stand
/// where it does not lead, or is behind in term, and then it beats until each server that is up has
/// applied its whole log. What it sends meanwhile is delivered, and what is answered; nothing that
/// was sent before is. It takes at most two timeouts and `most_beats` of them. The server that is
/// answered leads. Of several with such a log it is the one that leads already, where nobody who is
/// up is in a later term, and else the first. (Raft, sections 5.2 to 5.4.)
///
/// It is refused with `NoQuorum` where no quorum of the servers is up, and with `Exhausted` where
/// one that is up has no room for two more terms or entries; nothing happened then. With
/// `NoMemory` or `Crashed` memory was wanting on the way; the events before that happened.
pub fn settle<M: Machine>(world: &mut RaftWorld<M>) -> Result<ServerId, Unsettled>
    ensures ok { IfOk result (λ who. IsSettled M.spec world.old world.new who) }
    ensures err { IfErr result (λ why. WhyUnsettled M.spec world.old world.new why) }
{
    settle_driven(&(), world)
}

/// Settles a whole group, as `settle` does servers of the log alone: by timeouts and beats of one
/// server, and deliveries of the log's messages that are sent meanwhile. Clients, workers and what
/// was sent before play no part, and what came for workers stays. The server that is answered
/// leads, and its desk is open. (Raft, sections 5.2 to 5.4; Nomad documentation, "Scheduling in
/// Nomad".)
///
/// It is refused as `settle` is.
pub fn settle_group(alloc: Global, world: &mut World) -> Result<ServerId, Unsettled>
    ensures ok { IfOk result (λ who. IsGroupSettled world.old world.new who) }
    ensures err { IfErr result (λ why. WhyGroupUnsettled world.old world.new why) }
{
    // A look at its clients says that their nodes are within the limits.
    let _nodes = world.clients();
    settle_driven(&alloc, world)
}
