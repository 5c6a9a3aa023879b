//! A group is settled with all its servers: those that are down restart first.
ghost use Rattle.std.specs.Prelude.{IfOk, IfErr};
ghost use Rattle.recovery.specs.Restarting.{AreSettled, WhyAllUnsettled};
ghost use Rattle.recovery.specs.GroupRestarting.{AreGroupSettled, WhyGroupAllUnsettled};

use crate::calls::{settle, settle_group};
use crate::down_servers::restart_all;
use crate::driven::Driven;
use crate::unsettled::Unsettled;
use machine::Machine;
use rows::ServerId;
use std::alloc::Global;
use world::{RaftWorld, World};

/// Settles a group of the log with all its servers: those that are down restart, each once, and
/// then the group settles by `settle`. So all of them come to have applied the whole log of the
/// server that is answered, which leads. (Raft, sections 5.2 to 5.6.)
///
/// It is refused with `Exhausted` where a server, up or down, has no room for two more terms or
/// entries; nothing happened then. With `NoMemory` or `Crashed` memory was wanting on the way: for
/// a restart, whose server stays down, or later. The events before that happened. It is never
/// refused with `NoQuorum`.
pub fn settle_all<M: Machine>(world: &mut RaftWorld<M>) -> Result<ServerId, Unsettled>
    ensures ok { IfOk result (λ who. AreSettled M.spec world.old world.new who) }
    ensures err { IfErr result (λ why. WhyAllUnsettled M.spec world.old world.new why) }
{
    world.has_run();
    if !world.has_room() {
        return Err(Unsettled::Exhausted);
    }
    match restart_all(&(), world) {
        Ok(()) => settle(world),
        Err(why) => Err(why),
    }
}

/// Settles a whole group with all its servers, as `settle_all` does servers of the log alone: those
/// that are down restart, each once, and then the group settles by `settle_group`. Clients play no
/// part, up or down.
///
/// It is refused as `settle_all` is.
pub fn settle_all_of_group(alloc: Global, world: &mut World) -> Result<ServerId, Unsettled>
    ensures ok { IfOk result (λ who. AreGroupSettled world.old world.new who) }
    ensures err { IfErr result (λ why. WhyGroupAllUnsettled world.old world.new why) }
{
    world.has_run();
    // A look at its clients says that their nodes are within the limits.
    let _nodes = world.clients();
    if !world.has_room() {
        return Err(Unsettled::Exhausted);
    }
    match restart_all(&alloc, world) {
        Ok(()) => settle_group(alloc, world),
        Err(why) => Err(why),
    }
}
