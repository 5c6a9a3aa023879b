//! Whatever is driven, settled.
ghost use Rattle.std.specs.Prelude.{IfOk, IfErr};
ghost use Rattle.recovery.specs.Inner.Goings.{DriveSettled, WhyDriveUnsettled};

use crate::choosing::{best, has_quorum, has_room};
use crate::driven::Driven;
use crate::rounds::settle_at;
use crate::unsettled::Unsettled;
use rows::ServerId;

/// The server with the best log among those that are up settles them, where a quorum is up and has
/// room.
pub(crate) fn settle_driven<D: Driven>(with: &D::With, world: &mut D) -> Result<ServerId, Unsettled>
    ensures ok { IfOk result (λ who.
        DriveSettled D.drive D.Of.spec world.old world.new who) }
    ensures err { IfErr result (λ why.
        WhyDriveUnsettled D.drive D.Of.spec world.old world.new why) }
{
    world.has_run();
    if !has_quorum(world) {
        return Err(Unsettled::NoQuorum);
    }
    if !has_room(world) {
        return Err(Unsettled::Exhausted);
    }
    let who = best(world);
    match settle_at(with, world, who) {
        Ok(()) => Ok(who),
        Err(why) => Err(why),
    }
}
