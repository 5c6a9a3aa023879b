//! Servers that are down restart, whatever they are servers of.
ghost use Rattle.std.specs.Prelude.{◌≡◌, ◌<◌, OnOk, IfErr};
ghost use Rattle.recovery.specs.Inner.Drives.{WentOf};
ghost use Rattle.recovery.specs.Inner.DownServers.{HasRestarted, RestartedSoFar, RestartFails, RestartsFail};

use crate::driven::Driven;
use crate::reading::{is_up, server_at};
use crate::unsettled::Unsettled;
use rows::ServerId;

/// A server starts again, if it is down.
fn restart_if_down<D: Driven>(
    with: &D::With,
    world: &mut D,
    server: ServerId,
) -> Result<(), Unsettled>
    requires { server < D.drive.size world.old }
    ensures ok { OnOk result (WentOf D.drive world.old world.new (λ taken w v.
        HasRestarted D.Of.spec D.drive D.restarting server w taken v)) }
    ensures err { IfErr result (λ why. RestartFails D.drive server world.old world.new why) }
{
    world.has_run();
    if is_up(world, server) {
        Ok(())
    } else {
        world.restart(with, server)
    }
}

/// Each server that is down starts again, in order.
pub(crate) fn restart_all<D: Driven>(with: &D::With, world: &mut D) -> Result<(), Unsettled>
    ensures ok { OnOk result (WentOf D.drive world.old world.new (λ taken w v.
        RestartedSoFar D.Of.spec D.drive D.restarting (D.drive.size world.old) taken w v)) }
    ensures err { IfErr result (λ why.
        RestartsFail D.Of.spec D.drive D.restarting world.old world.new why) }
{
    world.has_run();
    for position in 0..world.members() {
        match restart_if_down(with, world, server_at(position)) {
            Ok(()) => {}
            Err(why) => return Err(why),
        }
    }
    Ok(())
}
