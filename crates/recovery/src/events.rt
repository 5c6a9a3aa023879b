//! The turn of one server, and the delivery of a message and its answer.
ghost use Rattle.std.specs.Prelude.{OnOk, IfErr};
ghost use Rattle.recovery.specs.Inner.Spreads.{CanSwap, CanExchange, SwapDone, CanBeatOrTimeOut, ActDone};
ghost use Rattle.recovery.specs.Inner.Drives.{Known, KnownAt, Went, WentAt, SwapStops, Stops};

use crate::calm_event::CalmEvent;
use crate::driven::Driven;
use crate::reading::{leads, receiver};
use crate::unsettled::Unsettled;
use rows::ServerId;

/// The server beats, if it leads; else it stands.
pub(crate) fn beat_or_time_out<D: Driven>(
    with: &D::With,
    world: &mut D,
    who: ServerId,
) -> Result<(), Unsettled>
    requires { Known D.drive world.old (λ w. CanBeatOrTimeOut D.Of.spec who w) }
    ensures ok { OnOk result (Went D.drive world.old world.new (λ taken w v.
        ActDone D.Of.spec who taken w v)) }
    ensures err { IfErr result (λ why. Stops D.drive D.Of.spec who world.old world.new why) }
{
    world.has_run();
    if leads(world, who) {
        world.let_happen(with, CalmEvent::Beat(who), who)
    } else {
        world.let_happen(with, CalmEvent::Timeout(who), who)
    }
}

/// The message at a place comes to its receiver, which is up, and the answer to `who`.
pub(crate) fn exchange<D: Driven>(
    with: &D::With,
    world: &mut D,
    who: ServerId,
    place: usize,
    server: ServerId,
) -> Result<(), Unsettled>
    requires { KnownAt D.drive world.old place (λ p w. CanExchange D.Of.spec who p server w) }
    ensures ok { OnOk result (WentAt D.drive place world.old world.new (λ p taken w v.
        SwapDone D.Of.spec p w taken v)) }
    ensures err { IfErr result (λ why. SwapStops D.drive place world.old world.new why) }
{
    world.has_run();
    let answer = world.sent_count();
    match world.let_happen(with, CalmEvent::Deliver(place), server) {
        Ok(()) => world.let_happen(with, CalmEvent::Deliver(answer), who),
        Err(why) => Err(why),
    }
}

/// The message at a place comes to its receiver, if that is up, and then the answer to `who`.
pub(crate) fn swap<D: Driven>(
    with: &D::With,
    world: &mut D,
    who: ServerId,
    place: usize,
) -> Result<(), Unsettled>
    requires { KnownAt D.drive world.old place (λ p w. CanSwap D.Of.spec who p w) }
    ensures ok { OnOk result (WentAt D.drive place world.old world.new (λ p taken w v.
        SwapDone D.Of.spec p w taken v)) }
    ensures err { IfErr result (λ why. SwapStops D.drive place world.old world.new why) }
{
    world.has_run();
    match receiver(world, place) {
        Some(server) => exchange(with, world, who, place, server),
        None => Ok(()),
    }
}
