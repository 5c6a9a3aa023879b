//! Rounds, by which one server comes to lead and all others to follow it.
ghost use Rattle.std.specs.Prelude.{◌≡◌, ◌<◌, ◌⊎◌, OnOk, IfOk, IfErr};
ghost use Rattle.recovery.specs.Runs.{Settles};
ghost use Rattle.recovery.specs.Inner.Spreads.{Ready, Risen, Chosen, CanObserveNewerTerm, SpreadDone, LedDone, Leading, AppliedDone, seat};
ghost use Rattle.recovery.specs.Inner.Drives.{Known, Went, Stops};

use crate::driven::Driven;
use crate::events::{beat_or_time_out, exchange, swap};
use crate::reading::{highest, is_applied, is_behind, last_of, leads};
use crate::unsettled::Unsettled;
use rows::ServerId;

/// One round: the server beats, if it leads, and else it stands; and each other server that is up
/// gets what it sent, and answers.
fn spread<D: Driven>(with: &D::With, world: &mut D, who: ServerId) -> Result<(), Unsettled>
    requires { Known D.drive world.old (λ w. Ready (D.drive.size world.old) who w) }
    ensures ok { OnOk result (Went D.drive world.old world.new (λ taken w v.
        SpreadDone D.Of.spec (D.drive.size world.old) who taken w v)) }
    ensures err { IfErr result (λ why. Stops D.drive D.Of.spec who world.old world.new why) }
{
    world.has_run();
    let first = world.sent_count();
    match beat_or_time_out(with, world, who) {
        Ok(()) => {}
        Err(why) => return Err(why),
    }
    let end = world.sent_count();
    for place in first..end {
        match swap(with, world, who, place) {
            Ok(()) => {}
            Err(why) => return Err(why),
        }
    }
    Ok(())
}

/// Where the message to a server stands among those that `who` sent to all others.
fn seat(who: ServerId, server: ServerId) -> usize
    ensures value { result ≡ seat who server }
    ensures limit { result < 5 }
{
    if who.position() < server.position() {
        server.position() - 1
    } else {
        server.position()
    }
}

/// The server beats or stands, and hears of the term of `ahead`, which is ahead of it.
fn observe_newer_term<D: Driven>(
    with: &D::With,
    world: &mut D,
    who: ServerId,
    ahead: ServerId,
) -> Result<(), Unsettled>
    requires { Known D.drive world.old (λ w. CanObserveNewerTerm
        (D.drive.size world.old) who ahead w) }
    ensures ok { OnOk result (Went D.drive world.old world.new (λ taken w v.
        Risen D.Of.spec (D.drive.size world.old) who w taken v)) }
    ensures err { IfErr result (λ why. Stops D.drive D.Of.spec who world.old world.new why) }
{
    world.has_run();
    let first = world.sent_count();
    match beat_or_time_out(with, world, who) {
        Ok(()) => {}
        Err(why) => return Err(why),
    }
    if !is_behind(world, who, ahead) {
        return Ok(());
    }
    let _end = world.sent_count();
    let place = first + seat(who, ahead);
    exchange(with, world, who, place, ahead)
}

/// It comes to where no server that is up is in a later term.
fn rise<D: Driven>(with: &D::With, world: &mut D, who: ServerId) -> Result<(), Unsettled>
    requires { Known D.drive world.old (λ w. Chosen (D.drive.size world.old) who w) }
    ensures ok { OnOk result (Went D.drive world.old world.new (λ taken w v.
        Risen D.Of.spec (D.drive.size world.old) who w taken v)) }
    ensures err { IfErr result (λ why. Stops D.drive D.Of.spec who world.old world.new why) }
{
    world.has_run();
    let ahead = highest(world, who);
    if is_behind(world, who, ahead) {
        observe_newer_term(with, world, who, ahead)
    } else {
        Ok(())
    }
}

/// It comes to lead.
fn lead<D: Driven>(with: &D::With, world: &mut D, who: ServerId) -> Result<(), Unsettled>
    requires { Known D.drive world.old (λ w. Ready (D.drive.size world.old) who w) }
    ensures ok { OnOk result (Went D.drive world.old world.new (λ taken w v.
        LedDone D.Of.spec (D.drive.size world.old) who taken w v)) }
    ensures err { IfErr result (λ why. Stops D.drive D.Of.spec who world.old world.new why) }
{
    world.has_run();
    if leads(world, who) {
        Ok(())
    } else {
        spread(with, world, who)
    }
}

/// It leads until each server that is up has applied its whole log. So many rounds are always
/// enough.
fn confirm<D: Driven>(with: &D::With, world: &mut D, who: ServerId) -> Result<(), Unsettled>
    requires { Known D.drive world.old (λ w. Leading (D.drive.size world.old) who w) }
    ensures ok { OnOk result (Went D.drive world.old world.new (λ taken w v.
        AppliedDone D.Of.spec who taken w v)) }
    ensures err { IfErr result (λ why. Stops D.drive D.Of.spec who world.old world.new why) }
{
    world.has_run();
    let enough = 2 * last_of(world, who) + 2;
    for round in 0..enough {
        if is_applied(world, who) {
            return Ok(());
        }
        match spread(with, world, who) {
            Ok(()) => {}
            Err(why) => return Err(why),
        }
    }
    Ok(())
}

/// A server of the best log settles the group.
pub(crate) fn settle_at<D: Driven>(
    with: &D::With,
    world: &mut D,
    who: ServerId,
) -> Result<(), Unsettled>
    requires { Known D.drive world.old (λ w. Chosen (D.drive.size world.old) who w) }
    ensures ok { OnOk result (Went D.drive world.old world.new (λ taken w v.
        Settles D.Of.spec (D.drive.size world.old) who taken w v)) }
    ensures err { IfErr result (λ why. Stops D.drive D.Of.spec who world.old world.new why) }
{
    world.has_run();
    match rise(with, world, who) {
        Ok(()) => {}
        Err(why) => return Err(why),
    }
    match lead(with, world, who) {
        Ok(()) => {}
        Err(why) => return Err(why),
    }
    confirm(with, world, who)
}
