//! What is read off a world.
ghost use Rattle.std.specs.Prelude.{◌≡◌, ◌^◌, ◌<◌, ◌≤◌, true, Some, length, slice_get, MatchBool, IfSome, IfNone};
ghost use Rattle.raft_model.specs.Rafts.{Raft as AnyRaft, is_up};
ghost use Rattle.recovery.specs.Runs.{is_up_in};
ghost use Rattle.recovery.specs.Inner.Spreads.{IsBehind, AllApplied, Highest};
ghost use Rattle.recovery.specs.Inner.Drives.{Ever, EverAt, Known};
ghost use Rattle.recovery.specs.Inner.Goings.{leads_in, ForServer, ForNobody, IsOf, IsHigher};

use crate::driven::Driven;
use rows::ServerId;

/// The server at a position.
pub(crate) fn server_at(position: usize) -> ServerId
    requires { position < 5 }
    ensures { result ≡ position }
{
    match ServerId::from_position(position) {
        Some(server) => server,
        None => unreachable!(),
    }
}

/// Whether a server is up.
pub(crate) fn is_up<D: Driven>(world: &D, server: ServerId) -> bool
    ensures { Ever D.drive world.now (λ w. result ≡ is_up_in w server) }
{
    match world.log_of(server) {
        Some(raft) => raft.is_up(),
        None => false,
    }
}

/// Whether it leads.
pub(crate) fn leads<D: Driven>(world: &D, server: ServerId) -> bool
    ensures { Ever D.drive world.now (λ w. result ≡ leads_in w server) }
{
    match world.log_of(server) {
        Some(raft) => match raft.leader_term() {
            Some(_) => true,
            None => false,
        },
        None => false,
    }
}

/// Its term.
pub(crate) fn term_of<D: Driven>(world: &D, server: ServerId) -> u64
    ensures { Ever D.drive world.now (λ w. IsOf (λ s. s.term) server result w) }
{
    match world.log_of(server) {
        Some(raft) => raft.term().get(),
        None => 0,
    }
}

/// The index of its last entry.
pub(crate) fn last_of<D: Driven>(world: &D, server: ServerId) -> u64
    ensures value { Ever D.drive world.now (λ w. IsOf (λ s. length s.log) server result w) }
    ensures limit { result < 2 ^ 40 }
{
    match world.log_of(server) {
        Some(raft) => raft.last().get(),
        None => 0,
    }
}

/// Whether one server is in an earlier term than another.
pub(crate) fn is_behind<D: Driven>(world: &D, server: ServerId, other: ServerId) -> bool
    requires { (server < D.drive.size world.now) × (other < D.drive.size world.now) }
    ensures { MatchBool result (Ever D.drive world.now (λ w. IsBehind server other w))
        (Ever D.drive world.now (λ w. IsBehind server other w → ⊥)) }
{
    world.has_run();
    term_of(world, server) < term_of(world, other)
}

/// The server that is to receive the message at a place, if that is up.
pub(crate) fn receiver<D: Driven>(world: &D, place: usize) -> Option<ServerId>
    ensures some { IfSome result (λ k. EverAt D.drive world.now place (λ p w. ForServer p k w)) }
    ensures none { IfNone result (EverAt D.drive world.now place (λ p w. ForNobody p w)) }
{
    match world.addressee(place) {
        Some(server) => {
            if is_up(world, server) {
                Some(server)
            } else {
                None
            }
        }
        None => None,
    }
}

/// Whether a server that is up has not applied so many entries.
fn lacks<D: Driven>(world: &D, server: ServerId, last: u64) -> bool
    ensures { MatchBool result (Ever D.drive world.now (λ w. (s : AnyRaft D.Of.Command) →
        slice_get w.servers server ≡ Some s → (is_up s.mode ≡ true) × (s.commit < last)))
        (Ever D.drive world.now (λ w. (s : AnyRaft D.Of.Command) →
        slice_get w.servers server ≡ Some s → is_up s.mode ≡ true → last ≤ s.commit)) }
{
    match world.log_of(server) {
        Some(raft) => match raft.applied() {
            Some(applied) => applied.get() < last,
            None => false,
        },
        None => false,
    }
}

/// Whether each server that is up has applied all that `who` has in its log.
pub(crate) fn is_applied<D: Driven>(world: &D, who: ServerId) -> bool
    ensures { result ≡ true → Ever D.drive world.now (λ w. AllApplied who w) }
{
    world.has_run();
    let last = last_of(world, who);
    for position in 0..world.members() {
        if lacks(world, server_at(position), last) {
            return false;
        }
    }
    true
}

/// The one of two servers that is up and in a later term; the first where they are level.
fn higher<D: Driven>(world: &D, top: ServerId, other: ServerId) -> ServerId
    requires { (top < D.drive.size world.now) × (other < D.drive.size world.now) }
    ensures { Ever D.drive world.now (λ w. IsHigher top other result w) }
{
    if is_up(world, other) && is_behind(world, top, other) {
        other
    } else {
        top
    }
}

/// A server that is up, than whose term none that is up has a greater one.
pub(crate) fn highest<D: Driven>(world: &D, who: ServerId) -> ServerId
    requires { Known D.drive world.now (λ w. is_up_in w who ≡ true) }
    ensures { Ever D.drive world.now (λ w. Highest (D.drive.size world.now) result w) }
{
    world.has_run();
    let mut top = who;
    for position in 0..world.members() {
        top = higher(world, top, server_at(position));
    }
    top
}
