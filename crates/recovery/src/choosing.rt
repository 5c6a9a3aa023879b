//! Which server is to settle a group, if any can.
ghost use Rattle.std.specs.Prelude.{◌≡◌, ◌+◌, ◌<◌, true, length, MatchBool};
ghost use Rattle.raft_model.specs.Quorums.{Quorum};
ghost use Rattle.raft_model.specs.Rafts.{Raft as AnyRaft, is_up};
ghost use Rattle.world.specs.Inner.Room.{RoomAbove};
ghost use Rattle.raft_core.specs.Steps.{RefinesRaft};
ghost use Rattle.recovery.specs.Runs.{is_up_in};
ghost use Rattle.recovery.specs.Inner.Drives.{Ever, Known};
ghost use Rattle.recovery.specs.Inner.Goings.{QuorumIsUp, QuorumLacks, RoomIsThere, RoomLacks, IsFull, HasPlace, is_older_log, IsOlder, IsServerOf, LeadsAll, IsPreferred, IsBetter, IsBest};

use crate::driven::Driven;
use crate::reading::{highest, is_behind, is_up, leads, server_at};
use machine::Machine;
use raft_core::Raft;
use rows::{Index, ServerId, Term};

/// Whether a quorum of the servers is up.
pub(crate) fn has_quorum<D: Driven>(world: &D) -> bool
    ensures { MatchBool result (QuorumIsUp D.drive world.now) (QuorumLacks D.drive world.now) }
{
    world.has_run();
    let all = world.members();
    let mut up = 0;
    for position in 0..all {
        if is_up(world, server_at(position)) {
            up += 1;
        }
    }
    all < 2 * up
}

/// Whether there is room above this term and this index for two more of each.
fn is_room_above(term: Term, last: Index) -> bool
    ensures { MatchBool result (RoomAbove term last) (RoomAbove term last → ⊥) }
{
    term.get() + 2 < Term::LIMIT && last.get() + 2 < Index::LIMIT
}

/// Whether a server has room for two more terms and two more entries.
fn raft_has_room<M: Machine>(raft: &Raft<M>) -> bool
    ensures { (s : AnyRaft M.Command) → RefinesRaft M.spec raft.now s →
        MatchBool result (RoomAbove s.term (length s.log)) (RoomAbove s.term (length s.log) → ⊥) }
{
    is_room_above(raft.term(), raft.last())
}

/// Whether a server is up without such room.
fn is_raft_full<M: Machine>(raft: &Raft<M>) -> bool
    ensures { (s : AnyRaft M.Command) → RefinesRaft M.spec raft.now s →
        MatchBool result ((is_up s.mode ≡ true) × (RoomAbove s.term (length s.log) → ⊥))
        (is_up s.mode ≡ true → RoomAbove s.term (length s.log)) }
{
    if !raft.is_up() {
        return false;
    }
    !raft_has_room(raft)
}

/// The same of a server of a world; no where the group has no such server.
fn is_full<D: Driven>(world: &D, server: ServerId) -> bool
    ensures { MatchBool result (Ever D.drive world.now (λ w. IsFull server w))
        (Ever D.drive world.now (λ w. HasPlace server w)) }
{
    match world.log_of(server) {
        Some(raft) => is_raft_full(raft),
        None => false,
    }
}

/// Whether each server that is up has room for two more terms and two more entries.
pub(crate) fn has_room<D: Driven>(world: &D) -> bool
    ensures { MatchBool result (RoomIsThere D.drive world.now) (RoomLacks D.drive world.now) }
{
    world.has_run();
    for position in 0..world.members() {
        if is_full(world, server_at(position)) {
            return false;
        }
    }
    true
}

/// Whether a log is older than another: its last term is less, or the same and it is shorter.
/// (Raft, section 5.4.1.)
fn is_log_older<M: Machine>(one: &Raft<M>, other: &Raft<M>) -> bool
    ensures { (s t : AnyRaft M.Command) → RefinesRaft M.spec one.now s →
        RefinesRaft M.spec other.now t → result ≡ is_older_log s.log t.log }
{
    let (term, its_term) = (one.last_term().get(), other.last_term().get());
    term < its_term || (term == its_term && one.last() < other.last())
}

/// Whether the log of one server is older than that of another.
fn is_older<D: Driven>(world: &D, one: ServerId, other: ServerId) -> bool
    requires { (one < D.drive.size world.now) × (other < D.drive.size world.now) }
    ensures { Ever D.drive world.now (λ w. IsOlder one other result w) }
{
    world.has_run();
    match world.log_of(one) {
        Some(first) => match world.log_of(other) {
            Some(second) => is_log_older(first, second),
            None => unreachable!(),
        },
        None => unreachable!(),
    }
}

/// Whether a server that is up leads, nobody who is up being in a later term.
fn leads_all<D: Driven>(world: &D, server: ServerId) -> bool
    requires { Known D.drive world.now (λ w. is_up_in w server ≡ true) }
    ensures { MatchBool result
        (Ever D.drive world.now (λ w. LeadsAll (D.drive.size world.now) server w))
        (Ever D.drive world.now (λ w. LeadsAll (D.drive.size world.now) server w → ⊥)) }
{
    world.has_run();
    if !leads(world, server) {
        return false;
    }
    let ahead = highest(world, server);
    !is_behind(world, server, ahead)
}

/// Whether a server that is up is preferred to the best so far: its log is newer, or as new, and it
/// leads all.
fn is_preferred<D: Driven>(world: &D, best: ServerId, next: ServerId) -> bool
    requires best { best < D.drive.size world.now }
    requires next { next < D.drive.size world.now }
    requires up { Known D.drive world.now (λ w. is_up_in w next ≡ true) }
    ensures { Ever D.drive world.now (λ w.
        IsPreferred (D.drive.size world.now) best next result w) }
{
    if is_older(world, best, next) {
        return true;
    }
    if is_older(world, next, best) {
        return false;
    }
    leads_all(world, next)
}

/// The one of two servers that is up and preferred.
fn better<D: Driven>(world: &D, best: Option<ServerId>, next: ServerId) -> Option<ServerId>
    requires best { IsServerOf (D.drive.size world.now) best }
    requires next { next < D.drive.size world.now }
    ensures server { IsServerOf (D.drive.size world.now) result }
    ensures better { Ever D.drive world.now (λ w.
        IsBetter (D.drive.size world.now) best next result w) }
{
    world.has_run();
    if !is_up(world, next) {
        return best;
    }
    match best {
        None => Some(next),
        Some(so_far) => {
            let preferred = is_preferred(world, so_far, next);
            Some(if preferred { next } else { so_far })
        }
    }
}

/// A server that is up, whose log is no older than those of the others that are: of several the one
/// that leads, if nobody who is up is in a later term, and else the first.
pub(crate) fn best<D: Driven>(world: &D) -> ServerId
    requires { Known D.drive world.now (λ w. Quorum (D.drive.size world.now) (is_up_in w)) }
    ensures { Ever D.drive world.now (λ w. IsBest (D.drive.size world.now) result w) }
{
    world.has_run();
    let mut best = None;
    for position in 0..world.members() {
        best = better(world, best, server_at(position));
    }
    match best {
        Some(who) => who,
        None => unreachable!(),
    }
}
