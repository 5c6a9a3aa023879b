//! Which blocked evaluations are due.
ghost use Rattle.std.specs.Prelude.{◌≡◌, true, nat_lt, IfOk, OnErr, filter, map};
ghost use Rattle.std.specs.List.{list_any};
ghost use Rattle.group_model.specs.Blocked.{is_due_by, room_with};
ghost use Rattle.blocked.specs.Rooms.{room_in};
ghost use Rattle.blocked.specs.Inner.Urgencies.{urgency_of, becomes_due_by};

use crate::held::BlockedEval;
use crate::rooms::Rooms;
use fsm_tables::Urgency;
use rows::{ClassName, Index, NoMemory, Sequence};
use std::alloc::Global;

/// Whether a node of one of the classes got room past an index.
fn have_room(rooms: &Rooms, snapshot: Index, classes: &[ClassName]) -> bool
    ensures { result ≡ list_any (λ class. nat_lt snapshot (room_in rooms.now class)) classes.now }
{
    for class in classes {
        if snapshot < rooms.of(class) {
            return true;
        }
    }
    false
}

/// The same, once a node of the class gets room at this index.
fn would_have_room(
    rooms: &Rooms,
    class: &ClassName,
    index: Index,
    snapshot: Index,
    classes: &[ClassName],
) -> bool
    ensures { let room = room_with class.now index (room_in rooms.now) in
        result ≡ list_any (λ class. nat_lt snapshot (room class)) classes.now }
{
    for other in classes {
        if snapshot < rooms.with(class, index, other) {
            return true;
        }
    }
    false
}

/// Whether a blocked evaluation is due.
fn is_due(rooms: &Rooms, held: &BlockedEval) -> bool
    ensures { result ≡ is_due_by (room_in rooms.now) held.now }
{
    have_room(rooms, held.row.snapshot, held.classes.as_slice())
}

/// Whether a blocked evaluation becomes due once a node of the class gets room at this index.
fn becomes_due(rooms: &Rooms, class: &ClassName, index: Index, held: &BlockedEval) -> bool
    ensures { result ≡ becomes_due_by class.now index (room_in rooms.now) held.now }
{
    let snapshot = held.row.snapshot;
    !is_due(rooms, held) && would_have_room(rooms, class, index, snapshot, held.classes.as_slice())
}

/// How urgent a blocked evaluation is.
fn urgency(held: &BlockedEval) -> Urgency
    ensures { result ≡ urgency_of held.now }
{
    Urgency::of(held.row.priority, held.row.id)
}

/// How urgent the evaluations are that are due, in rising id.
pub(crate) fn due_now(
    alloc: Global,
    rooms: &Rooms,
    evals: &[BlockedEval],
) -> Result<Sequence<Urgency>, NoMemory>
    ensures ok { let those = filter (is_due_by (room_in rooms.now)) evals.now in
        IfOk result (λ us. us ≡ map urgency_of those) }
    ensures memory { OnErr result (list_any (is_due_by (room_in rooms.now)) evals.now ≡ true) }
{
    let mut urgencies = Sequence::new(alloc);
    for held in evals {
        if is_due(rooms, held) {
            urgencies.push(urgency(held))?;
        }
    }
    Ok(urgencies)
}

/// How urgent the evaluations are that become due once a node of the class gets room at this index,
/// in rising id.
pub(crate) fn due_then(
    alloc: Global,
    rooms: &Rooms,
    class: &ClassName,
    index: Index,
    evals: &[BlockedEval],
) -> Result<Sequence<Urgency>, NoMemory>
    ensures { let becomes = becomes_due_by class.now index (room_in rooms.now) in
        IfOk result (λ us. us ≡ map urgency_of (filter becomes evals.now)) }
{
    let mut urgencies = Sequence::new(alloc);
    for held in evals {
        if becomes_due(rooms, class, index, held) {
            urgencies.push(urgency(held))?;
        }
    }
    Ok(urgencies)
}
