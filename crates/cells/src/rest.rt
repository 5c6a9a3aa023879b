//! What is left of a cell whose seat is taken out.
ghost use Rattle.std.specs.Prelude.{◌≡◌};
ghost use Rattle.cells.specs.Actors.{group_size};
ghost use Rattle.cells.specs.Cells.{IsOpenedCell};
ghost use Rattle.cells.specs.Rests.{rest_in, rest_of};

use crate::cell::{Cell, StampedEvent};
use crate::own_input::OwnInput;
use actor::GroupActor;
use event_book::{ActorSeat, BookId};
use rows::Actor;

/// What is left of a cell once its seat is taken out: the actor, and the events that it took.
#[derive(Drop)]
pub struct Rest {
    /// Who the actor is.
    pub me: Actor,
    /// The actor.
    pub actor: GroupActor,
    /// The events that it took, oldest first.
    pub taken: Vec<StampedEvent>,
}

/// Takes the seat out of a cell. The events that are left are those that the seat noted, and the
/// actor is where they lead.
/// - `seat`, `rest`: these are the cell's.
/// - `led`: its actor is where just these events lead it, from its beginning in the group of the
///   book's actors and nodes.
pub fn take_apart<B: BookId>(cell: Cell<B>) -> (ActorSeat<OwnInput, B>, Rest)
    ensures seat { result.0 ≡ cell.seat }
    ensures rest { rest_of result.1 ≡ rest_in cell }
    ensures led { IsOpenedCell (group_size B.actors) B.nodes cell }
{
    let Cell {
        me,
        actor,
        taken,
        seat,
    } = cell;
    (seat, Rest { me, actor, taken })
}
