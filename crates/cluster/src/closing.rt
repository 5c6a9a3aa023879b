//! How the cells of a book are put together at its close.
ghost use Rattle.std.specs.Prelude.{◌≡◌, length, map, IfOk, OnOk};
ghost use Rattle.std.specs.List.{AllByRecursion};
ghost use Rattle.group_inputs.specs.Events.{group_events};
ghost use Rattle.cells.specs.Actors.{group_size};
ghost use Rattle.cells.specs.Cells.{IsOpenedCell};
ghost use Rattle.cells.specs.Groups.{seat_in};
ghost use Rattle.cluster.specs.Inner.Closed.{AreAllNoted, named_in};
ghost use Rattle.cells.specs.Rests.{rest_in, rest_of};

use crate::merging::merged;
use crate::numbering::number;
use cells::{Cell, GroupActor, OwnInput, Rest, take_apart};
use event_book::{ActorSeat, Book, BookId};
use group_inputs::Event;
use rows::{Actor, NoMemory};
use std::alloc::Global;

/// An actor of a group, and who it is.
#[derive(Drop)]
pub struct NamedActor {
    /// Who it is.
    pub me: Actor,
    /// The actor.
    pub actor: GroupActor,
}

/// What the cells of a book come to: all events that were noted, in the order of their stamps, and
/// the actors, in the order of their cells.
#[derive(Drop)]
pub(crate) struct JoinedCells {
    pub(crate) events: Vec<Event>,
    pub(crate) actors: Vec<NamedActor>,
}

/// Takes the seats out of all cells.
fn all_apart<B: BookId>(
    alloc: Global,
    cells: Vec<Cell<B>>,
) -> Result<(Vec<ActorSeat<OwnInput, B>>, Vec<Rest>), NoMemory>
    ensures seats { IfOk result (λ r. r.0.items ≡ map seat_in cells.items) }
    ensures rests { IfOk result (λ r. map rest_of r.1.items ≡ map rest_in cells.items) }
    ensures led { OnOk result
        (AllByRecursion (IsOpenedCell (group_size B.actors) B.nodes) cells.items) }
{
    let mut seats = Vec::new(alloc);
    let mut rests = Vec::new(alloc);
    for cell in cells {
        let (seat, rest) = take_apart(cell);
        seats.push(seat)?;
        rests.push(rest)?;
    }
    Ok((seats, rests))
}

/// Closes a book with all of its cells, and puts the events that they noted together by stamp. It
/// asks for as many cells as the book has actors, in any order.
/// - `events`: there is one legal history in which each actor noted just what its cell noted, and
///   the events are those of that history, in its order.
/// - `actors`: each cell's actor, by its name.
pub(crate) fn history<B: BookId>(
    alloc: Global,
    book: Book<OwnInput, B>,
    cells: Vec<Cell<B>>,
) -> Result<JoinedCells, NoMemory>
    requires { length cells.items ≡ length B.actors }
    ensures events { IfOk result (λ r.
        AreAllNoted B.actors B.nodes cells.items (group_events r.events.items)) }
    ensures actors { IfOk result (λ r. r.actors.items ≡ map named_in cells.items) }
{
    let (seats, rests) = all_apart(alloc, cells)?;
    let count = book.close(seats);
    let (placed, actors) = merged(alloc, count, rests)?;
    Ok(JoinedCells {
        events: number(alloc, placed)?,
        actors,
    })
}
