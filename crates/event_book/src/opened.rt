//! How a book is opened.
ghost use Rattle.std.specs.Prelude.{◌≡◌, ◌⊎◌, ◌↔◌, ◌<◌, ◌≤◌, true, false, [], length, map};
ghost use Rattle.std.specs.Prelude.{IfErr, IfOk, OnOk};
ghost use Rattle.rows.specs.declared.refusal.Refusal.TheVariants as refusals;
ghost use Rattle.event_book.specs.Seats.{are_apart, new_seat};
ghost use Rattle.event_book.specs.Inner.Actors.{IsActor};

use crate::book::{Book, BookId};
use crate::rule::{BookRule, HandsOut, Holder};
use crate::seat::ActorSeat;
use crate::view::BookView;
use atomic_table::Table;
use rows::{Actor, NoMemory, Refusal};
use std::alloc::Global;
use std::marker::{Model, PhantomData};

/// A book that was opened, before it is said which one it is and its seats are handed out.
/// Contracts see its table and its actors.
#[derive(Drop)]
pub struct OpenedBook<I> {
    table: Table<(), BookView<I>, Vec<Actor>, BookRule, Global>,
    first: Holder<I>,
    actors: Vec<Actor>,
}

impl<I> Model for OpenedBook<I> {
    ghost use Rattle.std.specs.Prelude.{◌≡◌, ◌<◌, List, [], true, length};
    ghost use Rattle.atomic_table.specs.Seated.{TableId};
    ghost use Rattle.rows.specs.declared.actor.Actor.{Actor};
    ghost use Rattle.event_book.specs.Seats.{are_apart};
    ghost use Rattle.event_book.specs.Inner.Views.{opening_view};

    ghost Value = { TableId × List Actor };

    ghost view = { λ o. (o.table.shared.table_id, o.actors.items) };

    ghost invariant = { λ o. (o.first.table_id ≡ o.table.shared.table_id)
        × (o.table.shared.table_id.words ≡ 1) × (o.table.shared.key.items ≡ o.actors.items)
        × (are_apart o.actors.items ≡ true) × (0 < length o.actors.items)
        × (o.first.me ≡ (opening_view o.actors.items, [])) };
}

// What an actor's type says of its number, for the check alone: it changes nothing.
fn known(actor: Actor)
    ensures { IsActor actor }
{
    match actor {
        Actor::Server(server) => {
            server.position();
        }
        Actor::Client(client) => {
            client.number();
        }
    }
}

/// Whether no actor stands twice. There are 69, so a list that is longer names one twice.
/// - `value`: it is that.
/// - `few`: so many there are at most where none does.
#[tactic(auto, using(crate::proofs::Actors::few_at_end))]
pub fn are_apart(actors: &[Actor]) -> bool
    ensures value { result ≡ are_apart actors.now }
    ensures few { result ≡ true → length actors.now ≤ 69 }
{
    let mut rest = actors;
    while let Some((actor, others)) = rest.split_first() {
        if others.contains(actor) {
            return false;
        }
        known(*actor);
        rest = others;
    }
    true
}

impl<I> OpenedBook<I> {
    /// Opens a book for these actors.
    /// - `ok`: it has the actors that it was given, in their order.
    /// - `some`, `differ`: there are actors, and no actor stands twice.
    /// - `out_of_range`: it is refused so just where there is none, or one stands twice.
    /// - `refusals`: else it is refused only for want of memory.
    #[tactic(auto, using(crate::proofs::Moves::begins))]
    pub fn new(alloc: Global, actors: Vec<Actor>) -> Result<OpenedBook<I>, Refusal>
        ensures ok { IfOk result (λ o. o.1 ≡ actors.items) }
        ensures some { OnOk result (0 < length actors.items) }
        ensures differ { OnOk result (are_apart actors.items ≡ true) }
        ensures out_of_range { IfErr result (λ e. (e ≡ refusals.OutOfRange)
            ↔ ((actors.items ≡ []) ⊎ (are_apart actors.items ≡ false))) }
        ensures refusals { IfErr result (λ e.
            (e ≡ refusals.OutOfRange) ⊎ (e ≡ refusals.NoMemory)) }
    {
        if actors.is_empty() || !are_apart(actors.as_slice()) {
            return Err(Refusal::OutOfRange);
        }
        let (table, first) = Table::of_words(alloc, &[0], &actors)?;
        Ok(OpenedBook {
            table,
            first,
            actors,
        })
    }

    /// The book, under the name that the caller picks, and a seat for each actor, in the order of
    /// the actors. The seats noted nothing yet.
    #[tactic(auto, using(crate::proofs::Moves::hands_out))]
    pub fn seats<B: BookId>(
        self,
        alloc: Global,
    ) -> Result<(Book<I, B>, Vec<ActorSeat<I, B>>), NoMemory>
        requires { self ≡ (B.table, B.actors) }
        ensures { IfOk result (λ r. r.1.items ≡ map new_seat B.actors) }
    {
        let OpenedBook {
            table,
            mut first,
            actors,
        } = self;
        let mut seats = Vec::new(alloc);
        for actor in actors.as_slice() {
            let holder = table.shared.split_seat::<HandsOut>(&mut first);
            seats.push(ActorSeat::of_holder(*actor, holder))?;
        }
        Ok((
            Book {
                table,
                actors,
                of: PhantomData,
            },
            seats,
        ))
    }
}
