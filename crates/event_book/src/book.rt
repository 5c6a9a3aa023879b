//! The book, and how it is closed.
ghost use Rattle.std.specs.Prelude.{◌≡◌, ◌<◌, true, List, length, map};
ghost use Rattle.rows.specs.declared.actor.Actor.{Actor};
ghost use Rattle.event_book.specs.declared.view.Note.{Note};
ghost use Rattle.event_book.specs.Seats.{actor_in, are_apart, lists_actor, IsWhole};

use crate::rule::{BookRule, JoinsSeats, Looks};
use crate::seat::ActorSeat;
use crate::view::BookView;
use atomic_table::Table;
use rows::Actor;
use std::alloc::Global;
use std::marker::{Brand, PhantomData};

/// Which book it is: its table, its actors in the order in which they were named, and the nodes of
/// those of them that are clients. A program picks it where it opens a book, by a call at `Brand`,
/// so that no seat or token is used with another book.
pub trait BookId {
    ghost use Rattle.std.specs.Prelude.{List};
    ghost use Rattle.atomic_table.specs.Seated.{TableId};
    ghost use Rattle.rows.specs.declared.actor.Actor.{Actor};
    ghost use Rattle.rows.specs.declared.node.NodeSpec.{NodeSpec};

    /// The table.
    ghost table: { TableId };

    /// The actors.
    ghost actors: { List Actor };

    /// The nodes of the clients, the k-th client's at the k-th place. No call of a book asks for
    /// them; they are for who keeps clients under the book's name.
    ghost nodes: { List NodeSpec };
}

impl BookId for Brand {
    ghost use Rattle.std.specs.Prelude.{[]};
    ghost use Rattle.event_book.specs.Inner.Views.{no_table};

    ghost table = { no_table };

    ghost actors = { [] };

    ghost nodes = { [] };
}

/// A book in which actors note their events, in one order for all. Threads share it by `&`: a note
/// is one atomic addition, which counts the notes, and the number found is the note's stamp.
#[derive(Drop)]
pub struct Book<I, B: BookId> {
    pub(crate) table: Table<(), BookView<I>, Vec<Actor>, BookRule, Global>,
    pub(crate) actors: Vec<Actor>,
    pub(crate) of: PhantomData<B>,
    ghost listed: { actors.items ≡ B.actors },
    ghost some: { 0 < length B.actors },
    ghost table_is: { table.shared.table_id ≡ B.table },
    ghost words: { table.shared.table_id.words ≡ 1 },
    ghost keyed: { table.shared.key.items ≡ B.actors },
}

impl<I, B: BookId> Book<I, B> {
    /// The actors, in the order in which they were named.
    pub fn actors(&self) -> &[Actor]
        ensures { result.now ≡ B.actors }
    {
        self.actors.as_slice()
    }

    /// Joins all seats, and answers how many events were noted. It asks for as many seats as the
    /// book has actors, in any order. It takes no memory and never waits.
    /// - `all`: each of the book's actors has one of these seats.
    /// - `apart`: no actor has two.
    /// - `within`: no seat is of another actor.
    /// - `whole`: there is one legal history of that many events, and each seat noted just what its
    ///   actor noted in it, in that order.
    #[tactic(auto, using(crate::proofs::Moves::joins))]
    pub fn close(self, seats: Vec<ActorSeat<I, B>>) -> u64
        requires { length seats.items ≡ length B.actors }
        ensures all { (actor : Actor) → lists_actor B.actors actor ≡ true
            → lists_actor (map actor_in seats.items) actor ≡ true }
        ensures apart { are_apart (map actor_in seats.items) ≡ true }
        ensures within { (actor : Actor) → lists_actor (map actor_in seats.items) actor ≡ true
            → lists_actor B.actors actor ≡ true }
        ensures whole { (log : List (Note I)) × (result ≡ length log)
            × IsWhole B.actors log seats.items }
    {
        let Book {
            table,
            actors: _,
            of: _,
        } = self;
        let mut seats = seats;
        let Some(last) = seats.pop() else {
            unreachable!()
        };
        let mut all = last.into_holder();
        while let Some(seat) = seats.pop() {
            let mut holder = seat.into_holder();
            table.shared.join_seat::<JoinsSeats>(&mut holder, all);
            all = holder;
        }
        table.shared.load::<Looks<B>>(&mut all, 0)
    }
}
