//! The rule of the book's table, and the kinds of its moves. Its one word is the number of notes.
ghost use Rattle.std.specs.Prelude.{ℕ};

use crate::book::BookId;
use crate::view::{BookView, NotedView};
use atomic_table::{Join, Play, Seat, Split, TableRule};
use rows::Actor;
use std::marker::{Brand, PhantomData};

/// A holder of the table: what a seat or a token of the book stands on. It holds no slot.
pub type Holder<I> = Seat<(), BookView<I>>;

/// Between any two moves there is one legal history, and each view fits it.
pub struct BookRule;

impl<I> TableRule<(), BookView<I>, Vec<Actor>> for BookRule {
    ghost use Rattle.event_book.specs.Inner.Rule.{IsBookState};
    ghost use Rattle.event_book.specs.Inner.Views.{opening_view};

    ghost holds = { λ actors. IsBookState actors.items };

    ghost first = { λ actors. opening_view actors.items };
}

/// What one call notes. The call picks it.
pub trait NotedBy<I> {
    ghost use Rattle.event_book.specs.declared.view.NotedView.{NotedView};

    ghost noted: { NotedView I };
}

impl<I> NotedBy<I> for Brand {
    ghost use Rattle.event_book.specs.Inner.Views.{nothing_noted};

    ghost noted = { nothing_noted };
}

/// Of which output one call makes a token. The call picks it.
pub trait OutputAt {
    ghost use Rattle.std.specs.Prelude.{ℕ};

    ghost place: { ℕ };
}

impl OutputAt for Brand {
    ghost place = { 0 };
}

/// A note: the seat has one more, whose stamp is the number that the word was.
pub struct Notes<J> {
    of: PhantomData<J>,
}

impl<I, J: NotedBy<I>> Play<(), BookView<I>> for Notes<J> {
    ghost use Rattle.event_book.specs.Inner.Rule.{Adds};

    ghost then = { Adds J.noted };
}

/// A token of an output of the last note comes from the seat.
pub struct GivesMessageToken<J> {
    of: PhantomData<J>,
}

impl<I, J: OutputAt> Split<BookView<I>> for GivesMessageToken<J> {
    ghost use Rattle.event_book.specs.Inner.Views.{last_token_view};

    ghost left = { λ v. v };

    ghost right = { last_token_view J.place };
}

/// One token becomes two.
pub struct Repeats;

impl<I> Split<BookView<I>> for Repeats {
    ghost left = { λ v. v };

    ghost right = { λ v. v };
}

/// A seat takes a token in.
pub struct TakesIn;

impl<I> Join<BookView<I>> for TakesIn {
    ghost use Rattle.event_book.specs.Inner.Views.{spent_view, taken_in};

    ghost both = { taken_in };

    ghost spent = { spent_view };
}

/// Two seats become one.
pub struct JoinsSeats;

impl<I> Join<BookView<I>> for JoinsSeats {
    ghost use Rattle.event_book.specs.Inner.Views.{joined, spent_view};

    ghost both = { joined };

    ghost spent = { spent_view };
}

/// The seat that the table opens with hands out the seat of its first actor.
pub struct HandsOut;

impl<I> Split<BookView<I>> for HandsOut {
    ghost use Rattle.event_book.specs.Inner.Views.{handed_view, rest_view};

    ghost left = { rest_view };

    ghost right = { handed_view };
}

/// A look by the seat that all others were joined into.
pub struct Looks<B> {
    of: PhantomData<B>,
}

impl<I, B: BookId> Play<(), BookView<I>> for Looks<B> {
    ghost use Rattle.event_book.specs.Inner.Rule.{Looks as looks};

    ghost then = { looks B.actors };
}
