//! The seat of an actor: what it noted, and what it may note.
ghost use Rattle.std.specs.Prelude.{◌≡◌, ◌+◌, ◌^◌, ◌<◌, ◌≤◌, [], ◌∷◌, length};
ghost use Rattle.std.specs.Prelude.{IfErr, IfOk, MatchBool, OnErr, OnOk};
ghost use Rattle.std.specs.List.{AllByRecursion};
ghost use Rattle.rows.specs.declared.refusal.Refusal.TheVariants as refusals;
ghost use Rattle.event_book.specs.declared.view.Note.{Note};
ghost use Rattle.event_book.specs.Noted.{event_view, noted_view};
ghost use Rattle.event_book.specs.Seats.{HasOutput, last_token, MayNote, new_seat};
ghost use Rattle.event_book.specs.Seats.{with_note, with_taken};
ghost use Rattle.event_book.specs.Inner.Rule.{AddsTo};
ghost use Rattle.event_book.specs.Inner.Views.{only_seat, seat_view, token_in, IsSeat, IsMessageToken};

use crate::book::{Book, BookId};
use crate::noted::{Noted, Outputs};
use crate::rule::{GivesMessageToken, Holder, NotedBy, Notes, OutputAt, TakesIn};
use crate::token::MessageToken;
use rows::{Actor, Refusal};
use std::marker::{Brand, Model, PhantomData};

/// The most events that one seat notes.
const MOST_NOTES: u64 = (1 << 40) - 1;

/// The seat of one actor in a book. Its owner alone notes that actor's events. Contracts see what
/// the actor noted, and the outputs whose tokens it took in.
#[derive(Drop)]
pub struct ActorSeat<I, B: BookId> {
    actor: Actor,
    count: u64,
    holder: Holder<I>,
    of: PhantomData<B>,
}

impl<I, B: BookId> Model for ActorSeat<I, B> {
    ghost use Rattle.std.specs.Prelude.{◌≡◌, length};
    ghost use Rattle.event_book.specs.declared.view.SeatView.{SeatView};
    ghost use Rattle.event_book.specs.Inner.Views.{only_seat, IsSeat};

    ghost Value = { SeatView I };

    ghost view = { λ s. only_seat s.holder.me.0 };

    ghost invariant = { λ s. (s.holder.table_id ≡ B.table) × IsSeat s.holder.me
        × (s.count ≡ length (only_seat s.holder.me.0).notes)
        × (s.actor ≡ (only_seat s.holder.me.0).actor) };
}

// What is noted is picked at the call, since a kind of move has no parameter for it. The word
// counts the notes, so the number found is the note's stamp.
#[tactic(auto, using(crate::proofs::Moves::notes_as))]
fn note_as<I: Drop, O: Outputs, B: BookId, J: NotedBy<I>>(
    book: &Book<I, B>,
    holder: &mut Holder<I>,
    noted: &Noted<I, O>,
) -> u64
    requires table { holder.old.table_id ≡ B.table }
    requires seat { IsSeat holder.old.me }
    requires room { length (only_seat holder.old.me.0).notes + 1 < 2 ^ 40 }
    requires may { MayNote (only_seat holder.old.me.0) J.noted.event }
    ensures same { holder.new.table_id ≡ holder.old.table_id }
    ensures adds { AddsTo J.noted holder.old.me result holder.new.me }
{
    book.table.shared.fetch_add::<Notes<J>>(holder, 0, 1)
}

// The place is picked at the call too.
#[tactic(auto, using(crate::proofs::Moves::gives_token_as, crate::proofs::Moves::new_token, crate::proofs::Moves::token_stands))]
fn token_as<I, B: BookId, J: OutputAt>(
    book: &Book<I, B>,
    holder: &mut Holder<I>,
    place: u64,
) -> Holder<I>
    requires table { holder.old.table_id ≡ B.table }
    requires seat { IsSeat holder.old.me }
    requires has { HasOutput J.place (only_seat holder.old.me.0).notes }
    ensures same { (holder.new.table_id ≡ B.table) × (holder.new.me ≡ holder.old.me) }
    ensures token { (result.table_id ≡ B.table) × (IsMessageToken result.me) }
    ensures names { last_token J.place (only_seat holder.old.me.0).notes ≡ token_in result.me.0 ∷ [] }
{
    book.table.shared.split_seat::<GivesMessageToken<J>>(holder)
}

impl<I, B: BookId> ActorSeat<I, B> {
    // The seat of an actor that noted nothing yet.
    pub(crate) fn of_holder(actor: Actor, holder: Holder<I>) -> ActorSeat<I, B>
        requires table { holder.table_id ≡ B.table }
        requires new { holder.me ≡ (seat_view (new_seat actor), []) }
        ensures { result ≡ new_seat actor }
    {
        ActorSeat {
            actor,
            count: 0,
            holder,
            of: PhantomData,
        }
    }

    pub(crate) fn into_holder(self) -> Holder<I>
        ensures table { result.table_id ≡ B.table }
        ensures same { result.me ≡ (seat_view self, []) }
    {
        let ActorSeat {
            actor: _,
            count: _,
            holder,
            of: _,
        } = self;
        holder
    }

    /// Whose seat it is.
    pub fn actor(&self) -> Actor
        ensures { result ≡ self.now.actor }
    {
        self.actor
    }

    /// Whether it noted anything.
    pub fn has_noted(&self) -> bool
        ensures { MatchBool result (0 < length self.now.notes) (self.now.notes ≡ []) }
    {
        self.count > 0
    }

    /// Whether it may note one more: it notes 2^40 - 1 events at most.
    pub fn can_note(&self) -> bool
        ensures { MatchBool result (length self.now.notes + 1 < 2 ^ 40)
            (2 ^ 40 ≤ length self.now.notes + 1) }
    {
        self.count < MOST_NOTES
    }

    /// A token of the output at a place of the last note, counted from 0. It takes no memory and
    /// never waits.
    /// - `same`: the seat knows what it knew, so it may give a token of each output, and several of
    ///   one.
    /// - `names`: the token names that output of the last note.
    pub fn token(&mut self, book: &Book<I, B>, place: u64) -> MessageToken<I, B>
        requires { HasOutput place self.old.notes }
        ensures same { self.new ≡ self.old }
        ensures names { last_token place self.old.notes ≡ result ∷ [] }
    {
        MessageToken::of_holder(token_as::<I, B, Brand>(book, &mut self.holder, place))
    }

    /// Uses a token up. From then on this seat may note a delivery of the output that it names,
    /// where its actor is the receiver. It takes no memory and never waits.
    #[tactic(auto, using(crate::proofs::Moves::takes_in_as))]
    pub fn take_in(&mut self, book: &Book<I, B>, token: MessageToken<I, B>)
        ensures { self.new ≡ with_taken (token ∷ []) self.old }
    {
        let shared = &book.table.shared;
        shared.join_seat::<TakesIn>(&mut self.holder, token.into_holder());
    }
}

impl<I: Drop, B: BookId> ActorSeat<I, B> {
    /// Notes an event of this seat's actor, and answers its stamp: how many events were noted
    /// before it, by all actors together. A delivery asks for a token of its output that this seat
    /// took in, and for its actor as the receiver. It takes no memory and never waits.
    /// - `ok`: just this event is added, under this stamp.
    /// - `rises`: each stamp that the seat had before is smaller.
    /// - `room`: it had noted fewer than 2^40 - 1 events.
    /// - `exhausted`: it is refused for nothing else, and just where it had noted 2^40 - 1.
    /// - `err`: the seat is as it was then.
    pub fn note<O: Outputs>(
        &mut self,
        book: &Book<I, B>,
        noted: &Noted<I, O>,
    ) -> Result<u64, Refusal>
        requires { MayNote self.old (event_view noted.now.event) }
        ensures ok { IfOk result (λ stamp.
            self.new ≡ with_note (noted_view O.listed noted.now) stamp self.old) }
        ensures rises { IfOk result (λ stamp.
            AllByRecursion (λ (note : Note I). note.stamp < stamp) self.old.notes) }
        ensures room { OnOk result (length self.old.notes + 1 < 2 ^ 40) }
        ensures exhausted { IfErr result (λ e.
            (e ≡ refusals.Exhausted) × (2 ^ 40 ≤ length self.old.notes + 1)) }
        ensures err { OnErr result (self.new ≡ self.old) }
    {
        if !self.can_note() {
            return Err(Refusal::Exhausted);
        }
        let stamp = note_as::<I, O, B, Brand>(book, &mut self.holder, noted);
        self.count += 1;
        Ok(stamp)
    }
}
