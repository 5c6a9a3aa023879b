//! An actor, what it took, and the seat that noted it.
ghost use Rattle.std.specs.Arc.{arc_value};
ghost use Rattle.std.specs.Prelude.{◌≡◌, ◌≢◌, MatchBool, ◌+◌, ◌<◌, ◌^◌, [], ℕ, Some, length, map, slice_get, take, vec_len, vec_capacity, IfOk, OnErr, IfErr};
ghost use Rattle.event_book.specs.Noted.{event_view};
ghost use Rattle.event_book.specs.Seats.{with_taken};
ghost use Rattle.cells.specs.Actors.{group_size, BeginsAs};
ghost use Rattle.cells.specs.Cells.{IsLedCell, IsOpenedCell, IsEnvelopeRefused, kept_in, kept_input, SameCell};
ghost use Rattle.cells.specs.Cells.{AreSent, tokens_of, Turned};
ghost use Rattle.cells.specs.Inner.Sending.{CanBeNoted, EndsWith, last_envelopes, IsNoted, IsRecorded, IsStill, IsTurn};
ghost use Rattle.cells.specs.Inner.Steps.{IsAnEvent, output_of};
ghost use Rattle.cells.specs.Turns.{CellHasNoState, CellHasState, CellRefuses, TookTurn};
ghost use Rattle.cells.specs.Cells.{HasApplied, WhyNotApplied};

use crate::envelope::Envelope;
use crate::own_input::OwnInput;
use crate::stepping;
use actor::{GroupActor, Stepped, no_output};
use event_book::{ActorEvent, ActorSeat, Book, BookId, MessageToken, Noted, Outputs};
use fsm_state::Cluster;
use rows::{Actor, Index, NoMemory, Refusal, Sequence, Work};
use server::Outbox;
use std::alloc::Global;
use std::marker::Model;
use std::sync::Arc;
use wire::Frames;

/// What a cell keeps of an event that its actor took. Of a message it keeps which one it was, and
/// no frame.
#[derive(Drop)]
pub enum KeptEvent {
    /// An input of the actor's own.
    Own(OwnInput),
    /// A message that was delivered.
    Delivery {
        /// The stamp of the event that sent it.
        stamp: u64,
        /// The place of the output in that event, from 0.
        place: u64,
    },
    /// A crash in a step's place.
    Crash,
}

/// An event that an actor took: the stamp of its note, what it was, and how many outputs it gave.
#[derive(Drop)]
pub struct StampedEvent {
    /// The number of its note, from 0, among those of all actors.
    pub stamp: u64,
    /// What it was to the actor.
    pub event: KeptEvent,
    /// How many messages the actor sent then.
    pub sent: usize,
}

/// An actor, the events that it took, and the seat that noted them. Contracts see the actor and
/// what the seat knows: the actor is where just these events lead it.
#[derive(Drop)]
pub struct Cell<B: BookId> {
    pub(crate) me: Actor,
    pub(crate) actor: GroupActor,
    pub(crate) taken: Vec<StampedEvent>,
    pub(crate) seat: ActorSeat<OwnInput, B>,
}

impl<B: BookId> Model for Cell<B> {
    ghost use Rattle.std.specs.Prelude.{◌≡◌, map};
    ghost use Rattle.cells.specs.Actors.{group_size};
    ghost use Rattle.cells.specs.Cells.{CellView, IsOpenedCell, kept_in};

    ghost Value = { CellView };

    ghost view = { λ c. record { actor = c.actor; seat = c.seat } };

    ghost invariant = { λ c. (c.me ≡ c.seat.actor)
        × (c.taken.items ≡ map kept_in c.seat.notes)
        × IsOpenedCell (group_size B.actors) B.nodes (record {
          actor = c.actor;
          seat = c.seat;
        }) };
}

/// What a turn of an actor gives.
#[derive(Drop)]
pub struct CellTurn<B: BookId> {
    /// What came for the workers of the server; none at a client.
    pub work: Sequence<Work>,
    /// What the actor sent, each with its token.
    pub sent: Vec<Envelope<B>>,
    /// How many more messages it sent, the last ones, that found no memory: they are lost.
    pub unsent: usize,
}

/// What a step sent, as the book notes it.
#[derive(Drop)]
struct SentFrames {
    frames: Frames,
}

impl Outputs for SentFrames {
    ghost use Rattle.std.specs.Prelude.{map};
    ghost use Rattle.cells.specs.Inner.Steps.{output_of};

    ghost listed = { λ s. map output_of s.frames };
}

/// What is noted of an envelope: what it was, its token, and what was sent.
#[derive(Drop)]
struct Done<B: BookId> {
    event: ActorEvent<OwnInput>,
    token: Option<MessageToken<OwnInput, B>>,
    frames: Frames,
}

/// What is kept of an event.
fn kept(event: ActorEvent<OwnInput>) -> KeptEvent
    ensures { result ≡ kept_input (event_view event) }
{
    match event {
        ActorEvent::Own(input) => KeptEvent::Own(input),
        ActorEvent::Delivery { stamp, place, .. } => KeptEvent::Delivery { stamp, place },
        ActorEvent::Crash => KeptEvent::Crash,
    }
}

/// Uses the token up, if there is one.
fn take_in<B: BookId>(
    book: &Book<OwnInput, B>,
    seat: &mut ActorSeat<OwnInput, B>,
    token: Option<MessageToken<OwnInput, B>>,
)
    ensures { seat.new ≡ with_taken (tokens_of token) seat.old }
{
    if let Some(token) = token {
        seat.take_in(book, token);
    }
}

/// One output of the last note, with its token.
fn envelope<B: BookId>(
    alloc: Global,
    book: &Book<OwnInput, B>,
    seat: &mut ActorSeat<OwnInput, B>,
    stamp: u64,
    place: usize,
    frames: &Frames,
) -> Result<Envelope<B>, NoMemory>
    requires last { EndsWith seat.old.notes stamp (map output_of frames.now) }
    requires there { place < length frames.now }
    ensures same { seat.new ≡ seat.old }
    ensures envelope { IfOk result (λ e.
        slice_get (last_envelopes seat.old.notes) place ≡ Some e) }
{
    let Some(found) = frames.get(place) else {
        unreachable!()
    };
    let mut frame = Vec::new(alloc);
    frame.extend_from_slice(found.bytes())?;
    let place = place as u64;
    let token = seat.token(book, place);
    Ok(Envelope {
        receiver: found.to(),
        event: ActorEvent::Delivery {
            stamp,
            place,
            frame,
        },
        token: Some(token),
    })
}

/// The outputs of the last note, each with its token; where memory is wanting, the first of them,
/// and how many are left out.
fn envelopes<B: BookId>(
    alloc: Global,
    book: &Book<OwnInput, B>,
    seat: &mut ActorSeat<OwnInput, B>,
    stamp: u64,
    frames: &Frames,
) -> (Vec<Envelope<B>>, usize)
    requires { EndsWith seat.old.notes stamp (map output_of frames.now) }
    ensures same { seat.new ≡ seat.old }
    ensures first { (k : ℕ) × (result.0.items ≡ take k (last_envelopes seat.old.notes))
        × (k + result.1 ≡ length frames.now) }
{
    let mut sent = Vec::new(alloc);
    for place in 0..frames.len() {
        if sent.reserve(1).is_err() {
            return (sent, frames.len() - place);
        }
        let Ok(next) = envelope(alloc, book, seat, stamp, place, frames) else {
            return (sent, frames.len() - place);
        };
        sent.push_reserved(next);
    }
    (sent, 0)
}

/// Notes what was done and keeps it; then what was sent, each with its token, and how many messages
/// found no memory.
fn keep<B: BookId>(
    alloc: Global,
    book: &Book<OwnInput, B>,
    seat: &mut ActorSeat<OwnInput, B>,
    taken: &mut Vec<StampedEvent>,
    done: Done<B>,
) -> (Vec<Envelope<B>>, usize)
    requires addressed { CanBeNoted seat.old (event_view done.event) (tokens_of done.token) }
    requires can_note { length seat.old.notes + 1 < 2 ^ 40 }
    requires room { vec_len taken.old < vec_capacity taken.old }
    ensures noted { IsNoted seat.old (event_view done.event) (tokens_of done.token)
        (map output_of done.frames) seat.new }
    ensures kept { taken.old.items ≡ map kept_in seat.old.notes →
        taken.new.items ≡ map kept_in seat.new.notes }
    ensures first { (k : ℕ) × (result.0.items ≡ take k (last_envelopes seat.new.notes))
        × (k + result.1 ≡ length done.frames) }
{
    let Done {
        event,
        token,
        frames,
    } = done;
    take_in(book, seat, token);
    let noted = Noted {
        event,
        outputs: SentFrames { frames },
    };
    let Ok(stamp) = seat.note(book, &noted) else {
        unreachable!()
    };
    let Noted { event, outputs } = noted;
    let SentFrames { frames } = outputs;
    let sent = frames.len();
    let event = kept(event);
    taken.push_reserved(StampedEvent { stamp, event, sent });
    envelopes(alloc, book, seat, stamp, &frames)
}

/// What an envelope brought is dropped where its actor did not take it.
fn use_up<B: BookId>(_event: ActorEvent<OwnInput>, _token: Option<MessageToken<OwnInput, B>>) {}

/// Notes what became of an envelope and keeps it.
fn record<B: BookId>(
    alloc: Global,
    book: &Book<OwnInput, B>,
    seat: &mut ActorSeat<OwnInput, B>,
    taken: &mut Vec<StampedEvent>,
    event: ActorEvent<OwnInput>,
    token: Option<MessageToken<OwnInput, B>>,
    stepped: Stepped,
    outbox: Outbox,
) -> CellTurn<B>
    requires addressed { CanBeNoted seat.old (event_view event) (tokens_of token) }
    requires can_note { length seat.old.notes + 1 < 2 ^ 40 }
    requires room { vec_len taken.old < vec_capacity taken.old }
    ensures recorded { IsRecorded seat.old (event_view event) (tokens_of token) stepped outbox
        seat.new result.work result.sent.items result.unsent }
    ensures kept { taken.old.items ≡ map kept_in seat.old.notes →
        taken.new.items ≡ map kept_in seat.new.notes }
{
    let Outbox { frames, work } = outbox;
    match stepped {
        Stepped::Taken => {
            let done = Done {
                event,
                token,
                frames,
            };
            let (sent, unsent) = keep(alloc, book, seat, taken, done);
            CellTurn { work, sent, unsent }
        }
        Stepped::Crashed => {
            use_up(event, token);
            let done = Done {
                event: ActorEvent::Crash,
                token: None,
                frames,
            };
            let (sent, unsent) = keep(alloc, book, seat, taken, done);
            CellTurn { work, sent, unsent }
        }
    }
}

/// Whether an envelope is for this actor.
fn is_for(receiver: Actor, me: Actor) -> bool
    ensures { MatchBool result (receiver ≡ me) (receiver ≢ me) }
{
    receiver == me
}

/// An actor takes what comes, and its seat notes it.
fn step<B: BookId>(
    alloc: Global,
    book: &Book<OwnInput, B>,
    actor: &mut GroupActor,
    seat: &mut ActorSeat<OwnInput, B>,
    taken: &mut Vec<StampedEvent>,
    event: ActorEvent<OwnInput>,
    token: Option<MessageToken<OwnInput, B>>,
) -> Result<CellTurn<B>, Refusal>
    requires addressed { CanBeNoted seat.old (event_view event) (tokens_of token) }
    requires event { IsAnEvent (event_view event) }
    requires can_note { length seat.old.notes + 1 < 2 ^ 40 }
    requires room { vec_len taken.old < vec_capacity taken.old }
    ensures ok { IfOk result (λ turn. IsTurn actor.old seat.old (event_view event)
        (tokens_of token) turn.work turn.sent.items turn.unsent actor.new seat.new) }
    ensures err { IfErr result (λ cause. IsStill actor.old seat.old (event_view event) cause
        actor.new seat.new) }
    ensures kept { taken.old.items ≡ map kept_in seat.old.notes →
        taken.new.items ≡ map kept_in seat.new.notes }
{
    let mut outbox = no_output(alloc);
    match stepping::step(alloc, actor, &event, &mut outbox) {
        Ok(stepped) => Ok(record(alloc, book, seat, taken, event, token, stepped, outbox)),
        Err(cause) => {
            use_up(event, token);
            Err(cause)
        }
    }
}

impl<B: BookId> Cell<B> {
    /// An actor before its first event.
    pub(crate) fn new(alloc: Global, actor: GroupActor, seat: ActorSeat<OwnInput, B>) -> Cell<B>
        requires new { seat.notes ≡ [] }
        requires begins { BeginsAs (group_size B.actors) B.nodes seat.actor actor }
        ensures { result ≡ record { actor = actor; seat = seat } }
    {
        Cell {
            me: seat.actor(),
            actor,
            taken: Vec::new(alloc),
            seat,
        }
    }

    /// The actor, where just the events lead it that its seat noted.
    /// - `led`: that is where it is, in the group of the book's actors.
    /// - `opened`: it is there from the actor of its name with which the group of the book's actors
    ///   and nodes begins; so a client has its own node.
    pub fn actor(&self) -> &GroupActor
        ensures actor { result.now ≡ self.now.actor }
        ensures led { IsLedCell (group_size B.actors) self.now }
        ensures opened { IsOpenedCell (group_size B.actors) B.nodes self.now }
    {
        &self.actor
    }

    /// The events that it took, oldest first, each with its stamp: just those that its seat noted.
    /// Of a delivery they say the message by its stamp and place, without its frame.
    pub fn inputs(&self) -> &[StampedEvent]
        ensures { result.now ≡ map kept_in self.now.seat.notes }
    {
        self.taken.as_slice()
    }

    /// The seat that noted them.
    pub(crate) fn seat(&self) -> &ActorSeat<OwnInput, B>
        ensures { result.now ≡ self.now.seat }
    {
        &self.seat
    }

    /// A copy of a server's replicated state after the committed entries, and how many those are.
    ///
    /// It is refused with `OutOfRange` where the actor is a client, with `Down` while the server is
    /// down, and with `NoMemory`.
    pub fn applied_fork(&self) -> Result<(Arc<Cluster>, Index), Refusal>
        ensures state { IfOk result (λ p. HasApplied self.now.actor (arc_value p.0) p.1) }
        ensures refused { IfErr result (λ e. WhyNotApplied self.now.actor e) }
    {
        match &self.actor {
            GroupActor::Server(server) => server.snapshot(),
            GroupActor::Client(_) => Err(Refusal::OutOfRange),
        }
    }

    /// `applied_fork`, for the workers of an actor. It is refused with `OutOfRange` where the cell
    /// is another actor's.
    /// - `state`, `refused`: of a cell of which it is known that its notes lead its actor to where
    ///   that is.
    pub fn snapshot_of(&self, actor: Actor) -> Result<(Arc<Cluster>, Index), Refusal>
        ensures state { IfOk result (λ p.
            CellHasState (group_size B.actors) actor (arc_value p.0) p.1) }
        ensures refused { IfErr result (CellHasNoState (group_size B.actors) actor) }
    {
        // (what `actor` says of where its actor is)
        let _ = self.actor();
        if !is_for(actor, self.me) {
            return Err(Refusal::OutOfRange);
        }
        self.applied_fork()
    }

    /// The actor takes an envelope: one step, or a crash in its place where it finds no memory;
    /// that is noted once, and kept. What it sent comes with its tokens; of the last messages those
    /// may be left out that found no memory, and the answer says how many.
    ///
    /// An actor that is down refuses every envelope but a restart with `Down`. `OutOfRange` is
    /// answered where the envelope is for another actor, where an input is one of the other kind of
    /// actor, or a frame that no token came with, and where the definitions refuse it so. `Frame`
    /// names the offset of a frame's first fault, `Exhausted` says that the actor has taken
    /// 2^40 - 1 events, and `NoMemory` that there is no room to keep one more or, in a restart, to
    /// start. Any other refusal is that of `Server::step` or `Agent::step`. A refusal uses the
    /// envelope up and changes nothing.
    pub fn take(
        &mut self,
        alloc: Global,
        book: &Book<OwnInput, B>,
        envelope: Envelope<B>,
    ) -> Result<CellTurn<B>, Refusal>
        ensures ok { IfOk result (λ turn.
            Turned self.old envelope self.new turn.work turn.sent.items turn.unsent) }
        ensures led { IsLedCell (group_size B.actors) self.old }
        ensures err { OnErr result (SameCell self.old self.new) }
        ensures refused { IfErr result (λ cause. IsEnvelopeRefused self.old envelope cause) }
    {
        // (what `actor` says of where its actor is)
        let _ = self.actor();
        let Cell {
            me,
            actor,
            taken,
            seat,
        } = self;
        let Envelope {
            receiver,
            event,
            token,
        } = envelope;
        if !stepping::takes_up(actor, &event) {
            return Err(Refusal::Down);
        }
        if !is_for(receiver, *me) {
            return Err(Refusal::OutOfRange);
        }
        if !seat.can_note() {
            return Err(Refusal::Exhausted);
        }
        taken.reserve(1)?;
        step(alloc, book, actor, seat, taken, event, token)
    }

    /// `take`, as this actor. It is refused with `OutOfRange` where the cell is another actor's.
    /// - `ok`, `refused`: of a cell of which it is known that its notes lead its actor to where
    ///   that is.
    pub(crate) fn take_of(
        &mut self,
        actor: Actor,
        alloc: Global,
        book: &Book<OwnInput, B>,
        envelope: Envelope<B>,
    ) -> Result<CellTurn<B>, Refusal>
        ensures ok { IfOk result (λ turn.
            TookTurn (group_size B.actors) envelope turn.work turn.sent.items turn.unsent) }
        ensures sent { IfOk result (λ turn. AreSent envelope.receiver turn.sent.items) }
        ensures refused { IfErr result (CellRefuses (group_size B.actors) actor envelope) }
    {
        // (what `actor` says of where its actor is)
        let _ = self.actor();
        if is_for(actor, self.me) {
            self.take(alloc, book, envelope)
        } else {
            Err(Refusal::OutOfRange)
        }
    }
}
