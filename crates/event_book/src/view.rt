//! What seats, tokens and the book know, as contracts say it. No program makes a value of these
//! types.
use rows::Actor;
use std::collections::LinkedList;

/// What an actor did: it took an input of its own, took in a delivered message, or crashed.
pub enum EventView<I> {
    /// An input of its own.
    Own(I),
    /// A delivery: the stamp of the event that sent the message, the place of the output in it,
    /// from 0, and the message's frame.
    Delivery(u64, u64, LinkedList<u8>),
    /// A crash.
    Crash,
}

/// A message that an event sends: its receiver and its frame.
pub struct Output {
    /// The receiver.
    pub to: Actor,
    /// The bytes.
    pub frame: LinkedList<u8>,
}

/// An event with all its outputs, in order.
pub struct NotedView<I> {
    /// What the actor did.
    pub event: EventView<I>,
    /// What it sent. The place of an output is counted from 0.
    pub outputs: LinkedList<Output>,
}

/// A noted event.
pub struct Note<I> {
    /// Its place among the events of all actors, from 0.
    pub stamp: u64,
    /// Who noted it.
    pub actor: Actor,
    /// The event and its outputs.
    pub noted: NotedView<I>,
}

/// What a token names: an output of a noted event.
pub struct MessageTokenView<I> {
    /// The event that sent it.
    pub note: Note<I>,
    /// The place of the output in that event, from 0.
    pub place: u64,
}

/// What a seat knows.
pub struct SeatView<I> {
    /// Whose seat it is.
    pub actor: Actor,
    /// What that actor noted, oldest first.
    pub notes: LinkedList<Note<I>>,
    /// The outputs whose tokens it took in.
    pub taken: LinkedList<MessageTokenView<I>>,
}

/// What the book's table knows of one holder: the seats that were joined into it, and the outputs
/// that it may pass on. A seat has one seat here and no token, a token has one token and no seat,
/// and what was used up has neither.
pub struct BookView<I> {
    /// The seats.
    pub seats: LinkedList<SeatView<I>>,
    /// The tokens.
    pub tokens: LinkedList<MessageTokenView<I>>,
}
