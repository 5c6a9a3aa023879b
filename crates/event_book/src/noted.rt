//! What is noted, as the program has it.
use rows::Actor;

/// What an actor did: it took an input of its own, took in a delivered message, or crashed.
#[derive(Drop)]
pub enum ActorEvent<I: Drop> {
    /// An input of its own.
    Own(I),
    /// A message that was delivered.
    Delivery {
        /// The stamp of the event that sent it.
        stamp: u64,
        /// The place of the output in that event, from 0.
        place: u64,
        /// The bytes.
        frame: Vec<u8>,
    },
    /// A crash.
    Crash,
}

/// What an event sent, however it is kept. Noting reads none of it, so it needs no copy.
pub trait Outputs: Drop {
    ghost use Rattle.std.specs.Prelude.{List};
    ghost use Rattle.event_book.specs.declared.view.Output.{Output};

    /// The receivers and frames, in order.
    ghost listed: { Self → List Output };
}

/// Outputs as a list of receivers and frames.
#[derive(Drop)]
pub struct OutputList(pub Vec<(Actor, Vec<u8>)>);

impl Outputs for OutputList {
    ghost use Rattle.event_book.specs.Noted.{list_outputs};

    ghost listed = { λ o. list_outputs o.0.items };
}

/// An event with all its outputs.
#[derive(Drop)]
pub struct Noted<I: Drop, O: Outputs> {
    /// What the actor did.
    pub event: ActorEvent<I>,
    /// What it sent. The place of an output is counted from 0.
    pub outputs: O,
}
