//! What comes to an actor.
ghost use Rattle.std.specs.Prelude.{◌≡◌, [], IfErr, IfOk, IfSome};
ghost use Rattle.event_book.specs.declared.view.EventView.TheVariants.{Own};
ghost use Rattle.event_book.specs.Noted.{event_view};

use crate::own_input::OwnInput;
use event_book::{ActorEvent, Book, BookId, MessageToken};
use rows::Actor;
use std::alloc::Global;
use std::marker::Model;

/// What comes to an actor: an input of its own, or a frame with the token of the output that it is.
/// Contracts see the receiver, what it is to that actor, and what its token names.
#[derive(Drop)]
pub struct Envelope<B: BookId> {
    pub(crate) receiver: Actor,
    pub(crate) event: ActorEvent<OwnInput>,
    pub(crate) token: Option<MessageToken<OwnInput, B>>,
}

impl<B: BookId> Model for Envelope<B> {
    ghost use Rattle.event_book.specs.Noted.{event_view};
    ghost use Rattle.cells.specs.Cells.{EnvelopeView, IsAddressed, tokens_of};

    ghost Value = { EnvelopeView };

    ghost view = { λ e. record {
      receiver = e.receiver;
      event = event_view e.event;
      tokens = tokens_of e.token;
    } };

    ghost invariant = { λ e. IsAddressed (record {
      receiver = e.receiver;
      event = event_view e.event;
      tokens = tokens_of e.token;
    }) (event_view e.event) };
}

// A copy of a delivery; none of another event, and none without memory.
fn copied(alloc: Global, event: &ActorEvent<OwnInput>) -> Option<ActorEvent<OwnInput>>
    ensures { IfSome result (λ copy. event_view copy ≡ event_view event.now) }
{
    match event {
        ActorEvent::Delivery {
            stamp,
            place,
            frame,
        } => {
            let mut copy = Vec::new(alloc);
            copy.extend_from_slice(frame).ok()?;
            Some(ActorEvent::Delivery {
                stamp: *stamp,
                place: *place,
                frame: copy,
            })
        }
        ActorEvent::Own(_) | ActorEvent::Crash => None,
    }
}

impl<B: BookId> Envelope<B> {
    /// An input of the actor's own.
    pub fn own(actor: Actor, input: OwnInput) -> Envelope<B>
        ensures { result ≡ record { receiver = actor; event = Own input; tokens = [] } }
    {
        Envelope {
            receiver: actor,
            event: ActorEvent::Own(input),
            token: None,
        }
    }

    /// The actor that it is for.
    pub fn receiver(&self) -> Actor
        ensures { result ≡ self.now.receiver }
    {
        self.receiver
    }

    /// Two envelopes of one, for a message that is delivered twice. An input of an actor's own
    /// comes once: it is handed back, as is a message for whose copy there is no memory.
    /// - `both`: each is what it was.
    /// - `back`: what is handed back is what it was.
    pub fn again(
        self,
        alloc: Global,
        book: &Book<OwnInput, B>,
    ) -> Result<(Envelope<B>, Envelope<B>), Envelope<B>>
        ensures both { IfOk result (λ both. (both.0 ≡ self) × (both.1 ≡ self)) }
        ensures back { IfErr result (λ back. back ≡ self) }
    {
        let Some(copy) = copied(alloc, &self.event) else {
            return Err(self);
        };
        let Envelope {
            receiver,
            event,
            token,
        } = self;
        let Some(token) = token else {
            return Err(Envelope {
                receiver,
                event,
                token: None,
            });
        };
        let (first, second) = token.again(book);
        let one = Envelope {
            receiver,
            event,
            token: Some(first),
        };
        let other = Envelope {
            receiver: one.receiver,
            event: copy,
            token: Some(second),
        };
        Ok((one, other))
    }
}
