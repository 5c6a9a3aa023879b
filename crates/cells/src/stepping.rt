//! One step of an actor, by an event.
ghost use Rattle.std.specs.Prelude.{◌≡◌, MatchBool};
ghost use Rattle.event_book.specs.declared.view.EventView.TheVariants.{Own};
ghost use Rattle.event_book.specs.Noted.{event_view};
ghost use Rattle.actor.specs.declared.group_actor.GroupActor.TheVariants as actors;
ghost use Rattle.actor.specs.Answers.{nothing_sent};
ghost use Rattle.cells.specs.Refusals.{TakesUp, IsDeafTo, restarts};
ghost use Rattle.cells.specs.Inner.Steps.{DidOrRefused, IsAnEvent};

use crate::own_input::OwnInput;
use actor::{
    GroupActor, Stepped, deliver_to_client, deliver_to_server, hand_client, hand_server,
    is_client_frame, is_client_restart, is_frame, is_restart,
};
use client_agent::Agent;
use event_book::ActorEvent;
use rows::Refusal;
use server::{Outbox, Server};
use std::alloc::Global;

/// Whether an actor starts again.
fn restarts(event: &ActorEvent<OwnInput>) -> bool
    ensures { result ≡ restarts (event_view event.now) }
{
    match event {
        ActorEvent::Own(OwnInput::Server(input)) => { is_restart(input.as_ref()) }
        ActorEvent::Own(OwnInput::Client(input)) => { is_client_restart(input.as_ref()) }
        ActorEvent::Delivery { .. } | ActorEvent::Crash => false,
    }
}

/// Whether an actor takes the event up: one that is down takes up a restart alone.
pub(crate) fn takes_up(actor: &GroupActor, event: &ActorEvent<OwnInput>) -> bool
    ensures { MatchBool result (TakesUp actor.now (event_view event.now))
        (IsDeafTo actor.now (event_view event.now)) }
{
    actor.is_up() || restarts(event)
}

/// A server takes an input of an actor's own.
fn own_server(
    alloc: Global,
    server: &mut Server,
    own: &OwnInput,
    outbox: &mut Outbox,
) -> Result<Stepped, Refusal>
    requires { outbox.old ≡ nothing_sent }
    ensures { DidOrRefused (actors.Server server.old) (Own own.now) result outbox.new
        (actors.Server server.new) }
{
    match own {
        OwnInput::Server(input) => {
            let given = input.as_ref();
            if is_frame(given) {
                return Err(Refusal::OutOfRange);
            }
            let again = given.try_clone(alloc)?;
            hand_server(server, again, outbox)
        }
        OwnInput::Client(_) => Err(Refusal::OutOfRange),
    }
}

/// A server takes an event.
#[tactic(auto, using(crate::proofs::Answering::server_brought))]
fn server_step(
    alloc: Global,
    server: &mut Server,
    event: &ActorEvent<OwnInput>,
    outbox: &mut Outbox,
) -> Result<Stepped, Refusal>
    requires event { IsAnEvent (event_view event.now) }
    requires empty { outbox.old ≡ nothing_sent }
    ensures { DidOrRefused (actors.Server server.old) (event_view event.now) result outbox.new
        (actors.Server server.new) }
{
    match event {
        ActorEvent::Own(own) => own_server(alloc, server, own, outbox),
        ActorEvent::Delivery { frame, .. } => deliver_to_server(server, frame, outbox),
        ActorEvent::Crash => unreachable!(),
    }
}

/// A client takes an input of an actor's own.
fn own_client(
    alloc: Global,
    client: &mut Agent,
    own: &OwnInput,
    outbox: &mut Outbox,
) -> Result<Stepped, Refusal>
    requires { outbox.old ≡ nothing_sent }
    ensures { DidOrRefused (actors.Client client.old) (Own own.now) result outbox.new
        (actors.Client client.new) }
{
    match own {
        OwnInput::Client(input) => {
            let given = input.as_ref();
            if is_client_frame(given) {
                return Err(Refusal::OutOfRange);
            }
            let again = given.try_clone(alloc)?;
            hand_client(client, again, &mut outbox.frames)
        }
        OwnInput::Server(_) => Err(Refusal::OutOfRange),
    }
}

/// A client takes an event.
#[tactic(auto, using(crate::proofs::Answering::client_brought))]
fn client_step(
    alloc: Global,
    client: &mut Agent,
    event: &ActorEvent<OwnInput>,
    outbox: &mut Outbox,
) -> Result<Stepped, Refusal>
    requires event { IsAnEvent (event_view event.now) }
    requires empty { outbox.old ≡ nothing_sent }
    ensures { DidOrRefused (actors.Client client.old) (event_view event.now) result outbox.new
        (actors.Client client.new) }
{
    match event {
        ActorEvent::Own(own) => own_client(alloc, client, own, outbox),
        ActorEvent::Delivery { frame, .. } => deliver_to_client(client, frame, &mut outbox.frames),
        ActorEvent::Crash => unreachable!(),
    }
}

/// An actor takes an event, which is no crash in a step's place; what it sends goes to an outbox in
/// which nothing is.
pub(crate) fn step(
    alloc: Global,
    actor: &mut GroupActor,
    event: &ActorEvent<OwnInput>,
    outbox: &mut Outbox,
) -> Result<Stepped, Refusal>
    requires event { IsAnEvent (event_view event.now) }
    requires empty { outbox.old ≡ nothing_sent }
    ensures { DidOrRefused actor.old (event_view event.now) result outbox.new actor.new }
{
    match actor {
        GroupActor::Server(server) => server_step(alloc, server, event, outbox),
        GroupActor::Client(client) => client_step(alloc, client, event, outbox),
    }
}
