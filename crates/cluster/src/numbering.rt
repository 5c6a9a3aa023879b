//! Noted events as the group's events.
ghost use Rattle.std.specs.Prelude.{◌≡◌, ◌+◌, ◌^◌, ◌<◌, ◌≤◌, length, map, slice_index, IfOk, OnErr};
ghost use Rattle.group_inputs.specs.Events.{group_event};
ghost use Rattle.cluster.specs.Closing.{crash_event};
ghost use Rattle.cells.specs.Actors.{own_event};
ghost use Rattle.cluster.specs.Inner.Merged.{taken_event_in};
ghost use Rattle.cluster.specs.Inner.Numbers.{AreDue, AreEventsOf, FallsWithin, FitsOffsets, IsNoDelivery, delivered_event, entry_event};

use crate::merging::TracedEvent;
use cells::{KeptEvent, OwnInput};
use group_inputs::{ClientInput, Event, ServerInput};
use rows::{Actor, NoMemory};
use std::alloc::Global;

/// The crash of an actor.
fn crash(alloc: Global, actor: Actor) -> Result<Event, NoMemory>
    ensures { IfOk result (λ event. group_event event ≡ crash_event actor) }
{
    match actor {
        Actor::Server(server) => Event::server(alloc, server, ServerInput::Crash),
        Actor::Client(client) => Event::client(alloc, client, ClientInput::Crash),
    }
}

/// An actor's own input. No actor takes an input of the other kind; a crash stands for it.
fn own(alloc: Global, actor: Actor, input: OwnInput) -> Result<Event, NoMemory>
    ensures { IfOk result (λ event. group_event event ≡ own_event actor input) }
{
    match actor {
        Actor::Server(server) => match input {
            OwnInput::Server(input) => Ok(Event::Server(server, input)),
            OwnInput::Client(_) => crash(alloc, actor),
        },
        Actor::Client(client) => match input {
            OwnInput::Server(_) => crash(alloc, actor),
            OwnInput::Client(input) => Ok(Event::Client(client, input)),
        },
    }
}

/// The sum of two numbers. `NoMemory` is the answer just where it is 2^64 or more.
fn sum(m: u64, n: u64) -> Result<u64, NoMemory>
    ensures ok { IfOk result (λ sum. sum ≡ m + n) }
    ensures err { OnErr result (2 ^ 64 ≤ m + n) }
{
    match m.checked_add(n) {
        Some(sum) => Ok(sum),
        None => Err(NoMemory),
    }
}

/// The delivery of the output at a place of an event, where the offsets say how many outputs come
/// before those of each event so far, and the total how many come so far. It asks for an output
/// among these.
fn delivery(offsets: &[u64], total: u64, stamp: u64, place: u64) -> Event
    requires known { stamp < length offsets.now }
    requires within { slice_index offsets.now stamp + place < total }
    ensures { FitsOffsets offsets.now (delivered_event stamp place) result }
{
    let Some(before) = offsets.get(stamp as usize) else {
        unreachable!()
    };
    Event::Deliver(*before + place + 1)
}

/// The event that an actor's event is. It asks that a delivery be of an output so far, and memory
/// is wanting for no delivery.
fn event_at(
    alloc: Global,
    offsets: &[u64],
    total: u64,
    actor: Actor,
    event: KeptEvent,
) -> Result<Event, NoMemory>
    requires { FallsWithin offsets.now total event }
    ensures ok { IfOk result (FitsOffsets offsets.now (entry_event actor event)) }
    ensures memory { OnErr result (IsNoDelivery event) }
{
    match event {
        KeptEvent::Own(input) => own(alloc, actor, input),
        KeptEvent::Delivery { stamp, place } => Ok(delivery(offsets, total, stamp, place)),
        KeptEvent::Crash => crash(alloc, actor),
    }
}

/// The events of a history, in its order. A delivery counts the outputs of all events from 1, in
/// the order of the events and then of their places. It asks that each delivery be of an output of
/// an event that comes before it. `NoMemory` is the answer for want of memory, and where there are
/// 2^64 outputs or more: no memory has room for a world in which so much was sent.
pub(crate) fn number(alloc: Global, merged: Vec<TracedEvent>) -> Result<Vec<Event>, NoMemory>
    requires { AreDue (map taken_event_in merged.items) }
    ensures { IfOk result (λ r. AreEventsOf merged.items r.items) }
{
    let mut offsets = Vec::new(alloc);
    let mut events = Vec::new(alloc);
    let mut total = 0u64;
    for placed in merged {
        let TracedEvent { actor, event, sent } = placed;
        events.push(event_at(alloc, &offsets, total, actor, event)?)?;
        offsets.push(total)?;
        total = sum(total, sent as u64)?;
    }
    Ok(events)
}
