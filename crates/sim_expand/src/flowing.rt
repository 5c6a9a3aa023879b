//! What a flow does behind a `settle elect`.
ghost use Rattle.std.specs.Prelude.{◌≡◌, ◌≤◌, ◌-◌, IfOk, IsTrue, OnOk, string_bytes};
ghost use Rattle.group_model.specs.Worlds.{Deliver};
ghost use Rattle.sim_scenario.specs.Steps.{AnEvent, IsLine};
ghost use Rattle.sim_expand.specs.Inner.Deliveries.{IsReadAs, IsSent, is_one_of};
ghost use Rattle.sim_expand.specs.Inner.Deliveries.{passed_over, without};

use event_texts::read_number;
use rows::{Actor, NoMemory};
use sim_play::flight::Flight;
use sim_play::play::FLOW;
use std::alloc::{AllocError, Global};
use world::World;

/// How many messages a flow takes at most by its line; none where that is no flow's.
pub(crate) fn flow_of(line: &str) -> Option<u64>
    ensures { IsReadAs line.now result }
{
    if line == "flow" {
        return Some(FLOW);
    }
    read_number(line.strip_prefix("flow ")?)
}

/// Whether a message was sent, to an actor that is up. Messages are numbered from 1.
pub(crate) fn comes(world: &World, message: u64) -> bool
    ensures { IsTrue result → IsSent world.now message }
{
    match world.receiver(message) {
        Some(receiver) => 0 < message && is_up(world, receiver),
        None => false,
    }
}

fn is_up(world: &World, actor: Actor) -> bool {
    match actor {
        Actor::Server(server) => match world.server(server) {
            Some(server) => server.applied().is_some(),
            None => false,
        },
        Actor::Client(client) => match world.client(client) {
            Some(client) => client.is_up(),
            None => false,
        },
    }
}

/// The line by which a message comes.
pub(crate) fn deliver_line(alloc: Global, message: u64) -> Result<String, AllocError>
    requires { 1 ≤ message }
    ensures { IfOk result (λ line.
        IsLine (AnEvent (Deliver (message - 1))) (string_bytes line)) }
{
    format!(in alloc; "deliver {message}")
}

/// The messages that come by these lines.
pub(crate) fn delivered_by(alloc: Global, lines: &[String]) -> Result<Vec<u64>, NoMemory> {
    let mut messages = Vec::new(alloc);
    for line in lines {
        if let Some(message) = delivery_of(line.as_str()) {
            messages.push(message)?;
        }
    }
    Ok(messages)
}

// The message that comes by a line, if one does.
fn delivery_of(line: &str) -> Option<u64> {
    read_number(line.strip_prefix("deliver ")?)
}

/// Takes these out of flight. The others stay in their order.
pub(crate) fn take_out(flight: &mut Flight, messages: &[u64]) -> Result<(), NoMemory>
    ensures others { OnOk result
        (flight.new.waiting ≡ without messages.now flight.old.waiting) }
    ensures seen { flight.new.seen ≡ flight.old.seen }
{
    for _ in 0..flight.len() {
        pass_over(flight, messages)?;
    }
    Ok(())
}

// Takes the message in front, and puts it behind the others where it is none of these.
fn pass_over(flight: &mut Flight, messages: &[u64]) -> Result<(), NoMemory>
    ensures passed { OnOk result
        (flight.new.waiting ≡ passed_over messages.now flight.old.waiting) }
    ensures seen { flight.new.seen ≡ flight.old.seen }
{
    let Some(message) = flight.take() else {
        return Ok(());
    };
    if is_one_of(messages, message) {
        return Ok(());
    }
    flight.put_again(message)
}

fn is_one_of(numbers: &[u64], number: u64) -> bool
    ensures { result ≡ is_one_of numbers.now number }
{
    numbers.iter().any(|other| *other == number)
}
