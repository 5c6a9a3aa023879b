//! The row that is played: a leader crashes while a plan is in flight, and another goes on.
use super::stop::Stop;
use group_inputs::{ClientInput, Event, ServerInput};
use rows::{Actor, NoMemory, Refusal};
use std::alloc::Global;
use transcript::{Transcript, read};

// The scenario `failover-with-a-plan-in-flight` of `nomadsim`, as a transcript.
const ROW: &str = "\
servers 3
node 1 linux 1000 1000 0
node 2 linux 1000 1000 0
timeout 1
deliver 1
deliver 2
deliver 3
deliver 4
beat 1
deliver 5
deliver 6
deliver 7
deliver 8
register 1 1
register 2 1
deliver 9
deliver 10
deliver 11
deliver 12
request 1 put web 50 main:2:linux:600:300:0
beat 1
deliver 13
deliver 14
deliver 15
deliver 16
beat 1
deliver 17
deliver 18
deliver 19
deliver 20
take 2 1
deliver 21
deliver 22
submit 2 1 4.0 1.1 web 4 4 - main:0:1,main:1:2
deliver 23
plan 1
deliver 24
crash 3
beat 1
deliver 25
crash 1
restart 3
timeout 2
deliver 29
deliver 30
beat 2
deliver 32
deliver 33
beat 2
deliver 35
deliver 36
finish 2 1 4.0 1.1 complete 0
take 3 2
deliver 38
deliver 39
beat 2
deliver 41
deliver 42
finish 3 2 4.0 2.1 complete 0
deliver 43
restart 1
beat 2
deliver 44
deliver 45
deliver 46
deliver 47
beat 2
deliver 48
deliver 49
deliver 50
deliver 51
pull 1 2
pull 2 2
deliver 52
deliver 53
deliver 54
deliver 55
deliver 56
deliver 57
deliver 58
deliver 59
beat 2
deliver 60
deliver 61
deliver 62
deliver 63
beat 2
deliver 64
deliver 65
deliver 66
deliver 67
";

/// The row's events.
pub(super) fn row(alloc: Global) -> Result<Transcript, Stop> {
    match read(alloc, ROW.as_bytes()) {
        Ok(row) => Ok(row),
        Err(Refusal::NoMemory) => Err(Stop::NoMemory),
        Err(_) => Err(Stop::Unread),
    }
}

/// What is done when an answer was judged.
#[derive(Clone, Copy)]
pub(super) enum Next {
    /// The list goes on.
    On,
    /// Nothing happened for want of memory: the same comes once more.
    Again,
    /// This actor is down for want of memory: it restarts.
    Restart(Actor),
}

/// How often something that finds no memory is tried anew.
pub(super) const TRIES: usize = 4;

/// An actor starts again.
pub(super) fn restart(alloc: Global, actor: &Actor) -> Result<Event, NoMemory> {
    match actor {
        Actor::Server(me) => Event::server(alloc, *me, ServerInput::Restart),
        Actor::Client(me) => Event::client(alloc, *me, ClientInput::Restart),
    }
}

/// Whether an actor starts again.
pub(super) fn is_restart(event: &Event) -> bool {
    match event {
        Event::Deliver(_) => false,
        Event::Server(_, input) => matches!(input.as_ref(), ServerInput::Restart),
        Event::Client(_, input) => matches!(input.as_ref(), ClientInput::Restart),
    }
}
