//! Requests: their commands, byte by byte, and what a group makes of them. And the settings of a
//! scenario, as they are read.
use event_texts::read_event;
use fsm_state::Cluster;
use group_inputs::{Event, ServerInput};
use machine::Machine;
use rows::{Refusal, ServerId};
use sim_scenario::reading::scenario;
use std::alloc::Global;
use std::rt::Files;
use std::{fs, io};
use world::{Done, RaftEvent, RaftWorld};

// Says the bytes of a line's command.
fn say_command(rt: &HostRuntime, line: &str) -> io::Result<()> {
    let mut bytes = Vec::new(rt.alloc());
    let is_written = put_request(rt.alloc(), line, &mut bytes);
    println!(rt; "{line}: {is_written} {bytes:?}")
}

/// Says the bytes of the command of each line of `requests`.
pub(crate) fn commands(rt: &HostRuntime) -> io::Result<()> {
    let lines = fs::read_to_string(rt, "requests")?;
    for line in lines.lines() {
        say_command(rt, line)?;
    }
    Ok(())
}

// The input of the event that a line says, if a server takes it.
fn input_of(alloc: Global, line: &str) -> Option<(ServerId, ServerInput)> {
    match read_event(alloc, line).ok()? {
        Event::Server(server, input) => Some((server, input.as_ref().try_clone(alloc).ok()?)),
        Event::Deliver(_) | Event::Client(_, _) => None,
    }
}

fn put_request(alloc: Global, line: &str, out: &mut Vec<u8>) -> bool {
    let Ok(line) = format!(in alloc; "request 1 {line}") else {
        return false;
    };
    match input_of(alloc, line.as_str()) {
        Some((_, ServerInput::Request(request))) => {
            Cluster::write_command(&request.into_command(), out).is_ok()
        }
        _ => false,
    }
}

// The event of a line, in a world of servers of the log alone.
fn event_of(alloc: Global, line: &str) -> Option<RaftEvent<Cluster>> {
    if let Ok(Event::Deliver(number)) = read_event(alloc, line) {
        return Some(RaftEvent::Deliver(number));
    }
    match input_of(alloc, line)? {
        (server, ServerInput::Timeout) => Some(RaftEvent::Timeout(server)),
        (server, ServerInput::Beat) => Some(RaftEvent::Beat(server)),
        (server, ServerInput::Compact) => Some(RaftEvent::Compact(server)),
        (server, ServerInput::Crash) => Some(RaftEvent::Crash(server)),
        (server, ServerInput::Restart) => Some(RaftEvent::Restart(server)),
        (server, ServerInput::Request(request)) => {
            let command = Box::new(alloc, request.into_command()).ok()?;
            Some(RaftEvent::Propose(server, command))
        }
        // This world has no desks.
        _ => None,
    }
}

// The line is one event, and is taken.
fn take(world: &mut RaftWorld<Cluster>, alloc: Global, line: &str) -> bool {
    match event_of(alloc, line) {
        Some(event) => matches!(world.step(event), Ok(Done::Taken)),
        None => false,
    }
}

// The state of the server, which is the same where the group's own trace is played again.
fn put_state(
    world: &RaftWorld<Cluster>,
    alloc: Global,
    server: ServerId,
    out: &mut Vec<u8>,
) -> bool {
    let Ok(again) = RaftWorld::run(alloc, 3, world.trace()) else {
        return false;
    };
    let mut bytes = Vec::new(alloc);
    match (world.machine(server), again.machine(server)) {
        (Some(state), Some(other)) => {
            state.save(out).is_ok() && other.save(&mut bytes).is_ok() && bytes == *out
        }
        _ => false,
    }
}

// A job is put to the leader, and stopped; and its beat has that committed.
const SERVED: &str = "\
timeout 1
deliver 1
deliver 2
deliver 3
deliver 4
request 1 put web 50 main:2:linux:600:300:0
request 1 stop web
beat 1
deliver 5
deliver 6
deliver 7
deliver 8";

// What the old leader, server 1, did not commit is cut away under the next one, which has entries
// of its own at those indexes.
const CUT: &str = "\
timeout 1
deliver 1
deliver 2
deliver 3
deliver 4
request 1 put web 50 a:1:x:1:1:0
crash 1
timeout 2
deliver 6
deliver 7
request 2 put api 50 a:1:x:1:1:0
restart 1
beat 2
deliver 8
deliver 9
deliver 10
deliver 11
beat 2
deliver 12
deliver 13
deliver 14
deliver 15";

// Server 3 was away, so the snapshot comes to it in place of the leader's entries. The leader begins
// again with what its own covers.
const COVERED: &str = "\
timeout 1
deliver 1
deliver 2
deliver 3
deliver 4
request 1 put web 50 main:2:linux:600:300:0
beat 1
deliver 5
deliver 7
compact 1
beat 1
deliver 9
deliver 10
compact 2
crash 1
restart 1";

// The lines of steps are taken, one by one; whether all were.
fn take_all(world: &mut RaftWorld<Cluster>, alloc: Global, steps: &str) -> bool {
    let mut is_taken = true;
    for line in steps.lines() {
        is_taken = take(world, alloc, line) && is_taken;
    }
    is_taken
}

// Says how many entries all of a group agree on, and the bytes of the state of a server.
fn say_state(
    rt: &HostRuntime,
    world: &RaftWorld<Cluster>,
    server: ServerId,
    name: &str,
    is_taken: bool,
) -> io::Result<()> {
    let mut bytes = Vec::new(rt.alloc());
    let is_there = put_state(world, rt.alloc(), server, &mut bytes);
    println!(rt;
        "{name}: {} {} {bytes:?}",
        is_taken && is_there,
        world.chain().get()
    )
}

// What a group answers to a request to a server, which it refuses.
fn refused_noop(
    world: &mut RaftWorld<Cluster>,
    alloc: Global,
    server: ServerId,
) -> Option<Refusal> {
    let noop = Box::new(alloc, Cluster::noop()).ok()?;
    world.step(RaftEvent::Propose(server, noop)).err()
}

// Says what a group refuses: a request to a server, and message 0.
fn say_refused(
    rt: &HostRuntime,
    world: &mut RaftWorld<Cluster>,
    server: ServerId,
) -> io::Result<()> {
    let Some(refusal) = refused_noop(world, rt.alloc(), server) else {
        return Ok(());
    };
    println!(rt; "{refusal}")?;
    match world.step(RaftEvent::Deliver(0)) {
        Err(refusal) => println!(rt; "{}", refusal.number()),
        Ok(_) => Ok(()),
    }
}

// Plays steps on a group of three; says how many entries all of it agree on, and the bytes of the
// state of server 1; and what it then refuses: a request to server 1, and message 0.
fn state(rt: &HostRuntime, name: &str, steps: &str) -> io::Result<()> {
    let (Ok(mut world), Some(server)) = (
        RaftWorld::<Cluster>::new(rt.alloc(), 3),
        ServerId::from_number(1),
    ) else {
        return Ok(());
    };
    let is_taken = take_all(&mut world, rt.alloc(), steps);
    say_state(rt, &world, server, name, is_taken)?;
    say_refused(rt, &mut world, server)
}

/// Says the bytes of a server's replicated state in groups of three.
pub(crate) fn states(rt: &HostRuntime) -> io::Result<()> {
    state(rt, "served", SERVED)?;
    state(rt, "cut", CUT)?;
    state(rt, "covered", COVERED)
}

/// Says the settings of a scenario as they are read, whatever the program makes of them.
pub(crate) fn settings(rt: &HostRuntime) -> io::Result<()> {
    let text = fs::read_to_string(rt, "settings.json")?;
    if let Ok(read) = scenario(rt.alloc(), &text) {
        let said = read.settings;
        println!(rt;
            "servers {} key {} drop {} repeat {}",
            said.servers, said.key, said.drop, said.repeat
        )?;
        println!(rt; "steps {}", read.steps.len())?;
    }
    Ok(())
}
