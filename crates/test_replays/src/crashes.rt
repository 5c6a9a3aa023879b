//! The long worked row, and behind one of its events a crash and a restart of one actor: of every
//! actor behind every event; and of every server that compacts its log before.
use group_inputs::{ClientInput, Event, ServerInput};
use rows::{Actor, ClientId, NoMemory, Refusal, ServerId};
use std::alloc::Global;
use std::rt::Files;
use std::{fs, io};
use test_oracle::{Fault, Looks};
use transcript::{Transcript, read};
use world::World;

// So many of the row's events lead to fewer applied entries than all of them.
const FIRST: usize = 30;

// An actor goes down, and comes back; a server may compact its log before.
fn push_crash(
    alloc: Global,
    actor: &Actor,
    compacts: bool,
    out: &mut Vec<Event>,
) -> Result<(), NoMemory> {
    match actor {
        Actor::Server(me) => {
            if compacts {
                out.push(Event::server(alloc, *me, ServerInput::Compact)?)?;
            }
            out.push(Event::server(alloc, *me, ServerInput::Crash)?)?;
            out.push(Event::server(alloc, *me, ServerInput::Restart)?)?;
        }
        Actor::Client(me) => {
            out.push(Event::client(alloc, *me, ClientInput::Crash)?)?;
            out.push(Event::client(alloc, *me, ClientInput::Restart)?)?;
        }
    }
    Ok(())
}

fn push(alloc: Global, event: &Event, out: &mut Vec<Event>) -> Result<(), NoMemory> {
    out.push(event.try_clone(alloc)?)?;
    Ok(())
}

// The row's events, and an actor's crash and restart behind the one at a place.
fn list(
    alloc: Global,
    row: &Transcript,
    at: usize,
    actor: &Actor,
    compacts: bool,
) -> Result<Vec<Event>, NoMemory> {
    let mut list = Vec::new(alloc);
    for (place, event) in row.events.iter().enumerate() {
        push(alloc, event, &mut list)?;
        if place == at {
            push_crash(alloc, actor, compacts, &mut list)?;
        }
    }
    Ok(list)
}

// An event is taken, or refused for another reason than memory.
fn step(alloc: Global, world: &mut World, event: &Event) -> Result<(), Refusal> {
    match world.step(event.try_clone(alloc)?) {
        Err(Refusal::NoMemory) => Err(Refusal::NoMemory),
        _ => Ok(()),
    }
}

// What was found before, or else what a look finds.
fn first_of(
    found: Option<Fault>,
    alloc: Global,
    looks: &mut Looks,
    world: &World,
) -> Result<Option<Fault>, Refusal> {
    match found {
        Some(fault) => Ok(Some(fault)),
        None => Ok(looks.look(alloc, world)?),
    }
}

// What is wrong with a group of the row's servers and nodes to which events led, those that are
// refused among them; or with it after one of them, as they are taken one by one.
fn fault_of(
    alloc: Global,
    row: &Transcript,
    events: &[Event],
    world: &World,
) -> Result<Option<Fault>, Refusal> {
    let mut looks = Looks::new(alloc);
    let mut again = World::new(alloc, row.servers, &row.nodes)?;
    let mut found = looks.look(alloc, &again)?;
    for event in events {
        step(alloc, &mut again, event)?;
        found = first_of(found, alloc, &mut looks, &again)?;
    }
    match found {
        Some(fault) => Ok(Some(fault)),
        None => Ok(looks.look_back(alloc, world)?),
    }
}

// What is wrong with the group to which such a list leads.
fn found(
    alloc: Global,
    row: &Transcript,
    at: usize,
    actor: &Actor,
    compacts: bool,
) -> Result<Option<Fault>, Refusal> {
    let events = list(alloc, row, at, actor, compacts)?;
    let world = World::run(alloc, row.servers, &row.nodes, &events)?;
    fault_of(alloc, row, &events, &world)
}

// Says what is wrong with it; 1 where nothing is.
fn look(
    rt: &HostRuntime,
    row: &Transcript,
    at: usize,
    actor: &Actor,
    compacts: bool,
) -> io::Result<u64> {
    match found(rt.alloc(), row, at, actor, compacts) {
        Ok(None) => return Ok(1),
        Ok(Some(fault)) => print!(rt; "{fault:?}")?,
        Err(refusal) => print!(rt; "refused {}", refusal.number())?,
    }
    match actor {
        Actor::Server(me) => print!(rt; " where server {} crashes", me.number())?,
        Actor::Client(me) => print!(rt; " where client {} crashes", me.number())?,
    }
    if compacts {
        print!(rt; ", compacted,")?;
    }
    println!(rt; " behind event {}", at.saturating_add(1))?;
    Ok(0)
}

// Each server crashes behind the event at a place. In how many of the lists nothing is wrong.
fn servers_at(rt: &HostRuntime, row: &Transcript, at: usize, compacts: bool) -> io::Result<u64> {
    let mut good: u64 = 0;
    for position in 0..row.servers {
        if let Some(me) = ServerId::from_position(position) {
            good = good.saturating_add(look(rt, row, at, &Actor::Server(me), compacts)?);
        }
    }
    Ok(good)
}

// So does each client.
fn clients_at(rt: &HostRuntime, row: &Transcript, at: usize) -> io::Result<u64> {
    let mut good: u64 = 0;
    for node in &row.nodes {
        if let Some(me) = ClientId::from_number(node.number.number()) {
            good = good.saturating_add(look(rt, row, at, &Actor::Client(me), false)?);
        }
    }
    Ok(good)
}

// What is wrong with the row's group where only the first of its events are played, so that its
// servers have states that were not there.
fn found_of_first(alloc: Global, row: &Transcript) -> Result<Option<Fault>, Refusal> {
    let world = World::run(alloc, row.servers, &row.nodes, &row.events)?;
    match row.events.get(..FIRST) {
        Some(first) => fault_of(alloc, row, first, &world),
        None => Ok(None),
    }
}

// In how many lists nothing is wrong, with a crash behind each event of the row.
fn each_crash(rt: &HostRuntime, row: &Transcript) -> io::Result<u64> {
    let mut good: u64 = 0;
    for at in 0..row.events.len() {
        good = good.saturating_add(servers_at(rt, row, at, false)?);
        good = good.saturating_add(clients_at(rt, row, at)?);
    }
    Ok(good)
}

// In how many it is with one of a server that compacts before.
fn each_compacted(rt: &HostRuntime, row: &Transcript) -> io::Result<u64> {
    let mut good: u64 = 0;
    for at in 0..row.events.len() {
        good = good.saturating_add(servers_at(rt, row, at, true)?);
    }
    Ok(good)
}

fn crashes_of(rt: &HostRuntime, row: &Transcript) -> io::Result<()> {
    let (good, compacted) = (each_crash(rt, row)?, each_compacted(rt, row)?);
    println!(rt;
        "a crash behind each of {} events: {good} lists in which nothing is wrong",
        row.events.len()
    )?;
    println!(rt; "of servers that compact before: {compacted} lists in which nothing is wrong")?;
    match found_of_first(rt.alloc(), row) {
        Ok(found) => println!(rt; "by the first {FIRST} events alone: {found:?}"),
        Err(refusal) => println!(rt; "refused {}", refusal.number()),
    }
}

/// Plays the events of `long-run.transcript`, with a crash and a restart of each actor behind each
/// of them, and of each server once more that compacts its log before, and says what is wrong; and
/// in how many of these lists nothing is. Then it says what is found of the row's group by its
/// first events alone.
pub(crate) fn crashes(rt: &HostRuntime) -> io::Result<()> {
    let text = fs::read(rt, "long-run.transcript")?;
    match read(rt.alloc(), &text) {
        Ok(row) => crashes_of(rt, &row),
        Err(_) => println!(rt; "no transcript"),
    }
}
