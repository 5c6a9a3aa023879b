//! A server of a group by itself, beside the one in its group. It takes what comes to that, and has
//! to send the same and to be as that is. While it is down nothing is left of it but the bytes of
//! its stored part. And one gets a snapshot that no leader sent it.
use crate::group::{are_alike, are_same};
use fsm_state::Cluster;
use group_inputs::{Event, ServerInput};
use machine::Machine;
use raft_snapshot::{read_stable, write_stable};
use rows::{Actor, Sequence, ServerId, Version};
use server::{Outbox, Server};
use std::alloc::Global;
use std::rt::Files;
use std::{fs, io};
use transcript::{Transcript, read};
use wire::Frames;
use world::{Done, World};

/// The version that frames have, and their first byte.
pub(crate) const V: u8 = 3;

// Where server 1 of the long row crashes at its end: with its snapshot, without one, and with one
// behind which an entry stands.
const STORED: [&str; 3] = ["compacted", "whole", "behind-a-snapshot"];

#[derive(Drop)]
struct Apart {
    me: ServerId,
    size: usize,
    // None while it is down.
    server: Option<Server>,
    // Its stored part when it went down last.
    text: Vec<u8>,
}

/// Nothing is sent yet.
pub(crate) fn no_output(alloc: Global) -> Outbox {
    Outbox {
        frames: Frames::new(alloc),
        work: Sequence::new(alloc),
    }
}

fn new_apart(alloc: Global, row: &Transcript, number: u8) -> Option<Apart> {
    let me = ServerId::from_number(number)?;
    Some(Apart {
        me,
        size: row.servers,
        server: Some(Server::new(alloc, me, row.servers).ok()?),
        text: Vec::new(alloc),
    })
}

// It goes down, and what it stores is written.
fn go_down(apart: &mut Apart, alloc: Global) -> Option<()> {
    let mut server = apart.server.take()?;
    server.step(ServerInput::Crash, &mut no_output(alloc)).ok()?;
    apart.text.clear();
    write_stable(&server.into_stable(), &mut apart.text).ok()
}

// It starts again with what is read of that.
fn come_back(apart: &mut Apart, alloc: Global) -> Option<()> {
    let stable = read_stable::<Cluster>(alloc, &apart.text).ok()?;
    apart.server = Server::restart(alloc, apart.me, apart.size, stable).ok();
    Some(())
}

// It takes an input of its own.
fn take(apart: &mut Apart, alloc: Global, input: &ServerInput, sent: &mut Outbox) -> Option<()> {
    match input {
        ServerInput::Crash => go_down(apart, alloc),
        ServerInput::Restart => come_back(apart, alloc),
        _ => {
            let input = input.try_clone(alloc).ok()?;
            apart.server.as_mut()?.step(input, sent).ok()
        }
    }
}

// The message of this number comes.
fn hear(apart: &mut Apart, world: &World, k: u64, sent: &mut Outbox) -> Option<()> {
    let frame = world.sent().get(k.checked_sub(1)? as usize)?;
    apart.server.as_mut()?.receive(frame.bytes(), sent).ok()
}

// Takes what an event hands to it, and says whether it is for this server; none where it is refused.
fn follow(
    apart: &mut Apart,
    alloc: Global,
    world: &World,
    event: &Event,
    sent: &mut Outbox,
) -> Option<bool> {
    match event {
        Event::Deliver(k) => {
            if world.receiver(*k) != Some(Actor::Server(apart.me)) {
                return Some(false);
            }
            hear(apart, world, *k, sent)?;
            Some(true)
        }
        Event::Server(to, input) => {
            if *to != apart.me {
                return Some(false);
            }
            take(apart, alloc, input.as_ref(), sent)?;
            Some(true)
        }
        Event::Client(_, _) => Some(false),
    }
}

// Whether these bytes stand at this place.
fn is_at(sent: &Frames, at: usize, bytes: &[u8]) -> bool {
    match sent.get(at) {
        Some(frame) => frame.bytes() == bytes,
        None => false,
    }
}

// Whether these are the frames that stand behind the first of those that were sent.
fn are_sent(sent: &Frames, before: usize, frames: &Frames) -> bool {
    for at in 0..frames.len() {
        let Some(frame) = frames.get(at) else {
            return false;
        };
        if !is_at(sent, before.saturating_add(at), frame.bytes()) {
            return false;
        }
    }
    sent.len() == before.saturating_add(frames.len())
}

// Whether what a server stores has this text.
fn stores(alloc: Global, server: &Server, text: &[u8]) -> bool {
    let Ok(stable) = server.stable() else {
        return false;
    };
    let mut other = Vec::new(alloc);
    write_stable(&stable, &mut other).is_ok() && other.as_slice() == text
}

// Whether it is as the one in the group; while it is down, whether that stores the same.
fn is_as_there(apart: &Apart, alloc: Global, world: &World) -> bool {
    let Some(there) = world.server(apart.me) else {
        return false;
    };
    match &apart.server {
        Some(one) => are_alike(one, there) && are_same(alloc, one.state(), there.state()),
        None => there.applied().is_none() && stores(alloc, there, &apart.text),
    }
}

// An event of the group; whether both did the same. None where one of them refuses it.
fn step(apart: &mut Apart, alloc: Global, world: &mut World, event: &Event) -> Option<bool> {
    let mut sent = no_output(alloc);
    let is_its = follow(apart, alloc, world, event, &mut sent)?;
    let before = world.sent().len();
    let Ok(Done::Taken) = world.step(event.try_clone(alloc).ok()?) else {
        return None;
    };
    let is_sent = !is_its || are_sent(world.sent(), before, &sent.frames);
    Some(is_sent && is_as_there(apart, alloc, world))
}

// All events of a row; whether both did the same at each.
fn play(apart: &mut Apart, alloc: Global, row: &Transcript) -> Option<bool> {
    let mut world = World::new(alloc, row.servers, &row.nodes).ok()?;
    let mut is_same = true;
    for event in &row.events {
        is_same = step(apart, alloc, &mut world, event)? && is_same;
    }
    Some(is_same)
}

fn row_of(rt: &HostRuntime, name: &str) -> io::Result<Option<Transcript>> {
    let alloc = rt.alloc();
    let text = fs::read(rt, &format!(in alloc; "{name}.transcript")?)?;
    Ok(read(alloc, &text).ok())
}

// Says whether server 1 goes on from what it stored as the one in the group does; and what it stored
// when it went down last.
fn say_stored(rt: &HostRuntime, name: &str) -> io::Result<()> {
    let alloc = rt.alloc();
    let Some(row) = row_of(rt, name)? else {
        return Ok(());
    };
    let Some(mut apart) = new_apart(alloc, &row, 1) else {
        return Ok(());
    };
    let is_same = play(&mut apart, alloc, &row) == Some(true);
    println!(rt; "stored {name}: {is_same} {:?}", apart.text)
}

fn text_of(alloc: Global, state: &Cluster) -> Option<Vec<u8>> {
    let mut text = Vec::new(alloc);
    state.save(&mut text).ok()?;
    Some(text)
}

// The text of server 1's state when it has applied so many entries.
fn state_at(alloc: Global, row: &Transcript, count: u64) -> Option<Vec<u8>> {
    match World::new(alloc, row.servers, &row.nodes) {
        Ok(mut world) => state_in(&mut world, alloc, row, count),
        Err(_) => None,
    }
}

fn state_in(world: &mut World, alloc: Global, row: &Transcript, count: u64) -> Option<Vec<u8>> {
    let first = ServerId::from_number(1)?;
    for event in &row.events {
        if world.state(first)?.count() == count {
            break;
        }
        world.step(event.try_clone(alloc).ok()?).ok()?;
    }
    let state = world.state(first)?;
    if state.count() != count {
        return None;
    }
    text_of(alloc, state)
}

// The command of the row's sixth entry: evaluation 4.0 is complete.
const COMPLETE: &[u8] = &[9, 0, 0, 0, 0, 0, 0, 0, 4, 0, 0, 2, 0, 0, 0, 0, 0, 0, 0, 0];

// The text of the state after the first six entries, which no server of the row ever has: the last
// three are committed at once.
fn sixth_state(alloc: Global, row: &Transcript) -> Option<Vec<u8>> {
    let mut state = Cluster::load(Version::newest(), alloc, &state_at(alloc, row, 5)?).ok()?;
    let (command, _) = Cluster::read_command(Version::newest(), alloc, COMPLETE).ok()?;
    if state.count() > 5 {
        return None;
    }
    state.apply(&command).ok()?;
    text_of(alloc, &state)
}

// Server 1 sends server 2 a snapshot of so many entries, the last of term 1, in that term.
fn frame_of(alloc: Global, index: u64, state: &[u8]) -> Option<Vec<u8>> {
    let size = u32::try_from(state.len()).ok()?.checked_add(24)?;
    let mut frame = Vec::new(alloc);
    frame.extend_from_slice(&[V, 5, 1, 2]).ok()?;
    frame.extend_from_slice(&size.to_be_bytes()).ok()?;
    for number in [1, index, 1] {
        frame.extend_from_slice(&number.to_be_bytes()).ok()?;
    }
    frame.extend_from_slice(state).ok()?;
    Some(frame)
}

fn say_server(rt: &HostRuntime, apart: &Apart) -> io::Result<()> {
    let Some(server) = &apart.server else {
        return print!(rt; " down");
    };
    print!(rt; " last {}", server.last())?;
    match server.applied() {
        Some(applied) => print!(rt; " applied {applied}"),
        None => Ok(()),
    }
}

/// A frame comes to a server; what is answered, or none where it is refused.
pub(crate) fn answer_of(server: &mut Server, alloc: Global, frame: &[u8]) -> Option<Vec<u8>> {
    let mut sent = no_output(alloc);
    server.receive(frame, &mut sent).ok()?;
    let mut bytes = Vec::new(alloc);
    bytes.extend_from_slice(sent.frames.get(0)?.bytes()).ok()?;
    Some(bytes)
}

fn answer(apart: &mut Apart, alloc: Global, frame: &[u8]) -> Option<Vec<u8>> {
    answer_of(apart.server.as_mut()?, alloc, frame)
}

// It goes down, and starts again.
fn start_again(apart: &mut Apart, alloc: Global) -> Option<()> {
    go_down(apart, alloc)?;
    come_back(apart, alloc)
}

// Says how the server stands when the frame came, what it answers, and how it stands when it has
// started again from its stored part.
fn say_answer(rt: &HostRuntime, apart: &mut Apart, frame: &[u8]) -> io::Result<()> {
    let alloc = rt.alloc();
    let bytes = answer(apart, alloc, frame);
    print!(rt; " {}", bytes.is_some())?;
    say_server(rt, apart)?;
    if let Some(bytes) = bytes {
        print!(rt; " answer {:?}", bytes)?;
    }
    let is_back = start_again(apart, alloc).is_some();
    print!(rt; ", again: {is_back}")?;
    say_server(rt, apart)
}

// The row's server 2, and then it gets a snapshot of so many entries, with this state.
fn say_snapshot(rt: &HostRuntime, row: &Transcript, index: u64, state: &[u8]) -> io::Result<()> {
    let alloc = rt.alloc();
    let Some(frame) = frame_of(alloc, index, state) else {
        return Ok(());
    };
    match new_apart(alloc, row, 2) {
        Some(mut apart) => say_taken(rt, &mut apart, row, index, &frame),
        None => Ok(()),
    }
}

// What it makes of the row, and then of the frame of such a snapshot.
fn say_taken(
    rt: &HostRuntime,
    apart: &mut Apart,
    row: &Transcript,
    index: u64,
    frame: &[u8],
) -> io::Result<()> {
    let is_same = play(apart, rt.alloc(), row) == Some(true);
    print!(rt; "snapshot of {index} entries: {is_same}")?;
    say_answer(rt, apart, frame)?;
    println!(rt;)
}

// It gets one of four entries, and one of six.
fn say_snapshots(rt: &HostRuntime, row: &Transcript) -> io::Result<()> {
    let alloc = rt.alloc();
    if let Some(state) = state_at(alloc, row, 4) {
        say_snapshot(rt, row, 4, &state)?;
    }
    if let Some(state) = sixth_state(alloc, row) {
        say_snapshot(rt, row, 6, &state)?;
    }
    Ok(())
}

/// Plays rows in which server 1 crashes, with a server by itself that goes on from its stored part;
/// and then the long row, at whose end such a server 2 gets snapshots.
pub(crate) fn servers(rt: &HostRuntime) -> io::Result<()> {
    for name in STORED {
        say_stored(rt, name)?;
    }
    match row_of(rt, "long-run")? {
        Some(row) => say_snapshots(rt, &row),
        None => Ok(()),
    }
}
