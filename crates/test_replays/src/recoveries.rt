//! How many events a group takes to recover: five servers on a bad net, two of which crash, settled
//! with all servers after each event of their run.
//!
//! What is wanted was counted by a program apart, of Raft's rules alone, and at these moments by
//! hand. A round is a beat and eight deliveries: four messages, and four answers.
//!
//! - After event 53 server 1, which led term 1, has crashed. It alone has entry 5, so it restarts
//!   and stands again: a timeout, and eight deliveries for its votes. Behind its no-op, entry 6,
//!   nobody takes what it sends first, since all lack entry 5. The second round brings both, and
//!   the third tells that they are committed. So it is 1 restart, 1 timeout, 3 beats and 8 + 3 * 8
//!   = 32 deliveries. Its log had 5 entries: the bound is 1 + 5 * (5 + 0 + 3) = 41 beats.
//! - After event 56 server 5 is down too, and server 3 stands in term 2. Server 1 still has the
//!   best log, but is behind in term: by a first timeout it comes to term 2 itself, where there is
//!   nothing to hear, and by a second it stands in term 3. The rest is as before: 2 restarts, 2
//!   timeouts, 3 beats and 32 deliveries.
//! - After event 60 server 3 leads term 2. Its no-op stands at 5, where server 1 has the entry of
//!   term 1: the first round puts it there, and the second tells that it is committed. So it is 2
//!   restarts, 2 beats and 16 deliveries.
//! - After event 71 it knows that its no-op is committed, since servers 2 and 4 have it. Their logs
//!   are as good, but it leads: one round tells all, and puts the no-op into the logs of servers 1
//!   and 5. So it is 2 restarts, 1 beat and 8 deliveries.
//! - After event 113 it leads, and all have applied its six entries: nothing is left to do.
use group_inputs::{Event, ServerInput};
use recovery::settle_all_of_group;
use rows::ServerId;
use std::alloc::Global;
use std::rt::Files;
use std::{fs, io};
use transcript::{Transcript, read};
use world::World;

// What a group took to recover.
#[derive(Clone, Copy, PartialEq, Eq)]
struct Counts {
    restarts: u64,
    timeouts: u64,
    beats: u64,
    deliveries: u64,
}

const NONE: Counts = Counts {
    restarts: 0,
    timeouts: 0,
    beats: 0,
    deliveries: 0,
};

// And who leads in the end, by its number, with the greatest number of beats that it could take.
#[derive(Clone, Copy, PartialEq, Eq)]
struct Recovery {
    leader: u8,
    counts: Counts,
    most_beats: u64,
}

// With one event more; none where it is of another kind.
fn counted(counts: Counts, event: &Event) -> Option<Counts> {
    let mut counts = counts;
    match event {
        Event::Deliver(_) => counts.deliveries = counts.deliveries.saturating_add(1),
        Event::Server(_, input) => match input.as_ref() {
            ServerInput::Restart => counts.restarts = counts.restarts.saturating_add(1),
            ServerInput::Timeout => counts.timeouts = counts.timeouts.saturating_add(1),
            ServerInput::Beat => counts.beats = counts.beats.saturating_add(1),
            _ => return None,
        },
        Event::Client(_, _) => return None,
    }
    Some(counts)
}

// The events behind the first ones.
fn counts_of(trace: &[Event], first: usize) -> Option<Counts> {
    let mut counts = NONE;
    for event in trace.iter().skip(first) {
        counts = counted(counts, event)?;
    }
    Some(counts)
}

// How many entries each server has; 0 where there is none.
fn lasts(world: &World) -> [u64; 5] {
    let mut lasts = [0; 5];
    for (position, last) in lasts.iter_mut().enumerate() {
        if let Some(id) = ServerId::from_position(position)
            && let Some(server) = world.server(id)
        {
            *last = server.last().get();
        }
    }
    lasts
}

// Whether a server leads, and all have applied as many entries as it has.
fn is_recovered(world: &World, leader: ServerId) -> bool {
    let Some(server) = world.server(leader) else {
        return false;
    };
    for position in 0..world.size() {
        let applied = match ServerId::from_position(position) {
            Some(id) => world.server(id).and_then(|server| server.applied()),
            None => None,
        };
        if applied != Some(server.last()) {
            return false;
        }
    }
    server.raft().leader_term().is_some()
}

// The bound on beats, of a group of so many servers and a log of so many entries.
fn most_beats(servers: u64, last: u64) -> u64 {
    let each = last.saturating_add(last / 32).saturating_add(3);
    servers.saturating_mul(each).saturating_add(1)
}

// The group after so many events of the run recovers.
fn recovered(alloc: Global, run: &Transcript, after: usize) -> Option<Recovery> {
    let events = run.events.get(..after)?;
    let mut world = World::run(alloc, run.servers, &run.nodes, events).ok()?;
    let first = world.trace().len();
    let lasts = lasts(&world);
    let leader = settle_all_of_group(alloc, &mut world).ok()?;
    if !is_recovered(&world, leader) {
        return None;
    }
    Some(Recovery {
        leader: leader.number(),
        counts: counts_of(world.trace(), first)?,
        most_beats: most_beats(run.servers as u64, *lasts.get(leader.position())?),
    })
}

fn say(rt: &HostRuntime, after: usize, it: &Recovery) -> io::Result<()> {
    let counts = it.counts;
    print!(rt;
        "  from {after}: server {} by {} restarts",
        it.leader, counts.restarts
    )?;
    print!(rt; ", {} timeouts, {} beats", counts.timeouts, counts.beats)?;
    println!(rt; " of {}, {} deliveries", it.most_beats, counts.deliveries)
}

// Says each moment from which it takes others than from the one before.
fn each_moment(rt: &HostRuntime, run: &Transcript) -> io::Result<()> {
    let mut last = None;
    for after in 0..run.events.len().saturating_add(1) {
        let it = recovered(rt.alloc(), run, after);
        match it {
            Some(now) if it != last => say(rt, after, &now)?,
            Some(_) => (),
            None => println!(rt; "  from {after}: it does not recover")?,
        }
        last = it;
    }
    Ok(())
}

/// Settles the group of `bad-net-with-crashes.transcript` with all its servers, after each of its
/// events, and says what that takes.
pub(crate) fn recoveries(rt: &HostRuntime) -> io::Result<()> {
    let text = fs::read(rt, "bad-net-with-crashes.transcript")?;
    match read(rt.alloc(), &text) {
        Ok(run) => {
            println!(rt; "recovery after each of {} events", run.events.len())?;
            each_moment(rt, &run)
        }
        Err(_) => println!(rt; "no transcript"),
    }
}
