//! Groups on threads: while one worker is held at the gate, others plan and their plans are
//! applied; while one server's cell is held, others take their turns; and elections on nets that
//! lose and repeat messages. Each gives up after so many turns of waiting. What has to come of it
//! is worked out by hand from Raft and from Nomad's scheduling, and the words of keys by a program
//! that was written from Bernstein's paper.
ghost use Rattle.std.specs.Prelude.{◌≡◌};

use crate::tests::held_cells::{actor, nodes, opened};
use cluster::{
    Cells, Gate, GroupActor, GroupThreads, NetSettings, OpenGate, OwnInput, RunningGroup, cells_of,
    close, start, stop,
};
use event_book::{BookId, OpenedBook};
use event_texts::read_event;
use group_inputs::Event;
use raft_core::Role;
use rows::{Actor, Delivery, Name, NodeSpec, Refusal, ServerId};
use server::Server;
use std::alloc::Global;
use std::marker::Brand;
use std::sync::atomic::{AtomicBool, Ordering};
use std::sync::{Arc, Wait};
use std::test::*;
use std::thread;
use std::thread::Threads;
use test_oracle::{Fault, Looks};
use world::World;

/// How many turns are waited for anything.
const LIMIT: u32 = 100_000;

/// How often a turn of waiting gives way to the threads, and how often a flow looks.
const LOOKS: u64 = 100;

const FLOW: u64 = 10_000_000;

/// A group of three servers and two clients: server 1 leads, and has applied what registers the
/// clients' nodes and puts two jobs, whose evaluations are 4.0 and 5.0.
pub(super) const TWO_JOBS: &[&str] = &[
    "timeout 1",
    "beat 1",
    "register 1 1",
    "register 2 1",
    "beat 1",
    "request 1 put web 50 main:1:linux:600:300:0",
    "request 1 put api 50 main:1:linux:600:300:0",
    "beat 1",
    "beat 1",
];

/// One more round: entries come to all servers, and a plan is judged.
pub(super) const ROUND: &[&str] = &["beat 1", "plan 1"];

/// Server 1 leads, and has applied what registers two nodes and puts a job of two; server 2 asked
/// for its evaluation.
const ONE_JOB: &[&str] = &[
    "timeout 1",
    "beat 1",
    "register 1 1",
    "register 2 1",
    "beat 1",
    "request 1 put web 50 main:2:linux:600:300:0",
    "beat 1",
    "beat 1",
    "take 2 1",
];

/// One more round of a crowd: messages of all kinds, none of which is waited for.
const CROWD: &[&str] = &[
    "ping 1 1", "ping 2 1", "pull 1 1", "pull 2 1", "take 2 1", "take 3 1", "beat 1", "plan 1",
];

const CROWDS: u32 = 50;

/// A gate that holds the first evaluation that comes to it, until it is opened.
#[derive(Drop)]
pub(super) struct HoldingGate {
    holds: AtomicBool,
    pub(super) open: AtomicBool,
}

// A gate that holds the first that comes.
pub(super) fn closed_gate() -> HoldingGate {
    HoldingGate {
        holds: AtomicBool::new(false),
        open: AtomicBool::new(false),
    }
}

impl Gate for HoldingGate {
    fn pass(&self, _of: &Delivery) {
        if self.holds.swap(true, Ordering::SeqCst) {
            return;
        }
        for _ in 0..u64::MAX {
            if self.open.load(Ordering::SeqCst) {
                return;
            }
            thread::yield_now();
        }
    }
}

// Gives way to the threads.
pub(super) fn wait() {
    for _ in 0..LOOKS {
        thread::yield_now();
    }
}

// An actor takes the event of a line.
fn give<B: BookId, G: Gate + Drop, R: Wait>(
    rt: &R,
    alloc: Global,
    group: &RunningGroup<B, G>,
    line: &str,
) -> Result<(), Refusal> {
    match read_event(alloc, line)? {
        Event::Server(server, input) => {
            group.hand(rt, Actor::Server(server), OwnInput::Server(input))
        }
        Event::Client(client, input) => {
            group.hand(rt, Actor::Client(client), OwnInput::Client(input))
        }
        Event::Deliver(_) => Err(Refusal::OutOfRange),
    }
}

// An actor takes the event of a line; then all messages come.
pub(super) fn hand<B: BookId, G: Gate + Drop, R: Wait>(
    rt: &R,
    alloc: Global,
    group: &RunningGroup<B, G>,
    line: &str,
) -> Result<(), Refusal> {
    give(rt, alloc, group, line)?;
    group.flow(rt, FLOW);
    Ok(())
}

pub(super) fn hand_all<B: BookId, G: Gate + Drop, R: Wait>(
    rt: &R,
    alloc: Global,
    group: &RunningGroup<B, G>,
    lines: &[&str],
) -> Result<(), Refusal> {
    for line in lines {
        hand(rt, alloc, group, line)?;
    }
    Ok(())
}

fn has_placed(alloc: Global, server: &Server, job: &str) -> Result<bool, Refusal> {
    let Some(state) = server.state() else {
        return Ok(false);
    };
    let job = Name::read(job)?;
    Ok(!state.live_of_job(&job)?.as_slice().is_empty())
}

// Whether something of a job lives in the state of server 1, which leads.
fn is_placed<B: BookId, G: Gate + Drop, R: Wait>(
    rt: &R,
    alloc: Global,
    group: &RunningGroup<B, G>,
    job: &str,
) -> Result<bool, Refusal> {
    let Some(cell) = group.cells().lock(rt, actor(1)?) else {
        return Ok(false);
    };
    match cell.actor() {
        GroupActor::Server(server) => has_placed(alloc, server, job),
        GroupActor::Client(_) => Ok(false),
    }
}

// Rounds until a job is placed; whether it is.
fn place<B: BookId, G: Gate + Drop, R: Wait>(
    rt: &R,
    alloc: Global,
    group: &RunningGroup<B, G>,
    job: &str,
) -> Result<bool, Refusal> {
    for _ in 0..LIMIT {
        hand_all(rt, alloc, group, ROUND)?;
        if is_placed(rt, alloc, group, job)? {
            return Ok(true);
        }
        wait();
    }
    Ok(false)
}

pub(super) fn is_held(gate: &HoldingGate) -> bool {
    for _ in 0..LIMIT {
        if gate.holds.load(Ordering::SeqCst) {
            return true;
        }
        wait();
    }
    false
}

// The worker of server 2 gets the evaluation of the first job and is held; that of server 3 gets
// the other. How far it came: 0 where nobody was held, 1 where the other job was not placed
// meanwhile, 2 where the first was placed before the gate was opened, 3 where it was not placed
// afterwards.
fn hold_one<B: BookId, R: Wait>(
    rt: &R,
    alloc: Global,
    group: &RunningGroup<B, HoldingGate>,
) -> Result<u8, Refusal> {
    hand_all(rt, alloc, group, TWO_JOBS)?;
    hand(rt, alloc, group, "take 2 1")?;
    if !is_held(group.gate()) {
        return Ok(0);
    }
    hand(rt, alloc, group, "take 3 1")?;
    if !place(rt, alloc, group, "api")? {
        return Ok(1);
    }
    if is_placed(rt, alloc, group, "web")? {
        return Ok(2);
    }
    group.gate().open.store(true, Ordering::SeqCst);
    Ok(if place(rt, alloc, group, "web")? {
        4
    } else {
        3
    })
}

pub(super) const NET: NetSettings = NetSettings {
    capacity: 1_024,
    key: 0,
    drop: 0,
    repeat: 0,
};

pub(super) fn group<B: BookId, G: Gate + Drop>(
    alloc: Global,
    opened: OpenedBook<OwnInput>,
    nodes: Vec<NodeSpec>,
    net: NetSettings,
    gate: G,
) -> Result<RunningGroup<B, G>, Refusal>
    requires book { opened ≡ (B.table, B.actors) }
    requires nodes { nodes.items ≡ B.nodes }
{
    let (book, seats) = opened.seats::<B>(alloc)?;
    let cells = cells_of(alloc, 3, nodes.as_slice(), &book, seats)?;
    let cells = Cells::open(alloc, 3, nodes.len(), book, cells)?;
    RunningGroup::new(alloc, cells, net, gate)
}

// The world to which a group closes that was stopped. Nobody else has it, so it is given back.
pub(super) fn closed<B: BookId, G: Gate + Drop>(
    alloc: Global,
    stopped: Option<RunningGroup<B, G>>,
) -> Result<World, Refusal> {
    match stopped {
        Some(group) => Ok(close(alloc, group.into_cells().into_cells()?)?),
        None => Err(Refusal::OutOfRange),
    }
}

fn hold_a_worker<B, R>(
    rt: R,
    alloc: Global,
    opened: OpenedBook<OwnInput>,
    nodes: Vec<NodeSpec>,
) -> Result<u8, Refusal>
where
    B: BookId + Send + Sync + 'static,
    R: Threads + Wait + Copy + Send + 'static,
    requires book { opened ≡ (B.table, B.actors) }
    requires nodes { nodes.items ≡ B.nodes }
{
    let group = group::<B, _>(alloc, opened, nodes, NET, closed_gate())?;
    let group = Arc::new(alloc, group)?;
    let threads = start(rt, alloc, &group, 1)?;
    let came = hold_one(&rt, alloc, &group);
    group.gate().open.store(true, Ordering::SeqCst);
    let _world = closed(alloc, stop(&rt, group, threads))?;
    came
}

// The threads of a group start while the cell of server 1 is held, and server 3 has asked both
// others for their votes. Whether it leads by that of server 2, while the cell is still held.
fn elect<B, R>(
    rt: R,
    alloc: Global,
    group: &Arc<RunningGroup<B, OpenGate>, Global>,
) -> Result<(bool, GroupThreads), Refusal>
where
    B: BookId + Send + Sync + 'static,
    R: Threads + Wait + Copy + Send + 'static,
{
    let Some(_held) = group.cells().lock(&rt, actor(1)?) else {
        return Err(Refusal::OutOfRange);
    };
    let threads = start(rt, alloc, group, 1)?;
    let elected = is_elected(&rt, group);
    Ok((elected, threads))
}

// Waits until what server 1 is asked is alone on its way; whether server 3 leads then.
fn is_elected<B: BookId, R: Wait>(rt: &R, group: &RunningGroup<B, OpenGate>) -> bool {
    for _ in 0..LIMIT {
        if group.in_flight() == 1 {
            return matches!(leads(rt, group), Ok(true));
        }
        wait();
    }
    false
}

// Whether server 3 leads.
fn leads<B: BookId, G: Gate + Drop, R: Wait>(
    rt: &R,
    group: &RunningGroup<B, G>,
) -> Result<bool, Refusal> {
    let Some(cell) = group.cells().lock(rt, actor(3)?) else {
        return Ok(false);
    };
    match cell.actor() {
        GroupActor::Server(server) => Ok(server.role() == Some(Role::Leader)),
        GroupActor::Client(_) => Ok(false),
    }
}

// Whether server 3 is elected while the cell of server 1 is held, and how many events the group
// has noted once that cell is free and all messages have come.
fn hold_a_cell<B, R>(
    rt: R,
    alloc: Global,
    opened: OpenedBook<OwnInput>,
    nodes: Vec<NodeSpec>,
) -> Result<(bool, usize), Refusal>
where
    B: BookId + Send + Sync + 'static,
    R: Threads + Wait + Copy + Send + 'static,
    requires book { opened ≡ (B.table, B.actors) }
    requires nodes { nodes.items ≡ B.nodes }
{
    let group = Arc::new(alloc, group::<B, _>(alloc, opened, nodes, NET, OpenGate)?)?;
    give(&rt, alloc, &group, "timeout 3")?;
    let (elected, threads) = elect(rt, alloc, &group)?;
    group.flow(&rt, FLOW);
    let world = closed(alloc, stop(&rt, group, threads))?;
    Ok((elected, world.trace().len()))
}

/// An election on a net of a key that loses and repeats so many of a hundred messages: the role of
/// server 1, how many events there are, and how many messages were sent.
type Election = (u64, u8, u8, Role, usize, usize);

const ELECTIONS: &[Election] = &[
    // Both requests for a vote are lost.
    (0, 100, 0, Role::Candidate, 1, 2),
    // Both requests come twice, and are answered each time, and each answer comes twice.
    (0, 0, 100, Role::Leader, 13, 6),
    // By the first words of key 0, which leave 18, 85 and 59, the first request is lost, and the
    // second and its answer come.
    (0, 50, 0, Role::Leader, 3, 3),
    // By those of key 1, which leave 5 and 11, both are lost.
    (1, 50, 0, Role::Candidate, 1, 2),
];

// The role of server 1, and how many events there are and messages were sent, once server 1 has
// stood and all messages have come; and how many messages found no room.
fn stand<B, R>(
    rt: R,
    alloc: Global,
    opened: OpenedBook<OwnInput>,
    nodes: Vec<NodeSpec>,
    net: NetSettings,
) -> Result<(Role, usize, usize, u64), Refusal>
where
    B: BookId + Send + Sync + 'static,
    R: Threads + Wait + Copy + Send + 'static,
    requires book { opened ≡ (B.table, B.actors) }
    requires nodes { nodes.items ≡ B.nodes }
{
    let group = Arc::new(alloc, group::<B, _>(alloc, opened, nodes, net, OpenGate)?)?;
    let threads = start(rt, alloc, &group, 1)?;
    let came = hand(&rt, alloc, &group, "timeout 1");
    let lost = group.lost_messages();
    let world = closed(alloc, stop(&rt, group, threads))?;
    came?;
    let first = ServerId::from_number(1).ok_or(Refusal::OutOfRange)?;
    let server = world.server(first).ok_or(Refusal::OutOfRange)?;
    let role = server.role().ok_or(Refusal::Down)?;
    Ok((role, world.trace().len(), world.sent().len(), lost))
}

fn election<R>(rt: R, alloc: Global, row: &Election) -> Result<bool, Refusal>
where
    R: Threads + Wait + Copy + Send + 'static,
{
    let (key, drop, repeat, role, events, messages) = *row;
    let net = NetSettings {
        capacity: 1_024,
        key,
        drop,
        repeat,
    };
    let book = opened(alloc, &[1, 2, 3], 0)?;
    let nodes = nodes(alloc, 0)?;
    Ok(stand::<Brand, _>(rt, alloc, book, nodes, net)? == (role, events, messages, 0))
}

/// In a group without threads: how many messages a queue has room for, and how many of a hundred
/// are lost and come twice. Then how many messages were counted as lost after server 1 stood once,
/// and after it stood twice, and how many are on their way then. Each time both others are asked.
type Overflow = (usize, u8, u8, u64, u64, u64);

const OVERFLOWS: &[Overflow] = &[
    (1, 0, 0, 0, 2, 2),
    (2, 0, 0, 0, 0, 4),
    // Each comes twice, and of the first two one finds room.
    (1, 0, 100, 2, 6, 2),
    (3, 0, 100, 0, 2, 6),
    // What its fate loses is not counted.
    (1, 100, 0, 0, 0, 0),
];

// Server 1 stands once more in a group without threads, where no message is taken. How many were
// lost by then.
fn stand_alone<B: BookId, R: Wait>(
    rt: &R,
    alloc: Global,
    group: &RunningGroup<B, OpenGate>,
) -> Result<u64, Refusal> {
    give(rt, alloc, group, "timeout 1")?;
    Ok(group.lost_messages())
}

// In a group without threads: how many messages were lost after server 1 stood once and after it
// stood twice, how many are on their way then, how often a flow looks before and after, and how
// many messages were sent.
fn overflow<B, R>(
    rt: &R,
    alloc: Global,
    opened: OpenedBook<OwnInput>,
    nodes: Vec<NodeSpec>,
    net: NetSettings,
) -> Result<([u64; 5], usize), Refusal>
where
    B: BookId,
    R: Wait,
    requires book { opened ≡ (B.table, B.actors) }
    requires nodes { nodes.items ≡ B.nodes }
{
    let group = group::<B, _>(alloc, opened, nodes, net, OpenGate)?;
    let empty = group.flow(rt, LOOKS);
    let once = stand_alone(rt, alloc, &group)?;
    let twice = stand_alone(rt, alloc, &group)?;
    let full = group.flow(rt, LOOKS);
    let found = [once, twice, group.in_flight(), empty, full];
    let world = close(alloc, group.into_cells().into_cells()?)?;
    Ok((found, world.sent().len()))
}

// Whether that is as in a row. A flow gives up where nobody takes what was sent.
fn overflows<R: Wait>(rt: &R, alloc: Global, row: &Overflow) -> Result<bool, Refusal> {
    let (capacity, drop, repeat, once, twice, flying) = *row;
    let net = NetSettings {
        capacity,
        drop,
        repeat,
        ..NET
    };
    let book = opened(alloc, &[1, 2, 3], 0)?;
    let nodes = nodes(alloc, 0)?;
    let looks = if flying == 0 { 1 } else { LOOKS };
    let found = overflow::<Brand, _>(rt, alloc, book, nodes, net)?;
    Ok(found == ([once, twice, flying, 1, looks], 4))
}

// Whether the log of server 1 has so many entries.
pub(super) fn has_entries<B: BookId, G: Gate + Drop, R: Wait>(
    rt: &R,
    group: &RunningGroup<B, G>,
    count: u64,
) -> Result<bool, Refusal> {
    let Some(cell) = group.cells().lock(rt, actor(1)?) else {
        return Ok(false);
    };
    match cell.actor() {
        GroupActor::Server(server) => Ok(server.last().get() >= count),
        GroupActor::Client(_) => Ok(false),
    }
}

// Plan turns until the plan for the one job is appended. Nothing else is sent meanwhile, so that
// the plan finds room. Then rounds until the job is placed; whether it is.
fn place_one<B: BookId, G: Gate + Drop, R: Wait>(
    rt: &R,
    alloc: Global,
    group: &RunningGroup<B, G>,
) -> Result<bool, Refusal> {
    hand_all(rt, alloc, group, ONE_JOB)?;
    for _ in 0..LIMIT {
        hand(rt, alloc, group, "plan 1")?;
        if has_entries(rt, group, 5)? {
            return place(rt, alloc, group, "web");
        }
        wait();
    }
    Ok(false)
}

// Rounds of a crowd. Inputs that are refused, for want of what was lost, are passed over.
fn crowd<B: BookId, G: Gate + Drop, R: Wait>(
    rt: &R,
    alloc: Global,
    group: &RunningGroup<B, G>,
) -> Result<(), Refusal> {
    for _ in 0..CROWDS {
        for line in CROWD {
            if matches!(give(rt, alloc, group, line), Err(Refusal::NoMemory)) {
                return Err(Refusal::NoMemory);
            }
        }
        group.flow(rt, FLOW);
    }
    Ok(())
}

// What is wrong with the world to which a group closed, or with it after one of its events, as they
// are taken once more.
fn fault_of(alloc: Global, nodes: &[NodeSpec], world: &World) -> Result<Option<Fault>, Refusal> {
    let mut looks = Looks::new(alloc);
    let mut again = World::new(alloc, 3, nodes)?;
    let mut found = looks.look(alloc, &again)?;
    for event in world.trace() {
        again.step(event.try_clone(alloc)?)?;
        if found.is_none() {
            found = looks.look(alloc, &again)?;
        }
    }
    if found.is_none() {
        found = looks.look_back(alloc, world)?;
    }
    Ok(found)
}

// In a group on threads whose queues have room for one message: whether a job is placed, how many
// messages were lost, and what a plain look finds wrong in the end. Server 1 stands twice before
// anybody takes a message, so the second requests find no room; and later once more, where all that
// was kept has come.
fn crowded<B, R>(
    rt: R,
    alloc: Global,
    opened: OpenedBook<OwnInput>,
    nodes: Vec<NodeSpec>,
    same: &[NodeSpec],
) -> Result<(bool, u64, Option<Fault>), Refusal>
where
    B: BookId + Send + Sync + 'static,
    R: Threads + Wait + Copy + Send + 'static,
    requires book { opened ≡ (B.table, B.actors) }
    requires nodes { nodes.items ≡ B.nodes }
{
    let net = NetSettings { capacity: 1, ..NET };
    let group = Arc::new(alloc, group::<B, _>(alloc, opened, nodes, net, OpenGate)?)?;
    give(&rt, alloc, &group, "timeout 1")?;
    give(&rt, alloc, &group, "timeout 1")?;
    let threads = start(rt, alloc, &group, 1)?;
    group.flow(&rt, FLOW);
    let placed = place_one(&rt, alloc, &group);
    let crowded = crowd(&rt, alloc, &group);
    let lost = group.lost_messages();
    let world = closed(alloc, stop(&rt, group, threads))?;
    crowded?;
    Ok((placed?, lost, fault_of(alloc, same, &world)?))
}

#[test]
fn a_held_worker_holds_no_other(rt: HostRuntime) -> Result<(), Fail> {
    let book = opened(rt.alloc(), &[1, 2, 3], 2)?;
    let nodes = nodes(rt.alloc(), 2)?;
    let came = hold_a_worker::<Brand, _>(rt, rt.alloc(), book, nodes)?;
    assert!(rt; came == 4, "came to {came}");
    Ok(())
}

#[test]
fn a_held_cell_holds_no_other(rt: HostRuntime) -> Result<(), Fail> {
    let book = opened(rt.alloc(), &[1, 2, 3], 0)?;
    let nodes = nodes(rt.alloc(), 0)?;
    let (elected, events) = hold_a_cell::<Brand, _>(rt, rt.alloc(), book, nodes)?;
    assert!(rt; elected, "no leader");
    // Server 3 stands, both others vote, and it counts both votes.
    assert!(rt; events == 5, "events {events}");
    Ok(())
}

#[test]
fn a_net_loses_and_repeats_by_its_key(rt: HostRuntime) -> Result<(), Fail> {
    for row in ELECTIONS {
        let is_so = election(rt, rt.alloc(), row)?;
        let (key, lost, repeated, ..) = *row;
        assert!(rt; is_so, "key {key} drop {lost} repeat {repeated}");
    }
    Ok(())
}

#[test]
fn messages_without_room_are_counted(rt: HostRuntime) -> Result<(), Fail> {
    for row in OVERFLOWS {
        let is_so = overflows(&rt, rt.alloc(), row)?;
        let (capacity, lost, repeated, ..) = *row;
        assert!(rt; is_so, "capacity {capacity} drop {lost} repeat {repeated}");
    }
    Ok(())
}

#[test]
fn a_group_with_full_queues_is_sound(rt: HostRuntime) -> Result<(), Fail> {
    let book = opened(rt.alloc(), &[1, 2, 3], 2)?;
    let given = nodes(rt.alloc(), 2)?;
    let same = nodes(rt.alloc(), 2)?;
    let (placed, lost, fault) = crowded::<Brand, _>(rt, rt.alloc(), book, given, &same)?;
    assert!(rt; placed, "nothing is placed");
    assert!(rt; lost >= 2, "lost {lost}");
    assert!(rt; fault.is_none(), "{fault:?}");
    Ok(())
}
