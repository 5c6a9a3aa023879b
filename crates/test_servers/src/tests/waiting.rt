//! What waits for the workers of a server in a group on threads: that a crash drops it, and how
//! often they are called. The turns are counted by hand, from Raft's elections.
ghost use Rattle.std.specs.Prelude.{◌≡◌};

use super::held_cells::{nodes, opened};
use super::running::{
    HoldingGate, NET, ROUND, TWO_JOBS, closed, closed_gate, group, hand, hand_all, has_entries,
    is_held, wait,
};
use cluster::{OpenGate, OwnInput, RunningGroup, start, stop};
use event_book::{BookId, OpenedBook};
use group_inputs::{Event, ServerInput};
use rows::{NodeSpec, Refusal, ServerId};
use std::alloc::Global;
use std::marker::Brand;
use std::sync::atomic::Ordering;
use std::sync::{Arc, Wait};
use std::test::*;
use std::thread::Threads;
use world::World;

/// How many rounds are waited for anything.
const ROUNDS: u32 = 2_000;

/// The second evaluation comes to server 2, which crashes and starts again.
const CRASH: &[&str] = &["take 2 1", "crash 2", "restart 2"];

/// How many entries there are once the work on one of two jobs is done: those of the election, of two
/// nodes and of two jobs, the plan, and the end of the evaluation.
const ONE_DONE: u64 = 7;

/// A line that is handed to a group without workers; and how often it had the workers of each server
/// called. A turn calls its server's once, and once more where something waits for them after it.
type Call = (&'static str, [u64; 3]);

const CALLS: &[Call] = &[
    // Server 3 does not lead. That it refuses waits for the workers of server 2.
    ("take 2 3", [0, 3, 1]),
    // Server 2 stands, and hears two votes.
    ("timeout 2", [1, 6, 1]),
    // Nothing waits any more.
    ("crash 2", [0, 1, 0]),
    ("restart 2", [0, 1, 0]),
    // Server 3 stands, and hears both others.
    ("timeout 3", [1, 1, 3]),
];

// Rounds until the log of server 1 has so many entries; whether it has.
fn reach<B: BookId, R: Wait>(
    rt: &R,
    alloc: Global,
    group: &RunningGroup<B, HoldingGate>,
    count: u64,
) -> Result<bool, Refusal> {
    for _ in 0..ROUNDS {
        hand_all(rt, alloc, group, ROUND)?;
        if has_entries(rt, group, count)? {
            return Ok(true);
        }
        wait();
    }
    Ok(false)
}

// The worker of server 2 is held with the first evaluation when its server crashes. Whether it was,
// and did the work on that once the gate was open.
fn crash_with_work<B: BookId, R: Wait>(
    rt: &R,
    alloc: Global,
    group: &RunningGroup<B, HoldingGate>,
) -> Result<bool, Refusal> {
    hand_all(rt, alloc, group, TWO_JOBS)?;
    hand(rt, alloc, group, "take 2 1")?;
    if !is_held(group.gate()) {
        return Ok(false);
    }
    hand_all(rt, alloc, group, CRASH)?;
    group.gate().open.store(true, Ordering::SeqCst);
    reach(rt, alloc, group, ONE_DONE)
}

fn is_plan(event: &Event) -> bool {
    match event {
        Event::Server(_, input) => matches!(input.as_ref(), ServerInput::Submit(_, _)),
        Event::Client(_, _) | Event::Deliver(_) => false,
    }
}

// How many plans were submitted.
fn plans_of(world: &World) -> u64 {
    let mut plans: u64 = 0;
    for event in world.trace() {
        if is_plan(event) {
            plans = plans.saturating_add(1);
        }
    }
    plans
}

// Whether the work on one of two jobs was done, and how many plans were submitted, where the other
// waited for a worker of a server that crashed.
fn crash_a_server<B, R>(
    rt: R,
    alloc: Global,
    opened: OpenedBook<OwnInput>,
    nodes: Vec<NodeSpec>,
) -> Result<(bool, u64), Refusal>
where
    B: BookId + Send + Sync + 'static,
    R: Threads + Wait + Copy + Send + 'static,
    requires book { opened ≡ (B.table, B.actors) }
    requires nodes { nodes.items ≡ B.nodes }
{
    let group = group::<B, _>(alloc, opened, nodes, NET, closed_gate())?;
    let group = Arc::new(alloc, group)?;
    let threads = start(rt, alloc, &group, 1)?;
    let done = crash_with_work(&rt, alloc, &group);
    group.gate().open.store(true, Ordering::SeqCst);
    let world = closed(alloc, stop(&rt, group, threads))?;
    Ok((done?, plans_of(&world)))
}

// How often the workers of each server were called.
fn calls_of<B: BookId>(group: &RunningGroup<B, OpenGate>) -> Result<[u64; 3], Refusal> {
    let mut calls = [0; 3];
    for (place, count) in calls.iter_mut().enumerate() {
        let server = ServerId::from_position(place).ok_or(Refusal::OutOfRange)?;
        *count = group.worker_calls(server);
    }
    Ok(calls)
}

// Whether a line has the workers called so often.
fn is_called<B: BookId, R: Wait>(
    rt: &R,
    alloc: Global,
    group: &RunningGroup<B, OpenGate>,
    row: &Call,
) -> Result<bool, Refusal> {
    let (line, more) = *row;
    let [one, two, three] = calls_of(group)?;
    hand(rt, alloc, group, line)?;
    let [first, second, third] = calls_of(group)?;
    let found = [
        first.wrapping_sub(one),
        second.wrapping_sub(two),
        third.wrapping_sub(three),
    ];
    Ok(found == more)
}

// The first line that has not the workers called so often as its row says; none where each has.
fn miscalled<B: BookId, R: Wait>(
    rt: &R,
    alloc: Global,
    group: &RunningGroup<B, OpenGate>,
) -> Result<Option<&'static str>, Refusal> {
    for row in CALLS {
        if !is_called(rt, alloc, group, row)? {
            return Ok(Some(row.0));
        }
    }
    Ok(None)
}

// That line of a group that has threads for its actors alone.
fn call<B, R>(
    rt: R,
    alloc: Global,
    opened: OpenedBook<OwnInput>,
    nodes: Vec<NodeSpec>,
) -> Result<Option<&'static str>, Refusal>
where
    B: BookId + Send + Sync + 'static,
    R: Threads + Wait + Copy + Send + 'static,
    requires book { opened ≡ (B.table, B.actors) }
    requires nodes { nodes.items ≡ B.nodes }
{
    let group = Arc::new(alloc, group::<B, _>(alloc, opened, nodes, NET, OpenGate)?)?;
    let threads = start(rt, alloc, &group, 0)?;
    let line = miscalled(&rt, alloc, &group);
    let _stopped = stop(&rt, group, threads);
    line
}

#[test]
fn a_crash_drops_what_waits(rt: HostRuntime) -> Result<(), Fail> {
    let book = opened(rt.alloc(), &[1, 2, 3], 2)?;
    let nodes = nodes(rt.alloc(), 2)?;
    let (done, plans) = crash_a_server::<Brand, _>(rt, rt.alloc(), book, nodes)?;
    assert!(rt; done, "the work in hand is not done");
    // The second evaluation would be planned for before the first one's plan is answered.
    assert!(rt; plans == 1, "plans {plans}");
    Ok(())
}

#[test]
fn each_turn_calls_workers(rt: HostRuntime) -> Result<(), Fail> {
    let book = opened(rt.alloc(), &[1, 2, 3], 0)?;
    let nodes = nodes(rt.alloc(), 0)?;
    let line = call::<Brand, _>(rt, rt.alloc(), book, nodes)?;
    assert!(rt; line.is_none(), "at {}", line.unwrap_or(""));
    Ok(())
}
