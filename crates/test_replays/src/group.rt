//! Groups of servers and clients: what comes for the servers' workers, and that a group's own trace
//! leads to it again.
use crate::snapshots::copies;
use fsm_state::Cluster;
use group_inputs::Event;
use machine::Machine;
use rows::{
    Actor, AskedRequest, Delivery, EvalId, PlanResult, ServerId, Token, Work, WorkerResponse,
};
use server::Server;
use sim_scenario::reading::scenario;
use sim_scenario::scenario::Scenario;
use sim_scenario::step::{Step, read_step};
use std::alloc::Global;
use std::rt::Files;
use std::{fs, io};
use world::{Done, World};

// The one of which copies of a state are taken.
const COPIED: &str = "lists-and-reports";

const GROUPS: [&str; 10] = [
    "each-turn",
    "finish-of-another-token",
    "lines-of-workers",
    COPIED,
    "lost-and-placed-anew",
    "plan-survives-its-leader",
    "take-before-the-desk-is-open",
    "three-lapses",
    "token-of-an-old-leader",
    "two-plans-for-one-room",
];

fn say_lease(rt: &HostRuntime, eval: &EvalId, token: &Token) -> io::Result<()> {
    let (index, slot) = (eval.index.get(), eval.slot);
    let (term, serial) = (token.term.get(), token.serial.get());
    print!(rt; " {index}.{slot} {term}.{serial}")
}

fn say_delivery(rt: &HostRuntime, delivery: &Delivery) -> io::Result<()> {
    say_lease(rt, &delivery.eval, &delivery.token)?;
    println!(rt; " wait {}", delivery.wait)
}

fn say_outcome(rt: &HostRuntime, plan: &PlanResult) -> io::Result<()> {
    say_lease(rt, &plan.eval, &plan.token)?;
    print!(rt; " last {} placed {} refused", plan.last, plan.placed.get())?;
    for node in plan.refused.as_slice() {
        print!(rt; " {node}")?;
    }
    println!(rt;)
}

fn say_asked(rt: &HostRuntime, asked: &AskedRequest) -> io::Result<()> {
    match asked {
        AskedRequest::Take => print!(rt; " take")?,
        AskedRequest::Submit(eval, token) => {
            print!(rt; " submit")?;
            say_lease(rt, eval, token)?;
        }
        AskedRequest::Finish(eval, token) => {
            print!(rt; " finish")?;
            say_lease(rt, eval, token)?;
        }
        AskedRequest::Nack(eval, token) => {
            print!(rt; " nack")?;
            say_lease(rt, eval, token)?;
        }
    }
    println!(rt;)
}

fn say_work(rt: &HostRuntime, to: ServerId, work: &Work) -> io::Result<()> {
    print!(rt; "  to {to} from {}:", work.from)?;
    match &work.response {
        WorkerResponse::Delivered(None) => println!(rt; " none"),
        WorkerResponse::Delivered(Some(delivery)) => say_delivery(rt, delivery),
        WorkerResponse::PlanResult(plan) => say_outcome(rt, plan),
        WorkerResponse::Refused(asked, reason) => {
            print!(rt; " refused {}", reason.number())?;
            say_asked(rt, asked)
        }
    }
}

// Says what came for the workers of the server that took message k.
fn say_all(rt: &HostRuntime, world: &mut World, k: u64) -> io::Result<()> {
    let work = world.take_work();
    let Some(receiver) = world.receiver(k) else {
        return Ok(());
    };
    match receiver {
        Actor::Server(to) => {
            for response in work.as_slice() {
                say_work(rt, to, response)?;
            }
        }
        Actor::Client(_) => {}
    }
    Ok(())
}

// Message k comes.
fn come(rt: &HostRuntime, world: &mut World, k: u64) -> io::Result<bool> {
    let is_taken = matches!(world.step(Event::Deliver(k)), Ok(Done::Taken));
    say_all(rt, world, k)?;
    Ok(is_taken)
}

// All messages come that did not come before: those past the first `seen`.
fn flow(rt: &HostRuntime, world: &mut World, seen: &mut u64) -> io::Result<bool> {
    let mut is_taken = true;
    for _ in 0..100 {
        if world.sent().len() as u64 <= *seen {
            break;
        }
        *seen = seen.saturating_add(1);
        is_taken = come(rt, world, *seen)? && is_taken;
    }
    Ok(is_taken)
}

fn take(rt: &HostRuntime, world: &mut World, seen: &mut u64, step: Step) -> io::Result<bool> {
    match step {
        Step::Event(Event::Deliver(k)) => come(rt, world, k),
        Step::Event(event) => Ok(matches!(world.step(event), Ok(Done::Taken))),
        Step::Flow(_) => flow(rt, world, seen),
        Step::Work(_) => Ok(false),
    }
}

// Takes the step of a line.
fn take_line(rt: &HostRuntime, world: &mut World, seen: &mut u64, line: &str) -> io::Result<bool> {
    match read_step(rt.alloc(), line) {
        Ok(Some(step)) => take(rt, world, seen, step),
        _ => Ok(false),
    }
}

// Plays a scenario's steps, and says whether each was taken.
fn play(rt: &HostRuntime, world: &mut World, played: &Scenario) -> io::Result<bool> {
    let mut seen = 0;
    let mut is_taken = true;
    for line in &played.steps {
        is_taken = take_line(rt, world, &mut seen, line.as_str())? && is_taken;
    }
    Ok(is_taken)
}

// Whether two servers have the same term, log's end, and number of applied entries.
pub(crate) fn are_alike(one: &Server, other: &Server) -> bool {
    if one.term() != other.term() || one.last() != other.last() {
        return false;
    }
    one.applied() == other.applied()
}

// Whether two replicated states are the same, or neither is there.
pub(crate) fn are_same(alloc: Global, one: Option<&Cluster>, other: Option<&Cluster>) -> bool {
    let (Some(one), Some(other)) = (one, other) else {
        return one.is_none() && other.is_none();
    };
    let mut left = Vec::new(alloc);
    let mut right = Vec::new(alloc);
    one.save(&mut left).is_ok() && other.save(&mut right).is_ok() && left == right
}

// Whether a server is the same in two groups.
fn is_same_server(alloc: Global, world: &World, again: &World, id: ServerId) -> bool {
    match (world.server(id), again.server(id)) {
        (Some(one), Some(other)) => {
            are_alike(one, other) && are_same(alloc, one.state(), other.state())
        }
        _ => false,
    }
}

// Whether the servers of two groups are the same.
fn are_same_servers(alloc: Global, world: &World, again: &World, servers: usize) -> bool {
    for position in 0..servers {
        match ServerId::from_position(position) {
            Some(id) if is_same_server(alloc, world, again, id) => (),
            _ => return false,
        }
    }
    true
}

// Whether a group's own trace leads to it again.
fn replays(alloc: Global, world: &World, played: &Scenario) -> bool {
    let servers = usize::from(played.settings.servers);
    let Ok(again) = World::run(alloc, servers, &played.nodes, world.trace()) else {
        return false;
    };
    world.sent().len() == again.sent().len()
        && world.chain() == again.chain()
        && are_same_servers(alloc, world, &again, servers)
}

// The scenario `NAME.json`.
fn scenario_of(rt: &HostRuntime, name: &str) -> io::Result<Option<Scenario>> {
    let file = format!(in rt.alloc(); "{name}.json")?;
    let text = fs::read_to_string(rt, &file)?;
    Ok(scenario(rt.alloc(), &text).ok())
}

// Plays a scenario in its group.
fn play_in(rt: &HostRuntime, world: &mut World, name: &str, played: &Scenario) -> io::Result<()> {
    let is_taken = play(rt, world, played)?;
    let is_same = replays(rt.alloc(), world, played);
    println!(rt; "  {is_taken} {is_same} {}", world.chain())?;
    if name == COPIED {
        copies(rt, world, played)?;
    }
    Ok(())
}

// Plays the scenario `NAME.json`, which has no worker's turn.
fn group(rt: &HostRuntime, name: &str) -> io::Result<()> {
    let Some(played) = scenario_of(rt, name)? else {
        return Ok(());
    };
    println!(rt; "{name}")?;
    let servers = usize::from(played.settings.servers);
    match World::new(rt.alloc(), servers, &played.nodes) {
        Ok(mut world) => play_in(rt, &mut world, name, &played),
        Err(_) => Ok(()),
    }
}

/// Plays scenarios step by step, and says what comes for workers, whether each step was taken,
/// whether the group's own trace leads to it again, and how many entries were applied.
pub(crate) fn groups(rt: &HostRuntime) -> io::Result<()> {
    for name in GROUPS {
        group(rt, name)?;
    }
    Ok(())
}
