//! A scenario's group, with its messages in flight and its workers; and its steps, one at a time.
ghost use Rattle.std.specs.Prelude.{◌≡◌, ◌≢◌, IfErr, IfNone, IfOk, IfSome, MatchBool, OnOk, []};
ghost use Rattle.rows.specs.declared.refusal.Refusal.TheVariants as refusals;
ghost use Rattle.group_inputs.specs.Events.{group_event};
ghost use Rattle.world.specs.GroupSteps.{WhyNoGroup};
ghost use Rattle.sim_play.specs.Flows.{Flowed, MessagePassed, MessageTaken};
ghost use Rattle.sim_play.specs.PlayEvents.{EventRefused, EventTaken, Handed};
ghost use Rattle.sim_play.specs.PlayEvents.{IsDownIn, IsUpIn, fetched, out_of_memory_after, server_of};
ghost use Rattle.sim_play.specs.PlaySteps.{StepRefused, StepTaken};
ghost use Rattle.sim_play.specs.PlayWork.{IsAsked, WorkRefused, WorkTaken, input_of};
ghost use Rattle.sim_play.specs.Plays.{IsNewPlay};

use crate::flight::Flight;
use crate::stage::Stage;
use group_inputs::{Event, ServerInput};
use lossy_net::{Fates, MessageFate, fate};
use rows::{Actor, NoMemory, NodeSpec, Refusal, ServerId};
use sim_scenario::scenario::{Order, Settings};
use sim_scenario::step::Step;
use std::alloc::Global;
use workers::{Handled, ServerWorkers};
use world::{Done, World};

/// How many messages a `flow` without a number takes at most.
pub const FLOW: u64 = 10_000;

/// A group, its messages in flight, what becomes of them, and its workers.
#[derive(Drop)]
pub struct Play {
    /// Where memory is taken from.
    pub alloc: Global,
    /// The group.
    pub world: World,
    /// The messages that a flow takes.
    pub flight: Flight,
    /// The workers of each server, by the places of their servers.
    pub workers: [ServerWorkers; 5],
    /// What is drawn by lot.
    pub fates: Fates,
    /// Which message in flight a flow takes next.
    pub order: Order,
    /// How many of a hundred messages are lost, 0 to 100.
    pub drop: u8,
    /// How many of a hundred messages come again, 0 to 100.
    pub repeat: u8,
    /// Whether an actor found no memory for an event: it crashed, or did not start again.
    pub lacked: bool,
}

// The server that takes an event.
fn server_of(world: &World, event: &Event) -> Option<ServerId>
    ensures { result ≡ server_of world.now (group_event event.now) }
{
    match event {
        Event::Deliver(message) => match world.receiver(*message)? {
            Actor::Server(server) => Some(server),
            Actor::Client(_) => None,
        },
        Event::Server(server, _) => Some(*server),
        Event::Client(_, _) => None,
    }
}

fn is_up(world: &World, server: ServerId) -> bool
    ensures { MatchBool result (IsUpIn world.now server) (IsDownIn world.now server) }
{
    match world.server(server) {
        Some(server) => server.applied().is_some(),
        None => false,
    }
}

// Whether an actor lacked memory, with what came of one event more.
fn out_of_memory_after(lacked: bool, done: Done) -> bool
    ensures { result ≡ out_of_memory_after lacked done }
{
    match done {
        Done::Taken => lacked,
        Done::Crashed => true,
    }
}

// The input by which what a worker asks is sent; none where it asks for nothing.
fn input_of(made: Handled) -> Option<ServerInput>
    ensures { result ≡ input_of made }
{
    match made {
        Handled::Asks(input) => Some(input),
        Handled::Waits | Handled::Dropped => None,
    }
}

// A worker of a server takes up the oldest answer that came for it, and goes on by the server's
// state: what it asks, if anything. Nothing is taken up where the server is down, or nothing came.
fn asked(
    alloc: Global,
    world: &World,
    server: ServerId,
    workers: &mut ServerWorkers,
) -> Result<Option<ServerInput>, NoMemory>
    ensures { IfOk result (λ asked. IsAsked world.now server workers.old asked workers.new) }
{
    let Some(member) = world.server(server) else {
        return Ok(None);
    };
    let Some(state) = member.state() else {
        return Ok(None);
    };
    let Some(applied) = member.applied() else {
        return Ok(None);
    };
    let Some(taken) = workers.take() else {
        return Ok(None);
    };
    let step = taken.next(alloc, state, applied)?;
    Ok(input_of(workers.go_on(taken, step)?))
}

impl Play {
    /// The group of a scenario of these settings and these nodes, before its first step. Refused as
    /// `World::new` refuses it: with 12 where no group has so many servers or nodes, with 1 where
    /// there is no memory.
    pub fn new(alloc: Global, settings: Settings, nodes: &[NodeSpec]) -> Result<Play, Refusal>
        ensures ok { IfOk result (IsNewPlay settings nodes.now) }
        ensures refused { IfErr result (WhyNoGroup settings.servers nodes.now) }
    {
        let servers = usize::from(settings.servers);
        Ok(Play {
            alloc,
            world: World::new(alloc, servers, nodes)?,
            flight: Flight::new(alloc, settings.order),
            workers: [
                ServerWorkers::new(alloc),
                ServerWorkers::new(alloc),
                ServerWorkers::new(alloc),
                ServerWorkers::new(alloc),
                ServerWorkers::new(alloc),
            ],
            fates: Fates::new(settings.key),
            order: settings.order,
            drop: settings.drop,
            repeat: settings.repeat,
            lacked: false,
        })
    }

    // An event of the group. What came by it goes to the workers of the server that took it, and
    // what was sent by it is in flight.
    #[inline(always)]
    fn event(&mut self, event: Event) -> Result<(), Refusal>
        ensures taken { OnOk result (EventTaken self.old (group_event event) self.new) }
        ensures refused { IfErr result (λ refusal. refusal ≢ refusals.NoMemory
            → EventRefused self.old (group_event event) refusal self.new) }
    {
        let server = server_of(&self.world, &event);
        self.lacked = out_of_memory_after(self.lacked, self.world.step(event)?);
        if let Some(server) = server {
            self.hand(server)?;
        }
        self.flight.add_sent(self.world.sent().len() as u64)?;
        Ok(())
    }

    // Hands a server's workers what came for them. Where the server is down, also for want of
    // memory, they have nothing any more.
    #[inline(always)]
    fn hand(&mut self, server: ServerId) -> Result<(), NoMemory>
        ensures handed { OnOk result
            (Handed self.old.world server self.old.workers self.new.workers) }
        ensures rest { OnOk result (self.new ≡ record self.old {
          world = fetched self.old.world;
          workers = self.new.workers;
        }) }
    {
        if !is_up(&self.world, server) {
            self.workers[server.position()].forget();
            let _lost = self.world.take_work();
            return Ok(());
        }
        if !self.world.has_work() {
            return Ok(());
        }
        let work = self.world.take_work();
        let workers = &mut self.workers[server.position()];
        workers.enqueue(work)
    }

    // A worker of a server takes up the oldest answer that came for it, and its server sends what
    // it asks. A server that is down has no worker.
    fn work(&mut self, server: ServerId) -> Result<(), Refusal>
        ensures taken { OnOk result (WorkTaken self.old server self.new) }
        ensures refused { IfErr result (λ refusal. refusal ≢ refusals.NoMemory
            → WorkRefused self.old server refusal self.new) }
    {
        let own = &mut self.workers[server.position()];
        let Some(input) = asked(self.alloc, &self.world, server, own)? else {
            return Ok(());
        };
        let event = Event::server(self.alloc, server, input)?;
        self.event(event)
    }

    // A flow takes messages one after the other, as many as this, or until none is in flight.
    fn flow(&mut self, count: u64) -> Result<(), NoMemory>
        ensures { OnOk result (Flowed count self.old self.new) }
    {
        for _ in 0..count {
            let Some(message) = self.take_message() else {
                return Ok(());
            };
            self.pass(message)?;
        }
        Ok(())
    }

    /// Takes the message in flight that comes next out of flight. By lot it is the one at the place
    /// that a word gives; where nothing is in flight no word is drawn.
    pub fn take_message(&mut self) -> Option<u64>
        ensures some { IfSome result (λ message. MessageTaken self.old message self.new) }
        ensures none { IfNone result (self.old.flight.waiting ≡ []) }
        ensures left { IfNone result (self.new ≡ self.old) }
    {
        match self.order {
            Order::Sent => self.flight.take(),
            Order::Any => {
                let many = self.flight.len();
                if many == 0 {
                    return None;
                }
                let word = u64::from(self.fates.next());
                self.flight.take_at((word % many as u64) as usize)
            }
        }
    }

    // A word says what becomes of a message that was taken: it is lost, or it comes, and may be put
    // in flight again then. One to an actor that is down is lost, whatever the word says.
    fn pass(&mut self, message: u64) -> Result<(), NoMemory>
        ensures { OnOk result (MessagePassed self.old message self.new) }
    {
        let fate = fate(self.fates.next(), self.drop, self.repeat);
        if fate == MessageFate::Lose {
            return Ok(());
        }
        match self.event(Event::Deliver(message)) {
            Ok(()) if fate == MessageFate::Repeat => self.flight.put_again(message),
            Err(Refusal::NoMemory) => Err(NoMemory),
            Ok(()) | Err(_) => Ok(()),
        }
    }
}

impl Stage for Play {
    ghost Takes = { StepTaken };

    ghost Refuses = { StepRefused };

    fn take(&mut self, step: Step) -> Result<(), Refusal> {
        match step {
            Step::Event(event) => self.event(event),
            Step::Work(server) => self.work(server),
            Step::Flow(count) => Ok(self.flow(count.unwrap_or(FLOW))?),
        }
    }
}
