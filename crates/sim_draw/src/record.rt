//! What is noted of a run while it is played again: of each event its actor, before and after it,
//! and of each message who sent it when, and how often it came.
ghost use Rattle.std.specs.Prelude.{◌≡◌, ◌+◌, ◌++◌, [], Some, is_none, ◌&&◌, length, map, drop, slice_get, OnOk, IfOk, IfNone, IfSome};
ghost use Rattle.std.specs.List.{count_by};
ghost use Rattle.std.specs.Option.{unwrap_or};
ghost use Rattle.sim_draw.specs.Inner.Actors.{actor_in, server_face, client_face, face_in, IsNextInTrace, RefusedAs};
ghost use Rattle.sim_draw.specs.Inner.Records.{lifeline_of, column_within, delivered_place, message_in, arrived, had_come, taken_message, as_sent, receiver_line, is_lost, TakesRow, KeepsActors};
ghost use Rattle.sim_draw.specs.Inner.Positions.{capped};

use client_agent::Agent;
use group_inputs::Event;
use raft_core::Role;
use rows::{Actor, NoMemory, Refusal};
use server::Server;
use std::alloc::Global;
use wire::Frames;
use world::{Done, World};

/// An actor, as far as it is drawn. A client is in term 0 and has nothing applied.
#[derive(Clone, Copy)]
pub(crate) struct Face {
    /// Whether it is up.
    pub up: bool,
    /// Whether it leads its term.
    pub leads: bool,
    /// Its term.
    pub term: u64,
    /// How many entries it has applied; 0 while it is down.
    pub applied: u64,
}

impl Face {
    /// Before the first event.
    pub(crate) const NEW: Face = Face {
        up: true,
        leads: false,
        term: 0,
        applied: 0,
    };

    /// What is not there.
    const NONE: Face = Face {
        up: false,
        leads: false,
        term: 0,
        applied: 0,
    };

    fn of_server(server: &Server) -> Face
        ensures { result ≡ server_face server.now }
    {
        let term = server.term().get();
        let (Some(role), Some(applied)) = (server.role(), server.applied()) else {
            return Face { term, ..Face::NONE };
        };
        Face {
            up: true,
            leads: role == Role::Leader,
            term,
            applied: applied.get(),
        }
    }

    fn of_client(client: &Agent) -> Face
        ensures { result ≡ client_face client.now }
    {
        if client.is_up() {
            Face::NEW
        } else {
            Face::NONE
        }
    }

    fn of(world: &World, actor: Option<Actor>) -> Face
        ensures { result ≡ face_in world.now actor }
    {
        match actor {
            Some(actor) => Face::of_actor(world, actor),
            None => Face::NONE,
        }
    }

    fn of_actor(world: &World, actor: Actor) -> Face
        ensures { result ≡ face_in world.now (Some actor) }
    {
        match actor {
            Actor::Server(id) => match world.server(id) {
                Some(server) => Face::of_server(server),
                None => Face::NONE,
            },
            Actor::Client(id) => match world.client(id) {
                Some(client) => Face::of_client(client),
                None => Face::NONE,
            },
        }
    }
}

/// One event.
#[derive(Clone, Copy)]
pub(crate) struct Step {
    /// The lifeline of its actor, from 0; none where the group has no such actor.
    pub column: Option<usize>,
    /// The place of the message that came, among all that were sent; none of an actor's own input.
    pub message: Option<usize>,
    /// Whether that message had come before.
    pub again: bool,
    /// The number of the refusal; none where the event happened.
    pub refusal: Option<u8>,
    /// Its actor before it.
    pub before: Face,
    /// Its actor after it.
    pub after: Face,
}

/// One message.
#[derive(Clone, Copy)]
pub(crate) struct Sending {
    /// The event in which it was sent, from 0.
    pub row: usize,
    /// The lifeline of its sender.
    pub from: usize,
    /// The lifeline of its receiver.
    pub to: usize,
    /// Whether it came.
    pub came: bool,
}

/// What is noted of a run. It takes memory in proportion to its events and messages.
#[derive(Drop)]
pub(crate) struct Record {
    /// How many servers there are.
    pub servers: usize,
    /// How many clients there are.
    pub clients: usize,
    /// The events, in order.
    pub steps: Vec<Step>,
    /// The messages, in the order in which they were sent.
    pub sendings: Vec<Sending>,
}

impl Record {
    /// Before the first event.
    pub(crate) fn new(alloc: Global, servers: usize, clients: usize) -> Record
        ensures steps { result.steps.items ≡ [] }
        ensures sendings { result.sendings.items ≡ [] }
        ensures servers { result.servers ≡ servers }
        ensures clients { result.clients ≡ clients }
    {
        Record {
            servers,
            clients,
            steps: Vec::new(alloc),
            sendings: Vec::new(alloc),
        }
    }

    /// Notes these events of a group. Each has its row.
    pub(crate) fn take_all(
        &mut self,
        alloc: Global,
        world: &mut World,
        events: &[Event],
    ) -> Result<(), NoMemory>
        requires { self.old.steps.items ≡ [] }
        ensures rows { OnOk result (length self.new.steps.items ≡ length events.now) }
        // Of each event the message that it delivers.
        ensures messages { OnOk result (map message_in self.new.steps.items
            ≡ map delivered_place events.now) }
        ensures actors { KeepsActors self.old self.new }
    {
        for event in events {
            self.take(world, event.try_clone(alloc)?)?;
        }
        Ok(())
    }

    /// How many lifelines there are: the servers' first, then the clients'.
    pub(crate) fn columns(&self) -> usize
        ensures { result ≡ capped (self.now.servers + self.now.clients) }
    {
        self.servers.saturating_add(self.clients)
    }

    /// How many messages never came.
    pub(crate) fn lost(&self) -> usize
        ensures { result ≡ count_by is_lost self.now.sendings.items }
    {
        let mut lost = 0;
        for sending in &self.sendings {
            if !sending.came {
                lost += 1;
            }
        }
        lost
    }

    /// Notes an event, which the group takes or refuses.
    fn take(&mut self, world: &mut World, event: Event) -> Result<(), NoMemory>
        ensures noted { OnOk result (TakesRow self.old self.new world.old event world.new) }
        ensures actors { KeepsActors self.old self.new }
    {
        let message = message_of(&event);
        let actor = actor_of(world, &event);
        let before = Face::of(world, actor);
        let refusal = refusal_of(world, event)?;
        let column = self.column_of(&actor);
        let again = self.take_in(refusal, message);
        let after = Face::of(world, actor);
        let sent = world.sent();
        self.note_sent(sent, column)?;
        self.steps.push(Step {
            column,
            message,
            again,
            refusal,
            before,
            after,
        })?;
        Ok(())
    }

    // The lifeline of an actor.
    fn column_of(&self, actor: &Option<Actor>) -> Option<usize>
        ensures { result ≡ lifeline_of self.now.servers self.now.clients actor.now }
    {
        match actor {
            None => None,
            Some(Actor::Server(id)) => within(id.position(), self.servers),
            Some(Actor::Client(id)) => {
                let behind = usize::from(id.number()) - 1;
                within(self.servers.saturating_add(behind), self.columns())
            }
        }
    }

    // A message came, if its event was not refused: whether it had come before.
    fn take_in(&mut self, refusal: Option<u8>, message: Option<usize>) -> bool
        ensures steps { self.new.steps.items ≡ self.old.steps.items }
        ensures sendings { self.new.sendings.items
            ≡ taken_message refusal message self.old.sendings.items }
        ensures again { result ≡ (is_none refusal && had_come message self.old.sendings.items) }
        ensures actors { KeepsActors self.old self.new }
    {
        if refusal.is_some() {
            return false;
        }
        self.arrive(message)
    }

    // A message came: whether it had come before.
    fn arrive(&mut self, message: Option<usize>) -> bool
        ensures steps { self.new.steps.items ≡ self.old.steps.items }
        ensures sendings { self.new.sendings.items ≡ arrived message self.old.sendings.items }
        ensures again { result ≡ had_come message self.old.sendings.items }
        ensures actors { KeepsActors self.old self.new }
    {
        let Some(place) = message else {
            return false;
        };
        let Some(sending) = self.sendings.get_mut(place) else {
            return false;
        };
        let again = sending.came;
        sending.came = true;
        again
    }

    // Notes what the event that comes next in the list sent, by the actor of this lifeline.
    fn note_sent(&mut self, sent: &Frames, from: Option<usize>) -> Result<(), NoMemory>
        ensures steps { self.new.steps.items ≡ self.old.steps.items }
        // Each at the row of the event, from its actor's lifeline to that of its receiver.
        ensures sendings { OnOk result (self.new.sendings.items ≡ self.old.sendings.items
            ++ map (as_sent self.old (unwrap_or from 0))
            (drop (length self.old.sendings.items) sent.now)) }
        ensures actors { KeepsActors self.old self.new }
    {
        let row = self.steps.len();
        let from = from.unwrap_or(0);
        for place in self.sendings.len()..sent.len() {
            let to = self.receiver_of(sent, place).unwrap_or(from);
            let came = false;
            self.sendings.push(Sending {
                row,
                from,
                to,
                came,
            })?;
        }
        Ok(())
    }

    // The lifeline of the receiver of the message at a place, from 0.
    fn receiver_of(&self, sent: &Frames, place: usize) -> Option<usize>
        ensures { result ≡ receiver_line self.now (slice_get sent.now place) }
    {
        let frame = sent.get(place)?;
        let to = Some(frame.to());
        self.column_of(&to)
    }
}

// A lifeline, if it is one of so many.
fn within(column: usize, end: usize) -> Option<usize>
    ensures { result ≡ column_within column end }
{
    if column < end { Some(column) } else { None }
}

// The place of the message that an event delivers, from 0.
fn message_of(event: &Event) -> Option<usize>
    ensures { result ≡ delivered_place event.now }
{
    match event {
        Event::Deliver(number) if *number > 0 => Some((*number - 1) as usize),
        _ => None,
    }
}

// Who takes an event.
fn actor_of(world: &World, event: &Event) -> Option<Actor>
    ensures { result ≡ actor_in world.now.outbox.frames event.now }
{
    match event {
        Event::Deliver(number) => world.receiver(*number),
        Event::Server(id, _) => Some(Actor::Server(*id)),
        Event::Client(id, _) => Some(Actor::Client(*id)),
    }
}

// The number of the refusal of an event. A crash for want of memory is none of the run that is to
// be drawn.
fn refusal_of(world: &mut World, event: Event) -> Result<Option<u8>, NoMemory>
    ensures taken { IfOk result (λ refusal. IfNone refusal
        (IsNextInTrace world.old event world.new)) }
    ensures refused { IfOk result (λ refusal. IfSome refusal
        (λ number. RefusedAs world.old event number world.new)) }
{
    let done = world.step(event);
    let _work = world.take_work();
    match done {
        Ok(Done::Taken) => Ok(None),
        Ok(Done::Crashed) => Err(NoMemory),
        Err(refusal) if refusal == Refusal::NoMemory => Err(NoMemory),
        Err(refusal) => Ok(Some(refusal.number())),
    }
}
