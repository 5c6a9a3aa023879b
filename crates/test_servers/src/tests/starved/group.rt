//! The row's events come to a group, one by one, and each answer is judged.
use super::row::{Next, TRIES, is_restart, restart};
use super::shown::{are_same_frames, shown_group};
use super::stop::{Stop, unmade};
use group_inputs::{ClientInput, Event, ServerInput};
use rows::{Actor, Refusal};
use std::alloc::Global;
use test_oracle::Looks;
use transcript::Transcript;
use world::{Done, World};

// A group of the row's servers and nodes, and what was seen of it so far.
#[derive(Drop)]
struct Group<'a> {
    alloc: Global,
    row: &'a Transcript,
    world: World,
    looks: Looks,
}

// How much a group keeps.
#[derive(Clone, Copy, PartialEq, Eq)]
struct Kept {
    events: usize,
    messages: usize,
}

fn holding(world: &World) -> Kept {
    Kept {
        events: world.trace().len(),
        messages: world.sent().len(),
    }
}

fn is_crash(event: &Event) -> bool {
    match event {
        Event::Deliver(_) => false,
        Event::Server(_, input) => matches!(input.as_ref(), ServerInput::Crash),
        Event::Client(_, input) => matches!(input.as_ref(), ClientInput::Crash),
    }
}

// The actor that takes an event; none where it is a message that was not sent.
fn actor_of(world: &World, event: &Event) -> Option<Actor> {
    match event {
        Event::Deliver(k) => world.receiver(*k),
        Event::Server(me, _) => Some(Actor::Server(*me)),
        Event::Client(me, _) => Some(Actor::Client(*me)),
    }
}

// Whether an event that was kept is this one, as far as its actor, its message and whether it is a
// crash or a restart tell; what it does besides, the run of all that was kept tells.
fn is_it(found: &Event, event: &Event) -> bool {
    if is_crash(found) != is_crash(event) || is_restart(found) != is_restart(event) {
        return false;
    }
    match (found, event) {
        (Event::Deliver(one), Event::Deliver(other)) => one == other,
        (Event::Server(one, _), Event::Server(other, _)) => one == other,
        (Event::Client(one, _), Event::Client(other, _)) => one == other,
        _ => false,
    }
}

fn is_up(world: &World, actor: &Actor) -> bool {
    match actor {
        Actor::Server(me) => match world.server(*me) {
            Some(server) => server.role().is_some(),
            None => false,
        },
        Actor::Client(me) => match world.client(*me) {
            Some(client) => client.is_up(),
            None => false,
        },
    }
}

// A group refuses an event for this reason.
fn refuses(world: &mut World, event: Event, refusal: Refusal) -> Result<Next, Stop> {
    match world.step(event) {
        Err(other) if other == refusal => Ok(Next::On),
        Err(Refusal::NoMemory) | Ok(Done::Crashed) => Err(Stop::NoMemory),
        _ => Err(Stop::Refusal),
    }
}

impl Group<'_> {
    // The group to which all that was kept leads from its beginning, which is as this one is.
    fn led(&self) -> Result<World, Stop> {
        let trace = self.world.trace();
        let again = match World::run(self.alloc, self.row.servers, &self.row.nodes, trace) {
            Ok(again) => again,
            Err(refusal) => return Err(unmade(refusal)),
        };
        let is_same = holding(&again) == holding(&self.world)
            && again.chain() == self.world.chain()
            && are_same_frames(again.sent(), self.world.sent());
        if !is_same || shown_group(self.alloc, &again)? != shown_group(self.alloc, &self.world)? {
            return Err(Stop::Elsewhere);
        }
        Ok(again)
    }

    // That group; once more where it is not as this one is, since a run that finds no memory leads
    // elsewhere.
    fn anew(&self) -> Result<World, Stop> {
        for _ in 0..TRIES {
            if let Ok(again) = self.led() {
                return Ok(again);
            }
        }
        self.led()
    }

    // An event was taken: it is the one that is kept more.
    fn taken(&self, was: Kept, event: &Event) -> Result<Next, Stop> {
        if self.world.trace().len() != was.events.saturating_add(1) {
            return Err(Stop::Unkept);
        }
        match self.world.trace().last() {
            Some(found) if is_it(found, event) => Ok(Next::On),
            _ => Err(Stop::Unkept),
        }
    }

    // Whether an actor's crash is the one event that is kept more.
    fn keeps_crash(&self, was: Kept, actor: &Actor) -> bool {
        if self.world.trace().len() != was.events.saturating_add(1) {
            return false;
        }
        match self.world.trace().last() {
            Some(last) if is_crash(last) => match actor_of(&self.world, last) {
                Some(found) => found == *actor,
                None => false,
            },
            _ => false,
        }
    }

    // The event's actor crashed: its crash is the one event that is kept more, and it sent nothing.
    // Where it was to restart, nothing changed.
    fn crashed(&self, was: Kept, event: &Event) -> Result<Next, Stop> {
        let Some(actor) = actor_of(&self.world, event) else {
            return Err(Stop::Unkept);
        };
        if is_up(&self.world, &actor) {
            return Err(Stop::Up);
        }
        if self.world.sent().len() != was.messages {
            return Err(Stop::Changed);
        }
        let is_kept = if is_restart(event) {
            self.world.trace().len() == was.events
        } else {
            self.keeps_crash(was, &actor)
        };
        if !is_kept {
            return Err(Stop::Unkept);
        }
        let _again = self.anew()?;
        Ok(Next::Restart(actor))
    }

    // The event was refused: nothing changed. The same group, made anew, refuses it too, and for
    // the same reason, where that is not want of memory.
    fn refused(&self, was: Kept, event: &Event, refusal: Refusal) -> Result<Next, Stop> {
        if holding(&self.world) != was {
            return Err(Stop::Changed);
        }
        let mut again = self.anew()?;
        match refusal {
            Refusal::NoMemory => Ok(self.once_more(event)),
            _ => refuses(&mut again, event.try_clone(self.alloc)?, refusal),
        }
    }

    // What is done when an event found no memory.
    fn once_more(&self, event: &Event) -> Next {
        match actor_of(&self.world, event) {
            Some(actor) if is_restart(event) => Next::Restart(actor),
            _ => Next::Again,
        }
    }

    // An event comes, and the answer is judged.
    fn come(&mut self, event: &Event) -> Result<Next, Stop> {
        let was = holding(&self.world);
        match self.world.step(event.try_clone(self.alloc)?) {
            Ok(Done::Taken) => self.taken(was, event),
            Ok(Done::Crashed) => self.crashed(was, event),
            Err(refusal) => self.refused(was, event, refusal),
        }
    }

    // An event comes, once more where it finds no memory; an actor that goes down for that restarts.
    fn settle(&mut self, event: &Event) -> Result<(), Stop> {
        let mut next = self.come(event)?;
        for _ in 0..TRIES {
            next = match next {
                Next::On => return Ok(()),
                Next::Again => self.come(event)?,
                Next::Restart(actor) => self.revive(&actor)?,
            };
        }
        Ok(())
    }

    // An actor starts again.
    fn revive(&mut self, actor: &Actor) -> Result<Next, Stop> {
        let back = restart(self.alloc, actor)?;
        self.come(&back)
    }

    // A plain look at the group finds nothing.
    fn look(&mut self) -> Result<(), Stop> {
        match self.looks.look(self.alloc, &self.world)? {
            None => Ok(()),
            Some(_) => Err(Stop::Plain),
        }
    }

    // The row's events come, one by one.
    fn play(&mut self, at: &mut usize) -> Result<(), Stop> {
        for event in &self.row.events {
            *at = at.saturating_add(1);
            self.settle(event)?;
            self.look()?;
        }
        let _again = self.anew()?;
        Ok(())
    }
}

/// The row's events come to a group; `at` counts those that came.
pub(super) fn play_group(
    alloc: Global,
    row: Result<Transcript, Stop>,
    at: &mut usize,
) -> Result<(), Stop> {
    play_row(alloc, &row?, at)
}

fn play_row(alloc: Global, row: &Transcript, at: &mut usize) -> Result<(), Stop> {
    let world = match World::new(alloc, row.servers, &row.nodes) {
        Ok(world) => world,
        Err(refusal) => return Err(unmade(refusal)),
    };
    let looks = Looks::new(alloc);
    let mut group = Group {
        alloc,
        row,
        world,
        looks,
    };
    group.play(at)
}
