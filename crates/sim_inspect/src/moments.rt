//! How a group stands at each moment of a run.
ghost use Rattle.std.specs.Prelude.{◌≡◌, ◌≢◌, ◌+◌, length, IfErr, IfOk, OnOk};
ghost use Rattle.sim_labels.specs.Groups.{MayBe, MayNotBe};
ghost use Rattle.sim_inspect.specs.declared.fault.InspectError.TheVariants as errors;

use crate::applied::standing;
use crate::deliveries::Deliveries;
use crate::entries::renew_server;
use crate::fault::InspectError;
use crate::gathering::{client_report, clients, desks, servers, state_after};
use crate::group::begin;
use group_inputs::{Event, ServerInput};
use raft_core::Role;
use rows::{Actor, ClientId, NoMemory, NodeSpec, ServerId};
use sim_labels::role_word;
use sim_playback::hand_event;
use sim_report_lines::{Moments, Recorder, Standing};
use sim_reports::{ClientReport, ServerReport};
use std::alloc::Global;
use world::World;

/// How a group that takes these events from its beginning stands at each moment: what `inspect`
/// tells before the first event, and behind each of them.
///
/// It is refused with `Group` where there is no such group, and with `NoMemory`.
pub fn each_moment(
    alloc: Global,
    servers: usize,
    nodes: &[NodeSpec],
    events: &[Event],
) -> Result<Moments, InspectError>
    ensures moments { IfOk result (λ m. length m.moments.items ≡ length events.now + 1) }
    ensures group { OnOk result (MayBe servers nodes.now) }
    ensures fault { IfErr result (λ error. error ≢ errors.Group → MayBe servers nodes.now) }
    ensures no_group { IfErr result (λ error. error ≡ errors.Group → MayNotBe servers nodes.now) }
    ensures past { IfErr result (λ error. error ≢ errors.NoSuchEvent) }
    ensures written { IfErr result (λ error. error ≢ errors.Output) }
{
    let world = begin(alloc, servers, nodes)?;
    let found = moments_of(alloc, world, events)?;
    Ok(found)
}

// The moments of a group that takes these events.
fn moments_of(alloc: Global, world: World, events: &[Event]) -> Result<Moments, NoMemory>
    ensures { IfOk result (λ m. length m.moments.items ≡ length events.now + 1) }
{
    let mut world = world;
    let mut recorder = Recorder::new(alloc)?;
    let mut seen = Seen::of(alloc, &world, &mut recorder)?;
    let mut number = 0usize;
    recorder.record(alloc, number, events.len(), world.sent().len())?;
    for event in events {
        number = number.saturating_add(1);
        seen.take(alloc, &mut world, &mut recorder, event)?;
        recorder.record(alloc, number, events.len(), world.sent().len())?;
    }
    Ok(recorder.into_moments())
}

// What was seen of a group last.
#[derive(Drop)]
struct Seen {
    servers: Vec<ServerReport>,
    clients: Vec<ClientReport>,
    sent: Deliveries,
}

impl Seen {
    // A group that is seen for the first time.
    fn of(alloc: Global, world: &World, recorder: &mut Recorder) -> Result<Seen, NoMemory>
        ensures { recorder.new ≡ recorder.old }
    {
        let seen = Seen {
            servers: servers(alloc, world)?,
            clients: clients(alloc, world)?,
            sent: Deliveries::new(alloc),
        };
        recorder.put_servers(alloc, &seen.servers)?;
        recorder.put_logs(alloc, &seen.servers)?;
        recorder.put_clients(alloc, &seen.clients)?;
        put_states(alloc, world, recorder)?;
        Ok(seen)
    }

    // The group takes an event. What the event can't have changed is not looked at anew: it is one
    // actor's, and one that is refused changes nothing.
    fn take(
        &mut self,
        alloc: Global,
        world: &mut World,
        recorder: &mut Recorder,
        event: &Event,
    ) -> Result<(), NoMemory>
        ensures { recorder.new ≡ recorder.old }
    {
        let actor = actor_of(world, event);
        let refusal = hand_event(world, event.try_clone(alloc)?)?;
        if refusal.is_some() {
            return Ok(());
        }
        match actor {
            Some(actor) => self.look_at(alloc, world, recorder, actor, event),
            None => Ok(()),
        }
    }

    // Looks at who took an event.
    fn look_at(
        &mut self,
        alloc: Global,
        world: &World,
        recorder: &mut Recorder,
        actor: Actor,
        event: &Event,
    ) -> Result<(), NoMemory>
        ensures { recorder.new ≡ recorder.old }
    {
        match actor {
            Actor::Server(id) => self.look_at_server(alloc, world, recorder, id, event),
            Actor::Client(id) => self.look_at_client(alloc, world, recorder, id),
        }
    }

    fn look_at_server(
        &mut self,
        alloc: Global,
        world: &World,
        recorder: &mut Recorder,
        id: ServerId,
        event: &Event,
    ) -> Result<(), NoMemory>
        ensures { recorder.new ≡ recorder.old }
    {
        self.sent.read(alloc, world.sent())?;
        let may_replace = may_replace(event, &self.sent);
        let (Some(server), Some(report)) = (world.server(id), self.servers.get_mut(id.position()))
        else {
            return Ok(());
        };
        let led = is_leader(report);
        let is_new_log = renew_server(alloc, server, report, may_replace)?;
        let leads = is_leader(report);
        recorder.put_servers(alloc, &self.servers)?;
        if is_new_log {
            recorder.put_logs(alloc, &self.servers)?;
        }
        if led || leads {
            recorder.put_desks(alloc, &desks(alloc, world, &self.sent)?)?;
        }
        put_states(alloc, world, recorder)
    }

    fn look_at_client(
        &mut self,
        alloc: Global,
        world: &World,
        recorder: &mut Recorder,
        id: ClientId,
    ) -> Result<(), NoMemory>
        ensures { recorder.new ≡ recorder.old }
    {
        let place = usize::from(id.number() - 1);
        let (Some(client), Some(report)) = (world.client(id), self.clients.get_mut(place)) else {
            return Ok(());
        };
        *report = client_report(alloc, client)?;
        recorder.put_clients(alloc, &self.clients)
    }
}

// The states that servers have applied.
fn put_states(alloc: Global, world: &World, recorder: &mut Recorder) -> Result<(), NoMemory>
    ensures { recorder.new ≡ recorder.old }
{
    let all = standing(alloc, world)?;
    for one in &all {
        put_new_state(alloc, world, recorder, one)?;
    }
    recorder.put_standing(alloc, &all)
}

// A state, if it was not put yet.
fn put_new_state(
    alloc: Global,
    world: &World,
    recorder: &mut Recorder,
    one: &Standing,
) -> Result<(), NoMemory>
    ensures { recorder.new ≡ recorder.old }
{
    if recorder.has_state(one.applied) {
        return Ok(());
    }
    match state_after(alloc, world, one)? {
        Some(state) => recorder.put_state(alloc, &state),
        None => Ok(()),
    }
}

// Who takes an event.
fn actor_of(world: &World, event: &Event) -> Option<Actor> {
    match event {
        Event::Deliver(number) => world.receiver(*number),
        Event::Server(id, _) => Some(Actor::Server(*id)),
        Event::Client(id, _) => Some(Actor::Client(*id)),
    }
}

// Whether an event may replace what a server stores, where neither its term nor its last index
// changes.
fn may_replace(event: &Event, sent: &Deliveries) -> bool {
    match event {
        Event::Deliver(number) => sent.may_replace(*number),
        Event::Server(_, input) => {
            matches!(input.as_ref(), ServerInput::Compact | ServerInput::Frame(_))
        }
        Event::Client(..) => false,
    }
}

fn is_leader(report: &ServerReport) -> bool {
    report.role == role_word(Some(Role::Leader))
}
