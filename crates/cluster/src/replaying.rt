//! How the events of a history are played again on a world of their own.
ghost use Rattle.std.specs.Prelude.{◌≡◌, ◌≤◌, length, IfOk, OnOk};
ghost use Rattle.rows.specs.GroupSizes.{IsGroup};
ghost use Rattle.group_inputs.specs.Events.{group_event, group_events};
ghost use Rattle.world.specs.GroupView.{nodes_of, renumbered, ClientsKnowNumbers};
ghost use Rattle.world.specs.GroupSteps.{IsNewGroup, GroupEventHappened};
ghost use Rattle.world.specs.GroupShown.{ShownBySpec};
ghost use Rattle.cluster.specs.Inner.Runs.{AllHappen, CanHappen, RunsToLast};

use group_inputs::Event;
use rows::{NoMemory, NodeSpec, Refusal};
use std::alloc::Global;
use world::{Done, World};

/// The group before its first event.
fn begin(alloc: Global, n: usize, nodes: &[NodeSpec]) -> Result<World, NoMemory>
    requires size { IsGroup n }
    requires few { length nodes.now ≤ 64 }
    ensures { IfOk result (λ w. IsNewGroup n nodes.now w) }
{
    match World::new(alloc, n, nodes) {
        Ok(world) => Ok(world),
        Err(refusal) => match refusal {
            Refusal::NoMemory => Err(NoMemory),
            _ => unreachable!(),
        },
    }
}

/// An event happens that the definitions do not refuse. Where memory is wanting for it, its actor
/// may have crashed.
fn play(world: &mut World, event: Event) -> Result<(), NoMemory>
    requires { CanHappen world.old (group_event event) }
    ensures { OnOk result (GroupEventHappened world.old (group_event event) world.new) }
{
    match world.step(event) {
        Ok(Done::Taken) => Ok(()),
        Ok(Done::Crashed) => Err(NoMemory),
        Err(refusal) => match refusal {
            Refusal::NoMemory => Err(NoMemory),
            _ => unreachable!(),
        },
    }
}

/// Plays the events of a history again on a world of its own, of `n` servers, 3 or 5, and at most
/// 64 clients. It asks for events that all happen one after the other, so want of memory alone can
/// stop it.
/// - `trace`: the world's trace is these events, each once and in this order.
/// - `size`, `nodes`, `clients`: it has this many servers, and a client for each node, which is
///   numbered by its place.
/// - `last`: its run ends in the world of the definitions to which the events lead.
/// - `spec`: whatever it has shown is what the specification shows.
pub(crate) fn replay(
    alloc: Global,
    n: usize,
    nodes: &[NodeSpec],
    events: Vec<Event>,
) -> Result<World, NoMemory>
    requires size { IsGroup n }
    requires few { length nodes.now ≤ 64 }
    requires runs { AllHappen n nodes.now (group_events events.items) }
    ensures trace { IfOk result (λ w. w.trace ≡ group_events events.items) }
    ensures size { IfOk result (λ w. length w.servers ≡ n) }
    ensures nodes { IfOk result (λ w. nodes_of w ≡ renumbered 1 nodes.now) }
    ensures clients { IfOk result (λ w. ClientsKnowNumbers w) }
    ensures last { IfOk result (λ w. RunsToLast n nodes.now (group_events events.items) w) }
    ensures spec { IfOk result (λ w. ShownBySpec w) }
{
    let mut world = begin(alloc, n, nodes)?;
    for event in events {
        play(&mut world, event)?;
    }
    // The world knows of its clients where it is asked for them.
    let _ = world.clients();
    world.shows_the_spec();
    Ok(world)
}
