//! A group that is played again.
ghost use Rattle.std.specs.Prelude.{◌≡◌, ◌≢◌, IfErr, IfOk, OnOk};
ghost use Rattle.group_inputs.specs.Events.{group_event};
ghost use Rattle.sim_labels.specs.Groups.{MayBe, MayNotBe};
ghost use Rattle.world.specs.GroupSteps.{IsNewGroup};
ghost use Rattle.sim_playback.specs.Taking.{Took};
ghost use Rattle.sim_playback.specs.declared.fault.PlaybackError.TheVariants as errors;

use crate::fault::PlaybackError;
use group_inputs::Event;
use rows::{NoMemory, NodeSpec, Refusal};
use std::alloc::Global;
use world::{Done, World};

/// A group before its first event.
///
/// It is refused with `Group` where there is no such group, and with `NoMemory`.
pub fn begin(alloc: Global, servers: usize, nodes: &[NodeSpec]) -> Result<World, PlaybackError>
    ensures new { IfOk result (λ world. IsNewGroup servers nodes.now world) }
    ensures group { OnOk result (MayBe servers nodes.now) }
    ensures fault { IfErr result (λ error. error ≢ errors.Group → MayBe servers nodes.now) }
    ensures no_group { IfErr result (λ error. error ≡ errors.Group → MayNotBe servers nodes.now) }
    ensures written { IfErr result (λ error. error ≢ errors.Output) }
{
    match World::new(alloc, servers, nodes) {
        Ok(world) => Ok(world),
        Err(refusal) => match refusal {
            Refusal::NoMemory => Err(PlaybackError::NoMemory),
            _ => Err(PlaybackError::Group),
        },
    }
}

/// Takes an event: the number of the refusal where it is refused. A crash for want of memory is
/// none of the run that is played again, so it is answered as such. What comes for workers is
/// dropped.
pub fn hand_event(world: &mut World, event: Event) -> Result<Option<u8>, NoMemory>
    ensures { IfOk result (λ number. Took world.old (group_event event) number world.new) }
{
    let done = world.step(event);
    let _work = world.take_work();
    match done {
        Ok(Done::Taken) => Ok(None),
        Ok(Done::Crashed) => Err(NoMemory),
        Err(refusal) if refusal == Refusal::NoMemory => Err(NoMemory),
        Err(refusal) => Ok(Some(refusal.number())),
    }
}
