//! A run played to some moment, and its group brought back from there.
ghost use Rattle.std.specs.Prelude.{◌≡◌, ◌≢◌, IfErr, IfOk, List, OnOk, drop, length, map, string_bytes};
ghost use Rattle.std.specs.List.{AllByRecursion};
ghost use Rattle.group_model.specs.Worlds.{Event as AnyEvent};
ghost use Rattle.event_texts.specs.EventLines.{HasLine, event_line};
ghost use Rattle.group_inputs.specs.Events.{group_event, group_events};
ghost use Rattle.sim_labels.specs.Groups.{MayBe, MayNotBe};
ghost use Rattle.sim_playback.specs.Taking.{Took};
ghost use Rattle.world.specs.GroupSteps.{IsNewGroup};
ghost use Rattle.recovery.specs.GroupRestarting.{AreGroupSettled, GroupSomeLackRoom};
ghost use Rattle.sim_recovery.specs.Inner.Backs.{CameBy, IsBack};
ghost use Rattle.sim_recovery.specs.Recoveries.{AllCame, HasNoRoom, IsElection, IsMoment, IsRecovery};
ghost use Rattle.sim_recovery.specs.declared.fault.RecoveryError.TheVariants as errors;

use crate::counts::{Counts, counts_of};
use crate::fault::RecoveryError;
use crate::steps::lines_of;
use group_inputs::Event;
use recovery::{Unsettled, settle_all_of_group, settle_group};
use rows::{NoMemory, NodeSpec, ServerId};
use sim_playback::{PlaybackError, begin, hand_event};
use std::alloc::Global;
use world::World;

/// What brings the group of a run back from one moment.
#[derive(Drop)]
pub struct Recovery {
    /// The server that leads then.
    pub leader: ServerId,
    /// How many events it takes, by their kinds.
    pub counts: Counts,
    /// The line of each of these events, in order, as that of a scenario's step.
    pub lines: Vec<String>,
}

/// A group that was brought back.
#[derive(Drop)]
pub(crate) struct Back {
    /// The group.
    pub(crate) world: World,
    /// How many events had happened to it before.
    pub(crate) before: usize,
    /// The server that leads.
    pub(crate) leader: ServerId,
}

// A group before its first event.
fn begun(alloc: Global, servers: usize, nodes: &[NodeSpec]) -> Result<World, RecoveryError>
    ensures new { IfOk result (λ world. IsNewGroup servers nodes.now world) }
    ensures group { OnOk result (MayBe servers nodes.now) }
    ensures fault { IfErr result (λ error. error ≢ errors.Group → MayBe servers nodes.now) }
    ensures no_group { IfErr result (λ error. error ≡ errors.Group → MayNotBe servers nodes.now) }
    ensures kinds { IfErr result (λ error. (error ≢ errors.NoRoom) × (error ≢ errors.TooMany)) }
{
    match begin(alloc, servers, nodes) {
        Ok(world) => Ok(world),
        Err(error) => match error {
            PlaybackError::Group => Err(RecoveryError::Group),
            PlaybackError::NoMemory | PlaybackError::Output => Err(RecoveryError::NoMemory),
        },
    }
}

// The group of a run after these events.
fn group_after(
    alloc: Global,
    servers: usize,
    nodes: &[NodeSpec],
    events: &[Event],
) -> Result<World, RecoveryError>
    ensures moment { IfOk result (IsMoment servers nodes.now (group_events events.now)) }
    ensures group { OnOk result (MayBe servers nodes.now) }
    ensures fault { IfErr result (λ error. error ≢ errors.Group → MayBe servers nodes.now) }
    ensures no_group { IfErr result (λ error. error ≡ errors.Group → MayNotBe servers nodes.now) }
    ensures kinds { IfErr result (λ error. (error ≢ errors.NoRoom) × (error ≢ errors.TooMany)) }
{
    let first = begun(alloc, servers, nodes)?;
    let now = world_after(alloc, first, events)?;
    Ok(now)
}

// A group once these events came to it.
fn world_after(alloc: Global, world: World, events: &[Event]) -> Result<World, NoMemory>
    ensures { IfOk result (AllCame (group_events events.now) world) }
{
    let mut world = world;
    for event in events {
        come(alloc, &mut world, event)?;
    }
    Ok(world)
}

// An event comes to a group: the number of the refusal where it is refused.
fn come(alloc: Global, world: &mut World, event: &Event) -> Result<Option<u8>, NoMemory>
    ensures { IfOk result (λ answer.
        Took world.old (group_event event.now) answer world.new) }
{
    let again = event.try_clone(alloc)?;
    hand_event(world, again)
}

// Brings a group back.
fn bring_back(alloc: Global, world: &mut World) -> Result<ServerId, RecoveryError>
    ensures ok { IfOk result (AreGroupSettled world.old world.new) }
    ensures room { IfErr result (λ error. error ≡ errors.NoRoom
        → GroupSomeLackRoom world.old) }
    ensures kinds { IfErr result (λ error. (error ≢ errors.Group) × (error ≢ errors.TooMany)) }
{
    match settle_all_of_group(alloc, world) {
        Ok(who) => Ok(who),
        Err(why) => match why {
            Unsettled::Exhausted => Err(RecoveryError::NoRoom),
            Unsettled::NoMemory | Unsettled::Crashed(_) => Err(RecoveryError::NoMemory),
            // A quorum is up once all have restarted.
            Unsettled::NoQuorum => unreachable!(),
        },
    }
}

/// The group of a run after these events, brought back.
pub(crate) fn back_from(
    alloc: Global,
    servers: usize,
    nodes: &[NodeSpec],
    events: &[Event],
) -> Result<Back, RecoveryError>
    ensures back { IfOk result (IsBack servers nodes.now (group_events events.now)) }
    ensures group { OnOk result (MayBe servers nodes.now) }
    ensures room { IfErr result (λ error. error ≡ errors.NoRoom
        → HasNoRoom servers nodes.now (group_events events.now)) }
    ensures fault { IfErr result (λ error. error ≢ errors.Group → MayBe servers nodes.now) }
    ensures no_group { IfErr result (λ error. error ≡ errors.Group → MayNotBe servers nodes.now) }
    ensures many { IfErr result (λ error. error ≢ errors.TooMany) }
{
    let mut world = group_after(alloc, servers, nodes, events)?;
    // That the group has a run is known by what it claims.
    world.one_list();
    let before = past(&world);
    let leader = bring_back(alloc, &mut world)?;
    Ok(Back {
        world,
        before,
        leader,
    })
}

// How many events happened to a group.
fn past(world: &World) -> usize
    ensures { result ≡ length world.now.trace }
{
    world.trace().len()
}

// The events behind so many.
fn rest_of(events: &[Event], before: usize) -> &[Event]
    ensures { group_events result.now ≡ drop before (group_events events.now) }
{
    match events.get(before..) {
        Some(rest) => rest,
        None => &[],
    }
}

/// The events that happened to a group behind so many, in order.
pub(crate) fn taken_behind(world: &World, before: usize) -> &[Event]
    ensures { (taken : List AnyEvent) → CameBy before taken world.now
        → group_events result.now ≡ taken }
{
    rest_of(world.trace(), before)
}

// The lines of these events.
fn lines_behind(alloc: Global, world: &World, before: usize) -> Result<Vec<String>, NoMemory>
    requires { (taken : List AnyEvent) × CameBy before taken world.now }
    ensures { (taken : List AnyEvent) → CameBy before taken world.now → IfOk result (λ lines.
        AllByRecursion HasLine taken × (map string_bytes lines.items ≡ map event_line taken)) }
{
    // No message has a number past the greatest length.
    let _sent = world.sent().len();
    let _all = world.trace().len();
    lines_of(alloc, taken_behind(world, before))
}

/// What brings the group of a run back that stands so after these events: its servers that are down
/// restart, and it settles, as `recovery::settle_all_of_group` says.
///
/// It is refused with `Group` where there is no such group, with `NoRoom` where a server has no
/// room for two more terms or entries then, and with `NoMemory`.
pub fn recovery_of(
    alloc: Global,
    servers: usize,
    nodes: &[NodeSpec],
    events: &[Event],
) -> Result<Recovery, RecoveryError>
    ensures told { IfOk result (IsRecovery servers nodes.now (group_events events.now)) }
    ensures room { IfErr result (λ error. error ≡ errors.NoRoom
        → HasNoRoom servers nodes.now (group_events events.now)) }
    ensures fault { IfErr result (λ error. error ≢ errors.Group → MayBe servers nodes.now) }
    ensures no_group { IfErr result (λ error. error ≡ errors.Group → MayNotBe servers nodes.now) }
    ensures many { IfErr result (λ error. error ≢ errors.TooMany) }
{
    let back = back_from(alloc, servers, nodes, events)?;
    let lines = lines_behind(alloc, &back.world, back.before)?;
    let counts = counts_of(taken_behind(&back.world, back.before));
    Ok(Recovery {
        leader: back.leader,
        counts,
        lines,
    })
}

/// The lines of the events by which the group of a run settles that stands so after these events,
/// nobody being restarted, as `recovery::settle_group` says: in order, as those of steps. There is
/// none where no quorum of its servers is up, or one that is up has no room for two more terms or
/// entries.
///
/// It is refused with `Group` where there is no such group, and with `NoMemory`.
pub fn election(
    alloc: Global,
    servers: usize,
    nodes: &[NodeSpec],
    events: &[Event],
) -> Result<Vec<String>, RecoveryError>
    ensures lines { IfOk result (λ lines. IsElection servers nodes.now (group_events events.now)
        (map string_bytes lines.items)) }
    ensures fault { IfErr result (λ error. error ≢ errors.Group → MayBe servers nodes.now) }
    ensures no_group { IfErr result (λ error. error ≡ errors.Group → MayNotBe servers nodes.now) }
    ensures kinds { IfErr result (λ error. (error ≢ errors.NoRoom) × (error ≢ errors.TooMany)) }
{
    let mut world = group_after(alloc, servers, nodes, events)?;
    // That the group has a run is known by what it claims.
    world.one_list();
    let before = past(&world);
    match settle_group(alloc, &mut world) {
        Ok(_) => Ok(lines_behind(alloc, &world, before)?),
        Err(why) => match why {
            Unsettled::NoQuorum => Ok(Vec::new(alloc)),
            Unsettled::Exhausted => Ok(Vec::new(alloc)),
            Unsettled::NoMemory | Unsettled::Crashed(_) => Err(RecoveryError::NoMemory),
        },
    }
}
