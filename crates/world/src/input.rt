ghost use Rattle.std.specs.Prelude.{◌≡◌, IfSome, IfNone, OnOk, OnErr, IfErr, OnSome, List, slice_get};
ghost use Rattle.rows.specs.declared.refusal.Refusal.TheVariants as refusals;
ghost use Rattle.wire.specs.Frames.{Frame};
ghost use Rattle.raft_model.specs.Rafts.{Raft as AnyRaft};
ghost use Rattle.raft_model.specs.Steps.{Propose};
ghost use Rattle.raft_model.specs.Worlds.{Deliver};
ghost use Rattle.raft_core.specs.Inputs.{Own};
ghost use Rattle.raft_core.specs.Steps.{RefinesRaft, Takes};
ghost use Rattle.raft_core.specs.Refusals.{IsRefused};
ghost use Rattle.group_inputs.specs.Events.{position_of};
ghost use Rattle.world.specs.Events.{world_event};
ghost use Rattle.world.specs.Inner.Inputs.{ActsIn, NobodyActsIn, IsSent, HasFrame, Leaves, StaysOrLeft, handed_by};

use crate::event::RaftEvent;
use machine::Machine;
use raft_core::{Input, Raft};
use rows::{Actor, NoMemory, Refusal, ServerId};
use wire::{Frame, Frames};

/// The k-th frame, from 1.
fn frame_at(sent: &Frames, k: u64) -> Option<Frame<'_>>
    ensures { result ≡ slice_get sent.now (position_of k) }
{
    let count = sent.len() as u64;
    if k == 0 || k > count {
        return None;
    }
    sent.get((k - 1) as usize)
}

/// The server that is to receive the k-th message; none where there is no such message.
fn receiver<M: Machine>(sent: &Frames, k: u64) -> Option<ServerId>
    ensures some { IfSome result (λ i. ActsIn M.spec sent.now (Deliver (position_of k)) i) }
    ensures sent { OnSome result (IsSent {C = M.Command} sent.now (Deliver (position_of k))) }
    ensures none { IfNone result
        (NobodyActsIn M.spec sent.now (Deliver (position_of k)) refusals.OutOfRange) }
{
    match frame_at(sent, k)?.to() {
        Actor::Server(server) => Some(server),
        Actor::Client(_) => None,
    }
}

/// The server that takes the event; none where there is no such message.
pub(crate) fn actor<M: Machine>(sent: &Frames, event: &RaftEvent<M>) -> Option<ServerId>
    ensures some { IfSome result (λ i. ActsIn M.spec sent.now (world_event event.now) i) }
    ensures sent { OnSome result (IsSent sent.now (world_event event.now)) }
    ensures none { IfNone result
        (NobodyActsIn M.spec sent.now (world_event event.now) refusals.OutOfRange) }
{
    match event {
        RaftEvent::Deliver(k) => receiver::<M>(sent, *k),
        RaftEvent::Timeout(server) => Some(*server),
        RaftEvent::Beat(server) => Some(*server),
        RaftEvent::Propose(server, _) => Some(*server),
        RaftEvent::Compact(server) => Some(*server),
        RaftEvent::Crash(server) => Some(*server),
        RaftEvent::Restart(server) => Some(*server),
    }
}

/// A command is proposed to a server, which crashes where it finds no memory. Where it stands is
/// read off the server later.
fn propose<M: Machine>(raft: &mut Raft<M>, command: M::Command) -> Result<(), Refusal>
    ensures same { (raft.new.me ≡ raft.old.me) × (raft.new.size ≡ raft.old.size) }
    ensures taken { OnOk result ((s : AnyRaft M.Command) (sent : List Frame) →
        RefinesRaft M.spec raft.old s →
        Takes M.spec raft.old s (Own (Propose command)) raft.new sent sent) }
    ensures refused { IfErr result (λ cause. (s : AnyRaft M.Command) →
        RefinesRaft M.spec raft.old s →
        IsRefused M.spec raft.old.size raft.old.me s (Own (Propose command)) cause) }
    ensures left { IfErr result (λ cause. (s : AnyRaft M.Command) →
        RefinesRaft M.spec raft.old s →
        Leaves M.spec raft.old s (Own (Propose command)) cause raft.new) }
    ensures stays { IfErr result (λ cause.
        StaysOrLeft (Own (Propose command)) cause raft.old raft.new) }
{
    match raft.propose(command) {
        Ok(_) => Ok(()),
        Err(refusal) => match refusal {
            Refusal::NoMemory => {
                raft.crash();
                Err(Refusal::NoMemory)
            }
            other => Err(other),
        },
    }
}

/// Copies the frame that an event delivers.
pub(crate) fn copy_frame<M: Machine>(
    sent: &Frames,
    event: &RaftEvent<M>,
    frame: &mut Vec<u8>,
) -> Result<(), NoMemory>
    ensures { OnOk result (HasFrame sent.now (world_event event.now) frame.new.items) }
{
    match event {
        RaftEvent::Deliver(k) => {
            frame.clear();
            if let Some(found) = frame_at(sent, *k) {
                frame.extend_from_slice(found.bytes())?;
            }
            Ok(())
        }
        RaftEvent::Timeout(_) => Ok(()),
        RaftEvent::Beat(_) => Ok(()),
        RaftEvent::Propose(_, _) => Ok(()),
        RaftEvent::Compact(_) => Ok(()),
        RaftEvent::Crash(_) => Ok(()),
        RaftEvent::Restart(_) => Ok(()),
    }
}

/// A server takes what an event hands to it, of which `frame` is the frame, if it delivers one.
/// What the server sends is put behind what was sent.
pub(crate) fn hand<M: Machine>(
    raft: &mut Raft<M>,
    frame: &[u8],
    event: RaftEvent<M>,
    sent: &mut Frames,
) -> Result<(), Refusal>
    requires { HasFrame sent.old (world_event event) frame.now }
    ensures same { (raft.new.me ≡ raft.old.me) × (raft.new.size ≡ raft.old.size) }
    ensures taken { OnOk result ((s : AnyRaft M.Command) → RefinesRaft M.spec raft.old s →
        Takes M.spec raft.old s (handed_by sent.old (world_event event)) raft.new sent.old
        sent.new) }
    ensures unsent { OnErr result (sent.new ≡ sent.old) }
    ensures refused { IfErr result (λ cause. (s : AnyRaft M.Command) →
        RefinesRaft M.spec raft.old s →
        IsRefused M.spec raft.old.size raft.old.me s (handed_by sent.old (world_event event))
        cause) }
    ensures left { IfErr result (λ cause. (s : AnyRaft M.Command) →
        RefinesRaft M.spec raft.old s →
        Leaves M.spec raft.old s (handed_by sent.old (world_event event)) cause raft.new) }
    ensures stays { IfErr result (λ cause.
        StaysOrLeft (handed_by sent.old (world_event event)) cause raft.old raft.new) }
{
    match event {
        RaftEvent::Deliver(_) => raft.step(Input::Frame(frame), sent),
        RaftEvent::Timeout(_) => raft.step(Input::Timeout, sent),
        RaftEvent::Beat(_) => raft.step(Input::Beat, sent),
        RaftEvent::Propose(_, command) => propose(raft, Box::into_inner(command)),
        RaftEvent::Compact(_) => raft.step(Input::Compact, sent),
        RaftEvent::Crash(_) => raft.step(Input::Crash, sent),
        RaftEvent::Restart(_) => raft.step(Input::Restart, sent),
    }
}
