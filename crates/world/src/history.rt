//! What is kept beside the servers of a group, and what one event changes.
ghost use Rattle.std.specs.Prelude.{◌≡◌, max, []};
ghost use Rattle.raft_model.specs.Rafts.{Raft as AnyRaft};
ghost use Rattle.raft_core.specs.Steps.{RefinesRaft};
ghost use Rattle.world.specs.Events.{world_event, world_events};
ghost use Rattle.world.specs.Inner.Inputs.{committed};
ghost use Rattle.world.specs.Inner.Parts.{IsForServer, PartDone};

use crate::done::Done;
use crate::event::RaftEvent;
use crate::input::{copy_frame, hand};
use machine::Machine;
use raft_core::Raft;
use rows::{Index, Refusal, ServerId};
use std::alloc::Global;
use std::marker::Model;
use wire::Frames;

/// All messages that were ever sent among the servers, all events that happened, and the greatest
/// number of entries that any server has applied.
#[derive(Drop)]
pub(crate) struct History<M: Machine> {
    alloc: Global,
    sent: Frames,
    // The frame that is delivered, apart from the others, to which its receiver adds.
    delivered: Vec<u8>,
    trace: Vec<RaftEvent<M>>,
    chain: Index,
}

impl<M: Machine> Model for History<M> {
    ghost use Rattle.world.specs.Inner.HistoryView.{HistoryView};
    ghost use Rattle.world.specs.Events.{world_events};

    ghost Value = { HistoryView M.Command };

    ghost view = { λ a. record { sent = a.sent; trace = world_events a.trace.items; chain = a.chain } };
}

/// The greater of the chain so far and what a server has applied.
fn longer<M: Machine>(chain: Index, raft: &Raft<M>) -> Index
    ensures { (s : AnyRaft M.Command) → RefinesRaft M.spec raft.now s →
        result ≡ max chain (committed s) }
{
    match raft.applied() {
        Some(applied) if applied.get() > chain.get() => applied,
        _ => chain,
    }
}

impl<M: Machine> History<M> {
    /// Before the first event.
    pub(crate) fn new(alloc: Global) -> History<M>
        ensures { result ≡ record { sent = []; trace = []; chain = 0 } }
    {
        History {
            alloc,
            sent: Frames::new(alloc),
            delivered: Vec::new(alloc),
            trace: Vec::new(alloc),
            chain: Index::ZERO,
        }
    }

    pub(crate) fn sent(&self) -> &Frames
        ensures { result.now ≡ self.now.sent }
    {
        &self.sent
    }

    pub(crate) fn trace(&self) -> &[RaftEvent<M>]
        ensures { world_events result.now ≡ self.now.trace }
    {
        &self.trace
    }

    pub(crate) fn chain(&self) -> Index
        ensures { result ≡ self.now.chain }
    {
        self.chain
    }

    /// A server takes an event, and what it sends is put behind what was sent. Where it finds no
    /// memory, its crash is kept instead; where there is none to keep the event, nothing happens.
    pub(crate) fn hand_event(
        &mut self,
        raft: &mut Raft<M>,
        server: ServerId,
        event: RaftEvent<M>,
    ) -> Result<Done, Refusal>
        requires { IsForServer M.spec raft.old self.old.sent (world_event event) }
        ensures same { (raft.new.me ≡ raft.old.me) × (raft.new.size ≡ raft.old.size) }
        ensures done { PartDone M.spec raft.old self.old (world_event event) server result
            raft.new self.new }
    {
        self.trace.reserve(1)?;
        copy_frame(&self.sent, &event, &mut self.delivered)?;
        let input = event.again(self.alloc)?;
        match hand(raft, &self.delivered, input, &mut self.sent) {
            Ok(()) => {
                self.chain = longer(self.chain, raft);
                self.trace.push_reserved(event);
                Ok(Done::Taken)
            }
            Err(refusal) => match refusal {
                Refusal::NoMemory => {
                    if event.is_restart() {
                        return Ok(Done::Crashed);
                    }
                    self.trace.push_reserved(RaftEvent::Crash(server));
                    Ok(Done::Crashed)
                }
                other => Err(other),
            },
        }
    }
}
