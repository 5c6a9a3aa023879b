//! The agent of one node as an actor. What it is asked, and what it says, are items of bytes.
ghost use Rattle.std.specs.Prelude.{◌≡◌, ◌≤◌, ◌++◌, false, true, ℕ, List, IfOk, OnOk, Some, length, map};
ghost use Rattle.rows.specs.declared.allocation.AllocId.{AllocId as AnyAllocId};
ghost use Rattle.group_model.specs.Agents.{agent_of};
ghost use Rattle.journal.specs.Events.{IoEvent, AreOutputs};
ghost use Rattle.journal.specs.Replays.{Replay};
ghost use Rattle.journal.specs.Savings.{output_event, IsSaving};
ghost use Rattle.client_node.specs.Items.{IsEnd, IsTime, is_frame};
ghost use Rattle.client_node.specs.Laws.Outputs.{outputs_alone};
ghost use Rattle.client_node.specs.Records.{LeadsIds, ids_in, started_replay};
ghost use Rattle.client_node.specs.Turns.{NodeView, Turn, WentBy, started_by};

use crate::asking::Asking;
use crate::changes::{IdsChange, change_between, joined};
use crate::fault::Fault;
use crate::handing::{ask_each, bring, hand};
use crate::items::{is_frame, read_end, read_time};
use crate::telling::{put_turn, running_ids};
use client_agent::Agent;
use fields::write_long_counted;
use group_inputs::ClientInput;
use journal::{Actor, Out, Saving};
use rows::{AllocId, ClientId, NoMemory, NodeSpec, Refusal, Sequence};
use std::alloc::Global;
use std::marker::Model;
use timers::ClientTimers;
use wire::Frames;

/// The agent of a node as an actor: with its timers, how many servers its group has, and which of
/// them it asks.
#[derive(Drop)]
pub struct ClientNode {
    agent: Agent,
    timers: ClientTimers,
    size: usize,
    asking: Asking,
}

impl Model for ClientNode {
    ghost use Rattle.rows.specs.GroupSizes.{IsGroup};
    ghost use Rattle.client_node.specs.Turns.{NodeView};

    ghost Value = { NodeView };

    ghost view = { λ n. record { agent = n.agent; timers = n.timers } };

    ghost invariant = { λ n. IsGroup n.size };
}

/// Puts a count of four bytes and these ids to the end. There is no memory for more of them than
/// four bytes count.
fn put_ids(ids: &[AllocId], out: &mut Vec<u8>) -> Result<(), NoMemory>
    ensures { OnOk result ((payload : List ℕ) × (out.new.items ≡ out.old.items ++ payload)
        × (ids_in payload ≡ Some ids.now)) }
{
    if ids.len() > u32::MAX as usize {
        return Err(NoMemory);
    }
    write_long_counted(ids, u32::MAX, out)
}

impl ClientNode {
    /// The actor of this node, which ever started just these allocations.
    pub fn begin(
        alloc: Global,
        node: NodeSpec,
        size: usize,
        started: &[AllocId],
        timers: ClientTimers,
    ) -> Result<ClientNode, Fault>
        ensures { IfOk result (λ n. (n.timers ≡ timers)
            × (n.agent ≡ record {
              size = size;
              client = record (agent_of node) { started = started.now };
            })) }
    {
        match Agent::restart(alloc, node, size, started) {
            Ok(agent) => Ok(ClientNode {
                agent,
                timers,
                size,
                asking: Asking::new(),
            }),
            Err(Refusal::NoMemory) => Err(Fault::NoMemory),
            Err(_) => Err(Fault::Usage),
        }
    }

    /// Its number as a client.
    fn me(&self) -> ClientId
        ensures { result ≡ self.now.agent.client.node.number }
    {
        let number = self.agent.node().number.number();
        match ClientId::from_number(number) {
            Some(client) => client,
            None => unreachable!(),
        }
    }

    /// A frame is handed to the agent. The server that sent a list is asked from then on.
    fn bring_frame(&mut self, item: &[u8], frames: &mut Frames) -> Result<Option<Refusal>, NoMemory>
        requires { is_frame item.now ≡ true }
        ensures { IfOk result (WentBy item.now self.old self.new frames.old frames.new) }
    {
        let told = bring(&mut self.agent, item, frames)?;
        self.asking.note(&told, item);
        Ok(told)
    }

    /// Time passes: what is due is asked of the server that listed last, or of all.
    fn pass_time(
        &mut self,
        alloc: Global,
        ms: u32,
        item: &[u8],
        frames: &mut Frames,
    ) -> Result<Option<Refusal>, NoMemory>
        requires { IsTime item.now ms }
        ensures { IfOk result (WentBy item.now self.old self.new frames.old frames.new) }
    {
        let due = self.timers.pass(alloc, ms)?;
        let server = self.asking.server(due.as_slice());
        ask_each(&mut self.agent, due.as_slice(), &server, self.size, frames)?;
        Ok(None)
    }

    /// An allocation ended, as whoever ran it says; or the item is none that is known.
    fn take_end(
        &mut self,
        alloc: Global,
        item: &[u8],
        frames: &mut Frames,
    ) -> Result<Option<Refusal>, NoMemory>
        requires no_frame { is_frame item.now ≡ false }
        requires no_time { (ms : ℕ) → IsTime item.now ms → ⊥ }
        ensures { IfOk result (WentBy item.now self.old self.new frames.old frames.new) }
    {
        match read_end(alloc, self.me(), item)? {
            Some(ended) => {
                let input = ClientInput::End(ended.0, ended.1);
                hand(&mut self.agent, input, frames)
            }
            None => Ok(Some(Refusal::Frame(0))),
        }
    }

    /// One item, by its kind. It answers what it refuses of it.
    fn take_item(
        &mut self,
        alloc: Global,
        item: &[u8],
        frames: &mut Frames,
    ) -> Result<Option<Refusal>, NoMemory>
        ensures { IfOk result (WentBy item.now self.old self.new frames.old frames.new) }
    {
        if is_frame(item) {
            return self.bring_frame(item, frames);
        }
        match read_time(item) {
            Some(ms) => self.pass_time(alloc, ms, item, frames),
            None => self.take_end(alloc, item, frames),
        }
    }
}

impl Actor for ClientNode {
    type Part = Sequence<AllocId>;

    type Change = IdsChange;

    ghost replay = { started_replay };

    ghost part = { started_by };

    ghost leads = { LeadsIds };

    ghost turn = { Turn };

    ghost outputs = { outputs_alone };

    fn unchanged() -> IdsChange {
        IdsChange::Nothing
    }

    fn take(
        &mut self,
        alloc: Global,
        item: &[u8],
        change: &mut IdsChange,
        outs: &mut Vec<Out>,
    ) -> Result<(), NoMemory> {
        let before = self.agent.started().len();
        let ran = running_ids(alloc, &self.agent)?;
        let mut frames = Frames::new(alloc);
        let told = self.take_item(alloc, item, &mut frames)?;
        let since = change_between(before, self.agent.started().len());
        *change = joined(*change, since);
        put_turn(alloc, ran.as_slice(), &self.agent, &frames, told, outs)
    }

    fn save(&self, change: &IdsChange, out: &mut Vec<u8>) -> Result<Saving, NoMemory> {
        let started = self.agent.started();
        match change {
            IdsChange::Nothing => Ok(Saving::Nothing),
            IdsChange::Behind(count) => {
                let count = *count;
                if count > started.len() {
                    return Ok(Saving::Whole);
                }
                put_ids(&started[count..], out)?;
                Ok(Saving::Change)
            }
        }
    }

    fn whole(&self, out: &mut Vec<u8>) -> Result<(), NoMemory> {
        put_ids(self.agent.started(), out)
    }
}
