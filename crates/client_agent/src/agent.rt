ghost use Rattle.std.specs.Prelude.{◌≡◌, ◌≢◌, true, is_some, None, Some, option_map, OnOk, OnErr, IfOk, IfErr, IfSome, List};
ghost use Rattle.rows.specs.declared.actor.Actor.TheVariants as actors;
ghost use Rattle.rows.specs.declared.refusal.Refusal.TheVariants as refusals;
ghost use Rattle.rows.specs.GroupSizes.{IsGroup};
ghost use Rattle.rows.specs.Listings.{AreListed};
ghost use Rattle.wire.specs.Frames.{Frame};
ghost use Rattle.group_model.specs.Messages.{Listing};
ghost use Rattle.group_model.specs.Agents.{Arrives, agent_of};
ghost use Rattle.group_inputs.specs.declared.client_input.ClientInput.TheVariants as inputs;
ghost use Rattle.client_agent.specs.Capacity.{FitTogether, AreDistinct};
ghost use Rattle.client_agent.specs.AgentView.{StartsMore, crashed_agent};
ghost use Rattle.client_agent.specs.Steps.{AgentSteps, AgentTakes};
ghost use Rattle.client_agent.specs.Refusals.{client_frame_refusal, misdirected_to_client, agent_refusal, IsAgentRefused, AgentRefusalLeaves};
ghost use Rattle.client_agent.specs.Inner.Asking.{handing_of};
ghost use Rattle.client_agent.specs.Inner.Received.{IsReceived, TakesReceived};

mod restarting;

use crate::asking::{Asked, client_of, send_asked};
use crate::life::Life;
use crate::listing::{Received, Shown, apply_list};
use crate::running::RunningAllocation;
use crate::started::Started;
use fsm_state::Cluster;
use group_inputs::ClientInput;
use rows::{Actor, AllocId, Index, NoMemory, NodeSpec, Refusal, ServerId, is_group_size};
use std::alloc::Global;
use std::marker::Model;
use wire::{Body, Frames, read_message};

/// The client of one node: its agent. It stores the node's number, class and size, how many servers
/// its group has, and the ids of the allocations that it ever started; what runs, what ended and
/// which list it took last is lost in a crash. What runs fits the node, and no allocation is
/// started twice. (Nomad documentation, "Nomad agents" and "Allocations".)
#[derive(Drop)]
pub struct Agent {
    alloc: Global,
    node: NodeSpec,
    size: usize,
    started: Started,
    life: Option<Life>,
}

impl Model for Agent {
    ghost use Rattle.std.specs.Prelude.{IfSome};
    ghost use Rattle.group_model.specs.Agents.{Life as AnyLife};
    ghost use Rattle.client_agent.specs.AgentView.{AgentView};
    ghost use Rattle.client_agent.specs.Capacity.{FitTogether};

    ghost Value = { AgentView };

    ghost view = { λ a. record {
      size = a.size;
      client = record { node = a.node; started = a.started; life = a.life };
    } };

    ghost invariant = { λ a. IfSome a.life (λ (l : AnyLife). FitTogether a.node.size l.running) };
}

impl Agent {
    /// The client of this node in a group of `n` servers, up, with nothing started. It takes no
    /// memory.
    ///
    /// It is refused with `OutOfRange` where `n` is not 3 or 5.
    pub fn new(alloc: Global, node: NodeSpec, n: usize) -> Result<Agent, Refusal>
        ensures ok { IfOk result (λ a. (a ≡ record { size = n; client = agent_of node })
            × IsGroup n) }
        ensures err { IfErr result (λ cause. (cause ≡ refusals.OutOfRange)
            × (IsGroup n → ⊥)) }
    {
        if !is_group_size(n) {
            return Err(Refusal::OutOfRange);
        }
        Ok(Agent {
            alloc,
            node,
            size: n,
            started: Started::none(alloc),
            life: Some(Life::new(alloc)),
        })
    }

    /// Its node, also while it is down.
    pub fn node(&self) -> NodeSpec
        ensures { result ≡ self.now.client.node }
    {
        self.node
    }

    /// Whether it is up.
    pub fn is_up(&self) -> bool
        ensures { result ≡ is_some self.now.client.life }
    {
        self.life.is_some()
    }

    /// The index of the last list of allocations that it took since it started, or 0, while it is
    /// up.
    pub fn seen(&self) -> Option<Index>
        ensures { result ≡ option_map (λ l. l.seen) self.now.client.life }
    {
        match &self.life {
            Some(life) => Some(life.last_list()),
            None => None,
        }
    }

    /// The allocations that run, in the order in which they were started, while it is up. Together
    /// they fit the node.
    pub fn running(&self) -> Option<&[RunningAllocation]>
        ensures running { option_map (λ all. all.now) result
            ≡ option_map (λ l. l.running) self.now.client.life }
        ensures fit { IfSome result (λ all. FitTogether self.now.client.node.size all.now) }
    {
        match &self.life {
            Some(life) => Some(life.running()),
            None => None,
        }
    }

    /// The ids of the allocations that it ever started, in the order in which it did, also while it
    /// is down. None stands there twice.
    pub fn started(&self) -> &[AllocId]
        ensures started { result.now ≡ self.now.client.started }
        ensures distinct { AreDistinct result.now }
    {
        self.started.as_slice()
    }

    /// Whether a message comes from a server of the group, which is answered, and is for this
    /// client; else the refusal names the address at fault: a client's message is for a server.
    fn sender(&self, from: Actor, to: Actor) -> Result<ServerId, Refusal>
        ensures sender { IfOk result (λ server. from ≡ actors.Server server) }
        ensures receiver { OnOk result (to ≡ actors.Client self.now.client.node.number) }
        ensures admitted { OnOk result
            (misdirected_to_client self.now.size self.now.client.node.number from to ≡ None) }
        ensures refused { IfErr result (λ cause.
            misdirected_to_client self.now.size self.now.client.node.number from to ≡ Some cause) }
    {
        let Actor::Server(from) = from else {
            return Err(Refusal::Frame(3));
        };
        if from.position() >= self.size {
            return Err(Refusal::Frame(2));
        }
        let Actor::Client(to) = to else {
            return Err(Refusal::Frame(3));
        };
        if to.number() != client_of(&self.node).number() {
            return Err(Refusal::Frame(3));
        }
        Ok(from)
    }

    /// What a frame says, which is from a server of the group and for this client.
    fn read(&self, frame: &[u8]) -> Result<Received, Refusal>
        ensures received { IfOk result (IsReceived self.now.client.node.number frame.now) }
        ensures admitted { OnOk result
            (client_frame_refusal self.now.size self.now.client.node.number frame.now ≡ None) }
        ensures refused { IfErr result (λ cause. cause ≢ refusals.NoMemory →
            client_frame_refusal self.now.size self.now.client.node.number frame.now
            ≡ Some cause) }
    {
        let message = read_message::<Cluster>(self.alloc, frame)?;
        let from = self.sender(message.from(), message.to())?;
        Ok(Received {
            from,
            body: message.into_body(),
        })
    }

    /// A server's list comes to a client that is up. One of an index below that of the last one
    /// changes nothing. Without memory the client is down, with what it had started before.
    fn handle_list(&mut self, list: &Shown<'_>, outbox: &mut Frames) -> Result<(), NoMemory>
        requires up { is_some self.old.client.life ≡ true }
        requires listed { AreListed list.now.rows.now }
        ensures same { self.new.size ≡ self.old.size }
        ensures grows { StartsMore self.old self.new }
        ensures taken { OnOk result (AgentSteps self.old
            (Arrives list.now.from (Listing list.now.index list.now.rows.now)) self.new
            outbox.old outbox.new) }
        ensures lost { OnErr result (self.new ≡ crashed_agent self.old) }
        ensures unsent { OnErr result (outbox.new ≡ outbox.old) }
    {
        let Some(mut life) = self.life.take() else {
            unreachable!()
        };
        if list.index.get() < life.last_list().get() {
            self.life = Some(life);
            return Ok(());
        }
        let before = self.started.len();
        match apply_list(
            self.alloc,
            &self.node,
            list,
            &mut self.started,
            &mut life,
            outbox,
        ) {
            Ok(()) => {
                self.life = Some(life);
                Ok(())
            }
            Err(NoMemory) => {
                self.started.truncate(before);
                Err(NoMemory)
            }
        }
    }

    /// What a server says comes to a client that is up: of what it says, only a list changes it.
    fn handle(&mut self, received: Received, outbox: &mut Frames) -> Result<(), NoMemory>
        requires { is_some self.old.client.life ≡ true }
        ensures same { self.new.size ≡ self.old.size }
        ensures grows { StartsMore self.old self.new }
        ensures taken { OnOk result
            (TakesReceived self.old received self.new outbox.old outbox.new) }
        ensures lost { OnErr result (self.new ≡ crashed_agent self.old) }
        ensures unsent { OnErr result (outbox.new ≡ outbox.old) }
    {
        let Received { from, body } = received;
        match body {
            Body::List(index, listing) => {
                let rows = listing.as_slice();
                self.handle_list(&Shown { from, index, rows }, outbox)
            }
            _ => Ok(()),
        }
    }

    /// A frame comes, all of its bytes: what a step with it is.
    ///
    /// One that is down refuses it with `Down`. Then `Frame` names the offset of its first fault,
    /// or 2 where its sender is a server outside the group, or 3 where it is for another, as each
    /// is that a client sends. A refusal changes nothing and sends nothing. With `NoMemory` the
    /// client is down.
    pub fn receive(&mut self, frame: &[u8], outbox: &mut Frames) -> Result<(), Refusal>
        ensures same { self.new.size ≡ self.old.size }
        ensures grows { StartsMore self.old self.new }
        ensures taken { OnOk result
            (AgentTakes self.old (inputs.Frame frame.now) self.new outbox.old outbox.new) }
        ensures admitted { OnOk result
            (agent_refusal self.old.size self.old.client (inputs.Frame frame.now) ≡ None) }
        ensures refused { IfErr result (λ cause.
            IsAgentRefused self.old.size self.old.client (inputs.Frame frame.now) cause) }
        ensures left { IfErr result (λ cause. AgentRefusalLeaves self.old cause self.new) }
        ensures unsent { OnErr result (outbox.new ≡ outbox.old) }
    {
        if !self.is_up() {
            return Err(Refusal::Down);
        }
        match self.read(frame) {
            Ok(received) => match self.handle(received, outbox) {
                Ok(()) => Ok(()),
                Err(_) => Err(Refusal::NoMemory),
            },
            Err(cause) => {
                if let Refusal::NoMemory = cause {
                    self.life = None;
                }
                Err(cause)
            }
        }
    }

    /// Something is asked of a server.
    fn ask(&mut self, what: Asked, server: ServerId, outbox: &mut Frames) -> Result<(), Refusal>
        ensures same { self.new.size ≡ self.old.size }
        ensures grows { StartsMore self.old self.new }
        ensures taken { OnOk result
            (AgentTakes self.old (handing_of what server) self.new outbox.old outbox.new) }
        ensures admitted { OnOk result
            (agent_refusal self.old.size self.old.client (handing_of what server) ≡ None) }
        ensures refused { IfErr result (λ cause.
            IsAgentRefused self.old.size self.old.client (handing_of what server) cause) }
        ensures left { IfErr result (λ cause. AgentRefusalLeaves self.old cause self.new) }
        ensures unsent { OnErr result (outbox.new ≡ outbox.old) }
    {
        if !self.is_up() {
            return Err(Refusal::Down);
        }
        if server.position() >= self.size {
            return Err(Refusal::OutOfRange);
        }
        match send_asked(&self.node, what, server, outbox) {
            Ok(()) => Ok(()),
            Err(_) => {
                self.life = None;
                Err(Refusal::NoMemory)
            }
        }
    }

    /// An allocation that runs ends.
    fn end(&mut self, id: AllocId, ok: bool) -> Result<(), Refusal>
        ensures same { self.new.size ≡ self.old.size }
        ensures grows { StartsMore self.old self.new }
        ensures taken { OnOk result ((all : List Frame) →
            AgentTakes self.old (inputs.End id ok) self.new all all) }
        ensures admitted { OnOk result
            (agent_refusal self.old.size self.old.client (inputs.End id ok) ≡ None) }
        ensures refused { IfErr result (λ cause.
            IsAgentRefused self.old.size self.old.client (inputs.End id ok) cause) }
        ensures left { IfErr result (λ cause. AgentRefusalLeaves self.old cause self.new) }
    {
        let Some(mut life) = self.life.take() else {
            return Err(Refusal::Down);
        };
        if !life.runs(&id) {
            self.life = Some(life);
            return Err(Refusal::UnknownAlloc);
        }
        match life.end(&id, ok) {
            Ok(()) => {
                self.life = Some(life);
                Ok(())
            }
            Err(_) => Err(Refusal::NoMemory),
        }
    }

    /// One step: the client takes an input, and the frames of the messages that it sends are put
    /// behind those in the outbox.
    ///
    /// One that is down refuses every input but Restart with `Down`. Then of a frame `Frame` names
    /// the offset of its first fault, or 2 where its sender is a server outside the group, or 3
    /// where it is for another, as each is that a client sends; a Register, a Ping or a Pull is
    /// refused with `OutOfRange` where the group has no such server, and so is a Restart of one
    /// that is up; an End is refused with `UnknownAlloc` where no such allocation runs. A refusal
    /// changes nothing and sends nothing. With `NoMemory` the client is down, with what it ever
    /// started as it was; a Crash and a Restart take none.
    #[tactic(auto, using(crate::proofs::Taking::crashed_by, crate::proofs::Taking::restarted_by))]
    pub fn step(&mut self, input: ClientInput, outbox: &mut Frames) -> Result<(), Refusal>
        ensures same { self.new.size ≡ self.old.size }
        ensures grows { StartsMore self.old self.new }
        ensures taken { OnOk result (AgentTakes self.old input self.new outbox.old outbox.new) }
        ensures admitted { OnOk result
            (agent_refusal self.old.size self.old.client input ≡ None) }
        ensures refused { IfErr result (λ cause.
            IsAgentRefused self.old.size self.old.client input cause) }
        ensures left { IfErr result (λ cause. AgentRefusalLeaves self.old cause self.new) }
        ensures unsent { OnErr result (outbox.new ≡ outbox.old) }
    {
        match input {
            ClientInput::Frame(bytes) => self.receive(bytes.as_slice(), outbox),
            ClientInput::Register(server) => self.ask(Asked::Registration, server, outbox),
            ClientInput::Ping(server) => self.ask(Asked::Heartbeat, server, outbox),
            ClientInput::Pull(server) => self.ask(Asked::Listing, server, outbox),
            ClientInput::End(id, ok) => self.end(id, ok),
            ClientInput::Crash => {
                if !self.is_up() {
                    return Err(Refusal::Down);
                }
                self.life = None;
                Ok(())
            }
            ClientInput::Restart => {
                if self.is_up() {
                    return Err(Refusal::OutOfRange);
                }
                self.life = Some(Life::new(self.alloc));
                Ok(())
            }
        }
    }
}
