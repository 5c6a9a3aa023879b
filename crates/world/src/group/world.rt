//! A group of servers and clients in one value.
ghost use Rattle.std.specs.Prelude.{◌≡◌, ◌≢◌, ℕ, ◌+◌, ◌<◌, ◌≤◌, suc, true, false, Some, None, Err, length, replicate, slice_get, [], IfOk, OnErr, IfErr, IfSome, IfNone, MatchBool, List, ◌∷◌, map};
ghost use Rattle.std.specs.Option.{option_copied};
ghost use Rattle.std.specs.List.{AllZip, AllByRecursion};
ghost use Rattle.rows.specs.declared.refusal.Refusal.TheVariants as refusals;
ghost use Rattle.rows.specs.declared.actor.Actor.TheVariants as actors;
ghost use Rattle.group_model.specs.Servers.{newcomer};
ghost use Rattle.group_model.specs.Agents.{agent_of};
ghost use Rattle.group_model.specs.Worlds as worlds;
ghost use Rattle.group_model.specs.Worlds.{Deliver, AtServer, AtClient, raft_of};
ghost use Rattle.raft_model.specs.Logs.{MAX};
ghost use Rattle.raft_progress.specs.Recovery.{HasRoom, everybody};
ghost use Rattle.group_safety.specs.Limits.{NodesFit};
ghost use Rattle.group_inputs.specs.Handings.{handing};
ghost use Rattle.actor.specs.Handed.{comes_as_frame, is_client_frame};
ghost use Rattle.server.specs.ServerViews.{ServerView, RefinesServer};
ghost use Rattle.rows.specs.GroupSizes.{IsGroup};
ghost use Rattle.group_inputs.specs.Events.{position_of, server_input, client_input, group_event, group_events};
ghost use Rattle.world.specs.GroupView.{GroupRunsTo, client_view, nodes_of, ServersKnowNumbers, ClientsKnowNumbers, IsSentTo};
ghost use Rattle.world.specs.GroupSteps.{IsGroupDone, SameView, RefusesGroupEvent, IsGroupAwake, IsNewGroup, WhyNoGroup, GroupPlayed, GroupReplays};
ghost use Rattle.world.specs.GroupClaims.{OneGroupList, SafeGroupStates, BackedPlans, PlacedStarts, GroupHeadline, GroupRecoversEver, IsGreatestEver, IsTraced};
ghost use Rattle.spec.specs.Visible.{Visible};
ghost use Rattle.world.specs.GroupShown.{HasShown, ShownSoFar, ShownAfter, OfTheLast, started_in, CarryDeliveries, ShownBySpec};
ghost use Rattle.world.specs.Inner.GroupInputs.{new_agents};
ghost use Rattle.world.specs.Inner.GroupParts.{GroupStepped};

use crate::done::Done;
use crate::group::history::GroupHistory;
use crate::group::ranges::ranges;
use crate::room::servers_have_room;
use actor::{is_client_frame, is_client_restart, is_frame, is_restart};
use client_agent::Agent;
use fsm_state::Cluster;
use group_inputs::{ClientInput, Event, ServerInput};
use group_progress::{a_short_run_has_room, each_group_recovers, never_stuck};
use group_safety::{
    limits_are_kept, one_list, plans_are_backed, senders_are_members, starts_are_placed,
    states_are_safe,
};
use rows::{
    Actor, ClientId, Index, NoMemory, NodeId, NodeSpec, Refusal, Sequence, ServerId, Work,
    all_ranges, is_group_size,
};
use server::Server;
use spec::every_run_shows_the_spec;
use std::alloc::Global;
use std::marker::Model;
use wire::{Frames, frames_are_whole};

/// A group of 3 or 5 servers and at most 64 clients, all messages that were ever sent among them,
/// and all events that happened.
#[derive(Drop)]
pub struct World {
    servers: Vec<Server>,
    clients: Vec<Agent>,
    history: GroupHistory,
}

impl Model for World {
    ghost use Rattle.world.specs.GroupView.{GroupView, GroupInvariant};

    ghost Value = { GroupView };

    ghost view = { λ a. record { servers = a.servers.items; clients = a.clients.items; outbox = a.history.outbox; trace = a.history.trace; chain = a.history.chain } };

    ghost invariant = { λ a. GroupInvariant (record { servers = a.servers.items; clients = a.clients.items; outbox = a.history.outbox; trace = a.history.trace; chain = a.history.chain }) };
}

/// The server at this position, before its first input.
fn new_server(alloc: Global, position: usize, n: usize) -> Result<Server, NoMemory>
    requires { (IsGroup n) × (position < n) }
    ensures number { IfOk result (λ s. (s.raft.me ≡ position) × (s.raft.size ≡ n)) }
    ensures server { IfOk result (λ s. RefinesServer s newcomer) }
{
    let Some(me) = ServerId::from_position(position) else {
        unreachable!()
    };
    match Server::new(alloc, me, n) {
        Ok(server) => Ok(server),
        Err(refusal) => match refusal {
            Refusal::NoMemory => Err(NoMemory),
            _ => unreachable!(),
        },
    }
}

/// The client of the node at this position, before its first input. Its number is one more.
fn new_client(alloc: Global, position: usize, node: &NodeSpec, n: usize) -> Agent
    requires { (IsGroup n) × (position < 64) }
    ensures { result ≡ record { size = n; client = agent_of (record node.now { number = suc position }) } }
{
    let Some(number) = NodeId::from_number(position as u8 + 1) else {
        unreachable!()
    };
    let node = NodeSpec {
        number,
        class: node.class,
        size: node.size,
    };
    match Agent::new(alloc, node, n) {
        Ok(client) => client,
        Err(_) => unreachable!(),
    }
}

/// The servers before their first input.
fn new_servers(alloc: Global, n: usize) -> Result<Vec<Server>, NoMemory>
    requires { IsGroup n }
    ensures count { IfOk result (λ servers. length servers.items ≡ n) }
    ensures places { IfOk result (λ servers. (i : ℕ) (s : ServerView) →
        slice_get servers.items i ≡ Some s → (s.raft.me ≡ i) × (s.raft.size ≡ n)) }
    ensures newcomers { IfOk result (λ servers.
        AllZip RefinesServer servers.items (replicate n newcomer)) }
{
    let mut servers = Vec::new(alloc);
    for position in 0..n {
        servers.push(new_server(alloc, position, n)?)?;
    }
    Ok(servers)
}

/// The clients of these nodes before their first input.
fn new_clients(alloc: Global, nodes: &[NodeSpec], n: usize) -> Result<Vec<Agent>, NoMemory>
    requires size { IsGroup n }
    requires few { length nodes.now ≤ 64 }
    ensures { IfOk result (λ clients. clients.items ≡ new_agents n 1 nodes.now) }
{
    let mut clients = Vec::new(alloc);
    for position in 0..nodes.len() {
        clients.push(new_client(alloc, position, &nodes[position], n))?;
    }
    Ok(clients)
}

/// Where a client stands, from 0.
fn position_of_client(client: ClientId) -> usize
    ensures { suc result ≡ client }
{
    usize::from(client.number() - 1)
}

fn is_out_of_memory(done: &Result<Done, Refusal>) -> bool
    ensures { MatchBool result (done.now ≡ Err refusals.NoMemory)
        (done.now ≢ Err refusals.NoMemory) }
{
    match done {
        Ok(_) => false,
        Err(Refusal::NoMemory) => true,
        Err(_) => false,
    }
}

impl World {
    /// A server takes an input of its own.
    fn hand_server(&mut self, me: ServerId, input: Box<ServerInput>) -> Result<Done, Refusal>
        requires member { me < length self.old.servers }
        requires own { comes_as_frame (handing input.value) ≡ false }
        requires awake { IsGroupAwake self.old (AtServer me (server_input (handing input.value))) }
        ensures { GroupStepped self.old (AtServer me (server_input (handing input.value))) result self.new }
    {
        limits_are_kept();
        senders_are_members();
        ranges(input.as_ref());
        let server = &mut self.servers[me.position()];
        self.history.hand_server(server, me, input)
    }

    /// A frame that was sent comes to a server.
    #[inline(always)]
    fn deliver_to_server(&mut self, me: ServerId, k: u64) -> Result<Done, Refusal>
        requires member { me < length self.old.servers }
        requires sent { IsSentTo self.old.outbox.frames (position_of k) (actors.Server me) }
        requires awake { IsGroupAwake self.old (Deliver (position_of k)) }
        ensures { GroupStepped self.old (Deliver (position_of k)) result self.new }
    {
        // A frame that a server of the group sent is not refused for its bytes.
        frames_are_whole::<Cluster>();
        limits_are_kept();
        senders_are_members();
        let server = &mut self.servers[me.position()];
        self.history.deliver_to_server(server, me, k)
    }

    /// A client takes an input of its own.
    fn hand_client(&mut self, me: ClientId, input: Box<ClientInput>) -> Result<Done, Refusal>
        requires member { me ≤ length self.old.clients }
        requires own { is_client_frame input.value ≡ false }
        requires awake { IsGroupAwake self.old (AtClient me (client_input input.value)) }
        ensures { GroupStepped self.old (AtClient me (client_input input.value)) result self.new }
    {
        limits_are_kept();
        senders_are_members();
        let client = &mut self.clients[position_of_client(me)];
        self.history.hand_client(client, me, input)
    }

    /// A frame that was sent comes to a client.
    fn deliver_to_client(&mut self, me: ClientId, k: u64) -> Result<Done, Refusal>
        requires member { me ≤ length self.old.clients }
        requires sent { IsSentTo self.old.outbox.frames (position_of k) (actors.Client me) }
        requires awake { IsGroupAwake self.old (Deliver (position_of k)) }
        ensures { GroupStepped self.old (Deliver (position_of k)) result self.new }
    {
        // A frame that a server of the group sent is not refused for its bytes.
        frames_are_whole::<Cluster>();
        limits_are_kept();
        senders_are_members();
        let client = &mut self.clients[position_of_client(me)];
        self.history.deliver_to_client(client, me, k)
    }

    /// An input of a server's own.
    fn at_server(&mut self, me: ServerId, input: Box<ServerInput>) -> Result<Done, Refusal>
        ensures { GroupStepped self.old (AtServer me (server_input (handing input.value))) result self.new }
    {
        let Some(server) = self.server(me) else {
            return Err(Refusal::OutOfRange);
        };
        let given = input.as_ref();
        if server.role().is_none() && !is_restart(given) {
            return Err(Refusal::Down);
        }
        if is_frame(given) {
            return Err(Refusal::OutOfRange);
        }
        self.hand_server(me, input)
    }

    /// An input of a client's own.
    fn at_client(&mut self, me: ClientId, input: Box<ClientInput>) -> Result<Done, Refusal>
        ensures { GroupStepped self.old (AtClient me (client_input input.value)) result self.new }
    {
        let Some(client) = self.client(me) else {
            return Err(Refusal::OutOfRange);
        };
        let given = input.as_ref();
        if !client.is_up() && !is_client_restart(given) {
            return Err(Refusal::Down);
        }
        if is_client_frame(given) {
            return Err(Refusal::OutOfRange);
        }
        self.hand_client(me, input)
    }

    /// A frame that was sent to a server comes.
    #[inline(always)]
    fn to_server(&mut self, me: ServerId, k: u64) -> Result<Done, Refusal>
        requires { IsSentTo self.old.outbox.frames (position_of k) (actors.Server me) }
        ensures { GroupStepped self.old (Deliver (position_of k)) result self.new }
    {
        let Some(server) = self.server(me) else {
            return Err(Refusal::OutOfRange);
        };
        if server.role().is_none() {
            return Err(Refusal::Down);
        }
        self.deliver_to_server(me, k)
    }

    /// A frame that was sent to a client comes.
    fn to_client(&mut self, me: ClientId, k: u64) -> Result<Done, Refusal>
        requires { IsSentTo self.old.outbox.frames (position_of k) (actors.Client me) }
        ensures { GroupStepped self.old (Deliver (position_of k)) result self.new }
    {
        let Some(client) = self.client(me) else {
            return Err(Refusal::OutOfRange);
        };
        if !client.is_up() {
            return Err(Refusal::Down);
        }
        self.deliver_to_client(me, k)
    }

    /// A message that was sent comes to its receiver.
    #[inline(always)]
    fn deliver(&mut self, k: u64) -> Result<Done, Refusal>
        ensures { GroupStepped self.old (Deliver (position_of k)) result self.new }
    {
        let Some(to) = self.receiver(k) else {
            return Err(Refusal::OutOfRange);
        };
        match to {
            Actor::Server(me) => self.to_server(me, k),
            Actor::Client(me) => self.to_client(me, k),
        }
    }

    /// An event happens, if its actor is there and up.
    #[inline(always)]
    fn happen(&mut self, event: Event) -> Result<Done, Refusal>
        ensures { GroupStepped self.old (group_event event) result self.new }
    {
        match event {
            Event::Deliver(k) => self.deliver(k),
            Event::Server(me, input) => self.at_server(me, input),
            Event::Client(me, input) => self.at_client(me, input),
        }
    }

    /// One event happens.
    ///
    /// It is refused with `OutOfRange` where no such message was sent, or the group has no such
    /// server or client; then with `Down` where that is down and is not to restart; then with
    /// `OutOfRange` where the input is a frame (frames come by a Deliver alone). Then as the server
    /// or the client refuses it (`Server::step`, `Agent::step`). With `NoMemory` the world itself
    /// lacks memory, never in place of the first three. A refusal changes nothing, but that a
    /// leader that refuses a command may hold its machine after its whole log from then on.
    pub fn step(&mut self, event: Event) -> Result<Done, Refusal>
        // It is a step of the definitions; or the event's actor crashed for want of memory, in a
        // restart with nothing changed.
        ensures ok { IfOk result (λ done. IsGroupDone self.old (group_event event) done self.new) }
        ensures err { OnErr result (SameView self.old self.new) }
        // The definitions refuse it too, for the same reason.
        ensures cause { IfErr result (λ refusal. refusal ≢ refusals.NoMemory →
            RefusesGroupEvent self.old (group_event event) refusal) }
        // Want of memory is not answered where no actor takes the event.
        ensures memory { IfErr result (λ refusal. refusal ≡ refusals.NoMemory →
            IsGroupAwake self.old (group_event event)) }
        // And these hold whatever happened so far, whether or not this event was refused.
        ensures one_list { OneGroupList self.new }
        ensures safe_states { SafeGroupStates self.new }
        ensures plans_backed { BackedPlans self.new }
        ensures starts_placed { PlacedStarts self.new }
        // All four at once.
        ensures headline { GroupHeadline self.new }
        ensures recovers { GroupRecoversEver self.new }
        // What it has shown goes on by what is seen now.
        ensures shown { (shown : List Visible) → HasShown self.old shown →
            ShownAfter result self.new shown }
        ensures size { IsGroup (length self.new.servers) }
    {
        let done = self.happen(event);
        self.size_is_3_or_5();
        self.one_list();
        self.safe_states();
        self.plans_backed();
        self.starts_placed();
        self.headline();
        self.recovers();
        done
    }

    /// A group of `n` servers and of these nodes' clients before its first event: followers in term
    /// 0 with empty logs, and clients that are up. Client k is the one of the k-th node, whatever
    /// number that has.
    ///
    /// It is refused with `OutOfRange` where `n` is not 3 or 5 or there are more than 64 nodes, and
    /// with `NoMemory`.
    pub fn new(alloc: Global, n: usize, nodes: &[NodeSpec]) -> Result<World, Refusal>
        ensures ok { IfOk result (λ w. IsNewGroup n nodes.now w) }
        ensures refused { IfErr result (λ refusal. WhyNoGroup n nodes.now refusal) }
        // Want of memory is not answered where there is no such group.
        ensures memory { IfErr result (λ refusal. refusal ≡ refusals.NoMemory →
            IsGroup n × (length nodes.now ≤ 64)) }
        // It has shown one moment.
        ensures shown { IfOk result (λ w. (now : Visible) × HasShown w (now ∷ [])) }
    {
        if !is_group_size(n) {
            return Err(Refusal::OutOfRange);
        }
        if nodes.len() > 64 {
            return Err(Refusal::OutOfRange);
        }
        all_ranges(nodes);
        Ok(World {
            servers: new_servers(alloc, n)?,
            clients: new_clients(alloc, nodes, n)?,
            history: GroupHistory::new(alloc),
        })
    }

    /// The group after these events, from its beginning; those that are refused are passed over. It
    /// is refused with `OutOfRange` where `n` is not 3 or 5 or there are more than 64 nodes, and
    /// with `NoMemory` where the world lacks memory.
    pub fn run(
        alloc: Global,
        n: usize,
        nodes: &[NodeSpec],
        events: &[Event],
    ) -> Result<World, Refusal>
        ensures played { IfOk result (λ w. GroupPlayed n nodes.now (group_events events.now) w) }
        // The trace of a group leads to that group again.
        ensures replays { IfOk result (λ w. GroupReplays n nodes.now (group_events events.now) w) }
        ensures refused { IfErr result (λ refusal. WhyNoGroup n nodes.now refusal) }
        ensures memory { IfErr result (λ refusal. refusal ≡ refusals.NoMemory →
            IsGroup n × (length nodes.now ≤ 64)) }
        ensures one_list { IfOk result (λ w. OneGroupList w) }
        ensures safe_states { IfOk result (λ w. SafeGroupStates w) }
        ensures plans_backed { IfOk result (λ w. BackedPlans w) }
        ensures starts_placed { IfOk result (λ w. PlacedStarts w) }
        // All four at once.
        ensures headline { IfOk result (λ w. GroupHeadline w) }
        ensures recovers { IfOk result (λ w. GroupRecoversEver w) }
        ensures shown { IfOk result (λ w. ShownSoFar w) }
        ensures size { IfOk result (λ w. IsGroup (length w.servers)) }
    {
        // What is handed in is within its limits, and so is what is proposed for it.
        all_ranges(nodes);
        limits_are_kept();
        let mut world = Self::new(alloc, n, nodes)?;
        for event in events {
            let done = world.step(event.try_clone(alloc)?);
            if is_out_of_memory(&done) {
                return Err(Refusal::NoMemory);
            }
        }
        world.size_is_3_or_5();
        world.one_list();
        world.safe_states();
        world.plans_backed();
        world.starts_placed();
        world.headline();
        world.recovers();
        world.has_shown();
        Ok(world)
    }

    /// A group has 3 or 5 servers.
    pub fn size_is_3_or_5(&self)
        ensures { IsGroup (length self.now.servers) }
    {
        // The type's own promise is known where a field is looked at.
        let _ = &self.servers;
    }

    /// There is one list of entries, of length `chain()`, of which every server that was up had
    /// applied a first part, at every moment of the run that led here; no two servers ever led one
    /// term; and whoever led a term had in its log what was applied in the terms up to it. (Raft,
    /// Figure 3, election safety, leader completeness and state machine safety.)
    pub fn one_list(&self)
        ensures { OneGroupList self.now }
    {
        let _ = &self.servers;
        limits_are_kept();
        one_list();
    }

    /// The state after each first part of that list is safe: no node's use is past its size, and no
    /// two live allocations are of one name.
    pub fn safe_states(&self)
        ensures { SafeGroupStates self.now }
    {
        let _ = &self.servers;
        limits_are_kept();
        states_are_safe();
    }

    /// Each plan of that list was appended by a plan turn of its term's leader, while its
    /// evaluation was outstanding under its token at that leader's desk. (Nomad documentation,
    /// "Scheduling in Nomad": plan queue.)
    pub fn plans_backed(&self)
        ensures { BackedPlans self.now }
    {
        let _ = &self.servers;
        limits_are_kept();
        plans_are_backed();
    }

    /// Whatever a client ever started was placed on its node by a plan of that list, which some
    /// server had applied by then. (Nomad documentation, "Allocations".)
    pub fn starts_placed(&self)
        ensures { PlacedStarts self.now }
    {
        let _ = &self.servers;
        limits_are_kept();
        starts_are_placed();
    }

    /// Through every list of deliveries, losses, repeats, elections, expiries, crashes and
    /// restarts, one list of entries exists of which every running server's state, at every moment,
    /// is some first entries applied; in each such state no node is oversubscribed and no allocation
    /// name live twice; each of its plans was appended under its leader's outstanding token; clients
    /// start only what it places on them.
    pub fn headline(&self)
        ensures { GroupHeadline self.now }
    {
        let _ = &self.servers;
        limits_are_kept();
        one_list();
        states_are_safe();
        plans_are_backed();
        starts_are_placed();
    }

    /// The group is not stuck, whatever happened, where it has room for two more terms and entries
    /// (`has_room`): who is down may restart, and then some server can come to lead, with an open
    /// desk, and all of them to have applied its whole log. It takes at most two timeouts of that
    /// server, so many of its beats as the length of its log tells, and deliveries of messages.
    /// Where a quorum is up and has such room, its members can do so by themselves. (Raft, section
    /// 5.6.)
    ///
    /// That is what can happen; that it does happen, or when, is not said.
    pub fn recovers(&self)
        ensures { GroupRecoversEver self.now }
    {
        let _ = &self.servers;
        limits_are_kept();
        never_stuck();
        each_group_recovers();
    }

    /// Whether each server has room for two more terms and two more entries, as `recovers` asks.
    pub fn has_room(&self) -> bool
        ensures value { (past : List worlds.World) (w : worlds.World) →
            GroupRunsTo self.now past w →
            MatchBool result (HasRoom (length self.now.servers) everybody (raft_of w))
            (HasRoom (length self.now.servers) everybody (raft_of w) → ⊥) }
        // It has, as long as fewer than 2^40 - 2 events happened.
        ensures short { length self.now.trace + 2 ≤ MAX → result ≡ true }
    {
        limits_are_kept();
        a_short_run_has_room();
        servers_have_room(&self.servers)
    }

    /// Whatever the group has shown, moment by moment, is what the specification shows: one state
    /// machine of two pages (`spec`). `new` begins what is shown, `step` goes on with it, and
    /// `state`, `clients` and `sent` answer what is shown last. (Abadi and Lamport, "The Existence
    /// of Refinement Mappings", 1991.)
    pub fn shows_the_spec(&self)
        ensures { ShownBySpec self.now }
    {
        let _ = &self.servers;
        limits_are_kept();
        every_run_shows_the_spec();
    }

    /// It has shown something so far: the moment before its first event, and one after each event of
    /// its trace.
    pub fn has_shown(&self)
        ensures { ShownSoFar self.now }
    {
        let _ = &self.servers;
    }

    /// The greatest number of entries that any server has applied so far; 0 while nothing is
    /// applied.
    pub fn chain(&self) -> Index
        ensures value { result ≡ self.now.chain }
        ensures greatest { IsGreatestEver self.now result }
    {
        self.history.chain()
    }

    /// The events that happened, in order, with a crash in place of each in which an actor found no
    /// memory.
    pub fn trace(&self) -> &[Event]
        ensures value { group_events result.now ≡ self.now.trace }
        // Each is a delivery of a message that was sent, or an input of its actor's own.
        ensures own { AllByRecursion (IsTraced (length self.now.outbox.frames)) self.now.trace }
    {
        self.history.trace()
    }

    /// All frames that were ever sent, in order.
    pub fn sent(&self) -> &Frames
        ensures value { result.now ≡ self.now.outbox.frames }
        // They carry messages, one for one, that delivered what is shown last.
        ensures shown { OfTheLast self.now (λ now. CarryDeliveries result.now now) }
    {
        self.history.sent()
    }

    /// Who is to receive the k-th message of all that were sent, from 1; none where there is no
    /// such message.
    pub fn receiver(&self, k: u64) -> Option<Actor>
        ensures some { IfSome result (λ to. IsSentTo self.now.outbox.frames (position_of k) to) }
        ensures none { IfNone result (slice_get self.now.outbox.frames (position_of k) ≡ None) }
    {
        Some(self.history.frame(k)?.to())
    }

    /// Whether something came for the servers' workers since that was last asked.
    pub fn has_work(&self) -> bool
        ensures { MatchBool result (self.now.outbox.work ≢ []) (self.now.outbox.work ≡ []) }
    {
        self.history.has_work()
    }

    /// What came for the servers' workers since this was last asked, in order.
    pub fn take_work(&mut self) -> Sequence<Work>
        ensures work { result ≡ self.old.outbox.work }
        ensures rest { self.new ≡ record self.old { outbox = record self.old.outbox { work = [] } } }
        ensures shown { (shown : List Visible) → HasShown self.old shown →
            HasShown self.new shown }
    {
        self.history.take_work()
    }

    /// How many servers there are: 3 or 5. Each knows that number, and its own position.
    pub fn size(&self) -> usize
        ensures value { result ≡ length self.now.servers }
        ensures group { IsGroup result }
        ensures places { ServersKnowNumbers self.now }
    {
        self.size_is_3_or_5();
        self.servers.len()
    }

    /// A server; none where the group has fewer.
    pub fn server(&self, server: ServerId) -> Option<&Server>
        ensures { option_copied result ≡ slice_get self.now.servers server }
    {
        self.servers.get(server.position())
    }

    /// A client; none where the group has fewer.
    pub fn client(&self, client: ClientId) -> Option<&Agent>
        ensures { option_copied result ≡ client_view self.now.clients client }
    {
        self.clients.get(position_of_client(client))
    }

    /// The clients in the order of their nodes: the k-th, from 1, is that of node k. At most 64.
    pub fn clients(&self) -> &[Agent]
        ensures clients { result.now ≡ self.now.clients }
        // What they ever started is what is shown last.
        ensures shown { OfTheLast self.now (λ now. now.started ≡ map started_in result.now) }
        ensures places { ClientsKnowNumbers self.now }
        ensures nodes { NodesFit (nodes_of self.now) }
    {
        &self.clients
    }
}
