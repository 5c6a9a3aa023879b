ghost use Rattle.std.specs.Prelude.{◌≡◌, ◌≢◌, ◌+◌, ◌<◌, ◌≤◌, ℕ, length, slice_get, true, Err, List, MatchBool, IfOk, OnErr, IfErr};
ghost use Rattle.std.specs.Option.{option_copied};
ghost use Rattle.rows.specs.declared.refusal.Refusal.TheVariants as refusals;
ghost use Rattle.raft_model.specs.Logs.{MAX};
ghost use Rattle.raft_model.specs.Rafts.{newcomer};
ghost use Rattle.raft_model.specs.Worlds.{World};
ghost use Rattle.raft_core.specs.Steps.{RefinesRaft, IsGroupMember};
ghost use Rattle.raft_safety.specs.Claims.{IsGreatestCommit};
ghost use Rattle.raft_progress.specs.Recovery.{HasRoom, everybody};
ghost use Rattle.world.specs.Events.{world_event, world_events};
ghost use Rattle.rows.specs.GroupSizes.{IsGroup};
ghost use Rattle.world.specs.WorldView.{RunsTo};
ghost use Rattle.world.specs.Steps.{WasDone, SameWorld, RefusesEvent, IsAwake, IsNew, IsNoGroup, Played, Replays};
ghost use Rattle.world.specs.Claims.{OneLeaderEver, LogsMatchEver, OneListEver, StatesSafeEver, RecoversEver};
ghost use Rattle.world.specs.Tickets.{StoodEver};
ghost use Rattle.world.specs.Inner.Inputs.{ActsIn, IsSent};

use crate::done::Done;
use crate::event::RaftEvent;
use crate::history::History;
use crate::input::actor;
use crate::room::rafts_have_room;
use machine::Machine;
use raft_core::{Raft, Stable};
use raft_progress::{a_short_run_has_room, each_group_recovers, never_stuck};
use raft_safety::{log_matching, one_leader_a_term, one_list, states_are_safe, within_limits};
use rows::{Index, NoMemory, Refusal, ServerId, is_group_size};
use std::alloc::Global;
use std::marker::Model;
use wire::{Frames, frames_are_whole};

/// A group of 3 or 5 servers that replicate the machine `M`, all messages that were ever sent among
/// them, and all events that happened.
#[derive(Drop)]
pub struct RaftWorld<M: Machine> {
    servers: Vec<Raft<M>>,
    history: History<M>,
}

impl<M: Machine> Model for RaftWorld<M> {
    ghost use Rattle.world.specs.WorldView.{WorldView, IsRaftWorld};

    ghost Value = { WorldView M M.Command };

    ghost view = { λ a. record { servers = a.servers.items; sent = a.history.sent; trace = a.history.trace; chain = a.history.chain } };

    ghost invariant = { λ a. IsRaftWorld M.spec (record { servers = a.servers.items; sent = a.history.sent; trace = a.history.trace; chain = a.history.chain }) };
}

/// The server at this position, before its first input.
fn newcomer<M: Machine>(alloc: Global, position: usize, n: usize) -> Result<Raft<M>, NoMemory>
    requires { IsGroupMember n position }
    ensures number { IfOk result (λ r. (r.me ≡ position) × (r.size ≡ n)) }
    ensures server { IfOk result (λ r. RefinesRaft M.spec r newcomer) }
{
    let Some(me) = ServerId::from_position(position) else {
        unreachable!()
    };
    match Raft::restart(alloc, me, n, Stable::new(alloc)) {
        Ok(raft) => Ok(raft),
        Err(refused) => match refused.refusal {
            Refusal::NoMemory => Err(NoMemory),
            _ => unreachable!(),
        },
    }
}

fn is_out_of_memory(done: &Result<Done, Refusal>) -> bool
    ensures { MatchBool result (done.now ≡ Err refusals.NoMemory)
        (done.now ≢ Err refusals.NoMemory) }
{
    match done {
        Ok(_) => false,
        Err(Refusal::NoMemory) => true,
        Err(_) => false,
    }
}

impl<M: Machine> RaftWorld<M> {
    /// A server takes an event.
    fn hand_event(&mut self, server: ServerId, event: RaftEvent<M>) -> Result<Done, Refusal>
        requires actor { ActsIn M.spec self.old.sent (world_event event) server }
        requires sent { IsSent self.old.sent (world_event event) }
        requires member { server < length self.old.servers }
        requires awake { IsAwake M.spec self.old (world_event event) }
        ensures ok { IfOk result (λ done.
            WasDone M.spec self.old (world_event event) done self.new) }
        ensures err { OnErr result (SameWorld self.old self.new) }
        ensures cause { IfErr result (λ refusal. refusal ≢ refusals.NoMemory →
            RefusesEvent M.spec self.old (world_event event) refusal) }
        ensures memory { IfErr result (λ refusal. refusal ≡ refusals.NoMemory →
            IsAwake M.spec self.old (world_event event)) }
    {
        // A frame that a server of the group sent is not refused for its bytes.
        frames_are_whole::<M>();
        within_limits::<M>();
        let raft = &mut self.servers[server.position()];
        self.history.hand_event(raft, server, event)
    }

    /// An event happens, if its actor is there and up.
    fn happen(&mut self, event: RaftEvent<M>) -> Result<Done, Refusal>
        ensures ok { IfOk result (λ done.
            WasDone M.spec self.old (world_event event) done self.new) }
        ensures err { OnErr result (SameWorld self.old self.new) }
        ensures cause { IfErr result (λ refusal. refusal ≢ refusals.NoMemory →
            RefusesEvent M.spec self.old (world_event event) refusal) }
        ensures memory { IfErr result (λ refusal. refusal ≡ refusals.NoMemory →
            IsAwake M.spec self.old (world_event event)) }
    {
        let Some(server) = actor(self.sent(), &event) else {
            return Err(Refusal::OutOfRange);
        };
        let Some(raft) = self.raft(server) else {
            return Err(Refusal::OutOfRange);
        };
        if raft.role().is_none() && !event.is_restart() {
            return Err(Refusal::Down);
        }
        self.hand_event(server, event)
    }

    /// One event happens.
    ///
    /// It is refused with `OutOfRange` where no such message was sent, where the group has no such
    /// server, and where a server that is up is to restart; with `Down` where its actor is down;
    /// with `Exhausted` where a server of the greatest term or index is to stand for election. A
    /// proposal is refused with `NotLeader` and the leader that is known where its server does not
    /// lead, with `Exhausted` where the log has no further index, and with the machine's own
    /// refusal where the state after the whole log does not admit the command. With `NoMemory` the
    /// world itself lacks memory. A refusal changes nothing, but that a leader that refuses a
    /// command may hold its machine after its whole log from then on.
    pub fn step(&mut self, event: RaftEvent<M>) -> Result<Done, Refusal>
        // It is a step of the definitions; or the event's actor crashed for want of memory, in a
        // restart with nothing changed.
        ensures ok { IfOk result (λ done.
            WasDone M.spec self.old (world_event event) done self.new) }
        ensures err { OnErr result (SameWorld self.old self.new) }
        // The definitions refuse it too, for the same reason.
        ensures cause { IfErr result (λ refusal. refusal ≢ refusals.NoMemory →
            RefusesEvent M.spec self.old (world_event event) refusal) }
        // Want of memory is not answered where no server takes the event.
        ensures memory { IfErr result (λ refusal. refusal ≡ refusals.NoMemory →
            IsAwake M.spec self.old (world_event event)) }
        // And these hold whatever happened so far, whether or not this event was refused.
        ensures one_leader { OneLeaderEver M.spec self.new }
        ensures log_matching { LogsMatchEver M.spec self.new }
        ensures one_list { OneListEver M.spec self.new }
        ensures safe_states { StatesSafeEver M.spec self.new }
        ensures recovers { RecoversEver M.spec self.new }
        ensures size { IsGroup (length self.new.servers) }
        // What stood under a ticket stood there.
        ensures stood { (index term : ℕ) (command : M.Command) →
            StoodEver M.spec self.old index term command →
            StoodEver M.spec self.new index term command }
    {
        let done = self.happen(event);
        self.size_is_3_or_5();
        self.one_leader();
        self.log_matching();
        self.one_list();
        self.safe_states();
        self.recovers();
        done
    }

    /// A group of `n` servers before its first event: followers in term 0 with empty logs. It is
    /// refused with `OutOfRange` where `n` is not 3 or 5, and with `NoMemory`.
    pub fn new(alloc: Global, n: usize) -> Result<RaftWorld<M>, Refusal>
        ensures ok { IfOk result (λ w. IsNew M.spec n w) }
        ensures refused { IfErr result (λ refusal. IsNoGroup n refusal) }
        // Want of memory is not answered where there is no such group.
        ensures memory { IfErr result (λ refusal. refusal ≡ refusals.NoMemory → IsGroup n) }
    {
        if !is_group_size(n) {
            return Err(Refusal::OutOfRange);
        }
        let mut servers = Vec::new(alloc);
        for position in 0..n {
            servers.push(newcomer(alloc, position, n)?)?;
        }
        Ok(RaftWorld {
            servers,
            history: History::new(alloc),
        })
    }

    /// The group after these events, from its beginning; those that are refused are passed over. It
    /// is refused with `OutOfRange` where `n` is not 3 or 5, and with `NoMemory` where the world
    /// lacks memory.
    pub fn run(alloc: Global, n: usize, events: &[RaftEvent<M>]) -> Result<RaftWorld<M>, Refusal>
        ensures played { IfOk result (λ w. Played M.spec n (world_events events.now) w) }
        // The trace of a group leads to that group again.
        ensures replays { IfOk result (λ w. Replays M.spec n (world_events events.now) w) }
        ensures refused { IfErr result (λ refusal. IsNoGroup n refusal) }
        ensures memory { IfErr result (λ refusal. refusal ≡ refusals.NoMemory → IsGroup n) }
        ensures one_leader { IfOk result (λ w. OneLeaderEver M.spec w) }
        ensures log_matching { IfOk result (λ w. LogsMatchEver M.spec w) }
        ensures one_list { IfOk result (λ w. OneListEver M.spec w) }
        ensures safe_states { IfOk result (λ w. StatesSafeEver M.spec w) }
        ensures recovers { IfOk result (λ w. RecoversEver M.spec w) }
        ensures size { IfOk result (λ w. IsGroup (length w.servers)) }
    {
        let mut world = Self::new(alloc, n)?;
        for event in events {
            let done = world.step(event.again(alloc)?);
            if is_out_of_memory(&done) {
                return Err(Refusal::NoMemory);
            }
        }
        world.size_is_3_or_5();
        world.one_leader();
        world.log_matching();
        world.one_list();
        world.safe_states();
        world.recovers();
        Ok(world)
    }

    /// A group has 3 or 5 servers.
    pub fn size_is_3_or_5(&self)
        ensures { IsGroup (length self.now.servers) }
    {
        // The type's own promise is known where a field is looked at.
        let _ = &self.servers;
    }

    /// How many servers there are: 3 or 5.
    pub fn size(&self) -> usize
        ensures value { result ≡ length self.now.servers }
        ensures group { IsGroup result }
    {
        self.size_is_3_or_5();
        self.servers.len()
    }

    /// No two servers ever led one term, at no two moments of the run that led here. (Raft, Figure
    /// 3, election safety.)
    pub fn one_leader(&self)
        ensures { OneLeaderEver M.spec self.now }
    {
        let _ = &self.servers;
        one_leader_a_term::<M>();
    }

    /// Two logs that hold an entry of one index and term, of any two servers at any two moments of
    /// the run that led here, are the same up to it. (Raft, Figure 3, log matching.)
    pub fn log_matching(&self)
        ensures { LogsMatchEver M.spec self.now }
    {
        let _ = &self.servers;
        log_matching::<M>();
    }

    /// There is one list of entries, of length `chain()`, of which every server that was up had
    /// applied a first part, at every moment of the run that led here. Whoever led a term had in
    /// its log what was applied in the terms up to it. (Raft, Figure 3, leader completeness and
    /// state machine safety.)
    pub fn one_list(&self)
        ensures { OneListEver M.spec self.now }
    {
        let _ = &self.servers;
        one_list::<M>();
    }

    /// The state after each first part of that list is safe, in the sense of the machine.
    pub fn safe_states(&self)
        ensures { StatesSafeEver M.spec self.now }
    {
        let _ = &self.servers;
        states_are_safe::<M>();
    }

    /// The group is not stuck, whatever happened, where it has room for two more terms and entries
    /// (`has_room`): who is down may restart, and then some server can come to lead, and all of
    /// them to have applied its whole log. It takes at most two timeouts of that server, so many of
    /// its beats as the length of its log tells, and deliveries of messages. Where a quorum is up
    /// and has such room, its members can do so by themselves. (Raft, section 5.6.)
    ///
    /// That is what can happen; that it does happen, or when, is not said.
    pub fn recovers(&self)
        ensures { RecoversEver M.spec self.now }
    {
        let _ = &self.servers;
        never_stuck::<M>();
        each_group_recovers::<M>();
    }

    /// Whether each server has room for two more terms and two more entries, as `recovers` asks.
    pub fn has_room(&self) -> bool
        ensures value { (past : List (World M.Command)) (w : World M.Command) →
            RunsTo M.spec self.now past w →
            MatchBool result (HasRoom (length self.now.servers) everybody w)
            (HasRoom (length self.now.servers) everybody w → ⊥) }
        // It has, as long as fewer than 2^40 - 2 events happened.
        ensures short { length self.now.trace + 2 ≤ MAX → result ≡ true }
    {
        a_short_run_has_room::<M>();
        rafts_have_room(&self.servers)
    }

    /// The greatest number of entries that any server has applied so far; 0 while nothing is
    /// applied.
    pub fn chain(&self) -> Index
        ensures value { result ≡ self.now.chain }
        ensures greatest { (past : List (World M.Command)) (w : World M.Command) →
            RunsTo M.spec self.now past w → IsGreatestCommit past w result }
    {
        self.history.chain()
    }

    /// The events that happened, in order, with a crash in place of each in which an actor found no
    /// memory.
    pub fn trace(&self) -> &[RaftEvent<M>]
        ensures { world_events result.now ≡ self.now.trace }
    {
        self.history.trace()
    }

    /// All frames that were ever sent, in order.
    pub fn sent(&self) -> &Frames
        ensures { result.now ≡ self.now.sent }
    {
        self.history.sent()
    }

    /// A server; none where the group has fewer.
    pub fn raft(&self, server: ServerId) -> Option<&Raft<M>>
        ensures { option_copied result ≡ slice_get self.now.servers server }
    {
        self.servers.get(server.position())
    }
}
