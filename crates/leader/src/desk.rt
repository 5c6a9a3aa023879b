ghost use Rattle.std.specs.Prelude.{◌≡◌, ◌⊎◌, true, false, None, is_some, is_ok, option_map, OnOk, OnErr, IfOk, IfErr, IfSome, Ok, Err};
ghost use Rattle.rows.specs.Keys.{eval_id};
ghost use Rattle.rows.specs.declared.refusal.Refusal.TheVariants as refusals;
ghost use Rattle.fsm_model.specs.Words.{State, is_some_and};
ghost use Rattle.group_model.specs.Blocked.{first_due};
ghost use Rattle.group_model.specs.Drains.{is_done};
ghost use Rattle.leader.specs.Following.{tells_desk};
ghost use Rattle.leader.specs.Staying.{FollowsIfOpen};
ghost use Rattle.leader.specs.Errors.{desk_refusal};
ghost use Rattle.leader.specs.Verdicts.{judged_by, IsProposal, on_plan_turn, first_passes};
ghost use Rattle.leader.specs.OpenDesks.{IsOpenedBy, IsOverBlocked, OutOfMemoryIfOpen, has_due, if_open, at_open, on_deliver, on_outstanding, on_ack, on_nack, on_lapse, on_submit, on_free_turn, on_reap, on_heartbeat, on_expire, on_drain_turn};

use crate::desk_error::DeskError;
use crate::drains::drain_command;
use crate::judged::JudgedPlan;
use crate::open_desk::OpenDesk;
use blocked::Blocked;
use eval_broker::Broker;
use expiry::Expiry;
use fsm_state::Cluster;
use plan_queue::PlanQueue;
use rows::{
    Command, Delivery, EvalId, Index, LeaderTerm, NoMemory, NodeId, Plan, Refusal, ServerId, Token,
};
use std::alloc::Global;
use std::marker::Model;

/// The desk of a leader, open or closed. Open it has the broker, the blocked evaluations, the queue
/// of plans, the counts of heartbeats, and the leader's term. A closed desk refuses each call with
/// `NotOpen`, whatever else would be refused. (Nomad documentation, "Scheduling in Nomad".)
#[derive(Drop)]
pub struct Desk {
    alloc: Global,
    opened: Option<OpenDesk>,
}

impl Model for Desk {
    ghost use Rattle.std.specs.Prelude.{Option};
    ghost use Rattle.leader.specs.OpenDesks.{OpenDesk as AnyOpenDesk};

    ghost Value = { Option AnyOpenDesk };

    ghost view = { λ d. d.opened };
}

impl Desk {
    /// A closed desk. It takes no memory.
    pub fn closed(alloc: Global) -> Desk
        ensures { result ≡ None }
    {
        Desk {
            alloc,
            opened: None,
        }
    }

    /// Whether it is open.
    pub fn is_open(&self) -> bool
        ensures { result ≡ is_some self.now }
    {
        self.opened.is_some()
    }

    /// Its broker, while it is open.
    pub fn broker(&self) -> Option<&Broker>
        ensures { option_map (λ b. b.now) result ≡ option_map (λ o. o.desk.broker) self.now }
    {
        match &self.opened {
            Some(desk) => Some(desk.broker()),
            None => None,
        }
    }

    /// The blocked evaluations that it keeps, while it is open.
    pub fn blocked(&self) -> Option<&Blocked>
        ensures { option_map (λ b. b.now) result ≡ option_map (λ o. o.blocked) self.now }
    {
        match &self.opened {
            Some(desk) => Some(desk.blocked()),
            None => None,
        }
    }

    /// The plans that wait for a turn, while it is open.
    pub fn plans(&self) -> Option<&PlanQueue>
        ensures { option_map (λ q. q.now) result ≡ option_map (λ o. o.desk.plans) self.now }
    {
        match &self.opened {
            Some(desk) => Some(desk.plans()),
            None => None,
        }
    }

    /// How often the nodes that are not down were heard of, while it is open.
    pub fn expiry(&self) -> Option<&Expiry>
        ensures { option_map (λ e. e.now) result
            ≡ option_map (λ o. o.desk.heartbeat_counts) self.now }
    {
        match &self.opened {
            Some(desk) => Some(desk.expiry()),
            None => None,
        }
    }

    /// Opens anew over a state, in a leader's term: nothing of what it held before stays. Without
    /// memory nothing changes.
    pub fn rebuild(&mut self, state: &Cluster, term: LeaderTerm) -> Result<(), NoMemory>
        ensures ok { OnOk result (IsOpenedBy state.now term self.new) }
        ensures err { OnErr result (self.new ≡ self.old) }
    {
        self.opened = Some(OpenDesk::over(self.alloc, state, term)?);
        Ok(())
    }

    /// Closes; nothing of what it held stays. It takes no memory.
    pub fn clear(&mut self)
        ensures { self.new ≡ None }
    {
        if self.is_open() {
            self.opened = None;
        }
    }

    /// Follows an entry that was applied, by its command and the state that it left; it is called
    /// after each of them. An open desk that was of the state before the entry is of this one then;
    /// a closed one stays closed. Without memory the desk is only to be dropped or cleared; a
    /// closed desk takes none, nor does an open one that is to be told of nothing.
    pub fn changed(&mut self, command: &Command, state: &Cluster) -> Result<(), NoMemory>
        ensures follows { OnOk result (FollowsIfOpen command.now state.now self.old self.new) }
        ensures closed { OnErr result (is_some self.old ≡ true) }
        ensures memory { OnErr result (tells_desk command.now state.now ≡ true) }
    {
        match &mut self.opened {
            Some(desk) => desk.changed(self.alloc, command, state),
            None => Ok(()),
        }
    }

    /// Gives out the evaluation that goes next, to be planned from a state of index `wait` or
    /// later; none where there is none. `Exhausted` where there is one and no serial is left. It
    /// takes no memory, and refused it changes nothing.
    pub fn deliver(&mut self, wait: Index) -> Result<Option<Delivery>, DeskError>
        ensures ok { IfOk result (λ d. at_open (on_deliver wait) self.old ≡ Ok (d, self.new)) }
        ensures err { IfErr result
            (λ e. at_open (on_deliver wait) self.old ≡ Err (desk_refusal e)) }
        ensures left { OnErr result (self.new ≡ self.old) }
    {
        match &mut self.opened {
            Some(desk) => desk.deliver(wait),
            None => Err(DeskError::NotOpen),
        }
    }

    /// For a state of which index an outstanding pair waits. `NotOutstanding` where the evaluation
    /// is not outstanding, `TokenDiffers` where it is under another token. It takes no memory.
    pub fn outstanding(&self, eval: EvalId, token: Token) -> Result<Index, DeskError>
        ensures ok { IfOk result (λ wait. if_open (on_outstanding eval token) self.now ≡ Ok wait) }
        ensures err { IfErr result
            (λ e. if_open (on_outstanding eval token) self.now ≡ Err (desk_refusal e)) }
    {
        match &self.opened {
            Some(desk) => desk.outstanding(eval, token),
            None => Err(DeskError::NotOpen),
        }
    }

    /// A worker is done with an evaluation: its job waits until the evaluation's row changes.
    /// `NotOutstanding` and `TokenDiffers` as `outstanding`. It takes no memory, and refused it
    /// changes nothing.
    pub fn ack(&mut self, eval: EvalId, token: Token) -> Result<(), DeskError>
        ensures ok { IfOk result (λ u. at_open (on_ack eval token) self.old ≡ Ok (u, self.new)) }
        ensures err { IfErr result
            (λ e. at_open (on_ack eval token) self.old ≡ Err (desk_refusal e)) }
        ensures left { OnErr result (self.new ≡ self.old) }
    {
        match &mut self.opened {
            Some(desk) => desk.ack(eval, token),
            None => Err(DeskError::NotOpen),
        }
    }

    /// A worker gives an evaluation back, and it is free again. `NotOutstanding` and
    /// `TokenDiffers` as `outstanding`. It takes no memory, and refused it changes nothing.
    pub fn nack(&mut self, eval: EvalId, token: Token) -> Result<(), DeskError>
        ensures ok { IfOk result (λ u. at_open (on_nack eval token) self.old ≡ Ok (u, self.new)) }
        ensures err { IfErr result
            (λ e. at_open (on_nack eval token) self.old ≡ Err (desk_refusal e)) }
        ensures left { OnErr result (self.new ≡ self.old) }
    {
        match &mut self.opened {
            Some(desk) => desk.nack(eval, token),
            None => Err(DeskError::NotOpen),
        }
    }

    /// A worker was not heard of for too long: its evaluation is free again, whatever the token.
    /// `NotOutstanding` where no worker has it. It takes no memory, and refused it changes nothing.
    pub fn lapse(&mut self, eval: EvalId) -> Result<(), DeskError>
        ensures ok { IfOk result (λ u. at_open (on_lapse eval) self.old ≡ Ok (u, self.new)) }
        ensures err { IfErr result (λ e. at_open (on_lapse eval) self.old ≡ Err (desk_refusal e)) }
        ensures left { OnErr result (self.new ≡ self.old) }
    {
        match &mut self.opened {
            Some(desk) => desk.lapse(eval),
            None => Err(DeskError::NotOpen),
        }
    }

    /// A worker of the server `from` submits a plan, which waits for a turn; its priority is that
    /// of its evaluation in the applied state. `NotOutstanding` where the evaluation has no row
    /// there, `QueueFull` where 256 plans wait, and `NoMemory` only where neither applies. Refused
    /// it changes nothing, and the plan is let go.
    pub fn submit(&mut self, from: ServerId, plan: Plan, applied: &Cluster) -> Result<(), Refusal>
        ensures ok { let call = on_submit from applied.now plan in
            IfOk result (λ u. at_open call self.old ≡ Ok (u, self.new)) }
        ensures err { let call = on_submit from applied.now plan in
            IfErr result (λ e. OutOfMemoryIfOpen self.old e ⊎ (at_open call self.old ≡ Err e)) }
        ensures memory { let call = on_submit from applied.now plan in
            IfErr result (λ e. e ≡ refusals.NoMemory → is_ok (at_open call self.old) ≡ true) }
        ensures left { OnErr result (self.new ≡ self.old) }
    {
        match &mut self.opened {
            Some(desk) => desk.submit(from, plan, applied),
            None => Err(Refusal::NotOpen),
        }
    }

    /// The plan of the highest priority, of equals the one that came earlier, leaves the queue,
    /// whatever becomes of it; none where none waits. It is held against `projected`, the state
    /// after the whole log: its pair must be outstanding, and then what is kept of it, or the
    /// reason why none is, is told. `NoMemory` only where that plan passes; then the desk is only
    /// to be dropped or cleared.
    pub fn plan_turn(&mut self, projected: &Cluster) -> Result<Option<JudgedPlan>, Refusal>
        ensures turn { let turn = at_open (on_plan_turn projected.now) self.old in
            IfOk result (λ j. turn ≡ Ok (option_map judged_by j, self.new)) }
        ensures proposal { IfOk result (λ j. IfSome j IsProposal) }
        ensures err { let turn = at_open (on_plan_turn projected.now) self.old in
            IfErr result (λ e. OutOfMemoryIfOpen self.old e ⊎ ((turn ≡ Err e)
            × (self.new ≡ self.old))) }
        ensures memory { IfErr result (λ e. e ≡ refusals.NoMemory →
            is_some_and (first_passes projected.now) self.old ≡ true) }
    {
        match &mut self.opened {
            Some(desk) => Ok(desk.plan_turn(self.alloc, projected)?),
            None => Err(Refusal::NotOpen),
        }
    }

    /// The first evaluation that is due, and is still blocked in `projected`, the state after the
    /// whole log; none where there is none. `NoMemory` only where some evaluation is due. It
    /// changes nothing.
    pub fn free_turn(&self, projected: &Cluster) -> Result<Option<EvalId>, Refusal>
        ensures ok { IfOk result (λ id. if_open (on_free_turn projected.now) self.now ≡ Ok id) }
        ensures of_state { IfOk result (λ id. (s : State) → IsOverBlocked s self.now →
            id ≡ option_map eval_id (first_due s projected.now)) }
        ensures err { let call = on_free_turn projected.now in
            IfErr result (λ e. OutOfMemoryIfOpen self.now e ⊎ (if_open call self.now ≡ Err e)) }
        ensures memory { IfErr result (λ e. e ≡ refusals.NoMemory →
            is_some_and has_due self.now ≡ true) }
    {
        match &self.opened {
            Some(desk) => Ok(desk.free_turn(self.alloc, projected)?),
            None => Err(Refusal::NotOpen),
        }
    }

    /// The first evaluation that was given out three times and is neither out nor acked, and is
    /// still pending in `projected`, the state after the whole log; none where there is none. It
    /// takes no memory, and changes nothing.
    pub fn reap(&self, projected: &Cluster) -> Result<Option<EvalId>, DeskError>
        ensures ok { IfOk result (λ id. if_open (on_reap projected.now) self.now ≡ Ok id) }
        ensures err { IfErr result
            (λ e. if_open (on_reap projected.now) self.now ≡ Err (desk_refusal e)) }
    {
        match &self.opened {
            Some(desk) => Ok(desk.reap(projected)),
            None => Err(DeskError::NotOpen),
        }
    }

    /// A node was heard of once more: the number of its heartbeats rises by one; the greatest,
    /// 2^40 - 1, stays. `UnknownNode` where it is neither ready nor disconnected, since no
    /// heartbeats of it are counted. It takes no memory, and refused it changes nothing. (Nomad
    /// documentation, "server" block of the agent configuration: heartbeats of clients.)
    pub fn beat(&mut self, node: NodeId) -> Result<(), DeskError>
        ensures ok { IfOk result (λ u. at_open (on_heartbeat node) self.old ≡ Ok (u, self.new)) }
        ensures err { IfErr result (λ e. at_open (on_heartbeat node) self.old
            ≡ Err (desk_refusal e)) }
        ensures left { OnErr result (self.new ≡ self.old) }
    {
        match &mut self.opened {
            Some(desk) => desk.beat(node),
            None => Err(DeskError::NotOpen),
        }
    }

    /// What is proposed of a node that was heard of `beats` times and not since, by `applied`, the
    /// applied state: `Disconnect` where it is ready there, else `NodeDown`. `UnknownNode` where
    /// its heartbeats are not counted, which are those of ready and disconnected nodes;
    /// `StaleExpiry` where it was heard of another number of times. It takes no memory, and changes
    /// nothing. (Nomad documentation, "disconnect" block of a group.)
    pub fn expire(
        &self,
        node: NodeId,
        beats: Index,
        applied: &Cluster,
    ) -> Result<Command, DeskError>
        ensures ok { IfOk result (λ c. if_open (on_expire node beats applied.now) self.now ≡ Ok c) }
        ensures err { let call = on_expire node beats applied.now in
            IfErr result (λ e. if_open call self.now ≡ Err (desk_refusal e)) }
    {
        match &self.opened {
            Some(desk) => desk.expire(node, beats, applied),
            None => Err(DeskError::NotOpen),
        }
    }

    /// What is proposed at a turn of a node's drain by `projected`, the state after the whole log:
    /// `DrainDone` where nothing lives on the node, else `Migrate` of the allocations that move
    /// next; none where there is nothing to do. `UnknownNode` where there is no such node,
    /// `NotDraining` where it is not drained, and `NoMemory` only where neither applies and an
    /// allocation lives on the node. It changes nothing. (Nomad documentation, "node drain"
    /// command.)
    pub fn drain_turn(&self, node: NodeId, projected: &Cluster) -> Result<Option<Command>, Refusal>
        ensures ok { IfOk result (λ c. if_open (on_drain_turn node projected.now) self.now ≡ Ok c) }
        ensures err { let call = on_drain_turn node projected.now in
            IfErr result (λ e. OutOfMemoryIfOpen self.now e ⊎ (if_open call self.now ≡ Err e)) }
        ensures memory { let call = on_drain_turn node projected.now in
            IfErr result (λ e. e ≡ refusals.NoMemory → is_ok (if_open call self.now) ≡ true) }
        ensures lives { IfErr result (λ e. e ≡ refusals.NoMemory →
            is_done node projected.now ≡ false) }
    {
        match &self.opened {
            Some(_) => drain_command(self.alloc, projected, node),
            None => Err(Refusal::NotOpen),
        }
    }
}
