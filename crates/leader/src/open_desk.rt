//! An open desk.
ghost use Rattle.std.specs.Prelude.{◌≡◌, ◌⊎◌, true, option_map, is_ok, OnOk, OnErr, IfOk, IfErr, IfSome, Ok, Err};
ghost use Rattle.rows.specs.declared.refusal.Refusal.TheVariants as refusals;
ghost use Rattle.leader.specs.Following.{tells_desk};
ghost use Rattle.leader.specs.Staying.{Follows};
ghost use Rattle.leader.specs.Errors.{desk_refusal};
ghost use Rattle.leader.specs.Verdicts.{judged_by, IsProposal, on_plan_turn, first_passes};
ghost use Rattle.leader.specs.OpenDesks.{IsOpened, has_due, on_deliver, on_outstanding, on_ack, on_nack, on_lapse, on_submit, on_free_turn, on_reap, on_heartbeat, on_expire};

use crate::desk_error::DeskError;
use crate::expiring::expiry_command;
use crate::following::follow;
use crate::judged::{JudgedPlan, judge};
use crate::turns::{first_blocked, first_pending};
use blocked::Blocked;
use eval_broker::Broker;
use expiry::Expiry;
use fsm_state::Cluster;
use plan_queue::PlanQueue;
use rows::{
    Command, Delivery, EvalId, Index, LeaderTerm, NoMemory, NodeId, Plan, Refusal, ServerId, Token,
};
use std::alloc::Global;
use std::marker::Model;

/// What a desk has while it is open.
#[derive(Drop)]
pub(crate) struct OpenDesk {
    broker: Broker,
    blocked: Blocked,
    plans: PlanQueue,
    expiry: Expiry,
    term: LeaderTerm,
}

impl Model for OpenDesk {
    ghost use Rattle.leader.specs.OpenDesks.{OpenDesk as AnyOpenDesk};

    ghost Value = { AnyOpenDesk };

    ghost view = { λ o. record {
      desk = record { broker = o.broker; plans = o.plans; heartbeat_counts = o.expiry };
      blocked = o.blocked;
      term = o.term;
    } };
}

impl OpenDesk {
    /// Its broker.
    pub fn broker(&self) -> &Broker
        ensures { result.now ≡ self.now.desk.broker }
    {
        &self.broker
    }

    /// The blocked evaluations that it keeps.
    pub fn blocked(&self) -> &Blocked
        ensures { result.now ≡ self.now.blocked }
    {
        &self.blocked
    }

    /// The plans that wait for a turn.
    pub fn plans(&self) -> &PlanQueue
        ensures { result.now ≡ self.now.desk.plans }
    {
        &self.plans
    }

    /// How often the nodes that are not down were heard of.
    pub fn expiry(&self) -> &Expiry
        ensures { result.now ≡ self.now.desk.heartbeat_counts }
    {
        &self.expiry
    }

    /// A desk that opens over a state, in a leader's term.
    pub fn over(alloc: Global, state: &Cluster, term: LeaderTerm) -> Result<OpenDesk, NoMemory>
        ensures { IfOk result (λ o. IsOpened state.now term o) }
    {
        Ok(OpenDesk {
            broker: Broker::rebuild(alloc, state)?,
            blocked: Blocked::rebuild(alloc, state)?,
            plans: PlanQueue::new(alloc),
            expiry: Expiry::rebuild(alloc, state)?,
            term,
        })
    }

    /// Follows an entry that was applied, by its command and the state that it left. Without memory
    /// the desk is only to be dropped.
    pub fn changed(
        &mut self,
        alloc: Global,
        command: &Command,
        state: &Cluster,
    ) -> Result<(), NoMemory>
        ensures follows { OnOk result (Follows command.now state.now self.old self.new) }
        ensures memory { OnErr result (tells_desk command.now state.now ≡ true) }
    {
        follow(
            alloc,
            &mut self.broker,
            &mut self.blocked,
            &mut self.expiry,
            command,
            state,
        )
    }

    /// Gives out the evaluation that goes next, if one does.
    pub fn deliver(&mut self, wait: Index) -> Result<Option<Delivery>, DeskError>
        ensures ok { IfOk result (λ d. on_deliver wait self.old ≡ Ok (d, self.new)) }
        ensures err { IfErr result (λ e. on_deliver wait self.old ≡ Err (desk_refusal e)) }
        ensures left { OnErr result (self.new ≡ self.old) }
    {
        Ok(self.broker.next(self.term, wait)?)
    }

    /// For a state of which index an outstanding pair waits.
    pub fn outstanding(&self, eval: EvalId, token: Token) -> Result<Index, DeskError>
        ensures ok { IfOk result (λ wait. on_outstanding eval token self.now ≡ Ok wait) }
        ensures err { IfErr result
            (λ e. on_outstanding eval token self.now ≡ Err (desk_refusal e)) }
    {
        Ok(self.broker.check(eval, token)?)
    }

    /// An outstanding pair is done with.
    pub fn ack(&mut self, eval: EvalId, token: Token) -> Result<(), DeskError>
        ensures ok { IfOk result (λ u. on_ack eval token self.old ≡ Ok (u, self.new)) }
        ensures err { IfErr result (λ e. on_ack eval token self.old ≡ Err (desk_refusal e)) }
        ensures left { OnErr result (self.new ≡ self.old) }
    {
        Ok(self.broker.ack(eval, token)?)
    }

    /// An outstanding pair is free again.
    pub fn nack(&mut self, eval: EvalId, token: Token) -> Result<(), DeskError>
        ensures ok { IfOk result (λ u. on_nack eval token self.old ≡ Ok (u, self.new)) }
        ensures err { IfErr result (λ e. on_nack eval token self.old ≡ Err (desk_refusal e)) }
        ensures left { OnErr result (self.new ≡ self.old) }
    {
        Ok(self.broker.nack(eval, token)?)
    }

    /// An outstanding evaluation is free again, whatever its token.
    pub fn lapse(&mut self, eval: EvalId) -> Result<(), DeskError>
        ensures ok { IfOk result (λ u. on_lapse eval self.old ≡ Ok (u, self.new)) }
        ensures err { IfErr result (λ e. on_lapse eval self.old ≡ Err (desk_refusal e)) }
        ensures left { OnErr result (self.new ≡ self.old) }
    {
        let Some((token, _wait)) = self.broker.outstanding(eval) else {
            return Err(DeskError::NotOutstanding);
        };
        Ok(self.broker.nack(eval, token)?)
    }

    /// A plan joins those that wait.
    pub fn submit(&mut self, from: ServerId, plan: Plan, applied: &Cluster) -> Result<(), Refusal>
        ensures ok { let call = on_submit from applied.now plan in
            IfOk result (λ u. call self.old ≡ Ok (u, self.new)) }
        ensures err { let call = on_submit from applied.now plan in
            IfErr result (λ e. (e ≡ refusals.NoMemory) ⊎ (call self.old ≡ Err e)) }
        ensures memory { let call = on_submit from applied.now plan in
            IfErr result (λ e. e ≡ refusals.NoMemory → is_ok (call self.old) ≡ true) }
        ensures left { OnErr result (self.new ≡ self.old) }
    {
        let Some(row) = applied.eval(plan.eval) else {
            return Err(Refusal::NotOutstanding);
        };
        self.plans.push(plan, row.priority, from)
    }

    /// The first evaluation that is due, and is still blocked after the whole log.
    pub fn free_turn(&self, alloc: Global, projected: &Cluster) -> Result<Option<EvalId>, NoMemory>
        ensures ok { IfOk result (λ id. on_free_turn projected.now self.now ≡ Ok id) }
        ensures memory { OnErr result (has_due self.now ≡ true) }
    {
        let due = self.blocked.due(alloc)?;
        Ok(first_blocked(due.as_slice(), projected))
    }

    /// The first evaluation that was given out three times, and is still pending after the whole
    /// log.
    pub fn reap(&self, projected: &Cluster) -> Option<EvalId>
        ensures { on_reap projected.now self.now ≡ Ok result }
    {
        first_pending(self.broker.failed(), projected)
    }

    /// A node was heard of once more.
    pub fn beat(&mut self, node: NodeId) -> Result<(), DeskError>
        ensures ok { IfOk result (λ u. on_heartbeat node self.old ≡ Ok (u, self.new)) }
        ensures err { IfErr result (λ e. on_heartbeat node self.old ≡ Err (desk_refusal e)) }
        ensures left { OnErr result (self.new ≡ self.old) }
    {
        Ok(self.expiry.beat(node)?)
    }

    /// What is proposed, by the applied state, of a node that was heard of so often and not since.
    pub fn expire(
        &self,
        node: NodeId,
        beats: Index,
        applied: &Cluster,
    ) -> Result<Command, DeskError>
        ensures ok { IfOk result (λ c. on_expire node beats applied.now self.now ≡ Ok c) }
        ensures err { IfErr result
            (λ e. on_expire node beats applied.now self.now ≡ Err (desk_refusal e)) }
    {
        self.expiry.expire(node, beats)?;
        Ok(expiry_command(applied, node))
    }

    /// Takes the plan that goes first out of the queue, and judges it. Without memory the desk is
    /// only to be dropped.
    pub fn plan_turn(
        &mut self,
        alloc: Global,
        projected: &Cluster,
    ) -> Result<Option<JudgedPlan>, NoMemory>
        ensures turn { let turn = on_plan_turn projected.now self.old in
            IfOk result (λ j. turn ≡ Ok (option_map judged_by j, self.new)) }
        ensures proposal { IfOk result (λ j. IfSome j IsProposal) }
        ensures memory { OnErr result (first_passes projected.now self.old ≡ true) }
    {
        let Some(queued) = self.plans.pop() else {
            return Ok(None);
        };
        let kept = match judge(alloc, &self.broker, &queued.plan, projected) {
            Err(Refusal::NoMemory) => return Err(NoMemory),
            kept => kept,
        };
        Ok(Some(JudgedPlan { queued, kept }))
    }
}
