//! Turns of the desk.
ghost use Rattle.std.specs.Prelude.{◌≡◌, ◌⊎◌, true, is_some, option_map, None, Ok, Err, OnOk, OnErr, IfOk, IfErr, IfSome};
ghost use Rattle.raft_model.specs.Rafts.{Raft as AnyRaft, is_up, is_leader};
ghost use Rattle.raft_core.specs.Steps.{RefinesRaft};
ghost use Rattle.rows.specs.declared.command.Command.{Command};
ghost use Rattle.fsm_model.specs.ClusterMachine.{cluster_spec};
ghost use Rattle.fsm_model.specs.Words.{State};
ghost use Rattle.raft_core.specs.StoredParts.{KeepsLog};
ghost use Rattle.raft_core.specs.RaftView.{SameNumber, SameRaft};
ghost use Rattle.rows.specs.Keys.{eval_id};
ghost use Rattle.rows.specs.declared.refusal.Refusal.TheVariants as refusals;
ghost use Rattle.group_model.specs.Blocked.{first_due};
ghost use Rattle.group_model.specs.Desks.{applied_state, projected_state};
ghost use Rattle.leader.specs.OpenDesks.{IsOverBlocked, if_open, at_open, on_expire, on_reap};
ghost use Rattle.leader.specs.Verdicts.{judged_by, IsProposal, on_plan_turn};
ghost use Rattle.group_model.specs.Inputs.{PlanTurn, Lapse, Expire, DrainTurn, FreeTurn, Reap};
ghost use Rattle.server.specs.declared.server.Outbox.{Outbox as AnyOutbox};
ghost use Rattle.server.specs.ServerViews.{group_desk};
ghost use Rattle.server.specs.Inner.Acts.{EachDoes, DeclinesOwn, act_of, drain_at, proposes_if_any};

use super::{Outbox, Server};
use fsm_state::Cluster;
use leader::{Desk, JudgedPlan};
use raft_core::Raft;
use rows::{Command, EvalId, Index, NoMemory, NodeId, Refusal, StatusChange};

/// The plan that goes first leaves the queue of an open desk and is judged on the state after the
/// leader's whole log. Without memory the desk is closed.
fn judge_first(raft: &mut Raft<Cluster>, desk: &mut Desk) -> Result<Option<JudgedPlan>, NoMemory>
    requires leads { is_leader raft.old.server.mode ≡ true }
    requires is_open { is_some desk.old ≡ true }
    ensures same { SameRaft raft.old raft.new }
    ensures turn { IfOk result (λ j. (s : AnyRaft Command) →
        RefinesRaft cluster_spec raft.old s →
        at_open (on_plan_turn (projected_state s)) desk.old
        ≡ Ok (option_map judged_by j, desk.new)) }
    ensures whole { IfOk result (λ j. (whole : State)
        × (at_open (on_plan_turn whole) desk.old ≡ Ok (option_map judged_by j, desk.new))) }
    ensures proposal { IfOk result (λ j. IfSome j IsProposal) }
    ensures lost { OnErr result (desk.new ≡ None) }
{
    match raft.projected() {
        Ok(whole) => match desk.plan_turn(whole) {
            Ok(judged) => Ok(judged),
            Err(_) => {
                desk.clear();
                Err(NoMemory)
            }
        },
        Err(_) => {
            desk.clear();
            Err(NoMemory)
        }
    }
}

/// What is proposed of a node that was heard of so often and not since, by the state that is
/// applied.
fn expire_step(
    raft: &Raft<Cluster>,
    desk: &Desk,
    node: NodeId,
    beats: Index,
) -> Result<Command, Refusal>
    requires { is_up raft.now.server.mode ≡ true }
    ensures value { IfOk result (λ c. (s : AnyRaft Command) →
        RefinesRaft cluster_spec raft.now s →
        if_open (on_expire node beats (applied_state s)) desk.now ≡ Ok c) }
    ensures err { IfErr result (λ e. (s : AnyRaft Command) →
        RefinesRaft cluster_spec raft.now s →
        if_open (on_expire node beats (applied_state s)) desk.now ≡ Err e) }
{
    let Some(applied) = raft.machine() else {
        unreachable!()
    };
    Ok(desk.expire(node, beats, applied)?)
}

/// What is proposed of a node's drain, if anything is, by the state after the leader's whole log.
fn drain_step(
    raft: &mut Raft<Cluster>,
    desk: &Desk,
    node: NodeId,
) -> Result<Option<Command>, Refusal>
    requires leads { is_leader raft.old.server.mode ≡ true }
    requires is_open { is_some desk.now ≡ true }
    ensures same { SameRaft raft.old raft.new }
    ensures value { let d = group_desk desk.now in IfOk result (λ c. (s : AnyRaft Command) →
        RefinesRaft cluster_spec raft.old s → drain_at s d node ≡ Ok (proposes_if_any d c)) }
    ensures err { let d = group_desk desk.now in IfErr result (λ e. (s : AnyRaft Command) →
        RefinesRaft cluster_spec raft.old s →
        (e ≡ refusals.NoMemory) ⊎ (drain_at s d node ≡ Err e)) }
{
    match raft.projected() {
        Ok(whole) => desk.drain_turn(node, whole),
        Err(_) => Err(Refusal::NoMemory),
    }
}

/// The evaluation that is freed first, by the state after the leader's whole log, at a desk of the
/// applied state.
fn first_freed(raft: &mut Raft<Cluster>, desk: &Desk) -> Result<Option<EvalId>, NoMemory>
    requires { is_leader raft.old.server.mode ≡ true }
    ensures same { SameRaft raft.old raft.new }
    ensures value { IfOk result (λ id. (s : AnyRaft Command) →
        RefinesRaft cluster_spec raft.old s → IsOverBlocked (applied_state s) desk.now →
        id ≡ option_map eval_id (first_due (applied_state s) (projected_state s))) }
{
    match raft.projected() {
        Ok(whole) => match desk.free_turn(whole) {
            Ok(id) => Ok(id),
            Err(_) => Err(NoMemory),
        },
        Err(_) => Err(NoMemory),
    }
}

/// The evaluation that is reaped first, by the state after the leader's whole log.
fn first_reaped(raft: &mut Raft<Cluster>, desk: &Desk) -> Result<Option<EvalId>, NoMemory>
    requires leads { is_leader raft.old.server.mode ≡ true }
    requires is_open { is_some desk.now ≡ true }
    ensures same { SameRaft raft.old raft.new }
    ensures value { IfOk result (λ id. (s : AnyRaft Command) →
        RefinesRaft cluster_spec raft.old s →
        if_open (on_reap (projected_state s)) desk.now ≡ Ok id) }
{
    match raft.projected() {
        Ok(whole) => match desk.reap(whole) {
            Ok(id) => Ok(id),
            Err(_) => unreachable!(),
        },
        Err(_) => Err(NoMemory),
    }
}

impl Server {
    /// The plan that goes first is judged, what is kept of it is proposed, and its sender is told.
    pub(super) fn plan_turn(&mut self, outbox: &mut Outbox) -> Result<(), Refusal>
        requires { is_up self.old.raft.server.mode ≡ true }
        ensures same { SameNumber self.old.raft self.new.raft }
        ensures keeps { KeepsLog self.old.raft self.new.raft }
        ensures taken { OnOk result (EachDoes self.old (act_of self.old PlanTurn) self.new
            outbox.old outbox.new) }
        ensures stopped { IfErr result (λ cause.
            DeclinesOwn self.old PlanTurn cause self.new outbox.old outbox.new) }
    {
        self.open_desk()?;
        match judge_first(&mut self.raft, &mut self.desk.desk)? {
            Some(judged) => Ok(self.conclude_plan(judged, outbox)?),
            None => Ok(()),
        }
    }

    /// An outstanding evaluation is free again.
    pub(super) fn lapse(&mut self, eval: EvalId) -> Result<(), Refusal>
        requires { is_up self.old.raft.server.mode ≡ true }
        ensures same { SameNumber self.old.raft self.new.raft }
        ensures keeps { KeepsLog self.old.raft self.new.raft }
        // Whatever was sent and handed out before, nothing is.
        ensures taken { OnOk result ((out : AnyOutbox) →
            EachDoes self.old (act_of self.old (Lapse eval)) self.new out out) }
        ensures stopped { IfErr result (λ cause. (out : AnyOutbox) →
            DeclinesOwn self.old (Lapse eval) cause self.new out out) }
    {
        self.open_desk()?;
        self.desk.desk.lapse(eval)?;
        Ok(())
    }

    /// A node that was heard of so often, and not since, is proposed as disconnected where it is
    /// ready in the applied state, else as down.
    pub(super) fn expire(&mut self, node: NodeId, beats: Index) -> Result<(), Refusal>
        requires { is_up self.old.raft.server.mode ≡ true }
        ensures same { SameNumber self.old.raft self.new.raft }
        ensures keeps { KeepsLog self.old.raft self.new.raft }
        ensures taken { OnOk result ((out : AnyOutbox) →
            EachDoes self.old (act_of self.old (Expire node beats)) self.new out out) }
        ensures stopped { IfErr result (λ cause. (out : AnyOutbox) →
            DeclinesOwn self.old (Expire node beats) cause self.new out out) }
    {
        self.open_desk()?;
        let command = expire_step(&self.raft, &self.desk.desk, node, beats)?;
        self.propose(command)
    }

    /// A node's drain is proposed as done, or its next moves are, if there are any.
    pub(super) fn drain_turn(&mut self, node: NodeId) -> Result<(), Refusal>
        requires { is_up self.old.raft.server.mode ≡ true }
        ensures same { SameNumber self.old.raft self.new.raft }
        ensures keeps { KeepsLog self.old.raft self.new.raft }
        ensures taken { OnOk result ((out : AnyOutbox) →
            EachDoes self.old (act_of self.old (DrainTurn node)) self.new out out) }
        ensures stopped { IfErr result (λ cause. (out : AnyOutbox) →
            DeclinesOwn self.old (DrainTurn node) cause self.new out out) }
    {
        self.open_desk()?;
        match drain_step(&mut self.raft, &self.desk.desk, node)? {
            Some(command) => self.propose(command),
            None => Ok(()),
        }
    }

    /// The first evaluation that is due, if there is one, is proposed as pending.
    pub(super) fn free_turn(&mut self) -> Result<(), Refusal>
        requires { is_up self.old.raft.server.mode ≡ true }
        ensures same { SameNumber self.old.raft self.new.raft }
        ensures keeps { KeepsLog self.old.raft self.new.raft }
        ensures taken { OnOk result ((out : AnyOutbox) →
            EachDoes self.old (act_of self.old FreeTurn) self.new out out) }
        ensures stopped { IfErr result (λ cause. (out : AnyOutbox) →
            DeclinesOwn self.old FreeTurn cause self.new out out) }
    {
        self.open_desk()?;
        match first_freed(&mut self.raft, &self.desk.desk)? {
            Some(eval) => self.propose(Command::EvalStatus(eval, StatusChange::Pending)),
            None => Ok(()),
        }
    }

    /// The first evaluation that was given out too often, if there is one, is proposed as failed.
    pub(super) fn reap(&mut self) -> Result<(), Refusal>
        requires { is_up self.old.raft.server.mode ≡ true }
        ensures same { SameNumber self.old.raft self.new.raft }
        ensures keeps { KeepsLog self.old.raft self.new.raft }
        ensures taken { OnOk result ((out : AnyOutbox) →
            EachDoes self.old (act_of self.old Reap) self.new out out) }
        ensures stopped { IfErr result (λ cause. (out : AnyOutbox) →
            DeclinesOwn self.old Reap cause self.new out out) }
    {
        self.open_desk()?;
        match first_reaped(&mut self.raft, &self.desk.desk)? {
            Some(eval) => self.propose(Command::EvalStatus(eval, StatusChange::Failed)),
            None => Ok(()),
        }
    }
}
