//! What workers ask of the leader's desk, and what it answers them.
ghost use Rattle.std.specs.Prelude.{◌≡◌, ◌≢◌, true, Ok, Err, OnOk, OnErr, IfOk, IfErr};
ghost use Rattle.raft_core.specs.StoredParts.{KeepsLog};
ghost use Rattle.raft_core.specs.RaftView.{SameNumber};
ghost use Rattle.rows.specs.declared.refusal.Refusal.TheVariants as refusals;
ghost use Rattle.rows.specs.declared.worker.WorkerRequest.TheVariants as requests;
ghost use Rattle.raft_model.specs.Rafts.{Raft as AnyRaft, is_up};
ghost use Rattle.raft_core.specs.Steps.{RefinesRaft};
ghost use Rattle.rows.specs.declared.command.Command.{Command};
ghost use Rattle.fsm_model.specs.ClusterMachine.{cluster_spec};
ghost use Rattle.group_model.specs.Desks.{applied_state};
ghost use Rattle.leader.specs.OpenDesks.{at_open, on_submit};
ghost use Rattle.server.specs.Inner.Acts.{EachDoes, OutOfMemoryTurn, request_act, response_act};

use super::replies::{send_refusal, send_response};
use super::{Outbox, Server};
use fsm_state::Cluster;
use leader::Desk;
use raft_core::Raft;
use rows::{
    AskedRequest, Command, EvalId, EvalOutcome, NoMemory, Plan, Refusal, ServerId, Token, Work,
    WorkerResponse,
};

/// A plan comes to the desk, on the state that is applied.
#[tactic(auto, using(crate::proofs::DeskCalls::not_lacking))]
fn submit(raft: &Raft<Cluster>, desk: &mut Desk, from: ServerId, plan: Plan) -> Result<(), Refusal>
    requires { is_up raft.now.server.mode ≡ true }
    ensures ok { IfOk result (λ u. (s : AnyRaft Command) →
        RefinesRaft cluster_spec raft.now s →
        at_open (on_submit from (applied_state s) plan) desk.old ≡ Ok (u, desk.new)) }
    ensures err { IfErr result (λ e. (s : AnyRaft Command) →
        RefinesRaft cluster_spec raft.now s → e ≢ refusals.NoMemory →
        at_open (on_submit from (applied_state s) plan) desk.old ≡ Err e) }
    ensures left { OnErr result (desk.new ≡ desk.old) }
{
    let Some(state) = raft.machine() else {
        unreachable!()
    };
    desk.submit(from, plan, state)
}

impl Server {
    /// Take: the evaluation that goes next, or none, is sent; or why not.
    pub(super) fn serve_take(&mut self, from: ServerId, outbox: &mut Outbox) -> Result<(), NoMemory>
        requires { is_up self.old.raft.server.mode ≡ true }
        ensures same { SameNumber self.old.raft self.new.raft }
        ensures keeps { KeepsLog self.old.raft self.new.raft }
        ensures taken { OnOk result (EachDoes self.old (request_act self.old from requests.Take)
            self.new outbox.old outbox.new) }
        ensures lost { OnErr result (OutOfMemoryTurn self.old self.new outbox.old outbox.new) }
    {
        let me = self.raft.me();
        let asked = AskedRequest::Take;
        if let Err(refusal) = self.open_desk() {
            return send_refusal(&mut outbox.frames, me, from, asked, refusal);
        }
        match self.desk.desk.deliver(self.raft.last()) {
            Ok(given) => {
                let response = WorkerResponse::Delivered(given);
                send_response(&mut outbox.frames, me, from, response)
            }
            Err(error) => {
                send_refusal(&mut outbox.frames, me, from, asked, Refusal::from(error))
            }
        }
    }

    /// Submit: the plan waits for a turn; or it is sent why not.
    pub(super) fn serve_submit(
        &mut self,
        from: ServerId,
        plan: Plan,
        outbox: &mut Outbox,
    ) -> Result<(), NoMemory>
        requires { is_up self.old.raft.server.mode ≡ true }
        ensures same { SameNumber self.old.raft self.new.raft }
        ensures keeps { KeepsLog self.old.raft self.new.raft }
        ensures taken { OnOk result (
            EachDoes self.old (request_act self.old from (requests.Submit plan))
            self.new outbox.old outbox.new) }
        ensures lost { OnErr result (OutOfMemoryTurn self.old self.new outbox.old outbox.new) }
    {
        let me = self.raft.me();
        let asked = AskedRequest::Submit(plan.eval, plan.token);
        if let Err(refusal) = self.open_desk() {
            return send_refusal(&mut outbox.frames, me, from, asked, refusal);
        }
        match submit(&self.raft, &mut self.desk.desk, from, plan) {
            Ok(()) => Ok(()),
            Err(cause) => match cause {
                Refusal::NoMemory => Err(NoMemory),
                refusal => send_refusal(&mut outbox.frames, me, from, asked, refusal),
            },
        }
    }

    /// Finish: the status is proposed, and the pair is done with; or it is sent why not.
    pub(super) fn serve_finish(
        &mut self,
        from: ServerId,
        eval: EvalId,
        token: Token,
        outcome: EvalOutcome,
        outbox: &mut Outbox,
    ) -> Result<(), NoMemory>
        requires { is_up self.old.raft.server.mode ≡ true }
        ensures same { SameNumber self.old.raft self.new.raft }
        ensures keeps { KeepsLog self.old.raft self.new.raft }
        ensures taken { OnOk result (
            EachDoes self.old (request_act self.old from (requests.Finish eval token outcome))
            self.new outbox.old outbox.new) }
        ensures lost { OnErr result (OutOfMemoryTurn self.old self.new outbox.old outbox.new) }
    {
        let me = self.raft.me();
        let (eval, token) = (&eval, &token);
        let asked = AskedRequest::Finish(*eval, *token);
        if let Err(refusal) = self.open_desk() {
            return send_refusal(&mut outbox.frames, me, from, asked, refusal);
        }
        if let Err(refusal) = self.has_pair(eval, token) {
            return send_refusal(&mut outbox.frames, me, from, asked, refusal);
        }
        match self.propose(Command::EvalStatus(*eval, outcome.into_change())) {
            Ok(()) => match self.desk.desk.ack(*eval, *token) {
                Ok(()) => Ok(()),
                Err(_) => unreachable!(),
            },
            Err(cause) => match cause {
                Refusal::NoMemory => Err(NoMemory),
                refusal => send_refusal(&mut outbox.frames, me, from, asked, refusal),
            },
        }
    }

    /// Nack: the pair is free again; or it is sent why not.
    pub(super) fn serve_nack(
        &mut self,
        from: ServerId,
        eval: EvalId,
        token: Token,
        outbox: &mut Outbox,
    ) -> Result<(), NoMemory>
        requires { is_up self.old.raft.server.mode ≡ true }
        ensures same { SameNumber self.old.raft self.new.raft }
        ensures keeps { KeepsLog self.old.raft self.new.raft }
        ensures taken { OnOk result (
            EachDoes self.old (request_act self.old from (requests.Nack eval token))
            self.new outbox.old outbox.new) }
        ensures lost { OnErr result (OutOfMemoryTurn self.old self.new outbox.old outbox.new) }
    {
        let me = self.raft.me();
        let (eval, token) = (&eval, &token);
        let asked = AskedRequest::Nack(*eval, *token);
        if let Err(refusal) = self.open_desk() {
            return send_refusal(&mut outbox.frames, me, from, asked, refusal);
        }
        match self.desk.desk.nack(*eval, *token) {
            Ok(()) => Ok(()),
            Err(error) => {
                send_refusal(&mut outbox.frames, me, from, asked, Refusal::from(error))
            }
        }
    }

    /// An answer is for its own workers.
    pub(super) fn hand_out(
        &self,
        from: ServerId,
        response: WorkerResponse,
        outbox: &mut Outbox,
    ) -> Result<(), NoMemory>
        requires { is_up self.now.raft.server.mode ≡ true }
        ensures taken { OnOk result (EachDoes self.now (response_act from response)
            self.now outbox.old outbox.new) }
        ensures lost { OnErr result (outbox.new ≡ outbox.old) }
    {
        outbox.work.push(Work { from, response })
    }
}
