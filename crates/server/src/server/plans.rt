//! What becomes of a plan that was judged.
ghost use Rattle.std.specs.Prelude.{◌≡◌, ◌≤◌, List, Ok, OnOk, OnErr};
ghost use Rattle.raft_core.specs.StoredParts.{KeepsLog};
ghost use Rattle.raft_core.specs.RaftView.{SameNumber};
ghost use Rattle.rows.specs.Ids.{AreRisingNodes};
ghost use Rattle.rows.specs.declared.allocation.AllocId.{AllocId};
ghost use Rattle.group_model.specs.Acceptance.{keeps_some};
ghost use Rattle.group_model.specs.Desks.{QueuedPlan as AnyQueuedPlan};
ghost use Rattle.plan_apply.specs.Answers.{kept_by};
ghost use Rattle.leader.specs.Verdicts.{judged_by, IsProposal};
ghost use Rattle.server.specs.Inner.Acts.{EachDoes, OutOfMemoryTurn, Serves};
ghost use Rattle.server.specs.Inner.Plans.{settling, RefusesRising, KeptOf, kept_with, result_with};

use super::replies::{send_refusal, send_response};
use super::{Outbox, Server};
use leader::JudgedPlan;
use plan_apply::Accepted;
use plan_queue::QueuedPlan;
use rows::{
    AcceptedPlan, AskedRequest, Command, Index, NoMemory, NodeId, PlaceCount, PlanResult, Refusal,
    RisingNodes, Sequence, ServerId, WorkerResponse,
};

/// Whether something is kept of a plan.
fn keeps_some(accepted: &Accepted) -> bool
    ensures { result ≡ keeps_some (kept_by accepted.now) }
{
    !accepted.plan.stops.as_slice().is_empty() || !accepted.plan.places.as_slice().is_empty()
}

/// A number of places, of one plan.
fn count_of(places: usize) -> PlaceCount
    requires { places ≤ 64 }
    ensures { result ≡ places }
{
    match PlaceCount::new(places as u8) {
        Some(count) => count,
        None => unreachable!(),
    }
}

/// Nodes that strictly rise.
fn rising(nodes: Sequence<NodeId>) -> RisingNodes
    requires { AreRisingNodes nodes }
    ensures { result ≡ nodes }
{
    match RisingNodes::check(nodes) {
        Ok(nodes) => nodes,
        Err(_) => unreachable!(),
    }
}

/// What the sender of a plan is told of what is kept of it.
fn result_of(plan: &AcceptedPlan, last: Index, refused: Sequence<NodeId>) -> WorkerResponse
    requires { AreRisingNodes refused }
    ensures { (stops : List AllocId) →
        result ≡ result_with plan.now last (kept_with stops plan.now.places refused) }
{
    WorkerResponse::PlanResult(PlanResult {
        eval: plan.eval,
        token: plan.token,
        last,
        placed: count_of(plan.places.as_slice().len()),
        refused: rising(refused),
    })
}

impl Server {
    /// What is kept of a plan is proposed, if it is something, and its sender is told.
    fn propose_kept(
        &mut self,
        from: ServerId,
        accepted: Accepted,
        outbox: &mut Outbox,
    ) -> Result<(), NoMemory>
        requires serves { Serves self.old }
        requires rises { AreRisingNodes accepted.refused }
        ensures same { SameNumber self.old.raft self.new.raft }
        ensures keeps { KeepsLog self.old.raft self.new.raft }
        ensures taken { let a = kept_by accepted in
            OnOk result ((w : AnyQueuedPlan) → KeptOf from accepted.plan a w →
            EachDoes self.old (settling self.old (record { queued = w; kept = Ok a }))
            self.new outbox.old outbox.new) }
        ensures lost { OnErr result (OutOfMemoryTurn self.old self.new outbox.old outbox.new) }
    {
        let me = self.raft.me();
        let last = self.raft.last();
        let keeps_some = keeps_some(&accepted);
        let Accepted { plan, refused } = accepted;
        if !keeps_some {
            let response = result_of(&plan, last, refused);
            return send_response(&mut outbox.frames, me, from, response);
        }
        let asked = AskedRequest::Submit(plan.eval, plan.token);
        let Some(next) = Index::new(last.get() + 1) else {
            return send_refusal(&mut outbox.frames, me, from, asked, Refusal::Exhausted);
        };
        let before = outbox.frames.len();
        let response = result_of(&plan, next, refused);
        send_response(&mut outbox.frames, me, from, response)?;
        match self.propose(Command::Plan(plan)) {
            Ok(()) => Ok(()),
            Err(cause) => match cause {
                Refusal::NoMemory => Err(NoMemory),
                refusal => {
                    outbox.frames.truncate(before);
                    send_refusal(&mut outbox.frames, me, from, asked, refusal)
                }
            },
        }
    }

    /// What becomes of a plan that was judged.
    pub(super) fn conclude_plan(
        &mut self,
        judged: JudgedPlan,
        outbox: &mut Outbox,
    ) -> Result<(), NoMemory>
        requires serves { Serves self.old }
        requires proposal { IsProposal judged }
        requires rises { RefusesRising (judged_by judged) }
        ensures same { SameNumber self.old.raft self.new.raft }
        ensures keeps { KeepsLog self.old.raft self.new.raft }
        ensures taken { OnOk result (EachDoes self.old (settling self.old (judged_by judged))
            self.new outbox.old outbox.new) }
        ensures lost { OnErr result (OutOfMemoryTurn self.old self.new outbox.old outbox.new) }
    {
        let JudgedPlan { queued, kept } = judged;
        let QueuedPlan { plan, from, .. } = queued;
        match kept {
            Ok(accepted) => self.propose_kept(from, accepted, outbox),
            Err(refusal) => {
                let asked = AskedRequest::Submit(plan.eval, plan.token);
                send_refusal(&mut outbox.frames, self.raft.me(), from, asked, refusal)
            }
        }
    }
}
