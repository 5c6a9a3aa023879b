//! What becomes of a plan whose turn it is.
ghost use Rattle.std.specs.Prelude.{◌≡◌, ◌⊎◌, true, IfOk, IfErr, Ok, Err, is_ok};
ghost use Rattle.rows.specs.declared.refusal.Refusal.TheVariants as refusals;
ghost use Rattle.group_model.specs.Acceptance.{plan_of_accepted};
ghost use Rattle.plan_apply.specs.Answers.{kept_by};
ghost use Rattle.leader.specs.Verdicts.{verdict};

use eval_broker::Broker;
use fsm_state::Cluster;
use plan_apply::{Accepted, accept};
use plan_queue::QueuedPlan;
use rows::{Delivery, Plan, Refusal};
use std::alloc::Global;

/// A plan that was taken out of the queue, with the server that is told what becomes of it. It is
/// `kept` in part or as a whole, or not at all: then the reason is what its sender is told.
#[derive(Drop)]
pub struct JudgedPlan {
    /// The plan, its priority and its sender.
    pub queued: QueuedPlan,
    /// What is kept, as it is proposed, with the nodes that keep none of their places. It may be
    /// nothing: then nothing is proposed. Or why none of the plan is kept, never for want of
    /// memory: the pair is not outstanding, or the check of the plan refuses it.
    pub kept: Result<Accepted, Refusal>,
}

/// What a leader keeps of a plan on the state after its whole log: first the pair of evaluation and
/// token must be outstanding, and then the plan is held against the state, for the index that its
/// delivery waits for.
pub(crate) fn judge(
    alloc: Global,
    broker: &Broker,
    plan: &Plan,
    projected: &Cluster,
) -> Result<Accepted, Refusal>
    ensures ok { IfOk result (λ a. verdict projected.now broker.now plan.now ≡ Ok (kept_by a)) }
    ensures plan { IfOk result (λ a. a.plan ≡ plan_of_accepted plan.now (kept_by a)) }
    ensures err { let judged = verdict projected.now broker.now plan.now in
        IfErr result (λ e. (e ≡ refusals.NoMemory) ⊎ (judged ≡ Err e)) }
    ensures memory { let judged = verdict projected.now broker.now plan.now in
        IfErr result (λ e. e ≡ refusals.NoMemory → is_ok judged ≡ true) }
{
    let wait = broker.check(plan.eval, plan.token)?;
    let delivery = Delivery {
        eval: plan.eval,
        token: plan.token,
        wait,
    };
    accept(alloc, projected, plan, &delivery)
}
