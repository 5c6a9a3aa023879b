//! What a worker does next.
ghost use Rattle.std.specs.Prelude.{◌≡◌, true, nat_lt, IfOk, OnErr};
ghost use Rattle.group_model.specs.NextStep.{gives_back, after_refusal, has_changes};
ghost use Rattle.group_model.specs.NextStep.{outcome_of, after_plan};
ghost use Rattle.group_model.specs.NextStep.{IsStepWith, IsStepOn, IsNextStep};
ghost use Rattle.scheduler.specs.Steps.{step_as, plans_on, makes_plan};

use crate::planning::plan;
use crate::worker_plan::WorkerPlan;
use crate::worker_step::WorkerStep;
use fsm_state::Cluster;
use rows::{
    AskedRequest, Delivery, EvalOutcome, Evaluation, Index, NoMemory, Plan, Reason, WorkerRequest,
    WorkerResponse,
};
use std::alloc::Global;

/// The most plans that are submitted under one delivery: 16.
const MOST_PLANS: u64 = 16;

/// Whether an evaluation is given back where its plan is refused so.
fn gives_back(reason: &Reason) -> bool
    ensures { result ≡ gives_back reason.now }
{
    match reason {
        Reason::SnapshotTooOld
        | Reason::JobChanged
        | Reason::UnknownJob
        | Reason::QueueFull
        | Reason::JobStopped => true,
        _ => false,
    }
}

/// What a worker does after a refusal.
fn after_refusal(asked: &AskedRequest, reason: &Reason) -> WorkerStep
    ensures { step_as result ≡ after_refusal asked.now reason.now }
{
    match asked {
        AskedRequest::Submit(eval, token) if gives_back(reason) => {
            WorkerStep::Ask(WorkerRequest::Nack(*eval, *token))
        }
        _ => WorkerStep::Drop,
    }
}

/// Whether a plan stops or places something.
fn has_changes(plan: &WorkerPlan) -> bool
    ensures { result ≡ has_changes plan.now }
{
    let stops = plan.stops.as_slice().len();
    let places = plan.places.as_slice().len();
    stops > 0 || places > 0
}

/// What the work comes to where a plan changes nothing.
fn outcome_of(plan: &WorkerPlan) -> EvalOutcome
    ensures { result ≡ outcome_of plan.now }
{
    if plan.all_placed {
        EvalOutcome::Complete
    } else {
        EvalOutcome::Blocked(plan.snapshot)
    }
}

/// What a plan comes to: it is submitted where something stops or is placed; else the work is over.
fn after_plan(delivery: &Delivery, eval: &Evaluation, plan: WorkerPlan) -> WorkerStep
    ensures { step_as result ≡ after_plan delivery.now eval.now plan }
{
    if !has_changes(&plan) {
        let outcome = outcome_of(&plan);
        return WorkerStep::Ask(WorkerRequest::Finish(delivery.eval, delivery.token, outcome));
    }
    WorkerStep::Ask(WorkerRequest::Submit(Plan {
        eval: delivery.eval,
        token: delivery.token,
        job: eval.job,
        version: plan.version,
        snapshot: plan.snapshot,
        stops: plan.stops,
        places: plan.places,
    }))
}

/// What a worker does with an evaluation, after so many plans under its delivery.
fn step_with(
    alloc: Global,
    state: &Cluster,
    index: Index,
    plans: u64,
    delivery: &Delivery,
    eval: &Evaluation,
) -> Result<WorkerStep, NoMemory>
    ensures ok { let d = delivery.now in
        IfOk result (λ step. IsStepWith state.now index plans d eval.now (step_as step)) }
    ensures memory { OnErr result (nat_lt plans MOST_PLANS ≡ true) }
{
    if plans >= MOST_PLANS {
        return Ok(WorkerStep::Ask(WorkerRequest::Nack(delivery.eval, delivery.token)));
    }
    let plan = plan(alloc, state, eval, index)?;
    Ok(after_plan(delivery, eval, plan))
}

/// What a worker does with a delivery, after so many plans under it.
fn step_on(
    alloc: Global,
    state: &Cluster,
    index: Index,
    plans: u64,
    delivery: &Delivery,
) -> Result<WorkerStep, NoMemory>
    ensures ok { IfOk result (λ step. IsStepOn state.now index plans delivery.now (step_as step)) }
    ensures memory { OnErr result (plans_on state.now index plans delivery.now ≡ true) }
{
    if index < delivery.wait {
        return Ok(WorkerStep::Later);
    }
    match state.eval(delivery.eval) {
        Some(eval) => step_with(alloc, state, index, plans, delivery, eval),
        None => Ok(WorkerStep::Drop),
    }
}

/// What a worker does next with what its server was answered, at the state of this index, after so
/// many plans submitted under the same delivery. With a delivery, or after a plan's result:
/// - `Later` where the state is older than the delivery asks, or than the leader's last index;
/// - `Drop` where there is no delivery, or its evaluation has no row;
/// - `Ask` with a `Nack` after 16 plans, before the next is looked at;
/// - with a `Submit` where the plan stops or places something;
/// - else with a `Finish`: complete where all was placed, blocked with this index where not.
///
/// A submit that was refused for too old a snapshot, for its job that is changed, unknown or
/// stopped, or for a full queue gives a `Nack`, and any other refusal `Drop`; neither the index nor
/// the evaluation's row is asked for then. `NoMemory` where there is no memory for a plan, and never
/// where none is made. (Nomad documentation, "Scheduling in Nomad".)
pub fn next_step(
    alloc: Global,
    state: &Cluster,
    index: Index,
    response: &WorkerResponse,
    plans: u64,
) -> Result<WorkerStep, NoMemory>
    ensures ok { IfOk result
        (λ step. IsNextStep state.now index response.now plans (step_as step)) }
    ensures memory { OnErr result (makes_plan state.now index response.now plans ≡ true) }
{
    match response {
        WorkerResponse::Delivered(None) => Ok(WorkerStep::Drop),
        WorkerResponse::Delivered(Some(delivery)) => step_on(alloc, state, index, plans, delivery),
        WorkerResponse::PlanResult(result) => {
            let delivery = Delivery {
                eval: result.eval,
                token: result.token,
                wait: result.last,
            };
            step_on(alloc, state, index, plans, &delivery)
        }
        WorkerResponse::Refused(asked, reason) => Ok(after_refusal(asked, reason)),
    }
}
