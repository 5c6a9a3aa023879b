//! Why a plan is refused as a whole, and what is kept of it where it is not.
ghost use Rattle.std.specs.Prelude.{◌≡◌, ◌⊎◌, ◌≤◌, true, Ok, Err, IfOk, IfErr, is_ok, length};
ghost use Rattle.rows.specs.declared.refusal.Refusal.TheVariants as refusals;
ghost use Rattle.group_model.specs.Acceptance.{accept, keep, is_eval_of, plan_of_accepted};
ghost use Rattle.plan_apply.specs.Answers.{kept_by};

use crate::accepted::Accepted;
use crate::nodes::kept_places;
use crate::stops::{ids_of, stopped_by};
use fsm_state::Cluster;
use rows::{AcceptedPlan, Batch, Delivery, Job, NoMemory, Plan, Ranged, Refusal, Sequence};
use std::alloc::Global;

/// Whether the plan's evaluation has a row that names the plan's job.
fn is_eval_of(state: &Cluster, plan: &Plan) -> bool
    ensures { result ≡ is_eval_of state.now plan.now }
{
    match state.eval(plan.eval) {
        Some(row) => row.job == plan.job,
        None => false,
    }
}

/// A list of at most 64 items.
fn as_batch<T: Drop>(items: Sequence<T>) -> Batch<T>
    requires { length items ≤ 64 }
    ensures { result ≡ items }
{
    match Batch::check(items) {
        Ok(batch) => batch,
        Err(_) => unreachable!(),
    }
}

/// What is kept of a plan of a job.
fn keep(alloc: Global, state: &Cluster, job: &Job, plan: &Plan) -> Result<Accepted, NoMemory>
    ensures kept { IfOk result (λ a. kept_by a ≡ keep state.now job.now plan.now) }
    ensures plan { IfOk result (λ a. a.plan ≡ plan_of_accepted plan.now (kept_by a)) }
{
    plan.ranges();
    let stopped = stopped_by(alloc, state, plan)?;
    let stops = ids_of(alloc, stopped.as_slice())?;
    let kept = kept_places(alloc, state, job, stopped.as_slice(), plan)?;
    let plan = AcceptedPlan {
        eval: plan.eval,
        token: plan.token,
        job: plan.job,
        snapshot: plan.snapshot,
        stops: as_batch(stops),
        places: as_batch(kept.places),
    };
    Ok(Accepted {
        plan,
        refused: kept.refused,
    })
}

/// What a leader keeps of a plan, for a delivery of its evaluation, on the state after its whole
/// log: the stops of live allocations of the plan's job, in order of first mention and once each;
/// and of each node, in rising number, all of the plan's places or none. A node keeps them where it
/// is ready and eligible, each place's group is in the job with the node's class, each index is
/// below the group's count, and after the stops and the places of lower nodes each of their names
/// is held once and the node's use is within its size. It takes time of the plan and the logarithm
/// of the tables where it is known that names are held once, as on each state that a log makes.
///
/// `SnapshotTooOld` where the plan was made from an older state than the delivery allows;
/// `UnknownJob` where its job has no row, or no row of its evaluation names the job; `JobChanged`
/// where it is of another version of the job; `JobStopped` where the job is stopped and the plan
/// has places; in this order, and `NoMemory` only where none of these applies.
pub fn accept(
    alloc: Global,
    state: &Cluster,
    plan: &Plan,
    delivery: &Delivery,
) -> Result<Accepted, Refusal>
    ensures ok { let wait = delivery.now.wait in
        IfOk result (λ a. accept state.now plan.now wait ≡ Ok (kept_by a)) }
    ensures plan { IfOk result (λ a. a.plan ≡ plan_of_accepted plan.now (kept_by a)) }
    ensures err { let wait = delivery.now.wait in
        IfErr result (λ e. (e ≡ refusals.NoMemory) ⊎ (accept state.now plan.now wait ≡ Err e)) }
    ensures memory { let wait = delivery.now.wait in
        IfErr result (λ e. e ≡ refusals.NoMemory
        → is_ok (accept state.now plan.now wait) ≡ true) }
{
    if plan.snapshot < delivery.wait {
        return Err(Refusal::SnapshotTooOld);
    }
    let Some(job) = state.job(&plan.job) else {
        return Err(Refusal::UnknownJob);
    };
    if !is_eval_of(state, plan) {
        return Err(Refusal::UnknownJob);
    }
    if plan.version != job.version {
        return Err(Refusal::JobChanged);
    }
    if job.stopped && !plan.places.as_slice().is_empty() {
        return Err(Refusal::JobStopped);
    }
    Ok(keep(alloc, state, job, plan)?)
}
