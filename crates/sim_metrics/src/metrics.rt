//! What a plan and the nodes of a state are to one group of a job.
ghost use Rattle.std.specs.Prelude.{◌≡◌, IfOk, map};
ghost use Rattle.std.specs.List.{count_by};
ghost use Rattle.fsm_tables.specs.Claims.{claims};
ghost use Rattle.fsm_model.specs.Words.{job_of};
ghost use Rattle.sim_metrics.specs.Metrics.{AreMetrics, IsOfGroup, ends_full, fits_on_none, is_place_of, wanted_groups};
ghost use Rattle.sim_metrics.specs.Verdicts.{verdict};

use crate::missing::count_missing;
use crate::verdict::{Verdict, node_verdict};
use fsm_state::Cluster;
use rows::{Evaluation, Group, GroupName, JobName, NoMemory, Place};
use scheduler::{WorkerPlan, plan};
use std::alloc::Global;

// The most stops, and the most places, of a plan: 64.
const MOST: usize = 64;

/// What a plan and the nodes of a state are to one group of a job. (Nomad documentation, "Inspecting
/// placement failures": placement metrics.)
#[derive(Drop)]
pub struct GroupMetrics {
    /// The group.
    pub group: Group,
    /// How many of its allocations are not there as it asks.
    pub missing: usize,
    /// How many of these the plan places.
    pub placed: usize,
    /// Whether the plan ended with 64 stops or 64 places.
    pub ends_full: bool,
    /// Of each node, in rising number, whether it has room for one more of the group as the state
    /// is, and the first reason where it has none.
    pub verdicts: Vec<Verdict>,
}

impl GroupMetrics {
    /// Whether some of the group is missing and the plan found no node for any of it.
    pub fn fits_on_none(&self) -> bool
        ensures { result ≡ fits_on_none self.now }
    {
        0 < self.missing && self.placed == 0 && !self.ends_full
    }
}

fn is_place_of(group: &GroupName, place: &Place) -> bool
    ensures { result ≡ is_place_of group.now place.now }
{
    place.group == *group
}

// How many places are of a group.
fn count_places(group: &GroupName, places: &[Place]) -> usize
    ensures { result ≡ count_by (is_place_of group.now) places.now }
{
    let mut count = 0;
    for place in places {
        if is_place_of(group, place) {
            count += 1;
        }
    }
    count
}

// The verdict on each node.
fn verdicts(alloc: Global, state: &Cluster, group: &Group) -> Result<Vec<Verdict>, NoMemory>
    ensures { let of = verdict (claims state.now.allocs) group.now in
        IfOk result (λ verdicts. verdicts.items ≡ map of state.now.nodes) }
{
    let mut verdicts = Vec::new(alloc);
    for node in state.node_table().rows() {
        verdicts.push(node_verdict(state, group, node))?;
    }
    Ok(verdicts)
}

fn ends_full(plan: &WorkerPlan) -> bool
    ensures { result ≡ ends_full plan.now }
{
    plan.stops.as_slice().len() >= MOST || plan.places.as_slice().len() >= MOST
}

// What a plan for an evaluation of a job is to one of the job's groups, and what the nodes are.
fn group_metrics(
    alloc: Global,
    state: &Cluster,
    job: &JobName,
    group: &Group,
    plan: &WorkerPlan,
) -> Result<GroupMetrics, NoMemory>
    ensures { IfOk result (IsOfGroup state.now job.now plan.now group.now) }
{
    Ok(GroupMetrics {
        group: *group,
        missing: count_missing(state, job, group),
        placed: count_places(&group.name, plan.places.as_slice()),
        ends_full: ends_full(plan),
        verdicts: verdicts(alloc, state, group)?,
    })
}

// The groups whose allocations a job wants: none where it is stopped or has no row.
fn wanted_groups<'a>(state: &'a Cluster, job: &JobName) -> &'a [Group]
    ensures { result.now ≡ wanted_groups (job_of job.now state.now) }
{
    match state.job(job) {
        Some(row) if !row.stopped => row.groups.as_slice(),
        _ => &[],
    }
}

/// What the plan of a worker for an evaluation, made from a state, is to each group that the
/// evaluation's job wants, in their order, and what the nodes of the state are to it.
///
/// - `are`: the plan is the one that the definition allows. `GroupMetrics::fits_on_none` is said
///   exactly where some of the group is missing and that plan, which has fewer than 64 stops and 64
///   places, places none of it.
/// - A node is said to have room exactly where the definition finds room on it for one more of the
///   group, as the state is.
pub fn eval_metrics(
    alloc: Global,
    state: &Cluster,
    eval: &Evaluation,
) -> Result<Vec<GroupMetrics>, NoMemory>
    ensures are { IfOk result (λ all. AreMetrics state.now eval.now all.items) }
{
    let plan = plan(alloc, state, eval, state.applied())?;
    let mut all = Vec::new(alloc);
    for group in wanted_groups(state, &eval.job) {
        all.push(group_metrics(alloc, state, &eval.job, group, &plan)?)?;
    }
    Ok(all)
}
