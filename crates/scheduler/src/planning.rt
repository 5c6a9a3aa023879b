//! The plan for an evaluation.
ghost use Rattle.std.specs.Prelude.{◌≡◌, ◌≤◌, IfOk, map, length};
ghost use Rattle.fsm_model.specs.Words.{job_of};
ghost use Rattle.group_model.specs.Scheduling.{IsPlanFor, unsized, version_of};

use crate::growing::{first_stops, place_all};
use crate::missing::missing_names;
use crate::worker_plan::WorkerPlan;
use fsm_state::Cluster;
use rows::{AcceptedPlace, Batch, Evaluation, Index, JobName, NoMemory, Place, Sequence};
use std::alloc::Global;

/// The version of a job, 0 where it has no row.
fn version_of(state: &Cluster, job: &JobName) -> Index
    ensures { result ≡ version_of (job_of job.now state.now) }
{
    match state.job(job) {
        Some(row) => row.version,
        None => Index::ZERO,
    }
}

/// The places without their sizes.
fn unsized_places(alloc: Global, places: &[AcceptedPlace]) -> Result<Sequence<Place>, NoMemory>
    ensures { IfOk result (λ those. those ≡ map unsized places.now) }
{
    let mut those = Sequence::new(alloc);
    for place in places {
        those.push(Place {
            group: place.group,
            index: place.index,
            node: place.node,
        })?;
    }
    Ok(those)
}

/// A list of at most 64 as such.
fn batch<T: Drop>(items: Sequence<T>) -> Batch<T>
    requires { length items ≤ 64 }
    ensures { result ≡ items }
{
    match Batch::check(items) {
        Ok(batch) => batch,
        Err(_) => unreachable!(),
    }
}

/// What a worker plans for an evaluation from the state of this index. First the live allocations
/// of its job stop whose names the job does not want, in rising id, the first 64. Then each name
/// that the job wants and that has no current allocation (as its group asks in size and class, and
/// without a mark to move) is placed, by the order of the groups and by index, on the best node
/// that is ready, eligible, of the class, and has room after all that the plan did so far; the old
/// allocation of the name stops in the same plan exactly where a node was found, and its room is
/// counted as free. Best is the node that gets fullest, by thousandths of its processor time and of
/// its memory, and then the lower number. With 64 stops or 64 places the plan ends. `NoMemory`
/// where there is no memory for it. (Nomad documentation, "Scheduling in Nomad".)
///
/// It takes a look-up for each name that the job wants and for each live allocation of the job, and
/// a step for each node and each name that is missing.
pub fn plan(
    alloc: Global,
    state: &Cluster,
    eval: &Evaluation,
    index: Index,
) -> Result<WorkerPlan, NoMemory>
    ensures plan { IfOk result (λ plan. IsPlanFor state.now eval.now index plan) }
    ensures limits { IfOk result (λ plan. (length plan.stops ≤ 64) × (length plan.places ≤ 64)) }
{
    let missing = missing_names(alloc, state, &eval.job)?;
    let mut growing = first_stops(alloc, state, &eval.job)?;
    place_all(&mut growing, state, &eval.job, missing.as_slice())?;
    let places = unsized_places(alloc, growing.places.as_slice())?;
    let all_placed = places.len() == missing.len();
    Ok(WorkerPlan {
        stops: batch(growing.stops),
        places: batch(places),
        version: version_of(state, &eval.job),
        snapshot: index,
        all_placed,
    })
}
