//! What a worker would find for the groups of an evaluation's job.
ghost use Rattle.std.specs.Prelude.{◌≡◌, true, false, [], IfOk};
ghost use Rattle.fsm_model.specs.Words.{is_open};
ghost use Rattle.sim_metrics.specs.Verdicts.{AreCounts};
ghost use Rattle.sim_inspect.specs.Inner.Findings.{ArePlacements, IsPlacement, counts_in};

use fsm_state::Cluster;
use rows::{EvalStatus, Evaluation, NoMemory};
use sim_metrics::{GroupMetrics, counts, eval_metrics};
use sim_report_lines::owned;
use sim_reports::{NodesReport, PlacementReport};
use std::alloc::Global;

/// Of an evaluation that is pending or blocked, what a worker would find at this state for each
/// group of its job; nothing of another, or where the job is stopped or has no row.
pub(crate) fn placements(
    alloc: Global,
    state: &Cluster,
    eval: &Evaluation,
) -> Result<Vec<PlacementReport>, NoMemory>
    ensures open { is_open eval.now.status ≡ true →
        IfOk result (λ all. ArePlacements state.now eval.now all.items) }
    ensures closed { is_open eval.now.status ≡ false → IfOk result (λ all. all.items ≡ []) }
{
    match eval.status {
        EvalStatus::Pending | EvalStatus::Blocked => open_placements(alloc, state, eval),
        EvalStatus::Complete | EvalStatus::Failed => Ok(Vec::new(alloc)),
    }
}

fn open_placements(
    alloc: Global,
    state: &Cluster,
    eval: &Evaluation,
) -> Result<Vec<PlacementReport>, NoMemory>
    ensures { IfOk result (λ all. ArePlacements state.now eval.now all.items) }
{
    let found = eval_metrics(alloc, state, eval)?;
    let mut reports = Vec::new(alloc);
    for metrics in &found {
        reports.push(placement(alloc, metrics)?)?;
    }
    Ok(reports)
}

fn placement(alloc: Global, metrics: &GroupMetrics) -> Result<PlacementReport, NoMemory>
    ensures { IfOk result (IsPlacement metrics.now) }
{
    Ok(PlacementReport {
        group: owned(alloc, metrics.group.name.as_str())?,
        missing: metrics.missing,
        placed: metrics.placed,
        fits_on_none: metrics.fits_on_none(),
        nodes: nodes_of(metrics),
    })
}

fn nodes_of(metrics: &GroupMetrics) -> NodesReport
    ensures { AreCounts metrics.now.verdicts.items (counts_in result) }
{
    let counts = counts(&metrics.verdicts);
    NodesReport {
        other_class: counts.other_class,
        not_ready: counts.not_ready,
        not_eligible: counts.not_eligible,
        lack_cpu: counts.lack_cpu,
        lack_memory: counts.lack_memory,
        lack_disk: counts.lack_disk,
        have_room: counts.have_room,
    }
}
