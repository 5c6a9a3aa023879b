//! The tables of a state.
ghost use Rattle.std.specs.Prelude.{◌≡◌, IfOk};
ghost use Rattle.std.specs.List.{AllZip};
ghost use Rattle.sim_inspect.specs.Inner.StateRows.{IsGroupReport, IsJobReport, IsNodeReport, IsEvaluationReport, IsAllocationReport, IsStateReport};

use crate::metrics::placements;
use fsm_state::Cluster;
use rows::{Allocation, Evaluation, Group, Job, NoMemory, Node};
use sim_labels::{
    alloc_text, client_word, desired_word, drain_word, eval_text, name_text, node_word, status_word,
};
use sim_report_lines::owned;
use sim_reports::{
    AllocationReport, EvaluationReport, GroupReport, JobReport, NodeReport, StateReport,
};
use std::alloc::Global;

/// What is reported of a state that these servers have applied.
pub(crate) fn state_report(
    alloc: Global,
    state: &Cluster,
    servers: Vec<u8>,
) -> Result<StateReport, NoMemory>
    ensures state { IfOk result (IsStateReport state.now) }
    ensures servers { IfOk result (λ report. report.servers ≡ servers) }
{
    Ok(StateReport {
        applied: state.applied().get(),
        servers,
        jobs: jobs(alloc, state)?,
        nodes: nodes(alloc, state)?,
        evaluations: evaluations(alloc, state)?,
        allocations: allocations(alloc, state)?,
    })
}

fn jobs(alloc: Global, state: &Cluster) -> Result<Vec<JobReport>, NoMemory>
    ensures { IfOk result (λ reports. AllZip IsJobReport state.now.jobs reports.items) }
{
    let mut reports = Vec::new(alloc);
    for row in state.job_table().rows() {
        reports.push(job(alloc, row)?)?;
    }
    Ok(reports)
}

fn job(alloc: Global, row: &Job) -> Result<JobReport, NoMemory>
    ensures { IfOk result (IsJobReport row.now) }
{
    let groups = groups(alloc, row)?;
    Ok(JobReport {
        job: owned(alloc, row.name.as_str())?,
        priority: row.priority.get(),
        version: row.version.get(),
        stopped: row.stopped,
        groups,
    })
}

// The groups of a job, in their order.
fn groups(alloc: Global, job: &Job) -> Result<Vec<GroupReport>, NoMemory>
    ensures { IfOk result (λ reports. AllZip IsGroupReport job.now.groups reports.items) }
{
    let mut reports = Vec::new(alloc);
    for row in job.groups.as_slice() {
        reports.push(group(alloc, row)?)?;
    }
    Ok(reports)
}

fn group(alloc: Global, row: &Group) -> Result<GroupReport, NoMemory>
    ensures { IfOk result (IsGroupReport row.now) }
{
    Ok(GroupReport {
        group: owned(alloc, row.name.as_str())?,
        count: row.count.get(),
        class: owned(alloc, row.class.as_str())?,
        cpu: row.size.cpu.get(),
        mem: row.size.mem.get(),
        disk: row.size.disk.get(),
    })
}

fn nodes(alloc: Global, state: &Cluster) -> Result<Vec<NodeReport>, NoMemory>
    ensures { IfOk result (λ reports.
        AllZip (IsNodeReport state.now) state.now.nodes reports.items) }
{
    let mut reports = Vec::new(alloc);
    for row in state.node_table().rows() {
        reports.push(node(alloc, state, row)?)?;
    }
    Ok(reports)
}

fn node(alloc: Global, state: &Cluster, row: &Node) -> Result<NodeReport, NoMemory>
    ensures { IfOk result (IsNodeReport state.now row.now) }
{
    let used = state.used(row.number);
    Ok(NodeReport {
        node: row.number.number(),
        class: owned(alloc, row.class.as_str())?,
        status: node_word(row.status),
        eligible: row.eligible,
        drain: drain_word(row.drain),
        cpu: row.size.cpu.get(),
        cpu_used: used.cpu(),
        mem: row.size.mem.get(),
        mem_used: used.mem(),
        disk: row.size.disk.get(),
        disk_used: used.disk(),
    })
}

fn evaluations(alloc: Global, state: &Cluster) -> Result<Vec<EvaluationReport>, NoMemory>
    ensures { IfOk result (λ reports.
        AllZip (IsEvaluationReport state.now) state.now.evals reports.items) }
{
    let mut reports = Vec::new(alloc);
    for row in state.eval_table().rows() {
        reports.push(evaluation(alloc, state, row)?)?;
    }
    Ok(reports)
}

fn evaluation(
    alloc: Global,
    state: &Cluster,
    row: &Evaluation,
) -> Result<EvaluationReport, NoMemory>
    ensures { IfOk result (IsEvaluationReport state.now row.now) }
{
    Ok(EvaluationReport {
        evaluation: eval_text(alloc, &row.id)?,
        job: owned(alloc, row.job.as_str())?,
        priority: row.priority.get(),
        status: status_word(row.status),
        snapshot: row.snapshot.get(),
        groups: placements(alloc, state, row)?,
    })
}

fn allocations(alloc: Global, state: &Cluster) -> Result<Vec<AllocationReport>, NoMemory>
    ensures { IfOk result (λ reports. AllZip IsAllocationReport state.now.allocs reports.items) }
{
    let mut reports = Vec::new(alloc);
    for row in state.alloc_table().rows() {
        reports.push(allocation(alloc, row)?)?;
    }
    Ok(reports)
}

fn allocation(alloc: Global, row: &Allocation) -> Result<AllocationReport, NoMemory>
    ensures { IfOk result (IsAllocationReport row.now) }
{
    Ok(AllocationReport {
        allocation: alloc_text(alloc, &row.id)?,
        name: name_text(alloc, row)?,
        node: row.node.number(),
        cpu: row.size.cpu.get(),
        mem: row.size.mem.get(),
        disk: row.size.disk.get(),
        desired: desired_word(row.desired),
        state: client_word(row.client),
        migrate: row.migrate,
        evaluation: eval_text(alloc, &row.eval)?,
    })
}
