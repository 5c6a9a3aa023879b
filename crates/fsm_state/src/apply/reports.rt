//! What reports of a node change, and the jobs of the allocations that they end.
ghost use Rattle.std.specs.Prelude.{◌≡◌, ◌&&◌, OnOk, option_map, ◌<◌, IfOk};
ghost use Rattle.fsm_model.specs.Effect.{client_state_of};
ghost use Rattle.fsm_state.specs.Inner.Steps.{revised, tell_one, told_steps, ended_job, ended_jobs, HasNames, AddsNames};

use crate::cluster::Cluster;
use crate::new_evaluations::add_name;
use fsm_tables::{is_active, is_live};
use rows::{Allocation, ClientState, JobName, NoMemory, NodeId, Report, ReportedState};
use std::collections::BTreeSet;

/// The client state that a report tells.
fn told_state(state: ReportedState) -> ClientState
    ensures { result ≡ client_state_of state }
{
    match state {
        ReportedState::Running => ClientState::Running,
        ReportedState::Complete => ClientState::Complete,
        ReportedState::Failed => ClientState::Failed,
    }
}

/// A row after a report of a node: complete, failed and lost stay.
pub(crate) fn told(row: &Allocation, node: NodeId, report: &Report) -> Allocation
    ensures { result ≡ tell_one node report.now row.now }
{
    let mut row = *row;
    if is_active(row.client) && row.node == node {
        row.client = told_state(report.state);
    }
    row
}

/// Adds the job of a row that a report ends.
fn add_ended(
    names: &mut BTreeSet<JobName>,
    row: Option<&Allocation>,
    node: NodeId,
    report: &Report,
) -> Result<(), NoMemory>
    ensures { let old = option_map (λ r. r.now) row.entry in
        OnOk result (AddsNames (ended_job (tell_one node report.now) old) names.old names.new) }
{
    match row {
        Some(row) if is_live(row) && !is_live(&told(row, node, report)) => add_name(names, row.job),
        _ => Ok(()),
    }
}

impl Cluster {
    /// Takes a report.
    fn apply_report(&mut self, node: NodeId, report: &Report) -> Result<(), NoMemory>
        ensures { OnOk result (
            self.new ≡ revised (tell_one node report.now) report.now.id self.old) }
    {
        match self.alloc(report.id) {
            Some(old) => {
                let old = *old;
                self.revise(old, told(&old, node, report))
            }
            None => Ok(()),
        }
    }

    /// Takes reports, one after the other, and says the jobs of the allocations that they end.
    pub(super) fn apply_reports(
        &mut self,
        node: NodeId,
        reports: &[Report],
    ) -> Result<BTreeSet<JobName>, NoMemory>
        ensures names { IfOk result (HasNames (ended_jobs node reports.now self.old)) }
        ensures state { OnOk result (self.new ≡ told_steps node reports.now self.old) }
    {
        let mut names = BTreeSet::new(self.memory());
        for report in reports {
            add_ended(&mut names, self.alloc(report.id), node, report)?;
            self.apply_report(node, report)?;
        }
        Ok(names)
    }
}
