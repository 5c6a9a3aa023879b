//! Why a state refuses the commands that touch several jobs.
ghost use Rattle.std.specs.Prelude.{◌≡◌, ◌≢◌, [], Option, Some, None, IfOk, OnOk, OnErr, filter, option_map};
ghost use Rattle.std.specs.List.{list_any, list_all};
ghost use Rattle.rows.specs.declared.command.Command.TheVariants as commands;
ghost use Rattle.fsm_model.specs.Words.{no_alloc};
ghost use Rattle.fsm_model.specs.Admission.{admission, new_evals_pass, drains, can_move, is_its_own};
ghost use Rattle.fsm_model.specs.Effect.{moves, owns, is_ended_by, told, told_all};
ghost use Rattle.fsm_tables.specs.Lookups.{lives_on};
ghost use Rattle.fsm_state.specs.Inner.Steps.{is_named_in, ended_job, ended_now, HasNames, AddsNames};

use crate::admission::is_drained;
use crate::apply::reports::told as told_itself;
use crate::cluster::Cluster;
use crate::new_evaluations::add_name;
use fsm_tables::{Tables, is_live};
use rows::{AllocId, Allocation, JobName, NoMemory, NodeId, Refusal, Report, Reports, RisingIds};
use std::collections::BTreeSet;

/// A row after a report, if it is of that allocation.
fn after_report(row: &Allocation, node: NodeId, report: &Report) -> Allocation
    ensures { result ≡ told node report.now row.now }
{
    if row.id == report.id {
        told_itself(row, node, report)
    } else {
        *row
    }
}

/// A row after the reports of a node, one after the other: a report of another allocation changes
/// nothing, nor does a report of another node, and complete, failed and lost stay.
pub fn after_reports(row: &Allocation, node: NodeId, reports: &[Report]) -> Allocation
    ensures { result ≡ told_all node reports.now row.now }
{
    let mut after = *row;
    for report in reports {
        after = after_report(&after, node, report);
    }
    after
}

/// Adds the job of a row that the reports end.
fn add_ended(
    names: &mut BTreeSet<JobName>,
    row: Option<&Allocation>,
    node: NodeId,
    reports: &[Report],
) -> Result<(), NoMemory>
    ensures { let old = option_map (λ r. r.now) row.entry in
        OnOk result (AddsNames (ended_job (told_all node reports.now) old) names.old names.new) }
{
    match row {
        Some(row) if is_live(row) && !is_live(&after_reports(row, node, reports)) => add_name(
            names, row.job,
        ),
        _ => Ok(()),
    }
}

impl Cluster {
    /// Whether the evaluations that touch the jobs of these names would pass the limit.
    fn names_pass(&self, names: &BTreeSet<JobName>) -> bool
        ensures { result ≡ new_evals_pass (is_named_in names.now) self.now }
    {
        self.ranges();
        let more = self.count_all(names);
        self.eval_table().len() + more > Tables::MOST_EVALS
    }

    /// Whether a node is being emptied.
    fn drains(&self, node: NodeId) -> bool
        ensures { result ≡ drains node self.now }
    {
        match self.node(node) {
            Some(row) => is_drained(row),
            None => false,
        }
    }

    /// Whether the jobs that the loss of a node touches would pass the limit.
    fn loss_passes(&self, node: NodeId) -> Result<bool, NoMemory>
        ensures ok { let those = owns (lives_on node) self.now.allocs in
            IfOk result (λ b. b ≡ new_evals_pass those self.now) }
        ensures memory { OnErr result (filter (lives_on node) self.now.allocs ≢ []) }
    {
        let names = self.jobs_on(node)?;
        Ok(self.names_pass(&names))
    }

    /// Why a node may not be taken for down.
    pub(super) fn node_down_refusal(&self, node: NodeId) -> Result<Option<Refusal>, NoMemory>
        ensures ok { IfOk result (λ r. r ≡ admission self.now (commands.NodeDown node)) }
        ensures memory { OnErr result (filter (lives_on node) self.now.allocs ≢ []) }
    {
        match self.node(node) {
            None => Ok(Some(Refusal::UnknownNode)),
            Some(row) if row.status.is_down() => Ok(Some(Refusal::StaleExpiry)),
            Some(_) if self.loss_passes(node)? => Ok(Some(Refusal::TableFull)),
            Some(_) => Ok(None),
        }
    }

    /// Whether one of the allocations has no row.
    fn has_unknown(&self, ids: &[AllocId]) -> bool
        ensures { result ≡ list_any (λ id. no_alloc id self.now) ids.now }
    {
        for id in ids {
            if self.alloc(*id).is_none() {
                return true;
            }
        }
        false
    }

    /// Whether an allocation is live, on a node that is being emptied.
    fn can_move(&self, id: AllocId) -> bool
        ensures { result ≡ can_move self.now id }
    {
        match self.alloc(id) {
            Some(row) => is_live(row) && self.drains(row.node),
            None => false,
        }
    }

    /// Whether each of the allocations is.
    fn can_all_move(&self, ids: &[AllocId]) -> bool
        ensures { result ≡ list_all (can_move self.now) ids.now }
    {
        for id in ids {
            if !self.can_move(*id) {
                return false;
            }
        }
        true
    }

    /// Whether the jobs of the live ones among the allocations would pass the limit.
    fn moves_pass(&self, ids: &[AllocId]) -> Result<bool, NoMemory>
        ensures { let those = owns (moves ids.now) self.now.allocs in
            IfOk result (λ b. b ≡ new_evals_pass those self.now) }
    {
        self.ranges();
        let names = self.jobs_of(ids)?;
        Ok(self.names_pass(&names))
    }

    /// Why allocations may not be marked.
    pub(super) fn migrate_refusal(&self, ids: &RisingIds) -> Result<Option<Refusal>, NoMemory>
        ensures { IfOk result (λ r. r ≡ admission self.now (commands.Migrate ids.now)) }
    {
        let ids = ids.as_slice();
        if self.has_unknown(ids) {
            Ok(Some(Refusal::UnknownAlloc))
        } else if !self.can_all_move(ids) {
            Ok(Some(Refusal::NotDraining))
        } else if self.moves_pass(ids)? {
            Ok(Some(Refusal::TableFull))
        } else {
            Ok(None)
        }
    }

    /// Whether a report is of an allocation on that node.
    fn is_its_own(&self, node: NodeId, report: &Report) -> bool
        ensures { result ≡ is_its_own self.now node report.now }
    {
        match self.alloc(report.id) {
            Some(row) => row.node == node,
            None => false,
        }
    }

    /// Whether each of the reports is.
    fn are_its_own(&self, node: NodeId, reports: &[Report]) -> bool
        ensures { result ≡ list_all (is_its_own self.now node) reports.now }
    {
        for report in reports {
            if !self.is_its_own(node, report) {
                return false;
            }
        }
        true
    }

    /// The jobs of the allocations that the reports end, one after the other.
    fn jobs_ended(&self, node: NodeId, reports: &[Report]) -> Result<BTreeSet<JobName>, NoMemory>
        ensures { let told = told_all node reports.now in
            IfOk result (HasNames (ended_now told reports.now self.now)) }
    {
        let mut names = BTreeSet::new(self.memory());
        for report in reports {
            add_ended(&mut names, self.alloc(report.id), node, reports)?;
        }
        Ok(names)
    }

    /// Whether the jobs of the allocations that the reports end would pass the limit.
    fn reports_pass(&self, node: NodeId, reports: &[Report]) -> Result<bool, NoMemory>
        ensures { let those = owns (is_ended_by (told_all node reports.now)) self.now.allocs in
            IfOk result (λ b. b ≡ new_evals_pass those self.now) }
    {
        self.ranges();
        let names = self.jobs_ended(node, reports)?;
        Ok(self.names_pass(&names))
    }

    /// Why reports of a node may not be taken.
    pub(super) fn report_refusal(
        &self,
        node: NodeId,
        reports: &Reports,
    ) -> Result<Option<Refusal>, NoMemory>
        ensures { IfOk result (λ r. r ≡ admission self.now (commands.Report node reports.now)) }
    {
        let reports = reports.as_slice();
        if self.node(node).is_none() {
            Ok(Some(Refusal::UnknownNode))
        } else if !self.are_its_own(node, reports) {
            Ok(Some(Refusal::UnknownAlloc))
        } else if self.reports_pass(node, reports)? {
            Ok(Some(Refusal::TableFull))
        } else {
            Ok(None)
        }
    }
}
