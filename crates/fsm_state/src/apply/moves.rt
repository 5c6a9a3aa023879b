//! Allocations that are marked to move, and their jobs.
ghost use Rattle.std.specs.Prelude.{◌≡◌, OnOk, option_map, ◌<◌, IfOk};
ghost use Rattle.fsm_state.specs.Inner.Steps.{alloc_changed, mark_one, marked_all, live_job, live_jobs, HasNames, AddsNames};

use crate::cluster::Cluster;
use crate::new_evaluations::add_name;
use fsm_tables::is_live;
use rows::{AllocId, Allocation, JobName, NoMemory};
use std::collections::BTreeSet;

/// A row that is to move, if it is live.
fn marked(row: &Allocation) -> Allocation
    ensures { result ≡ mark_one row.now }
{
    let mut row = *row;
    if is_live(&row) {
        row.migrate = true;
    }
    row
}

/// Adds the job of a live row.
fn add_live(names: &mut BTreeSet<JobName>, row: Option<&Allocation>) -> Result<(), NoMemory>
    ensures { let job = live_job (option_map (λ r. r.now) row.entry) in
        OnOk result (AddsNames job names.old names.new) }
{
    match row {
        Some(row) if is_live(row) => add_name(names, row.job),
        _ => Ok(()),
    }
}

impl Cluster {
    /// Marks an allocation, if it is live.
    fn mark(&mut self, id: AllocId) -> Result<(), NoMemory>
        ensures { OnOk result (self.new ≡ alloc_changed mark_one id self.old) }
    {
        match self.alloc(id) {
            Some(row) => {
                let row = marked(row);
                self.put_alloc(row)
            }
            None => Ok(()),
        }
    }

    /// Marks those that are live, one after the other.
    pub(super) fn mark_all(&mut self, ids: &[AllocId]) -> Result<(), NoMemory>
        ensures { OnOk result (self.new ≡ marked_all ids.now self.old) }
    {
        for id in ids {
            self.mark(*id)?;
        }
        Ok(())
    }

    /// The jobs of those that are live.
    pub(crate) fn jobs_of(&self, ids: &[AllocId]) -> Result<BTreeSet<JobName>, NoMemory>
        ensures { IfOk result (HasNames (live_jobs ids.now self.now)) }
    {
        let mut names = BTreeSet::new(self.memory());
        for id in ids {
            add_live(&mut names, self.alloc(*id))?;
        }
        Ok(names)
    }
}
