//! Evaluations that are made to touch jobs.
ghost use Rattle.std.specs.Prelude.{◌≡◌, ◌≢◌, ◌≤◌, ◌∷◌, None, OnOk, OnErr, length, filter};
ghost use Rattle.fsm_model.specs.Words.{job_of};
ghost use Rattle.fsm_model.specs.Effect.{evaluations_created, is_named};
ghost use Rattle.fsm_state.specs.Inner.Steps.{eval_for, touched_at, jobs_at, is_named_in, AddsNames};

use crate::cluster::Cluster;
use rows::{EntryIndex, EvalId, EvalStatus, Evaluation, Index, JobName, NoMemory, Priority};
use std::collections::BTreeSet;

/// Adds a name, unless it is there. It takes time in the logarithm of the names.
pub(crate) fn add_name(names: &mut BTreeSet<JobName>, name: JobName) -> Result<(), NoMemory>
    ensures { OnOk result (AddsNames (λ rest. name ∷ rest) names.old names.new) }
{
    names.insert(name)?;
    Ok(())
}

/// The evaluation that touches a job of this name and this priority.
pub(crate) fn evaluation(
    entry: EntryIndex,
    slot: u8,
    job: JobName,
    priority: Priority,
) -> Evaluation
    ensures { result ≡ eval_for entry slot job priority }
{
    Evaluation {
        id: EvalId { index: entry, slot },
        job,
        priority,
        status: EvalStatus::Pending,
        snapshot: Index::ZERO,
    }
}

impl Cluster {
    /// Makes one evaluation for the job of a name, if it has a row. It takes one look-up of the
    /// job.
    pub(crate) fn create_evaluation(
        &mut self,
        entry: EntryIndex,
        name: &JobName,
    ) -> Result<(), NoMemory>
        requires { entry ≡ self.old.count }
        ensures ok { OnOk result (self.new ≡ evaluations_created (is_named name.now) self.old) }
        ensures memory { OnErr result (job_of name.now self.old ≢ None) }
    {
        self.ranges();
        match self.job(name) {
            Some(job) => {
                let eval = evaluation(entry, 0, job.name, job.priority);
                self.put_eval(eval)
            }
            None => Ok(()),
        }
    }

    /// Makes one evaluation for each job of these names that has a row, in the order of the names.
    fn create_each(&mut self, entry: EntryIndex, names: &BTreeSet<JobName>) -> Result<(), NoMemory>
        requires entry { entry ≡ self.old.count }
        requires few { length (jobs_at self.old.jobs names.now.keys) ≤ 256 }
        ensures { OnOk result (self.new ≡ touched_at names.now.keys self.old) }
    {
        let mut slot: usize = 0;
        for name in names {
            if let Some(job) = self.job(name) {
                let eval = evaluation(entry, slot as u8, job.name, job.priority);
                self.put_eval(eval)?;
                slot += 1;
            }
        }
        Ok(())
    }

    /// Makes one evaluation for each job of these names that has a row, in rising name. It takes
    /// one look-up for each name.
    pub(crate) fn create_evaluations(
        &mut self,
        entry: EntryIndex,
        names: &BTreeSet<JobName>,
    ) -> Result<(), NoMemory>
        requires { entry ≡ self.old.count }
        ensures { OnOk result (self.new ≡ evaluations_created (is_named_in names.now) self.old) }
    {
        self.ranges();
        let _count = names.len();
        self.create_each(entry, names)
    }

    /// How many of these names are of a job that has a row.
    fn count_each(&self, names: &BTreeSet<JobName>) -> usize
        requires { length (jobs_at self.now.jobs names.now.keys) ≤ 256 }
        ensures { result ≡ length (jobs_at self.now.jobs names.now.keys) }
    {
        let mut count: usize = 0;
        for name in names {
            if self.job(name).is_some() {
                count += 1;
            }
        }
        count
    }

    /// How many jobs of these names have a row. It takes one look-up for each name.
    pub(crate) fn count_all(&self, names: &BTreeSet<JobName>) -> usize
        ensures count { result ≡ length (filter (is_named_in names.now) self.now.jobs) }
        ensures few { result ≤ length self.now.jobs }
    {
        self.ranges();
        let _count = names.len();
        self.count_each(names)
    }
}
