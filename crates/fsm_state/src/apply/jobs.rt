//! Rows of jobs that are made and stopped.
ghost use Rattle.std.specs.Prelude.{◌≡◌, ◌≢◌, OnOk, OnErr, IfOk, Some, None, false, true, if◌then◌else◌};
ghost use Rattle.fsm_model.specs.Words.{job_of};
ghost use Rattle.fsm_model.specs.Effect.{with_job_row, job_row, stopped_row};
ghost use Rattle.fsm_state.specs.Inner.Steps.{job_changed};

use crate::cluster::Cluster;
use rows::{Index, Job, JobName, JobSpec, NoMemory};
use std::alloc::Global;

/// The row of a job that is put.
fn new_job(alloc: Global, spec: &JobSpec, version: Index) -> Result<Job, NoMemory>
    ensures { IfOk result (λ row. row ≡ job_row version spec.now) }
{
    Ok(Job {
        name: spec.name,
        priority: spec.priority,
        stopped: false,
        version,
        groups: spec.groups.try_clone(alloc)?,
    })
}

/// The row of a job that is stopped.
fn stopped_job(alloc: Global, job: &Job, version: Index) -> Result<Job, NoMemory>
    ensures { IfOk result (λ row. row ≡ stopped_row version job.now) }
{
    Ok(Job {
        name: job.name,
        priority: job.priority,
        stopped: true,
        version,
        groups: job.groups.try_clone(alloc)?,
    })
}

impl Cluster {
    /// Makes the row of a job, or replaces it, and says whether the job has a row now: if so, this
    /// one.
    pub(super) fn put_job_row(&mut self, spec: &JobSpec) -> Result<bool, NoMemory>
        ensures ok { OnOk result (self.new ≡ with_job_row spec.now self.old) }
        ensures row { IfOk result (λ is_there. job_of spec.now.name self.new
            ≡ (if is_there then Some (job_row self.old.count spec.now) else None)) }
    {
        let row = new_job(self.memory(), spec, self.applied())?;
        self.put_job_within(row)
    }

    /// Stops a job.
    pub(super) fn stop_job_row(&mut self, name: &JobName) -> Result<(), NoMemory>
        ensures ok { let stops = stopped_row self.old.count in
            OnOk result (self.new ≡ job_changed stops name.now self.old) }
        ensures memory { OnErr result (job_of name.now self.old ≢ None) }
    {
        match self.job(name) {
            Some(job) => {
                let row = stopped_job(self.memory(), job, self.applied())?;
                self.put_job(row)
            }
            None => Ok(()),
        }
    }
}
