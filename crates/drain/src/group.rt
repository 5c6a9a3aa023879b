//! Groups of jobs, as what they are found by.
ghost use Rattle.std.specs.Prelude.{◌≡◌};
ghost use Rattle.drain.specs.Inner.Groups.{job_group};

use fsm_tables::{CopiedRow, Row};
use rows::{Allocation, GroupName, JobName, Ranged};
use std::alloc::AllocError;

/// A group of a job.
#[derive(Clone, Copy, PartialEq, Eq, PartialOrd, Ord)]
pub(crate) struct JobGroup {
    /// The job.
    pub job: JobName,
    /// The group of the job.
    pub group: GroupName,
}

impl JobGroup {
    /// The group of an allocation.
    pub fn of(row: &Allocation) -> JobGroup
        ensures { result ≡ job_group row.now }
    {
        JobGroup {
            job: row.job,
            group: row.group,
        }
    }
}

impl Ranged for JobGroup {
    ghost use Rattle.rows.specs.Names.{NameFits};

    ghost Fits = { λ g. NameFits g.job × NameFits g.group };

    fn ranges(&self) {
        let _job = self.job.as_bytes();
        let _group = self.group.as_bytes();
    }
}

/// Groups that are their own keys.
impl Row for JobGroup {
    type Key = JobGroup;

    ghost key_of = { λ g. g };

    fn key(&self) -> &JobGroup {
        self
    }
}

impl CopiedRow for JobGroup {
    fn append_copies(rows: &[JobGroup], out: &mut Vec<JobGroup>) -> Result<(), AllocError> {
        out.extend_from_slice(rows)
    }
}
