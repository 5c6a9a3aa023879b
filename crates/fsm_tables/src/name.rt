ghost use Rattle.std.specs.Prelude.{◌≡◌};
ghost use Rattle.fsm_tables.specs.LiveNames.{name_of};
ghost use Rattle.fsm_tables.specs.Inner.Keys.{least_name, greatest_name};

use rows::{Allocation, GroupName, JobName, Name, Ordinal};

/// The name of an allocation, `job.group[index]`. No two live allocations share one in a safe
/// state. (Nomad documentation, "Allocations": an allocation's name.)
#[derive(Clone, Copy, Debug, PartialEq, Eq, PartialOrd, Ord)]
pub struct AllocName {
    /// The job.
    pub job: JobName,
    /// The group of the job.
    pub group: GroupName,
    /// Which of the group's, from 0.
    pub index: Ordinal,
}

impl AllocName {
    /// The name of an allocation, live or not.
    pub fn of(row: &Allocation) -> AllocName
        ensures { result ≡ name_of row.now }
    {
        AllocName {
            job: row.job,
            group: row.group,
            index: row.index,
        }
    }

    /// The least name of a job.
    pub(crate) fn least_of(job: JobName) -> AllocName
        ensures { result ≡ least_name job }
    {
        AllocName {
            job,
            group: Name::from_bytes(b"-").unwrap(),
            index: Ordinal::new(0).unwrap(),
        }
    }

    /// The greatest name of a job.
    pub(crate) fn greatest_of(job: JobName) -> AllocName
        ensures { result ≡ greatest_name job }
    {
        AllocName {
            job,
            group: Name::from_bytes(&[b'z'; Name::MOST]).unwrap(),
            index: Ordinal::new(Ordinal::MOST).unwrap(),
        }
    }
}
