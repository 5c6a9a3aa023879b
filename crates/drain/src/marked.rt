//! The groups of which a live allocation is on the move, by one look at each job.
ghost use Rattle.std.specs.Prelude.{◌≡◌, ◌||◌, ◌&&◌, true, IfOk, OnOk};
ghost use Rattle.std.specs.List.{list_any};
ghost use Rattle.std.specs.BTreeSet.{contains};
ghost use Rattle.rows.specs.Keys.{name_cmp};
ghost use Rattle.group_model.specs.Drains.{same_group, group_moves};
ghost use Rattle.drain.specs.Inner.Groups.{is_met, AreMarked};

use crate::group::JobGroup;
use fsm_state::Cluster;
use fsm_tables::Table;
use rows::{Allocation, JobName, NoMemory};
use std::alloc::Global;
use std::collections::BTreeSet;

/// Whether the job and group of an allocation are among these.
pub(crate) fn is_met(groups: &Table<JobGroup>, row: &Allocation) -> bool
    ensures { result ≡ is_met groups.now row.now }
{
    groups.get(&JobGroup::of(row)).is_some()
}

/// Adds the groups of those that are on the move.
fn add_marked(groups: &mut Table<JobGroup>, rows: &[Allocation]) -> Result<(), NoMemory>
    ensures { OnOk result ((a : _) → is_met groups.new a
        ≡ (is_met groups.old a || list_any (λ b. b.migrate && same_group a b) rows.now)) }
{
    for row in rows {
        if row.migrate {
            groups.put(JobGroup::of(row))?;
        }
    }
    Ok(())
}

/// The jobs that were looked at, and those of their groups of which a live allocation is on the
/// move, on whichever node.
#[derive(Drop)]
pub(crate) struct Marked {
    /// The jobs.
    pub jobs: BTreeSet<JobName>,
    /// The groups.
    pub groups: Table<JobGroup>,
}

impl Marked {
    /// No job was looked at. It takes no memory.
    pub fn none(alloc: Global) -> Marked
        ensures { (rows : _) → AreMarked rows result }
    {
        Marked {
            jobs: BTreeSet::new(alloc),
            groups: Table::empty(alloc),
        }
    }

    /// Looks at a job. It takes time of the job's live allocations.
    fn learn(&mut self, state: &Cluster, job: &JobName) -> Result<(), NoMemory>
        requires { AreMarked state.now.allocs self.old }
        ensures marked { OnOk result (AreMarked state.now.allocs self.new) }
        ensures there { OnOk result (contains name_cmp self.new.jobs job.now ≡ true) }
    {
        let rows = state.live_of_job(job)?;
        add_marked(&mut self.groups, rows.as_slice())?;
        self.jobs.insert(*job)?;
        Ok(())
    }

    /// Whether a live allocation of the job and group of this one is on the move. It looks at the
    /// job where it did not before.
    pub fn group_moves(&mut self, state: &Cluster, row: &Allocation) -> Result<bool, NoMemory>
        requires { AreMarked state.now.allocs self.old }
        ensures marked { OnOk result (AreMarked state.now.allocs self.new) }
        ensures moves { IfOk result (λ moves. moves ≡ group_moves state.now.allocs row.now) }
    {
        if !self.jobs.contains(&row.job) {
            self.learn(state, &row.job)?;
        }
        Ok(is_met(&self.groups, row))
    }
}
