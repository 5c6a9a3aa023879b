use crate::entry_index::EntryIndex;
use crate::index::Index;
use crate::job::Priority;
use crate::list_rules::Ranged;
use crate::name::JobName;

/// An evaluation: the entry that made it, and its place among those of the entry.
#[derive(Clone, Copy, Debug, PartialEq, Eq, PartialOrd, Ord)]
pub struct EvalId {
    /// The entry that made it.
    pub index: EntryIndex,
    /// Its place among the evaluations of the entry, from 0.
    pub slot: u8,
}

impl Ranged for EvalId {
    ghost use Rattle.rows.specs.Fits.{EvalIdFits};

    ghost Fits = { EvalIdFits };

    fn ranges(&self) {
        let _index = self.index.get();
        let _slot = self.slot;
    }
}

/// How far the work of an evaluation is. (Nomad documentation, "Scheduling in Nomad".)
#[derive(Clone, Copy, Debug, PartialEq, Eq)]
pub enum EvalStatus {
    /// It is to be worked on.
    Pending,
    /// It waits for room on some node.
    Blocked,
    /// All was placed.
    Complete,
    /// It was given up.
    Failed,
}

/// An evaluation's row.
#[derive(Clone, Copy, Debug, PartialEq, Eq)]
pub struct Evaluation {
    /// Its id, by which it is found.
    pub id: EvalId,
    /// The job that it is of.
    pub job: JobName,
    /// How urgent it is.
    pub priority: Priority,
    /// How far its work is.
    pub status: EvalStatus,
    /// The index of the state from which it was found blocked.
    pub snapshot: Index,
}

impl Ranged for Evaluation {
    ghost use Rattle.rows.specs.Fits.{EvaluationFits};

    ghost Fits = { EvaluationFits };

    fn ranges(&self) {
        self.id.ranges();
        let _job = self.job.as_bytes();
        let _priority = self.priority.get();
        let _snapshot = self.snapshot.get();
    }
}
