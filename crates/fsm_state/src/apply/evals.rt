//! Statuses of evaluations that are set.
ghost use Rattle.std.specs.Prelude.{◌≡◌, ◌≢◌, OnOk, OnErr, None, false, true};
ghost use Rattle.rows.specs.Changes.{status_of, snapshot_of};
ghost use Rattle.fsm_model.specs.Words.{is_open, eval_of};
ghost use Rattle.fsm_state.specs.Inner.Steps.{set_one, eval_changed};

use crate::cluster::Cluster;
use rows::{EvalId, EvalStatus, Evaluation, Index, NoMemory, StatusChange};

/// Whether an evaluation is pending or blocked.
fn is_open(status: EvalStatus) -> bool
    ensures { result ≡ is_open status }
{
    match status {
        EvalStatus::Pending | EvalStatus::Blocked => true,
        EvalStatus::Complete | EvalStatus::Failed => false,
    }
}

/// The status that a change sets.
fn status_after(change: &StatusChange) -> EvalStatus
    ensures { result ≡ status_of change.now }
{
    match change {
        StatusChange::Pending => EvalStatus::Pending,
        StatusChange::Blocked(_) => EvalStatus::Blocked,
        StatusChange::Complete => EvalStatus::Complete,
        StatusChange::Failed => EvalStatus::Failed,
    }
}

/// The snapshot that a change sets: 0 unless blocked.
fn snapshot_after(change: &StatusChange) -> Index
    ensures { result ≡ snapshot_of change.now }
{
    match change {
        StatusChange::Blocked(snapshot) => *snapshot,
        _ => Index::ZERO,
    }
}

/// The row of an evaluation whose status is set; complete and failed ones stay.
fn settled(row: &Evaluation, change: &StatusChange) -> Evaluation
    ensures { result ≡ set_one change.now row.now }
{
    let mut row = *row;
    if is_open(row.status) {
        row.status = status_after(change);
        row.snapshot = snapshot_after(change);
    }
    row
}

impl Cluster {
    /// Sets the status of an evaluation.
    pub(super) fn set_eval_status(
        &mut self,
        id: EvalId,
        change: &StatusChange,
    ) -> Result<(), NoMemory>
        ensures ok { OnOk result (self.new ≡ eval_changed (set_one change.now) id self.old) }
        ensures memory { OnErr result (eval_of id self.old ≢ None) }
    {
        match self.eval(id) {
            Some(row) => {
                let row = settled(row, change);
                self.put_eval(row)
            }
            None => Ok(()),
        }
    }
}
