//! The first evaluations of a list that a state still has as they were.
ghost use Rattle.std.specs.Prelude.{◌≡◌, find, option_map};
ghost use Rattle.leader.specs.Inner.Still.{is_blocked_in, is_pending_in, stands_pending};

use fsm_state::Cluster;
use fsm_tables::Urgency;
use rows::{EvalId, EvalStatus};

/// Whether an evaluation is blocked in a state.
fn is_blocked(projected: &Cluster, id: EvalId) -> bool
    ensures { result ≡ is_blocked_in projected.now id }
{
    match projected.eval(id) {
        Some(row) => row.status == EvalStatus::Blocked,
        None => false,
    }
}

/// Whether an evaluation is pending in a state.
fn is_pending(projected: &Cluster, id: EvalId) -> bool
    ensures { result ≡ is_pending_in projected.now id }
{
    match projected.eval(id) {
        Some(row) => row.status == EvalStatus::Pending,
        None => false,
    }
}

/// The first of the ids that is blocked in a state.
pub(crate) fn first_blocked(ids: &[EvalId], projected: &Cluster) -> Option<EvalId>
    ensures { result ≡ find (is_blocked_in projected.now) ids.now }
{
    for id in ids {
        if is_blocked(projected, *id) {
            return Some(*id);
        }
    }
    None
}

/// The first of the evaluations that is pending in a state.
pub(crate) fn first_pending(urgencies: &[Urgency], projected: &Cluster) -> Option<EvalId>
    ensures { let first = find (stands_pending projected.now) urgencies.now in
        result ≡ option_map (λ u. u.id) first }
{
    for urgency in urgencies {
        if is_pending(projected, urgency.id) {
            return Some(urgency.id);
        }
    }
    None
}
