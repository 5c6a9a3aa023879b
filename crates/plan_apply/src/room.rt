//! Whether a node has room for places.
ghost use Rattle.std.specs.Prelude.{◌≡◌, ◌+◌, ◌++◌, ◌≤◌, length};
ghost use Rattle.fsm_model.specs.Safe.{is_within};
ghost use Rattle.group_model.specs.Acceptance.{place_claims, claimed};
ghost use Rattle.plan_apply.specs.Inner.Overlay.{kept_so_far};
ghost use Rattle.plan_apply.specs.Inner.Stops.{AreEnded};

use crate::accepted::Kept;
use fsm_state::{Cluster, taken};
use rows::{AcceptedPlace, Allocation, JobName, Node, Usage};

/// Whether a node has room for more places beside those that are kept, once the rows stop.
pub(crate) fn has_room(
    state: &Cluster,
    job: &JobName,
    stopped: &[Allocation],
    kept: &Kept,
    more: &[AcceptedPlace],
    node: &Node,
) -> bool
    requires ended { AreEnded state.now stopped.now }
    requires few_stops { length stopped.now ≤ 64 }
    requires few_places { length kept.now.places + length more.now ≤ 64 }
    ensures { let cs = claimed state.now job.now (kept_so_far stopped.now kept.now) in
        result ≡ is_within (cs ++ place_claims job.now more.now) node.now }
{
    state.alloc_table().ranges();
    let used = state.used(node.number);
    let less = taken(node.number, stopped);
    let held = taken(node.number, kept.places.as_slice());
    let new = taken(node.number, more);
    Usage::is_enough(Usage::of(node.size), used, held.add(new), less)
}
