//! What live allocations and the places of a plan hold: names, and room on nodes.
ghost use Rattle.std.specs.Prelude.{◌≡◌, ◌+◌, ◌++◌, ◌&&◌, ◌<◌, OnOk};
ghost use Rattle.std.specs.List.{list_any};
ghost use Rattle.fsm_tables.specs.Claims.{Claim as AnyClaim, claim_of};
ghost use Rattle.fsm_model.specs.Safe.{same_name, are_distinct};
ghost use Rattle.fsm_model.specs.Plans.{place_claim, wanted};

use crate::room::TakesRoom;
use rows::{
    AcceptedPlace, AcceptedPlan, Allocation, GroupName, JobName, NoMemory, NodeId, Ordinal,
    Sequence, Size,
};
use std::marker::Model;

/// What a live allocation holds: a name, and room on a node.
#[derive(Drop)]
pub(super) struct Claim {
    pub(super) job: JobName,
    pub(super) group: GroupName,
    pub(super) index: Ordinal,
    pub(super) node: NodeId,
    pub(super) size: Size,
}

impl Model for Claim {
    ghost use Rattle.fsm_tables.specs.Claims.{Claim as AnyClaim};

    ghost Value = { AnyClaim };

    ghost view = { λ c. record {
      job = c.job;
      group = c.group;
      index = c.index;
      node = c.node;
      size = c.size;
    } };
}

impl TakesRoom for Claim {
    ghost claim = { λ job c. c };

    fn node(&self) -> NodeId {
        self.node
    }

    fn size(&self) -> Size {
        self.size
    }
}

/// What a row claims.
pub(super) fn claim_by(row: &Allocation) -> Claim
    ensures { result ≡ claim_of row.now }
{
    Claim {
        job: row.job,
        group: row.group,
        index: row.index,
        node: row.node,
        size: row.size,
    }
}

/// What a place of a plan is to claim.
fn wanted_claim(plan: &AcceptedPlan, place: &AcceptedPlace) -> Claim
    ensures { result ≡ place_claim plan.now place.now }
{
    Claim {
        job: plan.job,
        group: place.group,
        index: place.index,
        node: place.node,
        size: place.size,
    }
}

/// Whether two claims are of one name.
fn is_same_name(claim: &Claim, other: &Claim) -> bool
    ensures { result ≡ same_name claim.now other.now }
{
    claim.job == other.job && claim.group == other.group && claim.index == other.index
}

/// Whether one of the claims is of the name of this one.
pub(super) fn is_claimed(claim: &Claim, claims: &[Claim]) -> bool
    ensures { result ≡ list_any (same_name claim.now) claims.now }
{
    for other in claims {
        if is_same_name(claim, other) {
            return true;
        }
    }
    false
}

/// Whether no two claims are of one name.
pub(super) fn are_distinct(claims: &[Claim]) -> bool
    ensures { result ≡ are_distinct claims.now }
{
    for place in 0..claims.len() {
        if is_claimed(&claims[place], &claims[place + 1..]) {
            return false;
        }
    }
    true
}

/// Adds what a plan wants.
pub(super) fn add_wanted(claims: &mut Sequence<Claim>, plan: &AcceptedPlan) -> Result<(), NoMemory>
    ensures { OnOk result (claims.new ≡ claims.old ++ wanted plan.now) }
{
    for place in plan.places.as_slice() {
        claims.push(wanted_claim(plan, place))?;
    }
    Ok(())
}
