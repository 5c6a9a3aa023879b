//! Whether the state after a plan is safe, by a look at all that is claimed then.
ghost use Rattle.std.specs.Prelude.{◌≡◌, ◌≤◌, List, ◌++◌, ◌+◌, ◌&&◌, ◌<◌, IfOk, OnOk, length};
ghost use Rattle.std.specs.List.{list_all};
ghost use Rattle.rows.specs.Limits.{most_allocs};
ghost use Rattle.fsm_model.specs.Safe.{is_safe, is_placed, are_distinct, are_safe};
ghost use Rattle.fsm_model.specs.Effect.{with_next_count, planned, stop};
ghost use Rattle.fsm_model.specs.Plans.{are_free, is_made, left_by};
ghost use Rattle.fsm_state.specs.Inner.Claimed.{bears_node, left_one, HeldOnce};
ghost use Rattle.rows.specs.declared.allocation.Allocation.{Allocation as Row};
ghost use Rattle.fsm_tables.specs.Claims.{Claim as AnyClaim};

use crate::admission::claims::{Claim, add_wanted, are_distinct, claim_by, is_claimed};
use crate::cluster::{Cluster, is_among};
use fsm_tables::{Table, is_live};
use rows::{AcceptedPlan, AllocId, Allocation, Desired, NoMemory, Node, Ranged, Sequence, Usage};

/// A row after the stops of a plan.
fn after_stops(row: &Allocation, stops: &[AllocId]) -> Allocation
    ensures { result ≡ stop stops.now row.now }
{
    let mut row = *row;
    if is_among(row.id, stops) && row.desired == Desired::Run {
        row.desired = Desired::Stop;
    }
    row
}

/// Whether what is claimed of a node is within its size.
fn is_within(node: &Node, claims: &[Claim]) -> bool
    ensures { result ≡ bears_node claims.now node.now }
{
    let mut left = Usage::of(node.size);
    for claim in claims {
        if claim.node == node.number {
            let size = Usage::of(claim.size);
            if !size.is_within(left) {
                return false;
            }
            left = left.take(size);
        }
    }
    true
}

/// Whether what is claimed of each node is within its size.
fn are_within(nodes: &Table<Node>, claims: &[Claim]) -> bool
    ensures { result ≡ list_all (bears_node claims.now) nodes.now }
{
    for node in nodes.rows() {
        if !is_within(node, claims) {
            return false;
        }
    }
    true
}

/// Whether no claim is of the name of one of the others.
fn are_free(claims: &[Claim], others: &[Claim]) -> bool
    ensures { result ≡ are_free claims.now others.now }
{
    for claim in claims {
        if is_claimed(claim, others) {
            return false;
        }
    }
    true
}

impl Cluster {
    /// Whether no two claims are of one name, where the first `held` are of rows of this state: if
    /// names are held once in it, the others are looked at alone.
    fn are_held_once(&self, claims: &[Claim], held: usize) -> bool
        requires few { held ≤ length claims.now }
        requires held { HeldOnce held claims.now self.now }
        ensures { result ≡ are_distinct claims.now }
    {
        if self.are_named_once() {
            are_distinct(&claims[held..]) && are_free(&claims[..held], &claims[held..])
        } else {
            are_distinct(claims)
        }
    }

    /// Whether each claim is of a node that has a row.
    fn are_placed(&self, claims: &[Claim]) -> bool
        ensures { result ≡ list_all (is_placed self.now.nodes) claims.now }
    {
        for claim in claims {
            if self.node(claim.node).is_none() {
                return false;
            }
        }
        true
    }

    /// Whether the nodes bear what is claimed, of which the first `held` are of rows of this state.
    #[tactic(auto, using(crate::proofs::Claimed::all_within))]
    fn bears(&self, claims: &[Claim], held: usize) -> bool
        requires few { held ≤ length claims.now }
        requires held { HeldOnce held claims.now self.now }
        ensures { result ≡ are_safe self.now.nodes claims.now }
    {
        are_within(self.node_table(), claims)
            && self.are_placed(claims)
            && self.are_held_once(claims, held)
    }

    /// Whether the row stands under an id that a plan of so many places makes.
    fn is_made(&self, id: AllocId, places: usize) -> bool
        ensures { (row : Row) → row.id ≡ id → result ≡ is_made (self.now.count + 1) 0 places row }
    {
        id.index.get() == self.applied().get() + 1 && (id.slot.get() as usize) < places
    }

    /// Adds what a row claims after the stops of a plan, but for a row that the plan replaces.
    fn add_left(
        &self,
        claims: &mut Sequence<Claim>,
        row: &Allocation,
        plan: &AcceptedPlan,
    ) -> Result<(), NoMemory>
        ensures { let left = left_one (self.now.count + 1) (length plan.now.places) in
            let after = stop plan.now.stops row.now in
            OnOk result ((rest : List AnyClaim)
            → claims.new ++ rest ≡ claims.old ++ left after rest) }
    {
        let row = after_stops(row, plan.stops.as_slice());
        if is_live(&row) && !self.is_made(row.id, plan.places.as_slice().len()) {
            claims.push(claim_by(&row))
        } else {
            Ok(())
        }
    }

    /// What is claimed by what a plan neither stops nor replaces.
    fn left_by(&self, plan: &AcceptedPlan) -> Result<Sequence<Claim>, NoMemory>
        ensures { IfOk result (λ claims. claims ≡ left_by plan.now self.now) }
    {
        let mut claims = Sequence::new(self.memory());
        for row in self.alloc_table().rows() {
            self.add_left(&mut claims, row, plan)?;
        }
        Ok(claims)
    }

    /// Whether the state after a plan is safe. It looks at all that is claimed then.
    pub(super) fn bears_all(&self, plan: &AcceptedPlan) -> Result<bool, NoMemory>
        requires { length self.now.allocs + length plan.now.places ≤ most_allocs }
        ensures { IfOk result (λ b. b ≡ is_safe (planned plan.now (with_next_count self.now))) }
    {
        self.ranges();
        plan.ranges();
        let mut claims = self.left_by(plan)?;
        let held = claims.len();
        add_wanted(&mut claims, plan)?;
        Ok(self.bears(claims.as_slice(), held))
    }
}
