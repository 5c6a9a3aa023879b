//! Whether the state after a plan is safe, by a look at the plan alone where names are known to be
//! held once.
ghost use Rattle.std.specs.Prelude.{◌≡◌, List, ◌++◌, ◌≤◌, ◌+◌, ◌&&◌, ◌<◌, IfOk, OnOk, length};
ghost use Rattle.std.specs.List.{list_all};
ghost use Rattle.fsm_tables.specs.Claims.{used, Claim as AnyClaim};
ghost use Rattle.rows.specs.Limits.{most_allocs};
ghost use Rattle.fsm_model.specs.Safe.{is_safe};
ghost use Rattle.fsm_model.specs.Words.{node_of, alloc_of};
ghost use Rattle.fsm_model.specs.Effect.{with_next_count, planned};
ghost use Rattle.fsm_model.specs.Plans.{wanted, are_dated, room_of};
ghost use Rattle.fsm_state.specs.Inner.Alone.{claim_name, is_name_free, claim_if_live, ended_by, has_room, all_numbers, passes_alone};

use crate::admission::claims::{Claim, add_wanted, are_distinct, claim_by};
use crate::cluster::{Cluster, is_among};
use crate::room::taken;
use fsm_tables::{AllocName, is_live};
use rows::{AcceptedPlan, AllocId, NoMemory, NodeId, Ranged, Sequence, Usage};

/// The name that a claim holds.
fn named(claim: &Claim) -> AllocName
    ensures { result ≡ claim_name claim.now }
{
    AllocName {
        job: claim.job,
        group: claim.group,
        index: claim.index,
    }
}

impl Cluster {
    /// What a node has; nothing where it has no row.
    fn room_of(&self, node: NodeId) -> Usage
        ensures { result ≡ room_of (node_of node self.now) }
    {
        match self.node(node) {
            Some(row) => Usage::of(row.size),
            None => Usage::NONE,
        }
    }

    /// Whether a node's room bears what is used of it and what is wanted, once some of it is ended.
    fn has_room(&self, node: NodeId, ended: &[Claim], wanted: &[Claim]) -> bool
        requires few_ended { length ended.now ≤ 64 }
        requires few_wanted { length wanted.now ≤ 64 }
        ensures { result ≡ has_room self.now ended.now wanted.now node }
    {
        let room = self.room_of(node);
        let used = self.used(node);
        let more = taken(node, wanted);
        let less = taken(node, ended);
        Usage::is_enough(room, used, more, less)
    }

    /// The same for the node of a number.
    fn has_number_room(&self, number: u8, ended: &[Claim], wanted: &[Claim]) -> bool
        requires number { (1 ≤ number) × (number ≤ 64) }
        requires few_ended { length ended.now ≤ 64 }
        requires few_wanted { length wanted.now ≤ 64 }
        ensures { result ≡ has_room self.now ended.now wanted.now number }
    {
        match NodeId::from_number(number) {
            Some(node) => self.has_room(node, ended, wanted),
            None => unreachable!(),
        }
    }

    /// Whether each node's room does.
    fn have_room(&self, ended: &[Claim], wanted: &[Claim]) -> bool
        requires few_ended { length ended.now ≤ 64 }
        requires few_wanted { length wanted.now ≤ 64 }
        ensures { result ≡ all_numbers (has_room self.now ended.now wanted.now) }
    {
        for before in 0..NodeId::MOST {
            if !self.has_number_room(before + 1, ended, wanted) {
                return false;
            }
        }
        true
    }

    /// Whether each claim's name finds no row, or one of these.
    fn are_free_but(&self, claims: &[Claim], ids: &[AllocId]) -> bool
        ensures { result ≡ list_all (is_name_free ids.now self.now.allocs) claims.now }
    {
        for claim in claims {
            if !self.is_free_but(&named(claim), ids) {
                return false;
            }
        }
        true
    }

    /// Adds what the allocation claims, if it is live.
    fn add_ended(&self, claims: &mut Sequence<Claim>, id: AllocId) -> Result<(), NoMemory>
        ensures { OnOk result ((rest : List AnyClaim)
            → claims.new ++ rest ≡ claims.old ++ claim_if_live (alloc_of id self.now) rest) }
    {
        match self.alloc(id) {
            Some(row) if is_live(row) => claims.push(claim_by(row)),
            _ => Ok(()),
        }
    }

    /// What the live allocations among these claim, each once.
    fn ended_by(&self, ids: &[AllocId]) -> Result<Sequence<Claim>, NoMemory>
        ensures { IfOk result (λ claims. claims ≡ ended_by ids.now self.now.allocs) }
    {
        let mut claims = Sequence::new(self.memory());
        for place in 0..ids.len() {
            if !is_among(ids[place], &ids[place + 1..]) {
                self.add_ended(&mut claims, ids[place])?;
            }
        }
        Ok(claims)
    }

    /// Whether each allocation was made by an entry before the next one: so was the last of them,
    /// by id.
    fn are_dated(&self) -> bool
        ensures { result ≡ are_dated (self.now.count + 1) self.now.allocs }
    {
        self.ranges();
        match self.alloc_table().last() {
            Some(row) => row.id.index.get() < self.applied().get() + 1,
            None => true,
        }
    }

    /// Whether a plan passes that is looked at alone: each node's use, and the names that it takes.
    fn passes_alone(&self, plan: &AcceptedPlan) -> Result<bool, NoMemory>
        ensures { IfOk result (λ b. b ≡ passes_alone plan.now self.now) }
    {
        plan.ranges();
        let stops = plan.stops.as_slice();
        let ended = self.ended_by(stops)?;
        let mut wanted = Sequence::new(self.memory());
        add_wanted(&mut wanted, plan)?;
        Ok(
            self.have_room(ended.as_slice(), wanted.as_slice())
                && are_distinct(wanted.as_slice())
                && self.are_free_but(wanted.as_slice(), stops),
        )
    }

    /// Whether the state after a plan is safe. Where it is known that names are held once, and no
    /// row stands under an id that the plan makes, it takes time in the plan and the logarithm of
    /// the table; else it looks at all that is claimed.
    pub(super) fn bears_plan(&self, plan: &AcceptedPlan) -> Result<bool, NoMemory>
        requires { length self.now.allocs + length plan.now.places ≤ most_allocs }
        ensures { IfOk result (λ b. b ≡ is_safe (planned plan.now (with_next_count self.now))) }
    {
        self.ranges();
        plan.ranges();
        if self.knows_names_distinct() && self.are_dated() {
            self.passes_alone(plan)
        } else {
            self.bears_all(plan)
        }
    }
}
