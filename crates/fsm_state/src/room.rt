//! What is taken of a node.
ghost use Rattle.std.specs.Prelude.{◌≡◌, ◌≤◌, List, ℕ, length, map};
ghost use Rattle.rows.specs.Sizes.{Part, amount};
ghost use Rattle.fsm_tables.specs.Claims.{Claim, claim_of, used};

use rows::{AcceptedPlace, Allocation, NodeId, Size, Usage};

/// What takes room of a node, as an allocation or a place of a plan. (Nomad documentation,
/// "resources block".)
pub trait TakesRoom {
    /// What it claims, for the job of this name where it names none itself.
    ghost claim: { List ℕ → Self → Claim };

    /// The node that it takes room of.
    fn node(&self) -> NodeId
        ensures { (job : List ℕ) → result ≡ (claim job self.now).node };

    /// What it takes there.
    fn size(&self) -> Size
        ensures { (job : List ℕ) → result ≡ (claim job self.now).size };
}

impl TakesRoom for Allocation {
    ghost claim = { λ job row. claim_of row };

    fn node(&self) -> NodeId {
        self.node
    }

    fn size(&self) -> Size {
        self.size
    }
}

impl TakesRoom for AcceptedPlace {
    ghost claim = { λ job place. record {
      job = job;
      group = place.group;
      index = place.index;
      node = place.node;
      size = place.size;
    } };

    fn node(&self) -> NodeId {
        self.node
    }

    fn size(&self) -> Size {
        self.size
    }
}

/// What these take of a node together: at most 64 of them, so at most 64,000,000 MHz and as many
/// MB of memory and of disk.
pub fn taken<T: TakesRoom>(node: NodeId, takers: &[T]) -> Usage
    requires { length takers.now ≤ 64 }
    ensures value { (job : List ℕ) → result ≡ used node (map (T.claim job) takers.now) }
    ensures small { (p : Part) → amount p result ≤ 64000000 }
{
    let mut taken = Usage::NONE;
    for taker in takers {
        if taker.node() == node {
            taken = taken.add(Usage::of(taker.size()));
        }
    }
    taken
}
