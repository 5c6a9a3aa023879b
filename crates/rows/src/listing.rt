//! The allocations that an agent is shown.
ghost use Rattle.std.specs.Prelude.{◌≡◌, IfOk, IfErr};
ghost use Rattle.rows.specs.declared.refusal.Refusal.TheVariants as refusals;
ghost use Rattle.rows.specs.Listings.{AreListed};

use crate::allocation::AllocId;
use crate::list_rules::{Ranged, Ruled, all_ranges, keep_rule};
use crate::refusal::Refusal;
use crate::sequence::Sequence;
use crate::size::Size;
use std::marker::Model;

/// What is known of a live allocation's work. (Nomad documentation, "Allocations": client status.)
#[derive(Clone, Copy, Debug, PartialEq, Eq)]
pub enum LiveState {
    /// Its agent was not heard of it yet.
    Pending,
    /// It runs.
    Running,
    /// Its node was disconnected, and nothing was reported of it since.
    Unknown,
}

/// A live allocation, as the agent of its node is shown it.
#[derive(Clone, Copy, Debug, PartialEq, Eq)]
pub struct ListedAllocation {
    /// Its id.
    pub id: AllocId,
    /// What it takes of the node.
    pub size: Size,
    /// What the servers know of its work.
    pub state: LiveState,
}

impl Ranged for ListedAllocation {
    ghost use Rattle.rows.specs.Fits.{ListedAllocationFits};

    ghost Fits = { ListedAllocationFits };

    fn ranges(&self) {
        self.id.ranges();
        self.size.ranges();
    }
}

/// Ids strictly rise.
impl Ruled for ListedAllocation {
    ghost use Rattle.rows.specs.Listings.{listed_rises};

    ghost rule = { listed_rises };

    fn may_follow(&self, front: &[ListedAllocation]) -> bool {
        match front.last() {
            None => true,
            Some(last) => last.id < self.id,
        }
    }
}

/// The live allocations of a node, as its agent is shown them: at most 65,536, in strictly rising
/// id. Contracts see the list.
#[derive(Drop)]
pub struct Listing {
    rows: Vec<ListedAllocation>,
}

impl Model for Listing {
    ghost use Rattle.std.specs.Prelude.{List};
    ghost use Rattle.rows.specs.declared.listing.ListedAllocation.{ListedAllocation};
    ghost use Rattle.rows.specs.Listings.{AreListed};

    ghost Value = { List ListedAllocation };

    ghost view = { λ l. l.rows.items };

    ghost invariant = { λ l. AreListed l.rows.items };
}

impl Listing {
    /// The greatest number of rows.
    pub const MOST: usize = 65_536;

    /// The rows of a list. `OutOfRange` where there are more than 65,536, or their ids do not
    /// strictly rise.
    pub fn check(rows: Sequence<ListedAllocation>) -> Result<Listing, Refusal>
        ensures ok { IfOk result (λ listing. (listing ≡ rows) × AreListed rows) }
        ensures err { IfErr result (λ e. (e ≡ refusals.OutOfRange) × (AreListed rows → ⊥)) }
    {
        let rows = rows.into_vec();
        if rows.len() <= Listing::MOST && keep_rule(&rows) {
            Ok(Listing { rows })
        } else {
            Err(Refusal::OutOfRange)
        }
    }

    /// The rows, in their order.
    pub fn as_slice(&self) -> &[ListedAllocation]
        ensures rows { result.now ≡ self.now }
        ensures fits { AreListed result.now }
    {
        &self.rows
    }
}

impl Ranged for Listing {
    ghost use Rattle.rows.specs.Fits.{ListingFits};

    ghost Fits = { ListingFits };

    fn ranges(&self) {
        all_ranges(self.as_slice());
    }
}
