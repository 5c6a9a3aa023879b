//! What the two indexes list allocations by: the live ones by name, those that are pending, running
//! or unknown by node.
ghost use Rattle.std.specs.Prelude.{◌≡◌, true, false};
ghost use Rattle.fsm_tables.specs.Inner.Keys.{live_name, active_on, least_id, greatest_id, first_entry, last_entry};

use crate::index::{Entry, IndexKey};
use crate::name::AllocName;
use crate::usage::{is_active, is_live, is_wanted};
use rows::{AllocId, Allocation, EntryIndex, Index, NodeId, Ordinal};

/// Live allocations by name.
impl IndexKey for AllocName {
    ghost use Rattle.fsm_tables.specs.Inner.Keys.{live_name};

    ghost key_of = { live_name };

    fn of(row: &Allocation) -> Option<AllocName> {
        if is_live(row) {
            Some(AllocName::of(row))
        } else {
            None
        }
    }
}

/// Where an allocation that is pending, running or unknown is, and whether it is live.
#[derive(Clone, Copy, PartialEq, Eq, PartialOrd, Ord)]
pub(crate) struct OnNode {
    /// The node.
    pub node: NodeId,
    /// Whether it is to run there, and not to stop.
    pub live: bool,
}

impl OnNode {
    /// Where the live ones of a node are.
    pub fn live(node: NodeId) -> OnNode
        ensures { result ≡ record { node = node; live = true } }
    {
        OnNode { node, live: true }
    }

    /// Where those of a node are that are to stop.
    pub fn stopping(node: NodeId) -> OnNode
        ensures { result ≡ record { node = node; live = false } }
    {
        OnNode { node, live: false }
    }
}

/// Allocations that are pending, running or unknown by node; on a node first those that are to
/// stop.
impl IndexKey for OnNode {
    ghost use Rattle.fsm_tables.specs.Inner.Keys.{active_on};

    ghost key_of = { active_on };

    fn of(row: &Allocation) -> Option<OnNode> {
        if is_active(row.client) {
            Some(OnNode {
                node: row.node,
                live: is_wanted(row.desired),
            })
        } else {
            None
        }
    }
}

/// The least id.
fn least_id() -> AllocId
    ensures { result ≡ least_id }
{
    AllocId {
        index: EntryIndex::after(Index::ZERO),
        slot: Ordinal::new(0).unwrap(),
    }
}

/// The greatest id.
fn greatest_id() -> AllocId
    ensures { result ≡ greatest_id }
{
    AllocId {
        index: EntryIndex::new(Index::LIMIT - 1).unwrap(),
        slot: Ordinal::new(Ordinal::MOST).unwrap(),
    }
}

/// The first entry that a key can have.
pub(crate) fn first<K: IndexKey>(key: K) -> Entry<K>
    ensures { result ≡ first_entry key }
{
    Entry {
        key,
        id: least_id(),
    }
}

/// The last entry that a key can have.
pub(crate) fn last<K: IndexKey>(key: K) -> Entry<K>
    ensures { result ≡ last_entry key }
{
    Entry {
        key,
        id: greatest_id(),
    }
}
