ghost use Rattle.std.specs.Prelude.{◌≡◌};
ghost use Rattle.group_model.specs.Expiry.{one_heartbeat_more};

use fsm_tables::Row;
use rows::{Index, NodeId, Ranged};
use std::marker::Model;

/// How often a node that is not down was heard of, up to 2^40 - 1 times.
#[derive(Clone, Copy)]
pub(crate) struct HeartbeatCount {
    /// The node.
    pub node: NodeId,
    /// How often.
    pub beats: Index,
}

impl Model for HeartbeatCount {
    ghost use Rattle.group_model.specs.Expiry.{HeartbeatCount as AnyHeartbeatCount};

    ghost Value = { AnyHeartbeatCount };

    ghost view = { λ c. record { node = c.node; beats = c.beats } };

    ghost inverse = { λ c. record { node = c.node; beats = c.beats } };
}

impl HeartbeatCount {
    /// The same node, heard of once more; at 2^40 - 1 its number stays.
    pub fn one_more(self) -> HeartbeatCount
        ensures { result ≡ one_heartbeat_more self }
    {
        HeartbeatCount {
            node: self.node,
            beats: Index::new(self.beats.get() + 1).unwrap_or(self.beats),
        }
    }
}

impl Ranged for HeartbeatCount {
    ghost use Rattle.rows.specs.Fits.{NodeIdFits, IndexFits};

    ghost Fits = { λ c. NodeIdFits c.node × IndexFits c.beats };

    fn ranges(&self) {
        let _node = self.node.number();
        let _beats = self.beats.get();
    }
}

/// Counts by node.
impl Row for HeartbeatCount {
    type Key = NodeId;

    ghost key_of = { λ c. c.node };

    fn key(&self) -> &NodeId {
        &self.node
    }
}
