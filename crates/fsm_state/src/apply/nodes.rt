//! Rows of nodes that come, are not heard of, are drained, and have room.
ghost use Rattle.std.specs.Prelude.{◌≡◌, ◌≢◌, OnOk, OnErr, None, false, true, option_map};
ghost use Rattle.fsm_model.specs.Words.{node_of};
ghost use Rattle.fsm_model.specs.Effect.{node_put, node_row, status_row, draining_row, drained_row};
ghost use Rattle.fsm_state.specs.Inner.Steps.{node_changed, node_has_room};

use crate::cluster::Cluster;
use rows::{DrainMode, Index, NoMemory, Node, NodeId, NodeSpec, NodeStatus};

/// The row of a node that comes, or comes back.
fn registered(spec: &NodeSpec, old: Option<&Node>, room: Index) -> Node
    ensures { result ≡ node_row room spec.now (option_map (λ r. r.now) old.entry) }
{
    match old {
        Some(old) => {
            let mut row = *old;
            row.status = NodeStatus::Ready;
            row.room = room;
            row
        }
        None => Node {
            number: spec.number,
            class: spec.class,
            size: spec.size,
            status: NodeStatus::Ready,
            eligible: true,
            drain: DrainMode::Off,
            room,
        },
    }
}

impl Cluster {
    /// A node comes, or comes back.
    pub(super) fn make_node(&mut self, spec: &NodeSpec) -> Result<(), NoMemory>
        ensures { OnOk result (self.new ≡ node_put spec.now self.old) }
    {
        let row = registered(spec, self.node(spec.number), self.applied());
        self.put_node(row)
    }

    /// Gives a node another status.
    pub(super) fn set_status(&mut self, number: NodeId, status: NodeStatus) -> Result<(), NoMemory>
        ensures { OnOk result (self.new ≡ node_changed (status_row status) number self.old) }
    {
        match self.node(number) {
            Some(row) => {
                let mut row = *row;
                row.status = status;
                self.put_node(row)
            }
            None => Ok(()),
        }
    }

    /// Begins to empty a node.
    pub(super) fn set_draining(&mut self, number: NodeId, force: bool) -> Result<(), NoMemory>
        ensures ok { OnOk result (self.new ≡ node_changed (draining_row force) number self.old) }
        ensures memory { OnErr result (node_of number self.old ≢ None) }
    {
        match self.node(number) {
            Some(row) => {
                let mut row = *row;
                row.eligible = false;
                row.drain = if force {
                    DrainMode::Force
                } else {
                    DrainMode::Slow
                };
                self.put_node(row)
            }
            None => Ok(()),
        }
    }

    /// Ends the emptying of a node.
    pub(super) fn set_drained(&mut self, number: NodeId) -> Result<(), NoMemory>
        ensures ok { OnOk result (self.new ≡ node_changed drained_row number self.old) }
        ensures memory { OnErr result (node_of number self.old ≢ None) }
    {
        match self.node(number) {
            Some(row) => {
                let mut row = *row;
                row.drain = DrainMode::Off;
                self.put_node(row)
            }
            None => Ok(()),
        }
    }

    /// A node has room from the last command on.
    pub(super) fn give_room(&mut self, number: NodeId) -> Result<(), NoMemory>
        ensures { OnOk result (self.new ≡ node_has_room number self.old) }
    {
        let room = self.applied();
        match self.node(number) {
            Some(row) => {
                let mut row = *row;
                row.room = room;
                self.put_node(row)
            }
            None => Ok(()),
        }
    }
}
