ghost use Rattle.std.specs.Prelude.{◌≡◌, ◌≤◌, [], true, Some, None, Ok, Err, length, option_map, T as Holds};
ghost use Rattle.std.specs.Prelude.{OnOk, OnErr, IfOk, IfErr};
ghost use Rattle.rows.specs.declared.refusal.Refusal.TheVariants as refusals;
ghost use Rattle.std.specs.Ordering.{nat_cmp};
ghost use Rattle.fsm_tables.specs.ReservedTables.{has_space};
ghost use Rattle.group_model.specs.Expiry.{is_held, count_node, heartbeat_count_of, heartbeat_counts_over, heartbeat_counts_with};
ghost use Rattle.group_model.specs.HeartbeatCounts.{heartbeat_counted, expiry_refusal};
ghost use Rattle.expiry.specs.Errors.{refusal_of};

use crate::errors::{ExpiryError, UnknownNode};
use crate::heartbeat_count::HeartbeatCount;
use fsm_state::Cluster;
use fsm_tables::{ReservedTable, Table};
use rows::{Index, NoMemory, Node, NodeId, NodeStatus};
use std::alloc::Global;
use std::marker::Model;

/// The nodes that are not down, each with the number of its heartbeats since the desk opened, or
/// since the node came or was down. Contracts see the list of them in rising node. (Nomad
/// documentation, "server" block of the agent configuration: heartbeats of clients; a count in
/// place of a timer is this project's own.)
#[derive(Drop)]
pub struct Expiry {
    counts: ReservedTable<HeartbeatCount>,
}

impl Model for Expiry {
    ghost use Rattle.std.specs.Prelude.{List};
    ghost use Rattle.group_model.specs.Expiry.{HeartbeatCount as AnyHeartbeatCount};

    ghost Value = { List AnyHeartbeatCount };

    ghost view = { λ e. e.counts.rows };
}

/// Whether heartbeats of a node of this status are counted: it is ready or disconnected.
fn is_held(status: NodeStatus) -> bool
    ensures { result ≡ is_held status }
{
    !status.is_down()
}

/// Those of the nodes that are held, none of which was heard of yet.
fn counts_over(
    alloc: Global,
    nodes: &Table<Node>,
) -> Result<ReservedTable<HeartbeatCount>, NoMemory>
    ensures ok { IfOk result (λ counts. counts.rows ≡ heartbeat_counts_over nodes.now []) }
    ensures memory { OnErr result (1 ≤ length nodes.now) }
{
    nodes.ranges();
    let mut counts = ReservedTable::empty(alloc);
    counts.reserve_rows(nodes.len())?;
    let mut at = nodes.len();
    while at > 0 {
        at -= 1;
        let Some(row) = nodes.at(at) else {
            unreachable!()
        };
        if is_held(row.status) {
            counts.put(HeartbeatCount {
                node: row.number,
                beats: Index::ZERO,
            });
        }
    }
    Ok(counts)
}

/// Makes room for a count, unless one of its node is held. Without memory no row changes.
fn make_space(
    counts: &mut ReservedTable<HeartbeatCount>,
    count: &HeartbeatCount,
) -> Result<(), NoMemory>
    ensures rows { counts.new.rows ≡ counts.old.rows }
    ensures ok { OnOk result (Holds (has_space nat_cmp count_node count.now counts.new)) }
    ensures memory { OnErr result (heartbeat_count_of count.now.node counts.old.rows ≡ None) }
{
    if counts.get(&count.node).is_some() {
        return Ok(());
    }
    let most = counts.rows().len() + 1;
    counts.reserve_rows(most)
}

impl Expiry {
    /// No nodes. It takes no memory.
    pub fn new(alloc: Global) -> Expiry
        ensures { result ≡ [] }
    {
        Expiry {
            counts: ReservedTable::empty(alloc),
        }
    }

    /// The nodes of a state that are not down, none of which was heard of yet. A state without
    /// nodes takes no memory.
    pub fn rebuild(alloc: Global, state: &Cluster) -> Result<Expiry, NoMemory>
        ensures ok { IfOk result (λ e. e ≡ heartbeat_counts_over state.now.nodes []) }
        ensures memory { OnErr result (1 ≤ length state.now.nodes) }
    {
        let counts = counts_over(alloc, state.node_table())?;
        Ok(Expiry { counts })
    }

    /// How often a node was heard of, if it is held.
    pub fn beats(&self, node: NodeId) -> Option<Index>
        ensures { result ≡ option_map (λ c. c.beats) (heartbeat_count_of node self.now) }
    {
        match self.counts.get(&node) {
            Some(count) => Some(count.beats),
            None => None,
        }
    }

    /// A node's row was made or replaced: one that is not down and not held comes in with 0, one
    /// that is held keeps its number, also where it goes from ready to disconnected or back, and
    /// one that is down goes. Only a node that comes in takes memory; without it nothing changes.
    pub fn changed(&mut self, row: &Node) -> Result<(), NoMemory>
        ensures ok { OnOk result (self.new ≡ heartbeat_counts_with row.now self.old) }
        ensures err { OnErr result (self.new ≡ self.old) }
        ensures memory { let old = heartbeat_count_of row.now.number self.old in
            OnErr result ((is_held row.now.status ≡ true) × (old ≡ None)) }
    {
        if !is_held(row.status) {
            self.counts.cut(&row.number);
            return Ok(());
        }
        let beats = self.beats(row.number).unwrap_or(Index::ZERO);
        let count = HeartbeatCount {
            node: row.number,
            beats,
        };
        make_space(&mut self.counts, &count)?;
        self.counts.put(count);
        Ok(())
    }

    /// A node was heard of: its number rises by one, and stays at 2^40 - 1. Refused where it is not
    /// held, which changes nothing. It takes no memory.
    pub fn beat(&mut self, node: NodeId) -> Result<(), UnknownNode>
        ensures ok { OnOk result (heartbeat_counted node self.old ≡ Ok self.new) }
        ensures err { OnErr result (heartbeat_counted node self.old ≡ Err refusals.UnknownNode) }
        ensures left { OnErr result (self.new ≡ self.old) }
    {
        let _in_order = self.counts.rows();
        let Some(count) = self.counts.get(&node) else {
            return Err(UnknownNode);
        };
        let next = count.one_more();
        self.counts.put(next);
        Ok(())
    }

    /// Whether a node expires, which was heard of so often and not since. `UnknownNode` where it is
    /// not held; `StaleExpiry` where its number is another. It takes no memory.
    pub fn expire(&self, node: NodeId, beats: Index) -> Result<(), ExpiryError>
        ensures ok { OnOk result (expiry_refusal node beats self.now ≡ None) }
        ensures err { IfErr result
            (λ e. expiry_refusal node beats self.now ≡ Some (refusal_of e)) }
    {
        match self.beats(node) {
            None => Err(ExpiryError::UnknownNode),
            Some(heard) if heard != beats => Err(ExpiryError::StaleExpiry),
            Some(_) => Ok(()),
        }
    }
}
