//! What a client's process starts from.
ghost use Rattle.std.specs.Prelude.{◌≡◌, List, IfOk, option_map};
ghost use Rattle.rows.specs.declared.node.NodeSpec.{NodeSpec as AnyNodeSpec};
ghost use Rattle.process_lives.specs.Groups.{IsNodeOf};
ghost use Rattle.client_node.specs.Lives.{BeginsWith, node_header};

use crate::fault::Fault;
use crate::node::ClientNode;
use crate::reading::started_of;
use rows::{NodeSpec, Ranged};
use std::alloc::Global;
use timers::ClientTimers;

/// The agent of a node with what the store has, or where there is none a new one, with these
/// timers. The header is the first line of its journal.
pub fn begin(
    alloc: Global,
    node: NodeSpec,
    size: usize,
    header: &[u8],
    stored: Option<&[u8]>,
    timers: ClientTimers,
) -> Result<ClientNode, Fault>
    ensures { IfOk result (λ client. header.now ≡ node_header size node →
        (nodes : List AnyNodeSpec) → IsNodeOf nodes node.number node →
        BeginsWith size nodes node.number (option_map (λ text. text.now) stored.entry) client) }
{
    node.ranges();
    let started = started_of(alloc, header, stored)?;
    ClientNode::begin(alloc, node, size, started.as_slice(), timers)
}
