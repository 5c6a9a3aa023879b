//! Lists of allocations that an agent is shown.
ghost use Rattle.std.specs.Prelude.{◌≡◌, map, OnOk, OnErr};
ghost use Rattle.rows.specs.Listings.{AreListed};
ghost use Rattle.fsm_model.specs.ClusterMachine.{cluster_spec};
ghost use Rattle.group_model.specs.Messages.{Service};
ghost use Rattle.group_model.specs.Agents.{report_messages, news};
ghost use Rattle.group_frames.specs.GroupFrames.{SendsGroup};
ghost use Rattle.client_agent.specs.Capacity.{FitTogether};
ghost use Rattle.client_agent.specs.Inner.Runs.{followed, MoreIds};

use crate::asking::send_reports;
use crate::life::Life;
use crate::started::Started;
use fsm_state::Cluster;
use rows::{Index, ListedAllocation, NoMemory, NodeSpec, ServerId};
use std::alloc::Global;
use wire::{Body, Frames};

/// What a server of the group says to this client.
#[derive(Drop)]
pub(crate) struct Received {
    /// The server.
    pub from: ServerId,
    /// What it says.
    pub body: Body<Cluster>,
}

/// A list that a server sent.
#[derive(Drop)]
pub(crate) struct Shown<'a> {
    /// The server.
    pub from: ServerId,
    /// The index of the state that it was read from.
    pub index: Index,
    /// The live allocations of the node.
    pub rows: &'a [ListedAllocation],
}

/// A list is taken on this node, and what is new is reported to its sender. Without memory nothing
/// is sent.
pub(crate) fn apply_list(
    alloc: Global,
    node: &NodeSpec,
    list: &Shown<'_>,
    started: &mut Started,
    life: &mut Life,
    outbox: &mut Frames,
) -> Result<(), NoMemory>
    requires fit { FitTogether node.now.size life.old.running }
    requires listed { AreListed list.now.rows.now }
    ensures ok { let next = followed node.now.size list.now.rows.now started.old life.old in
        OnOk result ((started.new ≡ next.ids)
        × (life.new ≡ record life.old { seen = list.now.index; running = next.running })
        × SendsGroup cluster_spec outbox.old outbox.new (map Service (report_messages
        node.now.number list.now.from (news next life.old.ended list.now.rows.now)))) }
    ensures fit { OnOk result (FitTogether node.now.size life.new.running) }
    ensures grows { MoreIds started.old started.new }
    ensures err { OnErr result (outbox.new ≡ outbox.old) }
{
    life.follow(node.size, list.index, list.rows, started)?;
    let items = life.news(alloc, list.rows, started)?;
    send_reports(node, list.from, items, outbox)?;
    Ok(())
}
