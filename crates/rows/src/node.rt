ghost use Rattle.std.specs.Prelude.{◌≡◌, ◌<◌, ◌≤◌, IfSome, IfNone};
ghost use Rattle.rows.specs.NodeStatuses.{is_ready, is_down};

use crate::index::Index;
use crate::list_rules::{Ranged, Ruled};
use crate::name::ClassName;
use crate::size::Size;
use std::fmt;
use std::marker::Model;

/// A node, numbered from 1 to 64: the one whose agent is the client of its number. Contracts see
/// its number.
#[derive(Clone, Copy, Debug, PartialEq, Eq, PartialOrd, Ord)]
pub struct NodeId(u8);

impl Model for NodeId {
    ghost use Rattle.std.specs.Prelude.{ℕ, ◌≤◌};

    ghost Value = { ℕ };

    ghost view = { λ n. n.0 };

    ghost invariant = { λ n. (1 ≤ n.0) × (n.0 ≤ 64) };

    ghost inverse = { λ n. record { 0 = n } };
}

impl NodeId {
    /// The greatest: 64.
    pub const MOST: u8 = 64;

    /// The node of a number; none where the number is not from 1 to 64.
    pub fn from_number(number: u8) -> Option<NodeId>
        ensures some { IfSome result (λ n. (n ≡ number) × (1 ≤ number) × (number ≤ 64)) }
        ensures none { IfNone result ((1 ≤ number) → 64 < number) }
    {
        if number >= 1 && number <= NodeId::MOST {
            Some(NodeId(number))
        } else {
            None
        }
    }

    /// Its number, from 1 to 64.
    pub fn number(self) -> u8
        ensures value { result ≡ self }
        ensures range { (1 ≤ result) × (result ≤ 64) }
    {
        self.0
    }
}

/// The number, from 1 to 64, in decimal.
impl fmt::Display for NodeId {
    ghost use Rattle.std.specs.Prelude.{Some, decimal};

    ghost output = { λ n. Some (decimal n) };

    fn fmt<W: fmt::Write>(&self, f: &mut fmt::Formatter<W>) -> fmt::Result {
        write!(f, "{}", self.number())
    }
}

impl Ranged for NodeId {
    ghost use Rattle.rows.specs.Fits.{NodeIdFits};

    ghost Fits = { NodeIdFits };

    fn ranges(&self) {
        let _number = self.number();
    }
}

/// Numbers of nodes that are listed by themselves strictly rise.
impl Ruled for NodeId {
    ghost use Rattle.rows.specs.Ids.{node_rises};

    ghost rule = { node_rises };

    fn may_follow(&self, front: &[NodeId]) -> bool {
        match front.last() {
            None => true,
            Some(last) => *last < *self,
        }
    }
}

/// Whether a node is heard of. (Nomad documentation, "Node statuses".)
#[derive(Clone, Copy, Debug, PartialEq, Eq)]
pub enum NodeStatus {
    /// Its agent reports.
    Ready,
    /// It was not heard of in time, and its work is lost.
    Down,
    /// It was not heard of in time, and its work is unknown.
    Disconnected,
}

impl NodeStatus {
    /// Whether its agent reports.
    pub fn is_ready(self) -> bool
        ensures { result ≡ is_ready self }
    {
        match self {
            NodeStatus::Ready => true,
            NodeStatus::Down | NodeStatus::Disconnected => false,
        }
    }

    /// Whether it was not heard of in time, and its work is lost.
    pub fn is_down(self) -> bool
        ensures { result ≡ is_down self }
    {
        match self {
            NodeStatus::Ready | NodeStatus::Disconnected => false,
            NodeStatus::Down => true,
        }
    }
}

/// How a node is emptied, if it is. (Nomad documentation, "node drain" command.)
#[derive(Clone, Copy, Debug, PartialEq, Eq)]
pub enum DrainMode {
    /// It is not.
    Off,
    /// One allocation of each group after the other.
    Slow,
    /// All allocations at once.
    Force,
}

/// What a node says of itself when it registers.
#[derive(Clone, Copy, Debug, PartialEq, Eq)]
pub struct NodeSpec {
    /// Which node it is.
    pub number: NodeId,
    /// The class that groups ask for.
    pub class: ClassName,
    /// What it has.
    pub size: Size,
}

impl Ranged for NodeSpec {
    ghost use Rattle.rows.specs.Fits.{NodeSpecFits};

    ghost Fits = { NodeSpecFits };

    fn ranges(&self) {
        let _number = self.number.number();
        let _class = self.class.as_bytes();
        self.size.ranges();
    }
}

/// A node's row.
#[derive(Clone, Copy, Debug, PartialEq, Eq)]
pub struct Node {
    /// Its number, by which it is found.
    pub number: NodeId,
    /// The class that groups ask for.
    pub class: ClassName,
    /// What it has.
    pub size: Size,
    /// Whether it is heard of.
    pub status: NodeStatus,
    /// Whether allocations may be placed on it.
    pub eligible: bool,
    /// Whether it is emptied, and how.
    pub drain: DrainMode,
    /// The last entry that gave room on it.
    pub room: Index,
}

impl Ranged for Node {
    ghost use Rattle.rows.specs.Fits.{NodeFits};

    ghost Fits = { NodeFits };

    fn ranges(&self) {
        let _number = self.number.number();
        let _class = self.class.as_bytes();
        self.size.ranges();
        let _room = self.room.get();
    }
}
