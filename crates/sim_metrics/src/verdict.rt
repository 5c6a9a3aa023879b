//! Whether a node has room for one more of a group, and why not.
ghost use Rattle.std.specs.Prelude.{◌≡◌, ◌+◌, nat_le};
ghost use Rattle.fsm_tables.specs.Claims.{claims};
ghost use Rattle.sim_metrics.specs.Verdicts.{verdict, verdict_number, verdict_with};

use fsm_state::Cluster;
use rows::{Group, Node, Usage};

/// Whether a node has room for one more of a group; where it has none, the first reason that
/// applies, in this order.
#[derive(Clone, Copy, Debug, PartialEq, Eq)]
pub enum Verdict {
    /// It is of another class.
    OtherClass,
    /// It is not ready: disconnected or down.
    NotReady,
    /// Nothing may be placed on it: it is drained, or was.
    NotEligible,
    /// It lacks processor time.
    LacksCpu,
    /// It lacks memory.
    LacksMemory,
    /// It lacks disk.
    LacksDisk,
    /// It has room.
    HasRoom,
}

impl Verdict {
    /// The place of the verdict in that order, from 0.
    pub(crate) fn number(self) -> u8
        ensures { result ≡ verdict_number self }
    {
        match self {
            Verdict::OtherClass => 0,
            Verdict::NotReady => 1,
            Verdict::NotEligible => 2,
            Verdict::LacksCpu => 3,
            Verdict::LacksMemory => 4,
            Verdict::LacksDisk => 5,
            Verdict::HasRoom => 6,
        }
    }
}

// Whether a room bears some more. The sum is of numbers that hold any two of them.
fn bears(room: u32, used: u64, more: u32) -> bool
    ensures { result ≡ nat_le (used + more) room }
{
    used as u128 + more as u128 <= room as u128
}

// The verdict on a node of which so much is in use.
fn verdict_with(used: Usage, group: &Group, node: &Node) -> Verdict
    ensures { result ≡ verdict_with used group.now node.now }
{
    if node.class != group.class {
        return Verdict::OtherClass;
    }
    if !node.status.is_ready() {
        return Verdict::NotReady;
    }
    if !node.eligible {
        return Verdict::NotEligible;
    }
    if !bears(node.size.cpu.get(), used.cpu(), group.size.cpu.get()) {
        return Verdict::LacksCpu;
    }
    if !bears(node.size.mem.get(), used.mem(), group.size.mem.get()) {
        return Verdict::LacksMemory;
    }
    if !bears(node.size.disk.get(), used.disk(), group.size.disk.get()) {
        return Verdict::LacksDisk;
    }
    Verdict::HasRoom
}

/// The verdict on a node of a state, as it is used there.
pub(crate) fn node_verdict(state: &Cluster, group: &Group, node: &Node) -> Verdict
    ensures { result ≡ verdict (claims state.now.allocs) group.now node.now }
{
    verdict_with(state.used(node.number), group, node)
}
