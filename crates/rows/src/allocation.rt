use crate::entry_index::EntryIndex;
use crate::evaluation::EvalId;
use crate::list_rules::{Ranged, Ruled};
use crate::name::{GroupName, JobName};
use crate::node::NodeId;
use crate::ordinal::Ordinal;
use crate::size::Size;

/// An allocation: the entry that made it, and its place among those of the entry.
#[derive(Clone, Copy, Debug, PartialEq, Eq, PartialOrd, Ord)]
pub struct AllocId {
    /// The entry that made it.
    pub index: EntryIndex,
    /// Its place among the allocations of the entry.
    pub slot: Ordinal,
}

impl Ranged for AllocId {
    ghost use Rattle.rows.specs.Fits.{AllocIdFits};

    ghost Fits = { AllocIdFits };

    fn ranges(&self) {
        let _index = self.index.get();
        let _slot = self.slot.get();
    }
}

/// Ids that are listed by themselves strictly rise.
impl Ruled for AllocId {
    ghost use Rattle.rows.specs.Ids.{id_rises};

    ghost rule = { id_rises };

    fn may_follow(&self, front: &[AllocId]) -> bool {
        match front.last() {
            None => true,
            Some(last) => *last < *self,
        }
    }
}

/// What the servers want of an allocation. (Nomad documentation, "Allocations": desired status.)
#[derive(Clone, Copy, Debug, PartialEq, Eq)]
pub enum Desired {
    /// That it runs.
    Run,
    /// That it stops.
    Stop,
}

/// What is known of an allocation's work. (Nomad documentation, "Allocations": client status.)
#[derive(Clone, Copy, Debug, PartialEq, Eq)]
pub enum ClientState {
    /// Its agent was not heard of it yet.
    Pending,
    /// It runs.
    Running,
    /// It ended well.
    Complete,
    /// It ended badly.
    Failed,
    /// Its node went down.
    Lost,
    /// Its node was disconnected, and nothing was reported of it since.
    Unknown,
}

/// An allocation's row.
#[derive(Clone, Copy, Debug, PartialEq, Eq)]
pub struct Allocation {
    /// Its id, by which it is found.
    pub id: AllocId,
    /// The job that it is of.
    pub job: JobName,
    /// The group of the job.
    pub group: GroupName,
    /// Which of the group's allocations it is.
    pub index: Ordinal,
    /// Where it runs.
    pub node: NodeId,
    /// What it takes there.
    pub size: Size,
    /// What is wanted of it.
    pub desired: Desired,
    /// What is known of it.
    pub client: ClientState,
    /// Whether it is to move off its node, which is being drained.
    pub migrate: bool,
    /// The evaluation by which it was placed.
    pub eval: EvalId,
}

impl Ranged for Allocation {
    ghost use Rattle.rows.specs.Fits.{AllocationFits};

    ghost Fits = { AllocationFits };

    fn ranges(&self) {
        self.id.ranges();
        let _job = self.job.as_bytes();
        let _group = self.group.as_bytes();
        let _index = self.index.get();
        let _node = self.node.number();
        self.size.ranges();
        self.eval.ranges();
    }
}
