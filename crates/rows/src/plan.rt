ghost use Rattle.std.specs.Prelude.{◌≡◌, IfOk};

use crate::allocation::AllocId;
use crate::batch::Batch;
use crate::evaluation::EvalId;
use crate::index::Index;
use crate::list_rules::Ranged;
use crate::name::{GroupName, JobName};
use crate::node::NodeId;
use crate::ordinal::Ordinal;
use crate::refusal::NoMemory;
use crate::token::Token;
use std::alloc::Global;

/// One allocation that a plan is to make: which of a group's, and where.
#[derive(Clone, Copy, Debug, PartialEq, Eq)]
pub struct Place {
    /// The group of the plan's job.
    pub group: GroupName,
    /// Which of the group's allocations it is to be.
    pub index: Ordinal,
    /// Where it is to run.
    pub node: NodeId,
}

impl Ranged for Place {
    ghost use Rattle.rows.specs.Fits.{PlaceFits};

    ghost Fits = { PlaceFits };

    fn ranges(&self) {
        let _group = self.group.as_bytes();
        let _index = self.index.get();
        let _node = self.node.number();
    }
}

/// What a scheduling worker submits for an evaluation: stops and places for its job. (Nomad
/// documentation, "Scheduling in Nomad": allocation plan.)
#[derive(Drop)]
pub struct Plan {
    /// The evaluation that was worked on.
    pub eval: EvalId,
    /// The token of its delivery.
    pub token: Token,
    /// The evaluation's job.
    pub job: JobName,
    /// The job's version in the state that was planned from.
    pub version: Index,
    /// The index of that state.
    pub snapshot: Index,
    /// The allocations to stop.
    pub stops: Batch<AllocId>,
    /// The allocations to make.
    pub places: Batch<Place>,
}

impl Plan {
    /// The same plan once more.
    pub fn try_clone(&self, alloc: Global) -> Result<Plan, NoMemory>
        ensures { IfOk result (λ plan. plan ≡ self.now) }
    {
        Ok(Plan {
            eval: self.eval,
            token: self.token,
            job: self.job,
            version: self.version,
            snapshot: self.snapshot,
            stops: self.stops.try_clone(alloc)?,
            places: self.places.try_clone(alloc)?,
        })
    }
}

impl Ranged for Plan {
    ghost use Rattle.rows.specs.Fits.{PlanFits};

    ghost Fits = { PlanFits };

    fn ranges(&self) {
        self.eval.ranges();
        self.token.ranges();
        let _job = self.job.as_bytes();
        let _version = self.version.get();
        let _snapshot = self.snapshot.get();
        self.stops.ranges();
        self.places.ranges();
    }
}
