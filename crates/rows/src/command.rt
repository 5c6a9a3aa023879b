ghost use Rattle.std.specs.Prelude.{◌≡◌, ◌≤◌, ◌<◌, length, IfOk, IfErr};
ghost use Rattle.rows.specs.Ids.{AreRisingIds};
ghost use Rattle.rows.specs.Changes.{status_of, snapshot_of};
ghost use Rattle.rows.specs.declared.refusal.Refusal.TheVariants as refusals;

use crate::allocation::AllocId;
use crate::batch::Batch;
use crate::evaluation::{EvalId, EvalStatus};
use crate::index::Index;
use crate::job::JobSpec;
use crate::list_rules::{Ranged, all_ranges, keep_rule};
use crate::name::{GroupName, JobName};
use crate::node::{NodeId, NodeSpec};
use crate::ordinal::Ordinal;
use crate::refusal::Refusal;
use crate::sequence::Sequence;
use crate::size::Size;
use crate::token::Token;
use std::marker::Model;

/// Ids of allocations that are to move: 1 to 64, strictly rising. Contracts see the list.
#[derive(Drop)]
pub struct RisingIds {
    items: Vec<AllocId>,
}

impl Model for RisingIds {
    ghost use Rattle.std.specs.Prelude.{List};
    ghost use Rattle.rows.specs.declared.allocation.AllocId.{AllocId};
    ghost use Rattle.rows.specs.Ids.{AreRisingIds};

    ghost Value = { List AllocId };

    ghost view = { λ r. r.items.items };

    ghost invariant = { λ r. AreRisingIds r.items.items };
}

impl RisingIds {
    /// The ids of a list. `OutOfRange` where it has not 1 to 64, or they do not strictly rise.
    pub fn check(items: Sequence<AllocId>) -> Result<RisingIds, Refusal>
        ensures ok { IfOk result (λ ids. (ids ≡ items) × AreRisingIds items) }
        ensures err { IfErr result (λ e. (e ≡ refusals.OutOfRange) × (AreRisingIds items → ⊥)) }
    {
        let items = items.into_vec();
        if !items.is_empty() && items.len() <= 64 && keep_rule(&items) {
            Ok(RisingIds { items })
        } else {
            Err(Refusal::OutOfRange)
        }
    }

    /// The ids, in their order.
    pub fn as_slice(&self) -> &[AllocId]
        ensures ids { result.now ≡ self.now }
        ensures fits { AreRisingIds result.now }
    {
        &self.items
    }
}

impl Ranged for RisingIds {
    ghost use Rattle.rows.specs.Fits.{RisingIdsFit};

    ghost Fits = { RisingIdsFit };

    fn ranges(&self) {
        all_ranges(self.as_slice());
    }
}

/// What an agent reports of an allocation.
#[derive(Clone, Copy, Debug, PartialEq, Eq)]
pub enum ReportedState {
    /// It runs.
    Running,
    /// It ended well.
    Complete,
    /// It ended badly.
    Failed,
}

/// What an agent reports of one allocation.
#[derive(Clone, Copy, Debug, PartialEq, Eq)]
pub struct Report {
    /// The allocation.
    pub id: AllocId,
    /// What is known of it.
    pub state: ReportedState,
}

impl Ranged for Report {
    ghost use Rattle.rows.specs.Fits.{ReportFits};

    ghost Fits = { ReportFits };

    fn ranges(&self) {
        self.id.ranges();
    }
}

/// What an agent reports at once: 1 to 64 items. Contracts see the list.
#[derive(Drop)]
pub struct Reports {
    items: Vec<Report>,
}

impl Model for Reports {
    ghost use Rattle.std.specs.Prelude.{List, ◌≤◌, length};
    ghost use Rattle.rows.specs.declared.command.Report.{Report};

    ghost Value = { List Report };

    ghost view = { λ r. r.items.items };

    ghost invariant = { λ r. (1 ≤ length r.items.items) × (length r.items.items ≤ 64) };
}

impl Reports {
    /// The items of a list. `OutOfRange` where there are not 1 to 64.
    pub fn check(items: Sequence<Report>) -> Result<Reports, Refusal>
        ensures ok { IfOk result (λ reports. (reports ≡ items) × (1 ≤ length items)
            × (length items ≤ 64)) }
        ensures err { IfErr result (λ e. (e ≡ refusals.OutOfRange)
            × ((1 ≤ length items) → 64 < length items)) }
    {
        let items = items.into_vec();
        if !items.is_empty() && items.len() <= 64 {
            Ok(Reports { items })
        } else {
            Err(Refusal::OutOfRange)
        }
    }

    /// The items, in their order.
    pub fn as_slice(&self) -> &[Report]
        ensures items { result.now ≡ self.now }
        ensures limit { (1 ≤ length result.now) × (length result.now ≤ 64) }
    {
        &self.items
    }
}

impl Ranged for Reports {
    ghost use Rattle.rows.specs.Fits.{ReportsFit};

    ghost Fits = { ReportsFit };

    fn ranges(&self) {
        all_ranges(self.as_slice());
    }
}

/// What becomes of an evaluation. Only a blocked one keeps the index of a state.
#[derive(Clone, Copy, Debug, PartialEq, Eq)]
pub enum StatusChange {
    /// It is to be worked on again.
    Pending,
    /// It waits for room, and was found blocked at the state of this index.
    Blocked(Index),
    /// All was placed.
    Complete,
    /// It is given up.
    Failed,
}

impl StatusChange {
    /// The status that is set.
    pub fn status(self) -> EvalStatus
        ensures { result ≡ status_of self }
    {
        match self {
            StatusChange::Pending => EvalStatus::Pending,
            StatusChange::Blocked(_) => EvalStatus::Blocked,
            StatusChange::Complete => EvalStatus::Complete,
            StatusChange::Failed => EvalStatus::Failed,
        }
    }

    /// The index that is set: 0 unless blocked.
    pub fn snapshot_index(self) -> Index
        ensures { result ≡ snapshot_of self }
    {
        match self {
            StatusChange::Blocked(snapshot) => snapshot,
            _ => Index::ZERO,
        }
    }
}

impl Ranged for StatusChange {
    ghost use Rattle.rows.specs.Fits.{StatusChangeFits};

    ghost Fits = { StatusChangeFits };

    fn ranges(&self) {
        if let StatusChange::Blocked(snapshot) = self {
            let _snapshot = snapshot.get();
        }
    }
}

/// One allocation that an accepted plan makes.
#[derive(Clone, Copy, Debug, PartialEq, Eq)]
pub struct AcceptedPlace {
    /// The group of the plan's job.
    pub group: GroupName,
    /// Which of the group's allocations it is.
    pub index: Ordinal,
    /// Where it is to run.
    pub node: NodeId,
    /// What it takes there.
    pub size: Size,
}

impl Ranged for AcceptedPlace {
    ghost use Rattle.rows.specs.Fits.{AcceptedPlaceFits};

    ghost Fits = { AcceptedPlaceFits };

    fn ranges(&self) {
        let _group = self.group.as_bytes();
        let _index = self.index.get();
        let _node = self.node.number();
        self.size.ranges();
    }
}

/// What the leader accepted of a plan: stops, and then places, for one job.
#[derive(Drop)]
pub struct AcceptedPlan {
    /// The evaluation that was worked on.
    pub eval: EvalId,
    /// The token of its delivery.
    pub token: Token,
    /// The evaluation's job.
    pub job: JobName,
    /// The index of the state that was planned from.
    pub snapshot: Index,
    /// The allocations to stop.
    pub stops: Batch<AllocId>,
    /// The allocations to make.
    pub places: Batch<AcceptedPlace>,
}

impl Ranged for AcceptedPlan {
    ghost use Rattle.rows.specs.Fits.{AcceptedPlanFits};

    ghost Fits = { AcceptedPlanFits };

    fn ranges(&self) {
        self.eval.ranges();
        self.token.ranges();
        let _job = self.job.as_bytes();
        let _snapshot = self.snapshot.get();
        self.stops.ranges();
        self.places.ranges();
    }
}

/// A command of the replicated state.
#[derive(Drop)]
pub enum Command {
    /// Changes no row: what a new leader appends. (Raft, extended version 2014, section 8.)
    Noop,
    /// Makes a job, or replaces it.
    JobPut(JobSpec),
    /// Stops a job.
    JobStop(JobName),
    /// A node registers, or comes back.
    NodePut(NodeSpec),
    /// A node was not heard of in time: what waited or ran on it is lost.
    NodeDown(NodeId),
    /// A node was not heard of in time: what waits or runs on it is unknown.
    Disconnect(NodeId),
    /// A node is to be emptied, at once where the flag is set.
    Drain(NodeId, bool),
    /// A node was emptied.
    DrainDone(NodeId),
    /// These allocations are to move off their nodes.
    Migrate(RisingIds),
    /// A job is to be evaluated.
    EvalPut(JobName),
    /// An evaluation's status is set.
    EvalStatus(EvalId, StatusChange),
    /// What was accepted of a plan is done.
    Plan(AcceptedPlan),
    /// The agent of a node reports.
    Report(NodeId, Reports),
}

impl Ranged for Command {
    ghost use Rattle.rows.specs.Fits.{CommandFits};

    ghost Fits = { CommandFits };

    fn ranges(&self) {
        match self {
            Command::Noop => {}
            Command::JobPut(job) => job.ranges(),
            Command::JobStop(name) | Command::EvalPut(name) => {
                let _name = name.as_bytes();
            }
            Command::NodePut(node) => node.ranges(),
            Command::NodeDown(node)
            | Command::Disconnect(node)
            | Command::Drain(node, _)
            | Command::DrainDone(node) => {
                let _node = node.number();
            }
            Command::Migrate(ids) => ids.ranges(),
            Command::EvalStatus(eval, change) => {
                eval.ranges();
                change.ranges();
            }
            Command::Plan(plan) => plan.ranges(),
            Command::Report(node, items) => {
                let _node = node.number();
                items.ranges();
            }
        }
    }
}
