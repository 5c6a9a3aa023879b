use rows::{AllocId, Batch, Index, Place};
use std::marker::Model;

/// What a worker plans for an evaluation. With the evaluation and the token of its delivery it is a
/// plan for the leader. (Nomad documentation, "Scheduling in Nomad": allocation plan.)
#[derive(Drop)]
pub struct WorkerPlan {
    /// The allocations to stop, at most 64.
    pub stops: Batch<AllocId>,
    /// The allocations to make, at most 64.
    pub places: Batch<Place>,
    /// The job's version in the state that was planned from; 0 where the job has no row.
    pub version: Index,
    /// The index of that state.
    pub snapshot: Index,
    /// Whether each name that the job wants has an allocation as it asks, or a place.
    pub all_placed: bool,
}

impl Model for WorkerPlan {
    ghost use Rattle.group_model.specs.Scheduling.{WorkerPlan as AnyWorkerPlan};

    ghost Value = { AnyWorkerPlan };

    ghost view = { λ p. record {
      stops = p.stops;
      places = p.places;
      version = p.version;
      snapshot = p.snapshot;
      all_placed = p.all_placed;
    } };
}
