use rows::{Plan, Priority, ServerId};
use std::marker::Model;

/// A plan that waits, with its evaluation's priority and the server that is told what becomes of
/// it. (Nomad documentation, "Scheduling in Nomad": plan queue.)
#[derive(Drop)]
pub struct QueuedPlan {
    /// The plan.
    pub plan: Plan,
    /// The priority of its evaluation.
    pub priority: Priority,
    /// Whose worker submitted it.
    pub from: ServerId,
}

impl Model for QueuedPlan {
    ghost use Rattle.group_model.specs.Desks.{QueuedPlan as AnyQueuedPlan};

    ghost Value = { AnyQueuedPlan };

    ghost view = { λ w. record { plan = w.plan; priority = w.priority; from = w.from } };
}
