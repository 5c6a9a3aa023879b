ghost use Rattle.std.specs.Prelude.{◌≡◌, ◌<◌, ◌≤◌, [], ◌⊎◌, true, Some, Ok, Err, is_ok, OnOk, IfErr, IfSome, IfNone, length};
ghost use Rattle.rows.specs.declared.refusal.Refusal.TheVariants as refusals;
ghost use Rattle.group_model.specs.Queues.{queued_plan, plans_with, first_plan};
ghost use Rattle.plan_queue.specs.First.{IsFirstAt, IsFirstTaken};

use crate::queued::QueuedPlan;
use rows::{Plan, Priority, Refusal, ServerId};
use std::alloc::Global;
use std::marker::Model;

/// The plans that wait, at most 256. Contracts see the list of them in the order of arrival. (Nomad
/// documentation, "Scheduling in Nomad": plan queue.)
#[derive(Drop)]
pub struct PlanQueue {
    plans: Vec<QueuedPlan>,
}

impl Model for PlanQueue {
    ghost use Rattle.std.specs.Prelude.{List, ◌≤◌, length};
    ghost use Rattle.group_model.specs.Desks.{QueuedPlan as AnyQueuedPlan};

    ghost Value = { List AnyQueuedPlan };

    ghost view = { λ q. q.plans.items };

    ghost invariant = { λ q. length q.plans.items ≤ 256 };
}

impl PlanQueue {
    /// The most plans that wait: 256.
    pub const MOST: usize = 256;

    /// No plans. It takes no memory.
    pub fn new(alloc: Global) -> PlanQueue
        ensures { result ≡ [] }
    {
        PlanQueue {
            plans: Vec::new(alloc),
        }
    }

    /// The number of plans that wait.
    pub fn len(&self) -> usize
        ensures count { result ≡ length self.now }
        ensures limit { result ≤ 256 }
    {
        self.plans.len()
    }

    /// The plans that wait, in the order of arrival.
    pub fn plans(&self) -> &[QueuedPlan]
        ensures { result.now ≡ self.now }
    {
        self.plans.as_slice()
    }

    /// A plan joins those that wait, with its evaluation's priority and the server that is told
    /// what becomes of it. `QueueFull` where 256 wait, and `NoMemory` only where fewer do. Refused,
    /// it leaves the queue as it was, and the plan is let go.
    pub fn push(&mut self, plan: Plan, priority: Priority, from: ServerId) -> Result<(), Refusal>
        ensures ok { OnOk result
            (plans_with (queued_plan plan priority from) self.old ≡ Ok self.new) }
        ensures err { let joins = plans_with (queued_plan plan priority from) self.old in
            IfErr result (λ e. (e ≡ refusals.NoMemory) ⊎ (joins ≡ Err e)) }
        ensures memory { let joins = plans_with (queued_plan plan priority from) self.old in
            IfErr result (λ e. e ≡ refusals.NoMemory → is_ok joins ≡ true) }
        ensures left { IfErr result (λ e. self.new ≡ self.old) }
    {
        if self.plans.len() >= PlanQueue::MOST {
            return Err(Refusal::QueueFull);
        }
        self.plans.push(QueuedPlan {
            plan,
            priority,
            from,
        })?;
        Ok(())
    }

    /// Takes out the plan that goes first: the one of the highest priority, and of equals the one
    /// that came earlier; none where none waits. It takes no memory.
    pub fn pop(&mut self) -> Option<QueuedPlan>
        ensures some { IfSome result
            (λ w. first_plan self.old ≡ Some (record { one = w; others = self.new })) }
        ensures first { IfSome result (λ w. IsFirstTaken self.old w self.new) }
        ensures none { IfNone result ((self.old ≡ []) × (self.new ≡ [])) }
    {
        if self.plans.is_empty() {
            return None;
        }
        let at = first_position(&self.plans);
        Some(self.plans.remove(at))
    }
}

/// The place of the plan that goes first, from 0.
fn first_position(plans: &[QueuedPlan]) -> usize
    requires { 0 < length plans.now }
    ensures { IsFirstAt plans.now result }
{
    let mut best = 0;
    for at in 1..plans.len() {
        let (first, other) = (&plans[best], &plans[at]);
        if first.priority < other.priority {
            best = at;
        }
    }
    best
}
