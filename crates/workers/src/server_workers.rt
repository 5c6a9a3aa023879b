//! What waits for the workers of one server.
ghost use Rattle.std.specs.Prelude.{◌≡◌, ◌≢◌, ◌++◌, ◌∷◌, [], true};
ghost use Rattle.std.specs.Prelude.{IfOk, IfSome, MatchBool, MatchOption, OnErr, OnOk};
ghost use Rattle.std.specs.Prelude.{length, option_map, slice_get};
ghost use Rattle.group_inputs.specs.Handings.{OwnInput, handing};
ghost use Rattle.group_model.specs.NextStep.{IsNextStep};
ghost use Rattle.scheduler.specs.Steps.{makes_plan, step_as};
ghost use Rattle.workers.specs.PlanCounts.{plans_under, CountsRequest, CountsStep};
ghost use Rattle.workers.specs.PlanCounts.{RequestMayEndOutOfMemory, StepMayEndOutOfMemory};
ghost use Rattle.workers.specs.Working.{asking, HandledAs, KeptFirst, waiting_after};

use crate::plan_counts::{PlanCounts, lease_of};
use crate::work_queue::WorkQueue;
use fsm_state::Cluster;
use group_inputs::ServerInput;
use rows::{Index, NoMemory, Sequence, ServerId, Work, WorkerRequest, WorkerResponse};
use scheduler::{WorkerStep, next_step};
use std::alloc::Global;
use std::marker::Model;

// What a server's workers ask of another server, or of their own, as the input of their server.
fn asking(to: ServerId, request: WorkerRequest) -> ServerInput
    ensures { handing result ≡ OwnInput (asking to request) }
{
    match request {
        WorkerRequest::Take => ServerInput::Take(to),
        WorkerRequest::Submit(plan) => ServerInput::Submit(to, plan),
        WorkerRequest::Finish(eval, token, outcome) => {
            ServerInput::Finish(to, eval, token, outcome)
        }
        WorkerRequest::Nack(eval, token) => ServerInput::Nack(to, eval, token),
    }
}

/// What a worker took up.
#[derive(Drop)]
pub struct TakenWork {
    /// What came for the workers.
    pub work: Work,
    /// How many plans were submitted under its delivery.
    pub plans: u64,
}

impl TakenWork {
    /// What a worker does next with it, at its server's state of this index: `next_step`.
    /// `NoMemory` where there is no memory for a plan, and only where the step makes one.
    pub fn next(&self, alloc: Global, state: &Cluster, index: Index) -> Result<WorkerStep, NoMemory>
        ensures step { IfOk result (λ step.
            IsNextStep state.now index self.now.work.response self.now.plans (step_as step)) }
        ensures memory { OnErr result
            (makes_plan state.now index self.now.work.response self.now.plans ≡ true) }
    {
        next_step(alloc, state, index, &self.work.response, self.plans)
    }
}

/// What becomes of what a worker took up.
#[derive(Drop)]
pub enum Handled {
    /// It waits in front again, for a later state of the server.
    Waits,
    /// It is dropped.
    Dropped,
    /// The worker asks for something: the input by which its server sends that.
    Asks(ServerInput),
}

/// What came for the workers of one server and was not taken up, the oldest first; and how many
/// plans they submitted under each delivery. Contracts see both.
#[derive(Drop)]
pub struct ServerWorkers {
    waiting: WorkQueue,
    plans: PlanCounts,
}

impl Model for ServerWorkers {
    ghost use Rattle.workers.specs.PlanCounts.{WorkersView};

    ghost Value = { WorkersView };

    ghost view = { λ w. record { waiting = w.waiting; plans = w.plans } };
}

impl ServerWorkers {
    /// Nothing waits, and no plan was submitted.
    pub fn new(alloc: Global) -> ServerWorkers
        ensures { result ≡ record { waiting = []; plans = [] } }
    {
        ServerWorkers {
            waiting: WorkQueue::new(alloc),
            plans: PlanCounts::new(alloc),
        }
    }

    /// Puts what came behind what waits. Where memory is wanting, the last of it are lost.
    /// - `err`: the first of it wait then, and what waited still does.
    /// - `plans`: no count changes.
    pub fn enqueue(&mut self, work: Sequence<Work>) -> Result<(), NoMemory>
        ensures ok { OnOk result (self.new.waiting ≡ self.old.waiting ++ work) }
        ensures err { OnErr result (KeptFirst self.old.waiting work self.new.waiting) }
        ensures plans { self.new.plans ≡ self.old.plans }
    {
        for response in work.into_vec() {
            self.waiting.put(response)?;
        }
        Ok(())
    }

    /// Forgets what waits. How many plans were submitted stays known.
    pub fn forget(&mut self)
        ensures { self.new ≡ record { waiting = []; plans = self.old.plans } }
    {
        self.waiting.clear();
    }

    /// Whether nothing waits.
    pub fn is_idle(&self) -> bool
        ensures { MatchBool result (self.now.waiting ≡ []) (self.now.waiting ≢ []) }
    {
        self.waiting.is_empty()
    }

    /// How much waits.
    pub fn len(&self) -> usize
        ensures { result ≡ length self.now.waiting }
    {
        self.waiting.len()
    }

    /// The oldest that waits, which stays; none where nothing waits.
    pub fn first(&self) -> Option<&Work>
        ensures { option_map (λ work. work.now) result ≡ slice_get self.now.waiting 0 }
    {
        self.waiting.first()
    }

    /// Takes up the oldest that waits; none where nothing waits. It comes with the number of plans
    /// that are counted under the delivery with which a worker goes on.
    pub fn take(&mut self) -> Option<TakenWork>
        ensures oldest { MatchOption result
            ((self.old.waiting ≡ []) × (self.new.waiting ≡ []))
            (λ taken. self.old.waiting ≡ taken.work ∷ self.new.waiting) }
        ensures counted { IfSome result (λ taken.
            taken.plans ≡ plans_under taken.work.response self.old.plans) }
        ensures plans { self.new.plans ≡ self.old.plans }
    {
        let work = self.waiting.take()?;
        let plans = self.plans_under(&work.response);
        Some(TakenWork { work, plans })
    }

    /// A worker goes on with what it took up. A plan that it submits is counted under its delivery.
    /// - `handled`: what needs a later state waits, and what a worker asks of a server is the input
    ///   by which that is asked of the one that sent the work.
    /// - `waiting`: what needs a later state waits in front of what waited, and nothing else
    ///   changes.
    /// - `plans`: one plan more is counted under the delivery of a plan that is submitted, and no
    ///   other count changes; without a plan none does.
    /// - `err`: what waited and the counts are left; what was taken up is lost.
    /// - `memory`: memory is wanting only for what is to wait again, or for the first plan of a
    ///   delivery.
    pub fn go_on(&mut self, taken: TakenWork, step: WorkerStep) -> Result<Handled, NoMemory>
        ensures handled { IfOk result (HandledAs taken.work.from (step_as step)) }
        ensures waiting { OnOk result
            (self.new.waiting ≡ waiting_after self.old.waiting taken.work (step_as step)) }
        ensures plans { OnOk result (CountsStep (step_as step) self.old.plans self.new.plans) }
        ensures err { OnErr result (self.new ≡ self.old) }
        ensures memory { OnErr result (StepMayEndOutOfMemory (step_as step) self.old.plans) }
    {
        let TakenWork { work, plans: _ } = taken;
        match step {
            WorkerStep::Later => {
                self.waiting.put_back(work)?;
                Ok(Handled::Waits)
            }
            WorkerStep::Drop => Ok(Handled::Dropped),
            WorkerStep::Ask(request) => {
                self.count(&request)?;
                Ok(Handled::Asks(asking(work.from, request)))
            }
        }
    }

    /// Puts what was taken up in front again. Where memory is wanting it is lost.
    /// - `plans`: no count changes.
    pub fn put_back(&mut self, taken: TakenWork) -> Result<(), NoMemory>
        ensures ok { OnOk result (self.new.waiting ≡ taken.work ∷ self.old.waiting) }
        ensures err { OnErr result (self.new.waiting ≡ self.old.waiting) }
        ensures plans { self.new.plans ≡ self.old.plans }
    {
        self.waiting.put_back(taken.work)
    }

    // How many plans are counted under the delivery with which a worker goes on.
    fn plans_under(&self, response: &WorkerResponse) -> u64
        ensures { result ≡ plans_under response.now self.now.plans }
    {
        match response {
            WorkerResponse::Delivered(Some(delivery)) => {
                self.plans
                    .count_of(&lease_of(delivery.eval, delivery.token))
            }
            WorkerResponse::PlanResult(result) => {
                self.plans.count_of(&lease_of(result.eval, result.token))
            }
            WorkerResponse::Delivered(None) | WorkerResponse::Refused(_, _) => 0,
        }
    }

    // A plan is counted under its delivery.
    fn count(&mut self, request: &WorkerRequest) -> Result<(), NoMemory>
        ensures waiting { self.new.waiting ≡ self.old.waiting }
        ensures ok { OnOk result (CountsRequest request.now self.old.plans self.new.plans) }
        ensures err { OnErr result (self.new.plans ≡ self.old.plans) }
        ensures memory { OnErr result (RequestMayEndOutOfMemory request.now self.old.plans) }
    {
        match request {
            WorkerRequest::Submit(plan) => self.plans.add(lease_of(plan.eval, plan.token)),
            WorkerRequest::Take | WorkerRequest::Finish(_, _, _) | WorkerRequest::Nack(_, _) => {
                Ok(())
            }
        }
    }
}
