//! What scheduling workers plan for an evaluation, and what they do next with what their server was
//! answered.
#![tactic(auto)]

mod growing;
mod laws;
mod load;
mod missing;
mod planning;
mod stepping;
mod wanted;
mod worker_plan;
mod worker_step;

pub use laws::plans_are_determined;
pub use planning::plan;
pub use stepping::next_step;
pub use worker_plan::WorkerPlan;
pub use worker_step::WorkerStep;
