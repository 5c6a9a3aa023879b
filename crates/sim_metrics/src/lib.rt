//! Why the allocations of a job are placed or not: of each of its groups what a worker's plan places,
//! and of each node whether it has room for one more, and the first reason where it has none.
#![tactic(auto)]

mod counting;
mod metrics;
mod missing;
mod verdict;

pub use counting::{NodeCounts, counts};
pub use metrics::{GroupMetrics, eval_metrics};
pub use verdict::Verdict;
