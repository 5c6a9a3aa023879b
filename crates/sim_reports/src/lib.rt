//! What is reported of a group after some of a run's events, as values that become JSON.
#![tactic(auto)]

mod report;

pub use report::{
    AllocationReport, BlockedReport, ClientReport, DeliveryReport, DeskReport, EntryReport,
    EvaluationReport, GroupReport, HeartbeatReport, JobReport, NodeReport, NodesReport,
    PlacementReport, PlanReport, Report, ServerReport, StateReport,
};
