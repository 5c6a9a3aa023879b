//! Commands that a client asks for and that would change no row.
ghost use Rattle.std.specs.Prelude.{◌≡◌};
ghost use Rattle.std.specs.List.{list_all};
ghost use Rattle.group_model.specs.ClientRequests.{is_registered, is_unmoved, is_idle};
ghost use Rattle.server.specs.Inner.Idle.{is_unmoved_at};

use fsm_state::{Cluster, after_reports};
use rows::{Command, NodeId, Report};

/// Whether the node's row is ready.
fn is_registered(state: &Cluster, node: NodeId) -> bool
    ensures { result ≡ is_registered node state.now }
{
    match state.node(node) {
        Some(row) => row.status.is_ready(),
        None => false,
    }
}

/// Whether the row of a report's allocation, if there is one, stays as it is.
fn is_unmoved_at(state: &Cluster, node: NodeId, reports: &[Report], report: &Report) -> bool
    ensures { result ≡ is_unmoved_at node reports.now state.now report.now }
{
    match state.alloc(report.id) {
        Some(row) => after_reports(row, node, reports).client == row.client,
        None => true,
    }
}

/// Whether the rows of all allocations of these reports do.
fn are_unmoved_at(state: &Cluster, node: NodeId, reports: &[Report]) -> bool
    ensures { result ≡ list_all (is_unmoved_at node reports.now state.now) reports.now }
{
    for report in reports {
        if !is_unmoved_at(state, node, reports, report) {
            return false;
        }
    }
    true
}

/// Whether reports of a node change no row. It looks at the rows of their allocations alone.
#[tactic(auto, using(crate::proofs::Unmoved::idle_by_reports))]
fn are_unmoved(state: &Cluster, node: NodeId, reports: &[Report]) -> bool
    ensures { result ≡ list_all (is_unmoved node reports.now) state.now.allocs }
{
    state.alloc_table().ranges();
    are_unmoved_at(state, node, reports)
}

/// Whether a command that a client asks for would change no row.
pub(super) fn is_idle(state: &Cluster, command: &Command) -> bool
    ensures { result ≡ is_idle state.now command.now }
{
    match command {
        Command::NodePut(spec) => is_registered(state, spec.number),
        Command::Report(node, reports) => are_unmoved(state, *node, reports.as_slice()),
        _ => false,
    }
}
