//! What is proposed of a node that expires.
ghost use Rattle.std.specs.Prelude.{◌≡◌};
ghost use Rattle.group_model.specs.DeskTurns.{expiry_command};

use fsm_state::Cluster;
use rows::{Command, NodeId};

/// That a node is disconnected, where it is ready in the applied state; else that it is down.
pub(crate) fn expiry_command(applied: &Cluster, node: NodeId) -> Command
    ensures { result ≡ expiry_command applied.now node }
{
    match applied.node(node) {
        Some(row) if row.status.is_ready() => Command::Disconnect(node),
        _ => Command::NodeDown(node),
    }
}
