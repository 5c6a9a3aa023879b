//! What is known of all processes of such servers.
ghost use Rattle.std.specs.Prelude.{◌≡◌, ◌++◌, ℕ, List, Some};
ghost use Rattle.fsm_model.specs.ClusterMachine.{cluster_spec};
ghost use Rattle.journal.specs.Events.{IoEvent};
ghost use Rattle.process_lives.specs.Lives.{IsUnderWay, Serves};
ghost use Rattle.raft_records.specs.Records.{raft_replay};
ghost use Rattle.server_node.specs.Laws.Lives.{runs_servers};
ghost use Rattle.server_node.specs.Lives.{BeginsWith, Stands, header_text, log_of, node_code};
ghost use Rattle.server_node.specs.Turns.{Turn};

use crate::node::ServerNode;
use journal::{Outside, Stop, serve};
use process_lives::GroupServerProcess;
use std::alloc::Global;

/// Such processes run servers of the group: so `group_lives_keep_the_headline` speaks of them,
/// whatever they do, each begun again and again from its own journal and killed at any moment.
impl GroupServerProcess for ServerNode {
    ghost replay = { raft_replay cluster_spec };

    ghost raft = { log_of };

    ghost shows = { Stands };

    ghost turn = { Turn };

    ghost begins_with = { BeginsWith };

    ghost header = { header_text };

    ghost runs = { runs_servers };
}

/// Lets a server serve as a process. Whatever happened meanwhile is what `Lived` asks of the
/// process that began with it: the first of all that it does if it is let alone.
pub fn live<O: Outside>(alloc: Global, node: &mut ServerNode, outside: &mut O) -> Result<(), Stop>
    ensures { (size me : ℕ) (did done : List IoEvent) → O.happened outside.old ≡ Some did →
        O.happened outside.new ≡ Some (did ++ done) →
        IsUnderWay (node_code size) me (Serves node.old done) }
{
    serve(alloc, node, outside)
}
