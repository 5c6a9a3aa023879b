//! What is known of all processes of such clients.
ghost use Rattle.std.specs.Prelude.{◌≡◌, ◌++◌, ℕ, List, Some};
ghost use Rattle.rows.specs.declared.node.NodeSpec.{NodeSpec};
ghost use Rattle.journal.specs.Events.{IoEvent};
ghost use Rattle.process_lives.specs.Lives.{IsUnderWay, Serves};
ghost use Rattle.client_node.specs.Laws.Lives.{runs_clients};
ghost use Rattle.client_node.specs.Lives.{BeginsWith, client_of, header_text, node_code, size_of};
ghost use Rattle.client_node.specs.Records.{started_replay};
ghost use Rattle.client_node.specs.Turns.{Turn};

use crate::node::ClientNode;
use journal::{Outside, Stop, serve};
use process_lives::GroupClientProcess;
use std::alloc::Global;

/// Such processes run clients of the group: so `group_lives_keep_the_headline` speaks of them,
/// whatever they do, each begun again and again from its own journal and killed at any moment.
impl GroupClientProcess for ClientNode {
    ghost replay = { started_replay };

    ghost size = { size_of };

    ghost agent = { client_of };

    ghost turn = { Turn };

    ghost begins_with = { BeginsWith };

    ghost header = { header_text };

    ghost runs = { runs_clients };
}

/// Lets a client serve as a process. Whatever happened meanwhile is what `Lived` asks of the
/// process that began with it: the first of all that it does if it is let alone.
pub fn live<O: Outside>(alloc: Global, node: &mut ClientNode, outside: &mut O) -> Result<(), Stop>
    ensures { (size me : ℕ) (nodes : List NodeSpec) (did done : List IoEvent) →
        O.happened outside.old ≡ Some did → O.happened outside.new ≡ Some (did ++ done) →
        IsUnderWay (node_code size nodes) me (Serves node.old done) }
{
    serve(alloc, node, outside)
}
