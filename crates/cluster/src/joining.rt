//! The world that a closed group of cells comes to.
ghost use Rattle.std.specs.Prelude.{◌≡◌, ◌≢◌, ◌≤◌, length, take, IfOk, IfSome, IfNone};
ghost use Rattle.client_agent.specs.AgentView.{AgentView};
ghost use Rattle.rows.specs.GroupSizes.{IsGroup};
ghost use Rattle.world.specs.GroupView.{nodes_of, renumbered};
ghost use Rattle.cells.specs.Groups.{AreOfGroup};
ghost use Rattle.cluster.specs.Closing.{ClosesTo, ShowsAtLast};
ghost use Rattle.cluster.specs.Inner.Joined.{agent_named, HasClient, HasClients, IsNodeOf, AreNodesOf};

use crate::closing::{JoinedCells, NamedActor, history};
use crate::replaying::replay;
use cells::{GroupActor, OwnedCells};
use event_book::BookId;
use fsm_state::Cluster;
use rows::{Actor, ClientId, NoMemory, NodeSpec};
use std::alloc::Global;
use wire::frames_are_whole;
use world::World;

/// The node of a client, if this is its agent.
fn node_in(named: &NamedActor, client: ClientId) -> Option<NodeSpec>
    ensures some { IfSome result (λ node.
        (a : AgentView) × (named.now ≡ agent_named client a) × (node ≡ a.client.node)) }
    ensures none { IfNone result ((a : AgentView) → named.now ≢ agent_named client a) }
{
    if named.me != Actor::Client(client) {
        return None;
    }
    match &named.actor {
        GroupActor::Client(agent) => Some(agent.node()),
        GroupActor::Server(_) => None,
    }
}

/// The node of a client whose agent is among these.
fn node_among(actors: &[NamedActor], client: ClientId) -> NodeSpec
    requires { HasClient actors.now client }
    ensures { IsNodeOf actors.now client result }
{
    for named in actors {
        if let Some(node) = node_in(named, client) {
            return node;
        }
    }
    unreachable!()
}

/// The nodes of the first `m` clients, whose agents are among these.
fn nodes_among(alloc: Global, m: usize, actors: &[NamedActor]) -> Result<Vec<NodeSpec>, NoMemory>
    requires few { m ≤ 64 }
    requires there { HasClients m actors.now }
    ensures { IfOk result (λ nodes. AreNodesOf m actors.now nodes.items) }
{
    let mut nodes = Vec::new(alloc);
    for place in 0..m {
        let Some(client) = ClientId::from_number(place as u8 + 1) else {
            unreachable!()
        };
        nodes.push(node_among(actors, client))?;
    }
    Ok(nodes)
}

/// Closes a book with all of its cells: the world to which what they noted leads. It asks for as
/// many cells as the book has actors, in any order, and for a book of the actors of a group of 3 or
/// 5 servers and at most 64 clients; `Cells::into_cells` gives such cells.
///
/// The world's trace is all that the cells noted, each event once and in the order of its stamp,
/// and its actors are those of the cells: each of the book's actors has one of them. The world is
/// made by playing these events again, and memory may be wanting for it.
/// - `closes`: it is that world of these cells.
/// - `nodes`: the nodes of its clients are those that the book's name has, the k-th client's the
///   k-th.
/// - `shown`: the specification has a run at whose last moment each cell's actor is seen, and the
///   world has shown just that run.
pub fn close<B: BookId>(alloc: Global, cells: OwnedCells<B>) -> Result<World, NoMemory>
    requires count { length cells.cells.items ≡ length B.actors }
    requires size { IsGroup cells.servers }
    requires few { cells.clients ≤ 64 }
    requires group { AreOfGroup cells.servers cells.clients B.actors }
    ensures closes { IfOk result (λ w. ClosesTo B.actors cells.cells.items w) }
    ensures nodes { IfOk result (λ w. nodes_of w ≡ renumbered 1 (take cells.clients B.nodes)) }
    ensures shown { IfOk result (λ w. ShowsAtLast cells.cells.items w) }
{
    // A frame that was sent is read as the message that it is.
    frames_are_whole::<Cluster>();
    let OwnedCells {
        servers,
        clients,
        book,
        cells,
    } = cells;
    let JoinedCells { events, actors } = history(alloc, book, cells)?;
    let nodes = nodes_among(alloc, clients, &actors)?;
    replay(alloc, servers, &nodes, events)
}
