//! Messages of an agent to servers.
ghost use Rattle.std.specs.Prelude.{◌≡◌, ◌≤◌, ℕ, [], ◌∷◌, true, Some, length, map, OnOk, OnErr};
ghost use Rattle.rows.specs.declared.actor.Actor.TheVariants as actors;
ghost use Rattle.wire.specs.Messages.{kind_of, may_go};
ghost use Rattle.fsm_model.specs.ClusterMachine.{cluster_spec};
ghost use Rattle.group_model.specs.Messages.{ClientRequest, Service, ToServer};
ghost use Rattle.group_model.specs.Agents.{report_messages};
ghost use Rattle.group_frames.specs.GroupFrames.{SendsGroup, service_between};
ghost use Rattle.client_agent.specs.Inner.Asking.{request_of};

use fsm_state::Cluster;
use rows::{ClientId, NoMemory, NodeSpec, Report, Reports, Sequence, ServerId};
use wire::{Body, Frames, Message};

/// What an agent asks of a server when it is to.
#[derive(Clone, Copy)]
pub(crate) enum Asked {
    /// That its node is registered.
    Registration,
    /// That its node is heard of.
    Heartbeat,
    /// Which allocations its node is to run.
    Listing,
}

/// The body of what is asked.
fn body_of(node: &NodeSpec, what: Asked) -> Body<Cluster>
    ensures goes { (client server : ℕ)
        → may_go (kind_of result) (actors.Client client) (actors.Server server) ≡ true }
    ensures says { (client server : ℕ)
        → service_between (actors.Client client) (actors.Server server) result
        ≡ Some (ToServer client server (request_of node.now what)) }
{
    match what {
        Asked::Registration => Body::Register(node.class, node.size),
        Asked::Heartbeat => Body::Heartbeat,
        Asked::Listing => Body::Pull,
    }
}

/// A client's number, which is its node's.
pub(crate) fn client_of(node: &NodeSpec) -> ClientId
    ensures { result ≡ node.now.number }
{
    match ClientId::from_number(node.number.number()) {
        Some(me) => me,
        None => unreachable!(),
    }
}

/// A request goes to a server.
fn send(
    me: ClientId,
    server: ServerId,
    body: Body<Cluster>,
    outbox: &mut Frames,
) -> Result<(), NoMemory>
    requires { may_go (kind_of body) (actors.Client me) (actors.Server server) ≡ true }
    ensures ok { OnOk result ((request : ClientRequest)
        → service_between (actors.Client me) (actors.Server server) body
        ≡ Some (ToServer me server request)
        → SendsGroup cluster_spec outbox.old outbox.new
        (Service (ToServer me server request) ∷ [])) }
    ensures err { OnErr result (outbox.new ≡ outbox.old) }
{
    outbox.send(&Message::to_server(me, server, body))
}

/// What is asked goes to a server.
pub(crate) fn send_asked(
    node: &NodeSpec,
    what: Asked,
    server: ServerId,
    outbox: &mut Frames,
) -> Result<(), NoMemory>
    ensures ok { OnOk result (SendsGroup cluster_spec outbox.old outbox.new
        (Service (ToServer node.now.number server (request_of node.now what)) ∷ [])) }
    ensures err { OnErr result (outbox.new ≡ outbox.old) }
{
    let body = body_of(node, what);
    send(client_of(node), server, body, outbox)
}

/// Reports go to a server, if there are any: at most 64.
pub(crate) fn send_reports(
    node: &NodeSpec,
    server: ServerId,
    items: Sequence<Report>,
    outbox: &mut Frames,
) -> Result<(), NoMemory>
    requires { length items ≤ 64 }
    ensures ok { OnOk result (SendsGroup cluster_spec outbox.old outbox.new
        (map Service (report_messages node.now.number server items))) }
    ensures err { OnErr result (outbox.new ≡ outbox.old) }
{
    let Ok(reports) = Reports::check(items) else {
        return Ok(());
    };
    let body: Body<Cluster> = Body::Report(reports);
    send(client_of(node), server, body, outbox)
}
