//! Clients that ask.
ghost use Rattle.std.specs.Prelude.{◌≡◌, true, OnOk, OnErr, IfOk};
ghost use Rattle.raft_model.specs.Rafts.{Raft as AnyRaft, is_up, is_leader};
ghost use Rattle.raft_core.specs.Steps.{RefinesRaft};
ghost use Rattle.rows.specs.declared.command.Command.{Command};
ghost use Rattle.fsm_model.specs.ClusterMachine.{cluster_spec};
ghost use Rattle.raft_core.specs.StoredParts.{KeepsLog};
ghost use Rattle.raft_core.specs.RaftView.{SameNumber, SameRaft};
ghost use Rattle.group_model.specs.Desks.{projected_state};
ghost use Rattle.group_model.specs.Messages.{Register, Heartbeat, Pull, ReportStates};
ghost use Rattle.group_model.specs.ClientRequests.{is_taken_already};
ghost use Rattle.server.specs.Inner.Acts.{EachDoes, OutOfMemoryTurn, client_act, write_act};

use super::idle::is_idle;
use super::listing::listed;
use super::replies::{send_listing, send_told};
use super::{Outbox, Server};
use fsm_state::Cluster;
use machine::Machine;
use raft_core::Raft;
use rows::{
    ClassName, ClientId, ClientRequestKind, Command, Leader, NoMemory, NodeId, NodeSpec, Refusal,
    Reports, Size,
};

/// The node on which a client's agent runs.
fn node_of(client: ClientId) -> NodeId
    ensures { result ≡ client }
{
    match NodeId::from_number(client.number()) {
        Some(node) => node,
        None => unreachable!(),
    }
}

/// Whether the state after a leader's whole log admits the command, and it would change no row.
fn is_taken_already(raft: &mut Raft<Cluster>, command: &Command) -> Result<bool, NoMemory>
    requires { is_leader raft.old.server.mode ≡ true }
    ensures value { IfOk result (λ b. (s : AnyRaft Command) →
        RefinesRaft cluster_spec raft.old s →
        b ≡ is_taken_already (projected_state s) command.now) }
    ensures same { SameRaft raft.old raft.new }
{
    match raft.projected() {
        Ok(whole) => {
            // What would change a row is weighed once, by the log to which it is proposed.
            if !is_idle(whole, command) {
                return Ok(false);
            }
            Ok(whole.admits(command)?.is_none())
        }
        Err(_) => Err(NoMemory),
    }
}

impl Server {
    /// A command that a client's request asks for is proposed, unless it would change no row; the
    /// client is told.
    fn write(
        &mut self,
        client: ClientId,
        kind: ClientRequestKind,
        command: Command,
        outbox: &mut Outbox,
    ) -> Result<(), NoMemory>
        requires { is_up self.old.raft.server.mode ≡ true }
        ensures same { SameNumber self.old.raft self.new.raft }
        ensures keeps { KeepsLog self.old.raft self.new.raft }
        ensures taken { OnOk result (EachDoes self.old (write_act self.old client kind command)
            self.new outbox.old outbox.new) }
        ensures lost { OnErr result (OutOfMemoryTurn self.old self.new outbox.old outbox.new) }
    {
        let me = self.raft.me();
        if !self.leads() {
            let refusal = Refusal::NotLeader(Leader::new(self.raft.known_leader()));
            return send_told(&mut outbox.frames, me, client, kind, Some(refusal));
        }
        if is_taken_already(&mut self.raft, &command)? {
            return send_told(&mut outbox.frames, me, client, kind, None);
        }
        let before = outbox.frames.len();
        send_told(&mut outbox.frames, me, client, kind, None)?;
        match self.propose(command) {
            Ok(()) => Ok(()),
            Err(cause) => match cause {
                Refusal::NoMemory => Err(NoMemory),
                refusal => {
                    outbox.frames.truncate(before);
                    send_told(&mut outbox.frames, me, client, kind, Some(refusal))
                }
            },
        }
    }

    /// Register: the client's node is proposed, unless the same ready row stands; the client is
    /// told.
    pub(super) fn register(
        &mut self,
        client: ClientId,
        class: ClassName,
        size: Size,
        outbox: &mut Outbox,
    ) -> Result<(), NoMemory>
        requires { is_up self.old.raft.server.mode ≡ true }
        ensures same { SameNumber self.old.raft self.new.raft }
        ensures keeps { KeepsLog self.old.raft self.new.raft }
        ensures taken { OnOk result (
            EachDoes self.old (client_act self.old client (Register class size))
            self.new outbox.old outbox.new) }
        ensures lost { OnErr result (OutOfMemoryTurn self.old self.new outbox.old outbox.new) }
    {
        let kind = ClientRequestKind::Register;
        let spec = NodeSpec {
            number: node_of(client),
            class,
            size,
        };
        self.write(client, kind, Command::NodePut(spec), outbox)
    }

    /// Report: what became of allocations on the client's node is proposed, unless the rows say so
    /// already; the client is told.
    pub(super) fn report(
        &mut self,
        client: ClientId,
        items: Reports,
        outbox: &mut Outbox,
    ) -> Result<(), NoMemory>
        requires { is_up self.old.raft.server.mode ≡ true }
        ensures same { SameNumber self.old.raft self.new.raft }
        ensures keeps { KeepsLog self.old.raft self.new.raft }
        ensures taken { OnOk result (
            EachDoes self.old (client_act self.old client (ReportStates items))
            self.new outbox.old outbox.new) }
        ensures lost { OnErr result (OutOfMemoryTurn self.old self.new outbox.old outbox.new) }
    {
        let kind = ClientRequestKind::Report;
        self.write(
            client,
            kind,
            Command::Report(node_of(client), items),
            outbox,
        )
    }

    /// Heartbeat: the client's node was heard of once more at an open desk; the client is told.
    pub(super) fn heartbeat(
        &mut self,
        client: ClientId,
        outbox: &mut Outbox,
    ) -> Result<(), NoMemory>
        requires { is_up self.old.raft.server.mode ≡ true }
        ensures same { SameNumber self.old.raft self.new.raft }
        ensures keeps { KeepsLog self.old.raft self.new.raft }
        ensures taken { OnOk result (EachDoes self.old (client_act self.old client Heartbeat)
            self.new outbox.old outbox.new) }
        ensures lost { OnErr result (OutOfMemoryTurn self.old self.new outbox.old outbox.new) }
    {
        let me = self.raft.me();
        let kind = ClientRequestKind::Heartbeat;
        if let Err(refusal) = self.open_desk() {
            return send_told(&mut outbox.frames, me, client, kind, Some(refusal));
        }
        match self.desk.desk.beat(node_of(client)) {
            Ok(()) => send_told(&mut outbox.frames, me, client, kind, None),
            Err(error) => {
                let refusal = Refusal::from(error);
                send_told(&mut outbox.frames, me, client, kind, Some(refusal))
            }
        }
    }

    /// Pull: the live allocations of the client's node, in the state that is applied, are sent.
    pub(super) fn pull(&self, client: ClientId, outbox: &mut Outbox) -> Result<(), NoMemory>
        requires { is_up self.now.raft.server.mode ≡ true }
        ensures taken { OnOk result (EachDoes self.now (client_act self.now client Pull)
            self.now outbox.old outbox.new) }
        ensures lost { OnErr result (outbox.new ≡ outbox.old) }
    {
        let (Some(state), Some(applied)) = (self.raft.machine(), self.raft.applied()) else {
            unreachable!()
        };
        let rows = listed(self.alloc, state, node_of(client))?;
        send_listing(&mut outbox.frames, self.raft.me(), client, applied, rows)
    }
}
