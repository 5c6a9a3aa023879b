//! What comes to the server's part of the log, and the desk that follows it.
ghost use Rattle.std.specs.Prelude.{◌≡◌, ◌≢◌, None, OnOk, OnErr, IfErr};
ghost use Rattle.raft_core.specs.RaftView.{SameNumber};
ghost use Rattle.rows.specs.declared.command.Command.{Command};
ghost use Rattle.raft_model.specs.Messages.{Message as MessageOf};
ghost use Rattle.raft_model.specs.Rafts.{is_leader};
ghost use Rattle.raft_core.specs.Frames.{Means};
ghost use Rattle.raft_core.specs.Inputs.{handed};
ghost use Rattle.raft_core.specs.StoredParts.{KeepsLog, MayKeepLog};
ghost use Rattle.raft_core.specs.Refusals.{message_refusal, HidesNothing, IsRefused, IsMessageRefused, Stays, MessageStays};
ghost use Rattle.fsm_model.specs.ClusterMachine.{cluster_spec};
ghost use Rattle.server.specs.Inner.Acts.{EachServer};
ghost use Rattle.server.specs.Inner.LogSteps.{where_leads, DeskAfterRefusal, TakesLogMessage, TakesAsk, log_ask};

use super::{Outbox, Server};
use crate::server_desk::ServerDesk;
use fsm_state::Cluster;
use raft_core::{Input, Raft};
use rows::Refusal;
use wire::LogMessage;

/// The desk is closed where the server does not lead.
fn close_unless_leading(raft: &Raft<Cluster>, desk: &mut ServerDesk)
    ensures { desk.new ≡ where_leads (is_leader raft.now.server.mode) desk.old }
{
    if raft.leader_term().is_none() {
        desk.clear();
    }
}

impl Server {
    /// A message of the log is handed to it, and the desk follows.
    #[inline(always)]
    pub(super) fn handle_in_log(
        &mut self,
        message: LogMessage<Cluster>,
        outbox: &mut Outbox,
    ) -> Result<(), Refusal>
        ensures same { SameNumber self.old.raft self.new.raft }
        ensures keeps { OnOk result (self.new.raft.base.index ≡ self.old.raft.base.index →
            KeepsLog self.old.raft self.new.raft) }
        ensures taken { OnOk result ((said : MessageOf Command) →
            Means cluster_spec message said →
            TakesLogMessage self.old said self.new outbox.old outbox.new) }
        ensures admitted { OnOk result (EachServer self.old (λ s.
            message_refusal self.old.raft.size self.old.raft.me s.raft message ≡ None)) }
        ensures refused { IfErr result (λ cause. EachServer self.old (λ s.
            IsMessageRefused self.old.raft.size self.old.raft.me s.raft message cause)) }
        ensures stays { IfErr result (λ cause. MessageStays cause self.old.raft self.new.raft) }
        ensures desk { IfErr result (λ cause. DeskAfterRefusal cause self.old.desk self.new.desk) }
        ensures unsent { OnErr result (outbox.new ≡ outbox.old) }
    {
        let taken = self
            .raft
            .receive_message(message, &mut outbox.frames, &mut self.desk);
        close_unless_leading(&self.raft, &mut self.desk);
        taken
    }

    /// An input of the log's own: a timeout, a beat, a Compact, a crash or a restart.
    pub(super) fn step_log(&mut self, input: Input<'_>, outbox: &mut Outbox) -> Result<(), Refusal>
        requires { log_ask input ≢ None }
        ensures same { SameNumber self.old.raft self.new.raft }
        ensures keeps { OnOk result (MayKeepLog (handed input.entry) self.old.raft self.new.raft) }
        ensures taken { OnOk result (TakesAsk self.old (log_ask input.entry) self.new outbox.old
            outbox.new) }
        ensures refused { IfErr result (λ cause. EachServer self.old (λ s.
            IsRefused cluster_spec self.old.raft.size self.old.raft.me s.raft
            (handed input.entry) cause)) }
        ensures unhidden { IfErr result (λ cause. EachServer self.old (λ s.
            HidesNothing cluster_spec self.old.raft.size self.old.raft.me s.raft
            (handed input.entry) cause)) }
        ensures stays { IfErr result (λ cause.
            Stays (handed input.entry) cause self.old.raft self.new.raft) }
        ensures desk { IfErr result (λ cause. DeskAfterRefusal cause self.old.desk self.new.desk) }
        ensures unsent { OnErr result (outbox.new ≡ outbox.old) }
    {
        let stepped = self
            .raft
            .step_watched(input, &mut outbox.frames, &mut self.desk);
        close_unless_leading(&self.raft, &mut self.desk);
        stepped
    }
}
