//! Frames and messages that come.

ghost use Rattle.std.specs.Prelude.{◌≡◌, ◌≢◌, ◌<◌, true, None, OnOk, OnErr, IfOk, IfErr, IfSome, Some};
ghost use Rattle.rows.specs.declared.actor.Actor.TheVariants as actors;
ghost use Rattle.raft_model.specs.Rafts.{Raft as AnyRaft, is_up, is_leader, term_observed};
ghost use Rattle.raft_model.specs.Steps.{receives};
ghost use Rattle.wire.specs.Messages.{log_body};
ghost use Rattle.raft_core.specs.Frames.{log_message};
ghost use Rattle.raft_core.specs.Steps.{RefinesRaft, TakesMessage};
ghost use Rattle.raft_core.specs.StoredParts.{KeepsLog};
ghost use Rattle.raft_core.specs.Inner.Turns.{TurnTaken, OutOfMemoryTurn};
ghost use Rattle.raft_core.specs.Inner.Moves.{MovesMessage, MovesFrame, WasRead, base_left};
ghost use Rattle.raft_core.specs.Inner.Stops.{FrameStops, MessageStops};
ghost use Rattle.raft_core.specs.Refusals.{frame_refusal, misdirected, message_fault, message_refusal, IsMessageRefused, MessageRefusalLeaves, MessageStays, RefusalShows};
ghost use Rattle.raft_core.specs.RaftView.{SameNumber, KeepsProjected};
ghost use Rattle.raft_snapshot.specs.Watching.{SeesStep, ShowsStep};

use super::Raft;
use machine::Machine;
use raft_snapshot::Watch;
use rows::{NoMemory, Refusal, ServerId};
use wire::{
    AppendReply, Frames, LogBody, LogMessage, is_log_frame, read_log_message, read_message,
};

impl<M: Machine> Raft<M> {
    /// What another server of the group says is taken.
    #[inline(always)]
    fn handle_body<W: Watch<M>>(
        &mut self,
        from: ServerId,
        body: LogBody<M>,
        outbox: &mut Frames,
        watch: &mut W,
    ) -> Result<(), NoMemory>
        requires up { is_up self.old.server.mode ≡ true }
        requires member { from < self.old.size }
        requires other { from ≢ self.old.me }
        ensures taken { OnOk result (IfSome (log_message M.spec from self.old.me (log_body body)) (λ x.
            TurnTaken M.spec (base_left self.old (log_body body)) self.old self.new
            outbox.old outbox.new (receives M.spec.noop self.old.size self.old.me (term_observed x.term self.old.server)
            from x.term x.body))) }
        ensures kept { OnOk result (KeepsProjected self.old self.new) }
        ensures led { OnOk result (is_leader self.new.server.mode ≡ true →
            self.new.base ≡ self.old.base) }
        ensures seen { OnOk result (ShowsStep M.spec W.sees self.old.base self.old.server
            self.new.server watch.old watch.new) }
        ensures lost { OnErr result (OutOfMemoryTurn self.old self.new outbox.old outbox.new) }
    {
        match body {
            LogBody::VoteRequest(request) => self.handle_vote_request(from, &request, outbox),
            LogBody::VoteReply(reply) => self.handle_vote_reply(from, &reply),
            LogBody::Append(append) => self.handle_append(from, append, outbox),
            LogBody::AppendReply(reply) => self.handle_append_reply(from, &reply, watch),
            LogBody::Install(install) => self.handle_install(from, install, outbox),
            LogBody::InstallReply(reply) => {
                // It counts as an ok.
                let reply = AppendReply {
                    term: reply.term,
                    asked: reply.asked,
                    ok: true,
                    at: reply.at,
                };
                self.handle_append_reply(from, &reply, watch)
            }
        }
    }

    /// The sender of a message, if that is another server of the group and the message is for this
    /// one; else the refusal names the address at fault.
    fn sender(&self, message: &LogMessage<M>) -> Result<ServerId, Refusal>
        ensures ok { IfOk result (λ from. (message.now.from ≡ actors.Server from)
            × (message.now.to ≡ actors.Server self.now.me) × (from < self.now.size)) }
        ensures admitted { OnOk result
            (misdirected self.now.size self.now.me message.now.from message.now.to ≡ None) }
        ensures refused { IfErr result (λ cause.
            misdirected self.now.size self.now.me message.now.from message.now.to ≡ Some cause) }
    {
        let from = message.from();
        if from.position() >= self.size {
            return Err(Refusal::Frame(2));
        }
        if message.to().position() != self.me.position() {
            return Err(Refusal::Frame(3));
        }
        Ok(from)
    }

    /// A message comes to a server that is up.
    #[inline(always)]
    fn handle_message<W: Watch<M>>(
        &mut self,
        message: LogMessage<M>,
        outbox: &mut Frames,
        watch: &mut W,
    ) -> Result<(), Refusal>
        requires { is_up self.old.server.mode ≡ true }
        ensures same { SameNumber self.old self.new }
        ensures taken { OnOk result
            (MovesMessage M.spec self.old message self.new outbox.old outbox.new) }
        ensures admitted { OnOk result
            (message_fault self.old.size self.old.me message ≡ None) }
        ensures kept { OnOk result (KeepsProjected self.old self.new) }
        ensures stopped { IfErr result (λ cause.
            MessageStops self.old message cause self.new outbox.old outbox.new) }
        ensures led { OnOk result (is_leader self.new.server.mode ≡ true →
            self.new.base ≡ self.old.base) }
        ensures seen { OnOk result (ShowsStep M.spec W.sees self.old.base self.old.server
            self.new.server watch.old watch.new) }
        ensures unseen { IfErr result (λ cause. RefusalShows cause watch.old watch.new) }
    {
        let from = self.sender(&message)?;
        self.handle_body(from, message.into_body(), outbox, watch)?;
        Ok(())
    }

    /// One watched step with a message that was read: what a step with its frame is, and the frame
    /// is not read again.
    ///
    /// One that is down refuses it with `Down`. Then `Frame` names offset 2 where its sender is not
    /// of the group, or 3 where it is for another server. A refusal changes nothing, sends nothing
    /// and shows nothing. With `NoMemory` the server is down, with its stored part as it was and
    /// nothing sent, and the watcher is fit only to be dropped.
    #[inline(always)]
    pub fn receive_message<W: Watch<M>>(
        &mut self,
        message: LogMessage<M>,
        outbox: &mut Frames,
        watch: &mut W,
    ) -> Result<(), Refusal>
        ensures same { SameNumber self.old self.new }
        ensures taken { OnOk result ((s : AnyRaft M.Command) → RefinesRaft M.spec self.old s →
            TakesMessage M.spec self.old s message self.new outbox.old outbox.new) }
        ensures admitted { OnOk result ((s : AnyRaft M.Command) → RefinesRaft M.spec self.old s →
            message_refusal self.old.size self.old.me s message ≡ None) }
        ensures kept { OnOk result (KeepsProjected self.old self.new) }
        ensures keeps { OnOk result (self.new.base.index ≡ self.old.base.index →
            KeepsLog self.old self.new) }
        ensures refused { IfErr result (λ cause. (s : AnyRaft M.Command) →
            RefinesRaft M.spec self.old s →
            IsMessageRefused self.old.size self.old.me s message cause) }
        ensures left { IfErr result (λ cause. (s : AnyRaft M.Command) →
            RefinesRaft M.spec self.old s →
            MessageRefusalLeaves M.spec self.old s cause self.new) }
        ensures stays { IfErr result (λ cause. MessageStays cause self.old self.new) }
        ensures unsent { OnErr result (outbox.new ≡ outbox.old) }
        ensures seen { OnOk result ((s next : AnyRaft M.Command) →
            RefinesRaft M.spec self.old s → RefinesRaft M.spec self.new next →
            SeesStep M.spec W.sees s next watch.old watch.new) }
        ensures unseen { IfErr result (λ cause. RefusalShows cause watch.old watch.new) }
    {
        if !self.is_up() {
            return Err(Refusal::Down);
        }
        let before = outbox.len();
        self.covered_is_committed();
        self.committed();
        match self.handle_message(message, outbox, watch) {
            Ok(()) => {
                self.covered_is_committed();
                Ok(())
            }
            Err(cause) => match cause {
                Refusal::NoMemory => {
                    outbox.truncate(before);
                    self.go_down();
                    Err(Refusal::NoMemory)
                }
                other => Err(other),
            },
        }
    }

    /// A frame comes to a server that is up.
    #[tactic(auto, using(crate::proofs::Telling::was_read))]
    pub(super) fn handle_frame<W: Watch<M>>(
        &mut self,
        bytes: &[u8],
        outbox: &mut Frames,
        watch: &mut W,
    ) -> Result<(), Refusal>
        requires { is_up self.old.server.mode ≡ true }
        ensures same { SameNumber self.old self.new }
        ensures taken { OnOk result
            (MovesFrame M.spec self.old bytes.now self.new outbox.old outbox.new) }
        ensures admitted { OnOk result (frame_refusal M.spec self.old.size self.old.me bytes.now
            ≡ None) }
        ensures read { OnOk result (WasRead M.spec bytes.now) }
        ensures kept { OnOk result (KeepsProjected self.old self.new) }
        ensures stopped { IfErr result (λ cause.
            FrameStops M.spec self.old bytes.now cause self.new outbox.old outbox.new) }
        ensures led { OnOk result (is_leader self.new.server.mode ≡ true →
            self.new.base ≡ self.old.base) }
        ensures seen { OnOk result (ShowsStep M.spec W.sees self.old.base self.old.server
            self.new.server watch.old watch.new) }
        ensures unseen { IfErr result (λ cause. RefusalShows cause watch.old watch.new) }
    {
        if !is_log_frame(bytes) {
            let _message = read_message::<M>(self.alloc, bytes)?;
            // A frame, but of a kind that the log knows nothing of.
            return Err(Refusal::Frame(1));
        }
        let message = read_log_message::<M>(self.alloc, bytes)?;
        self.handle_message(message, outbox, watch)
    }
}
