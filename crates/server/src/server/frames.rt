//! Frames that come.
ghost use Rattle.std.specs.Prelude.{◌≡◌, true, false, Some, OnOk, OnErr, IfErr};
ghost use Rattle.rows.specs.declared.actor.Actor.TheVariants as actors;
ghost use Rattle.rows.specs.declared.refusal.Refusal.TheVariants as refusals;
ghost use Rattle.wire.specs.Messages.{kind_of, may_go, is_of_log};
ghost use Rattle.wire.specs.Frames.{is_log_frame};
ghost use Rattle.raft_model.specs.Rafts.{is_up};
ghost use Rattle.raft_core.specs.Refusals.{is_server_at};
ghost use Rattle.group_model.specs.Messages.{ServiceMessage};
ghost use Rattle.group_model.specs.Inputs.{Arrives};
ghost use Rattle.raft_core.specs.StoredParts.{KeepsLog};
ghost use Rattle.raft_core.specs.RaftView.{SameNumber};
ghost use Rattle.group_model.specs.Servers.{step};
ghost use Rattle.group_frames.specs.GroupFrames.{service_between};
ghost use Rattle.group_inputs.specs.Handings.{FrameBytes};
ghost use Rattle.server.specs.SentBytes.{bytes_at};
ghost use Rattle.server.specs.Steps.{TakesTurn};
ghost use Rattle.server.specs.Refusals.{is_of_group};
ghost use Rattle.server.specs.Answers.{HandedIn};
ghost use Rattle.server.specs.Inner.Acts.{EachServer, EachDoes, OutOfMemoryTurn, request_act};
ghost use Rattle.server.specs.Inner.Sources.{source_bytes};
ghost use Rattle.server.specs.Inner.LogSteps.{IsTaken, IsRead};

use super::{Outbox, Server};
use fsm_state::Cluster;
use rows::{Actor, NoMemory, Refusal, ServerId, WorkerRequest};
use wire::{Body, Frames, LogMessage, Message, is_log_frame, read_log_message, read_message};

/// Where the bytes of a frame stand that comes.
#[derive(Clone, Copy, Debug)]
pub enum Source<'a> {
    /// Apart from what was sent.
    Apart(&'a [u8]),
    /// At this place among the frames that were sent, from 0.
    Sent(usize),
}

/// The bytes of a frame that comes; none at a place where none was sent.
fn bytes_from<'a>(source: Source<'a>, sent: &'a Frames) -> &'a [u8]
    ensures { result.now ≡ source_bytes source.entry sent.now }
{
    match source {
        Source::Apart(bytes) => bytes,
        Source::Sent(at) => match sent.get(at) {
            Some(frame) => frame.bytes(),
            None => &[],
        },
    }
}

impl Server {
    /// A frame comes: all of its bytes. It is what `step` does with an input Frame.
    ///
    /// A server that is down refuses it with `Down`. Then `Frame` names the offset of the frame's
    /// first fault, or 2 where its sender is a server outside the group, or 3 where it is for
    /// another. A refusal changes nothing and sends nothing. With `NoMemory` the server is down,
    /// with its stored part as it was and nothing sent.
    pub fn receive(&mut self, frame: &[u8], outbox: &mut Outbox) -> Result<(), Refusal>
        ensures { HandedIn self.old (FrameBytes frame.now) result self.new outbox.old outbox.new }
    {
        self.receive_from(Source::Apart(frame), outbox)
    }

    /// A frame comes that stands in the outbox, at this place from 0: what `receive` does with its
    /// bytes, which are read where they stand. Where no frame stands there, no bytes come.
    #[inline(always)]
    pub fn receive_sent(&mut self, at: usize, outbox: &mut Outbox) -> Result<(), Refusal>
        ensures { HandedIn self.old (FrameBytes (bytes_at outbox.old.frames at)) result self.new
            outbox.old outbox.new }
    {
        self.receive_from(Source::Sent(at), outbox)
    }

    /// A frame comes.
    #[inline(always)]
    fn receive_from(&mut self, source: Source<'_>, outbox: &mut Outbox) -> Result<(), Refusal>
        ensures { HandedIn self.old (FrameBytes (source_bytes source.entry outbox.old.frames)) result
            self.new outbox.old outbox.new }
    {
        if !self.raft.is_up() {
            return Err(Refusal::Down);
        }
        let sent = outbox.frames.len();
        match self.handle_frame(source, outbox) {
            Ok(()) => Ok(()),
            Err(cause) => match cause {
                Refusal::NoMemory => {
                    self.crash_in_step(sent, outbox);
                    Err(Refusal::NoMemory)
                }
                other => Err(other),
            },
        }
    }

    /// A frame comes to a server that is up.
    pub(super) fn handle_frame(
        &mut self,
        source: Source<'_>,
        outbox: &mut Outbox,
    ) -> Result<(), Refusal>
        requires { is_up self.old.raft.server.mode ≡ true }
        ensures { IsTaken self.old (FrameBytes (source_bytes source.entry outbox.old.frames)) result
            self.new outbox.old outbox.new }
    {
        let bytes = bytes_from(source, &outbox.frames);
        if is_log_frame(bytes) {
            let message = read_log_message::<Cluster>(self.alloc, bytes)?;
            return self.handle_log_message(message, outbox);
        }
        self.handle_service_frame(source, outbox)
    }

    /// A frame beside the log's comes to a server that is up. What it carries is large: so this
    /// stands apart from what the frames of the log go through.
    #[inline(never)]
    fn handle_service_frame(
        &mut self,
        source: Source<'_>,
        outbox: &mut Outbox,
    ) -> Result<(), Refusal>
        requires up { is_up self.old.raft.server.mode ≡ true }
        requires service { is_log_frame (source_bytes source outbox.old.frames) ≡ false }
        ensures { IsTaken self.old (FrameBytes (source_bytes source.entry outbox.old.frames)) result
            self.new outbox.old outbox.new }
    {
        let bytes = bytes_from(source, &outbox.frames);
        let message = read_message::<Cluster>(self.alloc, bytes)?;
        self.handle_service_message(message, outbox)
    }

    /// A message of the log comes to a server that is up.
    #[inline(always)]
    fn handle_log_message(
        &mut self,
        message: LogMessage<Cluster>,
        outbox: &mut Outbox,
    ) -> Result<(), Refusal>
        requires up { is_up self.old.raft.server.mode ≡ true }
        requires log { is_of_log (kind_of message.body) ≡ true }
        requires goes { may_go (kind_of message.body) message.from message.to ≡ true }
        ensures { IsRead self.old message result self.new outbox.old outbox.new }
    {
        self.handle_in_log(message, outbox)
    }

    /// A message beside the log's comes to a server that is up.
    fn handle_service_message(
        &mut self,
        message: Message<Cluster>,
        outbox: &mut Outbox,
    ) -> Result<(), Refusal>
        requires up { is_up self.old.raft.server.mode ≡ true }
        requires service { is_of_log (kind_of message.body) ≡ false }
        ensures { IsRead self.old message result self.new outbox.old outbox.new }
    {
        let from = message.from();
        self.check_sender(&from)?;
        self.check_receiver(&message.to())?;
        self.serve(from, message.into_body(), outbox)?;
        Ok(())
    }

    /// A message must come from a server of the group or from a client.
    fn check_sender(&self, from: &Actor) -> Result<(), Refusal>
        ensures ok { OnOk result (is_of_group self.now.raft.size from.now ≡ true) }
        ensures err { IfErr result (λ cause. (is_of_group self.now.raft.size from.now ≡ false)
            × (cause ≡ refusals.Frame 2)) }
    {
        match from {
            Actor::Server(from) => {
                if from.position() < self.raft.size() {
                    Ok(())
                } else {
                    Err(Refusal::Frame(2))
                }
            }
            Actor::Client(_) => Ok(()),
        }
    }

    /// A message must be for this server.
    fn check_receiver(&self, to: &Actor) -> Result<(), Refusal>
        ensures ok { OnOk result (to.now ≡ actors.Server self.now.raft.me) }
        ensures err { IfErr result (λ cause. (is_server_at self.now.raft.me to.now ≡ false)
            × (cause ≡ refusals.Frame 3)) }
    {
        match to {
            Actor::Server(to) => {
                if to.position() == self.raft.me().position() {
                    Ok(())
                } else {
                    Err(Refusal::Frame(3))
                }
            }
            Actor::Client(_) => Err(Refusal::Frame(3)),
        }
    }

    /// A message beside the log's comes, from a server of the group or from a client.
    fn serve(
        &mut self,
        from: Actor,
        body: Body<Cluster>,
        outbox: &mut Outbox,
    ) -> Result<(), NoMemory>
        requires up { is_up self.old.raft.server.mode ≡ true }
        requires member { is_of_group self.old.raft.size from ≡ true }
        requires service { is_of_log (kind_of body) ≡ false }
        requires goes { may_go (kind_of body) from (actors.Server self.old.raft.me) ≡ true }
        ensures same { SameNumber self.old.raft self.new.raft }
        ensures keeps { KeepsLog self.old.raft self.new.raft }
        ensures taken { OnOk result (EachServer self.old (λ s. (message : ServiceMessage) →
            service_between from (actors.Server self.old.raft.me) body ≡ Some message →
            TakesTurn (step self.old.raft.size self.old.raft.me s (Arrives message))
            self.new outbox.old outbox.new)) }
        ensures lost { OnErr result (OutOfMemoryTurn self.old self.new outbox.old outbox.new) }
    {
        match body {
            Body::Request(request) => {
                let Actor::Server(from) = from else {
                    unreachable!()
                };
                self.serve_request(from, request, outbox)
            }
            Body::Response(response) => {
                let Actor::Server(from) = from else {
                    unreachable!()
                };
                self.hand_out(from, response, outbox)
            }
            Body::Register(class, size) => {
                let Actor::Client(client) = from else {
                    unreachable!()
                };
                self.register(client, class, size, outbox)
            }
            Body::Heartbeat => {
                let Actor::Client(client) = from else {
                    unreachable!()
                };
                self.heartbeat(client, outbox)
            }
            Body::Pull => {
                let Actor::Client(client) = from else {
                    unreachable!()
                };
                self.pull(client, outbox)
            }
            Body::Report(items) => {
                let Actor::Client(client) = from else {
                    unreachable!()
                };
                self.report(client, items, outbox)
            }
            Body::List(_, _) | Body::Told(_, _) => unreachable!(),
            Body::VoteRequest(_) | Body::VoteReply(_) => unreachable!(),
            Body::Append(_) | Body::AppendReply(_) => unreachable!(),
            Body::Install(_) | Body::InstallReply(_) => unreachable!(),
        }
    }

    /// Workers ask the desk of a server that is up.
    fn serve_request(
        &mut self,
        from: ServerId,
        request: WorkerRequest,
        outbox: &mut Outbox,
    ) -> Result<(), NoMemory>
        requires { is_up self.old.raft.server.mode ≡ true }
        ensures same { SameNumber self.old.raft self.new.raft }
        ensures keeps { KeepsLog self.old.raft self.new.raft }
        ensures taken { OnOk result (EachDoes self.old (request_act self.old from request) self.new
            outbox.old outbox.new) }
        ensures lost { OnErr result (OutOfMemoryTurn self.old self.new outbox.old outbox.new) }
    {
        match request {
            WorkerRequest::Take => self.serve_take(from, outbox),
            WorkerRequest::Submit(plan) => self.serve_submit(from, plan, outbox),
            WorkerRequest::Finish(eval, token, outcome) => {
                self.serve_finish(from, eval, token, outcome, outbox)
            }
            WorkerRequest::Nack(eval, token) => self.serve_nack(from, eval, token, outbox),
        }
    }
}
