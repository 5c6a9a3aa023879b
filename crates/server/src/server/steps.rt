//! One step of a server.
ghost use Rattle.std.specs.Prelude.{◌≡◌, true, false, None, take, OnOk, OnErr, IfErr};
ghost use Rattle.raft_model.specs.Rafts.{is_up};
ghost use Rattle.raft_core.specs.RaftView.{SameNumber, IsCrashOf};
ghost use Rattle.group_inputs.specs.Handings.{handing};
ghost use Rattle.server.specs.Keeping.{MayKeepHanding, StandsLast};
ghost use Rattle.server.specs.Steps.{TakesHanding};
ghost use Rattle.server.specs.Refusals.{handing_refusal, IsHandingRefused};
ghost use Rattle.server.specs.Answers.{HandedIn};
ghost use Rattle.server.specs.Inner.Acts.{EachServer};
ghost use Rattle.server.specs.Inner.LogSteps.{IsTaken};

use super::frames::Source;
use super::{Outbox, Server};
use group_inputs::ServerInput;
use raft_core::Input;
use rows::{Refusal, WorkerRequest};

impl Server {
    /// One step: the server takes an input. The frames of the messages that it sends, and what came
    /// for its workers, are put behind what the outbox has.
    ///
    /// One that is down refuses every input but Restart with `Down`. A frame is refused as
    /// `receive` says. Then an input that names a server outside the group is refused with
    /// `OutOfRange`, and a Restart of one that is up; a Timeout with `Exhausted` where the term or
    /// the last index is 2^40 - 1. A request needs a leader, and a turn of the desk an open desk:
    /// `NotLeader` with the leader that it knows, then `NotOpen`. A Lapse is refused with
    /// `NotOutstanding`; an Expire with `UnknownNode` where the desk counts no heartbeats of the
    /// node, and with `StaleExpiry` where it was heard of another number of times; a DrainTurn, by
    /// the state after the whole log, with `UnknownNode` where there is no such node, and with
    /// `NotDraining` where it is not drained. What is proposed may be refused as `Raft::propose`
    /// refuses it. A refusal changes nothing and sends nothing. With `NoMemory` the server is down,
    /// with its stored part as it was and nothing sent; a Restart changes nothing then.
    pub fn step(&mut self, input: ServerInput, outbox: &mut Outbox) -> Result<(), Refusal>
        ensures { HandedIn self.old (handing input) result self.new outbox.old outbox.new }
    {
        if !self.raft.is_up() {
            return self.restart_only(input, outbox);
        }
        let sent = outbox.frames.len();
        match self.handle_input(input, outbox) {
            Ok(()) => Ok(()),
            Err(cause) => match cause {
                Refusal::NoMemory => {
                    self.crash_in_step(sent, outbox);
                    Err(Refusal::NoMemory)
                }
                other => Err(other),
            },
        }
    }

    /// One that is down takes a restart alone.
    fn restart_only(&mut self, input: ServerInput, outbox: &mut Outbox) -> Result<(), Refusal>
        requires { is_up self.old.raft.server.mode ≡ false }
        ensures same { SameNumber self.old.raft self.new.raft }
        ensures keeps { OnOk result (MayKeepHanding (handing input) self.old.raft self.new.raft) }
        ensures stands { OnOk result (StandsLast (handing input) self.new) }
        ensures taken { OnOk result (EachServer self.old (λ s.
            TakesHanding self.old s (handing input) self.new outbox.old outbox.new)) }
        ensures admitted { OnOk result (EachServer self.old (λ s.
            handing_refusal self.old.raft.size self.old.raft.me s (handing input) ≡ None)) }
        ensures refused { IfErr result (λ cause. EachServer self.old (λ s.
            IsHandingRefused self.old.raft.size self.old.raft.me s (handing input) cause)) }
        ensures left { OnErr result (self.new ≡ self.old) }
        ensures unsent { OnErr result (outbox.new ≡ outbox.old) }
    {
        let _ = &self.desk;
        match input {
            ServerInput::Restart => self.step_log(Input::Restart, outbox),
            _ => Err(Refusal::Down),
        }
    }

    /// One that is up takes an input. Want of memory may leave it in the middle of the step.
    fn handle_input(&mut self, input: ServerInput, outbox: &mut Outbox) -> Result<(), Refusal>
        requires { is_up self.old.raft.server.mode ≡ true }
        ensures { IsTaken self.old (handing input) result self.new outbox.old outbox.new }
    {
        match input {
            ServerInput::Frame(bytes) => self.handle_frame(Source::Apart(bytes.as_slice()), outbox),
            ServerInput::Timeout => self.step_log(Input::Timeout, outbox),
            ServerInput::Beat => self.step_log(Input::Beat, outbox),
            ServerInput::Request(request) => self.propose(request.into_command()),
            ServerInput::Take(to) => self.ask(to, WorkerRequest::Take, outbox),
            ServerInput::Submit(to, plan) => self.ask(to, WorkerRequest::Submit(plan), outbox),
            ServerInput::Finish(to, eval, token, outcome) => {
                self.ask(to, WorkerRequest::Finish(eval, token, outcome), outbox)
            }
            ServerInput::Nack(to, eval, token) => {
                self.ask(to, WorkerRequest::Nack(eval, token), outbox)
            }
            ServerInput::PlanTurn => self.plan_turn(outbox),
            ServerInput::Lapse(eval) => self.lapse(eval),
            ServerInput::Expire(node, beats) => self.expire(node, beats),
            ServerInput::DrainTurn(node) => self.drain_turn(node),
            ServerInput::FreeTurn => self.free_turn(),
            ServerInput::Reap => self.reap(),
            ServerInput::Compact => self.step_log(Input::Compact, outbox),
            ServerInput::Crash => self.step_log(Input::Crash, outbox),
            ServerInput::Restart => Err(Refusal::OutOfRange),
        }
    }

    /// Memory was wanting in the middle of a step: the server is down, and nothing of the step was
    /// sent. It takes no memory.
    pub(super) fn crash_in_step(&mut self, sent: usize, outbox: &mut Outbox)
        ensures same { SameNumber self.old.raft self.new.raft }
        ensures raft { IsCrashOf self.old.raft self.new.raft }
        ensures desk { self.new.desk ≡ None }
        ensures frames { outbox.new.frames ≡ take sent outbox.old.frames }
        ensures work { outbox.new.work ≡ outbox.old.work }
    {
        outbox.frames.truncate(sent);
        self.raft.crash();
        self.desk.clear();
    }
}
