//! What a server's own workers ask another server, or their own.
ghost use Rattle.std.specs.Prelude.{◌≡◌, true, OnOk, IfErr};
ghost use Rattle.raft_model.specs.Rafts.{is_up};
ghost use Rattle.server.specs.Inner.Acts.{EachDoes, DeclinesOwn, act_of, asks_of};

use super::replies::send_request;
use super::{Outbox, Server};
use rows::{Refusal, ServerId, WorkerRequest};

impl Server {
    /// Its workers ask a server of the group.
    pub(super) fn ask(
        &self,
        to: ServerId,
        request: WorkerRequest,
        outbox: &mut Outbox,
    ) -> Result<(), Refusal>
        requires { is_up self.now.raft.server.mode ≡ true }
        ensures taken { OnOk result (EachDoes self.now (act_of self.now (asks_of to request))
            self.now outbox.old outbox.new) }
        ensures stopped { IfErr result (λ cause.
            DeclinesOwn self.now (asks_of to request) cause self.now outbox.old outbox.new) }
    {
        if to.position() >= self.raft.size() {
            return Err(Refusal::OutOfRange);
        }
        send_request(&mut outbox.frames, self.raft.me(), to, request)?;
        Ok(())
    }
}
