ghost use Rattle.std.specs.Prelude.{◌≡◌, ◌≢◌, ◌∷◌, [], true, false, OnOk, OnErr, IfSome};
ghost use Rattle.wire.specs.declared.body.Body.TheVariants as bodies;
ghost use Rattle.wire.specs.Messages.{kind_of, is_of_log};
ghost use Rattle.raft_core.specs.Frames.{Sends, log_message};
ghost use Rattle.raft_core.specs.Inner.Moves.{is_install};
ghost use Rattle.raft_core.specs.Inner.Turns.{KeepsFront};

use machine::Machine;
use rows::{NoMemory, ServerId};
use wire::{AppendReply, Body, Frames, Message};

/// Sends the frame of a message from one server to another, but for an Install.
#[tactic(auto, using(crate::proofs::Sends::may_go_between, crate::proofs::Sends::sends_one, crate::proofs::Sends::sent_front, crate::proofs::Sends::sent_all))]
pub fn send<M: Machine>(
    outbox: &mut Frames,
    from: ServerId,
    to: ServerId,
    body: Body<M>,
) -> Result<(), NoMemory>
    requires other { from ≢ to }
    requires log { is_of_log (kind_of body) ≡ true }
    requires plain { is_install body ≡ false }
    ensures ok { OnOk result (IfSome (log_message M.spec from to body) (λ message.
        Sends M.spec outbox.old outbox.new (message ∷ []))) }
    ensures front { KeepsFront outbox.old outbox.new }
    ensures err { OnErr result (outbox.new ≡ outbox.old) }
{
    outbox.send(&Message::between(from, to, body))
}

/// Sends the frame of an answer to a leader.
#[tactic(auto, using(crate::proofs::Sends::may_go_between, crate::proofs::Sends::sends_one, crate::proofs::Sends::sent_front, crate::proofs::Sends::sent_all))]
pub fn answer<M: Machine>(
    outbox: &mut Frames,
    from: ServerId,
    to: ServerId,
    reply: &AppendReply,
) -> Result<(), NoMemory>
    requires other { from ≢ to }
    ensures ok { OnOk result (IfSome (log_message M.spec from to (bodies.AppendReply reply.now)) (λ message.
        Sends M.spec outbox.old outbox.new (message ∷ []))) }
    ensures front { KeepsFront outbox.old outbox.new }
    ensures err { OnErr result (outbox.new ≡ outbox.old) }
{
    outbox.send_answer::<M>(from, to, reply)
}
