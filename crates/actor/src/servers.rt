//! What comes to a server.
ghost use Rattle.std.specs.Prelude.{◌≡◌};
ghost use Rattle.group_inputs.specs.Handings.{FrameBytes, handing};
ghost use Rattle.server.specs.SentBytes.{bytes_at};
ghost use Rattle.actor.specs.Answers.{ServerAnswers};
ghost use Rattle.actor.specs.Handed.{comes_as_frame, restarts_server};

use crate::stepped::{Stepped, outcome};
use group_inputs::ServerInput;
use rows::Refusal;
use server::{Outbox, Server};

/// Whether it is a frame.
pub fn is_frame(input: &ServerInput) -> bool
    ensures { result ≡ comes_as_frame (handing input.now) }
{
    matches!(input, ServerInput::Frame(_))
}

/// Whether a server starts again.
pub fn is_restart(input: &ServerInput) -> bool
    ensures { result ≡ restarts_server (handing input.now) }
{
    matches!(input, ServerInput::Restart)
}

/// A server takes an input, and what it sends is put behind what is in the outbox.
///
/// It is refused as `Server::step` refuses it, but that want of memory is the server's crash: with
/// `NoMemory` only a Restart is refused. A refusal leaves the same server and the outbox as it was,
/// and so does a crash the outbox.
pub fn hand_server(
    server: &mut Server,
    input: ServerInput,
    outbox: &mut Outbox,
) -> Result<Stepped, Refusal>
    ensures { ServerAnswers server.old (handing input) outbox.old result server.new outbox.new }
{
    let again = is_restart(&input);
    outcome(server.step(input, outbox), again)
}

/// A frame comes to a server: all of its bytes. It is what `hand_server` does with an input Frame.
pub fn deliver_to_server(
    server: &mut Server,
    frame: &[u8],
    outbox: &mut Outbox,
) -> Result<Stepped, Refusal>
    ensures { ServerAnswers server.old (FrameBytes frame.now) outbox.old result server.new
        outbox.new }
{
    outcome(server.receive(frame, outbox), false)
}

/// A frame comes to a server that stands in the outbox, at this place from 0: what
/// `deliver_to_server` does with its bytes, which are read where they stand. Where no frame stands
/// there, no bytes come.
#[inline(always)]
pub fn deliver_sent_to_server(
    server: &mut Server,
    at: usize,
    outbox: &mut Outbox,
) -> Result<Stepped, Refusal>
    ensures { ServerAnswers server.old (FrameBytes (bytes_at outbox.old.frames at)) outbox.old
        result server.new outbox.new }
{
    outcome(server.receive_sent(at, outbox), false)
}
