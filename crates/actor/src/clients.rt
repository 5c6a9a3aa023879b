//! What comes to a client.
ghost use Rattle.std.specs.Prelude.{◌≡◌};
ghost use Rattle.group_inputs.specs.declared.client_input.ClientInput.TheVariants as client_inputs;
ghost use Rattle.client_agent.specs.AgentView.{StartsMore};
ghost use Rattle.actor.specs.Answers.{ClientAnswers};
ghost use Rattle.actor.specs.Handed.{is_client_frame, restarts_client};

use crate::stepped::{Stepped, outcome};
use client_agent::Agent;
use group_inputs::ClientInput;
use rows::Refusal;
use wire::Frames;

/// Whether it is a frame.
pub fn is_client_frame(input: &ClientInput) -> bool
    ensures { result ≡ is_client_frame input.now }
{
    matches!(input, ClientInput::Frame(_))
}

/// Whether a client starts again.
pub fn is_client_restart(input: &ClientInput) -> bool
    ensures { result ≡ restarts_client input.now }
{
    matches!(input, ClientInput::Restart)
}

/// A client takes an input, and what it sends is put behind these frames.
///
/// It is refused as `Agent::step` refuses it, but that want of memory is the client's crash, and so
/// never with `NoMemory`. A refusal changes nothing, and a crash leaves the frames as they were.
/// None of what it ever started is forgotten.
pub fn hand_client(
    client: &mut Agent,
    input: ClientInput,
    frames: &mut Frames,
) -> Result<Stepped, Refusal>
    ensures answers { ClientAnswers client.old input frames.old result client.new frames.new }
    ensures grows { StartsMore client.old client.new }
{
    outcome(client.step(input, frames), false)
}

/// A frame comes to a client: all of its bytes. It is what `hand_client` does with an input Frame.
pub fn deliver_to_client(
    client: &mut Agent,
    frame: &[u8],
    frames: &mut Frames,
) -> Result<Stepped, Refusal>
    ensures answers { ClientAnswers client.old (client_inputs.Frame frame.now) frames.old result
        client.new frames.new }
    ensures grows { StartsMore client.old client.new }
{
    outcome(client.receive(frame, frames), false)
}
