//! What is handed to the agent, one after the other.
ghost use Rattle.std.specs.Prelude.{◌≡◌, ◌<◌, ◌≤◌, ℕ, List, IfOk, OnOk, length, map};
ghost use Rattle.group_inputs.specs.declared.client_input.ClientInput.{ClientInput as AnyInput};
ghost use Rattle.group_inputs.specs.declared.client_input.ClientInput.TheVariants as inputs;
ghost use Rattle.client_node.specs.Inner.Outcomes.{IsOutcome, is_memory};
ghost use Rattle.client_node.specs.Turns.{AsksAll, Hands, HandsAll, asks_due};

use actor::{Stepped, deliver_to_client, hand_client};
use client_agent::Agent;
use group_inputs::ClientInput;
use rows::{NoMemory, Refusal, ServerId};
use timers::ClientDue;
use wire::Frames;

/// Whether it is want of memory.
pub fn is_memory(refusal: &Refusal) -> bool
    ensures { result ≡ is_memory refusal.now }
{
    match refusal {
        Refusal::NoMemory => true,
        _ => false,
    }
}

/// A refusal is answered; want of memory ends the process.
fn outcome(done: Result<Stepped, Refusal>) -> Result<Option<Refusal>, NoMemory>
    ensures { IfOk result (IsOutcome done) }
{
    match done {
        Ok(Stepped::Taken) => Ok(None),
        Ok(Stepped::Crashed) => Err(NoMemory),
        Err(refusal) => {
            if is_memory(&refusal) {
                Err(NoMemory)
            } else {
                Ok(Some(refusal))
            }
        }
    }
}

/// Hands the agent an input. It answers why it is refused, if it is.
pub fn hand(
    agent: &mut Agent,
    input: ClientInput,
    frames: &mut Frames,
) -> Result<Option<Refusal>, NoMemory>
    ensures { IfOk result (Hands agent.old input agent.new frames.old frames.new) }
{
    outcome(hand_client(agent, input, frames))
}

/// The same of a frame: all of its bytes.
pub fn bring(
    agent: &mut Agent,
    frame: &[u8],
    frames: &mut Frames,
) -> Result<Option<Refusal>, NoMemory>
    ensures { IfOk result (Hands agent.old (inputs.Frame frame.now) agent.new frames.old
        frames.new) }
{
    outcome(deliver_to_client(agent, frame, frames))
}

/// What is due, as an input, for a server.
fn input_for(due: ClientDue, to: ServerId) -> ClientInput
    ensures { result ≡ asks_due due to }
{
    match due {
        ClientDue::Register => ClientInput::Register(to),
        ClientDue::Ping => ClientInput::Ping(to),
        ClientDue::Pull => ClientInput::Pull(to),
    }
}

/// What is due is asked of each server of a group of this size.
fn ask_all(
    agent: &mut Agent,
    due: ClientDue,
    size: usize,
    frames: &mut Frames,
) -> Result<(), NoMemory>
    requires { size ≤ 5 }
    ensures { OnOk result ((servers : List ℕ) × (length servers ≡ size)
        × HandsAll agent.old frames.old (map (asks_due due) servers) agent.new frames.new) }
{
    for place in 0..size {
        let Some(server) = ServerId::from_position(place) else {
            unreachable!()
        };
        hand(agent, input_for(due, server), frames)?;
    }
    Ok(())
}

/// What is due is asked of the server that answered last, or of all.
fn ask(
    agent: &mut Agent,
    due: ClientDue,
    leader: &Option<ServerId>,
    size: usize,
    frames: &mut Frames,
) -> Result<(), NoMemory>
    requires some { 0 < size }
    requires most { size ≤ 5 }
    ensures { OnOk result ((servers : List ℕ) × (0 < length servers)
        × HandsAll agent.old frames.old (map (asks_due due) servers) agent.new frames.new) }
{
    match leader {
        Some(server) => {
            hand(agent, input_for(due, *server), frames)?;
            Ok(())
        }
        None => ask_all(agent, due, size, frames),
    }
}

/// All that is due is asked, in order.
pub fn ask_each(
    agent: &mut Agent,
    due: &[ClientDue],
    leader: &Option<ServerId>,
    size: usize,
    frames: &mut Frames,
) -> Result<(), NoMemory>
    requires some { 0 < size }
    requires most { size ≤ 5 }
    ensures { OnOk result ((handed : List AnyInput) × AsksAll due.now handed
        × HandsAll agent.old frames.old handed agent.new frames.new) }
{
    for what in due {
        ask(agent, *what, leader, size, frames)?;
    }
    Ok(())
}
