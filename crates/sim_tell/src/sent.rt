//! The messages that an event sent.
ghost use Rattle.std.specs.Prelude.{◌≡◌, ◌+◌, ◌<◌, ◌^◌, IfOk, OnOk, slice_get, string_bytes};
ghost use Rattle.sim_tell.specs.Sent.{sent_text};
ghost use Rattle.sim_tell.specs.Inner.Cells.{with_sent};

use crate::words::part;
use rows::NoMemory;
use sim_labels::{actor_text, message_label};
use std::alloc::Global;
use wire::Frames;

/// The messages that were sent from a place on, with their numbers and receivers.
pub(crate) fn sent_since(alloc: Global, sent: &Frames, from: usize) -> Result<String, NoMemory>
    ensures { IfOk result (λ text. string_bytes text ≡ sent_text from sent.now) }
{
    let mut words = String::new(alloc);
    for place in from..sent.len() {
        push_sent(alloc, &mut words, sent, place)?;
    }
    Ok(words)
}

fn push_sent(alloc: Global, words: &mut String, sent: &Frames, place: usize) -> Result<(), NoMemory>
    requires { place + 1 < 2 ^ 64 }
    ensures { OnOk result (string_bytes words.new
        ≡ with_sent (place + 1) (slice_get sent.now place) (string_bytes words.old)) }
{
    let Some(frame) = sent.get(place) else {
        return Ok(());
    };
    let number = place + 1;
    let label = message_label(alloc, frame.bytes())?;
    let to = actor_text(alloc, frame.to())?;
    part(words)?;
    write!(words, "#{number} {label} to {to}")?;
    Ok(())
}
