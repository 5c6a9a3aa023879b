//! The events that lines say.
ghost use Rattle.std.specs.Prelude.{◌≡◌, ◌⊎◌, ℕ, Some, Err, IfOk, IfErr, IfSome, OnErr};
ghost use Rattle.rows.specs.declared.refusal.Refusal.TheVariants as refusals;
ghost use Rattle.group_model.specs.Inputs.{Beat};
ghost use Rattle.group_model.specs.Worlds as group;
ghost use Rattle.group_model.specs.Worlds.{AtServer};
ghost use Rattle.group_inputs.specs.Events.{HasInput, group_event};
ghost use Rattle.event_texts.specs.EventLines.{IsEventLine, TakesMemory};
ghost use Rattle.event_texts.specs.Inner.Lines.{line_event};

use crate::line::{Line, read_line};
use crate::word::read_digit;
use group_inputs::Event;
use rows::{NoMemory, Refusal, ServerId};
use std::alloc::Global;

fn event_of(alloc: Global, line: Line) -> Result<Event, NoMemory>
    ensures same { IfOk result (λ event. group_event event ≡ line_event line) }
    ensures memory { OnErr result (HasInput (line_event line)) }
{
    match line {
        Line::Deliver(message) => Ok(Event::Deliver(message)),
        Line::Server(server, input) => Event::server(alloc, server, input),
        Line::Client(client, input) => Event::client(alloc, client, input),
    }
}

/// The server of the line `beat S`; none of any other line. It takes no memory and looks at the
/// bytes alone: most lines of a long run are beats.
pub fn read_beat(line: &str) -> Option<ServerId>
    ensures named { IfSome result (λ server. IsEventLine (AtServer server Beat) line.now) }
    ensures read { (server : ℕ) → IsEventLine (AtServer server Beat) line.now
        → result ≡ Some server }
{
    match line.as_bytes() {
        [b'b', b'e', b'a', b't', b' ', digit] => read_digit(*digit),
        _ => None,
    }
}

/// Reads the line of an event, which is a line without its newline: exactly the one text of each
/// event, with one space between words and numbers in decimal without leading zeros. It is refused
/// as bytes at fault, with offset 0, where it is no event's line, and for want of memory. A
/// delivery takes none, nor does a line of no event, unless it begins as a job or a plan is handed
/// in.
pub fn read_event(alloc: Global, line: &str) -> Result<Event, Refusal>
    ensures named { IfOk result (λ event. IsEventLine (group_event event) line.now) }
    ensures read { (event : group.Event) → IsEventLine event line.now
        → IfOk result (λ read. group_event read ≡ event) }
    ensures refused { IfErr result (λ cause. (cause ≡ refusals.NoMemory)
        ⊎ ((cause ≡ refusals.Frame 0) × ((event : group.Event) → ¬ IsEventLine event line.now))) }
    ensures memory { result ≡ Err refusals.NoMemory → TakesMemory line.now }
{
    match read_line(alloc, line)? {
        Some(line) => Ok(event_of(alloc, line)?),
        None => Err(Refusal::Frame(0)),
    }
}
