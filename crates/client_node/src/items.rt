//! The items of the input, read.
ghost use Rattle.std.specs.Prelude.{◌≡◌, ◌≤◌, ℕ, Bool, drop, length, IfOk, MatchOption};
ghost use Rattle.fields_model.specs.Format.{GivesExactly, whole};
ghost use Rattle.fields_model.specs.Fields.{u32};
ghost use Rattle.rows.specs.declared.allocation.AllocId.{AllocId as AnyAllocId};
ghost use Rattle.group_model.specs.Agents.{End};
ghost use Rattle.group_model.specs.Worlds.{AtClient};
ghost use Rattle.group_inputs.specs.Events.{client_input, group_event};
ghost use Rattle.client_node.specs.Inner.Lines.{IsReadAs};
ghost use Rattle.client_node.specs.Items.{IsEnd, IsTime, begins_with, is_frame};

use crate::handing::is_memory;
use event_texts::read_event;
use fields::read_u32;
use group_inputs::{ClientInput, Event};
use rows::{AllocId, ClientId, NoMemory, Refusal};
use std::alloc::Global;
use std::str;

/// Whether an item begins with a letter.
fn begins_with(item: &[u8], letter: u8) -> bool
    ensures { result ≡ begins_with letter item.now }
{
    !item.is_empty() && item[0] == letter
}

/// The bytes behind the first one.
fn behind_first(item: &[u8]) -> &[u8]
    requires { 1 ≤ length item.now }
    ensures { result.now ≡ drop 1 item.now }
{
    &item[1..]
}

/// Whether an item is a frame: it begins with none of the letters of the others.
pub fn is_frame(item: &[u8]) -> bool
    ensures { result ≡ is_frame item.now }
{
    !(begins_with(item, b'K') || begins_with(item, b'E'))
}

/// The number of four bytes that is all of a text.
fn read_number(text: &[u8]) -> Result<u32, Refusal>
    ensures { GivesExactly result (whole u32 text.now) }
{
    let (number, end) = read_u32(text, 0)?;
    if end == text.len() {
        Ok(number)
    } else {
        Err(Refusal::Frame(end))
    }
}

/// The milliseconds that an item says have passed.
pub fn read_time(item: &[u8]) -> Option<u32>
    ensures { MatchOption result ((ms : ℕ) → IsTime item.now ms → ⊥) (IsTime item.now) }
{
    if !begins_with(item, b'K') {
        return None;
    }
    match read_number(behind_first(item)) {
        Ok(ms) => Some(ms),
        Err(_) => None,
    }
}

/// The event that a line says; none where it is no event's line.
fn read_text(alloc: Global, line: &str) -> Result<Option<Event>, NoMemory>
    ensures { IfOk result (IsReadAs line.now) }
{
    match read_event(alloc, line) {
        Ok(event) => Ok(Some(event)),
        Err(refusal) => {
            if is_memory(&refusal) {
                Err(NoMemory)
            } else {
                Ok(None)
            }
        }
    }
}

/// The same of bytes.
fn read_line(alloc: Global, line: &[u8]) -> Result<Option<Event>, NoMemory>
    ensures { IfOk result (IsReadAs line.now) }
{
    match str::from_utf8(line) {
        Ok(text) => read_text(alloc, text),
        Err(_) => Ok(None),
    }
}

/// The end that an input is.
fn end_in(input: &ClientInput) -> Option<(AllocId, bool)>
    ensures { MatchOption result
        ((id : AnyAllocId) (well : Bool) → client_input input.now ≡ End id well → ⊥)
        (λ e. client_input input.now ≡ End e.0 e.1) }
{
    match input {
        ClientInput::End(id, well) => Some((*id, *well)),
        ClientInput::Frame(_) => None,
        ClientInput::Register(_) => None,
        ClientInput::Ping(_) => None,
        ClientInput::Pull(_) => None,
        ClientInput::Crash => None,
        ClientInput::Restart => None,
    }
}

/// The end of an event, where it is one of this client's.
fn end_of(me: ClientId, event: &Event) -> Option<(AllocId, bool)>
    ensures { MatchOption result
        ((id : AnyAllocId) (well : Bool) → group_event event.now ≡ AtClient me (End id well) → ⊥)
        (λ e. group_event event.now ≡ AtClient me (End e.0 e.1)) }
{
    match event {
        Event::Client(client, input) => {
            if client.number() == me.number() {
                end_in(input.as_ref())
            } else {
                None
            }
        }
        Event::Server(_, _) => None,
        Event::Deliver(_) => None,
    }
}

/// The end of an allocation of this client, and whether it ended well, by a line as scenarios have
/// it: `end 1 4.0 complete`; none where it is no such line.
pub fn read_end(
    alloc: Global,
    me: ClientId,
    item: &[u8],
) -> Result<Option<(AllocId, bool)>, NoMemory>
    ensures { IfOk result (λ read. MatchOption read
        ((id : AnyAllocId) (well : Bool) → IsEnd me item.now id well → ⊥)
        (λ e. IsEnd me item.now e.0 e.1)) }
{
    if !begins_with(item, b'E') {
        return Ok(None);
    }
    match read_line(alloc, behind_first(item))? {
        Some(event) => Ok(end_of(me, &event)),
        None => Ok(None),
    }
}
