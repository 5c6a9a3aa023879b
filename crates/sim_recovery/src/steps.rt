//! The lines of the events that bring a group back.
ghost use Rattle.std.specs.Prelude.{◌≡◌, IfOk, OnOk, map, string_bytes};
ghost use Rattle.std.specs.List.{AllByRecursion};
ghost use Rattle.group_model.specs.Worlds.{AtServer};
ghost use Rattle.group_inputs.specs.Events.{group_event, group_events, server_input};
ghost use Rattle.group_inputs.specs.Handings.{handing};
ghost use Rattle.event_texts.specs.EventLines.{HasLine, event_line};
ghost use Rattle.sim_recovery.specs.Inner.Steps.{IsStep};

use group_inputs::{Event, ServerInput};
use rows::{NoMemory, ServerId};
use std::alloc::Global;

// The line by which a server restarts, stands or beats.
fn input_line(alloc: Global, server: ServerId, input: &ServerInput) -> Result<String, NoMemory>
    requires { IsStep (AtServer server (server_input (handing input.now))) }
    ensures has { OnOk result (HasLine (AtServer server (server_input (handing input.now)))) }
    ensures line { IfOk result (λ line.
        string_bytes line ≡ event_line (AtServer server (server_input (handing input.now)))) }
{
    match input {
        ServerInput::Restart => Ok(format!(in alloc; "restart {server}")?),
        ServerInput::Timeout => Ok(format!(in alloc; "timeout {server}")?),
        ServerInput::Beat => Ok(format!(in alloc; "beat {server}")?),
        _ => unreachable!(),
    }
}

// The line of one of the events that bring a group back.
fn step_line(alloc: Global, event: &Event) -> Result<String, NoMemory>
    requires { IsStep (group_event event.now) }
    ensures has { OnOk result (HasLine (group_event event.now)) }
    ensures line { IfOk result (λ line. string_bytes line ≡ event_line (group_event event.now)) }
{
    match event {
        Event::Deliver(message) => Ok(format!(in alloc; "deliver {message}")?),
        Event::Server(server, input) => input_line(alloc, *server, input.as_ref()),
        Event::Client(_, _) => unreachable!(),
    }
}

/// The lines of events that bring a group back, in order.
pub(crate) fn lines_of(alloc: Global, events: &[Event]) -> Result<Vec<String>, NoMemory>
    requires { AllByRecursion IsStep (group_events events.now) }
    ensures have { OnOk result (AllByRecursion HasLine (group_events events.now)) }
    ensures lines { IfOk result (λ lines.
        map string_bytes lines.items ≡ map event_line (group_events events.now)) }
{
    let mut lines = Vec::new(alloc);
    for event in events {
        lines.push(step_line(alloc, event)?)?;
    }
    Ok(lines)
}
