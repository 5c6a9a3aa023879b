//! How a group stands after some of a run's events.
ghost use Rattle.std.specs.Prelude.{◌≡◌, ◌≢◌, ◌<◌, ◌≤◌, length, IfErr, IfOk, OnOk};
ghost use Rattle.sim_labels.specs.Groups.{MayBe, MayNotBe};
ghost use Rattle.sim_inspect.specs.Told.{GrowsByLines};
ghost use Rattle.sim_inspect.specs.declared.fault.InspectError.TheVariants as errors;

use crate::fault::InspectError;
use crate::gathering::gather;
use crate::group::{begin, print_lines};
use group_inputs::Event;
use rows::{NoMemory, NodeSpec};
use sim_playback::hand_event;
use sim_report_lines::report_lines;
use sim_reports::Report;
use std::alloc::Global;
use std::io::Write;
use world::World;

/// In which form a group is told.
#[derive(Clone, Copy, Debug, PartialEq, Eq)]
pub enum Form {
    /// As lines of text, with tables.
    Text,
    /// As one JSON object in one line.
    Json,
}

/// Tells how a group stands after the first `after` of these events, which it takes from its
/// beginning: its servers with their logs, the desks of those that lead, its clients, and the states
/// that are applied, with what a worker would find for each evaluation that is pending or blocked.
///
/// It is refused with `NoSuchEvent` where there are fewer events, then with `Group` where there is
/// no such group, and with `NoMemory`; then nothing is written. With `Output` where the output
/// failed.
pub fn inspect<W: Write>(
    alloc: Global,
    servers: usize,
    nodes: &[NodeSpec],
    events: &[Event],
    after: usize,
    form: Form,
    out: &mut W,
) -> Result<(), InspectError>
    ensures within { OnOk result (after ≤ length events.now) }
    ensures past { IfErr result (λ error. error ≡ errors.NoSuchEvent → length events.now < after) }
    ensures no_event { length events.now < after → result ≡ Err errors.NoSuchEvent }
    ensures group { OnOk result (MayBe servers nodes.now) }
    ensures fault { IfErr result (λ error. error ≢ errors.Group → error ≢ errors.NoSuchEvent
        → MayBe servers nodes.now) }
    ensures no_group { IfErr result (λ error. error ≡ errors.Group → MayNotBe servers nodes.now) }
    ensures lines { OnOk result (GrowsByLines (W.contents out.old) (W.contents out.new)) }
    ensures left { IfErr result (λ error. error ≢ errors.Output → out.new ≡ out.old) }
{
    if events.len() < after {
        return Err(InspectError::NoSuchEvent);
    }
    let world = begin(alloc, servers, nodes)?;
    let lines = inspected(alloc, world, &events[..after], events.len(), form)?;
    print_lines(alloc, out, &lines)
}

// The lines of a group that takes these events, of so many.
fn inspected(
    alloc: Global,
    world: World,
    events: &[Event],
    all: usize,
    form: Form,
) -> Result<Vec<String>, NoMemory>
    ensures { IfOk result (λ lines. 0 < length lines.items) }
{
    let mut world = world;
    for event in events {
        let _refusal = hand_event(&mut world, event.try_clone(alloc)?)?;
    }
    let report = gather(alloc, &world, events.len(), all)?;
    match form {
        Form::Text => report_lines(alloc, &report),
        Form::Json => json_lines(alloc, &report),
    }
}

fn json_lines(alloc: Global, report: &Report) -> Result<Vec<String>, NoMemory>
    ensures { IfOk result (λ lines. length lines.items ≡ 1) }
{
    let mut lines = Vec::new(alloc);
    match serde_json::to_string(alloc, report) {
        Ok(text) => lines.push(text)?,
        // What is reported has no text that JSON lacks.
        Err(_) => return Err(NoMemory),
    }
    Ok(lines)
}
