//! The steps of a scenario.
ghost use Rattle.std.specs.Prelude.{◌≡◌, ◌<◌, ◌^◌, ◌↔◌, ℕ, IsTrue, Some, IfOk, IfSome, decimal, option_map};
ghost use Rattle.event_texts.specs.EventLines.{IsEventLine, ServerFits, server_text};
ghost use Rattle.group_model.specs.Worlds.{Event as AnyEvent};
ghost use Rattle.sim_scenario.specs.declared.step.Step.TheVariants as steps;
ghost use Rattle.sim_scenario.specs.Complaints.{IsStepLine};
ghost use Rattle.sim_scenario.specs.Steps.{AnEvent, IsLine, Step as AnyStep, played_step};

use event_texts::{read_beat, read_event, read_number, read_server};
use group_inputs::{Event, ServerInput};
use rows::{NoMemory, Refusal, ServerId};
use std::alloc::Global;

/// One step of a scenario: an event of the group, a turn of a server's worker, or a flow of
/// messages.
#[derive(Drop)]
pub enum Step {
    /// An event of the group, by the line that a transcript has for it.
    Event(Event),
    /// `work S`: a worker of server S takes up the oldest answer that came for it.
    Work(ServerId),
    /// `flow N`: up to N messages in flight are taken, one after the other; `flow` alone leaves the
    /// number out.
    Flow(Option<u64>),
}

/// Reads the line of a step: exactly the one text of each step, with one space between words and
/// numbers in decimal without leading zeros.
pub fn read_step(alloc: Global, line: &str) -> Result<Option<Step>, NoMemory>
    ensures named { IfOk result (λ read. IfSome read (λ step. IsLine (played_step step) line.now)) }
    ensures read { (step : AnyStep) → IsLine step line.now
        → IfOk result (λ read. option_map played_step read ≡ Some step) }
{
    if line == "flow" {
        return Ok(Some(Step::Flow(None)));
    }
    if let Some(server) = read_beat(line) {
        let beat = Event::server(alloc, server, ServerInput::Beat)?;
        return Ok(Some(Step::Event(beat)));
    }
    if let Some(words) = line.strip_prefix("work ") {
        return Ok(read_work(words));
    }
    if let Some(words) = line.strip_prefix("flow ") {
        return Ok(read_flow(words));
    }
    read_event_step(alloc, line)
}

/// Whether a line is that of a step. Of a flow and a beat, which most lines are, that is told
/// without memory.
pub fn is_step(alloc: Global, line: &str) -> Result<bool, NoMemory>
    ensures { IfOk result (λ is_step. IsTrue is_step ↔ IsStepLine line.now) }
{
    if line == "flow" {
        return Ok(true);
    }
    match read_beat(line) {
        Some(_) => Ok(true),
        None => Ok(read_step(alloc, line)?.is_some()),
    }
}

// A step that is an event.
fn read_event_step(alloc: Global, line: &str) -> Result<Option<Step>, NoMemory>
    ensures named { IfOk result (λ read. IfSome read (λ step. IsLine (played_step step) line.now)) }
    ensures read { (event : AnyEvent) → IsEventLine event line.now
        → IfOk result (λ read. option_map played_step read ≡ Some (AnEvent event)) }
{
    match read_event(alloc, line) {
        Ok(event) => Ok(Some(Step::Event(event))),
        Err(Refusal::NoMemory) => Err(NoMemory),
        // The line is no event's.
        Err(_) => Ok(None),
    }
}

// What stands behind `work`.
fn read_work(words: &str) -> Option<Step>
    ensures named { IfSome result (λ step. (server : ℕ) × (step ≡ steps.Work server)
        × ServerFits server × (words.now ≡ server_text server)) }
    ensures read { (server : ℕ) → ServerFits server → words.now ≡ server_text server
        → result ≡ Some (steps.Work server) }
{
    Some(Step::Work(read_server(words)?))
}

// What stands behind `flow`.
fn read_flow(words: &str) -> Option<Step>
    ensures named { IfSome result (λ step. (count : ℕ) × (step ≡ steps.Flow (Some count))
        × (count < 2 ^ 64) × (words.now ≡ decimal count)) }
    ensures read { (count : ℕ) → count < 2 ^ 64 → words.now ≡ decimal count
        → result ≡ Some (steps.Flow (Some count)) }
{
    Some(Step::Flow(Some(read_number(words)?)))
}
