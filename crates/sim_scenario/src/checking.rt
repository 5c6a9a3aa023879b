//! What is wrong with the text of a scenario.
ghost use Rattle.std.specs.Prelude.{◌≡◌, ◌↔◌, [], IfOk, OnOk, length};
ghost use Rattle.sim_scenario.specs.Complaints.{AreComplaints, AreLineComplaints, AreTextComplaints, IsGoodText, NamesWrongSteps};
ghost use Rattle.sim_scenario.specs.EachLine.{OfEachLine};
ghost use Rattle.sim_scenario.specs.Inner.Grown.{GrowsByOwed};
ghost use Rattle.sim_scenario.specs.Objects.{IsScenarioText, step_lines};
ghost use Rattle.sim_scenario.specs.declared.scenario.Scenario.{Scenario};

use crate::duplicate_keys::duplicate_key;
use crate::flaw::Flaw;
use crate::flaws::{GroupSize, flaw_of};
use crate::reading::scenario;
use crate::scenario::Scenario;
use crate::step::is_step;
use crate::wrong::{TextPosition, Wrong, wrong_in};
use rows::{NoMemory, Refusal};
use serde_json::Value;
use std::alloc::Global;

/// What is wrong with a scenario.
#[derive(Drop)]
pub enum Complaint {
    /// The text is no scenario.
    Text(Wrong),
    /// This step, counted from 1, is none: its text, and the first thing that is wrong with it.
    Step(usize, String, Flaw),
}

/// What is wrong with a scenario's text: nothing exactly where it is a scenario and each of its
/// steps is one; one complaint where it is no scenario, else one for each step that is none, in
/// order.
pub fn complaints(alloc: Global, text: &str) -> Result<Vec<Complaint>, NoMemory>
    ensures each { IfOk result (λ found. AreComplaints text.now found.items) }
    ensures none { IfOk result (λ found. (found.items ≡ []) ↔ IsGoodText text.now) }
    ensures steps { IfOk result (λ found. (s : Scenario) → IsScenarioText text.now s
        → NamesWrongSteps s found.items) }
{
    match scenario(alloc, text) {
        Ok(scenario) => bad_steps(alloc, &scenario),
        Err(cause) => match cause {
            Refusal::NoMemory => Err(NoMemory),
            _ => bad_text(alloc, text),
        },
    }
}

// The one complaint of a text that is no scenario.
fn bad_text(alloc: Global, text: &str) -> Result<Vec<Complaint>, NoMemory>
    ensures { IfOk result (λ found. AreTextComplaints found.items) }
{
    let mut found = Vec::new(alloc);
    found.push(Complaint::Text(wrong_text(alloc, text)?))?;
    Ok(found)
}

// The steps that are none.
fn bad_steps(alloc: Global, scenario: &Scenario) -> Result<Vec<Complaint>, NoMemory>
    ensures { IfOk result (λ found.
        OfEachLine AreLineComplaints 1 (step_lines scenario.now) found.items) }
{
    let mut found = Vec::new(alloc);
    let group = group_of(scenario);
    // A step's number is at most that of all steps.
    let _steps = scenario.steps.len();
    let mut number = 0usize;
    for line in &scenario.steps {
        number += 1;
        judge_line(alloc, number, line.as_str(), group, &mut found)?;
    }
    Ok(found)
}

/// How many servers and clients the group of a scenario has.
pub fn group_of(scenario: &Scenario) -> GroupSize
    ensures servers { result.servers ≡ scenario.now.settings.servers }
    ensures clients { result.clients ≡ length scenario.now.nodes.items }
{
    GroupSize {
        servers: usize::from(scenario.settings.servers),
        clients: scenario.nodes.len(),
    }
}

// Complains of the line of the step of this number, if it is none.
fn judge_line(
    alloc: Global,
    number: usize,
    line: &str,
    group: GroupSize,
    found: &mut Vec<Complaint>,
) -> Result<(), NoMemory>
    ensures { OnOk result (GrowsByOwed (AreLineComplaints number line.now)
        found.old.items found.new.items) }
{
    if is_step(alloc, line)? {
        return Ok(());
    }
    let text = String::from_str(alloc, line)?;
    let flaw = flaw_of(alloc, line, group)?.flaw;
    found.push(Complaint::Step(number, text, flaw))?;
    Ok(())
}

/// What is wrong with a text that is no scenario; that its steps are no list of texts, where nothing
/// else is.
pub fn wrong_text(alloc: Global, text: &str) -> Result<Wrong, NoMemory> {
    if text.trim_ascii().is_empty() {
        return Ok(Wrong::Empty);
    }
    if text.starts_with('\u{feff}') {
        return Ok(Wrong::ByteOrderMark);
    }
    let value = match Value::from_str(alloc, text) {
        Ok(value) => value,
        Err(error) if error.is_memory() => return Err(NoMemory),
        Err(error) => {
            return Ok(Wrong::NoJson(TextPosition {
                line: error.line(),
                column: error.column(),
            }));
        }
    };
    match duplicate_key(alloc, text)? {
        Some(wrong) => Ok(wrong),
        None => wrong_in(alloc, &value),
    }
}
