//! What is wrong with the text of a scenario in short form.
ghost use Rattle.std.specs.Prelude.{◌≢◌, ◌↔◌, [], IfOk, IsTrue};
ghost use Rattle.sim_expand.specs.Checked.{AreGood, AreShortComplaints};
ghost use Rattle.sim_expand.specs.ShortSteps.{short_step};
ghost use Rattle.sim_expand.specs.Stops.{IsGoodShort};

use crate::short::{ShortStep, short_scenario};
use event_texts::read_number;
use rows::{NoMemory, Refusal};
use serde_json::Value;
use sim_scenario::checking::wrong_text;
use sim_scenario::flaw::Flaw;
use sim_scenario::flaws::{GroupSize, flaw_of, settle_flaw_of};
use sim_scenario::scenario::{keys_of, list_of, number_of};
use sim_scenario::step::is_step;
use sim_scenario::wrong::Wrong;
use std::alloc::Global;
use std::fmt;

// Lists lie in each other less deep than JSON is read.
const DEPTH: u8 = 128;

/// What is wrong with a scenario in short form.
#[derive(Drop)]
pub enum ShortComplaint {
    /// The text is none, whatever its steps are.
    Text(Wrong),
    /// The step with these numbers is none, nor a `settle`: its text, and the first thing that is
    /// wrong with it.
    Step(String, String, Flaw),
    /// What has these numbers among the steps is neither a text nor a list that is repeated.
    Value(String),
    /// Each step is one, but they come to too many, or to too long ones.
    TooMany,
}

/// The numbers are those of the lists that a step lies in, and its own in the innermost, all from 1.
impl fmt::Display for ShortComplaint {
    fn fmt<W: fmt::Write>(&self, f: &mut fmt::Formatter<W>) -> fmt::Result {
        match self {
            ShortComplaint::Text(wrong) => write!(f, "{wrong}"),
            ShortComplaint::Step(at, line, flaw) => write!(f, "step {at}: {line:?}: {flaw}"),
            ShortComplaint::Value(at) => write!(
                f,
                "step {at}: it has to be a text, or an object of exactly the keys \"repeat\", a \
                 whole number, and \"steps\", a list"
            ),
            ShortComplaint::TooMany => write!(
                f,
                "the steps come to more than 1000000, or their lines to more than 33554432 bytes"
            ),
        }
    }
}

/// What is wrong with the text of a scenario in short form: nothing exactly where it is one, and
/// each step that it takes as it stands is one.
pub fn short_complaints(alloc: Global, text: &str) -> Result<Vec<ShortComplaint>, NoMemory>
    ensures { IfOk result (λ found. AreShortComplaints text.now found.items) }
{
    match short_scenario(alloc, text) {
        Ok(short) => {
            if are_good(alloc, &short.steps)? {
                return Ok(Vec::new(alloc));
            }
            explained(alloc, text)
        }
        Err(Refusal::NoMemory) => Err(NoMemory),
        Err(_) => explained(alloc, text),
    }
}

// Whether each of these that is taken as it stands is a step.
fn are_good(alloc: Global, steps: &[ShortStep]) -> Result<bool, NoMemory>
    ensures { IfOk result (λ good. IsTrue good ↔ AreGood steps.now) }
{
    for step in steps {
        if !is_good(alloc, step)? {
            return Ok(false);
        }
    }
    Ok(true)
}

fn is_good(alloc: Global, step: &ShortStep) -> Result<bool, NoMemory>
    ensures { IfOk result (λ good. IsTrue good ↔ IsGoodShort (short_step step.now)) }
{
    match step {
        ShortStep::Plain(line) => is_step(alloc, line.as_str()),
        ShortStep::Settle(_) | ShortStep::Elect => Ok(true),
    }
}

// What is wrong with a text with which something is.
fn explained(alloc: Global, text: &str) -> Result<Vec<ShortComplaint>, NoMemory>
    ensures { IfOk result (λ found. found.items ≢ []) }
{
    let mut found = Vec::new(alloc);
    let wrong = wrong_text(alloc, text)?;
    if matches!(wrong, Wrong::Wanted("steps", _)) {
        look_at_steps(alloc, text, &mut found)?;
        if found.is_empty() {
            found.push(ShortComplaint::TooMany)?;
        }
        return Ok(found);
    }
    found.push(ShortComplaint::Text(wrong))?;
    Ok(found)
}

// Looks at the steps of a text with which nothing else is wrong.
fn look_at_steps(
    alloc: Global,
    text: &str,
    found: &mut Vec<ShortComplaint>,
) -> Result<(), NoMemory> {
    let Ok(value) = Value::from_str(alloc, text) else {
        return Err(NoMemory);
    };
    let Some(steps) = list_of(&value, "steps") else {
        return Ok(found.push(ShortComplaint::Text(Wrong::Wanted("steps", "a list")))?);
    };
    let place = Place {
        front: "",
        depth: DEPTH,
        is_taken: true,
        group: group_of(&value),
    };
    look_at_list(alloc, steps, &place, found)
}

// Where a list stands.
#[derive(Clone, Copy)]
struct Place<'a> {
    // The numbers of the lists that it lies in, a dot behind each.
    front: &'a str,
    // How deep lists may still lie in it.
    depth: u8,
    // Whether its steps are taken, since no list that it lies in is repeated no time.
    is_taken: bool,
    // The size of the group.
    group: GroupSize,
}

fn group_of(value: &Value) -> GroupSize {
    let servers = number_of(value, "servers").unwrap_or(0);
    let clients = list_of(value, "nodes").map_or(0, |nodes| nodes.len());
    GroupSize {
        servers: servers as usize,
        clients,
    }
}

// Looks at each value of a list.
fn look_at_list(
    alloc: Global,
    list: &[Value],
    place: &Place<'_>,
    found: &mut Vec<ShortComplaint>,
) -> Result<(), NoMemory> {
    for (others, value) in list.iter().enumerate() {
        let at = format!(in alloc; "{}{}", place.front, others.saturating_add(1))?;
        match repeated(value) {
            Some((times, list)) if 0 < place.depth => {
                let front = format!(in alloc; "{}.", at.as_str())?;
                let inner = Place {
                    front: front.as_str(),
                    depth: place.depth - 1,
                    is_taken: place.is_taken && 0 < times,
                    group: place.group,
                };
                look_at_list(alloc, list, &inner, found)?;
            }
            _ => look_at_value(alloc, value, at, place, found)?,
        }
    }
    Ok(())
}

// How often an object says to repeat which list.
fn repeated(value: &Value) -> Option<(u64, &Vec<Value>)> {
    if keys_of(value)? != 2 {
        return None;
    }
    Some((number_of(value, "repeat")?, list_of(value, "steps")?))
}

// Looks at a value that is no list to be repeated, by its numbers.
fn look_at_value(
    alloc: Global,
    value: &Value,
    at: String,
    place: &Place<'_>,
    found: &mut Vec<ShortComplaint>,
) -> Result<(), NoMemory> {
    let Some(line) = value.as_str() else {
        return Ok(found.push(ShortComplaint::Value(at))?);
    };
    if let Some(flaw) = line_flaw(alloc, line, place)? {
        let line = String::from_str(alloc, line)?;
        found.push(ShortComplaint::Step(at, line, flaw))?;
    }
    Ok(())
}

// What is wrong with the line of a step, if anything is.
fn line_flaw(alloc: Global, line: &str, place: &Place<'_>) -> Result<Option<Flaw>, NoMemory> {
    if line == "settle" || line == "settle elect" {
        return Ok(None);
    }
    match line.strip_prefix("settle ") {
        Some(word) if read_number(word).is_some() => Ok(None),
        Some(_) => Ok(Some(settle_flaw_of(alloc, line, place.group)?.flaw)),
        None => plain_flaw(alloc, line, place),
    }
}

// The same, of a line that is taken as it stands, if it is taken.
fn plain_flaw(alloc: Global, line: &str, place: &Place<'_>) -> Result<Option<Flaw>, NoMemory> {
    if !place.is_taken || is_step(alloc, line)? {
        return Ok(None);
    }
    Ok(Some(flaw_of(alloc, line, place.group)?.flaw))
}
