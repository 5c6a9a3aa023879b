//! Scenarios in short form.
ghost use Rattle.std.specs.Prelude.{◌≡◌, ◌≤◌, ◌<◌, ◌+◌, ◌*◌, ◌⊎◌, ◌↔◌, ◌++◌, ◌∷◌, [], ℕ, List, IfErr, IfOk, IsTrue, MatchOption, OnOk, map};
ghost use Rattle.std.specs.List.{repeat};
ghost use Rattle.rows.specs.declared.refusal.Refusal.TheVariants.{NoMemory as Memory, OutOfRange};
ghost use Rattle.serde_json.specs.Data.{Items};
ghost use Rattle.serde_json.specs.View.{view};
ghost use Rattle.sim_expand.specs.declared.short.ShortScenario.{ShortScenario};
ghost use Rattle.sim_expand.specs.Inner.Parts.{IsPartOf};
ghost use Rattle.sim_expand.specs.Inner.Totals.{IsTotal, PutsBehind, WhyNotPut};
ghost use Rattle.sim_expand.specs.ShortSteps.{Short, line_bytes, short_step};
ghost use Rattle.sim_expand.specs.Shorts.{AreSteps, ComesTo, IsRepeat, IsShortLine, IsShortScenario, IsShortText};

use event_texts::read_number;
use rows::{NoMemory, NodeSpec, Refusal};
use serde_json::Value;
use sim_scenario::reading::refuse_doubled_keys;
use sim_scenario::scenario::{Settings, keys_of, list_of, nodes_of, number_of, settings_of};
use std::alloc::Global;

/// How many steps a scenario has at most, once it is expanded.
pub const MOST: usize = 1_000_000;

/// How many bytes the lines of these steps have at most that are taken as they stand.
pub const MOST_BYTES: usize = 33_554_432;

// How deep lists of steps may stand in each other. JSON is read 127 levels deep, of which each list
// takes two: so none that is read is refused for its depth.
const DEPTH: u8 = 128;

/// A step of a scenario in short form, where no step is repeated any more.
#[derive(Drop)]
pub enum ShortStep {
    /// The line of a step.
    Plain(String),
    /// `settle N`: up to N times something is done that is left to do; `settle` alone leaves the
    /// number out.
    Settle(Option<u64>),
    /// `settle elect`: a server comes to lead, and the others that are up to follow it.
    Elect,
}

/// A scenario in short form.
#[derive(Drop)]
pub struct ShortScenario {
    /// What is said beside the nodes and the steps.
    pub settings: Settings,
    /// The nodes, numbered from 1 in their order, at most 64.
    pub nodes: Vec<NodeSpec>,
    /// The steps, those that are repeated so many times; at most 1,000,000, whose lines have at most
    /// 33,554,432 bytes.
    pub steps: Vec<ShortStep>,
}

/// Reads the text of a scenario in short form. Refused with 12 is what is none, with 1 want of
/// memory. Whether a plain step is one is not looked at.
pub fn short_scenario(alloc: Global, text: &str) -> Result<ShortScenario, Refusal>
    ensures ok { IfOk result (IsShortText text.now) }
    ensures refused { IfErr result (λ refusal. (refusal ≡ Memory)
        ⊎ ((refusal ≡ OutOfRange) × ((s : ShortScenario) → ¬ IsShortText text.now s))) }
{
    refuse_doubled_keys(alloc, text)?;
    match Value::from_str(alloc, text) {
        Ok(value) => short_scenario_of(alloc, &value),
        Err(error) if error.is_memory() => Err(Refusal::NoMemory),
        Err(_) => Err(Refusal::OutOfRange),
    }
}

// The scenario in short form that a JSON value is.
fn short_scenario_of(alloc: Global, value: &Value) -> Result<ShortScenario, Refusal>
    ensures ok { IfOk result (IsShortScenario (view value.now)) }
    ensures refused { IfErr result (λ refusal. (refusal ≡ Memory)
        ⊎ ((refusal ≡ OutOfRange)
        × ((s : ShortScenario) → ¬ IsShortScenario (view value.now) s))) }
{
    let Some(settings) = settings_of(value) else {
        return Err(Refusal::OutOfRange);
    };
    let Some(nodes) = list_of(value, "nodes") else {
        return Err(Refusal::OutOfRange);
    };
    let nodes = nodes_of(alloc, nodes)?;
    let Some(steps) = list_of(value, "steps") else {
        return Err(Refusal::OutOfRange);
    };
    let total = short_steps(alloc, steps, DEPTH, true)?;
    Ok(ShortScenario {
        settings,
        nodes,
        steps: total.steps,
    })
}

// What a list of steps comes to: how many, how many bytes their lines have, and the steps themselves
// where they are kept.
#[derive(Drop)]
struct Total {
    steps: Vec<ShortStep>,
    count: usize,
    bytes: usize,
}

// The steps that the values of a list come to. Those of a list that is taken no time are not kept, so
// that a short text of such lists costs no more than a long one.
fn short_steps(alloc: Global, list: &[Value], depth: u8, kept: bool) -> Result<Total, Refusal>
    ensures ok { IfOk result (λ total. (steps : List Short)
        × AreSteps depth (map view list.now) steps × IsTotal (IsTrue kept) steps total) }
    ensures refused { IfErr result (λ refusal. (refusal ≡ Memory) ⊎ ((refusal ≡ OutOfRange)
        × ((steps : List Short) → ¬ AreSteps depth (map view list.now) steps))) }
{
    let mut total = Total {
        steps: Vec::new(alloc),
        count: 0,
        bytes: 0,
    };
    for value in list {
        match part_of(alloc, value)? {
            Part::Step(step) => put_one(step, kept, &mut total)?,
            Part::Repeat(times, list) => {
                if depth == 0 {
                    return Err(Refusal::OutOfRange);
                }
                let own = short_steps(alloc, list, depth - 1, are_kept(kept, times))?;
                put_repeated(alloc, own, times, kept, &mut total)?;
            }
        }
    }
    Ok(total)
}

// Whether the steps of a list are kept that is taken so many times in one whose steps are or not.
fn are_kept(kept: bool, times: u64) -> bool
    ensures { IsTrue result ↔ (IsTrue kept × (0 < times)) }
{
    kept && 0 < times
}

// What a value of a list of steps is.
#[derive(Drop)]
enum Part<'v> {
    // One step.
    Step(ShortStep),
    // The steps of a list, so many times.
    Repeat(u64, &'v Vec<Value>),
}

fn part_of<'v>(alloc: Global, value: &'v Value) -> Result<Part<'v>, Refusal>
    ensures ok { IfOk result (IsPartOf (view value.now)) }
    ensures refused { IfErr result (λ refusal. (refusal ≡ Memory) ⊎ ((refusal ≡ OutOfRange)
        × ((depth : ℕ) (steps : List Short) → ¬ ComesTo depth (view value.now) steps))) }
{
    match value.as_str() {
        Some(line) => Ok(Part::Step(step_of(alloc, line)?)),
        None => match repeat_of(value) {
            Some(part) => Ok(part),
            None => Err(Refusal::OutOfRange),
        },
    }
}

fn repeat_of<'v>(value: &'v Value) -> Option<Part<'v>>
    ensures { MatchOption result
        ((times : ℕ) (items : Items) → ¬ IsRepeat (view value.now) times items)
        (IsPartOf (view value.now)) }
{
    if keys_of(value)? != 2 {
        return None;
    }
    let times = number_of(value, "repeat")?;
    let list = list_of(value, "steps")?;
    Some(Part::Repeat(times, list))
}

// How many bytes the line of a step has that is taken as it stands.
fn bytes_of(step: &ShortStep) -> usize
    ensures { result ≡ line_bytes (short_step step.now) }
{
    match step {
        ShortStep::Plain(line) => line.len(),
        ShortStep::Settle(_) | ShortStep::Elect => 0,
    }
}

// What so many times as much comes to with what is there already, where that is at most so much.
fn sum_within(old: usize, own: usize, times: u64, most: usize) -> Option<usize>
    ensures { MatchOption result (most < old + times * own)
        (λ new. (new ≡ old + times * own) × (new ≤ most)) }
{
    let more = times.checked_mul(own as u64)?;
    let new = (old as u64).checked_add(more)?;
    if (most as u64) < new {
        return None;
    }
    Some(new as usize)
}

// Puts a step behind others.
fn put_one(step: ShortStep, kept: bool, total: &mut Total) -> Result<(), Refusal>
    ensures put { OnOk result
        (PutsBehind (IsTrue kept) total.old (short_step step ∷ []) total.new) }
    ensures refused { IfErr result (WhyNotPut total.old (short_step step ∷ [])) }
{
    let Some(count) = sum_within(total.count, 1, 1, MOST) else {
        return Err(Refusal::OutOfRange);
    };
    let Some(bytes) = sum_within(total.bytes, bytes_of(&step), 1, MOST_BYTES) else {
        return Err(Refusal::OutOfRange);
    };
    keep(step, kept, &mut total.steps)?;
    total.count = count;
    total.bytes = bytes;
    Ok(())
}

// Puts the steps of a list behind others, so many times. That they are too many is told before the
// first is put.
fn put_repeated(
    alloc: Global,
    own: Total,
    times: u64,
    kept: bool,
    total: &mut Total,
) -> Result<(), Refusal>
    ensures put { (steps : List Short) → IsTotal (IsTrue kept × (0 < times)) steps own
        → OnOk result (PutsBehind (IsTrue kept) total.old (repeat times steps) total.new) }
    ensures refused { (steps : List Short) → IsTotal (IsTrue kept × (0 < times)) steps own
        → IfErr result (WhyNotPut total.old (repeat times steps)) }
{
    let Some(count) = sum_within(total.count, own.count, times, MOST) else {
        return Err(Refusal::OutOfRange);
    };
    let Some(bytes) = sum_within(total.bytes, own.bytes, times, MOST_BYTES) else {
        return Err(Refusal::OutOfRange);
    };
    keep_repeated(alloc, own.steps, times, kept, &mut total.steps)?;
    total.count = count;
    total.bytes = bytes;
    Ok(())
}

// Keeps a step behind others, if it is kept.
fn keep(step: ShortStep, kept: bool, steps: &mut Vec<ShortStep>) -> Result<(), NoMemory>
    ensures { IsTrue kept → OnOk result (map short_step steps.new.items
        ≡ map short_step steps.old.items ++ short_step step ∷ []) }
{
    if kept {
        steps.push(step)?;
    }
    Ok(())
}

// Keeps steps behind others so many times, if they are kept.
fn keep_repeated(
    alloc: Global,
    own: Vec<ShortStep>,
    times: u64,
    kept: bool,
    steps: &mut Vec<ShortStep>,
) -> Result<(), NoMemory>
    ensures { IsTrue kept → OnOk result (map short_step steps.new.items
        ≡ map short_step steps.old.items ++ repeat times (map short_step own.items)) }
{
    if kept {
        put_times(alloc, own, times, steps)?;
    }
    Ok(())
}

// Puts steps behind others so many times. The last time they are not copied, so that lists in lists
// cost little more than one.
fn put_times(
    alloc: Global,
    own: Vec<ShortStep>,
    times: u64,
    steps: &mut Vec<ShortStep>,
) -> Result<(), NoMemory>
    ensures { OnOk result (map short_step steps.new.items
        ≡ map short_step steps.old.items ++ repeat times (map short_step own.items)) }
{
    if times == 0 {
        return Ok(());
    }
    if own.is_empty() {
        return Ok(());
    }
    let copies = times - 1;
    for _ in 0..copies {
        put_copies(alloc, &own, steps)?;
    }
    put_all(own, steps)?;
    Ok(())
}

// Puts copies of steps behind others.
fn put_copies(alloc: Global, own: &[ShortStep], steps: &mut Vec<ShortStep>) -> Result<(), NoMemory>
    ensures { OnOk result (map short_step steps.new.items
        ≡ map short_step steps.old.items ++ map short_step own.now) }
{
    for step in own {
        put_copy(alloc, step, steps)?;
    }
    Ok(())
}

// Puts a copy of a step behind others.
fn put_copy(alloc: Global, step: &ShortStep, steps: &mut Vec<ShortStep>) -> Result<(), NoMemory>
    ensures { OnOk result (map short_step steps.new.items
        ≡ map short_step steps.old.items ++ short_step step.now ∷ []) }
{
    let own = match step {
        ShortStep::Plain(line) => ShortStep::Plain(String::from_str(alloc, line.as_str())?),
        ShortStep::Settle(count) => ShortStep::Settle(*count),
        ShortStep::Elect => ShortStep::Elect,
    };
    Ok(steps.push(own)?)
}

// Puts steps behind others.
fn put_all(own: Vec<ShortStep>, steps: &mut Vec<ShortStep>) -> Result<(), NoMemory>
    ensures { OnOk result (map short_step steps.new.items
        ≡ map short_step steps.old.items ++ map short_step own.items) }
{
    for step in own {
        steps.push(step)?;
    }
    Ok(())
}

// The step of a line.
fn step_of(alloc: Global, line: &str) -> Result<ShortStep, Refusal>
    ensures ok { IfOk result (λ step. IsShortLine (short_step step) line.now) }
    ensures refused { IfErr result (λ refusal. (refusal ≡ Memory) ⊎ ((refusal ≡ OutOfRange)
        × ((step : Short) → ¬ IsShortLine step line.now))) }
{
    if line == "settle" {
        return Ok(ShortStep::Settle(None));
    }
    if line == "settle elect" {
        return Ok(ShortStep::Elect);
    }
    match line.strip_prefix("settle ") {
        Some(word) => match read_number(word) {
            Some(count) => Ok(ShortStep::Settle(Some(count))),
            None => Err(Refusal::OutOfRange),
        },
        None => Ok(ShortStep::Plain(String::from_str(alloc, line)?)),
    }
}
