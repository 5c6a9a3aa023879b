//! The reader of scenario files.
ghost use Rattle.std.specs.Prelude.{◌≡◌, ◌⊎◌, IfOk, IfErr, OnOk};
ghost use Rattle.rows.specs.declared.refusal.Refusal.TheVariants.{NoMemory, OutOfRange};
ghost use Rattle.sim_scenario.specs.declared.scenario.Scenario.{Scenario};
ghost use Rattle.sim_scenario.specs.Objects.{HasSingleKeys, IsScenarioText};

use crate::scenario::{Scenario, scenario_of};
use json::Scratch;
use rows::Refusal;
use serde_json::Value;
use std::alloc::Global;

/// Refuses with 12 a text in which an object has a key twice, or which is no JSON at all; with 1
/// where there is no memory. The reader of values takes such a key, and keeps the last value.
pub fn refuse_doubled_keys(alloc: Global, text: &str) -> Result<(), Refusal>
    ensures ok { OnOk result (HasSingleKeys text.now) }
    ensures refused { IfErr result (λ refusal. (refusal ≡ NoMemory)
        ⊎ ((refusal ≡ OutOfRange) × ¬ HasSingleKeys text.now)) }
{
    let mut scratch = Scratch::new(alloc);
    match json::Value::parse_strict(alloc, text, &mut scratch) {
        Ok(_) => Ok(()),
        Err(json::Error::OutOfMemory) => Err(Refusal::NoMemory),
        Err(_) => Err(Refusal::OutOfRange),
    }
}

/// Reads a scenario file's text. Refused with 12 is just what is no scenario: no JSON object with
/// exactly the seven keys and values of their kind and range, or one in which a key is written
/// twice; with 1 where there is no memory.
pub fn scenario(alloc: Global, text: &str) -> Result<Scenario, Refusal>
    ensures ok { IfOk result (IsScenarioText text.now) }
    ensures refused { IfErr result (λ refusal. (refusal ≡ NoMemory)
        ⊎ ((refusal ≡ OutOfRange) × ((s : Scenario) → ¬ IsScenarioText text.now s))) }
{
    refuse_doubled_keys(alloc, text)?;
    let mut value = match Value::from_str(alloc, text) {
        Ok(value) => value,
        Err(error) if error.is_memory() => return Err(Refusal::NoMemory),
        Err(_) => return Err(Refusal::OutOfRange),
    };
    scenario_of(alloc, &mut value)
}
