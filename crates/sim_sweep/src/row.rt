//! One run.
ghost use Rattle.std.specs.Prelude.{◌≡◌, IfErr, IfOk};
ghost use Rattle.sim_sweep.specs.Rows.{IsRow, WhyNoRow, keyed};

use rows::Refusal;
use sim_ending::{EndNumbers, end_numbers};
use sim_play::lines::play_lines;
use sim_play::play::Play;
use sim_scenario::scenario::{Scenario, Settings};
use std::alloc::Global;

/// How the run under a key ended.
#[derive(Clone, Copy, Debug, PartialEq, Eq)]
pub struct Row {
    /// The key.
    pub key: u64,
    /// How many steps were refused.
    pub refused: usize,
    /// How the group stood.
    pub end: EndNumbers,
}

// These settings under another key.
fn keyed(settings: Settings, key: u64) -> Settings
    ensures { result ≡ keyed settings key }
{
    Settings { key, ..settings }
}

/// Plays a scenario under a key, with these settings beside it, as `run` plays a scenario that says
/// them. Fails with 12 where a line is no step's or there is no such group, and with 1 where there
/// is no memory, for an actor of the group too.
pub fn row_of(
    alloc: Global,
    scenario: &Scenario,
    settings: Settings,
    key: u64,
) -> Result<Row, Refusal>
    ensures row { IfOk result (IsRow scenario.now settings key) }
    ensures refused { IfErr result (WhyNoRow scenario.now settings) }
{
    let mut play = Play::new(alloc, keyed(settings, key), &scenario.nodes)?;
    let refused = play_lines(alloc, &scenario.steps, &mut play)?;
    if play.lacked {
        return Err(Refusal::NoMemory);
    }
    let end = end_numbers(alloc, &play.world)?;
    Ok(Row { key, refused, end })
}
