//! The lines of a scenario, played without a word.
ghost use Rattle.std.specs.Prelude.{◌≡◌, ◌≤◌, ◌⊎◌, ℕ, IfErr, IfOk, List, length, map, string_bytes};
ghost use Rattle.std.specs.List.{All};
ghost use Rattle.rows.specs.declared.refusal.Refusal.TheVariants.{NoMemory as Memory, OutOfRange};
ghost use Rattle.sim_scenario.specs.Complaints.{IsStepLine};
ghost use Rattle.sim_scenario.specs.Steps.{IsLine, Step as AnyStep, played_step};
ghost use Rattle.sim_play.specs.Played.{LinePlayed, LinesPlayed, Refused, refused_as};
ghost use Rattle.sim_play.specs.PlaySteps.{StepRefused, StepTaken};

use crate::play::Play;
use crate::stage::Stage;
use rows::Refusal;
use sim_scenario::step::{Step, read_step};
use std::alloc::Global;

// The step of a line.
fn step_of(alloc: Global, line: &str) -> Result<Step, Refusal>
    ensures named { IfOk result (λ step. IsLine (played_step step) line.now) }
    ensures read { (step : AnyStep) → IsLine step line.now
        → IfOk result (λ read. played_step read ≡ step) }
    ensures fault { IfErr result (λ fault. (fault ≡ Memory)
        ⊎ ((fault ≡ OutOfRange) × ¬ IsStepLine line.now)) }
{
    match read_step(alloc, line)? {
        Some(step) => Ok(step),
        None => Err(Refusal::OutOfRange),
    }
}

/// Plays the step of a line, and answers its refusal where it is refused. Fails with 12 where the
/// line is no step's, and with 1 where there is no memory.
pub fn play_line(alloc: Global, line: &str, play: &mut Play) -> Result<Option<Refusal>, Refusal>
    ensures played { IfOk result (λ refusal. LinePlayed StepTaken StepRefused line.now
        play.old (refused_as line.now refusal) play.new) }
    ensures fault { IfErr result (λ fault. (fault ≡ Memory)
        ⊎ ((fault ≡ OutOfRange) × ¬ IsStepLine line.now)) }
{
    let step = step_of(alloc, line)?;
    match play.take(step) {
        Ok(()) => Ok(None),
        Err(Refusal::NoMemory) => Err(Refusal::NoMemory),
        Err(refusal) => Ok(Some(refusal)),
    }
}

/// Plays the steps of these lines, in order, and answers how many are refused. Fails with 12 at a
/// line that is no step's, and with 1 where there is no memory.
pub fn play_lines(alloc: Global, lines: &[String], play: &mut Play) -> Result<usize, Refusal>
    ensures played { IfOk result (λ count. (refused : List Refused) × (length refused ≡ count)
        × LinesPlayed StepTaken StepRefused (map string_bytes lines.now)
        play.old refused play.new) }
    ensures fault { IfErr result (λ fault. (fault ≡ Memory)
        ⊎ ((fault ≡ OutOfRange) × ¬ All IsStepLine (map string_bytes lines.now))) }
{
    // So many are refused at most.
    let _lines = lines.len();
    let mut refused = 0usize;
    for line in lines {
        refused += count_of(play_line(alloc, line.as_str(), play)?);
    }
    Ok(refused)
}

// How many refusals these are.
fn count_of(refusal: Option<Refusal>) -> usize
    ensures value { (line : List ℕ) → length (refused_as line refusal) ≡ result }
    ensures most { result ≤ 1 }
{
    match refusal {
        Some(_) => 1,
        None => 0,
    }
}
