//! A short scenario's file, expanded.
ghost use Rattle.std.specs.Prelude.{◌≡◌, ◌⊎◌, IfErr, IfOk, IsUtf8, OnOk, string_bytes};
ghost use Rattle.runner.specs.Expansions.{IsExpansion};
ghost use Rattle.runner.specs.Told.{TellsPlain};
ghost use Rattle.sim_files.specs.Faults.{IsOfRun, IsPastReading};
ghost use Rattle.runner.specs.Inner.Faults.{MayStopExpanding, WhyNotExpanded, WhyNoText};

use crate::sweeping::show;
use rows::Refusal;
use sim_expand::expanding::expanded;
use sim_expand::plain::plain_text;
use sim_expand::short::short_scenario;
use sim_files::fault::Fault;
use sim_files::running::load_bytes;
use sim_files::shelf::Shelf;
use std::alloc::Global;
use std::io::Write;

/// Plays a scenario in short form, and prints the plain one that takes the same steps.
pub(crate) fn expand_file<'a, F: Shelf, W: Write>(
    alloc: Global,
    shelf: &mut F,
    out: &mut W,
    file: &'a str,
) -> Result<u8, Fault<'a>>
    ensures status { IfOk result (λ status. status ≡ 0) }
    ensures told { IfOk result (λ status. TellsPlain (F.file shelf.old file.entry.now) status
        (W.contents out.old) (W.contents out.new)) }
    ensures unsaid { IfErr result (λ fault. (out.new ≡ out.old) ⊎ IsPastReading fault) }
    ensures of_run { IfErr result IsOfRun }
{
    let bytes = load_bytes(shelf, file)?;
    let form = plain_of(alloc, bytes.as_slice())?;
    show(out, form.as_str())?;
    Ok(0)
}

// The plain scenario that the bytes of a short one stand for.
fn plain_of<'a>(alloc: Global, bytes: &[u8]) -> Result<String, Fault<'a>>
    ensures plain { IfOk result (λ form. IsExpansion bytes.now (string_bytes form)) }
    ensures utf8 { OnOk result (IsUtf8 bytes.now) }
    ensures fault { IfErr result (MayStopExpanding bytes.now) }
    ensures of_run { IfErr result IsOfRun }
{
    match expanded_bytes(alloc, bytes) {
        Ok(form) => Ok(form),
        Err(Refusal::NoMemory) => Err(Fault::NoMemory),
        Err(_) => Err(Fault::BadScenario),
    }
}

fn expanded_bytes(alloc: Global, bytes: &[u8]) -> Result<String, Refusal>
    ensures plain { IfOk result (λ form. IsExpansion bytes.now (string_bytes form)) }
    ensures utf8 { OnOk result (IsUtf8 bytes.now) }
    ensures refused { IfErr result (WhyNoText bytes.now) }
{
    match std::str::from_utf8(bytes) {
        Ok(text) => expanded_text(alloc, text),
        Err(_) => Err(Refusal::OutOfRange),
    }
}

// The text of the plain scenario that a short one stands for.
fn expanded_text(alloc: Global, text: &str) -> Result<String, Refusal>
    ensures plain { IfOk result (λ form. IsExpansion text.now (string_bytes form)) }
    ensures refused { IfErr result (WhyNotExpanded text.now) }
{
    let short = short_scenario(alloc, text)?;
    let lines = expanded(alloc, short.settings, &short.nodes, &short.steps)?;
    let form = plain_text(alloc, short.settings, &short.nodes, &lines)?;
    Ok(form)
}
