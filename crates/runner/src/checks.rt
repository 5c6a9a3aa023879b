//! What is wrong with a scenario's file, plain or in short form.
ghost use Rattle.std.specs.Prelude.{◌≡◌, IfErr, IfOk};
ghost use Rattle.sim_expand.specs.Checked.{IsGoodShortText};
ghost use Rattle.sim_files.specs.declared.fault.Fault.TheVariants as faults;
ghost use Rattle.sim_files.specs.Faults.{IsOfRun};
ghost use Rattle.runner.specs.Inner.Faults.{MayStopShort};
ghost use Rattle.runner.specs.Told.{TellsCheck, TellsGoodShort};

use sim_expand::checking::{ShortComplaint, short_complaints};
use sim_files::checking::check_file;
use sim_files::fault::{Fault, said};
use sim_files::running::load_bytes;
use sim_files::shelf::Shelf;
use sim_scenario::wrong::Wrong;
use std::alloc::Global;
use std::io::Write;

/// Says what is wrong with a scenario's file, which may be one in short form: 0 where nothing is.
pub(crate) fn check<'a, F: Shelf, W: Write>(
    alloc: Global,
    shelf: &mut F,
    out: &mut W,
    file: &'a str,
    short: bool,
) -> Result<u8, Fault<'a>>
    ensures status { IfOk result (λ status. status ≡ 0) }
    ensures told { IfOk result (λ status. TellsCheck short (F.file shelf.old file.entry.now) status
        (W.contents out.old) (W.contents out.new)) }
    ensures of_run { IfErr result IsOfRun }
{
    if short {
        return check_short(alloc, shelf, out, file);
    }
    check_file(alloc, shelf, out, file)
}

// Says what is wrong with a file of a scenario in short form: 0 where nothing is.
fn check_short<'a, F: Shelf, W: Write>(
    alloc: Global,
    shelf: &mut F,
    out: &mut W,
    file: &'a str,
) -> Result<u8, Fault<'a>>
    ensures status { IfOk result (λ status. status ≡ 0) }
    ensures told { IfOk result (λ status. TellsGoodShort (F.file shelf.old file.entry.now) status
        (W.contents out.old) (W.contents out.new)) }
    ensures of_run { IfErr result IsOfRun }
{
    let bytes = load_bytes(shelf, file)?;
    check_short_bytes(alloc, out, bytes.as_slice())
}

// The same, of its bytes.
fn check_short_bytes<'a, W: Write>(
    alloc: Global,
    out: &mut W,
    bytes: &[u8],
) -> Result<u8, Fault<'a>>
    ensures ok { IfOk result (λ status. (status ≡ 0) × IsGoodShortText bytes.now) }
    ensures silent { IfOk result (λ status. W.contents out.new ≡ W.contents out.old) }
    ensures fault { IfErr result (MayStopShort bytes.now) }
    ensures of_run { IfErr result IsOfRun }
{
    match std::str::from_utf8(bytes) {
        Ok(text) => check_short_text(alloc, out, text),
        Err(_) => {
            said(writeln!(out, "{}", Wrong::NoText))?;
            Err(Fault::BadScenario)
        }
    }
}

// The same, of its text.
fn check_short_text<'a, W: Write>(alloc: Global, out: &mut W, text: &str) -> Result<u8, Fault<'a>>
    ensures ok { IfOk result (λ status. (status ≡ 0) × IsGoodShortText text.now) }
    ensures silent { IfOk result (λ status. W.contents out.new ≡ W.contents out.old) }
    ensures fault { IfErr result (MayStopShort text.now) }
    ensures of_run { IfErr result IsOfRun }
{
    let found = short_complaints(alloc, text)?;
    if found.is_empty() {
        return Ok(0);
    }
    print_complaints(out, &found)?;
    Err(Fault::BadScenario)
}

fn print_complaints<'a, W: Write>(out: &mut W, found: &[ShortComplaint]) -> Result<(), Fault<'a>>
    ensures fault { IfErr result (λ fault. fault ≡ faults.Output) }
{
    for complaint in found {
        said(writeln!(out, "{complaint}"))?;
    }
    Ok(())
}
