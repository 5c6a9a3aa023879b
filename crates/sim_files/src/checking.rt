//! What is wrong with a scenario's file.
ghost use Rattle.std.specs.Prelude.{◌≡◌, IfErr, IfOk, IfSome, OnOk};
ghost use Rattle.std.specs.Io.KnownBytes.{Appends};
ghost use Rattle.std.specs.List.{flat_map};
ghost use Rattle.sim_scenario.specs.Complaints.{IsGoodText};
ghost use Rattle.sim_files.specs.declared.fault.Fault.TheVariants as faults;
ghost use Rattle.sim_files.specs.Faults.{IsOfRun, MayStopPrinting};
ghost use Rattle.sim_files.specs.Inner.Faults.{MayStopChecking};
ghost use Rattle.sim_files.specs.Files.{IsGoodFile};
ghost use Rattle.sim_files.specs.Inner.Printed.{ShowsComplaints, ShowsEach, ShowsFaults, complaint_line};
ghost use Rattle.sim_files.specs.Notes.{ShowsNotes, TellsNotes, note_line};

use crate::fault::{Fault, said};
use crate::running::load_bytes;
use crate::shelf::Shelf;
pub use sim_scenario::checking::{Complaint, complaints};
use sim_scenario::noting::{Note, notes};
use sim_scenario::reading::scenario;
use sim_scenario::wrong::Wrong;
use std::alloc::Global;
use std::io::Write;

/// Says what is wrong with a scenario's file: 0 where nothing is. Then it notes the steps that never
/// do anything and the groups that no node has room for, which is nothing wrong.
pub fn check_file<'a, F: Shelf, W: Write>(
    alloc: Global,
    shelf: &mut F,
    out: &mut W,
    file: &'a str,
) -> Result<u8, Fault<'a>>
    ensures status { IfOk result (λ status. status ≡ 0) }
    ensures told { IfOk result (λ status. TellsNotes (F.file shelf.old file.entry.now) status
        (W.contents out.old) (W.contents out.new)) }
    ensures good { IfSome (F.file shelf.old file.entry.now) (λ known.
        OnOk result (IsGoodFile known)) }
    ensures bad { IfSome (F.file shelf.old file.entry.now) (λ known.
        IfErr result (λ fault. fault ≡ faults.BadScenario → ¬ IsGoodFile known)) }
    ensures of_run { IfErr result IsOfRun }
{
    let bytes = load_bytes(shelf, file)?;
    check_bytes(alloc, out, bytes.as_slice())
}

// Says what is wrong with the bytes of a scenario's file: 0 where nothing is.
fn check_bytes<'a, W: Write>(alloc: Global, out: &mut W, bytes: &[u8]) -> Result<u8, Fault<'a>>
    ensures ok { IfOk result (λ status. (status ≡ 0) × IsGoodFile bytes.now) }
    ensures notes { OnOk result (ShowsNotes bytes.now (W.contents out.old) (W.contents out.new)) }
    ensures fault { IfErr result (MayStopChecking (IsGoodFile bytes.now)) }
    ensures bad { IfErr result (λ fault. fault ≡ faults.BadScenario
        → ShowsFaults bytes.now (W.contents out.old) (W.contents out.new)) }
    ensures of_run { IfErr result IsOfRun }
{
    match std::str::from_utf8(bytes) {
        Ok(text) => check_text(alloc, out, text),
        Err(_) => {
            print_complaint(out, &Complaint::Text(Wrong::NoText))?;
            Err(Fault::BadScenario)
        }
    }
}

// Says what is wrong with the text of a scenario's file: 0 where nothing is.
fn check_text<'a, W: Write>(alloc: Global, out: &mut W, text: &str) -> Result<u8, Fault<'a>>
    ensures ok { IfOk result (λ status. (status ≡ 0) × IsGoodText text.now) }
    ensures notes { OnOk result (ShowsNotes text.now (W.contents out.old) (W.contents out.new)) }
    ensures fault { IfErr result (MayStopChecking (IsGoodText text.now)) }
    ensures bad { IfErr result (λ fault. fault ≡ faults.BadScenario
        → ShowsComplaints text.now (W.contents out.old) (W.contents out.new)) }
    ensures of_run { IfErr result IsOfRun }
{
    let found = complaints(alloc, text)?;
    if found.is_empty() {
        show_notes(alloc, out, text)?;
        return Ok(0);
    }
    print_complaints(out, &found)?;
    Err(Fault::BadScenario)
}

// Notes the steps that never do anything, and the groups that no node has room for.
fn show_notes<'a, W: Write>(alloc: Global, out: &mut W, text: &str) -> Result<(), Fault<'a>>
    ensures notes { OnOk result (ShowsNotes text.now (W.contents out.old) (W.contents out.new)) }
    ensures fault { IfErr result MayStopPrinting }
    ensures of_run { IfErr result IsOfRun }
{
    let scenario = match scenario(alloc, text) {
        Ok(scenario) => scenario,
        // It is a scenario, so there was no memory.
        Err(_) => return Err(Fault::NoMemory),
    };
    let notes = notes(alloc, &scenario)?;
    print_notes(out, &notes)
}

fn print_notes<'a, W: Write>(out: &mut W, notes: &[Note]) -> Result<(), Fault<'a>>
    ensures lines { OnOk result (Appends (W.contents out.old) (W.contents out.new)
        (flat_map note_line notes.now)) }
    ensures fault { IfErr result (λ fault. fault ≡ faults.Output) }
{
    for note in notes {
        said(writeln!(out, "{note}"))?;
    }
    said(out.flush())
}

fn print_complaints<'a, W: Write>(out: &mut W, found: &[Complaint]) -> Result<(), Fault<'a>>
    ensures each { OnOk result (ShowsEach found.now (W.contents out.old) (W.contents out.new)) }
    ensures fault { IfErr result (λ fault. fault ≡ faults.Output) }
{
    for complaint in found {
        print_complaint(out, complaint)?;
    }
    Ok(())
}

fn print_complaint<'a, W: Write>(out: &mut W, complaint: &Complaint) -> Result<(), Fault<'a>>
    ensures line { OnOk result (IfSome (complaint_line complaint.now)
        (Appends (W.contents out.old) (W.contents out.new))) }
    ensures fault { IfErr result (λ fault. fault ≡ faults.Output) }
{
    match complaint {
        Complaint::Text(wrong) => said(writeln!(out, "{wrong}")),
        Complaint::Step(number, line, flaw) => {
            said(writeln!(out, "step {number}: {line:?}: {flaw}"))
        }
    }
}
