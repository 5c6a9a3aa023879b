//! A transcript's file, drawn.
ghost use Rattle.std.specs.Prelude.{◌≡◌, ◌≢◌, ◌⊎◌, IfErr, IfOk, OnOk, length};
ghost use Rattle.runner.specs.Pages.{GrowsByPage};
ghost use Rattle.sim_draw.specs.Pictures.{GrowsByPicture};
ghost use Rattle.sim_files.specs.declared.fault.Fault.TheVariants as faults;
ghost use Rattle.sim_files.specs.Faults.{IsOfRun, IsPastReading, MayStopPrinting};
ghost use Rattle.runner.specs.Inner.Faults.{drawing_fault};
ghost use Rattle.runner.specs.Told.{ShowsRun, TellsPicture};

use crate::paging::page;
use sim_draw::{DrawError, draw};
use sim_files::fault::Fault;
use sim_files::replaying::transcript_of;
use sim_files::running::load_bytes;
use sim_files::shelf::Shelf;
use sim_tell::event_lines;
use std::alloc::Global;
use std::io::Write;
use transcript::Transcript;

/// Draws what a transcript says, as a picture or as a page.
pub(crate) fn draw_file<'a, F: Shelf, W: Write>(
    alloc: Global,
    shelf: &mut F,
    out: &mut W,
    file: &'a str,
    html: bool,
) -> Result<u8, Fault<'a>>
    ensures status { IfOk result (λ status. status ≡ 0) }
    ensures told { IfOk result (λ status. TellsPicture file.entry.now
        (F.file shelf.old file.entry.now) html status
        (W.contents out.old) (W.contents out.new)) }
    ensures unsaid { IfErr result (λ fault. (out.new ≡ out.old) ⊎ IsPastReading fault) }
    ensures left { IfErr result (λ fault. fault ≢ faults.Output → out.new ≡ out.old) }
    ensures of_run { IfErr result IsOfRun }
{
    let bytes = load_bytes(shelf, file)?;
    let transcript = transcript_of(alloc, bytes.as_slice())?;
    print_drawn(alloc, file, &transcript, html, out)?;
    Ok(0)
}

fn print_drawn<'a, W: Write>(
    alloc: Global,
    file: &str,
    transcript: &Transcript,
    html: bool,
    out: &mut W,
) -> Result<(), Fault<'a>>
    ensures drawn { OnOk result (ShowsRun html file.now transcript.now.servers
        (length transcript.now.nodes.items) (length transcript.now.events.items)
        (W.contents out.old) (W.contents out.new)) }
    ensures left { IfErr result (λ fault. fault ≢ faults.Output → out.new ≡ out.old) }
    ensures fault { IfErr result MayStopPrinting }
    ensures of_run { IfErr result IsOfRun }
{
    if html {
        print_page(alloc, file, transcript, out)
    } else {
        print_picture(alloc, transcript, out)
    }
}

fn print_page<'a, W: Write>(
    alloc: Global,
    file: &str,
    transcript: &Transcript,
    out: &mut W,
) -> Result<(), Fault<'a>>
    ensures page { OnOk result (GrowsByPage file.now transcript.now.servers
        (length transcript.now.nodes.items) (length transcript.now.events.items)
        (W.contents out.old) (W.contents out.new)) }
    ensures left { IfErr result (λ fault. fault ≢ faults.Output → out.new ≡ out.old) }
    ensures fault { IfErr result MayStopPrinting }
    ensures of_run { IfErr result IsOfRun }
{
    let nodes = transcript.nodes.as_slice();
    let events = transcript.events.as_slice();
    match page(alloc, file, transcript.servers, nodes, events, out) {
        Ok(()) => Ok(()),
        Err(error) => Err(fault_of(error)),
    }
}

fn print_picture<'a, W: Write>(
    alloc: Global,
    transcript: &Transcript,
    out: &mut W,
) -> Result<(), Fault<'a>>
    ensures picture { OnOk result (GrowsByPicture transcript.now.servers
        (length transcript.now.nodes.items) (length transcript.now.events.items)
        (W.contents out.old) (W.contents out.new)) }
    ensures left { IfErr result (λ fault. fault ≢ faults.Output → out.new ≡ out.old) }
    ensures fault { IfErr result MayStopPrinting }
    ensures of_run { IfErr result IsOfRun }
{
    let nodes = transcript.nodes.as_slice();
    let events = transcript.events.as_slice();
    let told = told_of(alloc, transcript)?;
    match draw(alloc, transcript.servers, nodes, events, &told, out) {
        Ok(()) => Ok(()),
        Err(error) => Err(fault_of(error)),
    }
}

// The line that is told of each event.
fn told_of<'a>(alloc: Global, transcript: &Transcript) -> Result<Vec<String>, Fault<'a>>
    ensures lines { IfOk result (λ lines.
        length lines.items ≡ length transcript.now.events.items) }
    ensures fault { IfErr result MayStopPrinting }
    ensures of_run { IfErr result IsOfRun }
{
    let nodes = transcript.nodes.as_slice();
    let events = transcript.events.as_slice();
    match event_lines(alloc, transcript.servers, nodes, events) {
        Ok(lines) => Ok(lines),
        // A group of a transcript's size is made, unless there is no memory.
        Err(_) => Err(Fault::NoMemory),
    }
}

// A group of a transcript's size is made, unless there is no memory.
fn fault_of<'a>(error: DrawError) -> Fault<'a>
    ensures same { result ≡ drawing_fault error }
    ensures fault { MayStopPrinting result }
    ensures of_run { IsOfRun result }
{
    match error {
        DrawError::Output => Fault::Output,
        DrawError::NoMemory | DrawError::Group => Fault::NoMemory,
    }
}
