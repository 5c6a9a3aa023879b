//! A transcript's file, told event by event, or how its group stands after some of them.
ghost use Rattle.std.specs.Prelude.{◌≡◌, ◌≢◌, ◌⊎◌, ℕ, IfErr, IfNone, IfOk, IfSome, OnOk, length, option_map};
ghost use Rattle.sim_inspect.specs.Told.{GrowsByLines};
ghost use Rattle.sim_tell.specs.Told.{GrowsByEventLines};
ghost use Rattle.sim_playback.specs.declared.fault.PlaybackError.TheVariants as stops;
ghost use Rattle.sim_files.specs.declared.fault.Fault.TheVariants as faults;
ghost use Rattle.sim_files.specs.Faults.{IsOfRun, IsPastReading};
ghost use Rattle.runner.specs.Inner.Faults.{form_in, seeing_fault};
ghost use Rattle.runner.specs.Told.{IsAfter, TellsEach, TellsStanding};

use event_texts::read_number;
use sim_files::fault::Fault;
use sim_files::replaying::transcript_of;
use sim_files::running::load_bytes;
use sim_files::shelf::Shelf;
use sim_inspect::{Form, InspectError, inspect};
use sim_playback::PlaybackError;
use sim_tell::tell;
use std::alloc::Global;
use std::io::Write;
use transcript::Transcript;

/// Tells what each event of a transcript did.
pub(crate) fn tell_file<'a, F: Shelf, W: Write>(
    alloc: Global,
    shelf: &mut F,
    out: &mut W,
    file: &'a str,
) -> Result<u8, Fault<'a>>
    ensures status { IfOk result (λ status. status ≡ 0) }
    ensures told { IfOk result (λ status. TellsEach (F.file shelf.old file.entry.now) status
        (W.contents out.old) (W.contents out.new)) }
    ensures unsaid { IfErr result (λ fault. (out.new ≡ out.old) ⊎ IsPastReading fault) }
    ensures left { IfErr result (λ fault. fault ≢ faults.Output → out.new ≡ out.old) }
    ensures of_run { IfErr result IsOfRun }
{
    let bytes = load_bytes(shelf, file)?;
    let transcript = transcript_of(alloc, bytes.as_slice())?;
    print_events(alloc, &transcript, out)?;
    Ok(0)
}

/// Tells how the group of a transcript stands after some of its events, all where the words don't
/// say.
pub(crate) fn inspect_file<'a, F: Shelf, W: Write>(
    alloc: Global,
    shelf: &mut F,
    out: &mut W,
    file: &'a str,
    at: Option<&'a str>,
    json: bool,
) -> Result<u8, Fault<'a>>
    ensures status { IfOk result (λ status. status ≡ 0) }
    ensures told { IfOk result (λ status. TellsStanding (F.file shelf.old file.entry.now)
        (option_map (λ k. k.now) at.entry) status (W.contents out.old) (W.contents out.new)) }
    ensures unsaid { IfErr result (λ fault. (out.new ≡ out.old) ⊎ IsPastReading fault) }
    ensures left { IfErr result (λ fault. fault ≢ faults.Output → out.new ≡ out.old) }
    ensures of_run { IfErr result IsOfRun }
{
    let bytes = load_bytes(shelf, file)?;
    let transcript = transcript_of(alloc, bytes.as_slice())?;
    let all = transcript.events.len();
    let Some(after) = after_of(at, all) else {
        return Err(Fault::NoSuchEvent(all));
    };
    print_standing(alloc, &transcript, after, form_of(json), out)?;
    Ok(0)
}

fn form_of(json: bool) -> Form
    ensures { result ≡ form_in json }
{
    if json { Form::Json } else { Form::Text }
}

/// After how many of so many events; none where the word is no such number.
pub(crate) fn after_of(at: Option<&str>, all: usize) -> Option<usize>
    ensures some { IfSome result (IsAfter (option_map (λ k. k.now) at.entry) all) }
    ensures none { IfNone result
        ((after : ℕ) → ¬ IsAfter (option_map (λ k. k.now) at.entry) all after) }
{
    let Some(word) = at else {
        return Some(all);
    };
    let number = read_number(word)?;
    if number <= all as u64 {
        Some(number as usize)
    } else {
        None
    }
}

fn print_events<'a, W: Write>(
    alloc: Global,
    transcript: &Transcript,
    out: &mut W,
) -> Result<(), Fault<'a>>
    ensures lines { OnOk result (GrowsByEventLines transcript.now.servers
        transcript.now.nodes.items transcript.now.events.items
        (W.contents out.old) (W.contents out.new)) }
    ensures left { IfErr result (λ fault. fault ≢ faults.Output → out.new ≡ out.old) }
    ensures of_run { IfErr result IsOfRun }
    ensures past { IfErr result IsPastReading }
{
    let nodes = transcript.nodes.as_slice();
    let events = transcript.events.as_slice();
    match tell(alloc, transcript.servers, nodes, events, out) {
        Ok(()) => Ok(()),
        Err(error) => Err(stop_of(error)),
    }
}

fn print_standing<'a, W: Write>(
    alloc: Global,
    transcript: &Transcript,
    after: usize,
    form: Form,
    out: &mut W,
) -> Result<(), Fault<'a>>
    ensures lines { OnOk result (GrowsByLines (W.contents out.old) (W.contents out.new)) }
    ensures left { IfErr result (λ fault. fault ≢ faults.Output → out.new ≡ out.old) }
    ensures of_run { IfErr result IsOfRun }
    ensures past { IfErr result IsPastReading }
{
    let nodes = transcript.nodes.as_slice();
    let events = transcript.events.as_slice();
    match inspect(alloc, transcript.servers, nodes, events, after, form, out) {
        Ok(()) => Ok(()),
        Err(error) => Err(fault_of(error, events.len())),
    }
}

// A group of a transcript's size is made, unless there is no memory.
fn fault_of<'a>(error: InspectError, events: usize) -> Fault<'a>
    ensures same { result ≡ seeing_fault error events }
    ensures of_run { IsOfRun result }
    ensures past { IsPastReading result }
{
    match error {
        InspectError::Output => Fault::Output,
        InspectError::NoSuchEvent => Fault::NoSuchEvent(events),
        InspectError::NoMemory | InspectError::Group => Fault::NoMemory,
    }
}

// A group of a transcript's size is made, unless there is no memory.
fn stop_of<'a>(error: PlaybackError) -> Fault<'a>
    ensures output { error ≡ stops.Output → result ≡ faults.Output }
    ensures memory { error ≢ stops.Output → result ≡ faults.NoMemory }
    ensures of_run { IsOfRun result }
    ensures past { IsPastReading result }
{
    match error {
        PlaybackError::Output => Fault::Output,
        PlaybackError::NoMemory | PlaybackError::Group => Fault::NoMemory,
    }
}
