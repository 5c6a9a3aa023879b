//! A transcript's file, played again.
ghost use Rattle.std.specs.Prelude.{◌≡◌, ◌≤◌, ◌⊎◌, ◌∷◌, ◌++◌, ◌==◌, ℕ, IfErr, IfOk, IsUtf8, List, length, map};
ghost use Rattle.std.specs.List.{AllByRecursion, position};
ghost use Rattle.event_texts.specs.EventLines.{HasLine, event_line};
ghost use Rattle.event_texts.specs.Inner.Printable.{IsPrintable};
ghost use Rattle.event_texts.specs.Transcripts.{IsTranscript, Recorded, lines_text, recorded};
ghost use Rattle.group_inputs.specs.Events.{group_events};
ghost use Rattle.world.specs.GroupSteps.{IsNewGroup};
ghost use Rattle.sim_files.specs.declared.fault.Fault.TheVariants as faults;
ghost use Rattle.sim_files.specs.Faults.{IsOfRun, IsPastReading, MayStopTranscript};
ghost use Rattle.sim_files.specs.Inner.Replayed.{TellsEvents};
ghost use Rattle.sim_files.specs.Replays.{TellsReplay};

use crate::fault::{Fault, said};
use crate::hint::hint_of;
use crate::running::{load_bytes, print_refusal};
use crate::shelf::Shelf;
use group_inputs::Event;
use rows::Refusal;
use sim_ending::print_end;
use std::alloc::Global;
use std::io::Write;
use transcript::{Transcript, read};
use world::{Done, World};

/// Takes the events of a transcript: says each that is refused at once, and then how the group
/// stands.
pub fn replay_file<'a, F: Shelf, W: Write>(
    alloc: Global,
    shelf: &mut F,
    out: &mut W,
    file: &'a str,
) -> Result<u8, Fault<'a>>
    ensures most { IfOk result (λ status. status ≤ 1) }
    ensures told { IfOk result (λ status. TellsReplay (F.file shelf.old file.entry.now) status
        (W.contents out.old) (W.contents out.new)) }
    ensures unsaid { IfErr result (λ fault. (out.new ≡ out.old) ⊎ IsPastReading fault) }
    ensures of_run { IfErr result IsOfRun }
{
    let bytes = load_bytes(shelf, file)?;
    let transcript = transcript_of(alloc, bytes.as_slice())?;
    let mut world = begin(alloc, &transcript)?;
    let lines = event_lines(&transcript, bytes.as_slice());
    let status = play_events(out, &mut world, transcript.events, lines)?;
    print_end(alloc, out, &world)?;
    Ok(status)
}

/// The transcript of a file's bytes.
pub fn transcript_of<'a>(alloc: Global, bytes: &[u8]) -> Result<Transcript, Fault<'a>>
    ensures named { IfOk result (λ t. IsTranscript (recorded t) bytes.now) }
    ensures read { (r : Recorded) → IsTranscript r bytes.now
        → IfOk result (λ t. recorded t ≡ r) }
    ensures fault { IfErr result (MayStopTranscript bytes.now) }
    ensures of_run { IfErr result IsOfRun }
{
    match read(alloc, bytes) {
        Ok(transcript) => Ok(transcript),
        Err(Refusal::Frame(place)) => {
            Err(Fault::BadTranscript(place, hint_of(alloc, bytes, place)?))
        }
        Err(_) => Err(Fault::NoMemory),
    }
}

// The group of a transcript, before its first event.
fn begin<'a>(alloc: Global, transcript: &Transcript) -> Result<World, Fault<'a>>
    ensures ok { IfOk result (IsNewGroup transcript.now.servers transcript.now.nodes.items) }
    ensures fault { IfErr result (λ fault. fault ≡ faults.NoMemory) }
{
    match World::new(alloc, transcript.servers, transcript.nodes.as_slice()) {
        Ok(world) => Ok(world),
        // A group of a transcript's size is made, unless there is no memory.
        Err(_) => Err(Fault::NoMemory),
    }
}

// Where the first newline stands.
fn newline(text: &[u8]) -> Option<usize>
    ensures { result ≡ position (λ byte. byte == 10) text.now }
{
    text.iter().position(|byte| *byte == b'\n')
}

// These bytes as a text; an empty one where they are none.
fn text_of(bytes: &[u8]) -> &str
    ensures { IsUtf8 bytes.now → result.now ≡ bytes.now }
{
    match std::str::from_utf8(bytes) {
        Ok(text) => text,
        Err(_) => "",
    }
}

// The first line without its newline, and what is behind that.
fn next_line(text: &[u8]) -> (&str, &[u8])
    ensures { (front back : List ℕ) → IsPrintable front → text.now ≡ front ++ 10 ∷ back
        → (result.0.now ≡ front) × (result.1.now ≡ back) }
{
    let Some(end) = newline(text) else {
        return ("", &[]);
    };
    (text_of(&text[..end]), &text[end + 1..])
}

// What is behind so many lines.
fn behind_lines(text: &[u8], count: usize) -> &[u8]
    ensures { (front : List (List ℕ)) (back : List ℕ) → AllByRecursion IsPrintable front
        → length front ≡ count → text.now ≡ lines_text front ++ back → result.now ≡ back }
{
    let mut rest = text;
    for _ in 0..count {
        rest = next_line(rest).1;
    }
    rest
}

// The lines of the events of a transcript, which are behind that of the servers and those of the
// nodes.
fn event_lines<'t>(transcript: &Transcript, text: &'t [u8]) -> &'t [u8]
    requires { IsTranscript (recorded transcript.now) text.now }
    ensures have { AllByRecursion HasLine (group_events transcript.now.events.items) }
    ensures lines { result.now
        ≡ lines_text (map event_line (group_events transcript.now.events.items)) }
{
    behind_lines(text, transcript.nodes.len() + 1)
}

// Takes each event, and says which are refused, by their lines: 1 where one is. An actor that finds
// no memory crashes, which is none of the transcript: what follows would come to another group.
fn play_events<'a, W: Write>(
    out: &mut W,
    world: &mut World,
    events: Vec<Event>,
    lines: &[u8],
) -> Result<u8, Fault<'a>>
    requires have { AllByRecursion HasLine (group_events events.items) }
    requires lines { lines.now ≡ lines_text (map event_line (group_events events.items)) }
    ensures most { IfOk result (λ status. status ≤ 1) }
    ensures quiet { IfOk result (λ status. status ≡ 0 → out.new ≡ out.old) }
    ensures told { IfOk result (λ status. TellsEvents (group_events events.items)
        world.old world.new status (W.contents out.old) (W.contents out.new)) }
    ensures past { IfErr result IsPastReading }
    ensures of_run { IfErr result IsOfRun }
{
    let mut rest = lines;
    let mut status = 0;
    for event in events {
        let (line, behind) = next_line(rest);
        rest = behind;
        match world.step(event) {
            Ok(Done::Taken) => (),
            Ok(Done::Crashed) => return Err(Fault::NoMemory),
            Err(refusal) => {
                print_refusal(out, refusal, line)?;
                status = 1;
            }
        }
    }
    Ok(status)
}
