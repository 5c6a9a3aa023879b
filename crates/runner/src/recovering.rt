//! A transcript's file, and what brings its group back.
ghost use Rattle.std.specs.Prelude.{◌≡◌, ◌<◌, ◌≤◌, ◌^◌, ◌⊎◌, ℕ, IfErr, IfNone, IfOk, IfSome, None, Some, length, map, option_map, string_bytes};
ghost use Rattle.event_texts.specs.Transcripts.{recorded};
ghost use Rattle.sim_recovery.specs.Tables.{recovery_text, table_text};
ghost use Rattle.sim_files.specs.Faults.{IsOfRun, IsPastReading};
ghost use Rattle.runner.specs.Inner.Faults.{way_fault};
ghost use Rattle.runner.specs.Told.{IsStride, IsWayText, TellsWay};

use crate::seeing::after_of;
use crate::sweeping::show;
use event_texts::read_number;
use sim_files::fault::Fault;
use sim_files::replaying::transcript_of;
use sim_files::running::load_bytes;
use sim_files::shelf::Shelf;
use sim_recovery::{
    Recovery, RecoveryError, Table, recovery_of, recovery_text, table_of, table_text,
};
use std::alloc::Global;
use std::io::Write;
use transcript::Transcript;

/// Tells what brings the group of a transcript back after some of its events, all where the words
/// don't say; or from many moments up to there.
pub(crate) fn recover_file<'a, F: Shelf, W: Write>(
    alloc: Global,
    shelf: &mut F,
    out: &mut W,
    file: &'a str,
    at: Option<&'a str>,
    every: Option<&'a str>,
) -> Result<u8, Fault<'a>>
    ensures status { IfOk result (λ status. status ≡ 0) }
    ensures told { IfOk result (λ status. TellsWay (F.file shelf.old file.entry.now)
        (option_map (λ k. k.now) at.entry) (option_map (λ n. n.now) every.entry) status
        (W.contents out.old) (W.contents out.new)) }
    ensures unsaid { IfErr result (λ fault. (out.new ≡ out.old) ⊎ IsPastReading fault) }
    ensures of_run { IfErr result IsOfRun }
{
    let bytes = load_bytes(shelf, file)?;
    let transcript = transcript_of(alloc, bytes.as_slice())?;
    let all = transcript.events.len();
    let Some(after) = after_of(at, all) else {
        return Err(Fault::NoSuchEvent(all));
    };
    let text = text_of(alloc, &transcript, after, every)?;
    show(out, text.as_str())?;
    Ok(0)
}

// What is told of the group of a transcript after so many of its events.
fn text_of<'a>(
    alloc: Global,
    transcript: &Transcript,
    after: usize,
    every: Option<&str>,
) -> Result<String, Fault<'a>>
    requires { after ≤ length transcript.now.events.items }
    ensures text { IfOk result (λ text. IsWayText (option_map (λ n. n.now) every.entry)
        (recorded transcript.now) after (string_bytes text)) }
    ensures past { IfErr result IsPastReading }
    ensures of_run { IfErr result IsOfRun }
{
    match every {
        Some(word) => ways_text(alloc, transcript, after, word),
        None => way_text(alloc, transcript, after),
    }
}

fn way_text<'a>(alloc: Global, transcript: &Transcript, after: usize) -> Result<String, Fault<'a>>
    requires { after ≤ length transcript.now.events.items }
    ensures text { IfOk result (λ text. IsWayText None
        (recorded transcript.now) after (string_bytes text)) }
    ensures past { IfErr result IsPastReading }
    ensures of_run { IfErr result IsOfRun }
{
    let nodes = transcript.nodes.as_slice();
    let events = transcript.events.as_slice();
    match recovery_of(alloc, transcript.servers, nodes, &events[..after]) {
        Ok(way) => said_way(alloc, after, events.len(), &way),
        Err(error) => Err(fault_of(error, after)),
    }
}

fn ways_text<'a>(
    alloc: Global,
    transcript: &Transcript,
    after: usize,
    word: &str,
) -> Result<String, Fault<'a>>
    requires { after ≤ length transcript.now.events.items }
    ensures text { IfOk result (λ text. IsWayText (Some word.now)
        (recorded transcript.now) after (string_bytes text)) }
    ensures past { IfErr result IsPastReading }
    ensures of_run { IfErr result IsOfRun }
{
    let Some(every) = stride_of(word) else {
        return Err(Fault::NoSuchStride(after));
    };
    let nodes = transcript.nodes.as_slice();
    let events = transcript.events.as_slice();
    match table_of(alloc, transcript.servers, nodes, &events[..after], every) {
        Ok(table) => said_table(alloc, &table),
        Err(error) => Err(fault_of(error, after)),
    }
}

fn said_way<'a>(
    alloc: Global,
    after: usize,
    all: usize,
    way: &Recovery,
) -> Result<String, Fault<'a>>
    ensures text { IfOk result (λ text. string_bytes text ≡ recovery_text after all way.now.leader
        way.now.counts (map string_bytes way.now.lines.items)) }
    ensures past { IfErr result IsPastReading }
    ensures of_run { IfErr result IsOfRun }
{
    let text = recovery_text(alloc, after, all, way)?;
    Ok(text)
}

fn said_table<'a>(alloc: Global, table: &Table) -> Result<String, Fault<'a>>
    ensures text { IfOk result (λ text. string_bytes text
        ≡ table_text table.now.rows.items table.now.farthest.after) }
    ensures past { IfErr result IsPastReading }
    ensures of_run { IfErr result IsOfRun }
{
    let text = table_text(alloc, table)?;
    Ok(text)
}

// The whole number from 1 on that a word says.
fn stride_of(word: &str) -> Option<usize>
    ensures some { IfSome result (IsStride word.now) }
    ensures none { IfNone result ((every : ℕ) → every < 2 ^ 64 → ¬ IsStride word.now every) }
{
    let number = read_number(word)?;
    if number == 0 {
        return None;
    }
    Some(number as usize)
}

// A group of a transcript's size is made, unless there is no memory.
fn fault_of<'a>(error: RecoveryError, events: usize) -> Fault<'a>
    ensures same { result ≡ way_fault error events }
    ensures of_run { IsOfRun result }
    ensures past { IsPastReading result }
{
    match error {
        RecoveryError::NoRoom => Fault::NoRoom,
        RecoveryError::TooMany => Fault::NoSuchStride(events),
        RecoveryError::NoMemory | RecoveryError::Group => Fault::NoMemory,
    }
}
