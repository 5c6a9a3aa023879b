//! The page of a run.
ghost use Rattle.std.specs.Prelude.{◌≡◌, ◌≢◌, ◌+◌, length, IfErr, IfOk, OnOk, string_bytes};
ghost use Rattle.std.specs.Io.KnownBytes.{Appends};
ghost use Rattle.sim_labels.specs.Groups.{MayBe, MayNotBe};
ghost use Rattle.sim_draw.specs.declared.fault.DrawError.TheVariants as errors;
ghost use Rattle.runner.specs.Pages.{IsLinesJson, IsChangesJson, GrowsByPage, IsMoments, IsPage, framed, name_at};

use crate::frame::{BACK, CLOSED, FRONT, MIDDLE, OPENED, STYLE};
use crate::script::in_script;
use group_inputs::Event;
use rows::{NoMemory, NodeSpec};
use sim_draw::{DrawError, all_escaped, picture};
use sim_inspect::{InspectError, each_moment};
use sim_playback::PlaybackError;
use sim_report_lines::{Change, Moments};
use sim_tell::event_lines;
use std::alloc::Global;
use std::io::Write;
use std::path::Path;

/// Writes the page of a run: the group of so many servers and of these nodes' clients takes these
/// events from its beginning. The page has the name of the file at a path, the picture of the run,
/// and beside that how the group stands behind the event whose row the pointer is on, as `inspect`
/// tells it. It needs no other file.
///
/// It is refused with `Group` where there is no such group and with `NoMemory`, and then nothing is
/// written; and with `Output` where the output failed.
pub(crate) fn page<W: Write>(
    alloc: Global,
    path: &str,
    servers: usize,
    nodes: &[NodeSpec],
    events: &[Event],
    out: &mut W,
) -> Result<(), DrawError>
    ensures page { OnOk result (GrowsByPage path.now servers (length nodes.now)
        (length events.now) (W.contents out.old) (W.contents out.new)) }
    ensures group { OnOk result (MayBe servers nodes.now) }
    ensures fault { IfErr result (λ error. error ≢ errors.Group → MayBe servers nodes.now) }
    ensures no_group { IfErr result (λ error. error ≡ errors.Group → MayNotBe servers nodes.now) }
    ensures left { IfErr result (λ error. error ≢ errors.Output → out.new ≡ out.old) }
{
    let text = page_text(alloc, path, servers, nodes, events)?;
    write_out(out, text.as_str())?;
    Ok(())
}

fn page_text(
    alloc: Global,
    path: &str,
    servers: usize,
    nodes: &[NodeSpec],
    events: &[Event],
) -> Result<String, DrawError>
    ensures page { IfOk result (λ text.
        IsPage path.now servers (length nodes.now) (length events.now) (string_bytes text)) }
    ensures group { OnOk result (MayBe servers nodes.now) }
    ensures fault { IfErr result (λ error. error ≢ errors.Group → MayBe servers nodes.now) }
    ensures no_group { IfErr result (λ error. error ≡ errors.Group → MayNotBe servers nodes.now) }
    ensures written { IfErr result (λ error. error ≢ errors.Output) }
{
    let told = told_of(alloc, servers, nodes, events)?;
    let found = moments_of(alloc, servers, nodes, events)?;
    let drawn = picture(alloc, servers, nodes, events, &told)?;
    let json = json_of(alloc, &found)?;
    let text = framed(alloc, name_of(path), drawn.as_str(), json.as_str())?;
    Ok(text)
}

// The name of the file at a path: `-` and what else ends with no name is its own.
fn name_of(path: &str) -> &str
    ensures { result.now ≡ name_at path.now }
{
    match Path::new(path).file_name() {
        Some(name) => name,
        None => path,
    }
}

// A name, a picture and some JSON, in what frames them.
fn framed(alloc: Global, name: &str, picture: &str, json: &str) -> Result<String, NoMemory>
    ensures { IfOk result (λ text. string_bytes text ≡ framed name.now picture.now json.now) }
{
    let name = all_escaped(alloc, name)?;
    let json = in_script(alloc, json)?;
    let mut text = String::from_str(alloc, FRONT)?;
    text.push_str(name.as_str())?;
    text.push_str(STYLE)?;
    text.push_str(picture)?;
    text.push_str(MIDDLE)?;
    text.push_str(OPENED)?;
    text.push_str(json.as_str())?;
    text.push_str(CLOSED)?;
    text.push_str(BACK)?;
    Ok(text)
}

// The line that is told of each event.
fn told_of(
    alloc: Global,
    servers: usize,
    nodes: &[NodeSpec],
    events: &[Event],
) -> Result<Vec<String>, DrawError>
    ensures lines { IfOk result (λ lines. length lines.items ≡ length events.now) }
    ensures group { OnOk result (MayBe servers nodes.now) }
    ensures fault { IfErr result (λ error. error ≢ errors.Group → MayBe servers nodes.now) }
    ensures no_group { IfErr result (λ error. error ≡ errors.Group → MayNotBe servers nodes.now) }
    ensures written { IfErr result (λ error. error ≢ errors.Output) }
{
    match event_lines(alloc, servers, nodes, events) {
        Ok(lines) => Ok(lines),
        Err(PlaybackError::Group) => Err(DrawError::Group),
        Err(_) => Err(DrawError::NoMemory),
    }
}

// How the group stands at each moment.
fn moments_of(
    alloc: Global,
    servers: usize,
    nodes: &[NodeSpec],
    events: &[Event],
) -> Result<Moments, DrawError>
    ensures moments { IfOk result (λ m. length m.moments.items ≡ length events.now + 1) }
    ensures fault { IfErr result (λ error. error ≢ errors.Group → MayBe servers nodes.now) }
    ensures no_group { IfErr result (λ error. error ≡ errors.Group → MayNotBe servers nodes.now) }
    ensures written { IfErr result (λ error. error ≢ errors.Output) }
{
    match each_moment(alloc, servers, nodes, events) {
        Ok(found) => Ok(found),
        Err(InspectError::Group) => Err(DrawError::Group),
        Err(_) => Err(DrawError::NoMemory),
    }
}

// The JSON of what is told: an object of the lines, and of each moment's changes.
fn json_of(alloc: Global, found: &Moments) -> Result<String, NoMemory>
    ensures { IfOk result (λ json. IsMoments found.now (string_bytes json)) }
{
    let lines = lines_json(alloc, &found.lines)?;
    let moments = changes_json(alloc, &found.moments)?;
    let json = format!(in alloc; "{{\"lines\":{lines},\"moments\":{moments}}}")?;
    Ok(json)
}

// What is told has no text that JSON lacks.
fn lines_json(alloc: Global, lines: &[String]) -> Result<String, NoMemory>
    ensures { IfOk result (λ json. IsLinesJson lines.now (string_bytes json)) }
{
    match serde_json::to_string(alloc, &lines) {
        Ok(text) => Ok(text),
        Err(_) => Err(NoMemory),
    }
}

fn changes_json(alloc: Global, moments: &[Vec<Change>]) -> Result<String, NoMemory>
    ensures { IfOk result (λ json. IsChangesJson moments.now (string_bytes json)) }
{
    match serde_json::to_string(alloc, &moments) {
        Ok(text) => Ok(text),
        Err(_) => Err(NoMemory),
    }
}

fn write_out<W: Write>(out: &mut W, text: &str) -> Result<(), DrawError>
    ensures ok { OnOk result (Appends (W.contents out.old) (W.contents out.new) text.now) }
    ensures err { IfErr result (λ error. error ≡ errors.Output) }
{
    match out.write_all(text.as_bytes()) {
        Ok(()) => match out.flush() {
            Ok(()) => Ok(()),
            Err(_) => Err(DrawError::Output),
        },
        Err(_) => Err(DrawError::Output),
    }
}
