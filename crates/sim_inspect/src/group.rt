//! A group that is played again, and lines that are written, with this crate's refusals.
ghost use Rattle.std.specs.Prelude.{◌≡◌, ◌≢◌, IfErr, OnOk, map, string_bytes};
ghost use Rattle.std.specs.Io.KnownBytes.{Appends};
ghost use Rattle.sim_labels.specs.Groups.{MayBe, MayNotBe};
ghost use Rattle.sim_playback.specs.Lines.{lines_text};
ghost use Rattle.sim_inspect.specs.declared.fault.InspectError.TheVariants as errors;

use crate::fault::InspectError;
use rows::NodeSpec;
use sim_playback::PlaybackError;
use std::alloc::Global;
use std::io::Write;
use world::World;

/// A group before its first event.
pub(crate) fn begin(
    alloc: Global,
    servers: usize,
    nodes: &[NodeSpec],
) -> Result<World, InspectError>
    ensures group { OnOk result (MayBe servers nodes.now) }
    ensures memory { IfErr result (λ error. error ≢ errors.Group
        → (error ≡ errors.NoMemory) × MayBe servers nodes.now) }
    ensures no_group { IfErr result (λ error. error ≡ errors.Group → MayNotBe servers nodes.now) }
    ensures past { IfErr result (λ error. error ≢ errors.NoSuchEvent) }
    ensures written { IfErr result (λ error. error ≢ errors.Output) }
{
    match sim_playback::begin(alloc, servers, nodes) {
        Ok(world) => Ok(world),
        Err(PlaybackError::Group) => Err(InspectError::Group),
        Err(_) => Err(InspectError::NoMemory),
    }
}

/// Writes these lines at once, each with its line's end, and flushes the output.
pub(crate) fn print_lines<W: Write>(
    alloc: Global,
    out: &mut W,
    lines: &[String],
) -> Result<(), InspectError>
    ensures lines { OnOk result (Appends (W.contents out.old) (W.contents out.new)
        (lines_text (map string_bytes lines.now))) }
    ensures group { IfErr result (λ error. error ≢ errors.Group) }
    ensures past { IfErr result (λ error. error ≢ errors.NoSuchEvent) }
    ensures left { IfErr result (λ error. error ≢ errors.Output → out.new ≡ out.old) }
{
    match sim_playback::print_lines(alloc, out, lines) {
        Ok(()) => Ok(()),
        Err(PlaybackError::Output) => Err(InspectError::Output),
        Err(_) => Err(InspectError::NoMemory),
    }
}
