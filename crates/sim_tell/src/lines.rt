//! What each event of a run did, a line an event.
ghost use Rattle.std.specs.Prelude.{◌≡◌, ◌≢◌, ◌+◌, ◌++◌, ◌∷◌, List, ℕ, length, map, string_bytes, IfErr, IfOk, OnOk};
ghost use Rattle.sim_labels.specs.Groups.{MayBe, MayNotBe};
ghost use Rattle.sim_report_lines.specs.Grids.{aligned_lines, cells_of};
ghost use Rattle.sim_tell.specs.Told.{AreEventLines, GrowsByEventLines, heads};
ghost use Rattle.sim_tell.specs.Events.{TellsRun};
ghost use Rattle.sim_tell.specs.Marks.{first_mark};
ghost use Rattle.sim_playback.specs.declared.fault.PlaybackError.TheVariants as errors;

use crate::cells::{push_cell, row_of};
use crate::newest::Newest;
use group_inputs::Event;
use rows::{NoMemory, NodeSpec};
use sim_playback::{PlaybackError, begin, print_lines};
use sim_report_lines::{Grid, owned};
use std::alloc::Global;
use std::io::Write;
use world::World;

/// Tells what each event of a run did, which a group takes from its beginning: a line of heads, and
/// a line for each event, in order. A line has the event's number, its actor, what it took, what
/// that changed of the actor and, where entries are applied for the first time, of the state's rows,
/// and what was sent. A refused event is told as refused.
///
/// It is refused with `Group` where there is no such group and with `NoMemory`, and then nothing is
/// written; and with `Output` where the output failed.
pub fn tell<W: Write>(
    alloc: Global,
    servers: usize,
    nodes: &[NodeSpec],
    events: &[Event],
    out: &mut W,
) -> Result<(), PlaybackError>
    ensures lines { OnOk result (GrowsByEventLines servers nodes.now events.now
        (W.contents out.old) (W.contents out.new)) }
    ensures group { OnOk result (MayBe servers nodes.now) }
    ensures fault { IfErr result (λ error. error ≢ errors.Group → MayBe servers nodes.now) }
    ensures no_group { IfErr result (λ error. error ≡ errors.Group → MayNotBe servers nodes.now) }
    ensures left { IfErr result (λ error. error ≢ errors.Output → out.new ≡ out.old) }
{
    let world = begin(alloc, servers, nodes)?;
    let lines = told_lines(alloc, world, events)?;
    print_lines(alloc, out, &lines)
}

/// The lines that `tell` tells of these events, one for each, in order, without that of heads, and
/// with two spaces between what stands in columns there.
///
/// It is refused with `Group` where there is no such group, and with `NoMemory`.
pub fn event_lines(
    alloc: Global,
    servers: usize,
    nodes: &[NodeSpec],
    events: &[Event],
) -> Result<Vec<String>, PlaybackError>
    ensures count { IfOk result (λ lines. length lines.items ≡ length events.now) }
    ensures lines { IfOk result (λ lines.
        AreEventLines servers nodes.now events.now (map string_bytes lines.items)) }
    ensures group { OnOk result (MayBe servers nodes.now) }
    ensures fault { IfErr result (λ error. error ≢ errors.Group → MayBe servers nodes.now) }
    ensures no_group { IfErr result (λ error. error ≡ errors.Group → MayNotBe servers nodes.now) }
    ensures written { IfErr result (λ error. error ≢ errors.Output) }
{
    let world = begin(alloc, servers, nodes)?;
    let told = told_behind(alloc, world, events, Grid::new(alloc))?;
    let lines = told.loose_lines(alloc)?;
    Ok(lines)
}

// The line of heads, and the lines of a group that takes these events.
fn told_lines(alloc: Global, world: World, events: &[Event]) -> Result<Vec<String>, NoMemory>
    ensures { IfOk result (λ lines. (rows : List (List (List ℕ)))
        × TellsRun world first_mark 0 events.now rows
        × (map string_bytes lines.items ≡ aligned_lines (heads ∷ rows))) }
{
    let mut grid = Grid::new(alloc);
    let first = heads(alloc)?;
    grid.rows.push(first)?;
    let told = told_behind(alloc, world, events, grid)?;
    let lines = told.lines(alloc)?;
    Ok(lines)
}

// Behind these rows a row for each event, which a group takes.
fn told_behind(alloc: Global, world: World, events: &[Event], grid: Grid) -> Result<Grid, NoMemory>
    ensures count { IfOk result (λ told.
        length told.rows.items ≡ length grid.rows.items + length events.now) }
    ensures rows { IfOk result (λ told. (rows : List (List (List ℕ)))
        × TellsRun world first_mark 0 events.now rows
        × (map cells_of told.rows.items ≡ map cells_of grid.rows.items ++ rows)) }
{
    let (mut world, mut grid) = (world, grid);
    let mut newest = Newest::new(alloc)?;
    let mut number = 0usize;
    for event in events {
        number += 1;
        let row = row_of(alloc, &mut world, &mut newest, number, event)?;
        grid.rows.push(row)?;
    }
    Ok(grid)
}

fn heads(alloc: Global) -> Result<Vec<String>, NoMemory>
    ensures { IfOk result (λ row. map string_bytes row.items ≡ heads) }
{
    let mut row = Vec::new(alloc);
    push_cell(&mut row, owned(alloc, "event"))?;
    push_cell(&mut row, owned(alloc, "who"))?;
    push_cell(&mut row, owned(alloc, "took"))?;
    push_cell(&mut row, owned(alloc, "changed"))?;
    push_cell(&mut row, owned(alloc, "sent"))?;
    Ok(row)
}
