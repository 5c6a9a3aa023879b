//! What is told of a way back, as text.
ghost use Rattle.std.specs.Prelude.{◌≡◌, ◌++◌, ◌∷◌, IfOk, OnOk, List, [], decimal, map, string_bytes};
ghost use Rattle.std.specs.List.{flat_map};
ghost use Rattle.sim_report_lines.specs.Grids.{aligned_lines, cells_of};
ghost use Rattle.sim_playback.specs.Lines.{lines_text};
ghost use Rattle.sim_recovery.specs.Tables.{way_cells, counts_line, head_text, way_heads, next_form, recovery_text, step_form, steps_text, table_text};

use crate::counts::Counts;
use crate::recovering::Recovery;
use crate::table::{Table, WayRow};
use rows::{NoMemory, ServerId};
use sim_report_lines::{Grid, owned};
use std::alloc::{AllocError, Global};

// ---- from one moment

/// What is told of one moment, after so many of all events: after how many, who leads then, what it
/// takes, and the steps, a line each, with commas between.
pub fn recovery_text(
    alloc: Global,
    after: usize,
    all: usize,
    recovery: &Recovery,
) -> Result<String, NoMemory>
    ensures { IfOk result (λ text. string_bytes text ≡ recovery_text after all recovery.now.leader
        recovery.now.counts (map string_bytes recovery.now.lines.items)) }
{
    let mut text = head_text(alloc, after, all, recovery.leader)?;
    put_counts(recovery.counts, &mut text)?;
    put_steps(&recovery.lines, &mut text)?;
    Ok(text)
}

fn head_text(
    alloc: Global,
    after: usize,
    all: usize,
    leader: ServerId,
) -> Result<String, AllocError>
    ensures { IfOk result (λ text. string_bytes text ≡ head_text after all leader) }
{
    format!(in alloc; "after {after} of {all} events\nleader {leader}\n")
}

fn put_counts(counts: Counts, text: &mut String) -> Result<(), AllocError>
    ensures { OnOk result
        (string_bytes text.new ≡ string_bytes text.old ++ counts_line counts) }
{
    let (restarts, timeouts, beats) = (counts.restarts, counts.timeouts, counts.beats);
    let (messages, events) = (counts.messages, counts.events);
    writeln!(
        text,
        "restarts {restarts} timeouts {timeouts} beats {beats} messages {messages} events {events}"
    )
}

fn put_steps(lines: &[String], text: &mut String) -> Result<(), AllocError>
    ensures { OnOk result (string_bytes text.new ≡ string_bytes text.old
        ++ steps_text (map string_bytes lines.now)) }
{
    let Some((first, others)) = lines.split_first() else {
        return Ok(());
    };
    put_step(first.as_str(), text)?;
    put_others(others, text)?;
    text.push('\n')
}

fn put_others(lines: &[String], text: &mut String) -> Result<(), AllocError>
    ensures { OnOk result (string_bytes text.new ≡ string_bytes text.old
        ++ flat_map next_form (map string_bytes lines.now)) }
{
    for line in lines {
        put_next(line.as_str(), text)?;
    }
    Ok(())
}

fn put_next(line: &str, text: &mut String) -> Result<(), AllocError>
    ensures { OnOk result (string_bytes text.new ≡ string_bytes text.old ++ next_form line.now) }
{
    write!(text, ",\n\"{line}\"")
}

// A step stands between quotes as it is: its line has none, and nothing that is to be escaped.
fn put_step(line: &str, text: &mut String) -> Result<(), AllocError>
    ensures { OnOk result (string_bytes text.new ≡ string_bytes text.old ++ step_form line.now) }
{
    write!(text, "\"{line}\"")
}

// ---- from many moments

/// What is told of many moments: a line each, and the farthest behind them.
pub fn table_text(alloc: Global, table: &Table) -> Result<String, NoMemory>
    ensures { IfOk result (λ text. string_bytes text
        ≡ table_text table.now.rows.items table.now.farthest.after) }
{
    let mut text = String::new(alloc);
    put_lines(&grid_of(alloc, &table.rows)?.lines(alloc)?, &mut text)?;
    let farthest = table.farthest.after;
    writeln!(text, "farthest {farthest}")?;
    Ok(text)
}

fn put_lines(lines: &[String], text: &mut String) -> Result<(), AllocError>
    ensures { OnOk result (string_bytes text.new ≡ string_bytes text.old
        ++ lines_text (map string_bytes lines.now)) }
{
    for line in lines {
        put_line(line.as_str(), text)?;
    }
    Ok(())
}

fn put_line(line: &str, text: &mut String) -> Result<(), AllocError>
    ensures { OnOk result (string_bytes text.new ≡ string_bytes text.old ++ (line.now ++ 10 ∷ [])) }
{
    text.push_str(line)?;
    text.push('\n')
}

// The heads, and the cells of each row.
fn grid_of(alloc: Global, rows: &[WayRow]) -> Result<Grid, NoMemory>
    ensures { IfOk result (λ grid.
        map cells_of grid.rows.items ≡ way_heads ∷ map way_cells rows.now) }
{
    let mut grid = Grid::new(alloc);
    let first = way_heads(alloc)?;
    grid.rows.push(first)?;
    for row in rows {
        let own = way_cells(alloc, row)?;
        grid.rows.push(own)?;
    }
    Ok(grid)
}

fn way_heads(alloc: Global) -> Result<Vec<String>, NoMemory>
    ensures { IfOk result (λ row. cells_of row ≡ way_heads) }
{
    let mut row = Vec::new(alloc);
    push_word(alloc, &mut row, "after")?;
    push_word(alloc, &mut row, "restarts")?;
    push_word(alloc, &mut row, "timeouts")?;
    push_word(alloc, &mut row, "beats")?;
    push_word(alloc, &mut row, "messages")?;
    push_word(alloc, &mut row, "events")?;
    Ok(row)
}

fn push_word(alloc: Global, row: &mut Vec<String>, word: &str) -> Result<(), NoMemory>
    ensures { OnOk result (cells_of row.new ≡ cells_of row.old ++ word.now ∷ []) }
{
    row.push(owned(alloc, word)?)?;
    Ok(())
}

fn way_cells(alloc: Global, row: &WayRow) -> Result<Vec<String>, NoMemory>
    ensures { IfOk result (λ own. cells_of own ≡ way_cells row.now) }
{
    let mut own = Vec::new(alloc);
    push_number(alloc, &mut own, row.after)?;
    push_number(alloc, &mut own, row.counts.restarts)?;
    push_number(alloc, &mut own, row.counts.timeouts)?;
    push_number(alloc, &mut own, row.counts.beats)?;
    push_number(alloc, &mut own, row.counts.messages)?;
    push_number(alloc, &mut own, row.counts.events)?;
    Ok(own)
}

fn push_number(alloc: Global, row: &mut Vec<String>, number: usize) -> Result<(), NoMemory>
    ensures { OnOk result (cells_of row.new ≡ cells_of row.old ++ decimal number ∷ []) }
{
    row.push(format!(in alloc; "{number}")?)?;
    Ok(())
}
