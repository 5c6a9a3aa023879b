//! What runs come to, as text.
ghost use Rattle.std.specs.Prelude.{◌≡◌, ◌++◌, IfOk, OnOk, string_bytes};
ghost use Rattle.std.specs.List.{flat_map};
ghost use Rattle.sim_sweep.specs.Tables.{back_text, counts_text, csv_head, csv_line, front_text, spread_line, spreads_text, summary_text};

use crate::row::Row;
use crate::spread::Spread;
use crate::summary::Summary;
use rows::NoMemory;
use sim_scenario::scenario::Settings;
use std::alloc::{AllocError, Global};

// The names of what stands in a line of each run.
const HEAD: &str = "key,leader,term,refused,allocations,running,events,messages\n";

/// The line of the names of what stands in the line of each run.
pub fn csv_head() -> &'static str
    ensures { result.now ≡ csv_head }
{
    HEAD
}

/// A line for each run.
pub fn csv_lines(alloc: Global, rows: &[Row]) -> Result<String, NoMemory>
    ensures { IfOk result (λ text. string_bytes text ≡ flat_map csv_line rows.now) }
{
    let mut text = String::new(alloc);
    for row in rows {
        put_row(row, &mut text)?;
    }
    Ok(text)
}

fn put_row(row: &Row, text: &mut String) -> Result<(), AllocError>
    ensures { OnOk result (string_bytes text.new ≡ string_bytes text.old ++ csv_line row.now) }
{
    put_front(row, text)?;
    put_back(row, text)
}

// The key and the leader, whose place is left empty where there is none.
fn put_front(row: &Row, text: &mut String) -> Result<(), AllocError>
    ensures { OnOk result (string_bytes text.new ≡ string_bytes text.old ++ front_text row.now) }
{
    let key = row.key;
    match row.end.leader {
        Some(leader) => write!(text, "{key},{leader},"),
        None => write!(text, "{key},,"),
    }
}

fn put_back(row: &Row, text: &mut String) -> Result<(), AllocError>
    ensures { OnOk result (string_bytes text.new ≡ string_bytes text.old ++ back_text row.now) }
{
    let (term, refused, live) = (row.end.term, row.refused, row.end.live);
    let (running, events, messages) = (row.end.running, row.end.events, row.end.messages);
    writeln!(
        text,
        "{term},{refused},{live},{running},{events},{messages}"
    )
}

/// What the runs come to, and how many messages were to be lost and to come again in them.
pub fn summary_text(
    alloc: Global,
    settings: Settings,
    summary: &Summary,
) -> Result<String, NoMemory>
    ensures { IfOk result (λ text. string_bytes text ≡ summary_text settings summary.now) }
{
    let mut text = counts_text(alloc, settings, summary)?;
    put_spreads(summary, &mut text)?;
    let worst = summary.worst;
    writeln!(text, "worst key {worst}")?;
    Ok(text)
}

fn counts_text(alloc: Global, settings: Settings, summary: &Summary) -> Result<String, AllocError>
    ensures { IfOk result (λ text. string_bytes text ≡ counts_text settings summary.now) }
{
    let (drop, repeat) = (settings.drop, settings.repeat);
    let (runs, led) = (summary.runs, summary.led);
    let (running, refused) = (summary.running, summary.refused);
    let mut text = format!(in alloc;
        "runs {runs} drop {drop} repeat {repeat}\nwith a leader {led}\n"
    )?;
    writeln!(
        text,
        "with each allocation running {running}\nwith refused steps {refused}"
    )?;
    Ok(text)
}

fn put_spreads(summary: &Summary, text: &mut String) -> Result<(), AllocError>
    ensures { OnOk result
        (string_bytes text.new ≡ string_bytes text.old ++ spreads_text summary.now) }
{
    put_spread("terms", summary.terms, text)?;
    put_spread("messages", summary.messages, text)?;
    put_spread("events", summary.events, text)
}

fn put_spread(name: &str, spread: Spread, text: &mut String) -> Result<(), AllocError>
    ensures { OnOk result
        (string_bytes text.new ≡ string_bytes text.old ++ spread_line name.now spread) }
{
    let (least, median, greatest) = (spread.least, spread.median, spread.greatest);
    writeln!(
        text,
        "{name} least {least} median {median} greatest {greatest}"
    )
}
