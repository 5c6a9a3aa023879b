//! Each moment of a run, put together from what changes, beside what `inspect` prints of it.
use rows::NoMemory;
use sim_inspect::{Form, Moments, each_moment, inspect};
use sim_report_lines::Change;
use std::alloc::Global;
use std::rt::Files;
use std::{fs, io};
use transcript::{Transcript, read};

// Runs with desks, plans, blocked evaluations, drains, snapshots, crashes and several states.
const RUNS: [&str; 5] = [
    "away-too-long",
    "forced-drain",
    "reasons",
    "worker-that-lapses",
    "compacted",
];

// The places of a moment's lines, from those of the moment before.
fn put_together(alloc: Global, old: &[usize], changes: &[Change]) -> Result<Vec<usize>, NoMemory> {
    let mut new = Vec::new(alloc);
    let mut passed = 0usize;
    for change in changes {
        new.extend_from_slice(old.get(passed..change.at).unwrap_or(&[]))?;
        new.extend_from_slice(&change.come)?;
        passed = change.at.saturating_add(change.gone);
    }
    new.extend_from_slice(old.get(passed..).unwrap_or(&[]))?;
    Ok(new)
}

// The lines at these places, each with its line's end.
fn text_of(alloc: Global, lines: &[String], places: &[usize]) -> Result<String, NoMemory> {
    let mut text = String::new(alloc);
    for place in places {
        text.push_str(lines.get(*place).map_or("?", |line| line.as_str()))?;
        text.push('\n')?;
    }
    Ok(text)
}

// Whether `inspect` prints this text after so many events.
fn is_printed(alloc: Global, run: &Transcript, after: usize, text: &str) -> bool {
    let mut out: Vec<u8> = Vec::new(alloc);
    let (nodes, events) = (&run.nodes, &run.events);
    let done = inspect(
        alloc,
        run.servers,
        nodes,
        events,
        after,
        Form::Text,
        &mut out,
    );
    done.is_ok() && out.as_slice() == text.as_bytes()
}

// How many moments are told as `inspect` tells them, from the first one on.
fn good_moments(alloc: Global, run: &Transcript, found: &Moments) -> Result<usize, NoMemory> {
    let mut places = Vec::new(alloc);
    for (after, changes) in found.moments.iter().enumerate() {
        places = put_together(alloc, &places, changes)?;
        let text = text_of(alloc, &found.lines, &places)?;
        if !is_printed(alloc, run, after, text.as_str()) {
            return Ok(after);
        }
    }
    Ok(found.moments.len())
}

fn look(alloc: Global, run: &Transcript) -> Option<(usize, usize)> {
    let found = each_moment(alloc, run.servers, &run.nodes, &run.events).ok()?;
    let good = good_moments(alloc, run, &found).ok()?;
    Some((good, found.moments.len()))
}

/// Of each run, how many of its moments are put together as `inspect` prints them.
pub(crate) fn moments(rt: &HostRuntime) -> io::Result<()> {
    for name in RUNS {
        let file = format!(in rt.alloc(); "{name}.transcript")?;
        let bytes = fs::read(rt, file.as_str())?;
        let Ok(run) = read(rt.alloc(), bytes.as_slice()) else {
            println!(rt; "{name} is no transcript")?;
            continue;
        };
        match look(rt.alloc(), &run) {
            Some((good, all)) => println!(rt; "{name}: {good} of {all} moments as inspected")?,
            None => println!(rt; "{name}: no moments")?,
        }
    }
    Ok(())
}
