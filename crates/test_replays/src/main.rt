//! Plays scenario files and command lines by the program's own call, and groups, lists of events,
//! lines, frames and stored texts by the calls of the libraries, and says what comes of each. What
//! has to come of it stands in `stdout`, and of each scenario beside its file.
#![tactic(auto)]

mod apart;
mod crashes;
mod folder;
mod frames;
mod group;
mod helps;
mod lines;
mod looks;
mod moments;
mod old;
mod recoveries;
mod requests;
mod said;
mod samples;
mod snapshots;
mod stored;
mod threads;

use std::sync::Wait;
use std::thread::Threads;
use std::{env, io};

// The program, and the scenarios that its command line names.
fn play_program<R: Threads + Wait + Copy + Send + Sync + 'static>(
    rt: &HostRuntime,
    on: R,
) -> io::Result<()> {
    let names: Vec<String> = env::args(rt)?.skip(1).collect(rt.alloc())?;
    for name in &names {
        said::replay(rt, on, name)?;
    }
    said::shorts(rt, on)?;
    said::sweeps(rt, on)?;
    said::transcripts(rt, on)?;
    said::pictures(rt, on)?;
    said::looks(rt, on)?;
    threads::elections(rt, on)?;
    threads::placements(rt, on)?;
    threads::nodes(rt, on)?;
    threads::losses(rt, on)?;
    threads::refusals(rt, on)?;
    threads::compactions(rt, on)?;
    threads::replayed(rt, on)?;
    said::no_transcripts(rt, on)?;
    said::command_lines(rt, on)?;
    said::texts(rt, on)?;
    helps::helps(rt, on)?;
    helps::shorts(rt, on)?;
    said::outputs(rt, on)
}

// What needs no program.
fn play_groups(rt: &HostRuntime) -> io::Result<()> {
    requests::commands(rt)?;
    lines::lines(rt)?;
    lines::nodes(rt)?;
    requests::settings(rt)?;
    requests::states(rt)?;
    group::groups(rt)?;
    frames::frames(rt)?;
    stored::texts(rt)?;
    apart::servers(rt)?;
    old::starts(rt)?;
    crashes::crashes(rt)?;
    looks::looks(rt)?;
    moments::moments(rt)?;
    recoveries::recoveries(rt)
}

fn main(rt: HostRuntime) -> io::Result<()> {
    play_program(&rt, rt)?;
    play_groups(&rt)
}
