//! A scenario's file, played under many keys.
ghost use Rattle.std.specs.Prelude.{◌≡◌, ◌≤◌, ◌<◌, ◌⊎◌, ◌+◌, true, false, IfErr, IfNone, IfOk, IfSome, List, OnOk};
ghost use Rattle.std.specs.Io.KnownBytes.{Appends};
ghost use Rattle.std.specs.List.{flat_map};
ghost use Rattle.sim_sweep.specs.declared.row.Row.{Row};
ghost use Rattle.sim_sweep.specs.Rows.{AreRows, key_at};
ghost use Rattle.sim_sweep.specs.Tables.{csv_line};
ghost use Rattle.runner.specs.Told.{IsUnder, ShowsRows, TellsSweep, settings_under};
ghost use Rattle.sim_files.specs.Faults.{IsOfRun, IsPastReading, MayStopPrinting};
ghost use Rattle.runner.specs.Inner.Faults.{AreTooMany};
ghost use Rattle.runner.specs.Inner.Runs.{ShowsRuns};

use sim_args::command::SweepWords;
use sim_files::fault::{Fault, said};
use sim_files::running::{check_steps, load};
use sim_files::shelf::Shelf;
use sim_scenario::scenario::{Scenario, Settings};
use sim_sweep::row::Row;
use sim_sweep::summary::summary_of;
use sim_sweep::sweeping::{Progress, sweep};
use sim_sweep::table::{csv_head, csv_lines, summary_text};
use sim_sweep::task::Task;
use std::alloc::Global;
use std::io::Write;
use std::thread::{Threads, available_parallelism};

// How many threads play at most.
const MOST: usize = 64;

// How many keys are played at a time for each thread, where each run is told of.
const AT_ONCE: u32 = 4;

/// Plays a scenario under many keys, and says what the runs come to, or how each of them ended.
pub(crate) fn sweep_file<'a, F, W, R, P>(
    rt: &R,
    alloc: Global,
    shelf: &mut F,
    out: &mut W,
    progress: &P,
    file: &'a str,
    words: SweepWords,
) -> Result<u8, Fault<'a>>
where
    F: Shelf,
    W: Write,
    R: Threads + Sync,
    P: Progress + Sync,
    ensures status { IfOk result (λ status. status ≡ 0) }
    ensures told { IfOk result (λ status. TellsSweep (F.file shelf.old file.entry.now) words status
        (W.contents out.old) (W.contents out.new)) }
    ensures unsaid { IfErr result (λ fault. (out.new ≡ out.old) ⊎ IsPastReading fault) }
    ensures of_run { IfErr result IsOfRun }
{
    let scenario = load(alloc, shelf, file)?;
    check_steps(alloc, &scenario)?;
    let settings = settings_under(&scenario, words)?;
    show_runs(rt, alloc, out, progress, &scenario, settings, words)?;
    Ok(0)
}

// Plays under each key, and says how each run ended, or what they come to.
fn show_runs<'a, W: Write, R: Threads + Sync, P: Progress + Sync>(
    rt: &R,
    alloc: Global,
    out: &mut W,
    progress: &P,
    scenario: &Scenario,
    settings: Settings,
    words: SweepWords,
) -> Result<(), Fault<'a>>
    ensures told { OnOk result (ShowsRuns words.csv scenario.now settings words
        (W.contents out.old) (W.contents out.new)) }
    ensures past { IfErr result IsPastReading }
    ensures of_run { IfErr result IsOfRun }
{
    if words.csv {
        return show_each(rt, alloc, out, progress, scenario, settings, words);
    }
    show_all(rt, alloc, out, progress, scenario, settings, words)
}

// Plays under each key, and says what the runs come to.
fn show_all<'a, W: Write, R: Threads + Sync, P: Progress + Sync>(
    rt: &R,
    alloc: Global,
    out: &mut W,
    progress: &P,
    scenario: &Scenario,
    settings: Settings,
    words: SweepWords,
) -> Result<(), Fault<'a>>
    ensures told { OnOk result (ShowsRuns false scenario.now settings words
        (W.contents out.old) (W.contents out.new)) }
    ensures past { IfErr result IsPastReading }
    ensures of_run { IfErr result IsOfRun }
{
    let rows = rows_of(rt, alloc, scenario, settings, words, progress)?;
    show_summary(alloc, out, settings, &rows)
}

// Plays under so many keys at a time as keep all threads busy, and says how each of these runs
// ended before the next ones are played.
fn show_each<'a, W: Write, R: Threads + Sync, P: Progress + Sync>(
    rt: &R,
    alloc: Global,
    out: &mut W,
    progress: &P,
    scenario: &Scenario,
    settings: Settings,
    words: SweepWords,
) -> Result<(), Fault<'a>>
    ensures told { OnOk result (ShowsRuns true scenario.now settings words
        (W.contents out.old) (W.contents out.new)) }
    ensures past { IfErr result IsPastReading }
    ensures of_run { IfErr result IsOfRun }
{
    let task = Task {
        scenario,
        settings,
        first: words.keys.first,
        count: words.keys.count,
    };
    let jobs = jobs_of(rt, words);
    show(out, csv_head())?;
    let mut done = 0u32;
    for _ in 0..task.count {
        if done == task.count {
            return Ok(());
        }
        let many = many_behind(&task, done, jobs);
        show_some(rt, alloc, out, progress, &task, done, many, jobs)?;
        done += many;
    }
    Ok(())
}

// How many keys are played next behind so many: a few for each thread, and no more than are left.
fn many_behind(task: &Task<'_>, done: u32, jobs: usize) -> u32
    requires { done < task.now.count }
    ensures least { 1 ≤ result }
    ensures most { done + result ≤ task.now.count }
{
    let left = task.count - done;
    let at_once = jobs.min(MOST) as u32 * AT_ONCE;
    left.min(at_once.max(1))
}

// Plays under so many keys behind so many others, and says how each of these runs ended.
fn show_some<'a, W: Write, R: Threads + Sync, P: Progress + Sync>(
    rt: &R,
    alloc: Global,
    out: &mut W,
    progress: &P,
    task: &Task<'_>,
    done: u32,
    many: u32,
    jobs: usize,
) -> Result<(), Fault<'a>>
    ensures told { OnOk result ((rows : List Row) × AreRows task.now.scenario.now task.now.settings
        (key_at task.now.first done) many rows
        × Appends (W.contents out.old) (W.contents out.new) (flat_map csv_line rows)) }
    ensures past { IfErr result IsPastReading }
    ensures of_run { IfErr result IsOfRun }
{
    let own = Task {
        scenario: task.scenario,
        settings: task.settings,
        first: task.key(done),
        count: many,
    };
    let behind = Behind {
        progress,
        before: u64::from(done),
        all: u64::from(task.count),
    };
    let Ok(rows) = sweep(rt, alloc, &own, jobs, &behind) else {
        // Each step is one, and a group of a scenario's size is made, unless there is no memory.
        return Err(Fault::NoMemory);
    };
    let text = csv_lines(alloc, &rows)?;
    progress.clear();
    show(out, text.as_str())
}

// Who is told how far a sweep is, part of which is played behind the rest.
#[derive(Drop)]
struct Behind<'p, P> {
    progress: &'p P,
    // So many runs were over before.
    before: u64,
    // So many there are in all.
    all: u64,
}

impl<P: Progress> Progress for Behind<'_, P> {
    fn done(&self, done: u64, _all: u64) {
        self.progress
            .done(self.before.saturating_add(done), self.all);
    }

    fn clear(&self) {
        self.progress.clear();
    }
}

// A row for each key.
fn rows_of<'a, R: Threads + Sync, P: Progress + Sync>(
    rt: &R,
    alloc: Global,
    scenario: &Scenario,
    settings: Settings,
    words: SweepWords,
    progress: &P,
) -> Result<Vec<Row>, Fault<'a>>
    ensures rows { IfOk result (λ rows. AreRows scenario.now settings words.keys.first
        words.keys.count rows.items) }
    ensures past { IfErr result IsPastReading }
    ensures of_run { IfErr result IsOfRun }
{
    let task = Task {
        scenario,
        settings,
        first: words.keys.first,
        count: words.keys.count,
    };
    match sweep(rt, alloc, &task, jobs_of(rt, words), progress) {
        Ok(rows) => Ok(rows),
        // Each step is one, and a group of a scenario's size is made, unless there is no memory.
        Err(_) => Err(Fault::NoMemory),
    }
}

// On how many threads the runs are played.
fn jobs_of<R: Threads>(rt: &R, words: SweepWords) -> usize
    ensures said { IfSome words.jobs (λ jobs. result ≡ jobs) }
    ensures unsaid { IfNone words.jobs (1 ≤ result × result ≤ MOST) }
{
    match words.jobs {
        Some(jobs) => usize::from(jobs),
        None => match available_parallelism(rt) {
            Ok(count) => count.get().min(MOST),
            Err(_) => 1,
        },
    }
}

// A scenario's settings, but for what the words say in their place.
fn settings_under<'a>(scenario: &Scenario, words: SweepWords) -> Result<Settings, Fault<'a>>
    ensures ok { IfOk result (IsUnder scenario.now.settings words) }
    ensures refused { IfErr result (AreTooMany (settings_under scenario.now.settings words)) }
    ensures of_run { IfErr result IsOfRun }
{
    let own = scenario.settings;
    let drop = words.drop.unwrap_or(own.drop);
    let repeat = words.repeat.unwrap_or(own.repeat);
    if 100 < drop || 100 - drop < repeat {
        return Err(Fault::Percentages(drop, repeat));
    }
    Ok(Settings {
        drop,
        repeat,
        ..own
    })
}

// Says what the runs come to.
fn show_summary<'a, W: Write>(
    alloc: Global,
    out: &mut W,
    settings: Settings,
    rows: &[Row],
) -> Result<(), Fault<'a>>
    ensures told { OnOk result (ShowsRows false settings rows.now
        (W.contents out.old) (W.contents out.new)) }
    ensures past { IfErr result IsPastReading }
    ensures of_run { IfErr result IsOfRun }
{
    let Some(summary) = summary_of(alloc, rows)? else {
        return Ok(());
    };
    let text = summary_text(alloc, settings, &summary)?;
    show(out, text.as_str())
}

// Prints a text.
pub(crate) fn show<'a, W: Write>(out: &mut W, text: &str) -> Result<(), Fault<'a>>
    ensures text { OnOk result
        (Appends (W.contents out.old) (W.contents out.new) text.now) }
    ensures fault { IfErr result MayStopPrinting }
    ensures past { IfErr result IsPastReading }
    ensures of_run { IfErr result IsOfRun }
{
    said(write!(out, "{text}"))?;
    said(out.flush())
}
