//! The whole program, over files and streams that are handed in.
ghost use Rattle.std.specs.Prelude.{◌≡◌, ◌≢◌, ◌≤◌, ◌⊎◌, ℕ, [], IfErr, IfOk, List, OnOk, Option, map};
ghost use Rattle.std.specs.Io.KnownBytes.{Appends};
ghost use Rattle.sim_args.specs.Words.{AskFor, AskForPlay, AskForThreads, IsPlay, IsThreads, words_fault};
ghost use Rattle.sim_args.specs.declared.command.CommandLine.{CommandLine};
ghost use Rattle.sim_files.specs.Faults.{IsStatus};
ghost use Rattle.runner.specs.Faults.{IsExit};
ghost use Rattle.runner.specs.Told.{Tells, TellsFor};
ghost use Rattle.sim_files.specs.Faults.{IsOfRun};
ghost use Rattle.runner.specs.Inner.Faults.{IsFound};
ghost use Rattle.runner.specs.Inner.Helps.{help_at, help_line, scenario_help, second_word};
ghost use Rattle.sim_files.specs.declared.fault.Fault.TheVariants.{Output};

use crate::checks::check;
use crate::drawing::draw_file;
use crate::expanding::expand_file;
use crate::recovering::recover_file;
use crate::seeing::{inspect_file, tell_file};
use crate::sweeping::sweep_file;
use crate::threads::threads_file;
use clap::error::ErrorKind;
use sim_args::command::{CommandLine, command};
use sim_files::fault::Fault;
use sim_files::replaying::replay_file;
use sim_files::running::run_file;
use sim_files::shelf::Shelf;
use sim_sweep::sweeping::Progress;
use std::alloc::Global;
use std::io::{self, Write};
use std::sync::Wait;
use std::thread::Threads;

/// Runs the program on the words of its command line, of which the first is its own name, and
/// answers its exit status: 0 where every step was taken, 1 where one was refused, 2 for a bad
/// command line, a bad file, or an output that failed, 3 where there was no memory. What is said is
/// flushed before the status is answered.
/// - `told`: at status 0 and 1 the words ask for help, or what they ask for is told: of `run`,
///   `threads` and `replay` what was refused, which is nothing just at status 0, and then how the
///   group stands.
/// - `quiet`: at status 0 and 1 the standard error is told nothing, but under `threads` how many
///   messages were lost.
///
/// Where the standard error is a terminal, one more line there helps behind a bad scenario or
/// transcript.
///
/// `sweep` tells `progress` how far it is, and nothing else does.
///
/// Under `threads` it starts threads and waits for them, so that its return is not claimed.
pub fn nomadsim<'a, R, F: Shelf, W: Write, E: Write, P: Progress + Sync>(
    rt: R,
    alloc: Global,
    words: &'a [&'a str],
    shelf: &mut F,
    out: &mut W,
    err: &mut E,
    at_terminal: bool,
    progress: &P,
) -> u8
where
    R: Threads + Wait + Copy + Send + Sync + 'static,
    ensures most { result ≤ 3 }
    ensures exit { IsExit (words_fault (map (λ w. w.now) words.entry.now)) result }
    ensures told { result ≤ 1 → TellsFor (map (λ w. w.now) words.entry.now) (F.file shelf.old)
        (F.file shelf.new) result (W.contents out.old) (W.contents out.new) }
    ensures quiet { result ≤ 1 → (err.new ≡ err.old)
        ⊎ AskForThreads (map (λ w. w.now) words.entry.now) }
    ensures played { result ≡ 1 → AskForPlay (map (λ w. w.now) words.entry.now) }
    ensures unread { words_fault (map (λ w. w.now) words.entry.now) ≢ [] → shelf.new ≡ shelf.old }
{
    match run(rt, alloc, words, shelf, out, err, progress) {
        Ok(status) => status,
        Err(fault) => report(&fault, words, out, err, at_terminal),
    }
}

// Help goes to the standard output, and a fault to the standard error, after what was said before
// it; a failed output is not told.
fn report<W: Write, E: Write>(
    fault: &Fault<'_>,
    words: &[&str],
    out: &mut W,
    err: &mut E,
    at_terminal: bool,
) -> u8
    ensures most { result ≤ 3 }
    ensures status { (result ≡ 2) ⊎ IsStatus fault.now result }
    ensures faulty { result ≢ 1 }
    ensures quiet { result ≤ 1 → err.new ≡ err.old }
    ensures unsaid { fault.now ≡ Output → err.new ≡ err.old }
{
    let status = fault.status();
    if status == 0 && write!(out, "{fault}").is_err() {
        return 2;
    }
    if out.flush().is_err() || matches!(fault, Fault::Output) {
        return 2;
    }
    if status != 0 {
        // Where the standard error fails too, the status still says what went wrong.
        let _ = tell_fault(fault, words, err, at_terminal);
    }
    status
}

// Tells a fault; and at a terminal, behind it, what helps to mend the file.
fn tell_fault<E: Write>(
    fault: &Fault<'_>,
    words: &[&str],
    err: &mut E,
    at_terminal: bool,
) -> io::Result<()>
    ensures { OnOk result ((between : Option (List ℕ)) × Appends between (E.contents err.new)
        (help_at at_terminal (map (λ w. w.now) words.now) fault.now)) }
{
    write!(err, "{fault}")?;
    tell_help_at(at_terminal, fault, words, err)?;
    err.flush()
}

// Tells at a terminal what helps to mend the file, and else nothing.
fn tell_help_at<E: Write>(
    at_terminal: bool,
    fault: &Fault<'_>,
    words: &[&str],
    err: &mut E,
) -> io::Result<()>
    ensures { OnOk result (Appends (E.contents err.old) (E.contents err.new)
        (help_at at_terminal (map (λ w. w.now) words.now) fault.now)) }
{
    if at_terminal {
        return tell_help(fault, words, err);
    }
    Ok(())
}

// Tells what helps to mend a file that is at fault, if it is one.
fn tell_help<E: Write>(fault: &Fault<'_>, words: &[&str], err: &mut E) -> io::Result<()>
    ensures { OnOk result (Appends (E.contents err.old) (E.contents err.new)
        (help_line (map (λ w. w.now) words.now) fault.now)) }
{
    match fault {
        Fault::BadScenario => write!(err, "{}", scenario_help(words)),
        Fault::BadTranscript(_, hint) => writeln!(err, "{hint}"),
        _ => Ok(()),
    }
}

// Which command says what is wrong with a scenario; nothing where it has just been said.
fn scenario_help(words: &[&str]) -> &'static str
    ensures { result.now ≡ scenario_help (map (λ w. w.now) words.now) }
{
    match command_of(words) {
        "check" => "",
        "expand" => "try 'nomadsim check FILE --short'\n",
        _ => "try 'nomadsim check FILE'\n",
    }
}

// The word behind the program's name.
fn command_of<'a>(words: &[&'a str]) -> &'a str
    ensures { result.now ≡ second_word (map (λ w. w.now) words.now) }
{
    match words {
        [_, command, ..] => command,
        _ => "",
    }
}

fn run<'a, R, F: Shelf, W: Write, E: Write, P: Progress + Sync>(
    rt: R,
    alloc: Global,
    words: &'a [&'a str],
    shelf: &mut F,
    out: &mut W,
    err: &mut E,
    progress: &P,
) -> Result<u8, Fault<'a>>
where
    R: Threads + Wait + Copy + Send + Sync + 'static,
    ensures ok { IfOk result (λ status. (status ≤ 1)
        × (words_fault (map (λ w. w.now) words.entry.now) ≡ [])) }
    ensures err { IfErr result (IsFound (words_fault (map (λ w. w.now) words.entry.now))) }
    ensures told { IfOk result (λ status. TellsFor (map (λ w. w.now) words.entry.now)
        (F.file shelf.old) (F.file shelf.new) status (W.contents out.old) (W.contents out.new)) }
    ensures played { IfOk result (λ status. status ≡ 1
        → AskForPlay (map (λ w. w.now) words.entry.now)) }
    ensures quiet { (err.new ≡ err.old) ⊎ AskForThreads (map (λ w. w.now) words.entry.now) }
    ensures unread { words_fault (map (λ w. w.now) words.entry.now) ≢ [] → shelf.new ≡ shelf.old }
{
    match command(alloc, words) {
        Ok(line) => obey(rt, alloc, line, shelf, out, err, progress),
        Err(error) if error.kind() == ErrorKind::OutOfMemory => Err(Fault::NoMemory),
        Err(error) => Err(Fault::CommandLine(error)),
    }
}

// Does what the command line asks for.
fn obey<'a, R, F: Shelf, W: Write, E: Write, P: Progress + Sync>(
    rt: R,
    alloc: Global,
    line: CommandLine<'a>,
    shelf: &mut F,
    out: &mut W,
    err: &mut E,
    progress: &P,
) -> Result<u8, Fault<'a>>
where
    R: Threads + Wait + Copy + Send + Sync + 'static,
    ensures ok { IfOk result (λ status. status ≤ 1) }
    ensures told { IfOk result (λ status. Tells (F.file shelf.old) (F.file shelf.new) line.entry
        status (W.contents out.old) (W.contents out.new)) }
    ensures played { IfOk result (λ status. status ≡ 1 → IsPlay line.entry) }
    ensures of_run { IfErr result IsOfRun }
    ensures quiet { (err.new ≡ err.old) ⊎ IsThreads line.entry }
{
    match line {
        CommandLine::Run { file, out: to } => run_file(alloc, shelf, out, file, to),
        CommandLine::Threads {
            file,
            workers,
            out: to,
        } => threads_file(rt, alloc, shelf, out, err, file, workers, to),
        CommandLine::Replay { file } => replay_file(alloc, shelf, out, file),
        CommandLine::Draw { file, html } => draw_file(alloc, shelf, out, file, html),
        CommandLine::Check { file, short } => check(alloc, shelf, out, file, short),
        CommandLine::Tell { file } => tell_file(alloc, shelf, out, file),
        CommandLine::Inspect { file, at, json } => {
            inspect_file(alloc, shelf, out, file, at, json)
        }
        CommandLine::Recover { file, at, every } => {
            recover_file(alloc, shelf, out, file, at, every)
        }
        CommandLine::Expand { file } => expand_file(alloc, shelf, out, file),
        CommandLine::Sweep { file, words } => {
            sweep_file(&rt, alloc, shelf, out, progress, file, words)
        }
    }
}
