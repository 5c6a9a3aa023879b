//! The command line.
ghost use Rattle.std.specs.Prelude.{◌≡◌, ◌⊎◌, true, false, IfOk, IfErr, IfSome, IfNone, Some, map, codes, option_map};
ghost use Rattle.clap.specs.Words.{App, FailsBy, Rule, app_of, first_of, found_of, kind_of, rows_of, rule_of, subcommand_rows_of, with_rule, with_subcommand};
ghost use Rattle.clap.specs.declared.builder.command.Command.TheViews.{out-Command};
ghost use Rattle.clap.specs.declared.error.kind.ErrorKind.TheVariants.{OutOfMemory, ValueValidation};
ghost use Rattle.sim_args.specs.Inner.Commands.{IsMade};
ghost use Rattle.sim_args.specs.Inner.Lines.{complaint_text, is_line, is_taken};
ghost use Rattle.sim_args.specs.Words.{AreSweepWords, AreWorkers, AskFor, IsNamedLine, IsLineFor, app_with, are_sweep_words, are_workers, at_option, bare_app, check_app, csv_flag, draw_app, every_option, expand_app, html_flag, inspect_app, jobs_option, json_flag, keys_app, keys_option, nomadsim_app, out_option, percent_option, percents_app, recover_app, replay_app, required_word, run_app, says_yes, short_flag, sweep_app, tell_app, threads_app, words_fault, workers_option};

use crate::help::{
    ABOUT, CHECKS, DRAWS, ENDS, EXPANDS, INSPECTS, NO_COUNT, NO_KEYS, NO_NUMBER, RECOVERS, REPLAYS,
    SCENARIO, SHORT, STEPS, SWEEPS, TELLS, THREADS, TRANSCRIPT, VERSION,
};
use crate::numbers::{keys_of, number_given};
use clap::builder::ValueParser;
use clap::error::ErrorKind;
use clap::{Arg, ArgAction, ArgMatches, Command, Error};
use std::alloc::Global;

/// Keys that follow each other.
#[derive(Clone, Copy)]
pub struct KeyRange {
    /// The first one.
    pub first: u64,
    /// How many there are, 1 to 1,000,000.
    pub count: u32,
}

/// How the same scenario is played under many keys.
#[derive(Clone, Copy)]
pub struct SweepWords {
    /// The keys.
    pub keys: KeyRange,
    /// How many of a hundred messages are lost, 0 to 100, where the words say so.
    pub drop: Option<u8>,
    /// How many of a hundred messages come again, 0 to 100, where the words say so.
    pub repeat: Option<u8>,
    /// How many threads play, 1 to 64, where the words say so.
    pub jobs: Option<u8>,
    /// Whether a line for each key is wanted.
    pub csv: bool,
}

/// What the words of a command line ask for. Names of files are as they were given.
#[derive(Clone, Copy)]
pub enum CommandLine<'a> {
    /// `run FILE [--out T]`: the scenario in that file is played.
    Run {
        /// The scenario's file, `-` for the standard input.
        file: &'a str,
        /// The file that gets the transcript, where one is to be written.
        out: Option<&'a str>,
    },
    /// `threads FILE [--workers N] [--out T]`: the scenario in that file is played on threads.
    Threads {
        /// The scenario's file, `-` for the standard input.
        file: &'a str,
        /// How many workers each server has, from 1 to 8; 2 where the words don't say.
        workers: u8,
        /// The file that gets the transcript, where one is to be written.
        out: Option<&'a str>,
    },
    /// `replay T`: the events of a transcript are taken once more.
    Replay {
        /// The transcript's file, `-` for the standard input.
        file: &'a str,
    },
    /// `draw T [--html]`: a transcript is drawn.
    Draw {
        /// The transcript's file, `-` for the standard input.
        file: &'a str,
        /// Whether as a page, with how the group stands beside the picture.
        html: bool,
    },
    /// `check FILE [--short]`: what is wrong with the scenario in that file is said, and it is not
    /// played.
    Check {
        /// The scenario's file, `-` for the standard input.
        file: &'a str,
        /// Whether it is one in short form.
        short: bool,
    },
    /// `tell T`: what each event of a transcript did is told.
    Tell {
        /// The transcript's file, `-` for the standard input.
        file: &'a str,
    },
    /// `inspect T [--at K] [--json]`: how the group of a transcript stands after some events is
    /// told.
    Inspect {
        /// The transcript's file, `-` for the standard input.
        file: &'a str,
        /// After how many events, as it was given; after all where the words don't say.
        at: Option<&'a str>,
        /// Whether as JSON.
        json: bool,
    },
    /// `recover T [--at K] [--every N]`: what brings the group of a transcript back after some
    /// events is told.
    Recover {
        /// The transcript's file, `-` for the standard input.
        file: &'a str,
        /// After how many events, as it was given; after all where the words don't say.
        at: Option<&'a str>,
        /// Where it is told of many moments, how many events lie between them, as it was given.
        every: Option<&'a str>,
    },
    /// `expand FILE`: the plain form of a scenario in short form is printed.
    Expand {
        /// The short scenario's file, `-` for the standard input.
        file: &'a str,
    },
    /// `sweep FILE --keys A..B [--drop P] [--repeat P] [--jobs N] [--csv]`: the scenario in that
    /// file is played under many keys.
    Sweep {
        /// The scenario's file, `-` for the standard input.
        file: &'a str,
        /// Under which keys, and how.
        words: SweepWords,
    },
}

// A word that has to be there.
fn needed<'a>(alloc: Global, id: &'a str, help: &'a str) -> Arg<'a>
    ensures rule { rule_of result ≡ required_word id.now }
    ensures local { result.global ≡ false }
{
    Arg::new(alloc, id).help(help).required(true)
}

fn out_arg<'a>(alloc: Global) -> Arg<'a>
    ensures rule { rule_of result ≡ out_option }
    ensures local { result.global ≡ false }
{
    Arg::new(alloc, "out")
        .long("out")
        .value_name("T")
        .help("The file that gets a transcript of what happened")
}

// A number that `clap` reads may have a sign or zeros in front; `workers_of` takes none of these.
fn workers_arg<'a>(alloc: Global) -> Arg<'a>
    ensures rule { rule_of result ≡ workers_option }
    ensures local { result.global ≡ false }
{
    Arg::new(alloc, "workers")
        .long("workers")
        .value_name("N")
        .help("How many workers each server has, from 1 to 8")
        .value_parser(ValueParser::unsigned(1, 8))
        .default_value("2")
}

fn at_arg<'a>(alloc: Global) -> Arg<'a>
    ensures rule { rule_of result ≡ at_option }
    ensures local { result.global ≡ false }
{
    Arg::new(alloc, "at").long("at").value_name("K").help(
        "After how many events, from 0; after all where it is left out",
    )
}

fn every_arg<'a>(alloc: Global) -> Arg<'a>
    ensures rule { rule_of result ≡ every_option }
    ensures local { result.global ≡ false }
{
    Arg::new(alloc, "every").long("every").value_name("N").help(
        "Tells of each N-th moment, from the first on, and of the last",
    )
}

fn html_arg<'a>(alloc: Global) -> Arg<'a>
    ensures rule { rule_of result ≡ html_flag }
    ensures local { result.global ≡ false }
{
    Arg::new(alloc, "html")
        .long("html")
        .action(ArgAction::SetTrue)
        .help("Prints a page that also tells how the group stands")
}

fn short_arg<'a>(alloc: Global) -> Arg<'a>
    ensures rule { rule_of result ≡ short_flag }
    ensures local { result.global ≡ false }
{
    Arg::new(alloc, "short")
        .long("short")
        .action(ArgAction::SetTrue)
        .help("The file is one in short form, as 'nomadsim expand' takes it")
}

fn json_arg<'a>(alloc: Global) -> Arg<'a>
    ensures rule { rule_of result ≡ json_flag }
    ensures local { result.global ≡ false }
{
    Arg::new(alloc, "json")
        .long("json")
        .action(ArgAction::SetTrue)
        .help("Prints one JSON object")
}

// A subcommand of this name, with the word that it needs.
fn begun<'a>(
    alloc: Global,
    name: &'a str,
    about: &'a str,
    after_help: &'a str,
    id: &'a str,
    help: &'a str,
) -> Result<Command<'a>, Error>
    ensures { IsMade (app_with name.now id.now) result }
{
    let command = Command::new(alloc, name)
        .about(about)
        .after_help(after_help);
    with_arg(Ok(command), needed(alloc, id, help))
}

// The command with one more argument, the last, where it could be made. Its callers have no `?`: a
// check of one is dear where a `Command` is at hand.
fn with_arg<'a>(command: Result<Command<'a>, Error>, arg: Arg<'a>) -> Result<Command<'a>, Error>
    ensures { (app : App) (rule : Rule) → IsMade app command.entry → rule_of arg.entry ≡ rule
        → arg.entry.global ≡ false → IsMade (with_rule app rule) result }
{
    let command = command?.arg(arg)?;
    Ok(command)
}

fn run_command<'a>(alloc: Global) -> Result<Command<'a>, Error>
    ensures { IsMade run_app result }
{
    let command = begun(
        alloc,
        "run",
        "Plays a scenario, and says how it ends",
        STEPS,
        "FILE",
        SCENARIO,
    );
    with_arg(command, out_arg(alloc))
}

fn threads_command<'a>(alloc: Global) -> Result<Command<'a>, Error>
    ensures { IsMade threads_app result }
{
    let command = begun(
        alloc,
        "threads",
        "Plays a scenario on threads, and says how it ends",
        THREADS,
        "FILE",
        SCENARIO,
    );
    let command = with_arg(command, workers_arg(alloc));
    with_arg(command, out_arg(alloc))
}

fn replay_command<'a>(alloc: Global) -> Result<Command<'a>, Error>
    ensures { IsMade replay_app result }
{
    begun(
        alloc,
        "replay",
        "Plays a transcript once more, and says how it ends",
        REPLAYS,
        "T",
        TRANSCRIPT,
    )
}

fn draw_command<'a>(alloc: Global) -> Result<Command<'a>, Error>
    ensures { IsMade draw_app result }
{
    let command = begun(
        alloc,
        "draw",
        "Draws a transcript, as an SVG or as a page",
        DRAWS,
        "T",
        TRANSCRIPT,
    );
    with_arg(command, html_arg(alloc))
}

fn check_command<'a>(alloc: Global) -> Result<Command<'a>, Error>
    ensures { IsMade check_app result }
{
    let command = begun(
        alloc,
        "check",
        "Says what is wrong with a scenario, without playing it",
        CHECKS,
        "FILE",
        SCENARIO,
    );
    with_arg(command, short_arg(alloc))
}

fn tell_command<'a>(alloc: Global) -> Result<Command<'a>, Error>
    ensures { IsMade tell_app result }
{
    begun(
        alloc,
        "tell",
        "Tells what each event of a transcript did, a line an event",
        TELLS,
        "T",
        TRANSCRIPT,
    )
}

fn inspect_command<'a>(alloc: Global) -> Result<Command<'a>, Error>
    ensures { IsMade inspect_app result }
{
    let command = begun(
        alloc,
        "inspect",
        "Says how the group of a transcript stands after some events",
        INSPECTS,
        "T",
        TRANSCRIPT,
    );
    let command = with_arg(command, at_arg(alloc));
    with_arg(command, json_arg(alloc))
}

fn recover_command<'a>(alloc: Global) -> Result<Command<'a>, Error>
    ensures { IsMade recover_app result }
{
    let command = begun(
        alloc,
        "recover",
        "Says what brings the group of a transcript back after some events",
        RECOVERS,
        "T",
        TRANSCRIPT,
    );
    let command = with_arg(command, at_arg(alloc));
    with_arg(command, every_arg(alloc))
}

fn expand_command<'a>(alloc: Global) -> Result<Command<'a>, Error>
    ensures { IsMade expand_app result }
{
    begun(
        alloc,
        "expand",
        "Prints the plain form of a scenario in short form",
        EXPANDS,
        "FILE",
        SHORT,
    )
}

fn keys_arg<'a>(alloc: Global) -> Arg<'a>
    ensures rule { rule_of result ≡ keys_option }
    ensures local { result.global ≡ false }
{
    Arg::new(alloc, "keys")
        .long("keys")
        .value_name("A..B")
        .help("The keys, from A to B")
        .required(true)
}

// A percentage that may be left out.
fn percent_arg<'a>(alloc: Global, id: &'a str, help: &'a str) -> Arg<'a>
    ensures rule { rule_of result ≡ percent_option id.now }
    ensures local { result.global ≡ false }
{
    Arg::new(alloc, id)
        .long(id)
        .value_name("P")
        .help(help)
        .value_parser(ValueParser::unsigned(0, 100))
}

fn jobs_arg<'a>(alloc: Global) -> Arg<'a>
    ensures rule { rule_of result ≡ jobs_option }
    ensures local { result.global ≡ false }
{
    Arg::new(alloc, "jobs")
        .long("jobs")
        .value_name("N")
        .help("How many threads play, from 1 to 64")
        .value_parser(ValueParser::unsigned(1, 64))
}

fn csv_arg<'a>(alloc: Global) -> Arg<'a>
    ensures rule { rule_of result ≡ csv_flag }
    ensures local { result.global ≡ false }
{
    Arg::new(alloc, "csv")
        .long("csv")
        .help("A line for each key")
        .action(ArgAction::SetTrue)
}

// A sweep with its file and its keys.
fn keys_command<'a>(alloc: Global) -> Result<Command<'a>, Error>
    ensures { IsMade keys_app result }
{
    let command = begun(
        alloc,
        "sweep",
        "Plays a scenario under many keys, and says how the runs end",
        SWEEPS,
        "FILE",
        SCENARIO,
    );
    with_arg(command, keys_arg(alloc))
}

// And with its percentages.
fn percents_command<'a>(alloc: Global) -> Result<Command<'a>, Error>
    ensures { IsMade percents_app result }
{
    let drop = percent_arg(alloc, "drop", "How many of a hundred messages are lost");
    let repeat = percent_arg(alloc, "repeat", "How many of a hundred messages come again");
    let command = with_arg(keys_command(alloc), drop);
    with_arg(command, repeat)
}

fn sweep_command<'a>(alloc: Global) -> Result<Command<'a>, Error>
    ensures { IsMade sweep_app result }
{
    let command = with_arg(percents_command(alloc), jobs_arg(alloc));
    with_arg(command, csv_arg(alloc))
}

// The program without its subcommands.
fn bare<'a>(alloc: Global) -> Command<'a>
    ensures app { app_of result ≡ bare_app }
    ensures local { (out-Command result).has_globals ≡ false }
{
    Command::new(alloc, "nomadsim")
        .version(VERSION)
        .about(ABOUT)
        .after_help(ENDS)
        .subcommand_required(true)
}

// The same, with one more subcommand, where both could be made.
fn with_part<'a>(
    program: Result<Command<'a>, Error>,
    part: Result<Command<'a>, Error>,
) -> Result<Command<'a>, Error>
    ensures { (app part_app : App) → IsMade app program.entry → IsMade part_app part.entry
        → IsMade (with_subcommand app part_app.top) result }
{
    let part = part?;
    let program = program?.subcommand(part)?;
    Ok(program)
}

fn program<'a>(alloc: Global) -> Result<Command<'a>, Error>
    ensures { IsMade nomadsim_app result }
{
    let whole = Ok(bare(alloc));
    let whole = with_part(whole, run_command(alloc));
    let whole = with_part(whole, threads_command(alloc));
    let whole = with_part(whole, replay_command(alloc));
    let whole = with_part(whole, draw_command(alloc));
    let whole = with_part(whole, check_command(alloc));
    let whole = with_part(whole, tell_command(alloc));
    let whole = with_part(whole, inspect_command(alloc));
    let whole = with_part(whole, recover_command(alloc));
    let whole = with_part(whole, expand_command(alloc));
    let whole = with_part(whole, sweep_command(alloc));
    whole
}

// The first value of the argument of this name.
fn value_of<'a>(given: &ArgMatches<'a>, id: &str) -> Option<&'a str>
    ensures { option_map (λ s. s.now) result ≡ first_of id.now (rows_of (found_of given.now)) }
{
    given.get_str(id)
}

fn run_line<'a>(given: &ArgMatches<'a>) -> Option<CommandLine<'a>>
    ensures some { IfSome result (IsLineFor (codes "run") (rows_of (found_of given.now))) }
    ensures none { IfNone result (is_line (Some (codes "run", rows_of (found_of given.now)))
        ≡ false) }
{
    let file = value_of(given, "FILE")?;
    let out = value_of(given, "out");
    Some(CommandLine::Run { file, out })
}

// The number of workers that a word says: one digit, from 1 to 8.
fn workers_of(word: &str) -> Option<u8>
    ensures some { IfSome result (AreWorkers word.now) }
    ensures none { IfNone result (are_workers word.now ≡ false) }
{
    match word.as_bytes() {
        [digit @ b'1'..=b'8'] => Some(*digit - b'0'),
        _ => None,
    }
}

fn threads_line<'a>(given: &ArgMatches<'a>) -> Option<CommandLine<'a>>
    ensures some { IfSome result (IsLineFor (codes "threads") (rows_of (found_of given.now))) }
    ensures none { IfNone result
        (is_taken (Some (codes "threads", rows_of (found_of given.now))) ≡ false) }
{
    let file = value_of(given, "FILE")?;
    let workers = workers_of(value_of(given, "workers")?)?;
    let out = value_of(given, "out");
    Some(CommandLine::Threads { file, workers, out })
}

fn replay_line<'a>(given: &ArgMatches<'a>) -> Option<CommandLine<'a>>
    ensures some { IfSome result (IsLineFor (codes "replay") (rows_of (found_of given.now))) }
    ensures none { IfNone result (is_line (Some (codes "replay", rows_of (found_of given.now)))
        ≡ false) }
{
    let file = value_of(given, "T")?;
    Some(CommandLine::Replay { file })
}

fn draw_line<'a>(given: &ArgMatches<'a>) -> Option<CommandLine<'a>>
    ensures some { IfSome result (IsLineFor (codes "draw") (rows_of (found_of given.now))) }
    ensures none { IfNone result (is_line (Some (codes "draw", rows_of (found_of given.now)))
        ≡ false) }
{
    let file = value_of(given, "T")?;
    let html = says_yes(value_of(given, "html"));
    Some(CommandLine::Draw { file, html })
}

fn check_line<'a>(given: &ArgMatches<'a>) -> Option<CommandLine<'a>>
    ensures some { IfSome result (IsLineFor (codes "check") (rows_of (found_of given.now))) }
    ensures none { IfNone result (is_line (Some (codes "check", rows_of (found_of given.now)))
        ≡ false) }
{
    let file = value_of(given, "FILE")?;
    let short = says_yes(value_of(given, "short"));
    Some(CommandLine::Check { file, short })
}

fn tell_line<'a>(given: &ArgMatches<'a>) -> Option<CommandLine<'a>>
    ensures some { IfSome result (IsLineFor (codes "tell") (rows_of (found_of given.now))) }
    ensures none { IfNone result (is_line (Some (codes "tell", rows_of (found_of given.now)))
        ≡ false) }
{
    let file = value_of(given, "T")?;
    Some(CommandLine::Tell { file })
}

// Whether a flag's value is that it was given.
fn says_yes(value: Option<&str>) -> bool
    ensures { result ≡ says_yes (option_map (λ v. v.now) value.entry) }
{
    match value {
        Some(word) => word == "true",
        None => false,
    }
}

fn inspect_line<'a>(given: &ArgMatches<'a>) -> Option<CommandLine<'a>>
    ensures some { IfSome result (IsLineFor (codes "inspect") (rows_of (found_of given.now))) }
    ensures none { IfNone result (is_line (Some (codes "inspect", rows_of (found_of given.now)))
        ≡ false) }
{
    let file = value_of(given, "T")?;
    let at = value_of(given, "at");
    let json = says_yes(value_of(given, "json"));
    Some(CommandLine::Inspect { file, at, json })
}

fn recover_line<'a>(given: &ArgMatches<'a>) -> Option<CommandLine<'a>>
    ensures some { IfSome result (IsLineFor (codes "recover") (rows_of (found_of given.now))) }
    ensures none { IfNone result (is_line (Some (codes "recover", rows_of (found_of given.now)))
        ≡ false) }
{
    let file = value_of(given, "T")?;
    let at = value_of(given, "at");
    let every = value_of(given, "every");
    Some(CommandLine::Recover { file, at, every })
}

fn expand_line<'a>(given: &ArgMatches<'a>) -> Option<CommandLine<'a>>
    ensures some { IfSome result (IsLineFor (codes "expand") (rows_of (found_of given.now))) }
    ensures none { IfNone result (is_line (Some (codes "expand", rows_of (found_of given.now)))
        ≡ false) }
{
    let file = value_of(given, "FILE")?;
    Some(CommandLine::Expand { file })
}

fn sweep_line<'a>(given: &ArgMatches<'a>) -> Option<CommandLine<'a>>
    ensures some { IfSome result (IsLineFor (codes "sweep") (rows_of (found_of given.now))) }
    ensures none { IfNone result
        (is_taken (Some (codes "sweep", rows_of (found_of given.now))) ≡ false) }
{
    let file = value_of(given, "FILE")?;
    let words = sweep_words(given)?;
    Some(CommandLine::Sweep { file, words })
}

// What the words say of a sweep.
fn sweep_words(given: &ArgMatches<'_>) -> Option<SweepWords>
    ensures some { IfSome result (AreSweepWords (rows_of (found_of given.now))) }
    ensures none { IfNone result (are_sweep_words (rows_of (found_of given.now)) ≡ false) }
{
    let keys = keys_of(value_of(given, "keys")?)?;
    let drop = number_given(value_of(given, "drop"), 0, 100)?;
    let repeat = number_given(value_of(given, "repeat"), 0, 100)?;
    let jobs = number_given(value_of(given, "jobs"), 1, 64)?;
    let csv = given.get_flag("csv");
    Some(SweepWords {
        keys,
        drop,
        repeat,
        jobs,
        csv,
    })
}

fn line_of<'a>(matches: &ArgMatches<'a>) -> Option<CommandLine<'a>>
    ensures some { IfSome result (IsNamedLine (subcommand_rows_of matches.now)) }
    ensures none { IfNone result (is_taken (subcommand_rows_of matches.now) ≡ false) }
{
    let (name, given) = matches.subcommand()?;
    match name {
        "run" => run_line(given),
        "threads" => threads_line(given),
        "replay" => replay_line(given),
        "draw" => draw_line(given),
        "check" => check_line(given),
        "tell" => tell_line(given),
        "inspect" => inspect_line(given),
        "recover" => recover_line(given),
        "expand" => expand_line(given),
        "sweep" => sweep_line(given),
        _ => None,
    }
}

// What is told where the words have no fault for `clap`, and ask for no line.
fn complaint(matches: &ArgMatches<'_>) -> &'static str
    ensures { result.now ≡ complaint_text (subcommand_rows_of matches.now) }
{
    let Some(("sweep", given)) = matches.subcommand() else {
        return NO_COUNT;
    };
    match value_of(given, "keys") {
        Some(keys) if keys_of(keys).is_some() => NO_NUMBER,
        _ => NO_KEYS,
    }
}

// The subcommand alone whose words the complaint is of, so that the usage that is shown is its own.
fn complained<'a>(alloc: Global, matches: &ArgMatches<'_>) -> Result<Command<'a>, Error>
    ensures { IfErr result (λ e. kind_of e ≡ OutOfMemory) }
{
    match matches.subcommand() {
        Some(("sweep", _)) => under_name(sweep_command(alloc), "nomadsim sweep"),
        _ => under_name(threads_command(alloc), "nomadsim threads"),
    }
}

// The command, whose usage begins with this name.
fn under_name<'a>(command: Result<Command<'a>, Error>, name: &str) -> Result<Command<'a>, Error>
    ensures { IfErr command.entry (λ e. kind_of e ≡ OutOfMemory)
        → IfErr result (λ e. kind_of e ≡ OutOfMemory) }
{
    let command = command?.bin_name(name)?;
    Ok(command)
}

// What is told of words that ask for no line.
fn word_error(alloc: Global, matches: &ArgMatches<'_>) -> Result<Error, Error>
    ensures ok { IfOk result (λ e. kind_of e ≡ ValueValidation) }
    ensures memory { IfErr result (λ e. kind_of e ≡ OutOfMemory) }
{
    let mut command = complained(alloc, matches)?;
    let error = command.error(ErrorKind::ValueValidation, complaint(matches))?;
    Ok(error)
}

// The line that these matches name, or the error that it is none.
fn line_or_error<'a>(alloc: Global, matches: &ArgMatches<'a>) -> Result<CommandLine<'a>, Error>
    ensures ok { IfOk result (IsNamedLine (subcommand_rows_of matches.now)) }
    ensures untaken { IfErr result (λ e. is_taken (subcommand_rows_of matches.now) ≡ false) }
    ensures kind { IfErr result (λ e. (kind_of e ≡ OutOfMemory) ⊎ (kind_of e ≡ ValueValidation)) }
{
    match line_of(matches) {
        Some(line) => Ok(line),
        None => Err(word_error(alloc, matches)?),
    }
}

// What the words ask for, by the program's own command.
fn line_by<'a>(
    alloc: Global,
    program: &mut Command<'a>,
    words: &'a [&'a str],
) -> Result<CommandLine<'a>, Error>
    ensures named { app_of program.old ≡ nomadsim_app
        → IfOk result (AskFor (map (λ w. w.now) words.entry.now)) }
    ensures faults { app_of program.old ≡ nomadsim_app
        → FailsBy (words_fault (map (λ w. w.now) words.entry.now)) result }
{
    let matches = program.try_get_matches_from_mut(words)?;
    line_or_error(alloc, &matches)
}

/// Reads the words of a command line, of which the first names the program. Words that ask for help
/// or for the version are an error too, of a kind of its own, whose text is the answer. A number
/// with a sign or a zero in front is an error, as one is that is out of its range, and so are keys
/// that are no range of at most 1,000,000.
pub fn command<'a>(alloc: Global, words: &'a [&'a str]) -> Result<CommandLine<'a>, Error>
    ensures named { IfOk result (AskFor (map (λ w. w.now) words.entry.now)) }
    ensures faults { FailsBy (words_fault (map (λ w. w.now) words.entry.now)) result }
{
    let mut program = program(alloc)?;
    line_by(alloc, &mut program, words)
}
