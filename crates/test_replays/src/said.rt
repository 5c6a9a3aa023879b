//! What the program says: of scenario files, of command lines, of texts that are no scenarios, and
//! where its standard output fails.
use crate::folder::{Folder, Output};
use runner::{Unseen, nomadsim};
use std::alloc::{AllocError, Global};
use std::io::Write;
use std::rt::Files;
use std::sync::Wait;
use std::thread::Threads;
use std::{fs, io};

// The text of a folder is played as a scenario.
const RUN_TEXT: &[&str] = &["nomadsim", "run", "text.json"];

// Ten keys, on one thread and on four.
const ON_ONE: &[&str] = &[
    "nomadsim",
    "sweep",
    "bad-net.json",
    "--keys",
    "14..23",
    "--csv",
    "--jobs",
    "1",
];

const ON_FOUR: &[&str] = &[
    "nomadsim",
    "sweep",
    "bad-net.json",
    "--keys",
    "14..23",
    "--csv",
    "--jobs",
    "4",
];

/// What a command line said on both outputs, and its exit status.
#[derive(Drop)]
pub(crate) struct Printed {
    pub(crate) out: Vec<u8>,
    pub(crate) err: Vec<u8>,
    pub(crate) status: u8,
}

pub(crate) fn run_words<R: Threads + Wait + Copy + Send + Sync + 'static>(
    rt: &HostRuntime,
    on: R,
    folder: &mut Folder<'_>,
    words: &[&str],
) -> Printed {
    run_to(rt, on, folder, words, usize::MAX, false)
}

/// What a command line says where the standard error is a terminal, in a folder of its own.
pub(crate) fn run_at_terminal<R: Threads + Wait + Copy + Send + Sync + 'static>(
    rt: &HostRuntime,
    on: R,
    text: &[u8],
    words: &[&str],
) -> Printed {
    run_to(rt, on, &mut Folder::new(rt, text), words, usize::MAX, true)
}

// The words of a line.
fn words_of<'a>(alloc: Global, line: &'a str) -> Result<Vec<&'a str>, AllocError> {
    line.split_whitespace().collect(alloc)
}

/// Puts bytes to the standard output.
pub(crate) fn put(rt: &HostRuntime, bytes: &[u8]) -> io::Result<()> {
    io::writer(rt).write_all(bytes)
}

/// What a command line says in a folder of its own, in which `text.json` has this text.
pub(crate) fn run_alone<R: Threads + Wait + Copy + Send + Sync + 'static>(
    rt: &HostRuntime,
    on: R,
    text: &[u8],
    words: &[&str],
) -> Printed {
    run_words(rt, on, &mut Folder::new(rt, text), words)
}

/// All bytes of the file of a name with this ending.
pub(crate) fn file_of(rt: &HostRuntime, name: &str, ending: &str) -> io::Result<Vec<u8>> {
    fs::read(rt, &format!(in rt.alloc(); "{name}.{ending}")?)
}

// What a command line says where the standard output takes so many bytes, and the standard error is
// a terminal or not.
fn run_to<R: Threads + Wait + Copy + Send + Sync + 'static>(
    rt: &HostRuntime,
    on: R,
    folder: &mut Folder<'_>,
    words: &[&str],
    left: usize,
    at_terminal: bool,
) -> Printed {
    let alloc = rt.alloc();
    let mut out = Output {
        left,
        bytes: Vec::new(alloc),
    };
    let mut err = Vec::new(alloc);
    let status = nomadsim(
        on,
        alloc,
        words,
        folder,
        &mut out,
        &mut err,
        at_terminal,
        &Unseen,
    );
    let Output { left: _, bytes } = out;
    Printed {
        out: bytes,
        err,
        status,
    }
}

// Whether this was said, and nothing on the standard error.
fn foreseen(printed: &Printed, wanted: &[u8]) -> &'static str {
    if printed.out.as_slice() == wanted && printed.err.is_empty() {
        "as foreseen"
    } else {
        "something else"
    }
}

/// What stands behind the lines of refused steps, which come first.
pub(crate) fn behind_refusals(text: &[u8]) -> &[u8] {
    let mut rest = text;
    for line in text.split(|byte| *byte == b'\n') {
        if !line.starts_with(b"refused ") {
            return rest;
        }
        rest = rest.get(line.len() + 1..).unwrap_or(&[]);
    }
    rest
}

/// Plays the scenario `NAME.json`, which has to print `NAME.stdout`, and nothing on the standard
/// error; and tells its exit status. Its transcript, played again, has to print the same but for
/// the refused steps.
pub(crate) fn replay<R: Threads + Wait + Copy + Send + Sync + 'static>(
    rt: &HostRuntime,
    on: R,
    name: &str,
) -> io::Result<()> {
    let wanted = file_of(rt, name, "stdout")?;
    let file = format!(in rt.alloc(); "{name}.json")?;
    let mut folder = Folder::new(rt, b"");
    let words = ["nomadsim", "run", file.as_str(), "--out", "transcript"];
    let played = run_words(rt, on, &mut folder, &words);
    let again = run_words(rt, on, &mut folder, &["nomadsim", "replay", "transcript"]);
    print!(rt;
        "{name}: {}, status {}",
        foreseen(&played, &wanted),
        played.status
    )?;
    let rest = behind_refusals(&wanted);
    println!(rt;
        "; again: {}, status {}",
        foreseen(&again, rest),
        again.status
    )
}

/// Plays the scenarios in `lessons`, a name a line, for their transcripts.
pub(crate) fn transcripts<R: Threads + Wait + Copy + Send + Sync + 'static>(
    rt: &HostRuntime,
    on: R,
) -> io::Result<()> {
    let names = fs::read_to_string(rt, "lessons")?;
    for name in names.lines() {
        transcript(rt, on, name)?;
    }
    Ok(())
}

// Plays the scenario `NAME.json`; its transcript has to be `NAME.transcript`.
fn transcript<R: Threads + Wait + Copy + Send + Sync + 'static>(
    rt: &HostRuntime,
    on: R,
    name: &str,
) -> io::Result<()> {
    let wanted = file_of(rt, name, "transcript")?;
    let file = format!(in rt.alloc(); "{name}.json")?;
    let mut folder = Folder::new(rt, b"");
    let words = ["nomadsim", "run", file.as_str(), "--out", "transcript"];
    let _played = run_words(rt, on, &mut folder, &words);
    let is_wanted = folder.transcript() == Some(wanted.as_slice());
    println!(rt; "transcript of {name}: {is_wanted}")
}

/// Expands the scenarios in `shorts`, a name a line.
pub(crate) fn shorts<R: Threads + Wait + Copy + Send + Sync + 'static>(
    rt: &HostRuntime,
    on: R,
) -> io::Result<()> {
    let names = fs::read_to_string(rt, "shorts")?;
    for name in names.lines() {
        short(rt, on, name)?;
    }
    Ok(())
}

// Expands the short scenario `NAME.short`; what comes, played, has to print `NAME.stdout`.
fn short<R: Threads + Wait + Copy + Send + Sync + 'static>(
    rt: &HostRuntime,
    on: R,
    name: &str,
) -> io::Result<()> {
    let wanted = file_of(rt, name, "stdout")?;
    let file = format!(in rt.alloc(); "{name}.short")?;
    let plain = run_alone(rt, on, b"", &["nomadsim", "expand", file.as_str()]);
    let played = run_alone(rt, on, &plain.out, RUN_TEXT);
    println!(rt;
        "short form of {name}: {}, status {} and {}",
        foreseen(&played, &wanted),
        plain.status,
        played.status
    )
}

/// Sweeps `bad-net` under ten keys, on one thread and on four; each row has to have the numbers of
/// the last line that `run` prints under its key.
pub(crate) fn sweeps<R: Threads + Wait + Copy + Send + Sync + 'static>(
    rt: &HostRuntime,
    on: R,
) -> io::Result<()> {
    let one = run_alone(rt, on, b"", ON_ONE);
    let four = run_alone(rt, on, b"", ON_FOUR);
    let text = fs::read_to_string(rt, "bad-net.json")?;
    let mut as_run = 0usize;
    for line in std::str::from_utf8(&one.out).unwrap_or("").lines().skip(1) {
        if is_as_run(rt, on, text.as_str(), line)? {
            as_run = as_run.saturating_add(1);
        }
    }
    let same = one.out == four.out;
    println!(rt;
        "sweep of bad-net: status {}; the same on one thread and on four, {same}; rows as run says, {as_run}",
        one.status
    )
}

// The key, the events and the messages of a row, which has eight columns.
fn numbers_of(row: &str) -> Option<(&str, &str, &str)> {
    let mut columns = row.split(',');
    let key = columns.next()?;
    for _ in 0..5 {
        columns.next()?;
    }
    let (events, messages) = (columns.next()?, columns.next()?);
    match columns.next() {
        None => Some((key, events, messages)),
        Some(_) => None,
    }
}

// The text of `bad-net` under another key than its own.
fn under_key(rt: &HostRuntime, text: &str, key: &str) -> io::Result<String> {
    let (front, back) = text.split_once("\"key\": 18").unwrap_or((text, ""));
    Ok(format!(in rt.alloc(); "{front}\"key\": {key}{back}")?)
}

// Whether `run` says of a scenario under the key of a row what the row says.
fn is_as_run<R: Threads + Wait + Copy + Send + Sync + 'static>(
    rt: &HostRuntime,
    on: R,
    text: &str,
    row: &str,
) -> io::Result<bool> {
    let Some((key, events, messages)) = numbers_of(row) else {
        return Ok(false);
    };
    let own = under_key(rt, text, key)?;
    let played = run_alone(rt, on, own.as_bytes(), RUN_TEXT);
    let wanted = format!(in rt.alloc(); "\nevents {events} messages {messages}\n")?;
    Ok(played.out.ends_with(wanted.as_bytes()))
}

/// Draws the transcripts in `pictures`, a name a line.
pub(crate) fn pictures<R: Threads + Wait + Copy + Send + Sync + 'static>(
    rt: &HostRuntime,
    on: R,
) -> io::Result<()> {
    let names = fs::read_to_string(rt, "pictures")?;
    for name in names.lines() {
        picture(rt, on, name)?;
    }
    Ok(())
}

// Draws `NAME.transcript`; what comes has to be `NAME.svg`.
fn picture<R: Threads + Wait + Copy + Send + Sync + 'static>(
    rt: &HostRuntime,
    on: R,
    name: &str,
) -> io::Result<()> {
    let wanted = file_of(rt, name, "svg")?;
    let file = format!(in rt.alloc(); "{name}.transcript")?;
    let drawn = run_alone(rt, on, b"", &["nomadsim", "draw", file.as_str()]);
    println!(rt;
        "picture of {name}: {}, status {}",
        foreseen(&drawn, &wanted),
        drawn.status
    )
}

/// Plays each line of `looks`, the name of a file and a command line: what the program prints has to
/// be that file.
pub(crate) fn looks<R: Threads + Wait + Copy + Send + Sync + 'static>(
    rt: &HostRuntime,
    on: R,
) -> io::Result<()> {
    let lines = fs::read_to_string(rt, "looks")?;
    for line in lines.lines() {
        let Some((name, command)) = line.split_once(' ') else {
            continue;
        };
        look(rt, on, name, command)?;
    }
    Ok(())
}

fn look<R: Threads + Wait + Copy + Send + Sync + 'static>(
    rt: &HostRuntime,
    on: R,
    name: &str,
    command: &str,
) -> io::Result<()> {
    let wanted = fs::read(rt, name)?;
    let words = words_of(rt.alloc(), command)?;
    let printed = run_alone(rt, on, b"", &words);
    println!(rt;
        "{command}: {}, status {}",
        foreseen(&printed, &wanted),
        printed.status
    )
}

/// Plays each line of `no-transcripts`, a `/` in it being a line's end, as a transcript.
pub(crate) fn no_transcripts<R: Threads + Wait + Copy + Send + Sync + 'static>(
    rt: &HostRuntime,
    on: R,
) -> io::Result<()> {
    let lines = fs::read(rt, "no-transcripts")?;
    for (number, line) in lines.split(|byte| *byte == b'\n').enumerate() {
        let text: Vec<u8> = line
            .iter()
            .map(|byte| if *byte == b'/' { b'\n' } else { *byte })
            .collect(rt.alloc())?;
        print!(rt; "{}: ", number + 1)?;
        say(rt, on, "nomadsim replay text.json", &text)?;
    }
    Ok(())
}

/// What a command line says on the standard output, then on the standard error; and its exit status.
pub(crate) fn say<R: Threads + Wait + Copy + Send + Sync + 'static>(
    rt: &HostRuntime,
    on: R,
    line: &str,
    text: &[u8],
) -> io::Result<()> {
    let words = words_of(rt.alloc(), line)?;
    let printed = run_alone(rt, on, text, &words);
    put(rt, &printed.out)?;
    put(rt, &printed.err)?;
    println!(rt; "status {}", printed.status)
}

/// Plays each line of `command-lines` as a command line.
pub(crate) fn command_lines<R: Threads + Wait + Copy + Send + Sync + 'static>(
    rt: &HostRuntime,
    on: R,
) -> io::Result<()> {
    let lines = fs::read_to_string(rt, "command-lines")?;
    for line in lines.lines() {
        println!(rt; "$ {line}")?;
        say(rt, on, line, b"{}")?;
    }
    Ok(())
}

/// Plays each line of `no-scenarios` as a scenario's text, the first being line 1. What is behind
/// the last line break is one too, and is empty.
pub(crate) fn texts<R: Threads + Wait + Copy + Send + Sync + 'static>(
    rt: &HostRuntime,
    on: R,
) -> io::Result<()> {
    let lines = fs::read(rt, "no-scenarios")?;
    for (number, text) in lines.split(|byte| *byte == b'\n').enumerate() {
        print!(rt; "{}: ", number + 1)?;
        say(rt, on, "nomadsim run text.json", text)?;
        say(rt, on, "nomadsim check text.json", text)?;
    }
    Ok(())
}

// The exit status of a command line with a standard output that takes so many bytes; and what it
// says on the standard error.
fn fail<R: Threads + Wait + Copy + Send + Sync + 'static>(
    rt: &HostRuntime,
    on: R,
    words: &[&str],
    left: usize,
) -> io::Result<()> {
    let mut folder = Folder::new(rt, b"");
    let printed = run_to(rt, on, &mut folder, words, left, false);
    put(rt, &printed.err)?;
    print!(rt; "{}", printed.status)
}

/// Plays the scenario `one-refused`, checks `node-too-small`, which has notes, and asks for help,
/// with a standard output that fails after each number of bytes.
pub(crate) fn outputs<R: Threads + Wait + Copy + Send + Sync + 'static>(
    rt: &HostRuntime,
    on: R,
) -> io::Result<()> {
    for left in 0..=167 {
        fail(rt, on, &["nomadsim", "run", "one-refused.json"], left)?;
    }
    println!(rt;)?;
    for left in 0..=408 {
        fail(rt, on, &["nomadsim", "check", "node-too-small.json"], left)?;
    }
    println!(rt;)?;
    for left in 0..100 {
        fail(rt, on, &["nomadsim", "--help"], left)?;
    }
    println!(rt;)?;
    for left in 0..=270 {
        let words = ["nomadsim", "inspect", "election.transcript", "--at", "0"];
        fail(rt, on, &words, left)?;
    }
    println!(rt;)
}
