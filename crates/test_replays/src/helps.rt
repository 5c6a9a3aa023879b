//! What the program says of mistakes where that depends on more than the words: at a terminal, and of
//! scenarios in short form.
use crate::said::{put, run_at_terminal, say};
use std::alloc::AllocError;
use std::rt::Files;
use std::sync::Wait;
use std::thread::Threads;
use std::{fs, io};

/// Plays each line of `helps`, a command and the text of its file, in which a `/` is a line's end,
/// where the standard error is a terminal: what is said there, and the exit status.
pub(crate) fn helps<R: Threads + Wait + Copy + Send + Sync + 'static>(
    rt: &HostRuntime,
    on: R,
) -> io::Result<()> {
    let lines = fs::read_to_string(rt, "helps")?;
    for (number, line) in lines.lines().enumerate() {
        let (command, text) = line.split_once(' ').unwrap_or((line, ""));
        let bytes = lines_of(rt, text)?;
        let words = ["nomadsim", command, "text.json"];
        let printed = run_at_terminal(rt, on, &bytes, &words);
        print!(rt; "help {}: ", number.saturating_add(1))?;
        put(rt, &printed.err)?;
        println!(rt; "status {}", printed.status)?;
    }
    Ok(())
}

fn lines_of(rt: &HostRuntime, text: &str) -> Result<Vec<u8>, AllocError> {
    text.as_bytes()
        .iter()
        .map(|byte| if *byte == b'/' { b'\n' } else { *byte })
        .collect(rt.alloc())
}

/// Checks each line of `no-shorts` as the text of a scenario in short form.
pub(crate) fn shorts<R: Threads + Wait + Copy + Send + Sync + 'static>(
    rt: &HostRuntime,
    on: R,
) -> io::Result<()> {
    let lines = fs::read_to_string(rt, "no-shorts")?;
    for (number, text) in lines.lines().enumerate() {
        print!(rt; "short {}: ", number.saturating_add(1))?;
        say(rt, on, "nomadsim check text.json --short", text.as_bytes())?;
    }
    Ok(())
}
