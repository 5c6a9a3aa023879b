//! Texts of what a server stores, of each version: each as it is, each cut of it, and each of its
//! bytes at each value, by what a file says of it.
use crate::samples::{Reads, Sample, play};
use fsm_state::Cluster;
use raft_snapshot::{read_stable, write_stable};
use rows::Refusal;
use std::alloc::{AllocError, Global};
use std::rt::Files;
use std::{fs, io};

// Whether bytes are at fault at a place, or, where none is said, store what has this text today.
fn stores(alloc: Global, bytes: &[u8], said: Option<usize>, text: &[u8]) -> bool {
    match read_stable::<Cluster>(alloc, bytes) {
        Err(Refusal::Frame(at)) => said == Some(at),
        Err(_) => false,
        Ok(stable) => {
            let mut again = Vec::new(alloc);
            let is_written = write_stable(&stable, &mut again).is_ok();
            is_written && again.as_slice() == text && said.is_none()
        }
    }
}

// The files of the texts of the first version, and of the second.
const OLD: &str = "stored-v1";

const SECOND: &str = "stored-v2";

// The version that is written today.
const V: u8 = 3;

// The reader of what a server stores, today or in the second version, which has the same fields.
struct TextReader;

impl Reads for TextReader {
    fn is_said(alloc: Global, bytes: &[u8], said: Option<usize>) -> bool {
        match today(alloc, bytes, &[]) {
            Ok(text) => stores(alloc, bytes, said, &text),
            Err(_) => false,
        }
    }
}

// The reader of what a server stored in the first version.
struct OldReader;

impl Reads for OldReader {
    fn is_said(alloc: Global, bytes: &[u8], said: Option<usize>) -> bool {
        match today(alloc, bytes, &disk_places(bytes.len())) {
            Ok(text) => stores(alloc, bytes, said, &text),
            Err(_) => false,
        }
    }
}

// In front of which bytes disk stands today: behind the memory of each size, in the text of the
// first version with this length, `compacted` or `whole`.
fn disk_places(length: usize) -> [usize; 5] {
    match length {
        251 => [81, 100, 126, 197, 238],
        299 => [67, 91, 126, 190, 205],
        _ => [0; 5],
    }
}

// The text of today that stores what such a text does: with 0 for the disk in front of each of
// these places.
fn today(alloc: Global, bytes: &[u8], places: &[usize]) -> Result<Vec<u8>, AllocError> {
    let mut text = Vec::new(alloc);
    for (at, byte) in bytes.iter().enumerate() {
        if places.contains(&at) {
            text.extend_from_slice(&[0; 4])?;
        }
        let own = if at == 0 { V } else { *byte };
        text.push(own)?;
    }
    Ok(text)
}

fn say(rt: &HostRuntime, file: &str, number: u8, sample: &Sample) -> io::Result<()> {
    if number == 0 {
        return Ok(());
    }
    let (length, cuts, values) = (sample.bytes.len(), sample.cuts, sample.values);
    println!(rt; "{file}, text {number}: {length} bytes, {cuts} cuts, {values} values")
}

// The text of a line, behind its name.
fn text_of(alloc: Global, words: &str) -> Result<Sample, AllocError> {
    let (_name, digits) = words.split_once(' ').unwrap_or(("", words));
    Sample::of(alloc, digits)
}

// A text, which is read as it is; how much was played of the one before is said.
fn begin<R: Reads>(
    rt: &HostRuntime,
    file: &str,
    number: u8,
    sample: &mut Sample,
    words: &str,
) -> io::Result<bool> {
    say(rt, file, number, sample)?;
    *sample = text_of(rt.alloc(), words)?;
    Ok(R::is_said(rt.alloc(), &sample.bytes, None))
}

// Plays a line of a file, and counts its texts. Whether it is so.
fn play_line<R: Reads>(
    rt: &HostRuntime,
    file: &str,
    number: &mut u8,
    sample: &mut Sample,
    line: &str,
) -> io::Result<bool> {
    if let Some(words) = line.strip_prefix("text ") {
        let before = *number;
        *number = before.saturating_add(1);
        return begin::<R>(rt, file, before, sample, words);
    }
    Ok(picks_version(file, line) || play::<R>(rt.alloc(), sample, line) == Some(true))
}

fn say_not_so(rt: &HostRuntime, file: &str, place: usize, line: &str) -> io::Result<()> {
    println!(rt;
        "{file}, line {} is not so: {line}",
        place.saturating_add(1)
    )
}

// Plays each line of a file: a text, which is read as it is; the place at which a cut of it is at
// fault, or those at which it is, or is not, where one byte is at some values. Says what is not so;
// and of each text how much of it was played.
fn play_file<R: Reads>(rt: &HostRuntime, file: &str) -> io::Result<()> {
    let text = fs::read_to_string(rt, file)?;
    let mut number: u8 = 0;
    let mut sample = Sample::of(rt.alloc(), "")?;
    for (place, line) in text.lines().enumerate() {
        if !play_line::<R>(rt, file, &mut number, &mut sample, line)? {
            say_not_so(rt, file, place, line)?;
        }
    }
    say(rt, file, number, &sample)
}

// Whether a line is of the byte that says a text's version, in a file of an older version: with
// another value there it is a text of another version, of which `stored` speaks.
fn picks_version(file: &str, line: &str) -> bool {
    (file == OLD || file == SECOND) && line.starts_with("byte 0 ")
}

/// Plays the lines of `stored`, and those of `stored-v2` and `stored-v1`, whose texts are of the
/// second version and of the first.
pub(crate) fn texts(rt: &HostRuntime) -> io::Result<()> {
    play_file::<TextReader>(rt, "stored")?;
    play_file::<TextReader>(rt, SECOND)?;
    play_file::<OldReader>(rt, OLD)
}
