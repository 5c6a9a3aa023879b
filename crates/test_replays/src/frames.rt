//! Sample frames of every kind: each cut of them, and each of their bytes at each value, by what
//! `wire` says of it.
use crate::samples::{Reads, Sample, play};
use fsm_state::Cluster;
use rows::Refusal;
use std::alloc::Global;
use std::rt::Files;
use std::{fs, io};
use wire::{read_message, write_message};

// Where a frame names its kind.
const KIND_AT: usize = 1;

// The reader of frames.
struct FrameReader;

impl Reads for FrameReader {
    fn is_said(alloc: Global, bytes: &[u8], said: Option<usize>) -> bool {
        match read_message::<Cluster>(alloc, bytes) {
            Err(Refusal::Frame(at)) => said == Some(at),
            Err(_) => false,
            Ok(message) => {
                let mut again = Vec::new(alloc);
                let is_written = write_message(&message, &mut again).is_ok();
                is_written && again.as_slice() == bytes && said.is_none()
            }
        }
    }
}

fn say(rt: &HostRuntime, sample: &Sample) -> io::Result<()> {
    let Some(kind) = sample.bytes.get(KIND_AT) else {
        return Ok(());
    };
    let (length, cuts, values) = (sample.bytes.len(), sample.cuts, sample.values);
    println!(rt; "frame of kind {kind}: {length} bytes, {cuts} cuts, {values} values")
}

// Plays a line: a frame, before which is said how much of the one before was played, or what is to
// be so of it. Whether it is so.
fn play_line(rt: &HostRuntime, sample: &mut Sample, line: &str) -> io::Result<bool> {
    if let Some(digits) = line.strip_prefix("frame ") {
        say(rt, sample)?;
        *sample = Sample::of(rt.alloc(), digits)?;
        return Ok(true);
    }
    Ok(play::<FrameReader>(rt.alloc(), sample, line) == Some(true))
}

fn say_not_so(rt: &HostRuntime, place: usize, line: &str) -> io::Result<()> {
    println!(rt; "line {} is not so: {line}", place.saturating_add(1))
}

/// Plays each line of `wire`: a sample frame, the place at which a cut of it is at fault, or those
/// at which it is, or is not, where one byte is at some values. Says what is not so; and of each
/// frame how much of it was played.
pub(crate) fn frames(rt: &HostRuntime) -> io::Result<()> {
    let text = fs::read_to_string(rt, "wire")?;
    let mut sample = Sample::of(rt.alloc(), "")?;
    for (place, line) in text.lines().enumerate() {
        if !play_line(rt, &mut sample, line)? {
            say_not_so(rt, place, line)?;
        }
    }
    say(rt, &sample)
}
