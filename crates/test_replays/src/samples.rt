//! Samples of bytes: each cut of one, and one with a byte at each value, by what a file says of
//! them.
use event_texts::read_number;
use std::alloc::{AllocError, Global};

/// What reads such bytes.
pub(crate) trait Reads {
    /// Whether it finds bytes at fault at a place, or, where none is said, reads what is written
    /// again as just these bytes.
    fn is_said(alloc: Global, bytes: &[u8], said: Option<usize>) -> bool;
}

/// A sample, how many of its cuts were read, and how often it was read with a byte at a value.
#[derive(Drop)]
pub(crate) struct Sample {
    /// The bytes.
    pub(crate) bytes: Vec<u8>,
    /// How many cuts were read.
    pub(crate) cuts: u64,
    /// How often it was read with a byte at a value.
    pub(crate) values: u64,
}

impl Sample {
    /// The sample of these bytes, of two digits each.
    pub(crate) fn of(alloc: Global, digits: &str) -> Result<Sample, AllocError> {
        Ok(Sample {
            bytes: read_bytes(alloc, digits)?,
            cuts: 0,
            values: 0,
        })
    }
}

fn read_place(word: &str) -> Option<usize> {
    Some(read_number(word)? as usize)
}

fn read_value(word: &str) -> Option<u8> {
    let number = read_number(word)?;
    if number > 255 {
        return None;
    }
    Some(number as u8)
}

// Whether an answer of a line is read: `ok`, or a place.
fn is_said_so<R: Reads>(alloc: Global, bytes: &[u8], answer: &str) -> bool {
    if answer == "ok" {
        return R::is_said(alloc, bytes, None);
    }
    match read_place(answer) {
        Some(at) => R::is_said(alloc, bytes, Some(at)),
        None => false,
    }
}

// So many bytes of the sample, which are not all.
fn cut<R: Reads>(alloc: Global, sample: &mut Sample, count: &str, answer: &str) -> Option<bool> {
    let bytes = sample.bytes.get(..read_place(count)?)?;
    let is_so = bytes.len() < sample.bytes.len() && is_said_so::<R>(alloc, bytes, answer);
    sample.cuts = sample.cuts.saturating_add(1);
    Some(is_so)
}

// The sample with one byte at each of these values, the byte's own among them.
fn change<R: Reads>(
    alloc: Global,
    sample: &mut Sample,
    at: &str,
    values: &str,
    answer: &str,
) -> Option<bool> {
    let at = read_place(at)?;
    let (first, last) = values.split_once('-')?;
    let (first, last) = (read_value(first)?, read_value(last)?);
    let own = *sample.bytes.get(at)?;
    let mut is_so = first <= last;
    for value in first..=last {
        *sample.bytes.get_mut(at)? = value;
        is_so = is_said_so::<R>(alloc, &sample.bytes, answer) && is_so;
        sample.values = sample.values.saturating_add(1);
    }
    *sample.bytes.get_mut(at)? = own;
    Some(is_so)
}

/// Whether it is as a line of a cut or of a byte says; none where it is no such line.
pub(crate) fn play<R: Reads>(alloc: Global, sample: &mut Sample, line: &str) -> Option<bool> {
    let mut words = line.split(' ');
    let kind = words.next()?;
    let at = words.next()?;
    let next = words.next()?;
    match kind {
        "cut" => cut::<R>(alloc, sample, at, next),
        "byte" => change::<R>(alloc, sample, at, next, words.next()?),
        _ => None,
    }
}

// The value of a digit; 0 for what is none.
fn digit(byte: u8) -> u8 {
    match byte {
        b'0'..=b'9' => byte - b'0',
        b'a'..=b'f' => byte - b'a' + 10,
        _ => 0,
    }
}

// The bytes of two digits each.
fn read_bytes(alloc: Global, text: &str) -> Result<Vec<u8>, AllocError> {
    let mut bytes = Vec::new(alloc);
    let mut high: Option<u8> = None;
    for byte in text.bytes() {
        let low = digit(byte);
        match high {
            None => high = Some(low),
            Some(front) => {
                bytes.push(front << 4 | low)?;
                high = None;
            }
        }
    }
    Ok(bytes)
}
