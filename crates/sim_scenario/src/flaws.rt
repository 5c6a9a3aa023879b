//! What is wrong with a line that is no step's: the first thing, from the left.
use crate::flaw::{Flaw, Wanted, WrongPart};
use crate::grammar::{GROUP, Kind, PartKind, REPEATED, Whole, kinds_of, name_of};
use event_texts::read_number;
use rows::{Groups, Name, NoMemory};
use std::alloc::Global;
use strsim::osa_distance;

// The words that steps begin with.
const VERBS: [&str; 23] = [
    "timeout", "beat", "deliver", "crash", "restart", "compact", "register", "ping", "pull", "end",
    "request", "take", "work", "submit", "finish", "nack", "plan", "lapse", "expire", "drain",
    "free", "reap", "flow",
];

// A word may have been meant by one in which so many letters are others, more, missing or exchanged.
const SLIPS: usize = 2;

// How long a list of stops or places is at most.
const MOST_LISTED: usize = 64;

/// How many servers and clients a group has.
#[derive(Clone, Copy, Debug)]
pub struct GroupSize {
    /// The servers.
    pub servers: usize,
    /// The clients, which are as many as the nodes.
    pub clients: usize,
}

/// A flaw of a line, and where it is.
#[derive(Debug, Drop)]
pub struct LineFlaw {
    /// The column of the word that has it, from 1 and in bytes; behind the line where one is missing.
    pub column: usize,
    /// What is wrong.
    pub flaw: Flaw,
}

/// The first thing that is wrong with a line that is no step's, as one for a group of this size.
pub fn flaw_of(alloc: Global, line: &str, group: GroupSize) -> Result<LineFlaw, NoMemory> {
    if let Some(found) = plain_flaw(line) {
        return Ok(found);
    }
    let (verb, words) = first_of(line, ' ');
    match kinds_of(verb, words.unwrap_or("")) {
        Some(kinds) => words_flaw(alloc, line, kinds, words, group),
        None => Ok(LineFlaw {
            column: 1,
            flaw: verb_flaw(alloc, verb)?,
        }),
    }
}

/// The same of a line that begins as a `settle`, and is none.
pub fn settle_flaw_of(alloc: Global, line: &str, group: GroupSize) -> Result<LineFlaw, NoMemory> {
    match plain_flaw(line) {
        Some(found) => Ok(found),
        None => words_flaw(alloc, line, REPEATED, first_of(line, ' ').1, group),
    }
}

// What is wrong with a line, whatever its words are.
fn plain_flaw(line: &str) -> Option<LineFlaw> {
    if line.is_empty() {
        return Some(LineFlaw {
            column: 1,
            flaw: Flaw::Empty,
        });
    }
    if let Some(column) = odd_character(line) {
        return Some(LineFlaw {
            column,
            flaw: Flaw::Character(column),
        });
    }
    let column = odd_space(line)?;
    Some(LineFlaw {
        column,
        flaw: Flaw::Space(column),
    })
}

// The column of the first character that no step has, and that is not shown as it is.
fn odd_character(line: &str) -> Option<usize> {
    let place = line.as_bytes().iter().position(|byte| is_odd(*byte))?;
    Some(place.saturating_add(1))
}

fn is_odd(byte: u8) -> bool {
    byte < b' ' || b'~' < byte || byte == b'"' || byte == b'\\'
}

// The column of the first space that stands in front, behind another space, or at the end.
fn odd_space(line: &str) -> Option<usize> {
    let mut column = 0usize;
    let mut is_behind_word = false;
    for byte in line.as_bytes() {
        column = column.saturating_add(1);
        let is_space = *byte == b' ';
        if is_space && (!is_behind_word || column == line.len()) {
            return Some(column);
        }
        is_behind_word = !is_space;
    }
    None
}

// What stands before the first separator, and what behind it; the whole text where it has none.
fn first_of(text: &str, separator: char) -> (&str, Option<&str>) {
    match text.split_once(separator) {
        Some((first, rest)) => (first, Some(rest)),
        None => (text, None),
    }
}

// What is wrong with a first word that no step has.
fn verb_flaw(alloc: Global, verb: &str) -> Result<Flaw, NoMemory> {
    let word = String::from_str(alloc, verb)?;
    Ok(match meant_by(alloc, verb)? {
        Some(meant) => Flaw::Meant(word, meant),
        None => Flaw::NoStep(word),
    })
}

// The first of the words that differ the least from this one, if any is near enough: it has to share
// more than half of its letters.
fn meant_by(alloc: Global, word: &str) -> Result<Option<&'static str>, NoMemory> {
    let mut least = SLIPS + 1;
    let mut meant = None;
    for verb in VERBS {
        if word.len() > verb.len() + SLIPS || verb.len() > word.len() + SLIPS {
            continue;
        }
        let slips = osa_distance(alloc, word, verb)?;
        if slips < least && slips < verb.len() / 2 {
            least = slips;
            meant = Some(verb);
        }
    }
    Ok(meant)
}

// What is wrong with the words behind the first, of which these have to stand there.
fn words_flaw(
    alloc: Global,
    line: &str,
    kinds: &[Kind],
    words: Option<&str>,
    group: GroupSize,
) -> Result<LineFlaw, NoMemory> {
    let mut rest = words;
    for kind in kinds {
        let Some(text) = rest else {
            let column = line.len().saturating_add(1);
            return Ok(LineFlaw {
                column,
                flaw: Flaw::Missing(name_of(kind)),
            });
        };
        let (word, behind) = first_of(text, ' ');
        if let Some(flaw) = word_flaw(alloc, kind, word, group)? {
            return Ok(LineFlaw {
                column: column_of(line, text),
                flaw,
            });
        }
        rest = behind;
    }
    end_flaw(alloc, line, rest)
}

// The column at which the end of a line begins that this is.
fn column_of(line: &str, end: &str) -> usize {
    line.len().saturating_sub(end.len()).saturating_add(1)
}

// What is wrong behind the last word, where these words stand.
fn end_flaw(alloc: Global, line: &str, rest: Option<&str>) -> Result<LineFlaw, NoMemory> {
    let Some(text) = rest else {
        return Ok(LineFlaw {
            column: 1,
            flaw: Flaw::Unknown,
        });
    };
    let (column, more) = (column_of(line, text), String::from_str(alloc, text)?);
    Ok(LineFlaw {
        column,
        flaw: Flaw::TooMuch(more),
    })
}

// What is wrong with a word, if anything is.
fn word_flaw(
    alloc: Global,
    kind: &Kind,
    word: &str,
    group: GroupSize,
) -> Result<Option<Flaw>, NoMemory> {
    match kind {
        Kind::Server => server_flaw(alloc, word, group),
        Kind::Client => numbered_flaw(alloc, "client", word, 64, group.clients),
        Kind::Node => numbered_flaw(alloc, "node", word, 64, group.clients),
        Kind::Actor => match word.strip_prefix("c") {
            Some(number) => numbered_flaw(alloc, "client", number, 64, group.clients),
            None => server_flaw(alloc, word, group),
        },
        Kind::Plain(name, field) => match field_fault(field, word) {
            Some(wanted) => Ok(Some(Flaw::Word(part_of(alloc, name, word, wanted)?))),
            None => Ok(None),
        },
        Kind::Whole(whole) => whole_flaw(alloc, whole, word),
        Kind::Groups => groups_flaw(alloc, word),
        Kind::Batch(_, names, whole) => batch_flaw(alloc, names, whole, word),
    }
}

fn part_of(
    alloc: Global,
    name: &'static str,
    text: &str,
    wanted: Wanted,
) -> Result<WrongPart, NoMemory> {
    let text = String::from_str(alloc, text)?;
    Ok(WrongPart { name, text, wanted })
}

fn server_flaw(alloc: Global, word: &str, group: GroupSize) -> Result<Option<Flaw>, NoMemory> {
    numbered_flaw(alloc, "server", word, 5, group.servers)
}

// What is wrong with the number of one of these, which go up to a greatest number in the lines of
// steps, and of which the group has so many.
fn numbered_flaw(
    alloc: Global,
    name: &'static str,
    word: &str,
    most: u64,
    count: usize,
) -> Result<Option<Flaw>, NoMemory> {
    match number_fault(word, 1, most) {
        None => Ok(None),
        Some(Wanted::Between(_, _)) => {
            let number = String::from_str(alloc, word)?;
            Ok(Some(Flaw::Absent(name, number, count)))
        }
        Some(wanted) => Ok(Some(Flaw::Word(part_of(alloc, name, word, wanted)?))),
    }
}

// What a part has to be, where it is not.
fn field_fault(field: &PartKind, text: &str) -> Option<Wanted> {
    match field {
        PartKind::Number(low, high) => number_fault(text, *low, *high),
        PartKind::Name => match Name::read(text) {
            Ok(_) => None,
            Err(_) => Some(Wanted::Name),
        },
        PartKind::OneOf(words, shown) => {
            if words.contains(&text) {
                None
            } else {
                Some(Wanted::OneOf(shown))
            }
        }
    }
}

// What a number has to be that is to be from the one to the other, where it is not.
fn number_fault(text: &str, low: u64, high: u64) -> Option<Wanted> {
    match read_number(text) {
        Some(number) if low <= number && number <= high => None,
        Some(_) => Some(Wanted::Between(low, high)),
        None => Some(no_number(text, low, high)),
    }
}

// What a text has to be that is no number below 2^64 as numbers are written.
fn no_number(text: &str, low: u64, high: u64) -> Wanted {
    if let Some(digits) = text.strip_prefix("+").or(text.strip_prefix("-")) {
        return if are_digits(digits) {
            Wanted::Unsigned
        } else {
            Wanted::Number
        };
    }
    if !are_digits(text) {
        return Wanted::Number;
    }
    if text.starts_with('0') {
        Wanted::NoZero
    } else {
        Wanted::Between(low, high)
    }
}

fn are_digits(text: &str) -> bool {
    !text.is_empty() && text.as_bytes().iter().all(|byte| byte.is_ascii_digit())
}

// What is wrong with a word of parts, if anything is.
fn whole_flaw(alloc: Global, whole: &Whole, word: &str) -> Result<Option<Flaw>, NoMemory> {
    let mut rest = Some(word);
    let mut left = whole.parts.len();
    for (name, field) in whole.parts {
        let Some(text) = rest else {
            let part = part_of(alloc, whole.name, word, Wanted::With(name))?;
            return Ok(Some(Flaw::Word(part)));
        };
        left = left.saturating_sub(1);
        // The last part goes on to the end.
        let (part, behind) = if left == 0 {
            (text, None)
        } else {
            first_of(text, whole.separator)
        };
        if let Some(wanted) = field_fault(field, part) {
            return Ok(Some(within(alloc, whole, word, part_of(alloc, name, part, wanted)?)?));
        }
        rest = behind;
    }
    Ok(None)
}

fn within(alloc: Global, whole: &Whole, word: &str, part: WrongPart) -> Result<Flaw, NoMemory> {
    let word = String::from_str(alloc, word)?;
    Ok(Flaw::Within(whole.name, word, part))
}

// What is wrong with a list of stops or places, if anything is; a dash stands for none.
fn batch_flaw(
    alloc: Global,
    names: &'static str,
    whole: &Whole,
    word: &str,
) -> Result<Option<Flaw>, NoMemory> {
    if word == "-" {
        return Ok(None);
    }
    items_flaw(alloc, names, MOST_LISTED, whole, word)
}

// What is wrong with a list of at most so many, if anything is.
fn items_flaw(
    alloc: Global,
    names: &'static str,
    most: usize,
    whole: &Whole,
    word: &str,
) -> Result<Option<Flaw>, NoMemory> {
    if most < word.split(',').count() {
        return Ok(Some(Flaw::TooMany(names, most)));
    }
    for item in word.split(',') {
        if let Some(flaw) = whole_flaw(alloc, whole, item)? {
            return Ok(Some(flaw));
        }
    }
    Ok(None)
}

// What is wrong with the groups of a job, if anything is.
fn groups_flaw(alloc: Global, word: &str) -> Result<Option<Flaw>, NoMemory> {
    match items_flaw(alloc, "groups", Groups::MOST, &GROUP, word)? {
        Some(flaw) => Ok(Some(flaw)),
        None => twice_flaw(alloc, word),
    }
}

// That two groups have one name, if two have.
fn twice_flaw(alloc: Global, word: &str) -> Result<Option<Flaw>, NoMemory> {
    for (place, item) in word.split(',').enumerate() {
        let name = first_of(item, ':').0;
        if stands_before(word, place, name) {
            let part = part_of(alloc, "group", name, Wanted::Once)?;
            return Ok(Some(Flaw::Word(part)));
        }
    }
    Ok(None)
}

// Whether one of so many groups has a name.
fn stands_before(word: &str, count: usize, name: &str) -> bool {
    for item in word.split(',').take(count) {
        if first_of(item, ':').0 == name {
            return true;
        }
    }
    false
}
