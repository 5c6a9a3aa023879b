//! Tables of what is done to a machine and of what it answers then, played line by line.
use crate::tests::lines::{look_up, put_line, put_many};
use machine::Machine;
use rows::{Refusal, Version};
use std::alloc::Global;
use std::process::Abort;

/// A machine that is played.
pub(crate) trait Played: Machine {
    /// Whether what the words say holds of it, behind the word of this letter.
    fn holds(&self, alloc: Global, verb: char, words: &str) -> bool;
}

// A machine, the text of one that is gone back to, a text that is put together, and bytes on the
// way.
#[derive(Drop)]
struct Bench<M: Machine> {
    alloc: Global,
    state: M,
    kept: Vec<u8>,
    text: Vec<u8>,
    bytes: Vec<u8>,
}

/// Plays the lines of the tables, one after the other, from this state. Each line has to hold.
///
/// `keep`, `again`: a state to which one goes back. `take COMMAND`: it is admitted and applied.
/// `force COMMAND`: it is applied, admitted or not. `N COMMAND`: it is refused with N, or admitted
/// where N is 0. `has ROW`: the row is in the state's text.
///
/// `= LINE`, `= raw BYTES`: put to the end of the text. `any LINE`: what is behind the keys of many
/// rows. `many KIND FIRST LAST`: such rows are put to the end of the text. `clear`: it is empty.
/// `length N`: it has N bytes. `is LINE`: it is the text of the line. `same`: it is that of the
/// state. `load`: the state is that of the text. `fault N`: it is refused at byte N. `set PLACE
/// BYTE`: it has the byte there. `byte PLACE BYTE N`: with the byte there it is refused at byte N.
/// `cuts N N ..`: cut anywhere between two neighbours it is refused at the first. `command N`: it
/// begins with a command of N bytes. `bad N`: it begins with none, and is at fault at byte N.
///
/// As a text of an older version V: `old-load V`: the state is that of the text. `old-fault V N`:
/// it is refused at byte N. `old-command V LINE`: it is, but for its last byte, the command of the
/// line. `old-bad V N`: it begins with none, and is at fault at byte N.
///
/// Other lines are of the machine's own, as `Played::holds` says.
pub(crate) fn play<M: Played>(rt: &impl Abort, alloc: Global, state: M, tables: &[&str]) {
    let mut bench = Bench {
        alloc,
        state,
        kept: Vec::new(alloc),
        text: Vec::new(alloc),
        bytes: Vec::new(alloc),
    };
    play_on(rt, &mut bench, tables);
}

fn play_on<M: Played>(rt: &impl Abort, bench: &mut Bench<M>, tables: &[&str]) {
    for table in tables {
        for line in table.lines() {
            assert!(rt; turn(bench, line), "{line}");
        }
    }
}

// The letter of each word that a line begins with.
const VERBS: &str = "\
= =
keep k
again a
load l
same s
has h
take t
force f
any y
many m
clear c
is i
length n
set p
fault w
byte b
cuts e
command o
bad d
counts C
applied A
used U
live L
dead D
fork F
copies E
lists S
is-at T
old-load x
old-fault g
old-command v
old-bad j
broker B
blocked Z
heartbeats H
moves M
queue Q
accept Y
plans P
work W";

fn verb_of(head: &str) -> char {
    match look_up(VERBS, head) {
        Some(letter) => letter.bytes().next().map_or('?', char::from),
        None => '?',
    }
}

fn turn<M: Played>(bench: &mut Bench<M>, line: &str) -> bool {
    let (head, rest) = line.split_once(' ').unwrap_or((line, ""));
    let verb = verb_of(head);
    match verb {
        '=' => put_line(&mut bench.text, rest),
        'k' => {
            bench.kept.clear();
            bench.state.save(&mut bench.kept).is_ok()
        }
        'a' => restore(
            &mut bench.state,
            Version::newest(),
            bench.alloc,
            &bench.kept,
        ),
        'l' => load(bench),
        'x' => load_old(bench, rest),
        's' => is_same(bench),
        'h' => has(bench, rest),
        't' | 'f' => takes(bench, rest, verb == 'f'),
        '?' => read(bench, rest) && head.parse::<u8>() == Ok(answer(bench)),
        _ => texts(bench, verb, rest),
    }
}

// The command of a line, and one byte behind it, which is not read.
fn read<M: Machine>(bench: &mut Bench<M>, line: &str) -> bool {
    bench.bytes.clear();
    put_line(&mut bench.bytes, line) && bench.bytes.push(255).is_ok()
}

fn is_written<M: Machine>(command: &M::Command, alloc: Global, bytes: &[u8]) -> bool {
    let mut out = Vec::new(alloc);
    M::write_command(command, &mut out).is_ok() && out.as_slice() == bytes
}

// The number of a refusal, 0 for none, 255 where memory is wanting.
fn weigh<M: Machine>(state: &M, command: &M::Command) -> u8 {
    match state.admits(command) {
        Ok(None) => 0,
        Ok(Some(refusal)) => refusal.number(),
        Err(_) => 255,
    }
}

fn answer<M: Machine>(bench: &Bench<M>) -> u8 {
    match M::read_command(Version::newest(), bench.alloc, &bench.bytes) {
        Ok((command, _)) => weigh(&bench.state, &command),
        Err(_) => 254,
    }
}

// It is written as it was read, and applied, where it is admitted or in any case.
fn apply<M: Machine>(state: &mut M, alloc: Global, bytes: &[u8], any: bool) -> bool {
    match M::read_command(Version::newest(), alloc, bytes) {
        Ok((command, size)) => {
            size < bytes.len()
                && is_written::<M>(&command, alloc, &bytes[..size])
                && (any || weigh(state, &command) == 0)
                && state.count() < 1_000_000
                && state.apply(&command).is_ok()
        }
        Err(_) => false,
    }
}

fn takes<M: Machine>(bench: &mut Bench<M>, line: &str, any: bool) -> bool {
    read(bench, line) && apply(&mut bench.state, bench.alloc, &bench.bytes, any)
}

fn restore<M: Machine>(state: &mut M, version: Version, alloc: Global, text: &[u8]) -> bool {
    match M::load(version, alloc, text) {
        Ok(read) => {
            *state = read;
            true
        }
        Err(_) => false,
    }
}

/// Whether it is the text of the state.
pub(crate) fn is_text<M: Machine>(state: &M, alloc: Global, text: &[u8]) -> bool {
    let mut out = Vec::new(alloc);
    state.save(&mut out).is_ok() && out.as_slice() == text
}

fn is_same<M: Machine>(bench: &mut Bench<M>) -> bool {
    let same = is_text(&bench.state, bench.alloc, &bench.text);
    bench.text.clear();
    same
}

fn load<M: Machine>(bench: &mut Bench<M>) -> bool {
    restore(
        &mut bench.state,
        Version::newest(),
        bench.alloc,
        &bench.text,
    ) && is_same(bench)
}

// The version of a number.
fn version_of(word: &str) -> Option<Version> {
    Version::new(word.parse::<u8>().unwrap_or(0))
}

fn load_old<M: Machine>(bench: &mut Bench<M>, word: &str) -> bool {
    let is_read = match version_of(word) {
        Some(version) => restore(&mut bench.state, version, bench.alloc, &bench.text),
        None => false,
    };
    bench.text.clear();
    is_read
}

fn has<M: Machine>(bench: &mut Bench<M>, line: &str) -> bool {
    bench.bytes.clear();
    let mut text = Vec::new(bench.alloc);
    if !put_line(&mut bench.bytes, line) || bench.state.save(&mut text).is_err() {
        return false;
    }
    for part in text.windows(bench.bytes.len().max(1)) {
        if part == bench.bytes.as_slice() {
            return true;
        }
    }
    false
}

/// The numbers in words, the greatest for a word that is none or is missing.
pub(crate) fn numbers(words: &str) -> [usize; 4] {
    let mut numbers = [usize::MAX; 4];
    for (number, word) in numbers.iter_mut().zip(words.split(' ')) {
        *number = word.parse().unwrap_or(usize::MAX);
    }
    numbers
}

// What is said of the text, and else of the machine.
fn texts<M: Played>(bench: &mut Bench<M>, verb: char, words: &str) -> bool {
    let [first, second, third, _] = numbers(words);
    match verb {
        'y' => {
            bench.bytes.clear();
            put_line(&mut bench.bytes, words)
        }
        'i' => {
            bench.bytes.clear();
            put_line(&mut bench.bytes, words) && bench.bytes == bench.text
        }
        'm' => many(bench, words),
        'c' => {
            bench.text.clear();
            true
        }
        'n' => bench.text.len() == first,
        'p' => set(&mut bench.text, first, second) < 256,
        'w' => fault_of::<M>(Version::newest(), bench.alloc, &bench.text) == first,
        'g' => is_old_fault::<M>(bench.alloc, &bench.text, words),
        'v' => is_old_command(bench, words),
        'j' => is_old_bad(bench, words),
        'b' => {
            let old = set(&mut bench.text, first, second);
            fault_of::<M>(Version::newest(), bench.alloc, &bench.text) == third
                && set(&mut bench.text, first, old) == second
        }
        'e' => is_refused_cut(bench, words),
        'o' | 'd' => {
            let found = command_of::<M>(Version::newest(), bench.alloc, &bench.text, verb == 'd');
            bench.text.clear();
            found == first
        }
        _ => bench.state.holds(bench.alloc, verb, words),
    }
}

fn many<M: Machine>(bench: &mut Bench<M>, words: &str) -> bool {
    let (kind, rest) = words.split_once(' ').unwrap_or(("", ""));
    let [first, last, _, _] = numbers(rest);
    put_many(
        &mut bench.text,
        kind,
        first.min(65535) as u16,
        last.min(65535) as u16,
        &bench.bytes,
    )
}

// Puts a byte in the place of another, which is answered; more than a byte where there is none.
fn set(text: &mut [u8], place: usize, value: usize) -> usize {
    match text.get_mut(place) {
        Some(byte) => {
            let old = usize::from(*byte);
            *byte = value.min(255) as u8;
            old
        }
        None => 256,
    }
}

// Where the text of a machine is at fault, and the greatest number where it is not.
fn fault_of<M: Machine>(version: Version, alloc: Global, text: &[u8]) -> usize {
    match M::load(version, alloc, text) {
        Err(Refusal::Frame(place)) => place,
        _ => usize::MAX,
    }
}

// Whether it is at fault at a place as a text of an older version; the words say which, and where.
fn is_old_fault<M: Machine>(alloc: Global, text: &[u8], words: &str) -> bool {
    let (number, place) = words.split_once(' ').unwrap_or((words, ""));
    match version_of(number) {
        Some(version) => place.parse() == Ok(fault_of::<M>(version, alloc, text)),
        None => false,
    }
}

// Whether it begins with no command of an older version, and is at fault at a place.
fn is_old_bad<M: Machine>(bench: &mut Bench<M>, words: &str) -> bool {
    let (number, place) = words.split_once(' ').unwrap_or((words, ""));
    let is_it = match version_of(number) {
        Some(version) => {
            place.parse() == Ok(command_of::<M>(version, bench.alloc, &bench.text, true))
        }
        None => false,
    };
    bench.text.clear();
    is_it
}

// How many bytes the command has that a text begins with, which is written so again; or where the
// text is at fault.
fn command_of<M: Machine>(version: Version, alloc: Global, text: &[u8], is_bad: bool) -> usize {
    match M::read_command(version, alloc, text) {
        Ok((command, size)) if !is_bad => {
            match text.get(..size) {
                Some(part) if is_written::<M>(&command, alloc, part) => size,
                _ => usize::MAX,
            }
        }
        Err(Refusal::Frame(place)) if is_bad => place,
        _ => usize::MAX,
    }
}

// Whether the text, but for its last byte, is a command of an older version, and is written as the
// line's; the words say which version, and the line.
fn is_old_command<M: Machine>(bench: &mut Bench<M>, words: &str) -> bool {
    let (number, line) = words.split_once(' ').unwrap_or((words, ""));
    bench.bytes.clear();
    let Some(version) = version_of(number) else {
        return false;
    };
    if !put_line(&mut bench.bytes, line) {
        return false;
    }
    let is_it = match M::read_command(version, bench.alloc, &bench.text) {
        Ok((command, size)) => {
            size < bench.text.len()
                && size + 1 == bench.text.len()
                && is_written::<M>(&command, bench.alloc, &bench.bytes)
        }
        Err(_) => false,
    };
    bench.text.clear();
    is_it
}

fn is_refused_cut<M: Machine>(bench: &Bench<M>, places: &str) -> bool {
    let mut first = usize::MAX;
    let mut holds = true;
    for place in places.split(' ') {
        let last = place.parse().unwrap_or(0);
        for cut in first..last {
            let part = bench.text.get(..cut).unwrap_or(&[]);
            holds = holds && fault_of::<M>(Version::newest(), bench.alloc, part) == first;
        }
        first = last;
    }
    holds
}
