//! Values that are given as such: numbers, lists and options in bytes, and names and refusals in
//! words.
use fields::{
    Field, read_list, read_long_list, read_long_ruled_list, read_option, read_ruled_list,
    read_whole, write, write_items, write_list, write_long_list, write_option,
};
use machine::{Amount, Coded, Entry, Tally, TallyCommand};
use rows::{
    Actor, AllocId, ClientId, Evaluation, Index, Leader, Name, Refusal, Sequence, ServerId, Size,
    Term, Version,
};
use std::alloc::Global;
use std::fmt::Display;

fn put<F: Field + Drop>(out: &mut Vec<u8>, value: Option<F>) -> bool {
    match value {
        Some(value) => write(&value, out).is_ok(),
        None => false,
    }
}

fn adds(number: u16) -> Option<Coded<Tally>> {
    match Amount::new(number) {
        Some(amount) => Some(Coded::new(TallyCommand::Add(amount))),
        None => None,
    }
}

fn put_values(out: &mut Vec<u8>) -> bool {
    put(out, Some(200u8))
        && put(out, Some(258u16))
        && put(out, Some(1000u32))
        && put(out, Some(u64::MAX))
        && put(out, Some(true))
        && put(out, Term::new(1_099_511_627_775))
        && put(out, Index::new(1))
        && put(out, ServerId::from_number(5))
}

fn put_actors(out: &mut Vec<u8>) -> bool {
    match (ServerId::from_number(5), ClientId::from_number(64)) {
        (Some(server), Some(client)) => {
            put(out, Some(Actor::Server(server))) && put(out, Some(Actor::Client(client)))
        }
        _ => false,
    }
}

// An amount, and the entry of term 1 that adds it.
fn put_entry(out: &mut Vec<u8>, number: u16) -> bool {
    match adds(number) {
        Some(command) => {
            let term = Term::ZERO.next();
            put(out, Amount::new(number)) && put(out, Some(Entry { term, command }))
        }
        None => false,
    }
}

// The values' bytes, one after another.
const VALUES: &[u8] = &[
    200, //
    1, 2, //
    0, 0, 3, 232, //
    255, 255, 255, 255, 255, 255, 255, 255, //
    1, //
    0, 0, 0, 255, 255, 255, 255, 255, //
    0, 0, 0, 0, 0, 0, 0, 1, //
    5, //
    5, 192, //
    3, 232, //
    0, 0, 0, 0, 0, 0, 0, 1, 1, 3, 232,
];

// Three amounts of 0, behind a count of one byte, behind one of four, and behind none; and options.
fn put_lists(out: &mut Vec<u8>, amounts: &Sequence<Amount>) -> bool {
    amounts.len() == 3
        && write_list(amounts, 3, out).is_ok()
        && write_long_list(amounts, 3, out).is_ok()
        && write_items(amounts.as_slice(), out).is_ok()
        && write_option(&Some(Amount::ZERO), out).is_ok()
        && write_option::<Amount>(&None, out).is_ok()
}

fn push_thrice(amounts: &mut Sequence<Amount>) -> bool {
    let mut pushed = true;
    for _ in 0..3 {
        pushed = pushed && amounts.push(Amount::ZERO).is_ok();
    }
    pushed
}

const LISTS_WRITTEN: &[u8] = &[
    3, 0, 0, 0, 0, 0, 0, 0, 0, 0, 3, 0, 0, 0, 0, 0, 0, 0, 0, 0, 0, 0, 0, 1, 0, 0, 0,
];

fn are_written(alloc: Global) -> bool {
    let mut out = Vec::new(alloc);
    put_values(&mut out)
        && put_actors(&mut out)
        && put_entry(&mut out, 1000)
        && out.as_slice() == VALUES
}

fn are_lists_written(alloc: Global) -> bool {
    let mut out = Vec::new(alloc);
    let mut amounts = Sequence::new(alloc);
    push_thrice(&mut amounts) && put_lists(&mut out, &amounts) && out.as_slice() == LISTS_WRITTEN
}

// Whether the entry that is read has term 1 and adds this.
fn is_entry(alloc: Global, bytes: &[u8], added: u16) -> bool {
    match read_whole::<Entry<Coded<Tally>>>(Version::newest(), alloc, bytes) {
        Ok(entry) => {
            entry.term.get() == 1
                && added_by(entry.command.command()) == added
                && added_by(&entry.command.into_command()) == added
        }
        Err(_) => false,
    }
}

/// What a command adds, 0 for the no-op.
fn added_by(command: &TallyCommand) -> u16 {
    match command {
        TallyCommand::Noop => 0,
        TallyCommand::Add(amount) => amount.get(),
    }
}

// The number of the refusal of a text that is no name, 0 for a name.
fn name_fault(text: &str) -> u8 {
    match Name::read(text) {
        Ok(name) => if name.as_str() == text { 0 } else { 255 },
        Err(refusal) => refusal.number(),
    }
}

fn reads_names() -> bool {
    name_fault("linux") == 0
        && name_fault("Linux") == 11
        && name_fault("") == 11
        && name_fault("a-name-of-33-bytes-is-one-too-many") == 11
        && Name::read("a").ok() < Name::read("ab").ok()
        && Size::check(1000, 0, 0) == Err(Refusal::OutOfRange)
        && Size::check(0, 1000, 0) == Err(Refusal::OutOfRange)
        && Size::check(1000, 1000, 1_000_001) == Err(Refusal::OutOfRange)
        && Size::check(1, 1, 0).is_ok()
        && Size::check(1_000_000, 1_000_000, 1_000_000).is_ok()
}

fn says<T: Display>(alloc: Global, value: &T, words: &str) -> bool {
    match value.to_string(alloc) {
        Ok(said) => said.as_str() == words,
        Err(_) => false,
    }
}

fn refuses(alloc: Global, refusal: Refusal, number: u8, words: &str) -> bool {
    refusal.number() == number && says(alloc, &refusal, words)
}

fn says_refusals(alloc: Global) -> bool {
    let second = Refusal::NotLeader(Leader::new(ServerId::from_number(2)));
    let nobody = Refusal::NotLeader(Leader::new(None));
    let fault = "the bytes are at fault at offset 31";
    refuses(alloc, Refusal::NoMemory, 1, "memory ran out")
        && refuses(
            alloc,
            second,
            2,
            "this server does not lead: server 2 leads",
        )
        && refuses(
            alloc,
            nobody,
            2,
            "this server does not lead: no leader is known",
        )
        && refuses(alloc, Refusal::Frame(31), 15, fault)
        && refuses(
            alloc,
            Refusal::UnknownAlloc,
            21,
            "there is no such allocation",
        )
}

fn says_amount(alloc: Global) -> bool {
    match Amount::new(1000) {
        Some(amount) => says(alloc, &amount, "1000"),
        None => false,
    }
}

/// What is read as a list, or as an option.
#[derive(Clone, Copy)]
enum List {
    Amounts,
    LongAmounts,
    Ids,
    LongIds,
    Evaluations,
    OneAmount,
}

// The list, the place, the greatest count and the bytes; and how many items there are, and where
// they end; or 99, and where the fault is.
type Row = (List, usize, u8, &'static [u8], (usize, usize));

const LISTS: &[Row] = &[
    (List::Amounts, 0, 3, &[3, 0, 0, 0, 0, 0, 0], (3, 7)),
    (List::Amounts, 0, 2, &[3, 0, 0, 0, 0, 0, 0], (99, 0)),
    (
        List::LongAmounts,
        0,
        3,
        &[0, 0, 0, 3, 0, 0, 0, 0, 0, 0],
        (3, 10),
    ),
    // Ids of allocations, 5.0, 5.1 and 5.1: the last does not rise.
    (List::Ids, 3, 3, IDS, (99, 22)),
    (List::LongIds, 0, 3, IDS, (99, 22)),
    // Evaluations 4.0 of job a with priority 50, blocked at 3, and then 4.0 or 5.0. An id that does
    // not rise is at fault where its row begins, whatever follows; behind one that rises a priority
    // of 0 is.
    (List::Evaluations, 0, 2, TWICE, (99, 26)),
    (List::Evaluations, 0, 2, RISING, (2, 48)),
    (List::Evaluations, 0, 1, RISING, (99, 0)),
    (List::Evaluations, 0, 2, RISING_NO_PRIORITY, (99, 38)),
    (List::Evaluations, 0, 2, TWICE_NO_PRIORITY, (99, 26)),
    // An amount where there is one, and none.
    (List::OneAmount, 0, 1, &[1, 3, 232], (1000, 3)),
    (List::OneAmount, 0, 1, &[0, 1], (0, 1)),
];

const IDS: &[u8] = &[
    0, 0, 0, 3, 0, 0, 0, 0, 0, 0, 0, 5, 0, 0, 0, 0, 0, 0, 0, 0, 5, 1, 0, 0, 0, 0, 0, 0, 0, 5, 1,
];

const TWICE: &[u8] =
    b"\0\0\0\x02\0\0\0\0\0\0\0\x04\0\0\x01a\x32\x01\0\0\0\0\0\0\0\x03\0\0\0\0\0\0\0\x04\0\0\x01a\x32\x01\0\0\0\0\0\0\0\x03";

const RISING: &[u8] =
    b"\0\0\0\x02\0\0\0\0\0\0\0\x04\0\0\x01a\x32\x01\0\0\0\0\0\0\0\x03\0\0\0\0\0\0\0\x05\0\0\x01a\x32\x01\0\0\0\0\0\0\0\x03";

const RISING_NO_PRIORITY: &[u8] =
    b"\0\0\0\x02\0\0\0\0\0\0\0\x04\0\0\x01a\x32\x01\0\0\0\0\0\0\0\x03\0\0\0\0\0\0\0\x05\0\0\x01a\0\x01\0\0\0\0\0\0\0\x03";

const TWICE_NO_PRIORITY: &[u8] =
    b"\0\0\0\x02\0\0\0\0\0\0\0\x04\0\0\x01a\x32\x01\0\0\0\0\0\0\0\x03\0\0\0\0\0\0\0\x04\0\0\x01a\0\x01\0\0\0\0\0\0\0\x03";

fn extent_of<T: Drop>(read: Result<(Sequence<T>, usize), Refusal>) -> (usize, usize) {
    match read {
        Ok((list, end)) => (list.len(), end),
        Err(Refusal::Frame(place)) => (99, place),
        Err(_) => (99, usize::MAX),
    }
}

fn extent(alloc: Global, row: &Row) -> (usize, usize) {
    let (list, at, most, bytes, _) = *row;
    let long = u32::from(most);
    let version = Version::newest();
    match list {
        List::Amounts => extent_of(read_list::<Amount>(version, alloc, bytes, at, most)),
        List::LongAmounts => extent_of(read_long_list::<Amount>(version, alloc, bytes, at, long)),
        List::Ids => extent_of(read_ruled_list::<AllocId>(version, alloc, bytes, at, most)),
        List::LongIds => extent_of(read_long_ruled_list::<AllocId>(
            version, alloc, bytes, at, long,
        )),
        List::Evaluations => {
            extent_of(read_long_ruled_list::<Evaluation>(version, alloc, bytes, at, long))
        }
        List::OneAmount => match read_option::<Amount>(version, alloc, bytes, at) {
            Ok((Some(amount), end)) => (amount.get() as usize, end),
            Ok((None, end)) => (0, end),
            Err(_) => (99, at),
        },
    }
}

#[test]
fn values_are_read_and_written(rt: HostRuntime) {
    let alloc = rt.alloc();
    assert!(rt; are_written(alloc) && are_lists_written(alloc));
    assert!(rt; is_entry(alloc, &[0, 0, 0, 0, 0, 0, 0, 1, 1, 3, 232], 1000));
    assert!(rt; reads_names() && says_refusals(alloc) && says_amount(alloc));
    for (number, row) in LISTS.iter().enumerate() {
        assert!(rt; extent(alloc, row) == row.4, "list {number}");
    }
}
