//! Texts of what a server stores, over the tally: which are read as what is written so again, and
//! where the others are at fault. And one over the replicated state, in each version.
use crate::tests::lines::put_field;
use crate::tests::texts::NONE;
use fsm_state::Cluster;
use machine::Tally;
use raft_snapshot::{read_stable, write_stable};
use rows::Refusal;
use std::alloc::Global;

// Each line says where the text is at fault, `-` where it is that of what is read, and has the
// text's fields: version, term and vote; how many entries are covered, and the last one's term; how
// many entries follow, and these, of which each is a term, with what it adds behind a colon, or how
// often it stands behind a star (`.` where none follows); the count and the sum of the state; and a
// byte more, where there is one.
const TEXTS: &str = "\
- 3 0 0 0 0 0 . 0 0
- 3 3 2 0 0 3 1,3:5,3:1000 0 0
- 3 9 5 4 2 0 . 4 0
- 3 9 1 4 2 1 3:7 4 700
- 3 1 0 4 9 2 3,2 4 1000
- 3 0 0 1099511627775 0 0 . 1099511627775 1
- 3 1099511627775 3 1099511627774 1099511627775 1 7 1099511627774 1
- 3 8 0 5 3 20000 7*20000 5 1";

const FAULTS: &str = "\
0 0 0 0 0 0 0 . 0 0
0 4 0 0 0 0 0 . 0 0
0 255 0 0 0 0 0 . 0 0
1 3 1099511627776 0 0 0 0 . 0 0
9 3 0 6 0 0 0 . 0 0
10 3 0 0 1099511627776 0 0 . 0 0
18 3 0 0 4 1099511627776 0 . 4 0
26 3 0 0 4 1 18446744073709551615 . 4 0
43 3 0 0 4 1 2 . 4 1
34 3 0 0 4 1 1 1099511627776 4 0
43 3 0 0 4 1 1 5:1001 4 0
42 3 0 0 4 1 0 . 4 1001
44 3 0 0 4 1 0 . 4 0 0";

// Where nothing is covered the term is 0, and the state the first one.
const FIRST: &str = "\
18 3 0 0 0 1 0 . 0 0
18 3 7 0 0 7 1 7 0 0
34 3 0 0 0 0 0 . 0 1
34 3 0 0 0 0 0 . 1 0
45 3 0 0 0 0 1 3:7 0 1
42 3 0 0 0 0 0 . 0 1001
44 3 0 0 0 0 0 . 0 1 0";

// The state has seen as many commands as entries are covered.
const COUNTS: &str = "\
34 3 0 0 4 1 0 . 0 0
34 3 0 0 4 1 0 . 3 5
34 3 0 0 4 1 0 . 5 5
52 3 0 0 4 1 2 3,4 5 5
44 3 0 0 4 1 0 . 5 5 0";

// Each entry has a place below 2^40. A count that has none is at fault before an entry is.
const PLACES: &str = "\
26 3 0 0 1099511627775 1 1 . 1099511627775 0
26 3 0 0 1 1 1099511627775 . 1 0
43 3 0 0 1 1 1099511627774 . 1 0
43 3 0 0 0 0 1099511627775 . 0 0
26 3 0 0 0 0 1099511627776 . 0 0";

// Older versions of such texts: the tally's are as today's, and what is read is written as today.
const OLD: &str = "\
- 2 0 0 0 0 0 . 0 0
- 2 3 2 0 0 3 1,3:5,3:1000 0 0
- 2 1 0 4 9 2 3,2 4 1000
9 2 0 6 0 0 0 . 0 0
42 2 0 0 4 1 0 . 4 1001
44 2 0 0 4 1 0 . 4 0 0
34 2 0 0 4 1 0 . 3 5
- 1 0 0 0 0 0 . 0 0
- 1 3 2 0 0 3 1,3:5,3:1000 0 0
- 1 1 0 4 9 2 3,2 4 1000
9 1 0 6 0 0 0 . 0 0
42 1 0 0 4 1 0 . 4 1001
44 1 0 0 4 1 0 . 4 0 0
34 1 0 0 4 1 0 . 3 5";

fn put_entry(out: &mut Vec<u8>, words: &str) -> bool {
    match words.split_once(':') {
        Some((term, amount)) => {
            put_field(out, '8', term) && put_field(out, '1', "1") && put_field(out, '2', amount)
        }
        None => put_field(out, '8', words) && put_field(out, '1', "0"),
    }
}

fn put_entries(out: &mut Vec<u8>, words: &str) -> bool {
    if words == "." {
        return true;
    }
    let mut put = true;
    for word in words.split(',') {
        let (entry, times) = word.split_once('*').unwrap_or((word, "1"));
        for _ in 0..times.parse::<u16>().unwrap_or(0) {
            put = put && put_entry(out, entry);
        }
    }
    put
}

fn put_text(out: &mut Vec<u8>, words: &str) -> bool {
    let mut put = true;
    for (kind, word) in "181888E821".chars().zip(words.split(' ')) {
        put = put
            && match kind {
                'E' => put_entries(out, word),
                _ => put_field(out, kind, word),
            };
    }
    put
}

// What is read is written behind another byte, in the newest version, which is 3.
fn is_as_said(alloc: Global, bytes: &[u8], place: &str) -> bool {
    match read_stable::<Tally>(alloc, bytes) {
        Err(Refusal::Frame(at)) => place.parse() == Ok(at),
        Err(_) => false,
        Ok(stable) => {
            let mut again = Vec::new(alloc);
            place == "-"
                && again.push(9).is_ok()
                && write_stable(&stable, &mut again).is_ok()
                && again.first() == Some(&9)
                && again.get(1) == Some(&3)
                && again.get(2..) == bytes.get(1..)
        }
    }
}

fn is_so(alloc: Global, line: &str) -> bool {
    let (place, words) = line.split_once(' ').unwrap_or((line, ""));
    let mut bytes = Vec::new(alloc);
    put_text(&mut bytes, words) && is_as_said(alloc, &bytes, place)
}

/// What a server stores, behind the byte of the version, today and in the second version: term 2, a
/// vote for server 1, four covered entries, the last of term 1, and behind them an entry of term 2
/// that disconnects node 1; the state after the four, in which that is disconnected already, and
/// allocation 3.0 on it unknown.
const AWAY: &[u8] = &[
    0, 0, 0, 0, 0, 0, 0, 2, 1, 0, 0, 0, 0, 0, 0, 0, 4, 0, 0, 0, 0, 0, 0, 0, 1, 0, 0, 0, 0, 0, 0, 0,
    1, 0, 0, 0, 0, 0, 0, 0, 2, 12, 1, 0, 0, 0, 0, 0, 0, 0, 4, 0, 0, 0, 1, 1, 119, 50, 0, 0, 0, 0,
    0, 0, 0, 0, 2, 1, 1, 103, 2, 1, 120, 0, 0, 2, 88, 0, 0, 1, 44, 0, 0, 0, 0, 0, 0, 0, 1, 1, 1,
    120, 0, 0, 3, 232, 0, 0, 7, 208, 0, 0, 0, 0, 2, 1, 0, 0, 0, 0, 0, 0, 0, 0, 1, 0, 0, 0, 1, 0, 0,
    0, 0, 0, 0, 0, 2, 0, 0, 1, 119, 50, 0, 0, 0, 0, 0, 0, 0, 0, 0, 0, 0, 0, 1, 0, 0, 0, 0, 0, 0, 0,
    3, 0, 1, 119, 1, 103, 0, 1, 0, 0, 2, 88, 0, 0, 1, 44, 0, 0, 0, 0, 0, 5, 0, 0, 0, 0, 0, 0, 0, 0,
    2, 0, 0,
];

/// The same in the first version.
const AWAY_IN_FIRST: &[u8] = &[
    0, 0, 0, 0, 0, 0, 0, 2, 1, 0, 0, 0, 0, 0, 0, 0, 4, 0, 0, 0, 0, 0, 0, 0, 1, 0, 0, 0, 0, 0, 0, 0,
    1, 0, 0, 0, 0, 0, 0, 0, 2, 12, 1, 0, 0, 0, 0, 0, 0, 0, 4, 0, 0, 0, 1, 1, 119, 50, 0, 0, 0, 0,
    0, 0, 0, 0, 2, 1, 1, 103, 2, 1, 120, 0, 0, 2, 88, 0, 0, 1, 44, 0, 0, 0, 1, 1, 1, 120, 0, 0, 3,
    232, 0, 0, 7, 208, 2, 1, 0, 0, 0, 0, 0, 0, 0, 0, 1, 0, 0, 0, 1, 0, 0, 0, 0, 0, 0, 0, 2, 0, 0,
    1, 119, 50, 0, 0, 0, 0, 0, 0, 0, 0, 0, 0, 0, 0, 1, 0, 0, 0, 0, 0, 0, 0, 3, 0, 1, 119, 1, 103,
    0, 1, 0, 0, 2, 88, 0, 0, 1, 44, 0, 5, 0, 0, 0, 0, 0, 0, 0, 0, 2, 0, 0,
];

/// The version; the entry's tag, the node's status and the allocation's state; and where the text
/// is at fault.
const AWAY_TEXTS: &[(u8, [u8; 3], usize)] = &[
    (3, [12, 2, 5], NONE),
    (2, [12, 2, 5], 42),
    (2, [4, 2, 5], 105),
    (2, [4, 1, 5], 174),
    (2, [4, 1, 4], NONE),
    (1, [12, 2, 5], 42),
    (1, [4, 2, 5], 97),
    (1, [4, 1, 5], 162),
    (1, [4, 1, 4], NONE),
    (3, [13, 2, 5], 42),
    (3, [12, 3, 5], 105),
    (3, [12, 2, 6], 174),
];

// The text of a version, with this tag, status and state.
fn put_away(out: &mut Vec<u8>, version: u8, values: [u8; 3]) -> bool {
    let (rest, places): (&[u8], [usize; 3]) = if version == 1 {
        (AWAY_IN_FIRST, [42, 97, 162])
    } else {
        (AWAY, [42, 105, 174])
    };
    let mut put = out.push(version).is_ok() && out.extend_from_slice(rest).is_ok();
    for (place, value) in places.iter().zip(values.iter()) {
        match out.get_mut(*place) {
            Some(byte) => *byte = *value,
            None => put = false,
        }
    }
    put
}

// What is read of an older version is written as today.
fn is_away_text(alloc: Global, row: &(u8, [u8; 3], usize)) -> bool {
    let (version, values, place) = *row;
    let (mut bytes, mut today) = (Vec::new(alloc), Vec::new(alloc));
    if !put_away(&mut bytes, version, values) || !put_away(&mut today, 3, values) {
        return false;
    }
    match read_stable::<Cluster>(alloc, &bytes) {
        Err(Refusal::Frame(at)) => place == at,
        Err(_) => false,
        Ok(stable) => {
            let mut again = Vec::new(alloc);
            place == NONE && write_stable(&stable, &mut again).is_ok() && again == today
        }
    }
}

#[test]
fn stored_texts_are_as_they_are_said(rt: HostRuntime) {
    let alloc = rt.alloc();
    for table in [TEXTS, FAULTS, FIRST, COUNTS, PLACES, OLD] {
        for line in table.lines() {
            assert!(rt; is_so(alloc, line), "{line}");
        }
    }
    for (number, row) in AWAY_TEXTS.iter().enumerate() {
        assert!(rt; is_away_text(alloc, row), "away {number}");
    }
}
