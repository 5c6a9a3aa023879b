//! Commands and rows in words, and the bytes that the format gives them.

// For each kind of line the tag in front of its bytes, `-` for none, and its fields: a number of 1,
// 2, 4 or 8 bytes, a name (n), an id of an allocation (a) or of an evaluation (e), a token (t), a
// list with its count in one byte (A, P, L, N, R, G), or one of some words. What stands behind the
// key of a row has a line of its own; so have plans and steps of workers, with numbers of ours.
const FORMATS: &str = "\
noop 0 -
add 1 2
tally - 82
put 1 n1G
stop 2 n
join 3 1n444
lose 4 1
drain 5 1f
drained 6 1
migrate 7 A
eval 8 n
status 9 es8
plan 10 etn8AP
report 11 1R
disconnect 12 1
offer - etn88AL
kept - etn8APN
state - 8
rows - 4
job - n1y8G
node - 1n444uym8
evaluation - en1s8
allocation - ann11444dcye
any-job - 1y8G
any-node - n444uym8
any-evaluation - n1s8
any-allocation - nn11444dcye
planned - AL88y
later 90 -
nothing 91 -
submit 92 etn88AL
finish 93 ets8
nack 94 et
raw - 1111111111111111111111111111111111111111111111111111111111111111\
1111111111111111111111111111111111111111111111111111111111111111\
1111111111111111111111111111111111111111111111111111111111111111";

// The words of fields of few values: yes or no (y), how a node is drained (f, and m in its row),
// the statuses of evaluations (s), of reports (r) and of clients (c), what is desired (d), and
// a node's status (u). Behind each field its number there.
const CHOICES: &str = "\
no y0
yes y1
slow f0m1
force f1m2
none m0
pending s0c0
blocked s1
complete s2r2c2
failed s3r3c3
running r1c1
lost c4
unknown c5
run d0
stop d1
ready u0
down u1
disconnected u2";

/// What stands behind a word and a space in a line of a table.
pub(crate) fn look_up(table: &'static str, word: &str) -> Option<&'static str> {
    for line in table.lines() {
        if let Some((head, rest)) = line.split_once(' ') {
            if head == word {
                return Some(rest);
            }
        }
    }
    None
}

fn put_number(out: &mut Vec<u8>, word: &str, width: usize) -> bool {
    let Ok(number) = word.parse::<u64>() else {
        return false;
    };
    match number.to_be_bytes().get(8usize.saturating_sub(width)..) {
        Some(low) => out.extend_from_slice(low).is_ok(),
        None => false,
    }
}

/// Two numbers with a point between them, the first of 8 bytes.
pub(crate) fn put_pair(out: &mut Vec<u8>, word: &str, width: usize) -> bool {
    match word.split_once('.') {
        Some((index, slot)) => put_number(out, index, 8) && put_number(out, slot, width),
        None => false,
    }
}

fn put_choice(out: &mut Vec<u8>, kind: char, word: &str) -> bool {
    match look_up(CHOICES, word) {
        Some(numbers) => match numbers.split_once(kind) {
            Some((_, rest)) => put_number(out, rest.get(..1).unwrap_or(""), 1),
            None => false,
        },
        None => false,
    }
}

fn put_name(out: &mut Vec<u8>, word: &str) -> bool {
    out.push(word.len().min(255) as u8).is_ok() && out.extend_from_slice(word.as_bytes()).is_ok()
}

/// Puts a field of a kind, by what stands for it in a line.
pub(crate) fn put_field(out: &mut Vec<u8>, kind: char, word: &str) -> bool {
    match kind {
        '1' => put_number(out, word, 1),
        '2' => put_number(out, word, 2),
        '4' => put_number(out, word, 4),
        '8' => put_number(out, word, 8),
        'a' => put_pair(out, word, 1),
        'e' => put_pair(out, word, 2),
        't' => put_pair(out, word, 8),
        'n' => put_name(out, word),
        '-' => true,
        _ => put_choice(out, kind, word),
    }
}

// Items with commas between them, their fields with colons.
fn put_list(out: &mut Vec<u8>, kinds: &str, words: &str) -> bool {
    if words == "-" {
        return out.push(0).is_ok();
    }
    let mut put = out.push(words.split(',').count().min(255) as u8).is_ok();
    for item in words.split(',') {
        for (kind, word) in kinds.chars().zip(item.split(':')) {
            put = put && put_field(out, kind, word);
        }
    }
    put
}

fn put_word(out: &mut Vec<u8>, kind: char, word: &str) -> bool {
    let items = match kind {
        'A' => "a",
        'P' => "n11444",
        'L' => "n11",
        'N' => "1",
        'R' => "ar",
        'G' => "n1n444",
        _ => return put_field(out, kind, word),
    };
    put_list(out, items, word)
}

/// Puts the bytes of a line behind the others, and says whether it is one.
pub(crate) fn put_line(out: &mut Vec<u8>, line: &str) -> bool {
    let (head, words) = line.split_once(' ').unwrap_or((line, ""));
    let Some(format) = look_up(FORMATS, head) else {
        return false;
    };
    let (tag, kinds) = format.split_once(' ').unwrap_or(("", ""));
    let mut put = tag == "-" || put_number(out, tag, 1);
    for (kind, word) in kinds.chars().zip(words.split(' ')) {
        put = put && put_word(out, kind, word);
    }
    put
}

// The key of the row of this number, from 0: names of 32 bytes that end in aa to pp, nodes by
// number, 256 evaluations and 64 allocations to an entry.
fn put_key(out: &mut Vec<u8>, kind: &str, number: u16) -> bool {
    let [high, low] = number.to_be_bytes();
    let letters = [b'a' + low / 16, b'a' + low % 16];
    let [e1, e0] = (u16::from(high) + 1).to_be_bytes();
    let [a1, a0] = (number / 64 + 1).to_be_bytes();
    match kind {
        "job" => {
            out.extend_from_slice(b" zzzzzzzzzzzzzzzzzzzzzzzzzzzzzz")
                .is_ok()
                && out.extend_from_slice(&letters).is_ok()
        }
        "node" => out.push(low).is_ok(),
        "evaluation" => out
            .extend_from_slice(&[0, 0, 0, 0, 0, 0, e1, e0, 0, low])
            .is_ok(),
        _ => out
            .extend_from_slice(&[0, 0, 0, 0, 0, 0, a1, a0, low % 64])
            .is_ok(),
    }
}

/// Puts the rows of a kind from one number to another behind the others, the same bytes being
/// behind the key of each.
pub(crate) fn put_many(out: &mut Vec<u8>, kind: &str, first: u16, last: u16, rest: &[u8]) -> bool {
    for number in first..=last {
        if !put_key(out, kind, number) || out.extend_from_slice(rest).is_err() {
            return false;
        }
    }
    true
}
