//! What becomes of messages: the fates that words give, and the words of a key.
use lossy_net::{Fates, MessageFate, fate};

// A word, the percentages of lost and of repeated messages, and the fate.
type Row = (u32, u8, u8, MessageFate);

// 4,294,967,295 leaves 95. Percentages may be 0 or 100, or more than 100 together.
const FATES: &[Row] = &[
    (129, 30, 10, MessageFate::Lose),
    (130, 30, 10, MessageFate::Repeat),
    (139, 30, 10, MessageFate::Repeat),
    (140, 30, 10, MessageFate::Once),
    (99, 0, 0, MessageFate::Once),
    (0, 0, 0, MessageFate::Once),
    (100, 1, 0, MessageFate::Lose),
    (101, 1, 0, MessageFate::Once),
    (u32::MAX, 96, 0, MessageFate::Lose),
    (u32::MAX, 95, 1, MessageFate::Repeat),
    (u32::MAX, 90, 5, MessageFate::Once),
    (99, 100, 0, MessageFate::Lose),
    (99, 99, 1, MessageFate::Repeat),
    (0, 0, 100, MessageFate::Repeat),
    (59, 60, 255, MessageFate::Lose),
    (99, 60, 255, MessageFate::Repeat),
    (99, 255, 255, MessageFate::Lose),
];

// Places of words, from 0: about the first block's end and the fourth's.
const PLACES: [usize; 8] = [0, 1, 15, 16, 17, 63, 64, 65];

// The words of a key at those places, by an implementation that was written from the paper, and
// agrees with the published block of 20 rounds and with the published words of the zero key.
type Words = (u64, [u32; 8]);

const WORDS: &[Words] = &[
    (
        0,
        [
            0x2fef003e, 0xd6405f89, 0x42fe0c0e, 0x0dfaaed2, 0x51c1a5ea, 0x01bf7962, 0x475ff7e8,
            0x59d1b08c,
        ],
    ),
    (
        1,
        [
            0x4d81d885, 0xc4bfb1bb, 0xcb4e8395, 0xb68e3768, 0x6d39a692, 0x1a165ced, 0x2a3bfa18,
            0xb8278305,
        ],
    ),
    (
        258,
        [
            0x00b339ec, 0xbaa76f7a, 0x4994d128, 0x0ae04aa7, 0x7a8390e9, 0x8e0a1bb8, 0x903cf508,
            0x29accf98,
        ],
    ),
    (
        u64::MAX,
        [
            0x227148c7, 0xb44e8639, 0x92f19118, 0xb8226c2f, 0x97ba80b1, 0x04f55077, 0xe1b100dc,
            0xa8e00c28,
        ],
    ),
];

fn word_at(key: u64, place: usize) -> u32 {
    let mut fates = Fates::new(key);
    for _ in 0..place {
        fates.next();
    }
    fates.next()
}

fn has_words(row: &Words) -> bool {
    let (key, words) = *row;
    let mut same = true;
    for (word, place) in words.iter().zip(PLACES.iter()) {
        same = same && word_at(key, *place) == *word;
    }
    same
}

#[test]
fn messages_have_their_fates(rt: HostRuntime) {
    for (number, row) in FATES.iter().enumerate() {
        let (word, drop, repeat, wanted) = *row;
        assert!(rt; fate(word, drop, repeat) == wanted, "fate {number}");
    }
}

#[test]
fn keys_have_their_words(rt: HostRuntime) {
    for (number, row) in WORDS.iter().enumerate() {
        assert!(rt; has_words(row), "words {number}");
    }
}
