//! Frames of workers, the leader's desk and agents, put together by hand from the format.

/// The version that frames have, and their first byte.
const V: u8 = 3;

pub(super) const TAKE: &[u8] = &[V, 7, 1, 1, 0, 0, 0, 0];

pub(super) const DELIVERED: &[u8] = &[
    V, 8, 1, 2, 0, 0, 0, 35, 1, //
    0, 0, 0, 0, 0, 0, 0, 4, 0, 0, //
    0, 0, 0, 0, 0, 0, 0, 1, 0, 0, 0, 0, 0, 0, 0, 1, //
    0, 0, 0, 0, 0, 0, 0, 4,
];

pub(super) const NOTHING: &[u8] = &[V, 8, 2, 2, 0, 0, 0, 1, 0];

pub(super) const SUBMIT: &[u8] = &[
    V, 9, 2, 1, 0, 0, 0, 61, //
    0, 0, 0, 0, 0, 0, 0, 4, 0, 1, //
    0, 0, 0, 0, 0, 0, 0, 1, 0, 0, 0, 0, 0, 0, 0, 3, //
    3, 119, 101, 98, //
    0, 0, 0, 0, 0, 0, 0, 2, 0, 0, 0, 0, 0, 0, 0, 5, //
    1, 0, 0, 0, 0, 0, 0, 0, 3, 2, //
    1, 1, 97, 0, 7,
];

pub(super) const RESULT: &[u8] = &[
    V, 10, 1, 2, 0, 0, 0, 38, //
    0, 0, 0, 0, 0, 0, 0, 4, 0, 1, //
    0, 0, 0, 0, 0, 0, 0, 1, 0, 0, 0, 0, 0, 0, 0, 3, //
    0, 0, 0, 0, 0, 0, 0, 9, 64, 2, 3, 64,
];

pub(super) const BLOCKED: &[u8] = &[
    V, 11, 2, 1, 0, 0, 0, 35, //
    0, 0, 0, 0, 0, 0, 0, 4, 0, 1, //
    0, 0, 0, 0, 0, 0, 0, 1, 0, 0, 0, 0, 0, 0, 0, 3, //
    1, 0, 0, 0, 0, 0, 0, 0, 5,
];

pub(super) const COMPLETE: &[u8] = &[
    V, 11, 2, 1, 0, 0, 0, 35, //
    0, 0, 0, 0, 0, 0, 0, 4, 0, 1, //
    0, 0, 0, 0, 0, 0, 0, 1, 0, 0, 0, 0, 0, 0, 0, 3, //
    2, 0, 0, 0, 0, 0, 0, 0, 0,
];

pub(super) const NACK: &[u8] = &[
    V, 12, 2, 1, 0, 0, 0, 26, //
    0, 0, 0, 0, 0, 0, 0, 4, 0, 1, //
    0, 0, 0, 0, 0, 0, 0, 1, 0, 0, 0, 0, 0, 0, 0, 3,
];

pub(super) const TAKE_REFUSED: &[u8] = &[V, 13, 1, 2, 0, 0, 0, 4, 7, 0, 2, 3];

pub(super) const SUBMIT_REFUSED: &[u8] = &[
    V, 13, 1, 2, 0, 0, 0, 30, 9, 1, //
    0, 0, 0, 0, 0, 0, 0, 4, 0, 1, //
    0, 0, 0, 0, 0, 0, 0, 1, 0, 0, 0, 0, 0, 0, 0, 3, //
    5, 0,
];

pub(super) const REGISTER: &[u8] = &[
    V, 14, 129, 1, 0, 0, 0, 18, //
    5, 108, 105, 110, 117, 120, 0, 0, 3, 232, 0, 0, 3, 232, 0, 0, 0, 5,
];

pub(super) const HEARTBEAT: &[u8] = &[V, 15, 129, 1, 0, 0, 0, 0];

pub(super) const PULL: &[u8] = &[V, 16, 192, 5, 0, 0, 0, 0];

// 8.0 of 600, 300 and disk 0 is pending, 8.63 of 1 and twice 1,000,000 runs.
pub(super) const LIST: &[u8] = &[
    V, 17, 1, 129, 0, 0, 0, 56, //
    0, 0, 0, 0, 0, 0, 0, 9, 0, 0, 0, 2, //
    0, 0, 0, 0, 0, 0, 0, 8, 0, 0, 0, 2, 88, 0, 0, 1, 44, 0, 0, 0, 0, 0, //
    0, 0, 0, 0, 0, 0, 0, 8, 63, 0, 0, 0, 1, 0, 15, 66, 64, 0, 15, 66, 64, 1,
];

pub(super) const NONE_LISTED: &[u8] = &[
    V, 17, 5, 192, 0, 0, 0, 12, 0, 0, 0, 0, 0, 0, 0, 0, 0, 0, 0, 0,
];

// 8.1 of 600, 300 and disk 0 is unknown.
pub(super) const UNKNOWN_LISTED: &[u8] = &[
    V, 17, 1, 129, 0, 0, 0, 34, 0, 0, 0, 0, 0, 0, 0, 9, 0, 0, 0, 1, //
    0, 0, 0, 0, 0, 0, 0, 8, 1, 0, 0, 2, 88, 0, 0, 1, 44, 0, 0, 0, 0, 2,
];

// So many are said to be listed as are allowed, and none is there.
pub(super) const MOST_LISTED: &[u8] = &[
    V, 17, 1, 129, 0, 0, 0, 12, 0, 0, 0, 0, 0, 0, 0, 0, 0, 1, 0, 0,
];

// The front of the frame of a list of 65,536 allocations, in the state of index 1,024; and what
// stands behind the id of each: 600, 300, disk 7, and that it runs.
pub(super) const LONGEST: &[u8] = &[
    V, 17, 1, 129, 0, 22, 0, 12, 0, 0, 0, 0, 0, 0, 4, 0, 0, 1, 0, 0,
];

pub(super) const EACH: &[u8] = &[0, 0, 2, 88, 0, 0, 1, 44, 0, 0, 0, 7, 1];

// 8.1 completed, 8.63 failed, 8.1 runs: in any order, and also twice.
pub(super) const REPORT: &[u8] = &[
    V, 18, 129, 1, 0, 0, 0, 31, 3, //
    0, 0, 0, 0, 0, 0, 0, 8, 1, 2, //
    0, 0, 0, 0, 0, 0, 0, 8, 63, 3, //
    0, 0, 0, 0, 0, 0, 0, 8, 1, 1,
];

pub(super) const TAKEN: &[u8] = &[V, 19, 1, 129, 0, 0, 0, 3, 14, 0, 0];

pub(super) const REPORT_REFUSED: &[u8] = &[V, 19, 5, 192, 0, 0, 0, 3, 18, 2, 0];
