//! Texts of fields against bytes that were put together by hand: which are read as a value that is
//! written so again, and where the others are at fault.
use fields::Field;
use machine::{Amount, Coded, Entry, Tally, TallyCommand};
use rows::{
    AcceptedPlace, Actor, AllocId, Allocation, Command, Delivery, EvalId, Group, Index, Job,
    ListedAllocation, Name, Node, NodeId, NodeSpec, Refusal, ServerId, Size, Space, Term, Version,
};
use std::alloc::Global;

/// No fault: the bytes are the text of the value that is read.
pub(crate) const NONE: usize = usize::MAX;

/// What is no fault of the bytes: memory was wanting, or the value that is read is written
/// otherwise.
const WRONG: usize = usize::MAX - 1;

/// What bytes are read as.
#[derive(Clone, Copy)]
enum Of {
    Byte,
    Short,
    Word,
    Long,
    Flag,
    Term,
    Index,
    Server,
    Actor,
    Name,
    Space,
    Size,
    Delivery,
    Eval,
    Alloc,
    Node,
    Addition,
    Amount,
    Entry,
}

/// Where the bytes from a place on are at fault, as a field; the first byte behind its text where
/// some are left over.
fn fault_of<F: Field>(alloc: Global, bytes: &[u8], at: usize) -> usize {
    match F::read_at(Version::newest(), alloc, bytes, at) {
        Err(Refusal::Frame(place)) => place,
        Err(_) => WRONG,
        Ok((value, end)) => {
            let mut again = Vec::new(alloc);
            let written = fields::write(&value, &mut again);
            if end < bytes.len() {
                end
            } else if written.is_ok() && at <= bytes.len() && again.as_slice() == &bytes[at..] {
                NONE
            } else {
                WRONG
            }
        }
    }
}

fn fault(alloc: Global, of: Of, bytes: &[u8], at: usize) -> usize {
    match of {
        Of::Byte => fault_of::<u8>(alloc, bytes, at),
        Of::Short => fault_of::<u16>(alloc, bytes, at),
        Of::Word => fault_of::<u32>(alloc, bytes, at),
        Of::Long => fault_of::<u64>(alloc, bytes, at),
        Of::Flag => fault_of::<bool>(alloc, bytes, at),
        Of::Term => fault_of::<Term>(alloc, bytes, at),
        Of::Index => fault_of::<Index>(alloc, bytes, at),
        Of::Server => fault_of::<ServerId>(alloc, bytes, at),
        Of::Actor => fault_of::<Actor>(alloc, bytes, at),
        Of::Name => fault_of::<Name>(alloc, bytes, at),
        Of::Space => fault_of::<Space>(alloc, bytes, at),
        Of::Size => fault_of::<Size>(alloc, bytes, at),
        Of::Delivery => fault_of::<Delivery>(alloc, bytes, at),
        Of::Eval => fault_of::<EvalId>(alloc, bytes, at),
        Of::Alloc => fault_of::<AllocId>(alloc, bytes, at),
        Of::Node => fault_of::<NodeId>(alloc, bytes, at),
        Of::Addition => fault_of::<TallyCommand>(alloc, bytes, at),
        Of::Entry => fault_of::<Entry<Coded<Tally>>>(alloc, bytes, at),
        Of::Amount => fault_of::<Amount>(alloc, bytes, at),
    }
}

/// What is read, at which place, the bytes, and where they are at fault.
type Text = (Of, usize, &'static [u8], usize);

const TEXTS: &[Text] = &[
    // A field behind one byte of another.
    (Of::Byte, 1, &[9, 200], NONE),
    (Of::Short, 1, &[9, 1, 2], NONE),
    (Of::Word, 1, &[9, 0, 0, 3, 232], NONE),
    (
        Of::Long,
        1,
        &[9, 255, 255, 255, 255, 255, 255, 255, 255],
        NONE,
    ),
    (Of::Flag, 1, &[9, 1], NONE),
    (Of::Term, 1, &[9, 0, 0, 0, 255, 255, 255, 255, 255], NONE),
    (Of::Index, 1, &[9, 0, 0, 0, 0, 0, 0, 0, 1], NONE),
    (Of::Server, 1, &[9, 5], NONE),
    (Of::Actor, 1, &[9, 5], NONE),
    (Of::Actor, 1, &[9, 192], NONE),
    (Of::Amount, 1, &[9, 3, 232], NONE),
    // Terms and indexes from 2^40 on, a flag of 2, and numbers that are no server's and no
    // client's.
    (Of::Term, 1, &[9, 0, 0, 1, 0, 0, 0, 0, 0], 1),
    (Of::Index, 1, &[9, 0, 0, 1, 0, 0, 0, 0, 0], 1),
    (Of::Flag, 1, &[9, 2], 1),
    (Of::Actor, 1, &[9, 0], 1),
    (Of::Actor, 1, &[9, 6], 1),
    (Of::Actor, 1, &[9, 128], 1),
    (Of::Actor, 1, &[9, 193], 1),
    // Names, sizes, ids and tokens, and an entry of a log.
    (Of::Name, 0, b"\x05linux", NONE),
    (Of::Name, 0, b"\x05Linux", 0),
    (Of::Name, 0, b"\x05linu", 0),
    (Of::Name, 0, b"\x00", 0),
    (Of::Space, 1, &[9, 0, 15, 66, 64], NONE),
    (Of::Space, 0, &[0, 0, 0, 0], NONE),
    (Of::Space, 1, &[9, 0, 15, 66, 65], 1),
    (
        Of::Size,
        0,
        &[0, 0, 3, 232, 0, 15, 66, 64, 0, 15, 66, 64],
        NONE,
    ),
    (
        Of::Size,
        0,
        &[0, 0, 3, 232, 0, 15, 66, 64, 0, 0, 0, 0],
        NONE,
    ),
    (Of::Size, 0, &[0, 0, 3, 232, 0, 15, 66, 65, 0, 0, 0, 0], 4),
    (
        Of::Size,
        0,
        &[0, 0, 3, 232, 0, 15, 66, 64, 0, 15, 66, 65],
        8,
    ),
    (Of::Size, 0, &[0, 0, 3, 232, 0, 15, 66, 64, 0, 15, 66], 8),
    (Of::Size, 0, &[0, 0, 3, 232, 0, 15, 66, 64], 8),
    (
        Of::Delivery,
        0,
        &[
            0, 0, 0, 0, 0, 0, 0, 4, 0, 0, 0, 0, 0, 0, 0, 0, 0, 1, 0, 0, 0, 0, 0, 0, 0, 1, 0, 0, 0,
            0, 0, 0, 0, 4,
        ],
        NONE,
    ),
    (Of::Eval, 0, &[0, 0, 0, 0, 0, 0, 0, 4, 0, 255], NONE),
    (Of::Eval, 0, &[0, 0, 0, 0, 0, 0, 0, 4, 1, 0], 8),
    (Of::Eval, 0, &[0, 0, 0, 0, 0, 0, 0, 0, 0, 0], 0),
    (Of::Alloc, 0, &[0, 0, 0, 255, 255, 255, 255, 255, 63], NONE),
    (Of::Alloc, 0, &[0, 0, 0, 0, 0, 0, 0, 1, 64], 8),
    (Of::Node, 0, &[65], 0),
    (Of::Entry, 0, &[0, 0, 0, 0, 0, 0, 0, 1, 1, 3, 232], NONE),
    (Of::Addition, 0, &[0, 9], 1),
    (Of::Addition, 0, &[1, 3, 233], 1),
];

// Each cut of a field behind another byte is at fault where it begins.
fn is_refused_cut(alloc: Global, of: Of, bytes: &[u8]) -> bool {
    for cut in 1..bytes.len() {
        if fault(alloc, of, bytes.get(..cut).unwrap_or(&[]), 1) != 1 {
            return false;
        }
    }
    true
}

fn is_read(alloc: Global, text: &Text) -> bool {
    let (of, at, bytes, place) = *text;
    fault(alloc, of, bytes, at) == place
        && (at != 1 || place != NONE || is_refused_cut(alloc, of, bytes))
}

/// What is read as of an older version.
#[derive(Clone, Copy)]
enum Old {
    Size,
    Group,
    NodeSpec,
    Node,
    Job,
    AcceptedPlace,
    Allocation,
    ListedAllocation,
    Command,
}

/// What is read as of the first version, its bytes there, and those of the same value today: each
/// size says nothing of disk there, and has disk 0. They are its bytes in the second version too.
/// What is listed stands in frames alone, and is read as today in each version.
type OldText = (Old, &'static [u8], &'static [u8]);

const OLD: &[OldText] = &[
    (
        Old::Size,
        &[0, 0, 2, 88, 0, 0, 1, 44],
        &[0, 0, 2, 88, 0, 0, 1, 44, 0, 0, 0, 0],
    ),
    (
        Old::Group,
        &[1, 103, 2, 1, 120, 0, 0, 2, 88, 0, 0, 1, 44],
        &[1, 103, 2, 1, 120, 0, 0, 2, 88, 0, 0, 1, 44, 0, 0, 0, 0],
    ),
    (
        Old::NodeSpec,
        &[1, 1, 120, 0, 0, 3, 232, 0, 0, 7, 208],
        &[1, 1, 120, 0, 0, 3, 232, 0, 0, 7, 208, 0, 0, 0, 0],
    ),
    (
        Old::Node,
        &[
            1, 1, 120, 0, 0, 3, 232, 0, 0, 7, 208, 0, 1, 0, 0, 0, 0, 0, 0, 0, 0, 1,
        ],
        &[
            1, 1, 120, 0, 0, 3, 232, 0, 0, 7, 208, 0, 0, 0, 0, 0, 1, 0, 0, 0, 0, 0, 0, 0, 0, 1,
        ],
    ),
    (
        Old::Job,
        &[
            1, 119, 50, 0, 0, 0, 0, 0, 0, 0, 0, 2, 2, 1, 103, 2, 1, 120, 0, 0, 2, 88, 0, 0, 1, 44,
            1, 104, 0, 1, 120, 0, 0, 0, 1, 0, 0, 0, 1,
        ],
        &[
            1, 119, 50, 0, 0, 0, 0, 0, 0, 0, 0, 2, 2, 1, 103, 2, 1, 120, 0, 0, 2, 88, 0, 0, 1, 44,
            0, 0, 0, 0, 1, 104, 0, 1, 120, 0, 0, 0, 1, 0, 0, 0, 1, 0, 0, 0, 0,
        ],
    ),
    (
        Old::AcceptedPlace,
        &[1, 103, 63, 64, 0, 0, 0, 1, 0, 0, 0, 2],
        &[1, 103, 63, 64, 0, 0, 0, 1, 0, 0, 0, 2, 0, 0, 0, 0],
    ),
    (
        Old::Allocation,
        &[
            0, 0, 0, 0, 0, 0, 0, 3, 0, 1, 119, 1, 103, 0, 1, 0, 0, 2, 88, 0, 0, 1, 44, 0, 1, 0, 0,
            0, 0, 0, 0, 0, 0, 2, 0, 0,
        ],
        &[
            0, 0, 0, 0, 0, 0, 0, 3, 0, 1, 119, 1, 103, 0, 1, 0, 0, 2, 88, 0, 0, 1, 44, 0, 0, 0, 0,
            0, 1, 0, 0, 0, 0, 0, 0, 0, 0, 2, 0, 0,
        ],
    ),
    (
        Old::ListedAllocation,
        &[
            0, 0, 0, 0, 0, 0, 0, 8, 0, 0, 0, 2, 88, 0, 0, 1, 44, 0, 0, 0, 0, 0,
        ],
        &[
            0, 0, 0, 0, 0, 0, 0, 8, 0, 0, 0, 2, 88, 0, 0, 1, 44, 0, 0, 0, 0, 0,
        ],
    ),
    (
        Old::Command,
        &[3, 1, 1, 120, 0, 0, 3, 232, 0, 0, 7, 208],
        &[3, 1, 1, 120, 0, 0, 3, 232, 0, 0, 7, 208, 0, 0, 0, 0],
    ),
];

/// What is read as of a version, its number, the bytes, and where they are at fault.
type NewText = (Old, u8, &'static [u8], usize);

// No node is disconnected, no allocation is unknown and no command is the last one before the third
// version: a text that says so is at fault there, also where what follows is cut.
const NEW: &[NewText] = &[
    (Old::Node, 1, AWAY_IN_FIRST, 11),
    (Old::Node, 2, AWAY, 15),
    (Old::Node, 3, AWAY, NONE),
    (Old::Allocation, 1, UNKNOWN_IN_FIRST, 24),
    (Old::Allocation, 2, UNKNOWN, 28),
    (Old::Allocation, 3, UNKNOWN, NONE),
    (Old::Command, 1, &[12, 9], 0),
    (Old::Command, 2, &[12, 9], 0),
    (Old::Command, 2, &[12], 0),
    (Old::Command, 3, &[12, 9], NONE),
    (Old::Command, 3, &[12], 1),
    (Old::Command, 3, &[13], 0),
];

// Node 1 of class x, 1000 and 2000, which is disconnected, in the first version and today.
const AWAY_IN_FIRST: &[u8] = &[
    1, 1, 120, 0, 0, 3, 232, 0, 0, 7, 208, 2, 1, 0, 0, 0, 0, 0, 0, 0, 0, 1,
];

const AWAY: &[u8] = &[
    1, 1, 120, 0, 0, 3, 232, 0, 0, 7, 208, 0, 0, 0, 0, 2, 1, 0, 0, 0, 0, 0, 0, 0, 0, 1,
];

// Allocation 3.0 on it, which is unknown, in the first version and today.
const UNKNOWN_IN_FIRST: &[u8] = &[
    0, 0, 0, 0, 0, 0, 0, 3, 0, 1, 119, 1, 103, 0, 1, 0, 0, 2, 88, 0, 0, 1, 44, 0, 5, 0, 0, 0, 0, 0,
    0, 0, 0, 2, 0, 0,
];

const UNKNOWN: &[u8] = &[
    0, 0, 0, 0, 0, 0, 0, 3, 0, 1, 119, 1, 103, 0, 1, 0, 0, 2, 88, 0, 0, 1, 44, 0, 0, 0, 0, 0, 5, 0,
    0, 0, 0, 0, 0, 0, 0, 2, 0, 0,
];

/// Where bytes are at fault as a field of a version; nowhere where the value that is read is
/// written as these bytes.
fn fault_in<F: Field>(version: u8, alloc: Global, bytes: &[u8]) -> usize {
    let Some(version) = Version::new(version) else {
        return WRONG;
    };
    match F::read_at(version, alloc, bytes, 0) {
        Err(Refusal::Frame(place)) => place,
        Err(_) => WRONG,
        Ok((value, end)) => {
            let mut again = Vec::new(alloc);
            let written = fields::write(&value, &mut again);
            if written.is_ok() && end == bytes.len() && again.as_slice() == bytes {
                NONE
            } else {
                WRONG
            }
        }
    }
}

fn is_new(alloc: Global, text: &NewText) -> bool {
    let (of, version, bytes, place) = *text;
    match of {
        Old::Node => fault_in::<Node>(version, alloc, bytes) == place,
        Old::Allocation => fault_in::<Allocation>(version, alloc, bytes) == place,
        Old::Command => fault_in::<Command>(version, alloc, bytes) == place,
        _ => false,
    }
}

/// Whether these are the bytes of a value in a version, and the others those of today.
fn is_read_in<F: Field>(version: u8, alloc: Global, bytes: &[u8], newest: &[u8]) -> bool {
    let Some(version) = Version::new(version) else {
        return false;
    };
    match F::read_at(version, alloc, bytes, 0) {
        Ok((value, end)) => {
            let mut again = Vec::new(alloc);
            let written = fields::write(&value, &mut again);
            written.is_ok() && end == bytes.len() && again.as_slice() == newest
        }
        Err(_) => false,
    }
}

/// Whether these are the bytes of a value in the first version, and the others those of the second
/// and of today.
fn is_same<F: Field>(alloc: Global, bytes: &[u8], newest: &[u8]) -> bool {
    is_read_in::<F>(1, alloc, bytes, newest) && is_read_in::<F>(2, alloc, newest, newest)
}

fn is_old(alloc: Global, text: &OldText) -> bool {
    let (of, bytes, newest) = *text;
    match of {
        Old::Size => is_same::<Size>(alloc, bytes, newest),
        Old::Group => is_same::<Group>(alloc, bytes, newest),
        Old::NodeSpec => is_same::<NodeSpec>(alloc, bytes, newest),
        Old::Node => is_same::<Node>(alloc, bytes, newest),
        Old::Job => is_same::<Job>(alloc, bytes, newest),
        Old::AcceptedPlace => is_same::<AcceptedPlace>(alloc, bytes, newest),
        Old::Allocation => is_same::<Allocation>(alloc, bytes, newest),
        Old::ListedAllocation => is_same::<ListedAllocation>(alloc, bytes, newest),
        Old::Command => is_same::<Command>(alloc, bytes, newest),
    }
}

#[test]
fn reads_texts(rt: HostRuntime) {
    for (number, text) in TEXTS.iter().enumerate() {
        assert!(rt; is_read(rt.alloc(), text), "text {number}");
    }
    for (number, text) in OLD.iter().enumerate() {
        assert!(rt; is_old(rt.alloc(), text), "old text {number}");
    }
    for (number, text) in NEW.iter().enumerate() {
        assert!(rt; is_new(rt.alloc(), text), "new text {number}");
    }
}
