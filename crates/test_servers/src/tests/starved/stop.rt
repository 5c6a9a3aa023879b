//! Why a part ends before its end.
use rows::{NoMemory, Refusal};
use std::alloc::{AllocError, AllocFailed};

/// Why a part ends before its end: there is nothing more to judge, or something is wrong.
#[derive(Clone, Copy)]
pub(super) enum Stop {
    /// Memory was refused to what judges, or to the run that it compares with.
    NoMemory,
    /// The row is none.
    Unread,
    /// A group, or its cells, cannot be made for another reason than memory.
    Unmade,
    /// What was taken, or the crash in its place, is not the one thing more that is kept.
    Unkept,
    /// An actor that crashed is up.
    Up,
    /// A refusal, or a crash, changed what it may not.
    Changed,
    /// The refusal is not the one that the same group gives once more.
    Refusal,
    /// What is kept does not lead there again.
    Elsewhere,
    /// A plain look at the group finds a fault.
    Plain,
    /// Not just as many messages are on their way or lost as were sent.
    Uncounted,
}

impl Stop {
    /// What is said of it.
    pub(super) fn word(self) -> &'static str {
        match self {
            Stop::NoMemory => "no memory",
            Stop::Unread => "unread",
            Stop::Unmade => "unmade",
            Stop::Unkept => "unkept",
            Stop::Up => "up",
            Stop::Changed => "changed",
            Stop::Refusal => "another refusal",
            Stop::Elsewhere => "elsewhere",
            Stop::Plain => "plain fault",
            Stop::Uncounted => "uncounted",
        }
    }
}

impl From<NoMemory> for Stop {
    fn from(_: NoMemory) -> Stop {
        Stop::NoMemory
    }
}

impl From<AllocError> for Stop {
    fn from(_: AllocError) -> Stop {
        Stop::NoMemory
    }
}

impl<T: Drop> From<AllocFailed<T>> for Stop {
    fn from(_: AllocFailed<T>) -> Stop {
        Stop::NoMemory
    }
}

/// Why a group, or its cells, are not made.
pub(super) fn unmade(refusal: Refusal) -> Stop {
    match refusal {
        Refusal::NoMemory => Stop::NoMemory,
        _ => Stop::Unmade,
    }
}
