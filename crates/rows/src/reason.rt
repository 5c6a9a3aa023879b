ghost use Rattle.std.specs.Prelude.{◌≡◌};
ghost use Rattle.rows.specs.Reasons.{reason_of, reason_number};

use crate::refusal::{Leader, Refusal};

/// A refusal as a message tells it: its number and, of one for not leading, the leader that is
/// known. Where bytes are at fault the place is not told, so that each pair of a number and a
/// leader that a frame can hold is one reason.
#[derive(Clone, Copy, Debug, PartialEq, Eq)]
pub enum Reason {
    /// 1: memory ran out.
    NoMemory,
    /// 2: the server that was asked does not lead; with the server that it takes for the leader.
    NotLeader(Leader),
    /// 3: the leader's services are not open yet.
    NotOpen,
    /// 4: the evaluation is not outstanding.
    NotOutstanding,
    /// 5: the evaluation is outstanding under another token.
    TokenDiffers,
    /// 6: the plan was made from too old a state.
    SnapshotTooOld,
    /// 7: the job was changed since the plan was made.
    JobChanged,
    /// 8: there is no such job.
    UnknownJob,
    /// 9: there is no such node.
    UnknownNode,
    /// 10: the node has another class or size.
    NodeDiffers,
    /// 11: a name is none.
    BadName,
    /// 12: a number is out of its range.
    OutOfRange,
    /// 13: a table is full.
    TableFull,
    /// 14: a term, an index or a serial is at its greatest.
    Exhausted,
    /// 15: bytes are at fault.
    Frame,
    /// 16: the actor is down.
    Down,
    /// 17: the queue of waiting plans is full.
    QueueFull,
    /// 18: the job is stopped.
    JobStopped,
    /// 19: the node was heard of since.
    StaleExpiry,
    /// 20: the node is not being drained.
    NotDraining,
    /// 21: there is no such allocation.
    UnknownAlloc,
}

impl Reason {
    /// What a message tells of a refusal.
    pub fn of(refusal: Refusal) -> Reason
        ensures { result ≡ reason_of refusal }
    {
        match refusal {
            Refusal::NoMemory => Reason::NoMemory,
            Refusal::NotLeader(leader) => Reason::NotLeader(leader),
            Refusal::NotOpen => Reason::NotOpen,
            Refusal::NotOutstanding => Reason::NotOutstanding,
            Refusal::TokenDiffers => Reason::TokenDiffers,
            Refusal::SnapshotTooOld => Reason::SnapshotTooOld,
            Refusal::JobChanged => Reason::JobChanged,
            Refusal::UnknownJob => Reason::UnknownJob,
            Refusal::UnknownNode => Reason::UnknownNode,
            Refusal::NodeDiffers => Reason::NodeDiffers,
            Refusal::BadName => Reason::BadName,
            Refusal::OutOfRange => Reason::OutOfRange,
            Refusal::TableFull => Reason::TableFull,
            Refusal::Exhausted => Reason::Exhausted,
            Refusal::Frame(_) => Reason::Frame,
            Refusal::Down => Reason::Down,
            Refusal::QueueFull => Reason::QueueFull,
            Refusal::JobStopped => Reason::JobStopped,
            Refusal::StaleExpiry => Reason::StaleExpiry,
            Refusal::NotDraining => Reason::NotDraining,
            Refusal::UnknownAlloc => Reason::UnknownAlloc,
        }
    }

    /// The refusal's number, from 1 to 21.
    pub fn number(self) -> u8
        ensures { result ≡ reason_number self }
    {
        match self {
            Reason::NoMemory => 1,
            Reason::NotLeader(_) => 2,
            Reason::NotOpen => 3,
            Reason::NotOutstanding => 4,
            Reason::TokenDiffers => 5,
            Reason::SnapshotTooOld => 6,
            Reason::JobChanged => 7,
            Reason::UnknownJob => 8,
            Reason::UnknownNode => 9,
            Reason::NodeDiffers => 10,
            Reason::BadName => 11,
            Reason::OutOfRange => 12,
            Reason::TableFull => 13,
            Reason::Exhausted => 14,
            Reason::Frame => 15,
            Reason::Down => 16,
            Reason::QueueFull => 17,
            Reason::JobStopped => 18,
            Reason::StaleExpiry => 19,
            Reason::NotDraining => 20,
            Reason::UnknownAlloc => 21,
        }
    }
}
