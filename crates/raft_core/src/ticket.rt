use rows::{Index, Term};

/// Where a command stands that was proposed: the index and the term of its entry. One index and one
/// term are one entry, in whichever log that stands. (Raft, extended version 2014, section 5.3.)
#[derive(Clone, Copy, Debug, PartialEq, Eq)]
pub struct Ticket {
    /// Its place in the log, from 1.
    pub index: Index,
    /// The term of the leader that appended it.
    pub term: Term,
}

/// What a server that is up knows of a command, by its ticket.
#[derive(Clone, Copy, Debug, PartialEq, Eq)]
pub enum ProposalStatus {
    /// The server has not applied that index: the command may still come to be applied, or be lost.
    Pending,
    /// The server has applied the entry of that index, and it is of the ticket's term: it is the
    /// command, which stands there for good.
    Committed,
    /// The server has applied the entry of that index, and it is of another term, for good: the
    /// command was lost, and whoever wants it has to propose it again.
    Superseded,
    /// The server has applied the entry of that index, but its snapshot covers it: its term is not
    /// known here. Another server may still know it.
    Compacted,
}
