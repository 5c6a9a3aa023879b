//! What was asked for and is not known to be settled.
use rows::{Index, Term};

/// An operator's request that the log took: the id by which its asker is answered, and its ticket.
#[derive(Clone, Copy, Debug)]
pub struct Asked {
    /// Whom to answer.
    pub id: u64,
    /// The index of the command in the log.
    pub index: Index,
    /// The term of its entry.
    pub term: Term,
}
