//! How a group stands at each moment of a run.
use crate::changes::Change;

/// How a group stands at each moment of a run: before the first event, and behind each of them. Each
/// moment is told by what changes from the one before.
#[derive(Drop)]
pub struct Moments {
    /// The lines, each text once.
    pub lines: Vec<String>,
    /// Of each moment, what changes from the lines of the one before (of the first: from no lines),
    /// in rising order of places.
    pub moments: Vec<Vec<Change>>,
}
