/// What became of an event that was not refused.
#[derive(Clone, Copy, Debug, PartialEq, Eq)]
pub enum Done {
    /// It happened.
    Taken,
    /// The actor found no memory, and is down.
    Crashed,
}
