use rows::ServerId;

/// Why a group was not settled.
#[derive(Clone, Copy, Debug, PartialEq, Eq)]
pub enum Unsettled {
    /// No quorum of its servers is up. Nothing happened.
    NoQuorum,
    /// A server that is to take part has no room for two more terms or entries. Nothing happened.
    Exhausted,
    /// Memory was wanting, and no server crashed for it. The events in the trace happened.
    NoMemory,
    /// This server found no memory, and is down. The events before that happened.
    Crashed(ServerId),
}
