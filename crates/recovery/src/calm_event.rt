use rows::ServerId;

/// An event of those by which a group is settled.
#[derive(Clone, Copy, Debug, PartialEq, Eq)]
pub(crate) enum CalmEvent {
    /// The message at a place, from 0, of all that were ever sent, comes to its receiver.
    Deliver(usize),
    /// A server's election timer ends.
    Timeout(ServerId),
    /// A server's heartbeat timer ends.
    Beat(ServerId),
}
