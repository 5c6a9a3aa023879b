/// What comes to a server.
#[derive(Clone, Copy, Debug)]
pub enum Input<'a> {
    /// A frame from the net: all of its bytes.
    Frame(&'a [u8]),
    /// It has heard of no leader for long enough to stand for election.
    Timeout,
    /// It is time to be heard of: a leader sends to each other server the entries that it does not
    /// have yet.
    Beat,
    /// It covers all entries that it has applied by a snapshot of the applied state, and forgets
    /// them.
    Compact,
    /// It stops, and loses what it does not store.
    Crash,
    /// It starts again with what it stored.
    Restart,
}
