use std::sync::Arc;

/// A part of a table that other tables may share, and a key that none of its rows is below.
#[derive(Drop)]
pub(crate) struct Slot<K, C> {
    /// The key.
    pub first: K,
    /// The part.
    pub part: Arc<C>,
}
