//! What a batch changed of the ids that were ever started.
ghost use Rattle.std.specs.Prelude.{◌≡◌};
ghost use Rattle.client_node.specs.Inner.Joined.{change_between, joined_ids};

/// What led from the ids that were ever started to others. None is ever taken out.
#[derive(Clone, Copy, Debug, Drop)]
pub enum IdsChange {
    /// Nothing: they are the same.
    Nothing,
    /// So many stay, and others come behind them.
    Behind(usize),
}

/// What led from so many ids to so many, of which those are the first.
pub fn change_between(before: usize, now: usize) -> IdsChange
    ensures { result ≡ change_between before now }
{
    if now == before {
        IdsChange::Nothing
    } else {
        IdsChange::Behind(before)
    }
}

/// A change, and another behind it.
pub fn joined(first: IdsChange, second: IdsChange) -> IdsChange
    ensures { result ≡ joined_ids first second }
{
    match first {
        IdsChange::Nothing => second,
        IdsChange::Behind(count) => IdsChange::Behind(count),
    }
}
