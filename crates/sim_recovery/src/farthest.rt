//! From which moment it takes the most events.
ghost use Rattle.std.specs.Prelude.{◌≡◌, ◌∷◌, nat_lt};
ghost use Rattle.sim_recovery.specs.Farthest.{IsFarthest};

use crate::table::WayRow;

// Whether one takes more events than another.
fn is_farther(row: &WayRow, than: &WayRow) -> bool
    ensures { result ≡ nat_lt than.now.counts.events row.now.counts.events }
{
    than.counts.events < row.counts.events
}

/// The first of the rows of which none takes more events.
pub(crate) fn farthest_of(first: &WayRow, others: &[WayRow]) -> WayRow
    ensures { IsFarthest (first.now ∷ others.now) result }
{
    let mut farthest = *first;
    for row in others {
        if is_farther(row, &farthest) {
            farthest = *row;
        }
    }
    farthest
}
