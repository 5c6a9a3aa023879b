//! A search among rows that stand in one list.
ghost use Rattle.std.specs.Prelude.{T as Holds};
ghost use Rattle.pages.specs.Rows.{is_rising};
ghost use Rattle.pages.specs.Positions.{PositionOf};

use crate::row::Row;

/// Where the row of a key stands in rows of strictly rising key, or where it would. It takes time in
/// the logarithm of the rows.
pub fn position<T: Row>(rows: &[T], key: &T::Key) -> Result<usize, usize>
    requires { Holds (is_rising T.Key.cmp T.key_of rows.now) }
    ensures { PositionOf T.Key.cmp T.key_of key.now rows.now result }
{
    rows.binary_search_by(|row| row.key().cmp(key))
}
