use crate::row::CopiedRow;
use crate::table::Table;

/// A walk over the rows of a table, in strictly rising key: what is left are first the rows of the
/// run, and then those from the position on.
#[derive(Drop)]
pub struct Rows<'a, T: CopiedRow> {
    pub(crate) table: &'a Table<T>,
    pub(crate) position: usize,
    pub(crate) run: &'a [T],
}
