//! A walk over the rows of a table.
ghost use Rattle.std.specs.Prelude.{◌≡◌, ◌++◌, []};
ghost use Rattle.std.specs.Iterator.{YieldsFirstRef, item_count};
ghost use Rattle.pages.specs.Inner.Filled.{FilledUp};
ghost use Rattle.pages.specs.Rows.{rows_from};
ghost use Rattle.pages.specs.Runs.{rows_left};

use crate::row::CopiedRow;
use crate::table::Table;
use crate::walk_type::Rows;

impl<T: CopiedRow> Table<T> {
    /// A walk over all rows, in strictly rising key.
    pub fn rows(&self) -> Rows<'_, T>
        ensures { rows_left result ≡ self.now }
    {
        Rows {
            table: self,
            position: 0,
            run: &[],
        }
    }

    /// A walk over the rows whose keys are not below a key, in strictly rising key.
    pub fn rows_from(&self, key: &T::Key) -> Rows<'_, T>
        ensures { rows_left result ≡ rows_from T.Key.cmp T.key_of key.now self.now }
    {
        self.ranges();
        Rows {
            table: self,
            position: self.count_below(key),
            run: &[],
        }
    }
}

/// The rows that come next, where none was left of those before.
fn fill<'a, T: CopiedRow>(rows: &mut Rows<'a, T>)
    ensures left { rows_left rows.new ≡ rows_left rows.old }
    ensures filled { FilledUp rows.new }
{
    if rows.run.is_empty() {
        let _count = rows.table.len();
        rows.run = rows.table.run_from(rows.position);
        rows.position += rows.run.len();
    }
}

impl<'a, T: CopiedRow> Iterator for Rows<'a, T> {
    type Item = &'a T;

    ghost next_gives = { YieldsFirstRef rows_left };

    ghost remaining = { item_count rows_left };

    fn next(&mut self) -> Option<&'a T> {
        fill(self);
        let (first, others) = self.run.split_first()?;
        self.run = others;
        Some(first)
    }
}
