ghost use Rattle.std.specs.Prelude.{◌≡◌, ◌++◌, ◌≤◌, [], List, OnOk, OnErr, IfOk, option_map, length, T as Holds};
ghost use Rattle.std.specs.List.{slice_get};
ghost use Rattle.pages.specs.Rows.{is_rising, row_of, has_row, put, without, rows_from};
ghost use Rattle.pages.specs.Inner.Below.{count_below};

use crate::part::Part;
use crate::row::CopiedRow;
use crate::search::position;
use std::alloc::{AllocError, Global};
use std::marker::Model;

/// Rows by themselves. One that has `MOST` of them is cut in two before a row is made in it.
pub(crate) struct Page<T: CopiedRow> {
    rows: Vec<T>,
}

impl<T: CopiedRow> Model for Page<T> {
    ghost use Rattle.std.specs.Prelude.{List, T as Holds};
    ghost use Rattle.pages.specs.Rows.{is_rising};

    ghost Value = { List T };

    ghost view = { λ p. p.rows.items };

    ghost invariant = { λ p. Holds (is_rising T.Key.cmp T.key_of p.rows.items) };
}

impl<T: CopiedRow> Drop for Page<T> {
    fn drop(self) {
        let Page { rows: _ } = self;
    }
}

/// The greatest number of rows of a page.
const MOST: usize = 64;

/// How many of rows in strictly rising key have a lower one.
fn count_below<T: CopiedRow>(rows: &[T], key: &T::Key) -> usize
    requires { Holds (is_rising T.Key.cmp T.key_of rows.now) }
    ensures { result ≡ count_below T.Key.cmp T.key_of key.now rows.now }
{
    match rows.binary_search_by(|row| row.key().cmp(key)) {
        Ok(at) => at,
        Err(at) => at,
    }
}

/// A page of these rows, with room for a whole page.
fn page_of<T: CopiedRow>(alloc: Global, rows: &[T]) -> Result<Page<T>, AllocError>
    requires { Holds (is_rising T.Key.cmp T.key_of rows.now) }
    ensures { IfOk result (λ page. page ≡ rows.now) }
{
    let mut copies = Vec::with_capacity(alloc, MOST)?;
    T::append_copies(rows, &mut copies)?;
    Ok(Page { rows: copies })
}

impl<T: CopiedRow> Part<T> for Page<T> {
    ghost rows = { λ p. p };

    fn empty(alloc: Global) -> Page<T> {
        Page {
            rows: Vec::new(alloc),
        }
    }

    fn len(&self) -> usize {
        self.rows.len()
    }

    fn is_full(&self) -> bool {
        self.rows.len() >= MOST
    }

    fn get(&self, key: &T::Key) -> Option<&T> {
        match position(&self.rows, key) {
            Ok(at) => Some(&self.rows[at]),
            Err(_) => None,
        }
    }

    fn count_below(&self, key: &T::Key) -> usize {
        count_below(&self.rows, key)
    }

    fn first_from(&self, key: &T::Key) -> Option<&T> {
        let at = count_below(&self.rows, key);
        self.rows.get(at)
    }

    fn run_from(&self, position: usize) -> &[T] {
        if position < self.rows.len() {
            &self.rows[position..]
        } else {
            &self.rows[..0]
        }
    }

    fn copied(&self, alloc: Global) -> Result<Page<T>, AllocError> {
        page_of(alloc, &self.rows)
    }

    fn halves(&self, alloc: Global, at_end: bool) -> Result<(Page<T>, Page<T>), AllocError> {
        let count = self.rows.len();
        let middle = if at_end && count > 0 {
            count - 1
        } else {
            count / 2
        };
        let (lower, upper) = self.rows.split_at(middle);
        Ok((page_of(alloc, lower)?, page_of(alloc, upper)?))
    }

    fn put(&mut self, _alloc: Global, row: T) -> Result<bool, AllocError> {
        match position(&self.rows, row.key()) {
            Ok(at) => {
                self.rows[at] = row;
                Ok(false)
            }
            Err(at) => {
                self.rows.insert(at, row)?;
                Ok(true)
            }
        }
    }

    fn cut(&mut self, _alloc: Global, key: &T::Key) -> Result<(), AllocError> {
        if let Ok(at) = position(&self.rows, key) {
            let _ = self.rows.remove(at);
        }
        Ok(())
    }
}
