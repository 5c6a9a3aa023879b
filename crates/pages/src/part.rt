//! What a table is made of.
ghost use Rattle.std.specs.Prelude.{◌≡◌, ◌++◌, [], List, OnOk, OnErr, IfOk, option_map, length, not, T as Holds};
ghost use Rattle.std.specs.List.{slice_get};
ghost use Rattle.pages.specs.Rows.{row_of, has_row, put, without, rows_from};
ghost use Rattle.pages.specs.Runs.{IsRun};
ghost use Rattle.pages.specs.Inner.Below.{count_below};

use crate::row::CopiedRow;
use std::alloc::{AllocError, Global};

/// Some rows of a table that stand together, in strictly rising key.
pub(crate) trait Part<T: CopiedRow>: Drop {
    /// The rows.
    ghost rows: { Self → List T };

    /// No rows. It takes no memory.
    fn empty(alloc: Global) -> Self
        ensures { rows result ≡ [] };

    /// The number of rows.
    fn len(&self) -> usize
        ensures { result ≡ length (rows self.now) };

    /// Whether it is to be cut in two before a row is made. Nothing is said of when: it is right
    /// whatever this answers.
    fn is_full(&self) -> bool;

    /// The row of a key, if there is one.
    fn get(&self, key: &T::Key) -> Option<&T>
        ensures { option_map (λ row. row.now) result ≡ row_of T.Key.cmp T.key_of key.now (rows self.now) };

    /// The number of rows of lower keys.
    fn count_below(&self, key: &T::Key) -> usize
        ensures { result ≡ count_below T.Key.cmp T.key_of key.now (rows self.now) };

    /// The first row whose key is not below a key, if there is one.
    fn first_from(&self, key: &T::Key) -> Option<&T>
        ensures { option_map (λ row. row.now) result ≡ slice_get (rows_from T.Key.cmp T.key_of key.now (rows self.now)) 0 };

    /// Some rows from a position on, at least one where there is one.
    fn run_from(&self, position: usize) -> &[T]
        ensures { IsRun (rows self.now) position result.now };

    /// The same rows once more, which shares the parts below.
    fn copied(&self, alloc: Global) -> Result<Self, AllocError>
        ensures { IfOk result (λ copy. rows copy ≡ rows self.now) };

    /// The same rows once more, in two parts: cut in the middle, or before the last piece.
    fn halves(&self, alloc: Global, at_end: bool) -> Result<(Self, Self), AllocError>
        ensures { IfOk result (λ p. rows p.0 ++ rows p.1 ≡ rows self.now) };

    /// Makes or replaces the row of the key, and says whether it made one. Without memory no row
    /// changes.
    fn put(&mut self, alloc: Global, row: T) -> Result<bool, AllocError>
        ensures ok { OnOk result (rows self.new ≡ put T.Key.cmp T.key_of row (rows self.old)) }
        ensures made { IfOk result (λ made. made ≡ not (has_row T.Key.cmp T.key_of (T.key_of row) (rows self.old))) }
        ensures err { OnErr result (rows self.new ≡ rows self.old) };

    /// Takes out the row of the key, which is there. Without memory no row changes.
    fn cut(&mut self, alloc: Global, key: &T::Key) -> Result<(), AllocError>
        requires { Holds (has_row T.Key.cmp T.key_of key.now (rows self.old)) }
        ensures ok { OnOk result (rows self.new ≡ without T.Key.cmp T.key_of key.now (rows self.old)) }
        ensures err { OnErr result (rows self.new ≡ rows self.old) };
}
