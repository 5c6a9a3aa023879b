ghost use Rattle.std.specs.Prelude.{◌≡◌, ◌≢◌, ◌≤◌, ◌-◌, [], List, OnOk, OnErr, IfOk, option_map, length, T as Holds};
ghost use Rattle.std.specs.List.{AllByRecursion, slice_get};
ghost use Rattle.rows.specs.Rising.{is_rising};
ghost use Rattle.pages.specs.Rows.{row_of, has_row, put, put_within, without, rows_from};
ghost use Rattle.pages.specs.Runs.{IsRun};
ghost use Rattle.pages.specs.Inner.Below.{count_below};
ghost use Rattle.pages.specs.Copies.{GivesRows};

use crate::level::Level;
use crate::page::Page;
use crate::part::Part;
use crate::row::CopiedRow;
use rows::{NoMemory, Sequence};
use std::alloc::Global;
use std::marker::Model;

/// A table: at most one row of each key. Contracts see the list of its rows in strictly rising key.
/// Its rows stand in pages that its forks share, and a change copies the page that it changes where
/// another table has it too.
pub struct Table<T: CopiedRow> {
    root: Level<T, Level<T, Page<T>>>,
    alloc: Global,
}

impl<T: CopiedRow> Model for Table<T> {
    ghost use Rattle.std.specs.Prelude.{List};
    ghost use Rattle.std.specs.List.{AllByRecursion};

    ghost Value = { List T };

    ghost view = { λ t. t.root };

    ghost invariant = { λ t. AllByRecursion T.Fits t.root };
}

impl<T: CopiedRow> Drop for Table<T> {
    fn drop(self) {
        let Table { root: _, alloc: _ } = self;
    }
}

impl<T: CopiedRow> Table<T> {
    /// The table without rows. It takes no memory.
    pub fn empty(alloc: Global) -> Table<T>
        ensures { result ≡ [] }
    {
        Table {
            root: Level::empty(alloc),
            alloc,
        }
    }

    /// The table of these rows, which are in strictly rising key. `NoMemory` where there is no
    /// memory for its pages.
    pub fn of_rising(rows: Vec<T>) -> Result<Table<T>, NoMemory>
        requires { Holds (is_rising T.Key.cmp T.key_of rows.items) }
        ensures { IfOk result (λ table. table ≡ rows.items) }
    {
        let mut table = Table::empty(*rows.allocator());
        for row in rows {
            table.put(row)?;
        }
        Ok(table)
    }

    /// The same table once more, in time of its greatest parts: it shares all pages. `NoMemory`
    /// where there is no memory for a list of them.
    pub fn fork(&self) -> Result<Table<T>, NoMemory>
        ensures { IfOk result (λ copy. copy ≡ self.now) }
    {
        let root = self.root.copied(self.alloc)?;
        Ok(Table {
            root,
            alloc: self.alloc,
        })
    }

    /// Where it takes its memory from.
    pub fn memory(&self) -> Global {
        self.alloc
    }

    /// Says what a table keeps: strictly rising keys, and the ranges of its rows' parts. It does
    /// nothing.
    pub fn ranges(&self)
        ensures rising { Holds (is_rising T.Key.cmp T.key_of self.now) }
        ensures fit { AllByRecursion T.Fits self.now }
    {
        self.root.rises();
    }

    /// The number of rows.
    pub fn len(&self) -> usize
        ensures { result ≡ length self.now }
    {
        self.root.len()
    }

    /// Some rows from a position in the order of the keys on, from 0: at least one where there is
    /// one.
    pub fn run_from(&self, position: usize) -> &[T]
        ensures { IsRun self.now position result.now }
    {
        self.root.run_from(position)
    }

    /// The first row whose key is not below a key, if there is one. It takes time in the logarithm
    /// of the table.
    pub fn first_from(&self, key: &T::Key) -> Option<&T>
        ensures { option_map (λ row. row.now) result ≡ slice_get (rows_from T.Key.cmp T.key_of key.now self.now) 0 }
    {
        self.root.first_from(key)
    }

    /// The number of rows of lower keys. It takes time in the logarithm of the table.
    pub(crate) fn count_below(&self, key: &T::Key) -> usize
        ensures { result ≡ count_below T.Key.cmp T.key_of key.now self.now }
    {
        self.root.count_below(key)
    }

    /// The row at a position in the order of the keys, from 0; none past the last.
    pub fn at(&self, position: usize) -> Option<&T>
        ensures { option_map (λ row. row.now) result ≡ slice_get self.now position }
    {
        self.run_from(position).first()
    }

    /// The row of the greatest key, if there are rows.
    pub fn last(&self) -> Option<&T>
        ensures { option_map (λ row. row.now) result ≡ slice_get self.now (length self.now - 1) }
    {
        match self.len() {
            0 => None,
            count => self.at(count - 1),
        }
    }

    /// The row of a key, if there is one. It takes time in the logarithm of the table.
    pub fn get(&self, key: &T::Key) -> Option<&T>
        ensures { option_map (λ row. row.now) result ≡ row_of T.Key.cmp T.key_of key.now self.now }
    {
        self.root.get(key)
    }

    /// All rows once more, in strictly rising key. `NoMemory` where there is no memory for them.
    pub fn copied_rows(&self, alloc: Global) -> Result<Sequence<T>, NoMemory>
        ensures { GivesRows result self.now }
    {
        let mut copies = Vec::new(alloc);
        let count = self.len();
        while copies.len() < count {
            T::append_copies(self.run_from(copies.len()), &mut copies)?;
        }
        Ok(Sequence::from_vec(copies))
    }

    /// Makes or replaces the row of the key, and changes no other. Without memory nothing changes.
    pub fn put(&mut self, row: T) -> Result<(), NoMemory>
        ensures ok { OnOk result (self.new ≡ put T.Key.cmp T.key_of row self.old) }
        ensures err { OnErr result (self.new ≡ self.old) }
    {
        row.ranges();
        self.root.put(self.alloc, row)?;
        Ok(())
    }

    /// Makes or replaces the row of the key, and changes no other; a row under a new key is not
    /// made where the table has `most` rows or more. Without memory nothing changes.
    pub fn put_within(&mut self, most: usize, row: T) -> Result<(), NoMemory>
        ensures ok { OnOk result (self.new ≡ put_within T.Key.cmp T.key_of most row self.old) }
        ensures err { OnErr result (self.new ≡ self.old) }
        ensures few { length self.old ≤ most → length self.new ≤ most }
    {
        self.ranges();
        if self.len() < most || self.get(row.key()).is_some() {
            self.put(row)?;
        }
        Ok(())
    }

    /// Takes out the row of the key, if there is one, and changes no other. Memory may be wanting
    /// only where there is one, and then nothing changes.
    pub fn cut(&mut self, key: &T::Key) -> Result<(), NoMemory>
        ensures ok { OnOk result (self.new ≡ without T.Key.cmp T.key_of key.now self.old) }
        ensures err { OnErr result (self.new ≡ self.old) }
        ensures memory { OnErr result (Holds (has_row T.Key.cmp T.key_of key.now self.old)) }
    {
        if self.get(key).is_some() {
            self.root.cut(self.alloc, key)?;
        }
        Ok(())
    }
}
