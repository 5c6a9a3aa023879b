//! Rows by key with room made beforehand, so that a later put takes no memory.
ghost use Rattle.std.specs.Prelude.{◌≡◌, ◌≤◌, ◌<◌, [], OnOk, OnErr, option_map, T as Holds};
ghost use Rattle.rows.specs.Rising.{is_rising};
ghost use Rattle.fsm_tables.specs.Rows.{row_of, put};
ghost use Rattle.fsm_tables.specs.ReservedTables.{without, has_space};

use pages::{Row, position};
use rows::NoMemory;
use std::alloc::Global;
use std::marker::Model;

/// Rows in strictly rising key, with room for more that is made beforehand. Contracts see the rows
/// and for how many there is room. What `reserve_rows` made room for, `put` and `cut` keep and take
/// no memory.
pub struct ReservedTable<T: Row> {
    rows: Vec<T>,
}

impl<T: Row> Model for ReservedTable<T> {
    ghost use Rattle.std.specs.Prelude.{T as Holds, vec_capacity};
    ghost use Rattle.rows.specs.Rising.{is_rising};
    ghost use Rattle.fsm_tables.specs.ReservedTables.{Stock};

    ghost Value = { Stock T };

    ghost view = { λ a. record { rows = a.rows.items; capacity = vec_capacity a.rows } };

    ghost invariant = { λ a. Holds (is_rising T.Key.cmp T.key_of a.rows.items) };
}

impl<T: Row> Drop for ReservedTable<T> {
    fn drop(self) {
        let ReservedTable { rows: _ } = self;
    }
}

impl<T: Row> ReservedTable<T> {
    /// No rows. It takes no memory.
    pub fn empty(alloc: Global) -> ReservedTable<T>
        ensures { result.rows ≡ [] }
    {
        ReservedTable {
            rows: Vec::new(alloc),
        }
    }

    /// These rows, which are in strictly rising key. It takes no memory.
    pub fn of_rising(rows: Vec<T>) -> ReservedTable<T>
        requires { Holds (is_rising T.Key.cmp T.key_of rows.items) }
        ensures { result.rows ≡ rows.items }
    {
        ReservedTable { rows }
    }

    /// The rows, in strictly rising key.
    pub fn rows(&self) -> &[T]
        ensures rows { result.now ≡ self.now.rows }
        ensures rising { Holds (is_rising T.Key.cmp T.key_of self.now.rows) }
    {
        &self.rows
    }

    /// The row of a key, if there is one. It takes time in the logarithm of the rows.
    pub fn get(&self, key: &T::Key) -> Option<&T>
        ensures { option_map (λ row. row.now) result
            ≡ row_of T.Key.cmp T.key_of key.now self.now.rows }
    {
        match position(&self.rows, key) {
            Ok(at) => Some(&self.rows[at]),
            Err(_) => None,
        }
    }

    /// Makes room for so many rows in all. Where there is room for them already it takes no memory;
    /// without memory no row changes, and no room goes.
    pub fn reserve_rows(&mut self, count: usize) -> Result<(), NoMemory>
        ensures rows { self.new.rows ≡ self.old.rows }
        ensures ok { OnOk result (count ≤ self.new.capacity) }
        ensures memory { OnErr result (self.old.capacity < count) }
        ensures capacity { self.old.capacity ≤ self.new.capacity }
    {
        self.rows.reserve(count.saturating_sub(self.rows.len()))?;
        Ok(())
    }

    /// Makes or replaces the row of the key, and changes no other. There is room for it, so it
    /// takes no memory.
    pub fn put(&mut self, row: T)
        requires { Holds (has_space T.Key.cmp T.key_of row self.old) }
        ensures rows { self.new.rows ≡ put T.Key.cmp T.key_of row self.old.rows }
        ensures capacity { self.old.capacity ≤ self.new.capacity }
    {
        match position(&self.rows, row.key()) {
            Ok(at) => {
                self.rows[at] = row;
            }
            Err(at) => {
                let _ = self.rows.insert(at, row);
            }
        }
    }

    /// Takes out the row of the key, if there is one. It takes no memory, and its room stays.
    pub fn cut(&mut self, key: &T::Key)
        ensures rows { self.new.rows ≡ without T.Key.cmp T.key_of key.now self.old.rows }
        ensures capacity { self.old.capacity ≤ self.new.capacity }
    {
        if let Ok(at) = position(&self.rows, key) {
            let _ = self.rows.remove(at);
        }
    }
}
