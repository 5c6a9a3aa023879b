//! Rows by key in a tree, with room made beforehand, so that a later put takes no memory.
ghost use Rattle.std.specs.Prelude.{◌≡◌, ◌≤◌, ◌+◌, [], OnOk, OnErr, IfOk, length, option_map, T as Holds};
ghost use Rattle.std.specs.List.{slice_get};
ghost use Rattle.rows.specs.Rising.{is_rising};
ghost use Rattle.fsm_tables.specs.Rows.{row_of, put};
ghost use Rattle.fsm_tables.specs.ReservedTables.{without, has_space};
ghost use Rattle.eval_broker.specs.Inner.Trees.{tree_rows, chain_length, levels, IsBalanced};

use crate::tree;
use crate::tree::{Branch, Tree};
use fsm_tables::Row;
use rows::NoMemory;
use std::alloc::Global;
use std::marker::Model;
use std::mem;

/// Rows in strictly rising key, with room for more that is made beforehand. Contracts see the rows
/// and for how many there is room, as of a `ReservedTable`. Beside that, each call takes time in
/// the logarithm of the rows. What `reserve_rows` made room for, `put` and `cut` keep and take no
/// memory: a row that goes leaves its fork for another.
pub(crate) struct ReservedTree<T: Row + Copy> {
    alloc: Global,
    tree: Tree<T>,
    spares: Tree<T>,
    capacity: usize,
}

impl<T: Row + Copy> Model for ReservedTree<T> {
    ghost use Rattle.std.specs.Prelude.{◌≡◌, ◌≤◌, ◌+◌, length, T as Holds};
    ghost use Rattle.rows.specs.Rising.{is_rising};
    ghost use Rattle.fsm_tables.specs.ReservedTables.{Stock};
    ghost use Rattle.eval_broker.specs.Inner.Trees.{tree_rows, chain_length, levels, IsBalanced};

    ghost Value = { Stock T };

    ghost view = { λ a. record { rows = tree_rows a.tree; capacity = a.capacity } };

    ghost invariant = { λ a. record {
      rising : Holds (is_rising T.Key.cmp T.key_of (tree_rows a.tree));
      capacity : a.capacity ≡ length (tree_rows a.tree) + chain_length a.spares;
      balanced : IsBalanced a.tree;
      levels : levels a.tree ≤ 91;
    } };
}

impl<T: Row + Copy> Drop for ReservedTree<T> {
    fn drop(self) {
        let ReservedTree {
            alloc: _,
            tree: _,
            spares,
            capacity: _,
        } = self;
        drop_chain(spares);
    }
}

/// Lets go of spare forks one by one: there may be more of them than calls fit on the stack.
fn drop_chain<T: Drop>(spares: Tree<T>) {
    let mut spares = spares;
    loop {
        match spares {
            Tree::Leaf => return,
            Tree::Fork(branch) => {
                let Branch { left, .. } = Box::into_inner(branch);
                spares = left;
            }
        }
    }
}

/// One spare fork more, with any row.
fn add_spare<T: Drop>(alloc: Global, spares: &mut Tree<T>, row: T) -> Result<(), NoMemory>
    ensures ok { OnOk result (chain_length spares.new ≡ chain_length spares.old + 1) }
    ensures err { OnErr result (spares.new ≡ spares.old) }
{
    let mut branch = Box::new(
        alloc,
        Branch {
            left: Tree::Leaf,
            row,
            height: 1,
            right: Tree::Leaf,
        },
    )?;
    branch.left = mem::replace(spares, Tree::Leaf);
    *spares = Tree::Fork(branch);
    Ok(())
}

impl<T: Row + Copy> ReservedTree<T> {
    /// No rows. It takes no memory.
    pub fn empty(alloc: Global) -> ReservedTree<T>
        ensures { result.rows ≡ [] }
    {
        ReservedTree {
            alloc,
            tree: Tree::Leaf,
            spares: Tree::Leaf,
            capacity: 0,
        }
    }

    /// For how many rows there is room.
    pub fn capacity(&self) -> usize
        ensures { result ≡ self.now.capacity }
    {
        self.capacity
    }

    /// The tree of the rows. It has at most 22 levels of 65,536 rows, and never more than 91.
    pub fn tree(&self) -> &Tree<T>
        ensures rows { tree_rows result.now ≡ self.now.rows }
        ensures rising { Holds (is_rising T.Key.cmp T.key_of self.now.rows) }
        ensures balanced { IsBalanced result.now }
        ensures levels { levels result.now ≤ 91 }
        ensures few { length self.now.rows ≤ 65536 → levels result.now ≤ 22 }
    {
        &self.tree
    }

    /// The first row, if there is one.
    pub fn first(&self) -> Option<&T>
        ensures { option_map (λ row. row.now) result ≡ slice_get self.now.rows 0 }
    {
        tree::first(&self.tree)
    }

    /// The row of a key, if there is one.
    pub fn get(&self, key: &T::Key) -> Option<&T>
        ensures { option_map (λ row. row.now) result
            ≡ row_of T.Key.cmp T.key_of key.now self.now.rows }
    {
        tree::get(&self.tree, key)
    }

    /// Makes room for one row more than there is room for, by a fork with any row. Without memory
    /// nothing changes.
    fn grow(&mut self, any: T) -> Result<(), NoMemory>
        ensures rows { self.new.rows ≡ self.old.rows }
        ensures ok { OnOk result (self.new.capacity ≡ self.old.capacity + 1) }
        ensures err { OnErr result (self.new.capacity ≡ self.old.capacity) }
    {
        let Some(capacity) = self.capacity.checked_add(1) else {
            return Err(NoMemory);
        };
        add_spare(self.alloc, &mut self.spares, any)?;
        self.capacity = capacity;
        Ok(())
    }

    /// Makes room for one row more than there are, by a fork with any row. Without memory no row
    /// changes, and no room goes.
    pub fn make_space(&mut self, any: T) -> Result<(), NoMemory>
        ensures rows { self.new.rows ≡ self.old.rows }
        ensures ok { OnOk result (length self.old.rows + 1 ≤ self.new.capacity) }
        ensures capacity { self.old.capacity ≤ self.new.capacity }
    {
        if let Tree::Leaf = self.spares {
            self.grow(any)?;
        }
        Ok(())
    }

    /// Makes room for so many rows in all, by forks with any row. Without memory no row changes,
    /// and no room goes.
    pub fn reserve_rows(&mut self, count: usize, any: T) -> Result<(), NoMemory>
        ensures rows { self.new.rows ≡ self.old.rows }
        ensures ok { OnOk result (count ≤ self.new.capacity) }
        ensures capacity { self.old.capacity ≤ self.new.capacity }
    {
        while self.capacity() < count {
            self.grow(any)?;
        }
        Ok(())
    }

    /// Makes or replaces the row of the key, and changes no other. There is room for it, so it
    /// takes no memory.
    pub fn put(&mut self, row: T)
        requires { Holds (has_space T.Key.cmp T.key_of row self.old) }
        ensures rows { self.new.rows ≡ put T.Key.cmp T.key_of row self.old.rows }
        ensures capacity { self.old.capacity ≤ self.new.capacity }
    {
        let _is_higher = tree::put(&mut self.tree, &mut self.spares, row);
    }

    /// Takes out the row of the key, if there is one. It takes no memory, and its room stays.
    pub fn cut(&mut self, key: &T::Key)
        ensures rows { self.new.rows ≡ without T.Key.cmp T.key_of key.now self.old.rows }
        ensures capacity { self.old.capacity ≤ self.new.capacity }
    {
        let _is_lower = tree::cut(&mut self.tree, &mut self.spares, key);
    }
}

/// A tree of these rows, which are in strictly rising key.
pub(crate) fn tree_of<T: Row + Copy>(alloc: Global, rows: &[T]) -> Result<ReservedTree<T>, NoMemory>
    requires { Holds (is_rising T.Key.cmp T.key_of rows.now) }
    ensures { IfOk result (λ tree. tree.rows ≡ rows.now) }
{
    let mut tree = ReservedTree::empty(alloc);
    for row in rows {
        tree.make_space(*row)?;
        tree.put(*row);
    }
    Ok(tree)
}
