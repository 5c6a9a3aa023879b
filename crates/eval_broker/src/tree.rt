//! Rows in a search tree that is balanced by height, whose forks are kept for later rows when theirs
//! go.
ghost use Rattle.std.specs.Prelude.{◌≡◌, ◌<◌, ◌≤◌, ◌++◌, ◌+◌, suc, max, ◌||◌, [], ◌∷◌, length, nat_lt, option_map, IfSome, IfNone, false, T as Holds};
ghost use Rattle.std.specs.List.{slice_get};
ghost use Rattle.rows.specs.Rising.{is_rising};
ghost use Rattle.fsm_tables.specs.Rows.{row_of, has_row, put};
ghost use Rattle.fsm_tables.specs.ReservedTables.{without};
ghost use Rattle.eval_broker.specs.Inner.Trees.{tree_rows, chain_length, below_top, levels, AreWithin, IsBalanced};

use crate::balance::{balanced, height, rebalance};
use fsm_tables::Row;
use std::cmp::Ordering;
use std::mem;

/// A search tree. It is balanced by height, so that it has at most 22 levels of 65,536 rows, and at
/// most 91 of as many as a `usize` counts. A call goes at most as deep, and so does a drop.
#[cycle(tree)]
#[derive(Drop)]
pub(crate) enum Tree<T> {
    /// No rows.
    Leaf,
    /// A row, those below its key and those above.
    Fork(Box<Branch<T>>),
}

/// What a fork has.
#[cycle(tree)]
#[derive(Drop)]
pub(crate) struct Branch<T> {
    /// The rows of lower keys.
    pub left: Tree<T>,
    /// The row.
    pub row: T,
    /// How many levels the tree of this fork has.
    pub height: u8,
    /// The rows of higher keys.
    pub right: Tree<T>,
}

/// The first row, if there is one.
pub(crate) fn first<T>(tree: &Tree<T>) -> Option<&T>
    ensures { option_map (λ x. x.now) result ≡ slice_get (tree_rows tree.now) 0 }
{
    match tree {
        Tree::Leaf => None,
        Tree::Fork(branch) => match first(&branch.left) {
            None => Some(&branch.row),
            found => found,
        },
    }
}

/// The row of a key, if there is one.
pub(crate) fn get<'a, T: Row>(tree: &'a Tree<T>, key: &T::Key) -> Option<&'a T>
    requires { Holds (is_rising T.Key.cmp T.key_of (tree_rows tree.now)) }
    ensures { option_map (λ row. row.now) result
        ≡ row_of T.Key.cmp T.key_of key.now (tree_rows tree.now) }
{
    match tree {
        Tree::Leaf => None,
        Tree::Fork(branch) => match key.cmp(branch.row.key()) {
            Ordering::Less => get(&branch.left, key),
            Ordering::Equal => Some(&branch.row),
            Ordering::Greater => get(&branch.right, key),
        },
    }
}

/// A tree of one row, from a spare fork.
fn alone<T: Drop>(spares: &mut Tree<T>, row: T) -> Tree<T>
    requires { Holds (nat_lt 0 (chain_length spares.old)) }
    ensures rows { tree_rows result ≡ row ∷ [] }
    ensures balanced { IsBalanced result }
    ensures levels { levels result ≡ 1 }
    ensures spare { chain_length spares.old ≡ chain_length spares.new + 1 }
{
    let Tree::Fork(mut branch) = mem::replace(spares, Tree::Leaf) else {
        unreachable!()
    };
    *spares = mem::replace(&mut branch.left, Tree::Leaf);
    branch.row = row;
    branch.height = 1;
    branch.right = Tree::Leaf;
    Tree::Fork(branch)
}

/// Makes or replaces the row of the key, and changes no other. A row that is made takes a spare
/// fork. Tells whether the tree is higher then.
pub(crate) fn put<T: Row>(tree: &mut Tree<T>, spares: &mut Tree<T>, row: T) -> bool
    requires rising { Holds (is_rising T.Key.cmp T.key_of (tree_rows tree.old)) }
    requires spare { Holds (has_row T.Key.cmp T.key_of (T.key_of row) (tree_rows tree.old)
        || nat_lt 0 (chain_length spares.old)) }
    requires balanced { IsBalanced tree.old }
    requires low { levels tree.old < 98 }
    ensures rows { tree_rows tree.new ≡ put T.Key.cmp T.key_of row (tree_rows tree.old) }
    ensures kept { length (tree_rows tree.new) + chain_length spares.new
        ≡ length (tree_rows tree.old) + chain_length spares.old }
    ensures balanced { IsBalanced tree.new }
    ensures least { levels tree.old ≤ levels tree.new }
    ensures most { levels tree.new ≤ suc (levels tree.old) }
    ensures same { result ≡ false → levels tree.new ≡ levels tree.old }
{
    match tree {
        Tree::Leaf => {
            *tree = alone(spares, row);
            true
        }
        Tree::Fork(branch) => match row.key().cmp(branch.row.key()) {
            Ordering::Less => {
                let has_changed = put(&mut branch.left, spares, row);
                rebalance(tree, has_changed)
            }
            Ordering::Equal => {
                branch.row = row;
                false
            }
            Ordering::Greater => {
                let has_changed = put(&mut branch.right, spares, row);
                rebalance(tree, has_changed)
            }
        },
    }
}

/// Takes out the fork of the first row, if there is one.
fn cut_first<T: Drop>(tree: &mut Tree<T>) -> Option<Box<Branch<T>>>
    requires balanced { IsBalanced tree.old }
    requires low { levels tree.old < 98 }
    ensures some { IfSome result (λ fork.
        tree_rows tree.old ≡ fork.value.row ∷ tree_rows tree.new) }
    ensures none { IfNone result ((tree_rows tree.old ≡ []) × (levels tree.old ≡ 0)) }
    ensures balanced { IsBalanced tree.new }
    ensures least { levels tree.old ≤ suc (levels tree.new) }
    ensures most { levels tree.new ≤ levels tree.old }
{
    let Tree::Fork(mut top) = mem::replace(tree, Tree::Leaf) else {
        return None;
    };
    let before = height(&top.left);
    match cut_first(&mut top.left) {
        None => {
            *tree = mem::replace(&mut top.right, Tree::Leaf);
            Some(top)
        }
        Some(first) => {
            let has_changed = height(&top.left) != before;
            *tree = Tree::Fork(top);
            let _is_lower = rebalance(tree, has_changed);
            Some(first)
        }
    }
}

/// One tree of two, the second of which comes behind the first.
fn join<T: Drop>(left: Tree<T>, mut right: Tree<T>) -> Tree<T>
    requires left { IsBalanced left }
    requires right { IsBalanced right }
    requires near { AreWithin 1 left right }
    requires low { levels left < 97 }
    ensures rows { tree_rows result ≡ tree_rows left ++ tree_rows right }
    ensures balanced { IsBalanced result }
    ensures least { max (levels left) (levels right) ≤ levels result }
    ensures most { levels result ≤ suc (max (levels left) (levels right)) }
{
    match cut_first(&mut right) {
        None => left,
        Some(first) => balanced(first, left, right),
    }
}

/// Takes out the topmost row. Its fork joins the spare ones. Tells whether the tree is lower then.
fn cut_top<T: Drop>(tree: &mut Tree<T>, spares: &mut Tree<T>) -> bool
    requires balanced { IsBalanced tree.old }
    requires low { levels tree.old < 98 }
    ensures rows { tree_rows tree.new ≡ below_top tree.old }
    ensures kept { length (tree_rows tree.new) + chain_length spares.new
        ≡ length (tree_rows tree.old) + chain_length spares.old }
    ensures balanced { IsBalanced tree.new }
    ensures least { levels tree.old ≤ suc (levels tree.new) }
    ensures most { levels tree.new ≤ levels tree.old }
    ensures same { result ≡ false → levels tree.new ≡ levels tree.old }
{
    let Tree::Fork(mut branch) = mem::replace(tree, Tree::Leaf) else {
        return false;
    };
    let before = branch.height;
    let left = mem::replace(&mut branch.left, Tree::Leaf);
    let right = mem::replace(&mut branch.right, Tree::Leaf);
    *tree = join(left, right);
    branch.left = mem::replace(spares, Tree::Leaf);
    *spares = Tree::Fork(branch);
    height(tree) != before
}

/// Takes out the row of the key, if there is one. Its fork joins the spare ones. Tells whether the
/// tree is lower then.
pub(crate) fn cut<T: Row>(tree: &mut Tree<T>, spares: &mut Tree<T>, key: &T::Key) -> bool
    requires rising { Holds (is_rising T.Key.cmp T.key_of (tree_rows tree.old)) }
    requires balanced { IsBalanced tree.old }
    requires low { levels tree.old < 98 }
    ensures rows { tree_rows tree.new
        ≡ without T.Key.cmp T.key_of key.now (tree_rows tree.old) }
    ensures kept { length (tree_rows tree.new) + chain_length spares.new
        ≡ length (tree_rows tree.old) + chain_length spares.old }
    ensures balanced { IsBalanced tree.new }
    ensures least { levels tree.old ≤ suc (levels tree.new) }
    ensures most { levels tree.new ≤ levels tree.old }
    ensures same { result ≡ false → levels tree.new ≡ levels tree.old }
{
    match tree {
        Tree::Leaf => false,
        Tree::Fork(branch) => match key.cmp(branch.row.key()) {
            Ordering::Less => {
                let has_changed = cut(&mut branch.left, spares, key);
                rebalance(tree, has_changed)
            }
            Ordering::Equal => cut_top(tree, spares),
            Ordering::Greater => {
                let has_changed = cut(&mut branch.right, spares, key);
                rebalance(tree, has_changed)
            }
        },
    }
}
