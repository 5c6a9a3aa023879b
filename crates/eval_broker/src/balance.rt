//! Forks put in balance by height (AVL): of the two sides of each fork neither has more than one
//! level more than the other, so that a tree of n rows has at most 1.44 log2(n + 2) levels,
//! whatever rows came and went in whatever order. (Adelson-Velsky and Landis, "An algorithm for the
//! organization of information", 1962.)
ghost use Rattle.std.specs.Prelude.{◌≡◌, ◌≤◌, ◌<◌, ◌+◌, ◌++◌, ◌∷◌, suc, max, false};
ghost use Rattle.eval_broker.specs.Inner.Trees.{tree_rows, levels, noted, AreWithin, IsBalanced, HasSides};

use crate::tree::{Branch, Tree};
use std::mem;

/// How many levels a tree has.
pub(crate) fn height<T>(tree: &Tree<T>) -> u8
    requires { IsBalanced tree.now }
    ensures { result ≡ levels tree.now }
{
    match tree {
        Tree::Leaf => 0,
        Tree::Fork(branch) => branch.height,
    }
}

/// The taller of two sides, in levels.
fn taller<T>(left: &Tree<T>, right: &Tree<T>) -> u8
    requires left { IsBalanced left.now }
    requires right { IsBalanced right.now }
    ensures { result ≡ max (levels left.now) (levels right.now) }
{
    let left = height(left);
    let right = height(right);
    if left < right { right } else { left }
}

/// A fork over two sides, of which neither has more than one level more than the other.
fn fork_over<T: Drop>(mut fork: Box<Branch<T>>, left: Tree<T>, right: Tree<T>) -> Tree<T>
    requires left { IsBalanced left }
    requires right { IsBalanced right }
    requires near { AreWithin 1 left right }
    requires low { levels left < 200 }
    ensures rows { tree_rows result ≡ tree_rows left ++ fork.value.row ∷ tree_rows right }
    ensures balanced { IsBalanced result }
    ensures levels { levels result ≡ suc (max (levels left) (levels right)) }
{
    fork.height = taller(&left, &right) + 1;
    fork.left = left;
    fork.right = right;
    Tree::Fork(fork)
}

/// A fork whose left side has two levels more than its right one, in balance: what is outside on
/// the left comes up by one, or by two what is inside.
fn turned_right<T: Drop>(top: Box<Branch<T>>, left: Tree<T>, right: Tree<T>) -> Tree<T>
    requires left { IsBalanced left }
    requires right { IsBalanced right }
    requires far { levels left ≡ 2 + levels right }
    requires low { levels left < 100 }
    ensures rows { tree_rows result ≡ tree_rows left ++ top.value.row ∷ tree_rows right }
    ensures balanced { IsBalanced result }
    ensures least { levels left ≤ levels result }
    ensures most { levels result ≤ suc (levels left) }
{
    let Tree::Fork(mut side) = left else {
        unreachable!()
    };
    let outer = mem::replace(&mut side.left, Tree::Leaf);
    let inner = mem::replace(&mut side.right, Tree::Leaf);
    if height(&inner) <= height(&outer) {
        return fork_over(side, outer, fork_over(top, inner, right));
    }
    let Tree::Fork(mut middle) = inner else {
        unreachable!()
    };
    let before = mem::replace(&mut middle.left, Tree::Leaf);
    let behind = mem::replace(&mut middle.right, Tree::Leaf);
    fork_over(
        middle,
        fork_over(side, outer, before),
        fork_over(top, behind, right),
    )
}

/// A fork whose right side has two levels more than its left one, in balance.
fn turned_left<T: Drop>(top: Box<Branch<T>>, left: Tree<T>, right: Tree<T>) -> Tree<T>
    requires left { IsBalanced left }
    requires right { IsBalanced right }
    requires far { levels right ≡ 2 + levels left }
    requires low { levels right < 100 }
    ensures rows { tree_rows result ≡ tree_rows left ++ top.value.row ∷ tree_rows right }
    ensures balanced { IsBalanced result }
    ensures least { levels right ≤ levels result }
    ensures most { levels result ≤ suc (levels right) }
{
    let Tree::Fork(mut side) = right else {
        unreachable!()
    };
    let inner = mem::replace(&mut side.left, Tree::Leaf);
    let outer = mem::replace(&mut side.right, Tree::Leaf);
    if height(&inner) <= height(&outer) {
        return fork_over(side, fork_over(top, left, inner), outer);
    }
    let Tree::Fork(mut middle) = inner else {
        unreachable!()
    };
    let before = mem::replace(&mut middle.left, Tree::Leaf);
    let behind = mem::replace(&mut middle.right, Tree::Leaf);
    fork_over(
        middle,
        fork_over(top, left, before),
        fork_over(side, behind, outer),
    )
}

/// A fork over two sides, of which neither has more than two levels more than the other, in
/// balance.
pub(crate) fn balanced<T: Drop>(top: Box<Branch<T>>, left: Tree<T>, right: Tree<T>) -> Tree<T>
    requires left { IsBalanced left }
    requires right { IsBalanced right }
    requires near { AreWithin 2 left right }
    requires low { levels left < 98 }
    ensures rows { tree_rows result ≡ tree_rows left ++ top.value.row ∷ tree_rows right }
    ensures balanced { IsBalanced result }
    ensures least { max (levels left) (levels right) ≤ levels result }
    ensures most { levels result ≤ suc (max (levels left) (levels right)) }
    ensures near { AreWithin 1 left right → suc (max (levels left) (levels right)) ≤ levels result }
{
    let on_left = height(&left);
    let on_right = height(&right);
    if on_right + 1 < on_left {
        turned_right(top, left, right)
    } else if on_left + 1 < on_right {
        turned_left(top, left, right)
    } else {
        fork_over(top, left, right)
    }
}

/// Puts a tree in balance one of whose sides may have changed by one level, if it has, and tells
/// whether the tree has other levels then than it had noted. Where the side has not changed, the
/// other one is not looked at.
pub(crate) fn rebalance<T: Drop>(tree: &mut Tree<T>, has_changed: bool) -> bool
    requires sides { HasSides 2 tree.old }
    requires same { has_changed ≡ false → IsBalanced tree.old }
    requires low { levels tree.old < 99 }
    ensures rows { tree_rows tree.new ≡ tree_rows tree.old }
    ensures balanced { IsBalanced tree.new }
    ensures least { levels tree.old ≤ suc (levels tree.new) }
    ensures most { levels tree.new ≤ levels tree.old }
    ensures near { HasSides 1 tree.old → levels tree.old ≤ levels tree.new }
    ensures same { result ≡ false → levels tree.new ≡ noted tree.old }
{
    if !has_changed {
        return false;
    }
    let Tree::Fork(mut top) = mem::replace(tree, Tree::Leaf) else {
        return false;
    };
    let before = top.height;
    let left = mem::replace(&mut top.left, Tree::Leaf);
    let right = mem::replace(&mut top.right, Tree::Leaf);
    *tree = balanced(top, left, right);
    height(tree) != before
}
