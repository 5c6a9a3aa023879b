//! The law of tables. The function has an empty body: what it says is its contract.
ghost use Rattle.std.specs.Prelude.{◌≡◌, List, ℕ, T as Holds};
ghost use Rattle.std.specs.Ordering.{nat_cmp};
ghost use Rattle.rows.specs.Keys.{name_cmp, eval_cmp, alloc_cmp, job_name, node_number, eval_id, alloc_id};
ghost use Rattle.rows.specs.Rising.{is_rising};
ghost use Rattle.fsm_tables.specs.Rows.{row_of};

use rows::{AllocId, Allocation, EvalId, Evaluation, Job, Node};

/// Each of the four tables is the finite set of its rows: two lists of rows, each in strictly
/// rising key, are equal where each key finds the same row, or none, in both. So what the look-ups
/// answer is all that a table is.
pub fn tables_are_sets()
    ensures jobs { (xs ys : List Job) → Holds (is_rising name_cmp job_name xs) → Holds (is_rising name_cmp job_name ys)
        → ((name : List ℕ) → row_of name_cmp job_name name xs ≡ row_of name_cmp job_name name ys) → xs ≡ ys }
    ensures nodes { (xs ys : List Node) → Holds (is_rising nat_cmp node_number xs) → Holds (is_rising nat_cmp node_number ys)
        → ((number : ℕ) → row_of nat_cmp node_number number xs ≡ row_of nat_cmp node_number number ys) → xs ≡ ys }
    ensures evals { (xs ys : List Evaluation) → Holds (is_rising eval_cmp eval_id xs) → Holds (is_rising eval_cmp eval_id ys)
        → ((id : EvalId) → row_of eval_cmp eval_id id xs ≡ row_of eval_cmp eval_id id ys) → xs ≡ ys }
    ensures allocs { (xs ys : List Allocation) → Holds (is_rising alloc_cmp alloc_id xs) → Holds (is_rising alloc_cmp alloc_id ys)
        → ((id : AllocId) → row_of alloc_cmp alloc_id id xs ≡ row_of alloc_cmp alloc_id id ys) → xs ≡ ys }
{}
