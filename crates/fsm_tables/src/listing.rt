//! Rows by their ids, and the rows that an index lists.
ghost use Rattle.std.specs.Prelude.{◌≡◌, filter, option_map};
ghost use Rattle.std.specs.List.{slice_get};
ghost use Rattle.std.specs.BTreeSet.{IsOrdered};
ghost use Rattle.rows.specs.Keys.{alloc_cmp};
ghost use Rattle.fsm_tables.specs.Inner.Index.{is_between, rows_at, Covers};
ghost use Rattle.fsm_tables.specs.Inner.Keys.{first_entry, last_entry};
ghost use Rattle.fsm_tables.specs.Lookups.{GivesRows};

use crate::index::{AllocIndex, Entry, IndexKey};
use crate::index_keys::{first, last};
use pages::Table;
use rows::{AllocId, Allocation, NoMemory, Sequence};
use std::collections::BTreeSet;

/// The rows of ids, in rising id.
fn rows_of(
    rows: &Table<Allocation>,
    ids: &BTreeSet<AllocId>,
) -> Result<Sequence<Allocation>, NoMemory>
    ensures rows { GivesRows result (rows_at rows.now ids.now.keys) }
    ensures rising { IsOrdered alloc_cmp ids.now }
{
    let _count = ids.len();
    let mut found = Sequence::new(rows.memory());
    for id in ids {
        if let Some(row) = rows.get(id) {
            found.push(*row)?;
        }
    }
    Ok(found)
}

/// The rows that an index lists from one entry to another, in rising id. It takes time in the
/// logarithm of the table, and so much again for each of them.
pub(crate) fn rows_between<K: IndexKey>(
    rows: &Table<Allocation>,
    index: &AllocIndex<K>,
    first: Entry<K>,
    last: Entry<K>,
) -> Result<Sequence<Allocation>, NoMemory>
    requires { Covers K.cmp K.key_of rows.now index.now }
    ensures { GivesRows result (filter (is_between K.cmp K.key_of first last) rows.now) }
{
    rows.ranges();
    let ids = index.ids_between(rows, first, last)?;
    rows_of(rows, &ids)
}

/// The first of the rows that an index lists under a key.
pub(crate) fn first_under<'a, K: IndexKey>(
    rows: &'a Table<Allocation>,
    index: &AllocIndex<K>,
    key: K,
) -> Option<&'a Allocation>
    requires { Covers K.cmp K.key_of rows.now index.now }
    ensures { let listed = is_between K.cmp K.key_of (first_entry key) (last_entry key) in
        option_map (λ row. row.now) result ≡ slice_get (filter listed rows.now) 0 }
{
    rows.ranges();
    match index.first_between(rows, first(key), last(key)) {
        Some(id) => rows.get(&id),
        None => None,
    }
}
