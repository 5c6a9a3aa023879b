//! An index of allocations: an entry for each row that is listed, in the order of what it is listed
//! by, and then of its id. It may have others, which are passed over: an entry is looked at where it
//! is read, so that none has to be taken back where memory is wanting.
ghost use Rattle.std.specs.Prelude.{◌≡◌, ◌≢◌, OnOk, OnErr, IfOk, option_map, [], Some, T as Holds};
ghost use Rattle.rows.specs.Rising.{is_above, is_rising};
ghost use Rattle.fsm_tables.specs.declared.index.Entry.{Entry as AnyEntry};
ghost use Rattle.fsm_tables.specs.Inner.Index.{entry_cmp, entry_of, is_entry, is_current, current, Covers, Gains, Loses, HasIdsBetween, entries_between, first_id};

use pages::{CopiedRow, Row, Table};
use rows::{AllocId, Allocation, NoMemory, Ranged};
use std::alloc::{AllocError, Global};
use std::collections::BTreeSet;
use std::marker::Model;

/// What an index lists allocations by.
pub(crate) trait IndexKey: Ord + Copy {
    ghost use Rattle.std.specs.Prelude.{Option};
    ghost use Rattle.rows.specs.declared.allocation.Allocation.{Allocation};

    /// What a row is listed by, if it is listed.
    ghost key_of: { Allocation → Option Self };

    /// What a row is listed by, if it is listed.
    fn of(row: &Allocation) -> Option<Self>
        ensures { result ≡ key_of row.now };
}

/// A row in an index: what it is listed by, and its id.
#[derive(PartialEq, Eq, PartialOrd, Ord)]
pub(crate) struct Entry<K> {
    /// What it is listed by.
    pub key: K,
    /// Its id.
    pub id: AllocId,
}

/// The same entry.
impl<K: Copy> Clone for Entry<K> {
    ghost use Rattle.std.specs.Prelude.{⊤};

    ghost is_clone = { λ x y. y ≡ x };

    ghost is_infallible = { λ _. ⊤ };

    fn clone(&self) -> Result<Entry<K>, AllocError> {
        Ok(*self)
    }
}

impl<K: Copy> Copy for Entry<K> {}

impl<K> Ranged for Entry<K> {
    ghost use Rattle.std.specs.Prelude.{⊤};

    ghost Fits = { λ _. ⊤ };

    fn ranges(&self) {}
}

/// Entries are their own keys.
impl<K: IndexKey> Row for Entry<K> {
    type Key = Entry<K>;

    ghost key_of = { λ e. e };

    fn key(&self) -> &Entry<K> {
        self
    }
}

impl<K: IndexKey> CopiedRow for Entry<K> {
    fn append_copies(rows: &[Entry<K>], out: &mut Vec<Entry<K>>) -> Result<(), AllocError> {
        out.extend_from_slice(rows)
    }
}

/// The entry of a row, where there is a row and it is listed.
pub(crate) fn entry_of<K: IndexKey>(row: Option<&Allocation>) -> Option<Entry<K>>
    ensures { result ≡ entry_of K.key_of (option_map (λ r. r.now) row.entry) }
{
    let row = row?;
    let key = K::of(row)?;
    Some(Entry { key, id: row.id })
}

/// Whether there is an entry and it is this one.
fn is_this<K: IndexKey>(entry: &Option<Entry<K>>, other: &Entry<K>) -> bool
    ensures { result ≡ is_entry K.cmp entry.now other.now }
{
    match entry {
        Some(entry) => entry.cmp(other).is_eq(),
        None => false,
    }
}

/// Whether the row of an entry's id, if there is one, has this entry.
fn is_current<K: IndexKey>(rows: &Table<Allocation>, entry: &Entry<K>) -> bool
    ensures { result ≡ is_current K.cmp K.key_of rows.now entry.now }
{
    is_this(&entry_of(rows.get(&entry.id)), entry)
}

/// Whether an entry's key is above that of the last one, if there is one.
fn is_above<K: IndexKey>(last: &Option<Entry<K>>, entry: &Entry<K>) -> bool
    ensures { result ≡ is_above K.cmp (λ (e : AnyEntry K). e.key) last.now entry.now.key }
{
    match last {
        Some(last) => last.key.cmp(&entry.key).is_lt(),
        None => true,
    }
}

/// Entries in strictly rising order. Contracts see the list of them.
#[derive(Drop)]
pub(crate) struct AllocIndex<K: IndexKey> {
    entries: Table<Entry<K>>,
}

impl<K: IndexKey> Model for AllocIndex<K> {
    ghost use Rattle.std.specs.Prelude.{List};
    ghost use Rattle.fsm_tables.specs.declared.index.Entry.{Entry};

    ghost Value = { List (Entry K) };

    ghost view = { λ a. a.entries };
}

impl<K: IndexKey> AllocIndex<K> {
    /// The index without entries. It takes no memory.
    pub fn empty(alloc: Global) -> AllocIndex<K>
        ensures { result ≡ [] }
    {
        AllocIndex {
            entries: Table::empty(alloc),
        }
    }

    /// The index of rows: the entry of each row is put in turn.
    pub fn of_rows(alloc: Global, rows: &Table<Allocation>) -> Result<AllocIndex<K>, NoMemory>
        ensures { IfOk result (λ index. Covers K.cmp K.key_of rows.now index) }
    {
        rows.ranges();
        let mut index = AllocIndex::empty(alloc);
        for row in rows.rows() {
            index.add_unless(&entry_of(Some(row)), &None)?;
        }
        Ok(index)
    }

    /// The same index once more, which shares the entries.
    pub fn fork(&self) -> Result<AllocIndex<K>, NoMemory>
        ensures { IfOk result (λ copy. copy ≡ self.now) }
    {
        let entries = self.entries.fork()?;
        Ok(AllocIndex { entries })
    }

    /// Adds an entry, if there is one, unless it is the one that was there.
    pub fn add_unless(
        &mut self,
        more: &Option<Entry<K>>,
        had: &Option<Entry<K>>,
    ) -> Result<(), NoMemory>
        ensures ok { OnOk result (Gains K.cmp more.now had.now self.old self.new) }
        ensures err { OnErr result (self.new ≡ self.old) }
    {
        if let Some(entry) = more {
            if !is_this(had, entry) {
                self.entries.put(*entry)?;
            }
        }
        Ok(())
    }

    /// Removes an entry, if there is one, unless it is the one that is kept.
    pub fn remove_unless(
        &mut self,
        gone: &Option<Entry<K>>,
        kept: &Option<Entry<K>>,
    ) -> Result<(), NoMemory>
        ensures ok { OnOk result (Loses K.cmp gone.now kept.now self.old self.new) }
        ensures err { OnErr result (self.new ≡ self.old) }
    {
        if let Some(entry) = gone {
            if !is_this(kept, entry) {
                self.entries.cut(entry)?;
            }
        }
        Ok(())
    }

    /// Whether no two entries that are their rows' are of one key: in the order of the keys each is
    /// above the last one.
    pub fn has_keys_once(&self, rows: &Table<Allocation>) -> bool
        ensures once { result ≡ is_rising K.cmp (λ (e : AnyEntry K). e.key) (current K.cmp K.key_of rows.now self.now) }
        ensures ordered { Holds (is_rising (entry_cmp K.cmp) (λ (e : AnyEntry K). e) self.now) }
    {
        self.entries.ranges();
        let mut last = None;
        for entry in self.entries.rows() {
            if is_current(rows, entry) {
                if !is_above(&last, entry) {
                    return false;
                }
                last = Some(*entry);
            }
        }
        true
    }

    /// The ids of the entries from one to another that are their rows', in rising order.
    pub fn ids_between(
        &self,
        rows: &Table<Allocation>,
        first: Entry<K>,
        last: Entry<K>,
    ) -> Result<BTreeSet<AllocId>, NoMemory>
        ensures ids { IfOk result (HasIdsBetween K.cmp first last (current K.cmp K.key_of rows.now self.now)) }
        ensures memory { OnErr result (entries_between K.cmp first last (current K.cmp K.key_of rows.now self.now) ≢ []) }
    {
        self.entries.ranges();
        let mut ids = BTreeSet::new(rows.memory());
        for entry in self.entries.rows_from(&first) {
            if last.cmp(entry).is_lt() {
                return Ok(ids);
            }
            if is_current(rows, entry) {
                ids.insert(entry.id)?;
            }
        }
        Ok(ids)
    }

    /// The id of the first of the entries from one to another that are their rows', if there is
    /// one. Most often it is the first entry from there on, which takes no walk.
    pub fn first_between(
        &self,
        rows: &Table<Allocation>,
        first: Entry<K>,
        last: Entry<K>,
    ) -> Option<AllocId>
        ensures first { result ≡ first_id K.cmp first last (current K.cmp K.key_of rows.now self.now) }
        ensures rising { Holds (is_rising (entry_cmp K.cmp) (λ (e : AnyEntry K). e) self.now) }
    {
        self.entries.ranges();
        let Some(entry) = self.entries.first_from(&first) else {
            return None;
        };
        if last.cmp(entry).is_lt() {
            return None;
        }
        if is_current(rows, entry) {
            return Some(entry.id);
        }
        self.next_between(rows, first, last)
    }

    /// The id of the first of the entries from one to another that are their rows', if there is
    /// one, found by a walk.
    fn next_between(
        &self,
        rows: &Table<Allocation>,
        first: Entry<K>,
        last: Entry<K>,
    ) -> Option<AllocId>
        ensures first { result ≡ first_id K.cmp first last (current K.cmp K.key_of rows.now self.now) }
        ensures rising { Holds (is_rising (entry_cmp K.cmp) (λ (e : AnyEntry K). e) self.now) }
    {
        self.entries.ranges();
        for entry in self.entries.rows_from(&first) {
            if last.cmp(entry).is_lt() {
                return None;
            }
            if is_current(rows, entry) {
                return Some(entry.id);
            }
        }
        None
    }
}
