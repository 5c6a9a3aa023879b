ghost use Rattle.std.specs.Prelude.{◌≡◌, ◌<◌, ◌≤◌, ◌^◌, take, List, OnOk, OnErr, IfOk, option_map, length, not, T as Holds};
ghost use Rattle.std.specs.List.{slice_get};
ghost use Rattle.pages.specs.Rows.{is_rising, row_of, has_row, put, without, rows_from};
ghost use Rattle.pages.specs.Inner.Parts.{rows_of, Parted, Leads, FirstsSplit};
ghost use Rattle.pages.specs.Runs.{IsRun};
ghost use Rattle.pages.specs.Inner.Slots.{slot_rows, slot_first};

use crate::part::Part;
use crate::row::CopiedRow;
use crate::slot::{MOST, alone, cut_shared, put_shared, shared};
use crate::slot_type::Slot;
use std::alloc::{AllocError, Global};
use std::marker::Model;
use std::sync::Arc;

/// Parts that stand one behind the other.
pub(crate) struct Level<T: CopiedRow, C: Part<T>> {
    slots: Vec<Slot<T::Key, C>>,
    count: usize,
}

impl<T: CopiedRow, C: Part<T>> Model for Level<T, C> {
    ghost use Rattle.std.specs.Prelude.{◌≡◌, List, length};
    ghost use Rattle.pages.specs.Inner.Parts.{rows_of, Parted};
    ghost use Rattle.pages.specs.Inner.Slots.{slot_rows, slot_first};

    ghost Value = { List T };

    ghost view = { λ a. rows_of (slot_rows C.rows) a.slots.items };

    ghost invariant = { λ a. record {
      count : a.count ≡ length (rows_of (slot_rows C.rows) a.slots.items);
      parted : Parted T.Key.cmp T.key_of slot_first (slot_rows C.rows) a.slots.items;
    } };
}

impl<T: CopiedRow, C: Part<T>> Drop for Level<T, C> {
    fn drop(self) {
        let Level { slots: _, count: _ } = self;
    }
}

/// Where the first key stands that is the key, or where it would.
fn position<T: CopiedRow, C: Part<T>>(
    slots: &[Slot<T::Key, C>],
    key: &T::Key,
) -> Result<usize, usize>
    requires { Parted T.Key.cmp T.key_of slot_first (slot_rows C.rows) slots.now }
    ensures { FirstsSplit T.Key.cmp slot_first key.now slots.now result }
{
    slots.binary_search_by(|slot| slot.first.cmp(key))
}

/// The part that has the key's row, if any has.
fn seek<T: CopiedRow, C: Part<T>>(slots: &[Slot<T::Key, C>], key: &T::Key) -> usize
    requires parted { Parted T.Key.cmp T.key_of slot_first (slot_rows C.rows) slots.now }
    requires some { 0 < length slots.now }
    ensures { Leads T.Key.cmp T.key_of slot_first (slot_rows C.rows) key.now slots.now result }
{
    match position::<T, C>(slots, key) {
        Ok(at) => at,
        Err(0) => 0,
        Err(at) => at - 1,
    }
}

/// Cuts a part in two, where it can.
fn split<T: CopiedRow, C: Part<T>>(
    alloc: Global,
    slots: &mut Vec<Slot<T::Key, C>>,
    at: usize,
) -> Result<(), AllocError>
    requires parted { Parted T.Key.cmp T.key_of slot_first (slot_rows C.rows) slots.old.items }
    requires position { at < length slots.old.items }
    ensures parted { Parted T.Key.cmp T.key_of slot_first (slot_rows C.rows) slots.new.items }
    ensures rows { rows_of (slot_rows C.rows) slots.new.items ≡ rows_of (slot_rows C.rows) slots.old.items }
    ensures some { 0 < length slots.new.items }
{
    let at_end = at + 1 == slots.len();
    let (lower, upper) = slots[at].part.halves(alloc, at_end)?;
    let first = match upper.run_from(0).first() {
        Some(row) => *row.key(),
        None => return Ok(()),
    };
    let old = slots[at].first;
    if !old.cmp(&first).is_lt() {
        return Ok(());
    }
    let lower = Arc::new(alloc, lower)?;
    let part = Arc::new(alloc, upper)?;
    slots.insert(at + 1, Slot { first, part })?;
    slots[at] = Slot {
        first: old,
        part: lower,
    };
    Ok(())
}

/// Makes or replaces a row in the part that is to have it.
fn put_at<T: CopiedRow, C: Part<T>>(
    alloc: Global,
    slots: &mut Vec<Slot<T::Key, C>>,
    at: usize,
    row: T,
) -> Result<bool, AllocError>
    requires parted { Parted T.Key.cmp T.key_of slot_first (slot_rows C.rows) slots.old.items }
    requires leads { Leads T.Key.cmp T.key_of slot_first (slot_rows C.rows) (T.key_of row) slots.old.items at }
    ensures parted { Parted T.Key.cmp T.key_of slot_first (slot_rows C.rows) slots.new.items }
    ensures ok { OnOk result (rows_of (slot_rows C.rows) slots.new.items ≡ put T.Key.cmp T.key_of row (rows_of (slot_rows C.rows) slots.old.items)) }
    ensures made { IfOk result (λ made. made ≡ not (has_row T.Key.cmp T.key_of (T.key_of row) (rows_of (slot_rows C.rows) slots.old.items))) }
    ensures err { OnErr result (rows_of (slot_rows C.rows) slots.new.items ≡ rows_of (slot_rows C.rows) slots.old.items) }
{
    let key = *row.key();
    let slot = &mut slots[at];
    let made = put_shared(alloc, &mut slot.part, row)?;
    if key.cmp(&slot.first).is_lt() {
        slot.first = key;
    }
    Ok(made)
}

/// Makes or replaces a row.
fn put_slots<T: CopiedRow, C: Part<T>>(
    alloc: Global,
    slots: &mut Vec<Slot<T::Key, C>>,
    row: T,
) -> Result<bool, AllocError>
    requires { Parted T.Key.cmp T.key_of slot_first (slot_rows C.rows) slots.old.items }
    ensures parted { Parted T.Key.cmp T.key_of slot_first (slot_rows C.rows) slots.new.items }
    ensures ok { OnOk result (rows_of (slot_rows C.rows) slots.new.items ≡ put T.Key.cmp T.key_of row (rows_of (slot_rows C.rows) slots.old.items)) }
    ensures made { IfOk result (λ made. made ≡ not (has_row T.Key.cmp T.key_of (T.key_of row) (rows_of (slot_rows C.rows) slots.old.items))) }
    ensures err { OnErr result (rows_of (slot_rows C.rows) slots.new.items ≡ rows_of (slot_rows C.rows) slots.old.items) }
{
    if slots.is_empty() {
        slots.push(alone(alloc, row)?)?;
        return Ok(true);
    }
    let at = seek::<T, C>(slots, row.key());
    if slots[at].part.is_full() && slots[at].part.get(row.key()).is_none() {
        split::<T, C>(alloc, slots, at)?;
        let at = seek::<T, C>(slots, row.key());
        return put_at(alloc, slots, at, row);
    }
    put_at(alloc, slots, at, row)
}

/// Takes out a row of the part that has it.
fn cut_at<T: CopiedRow, C: Part<T>>(
    alloc: Global,
    slots: &mut Vec<Slot<T::Key, C>>,
    at: usize,
    key: &T::Key,
) -> Result<(), AllocError>
    requires parted { Parted T.Key.cmp T.key_of slot_first (slot_rows C.rows) slots.old.items }
    requires leads { Leads T.Key.cmp T.key_of slot_first (slot_rows C.rows) key.now slots.old.items at }
    requires there { Holds (has_row T.Key.cmp T.key_of key.now (rows_of (slot_rows C.rows) slots.old.items)) }
    ensures parted { Parted T.Key.cmp T.key_of slot_first (slot_rows C.rows) slots.new.items }
    ensures ok { OnOk result (rows_of (slot_rows C.rows) slots.new.items ≡ without T.Key.cmp T.key_of key.now (rows_of (slot_rows C.rows) slots.old.items)) }
    ensures err { OnErr result (rows_of (slot_rows C.rows) slots.new.items ≡ rows_of (slot_rows C.rows) slots.old.items) }
{
    let slot = &mut slots[at];
    cut_shared(alloc, &mut slot.part, key)?;
    Ok(())
}

/// Takes out a row that is there.
fn cut_slots<T: CopiedRow, C: Part<T>>(
    alloc: Global,
    slots: &mut Vec<Slot<T::Key, C>>,
    key: &T::Key,
) -> Result<(), AllocError>
    requires parted { Parted T.Key.cmp T.key_of slot_first (slot_rows C.rows) slots.old.items }
    requires there { Holds (has_row T.Key.cmp T.key_of key.now (rows_of (slot_rows C.rows) slots.old.items)) }
    ensures parted { Parted T.Key.cmp T.key_of slot_first (slot_rows C.rows) slots.new.items }
    ensures ok { OnOk result (rows_of (slot_rows C.rows) slots.new.items ≡ without T.Key.cmp T.key_of key.now (rows_of (slot_rows C.rows) slots.old.items)) }
    ensures err { OnErr result (rows_of (slot_rows C.rows) slots.new.items ≡ rows_of (slot_rows C.rows) slots.old.items) }
{
    let at = seek::<T, C>(slots, key);
    cut_at(alloc, slots, at, key)
}

/// The number of the rows.
fn total<T: CopiedRow, C: Part<T>>(slots: &[Slot<T::Key, C>]) -> Result<usize, AllocError>
    ensures { IfOk result (λ count. count ≡ length (rows_of (slot_rows C.rows) slots.now)) }
{
    let mut count: usize = 0;
    for slot in slots {
        count = match count.checked_add(slot.part.len()) {
            Some(count) => count,
            None => return Err(AllocError),
        };
    }
    Ok(count)
}

/// The number of rows of the parts in front of a position.
fn count_before<T: CopiedRow, C: Part<T>>(slots: &[Slot<T::Key, C>], at: usize) -> usize
    requires position { at ≤ length slots.now }
    requires fits { length (rows_of (slot_rows C.rows) slots.now) < 2 ^ 64 }
    ensures { result ≡ length (rows_of (slot_rows C.rows) (take at slots.now)) }
{
    let mut count: usize = 0;
    for slot in &slots[..at] {
        count += slot.part.len();
    }
    count
}

/// The first row of these parts, if they have one.
fn first_row<'a, T: CopiedRow, C: Part<T>>(slots: &'a [Slot<T::Key, C>]) -> Option<&'a T>
    ensures { option_map (λ row. row.now) result ≡ slice_get (rows_of (slot_rows C.rows) slots.now) 0 }
{
    for slot in slots {
        if let Some(row) = slot.part.run_from(0).first() {
            return Some(row);
        }
    }
    None
}

/// These parts once more, shared.
fn level_of<T: CopiedRow, C: Part<T>>(
    alloc: Global,
    slots: &[Slot<T::Key, C>],
) -> Result<Level<T, C>, AllocError>
    requires { Parted T.Key.cmp T.key_of slot_first (slot_rows C.rows) slots.now }
    ensures { IfOk result (λ level. level ≡ rows_of (slot_rows C.rows) slots.now) }
{
    let count = total::<T, C>(slots)?;
    let slots = shared::<T, C>(alloc, slots)?;
    Ok(Level { slots, count })
}

impl<T: CopiedRow, C: Part<T>> Level<T, C> {
    /// Says that the keys rise strictly. It does nothing.
    pub fn rises(&self)
        ensures { Holds (is_rising T.Key.cmp T.key_of self.now) }
    {
        let _slots = &self.slots;
    }
}

impl<T: CopiedRow, C: Part<T>> Part<T> for Level<T, C> {
    ghost rows = { λ a. a };

    fn empty(alloc: Global) -> Level<T, C> {
        Level {
            slots: Vec::new(alloc),
            count: 0,
        }
    }

    fn len(&self) -> usize {
        self.count
    }

    fn is_full(&self) -> bool {
        self.slots.len() >= MOST
    }

    fn get(&self, key: &T::Key) -> Option<&T> {
        if self.slots.is_empty() {
            return None;
        }
        let at = seek::<T, C>(&self.slots, key);
        self.slots[at].part.get(key)
    }

    fn count_below(&self, key: &T::Key) -> usize {
        if self.slots.is_empty() {
            return 0;
        }
        let at = seek::<T, C>(&self.slots, key);
        let _all = self.len();
        count_before::<T, C>(&self.slots, at) + self.slots[at].part.count_below(key)
    }

    fn first_from(&self, key: &T::Key) -> Option<&T> {
        if self.slots.is_empty() {
            return None;
        }
        let at = seek::<T, C>(&self.slots, key);
        match self.slots[at].part.first_from(key) {
            Some(row) => Some(row),
            None => first_row::<T, C>(&self.slots[at + 1..]),
        }
    }

    fn run_from(&self, position: usize) -> &[T] {
        let mut left = position;
        for slot in &self.slots {
            let count = slot.part.len();
            if left < count {
                return slot.part.run_from(left);
            }
            left -= count;
        }
        &[]
    }

    fn copied(&self, alloc: Global) -> Result<Level<T, C>, AllocError> {
        let slots = shared::<T, C>(alloc, &self.slots)?;
        Ok(Level {
            slots,
            count: self.count,
        })
    }

    fn halves(
        &self,
        alloc: Global,
        at_end: bool,
    ) -> Result<(Level<T, C>, Level<T, C>), AllocError> {
        let count = self.slots.len();
        let middle = if at_end && count > 0 {
            count - 1
        } else {
            count / 2
        };
        let (lower, upper) = self.slots.split_at(middle);
        Ok((level_of(alloc, lower)?, level_of(alloc, upper)?))
    }

    fn put(&mut self, alloc: Global, row: T) -> Result<bool, AllocError> {
        if self.count == usize::MAX {
            return Err(AllocError);
        }
        let made = put_slots(alloc, &mut self.slots, row)?;
        if made {
            self.count += 1;
        }
        Ok(made)
    }

    fn cut(&mut self, alloc: Global, key: &T::Key) -> Result<(), AllocError> {
        cut_slots(alloc, &mut self.slots, key)?;
        self.count -= 1;
        Ok(())
    }
}
