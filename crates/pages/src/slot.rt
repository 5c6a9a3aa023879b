//! Parts that other tables may share.
ghost use Rattle.std.specs.Prelude.{◌≡◌, [], OnOk, OnErr, IfOk, not, T as Holds};
ghost use Rattle.std.specs.Arc.{arc_value};
ghost use Rattle.pages.specs.Rows.{has_row, put, without};
ghost use Rattle.pages.specs.Inner.Parts.{AreAlike};
ghost use Rattle.pages.specs.Inner.Slots.{slot_rows, slot_first};

use crate::part::Part;
use crate::row::CopiedRow;
use crate::slot_type::Slot;
use std::alloc::{AllocError, Global};
use std::sync::Arc;

/// The greatest number of parts that a part has.
pub(crate) const MOST: usize = 64;

/// The same parts once more, shared. It takes a list of as many slots, and copies no row.
pub(crate) fn shared<T: CopiedRow, C: Part<T>>(
    alloc: Global,
    slots: &[Slot<T::Key, C>],
) -> Result<Vec<Slot<T::Key, C>>, AllocError>
    ensures { IfOk result (λ copies. AreAlike slot_first (slot_rows C.rows) copies.items slots.now) }
{
    let mut copies = Vec::with_capacity(alloc, slots.len())?;
    for slot in slots {
        let part = Arc::try_clone(&slot.part)?;
        copies.push(Slot {
            first: slot.first,
            part,
        })?;
    }
    Ok(copies)
}

/// A part of one row.
pub(crate) fn alone<T: CopiedRow, C: Part<T>>(
    alloc: Global,
    row: T,
) -> Result<Slot<T::Key, C>, AllocError>
    ensures rows { IfOk result (λ s. slot_rows C.rows s ≡ put T.Key.cmp T.key_of row []) }
    ensures first { IfOk result (λ s. s.first ≡ T.key_of row) }
{
    let first = *row.key();
    let mut part = C::empty(alloc);
    part.put(alloc, row)?;
    Ok(Slot {
        first,
        part: Arc::new(alloc, part)?,
    })
}

/// Makes this holder the only one of the part: where it has others, a copy takes its place, and
/// they keep what they have.
fn make_own<T: CopiedRow, C: Part<T>>(alloc: Global, part: &mut Arc<C>) -> Result<(), AllocError>
    ensures { C.rows (arc_value part.new) ≡ C.rows (arc_value part.old) }
{
    if Arc::strong_count(part) != 1 {
        let copy = part.copied(alloc)?;
        *part = Arc::new(alloc, copy)?;
    }
    Ok(())
}

/// Makes or replaces the row in a part, for this holder alone, and says whether it made one.
/// Without memory no row changes.
pub(crate) fn put_shared<T: CopiedRow, C: Part<T>>(
    alloc: Global,
    part: &mut Arc<C>,
    row: T,
) -> Result<bool, AllocError>
    ensures ok { OnOk result (C.rows (arc_value part.new) ≡ put T.Key.cmp T.key_of row (C.rows (arc_value part.old))) }
    ensures made { IfOk result (λ made. made ≡ not (has_row T.Key.cmp T.key_of (T.key_of row) (C.rows (arc_value part.old)))) }
    ensures err { OnErr result (C.rows (arc_value part.new) ≡ C.rows (arc_value part.old)) }
{
    make_own::<T, C>(alloc, part)?;
    match Arc::get_mut(part) {
        Some(own) => own.put(alloc, row),
        None => Err(AllocError),
    }
}

/// Takes out the row of the key, which is there, for this holder alone. Without memory no row
/// changes.
pub(crate) fn cut_shared<T: CopiedRow, C: Part<T>>(
    alloc: Global,
    part: &mut Arc<C>,
    key: &T::Key,
) -> Result<(), AllocError>
    requires { Holds (has_row T.Key.cmp T.key_of key.now (C.rows (arc_value part.old))) }
    ensures ok { OnOk result (C.rows (arc_value part.new) ≡ without T.Key.cmp T.key_of key.now (C.rows (arc_value part.old))) }
    ensures err { OnErr result (C.rows (arc_value part.new) ≡ C.rows (arc_value part.old)) }
{
    make_own::<T, C>(alloc, part)?;
    match Arc::get_mut(part) {
        Some(own) => own.cut(alloc, key),
        None => Err(AllocError),
    }
}
