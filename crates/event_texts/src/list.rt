//! Lists of items, with commas between.
ghost use Rattle.std.specs.Prelude.{◌≡◌, ◌≤◌, ◌++◌, List, Some, IfOk, IfSome, OnOk, map, length};
ghost use Rattle.std.specs.List.{AllByRecursion, join_with_byte};
ghost use Rattle.rows.specs.Batches.{BatchFits};
ghost use Rattle.event_texts.specs.WorkerLines.{comma_list};
ghost use Rattle.event_texts.specs.Inner.Plain.{IsNoDash};
ghost use Rattle.event_texts.specs.Inner.Written.{behind_commas};

use crate::spelled::Spelled;
use crate::word::append_text;
use rows::{Batch, NoMemory, Sequence};
use std::alloc::Global;

/// One item or more, with commas between.
pub(crate) fn read_items<T: Spelled>(
    alloc: Global,
    text: &str,
) -> Result<Option<Sequence<T>>, NoMemory>
    ensures named { IfOk result (λ read. IfSome read (λ items. AllByRecursion T.Fits items
        × (1 ≤ length items) × (text.now ≡ join_with_byte 44 (map T.spelling items)))) }
    ensures read { (items : List T) → AllByRecursion T.Fits items → 1 ≤ length items
        → text.now ≡ join_with_byte 44 (map T.spelling items)
        → IfOk result (λ read. read ≡ Some items) }
{
    // Mostly there is one.
    let mut items = Sequence::from_vec(Vec::with_capacity(alloc, 1)?);
    for part in text.split(',') {
        let Some(item) = T::read_text(part) else {
            return Ok(None);
        };
        items.push(item)?;
    }
    Ok(Some(items))
}

/// At most 64 items with commas between, or a dash where there are none.
pub(crate) fn read_batch<T: Spelled>(
    alloc: Global,
    text: &str,
) -> Result<Option<Batch<T>>, NoMemory>
    ensures named { IfOk result (λ read. IfSome read (λ items. BatchFits T.Fits items
        × (text.now ≡ comma_list (map T.spelling items)))) }
    ensures read { (items : List T) → BatchFits T.Fits items
        → AllByRecursion (λ item. IsNoDash (T.spelling item)) items
        → text.now ≡ comma_list (map T.spelling items) → IfOk result (λ read. read ≡ Some items) }
{
    if text == "-" {
        return Ok(Some(Batch::new(alloc)));
    }
    let Some(items) = read_items(alloc, text)? else {
        return Ok(None);
    };
    Ok(Batch::check(items).ok())
}

/// Puts items to the end, with commas between.
pub(crate) fn append_items<T: Spelled>(items: &[T], out: &mut Vec<u8>) -> Result<(), NoMemory>
    ensures { OnOk result (AllByRecursion T.Fits items.now
        × (out.new.items ≡ out.old.items ++ join_with_byte 44 (map T.spelling items.now))) }
{
    let Some((first, rest)) = items.split_first() else {
        return Ok(());
    };
    first.append(out)?;
    append_rest(rest, out)
}

// Puts a comma and an item to the end, for each of the items.
fn append_rest<T: Spelled>(items: &[T], out: &mut Vec<u8>) -> Result<(), NoMemory>
    ensures { OnOk result (AllByRecursion T.Fits items.now
        × (out.new.items ≡ out.old.items ++ behind_commas (map T.spelling items.now))) }
{
    for item in items {
        out.push(b',')?;
        item.append(out)?;
    }
    Ok(())
}

/// Puts at most 64 items to the end, with commas between, or a dash where there are none.
pub(crate) fn append_batch<T: Spelled>(items: &Batch<T>, out: &mut Vec<u8>) -> Result<(), NoMemory>
    ensures { OnOk result (BatchFits T.Fits items.now
        × (out.new.items ≡ out.old.items ++ comma_list (map T.spelling items.now))) }
{
    let items = items.as_slice();
    if items.is_empty() {
        append_text("-", out)
    } else {
        append_items(items, out)
    }
}
