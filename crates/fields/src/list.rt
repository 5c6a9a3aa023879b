//! Lists and options of any field, read in a version and written in the newest. A list is its
//! count, in one byte or in four, and then its items; an option is a flag, and the value where
//! there is one.
ghost use Rattle.std.specs.Prelude.{length, ◌≤◌};
ghost use Rattle.rows.specs.Versions.{newest};
ghost use Rattle.fields_model.specs.Format.{Gives, Puts, Writes, items_at, items, list, option};

use crate::field::Field;
use crate::reading::{read_bool, read_count, read_long_count};
use crate::writing::{take_back, write_bool, write_u8, write_u32};
use rows::{NoMemory, Refusal, Sequence, Version};
use std::alloc::Global;

/// So many values, one after the other. `Frame` names the first field of an item that is at fault.
pub fn read_items<F: Field>(
    version: Version,
    alloc: Global,
    bytes: &[u8],
    at: usize,
    count: usize,
) -> Result<(Sequence<F>, usize), Refusal>
    ensures { Gives result (items_at (F.format version) count bytes.now at) }
{
    // A count may promise more items than the text has: no room for all of them ahead.
    let mut items = Vec::with_capacity(alloc, count.min(32))?;
    let mut at = at;
    for _ in 0..count {
        let (item, next) = F::read_at(version, alloc, bytes, at)?;
        items.push(item)?;
        at = next;
    }
    Ok((Sequence::from_vec(items), at))
}

/// A count of one byte, and that many values. A count of more than `most` is a fault at the count.
pub fn read_list<F: Field>(
    version: Version,
    alloc: Global,
    bytes: &[u8],
    at: usize,
    most: u8,
) -> Result<(Sequence<F>, usize), Refusal>
    ensures { Gives result ((list 1 most (F.format version)).read bytes.now at) }
{
    let (count, next) = read_count(bytes, at, most)?;
    read_items(version, alloc, bytes, next, count)
}

/// A count of four bytes, and that many values. A count of more than `most` is a fault at the
/// count.
pub fn read_long_list<F: Field>(
    version: Version,
    alloc: Global,
    bytes: &[u8],
    at: usize,
    most: u32,
) -> Result<(Sequence<F>, usize), Refusal>
    ensures { Gives result ((list 4 most (F.format version)).read bytes.now at) }
{
    let (count, next) = read_long_count(bytes, at, most)?;
    read_items(version, alloc, bytes, next, count)
}

/// A flag, 0 for none or 1, and the value where there is one.
pub fn read_option<F: Field>(
    version: Version,
    alloc: Global,
    bytes: &[u8],
    at: usize,
) -> Result<(Option<F>, usize), Refusal>
    ensures { Gives result ((option (F.format version)).read bytes.now at) }
{
    let (there, at) = read_bool(bytes, at)?;
    if there {
        let (value, at) = F::read_at(version, alloc, bytes, at)?;
        Ok((Some(value), at))
    } else {
        Ok((None, at))
    }
}

/// Puts the values to the end, one after the other. Without memory some of them may stand there.
fn append_items<F: Field>(values: &[F], out: &mut Vec<u8>) -> Result<(), NoMemory>
    ensures { Puts (items (length values.now) (F.format newest)) values.now result
        out.old.items out.new.items }
{
    for value in values {
        value.append(out)?;
    }
    Ok(())
}

/// Puts the count in one byte to the end, and the values. Without memory a part of this may stand
/// there.
pub(crate) fn append_counted<F: Field>(
    values: &[F],
    most: u8,
    out: &mut Vec<u8>,
) -> Result<(), NoMemory>
    requires { length values.now ≤ most }
    ensures { Puts (list 1 most (F.format newest)) values.now result out.old.items out.new.items }
{
    write_u8(&(values.len() as u8), out)?;
    append_items(values, out)
}

/// Puts the count in four bytes to the end, and the values. Without memory a part of this may stand
/// there.
pub(crate) fn append_long_counted<F: Field>(
    values: &[F],
    most: u32,
    out: &mut Vec<u8>,
) -> Result<(), NoMemory>
    requires { length values.now ≤ most }
    ensures { Puts (list 4 most (F.format newest)) values.now result out.old.items out.new.items }
{
    write_u32(&(values.len() as u32), out)?;
    append_items(values, out)
}

/// Puts a flag to the end, and the value where there is one. Without memory a part of this may
/// stand there.
fn append_option<F: Field>(value: &Option<F>, out: &mut Vec<u8>) -> Result<(), NoMemory>
    ensures { Puts (option (F.format newest)) value.now result out.old.items out.new.items }
{
    match value {
        None => write_bool(&false, out),
        Some(value) => {
            write_bool(&true, out)?;
            value.append(out)
        }
    }
}

/// Puts the values to the end, one after the other. Without memory the buffer stays as it was.
pub fn write_items<F: Field>(values: &[F], out: &mut Vec<u8>) -> Result<(), NoMemory>
    ensures { Writes (items (length values.now) (F.format newest)) values.now result
        out.old.items out.new.items }
{
    let start = out.len();
    let done = append_items(values, out);
    take_back(done, start, out)
}

/// Puts the count of a slice in one byte to the end, and its values: at most `most` of them.
/// Without memory the buffer stays as it was.
pub fn write_counted<F: Field>(values: &[F], most: u8, out: &mut Vec<u8>) -> Result<(), NoMemory>
    requires { length values.now ≤ most }
    ensures { Writes (list 1 most (F.format newest)) values.now result out.old.items out.new.items }
{
    let start = out.len();
    let done = append_counted(values, most, out);
    take_back(done, start, out)
}

/// Puts the count in one byte to the end, and the values: at most `most` of them. Without memory
/// the buffer stays as it was.
pub fn write_list<F: Field>(
    values: &Sequence<F>,
    most: u8,
    out: &mut Vec<u8>,
) -> Result<(), NoMemory>
    requires { length values.now ≤ most }
    ensures { Writes (list 1 most (F.format newest)) values.now result out.old.items out.new.items }
{
    write_counted(values.as_slice(), most, out)
}

/// Puts the count of a slice in four bytes to the end, and its values: at most `most` of them.
/// Without memory the buffer stays as it was.
pub fn write_long_counted<F: Field>(
    values: &[F],
    most: u32,
    out: &mut Vec<u8>,
) -> Result<(), NoMemory>
    requires { length values.now ≤ most }
    ensures { Writes (list 4 most (F.format newest)) values.now result out.old.items out.new.items }
{
    let start = out.len();
    let done = append_long_counted(values, most, out);
    take_back(done, start, out)
}

/// Puts the count in four bytes to the end, and the values: at most `most` of them. Without memory
/// the buffer stays as it was.
pub fn write_long_list<F: Field>(
    values: &Sequence<F>,
    most: u32,
    out: &mut Vec<u8>,
) -> Result<(), NoMemory>
    requires { length values.now ≤ most }
    ensures { Writes (list 4 most (F.format newest)) values.now result out.old.items out.new.items }
{
    write_long_counted(values.as_slice(), most, out)
}

/// Puts a flag to the end, 0 for none or 1, and the value where there is one. Without memory the
/// buffer stays as it was.
pub fn write_option<F: Field>(value: &Option<F>, out: &mut Vec<u8>) -> Result<(), NoMemory>
    ensures { Writes (option (F.format newest)) value.now result out.old.items out.new.items }
{
    let start = out.len();
    let done = append_option(value, out);
    take_back(done, start, out)
}
