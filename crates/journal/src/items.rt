//! How items stand on a stream: the length of each in four bytes, the highest first, and then its
//! bytes.
ghost use Rattle.std.specs.Prelude.{◌≡◌, ◌≤◌, ◌<◌, ◌+◌, ℕ, IfOk, MatchOption, length, take, drop};
ghost use Rattle.fields_model.specs.Format.{spelled};
ghost use Rattle.wire.specs.Frames.{sized};
ghost use Rattle.journal.specs.Items.{IsTooLong, ItemStarts};
ghost use Rattle.journal.specs.Inner.Rests.{NoItem};

use fields::{read_u32, write_u32};
use rows::NoMemory;
use std::alloc::Global;

/// No item is longer: 16,777,216 bytes, as no frame is.
pub const MOST_BYTES: u32 = 16_777_216;

/// So many bytes from an offset on; none where there are fewer.
pub(crate) fn bytes_at(bytes: &[u8], at: usize, size: usize) -> Option<&[u8]>
    requires { at ≤ length bytes.now }
    ensures { MatchOption result (length bytes.now < at + size) (λ part.
        (at + size ≤ length bytes.now) × (part.now ≡ take size (drop at bytes.now))) }
{
    if bytes.len() - at < size {
        return None;
    }
    Some(&bytes[at..at + size])
}

/// The number that four bytes spell.
#[tactic(auto, using(crate::proofs::Fronts::head_spells))]
pub(crate) fn length_of(head: &[u8]) -> u32
    requires { length head.now ≡ 4 }
    ensures { spelled 4 result ≡ head.now }
{
    match read_u32(head, 0) {
        Ok((size, _)) => size,
        Err(_) => unreachable!(),
    }
}

/// The item that stands at an offset, and the offset behind it; none where it is too long, or not
/// all of it is there.
pub(crate) fn next_item(bytes: &[u8], at: usize) -> Option<(&[u8], usize)>
    requires { at ≤ length bytes.now }
    ensures { MatchOption result (NoItem (drop at bytes.now)) (λ r.
        ItemStarts (drop at bytes.now) r.0.now (drop r.1 bytes.now)
        × (at < r.1) × (r.1 ≤ length bytes.now)) }
{
    let Some(head) = bytes_at(bytes, at, 4) else {
        return None;
    };
    let size = length_of(head);
    if size > MOST_BYTES {
        return None;
    }
    let Some(item) = bytes_at(bytes, at + 4, size as usize) else {
        return None;
    };
    Some((item, at + 4 + item.len()))
}

/// The length of the item that stands at an offset, where it is too long.
pub(crate) fn too_long(bytes: &[u8], at: usize) -> Option<u32>
    requires { at ≤ length bytes.now }
    ensures { MatchOption result ((size : ℕ) → IsTooLong (drop at bytes.now) size → ⊥)
        (λ size. IsTooLong (drop at bytes.now) size) }
{
    let Some(head) = bytes_at(bytes, at, 4) else {
        return None;
    };
    let size = length_of(head);
    if size > MOST_BYTES {
        return Some(size);
    }
    None
}

/// The item of these bytes, as it stands on a stream. There is no memory either for more bytes than
/// four can count, which no frame has.
pub fn item_of(alloc: Global, bytes: &[u8]) -> Result<Vec<u8>, NoMemory>
    ensures { IfOk result (λ item. item.items ≡ sized bytes.now) }
{
    let Ok(size) = u32::try_from(bytes.len()) else {
        return Err(NoMemory);
    };
    let mut item = Vec::new(alloc);
    write_u32(&size, &mut item)?;
    item.extend_from_slice(bytes)?;
    Ok(item)
}
