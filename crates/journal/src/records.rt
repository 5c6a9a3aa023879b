//! The records of a journal.
ghost use Rattle.std.specs.Prelude.{◌≡◌, ◌+◌, ◌^◌, ◌<◌, ◌≤◌, ◌++◌, ℕ, List, Err, Ok, length, take, drop, MatchBool, MatchOption};
ghost use Rattle.std.specs.List.{flat_map};
ghost use Rattle.fields_model.specs.Format.{Puts};
ghost use Rattle.journal.specs.Records.{checksum, wal_record};
ghost use Rattle.journal.specs.Journals.{IsJournal};
ghost use Rattle.journal.specs.Tails.{MayBeTorn};

use crate::items::{bytes_at, length_of};
use fields::{read_u32, read_u64, write_u32, write_u64};
use rows::NoMemory;
use sha2::{Digest, Sha256};

/// The checksum of a payload.
#[tactic(auto, unfolding(crate::specs::Records::checksum))]
fn checksum_of(payload: &[u8]) -> u64
    ensures { result ≡ checksum payload.now }
{
    let digest = Sha256::digest(payload);
    match read_u64(digest.as_slice(), 0) {
        Ok((number, _)) => number,
        Err(_) => unreachable!(),
    }
}

/// Puts a payload's record to the end; after an error a part of it may stand there.
pub fn write_record(payload: &[u8], out: &mut Vec<u8>) -> Result<(), NoMemory>
    ensures { Puts wal_record payload.now result out.old.items out.new.items }
{
    let Ok(size) = u32::try_from(payload.len()) else {
        return Err(NoMemory);
    };
    write_u64(&checksum_of(payload), out)?;
    write_u32(&size, out)?;
    out.extend_from_slice(payload)?;
    Ok(())
}

/// The payload of the record that stands at an offset, and the offset behind it; none where no
/// record stands there.
pub fn next_record(bytes: &[u8], at: usize) -> Option<(&[u8], usize)>
    requires { at ≤ length bytes.now }
    ensures { MatchOption result ((place : ℕ) × (wal_record.read bytes.now at ≡ Err place))
        (λ r. wal_record.read bytes.now at ≡ Ok (r.0.now, r.1)) }
{
    let Ok((sum, next)) = read_u64(bytes, at) else {
        return None;
    };
    let Ok((size, start)) = read_u32(bytes, next) else {
        return None;
    };
    let payload = bytes_at(bytes, start, size as usize)?;
    if checksum_of(payload) != sum {
        return None;
    }
    Some((payload, start + payload.len()))
}

/// Whether what stands from an offset on is a tail that a crash may leave of a record that was being
/// written: less than a record's head, or its head and no more bytes than its length says. Where it
/// is none, a record there was damaged.
pub fn may_be_torn(bytes: &[u8], at: usize) -> bool
    requires { at ≤ length bytes.now }
    ensures { MatchBool result (MayBeTorn (drop at bytes.now))
        (MayBeTorn (drop at bytes.now) → ⊥) }
{
    if bytes.len() - at < 12 {
        return true;
    }
    let Some(head) = bytes_at(bytes, at + 8, 4) else {
        unreachable!()
    };
    bytes.len() - at - 12 <= length_of(head) as usize
}
