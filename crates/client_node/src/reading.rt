//! What a journal has of what a client ever started.
ghost use Rattle.std.specs.Prelude.{◌≡◌, ◌≤◌, ◌-◌, ◌^◌, ℕ, None, Some, IfErr, IfOk, OnOk, option_map, drop, length};
ghost use Rattle.fields_model.specs.Format.{Gives, list, whole};
ghost use Rattle.fields_model.specs.Ids.{allocation_id};
ghost use Rattle.journal.specs.Starts.{FaultAt, ReplaysTo};
ghost use Rattle.client_node.specs.Records.{ids_in, started_replay};
ghost use Rattle.client_node.specs.Starts.{IsAnothers, IsBadStore, IsStored};
ghost use Rattle.client_node.specs.declared.fault.Fault.TheVariants as faults;

use crate::fault::Fault;
use fields::read_long_list;
use journal::{may_be_torn, next_record};
use rows::{AllocId, Refusal, Sequence, Version};
use std::alloc::Global;

/// The ids of which a payload is all.
fn read_ids(alloc: Global, payload: &[u8]) -> Result<Sequence<AllocId>, Refusal>
    ensures { Gives result (whole (list 4 (2 ^ 32 - 1) allocation_id) payload.now) }
{
    let (ids, end) = read_long_list(Version::newest(), alloc, payload, 0, u32::MAX)?;
    if end == payload.len() {
        Ok(ids)
    } else {
        Err(Refusal::Frame(end))
    }
}

/// The ids of the record at an offset.
fn ids_at(alloc: Global, payload: &[u8], at: usize) -> Result<Vec<AllocId>, Fault>
    ensures whole { IfOk result (λ ids. ids_in payload.now ≡ Some ids.items) }
    ensures fault { IfErr result (λ fault. (place : ℕ) → fault ≡ faults.BadStore place →
        (place ≡ at) × (ids_in payload.now ≡ None)) }
    ensures own { IfErr result (λ fault. fault ≡ faults.Another → ⊥) }
{
    match read_ids(alloc, payload) {
        Ok(ids) => Ok(ids.into_vec()),
        Err(Refusal::Frame(_)) => Err(Fault::BadStore(at)),
        Err(_) => Err(Fault::NoMemory),
    }
}

/// The ids with those of one record more; the record stands at an offset.
fn follow(alloc: Global, ids: &mut Vec<AllocId>, payload: &[u8], at: usize) -> Result<(), Fault>
    ensures after { OnOk result
        (started_replay.after ids.old.items payload.now ≡ Some ids.new.items) }
    ensures fault { IfErr result (λ fault. (place : ℕ) → fault ≡ faults.BadStore place →
        (place ≡ at) × (started_replay.after ids.old.items payload.now ≡ None)) }
    ensures own { IfErr result (λ fault. fault ≡ faults.Another → ⊥) }
{
    let more = ids_at(alloc, payload, at)?;
    match ids.extend_from_slice(more.as_slice()) {
        Ok(()) => Ok(()),
        Err(_) => Err(Fault::NoMemory),
    }
}

/// The ids of the records that stand from an offset on, one behind the other. A record that was
/// being written may be torn, and is left out; any other fault is at the offset of its record.
fn from_journal(alloc: Global, bytes: &[u8], start: usize) -> Result<Vec<AllocId>, Fault>
    requires { start ≤ length bytes.now }
    ensures kept { IfOk result (λ ids. ReplaysTo started_replay (drop start bytes.now) ids.items) }
    ensures fault { IfErr result (λ fault. (place : ℕ) → fault ≡ faults.BadStore place →
        FaultAt started_replay bytes.now start place) }
    ensures own { IfErr result (λ fault. fault ≡ faults.Another → ⊥) }
{
    let Some((payload, next)) = next_record(bytes, start) else {
        return Err(Fault::BadStore(start));
    };
    let mut all = ids_at(alloc, payload, start)?;
    let mut at = next;
    'records: while let Some((payload, next)) = next_record(bytes, at) {
        follow(alloc, &mut all, payload, at)?;
        at = next;
    }
    if may_be_torn(bytes, at) {
        Ok(all)
    } else {
        Err(Fault::BadStore(at))
    }
}

/// The ids that a client ever started, by what its store has; none where there is none. The header
/// is the first line of its journal.
pub fn started_of(
    alloc: Global,
    header: &[u8],
    stored: Option<&[u8]>,
) -> Result<Vec<AllocId>, Fault>
    ensures stored { IfOk result (λ ids. IsStored header.now
        (option_map (λ text. text.now) stored.entry) ids.items) }
    ensures fault { IfErr result (λ fault. (place : ℕ) → fault ≡ faults.BadStore place →
        IsBadStore header.now (option_map (λ text. text.now) stored.entry) place) }
    ensures another { IfErr result (λ fault. fault ≡ faults.Another →
        IsAnothers header.now (option_map (λ text. text.now) stored.entry)) }
{
    let Some(bytes) = stored else {
        return Ok(Vec::new(alloc));
    };
    if bytes.starts_with(header) {
        return from_journal(alloc, bytes, header.len());
    }
    Err(Fault::Another)
}
