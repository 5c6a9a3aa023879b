//! What a journal, or an older store, has of what a server stores.
ghost use Rattle.std.specs.Prelude.{◌≡◌, ◌≤◌, ℕ, None, Some, IfErr, IfOk, OnOk, drop, length, option_map};
ghost use Rattle.rows.specs.Versions.{newest};
ghost use Rattle.fields_model.specs.Format.{Gives, whole};
ghost use Rattle.raft_snapshot.specs.Texts.{front};
ghost use Rattle.journal.specs.Starts.{FaultAt, ReplaysTo};
ghost use Rattle.raft_records.specs.Records.{raft_replay};
ghost use Rattle.raft_records.specs.Starts.{IsAnothers, IsBadStore, IsStored};
ghost use Rattle.raft_records.specs.declared.reading.Unread.TheVariants as unread;

use journal::{MAGIC, may_be_torn, next_record};
use machine::Machine;
use raft_snapshot::{Front, Stable, read_change, read_stable, take_change};
use rows::Refusal;
use std::alloc::Global;

/// Why what a store has was not read.
#[derive(Clone, Copy, Debug, Drop)]
pub enum Unread {
    /// There was no memory.
    NoMemory,
    /// It is the journal of another, or of one of a group of another size.
    Another,
    /// It is no stored part: the offset of its first fault, or of the record that is damaged, from
    /// 0.
    At(usize),
}

/// What the store has, or where there is none what a new server stores. The header is the first line
/// of its journal.
pub fn stable_of<M: Machine>(
    alloc: Global,
    header: &[u8],
    stored: Option<&[u8]>,
) -> Result<Stable<M>, Unread>
    ensures stored { IfOk result (IsStored M.spec header.now
        (option_map (λ text. text.now) stored.entry)) }
    ensures fault { IfErr result (λ error. (place : ℕ) → error ≡ unread.At place →
        IsBadStore M.spec header.now (option_map (λ text. text.now) stored.entry) place) }
    ensures another { IfErr result (λ error. error ≡ unread.Another →
        IsAnothers header.now (option_map (λ text. text.now) stored.entry)) }
{
    let Some(bytes) = stored else {
        return Ok(Stable::new(alloc));
    };
    if bytes.starts_with(header) {
        return from_journal(alloc, bytes, header.len());
    }
    if bytes.starts_with(MAGIC) {
        return Err(Unread::Another);
    }
    match read_stable(alloc, bytes) {
        Ok(stable) => Ok(stable),
        Err(Refusal::Frame(place)) => Err(Unread::At(place)),
        Err(_) => Err(Unread::NoMemory),
    }
}

/// The whole of what was stored, from the payload of a journal's first record.
fn whole_of<M: Machine>(alloc: Global, payload: &[u8], at: usize) -> Result<Stable<M>, Unread>
    ensures whole { IfOk result (λ s. (raft_replay M.spec).whole payload.now ≡ Some s) }
    ensures fault { IfErr result (λ error. (place : ℕ) → error ≡ unread.At place →
        (place ≡ at) × ((raft_replay M.spec).whole payload.now ≡ None)) }
    ensures own { IfErr result (λ error. error ≡ unread.Another → ⊥) }
{
    match read_stable(alloc, payload) {
        Ok(stable) => Ok(stable),
        Err(Refusal::Frame(_)) => Err(Unread::At(at)),
        Err(_) => Err(Unread::NoMemory),
    }
}

/// The change that is all of a payload.
fn change_of<M: Machine>(alloc: Global, payload: &[u8]) -> Result<Front<M>, Refusal>
    ensures { Gives result (whole (front (M.spec.commands newest)) payload.now) }
{
    let (change, end) = read_change(alloc, payload, 0)?;
    if end == payload.len() {
        Ok(change)
    } else {
        Err(Refusal::Frame(end))
    }
}

/// What is stored after one record more of a journal; the record stands at an offset.
fn follow<M: Machine>(
    alloc: Global,
    stable: &mut Stable<M>,
    payload: &[u8],
    at: usize,
) -> Result<(), Unread>
    ensures after { OnOk result
        ((raft_replay M.spec).after stable.old payload.now ≡ Some stable.new) }
    ensures fault { IfErr result (λ error. (place : ℕ) → error ≡ unread.At place →
        (place ≡ at) × ((raft_replay M.spec).after stable.old payload.now ≡ None)) }
    ensures own { IfErr result (λ error. error ≡ unread.Another → ⊥) }
{
    let change = match change_of(alloc, payload) {
        Ok(change) => change,
        Err(Refusal::Frame(_)) => return Err(Unread::At(at)),
        Err(_) => return Err(Unread::NoMemory),
    };
    match take_change(stable, change) {
        Ok(true) => Ok(()),
        Ok(false) => Err(Unread::At(at)),
        Err(_) => Err(Unread::NoMemory),
    }
}

/// What the records of a journal stand for that stand from an offset on. A record that was being
/// written may be torn, and is left out; any other fault is at the offset of its record.
fn from_journal<M: Machine>(alloc: Global, bytes: &[u8], start: usize) -> Result<Stable<M>, Unread>
    requires { start ≤ length bytes.now }
    ensures kept { IfOk result (λ s. ReplaysTo (raft_replay M.spec) (drop start bytes.now) s) }
    ensures fault { IfErr result (λ error. (place : ℕ) → error ≡ unread.At place →
        FaultAt (raft_replay M.spec) bytes.now start place) }
    ensures own { IfErr result (λ error. error ≡ unread.Another → ⊥) }
{
    let Some((payload, next)) = next_record(bytes, start) else {
        return Err(Unread::At(start));
    };
    let mut stable = whole_of(alloc, payload, start)?;
    let mut at = next;
    'records: while let Some((payload, next)) = next_record(bytes, at) {
        follow(alloc, &mut stable, payload, at)?;
        at = next;
    }
    if may_be_torn(bytes, at) {
        Ok(stable)
    } else {
        Err(Unread::At(at))
    }
}
