//! What a server stores, read from bytes.

ghost use Rattle.std.specs.Prelude.{◌≡◌, ◌+◌, ◌^◌, ◌<◌, ◌≤◌, ℕ, Ok, Some, None, length, drop, IfOk, OnErr, MatchBool, bytes_eq};
ghost use Rattle.rows.specs.Versions.{newest};
ghost use Rattle.fields_model.specs.Format.{Gives, GivesExactly, number_at, whole};
ghost use Rattle.raft_snapshot.specs.Bases.{IsSnapshot};
ghost use Rattle.raft_snapshot.specs.Changes.{changed_part};
ghost use Rattle.raft_snapshot.specs.Stored.{Stored};
ghost use Rattle.raft_snapshot.specs.Texts.{vote, covered, most_behind, entries, front, stored_of, agrees, stable_at, stable_text, IsStableText, StableFits};
ghost use Rattle.raft_snapshot.specs.Inner.Faults.{moved_fault};

use crate::log::Log;
use crate::snapshot::Snapshot;
use crate::stable::Stable;
use fields::{read_index, read_items, read_term, read_u8, read_u64};
use machine::{Coded, Entry, Machine};
use rows::{Index, NoMemory, Refusal, Sequence, ServerId, Term, Version};
use std::alloc::Global;
use std::marker::Model;

/// What stands in front of the state in the text of what a server stores; by itself it is a change
/// of that: the term, the vote, how many entries stay, the last one's term, and the entries behind
/// them.
#[derive(Drop)]
pub struct Front<M: Machine> {
    term: Term,
    vote: Option<ServerId>,
    index: Index,
    index_term: Term,
    entries: Sequence<Entry<Coded<M>>>,
}

impl<M: Machine> Model for Front<M> {
    ghost use Rattle.std.specs.Prelude.{◌≡◌, ◌<◌, ◌+◌, ◌^◌, length};
    ghost use Rattle.raft_snapshot.specs.Texts.{Front};

    ghost Value = { Front M.Command };

    ghost view = { λ f. record {
      term = f.term;
      vote = f.vote;
      index = f.index;
      index_term = f.index_term;
      entries = f.entries;
    } };

    ghost invariant = { λ f. (f.index ≡ 0 → f.index_term ≡ 0) × (f.index + length f.entries < 2 ^ 40) };
}

/// The version: one byte, its number.
fn read_version(bytes: &[u8]) -> Result<(Version, usize), Refusal>
    ensures { GivesExactly result (number_at 1 1 (newest + 1) bytes.now 0) }
{
    let (number, next) = read_u8(bytes, 0)?;
    match Version::new(number) {
        Some(version) => Ok((version, next)),
        None => Err(Refusal::Frame(0)),
    }
}

/// The vote: 0 where none was given, or the number of the server that has it.
fn read_vote(bytes: &[u8], at: usize) -> Result<(Option<ServerId>, usize), Refusal>
    ensures { GivesExactly result (vote.read bytes.now at) }
{
    let (number, next) = read_u8(bytes, at)?;
    if number == 0 {
        return Ok((None, next));
    }
    match ServerId::from_number(number) {
        Some(server) => Ok((Some(server), next)),
        None => Err(Refusal::Frame(at)),
    }
}

/// How many entries are covered, and the term of the last one, which is 0 where none is.
fn read_covered(bytes: &[u8], at: usize) -> Result<((Index, Term), usize), Refusal>
    ensures { GivesExactly result (covered.read bytes.now at) }
{
    let (index, term_at) = read_index(bytes, at)?;
    let (term, end) = read_term(bytes, term_at)?;
    if index.get() == 0 && term.get() != 0 {
        return Err(Refusal::Frame(term_at));
    }
    Ok(((index, term), end))
}

/// The count of the entries behind those that are covered, which all have places.
fn read_count(bytes: &[u8], at: usize, index: Index) -> Result<(usize, usize), Refusal>
    ensures { GivesExactly result (number_at 8 0 (most_behind index + 1) bytes.now at) }
{
    match read_u64(bytes, at)? {
        (count, next) if count < Index::LIMIT - index.get() => Ok((count as usize, next)),
        _ => Err(Refusal::Frame(at)),
    }
}

/// The entries behind those that are covered.
fn read_entries<M: Machine>(
    version: Version,
    alloc: Global,
    bytes: &[u8],
    at: usize,
    index: Index,
) -> Result<(Sequence<Entry<Coded<M>>>, usize), Refusal>
    ensures { Gives result ((entries (M.spec.commands version) index).read bytes.now at) }
{
    let (count, next) = read_count(bytes, at, index)?;
    read_items(version, alloc, bytes, next, count)
}

/// What stands in front of the state.
fn read_front<M: Machine>(
    version: Version,
    alloc: Global,
    bytes: &[u8],
    at: usize,
) -> Result<(Front<M>, usize), Refusal>
    ensures { Gives result ((front (M.spec.commands version)).read bytes.now at) }
{
    let (term, at) = read_term(bytes, at)?;
    let (vote, at) = read_vote(bytes, at)?;
    let ((index, index_term), at) = read_covered(bytes, at)?;
    let (entries, end) = read_entries(version, alloc, bytes, at, index)?;
    Ok((
        Front {
            term,
            vote,
            index,
            index_term,
            entries,
        },
        end,
    ))
}

/// A change that stands at a place of some bytes, as `write_change` puts it, and the place behind
/// it. Bytes that are none are refused with the offset of the first field that is cut or out of its
/// range. It takes memory for what it reads, and never for a count that it has only read.
pub fn read_change<M: Machine>(
    alloc: Global,
    bytes: &[u8],
    at: usize,
) -> Result<(Front<M>, usize), Refusal>
    ensures { Gives result ((front (M.spec.commands newest)).read bytes.now at) }
{
    read_front(Version::newest(), alloc, bytes, at)
}

/// Makes of what is stored what a change makes of it. The answer is no, and nothing changes, where
/// the change's entries do not follow: the log does not reach them, or has another term in front of
/// them, or its snapshot covers more. Without memory nothing changes either.
pub fn take_change<M: Machine>(stable: &mut Stable<M>, change: Front<M>) -> Result<bool, NoMemory>
    ensures ok { IfOk result (λ done. MatchBool done
        (changed_part stable.old change ≡ Some stable.new)
        ((changed_part stable.old change ≡ None) × (stable.new ≡ stable.old))) }
    ensures err { OnErr result (stable.new ≡ stable.old) }
{
    let Front {
        term,
        vote,
        index,
        index_term,
        entries,
    } = change;
    stable.follow(term, vote, index, index_term, entries.into_vec())
}

/// What stands from a place on.
fn rest_of(bytes: &[u8], at: usize) -> &[u8]
    requires { at ≤ length bytes.now }
    ensures value { result.now ≡ drop at bytes.now }
    ensures room { at + length result.now < 2 ^ 64 }
{
    &bytes[at..]
}

/// The state whose text this is; it stands at a place of other bytes, which a fault names.
fn read_state<M: Machine>(
    version: Version,
    alloc: Global,
    text: &[u8],
    at: usize,
) -> Result<M, Refusal>
    requires { at + length text.now < 2 ^ 64 }
    ensures { Gives result (moved_fault at (whole (M.spec.states version) text.now)) }
{
    match M::load(version, alloc, text) {
        Ok(state) => Ok(state),
        Err(Refusal::Frame(place)) => Err(Refusal::Frame(at + place)),
        Err(refusal) => Err(refusal),
    }
}

/// Whether this is the machine's first state: it is written as that one is.
fn is_first<M: Machine>(alloc: Global, state: &M) -> Result<bool, NoMemory>
    ensures { IfOk result (λ is. is
        ≡ bytes_eq ((M.spec.states newest).text state.now)
        ((M.spec.states newest).text M.spec.empty)) }
{
    let mut text = Vec::new(alloc);
    state.save(&mut text)?;
    let mut first = Vec::new(alloc);
    let empty = M::empty(alloc);
    empty.save(&mut first)?;
    Ok(text.as_slice() == first.as_slice())
}

/// Whether a state has seen as many commands, and is the first one where that is none.
fn agrees<M: Machine>(alloc: Global, index: Index, state: &M) -> Result<bool, NoMemory>
    ensures { IfOk result (λ is. is ≡ agrees M.spec index state.now) }
{
    if state.count() != index.get() {
        return Ok(false);
    }
    if index.get() > 0 {
        return Ok(true);
    }
    is_first(alloc, state)
}

/// What is stored, of what stands in front of the state, and the state.
fn stable_of<M: Machine>(front: Front<M>, state: M) -> Stable<M>
    requires { IsSnapshot M.spec
        (record { index = front.index; term = front.index_term; state = state }) }
    ensures { result ≡ stored_of M.spec (front, state) }
{
    let Front {
        term,
        vote,
        index,
        index_term,
        entries,
    } = front;
    let base = Snapshot::of(index, index_term, state);
    Stable::from_parts(term, vote, Log::of(base, entries.into_vec()))
}

/// What is stored, or the first fault.
#[tactic(auto, unfolding(crate::specs::Texts::stable_at))]
fn read_text<M: Machine>(alloc: Global, bytes: &[u8]) -> Result<Stable<M>, Refusal>
    ensures { Gives result (stable_at M.spec bytes.now) }
{
    let (version, at) = read_version(bytes)?;
    let (front, at) = read_front(version, alloc, bytes, at)?;
    let text = rest_of(bytes, at);
    let state = read_state(version, alloc, text, at)?;
    if !agrees(alloc, front.index, &state)? {
        return Err(Refusal::Frame(at));
    }
    Ok(stable_of(front, state))
}

/// What a server stored, of which these bytes are the whole text, in the version that their first
/// byte names: the newest, as `write_stable` puts it, or an older one, where what that one does not
/// say is nothing.
///
/// Bytes that are no such text are refused with the offset of the first field that is cut or out of
/// its range: a version that is not there; a count of entries of which the last has no place,
/// below 2^40; a term of covered entries where none is covered. Then come the faults inside the
/// state, and bytes left over, which are at fault at the first of them. Last, a state that has seen
/// another number of commands than there are covered entries, or that is not the machine's first
/// one where none is, is at fault at its first byte. Nothing else is asked of one field by another.
/// It takes memory for what it reads, and never for a count that it has only read.
pub fn read_stable<M: Machine>(alloc: Global, bytes: &[u8]) -> Result<Stable<M>, Refusal>
    // What is read has just these bytes, in some version.
    ensures found { IfOk result (λ s. IsStableText M.spec s bytes.now) }
    // What has a text in a version is read from it, unless memory runs out.
    ensures only { (version : ℕ) (s : Stored M M.Command) → StableFits M.spec version s
        → bytes.now ≡ stable_text M.spec version s → Gives result (Ok s) }
    // Which field is at fault.
    ensures exact { Gives result (stable_at M.spec bytes.now) }
{
    read_text(alloc, bytes)
}
