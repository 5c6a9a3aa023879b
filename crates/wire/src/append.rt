ghost use Rattle.std.specs.Prelude.{◌≡◌, ◌<◌, ◌≤◌, ◌+◌, ◌^◌, ◌⊎◌, length, IfSome, IfNone};
ghost use Rattle.rows.specs.Versions.{newest};
ghost use Rattle.fields_model.specs.Format.{Gives, GivesExactly, Puts};
ghost use Rattle.wire.specs.Grammar.{append_head, append_reply, append, entries, most_entries};
ghost use Rattle.wire.specs.Laws.GrammarLaws.{append_head_lawful, append_reply_lawful};

use fields::{
    Field, read_bool, read_index, read_list, read_term, write_bool, write_index, write_items,
    write_term, write_u8,
};
use machine::{Coded, Entry, Machine};
use rows::{Index, NoMemory, Refusal, Sequence, Term, Version};
use std::alloc::Global;
use std::marker::Model;

/// What an `Append` says in front of its entries. (Raft, Figure 2, AppendEntries.)
#[derive(Clone, Copy, Debug, PartialEq, Eq)]
pub struct AppendHead {
    /// The term of the leader that sends it.
    pub term: Term,
    /// The place in the log that the entries follow, or 0.
    pub prev_index: Index,
    /// The term of the entry at that place, or 0 where there is none.
    pub prev_term: Term,
    /// The sender's commit index.
    pub commit: Index,
}

/// A leader sends entries of its log, or none to be heard of. (Raft, Figure 2, AppendEntries.) It
/// has at most `MOST_ENTRIES` entries, and each has a place in the log, below 2^40.
#[derive(Drop)]
pub struct Append<M: Machine> {
    head: AppendHead,
    entries: Sequence<Entry<Coded<M>>>,
}

impl<M: Machine> Model for Append<M> {
    ghost use Rattle.std.specs.Prelude.{◌<◌, ◌≤◌, ◌+◌, ◌^◌, length};
    ghost use Rattle.wire.specs.Appends.{Append};

    ghost Value = { Append M.Command };

    ghost view = { λ a. record { head = a.head; entries = a.entries } };

    ghost invariant = { λ a. (length a.entries ≤ 32) × (a.head.prev_index + length a.entries < 2 ^ 40) };
}

/// The greatest number of entries in an `Append`.
pub const MOST_ENTRIES: u8 = 32;

/// How many entries may follow this place in one `Append`.
fn most_entries(prev_index: Index) -> u8
    ensures { result ≡ most_entries prev_index }
{
    let places = Index::LIMIT - 1 - prev_index.get();
    if places < MOST_ENTRIES as u64 {
        places as u8
    } else {
        MOST_ENTRIES
    }
}

impl<M: Machine> Append<M> {
    /// The message of these parts; none where there are more than 32 entries, or the last one's
    /// place is not below 2^40. It takes no memory.
    pub fn new(head: AppendHead, entries: Vec<Entry<Coded<M>>>) -> Option<Append<M>>
        ensures some { IfSome result (λ a. (a ≡ record { head = head; entries = entries.items })
            × (length entries.items ≤ 32) × (head.prev_index + length entries.items < 2 ^ 40)) }
        ensures none { IfNone result ((32 < length entries.items) ⊎ (2 ^ 40 ≤ head.prev_index + length entries.items)) }
    {
        if entries.len() <= most_entries(head.prev_index) as usize {
            Some(Append {
                head,
                entries: Sequence::from_vec(entries),
            })
        } else {
            None
        }
    }

    /// What it says in front of its entries.
    pub fn head(&self) -> AppendHead
        ensures value { result ≡ self.now.head }
        ensures places { result.prev_index + length self.now.entries < 2 ^ 40 }
    {
        self.head
    }

    /// Its entries, at most 32, in the order of the log.
    pub fn entries(&self) -> &[Entry<Coded<M>>]
        ensures value { result.now ≡ self.now.entries }
        ensures few { length result.now ≤ 32 }
        ensures places { self.now.head.prev_index + length result.now < 2 ^ 40 }
    {
        self.entries.as_slice()
    }

    /// What it says in front of its entries, and the entries, which takes no memory.
    pub fn into_parts(self) -> (AppendHead, Vec<Entry<Coded<M>>>)
        ensures head { result.0 ≡ self.head }
        ensures entries { result.1.items ≡ self.entries }
        ensures few { length result.1.items ≤ 32 }
        ensures places { result.0.prev_index + length result.1.items < 2 ^ 40 }
    {
        let Append { head, entries } = self;
        (head, entries.into_vec())
    }
}

/// The answer to a leader. (Raft, Figure 2, AppendEntries.)
#[derive(Clone, Copy, Debug, PartialEq, Eq)]
pub struct AppendReply {
    /// The sender's term.
    pub term: Term,
    /// The term of the `Append` that this answers.
    pub asked: Term,
    /// Whether the sender's log has the entries of the leader up to `at`.
    pub ok: bool,
    /// The place of the last entry that the sender knows to be the leader's; where it refuses, the
    /// place behind which the leader is to try again.
    pub at: Index,
}

impl Field for AppendHead {
    ghost format = { λ _. append_head };

    ghost lawful = { λ _. append_head_lawful };

    #[inline(always)]
    fn read_at(
        _version: Version,
        _alloc: Global,
        bytes: &[u8],
        at: usize,
    ) -> Result<(AppendHead, usize), Refusal>
        ensures { GivesExactly result (append_head.read bytes.now at) }
    {
        let (term, at) = read_term(bytes, at)?;
        let (prev_index, at) = read_index(bytes, at)?;
        let (prev_term, at) = read_term(bytes, at)?;
        let (commit, at) = read_index(bytes, at)?;
        Ok((
            AppendHead {
                term,
                prev_index,
                prev_term,
                commit,
            },
            at,
        ))
    }

    #[inline(always)]
    fn append(&self, out: &mut Vec<u8>) -> Result<(), NoMemory> {
        write_term(&self.term, out)?;
        write_index(&self.prev_index, out)?;
        write_term(&self.prev_term, out)?;
        write_index(&self.commit, out)
    }
}

impl Field for AppendReply {
    ghost format = { λ _. append_reply };

    ghost lawful = { λ _. append_reply_lawful };

    #[inline(always)]
    fn read_at(
        _version: Version,
        _alloc: Global,
        bytes: &[u8],
        at: usize,
    ) -> Result<(AppendReply, usize), Refusal>
        ensures { GivesExactly result (append_reply.read bytes.now at) }
    {
        let (term, at) = read_term(bytes, at)?;
        let (asked, at) = read_term(bytes, at)?;
        let (ok, at) = read_bool(bytes, at)?;
        let (place, at) = read_index(bytes, at)?;
        Ok((
            AppendReply {
                term,
                asked,
                ok,
                at: place,
            },
            at,
        ))
    }

    #[inline(always)]
    fn append(&self, out: &mut Vec<u8>) -> Result<(), NoMemory> {
        write_term(&self.term, out)?;
        write_term(&self.asked, out)?;
        write_bool(&self.ok, out)?;
        write_index(&self.at, out)
    }
}

// The entries at a place, at most `most` of them, and the place after them.
#[inline(always)]
fn read_entries<M: Machine>(
    alloc: Global,
    bytes: &[u8],
    at: usize,
    most: u8,
) -> Result<(Sequence<Entry<Coded<M>>>, usize), Refusal>
    ensures { Gives result ((entries (M.spec.commands newest) most).read bytes.now at) }
{
    read_list(Version::newest(), alloc, bytes, at, most)
}

/// The `Append` at a place, and the place after it. A count of more entries than there may be is a
/// fault at the count.
#[inline(always)]
pub fn read_append<M: Machine>(
    alloc: Global,
    bytes: &[u8],
    at: usize,
) -> Result<(Append<M>, usize), Refusal>
    ensures { Gives result ((append (M.spec.commands newest)).read bytes.now at) }
{
    let (head, at) = AppendHead::read_at(Version::newest(), alloc, bytes, at)?;
    let (entries, end) = read_entries(alloc, bytes, at, most_entries(head.prev_index))?;
    Ok((Append { head, entries }, end))
}

/// Puts an `Append` of these parts to the end.
#[tactic(auto, using(crate::proofs::Rules::appends))]
#[inline(always)]
pub fn append_append<M: Machine>(
    head: &AppendHead,
    entries: &[Entry<Coded<M>>],
    out: &mut Vec<u8>,
) -> Result<(), NoMemory>
    requires few { length entries.now ≤ 32 }
    requires places { head.now.prev_index + length entries.now < 2 ^ 40 }
    ensures { Puts (append (M.spec.commands newest))
        (record { head = head.now; entries = entries.now }) result out.old.items out.new.items }
{
    head.append(out)?;
    write_u8(&(entries.len() as u8), out)?;
    write_items(entries, out)
}
