ghost use Rattle.std.specs.Prelude.{◌≡◌, ◌≢◌, ◌+◌, ◌^◌, ◌<◌, ◌≤◌, ◌⊎◌, length, drop, IfSome, IfNone};
ghost use Rattle.rows.specs.Versions.{newest};
ghost use Rattle.fields_model.specs.Format.{Gives, GivesExactly, Puts, placed};
ghost use Rattle.wire.specs.declared.kind.Kind.TheVariants as kinds;
ghost use Rattle.wire.specs.declared.body.Body.TheVariants as bodies;
ghost use Rattle.wire.specs.Grammar.{install_head, install, install_reply, body};
ghost use Rattle.wire.specs.Inner.Readings.{ended, AnswersBody};
ghost use Rattle.wire.specs.Laws.GrammarLaws.{install_reply_lawful};

use fields::{Field, read_index, read_term, write_index, write_term};
use machine::Machine;
use rows::{EntryIndex, Index, NoMemory, Refusal, Term, Version};
use std::alloc::Global;
use std::marker::Model;

/// What an `Install` says in front of its state. (Raft, Figure 13, InstallSnapshot.)
#[derive(Clone, Copy, Debug, PartialEq, Eq)]
pub struct InstallHead {
    /// The term of the leader that sends it.
    pub term: Term,
    /// The index of the last entry that the state has in it, at least 1 in a message.
    pub index: Index,
    /// The term of that entry.
    pub index_term: Term,
}

/// A leader sends the state that its log's first entries lead to, in place of these. (Raft, Figure
/// 13, InstallSnapshot.) Their number is the index, which is at least 1, and the state has seen as
/// many commands.
#[derive(Drop)]
pub struct Install<M: Machine> {
    head: InstallHead,
    state: M,
}

impl<M: Machine> Model for Install<M> {
    ghost use Rattle.std.specs.Prelude.{◌≡◌, ◌≤◌};
    ghost use Rattle.wire.specs.Installs.{Install};

    ghost Value = { Install M };

    ghost view = { λ i. record { head = i.head; state = i.state } };

    ghost invariant = { λ i. (1 ≤ i.head.index) × (M.spec.count i.state ≡ i.head.index) };
}

impl<M: Machine> Install<M> {
    /// The message of these parts; none where the index is 0, or the state has seen another number
    /// of commands. It takes no memory.
    pub fn new(head: InstallHead, state: M) -> Option<Install<M>>
        ensures some { IfSome result (λ i. (i ≡ record { head = head; state = state })
            × (1 ≤ head.index) × (M.spec.count state ≡ head.index)) }
        ensures none { IfNone result ((head.index ≡ 0) ⊎ (M.spec.count state ≢ head.index)) }
    {
        if head.index.get() == 0 || state.count() != head.index.get() {
            return None;
        }
        Some(Install { head, state })
    }

    /// What it says in front of its state.
    pub fn head(&self) -> InstallHead
        ensures value { result ≡ self.now.head }
        ensures index { 1 ≤ result.index }
        ensures count { M.spec.count self.now.state ≡ result.index }
    {
        self.head
    }

    /// Its state.
    pub fn state(&self) -> &M
        ensures value { result.now ≡ self.now.state }
        ensures index { 1 ≤ self.now.head.index }
        ensures count { M.spec.count result.now ≡ self.now.head.index }
    {
        &self.state
    }

    /// What it says in front of its state, and the state, which takes no memory.
    pub fn into_parts(self) -> (InstallHead, M)
        ensures head { result.0 ≡ self.head }
        ensures state { result.1 ≡ self.state }
        ensures index { 1 ≤ result.0.index }
        ensures count { M.spec.count result.1 ≡ result.0.index }
    {
        let Install { head, state } = self;
        (head, state)
    }
}

/// The answer to an `Install`. (Raft, Figure 13, InstallSnapshot.)
#[derive(Clone, Copy, Debug, PartialEq, Eq)]
pub struct InstallReply {
    /// The sender's term.
    pub term: Term,
    /// The term of the `Install` that this answers.
    pub asked: Term,
    /// The place of the last entry that the sender knows to be the leader's.
    pub at: Index,
}

impl Field for InstallReply {
    ghost format = { λ _. install_reply };

    ghost lawful = { λ _. install_reply_lawful };

    #[inline(always)]
    fn read_at(
        _version: Version,
        _alloc: Global,
        bytes: &[u8],
        at: usize,
    ) -> Result<(InstallReply, usize), Refusal>
        ensures { GivesExactly result (install_reply.read bytes.now at) }
    {
        let (term, at) = read_term(bytes, at)?;
        let (asked, at) = read_term(bytes, at)?;
        let (place, at) = read_index(bytes, at)?;
        Ok((
            InstallReply {
                term,
                asked,
                at: place,
            },
            at,
        ))
    }

    #[inline(always)]
    fn append(&self, out: &mut Vec<u8>) -> Result<(), NoMemory> {
        write_term(&self.term, out)?;
        write_term(&self.asked, out)?;
        write_index(&self.at, out)
    }
}

// What an `Install` says in front of its state, and the place after it.
fn read_install_head(
    alloc: Global,
    bytes: &[u8],
    at: usize,
) -> Result<(InstallHead, usize), Refusal>
    ensures { GivesExactly result (install_head.read bytes.now at) }
{
    let (term, at) = read_term(bytes, at)?;
    let (index, at) = EntryIndex::read_at(Version::newest(), alloc, bytes, at)?;
    let (index_term, at) = read_term(bytes, at)?;
    Ok((
        InstallHead {
            term,
            index: index.index(),
            index_term,
        },
        at,
    ))
}

// The bytes from a place on.
fn rest(bytes: &[u8], at: usize) -> &[u8]
    requires { at ≤ length bytes.now }
    ensures bytes { result.now ≡ drop at bytes.now }
    ensures room { at + length result.now < 2 ^ 64 }
{
    &bytes[at..]
}

// The state whose text is all that stands from a place on. The places that the machine's reader
// names are moved to where the state stands.
fn read_state<M: Machine>(alloc: Global, bytes: &[u8], at: usize) -> Result<M, Refusal>
    requires { at ≤ length bytes.now }
    ensures { Gives result
        (ended bytes.now ((placed (M.spec.states newest)).read bytes.now at)) }
{
    match M::load(Version::newest(), alloc, rest(bytes, at)) {
        Ok(state) => Ok(state),
        Err(Refusal::Frame(place)) => Err(Refusal::Frame(at + place)),
        Err(refusal) => Err(refusal),
    }
}

/// The `Install` at a place, whose state takes the rest of the bytes, and the place after it, where
/// the bytes end. A byte left over is a fault at the first of them, and a state that has not seen
/// as many commands as the index says is one at the state's first byte.
pub fn read_install<M: Machine>(
    alloc: Global,
    bytes: &[u8],
    at: usize,
) -> Result<(Install<M>, usize), Refusal>
    ensures { AnswersBody M.spec (Unit {0}) (λ i. bodies.Install i) bytes.now at result
        ((body M.spec kinds.Install).read bytes.now at) }
{
    let (head, state_at) = read_install_head(alloc, bytes, at)?;
    let state: M = read_state(alloc, bytes, state_at)?;
    if state.count() != head.index.get() {
        return Err(Refusal::Frame(state_at));
    }
    Ok((Install { head, state }, bytes.len()))
}

/// Puts an `Install` of these parts to the end.
#[tactic(auto, using(crate::proofs::Rules::appends))]
#[inline(always)]
pub fn append_install<M: Machine>(
    head: &InstallHead,
    state: &M,
    out: &mut Vec<u8>,
) -> Result<(), NoMemory>
    requires { 1 ≤ head.now.index }
    ensures { Puts (install (M.spec.states newest))
        (record { head = head.now; state = state.now }) result out.old.items out.new.items }
{
    write_term(&head.term, out)?;
    write_index(&head.index, out)?;
    write_term(&head.index_term, out)?;
    state.save(out)
}
