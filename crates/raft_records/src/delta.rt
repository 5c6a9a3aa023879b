//! What an item changed of what a server stores.

ghost use Rattle.std.specs.Prelude.{◌≡◌, ◌≤◌, ◌+◌, ◌⊎◌, ⊤, IfOk, IfSome, MatchBool, length};
ghost use Rattle.raft_snapshot.specs.Stored.{Stored};
ghost use Rattle.raft_core.specs.RaftView.{RaftView};
ghost use Rattle.raft_core.specs.StoredParts.{stored_part, KeepsLog};
ghost use Rattle.raft_records.specs.Remembering.{HasTerms, Remembers, SharesTerms};
ghost use Rattle.raft_records.specs.Records.{IsDelta};

use machine::Machine;
use raft_core::Raft;
use rows::{Index, NoMemory, ServerId, Term};
use std::alloc::Global;

/// What led from one stored part of a server to another.
#[derive(Clone, Copy, Debug, Drop)]
pub enum LogDelta {
    /// Nothing: they are the same.
    Nothing,
    /// Both have one snapshot and so many first entries; term, vote and the entries behind these
    /// may be others.
    Behind(Index),
    /// Something else.
    Whole,
}

/// What is remembered of a server that is up: what it stores but for entries, and the terms of
/// those that it has not committed.
#[derive(Drop)]
pub struct Before {
    term: Term,
    vote: Option<ServerId>,
    covered: Index,
    commit: Index,
    last: Index,
    terms: Vec<u64>,
}

/// The smaller of two indexes.
fn lower(one: Index, other: Index) -> Index
    ensures low { result ≤ one }
    ensures lower { result ≤ other }
    ensures either { (result ≡ one) ⊎ (result ≡ other) }
{
    if one.get() <= other.get() { one } else { other }
}

/// What two changes come to, one after the other.
#[tactic(auto, using(crate::proofs::Deltas::joined_both))]
pub fn joined<M: Machine>(one: LogDelta, next: LogDelta) -> LogDelta
    ensures { (first mid now : Stored M M.Command) → IsDelta one first mid → IsDelta next mid now →
        IsDelta result first now }
{
    match one {
        LogDelta::Nothing => next,
        LogDelta::Whole => LogDelta::Whole,
        LogDelta::Behind(j) => match next {
            LogDelta::Nothing => LogDelta::Behind(j),
            LogDelta::Whole => LogDelta::Whole,
            LogDelta::Behind(k) => LogDelta::Behind(lower(j, k)),
        },
    }
}

/// The terms of the entries behind an index.
fn terms_behind<M: Machine>(
    alloc: Global,
    server: &Raft<M>,
    from: Index,
) -> Result<Vec<u64>, NoMemory>
    ensures { IfOk result (λ terms. HasTerms from terms.items server.now) }
{
    let mut terms = Vec::new(alloc);
    let last = server.last().get();
    'entries: for at in from.get()..last {
        let Some(index) = Index::new(at + 1) else {
            unreachable!()
        };
        match server.term_at(index) {
            Some(term) => terms.push(term.get())?,
            None => return Ok(terms),
        }
    }
    Ok(terms)
}

/// What is remembered of a server; none of one that is down.
pub fn remember<M: Machine>(alloc: Global, server: &Raft<M>) -> Result<Option<Before>, NoMemory>
    ensures { IfOk result (λ before. IfSome before (λ b. Remembers b server.now)) }
{
    let Some(commit) = server.applied() else {
        return Ok(None);
    };
    Ok(Some(Before {
        term: server.term(),
        vote: server.vote(),
        covered: server.covered(),
        commit,
        last: server.last(),
        terms: terms_behind(alloc, server, commit)?,
    }))
}

/// How many first entries are as before: those that were committed, and as many behind them as the
/// terms are the same.
fn kept<M: Machine>(server: &Raft<M>, commit: Index, terms: &[u64]) -> u64
    ensures least { commit ≤ result }
    ensures most { result ≤ commit + length terms.now }
    ensures same { SharesTerms commit terms.now result server.now }
{
    let mut keep = commit.get();
    'terms: for term in terms {
        let Some(index) = Index::new(keep + 1) else {
            return keep;
        };
        match server.term_at(index) {
            Some(there) if there.get() == *term => keep = index.get(),
            _ => return keep,
        }
    }
    keep
}

/// What a step changed of what a server stores, by what was remembered before.
pub fn changed<M: Machine>(server: &Raft<M>, before: &Before) -> LogDelta
    ensures { (old : RaftView M M.Command) → Remembers before.now old →
        (server.now.base.index ≡ old.base.index → KeepsLog old server.now) →
        IsDelta result (stored_part old) (stored_part server.now) }
{
    if server.covered().get() != before.covered.get() {
        return LogDelta::Whole;
    }
    let keep = kept(server, before.commit, before.terms.as_slice());
    let last = server.last();
    if keep > last.get() || keep > before.last.get() || keep < before.covered.get() {
        return LogDelta::Whole;
    }
    if is_same(server, before) && keep == before.last.get() && last.get() == keep {
        return LogDelta::Nothing;
    }
    match Index::new(keep) {
        Some(keep) => LogDelta::Behind(keep),
        None => LogDelta::Whole,
    }
}

/// Whether term and vote are as before.
fn is_same<M: Machine>(server: &Raft<M>, before: &Before) -> bool
    ensures { MatchBool result ((server.now.server.term ≡ before.now.term)
        × (server.now.server.vote ≡ before.now.vote)) ⊤ }
{
    server.term().get() == before.term.get() && server.vote() == before.vote
}
