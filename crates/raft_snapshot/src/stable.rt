ghost use Rattle.std.specs.Prelude.{◌≡◌, ◌+◌, ◌^◌, ◌<◌, Some, None, [], length, IfOk, OnErr, MatchBool};
ghost use Rattle.raft_snapshot.specs.Changes.{changed_part};
ghost use Rattle.raft_snapshot.specs.Texts.{Front};
ghost use Rattle.raft_snapshot.specs.Kept.{kept};

use crate::log::Log;
use machine::{Coded, Entry, Machine};
use rows::{Index, NoMemory, ServerId, Term};
use std::alloc::Global;
use std::marker::Model;

/// What a server stores, and a crash leaves: its term, the vote that it gave in that term, and its
/// log with the snapshot of what that covers. (Raft, Figure 2, "Persistent state"; section 7.)
#[derive(Drop)]
pub struct Stable<M: Machine> {
    term: Term,
    vote: Option<ServerId>,
    log: Log<M>,
}

impl<M: Machine> Model for Stable<M> {
    ghost use Rattle.raft_snapshot.specs.Stored.{Stored};

    ghost Value = { Stored M M.Command };

    ghost view = { λ a. record { term = a.term; vote = a.vote; log = a.log } };
}

impl<M: Machine> Stable<M> {
    /// The stored part of a server before its first input: term 0, no vote, an empty log. It takes
    /// no memory.
    pub fn new(alloc: Global) -> Stable<M>
        ensures { result ≡ record {
          term = 0;
          vote = None;
          log = kept M.spec (record { index = 0; term = 0; state = M.spec.empty }) [];
        } }
    {
        Stable {
            term: Term::ZERO,
            vote: None,
            log: Log::new(alloc),
        }
    }

    /// The stored part with this term, vote and log.
    pub fn from_parts(term: Term, vote: Option<ServerId>, log: Log<M>) -> Stable<M>
        ensures { result ≡ record { term = term; vote = vote; log = log } }
    {
        Stable { term, vote, log }
    }

    /// The term.
    pub(crate) fn term(&self) -> Term
        ensures { result ≡ self.now.term }
    {
        self.term
    }

    /// The vote in that term.
    pub(crate) fn vote(&self) -> Option<ServerId>
        ensures { result ≡ self.now.vote }
    {
        self.vote
    }

    /// The log.
    pub(crate) fn log(&self) -> &Log<M>
        ensures { result.now ≡ self.now.log }
    {
        &self.log
    }

    /// Makes of it what a change of these parts makes. The answer is no, and nothing changes, where
    /// the entries do not follow. Without memory nothing changes either.
    pub(crate) fn follow(
        &mut self,
        term: Term,
        vote: Option<ServerId>,
        index: Index,
        index_term: Term,
        entries: Vec<Entry<Coded<M>>>,
    ) -> Result<bool, NoMemory>
        requires { index + length entries.items < 2 ^ 40 }
        ensures ok { let change : Front M.Command = record {
          term = term;
          vote = vote;
          index = index;
          index_term = index_term;
          entries = entries.items;
        } in
            IfOk result (λ done. MatchBool done
            (changed_part self.old change ≡ Some self.new)
            ((changed_part self.old change ≡ None) × (self.new ≡ self.old))) }
        ensures err { OnErr result (self.new ≡ self.old) }
    {
        if index.get() < self.log.covered().get() || !self.log.holds(index.get(), index_term) {
            return Ok(false);
        }
        let _last = self.log.last();
        self.log.replace_behind(index.get(), entries)?;
        self.term = term;
        self.vote = vote;
        Ok(true)
    }

    /// The term, the vote in it, and the log.
    pub fn into_parts(self) -> (Term, Option<ServerId>, Log<M>)
        ensures { result ≡ (self.term, self.vote, self.log) }
    {
        let Stable { term, vote, log } = self;
        (term, vote, log)
    }
}
