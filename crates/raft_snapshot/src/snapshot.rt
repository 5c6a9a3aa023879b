ghost use Rattle.std.specs.Prelude.{◌≡◌, ◌≢◌, ◌≤◌, ◌⊎◌, MatchOption};
ghost use Rattle.raft_snapshot.specs.Bases.{IsSnapshot};

use machine::Machine;
use rows::{Index, Term};
use std::alloc::Global;
use std::marker::Model;

/// The first entries of a log, known by what is left of them: their number, which is the index of
/// the last one, that one's term, and the machine's state after them. The state has seen as many
/// commands as there are entries; where there are none the term is 0, and the state the machine's
/// first one. (Raft, extended version 2014, Figure 13: lastIncludedIndex, lastIncludedTerm.)
#[derive(Drop)]
pub struct Snapshot<M: Machine> {
    index: Index,
    term: Term,
    state: M,
}

impl<M: Machine> Model for Snapshot<M> {
    ghost use Rattle.raft_snapshot.specs.Bases.{Base, IsSnapshot};

    ghost Value = { Base M };

    ghost view = { λ a. record { index = a.index; term = a.term; state = a.state } };

    ghost invariant = { λ a. IsSnapshot M.spec (record { index = a.index; term = a.term; state = a.state }) };
}

impl<M: Machine> Snapshot<M> {
    /// A snapshot of so many entries, from 1, the last of which has this term, and which lead to
    /// this state. None where the state has seen another number of commands, or where there is no
    /// entry (that is `empty`); what was handed in is then used up. It takes no memory.
    pub fn new(index: Index, term: Term, state: M) -> Option<Snapshot<M>>
        ensures { MatchOption result
            ((index ≡ 0) ⊎ (M.spec.count state ≢ index))
            (λ s. (1 ≤ index) × (M.spec.count state ≡ index)
            × (s ≡ record { index = index; term = term; state = state })) }
    {
        if index.get() == 0 || state.count() != index.get() {
            return None;
        }
        Some(Snapshot { index, term, state })
    }

    /// The same, of what is known to be one.
    pub(crate) fn of(index: Index, term: Term, state: M) -> Snapshot<M>
        requires { IsSnapshot M.spec (record { index = index; term = term; state = state }) }
        ensures value { result ≡ record { index = index; term = term; state = state } }
    {
        Snapshot { index, term, state }
    }

    /// The snapshot of no entries. It takes no memory.
    pub fn empty(alloc: Global) -> Snapshot<M>
        ensures value { result ≡ record { index = 0; term = 0; state = M.spec.empty } }
        ensures keeps { IsSnapshot M.spec result }
    {
        Snapshot {
            index: Index::ZERO,
            term: Term::ZERO,
            state: M::empty(alloc),
        }
    }

    /// How many entries it covers: the index of the last one.
    pub fn index(&self) -> Index
        ensures value { result ≡ self.now.index }
        ensures keeps { IsSnapshot M.spec self.now }
    {
        self.index
    }

    /// The term of the last entry that it covers; 0 where it covers none.
    pub fn term(&self) -> Term
        ensures { result ≡ self.now.term }
    {
        self.term
    }

    /// The state after the entries that it covers.
    pub fn state(&self) -> &M
        ensures { result.now ≡ self.now.state }
    {
        &self.state
    }
}
