mod copies;

ghost use Rattle.std.specs.Prelude.{◌≡◌, ◌+◌, ◌-◌, ◌++◌, ◌∷◌, [], ◌^◌, ◌<◌, ◌≤◌, ◌⊎◌, ◌||◌, List, length, take, drop, OnOk, OnErr, IfSome, MatchOption, nat_le};
ghost use Rattle.machine_model.specs.declared.entry.Entry.{Entry};
ghost use Rattle.raft_model.specs.Logs.{term_at, last_term, has, install, state_after};
ghost use Rattle.raft_snapshot.specs.Bases.{IsBaseOf, IsSnapshot, noop_prefix};
ghost use Rattle.raft_snapshot.specs.Kept.{kept, IsLogOf};

use crate::snapshot::Snapshot;
use machine::{Coded, Entry, Machine};
use rows::{Index, NoMemory, Term};
use std::alloc::Global;
use std::marker::Model;

/// A log of fewer than 2^40 entries, of which a snapshot covers the first ones, or none. It is one
/// list whose covered part is known by its number, its last term and the state after it: what each
/// call does is said of every whole list that the log may be (`whole`), and of the entries with the
/// covered ones no-ops. (Raft, extended version 2014, section 7.)
#[derive(Drop)]
pub struct Log<M: Machine> {
    base: Snapshot<M>,
    tail: Vec<Entry<Coded<M>>>,
}

impl<M: Machine> Model for Log<M> {
    ghost use Rattle.raft_snapshot.specs.Kept.{Kept, kept, IsKept};

    ghost Value = { Kept M M.Command };

    ghost view = { λ a. kept M.spec a.base a.tail.items };

    ghost invariant = { λ a. IsKept M.spec a.base a.tail.items };
}

/// Cuts the list and puts others behind what stays, or changes nothing.
fn replace_tail<T: Drop>(all: &mut Vec<T>, keep: usize, mut more: Vec<T>) -> Result<(), NoMemory>
    ensures ok { OnOk result (all.new.items ≡ take keep all.old.items ++ more.items) }
    ensures err { OnErr result (all.new.items ≡ all.old.items) }
{
    all.reserve(more.len())?;
    all.truncate(keep);
    match all.append(&mut more) {
        Ok(()) => Ok(()),
        Err(_) => unreachable!(),
    }
}

/// Takes the first items away.
fn drop_front<T: Drop>(all: &mut Vec<T>, n: usize)
    requires { n ≤ length all.old.items }
    ensures { all.new.items ≡ drop n all.old.items }
{
    all.drain(..n);
}

impl<M: Machine> Log<M> {
    /// The log of no entries. It takes no memory.
    pub fn new(alloc: Global) -> Log<M>
        ensures none { result.entries ≡ [] }
        ensures base { result.base ≡ record { index = 0; term = 0; state = M.spec.empty } }
        ensures whole { IsLogOf M.spec result [] }
    {
        Log {
            base: Snapshot::empty(alloc),
            tail: Vec::new(alloc),
        }
    }

    /// The log of what a snapshot covers, and of the entries behind that.
    pub(crate) fn of(base: Snapshot<M>, tail: Vec<Entry<Coded<M>>>) -> Log<M>
        requires { base.index + length tail.items < 2 ^ 40 }
        ensures { result ≡ kept M.spec base tail.items }
    {
        let _index = base.index();
        Log { base, tail }
    }

    /// The entries behind what is covered.
    pub(crate) fn tail(&self) -> &[Entry<Coded<M>>]
        ensures value { result.now ≡ drop self.now.base.index self.now.entries }
        ensures shows { self.now ≡ kept M.spec self.now.base result.now }
        ensures short { self.now.base.index + length result.now < 2 ^ 40 }
    {
        &self.tail
    }

    /// The index of the last entry; 0 where there is none.
    pub fn last(&self) -> Index
        ensures value { result ≡ length self.now.entries }
        ensures covered { self.now.base.index ≤ result }
        ensures whole { (L : List (Entry M.Command)) → IsLogOf M.spec self.now L →
            result ≡ length L }
    {
        match Index::new(self.base.index().get() + self.tail.len() as u64) {
            Some(last) => last,
            None => unreachable!(),
        }
    }

    /// The term of the last entry, which is known also where it is covered; 0 where there is none.
    pub fn last_term(&self) -> Term
        ensures value { result ≡ last_term self.now.entries }
        ensures whole { (L : List (Entry M.Command)) → IsLogOf M.spec self.now L →
            result ≡ last_term L }
    {
        match self.term_at(self.last().get()) {
            Some(term) => term,
            None => unreachable!(),
        }
    }

    /// The term of the entry at an index, from 1; 0 at index 0 and past the last. None where the
    /// entry is covered and is not the last one that is: its term is not known.
    pub fn term_at(&self, index: u64) -> Option<Term>
        ensures value { MatchOption result ((1 ≤ index) × (index < self.now.base.index))
            (λ t. ((index ≡ 0) ⊎ (self.now.base.index ≤ index))
            × (t ≡ term_at self.now.entries index)) }
        ensures whole { (L : List (Entry M.Command)) → IsLogOf M.spec self.now L →
            IfSome result (λ t. t ≡ term_at L index) }
    {
        if index == 0 {
            return Some(Term::ZERO);
        }
        let covered = self.base.index().get();
        if index < covered {
            return None;
        }
        if index == covered {
            return Some(self.base.term());
        }
        match self.tail.get((index - covered) as usize - 1) {
            Some(entry) => Some(entry.term),
            None => Some(Term::ZERO),
        }
    }

    /// Whether there is an entry at an index, not below what is covered, with this term; index 0
    /// counts as one of term 0.
    pub fn holds(&self, index: u64, term: Term) -> bool
        requires { self.now.base.index ≤ index }
        ensures value { result ≡ has self.now.entries index term }
        ensures whole { (L : List (Entry M.Command)) → IsLogOf M.spec self.now L →
            result ≡ has L index term }
    {
        if index > self.last().get() {
            return false;
        }
        match self.term_at(index) {
            Some(there) => there.get() == term.get(),
            None => false,
        }
    }

    /// Whether what stands at an index stays where a leader names this term there: it is committed,
    /// or in the log with this term. Nothing is covered that is not committed.
    pub fn stays(&self, commit: u64, index: u64, term: Term) -> bool
        requires { self.now.base.index ≤ commit }
        ensures { result ≡ (nat_le index commit || has self.now.entries index term) }
    {
        index <= commit || self.holds(index, term)
    }

    /// The entries behind an index that is not below what is covered; none past the last.
    pub fn behind(&self, index: u64) -> &[Entry<Coded<M>>]
        requires { self.now.base.index ≤ index }
        ensures value { result.now ≡ drop index self.now.entries }
        ensures whole { (L : List (Entry M.Command)) → IsLogOf M.spec self.now L →
            result.now ≡ drop index L }
    {
        let start = (index - self.base.index().get()).min(self.tail.len() as u64);
        &self.tail[start as usize..]
    }

    /// One more entry. Without memory nothing changes.
    pub fn append(&mut self, entry: Entry<Coded<M>>) -> Result<(), NoMemory>
        requires { length self.old.entries + 1 < 2 ^ 40 }
        ensures base { self.new.base ≡ self.old.base }
        ensures ok { OnOk result (self.new.entries ≡ self.old.entries ++ entry ∷ []) }
        ensures err { OnErr result (self.new ≡ self.old) }
        ensures whole { OnOk result ((L : List (Entry M.Command)) →
            IsLogOf M.spec self.old L → IsLogOf M.spec self.new (L ++ entry ∷ [])) }
    {
        self.tail.push(entry)?;
        Ok(())
    }

    /// The entry at an index, which is not covered, goes, and so do all behind it.
    pub fn cut_from(&mut self, index: u64)
        requires { self.old.base.index < index }
        ensures base { self.new.base ≡ self.old.base }
        ensures cut { self.new.entries ≡ take (index - 1) self.old.entries }
        ensures whole { (L : List (Entry M.Command)) → IsLogOf M.spec self.old L →
            IsLogOf M.spec self.new (take (index - 1) L) }
    {
        self.tail
            .truncate((index - self.base.index().get()) as usize - 1);
    }

    /// Other entries come in place of those behind an index that is not below what is covered.
    /// Without memory nothing changes.
    pub fn replace_behind(&mut self, index: u64, more: Vec<Entry<Coded<M>>>) -> Result<(), NoMemory>
        requires covered { self.old.base.index ≤ index }
        requires within { index ≤ length self.old.entries }
        requires short { index + length more.items < 2 ^ 40 }
        ensures base { self.new.base ≡ self.old.base }
        ensures ok { OnOk result (self.new.entries ≡ take index self.old.entries ++ more.items) }
        ensures err { OnErr result (self.new ≡ self.old) }
        ensures whole { OnOk result ((L : List (Entry M.Command)) →
            IsLogOf M.spec self.old L →
            IsLogOf M.spec self.new (take index L ++ more.items)) }
    {
        replace_tail(
            &mut self.tail,
            (index - self.base.index().get()) as usize,
            more,
        )
    }

    /// How many entries are covered: the index of the last one that is.
    pub fn covered(&self) -> Index
        ensures value { result ≡ self.now.base.index }
        ensures within { result ≤ length self.now.entries }
        ensures term { self.now.base.term ≡ term_at self.now.entries self.now.base.index }
        ensures noop_prefix { self.now.entries ≡ noop_prefix M.spec self.now.base.index
            self.now.base.term ++ drop self.now.base.index self.now.entries }
        ensures keeps { IsSnapshot M.spec self.now.base }
    {
        self.base.index()
    }

    /// The state after what is covered.
    pub fn state(&self) -> &M
        ensures value { result.now ≡ self.now.base.state }
        ensures whole { (L : List (Entry M.Command)) → IsLogOf M.spec self.now L →
            result.now ≡ state_after M.spec (take self.now.base.index L) }
    {
        self.base.state()
    }

    /// What is covered, as a snapshot.
    pub fn snapshot(&self) -> &Snapshot<M>
        ensures { result.now ≡ self.now.base }
    {
        &self.base
    }

    /// All entries up to an index are covered from now on; `state` is to be the state after them.
    /// It takes no memory.
    pub fn compact(&mut self, index: Index, state: M)
        requires covered { self.old.base.index ≤ index }
        requires within { index ≤ length self.old.entries }
        requires counted { M.spec.count state ≡ index }
        requires first { index ≡ 0 → state ≡ M.spec.empty }
        ensures base { self.new.base ≡
            record { index = index; term = term_at self.old.entries index; state = state } }
        ensures shows { self.new.entries ≡
            noop_prefix M.spec index (term_at self.old.entries index)
            ++ drop index self.old.entries }
        ensures whole { (L : List (Entry M.Command)) → IsLogOf M.spec self.old L →
            state_after M.spec (take index L) ≡ state → IsLogOf M.spec self.new L }
    {
        let Some(term) = self.term_at(index.get()) else {
            unreachable!()
        };
        let gone = (index.get() - self.base.index().get()) as usize;
        self.rebase(Snapshot::of(index, term, state), gone);
    }

    /// A snapshot that covers no less takes the place of all entries up to its index. What stands
    /// behind them stays where the log holds that index with that term; else it goes too. It takes
    /// no memory. (Raft, extended version 2014, Figure 13, receiver 6 and 7.)
    pub fn install(&mut self, snapshot: Snapshot<M>)
        requires { self.old.base.index ≤ snapshot.index }
        ensures base { self.new.base ≡ snapshot }
        ensures shows { self.new.entries ≡
            install self.old.entries (noop_prefix M.spec snapshot.index snapshot.term) }
        ensures whole { (L : List (Entry M.Command)) → IsLogOf M.spec self.old L →
            (P : List (Entry M.Command)) → IsBaseOf M.spec snapshot P →
            IsLogOf M.spec self.new (install L P) }
    {
        let index = snapshot.index().get();
        if self.holds(index, snapshot.term()) {
            let gone = (index - self.base.index().get()) as usize;
            self.rebase(snapshot, gone);
            return;
        }
        let gone = self.tail.len();
        self.rebase(snapshot, gone);
    }

    /// The snapshot takes the place of what is covered, and of the first entries behind it.
    fn rebase(&mut self, snapshot: Snapshot<M>, gone: usize)
        requires within { self.old.base.index + gone ≤ length self.old.entries }
        requires short { snapshot.index + (length self.old.entries
            - (self.old.base.index + gone)) < 2 ^ 40 }
        ensures { self.new ≡
            kept M.spec snapshot (drop (self.old.base.index + gone) self.old.entries) }
    {
        drop_front(&mut self.tail, gone);
        self.base = snapshot;
    }
}
