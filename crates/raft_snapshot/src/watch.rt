//! What watches a leader apply entries.

ghost use Rattle.std.specs.Prelude.{◌≡◌, ℕ, OnOk};
ghost use Rattle.machine_model.specs.declared.entry.Entry.{Entry};

use machine::{Coded, Entry, Machine};
use rows::{LeaderTerm, NoMemory};

/// What watches a leader apply entries. It sees each of them once, in order, with the state that it
/// left, before the next one is applied. It sees none that a follower applies.
pub trait Watch<M: Machine> {
    /// What an entry may make of it: the value that it was, the leader's term, the entry, the state
    /// that it left, and the value that it is then.
    ghost sees: { Self → ℕ → Entry M.Command → M → Self → Type 0 };

    /// A leader of this term has just applied an entry, which left this machine. Without memory the
    /// value is fit only to be dropped.
    fn see(
        &mut self,
        term: LeaderTerm,
        entry: &Entry<Coded<M>>,
        machine: &M,
    ) -> Result<(), NoMemory>
        ensures { OnOk result (sees self.old term entry.now machine.now self.new) };
}

/// A watcher that takes nothing from what it sees.
#[derive(Clone, Copy, Debug)]
pub struct Unwatched;

impl<M: Machine> Watch<M> for Unwatched {
    ghost sees = { λ w term entry machine new. new ≡ w };

    fn see(&mut self, _: LeaderTerm, _: &Entry<Coded<M>>, _: &M) -> Result<(), NoMemory> {
        Ok(())
    }
}
