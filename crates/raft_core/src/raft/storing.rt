//! What a server stores, while it runs on.

ghost use Rattle.std.specs.Prelude.{◌≡◌, ◌≤◌, ◌++◌, length, IfOk, OnOk, OnErr};
ghost use Rattle.rows.specs.Versions.{newest};
ghost use Rattle.raft_model.specs.Rafts.{Raft as AnyRaft};
ghost use Rattle.raft_core.specs.Steps.{RefinesRaft, Stores};
ghost use Rattle.raft_core.specs.StoredParts.{stored_part};
ghost use Rattle.raft_snapshot.specs.Changes.{log_change};
ghost use Rattle.raft_snapshot.specs.Texts.{front, stable_text, StableFits};

use super::Raft;
use machine::Machine;
use raft_snapshot::{Stable, write_change, write_parts};
use rows::{Index, NoMemory};

impl<M: Machine> Raft<M> {
    /// A copy of what it stores, also while it is down, in time of a fork of its snapshot's state
    /// and of the texts of the entries behind that. `NoMemory` where there is no memory for it.
    pub fn stable(&self) -> Result<Stable<M>, NoMemory>
        ensures shown { IfOk result (λ copy. copy ≡ stored_part self.now) }
        ensures stored { IfOk result (λ copy. (s : AnyRaft M.Command) →
            RefinesRaft M.spec self.now s → Stores M.spec copy s) }
    {
        self.covered_is_committed();
        let log = self.log.copied(self.alloc)?;
        Ok(Stable::from_parts(self.term, self.vote, log))
    }

    /// Puts the text of what it stores to the end, as `write_stable` puts it, or changes nothing.
    /// It copies nothing of it.
    pub fn write_stable(&self, out: &mut Vec<u8>) -> Result<(), NoMemory>
        ensures ok { OnOk result (StableFits M.spec newest (stored_part self.now)
            × (out.new.items
            ≡ out.old.items ++ stable_text M.spec newest (stored_part self.now))) }
        ensures err { OnErr result (out.new.items ≡ out.old.items) }
    {
        write_parts(self.term, self.vote, &self.log, out)
    }

    /// Puts to the end what led to what it stores, where so many first entries of the log were the
    /// same before, or changes nothing. It costs what the entries behind these do, and not the log.
    pub fn write_change(&self, keep: Index, out: &mut Vec<u8>) -> Result<(), NoMemory>
        requires covered { self.now.base.index ≤ keep }
        requires within { keep ≤ length self.now.server.log }
        ensures ok { let s = stored_part self.now in
            let change = log_change s.term s.vote s.log keep in
            OnOk result ((front (M.spec.commands newest)).Fits change
            × (out.new.items
            ≡ out.old.items ++ (front (M.spec.commands newest)).text change)) }
        ensures err { OnErr result (out.new.items ≡ out.old.items) }
    {
        write_change(self.term, self.vote, &self.log, keep, out)
    }
}
