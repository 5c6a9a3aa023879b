//! Commands that the server proposes.
ghost use Rattle.std.specs.Prelude.{◌≡◌, true, OnOk, OnErr, IfErr};
ghost use Rattle.raft_core.specs.StoredParts.{KeepsLog};
ghost use Rattle.raft_core.specs.RaftView.{SameNumber};
ghost use Rattle.raft_model.specs.Rafts.{is_up};
ghost use Rattle.server.specs.Keeping.{IsLastEntry};
ghost use Rattle.server.specs.ServerViews.{SameServer};
ghost use Rattle.server.specs.Inner.Acts.{EachServer, IsProposed, WhyNotProposed};

use super::Server;
use rows::{Command, Refusal};

impl Server {
    /// A leader appends a command that nothing refuses; its desk stays as it is. Any refusal, want
    /// of memory too, leaves the server as it was. The ticket is dropped: who submits a plan is told
    /// the index by its PlanResult, and nobody else of the group asks where a command stands.
    pub(super) fn propose(&mut self, command: Command) -> Result<(), Refusal>
        requires { is_up self.old.raft.server.mode ≡ true }
        ensures same { SameNumber self.old.raft self.new.raft }
        ensures keeps { KeepsLog self.old.raft self.new.raft }
        ensures desk { self.new.desk ≡ self.old.desk }
        ensures taken { OnOk result (
            EachServer self.old (λ s. IsProposed s command self.new)) }
        // It is the last entry of the log, in the leader's own term.
        ensures stands { OnOk result (
            EachServer self.new (λ s. IsLastEntry s.raft command)) }
        ensures refused { IfErr result (λ cause.
            EachServer self.old (λ s. WhyNotProposed s.raft command cause)) }
        ensures unchanged { OnErr result (SameServer self.old self.new) }
    {
        // How many entries are applied is known to be no more than there are.
        let _applied = self.raft.applied();
        self.raft.propose(command)?;
        Ok(())
    }
}
