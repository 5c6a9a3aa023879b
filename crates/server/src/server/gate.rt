//! Whether the desk may be asked.
ghost use Rattle.std.specs.Prelude.{◌≡◌, ◌≢◌, Err, OnOk, IfErr};
ghost use Rattle.rows.specs.declared.refusal.Refusal.TheVariants as refusals;
ghost use Rattle.group_model.specs.Servers.{open_desk};
ghost use Rattle.raft_model.specs.Rafts.{is_leader};
ghost use Rattle.server.specs.Refusals.{HasOpenDesk};
ghost use Rattle.leader.specs.OpenDesks.{if_open, on_outstanding};
ghost use Rattle.server.specs.Inner.Acts.{EachServer, Serves};
ghost use Rattle.server.specs.Inner.Replies.{HasPair};

use super::Server;
use rows::{EvalId, Leader, Refusal, Token};

impl Server {
    /// Whether it leads.
    pub(super) fn leads(&self) -> bool
        ensures { result ≡ is_leader self.now.raft.server.mode }
    {
        self.raft.leader_term().is_some()
    }

    /// That its desk is open: `NotLeader` with the leader that it knows where it does not lead,
    /// then `NotOpen`.
    pub(super) fn open_desk(&self) -> Result<(), Refusal>
        ensures serves { OnOk result (Serves self.now) }
        ensures open { OnOk result (EachServer self.now (λ s. HasOpenDesk s)) }
        ensures shut { IfErr result (λ e. EachServer self.now (λ s. open_desk s ≡ Err e)) }
        ensures memory { IfErr result (λ e. e ≢ refusals.NoMemory) }
    {
        if !self.leads() {
            return Err(Refusal::NotLeader(Leader::new(self.raft.known_leader())));
        }
        if !self.desk.desk.is_open() {
            return Err(Refusal::NotOpen);
        }
        Ok(())
    }

    /// That a pair of evaluation and token is outstanding at its open desk: `NotOutstanding` where
    /// the evaluation is not, `TokenDiffers` where it is under another token.
    pub(super) fn has_pair(&self, eval: &EvalId, token: &Token) -> Result<(), Refusal>
        ensures has { OnOk result (HasPair eval.now token.now self.now.desk) }
        ensures lacks { IfErr result
            (λ e. if_open (on_outstanding eval.now token.now) self.now.desk ≡ Err e) }
    {
        self.desk.desk.outstanding(*eval, *token)?;
        Ok(())
    }
}
