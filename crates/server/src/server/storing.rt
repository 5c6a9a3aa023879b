//! What a server stores, and a server that starts with it.
ghost use Rattle.std.specs.Prelude.{◌≡◌, OnOk, IfOk, IfErr};
ghost use Rattle.rows.specs.declared.command.Command.{Command};
ghost use Rattle.raft_model.specs.Rafts.{Raft as AnyRaft};
ghost use Rattle.raft_core.specs.Steps.{Stores, IsGroupMember};
ghost use Rattle.raft_core.specs.StoredParts.{stored_part};
ghost use Rattle.raft_core.specs.Refusals.{WhyNot};
ghost use Rattle.fsm_model.specs.ClusterMachine.{cluster_spec};
ghost use Rattle.group_model.specs.Servers.{Server as AnyServer};
ghost use Rattle.server.specs.ServerViews.{RefinesServer, restarted_server};

use super::Server;
use crate::server_desk::ServerDesk;
use fsm_state::Cluster;
use raft_core::{NotRestarted, Raft, Stable};
use rows::{NoMemory, ServerId};
use std::alloc::Global;

impl Server {
    /// The server of this number in a group of `size` that starts with what it stored: a follower
    /// that knows no leader, has applied what its snapshot covers, and whose desk is closed.
    ///
    /// It is refused with `OutOfRange` where `size` is not 3 or 5 or the number is past it, and
    /// with `NoMemory`; the stored part is handed back then.
    pub fn restart(
        alloc: Global,
        me: ServerId,
        size: usize,
        stable: Stable<Cluster>,
    ) -> Result<Server, NotRestarted<Cluster>>
        ensures member { OnOk result (IsGroupMember size me) }
        ensures number { IfOk result (λ r. (r.raft.me ≡ me) × (r.raft.size ≡ size)) }
        ensures shown { IfOk result (λ r. stored_part r.raft ≡ stable) }
        ensures server { IfOk result (λ r. (s : AnyRaft Command) →
            Stores cluster_spec stable s → RefinesServer r (restarted_server s)) }
        ensures refused { IfErr result (λ e. (e.stable ≡ stable) × WhyNot size me e.refusal) }
    {
        let raft = Raft::restart(alloc, me, size, stable)?;
        Ok(Server {
            alloc,
            raft,
            desk: ServerDesk::closed(alloc),
        })
    }

    /// What it stores; the rest is gone.
    pub fn into_stable(self) -> Stable<Cluster>
        ensures shown { result ≡ stored_part self.raft }
        ensures stored { (s : AnyServer) → RefinesServer self s →
            Stores cluster_spec result s.raft }
    {
        let Server { raft, .. } = self;
        raft.into_stable()
    }

    /// A copy of what it stores, also while it is down, in time of its snapshot's state and of the
    /// entries behind that. `NoMemory` where there is no memory for it.
    pub fn stable(&self) -> Result<Stable<Cluster>, NoMemory>
        ensures shown { IfOk result (λ copy. copy ≡ stored_part self.now.raft) }
        ensures stored { IfOk result (λ copy. (s : AnyServer) → RefinesServer self.now s →
            Stores cluster_spec copy s.raft) }
    {
        self.raft.stable()
    }
}
