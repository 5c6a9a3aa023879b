//! What a caller knows of the replicated states of a group's servers.
ghost use Rattle.std.specs.Prelude.{◌≡◌, ◌≢◌, ◌≤◌, ◌⊎◌, Some, None, List, IfSome, MatchOption};
ghost use Rattle.std.specs.Option.{option_copied};
ghost use Rattle.fsm_model.specs.SafeFacts.{Safe};
ghost use Rattle.fsm_model.specs.ClusterMachine.{cluster_spec};
ghost use Rattle.group_model.specs.Worlds as worlds;
ghost use Rattle.raft_core.specs.declared.ticket.ProposalStatus.TheVariants as statuses;
ghost use Rattle.world.specs.Claims.{OneHistory};
ghost use Rattle.world.specs.GroupView.{GroupRunsTo};
ghost use Rattle.world.specs.GroupClaims.{state_of};
ghost use Rattle.world.specs.GroupShown.{OfTheLast, seen_state};
ghost use Rattle.world.specs.Tickets.{proposal_status_in};
ghost use Rattle.world.specs.GroupTickets.{CommittedInGroup};

use crate::group::world::World;
use fsm_state::Cluster;
use group_safety::{commit_is_final, limits_are_kept};
use raft_core::{ProposalStatus, Ticket};
use rows::ServerId;

impl World {
    /// The replicated state of a server that is up, after all that it has applied; none where the
    /// group has no such server, or it is down. It is safe, whatever happened: no node's use is
    /// past its size, and no two live allocations are of one name.
    pub fn state(&self, server: ServerId) -> Option<&Cluster>
        ensures value { (past : List worlds.World) (w : worlds.World) →
            GroupRunsTo self.now past w → option_copied result ≡ state_of w server }
        ensures safe { IfSome result (λ state. Safe state.now) }
        // It is what is shown last.
        ensures shown { OfTheLast self.now (λ now. option_copied result ≡ seen_state now server) }
    {
        self.one_list();
        self.safe_states();
        self.server(server)?.state()
    }

    /// The replicated states of two servers; none where one of them is none. What one of them has
    /// applied is the beginning of what the other has.
    pub fn states(&self, one: ServerId, other: ServerId) -> Option<(&Cluster, &Cluster)>
        ensures value { (past : List worlds.World) (w : worlds.World) →
            GroupRunsTo self.now past w →
            MatchOption result ((state_of w one ≡ None) ⊎ (state_of w other ≡ None))
            (λ pair. (state_of w one ≡ Some pair.0.now)
            × (state_of w other ≡ Some pair.1.now)) }
        ensures history { IfSome result (λ pair.
            OneHistory cluster_spec pair.0.now pair.1.now) }
    {
        self.one_list();
        Some((self.state(one)?, self.state(other)?))
    }

    /// What a server knows of a command by its ticket: the index and the term at which it stood last
    /// in a leader's log (`Server::last`, `Server::term`). None where the group has no such server,
    /// or it is down.
    ///
    /// - `Committed`: the one list has the command at that index for good, since no other command ever
    ///   stood there in that term.
    /// - `Superseded`: the one list has another entry there for good, of another term.
    /// - `Compacted`: the one list has an entry there for good, and the server has applied it. Its
    ///   snapshot covers it, so which one that is it does not know; another server may.
    pub fn proposal_status(&self, server: ServerId, ticket: Ticket) -> Option<ProposalStatus>
        ensures value { (past : List worlds.World) (w : worlds.World) →
            GroupRunsTo self.now past w →
            result ≡ proposal_status_in (worlds.raft_of w) server ticket.index ticket.term }
        ensures settled { result ≡ Some statuses.Committed →
            CommittedInGroup self.now ticket.index (λ t. t ≡ ticket.term) }
        ensures lost { result ≡ Some statuses.Superseded →
            CommittedInGroup self.now ticket.index (λ t. t ≢ ticket.term) }
        ensures covered { result ≡ Some statuses.Compacted → 1 ≤ ticket.index →
            CommittedInGroup self.now ticket.index (λ t. Unit {0}) }
    {
        self.one_list();
        // The nodes are within their limits, and so is what was proposed.
        let _ = self.clients();
        limits_are_kept();
        commit_is_final();
        self.server(server)?.proposal_status(ticket)
    }
}
