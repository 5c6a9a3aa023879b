//! Whether servers have room in terms and indexes.
ghost use Rattle.std.specs.Prelude.{MatchBool};
ghost use Rattle.raft_model.specs.Rafts.{Raft as AnyRaft};
ghost use Rattle.raft_core.specs.Steps.{RefinesRaft};
ghost use Rattle.group_model.specs.Servers.{Server as AnyServer};
ghost use Rattle.server.specs.ServerViews.{RefinesServer};
ghost use Rattle.world.specs.Inner.Room.{RoomAbove, RaftHasRoom, ServerHasRoom, EachHas, OneLacks};

use machine::Machine;
use raft_core::Raft;
use rows::{Index, Term};
use server::Server;

/// Whether there is room above this term and this index for two more of each.
fn is_room_above(term: Term, last: Index) -> bool
    ensures { MatchBool result (RoomAbove term last) (RoomAbove term last → ⊥) }
{
    term.get() + 2 < Term::LIMIT && last.get() + 2 < Index::LIMIT
}

/// Whether a server of the log has room for two more terms and two more entries.
fn raft_has_room<M: Machine>(raft: &Raft<M>) -> bool
    ensures { (s : AnyRaft M.Command) → RefinesRaft M.spec raft.now s →
        MatchBool result (RaftHasRoom s) (RaftHasRoom s → ⊥) }
{
    is_room_above(raft.term(), raft.last())
}

/// Whether each of these servers of the log has.
pub(crate) fn rafts_have_room<M: Machine>(rafts: &[Raft<M>]) -> bool
    ensures { MatchBool result (EachHas (RefinesRaft M.spec) RaftHasRoom rafts.now)
        (OneLacks (RefinesRaft M.spec) RaftHasRoom rafts.now) }
{
    for raft in rafts {
        if !raft_has_room(raft) {
            return false;
        }
    }
    true
}

/// Whether a server of the group has room for two more terms and two more entries.
fn server_has_room(server: &Server) -> bool
    ensures { (s : AnyServer) → RefinesServer server.now s →
        MatchBool result (ServerHasRoom s) (ServerHasRoom s → ⊥) }
{
    is_room_above(server.term(), server.last())
}

/// Whether each of these servers of the group has.
pub(crate) fn servers_have_room(servers: &[Server]) -> bool
    ensures { MatchBool result (EachHas RefinesServer ServerHasRoom servers.now)
        (OneLacks RefinesServer ServerHasRoom servers.now) }
{
    for server in servers {
        if !server_has_room(server) {
            return false;
        }
    }
    true
}
