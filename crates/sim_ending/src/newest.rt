//! The state of the server that has applied most.
ghost use Rattle.std.specs.Prelude.{◌≡◌, ◌<◌, length, IfSome, MatchOption};
ghost use Rattle.sim_ending.specs.Endings.{NoneIsUp};
ghost use Rattle.sim_ending.specs.Inner.Newest.{IsFound, IsNewestState, newer};
ghost use Rattle.sim_ending.specs.Inner.Tells.{OfServers};

use crate::servers::server_at;
use fsm_state::Cluster;
use rows::Index;
use world::World;

/// A server that is up, and how many entries it has applied.
#[derive(Clone, Copy)]
pub(crate) struct Newest {
    /// Its place among the servers, from 0.
    pub place: usize,
    /// How many entries it has applied.
    pub applied: Index,
}

/// The state of the first server that is up and that none that is up has applied more than; none
/// where none is up.
pub(crate) fn newest_state(world: &World) -> Option<&Cluster>
    ensures { OfServers world.now.servers (λ servers.
        MatchOption result (NoneIsUp servers) (λ state. IsNewestState servers state.now)) }
{
    let newest = find_newest(world)?;
    server_at(world, newest.place).state()
}

// The first such server.
fn find_newest(world: &World) -> Option<Newest>
    ensures found { OfServers world.now.servers (λ servers.
        IsFound servers (length world.now.servers) result) }
    ensures within { IfSome result (λ found. found.place < length world.now.servers) }
{
    let mut found = None;
    for place in 0..world.size() {
        found = newer(found, place, server_at(world, place).applied());
    }
    found
}

// Of what was found and the server at a place, if that is up, the one that has applied more; the
// former where they have applied as much.
fn newer(found: Option<Newest>, place: usize, applied: Option<Index>) -> Option<Newest>
    ensures { result ≡ newer found place applied }
{
    let Some(applied) = applied else {
        return found;
    };
    match found {
        Some(found) if applied <= found.applied => Some(found),
        _ => Some(Newest { place, applied }),
    }
}
