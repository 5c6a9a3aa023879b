//! What the theorems say at the tally, as functions that answer true by proof, and at the
//! replicated state.
ghost use Rattle.std.specs.Prelude.{◌≡◌, true, IfSome};
ghost use Rattle.fsm_model.specs.SafeFacts.{Safe};

use fsm_state::Cluster;
use machine::{Machine, Tally};
use rows::ServerId;
use world::{RaftWorld, World};

/// Whether two servers that have applied as many commands have the same sum.
pub fn agree(world: &RaftWorld<Tally>, one: ServerId, other: ServerId) -> bool
    ensures { result ≡ true }
{
    match world.machines(one, other) {
        Some((a, b)) => a.count() != b.count() || a.sum() == b.sum(),
        None => true,
    }
}

/// The replicated state of a server that is up: it is safe, whatever happened.
pub fn safe_state(world: &World, server: ServerId) -> Option<&Cluster>
    ensures { IfSome result (λ state. Safe state.now) }
{
    world.state(server)
}
