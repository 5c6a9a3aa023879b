//! Election safety. (Raft, Figure 3 and section 5.2.)
ghost use Rattle.raft_model.specs.Worlds.{OneLeader};
ghost use Rattle.raft_safety.specs.Claims.{EachRun};

use machine_model::Machine;

/// No two servers are ever leaders of one term, at one moment or at two.
pub fn one_leader_a_term<M: Machine>()
    ensures { EachRun M.spec (λ n events past w. OneLeader past w) }
{}
