//! What a caller knows of the machines of a group.
ghost use Rattle.std.specs.Prelude.{◌≡◌, ◌⊎◌, Some, None, List, IfSome, MatchOption};
ghost use Rattle.std.specs.Option.{option_copied};
ghost use Rattle.raft_model.specs.Worlds.{World};
ghost use Rattle.world.specs.WorldView.{RunsTo};
ghost use Rattle.world.specs.Claims.{machine_of, OneHistory};

use crate::world::RaftWorld;
use machine::Machine;
use rows::ServerId;

impl<M: Machine> RaftWorld<M> {
    /// The machine of a server, in its state after all that the server has applied; none where the
    /// group has no such server, or it is down. The state is safe, whatever happened.
    pub fn machine(&self, server: ServerId) -> Option<&M>
        ensures value { (past : List (World M.Command)) (w : World M.Command) →
            RunsTo M.spec self.now past w →
            option_copied result ≡ machine_of M.spec w server }
        ensures safe { IfSome result (λ machine. M.spec.safe machine.now) }
    {
        self.one_list();
        self.safe_states();
        self.raft(server)?.machine()
    }

    /// The machines of two servers; none where one of them is none. What one of them has applied is
    /// the beginning of what the other has.
    pub fn machines(&self, one: ServerId, other: ServerId) -> Option<(&M, &M)>
        ensures value { (past : List (World M.Command)) (w : World M.Command) →
            RunsTo M.spec self.now past w →
            MatchOption result ((machine_of M.spec w one ≡ None) ⊎ (machine_of M.spec w other ≡ None))
            (λ pair. (machine_of M.spec w one ≡ Some pair.0.now)
            × (machine_of M.spec w other ≡ Some pair.1.now)) }
        ensures history { IfSome result (λ pair. OneHistory M.spec pair.0.now pair.1.now) }
    {
        self.one_list();
        Some((self.machine(one)?, self.machine(other)?))
    }
}
