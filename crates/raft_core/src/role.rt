ghost use Rattle.std.specs.Prelude.{◌≡◌, []};
ghost use Rattle.raft_model.specs.Rafts.{is_leader};
ghost use Rattle.raft_core.specs.RaftView.{mode_of};

/// What a server that is up is doing. (Raft, section 5.1.)
#[derive(Clone, Copy, Debug, PartialEq, Eq)]
pub enum Role {
    /// It answers others.
    Follower,
    /// It asks for votes.
    Candidate,
    /// It has the votes of a quorum in its term.
    Leader,
}

impl Role {
    /// Whether it is the leader's.
    pub(crate) fn leads(self) -> bool
        ensures { result ≡ is_leader (mode_of self [] [] []) }
    {
        match self {
            Role::Leader => true,
            Role::Follower => false,
            Role::Candidate => false,
        }
    }
}
