//! Progress of a group: what it comes to where a quorum of its servers is up and its messages are
//! delivered.
#![tactic(auto)]

ghost use Rattle.std.specs.Prelude.{ℕ, ◌+◌, ◌≤◌, Bool, length};
ghost use Rattle.raft_model.specs.Logs.{MAX};
ghost use Rattle.raft_model.specs.Quorums.{Quorum};
ghost use Rattle.raft_progress.specs.Recovery.{AllUp, HasRoom, everybody};
ghost use Rattle.group_model.specs.Worlds.{raft_of};
ghost use Rattle.group_safety.specs.Claims.{EachRun};
ghost use Rattle.group_progress.specs.GroupRecovery.{GroupCanSettle, GroupCanRecover};

/// From each world of each run of two or more servers of which a quorum is up, some member of it
/// comes to lead with an open desk, and every member to have applied all of the leader's log: by at
/// most two timeouts, so many beats as its log's length tells, and deliveries of what is sent on the
/// way.
pub fn never_stuck()
    ensures { EachRun (λ n nodes events past w. 2 ≤ n → (Q : ℕ → Bool) → Quorum n Q
        → AllUp n Q (raft_of w) → HasRoom n Q (raft_of w) → GroupCanSettle n Q w) }
{}

/// From each world of each run of two or more servers, wherever they are and whoever is down: they
/// restart, and then all of them come to have applied as much as the log of one has, which leads
/// with an open desk.
pub fn each_group_recovers()
    ensures { EachRun (λ n nodes events past w. 2 ≤ n → HasRoom n everybody (raft_of w)
        → GroupCanRecover n w) }
{}

/// A run that is two events shorter than the greatest term and index has room, at every server: so
/// it is long before a group runs out.
pub fn a_short_run_has_room()
    ensures { EachRun (λ n nodes events past w. 2 ≤ n → length events + 2 ≤ MAX
        → (Q : ℕ → Bool) → HasRoom n Q (raft_of w)) }
{}
