//! Laws of the definitions.
ghost use Rattle.std.specs.Prelude.{◌≡◌};
ghost use Rattle.rows.specs.declared.refusal.Refusal.{Refusal};
ghost use Rattle.rows.specs.Refusals.{number_of};
ghost use Rattle.rows.specs.Reasons.{reason_of, reason_number};
ghost use Rattle.group_model.specs.OneRow.{BrokerFollows, CountsFollow, DueByRoom};
ghost use Rattle.group_model.specs.OneRow.{BlockedFollowEvals, BlockedFollowNodes};
ghost use Rattle.group_model.specs.OneRow.{BlockedFollowJobs};
ghost use Rattle.group_model.specs.FullLogs.{TakenAtFullLog, ExhaustedAtFullLog};

/// What a message tells of a refusal has the refusal's number.
pub fn reasons_are_numbered()
    ensures { (r : Refusal) → reason_number (reason_of r) ≡ number_of r }
{}

/// Where one row of a state is made or replaced, one row's change of what a desk keeps is what
/// all rows would give.
/// - `broker`: of a broker that held the pending evaluations.
/// - `counts`: of the numbers of heartbeats of the nodes that are not down.
pub fn one_row_changes_the_desk()
    ensures broker { BrokerFollows }
    ensures counts { CountsFollow }
{}

/// The same of the blocked evaluations; and whether one is due is told by the room that nodes of
/// its job's classes got. (Nomad documentation, "Scheduling in Nomad": blocked evaluations.)
pub fn blocked_follow()
    ensures evals { BlockedFollowEvals }
    ensures nodes { BlockedFollowNodes }
    ensures jobs { BlockedFollowJobs }
    ensures split { DueByRoom }
{}

/// A node's registration and a report of its allocations, at a leader whose log is full.
/// - `taken`: what the state admits, and what would change no row, is taken.
/// - `exhausted`: all else is refused as exhausted, whatever else would refuse it.
pub fn full_log_answers()
    ensures taken { TakenAtFullLog }
    ensures exhausted { ExhaustedAtFullLog }
{}
