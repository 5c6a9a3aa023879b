//! Laws of the counts. The functions have empty bodies: what they say is their contracts.
ghost use Rattle.std.specs.Prelude.{List, []};
ghost use Rattle.group_model.specs.HeartbeatCounts.{HeartbeatsByCounts, ExpiresByCounts};
ghost use Rattle.expiry.specs.Calls.{Call, HoldsAfter};

/// After every list of calls the nodes whose heartbeats are counted are those of the state by then
/// that are not down, which are those that `rebuild` would give.
pub fn others_than_down_are_held()
    ensures { (calls : List Call) → HoldsAfter [] [] calls }
{}

/// A heartbeat and an expiry at a desk are those of its counts, and change nothing else.
/// - `beats`: of a heartbeat.
/// - `expires`: of an expiry.
pub fn desks_go_by_counts()
    ensures beats { HeartbeatsByCounts }
    ensures expires { ExpiresByCounts }
{}
