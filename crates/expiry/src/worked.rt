//! Worked heartbeats, each a law by computation.
ghost use Rattle.expiry.specs.Worked.{BeginAtNone, HeartbeatOnce, OtherNode, Stale, InTime};
ghost use Rattle.expiry.specs.Worked.{StaysReady, StaysAway, StaysAsItComes, HeartbeatAway};
ghost use Rattle.expiry.specs.Worked.{Gone, BackAtNone, AtTheGreatest};

/// Node 1 is ready and node 2 disconnected, and node 1 is heard of once. Node 1 is disconnected,
/// node 2 comes back or is heard of; or node 1 goes down, and comes back.
pub fn worked_heartbeats()
    ensures begin { BeginAtNone }
    ensures heard { HeartbeatOnce }
    ensures other { OtherNode }
    ensures stale { Stale }
    ensures in_time { InTime }
    ensures stays { StaysReady }
    ensures stays_away { StaysAway }
    ensures stays_as_it_comes { StaysAsItComes }
    ensures heard_away { HeartbeatAway }
    ensures gone { Gone }
    ensures back { BackAtNone }
    ensures greatest { AtTheGreatest }
{}
