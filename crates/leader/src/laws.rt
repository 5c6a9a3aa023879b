//! Laws of an open desk. The functions have empty bodies: what they say is their contracts.
ghost use Rattle.leader.specs.GroupActs.{TakesByDeliver, SubmitsBySubmit, FinishesByAck, NacksByNack};
ghost use Rattle.leader.specs.GroupActs.{LapsesByLapse, PlanTurnsByVerdict, FreesByFreeTurn, ReapsByReap};
ghost use Rattle.leader.specs.GroupActs.{HeartbeatsByBeat, ExpiresByExpire, DrainsByDrainTurn};
ghost use Rattle.leader.specs.Staying.{OpensOver, DeliverStays, AckStays, NackStays, LapseStays, SubmitStays, PlanTurnStays, HeartbeatStays};

/// What a server of the group makes of a request of a worker, of a client's heartbeat, or of a
/// turn, at an open desk is told by the answer of the desk's call.
/// - `take`: by `deliver`, in the leader's term and for its last index.
/// - `submit`, `finish`, `nack`: by `submit` on the applied state, `ack` and `nack`.
/// - `heartbeat`: by `beat`.
/// - `lapse`, `plan_turn`, `reap`: by the call of the name, on the state after the whole log.
/// - `free_turn`: the same, where what is kept of blocked evaluations is of the applied state.
/// - `expire`: by the call of the name, on the applied state: its command is proposed.
/// - `drain_turn`: by the call of the name, on the state after the whole log: its command, if it
///   has one, is proposed.
pub fn calls_are_of_the_group()
    ensures take { TakesByDeliver }
    ensures submit { SubmitsBySubmit }
    ensures finish { FinishesByAck }
    ensures nack { NacksByNack }
    ensures lapse { LapsesByLapse }
    ensures plan_turn { PlanTurnsByVerdict }
    ensures free_turn { FreesByFreeTurn }
    ensures reap { ReapsByReap }
    ensures heartbeat { HeartbeatsByBeat }
    ensures expire { ExpiresByExpire }
    ensures drain_turn { DrainsByDrainTurn }
{}

/// A desk that opens over a state has its pending and its blocked evaluations and its nodes that
/// are not down; and a call that changes the desk, but for `changed`, leaves it so.
pub fn calls_stay_over_the_state()
    ensures opened { OpensOver }
    ensures deliver { DeliverStays }
    ensures ack { AckStays }
    ensures nack { NackStays }
    ensures lapse { LapseStays }
    ensures submit { SubmitStays }
    ensures plan_turn { PlanTurnStays }
    ensures beat { HeartbeatStays }
{}
