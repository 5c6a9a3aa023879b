//! What comes to a server of the group.
ghost use Rattle.std.specs.Prelude.{◌≡◌, IfOk};

use rows::{
    EvalId, EvalOutcome, Index, NoMemory, NodeId, OperatorRequest, Plan, Sequence, ServerId, Token,
};
use std::alloc::Global;

/// What comes to a server of the group.
#[derive(Drop)]
pub enum ServerInput {
    /// A frame from the net: all of its bytes.
    Frame(Sequence<u8>),
    /// It has heard of no leader for long enough to stand for election.
    Timeout,
    /// It is time to be heard of: a leader sends to each other server the entries that it does not
    /// have yet.
    Beat,
    /// What an operator asks.
    Request(OperatorRequest),
    /// Its workers ask this server for an evaluation.
    Take(ServerId),
    /// Its workers ask this server to accept a plan.
    Submit(ServerId, Plan),
    /// Its workers end their work on an evaluation at this server's desk.
    Finish(ServerId, EvalId, Token, EvalOutcome),
    /// Its workers give an evaluation back to this server's desk.
    Nack(ServerId, EvalId, Token),
    /// A turn of the desk: the plan that goes first is judged.
    PlanTurn,
    /// The worker of an evaluation was not heard of for too long.
    Lapse(EvalId),
    /// A node that was heard of so often was not heard of since for too long: it is disconnected
    /// where it is ready in the applied state, else it goes down. (Nomad documentation, "server"
    /// block of the agent configuration: heartbeat_grace; "disconnect" block of a group.)
    Expire(NodeId, Index),
    /// A turn of a node's drain: it is done where nothing lives on the node, else the allocations
    /// that move off it next are marked. (Nomad documentation, "node drain" command.)
    DrainTurn(NodeId),
    /// A turn of the desk: a blocked evaluation that has room now becomes pending.
    FreeTurn,
    /// A turn of the desk: an evaluation that was given out too often becomes failed.
    Reap,
    /// A snapshot of the state takes the place of all entries of its log that are applied. (Raft,
    /// extended version 2014, section 7.)
    Compact,
    /// It stops, and loses what it does not store.
    Crash,
    /// It starts again with what it stored.
    Restart,
}

impl ServerInput {
    /// The same input once more.
    pub fn try_clone(&self, alloc: Global) -> Result<ServerInput, NoMemory>
        ensures { IfOk result (λ copy. copy ≡ self.now) }
    {
        Ok(match self {
            ServerInput::Frame(bytes) => ServerInput::Frame(bytes.try_clone(alloc)?),
            ServerInput::Timeout => ServerInput::Timeout,
            ServerInput::Beat => ServerInput::Beat,
            ServerInput::Request(request) => ServerInput::Request(request.try_clone(alloc)?),
            ServerInput::Take(to) => ServerInput::Take(*to),
            ServerInput::Submit(to, plan) => ServerInput::Submit(*to, plan.try_clone(alloc)?),
            ServerInput::Finish(to, eval, token, outcome) => {
                ServerInput::Finish(*to, *eval, *token, *outcome)
            }
            ServerInput::Nack(to, eval, token) => ServerInput::Nack(*to, *eval, *token),
            ServerInput::PlanTurn => ServerInput::PlanTurn,
            ServerInput::Lapse(eval) => ServerInput::Lapse(*eval),
            ServerInput::Expire(node, beats) => ServerInput::Expire(*node, *beats),
            ServerInput::DrainTurn(node) => ServerInput::DrainTurn(*node),
            ServerInput::FreeTurn => ServerInput::FreeTurn,
            ServerInput::Reap => ServerInput::Reap,
            ServerInput::Compact => ServerInput::Compact,
            ServerInput::Crash => ServerInput::Crash,
            ServerInput::Restart => ServerInput::Restart,
        })
    }
}
