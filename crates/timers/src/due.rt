//! What is due, and what a server's timers see of it.
use crate::watch::Sighting;
use rows::{EvalId, Index, NodeId, Term};

/// What a server is to do by itself. A beat is asked for apart, behind all else.
#[derive(Clone, Copy, Debug, PartialEq, Eq)]
pub enum Due {
    /// It has heard of no leader for long enough to stand for election.
    Timeout,
    /// A snapshot is to take the place of what is applied.
    Compact,
    /// Its workers are to ask for an evaluation.
    Take,
    /// The plan that goes first is to be judged.
    PlanTurn,
    /// A blocked evaluation that has room is to become pending.
    FreeTurn,
    /// An evaluation that was given out too often is to be given up.
    Reap,
    /// A worker has kept this evaluation for too long.
    Lapse(EvalId),
    /// This node, which was heard of so often, was not heard of since for too long.
    Expire(NodeId, Index),
    /// A turn of this node's drain.
    DrainTurn(NodeId),
}

/// How a server stands, as its timers see it.
#[derive(Clone, Copy, Debug)]
pub struct Seen {
    /// Whether it leads.
    pub leads: bool,
    /// Its term.
    pub term: Term,
    /// Whether its workers have nothing to do.
    pub idle: bool,
}

/// What a leader's timers see where they look. Of a server that does not lead it is not read, nor
/// where they do not look.
#[derive(Clone, Copy, Debug)]
pub struct Looked<'a> {
    /// Each node that is not down, and how often it was heard of.
    pub nodes: &'a [Sighting],
    /// Each delivery of an evaluation that a worker has.
    pub deliveries: &'a [Sighting],
    /// Each node that is drained.
    pub drained: &'a [NodeId],
}
