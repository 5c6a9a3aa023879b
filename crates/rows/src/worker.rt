//! What a server's workers and the leader's desk tell each other, and which of an agent's requests
//! are answered by yes or no.
ghost use Rattle.std.specs.Prelude.{◌≡◌, ◌≤◌, ◌<◌, IfSome, IfNone, IfOk, IfErr};
ghost use Rattle.rows.specs.declared.refusal.Refusal.TheVariants as refusals;
ghost use Rattle.rows.specs.Ids.{AreRisingNodes};
ghost use Rattle.rows.specs.Changes.{change_of};

use crate::actor::ServerId;
use crate::command::StatusChange;
use crate::evaluation::EvalId;
use crate::index::Index;
use crate::list_rules::{Ranged, all_ranges, keep_rule};
use crate::node::NodeId;
use crate::plan::Plan;
use crate::reason::Reason;
use crate::refusal::Refusal;
use crate::sequence::Sequence;
use crate::token::{Delivery, Token};
use std::marker::Model;

/// What a worker made of an evaluation. (Nomad documentation, "Scheduling in Nomad".)
#[derive(Clone, Copy, Debug, PartialEq, Eq)]
pub enum EvalOutcome {
    /// Something is missing for which no node has room, at the state of this index.
    Blocked(Index),
    /// All is placed.
    Complete,
    /// It is given up. No worker gives up by itself.
    Failed,
}

impl EvalOutcome {
    /// The same as a change of the evaluation's status.
    pub fn into_change(self) -> StatusChange
        ensures { result ≡ change_of self }
    {
        match self {
            EvalOutcome::Blocked(snapshot) => StatusChange::Blocked(snapshot),
            EvalOutcome::Complete => StatusChange::Complete,
            EvalOutcome::Failed => StatusChange::Failed,
        }
    }
}

/// What a server's workers ask of the leader's desk.
#[derive(Drop)]
pub enum WorkerRequest {
    /// To be given an evaluation.
    Take,
    /// To accept a plan.
    Submit(Plan),
    /// To end the work on an evaluation so.
    Finish(EvalId, Token, EvalOutcome),
    /// To take an evaluation back.
    Nack(EvalId, Token),
}

/// Which request is refused, with the evaluation and the token of what was asked.
#[derive(Clone, Copy, Debug, PartialEq, Eq)]
pub enum AskedRequest {
    /// To be given an evaluation.
    Take,
    /// To accept a plan.
    Submit(EvalId, Token),
    /// To end the work on an evaluation.
    Finish(EvalId, Token),
    /// To take an evaluation back.
    Nack(EvalId, Token),
}

/// How many allocations of a plan were placed, from 0 to 64. Contracts see the number.
#[derive(Clone, Copy, Debug, PartialEq, Eq, PartialOrd, Ord)]
pub struct PlaceCount(u8);

impl Model for PlaceCount {
    ghost use Rattle.std.specs.Prelude.{ℕ, ◌≤◌};

    ghost Value = { ℕ };

    ghost view = { λ n. n.0 };

    ghost invariant = { λ n. n.0 ≤ 64 };

    ghost inverse = { λ n. record { 0 = n } };
}

impl PlaceCount {
    /// The greatest: 64.
    pub const MOST: u8 = 64;

    /// The count of a number; none where the number is more than 64.
    pub fn new(number: u8) -> Option<PlaceCount>
        ensures some { IfSome result (λ n. (n ≡ number) × (number ≤ 64)) }
        ensures none { IfNone result (64 < number) }
    {
        if number <= PlaceCount::MOST {
            Some(PlaceCount(number))
        } else {
            None
        }
    }

    /// Its number, from 0 to 64.
    pub fn get(self) -> u8
        ensures value { result ≡ self }
        ensures range { result ≤ 64 }
    {
        self.0
    }
}

/// Nodes in strictly rising number, so 64 at most. Contracts see the list.
#[derive(Drop)]
pub struct RisingNodes {
    items: Vec<NodeId>,
}

impl Model for RisingNodes {
    ghost use Rattle.std.specs.Prelude.{List, ℕ};
    ghost use Rattle.rows.specs.Ids.{AreRisingNodes};

    ghost Value = { List ℕ };

    ghost view = { λ r. r.items.items };

    ghost invariant = { λ r. AreRisingNodes r.items.items };
}

impl RisingNodes {
    /// The nodes of a list. `OutOfRange` where they do not strictly rise.
    pub fn check(items: Sequence<NodeId>) -> Result<RisingNodes, Refusal>
        ensures ok { IfOk result (λ nodes. (nodes ≡ items) × AreRisingNodes items) }
        ensures err { IfErr result (λ e. (e ≡ refusals.OutOfRange)
            × (AreRisingNodes items → ⊥)) }
    {
        let items = items.into_vec();
        if keep_rule(&items) {
            Ok(RisingNodes { items })
        } else {
            Err(Refusal::OutOfRange)
        }
    }

    /// The nodes, in their order.
    pub fn as_slice(&self) -> &[NodeId]
        ensures nodes { result.now ≡ self.now }
        ensures fits { AreRisingNodes result.now }
    {
        &self.items
    }
}

impl Ranged for RisingNodes {
    ghost use Rattle.rows.specs.Fits.{RisingNodesFit};

    ghost Fits = { RisingNodesFit };

    fn ranges(&self) {
        all_ranges(self.as_slice());
    }
}

/// What became of a plan.
#[derive(Drop)]
pub struct PlanResult {
    /// The evaluation.
    pub eval: EvalId,
    /// The token of its delivery.
    pub token: Token,
    /// The leader's last index by then.
    pub last: Index,
    /// How many allocations were placed.
    pub placed: PlaceCount,
    /// The nodes on which nothing was.
    pub refused: RisingNodes,
}

/// What the leader's desk answers to a server's workers. (Nomad documentation, "Scheduling in
/// Nomad".)
#[derive(Drop)]
pub enum WorkerResponse {
    /// An evaluation, or that there is none.
    Delivered(Option<Delivery>),
    /// What became of a plan.
    PlanResult(PlanResult),
    /// A request is refused.
    Refused(AskedRequest, Reason),
}

/// What came for a server's workers, with the server that sent it.
#[derive(Drop)]
pub struct Work {
    /// Who answered.
    pub from: ServerId,
    /// What it answered.
    pub response: WorkerResponse,
}

/// Which request of an agent is answered by yes or no.
#[derive(Clone, Copy, Debug, PartialEq, Eq)]
pub enum ClientRequestKind {
    /// Its node comes, or comes back.
    Register,
    /// Its node is still there.
    Heartbeat,
    /// What became of allocations.
    Report,
}
