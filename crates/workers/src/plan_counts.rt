//! How many plans the workers of one server submitted under each delivery of an evaluation.
ghost use Rattle.std.specs.Prelude.{◌≡◌, [], OnErr, OnOk};
ghost use Rattle.workers.specs.PlanCounts.{count_of, lease_of, CountsOneMore};

use rows::{EvalId, LeaderTerm, NoMemory, Serial, Token};
use std::alloc::Global;
use std::collections::BTreeMap;
use std::marker::Model;

/// A delivery of an evaluation to the workers of a server.
#[derive(Clone, Copy, PartialEq, Eq, PartialOrd, Ord)]
pub(crate) struct Lease {
    /// The evaluation.
    eval: EvalId,
    /// The term of its token.
    term: LeaderTerm,
    /// The serial of its token.
    serial: Serial,
}

/// The delivery of an evaluation under a token.
pub(crate) fn lease_of(eval: EvalId, token: Token) -> Lease
    ensures { result ≡ lease_of eval token }
{
    Lease {
        eval,
        term: token.term,
        serial: token.serial,
    }
}

/// How many plans were submitted under each delivery. Contracts see the counts, each with its
/// delivery.
#[derive(Drop)]
pub(crate) struct PlanCounts {
    counts: BTreeMap<Lease, u64>,
}

impl Model for PlanCounts {
    ghost use Rattle.std.specs.Prelude.{ℕ, List};
    ghost use Rattle.workers.specs.declared.plan_counts.Lease.{Lease};

    ghost Value = { List (Lease × ℕ) };

    ghost view = { λ p. p.counts.entries };
}

impl PlanCounts {
    /// No plan was submitted.
    pub(crate) fn new(alloc: Global) -> PlanCounts
        ensures { result ≡ [] }
    {
        PlanCounts {
            counts: BTreeMap::new(alloc),
        }
    }

    /// How many plans were submitted under a delivery.
    pub(crate) fn count_of(&self, lease: &Lease) -> u64
        ensures { result ≡ count_of lease.now self.now }
    {
        self.counts.get(lease).copied().unwrap_or(0)
    }

    /// One plan more was submitted under a delivery.
    /// - `first`: memory is wanting only where none was counted under it before.
    pub(crate) fn add(&mut self, lease: Lease) -> Result<(), NoMemory>
        ensures ok { OnOk result (CountsOneMore lease self.old self.new) }
        ensures err { OnErr result (self.new ≡ self.old) }
        ensures first { OnErr result (count_of lease self.old ≡ 0) }
    {
        let plans = self.count_of(&lease);
        self.counts.insert(lease, plans.saturating_add(1))?;
        Ok(())
    }
}
