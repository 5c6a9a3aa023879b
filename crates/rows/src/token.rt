ghost use Rattle.std.specs.Prelude.{◌≡◌, ◌<◌, ◌≤◌, ◌^◌, IfSome, IfNone};

use crate::evaluation::EvalId;
use crate::index::Index;
use crate::list_rules::Ranged;
use std::marker::Model;

/// The term of a leader, from 1 to 2^40 - 1: term 0 has none. (Raft, extended version 2014, section
/// 5.1.) Contracts see its number.
#[derive(Clone, Copy, Debug, PartialEq, Eq, PartialOrd, Ord)]
pub struct LeaderTerm(u64);

impl Model for LeaderTerm {
    ghost use Rattle.std.specs.Prelude.{ℕ, ◌≤◌, ◌<◌, ◌^◌};

    ghost Value = { ℕ };

    ghost view = { λ n. n.0 };

    ghost invariant = { λ n. (1 ≤ n.0) × (n.0 < 2 ^ 40) };

    ghost inverse = { λ n. record { 0 = n } };
}

impl LeaderTerm {
    /// The term of a number; none where the number is not from 1 to 2^40 - 1.
    pub fn new(number: u64) -> Option<LeaderTerm>
        ensures some { IfSome result (λ n. (n ≡ number) × (1 ≤ number) × (number < 2 ^ 40)) }
        ensures none { IfNone result ((1 ≤ number) → 2 ^ 40 ≤ number) }
    {
        if number >= 1 && number < Index::LIMIT {
            Some(LeaderTerm(number))
        } else {
            None
        }
    }

    /// Its number, from 1 to 2^40 - 1.
    pub fn get(self) -> u64
        ensures value { result ≡ self }
        ensures range { (1 ≤ result) × (result < 2 ^ 40) }
    {
        self.0
    }
}

/// The number of a delivery among those of one leader, from 1 to 2^40 - 1. Contracts see it.
#[derive(Clone, Copy, Debug, PartialEq, Eq, PartialOrd, Ord)]
pub struct Serial(u64);

impl Model for Serial {
    ghost use Rattle.std.specs.Prelude.{ℕ, ◌≤◌, ◌<◌, ◌^◌};

    ghost Value = { ℕ };

    ghost view = { λ n. n.0 };

    ghost invariant = { λ n. (1 ≤ n.0) × (n.0 < 2 ^ 40) };

    ghost inverse = { λ n. record { 0 = n } };
}

impl Serial {
    /// The serial of a number; none where the number is not from 1 to 2^40 - 1.
    pub fn new(number: u64) -> Option<Serial>
        ensures some { IfSome result (λ n. (n ≡ number) × (1 ≤ number) × (number < 2 ^ 40)) }
        ensures none { IfNone result ((1 ≤ number) → 2 ^ 40 ≤ number) }
    {
        if number >= 1 && number < Index::LIMIT {
            Some(Serial(number))
        } else {
            None
        }
    }

    /// Its number, from 1 to 2^40 - 1.
    pub fn get(self) -> u64
        ensures value { result ≡ self }
        ensures range { (1 ≤ result) × (result < 2 ^ 40) }
    {
        self.0
    }
}

/// What tells one delivery of an evaluation from all others: the term of the leader that delivered
/// it, and a serial of that leader's. (Nomad documentation, "Scheduling": a dequeued evaluation has
/// a token.)
#[derive(Clone, Copy, Debug, PartialEq, Eq)]
pub struct Token {
    /// The term of the leader that delivered.
    pub term: LeaderTerm,
    /// Which of its deliveries, from 1.
    pub serial: Serial,
}

/// An evaluation that a scheduling worker was given, under which token, and the least index of the
/// state from which it may plan.
#[derive(Clone, Copy, Debug, PartialEq, Eq)]
pub struct Delivery {
    /// The evaluation.
    pub eval: EvalId,
    /// What tells this delivery from others.
    pub token: Token,
    /// The least index that the state must have before the worker plans from it.
    pub wait: Index,
}

impl Ranged for Token {
    ghost use Rattle.rows.specs.Fits.{TokenFits};

    ghost Fits = { TokenFits };

    fn ranges(&self) {
        let _term = self.term.get();
        let _serial = self.serial.get();
    }
}

impl Ranged for Delivery {
    ghost use Rattle.rows.specs.Fits.{DeliveryFits};

    ghost Fits = { DeliveryFits };

    fn ranges(&self) {
        self.eval.ranges();
        self.token.ranges();
        let _wait = self.wait.get();
    }
}
