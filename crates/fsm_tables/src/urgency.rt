//! In which order evaluations are worked on.
ghost use Rattle.std.specs.Prelude.{◌≡◌};
ghost use Rattle.fsm_tables.specs.Urgencies.{urgency};

use pages::Row;
use rows::{EvalId, Priority, Ranged};
use std::cmp::Reverse;

/// How early an evaluation comes among others: that of the higher priority first, and of one
/// priority that of the lower id. (Nomad documentation, "Scheduling in Nomad": evaluations by
/// priority.)
#[derive(Clone, Copy, Debug, PartialEq, Eq, PartialOrd, Ord)]
pub struct Urgency {
    /// Its priority, the greatest first.
    pub priority: Reverse<Priority>,
    /// Its id.
    pub id: EvalId,
}

impl Urgency {
    /// That of an evaluation of this priority and id.
    pub fn of(priority: Priority, id: EvalId) -> Urgency
        ensures { result ≡ urgency priority id }
    {
        Urgency {
            priority: Reverse(priority),
            id,
        }
    }
}

impl Ranged for Urgency {
    ghost use Rattle.rows.specs.Fits.{PriorityFits, EvalIdFits};

    ghost Fits = { λ u. PriorityFits u.priority.0 × EvalIdFits u.id };

    fn ranges(&self) {
        let _priority = self.priority.0.get();
        self.id.ranges();
    }
}

/// Rows that are their own keys.
impl Row for Urgency {
    type Key = Urgency;

    ghost key_of = { λ u. u };

    fn key(&self) -> &Urgency {
        self
    }
}
