ghost use Rattle.std.specs.Prelude.{◌≡◌, ◌<◌, ◌≤◌, ◌^◌, ◌+◌, IfSome, IfNone};

use crate::index::Index;
use std::marker::Model;

/// The place of an entry in the log, from 1 to 2^40 - 1; ids of evaluations and allocations name
/// the entry that made them. (Raft, extended version 2014, section 5.3.) Contracts see its number.
#[derive(Clone, Copy, Debug, PartialEq, Eq, PartialOrd, Ord)]
pub struct EntryIndex(u64);

impl Model for EntryIndex {
    ghost use Rattle.std.specs.Prelude.{ℕ, ◌≤◌, ◌<◌, ◌^◌};

    ghost Value = { ℕ };

    ghost view = { λ n. n.0 };

    ghost invariant = { λ n. (1 ≤ n.0) × (n.0 < 2 ^ 40) };

    ghost inverse = { λ n. record { 0 = n } };
}

impl EntryIndex {
    /// The place of a number; none where the number is not from 1 to 2^40 - 1.
    pub fn new(number: u64) -> Option<EntryIndex>
        ensures some { IfSome result (λ n. (n ≡ number) × (1 ≤ number) × (number < 2 ^ 40)) }
        ensures none { IfNone result ((1 ≤ number) → 2 ^ 40 ≤ number) }
    {
        if number >= 1 && number < Index::LIMIT {
            Some(EntryIndex(number))
        } else {
            None
        }
    }

    /// Its number, from 1 to 2^40 - 1.
    pub fn get(self) -> u64
        ensures value { result ≡ self }
        ensures range { (1 ≤ result) × (result < 2 ^ 40) }
    {
        self.0
    }

    /// The place of the entry after so many.
    pub fn after(count: Index) -> EntryIndex
        requires { count + 1 < 2 ^ 40 }
        ensures { result ≡ count + 1 }
    {
        EntryIndex(count.get() + 1)
    }

    /// The same place, as one that may be 0.
    pub fn index(self) -> Index
        ensures { result ≡ self }
    {
        Index::new(self.get()).unwrap()
    }
}
