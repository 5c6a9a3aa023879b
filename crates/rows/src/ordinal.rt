ghost use Rattle.std.specs.Prelude.{◌≡◌, ◌<◌, ◌≤◌, IfSome, IfNone};

use std::marker::Model;

/// Which of at most 64, counted from 0: the index of an allocation among those of its group, and
/// the place of an allocation among those that one entry makes. Contracts see its number.
#[derive(Clone, Copy, Debug, PartialEq, Eq, PartialOrd, Ord)]
pub struct Ordinal(u8);

impl Model for Ordinal {
    ghost use Rattle.std.specs.Prelude.{ℕ, ◌≤◌};

    ghost Value = { ℕ };

    ghost view = { λ n. n.0 };

    ghost invariant = { λ n. n.0 ≤ 63 };

    ghost inverse = { λ n. record { 0 = n } };
}

impl Ordinal {
    /// The greatest: 63.
    pub const MOST: u8 = 63;

    /// The ordinal of a number; none where the number is more than 63.
    pub fn new(number: u8) -> Option<Ordinal>
        ensures some { IfSome result (λ n. (n ≡ number) × (number ≤ 63)) }
        ensures none { IfNone result (63 < number) }
    {
        if number <= Ordinal::MOST {
            Some(Ordinal(number))
        } else {
            None
        }
    }

    /// Its number, from 0 to 63.
    pub fn get(self) -> u8
        ensures value { result ≡ self }
        ensures range { result ≤ 63 }
    {
        self.0
    }
}
