ghost use Rattle.std.specs.Prelude.{◌≡◌, ◌<◌, ◌≤◌, IfSome, IfNone};

use std::fmt;
use std::marker::Model;

/// What a tally is raised by, and what it holds: from 0 to 1,000. Contracts see its number.
#[derive(Clone, Copy, Debug, PartialEq, Eq, PartialOrd, Ord, Hash)]
pub struct Amount(u16);

impl Model for Amount {
    ghost use Rattle.std.specs.Prelude.{ℕ, ◌≤◌};

    ghost Value = { ℕ };

    ghost view = { λ a. a.0 };

    ghost invariant = { λ a. a.0 ≤ 1000 };

    ghost inverse = { λ n. record { 0 = n } };
}

impl Amount {
    /// The greatest amount: 1,000.
    pub const MOST: u16 = 1000;

    /// The least amount.
    pub const ZERO: Amount = Amount(0);

    /// The amount of a number; none where the number is more than `MOST`.
    pub fn new(number: u16) -> Option<Amount>
        ensures some { IfSome result (λ a. (a ≡ number) × (number ≤ 1000)) }
        ensures none { IfNone result (1000 < number) }
    {
        if number <= Amount::MOST {
            Some(Amount(number))
        } else {
            None
        }
    }

    /// Its number, at most `MOST`.
    pub fn get(self) -> u16
        ensures value { result ≡ self }
        ensures limit { result ≤ 1000 }
    {
        self.0
    }
}

/// The number in decimal.
impl fmt::Display for Amount {
    ghost use Rattle.std.specs.Prelude.{Some, decimal};

    ghost output = { λ a. Some (decimal a) };

    fn fmt<W: fmt::Write>(&self, f: &mut fmt::Formatter<W>) -> fmt::Result {
        write!(f, "{}", self.get())
    }
}
