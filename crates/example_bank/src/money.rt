ghost use Rattle.std.specs.Prelude.{◌≡◌, ◌+◌, ◌<◌, ◌≤◌, IfSome, IfNone};
ghost use Rattle.fields_model.specs.Format.{GivesExactly};
ghost use Rattle.example_bank.specs.Outcomes.{MOST_MONEY};
ghost use Rattle.example_bank.specs.Texts.{money};
ghost use Rattle.example_bank.specs.Laws.TextLaws.{money_lawful};

use fields::{Field, read_u64, write_u64};
use rows::{NoMemory, Refusal, Version};
use std::alloc::Global;
use std::marker::Model;

/// A sum of money, as a count of the least unit: what an account holds, or what a command moves,
/// from 0 to 1,000,000,000,000. Contracts see its number.
#[derive(Clone, Copy, Debug, PartialEq, Eq)]
pub struct Money(u64);

impl Model for Money {
    ghost use Rattle.std.specs.Prelude.{ℕ, ◌≤◌};

    ghost Value = { ℕ };

    ghost view = { λ m. m.0 };

    ghost invariant = { λ m. m.0 ≤ 1000000000000 };

    ghost inverse = { λ n. record { 0 = n } };
}

impl Money {
    /// The greatest sum: 1,000,000,000,000.
    pub const MOST: u64 = 1_000_000_000_000;

    /// Nothing.
    pub const ZERO: Money = Money(0);

    /// The sum of a number; none where the number is more than `MOST`.
    pub fn new(number: u64) -> Option<Money>
        ensures some { IfSome result (λ m. (m ≡ number) × (number ≤ MOST_MONEY)) }
        ensures none { IfNone result (MOST_MONEY < number) }
    {
        if number <= Money::MOST {
            Some(Money(number))
        } else {
            None
        }
    }

    /// Its number, at most `MOST`.
    pub fn get(self) -> u64
        ensures value { result ≡ self }
        ensures limit { result ≤ MOST_MONEY }
    {
        self.0
    }

    /// The sum of both; none where it is more than `MOST`.
    pub fn plus(self, more: Money) -> Option<Money>
        ensures some { IfSome result (λ m. (m ≡ self + more) × (self + more ≤ MOST_MONEY)) }
        ensures none { IfNone result (MOST_MONEY < self + more) }
    {
        Money::new(self.0 + more.0)
    }

    /// What is left without the other; none where the other is more.
    pub fn minus(self, less: Money) -> Option<Money>
        ensures some { IfSome result (λ m. (m + less ≡ self)) }
        ensures none { IfNone result (self < less) }
    {
        if less.0 <= self.0 {
            Some(Money(self.0 - less.0))
        } else {
            None
        }
    }
}

/// The text in eight bytes, at most `MOST`.
impl Field for Money {
    ghost format = { λ _. money };

    ghost lawful = { λ _. money_lawful };

    fn read_at(
        _version: Version,
        _alloc: Global,
        bytes: &[u8],
        at: usize,
    ) -> Result<(Money, usize), Refusal>
        ensures { GivesExactly result (money.read bytes.now at) }
    {
        let (number, next) = read_u64(bytes, at)?;
        match Money::new(number) {
            Some(money) => Ok((money, next)),
            None => Err(Refusal::Frame(at)),
        }
    }

    fn append(&self, out: &mut Vec<u8>) -> Result<(), NoMemory> {
        write_u64(&self.get(), out)
    }
}
