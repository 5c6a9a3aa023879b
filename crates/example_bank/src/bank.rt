ghost use Rattle.std.specs.Prelude.{◌≡◌, ◌≤◌, ◌+◌, ◌<◌, ◌^◌, length, slice_get, slice_set, IfOk, IsOk, OnOk, OnErr};
ghost use Rattle.std.specs.Option.{unwrap_or};
ghost use Rattle.fields_model.specs.Format.{Answers};
ghost use Rattle.fields_model.specs.Fields.{index};
ghost use Rattle.example_bank.specs.Outcomes.{raised, lowered, transferred, with_account, outcome};
ghost use Rattle.example_bank.specs.Texts.{bank};
ghost use Rattle.example_bank.specs.Bank.{bank_spec, refused};
ghost use Rattle.example_bank.specs.Laws.TextLaws.{bank_text_lawful};
ghost use Rattle.example_bank.specs.declared.command.BankCommand.TheVariants.{Open};

use crate::account::AccountId;
use crate::command::BankCommand;
use crate::money::Money;
use fields::{Field, read_index, read_long_list, write_index, write_long_counted};
use rows::{Index, NoMemory, Refusal, Version};
use std::alloc::Global;
use std::marker::Model;

/// A bank: how many commands were applied, below 2^40, and the balances of at most 1,000 accounts,
/// in the order of their numbers. Contracts see the number and the list.
#[derive(Drop)]
pub struct Bank {
    alloc: Global,
    count: Index,
    balances: Vec<Money>,
}

impl Model for Bank {
    ghost use Rattle.std.specs.Prelude.{◌<◌, ◌≤◌, ◌^◌, length, All};
    ghost use Rattle.example_bank.specs.BankState.{BankState};

    ghost Value = { BankState };

    ghost view = { λ b. record { count = b.count; balances = b.balances.items } };

    ghost invariant = { λ b. (b.count < 2 ^ 40) × (length b.balances.items ≤ 1000)
        × All (λ balance. balance ≤ 1000000000000) b.balances.items };
}

impl Bank {
    /// The most accounts of a bank: 1,000.
    pub const MOST_ACCOUNTS: usize = 1000;

    /// The bank before its first command: no accounts. It takes no memory.
    pub fn new(alloc: Global) -> Bank
        ensures { result ≡ bank_spec.empty }
    {
        Bank {
            alloc,
            count: Index::ZERO,
            balances: Vec::new(alloc),
        }
    }

    /// The same bank once more, by a copy of its balances.
    pub(crate) fn copied(&self) -> Result<Bank, NoMemory>
        ensures { IfOk result (λ copy. copy ≡ self.now) }
    {
        Ok(Bank {
            alloc: self.alloc,
            count: self.count,
            balances: Vec::from_slice(self.alloc, &self.balances)?,
        })
    }

    /// How many commands were applied.
    pub fn applied(&self) -> Index
        ensures { result ≡ self.now.count }
    {
        self.count
    }

    /// Says that the bank is one that has a text. It does nothing.
    pub(crate) fn fits(&self)
        ensures { bank.Fits self.now }
    {
        let _ = &self.balances;
    }

    /// How many accounts there are, at most `MOST_ACCOUNTS`.
    pub fn accounts(&self) -> usize
        ensures value { result ≡ length self.now.balances }
        ensures limit { result ≤ 1000 }
    {
        self.balances.len()
    }

    /// What the account holds; none where there is no such account.
    pub fn balance(&self, account: AccountId) -> Option<Money>
        ensures { result ≡ slice_get self.now.balances account }
    {
        self.balances.get(account.get() as usize).copied()
    }

    /// What the account holds with an amount more; none where that may not be.
    fn raised(&self, account: AccountId, amount: Money) -> Option<Money>
        ensures { result ≡ raised amount (slice_get self.now.balances account) }
    {
        self.balance(account)?.plus(amount)
    }

    /// What the account holds with an amount less; none where that may not be.
    fn lowered(&self, account: AccountId, amount: Money) -> Option<Money>
        ensures { result ≡ lowered amount (slice_get self.now.balances account) }
    {
        self.balance(account)?.minus(amount)
    }

    /// What both accounts hold once the amount has moved; none where it may not.
    fn transferred(&self, from: AccountId, to: AccountId, amount: Money) -> Option<(Money, Money)>
        ensures { result ≡ transferred self.now.balances from to amount }
    {
        if from == to {
            return None;
        }
        Some((self.lowered(from, amount)?, self.raised(to, amount)?))
    }

    /// Opens an account, where there is room for one.
    fn open(&mut self) -> Result<(), NoMemory>
        ensures count { self.new.count ≡ self.old.count }
        ensures ok { OnOk result (self.new.balances
            ≡ unwrap_or (with_account self.old.balances) self.old.balances) }
        ensures room { OnErr result (length self.old.balances < 1000) }
    {
        if self.accounts() < Bank::MOST_ACCOUNTS {
            self.balances.push(Money::ZERO)?;
        }
        Ok(())
    }

    /// Writes a balance down, where there is such an account.
    fn write_down(&mut self, account: AccountId, balance: Money)
        ensures { self.new ≡ record {
          count = self.old.count;
          balances = slice_set self.old.balances account balance;
        } }
    {
        if let Some(place) = self.balances.get_mut(account.get() as usize) {
            *place = balance;
        }
    }

    /// Counts the command, and does to the balances what it says, where it is not refused. Only an
    /// account that is opened takes memory.
    pub(crate) fn execute(&mut self, command: &BankCommand) -> Result<(), NoMemory>
        requires { self.old.count + 1 < 2 ^ 40 }
        ensures ok { OnOk result (self.new ≡ bank_spec.applied self.old command.now) }
        ensures memory { OnErr result ((command.now ≡ Open) × (length self.old.balances < 1000)) }
    {
        self.count = self.count.next();
        match command {
            BankCommand::Noop => {}
            BankCommand::Open => self.open()?,
            BankCommand::Deposit(account, amount) => {
                if let Some(balance) = self.raised(*account, *amount) {
                    self.write_down(*account, balance);
                }
            }
            BankCommand::Withdraw(account, amount) => {
                if let Some(balance) = self.lowered(*account, *amount) {
                    self.write_down(*account, balance);
                }
            }
            BankCommand::Transfer(from, to, amount) => {
                if let Some((left, more)) = self.transferred(*from, *to, *amount) {
                    self.write_down(*from, left);
                    self.write_down(*to, more);
                }
            }
        }
        Ok(())
    }

    /// Why the command is refused; none where it is not.
    pub(crate) fn refusal(&self, command: &BankCommand) -> Option<Refusal>
        ensures { result ≡ refused command.now (outcome self.now.balances command.now) }
    {
        match command {
            BankCommand::Noop => None,
            BankCommand::Open if self.accounts() < Bank::MOST_ACCOUNTS => None,
            BankCommand::Open => Some(Refusal::TableFull),
            BankCommand::Deposit(account, amount) => {
                let balance = self.raised(*account, *amount);
                balance.is_none().then_some(Refusal::OutOfRange)
            }
            BankCommand::Withdraw(account, amount) => {
                let balance = self.lowered(*account, *amount);
                balance.is_none().then_some(Refusal::OutOfRange)
            }
            BankCommand::Transfer(from, to, amount) => {
                let balances = self.transferred(*from, *to, *amount);
                balances.is_none().then_some(Refusal::OutOfRange)
            }
        }
    }
}

/// The count in eight bytes, and then the balances: their number in four bytes, and each in eight.
impl Field for Bank {
    ghost format = { λ _. bank };

    ghost lawful = { λ _. bank_text_lawful };

    fn read_at(
        version: Version,
        alloc: Global,
        bytes: &[u8],
        at: usize,
    ) -> Result<(Bank, usize), Refusal>
        // Only the list behind the count takes memory.
        ensures { Answers (IsOk (index.read bytes.now at)) result (bank.read bytes.now at) }
    {
        let (count, at) = read_index(bytes, at)?;
        let (balances, at) = read_long_list::<Money>(version, alloc, bytes, at, 1000)?;
        let balances = balances.into_vec();
        Ok((
            Bank {
                alloc,
                count,
                balances,
            },
            at,
        ))
    }

    fn append(&self, out: &mut Vec<u8>) -> Result<(), NoMemory> {
        write_index(&self.count, out)?;
        write_long_counted(&self.balances, 1000, out)
    }
}
