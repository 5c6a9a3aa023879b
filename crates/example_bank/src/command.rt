ghost use Rattle.fields_model.specs.Format.{GivesExactly};
ghost use Rattle.example_bank.specs.Texts.{bank_command};
ghost use Rattle.example_bank.specs.Laws.TextLaws.{bank_command_lawful};

use crate::account::AccountId;
use crate::money::Money;
use fields::{Field, read_u8, write_u8};
use rows::{NoMemory, Refusal, Version};
use std::alloc::Global;

/// What moves a bank. Each command adds one to the count. A refused one, applied all the same,
/// leaves every balance.
#[derive(Clone, Copy, Debug, PartialEq, Eq)]
pub enum BankCommand {
    /// Leaves the balances.
    Noop,
    /// Opens the account of the next number, which holds nothing. A bank with 1,000 accounts
    /// refuses it with `TableFull`.
    Open,
    /// Pays the amount into the account. It is refused with `OutOfRange` where there is no such
    /// account, and where it would hold more than `Money::MOST`.
    Deposit(AccountId, Money),
    /// Pays the amount out of the account. It is refused with `OutOfRange` where there is no such
    /// account, and where it holds less.
    Withdraw(AccountId, Money),
    /// Moves the amount from the first account to the second. It is refused with `OutOfRange` where
    /// they are the same account, where there is no such account, where the first holds less, and
    /// where the second would hold more than `Money::MOST`.
    Transfer(AccountId, AccountId, Money),
}

impl BankCommand {
    /// Says that the command is one that has a text. It does nothing.
    pub(crate) fn fits(&self)
        ensures { bank_command.Fits self.now }
    {
        match self {
            BankCommand::Noop | BankCommand::Open => {}
            BankCommand::Deposit(account, amount) | BankCommand::Withdraw(account, amount) => {
                let _ranges = (account.get(), amount.get());
            }
            BankCommand::Transfer(from, to, amount) => {
                let _ranges = (from.get(), to.get(), amount.get());
            }
        }
    }
}

/// A tag in one byte; then the accounts in two bytes each, and the amount in eight, as the command
/// has them.
impl Field for BankCommand {
    ghost format = { λ _. bank_command };

    ghost lawful = { λ _. bank_command_lawful };

    fn read_at(
        version: Version,
        alloc: Global,
        bytes: &[u8],
        at: usize,
    ) -> Result<(BankCommand, usize), Refusal>
        ensures { GivesExactly result (bank_command.read bytes.now at) }
    {
        let (tag, next) = read_u8(bytes, at)?;
        match tag {
            0 => Ok((BankCommand::Noop, next)),
            1 => Ok((BankCommand::Open, next)),
            2 => {
                let (account, next) = AccountId::read_at(version, alloc, bytes, next)?;
                let (amount, next) = Money::read_at(version, alloc, bytes, next)?;
                Ok((BankCommand::Deposit(account, amount), next))
            }
            3 => {
                let (account, next) = AccountId::read_at(version, alloc, bytes, next)?;
                let (amount, next) = Money::read_at(version, alloc, bytes, next)?;
                Ok((BankCommand::Withdraw(account, amount), next))
            }
            4 => {
                let (from, next) = AccountId::read_at(version, alloc, bytes, next)?;
                let (to, next) = AccountId::read_at(version, alloc, bytes, next)?;
                let (amount, next) = Money::read_at(version, alloc, bytes, next)?;
                Ok((BankCommand::Transfer(from, to, amount), next))
            }
            _ => Err(Refusal::Frame(at)),
        }
    }

    fn append(&self, out: &mut Vec<u8>) -> Result<(), NoMemory> {
        match self {
            BankCommand::Noop => write_u8(&0, out),
            BankCommand::Open => write_u8(&1, out),
            BankCommand::Deposit(account, amount) => {
                write_u8(&2, out)?;
                account.append(out)?;
                amount.append(out)
            }
            BankCommand::Withdraw(account, amount) => {
                write_u8(&3, out)?;
                account.append(out)?;
                amount.append(out)
            }
            BankCommand::Transfer(from, to, amount) => {
                write_u8(&4, out)?;
                from.append(out)?;
                to.append(out)?;
                amount.append(out)
            }
        }
    }
}
