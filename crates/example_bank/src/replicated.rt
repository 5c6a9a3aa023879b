//! The bank as a machine.
ghost use Rattle.std.specs.Prelude.{◌≡◌, ◌+◌, ◌<◌, ◌^◌, length, IsOk, IsOkAnd, OnOk, OnErr};
ghost use Rattle.fields_model.specs.Format.{Answers, GivesExactly, whole};
ghost use Rattle.fields_model.specs.Fields.{index};
ghost use Rattle.example_bank.specs.Bank.{bank_spec};
ghost use Rattle.example_bank.specs.Texts.{bank, bank_command};
ghost use Rattle.example_bank.specs.Laws.BankLaws.{bank_lawful};
ghost use Rattle.example_bank.specs.declared.command.BankCommand.TheVariants.{Open};

use crate::bank::Bank;
use crate::command::BankCommand;
use fields::{Field, write};
use machine::Machine;
use rows::{NoMemory, Refusal, Version};
use std::alloc::Global;

impl Machine for Bank {
    type Command = BankCommand;

    ghost spec = { bank_spec };

    ghost lawful = { bank_lawful };

    fn empty(alloc: Global) -> Bank {
        Bank::new(alloc)
    }

    fn noop() -> BankCommand {
        BankCommand::Noop
    }

    fn fork(&self) -> Result<Bank, NoMemory> {
        self.copied()
    }

    fn count(&self) -> u64 {
        self.fits();
        self.applied().get()
    }

    fn apply(&mut self, command: &BankCommand) -> Result<(), NoMemory>
        requires { self.old.count + 1 < 2 ^ 40 }
        ensures ok { OnOk result (self.new ≡ bank_spec.applied self.old command.now) }
        // Only an account that is opened takes memory.
        ensures memory { OnErr result ((command.now ≡ Open) × (length self.old.balances < 1000)) }
    {
        self.execute(command)
    }

    fn admits(&self, command: &BankCommand) -> Result<Option<Refusal>, NoMemory>
        ensures ok { IsOkAnd result (λ why. why ≡ bank_spec.admission self.now command.now) }
        ensures fits { bank.Fits self.now }
        ensures command_fits { bank_command.Fits command.now }
    {
        self.fits();
        command.fits();
        Ok(self.refusal(command))
    }

    fn save(&self, out: &mut Vec<u8>) -> Result<(), NoMemory> {
        write(self, out)
    }

    fn load(version: Version, alloc: Global, bytes: &[u8]) -> Result<Bank, Refusal>
        // Only the balances behind the count take memory.
        ensures { Answers (IsOk (index.read bytes.now 0)) result (whole bank bytes.now) }
    {
        let (bank, end) = Bank::read_at(version, alloc, bytes, 0)?;
        if end == bytes.len() {
            Ok(bank)
        } else {
            Err(Refusal::Frame(end))
        }
    }

    fn write_command(command: &BankCommand, out: &mut Vec<u8>) -> Result<(), NoMemory> {
        write(command, out)
    }

    fn read_command(
        version: Version,
        alloc: Global,
        bytes: &[u8],
    ) -> Result<(BankCommand, usize), Refusal>
        ensures { GivesExactly result (bank_command.read bytes.now 0) }
    {
        BankCommand::read_at(version, alloc, bytes, 0)
    }
}
