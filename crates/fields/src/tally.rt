//! An amount of a tally and its commands as bytes.
ghost use Rattle.fields_model.specs.Format.{GivesExactly};
ghost use Rattle.machine_model.specs.Tally.{amount, tally_command};
ghost use Rattle.machine_model.proofs.TallyLaws.{amount_lawful, tally_command_lawful};

use crate::field::Field;
use crate::reading::{read_u8, read_u16};
use crate::writing::{write_u8, write_u16};
use machine_model::{Amount, TallyCommand};
use rows::{NoMemory, Refusal, Version};
use std::alloc::Global;

/// Two bytes, at most 1,000.
impl Field for Amount {
    ghost format = { λ _. amount };

    ghost lawful = { λ _. amount_lawful };

    fn read_at(
        _version: Version,
        _alloc: Global,
        bytes: &[u8],
        at: usize,
    ) -> Result<(Amount, usize), Refusal>
        ensures { GivesExactly result (amount.read bytes.now at) }
    {
        let (number, next) = read_u16(bytes, at)?;
        match Amount::new(number) {
            Some(amount) => Ok((amount, next)),
            None => Err(Refusal::Frame(at)),
        }
    }

    fn append(&self, out: &mut Vec<u8>) -> Result<(), NoMemory> {
        write_u16(&self.get(), out)
    }
}

/// A tag in one byte, 0 for the no-op, or 1 and then the amount in two.
impl Field for TallyCommand {
    ghost format = { λ _. tally_command };

    ghost lawful = { λ _. tally_command_lawful };

    fn read_at(
        version: Version,
        alloc: Global,
        bytes: &[u8],
        at: usize,
    ) -> Result<(TallyCommand, usize), Refusal>
        ensures { GivesExactly result (tally_command.read bytes.now at) }
    {
        let (tag, next) = read_u8(bytes, at)?;
        match tag {
            0 => Ok((TallyCommand::Noop, next)),
            1 => {
                let (amount, next) = Amount::read_at(version, alloc, bytes, next)?;
                Ok((TallyCommand::Add(amount), next))
            }
            _ => Err(Refusal::Frame(at)),
        }
    }

    fn append(&self, out: &mut Vec<u8>) -> Result<(), NoMemory> {
        match self {
            TallyCommand::Noop => write_u8(&0, out),
            TallyCommand::Add(amount) => {
                write_u8(&1, out)?;
                amount.append(out)
            }
        }
    }
}
