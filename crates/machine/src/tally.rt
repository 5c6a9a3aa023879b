ghost use Rattle.std.specs.Prelude.{◌≡◌, ◌≤◌};
ghost use Rattle.fields_model.specs.Format.{GivesExactly};
ghost use Rattle.machine_model.specs.Tally.{tally, tally_spec};
ghost use Rattle.machine_model.proofs.TallyLaws.{tally_is_lawful, tally_lawful};

use fields::{Field, read_index, read_whole, write, write_index};
use machine_model::{Amount, Machine, TallyCommand};
use rows::{Index, NoMemory, Refusal, Version};
use std::alloc::Global;
use std::marker::Model;

/// A small machine: how many commands were applied, below 2^40, and a sum of at most 1,000.
/// Contracts see the two numbers.
#[derive(Drop)]
pub struct Tally {
    count: Index,
    sum: Amount,
}

impl Model for Tally {
    ghost use Rattle.std.specs.Prelude.{◌<◌, ◌≤◌, ◌^◌};
    ghost use Rattle.machine_model.specs.TallyState.{TallyState};

    ghost Value = { TallyState };

    ghost view = { λ t. record { count = t.count; sum = t.sum } };

    ghost invariant = { λ t. (t.count < 2 ^ 40) × (t.sum ≤ 1000) };
}

impl Tally {
    /// The sum of the amounts that were added, at most 1,000.
    pub fn sum(&self) -> u16
        ensures value { result ≡ self.now.sum }
        ensures limit { result ≤ 1000 }
    {
        self.sum.get()
    }
}

/// The count in eight bytes, and then the sum in two.
impl Field for Tally {
    ghost format = { λ _. tally };

    ghost lawful = { λ _. tally_is_lawful };

    fn read_at(
        version: Version,
        alloc: Global,
        bytes: &[u8],
        at: usize,
    ) -> Result<(Tally, usize), Refusal>
        ensures { GivesExactly result (tally.read bytes.now at) }
    {
        let (count, at) = read_index(bytes, at)?;
        let (sum, at) = Amount::read_at(version, alloc, bytes, at)?;
        Ok((Tally { count, sum }, at))
    }

    fn append(&self, out: &mut Vec<u8>) -> Result<(), NoMemory> {
        write_index(&self.count, out)?;
        self.sum.append(out)
    }
}

impl Machine for Tally {
    type Command = TallyCommand;

    ghost spec = { tally_spec };

    ghost lawful = { tally_lawful };

    fn empty(_alloc: Global) -> Tally {
        Tally {
            count: Index::ZERO,
            sum: Amount::ZERO,
        }
    }

    fn noop() -> TallyCommand {
        TallyCommand::Noop
    }

    fn fork(&self) -> Result<Tally, NoMemory> {
        Ok(Tally {
            count: self.count,
            sum: self.sum,
        })
    }

    fn count(&self) -> u64 {
        self.count.get()
    }

    fn apply(&mut self, command: &TallyCommand) -> Result<(), NoMemory> {
        self.count = self.count.next();
        if let TallyCommand::Add(amount) = command {
            if let Some(sum) = Amount::new(self.sum.get() + amount.get()) {
                self.sum = sum;
            }
        }
        Ok(())
    }

    fn admits(&self, command: &TallyCommand) -> Result<Option<Refusal>, NoMemory> {
        match command {
            TallyCommand::Noop => Ok(None),
            TallyCommand::Add(amount) => {
                if self.sum.get() + amount.get() <= Amount::MOST {
                    Ok(None)
                } else {
                    Ok(Some(Refusal::OutOfRange))
                }
            }
        }
    }

    fn save(&self, out: &mut Vec<u8>) -> Result<(), NoMemory> {
        write(self, out)
    }

    fn load(version: Version, alloc: Global, bytes: &[u8]) -> Result<Tally, Refusal> {
        read_whole(version, alloc, bytes)
    }

    fn write_command(command: &TallyCommand, out: &mut Vec<u8>) -> Result<(), NoMemory> {
        write(command, out)
    }

    fn read_command(
        version: Version,
        alloc: Global,
        bytes: &[u8],
    ) -> Result<(TallyCommand, usize), Refusal> {
        TallyCommand::read_at(version, alloc, bytes, 0)
    }
}
