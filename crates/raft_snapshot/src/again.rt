ghost use Rattle.std.specs.Prelude.{◌≡◌, IfOk};
ghost use Rattle.machine_model.specs.MachineSpec.{IsCommandOf};

use machine::{Machine, commands_are_whole};
use rows::{NoMemory, Refusal, Version};
use std::alloc::Global;

/// The same command once more, read from its own text.
pub fn command_again<M: Machine>(
    alloc: Global,
    command: &M::Command,
) -> Result<M::Command, NoMemory>
    ensures { IfOk result (λ again. (again ≡ command.now) × IsCommandOf M.spec again) }
{
    let mut text = Vec::new(alloc);
    M::write_command(command, &mut text)?;
    commands_are_whole::<M>();
    match M::read_command(Version::newest(), alloc, &text) {
        Ok((again, _)) => Ok(again),
        Err(cause) => match cause {
            Refusal::NoMemory => Err(NoMemory),
            // The bytes are the command's text.
            _ => unreachable!(),
        },
    }
}
