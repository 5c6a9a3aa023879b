//! The replicated state as a machine.
ghost use Rattle.std.specs.Prelude.{◌≡◌, ◌+◌, ◌<◌, ◌^◌, IfOk, OnOk, OnErr};
ghost use Rattle.machine_model.specs.MachineSpec.{IsStateOf, IsCommandOf};
ghost use Rattle.fsm_state.specs.Memory.{AdmissionMayEndOutOfMemory, EffectMayEndOutOfMemory};
ghost use Rattle.fsm_model.specs.ClusterMachine.{cluster_spec};
ghost use Rattle.fsm_model.proofs.ClusterMachine.{cluster_lawful};

use crate::cluster::Cluster;
use crate::text::has_text;
use fields::{Field, read_whole, write};
use machine::Machine;
use rows::{Command, NoMemory, Refusal, Version};
use std::alloc::Global;

impl Machine for Cluster {
    type Command = Command;

    ghost spec = { cluster_spec };

    ghost lawful = { cluster_lawful };

    fn empty(alloc: Global) -> Cluster {
        Cluster::new(alloc)
    }

    fn noop() -> Command {
        Command::Noop
    }

    fn fork(&self) -> Result<Cluster, NoMemory> {
        self.copied()
    }

    fn count(&self) -> u64 {
        self.fits();
        self.applied().get()
    }

    fn apply(&mut self, command: &Command) -> Result<(), NoMemory>
        requires { self.old.count + 1 < 2 ^ 40 }
        ensures ok { OnOk result (self.new ≡ cluster_spec.applied self.old command.now) }
        ensures memory { OnErr result (EffectMayEndOutOfMemory self.old command.now) }
    {
        self.execute(command)
    }

    fn admits(&self, command: &Command) -> Result<Option<Refusal>, NoMemory>
        ensures ok { IfOk result (λ why. why ≡ cluster_spec.admission self.now command.now) }
        ensures memory { OnErr result (AdmissionMayEndOutOfMemory self.now command.now) }
        ensures fits { IsStateOf cluster_spec self.now }
        ensures command_fits { IsCommandOf cluster_spec command.now }
    {
        self.fits();
        has_text(command);
        self.admission(command)
    }

    fn save(&self, out: &mut Vec<u8>) -> Result<(), NoMemory> {
        write(self, out)
    }

    fn load(version: Version, alloc: Global, bytes: &[u8]) -> Result<Cluster, Refusal> {
        read_whole(version, alloc, bytes)
    }

    fn write_command(command: &Command, out: &mut Vec<u8>) -> Result<(), NoMemory> {
        write(command, out)
    }

    fn read_command(
        version: Version,
        alloc: Global,
        bytes: &[u8],
    ) -> Result<(Command, usize), Refusal> {
        Command::read_at(version, alloc, bytes, 0)
    }
}
