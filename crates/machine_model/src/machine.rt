ghost use Rattle.std.specs.Prelude.{◌≡◌, ◌+◌, ◌^◌, ◌<◌, IfOk, OnOk};
ghost use Rattle.rows.specs.Versions.{newest};
ghost use Rattle.fields_model.specs.Format.{Gives, Writes, whole};
ghost use Rattle.machine_model.specs.MachineSpec.{MachineSpec, LawfulMachine, IsStateOf, IsCommandOf};

use rows::{NoMemory, Refusal, Version};
use std::alloc::Global;

/// A state machine that is replicated: the same commands in the same order leave the same state.
/// (Raft, extended version 2014, section 2.) A value is a state. What it does is all in its
/// `spec`, and what every such machine keeps is `lawful`.
pub trait Machine: Drop {
    /// What moves the state.
    type Command: Drop;

    /// What the states and the commands are, what a command does, which command a state refuses,
    /// and what is promised of a state.
    ghost spec: { MachineSpec Self Self.Command };

    /// The state before the first command. It takes no memory.
    fn empty(alloc: Global) -> Self
        ensures { result ≡ spec.empty };

    /// The command that a new leader appends, and that no state refuses. (Raft, extended version
    /// 2014, section 8.)
    fn noop() -> Self::Command
        ensures { result ≡ spec.noop };

    /// The same state once more, made by a copy, in time of what the state holds. `NoMemory` where
    /// there is no memory for it.
    fn fork(&self) -> Result<Self, NoMemory>
        ensures { IfOk result (λ copy. copy ≡ self.now) };

    /// How many commands were applied, below 2^40.
    fn count(&self) -> u64
        ensures count { result ≡ spec.count self.now }
        ensures fits { IsStateOf spec self.now };

    /// Applies a command, whether or not the state admits it; the count must be below 2^40 - 1.
    /// Without memory the value is fit only to be dropped.
    fn apply(&mut self, command: &Self::Command) -> Result<(), NoMemory>
        requires { spec.count self.old + 1 < 2 ^ 40 }
        ensures { OnOk result (self.new ≡ spec.applied self.old command.now) };

    /// Why this state refuses the command; none where it admits it.
    fn admits(&self, command: &Self::Command) -> Result<Option<Refusal>, NoMemory>
        ensures ok { IfOk result (λ refusal. refusal ≡ spec.admission self.now command.now) }
        ensures fits { IsStateOf spec self.now }
        ensures command_fits { IsCommandOf spec command.now };

    /// Puts the state's text of the newest version to the end, at most 16,000,000 bytes. Without
    /// memory the buffer stays as it was.
    fn save(&self, out: &mut Vec<u8>) -> Result<(), NoMemory>
        ensures { Writes (spec.states newest) self.now result out.old.items out.new.items };

    /// The state whose text of a version is all of the bytes. Where there is none, `Frame` names
    /// the first field at fault, or the first byte left over; without memory the answer may be
    /// `NoMemory` instead, and it is never another refusal.
    fn load(version: Version, alloc: Global, bytes: &[u8]) -> Result<Self, Refusal>
        ensures { Gives result (whole (spec.states version) bytes.now) };

    /// Puts the command's text of the newest version to the end, at most 65,536 bytes. Without
    /// memory the buffer stays as it was.
    fn write_command(command: &Self::Command, out: &mut Vec<u8>) -> Result<(), NoMemory>
        ensures { Writes (spec.commands newest) command.now result out.old.items out.new.items };

    /// The command whose text of a version stands at the front, whatever follows, and the length of
    /// that text. Where there is none, `Frame` names the first field at fault; without memory the
    /// answer may be `NoMemory` instead, and it is never another refusal.
    fn read_command(
        version: Version,
        alloc: Global,
        bytes: &[u8],
    ) -> Result<(Self::Command, usize), Refusal>
        ensures { Gives result ((spec.commands version).read bytes.now 0) };

    /// What every machine keeps: lawful texts of limited lengths in each version, of which an older
    /// one spells nothing that the newest does not, a safe empty state, an admitted no-op, one more
    /// in the count with each command, safety through each admitted command, and refusals of its
    /// own alone.
    ghost lawful: { LawfulMachine spec };
}
