//! An entry of a log as bytes.
ghost use Rattle.machine_model.specs.Entries.{entry};
ghost use Rattle.machine_model.proofs.EntryLaws.{entry_lawful};

use crate::field::Field;
use crate::reading::read_term;
use crate::writing::write_term;
use machine_model::Entry;
use rows::{NoMemory, Refusal, Version};
use std::alloc::Global;

/// The term in eight bytes, and then the command.
impl<C: Field> Field for Entry<C> {
    ghost format = { λ version. entry (C.format version) };

    ghost lawful = { λ version. entry_lawful (C.format version) (C.lawful version) };

    fn read_at(
        version: Version,
        alloc: Global,
        bytes: &[u8],
        at: usize,
    ) -> Result<(Entry<C>, usize), Refusal> {
        let (term, at) = read_term(bytes, at)?;
        let (command, at) = C::read_at(version, alloc, bytes, at)?;
        Ok((Entry { term, command }, at))
    }

    fn append(&self, out: &mut Vec<u8>) -> Result<(), NoMemory> {
        write_term(&self.term, out)?;
        self.command.append(out)
    }
}
