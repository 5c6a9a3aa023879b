ghost use Rattle.std.specs.Prelude.{ℕ};
ghost use Rattle.rows.specs.Versions.{newest};
ghost use Rattle.fields_model.specs.Format.{Format, Gives, GivesExactly, Puts, Writes, Lawful, whole};
ghost use Rattle.fields_model.specs.Fields.{term, index, server, bool, byte, u16, u32, u64, actor};
ghost use Rattle.fields_model.proofs.FieldLaws.{term_lawful, index_lawful, server_lawful, bool_lawful, byte_lawful, u16_lawful, u32_lawful, u64_lawful, actor_lawful};

use crate::reading::{
    read_actor, read_bool, read_index, read_server, read_term, read_u8, read_u16, read_u32,
    read_u64,
};
use crate::writing::{
    take_back, write_actor, write_bool, write_index, write_server, write_term, write_u8, write_u16,
    write_u32, write_u64,
};
use rows::{Actor, Index, NoMemory, Refusal, ServerId, Term, Version};
use std::alloc::Global;

/// A type with a format in each version of texts: how a value is read at a place, and how it is
/// written, which is in the newest. Each format is lawful: each value has one text, and each text
/// that is read is the text of its value. A type that has no versions has one format in all.
pub trait Field: Sized + Drop {
    /// The texts of the values in each version, and how they are read.
    ghost format: { ℕ → Format Self };

    /// Reads the value whose text of a version stands at a place, whatever follows it, with the
    /// place after it. Where none does, `Frame` names the first byte of the first field that is cut
    /// or out of range. Only a reader that takes memory answers `NoMemory`, and none answers
    /// another refusal.
    fn read_at(
        version: Version,
        alloc: Global,
        bytes: &[u8],
        at: usize,
    ) -> Result<(Self, usize), Refusal>
        ensures { Gives result ((format version).read bytes.now at) };

    /// Puts the text of the newest version to the end. After an error a part of a text may stand
    /// there: `write` takes that back.
    fn append(&self, out: &mut Vec<u8>) -> Result<(), NoMemory>
        ensures { Puts (format newest) self.now result out.old.items out.new.items };

    /// What is read stands there, and what stands there is read.
    ghost lawful: { (version : ℕ) → Lawful (format version) };
}

/// Reads the value whose text of a version is all of the bytes. Where some are left over, `Frame`
/// names the first of them.
pub fn read_whole<F: Field>(version: Version, alloc: Global, bytes: &[u8]) -> Result<F, Refusal>
    ensures { Gives result (whole (F.format version) bytes.now) }
{
    let (value, end) = F::read_at(version, alloc, bytes, 0)?;
    if end == bytes.len() {
        Ok(value)
    } else {
        Err(Refusal::Frame(end))
    }
}

/// Puts the text of the newest version to the end. Without memory the buffer stays as it was.
pub fn write<F: Field>(value: &F, out: &mut Vec<u8>) -> Result<(), NoMemory>
    ensures { Writes (F.format newest) value.now result out.old.items out.new.items }
{
    let start = out.len();
    let done = value.append(out);
    take_back(done, start, out)
}

impl Field for Term {
    ghost format = { λ _. term };

    ghost lawful = { λ _. term_lawful };

    fn read_at(
        _version: Version,
        _alloc: Global,
        bytes: &[u8],
        at: usize,
    ) -> Result<(Term, usize), Refusal>
        ensures { GivesExactly result (term.read bytes.now at) }
    {
        read_term(bytes, at)
    }

    fn append(&self, out: &mut Vec<u8>) -> Result<(), NoMemory> {
        write_term(self, out)
    }
}

impl Field for Index {
    ghost format = { λ _. index };

    ghost lawful = { λ _. index_lawful };

    fn read_at(
        _version: Version,
        _alloc: Global,
        bytes: &[u8],
        at: usize,
    ) -> Result<(Index, usize), Refusal>
        ensures { GivesExactly result (index.read bytes.now at) }
    {
        read_index(bytes, at)
    }

    fn append(&self, out: &mut Vec<u8>) -> Result<(), NoMemory> {
        write_index(self, out)
    }
}

impl Field for ServerId {
    ghost format = { λ _. server };

    ghost lawful = { λ _. server_lawful };

    fn read_at(
        _version: Version,
        _alloc: Global,
        bytes: &[u8],
        at: usize,
    ) -> Result<(ServerId, usize), Refusal>
        ensures { GivesExactly result (server.read bytes.now at) }
    {
        read_server(bytes, at)
    }

    fn append(&self, out: &mut Vec<u8>) -> Result<(), NoMemory> {
        write_server(self, out)
    }
}

impl Field for bool {
    ghost format = { λ _. bool };

    ghost lawful = { λ _. bool_lawful };

    fn read_at(
        _version: Version,
        _alloc: Global,
        bytes: &[u8],
        at: usize,
    ) -> Result<(bool, usize), Refusal>
        ensures { GivesExactly result (bool.read bytes.now at) }
    {
        read_bool(bytes, at)
    }

    fn append(&self, out: &mut Vec<u8>) -> Result<(), NoMemory> {
        write_bool(self, out)
    }
}

impl Field for u8 {
    ghost format = { λ _. byte };

    ghost lawful = { λ _. byte_lawful };

    fn read_at(
        _version: Version,
        _alloc: Global,
        bytes: &[u8],
        at: usize,
    ) -> Result<(u8, usize), Refusal>
        ensures { GivesExactly result (byte.read bytes.now at) }
    {
        read_u8(bytes, at)
    }

    fn append(&self, out: &mut Vec<u8>) -> Result<(), NoMemory> {
        write_u8(self, out)
    }
}

impl Field for Actor {
    ghost format = { λ _. actor };

    ghost lawful = { λ _. actor_lawful };

    fn read_at(
        _version: Version,
        _alloc: Global,
        bytes: &[u8],
        at: usize,
    ) -> Result<(Actor, usize), Refusal>
        ensures { GivesExactly result (actor.read bytes.now at) }
    {
        read_actor(bytes, at)
    }

    fn append(&self, out: &mut Vec<u8>) -> Result<(), NoMemory> {
        write_actor(self, out)
    }
}

impl Field for u16 {
    ghost format = { λ _. u16 };

    ghost lawful = { λ _. u16_lawful };

    fn read_at(
        _version: Version,
        _alloc: Global,
        bytes: &[u8],
        at: usize,
    ) -> Result<(u16, usize), Refusal>
        ensures { GivesExactly result (u16.read bytes.now at) }
    {
        read_u16(bytes, at)
    }

    fn append(&self, out: &mut Vec<u8>) -> Result<(), NoMemory> {
        write_u16(self, out)
    }
}

impl Field for u32 {
    ghost format = { λ _. u32 };

    ghost lawful = { λ _. u32_lawful };

    fn read_at(
        _version: Version,
        _alloc: Global,
        bytes: &[u8],
        at: usize,
    ) -> Result<(u32, usize), Refusal>
        ensures { GivesExactly result (u32.read bytes.now at) }
    {
        read_u32(bytes, at)
    }

    fn append(&self, out: &mut Vec<u8>) -> Result<(), NoMemory> {
        write_u32(self, out)
    }
}

impl Field for u64 {
    ghost format = { λ _. u64 };

    ghost lawful = { λ _. u64_lawful };

    fn read_at(
        _version: Version,
        _alloc: Global,
        bytes: &[u8],
        at: usize,
    ) -> Result<(u64, usize), Refusal>
        ensures { GivesExactly result (u64.read bytes.now at) }
    {
        read_u64(bytes, at)
    }

    fn append(&self, out: &mut Vec<u8>) -> Result<(), NoMemory> {
        write_u64(self, out)
    }
}
