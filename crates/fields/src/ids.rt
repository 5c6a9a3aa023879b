//! Names, sizes, ids and tokens as bytes.
ghost use Rattle.fields_model.specs.Format.{GivesExactly};
ghost use Rattle.fields_model.specs.Ids.{name, quantity, space, size, node_id, ordinal, priority, group_count, from_one, evaluation_id, allocation_id, token, delivery};
ghost use Rattle.fields_model.proofs.IdLaws.{name_lawful, quantity_lawful, space_lawful, size_lawful, node_id_lawful, ordinal_lawful, priority_lawful, group_count_lawful, from_one_lawful, evaluation_id_lawful, allocation_id_lawful, token_lawful, delivery_lawful};

use crate::field::Field;
use crate::reading::{read_name, read_u8, read_u16, read_u32, read_u64};
use crate::writing::{write_u8, write_u16, write_u32, write_u64};
use rows::{
    AllocId, Delivery, EntryIndex, EvalId, GroupCount, Index, LeaderTerm, Name, NoMemory, NodeId,
    Ordinal, Priority, Quantity, Refusal, Serial, Size, Space, Token, Version,
};
use std::alloc::Global;

/// One byte from 1 to 32, and that many bytes of `a` to `z`, `0` to `9` and `-`. Whatever is wrong
/// is a fault at the first.
impl Field for Name {
    ghost format = { λ _. name };

    ghost lawful = { λ _. name_lawful };

    fn read_at(
        _version: Version,
        _alloc: Global,
        bytes: &[u8],
        at: usize,
    ) -> Result<(Name, usize), Refusal>
        ensures { GivesExactly result (name.read bytes.now at) }
    {
        read_name(bytes, at)
    }

    fn append(&self, out: &mut Vec<u8>) -> Result<(), NoMemory> {
        let bytes = self.as_bytes();
        write_u8(&(bytes.len() as u8), out)?;
        out.extend_from_slice(bytes)?;
        Ok(())
    }
}

/// Four bytes, from 1 to 1,000,000.
impl Field for Quantity {
    ghost format = { λ _. quantity };

    ghost lawful = { λ _. quantity_lawful };

    fn read_at(
        _version: Version,
        _alloc: Global,
        bytes: &[u8],
        at: usize,
    ) -> Result<(Quantity, usize), Refusal>
        ensures { GivesExactly result (quantity.read bytes.now at) }
    {
        let (number, next) = read_u32(bytes, at)?;
        match Quantity::new(number) {
            Some(value) => Ok((value, next)),
            None => Err(Refusal::Frame(at)),
        }
    }

    fn append(&self, out: &mut Vec<u8>) -> Result<(), NoMemory> {
        write_u32(&self.get(), out)
    }
}

/// One byte, from 1 to 64.
impl Field for NodeId {
    ghost format = { λ _. node_id };

    ghost lawful = { λ _. node_id_lawful };

    fn read_at(
        _version: Version,
        _alloc: Global,
        bytes: &[u8],
        at: usize,
    ) -> Result<(NodeId, usize), Refusal>
        ensures { GivesExactly result (node_id.read bytes.now at) }
    {
        let (number, next) = read_u8(bytes, at)?;
        match NodeId::from_number(number) {
            Some(value) => Ok((value, next)),
            None => Err(Refusal::Frame(at)),
        }
    }

    fn append(&self, out: &mut Vec<u8>) -> Result<(), NoMemory> {
        write_u8(&self.number(), out)
    }
}

/// One byte, at most 63.
impl Field for Ordinal {
    ghost format = { λ _. ordinal };

    ghost lawful = { λ _. ordinal_lawful };

    fn read_at(
        _version: Version,
        _alloc: Global,
        bytes: &[u8],
        at: usize,
    ) -> Result<(Ordinal, usize), Refusal>
        ensures { GivesExactly result (ordinal.read bytes.now at) }
    {
        let (number, next) = read_u8(bytes, at)?;
        match Ordinal::new(number) {
            Some(value) => Ok((value, next)),
            None => Err(Refusal::Frame(at)),
        }
    }

    fn append(&self, out: &mut Vec<u8>) -> Result<(), NoMemory> {
        write_u8(&self.get(), out)
    }
}

/// One byte, from 1 to 100.
impl Field for Priority {
    ghost format = { λ _. priority };

    ghost lawful = { λ _. priority_lawful };

    fn read_at(
        _version: Version,
        _alloc: Global,
        bytes: &[u8],
        at: usize,
    ) -> Result<(Priority, usize), Refusal>
        ensures { GivesExactly result (priority.read bytes.now at) }
    {
        let (number, next) = read_u8(bytes, at)?;
        match Priority::new(number) {
            Some(value) => Ok((value, next)),
            None => Err(Refusal::Frame(at)),
        }
    }

    fn append(&self, out: &mut Vec<u8>) -> Result<(), NoMemory> {
        write_u8(&self.get(), out)
    }
}

/// One byte, at most 64.
impl Field for GroupCount {
    ghost format = { λ _. group_count };

    ghost lawful = { λ _. group_count_lawful };

    fn read_at(
        _version: Version,
        _alloc: Global,
        bytes: &[u8],
        at: usize,
    ) -> Result<(GroupCount, usize), Refusal>
        ensures { GivesExactly result (group_count.read bytes.now at) }
    {
        let (number, next) = read_u8(bytes, at)?;
        match GroupCount::new(number) {
            Some(value) => Ok((value, next)),
            None => Err(Refusal::Frame(at)),
        }
    }

    fn append(&self, out: &mut Vec<u8>) -> Result<(), NoMemory> {
        write_u8(&self.get(), out)
    }
}

/// Eight bytes, from 1 to 2^40 - 1.
impl Field for EntryIndex {
    ghost format = { λ _. from_one };

    ghost lawful = { λ _. from_one_lawful };

    fn read_at(
        _version: Version,
        _alloc: Global,
        bytes: &[u8],
        at: usize,
    ) -> Result<(EntryIndex, usize), Refusal>
        ensures { GivesExactly result (from_one.read bytes.now at) }
    {
        let (number, next) = read_u64(bytes, at)?;
        match EntryIndex::new(number) {
            Some(value) => Ok((value, next)),
            None => Err(Refusal::Frame(at)),
        }
    }

    fn append(&self, out: &mut Vec<u8>) -> Result<(), NoMemory> {
        write_u64(&self.get(), out)
    }
}

/// Eight bytes, from 1 to 2^40 - 1.
impl Field for LeaderTerm {
    ghost format = { λ _. from_one };

    ghost lawful = { λ _. from_one_lawful };

    fn read_at(
        _version: Version,
        _alloc: Global,
        bytes: &[u8],
        at: usize,
    ) -> Result<(LeaderTerm, usize), Refusal>
        ensures { GivesExactly result (from_one.read bytes.now at) }
    {
        let (number, next) = read_u64(bytes, at)?;
        match LeaderTerm::new(number) {
            Some(value) => Ok((value, next)),
            None => Err(Refusal::Frame(at)),
        }
    }

    fn append(&self, out: &mut Vec<u8>) -> Result<(), NoMemory> {
        write_u64(&self.get(), out)
    }
}

/// Eight bytes, from 1 to 2^40 - 1.
impl Field for Serial {
    ghost format = { λ _. from_one };

    ghost lawful = { λ _. from_one_lawful };

    fn read_at(
        _version: Version,
        _alloc: Global,
        bytes: &[u8],
        at: usize,
    ) -> Result<(Serial, usize), Refusal>
        ensures { GivesExactly result (from_one.read bytes.now at) }
    {
        let (number, next) = read_u64(bytes, at)?;
        match Serial::new(number) {
            Some(value) => Ok((value, next)),
            None => Err(Refusal::Frame(at)),
        }
    }

    fn append(&self, out: &mut Vec<u8>) -> Result<(), NoMemory> {
        write_u64(&self.get(), out)
    }
}

/// Four bytes, at most 1,000,000.
impl Field for Space {
    ghost format = { λ _. space };

    ghost lawful = { λ _. space_lawful };

    fn read_at(
        _version: Version,
        _alloc: Global,
        bytes: &[u8],
        at: usize,
    ) -> Result<(Space, usize), Refusal>
        ensures { GivesExactly result (space.read bytes.now at) }
    {
        let (number, next) = read_u32(bytes, at)?;
        match Space::new(number) {
            Some(value) => Ok((value, next)),
            None => Err(Refusal::Frame(at)),
        }
    }

    fn append(&self, out: &mut Vec<u8>) -> Result<(), NoMemory> {
        write_u32(&self.get(), out)
    }
}

/// The processor time, then the memory, and, from version 2 on, the disk, of which there was none
/// before.
impl Field for Size {
    ghost format = { size };

    ghost lawful = { size_lawful };

    fn read_at(
        version: Version,
        alloc: Global,
        bytes: &[u8],
        at: usize,
    ) -> Result<(Size, usize), Refusal>
        ensures { GivesExactly result ((size version).read bytes.now at) }
    {
        let (cpu, at) = Quantity::read_at(version, alloc, bytes, at)?;
        let (mem, at) = Quantity::read_at(version, alloc, bytes, at)?;
        if version.number() >= 2 {
            let (disk, at) = Space::read_at(version, alloc, bytes, at)?;
            Ok((Size { cpu, mem, disk }, at))
        } else {
            let disk = Space::NONE;
            Ok((Size { cpu, mem, disk }, at))
        }
    }

    fn append(&self, out: &mut Vec<u8>) -> Result<(), NoMemory> {
        self.cpu.append(out)?;
        self.mem.append(out)?;
        self.disk.append(out)
    }
}

/// The entry, and then the place in two bytes, below 256.
impl Field for EvalId {
    ghost format = { λ _. evaluation_id };

    ghost lawful = { λ _. evaluation_id_lawful };

    fn read_at(
        version: Version,
        alloc: Global,
        bytes: &[u8],
        at: usize,
    ) -> Result<(EvalId, usize), Refusal>
        ensures { GivesExactly result (evaluation_id.read bytes.now at) }
    {
        let (index, at) = EntryIndex::read_at(version, alloc, bytes, at)?;
        match read_u16(bytes, at)? {
            (slot, next) if slot < 256 => Ok((
                EvalId {
                    index,
                    slot: slot as u8,
                },
                next,
            )),
            _ => Err(Refusal::Frame(at)),
        }
    }

    fn append(&self, out: &mut Vec<u8>) -> Result<(), NoMemory> {
        self.index.append(out)?;
        write_u16(&(self.slot as u16), out)
    }
}

/// The entry, and then the place in one byte.
impl Field for AllocId {
    ghost format = { λ _. allocation_id };

    ghost lawful = { λ _. allocation_id_lawful };

    fn read_at(
        version: Version,
        alloc: Global,
        bytes: &[u8],
        at: usize,
    ) -> Result<(AllocId, usize), Refusal>
        ensures { GivesExactly result (allocation_id.read bytes.now at) }
    {
        let (index, at) = EntryIndex::read_at(version, alloc, bytes, at)?;
        let (slot, at) = Ordinal::read_at(version, alloc, bytes, at)?;
        Ok((AllocId { index, slot }, at))
    }

    fn append(&self, out: &mut Vec<u8>) -> Result<(), NoMemory> {
        self.index.append(out)?;
        self.slot.append(out)
    }
}

/// The term, and then the serial.
impl Field for Token {
    ghost format = { λ _. token };

    ghost lawful = { λ _. token_lawful };

    fn read_at(
        version: Version,
        alloc: Global,
        bytes: &[u8],
        at: usize,
    ) -> Result<(Token, usize), Refusal>
        ensures { GivesExactly result (token.read bytes.now at) }
    {
        let (term, at) = LeaderTerm::read_at(version, alloc, bytes, at)?;
        let (serial, at) = Serial::read_at(version, alloc, bytes, at)?;
        Ok((Token { term, serial }, at))
    }

    fn append(&self, out: &mut Vec<u8>) -> Result<(), NoMemory> {
        self.term.append(out)?;
        self.serial.append(out)
    }
}

/// The evaluation, the token, and then the index to wait for.
impl Field for Delivery {
    ghost format = { λ _. delivery };

    ghost lawful = { λ _. delivery_lawful };

    fn read_at(
        version: Version,
        alloc: Global,
        bytes: &[u8],
        at: usize,
    ) -> Result<(Delivery, usize), Refusal>
        ensures { GivesExactly result (delivery.read bytes.now at) }
    {
        let (eval, at) = EvalId::read_at(version, alloc, bytes, at)?;
        let (token, at) = Token::read_at(version, alloc, bytes, at)?;
        let (wait, at) = Index::read_at(version, alloc, bytes, at)?;
        Ok((Delivery { eval, token, wait }, at))
    }

    fn append(&self, out: &mut Vec<u8>) -> Result<(), NoMemory> {
        self.eval.append(out)?;
        self.token.append(out)?;
        self.wait.append(out)
    }
}
