//! Groups of a job, and ids that rise, as bytes.
ghost use Rattle.rows.specs.Groups.{group_is_new};
ghost use Rattle.rows.specs.Ids.{id_rises};
ghost use Rattle.fields_model.specs.Format.{GivesExactly};
ghost use Rattle.fields_model.specs.Rows.{group, group_behind, groups, allocation_id_behind};
ghost use Rattle.fields.specs.Inner.RowReading.{group_of};
ghost use Rattle.fields_model.proofs.RowLaws.{group_lawful, group_is_ruled, groups_lawful, allocation_id_is_ruled};

use crate::field::Field;
use crate::list::append_counted;
use crate::ruled::{RuledField, read_ruled_list};
use rows::{
    AllocId, ClassName, Group, GroupCount, GroupName, Groups, NoMemory, Refusal, Ruled, Size,
    Version, is_new_name,
};
use std::alloc::Global;

/// What follows the name.
fn read_group_of(
    version: Version,
    alloc: Global,
    name: GroupName,
    bytes: &[u8],
    at: usize,
) -> Result<(Group, usize), Refusal>
    ensures { GivesExactly result (group_of version name bytes.now at) }
{
    let (count, at) = GroupCount::read_at(version, alloc, bytes, at)?;
    let (class, at) = ClassName::read_at(version, alloc, bytes, at)?;
    let (size, at) = Size::read_at(version, alloc, bytes, at)?;
    Ok((
        Group {
            name,
            count,
            class,
            size,
        },
        at,
    ))
}

/// A group: its name, count, class and size.
impl Field for Group {
    ghost format = { group };

    ghost lawful = { group_lawful };

    fn read_at(
        version: Version,
        alloc: Global,
        bytes: &[u8],
        at: usize,
    ) -> Result<(Group, usize), Refusal>
        ensures { GivesExactly result ((group version).read bytes.now at) }
    {
        let (name, next) = GroupName::read_at(version, alloc, bytes, at)?;
        read_group_of(version, alloc, name, bytes, next)
    }

    fn append(&self, out: &mut Vec<u8>) -> Result<(), NoMemory> {
        self.name.append(out)?;
        self.count.append(out)?;
        self.class.append(out)?;
        self.size.append(out)
    }
}

/// In a job each group has a name of its own: one that is taken is a fault at the group's first
/// byte.
impl RuledField for Group {
    ghost rule = { group_is_new };

    ghost behind = { group_behind };

    ghost ruled = { group_is_ruled };

    fn read_behind(
        version: Version,
        alloc: Global,
        bytes: &[u8],
        at: usize,
        front: &[Group],
    ) -> Result<(Group, usize), Refusal>
        ensures { GivesExactly result ((group_behind version front.now).read bytes.now at) }
    {
        let (name, next) = GroupName::read_at(version, alloc, bytes, at)?;
        if is_new_name(front, &name) {
            read_group_of(version, alloc, name, bytes, next)
        } else {
            Err(Refusal::Frame(at))
        }
    }
}

/// A count of one byte, from 1 to 8, and that many groups with distinct names.
impl Field for Groups {
    ghost format = { groups };

    ghost lawful = { groups_lawful };

    fn read_at(
        version: Version,
        alloc: Global,
        bytes: &[u8],
        at: usize,
    ) -> Result<(Groups, usize), Refusal> {
        let (items, next) = read_ruled_list(version, alloc, bytes, at, 8)?;
        match Groups::check(items) {
            Ok(groups) => Ok((groups, next)),
            Err(_) => Err(Refusal::Frame(at)),
        }
    }

    fn append(&self, out: &mut Vec<u8>) -> Result<(), NoMemory> {
        append_counted(self.as_slice(), 8, out)
    }
}

/// Ids that are listed by themselves rise strictly: one that does not is a fault at its first byte.
impl RuledField for AllocId {
    ghost rule = { id_rises };

    ghost behind = { λ _. allocation_id_behind };

    ghost ruled = { λ _. allocation_id_is_ruled };

    fn read_behind(
        version: Version,
        alloc: Global,
        bytes: &[u8],
        at: usize,
        front: &[AllocId],
    ) -> Result<(AllocId, usize), Refusal>
        ensures { GivesExactly result ((allocation_id_behind front.now).read bytes.now at) }
    {
        let (id, next) = AllocId::read_at(version, alloc, bytes, at)?;
        if id.may_follow(front) {
            Ok((id, next))
        } else {
            Err(Refusal::Frame(at))
        }
    }
}
