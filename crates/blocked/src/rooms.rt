//! The room that nodes of a class got last.
ghost use Rattle.std.specs.Prelude.{◌≡◌, [], OnOk, OnErr};
ghost use Rattle.group_model.specs.Blocked.{room_with};
ghost use Rattle.blocked.specs.Rooms.{room_in};

use fsm_tables::{ReservedTable, Row};
use rows::{ClassName, Index, NoMemory, Ranged};
use std::alloc::Global;
use std::marker::Model;

/// The greatest index at which a node of a class got room.
#[derive(Clone, Copy)]
pub(crate) struct ClassRoom {
    /// The class.
    pub class: ClassName,
    /// The index.
    pub room: Index,
}

impl Ranged for ClassRoom {
    ghost use Rattle.rows.specs.Names.{NameFits};
    ghost use Rattle.rows.specs.Fits.{IndexFits};

    ghost Fits = { λ r. NameFits r.class × IndexFits r.room };

    fn ranges(&self) {
        let _class = self.class.as_bytes();
        let _room = self.room.get();
    }
}

/// Rooms by class.
impl Row for ClassRoom {
    type Key = ClassName;

    ghost key_of = { λ r. r.class };

    fn key(&self) -> &ClassName {
        &self.class
    }
}

/// For each class the greatest index at which a node of it got room. Contracts see the rows in
/// rising class.
#[derive(Drop)]
pub(crate) struct Rooms {
    rows: ReservedTable<ClassRoom>,
}

impl Model for Rooms {
    ghost use Rattle.std.specs.Prelude.{List};
    ghost use Rattle.blocked.specs.declared.rooms.ClassRoom.{ClassRoom as AnyClassRoom};

    ghost Value = { List AnyClassRoom };

    ghost view = { λ r. r.rows.rows };
}

impl Rooms {
    /// No node got room. It takes no memory.
    pub fn none(alloc: Global) -> Rooms
        ensures { result ≡ [] }
    {
        Rooms {
            rows: ReservedTable::empty(alloc),
        }
    }

    /// The greatest index at which a node of the class got room, or 0.
    pub fn of(&self, class: &ClassName) -> Index
        ensures { result ≡ room_in self.now class.now }
    {
        match self.rows.get(class) {
            Some(row) => row.room,
            None => Index::ZERO,
        }
    }

    /// The same of a class `other`, once a node of the class gets room at this index.
    pub fn with(&self, class: &ClassName, index: Index, other: &ClassName) -> Index
        ensures { result ≡ room_with class.now index (room_in self.now) other.now }
    {
        let room = self.of(other);
        if *other == *class && room < index {
            index
        } else {
            room
        }
    }

    /// A node of the class got room at this index. Without memory nothing changes.
    pub fn note(&mut self, class: &ClassName, index: Index) -> Result<(), NoMemory>
        ensures ok { OnOk result (room_in self.new ≡ room_with class.now index (room_in self.old)) }
        ensures err { OnErr result (self.new ≡ self.old) }
    {
        let room = self.with(class, index, class);
        let count = self.rows.rows().len() + 1;
        self.rows.reserve_rows(count)?;
        self.rows.put(ClassRoom {
            class: *class,
            room,
        });
        Ok(())
    }
}
