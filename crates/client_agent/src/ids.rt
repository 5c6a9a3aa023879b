//! Ids of allocations that are looked up in the logarithm of how many there are.
ghost use Rattle.std.specs.Prelude.{◌≡◌, [], not, ◌&&◌, ◌||◌, OnOk, OnErr};
ghost use Rattle.rows.specs.declared.allocation.AllocId.{AllocId};
ghost use Rattle.fsm_model.specs.Words.{same_alloc};
ghost use Rattle.client_agent.specs.Inner.Ids.{lists_id};

use fsm_tables::{ReservedTable, Row};
use rows::{AllocId, NoMemory, Ranged};
use std::alloc::Global;
use std::marker::Model;

/// An id in a set.
#[derive(Clone, Copy)]
pub(crate) struct IdRow {
    /// The id.
    pub id: AllocId,
}

impl Ranged for IdRow {
    ghost use Rattle.rows.specs.Fits.{AllocIdFits};

    ghost Fits = { λ r. AllocIdFits r.id };

    fn ranges(&self) {
        self.id.ranges();
    }
}

/// Ids by themselves.
impl Row for IdRow {
    type Key = AllocId;

    ghost key_of = { λ r. r.id };

    fn key(&self) -> &AllocId {
        &self.id
    }
}

/// A set of ids. Contracts see them in rising order, and ask which are there.
#[derive(Drop)]
pub(crate) struct Ids {
    rows: ReservedTable<IdRow>,
}

impl Model for Ids {
    ghost use Rattle.std.specs.Prelude.{List};
    ghost use Rattle.client_agent.specs.declared.ids.IdRow.{IdRow as AnyIdRow};

    ghost Value = { List AnyIdRow };

    ghost view = { λ s. s.rows.rows };
}

impl Ids {
    /// No ids. It takes no memory.
    pub fn none(alloc: Global) -> Ids
        ensures { result ≡ [] }
    {
        Ids {
            rows: ReservedTable::empty(alloc),
        }
    }

    /// Whether an id is there.
    pub fn has(&self, id: &AllocId) -> bool
        ensures { result ≡ lists_id self.now id.now }
    {
        self.rows.get(id).is_some()
    }

    /// One more is there. Without memory nothing changes.
    pub fn add(&mut self, id: AllocId) -> Result<(), NoMemory>
        ensures ok { OnOk result ((other : AllocId)
            → lists_id self.new other ≡ (same_alloc other id || lists_id self.old other)) }
        ensures err { OnErr result (self.new ≡ self.old) }
    {
        let count = self.rows.rows().len() + 1;
        self.rows.reserve_rows(count)?;
        self.rows.put(IdRow { id });
        Ok(())
    }

    /// One is not there any more. It takes no memory.
    pub fn cut(&mut self, id: &AllocId)
        ensures { (other : AllocId)
            → lists_id self.new other ≡ (not (same_alloc other id.now) && lists_id self.old other) }
    {
        self.rows.cut(id);
    }
}
