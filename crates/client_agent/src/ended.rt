//! The allocations that ended on a node while its agent was up.
ghost use Rattle.std.specs.Prelude.{◌≡◌, [], ◌∷◌, ◌++◌, OnOk};
ghost use Rattle.group_model.specs.Agents.{Ended as AnyEnded, ended_how};
ghost use Rattle.client_agent.specs.Inner.Ends.{ended_row};

use fsm_tables::{ReservedTable, Row};
use rows::{AllocId, NoMemory, Ranged};
use std::alloc::Global;
use std::marker::Model;

/// An allocation that ended, and whether it completed.
#[derive(Clone, Copy)]
pub(crate) struct EndedAllocation {
    /// Its id.
    pub id: AllocId,
    /// Whether it ended well.
    pub ok: bool,
}

impl Model for EndedAllocation {
    ghost use Rattle.group_model.specs.Agents.{Ended as AnyEnded};

    ghost Value = { AnyEnded };

    ghost view = { λ e. record { id = e.id; ok = e.ok } };

    ghost inverse = { λ e. record { id = e.id; ok = e.ok } };
}

impl Ranged for EndedAllocation {
    ghost use Rattle.rows.specs.Fits.{AllocIdFits};

    ghost Fits = { λ e. AllocIdFits e.id };

    fn ranges(&self) {
        self.id.ranges();
    }
}

/// Ended ones by id.
impl Row for EndedAllocation {
    type Key = AllocId;

    ghost key_of = { λ e. e.id };

    fn key(&self) -> &AllocId {
        &self.id
    }
}

/// What ended, in the order in which it did; and the first end of each, by id. Contracts see the
/// list.
#[derive(Drop)]
pub(crate) struct Ended {
    all: Vec<EndedAllocation>,
    firsts: ReservedTable<EndedAllocation>,
}

impl Model for Ended {
    ghost use Rattle.std.specs.Prelude.{List};
    ghost use Rattle.group_model.specs.Agents.{Ended as AnyEnded};
    ghost use Rattle.client_agent.specs.Inner.Ids.{AreEnds};

    ghost Value = { List AnyEnded };

    ghost view = { λ e. e.all.items };

    ghost invariant = { λ e. AreEnds e.all.items e.firsts.rows };
}

impl Ended {
    /// Nothing ended. It takes no memory.
    pub fn none(alloc: Global) -> Ended
        ensures { result ≡ [] }
    {
        Ended {
            all: Vec::new(alloc),
            firsts: ReservedTable::empty(alloc),
        }
    }

    /// How an allocation ended, if it did: whether it completed.
    pub fn end_of(&self, id: &AllocId) -> Option<bool>
        ensures { result ≡ ended_how self.now id.now }
    {
        match self.firsts.get(id) {
            Some(one) => Some(one.ok),
            None => None,
        }
    }

    /// One more ends. Without memory nothing changes.
    pub fn push(&mut self, id: &AllocId, ok: bool) -> Result<(), NoMemory>
        ensures { OnOk result (self.new ≡ self.old ++ ended_row id.now ok ∷ []) }
    {
        let count = self.firsts.rows().len() + 1;
        self.firsts.reserve_rows(count)?;
        self.all.push(EndedAllocation { id: *id, ok })?;
        if self.firsts.get(id).is_none() {
            self.firsts.put(EndedAllocation { id: *id, ok });
        }
        Ok(())
    }
}
