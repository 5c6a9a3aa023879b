//! The allocations that an agent ever started.
ghost use Rattle.std.specs.Prelude.{◌≡◌, ◌⊎◌, [], ◌∷◌, ◌++◌, false, length, take, IfErr, IfOk, OnOk, OnErr};
ghost use Rattle.rows.specs.declared.refusal.Refusal.TheVariants as refusals;
ghost use Rattle.std.specs.List.{list_any};
ghost use Rattle.fsm_model.specs.Words.{same_alloc};
ghost use Rattle.client_agent.specs.Capacity.{AreDistinct};
ghost use Rattle.client_agent.specs.Inner.Ids.{AreSet};

use crate::ids::Ids;
use rows::{AllocId, NoMemory, Refusal};
use std::alloc::Global;
use std::marker::Model;

/// The ids of the allocations that an agent ever started, in the order in which it did, without
/// doubles; and the set of them, by which they are looked up. Contracts see the list.
#[derive(Drop)]
pub(crate) struct Started {
    ids: Vec<AllocId>,
    set: Ids,
}

impl Model for Started {
    ghost use Rattle.std.specs.Prelude.{List};
    ghost use Rattle.rows.specs.declared.allocation.AllocId.{AllocId};
    ghost use Rattle.client_agent.specs.Capacity.{AreDistinct};
    ghost use Rattle.client_agent.specs.Inner.Ids.{AreSet};

    ghost Value = { List AllocId };

    ghost view = { λ s. s.ids.items };

    ghost invariant = { λ s. record {
      distinct : AreDistinct s.ids.items;
      set : AreSet s.ids.items s.set;
    } };
}

/// Keeps the first ids, so many, and forgets the others. It takes no memory.
fn forget(ids: &mut Vec<AllocId>, set: &mut Ids, count: usize)
    requires distinct { AreDistinct ids.old.items }
    requires set { AreSet ids.old.items set.old }
    ensures taken { ids.new.items ≡ take count ids.old.items }
    ensures distinct { AreDistinct ids.new.items }
    ensures set { AreSet ids.new.items set.new }
{
    while ids.len() > count {
        let Some(id) = ids.pop() else { unreachable!() };
        set.cut(&id);
    }
}

impl Started {
    /// Nothing was started. It takes no memory.
    pub fn none(alloc: Global) -> Started
        ensures { result ≡ [] }
    {
        Started {
            ids: Vec::new(alloc),
            set: Ids::none(alloc),
        }
    }

    /// These were started, in this order. It is refused with `OutOfRange` where one stands there
    /// twice, and with `NoMemory`.
    pub fn of(alloc: Global, ids: &[AllocId]) -> Result<Started, Refusal>
        ensures ok { IfOk result (λ started. started ≡ ids.now) }
        ensures distinct { OnOk result (AreDistinct ids.now) }
        ensures err { IfErr result (λ cause. (cause ≡ refusals.NoMemory)
            ⊎ ((cause ≡ refusals.OutOfRange) × (AreDistinct ids.now → ⊥))) }
    {
        let mut started = Started::none(alloc);
        for id in ids {
            if started.has(id) {
                return Err(Refusal::OutOfRange);
            }
            started.push(id)?;
        }
        Ok(started)
    }

    /// The ids, in the order in which they were started.
    pub fn as_slice(&self) -> &[AllocId]
        ensures ids { result.now ≡ self.now }
        ensures distinct { AreDistinct result.now }
    {
        &self.ids
    }

    /// How many were started.
    pub fn len(&self) -> usize
        ensures { result ≡ length self.now }
    {
        self.ids.len()
    }

    /// Whether an allocation was ever started.
    pub fn has(&self, id: &AllocId) -> bool
        ensures { result ≡ list_any (same_alloc id.now) self.now }
    {
        self.set.has(id)
    }

    /// One is started that never was. Without memory nothing changes.
    pub fn push(&mut self, id: &AllocId) -> Result<(), NoMemory>
        requires { list_any (same_alloc id.now) self.old ≡ false }
        ensures ok { OnOk result (self.new ≡ self.old ++ id.now ∷ []) }
        ensures err { OnErr result (self.new ≡ self.old) }
    {
        self.ids.reserve(1)?;
        self.set.add(*id)?;
        self.ids.push_reserved(*id);
        Ok(())
    }

    /// Keeps the first ids, so many, and forgets the others. It takes no memory.
    pub fn truncate(&mut self, count: usize)
        ensures { self.new ≡ take count self.old }
    {
        forget(&mut self.ids, &mut self.set, count);
    }
}
