//! What a plan stops and places.
ghost use Rattle.std.specs.Prelude.{◌≡◌, OnOk, ◌<◌};
ghost use Rattle.fsm_model.specs.Effect.{alloc_row, with_plan_places};
ghost use Rattle.fsm_state.specs.Inner.Steps.{revised, stop_one, stopped_all};

use crate::cluster::Cluster;
use rows::{
    AcceptedPlace, AcceptedPlan, AllocId, Allocation, ClientState, Desired, EntryIndex, NoMemory,
    Ordinal, Ranged,
};

/// A row that is to stop.
fn stopped(row: &Allocation) -> Allocation
    ensures { result ≡ stop_one row.now }
{
    let mut row = *row;
    row.desired = Desired::Stop;
    row
}

/// The allocation that a place of a plan makes.
fn new_alloc(
    entry: EntryIndex,
    slot: Ordinal,
    plan: &AcceptedPlan,
    place: &AcceptedPlace,
) -> Allocation
    ensures { result ≡ alloc_row entry slot plan.now place.now }
{
    Allocation {
        id: AllocId { index: entry, slot },
        job: plan.job,
        group: place.group,
        index: place.index,
        node: place.node,
        size: place.size,
        desired: Desired::Run,
        client: ClientState::Pending,
        migrate: false,
        eval: plan.eval,
    }
}

impl Cluster {
    /// Stops an allocation.
    fn stop(&mut self, id: AllocId) -> Result<(), NoMemory>
        ensures { OnOk result (self.new ≡ revised stop_one id self.old) }
    {
        match self.alloc(id) {
            Some(old) => {
                let old = *old;
                self.revise(old, stopped(&old))
            }
            None => Ok(()),
        }
    }

    /// Stops allocations, one after the other.
    pub(super) fn stop_all(&mut self, ids: &[AllocId]) -> Result<(), NoMemory>
        ensures { OnOk result (self.new ≡ stopped_all ids.now self.old) }
    {
        for id in ids {
            self.stop(*id)?;
        }
        Ok(())
    }

    /// Makes the allocations that a plan places, one after the other.
    pub(super) fn place_all(
        &mut self,
        entry: EntryIndex,
        plan: &AcceptedPlan,
    ) -> Result<(), NoMemory>
        requires { entry ≡ self.old.count }
        ensures { OnOk result (self.new ≡ with_plan_places plan.now self.old) }
    {
        plan.ranges();
        let places = plan.places.as_slice();
        for slot in 0..places.len() {
            let Some(ordinal) = Ordinal::new(slot as u8) else {
                unreachable!()
            };
            let row = new_alloc(entry, ordinal, plan, &places[slot]);
            self.put_alloc(row)?;
        }
        Ok(())
    }
}
