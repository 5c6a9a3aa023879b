//! Allocations on a node that is not heard of, and their jobs.
ghost use Rattle.std.specs.Prelude.{◌≡◌, ◌≢◌, [], OnOk, MatchResult, filter};
ghost use Rattle.fsm_tables.specs.Lookups.{lives_on};
ghost use Rattle.fsm_model.specs.Effect.{client_row};
ghost use Rattle.fsm_state.specs.Inner.Steps.{all_left, owners, HasNames};

use crate::cluster::Cluster;
use crate::new_evaluations::add_name;
use rows::{Allocation, ClientState, JobName, NoMemory, NodeId};
use std::collections::BTreeSet;

/// A row in another client state.
fn with_client(row: &Allocation, client: ClientState) -> Allocation
    ensures { result ≡ client_row client row.now }
{
    let mut row = *row;
    row.client = client;
    row
}

impl Cluster {
    /// The jobs of those that are live on a node. It takes time in the logarithm of the table, and
    /// so much again for each of them.
    pub(crate) fn jobs_on(&self, node: NodeId) -> Result<BTreeSet<JobName>, NoMemory>
        ensures { let rows = filter (lives_on node) self.now.allocs in
            MatchResult result (HasNames (owners rows)) (λ _. rows ≢ []) }
    {
        let rows = self.live_on(node)?;
        let mut names = BTreeSet::new(self.memory());
        for row in rows.as_slice() {
            add_name(&mut names, row.job)?;
        }
        Ok(names)
    }

    /// What is pending, running or unknown on a node comes into this client state. It takes time in
    /// the logarithm of the table, and so much again for each of them.
    pub(super) fn leave(&mut self, node: NodeId, client: ClientState) -> Result<(), NoMemory>
        ensures { OnOk result (self.new ≡ all_left client node self.old) }
    {
        self.ranges();
        let rows = self.active_on(node)?;
        for row in rows.as_slice() {
            self.put_alloc(with_client(row, client))?;
        }
        Ok(())
    }
}
