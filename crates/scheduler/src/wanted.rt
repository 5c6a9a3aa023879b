//! The names that a job wants.
ghost use Rattle.std.specs.Prelude.{◌≡◌, ◌&&◌, bytes_eq, nat_lt, option_map};
ghost use Rattle.std.specs.List.{list_any};
ghost use Rattle.fsm_model.specs.Words.{job_of};
ghost use Rattle.group_model.specs.Scheduling.{names_of_groups, is_of_name, live_of_name};
ghost use Rattle.group_model.specs.Scheduling.{is_current, is_missing};
ghost use Rattle.scheduler.specs.Inner.Names.{wanted_groups};

use fsm_state::Cluster;
use fsm_tables::AllocName;
use rows::{Allocation, Group, JobName, Ordinal};
use std::marker::Model;

/// One of the allocations that a group is to have.
#[derive(Drop)]
pub(crate) struct WantedName {
    /// The group.
    pub group: Group,
    /// Which of its allocations.
    pub index: Ordinal,
}

impl Model for WantedName {
    ghost use Rattle.group_model.specs.Scheduling.{WantedName as AnyWantedName};

    ghost Value = { AnyWantedName };

    ghost view = { λ w. record { group = w.group; index = w.index } };
}

impl WantedName {
    /// The live allocation of the name, if there is one.
    pub fn live<'a>(&self, state: &'a Cluster, job: &JobName) -> Option<&'a Allocation>
        ensures { option_map (λ row. row.now) result ≡ live_of_name state.now job.now self.now }
    {
        state.live_named(&AllocName {
            job: *job,
            group: self.group.name,
            index: self.index,
        })
    }

    /// Whether an allocation is as the name's group asks, and is to stay.
    fn is_met_by(&self, state: &Cluster, row: &Allocation) -> bool
        ensures { result ≡ is_current state.now self.now row.now }
    {
        if row.migrate || row.size != self.group.size {
            return false;
        }
        match state.node(row.node) {
            Some(node) => node.class == self.group.class,
            None => false,
        }
    }

    /// Whether no live allocation is current under the name.
    pub fn is_missing(&self, state: &Cluster, job: &JobName) -> bool
        ensures { result ≡ is_missing state.now job.now self.now }
    {
        match self.live(state, job) {
            Some(row) => !self.is_met_by(state, row),
            None => true,
        }
    }
}

/// The groups whose allocations a job wants: none where it is stopped or has no row.
pub(crate) fn wanted_groups<'a>(state: &'a Cluster, job: &JobName) -> &'a [Group]
    ensures { result.now ≡ wanted_groups (job_of job.now state.now) }
{
    match state.job(job) {
        Some(row) if !row.stopped => row.groups.as_slice(),
        _ => &[],
    }
}

/// Whether a group wants the name of an allocation of its job.
fn wants(group: &Group, row: &Allocation) -> bool
    ensures { let g = group.now in
        result ≡ (bytes_eq row.now.group g.name && nat_lt row.now.index g.count) }
{
    row.group == group.name && row.index.get() < group.count.get()
}

/// Whether one of the groups wants the name of an allocation of the job.
pub(crate) fn is_wanted(groups: &[Group], row: &Allocation) -> bool
    ensures { result ≡ list_any (is_of_name row.now) (names_of_groups groups.now) }
{
    for group in groups {
        if wants(group, row) {
            return true;
        }
    }
    false
}
