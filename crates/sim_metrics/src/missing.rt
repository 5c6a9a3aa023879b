//! How many of a group's allocations are missing.
ghost use Rattle.std.specs.Prelude.{◌≡◌, ℕ, filter, length};
ghost use Rattle.group_model.specs.Scheduling.{is_current, is_missing, names_from};

use fsm_state::Cluster;
use fsm_tables::AllocName;
use rows::{Allocation, Group, JobName, Ordinal};

// Whether an allocation is as its group asks, and is to stay.
fn is_current(state: &Cluster, group: &Group, row: &Allocation) -> bool
    ensures { (index : ℕ) → result
        ≡ is_current state.now (record { group = group.now; index = index }) row.now }
{
    if row.migrate || row.size != group.size {
        return false;
    }
    match state.node(row.node) {
        Some(node) => node.class == group.class,
        None => false,
    }
}

// Whether no live allocation is current under a name of a group.
fn is_missing(state: &Cluster, job: &JobName, group: &Group, index: Ordinal) -> bool
    ensures { result
        ≡ is_missing state.now job.now (record { group = group.now; index = index }) }
{
    let name = AllocName {
        job: *job,
        group: group.name,
        index,
    };
    match state.live_named(&name) {
        Some(row) => !is_current(state, group, row),
        None => true,
    }
}

/// How many of the allocations that a group of a job is to have are not there as it asks. It takes
/// a look-up for each.
pub(crate) fn count_missing(state: &Cluster, job: &JobName, group: &Group) -> usize
    ensures { let names = names_from group.now 0 group.now.count in
        result ≡ length (filter (is_missing state.now job.now) names) }
{
    let mut count = 0;
    for number in 0..group.count.get() {
        let Some(index) = Ordinal::new(number) else {
            unreachable!()
        };
        if is_missing(state, job, group, index) {
            count += 1;
        }
    }
    count
}
