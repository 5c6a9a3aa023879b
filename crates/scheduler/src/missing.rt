//! The names that a job wants without a current allocation.
ghost use Rattle.std.specs.Prelude.{◌≡◌, ◌++◌, IfOk, OnOk, filter};
ghost use Rattle.group_model.specs.Scheduling.{names_from, is_missing, missing_names};

use crate::wanted::{WantedName, wanted_groups};
use fsm_state::Cluster;
use rows::{Group, JobName, NoMemory, Ordinal, Sequence};
use std::alloc::Global;

/// Adds those of a group.
fn add_missing(
    names: &mut Sequence<WantedName>,
    state: &Cluster,
    job: &JobName,
    group: &Group,
) -> Result<(), NoMemory>
    ensures { let those = names_from group.now 0 group.now.count in
        OnOk result (names.new ≡ names.old ++ filter (is_missing state.now job.now) those) }
{
    for number in 0..group.count.get() {
        let Some(index) = Ordinal::new(number) else {
            unreachable!()
        };
        let name = WantedName {
            group: *group,
            index,
        };
        if !name.is_missing(state, job) {
            continue;
        }
        names.push(name)?;
    }
    Ok(())
}

/// All of them, in the order of the groups, and by index. It takes a look-up for each wanted name.
pub(crate) fn missing_names(
    alloc: Global,
    state: &Cluster,
    job: &JobName,
) -> Result<Sequence<WantedName>, NoMemory>
    ensures { IfOk result (λ names. names ≡ missing_names state.now job.now) }
{
    let mut names = Sequence::new(alloc);
    let groups = wanted_groups(state, job);
    for group in groups {
        add_missing(&mut names, state, job, group)?;
    }
    Ok(names)
}
