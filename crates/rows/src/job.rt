ghost use Rattle.std.specs.Prelude.{◌≡◌, ◌<◌, ◌≤◌, IfSome, IfNone, IfOk, IfErr, bytes_eq};
ghost use Rattle.std.specs.List.{list_any};
ghost use Rattle.rows.specs.Groups.{AreGroups, is_new_name};
ghost use Rattle.rows.specs.Fits.{PriorityFits};
ghost use Rattle.rows.specs.declared.refusal.Refusal.TheVariants as refusals;

use crate::index::Index;
use crate::list_rules::{Ranged, Ruled, all_ranges, keep_rule};
use crate::name::{ClassName, GroupName, JobName};
use crate::refusal::{NoMemory, Refusal};
use crate::sequence::Sequence;
use crate::size::Size;
use std::alloc::Global;
use std::marker::Model;

/// How urgent a job is, from 1 to 100, the greatest first. (Nomad documentation, "job block".)
/// Contracts see its number.
#[derive(Clone, Copy, Debug, PartialEq, Eq, PartialOrd, Ord)]
pub struct Priority(u8);

impl Model for Priority {
    ghost use Rattle.std.specs.Prelude.{ℕ, ◌≤◌};

    ghost Value = { ℕ };

    ghost view = { λ n. n.0 };

    ghost invariant = { λ n. (1 ≤ n.0) × (n.0 ≤ 100) };

    ghost inverse = { λ n. record { 0 = n } };
}

impl Priority {
    /// The greatest: 100.
    pub const MOST: u8 = 100;

    /// The priority of a number; none where the number is not from 1 to 100.
    pub fn new(number: u8) -> Option<Priority>
        ensures some { IfSome result (λ n. (n ≡ number) × (1 ≤ number) × (number ≤ 100)) }
        ensures none { IfNone result ((1 ≤ number) → 100 < number) }
    {
        if number >= 1 && number <= Priority::MOST {
            Some(Priority(number))
        } else {
            None
        }
    }

    /// Its number, from 1 to 100.
    pub fn get(self) -> u8
        ensures value { result ≡ self }
        ensures range { (1 ≤ result) × (result ≤ 100) }
    {
        self.0
    }
}

/// How many allocations a group is to have, from 0 to 64. (Nomad documentation, "group block".)
/// Contracts see its number.
#[derive(Clone, Copy, Debug, PartialEq, Eq, PartialOrd, Ord)]
pub struct GroupCount(u8);

impl Model for GroupCount {
    ghost use Rattle.std.specs.Prelude.{ℕ, ◌≤◌};

    ghost Value = { ℕ };

    ghost view = { λ n. n.0 };

    ghost invariant = { λ n. n.0 ≤ 64 };

    ghost inverse = { λ n. record { 0 = n } };
}

impl GroupCount {
    /// The greatest: 64.
    pub const MOST: u8 = 64;

    /// The count of a number; none where the number is more than 64.
    pub fn new(number: u8) -> Option<GroupCount>
        ensures some { IfSome result (λ n. (n ≡ number) × (number ≤ 64)) }
        ensures none { IfNone result (64 < number) }
    {
        if number <= GroupCount::MOST {
            Some(GroupCount(number))
        } else {
            None
        }
    }

    /// Its number, from 0 to 64.
    pub fn get(self) -> u8
        ensures value { result ≡ self }
        ensures range { result ≤ 64 }
    {
        self.0
    }
}

/// One group of a job: how many allocations of what size, on nodes of which class.
#[derive(Clone, Copy, Debug, PartialEq, Eq)]
pub struct Group {
    /// Its name, which no other group of the job has.
    pub name: GroupName,
    /// How many allocations it is to have.
    pub count: GroupCount,
    /// The class of the nodes that it may run on.
    pub class: ClassName,
    /// What each allocation takes.
    pub size: Size,
}

impl Ranged for Group {
    ghost use Rattle.rows.specs.Fits.{GroupFits};

    ghost Fits = { GroupFits };

    fn ranges(&self) {
        let _name = self.name.as_bytes();
        let _count = self.count.get();
        let _class = self.class.as_bytes();
        self.size.ranges();
    }
}

/// Whether a group has the name.
fn is_named(group: &Group, name: &GroupName) -> bool
    ensures { result ≡ bytes_eq group.now.name name.now }
{
    group.name == *name
}

/// Whether some group has the name.
fn is_name_taken(groups: &[Group], name: &GroupName) -> bool
    ensures { result ≡ list_any (λ g. bytes_eq g.name name.now) groups.now }
{
    groups.iter().any(|group| is_named(group, name))
}

/// Whether no group in front has the name.
pub fn is_new_name(front: &[Group], name: &GroupName) -> bool
    ensures { result ≡ is_new_name front.now name.now }
{
    !is_name_taken(front, name)
}

/// No two groups of a job have one name.
impl Ruled for Group {
    ghost use Rattle.rows.specs.Groups.{group_is_new};

    ghost rule = { group_is_new };

    fn may_follow(&self, front: &[Group]) -> bool {
        is_new_name(front, &self.name)
    }
}

/// The groups of a job: 1 to 8, with distinct names. Contracts see the list.
#[derive(Drop)]
pub struct Groups {
    items: Vec<Group>,
}

impl Model for Groups {
    ghost use Rattle.std.specs.Prelude.{List};
    ghost use Rattle.rows.specs.declared.job.Group.{Group};

    ghost Value = { List Group };

    ghost use Rattle.rows.specs.Groups.{AreGroups};

    ghost view = { λ g. g.items.items };

    ghost invariant = { λ g. AreGroups g.items.items };
}

impl Groups {
    /// The greatest number of groups: 8.
    pub const MOST: usize = 8;

    /// The groups of a list. `OutOfRange` where it has not 1 to 8, or two of one name.
    pub fn check(items: Sequence<Group>) -> Result<Groups, Refusal>
        ensures ok { IfOk result (λ groups. (groups ≡ items) × AreGroups items) }
        ensures err { IfErr result (λ e. (e ≡ refusals.OutOfRange) × (AreGroups items → ⊥)) }
    {
        let items = items.into_vec();
        if !items.is_empty() && items.len() <= Groups::MOST && keep_rule(&items) {
            Ok(Groups { items })
        } else {
            Err(Refusal::OutOfRange)
        }
    }

    /// The groups, in their order.
    pub fn as_slice(&self) -> &[Group]
        ensures groups { result.now ≡ self.now }
        ensures fits { AreGroups result.now }
    {
        &self.items
    }

    /// The same groups once more.
    pub fn try_clone(&self, alloc: Global) -> Result<Groups, NoMemory>
        ensures { IfOk result (λ groups. groups ≡ self.now) }
    {
        let mut items = Vec::new(alloc);
        items.extend_from_slice(&self.items)?;
        Ok(Groups { items })
    }
}

impl Ranged for Groups {
    ghost use Rattle.rows.specs.Fits.{GroupsFit};

    ghost Fits = { GroupsFit };

    fn ranges(&self) {
        all_ranges(self.as_slice());
    }
}

/// What is asked of a job. (Nomad documentation, "job specification".)
#[derive(Drop)]
pub struct JobSpec {
    /// Its name.
    pub name: JobName,
    /// How urgent it is.
    pub priority: Priority,
    /// What it is to run.
    pub groups: Groups,
}

impl JobSpec {
    /// The same job once more.
    pub fn try_clone(&self, alloc: Global) -> Result<JobSpec, NoMemory>
        ensures { IfOk result (λ job. job ≡ self.now) }
    {
        Ok(JobSpec {
            name: self.name,
            priority: self.priority,
            groups: self.groups.try_clone(alloc)?,
        })
    }
}

impl Ranged for JobSpec {
    ghost use Rattle.rows.specs.Fits.{JobSpecFits};

    ghost Fits = { JobSpecFits };

    fn ranges(&self) {
        let _name = self.name.as_bytes();
        let _priority = self.priority.get();
        self.groups.ranges();
    }
}

/// A job's row.
#[derive(Drop)]
pub struct Job {
    /// Its name, by which it is found.
    pub name: JobName,
    /// How urgent it is.
    pub priority: Priority,
    /// Whether it was stopped, so that nothing of it is to run.
    pub stopped: bool,
    /// The entry that put or stopped it last.
    pub version: Index,
    /// What it is to run.
    pub groups: Groups,
}

impl Ranged for Job {
    ghost use Rattle.rows.specs.Fits.{JobFits};

    ghost Fits = { JobFits };

    fn ranges(&self) {
        let _name = self.name.as_bytes();
        let _priority = self.priority.get();
        let _version = self.version.get();
        self.groups.ranges();
    }
}

impl Job {
    /// What is asked of a job, from its parts. `OutOfRange` where the priority is not from 1 to
    /// 100, or the groups are not 1 to 8 with distinct names.
    pub fn check(name: JobName, priority: u8, groups: Sequence<Group>) -> Result<JobSpec, Refusal>
        ensures ok { IfOk result (λ job. (job.name ≡ name) × (job.priority ≡ priority)
            × (job.groups ≡ groups) × PriorityFits priority × AreGroups groups) }
        ensures err { IfErr result (λ e. (e ≡ refusals.OutOfRange)
            × (PriorityFits priority → AreGroups groups → ⊥)) }
    {
        match (Priority::new(priority), Groups::check(groups)) {
            (Some(priority), Ok(groups)) => Ok(JobSpec {
                name,
                priority,
                groups,
            }),
            _ => Err(Refusal::OutOfRange),
        }
    }
}
