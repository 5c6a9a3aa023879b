//! Why a state refuses a plan.
ghost use Rattle.std.specs.Prelude.{◌≡◌, ◌≤◌, ◌&&◌, ◌+◌, Option, Some, None, IfOk, length, nat_lt};
ghost use Rattle.std.specs.List.{list_any, list_all};
ghost use Rattle.rows.specs.Limits.{most_allocs};
ghost use Rattle.fsm_model.specs.Words.{is_some_and, is_pending, eval_of, node_of};
ghost use Rattle.rows.specs.declared.command.Command.TheVariants as commands;
ghost use Rattle.fsm_model.specs.Admission.{admission, is_stopped, is_live_of, may_hold, is_asked, fits_job};

use crate::cluster::Cluster;
use fsm_tables::{Tables, is_live};
use rows::{
    AcceptedPlace, AcceptedPlan, AllocId, EvalId, EvalStatus, Group, JobName, NoMemory, Node,
    Refusal,
};

/// Whether an evaluation is pending.
fn is_pending(status: EvalStatus) -> bool
    ensures { result ≡ is_pending status }
{
    match status {
        EvalStatus::Pending => true,
        _ => false,
    }
}

/// Whether a node takes what a group asks for, if it has room: it is ready, eligible and of the
/// group's class.
pub fn may_hold(group: &Group, node: &Node) -> bool
    ensures { result ≡ may_hold group.now node.now }
{
    node.status.is_ready() && node.eligible && node.class == group.class
}

impl Cluster {
    /// Whether there is the evaluation, and it is pending.
    fn is_waiting(&self, id: EvalId) -> bool
        ensures { result ≡ is_some_and (λ e. is_pending e.status) (eval_of id self.now) }
    {
        match self.eval(id) {
            Some(row) => is_pending(row.status),
            None => false,
        }
    }

    /// Whether there is the job, and it is stopped.
    fn is_stopped(&self, name: &JobName) -> bool
        ensures { result ≡ is_stopped name.now self.now }
    {
        match self.job(name) {
            Some(job) => job.stopped,
            None => false,
        }
    }

    /// Whether an allocation is a live one of the job.
    fn is_live_of(&self, job: &JobName, id: AllocId) -> bool
        ensures { result ≡ is_live_of job.now self.now id }
    {
        match self.alloc(id) {
            Some(row) => is_live(row) && row.job == *job,
            None => false,
        }
    }

    /// Whether each of the allocations is.
    fn are_live_of(&self, job: &JobName, ids: &[AllocId]) -> bool
        ensures { result ≡ list_all (is_live_of job.now self.now) ids.now }
    {
        for id in ids {
            if !self.is_live_of(job, *id) {
                return false;
            }
        }
        true
    }

    /// Whether a place's node takes what the group asks for.
    fn is_taken(&self, place: &AcceptedPlace, group: &Group) -> bool
        ensures { result ≡ is_some_and (may_hold group.now) (node_of place.now.node self.now) }
    {
        match self.node(place.node) {
            Some(row) => may_hold(group, row),
            None => false,
        }
    }

    /// Whether a place is one that the group asks for, on a node that takes it.
    fn is_asked(&self, place: &AcceptedPlace, group: &Group) -> bool
        ensures { result ≡ is_asked self.now place.now group.now }
    {
        group.name == place.group
            && group.size == place.size
            && place.index.get() < group.count.get()
            && self.is_taken(place, group)
    }

    /// Whether one of the groups asks for the place.
    fn is_asked_by(&self, place: &AcceptedPlace, groups: &[Group]) -> bool
        ensures { result ≡ list_any (is_asked self.now place.now) groups.now }
    {
        for group in groups {
            if self.is_asked(place, group) {
                return true;
            }
        }
        false
    }

    /// Whether the job asks for the place.
    fn fits_job(&self, job: &JobName, place: &AcceptedPlace) -> bool
        ensures { result ≡ fits_job self.now job.now place.now }
    {
        match self.job(job) {
            Some(row) => self.is_asked_by(place, row.groups.as_slice()),
            None => false,
        }
    }

    /// Whether the job asks for each of the places.
    fn fit_job(&self, job: &JobName, places: &[AcceptedPlace]) -> bool
        ensures { result ≡ list_all (fits_job self.now job.now) places.now }
    {
        for place in places {
            if !self.fits_job(job, place) {
                return false;
            }
        }
        true
    }

    /// Whether so many allocations more would pass the limit.
    fn allocs_pass(&self, more: usize) -> bool
        requires { more ≤ 64 }
        ensures { result ≡ nat_lt most_allocs (length self.now.allocs + more) }
    {
        self.ranges();
        self.alloc_table().len() + more > Tables::MOST_ALLOCS
    }

    /// Why a plan may not be applied.
    pub(super) fn plan_refusal(&self, plan: &AcceptedPlan) -> Result<Option<Refusal>, NoMemory>
        ensures { IfOk result (λ r. r ≡ admission self.now (commands.Plan plan.now)) }
    {
        let places = plan.places.as_slice();
        if !self.is_waiting(plan.eval) {
            Ok(Some(Refusal::NotOutstanding))
        } else if self.job(&plan.job).is_none() {
            Ok(Some(Refusal::UnknownJob))
        } else if !self.are_live_of(&plan.job, plan.stops.as_slice()) {
            Ok(Some(Refusal::UnknownAlloc))
        } else if self.allocs_pass(places.len()) {
            Ok(Some(Refusal::TableFull))
        } else if self.is_stopped(&plan.job) && !places.is_empty() {
            Ok(Some(Refusal::JobStopped))
        } else if !self.fit_job(&plan.job, places) || !self.bears_plan(plan)? {
            Ok(Some(Refusal::OutOfRange))
        } else {
            Ok(None)
        }
    }
}
