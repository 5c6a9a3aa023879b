//! Why a state refuses a command.
ghost use Rattle.std.specs.Prelude.{◌≡◌, ◌≤◌, ◌&&◌, Option, Some, None, IfOk, OnErr};
ghost use Rattle.std.specs.List.{list_any};
ghost use Rattle.rows.specs.declared.command.Command.TheVariants as commands;
ghost use Rattle.fsm_model.specs.Words.{is_draining};
ghost use Rattle.fsm_model.specs.Admission.{admission, jobs_pass, evals_pass, differs, allows, new_evals_pass};
ghost use Rattle.fsm_model.specs.Effect.{is_named};
ghost use Rattle.fsm_tables.specs.Lookups.{lives_on};
ghost use Rattle.fsm_state.specs.Memory.{AdmissionMayEndOutOfMemory};

mod alone;
mod claims;
pub(crate) mod plans;
pub(crate) mod touching;
mod whole;

use crate::cluster::Cluster;
use fsm_tables::Tables;
use rows::{
    Command, DrainMode, EvalId, EvalStatus, JobName, JobSpec, NoMemory, Node, NodeId, NodeSpec,
    Refusal, StatusChange,
};

/// Whether a node's row is of another class or size than it registers with.
fn differs(spec: &NodeSpec, row: &Node) -> bool
    ensures { result ≡ differs spec.now row.now }
{
    !(row.class == spec.class && row.size == spec.size)
}

/// Whether a node is being emptied.
pub(crate) fn is_drained(row: &Node) -> bool
    ensures { result ≡ is_draining row.now.drain }
{
    match row.drain {
        DrainMode::Off => false,
        DrainMode::Slow | DrainMode::Force => true,
    }
}

/// Whether an evaluation of a status may take this one: pending after blocked, and anything else
/// after pending.
fn allows(change: &StatusChange, status: EvalStatus) -> bool
    ensures { result ≡ allows change.now status }
{
    match change {
        StatusChange::Pending => match status {
            EvalStatus::Blocked => true,
            _ => false,
        },
        _ => match status {
            EvalStatus::Pending => true,
            _ => false,
        },
    }
}

impl Cluster {
    /// Whether so many evaluations more would pass the limit.
    fn evals_pass(&self, more: usize) -> bool
        requires { more ≤ 256 }
        ensures { result ≡ evals_pass more self.now }
    {
        self.ranges();
        self.eval_table().len() + more > Tables::MOST_EVALS
    }

    /// Whether a new row of the job would pass the limit.
    fn jobs_pass(&self, name: &JobName) -> bool
        ensures { result ≡ jobs_pass name.now self.now }
    {
        self.ranges();
        self.job(name).is_none() && self.job_table().len() + 1 > Tables::MOST_JOBS
    }

    /// Whether the evaluation that touches the job, if it has a row, would pass the limit.
    fn new_eval_passes(&self, name: &JobName) -> bool
        ensures { result ≡ new_evals_pass (is_named name.now) self.now }
    {
        self.ranges();
        let has_row = self.job(name).is_some();
        self.evals_pass(has_row as usize)
    }

    /// Why a job may not be put.
    fn job_put_refusal(&self, job: &JobSpec) -> Option<Refusal>
        ensures { result ≡ admission self.now (commands.JobPut job.now) }
    {
        if self.jobs_pass(&job.name) || self.evals_pass(1) {
            Some(Refusal::TableFull)
        } else {
            None
        }
    }

    /// Why a job may not be stopped.
    fn job_stop_refusal(&self, name: &JobName) -> Option<Refusal>
        ensures { result ≡ admission self.now (commands.JobStop name.now) }
    {
        match self.job(name) {
            None => Some(Refusal::UnknownJob),
            Some(job) if job.stopped => Some(Refusal::JobStopped),
            Some(_) if self.new_eval_passes(name) => Some(Refusal::TableFull),
            Some(_) => None,
        }
    }

    /// Why a job may not be evaluated.
    fn eval_put_refusal(&self, name: &JobName) -> Option<Refusal>
        ensures { result ≡ admission self.now (commands.EvalPut name.now) }
    {
        match self.job(name) {
            None => Some(Refusal::UnknownJob),
            Some(_) if self.new_eval_passes(name) => Some(Refusal::TableFull),
            Some(_) => None,
        }
    }

    /// Why a node may not register.
    fn node_put_refusal(&self, spec: &NodeSpec) -> Option<Refusal>
        ensures { result ≡ admission self.now (commands.NodePut spec.now) }
    {
        match self.node(spec.number) {
            Some(row) if differs(spec, row) => Some(Refusal::NodeDiffers),
            _ => None,
        }
    }

    /// Why a node may not be disconnected.
    fn disconnect_refusal(&self, node: NodeId) -> Option<Refusal>
        ensures { result ≡ admission self.now (commands.Disconnect node) }
    {
        match self.node(node) {
            None => Some(Refusal::UnknownNode),
            Some(row) if !row.status.is_ready() => Some(Refusal::StaleExpiry),
            Some(_) => None,
        }
    }

    /// Why a node may not be drained.
    fn drain_refusal(&self, node: NodeId, force: bool) -> Option<Refusal>
        ensures { result ≡ admission self.now (commands.Drain node force) }
    {
        match self.node(node) {
            None => Some(Refusal::UnknownNode),
            Some(_) => None,
        }
    }

    /// Whether an allocation is live on the node: each live one takes some of its processor time.
    fn is_in_use(&self, node: NodeId) -> bool
        ensures { result ≡ list_any (lives_on node) self.now.allocs }
    {
        self.ranges();
        self.used(node).cpu() > 0
    }

    /// Why a drain may not be done.
    fn drain_done_refusal(&self, node: NodeId) -> Option<Refusal>
        ensures { result ≡ admission self.now (commands.DrainDone node) }
    {
        match self.node(node) {
            None => Some(Refusal::UnknownNode),
            Some(row) if !is_drained(row) || self.is_in_use(node) => Some(Refusal::NotDraining),
            Some(_) => None,
        }
    }

    /// Why an evaluation's status may not be set.
    fn eval_status_refusal(&self, id: EvalId, change: &StatusChange) -> Option<Refusal>
        ensures { result ≡ admission self.now (commands.EvalStatus id change.now) }
    {
        match self.eval(id) {
            Some(row) if allows(change, row.status) => None,
            _ => Some(Refusal::NotOutstanding),
        }
    }

    /// Why the state refuses a command, if it does.
    pub(crate) fn admission(&self, command: &Command) -> Result<Option<Refusal>, NoMemory>
        ensures ok { IfOk result (λ r. r ≡ admission self.now command.now) }
        ensures memory { OnErr result (AdmissionMayEndOutOfMemory self.now command.now) }
    {
        match command {
            Command::Noop => Ok(None),
            Command::JobPut(spec) => Ok(self.job_put_refusal(spec)),
            Command::JobStop(name) => Ok(self.job_stop_refusal(name)),
            Command::NodePut(spec) => Ok(self.node_put_refusal(spec)),
            Command::NodeDown(number) => self.node_down_refusal(*number),
            Command::Disconnect(number) => Ok(self.disconnect_refusal(*number)),
            Command::Drain(number, force) => Ok(self.drain_refusal(*number, *force)),
            Command::DrainDone(number) => Ok(self.drain_done_refusal(*number)),
            Command::Migrate(ids) => self.migrate_refusal(ids),
            Command::EvalPut(name) => Ok(self.eval_put_refusal(name)),
            Command::EvalStatus(id, change) => Ok(self.eval_status_refusal(*id, change)),
            Command::Plan(plan) => self.plan_refusal(plan),
            Command::Report(node, reports) => self.report_refusal(*node, reports),
        }
    }
}
