//! The effect of each command.
ghost use Rattle.std.specs.Prelude.{◌≡◌, ◌≢◌, ◌+◌, ◌<◌, ◌^◌, None, OnOk, OnErr};
ghost use Rattle.fsm_model.specs.Words.{job_of, node_of, eval_of};
ghost use Rattle.fsm_model.specs.Effect.{applied, evaluations_created, is_named, with_job_row, with_job_stopped, node_down, disconnect, unreached, downed, drain_node, drain_done, migrate, set_eval_status, planned, reported};
ghost use Rattle.fsm_state.specs.Memory.{EffectMayEndOutOfMemory};

mod allocs;
mod evals;
mod jobs;
mod losses;
mod moves;
mod nodes;
mod plans;
pub(crate) mod reports;

use crate::cluster::Cluster;
use crate::new_evaluations::evaluation;
use rows::{
    AcceptedPlan, AllocId, ClientState, Command, EntryIndex, EvalId, JobName, JobSpec, NoMemory,
    NodeId, NodeStatus, Report, StatusChange,
};

impl Cluster {
    /// Makes or replaces a job, and touches it.
    fn job_put(&mut self, entry: EntryIndex, spec: &JobSpec) -> Result<(), NoMemory>
        requires { entry ≡ self.old.count }
        ensures { OnOk result (
            self.new ≡ evaluations_created (is_named spec.now.name)
            (with_job_row spec.now self.old)) }
    {
        self.ranges();
        let is_there = self.put_job_row(spec)?;
        if is_there {
            return self.put_eval(evaluation(entry, 0, spec.name, spec.priority));
        }
        Ok(())
    }

    /// Stops a job, and touches it.
    fn job_stop(&mut self, entry: EntryIndex, name: &JobName) -> Result<(), NoMemory>
        requires { entry ≡ self.old.count }
        ensures ok { OnOk result (
            self.new ≡ evaluations_created (is_named name.now)
            (with_job_stopped name.now self.old)) }
        ensures memory { OnErr result (job_of name.now self.old ≢ None) }
    {
        self.ranges();
        self.stop_job_row(name)?;
        self.create_evaluation(entry, name)
    }

    /// A node is not heard of: its row is of this status, and what is pending, running or unknown
    /// on it in this client state.
    fn set_unreached(
        &mut self,
        number: NodeId,
        status: NodeStatus,
        client: ClientState,
    ) -> Result<(), NoMemory>
        ensures { OnOk result (self.new ≡ unreached status client number self.old) }
    {
        self.ranges();
        self.set_status(number, status)?;
        self.leave(number, client)
    }

    /// A node that has a row is down: what is pending, running or unknown on it is lost, and the
    /// jobs of what was live are touched.
    fn take_down(&mut self, entry: EntryIndex, number: NodeId) -> Result<(), NoMemory>
        requires { entry ≡ self.old.count }
        ensures { OnOk result (self.new ≡ downed number self.old) }
    {
        self.ranges();
        let names = self.jobs_on(number)?;
        self.set_unreached(number, NodeStatus::Down, ClientState::Lost)?;
        self.create_evaluations(entry, &names)
    }

    /// A node's loss. Without a row of the node nothing changes.
    fn node_down(&mut self, entry: EntryIndex, number: NodeId) -> Result<(), NoMemory>
        requires { entry ≡ self.old.count }
        ensures ok { OnOk result (self.new ≡ node_down number self.old) }
        ensures memory { OnErr result (node_of number self.old ≢ None) }
    {
        if self.node(number).is_none() {
            return Ok(());
        }
        self.take_down(entry, number)
    }

    /// A node is disconnected: what is pending or running on it is unknown, and no job is touched.
    /// Without a row of the node nothing changes.
    fn disconnect(&mut self, number: NodeId) -> Result<(), NoMemory>
        ensures ok { OnOk result (self.new ≡ disconnect number self.old) }
        ensures memory { OnErr result (node_of number self.old ≢ None) }
    {
        match self.node(number) {
            None => Ok(()),
            Some(_) => self.set_unreached(number, NodeStatus::Disconnected, ClientState::Unknown),
        }
    }

    /// Begins to empty a node.
    fn drain_node(&mut self, number: NodeId, force: bool) -> Result<(), NoMemory>
        ensures ok { OnOk result (self.new ≡ drain_node number force self.old) }
        ensures memory { OnErr result (node_of number self.old ≢ None) }
    {
        self.ranges();
        self.set_draining(number, force)
    }

    /// Ends the emptying of a node.
    fn drain_done(&mut self, number: NodeId) -> Result<(), NoMemory>
        ensures ok { OnOk result (self.new ≡ drain_done number self.old) }
        ensures memory { OnErr result (node_of number self.old ≢ None) }
    {
        self.ranges();
        self.set_drained(number)
    }

    /// Marks allocations, and touches their jobs.
    fn migrate(&mut self, entry: EntryIndex, ids: &[AllocId]) -> Result<(), NoMemory>
        requires { entry ≡ self.old.count }
        ensures { OnOk result (self.new ≡ migrate ids.now self.old) }
    {
        self.ranges();
        let names = self.jobs_of(ids)?;
        self.mark_all(ids)?;
        self.create_evaluations(entry, &names)
    }

    /// Touches a job.
    fn eval_put(&mut self, entry: EntryIndex, name: &JobName) -> Result<(), NoMemory>
        requires { entry ≡ self.old.count }
        ensures ok { OnOk result (self.new ≡ evaluations_created (is_named name.now) self.old) }
        ensures memory { OnErr result (job_of name.now self.old ≢ None) }
    {
        self.create_evaluation(entry, name)
    }

    /// Sets the status of an evaluation.
    fn eval_status(&mut self, id: EvalId, change: &StatusChange) -> Result<(), NoMemory>
        ensures ok { OnOk result (self.new ≡ set_eval_status id change.now self.old) }
        ensures memory { OnErr result (eval_of id self.old ≢ None) }
    {
        self.ranges();
        self.set_eval_status(id, change)
    }

    /// Stops what a plan stops, and then makes what it places.
    fn plan(&mut self, entry: EntryIndex, plan: &AcceptedPlan) -> Result<(), NoMemory>
        requires { entry ≡ self.old.count }
        ensures { OnOk result (self.new ≡ planned plan.now self.old) }
    {
        self.ranges();
        self.stop_all(plan.stops.as_slice())?;
        self.place_all(entry, plan)
    }

    /// Takes what a node reports, and touches the jobs of the allocations that ended.
    fn report(
        &mut self,
        entry: EntryIndex,
        node: NodeId,
        reports: &[Report],
    ) -> Result<(), NoMemory>
        requires { entry ≡ self.old.count }
        ensures { OnOk result (self.new ≡ reported node reports.now self.old) }
    {
        self.ranges();
        let names = self.apply_reports(node, reports)?;
        self.create_evaluations(entry, &names)
    }

    /// Applies a command, whether or not the state admits it. Without memory the value is fit only
    /// to be dropped.
    pub(crate) fn execute(&mut self, command: &Command) -> Result<(), NoMemory>
        requires { self.old.count + 1 < 2 ^ 40 }
        ensures ok { OnOk result (self.new ≡ applied self.old command.now) }
        ensures memory { OnErr result (EffectMayEndOutOfMemory self.old command.now) }
    {
        let entry = self.advance();
        match command {
            Command::Noop => Ok(()),
            Command::JobPut(spec) => self.job_put(entry, spec),
            Command::JobStop(name) => self.job_stop(entry, name),
            Command::NodePut(spec) => self.make_node(spec),
            Command::NodeDown(number) => self.node_down(entry, *number),
            Command::Disconnect(number) => self.disconnect(*number),
            Command::Drain(number, force) => self.drain_node(*number, *force),
            Command::DrainDone(number) => self.drain_done(*number),
            Command::Migrate(ids) => self.migrate(entry, ids.as_slice()),
            Command::EvalPut(name) => self.eval_put(entry, name),
            Command::EvalStatus(id, change) => self.eval_status(*id, change),
            Command::Plan(plan) => self.plan(entry, plan),
            Command::Report(node, reports) => self.report(entry, *node, reports.as_slice()),
        }
    }
}
