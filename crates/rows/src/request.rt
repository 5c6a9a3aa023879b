ghost use Rattle.std.specs.Prelude.{◌≡◌, IfOk};
ghost use Rattle.rows.specs.Requests.{command_of};

use crate::command::Command;
use crate::job::JobSpec;
use crate::name::JobName;
use crate::node::NodeId;
use crate::refusal::NoMemory;
use std::alloc::Global;

/// What an operator asks of the leader. (Nomad documentation, "jobs HTTP API", "nodes HTTP API".)
#[derive(Drop)]
pub enum OperatorRequest {
    /// The job is put, in place of the one of its name.
    JobPut(JobSpec),
    /// Nothing of the job is to run any more.
    JobStop(JobName),
    /// The job is looked at once more.
    EvalPut(JobName),
    /// The node takes no more, and what runs there moves: all at once where the second says so.
    Drain(NodeId, bool),
}

impl OperatorRequest {
    /// The same request once more.
    pub fn try_clone(&self, alloc: Global) -> Result<OperatorRequest, NoMemory>
        ensures { IfOk result (λ request. request ≡ self.now) }
    {
        Ok(match self {
            OperatorRequest::JobPut(job) => OperatorRequest::JobPut(job.try_clone(alloc)?),
            OperatorRequest::JobStop(name) => OperatorRequest::JobStop(*name),
            OperatorRequest::EvalPut(name) => OperatorRequest::EvalPut(*name),
            OperatorRequest::Drain(node, force) => OperatorRequest::Drain(*node, *force),
        })
    }

    /// The command that is proposed for it.
    pub fn into_command(self) -> Command
        ensures { result ≡ command_of self }
    {
        match self {
            OperatorRequest::JobPut(job) => Command::JobPut(job),
            OperatorRequest::JobStop(name) => Command::JobStop(name),
            OperatorRequest::EvalPut(name) => Command::EvalPut(name),
            OperatorRequest::Drain(node, force) => Command::Drain(node, force),
        }
    }
}
