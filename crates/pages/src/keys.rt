//! What the rows of the replicated state are found by.
ghost use Rattle.std.specs.Prelude.{◌≡◌, IfOk};

use crate::row::{CopiedRow, Row};
use rows::{AllocId, Allocation, EvalId, Evaluation, Job, JobName, NoMemory, Node, NodeId};
use std::alloc::{AllocError, Global};

/// Jobs by name.
impl Row for Job {
    type Key = JobName;

    ghost key_of = { λ j. j.name };

    fn key(&self) -> &JobName {
        &self.name
    }
}

/// The same job once more.
fn copy_of(job: &Job, alloc: Global) -> Result<Job, NoMemory>
    ensures { IfOk result (λ copy. copy ≡ job.now) }
{
    Ok(Job {
        name: job.name,
        priority: job.priority,
        stopped: job.stopped,
        version: job.version,
        groups: job.groups.try_clone(alloc)?,
    })
}

impl CopiedRow for Job {
    fn append_copies(rows: &[Job], out: &mut Vec<Job>) -> Result<(), AllocError> {
        let alloc = *out.allocator();
        for row in rows {
            match copy_of(row, alloc) {
                Ok(copy) => out.push(copy)?,
                Err(NoMemory) => return Err(AllocError),
            }
        }
        Ok(())
    }
}

/// Nodes by number.
impl Row for Node {
    type Key = NodeId;

    ghost key_of = { λ n. n.number };

    fn key(&self) -> &NodeId {
        &self.number
    }
}

impl CopiedRow for Node {
    fn append_copies(rows: &[Node], out: &mut Vec<Node>) -> Result<(), AllocError> {
        out.extend_from_slice(rows)
    }
}

/// Evaluations by id.
impl Row for Evaluation {
    type Key = EvalId;

    ghost key_of = { λ e. e.id };

    fn key(&self) -> &EvalId {
        &self.id
    }
}

impl CopiedRow for Evaluation {
    fn append_copies(rows: &[Evaluation], out: &mut Vec<Evaluation>) -> Result<(), AllocError> {
        out.extend_from_slice(rows)
    }
}

/// Allocations by id.
impl Row for Allocation {
    type Key = AllocId;

    ghost key_of = { λ a. a.id };

    fn key(&self) -> &AllocId {
        &self.id
    }
}

impl CopiedRow for Allocation {
    fn append_copies(rows: &[Allocation], out: &mut Vec<Allocation>) -> Result<(), AllocError> {
        out.extend_from_slice(rows)
    }
}
