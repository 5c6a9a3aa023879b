//! The rows of the four tables as bytes.
ghost use Rattle.std.specs.Prelude.{◌≡◌};
ghost use Rattle.std.specs.Ordering.{nat_cmp};
ghost use Rattle.rows.specs.Versions.{newest};
ghost use Rattle.rows.specs.Rising.{is_behind};
ghost use Rattle.rows.specs.Keys.{name_cmp, eval_cmp, alloc_cmp, job_name, node_number, eval_id, alloc_id};
ghost use Rattle.fields_model.specs.Format.{Gives, GivesExactly, Puts};
ghost use Rattle.fields_model.specs.Rows.{job, job_behind, node, node_behind, node_end, evaluation, evaluation_behind, allocation, allocation_behind, allocation_place, allocation_end};
ghost use Rattle.fields.specs.Inner.RowReading.{job_behind_key, node_behind_key, evaluation_of, allocation_of};
ghost use Rattle.fields_model.proofs.RowLaws.{job_lawful, job_is_ruled, node_lawful, node_is_ruled, evaluation_lawful, evaluation_is_ruled, allocation_lawful, allocation_is_ruled};

use crate::field::Field;
use crate::ruled::RuledField;
use rows::{
    AllocId, Allocation, ClassName, ClientState, Desired, DrainMode, EvalId, EvalStatus,
    Evaluation, GroupName, Groups, Index, Job, JobName, NoMemory, Node, NodeId, NodeStatus,
    Ordinal, Priority, Refusal, Size, Version,
};
use std::alloc::Global;

/// What follows the name.
fn read_job_of(
    version: Version,
    alloc: Global,
    name: JobName,
    bytes: &[u8],
    at: usize,
) -> Result<(Job, usize), Refusal>
    ensures { Gives result (job_behind_key version name bytes.now at) }
{
    let (priority, at) = Priority::read_at(version, alloc, bytes, at)?;
    let (stopped, at) = bool::read_at(version, alloc, bytes, at)?;
    let (job_version, at) = Index::read_at(version, alloc, bytes, at)?;
    let (groups, at) = Groups::read_at(version, alloc, bytes, at)?;
    Ok((
        Job {
            name,
            priority,
            stopped,
            version: job_version,
            groups,
        },
        at,
    ))
}

/// A job's row: its name, priority, whether it was stopped, its version and groups.
impl Field for Job {
    ghost format = { job };

    ghost lawful = { job_lawful };

    fn read_at(
        version: Version,
        alloc: Global,
        bytes: &[u8],
        at: usize,
    ) -> Result<(Job, usize), Refusal> {
        let (name, next) = JobName::read_at(version, alloc, bytes, at)?;
        read_job_of(version, alloc, name, bytes, next)
    }

    fn append(&self, out: &mut Vec<u8>) -> Result<(), NoMemory> {
        self.name.append(out)?;
        self.priority.append(out)?;
        self.stopped.append(out)?;
        self.version.append(out)?;
        self.groups.append(out)
    }
}

/// Whether the name is above that of the last row, if there is one.
fn is_job_above(front: &[Job], name: &JobName) -> bool
    ensures { result ≡ is_behind name_cmp job_name front.now name.now }
{
    match front.last() {
        None => true,
        Some(last) => last.name < *name,
    }
}

/// In a table names rise strictly: one that does not is a fault at the row's first byte.
impl RuledField for Job {
    ghost rule = { λ front j. is_behind name_cmp job_name front j.name };

    ghost behind = { job_behind };

    ghost ruled = { job_is_ruled };

    fn read_behind(
        version: Version,
        alloc: Global,
        bytes: &[u8],
        at: usize,
        front: &[Job],
    ) -> Result<(Job, usize), Refusal> {
        let (name, next) = JobName::read_at(version, alloc, bytes, at)?;
        if is_job_above(front, &name) {
            read_job_of(version, alloc, name, bytes, next)
        } else {
            Err(Refusal::Frame(at))
        }
    }
}

/// What follows the number.
fn read_node_of(
    version: Version,
    alloc: Global,
    number: NodeId,
    bytes: &[u8],
    at: usize,
) -> Result<(Node, usize), Refusal>
    ensures { GivesExactly result (node_behind_key version number bytes.now at) }
{
    let (class, at) = ClassName::read_at(version, alloc, bytes, at)?;
    let (size, at) = Size::read_at(version, alloc, bytes, at)?;
    let (status, at) = NodeStatus::read_at(version, alloc, bytes, at)?;
    let (eligible, at) = bool::read_at(version, alloc, bytes, at)?;
    let (drain, at) = DrainMode::read_at(version, alloc, bytes, at)?;
    let (room, at) = Index::read_at(version, alloc, bytes, at)?;
    Ok((
        Node {
            number,
            class,
            size,
            status,
            eligible,
            drain,
            room,
        },
        at,
    ))
}

/// Whether a node is heard of, whether it is eligible, its drain and its room.
fn append_node_end(node: &Node, out: &mut Vec<u8>) -> Result<(), NoMemory>
    ensures { Puts (node_end newest) (node.now.status, (node.now.eligible, (node.now.drain, node.now.room))) result out.old.items out.new.items }
{
    node.status.append(out)?;
    node.eligible.append(out)?;
    node.drain.append(out)?;
    node.room.append(out)
}

/// A node's row: its number, class, size, status, whether it is eligible, its drain and room.
impl Field for Node {
    ghost format = { node };

    ghost lawful = { node_lawful };

    fn read_at(
        version: Version,
        alloc: Global,
        bytes: &[u8],
        at: usize,
    ) -> Result<(Node, usize), Refusal>
        ensures { GivesExactly result ((node version).read bytes.now at) }
    {
        let (number, next) = NodeId::read_at(version, alloc, bytes, at)?;
        read_node_of(version, alloc, number, bytes, next)
    }

    fn append(&self, out: &mut Vec<u8>) -> Result<(), NoMemory> {
        self.number.append(out)?;
        self.class.append(out)?;
        self.size.append(out)?;
        append_node_end(self, out)
    }
}

/// Whether the number is above that of the last row, if there is one.
fn is_node_above(front: &[Node], number: &NodeId) -> bool
    ensures { result ≡ is_behind nat_cmp node_number front.now number.now }
{
    match front.last() {
        None => true,
        Some(last) => last.number < *number,
    }
}

/// In a table numbers rise strictly: one that does not is a fault at the row's first byte.
impl RuledField for Node {
    ghost rule = { λ front n. is_behind nat_cmp node_number front n.number };

    ghost behind = { node_behind };

    ghost ruled = { node_is_ruled };

    fn read_behind(
        version: Version,
        alloc: Global,
        bytes: &[u8],
        at: usize,
        front: &[Node],
    ) -> Result<(Node, usize), Refusal>
        ensures { GivesExactly result ((node_behind version front.now).read bytes.now at) }
    {
        let (number, next) = NodeId::read_at(version, alloc, bytes, at)?;
        if is_node_above(front, &number) {
            read_node_of(version, alloc, number, bytes, next)
        } else {
            Err(Refusal::Frame(at))
        }
    }
}

/// What follows the id.
fn read_evaluation_of(
    version: Version,
    alloc: Global,
    id: EvalId,
    bytes: &[u8],
    at: usize,
) -> Result<(Evaluation, usize), Refusal>
    ensures { GivesExactly result (evaluation_of id bytes.now at) }
{
    let (job, at) = JobName::read_at(version, alloc, bytes, at)?;
    let (priority, at) = Priority::read_at(version, alloc, bytes, at)?;
    let (status, at) = EvalStatus::read_at(version, alloc, bytes, at)?;
    let (snapshot, at) = Index::read_at(version, alloc, bytes, at)?;
    Ok((
        Evaluation {
            id,
            job,
            priority,
            status,
            snapshot,
        },
        at,
    ))
}

/// An evaluation's row: its id, job, priority, status and snapshot.
impl Field for Evaluation {
    ghost format = { λ _. evaluation };

    ghost lawful = { λ _. evaluation_lawful };

    fn read_at(
        version: Version,
        alloc: Global,
        bytes: &[u8],
        at: usize,
    ) -> Result<(Evaluation, usize), Refusal>
        ensures { GivesExactly result (evaluation.read bytes.now at) }
    {
        let (id, next) = EvalId::read_at(version, alloc, bytes, at)?;
        read_evaluation_of(version, alloc, id, bytes, next)
    }

    fn append(&self, out: &mut Vec<u8>) -> Result<(), NoMemory> {
        self.id.append(out)?;
        self.job.append(out)?;
        self.priority.append(out)?;
        self.status.append(out)?;
        self.snapshot.append(out)
    }
}

/// Whether the id is above that of the last row, if there is one.
fn is_evaluation_above(front: &[Evaluation], id: &EvalId) -> bool
    ensures { result ≡ is_behind eval_cmp eval_id front.now id.now }
{
    match front.last() {
        None => true,
        Some(last) => last.id < *id,
    }
}

/// In a table ids rise strictly: one that does not is a fault at the row's first byte.
impl RuledField for Evaluation {
    ghost rule = { λ front e. is_behind eval_cmp eval_id front e.id };

    ghost behind = { λ _. evaluation_behind };

    ghost ruled = { λ _. evaluation_is_ruled };

    fn read_behind(
        version: Version,
        alloc: Global,
        bytes: &[u8],
        at: usize,
        front: &[Evaluation],
    ) -> Result<(Evaluation, usize), Refusal>
        ensures { GivesExactly result ((evaluation_behind front.now).read bytes.now at) }
    {
        let (id, next) = EvalId::read_at(version, alloc, bytes, at)?;
        if is_evaluation_above(front, &id) {
            read_evaluation_of(version, alloc, id, bytes, next)
        } else {
            Err(Refusal::Frame(at))
        }
    }
}

/// What follows the id.
fn read_allocation_of(
    version: Version,
    alloc: Global,
    id: AllocId,
    bytes: &[u8],
    at: usize,
) -> Result<(Allocation, usize), Refusal>
    ensures { GivesExactly result (allocation_of version id bytes.now at) }
{
    let (job, at) = JobName::read_at(version, alloc, bytes, at)?;
    let (group, at) = GroupName::read_at(version, alloc, bytes, at)?;
    let (index, at) = Ordinal::read_at(version, alloc, bytes, at)?;
    let (node, at) = NodeId::read_at(version, alloc, bytes, at)?;
    let (size, at) = Size::read_at(version, alloc, bytes, at)?;
    let (desired, at) = Desired::read_at(version, alloc, bytes, at)?;
    let (client, at) = ClientState::read_at(version, alloc, bytes, at)?;
    let (migrate, at) = bool::read_at(version, alloc, bytes, at)?;
    let (eval, at) = EvalId::read_at(version, alloc, bytes, at)?;
    Ok((
        Allocation {
            id,
            job,
            group,
            index,
            node,
            size,
            desired,
            client,
            migrate,
            eval,
        },
        at,
    ))
}

/// The group, the index, the node and the size.
fn append_allocation_place(row: &Allocation, out: &mut Vec<u8>) -> Result<(), NoMemory>
    ensures { Puts (allocation_place newest)
        (row.now.group, (row.now.index, (row.now.node, row.now.size))) result
        out.old.items out.new.items }
{
    row.group.append(out)?;
    row.index.append(out)?;
    row.node.append(out)?;
    row.size.append(out)
}

/// What is wanted and known, whether it is to move, and the evaluation.
fn append_allocation_end(row: &Allocation, out: &mut Vec<u8>) -> Result<(), NoMemory>
    ensures { Puts (allocation_end newest) (row.now.desired, (row.now.client, (row.now.migrate, row.now.eval))) result out.old.items out.new.items }
{
    row.desired.append(out)?;
    row.client.append(out)?;
    row.migrate.append(out)?;
    row.eval.append(out)
}

/// An allocation's row: its id, job, group, index, node, size, what is wanted and known of it,
/// whether it is to move, and its evaluation.
impl Field for Allocation {
    ghost format = { allocation };

    ghost lawful = { allocation_lawful };

    fn read_at(
        version: Version,
        alloc: Global,
        bytes: &[u8],
        at: usize,
    ) -> Result<(Allocation, usize), Refusal>
        ensures { GivesExactly result ((allocation version).read bytes.now at) }
    {
        let (id, next) = AllocId::read_at(version, alloc, bytes, at)?;
        read_allocation_of(version, alloc, id, bytes, next)
    }

    fn append(&self, out: &mut Vec<u8>) -> Result<(), NoMemory> {
        self.id.append(out)?;
        self.job.append(out)?;
        append_allocation_place(self, out)?;
        append_allocation_end(self, out)
    }
}

/// Whether the id is above that of the last row, if there is one.
fn is_allocation_above(front: &[Allocation], id: &AllocId) -> bool
    ensures { result ≡ is_behind alloc_cmp alloc_id front.now id.now }
{
    match front.last() {
        None => true,
        Some(last) => last.id < *id,
    }
}

/// In a table ids rise strictly: one that does not is a fault at the row's first byte.
impl RuledField for Allocation {
    ghost rule = { λ front a. is_behind alloc_cmp alloc_id front a.id };

    ghost behind = { allocation_behind };

    ghost ruled = { allocation_is_ruled };

    fn read_behind(
        version: Version,
        alloc: Global,
        bytes: &[u8],
        at: usize,
        front: &[Allocation],
    ) -> Result<(Allocation, usize), Refusal>
        ensures { GivesExactly result ((allocation_behind version front.now).read bytes.now at) }
    {
        let (id, next) = AllocId::read_at(version, alloc, bytes, at)?;
        if is_allocation_above(front, &id) {
            read_allocation_of(version, alloc, id, bytes, next)
        } else {
            Err(Refusal::Frame(at))
        }
    }
}
