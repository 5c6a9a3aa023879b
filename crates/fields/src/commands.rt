//! Commands, and what a worker submits, as bytes.
ghost use Rattle.std.specs.Prelude.{◌≡◌};
ghost use Rattle.rows.specs.Versions.{newest};
ghost use Rattle.fields_model.specs.Format.{Gives, GivesExactly, Puts, number};
ghost use Rattle.fields_model.specs.Commands.{job_spec, node_spec, rising_ids, place, accepted_place, plan, plan_end, accepted_plan, accepted_end, reported_state, report, reports, status_change, command, bodies, later_bodies, tag_of, tags_in};
ghost use Rattle.fields_model.proofs.CommandLaws.{job_spec_lawful, node_spec_lawful, rising_ids_lawful, place_lawful, accepted_place_lawful, plan_lawful, accepted_plan_lawful, reported_state_lawful, report_lawful, reports_lawful, status_change_lawful, command_lawful};

use crate::field::Field;
use crate::list::{append_counted, read_list};
use crate::reading::{read_bool, read_count, read_index, read_u8, read_zero};
use crate::ruled::read_ruled_list;
use crate::writing::write_u8;
use rows::{
    AcceptedPlace, AcceptedPlan, AllocId, Batch, ClassName, Command, EvalId, EvalStatus, GroupName,
    Groups, Index, JobName, JobSpec, NoMemory, NodeId, NodeSpec, Ordinal, Place, Plan, Priority,
    Refusal, Report, ReportedState, Reports, RisingIds, Size, StatusChange, Token, Version,
};
use std::alloc::Global;

/// What is asked of a job: its name, priority and groups.
impl Field for JobSpec {
    ghost format = { job_spec };

    ghost lawful = { job_spec_lawful };

    fn read_at(
        version: Version,
        alloc: Global,
        bytes: &[u8],
        at: usize,
    ) -> Result<(JobSpec, usize), Refusal> {
        let (name, at) = JobName::read_at(version, alloc, bytes, at)?;
        let (priority, at) = Priority::read_at(version, alloc, bytes, at)?;
        let (groups, at) = Groups::read_at(version, alloc, bytes, at)?;
        Ok((
            JobSpec {
                name,
                priority,
                groups,
            },
            at,
        ))
    }

    fn append(&self, out: &mut Vec<u8>) -> Result<(), NoMemory> {
        self.name.append(out)?;
        self.priority.append(out)?;
        self.groups.append(out)
    }
}

/// What a node says of itself: its number, class and size.
impl Field for NodeSpec {
    ghost format = { node_spec };

    ghost lawful = { node_spec_lawful };

    fn read_at(
        version: Version,
        alloc: Global,
        bytes: &[u8],
        at: usize,
    ) -> Result<(NodeSpec, usize), Refusal>
        ensures { GivesExactly result ((node_spec version).read bytes.now at) }
    {
        let (number, at) = NodeId::read_at(version, alloc, bytes, at)?;
        let (class, at) = ClassName::read_at(version, alloc, bytes, at)?;
        let (size, at) = Size::read_at(version, alloc, bytes, at)?;
        Ok((
            NodeSpec {
                number,
                class,
                size,
            },
            at,
        ))
    }

    fn append(&self, out: &mut Vec<u8>) -> Result<(), NoMemory> {
        self.number.append(out)?;
        self.class.append(out)?;
        self.size.append(out)
    }
}

/// A count of one byte, at most 64, and that many items.
impl<F: Field> Field for Batch<F> {
    ghost use Rattle.fields_model.specs.Commands.{batch};
    ghost use Rattle.fields_model.proofs.BatchLaws.{batch_lawful};

    ghost format = { λ version. batch (F.format version) };

    ghost lawful = { λ version. batch_lawful (F.format version) (F.lawful version) };

    fn read_at(
        version: Version,
        alloc: Global,
        bytes: &[u8],
        at: usize,
    ) -> Result<(Batch<F>, usize), Refusal> {
        let (items, next) = read_list(version, alloc, bytes, at, 64)?;
        match Batch::check(items) {
            Ok(batch) => Ok((batch, next)),
            Err(_) => unreachable!(),
        }
    }

    fn append(&self, out: &mut Vec<u8>) -> Result<(), NoMemory> {
        append_counted(self.as_slice(), 64, out)
    }
}

/// A count of one byte, from 1 to 64, and that many ids that rise strictly.
impl Field for RisingIds {
    ghost format = { λ _. rising_ids };

    ghost lawful = { λ _. rising_ids_lawful };

    fn read_at(
        version: Version,
        alloc: Global,
        bytes: &[u8],
        at: usize,
    ) -> Result<(RisingIds, usize), Refusal> {
        let (items, next) = read_ruled_list(version, alloc, bytes, at, 64)?;
        match RisingIds::check(items) {
            Ok(items) => Ok((items, next)),
            Err(_) => Err(Refusal::Frame(at)),
        }
    }

    fn append(&self, out: &mut Vec<u8>) -> Result<(), NoMemory> {
        append_counted(self.as_slice(), 64, out)
    }
}

/// A place of a plan: the group, the index and the node.
impl Field for Place {
    ghost format = { λ _. place };

    ghost lawful = { λ _. place_lawful };

    fn read_at(
        version: Version,
        alloc: Global,
        bytes: &[u8],
        at: usize,
    ) -> Result<(Place, usize), Refusal>
        ensures { GivesExactly result (place.read bytes.now at) }
    {
        let (group, at) = GroupName::read_at(version, alloc, bytes, at)?;
        let (index, at) = Ordinal::read_at(version, alloc, bytes, at)?;
        let (node, at) = NodeId::read_at(version, alloc, bytes, at)?;
        Ok((Place { group, index, node }, at))
    }

    fn append(&self, out: &mut Vec<u8>) -> Result<(), NoMemory> {
        self.group.append(out)?;
        self.index.append(out)?;
        self.node.append(out)
    }
}

/// A place that was accepted: the group, the index, the node and the size.
impl Field for AcceptedPlace {
    ghost format = { accepted_place };

    ghost lawful = { accepted_place_lawful };

    fn read_at(
        version: Version,
        alloc: Global,
        bytes: &[u8],
        at: usize,
    ) -> Result<(AcceptedPlace, usize), Refusal>
        ensures { GivesExactly result ((accepted_place version).read bytes.now at) }
    {
        let (group, at) = GroupName::read_at(version, alloc, bytes, at)?;
        let (index, at) = Ordinal::read_at(version, alloc, bytes, at)?;
        let (node, at) = NodeId::read_at(version, alloc, bytes, at)?;
        let (size, at) = Size::read_at(version, alloc, bytes, at)?;
        Ok((
            AcceptedPlace {
                group,
                index,
                node,
                size,
            },
            at,
        ))
    }

    fn append(&self, out: &mut Vec<u8>) -> Result<(), NoMemory> {
        self.group.append(out)?;
        self.index.append(out)?;
        self.node.append(out)?;
        self.size.append(out)
    }
}

/// The version, the snapshot, the stops and the places.
fn append_plan_end(plan: &Plan, out: &mut Vec<u8>) -> Result<(), NoMemory>
    ensures { Puts plan_end (plan.now.version, (plan.now.snapshot, (plan.now.stops, plan.now.places))) result out.old.items out.new.items }
{
    plan.version.append(out)?;
    plan.snapshot.append(out)?;
    plan.stops.append(out)?;
    plan.places.append(out)
}

/// What a worker submits: evaluation, token, job, version, snapshot, stops and places.
impl Field for Plan {
    ghost format = { λ _. plan };

    ghost lawful = { λ _. plan_lawful };

    fn read_at(
        version: Version,
        alloc: Global,
        bytes: &[u8],
        at: usize,
    ) -> Result<(Plan, usize), Refusal> {
        let (eval, at) = EvalId::read_at(version, alloc, bytes, at)?;
        let (token, at) = Token::read_at(version, alloc, bytes, at)?;
        let (job, at) = JobName::read_at(version, alloc, bytes, at)?;
        let (job_version, at) = Index::read_at(version, alloc, bytes, at)?;
        let (snapshot, at) = Index::read_at(version, alloc, bytes, at)?;
        let (stops, at) = Batch::read_at(version, alloc, bytes, at)?;
        let (places, at) = Batch::read_at(version, alloc, bytes, at)?;
        Ok((
            Plan {
                eval,
                token,
                job,
                version: job_version,
                snapshot,
                stops,
                places,
            },
            at,
        ))
    }

    fn append(&self, out: &mut Vec<u8>) -> Result<(), NoMemory> {
        self.eval.append(out)?;
        self.token.append(out)?;
        self.job.append(out)?;
        append_plan_end(self, out)
    }
}

/// The snapshot, the stops and the places.
fn append_accepted_end(plan: &AcceptedPlan, out: &mut Vec<u8>) -> Result<(), NoMemory>
    ensures { Puts (accepted_end newest) (plan.now.snapshot, (plan.now.stops, plan.now.places))
        result out.old.items out.new.items }
{
    plan.snapshot.append(out)?;
    plan.stops.append(out)?;
    plan.places.append(out)
}

/// What was accepted of a plan: evaluation, token, job, snapshot, stops and places.
impl Field for AcceptedPlan {
    ghost format = { accepted_plan };

    ghost lawful = { accepted_plan_lawful };

    fn read_at(
        version: Version,
        alloc: Global,
        bytes: &[u8],
        at: usize,
    ) -> Result<(AcceptedPlan, usize), Refusal> {
        let (eval, at) = EvalId::read_at(version, alloc, bytes, at)?;
        let (token, at) = Token::read_at(version, alloc, bytes, at)?;
        let (job, at) = JobName::read_at(version, alloc, bytes, at)?;
        let (snapshot, at) = Index::read_at(version, alloc, bytes, at)?;
        let (stops, at) = Batch::read_at(version, alloc, bytes, at)?;
        let (places, at) = Batch::read_at(version, alloc, bytes, at)?;
        Ok((
            AcceptedPlan {
                eval,
                token,
                job,
                snapshot,
                stops,
                places,
            },
            at,
        ))
    }

    fn append(&self, out: &mut Vec<u8>) -> Result<(), NoMemory> {
        self.eval.append(out)?;
        self.token.append(out)?;
        self.job.append(out)?;
        append_accepted_end(self, out)
    }
}

/// One byte: 1 running, 2 complete, 3 failed.
impl Field for ReportedState {
    ghost format = { λ _. reported_state };

    ghost lawful = { λ _. reported_state_lawful };

    fn read_at(
        _version: Version,
        _alloc: Global,
        bytes: &[u8],
        at: usize,
    ) -> Result<(ReportedState, usize), Refusal>
        ensures { GivesExactly result (reported_state.read bytes.now at) }
    {
        match read_u8(bytes, at)? {
            (1, next) => Ok((ReportedState::Running, next)),
            (2, next) => Ok((ReportedState::Complete, next)),
            (3, next) => Ok((ReportedState::Failed, next)),
            _ => Err(Refusal::Frame(at)),
        }
    }

    fn append(&self, out: &mut Vec<u8>) -> Result<(), NoMemory> {
        let code = match self {
            ReportedState::Running => 1,
            ReportedState::Complete => 2,
            ReportedState::Failed => 3,
        };
        write_u8(&code, out)
    }
}

/// An item of a report: the allocation and its state.
impl Field for Report {
    ghost format = { λ _. report };

    ghost lawful = { λ _. report_lawful };

    fn read_at(
        version: Version,
        alloc: Global,
        bytes: &[u8],
        at: usize,
    ) -> Result<(Report, usize), Refusal>
        ensures { GivesExactly result (report.read bytes.now at) }
    {
        let (id, at) = AllocId::read_at(version, alloc, bytes, at)?;
        let (state, at) = ReportedState::read_at(version, alloc, bytes, at)?;
        Ok((Report { id, state }, at))
    }

    fn append(&self, out: &mut Vec<u8>) -> Result<(), NoMemory> {
        self.id.append(out)?;
        self.state.append(out)
    }
}

/// A count of one byte, from 1 to 64, and that many items.
impl Field for Reports {
    ghost format = { λ _. reports };

    ghost lawful = { λ _. reports_lawful };

    fn read_at(
        version: Version,
        alloc: Global,
        bytes: &[u8],
        at: usize,
    ) -> Result<(Reports, usize), Refusal> {
        let (items, next) = read_list(version, alloc, bytes, at, 64)?;
        match Reports::check(items) {
            Ok(items) => Ok((items, next)),
            Err(_) => Err(Refusal::Frame(at)),
        }
    }

    fn append(&self, out: &mut Vec<u8>) -> Result<(), NoMemory> {
        append_counted(self.as_slice(), 64, out)
    }
}

/// The status, and the index of the state at which an evaluation was found blocked, which is 0 for
/// any other.
impl Field for StatusChange {
    ghost format = { λ _. status_change };

    ghost lawful = { λ _. status_change_lawful };

    fn read_at(
        version: Version,
        alloc: Global,
        bytes: &[u8],
        at: usize,
    ) -> Result<(StatusChange, usize), Refusal>
        ensures { GivesExactly result (status_change.read bytes.now at) }
    {
        let (status, at) = EvalStatus::read_at(version, alloc, bytes, at)?;
        let change = match status {
            EvalStatus::Blocked => {
                let (snapshot, next) = read_index(bytes, at)?;
                return Ok((StatusChange::Blocked(snapshot), next));
            }
            EvalStatus::Pending => StatusChange::Pending,
            EvalStatus::Complete => StatusChange::Complete,
            EvalStatus::Failed => StatusChange::Failed,
        };
        let (_, next) = read_zero(bytes, at)?;
        Ok((change, next))
    }

    fn append(&self, out: &mut Vec<u8>) -> Result<(), NoMemory> {
        self.status().append(out)?;
        self.snapshot_index().append(out)
    }
}

/// The tag of a command, from 0 to 12.
fn tag(command: &Command) -> u8
    ensures { result ≡ tag_of command.now }
{
    match command {
        Command::Noop => 0,
        Command::JobPut(_) => 1,
        Command::JobStop(_) => 2,
        Command::NodePut(_) => 3,
        Command::NodeDown(_) => 4,
        Command::Drain(_, _) => 5,
        Command::DrainDone(_) => 6,
        Command::Migrate(_) => 7,
        Command::EvalPut(_) => 8,
        Command::EvalStatus(_, _) => 9,
        Command::Plan(_) => 10,
        Command::Report(_, _) => 11,
        Command::Disconnect(_) => 12,
    }
}

/// The tag of a command, of those that there are in a version. `Frame` names it where it is cut or
/// none of them.
fn read_tag(version: Version, bytes: &[u8], at: usize) -> Result<(usize, usize), Refusal>
    ensures { GivesExactly result ((number 1 0 (tags_in version)).read bytes.now at) }
{
    if version.number() >= 3 {
        read_count(bytes, at, 12)
    } else {
        read_count(bytes, at, 11)
    }
}

/// What follows a tag.
fn read_body(
    version: Version,
    alloc: Global,
    tag: usize,
    bytes: &[u8],
    at: usize,
) -> Result<(Command, usize), Refusal>
    ensures { Gives result ((bodies version tag).read bytes.now at) }
{
    match tag {
        0 => Ok((Command::Noop, at)),
        1 => {
            let (job, at) = JobSpec::read_at(version, alloc, bytes, at)?;
            Ok((Command::JobPut(job), at))
        }
        2 => {
            let (name, at) = JobName::read_at(version, alloc, bytes, at)?;
            Ok((Command::JobStop(name), at))
        }
        3 => {
            let (node, at) = NodeSpec::read_at(version, alloc, bytes, at)?;
            Ok((Command::NodePut(node), at))
        }
        4 => {
            let (node, at) = NodeId::read_at(version, alloc, bytes, at)?;
            Ok((Command::NodeDown(node), at))
        }
        5 => {
            let (node, at) = NodeId::read_at(version, alloc, bytes, at)?;
            let (force, at) = read_bool(bytes, at)?;
            Ok((Command::Drain(node, force), at))
        }
        6 => {
            let (node, at) = NodeId::read_at(version, alloc, bytes, at)?;
            Ok((Command::DrainDone(node), at))
        }
        _ => read_later_body(version, alloc, tag, bytes, at),
    }
}

/// What follows a tag from 7 on.
fn read_later_body(
    version: Version,
    alloc: Global,
    tag: usize,
    bytes: &[u8],
    at: usize,
) -> Result<(Command, usize), Refusal>
    ensures { Gives result ((later_bodies version tag).read bytes.now at) }
{
    match tag {
        7 => {
            let (ids, at) = RisingIds::read_at(version, alloc, bytes, at)?;
            Ok((Command::Migrate(ids), at))
        }
        8 => {
            let (name, at) = JobName::read_at(version, alloc, bytes, at)?;
            Ok((Command::EvalPut(name), at))
        }
        9 => {
            let (eval, at) = EvalId::read_at(version, alloc, bytes, at)?;
            let (change, at) = StatusChange::read_at(version, alloc, bytes, at)?;
            Ok((Command::EvalStatus(eval, change), at))
        }
        10 => {
            let (plan, at) = AcceptedPlan::read_at(version, alloc, bytes, at)?;
            Ok((Command::Plan(plan), at))
        }
        11 => {
            let (node, at) = NodeId::read_at(version, alloc, bytes, at)?;
            let (items, at) = Reports::read_at(version, alloc, bytes, at)?;
            Ok((Command::Report(node, items), at))
        }
        12 => {
            let (node, at) = NodeId::read_at(version, alloc, bytes, at)?;
            Ok((Command::Disconnect(node), at))
        }
        _ => Err(Refusal::Frame(at)),
    }
}

/// Puts what follows the tag to the end.
fn append_body(command: &Command, out: &mut Vec<u8>) -> Result<(), NoMemory>
    ensures { Puts (bodies newest (tag_of command.now)) command.now result
        out.old.items out.new.items }
{
    match command {
        Command::Noop => Ok(()),
        Command::JobPut(job) => job.append(out),
        Command::JobStop(name) => name.append(out),
        Command::NodePut(node) => node.append(out),
        Command::NodeDown(node) => node.append(out),
        Command::Disconnect(node) => node.append(out),
        Command::Drain(node, force) => {
            node.append(out)?;
            force.append(out)
        }
        Command::DrainDone(node) => node.append(out),
        Command::Migrate(ids) => ids.append(out),
        Command::EvalPut(name) => name.append(out),
        Command::EvalStatus(eval, change) => {
            eval.append(out)?;
            change.append(out)
        }
        Command::Plan(plan) => plan.append(out),
        Command::Report(node, items) => {
            node.append(out)?;
            items.append(out)
        }
    }
}

/// A tag in one byte, from 0 to 11, and from version 3 on to 12, and then what it says.
impl Field for Command {
    ghost format = { command };

    ghost lawful = { command_lawful };

    fn read_at(
        version: Version,
        alloc: Global,
        bytes: &[u8],
        at: usize,
    ) -> Result<(Command, usize), Refusal> {
        let (tag, next) = read_tag(version, bytes, at)?;
        read_body(version, alloc, tag, bytes, next)
    }

    fn append(&self, out: &mut Vec<u8>) -> Result<(), NoMemory> {
        write_u8(&tag(self), out)?;
        append_body(self, out)
    }
}
