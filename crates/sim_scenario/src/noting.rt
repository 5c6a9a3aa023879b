//! Steps of a scenario that never do anything, and groups that they put and none of its nodes has
//! room for.
ghost use Rattle.std.specs.Prelude.{◌≡◌, ◌++◌, ◌∷◌, [], IfOk, OnOk, if◌then◌else◌, option_map};
ghost use Rattle.std.specs.List.{list_any};
ghost use Rattle.group_inputs.specs.Handings.{handing};
ghost use Rattle.group_inputs.specs.Events.{server_input};
ghost use Rattle.sim_scenario.specs.Inner.Grown.{GrowsByOwed};
ghost use Rattle.sim_scenario.specs.Notes.{AreLineNotes, AreNotes, absence_notes, input_job, needs_note, job_notes, note_of, step_job, step_notes};
ghost use Rattle.sim_scenario.specs.Rooms.{can_hold, is_too_large};
ghost use Rattle.sim_scenario.specs.Steps.{played_step};

use crate::named::{is_absent, names_of, taker_of};
use crate::scenario::Scenario;
use crate::step::{Step, read_step};
use group_inputs::{Event, ServerInput};
use rows::{
    ClassName, ClientId, Group, GroupName, JobName, JobSpec, NoMemory, NodeId, NodeSpec,
    OperatorRequest, ServerId, Size,
};
use std::alloc::Global;
use std::fmt;

/// What is noted of a scenario with which nothing is wrong.
#[derive(Clone, Copy, Debug)]
pub enum Note {
    /// A step never does anything.
    Absent(Absence),
    /// Nothing is placed of a group that a step puts.
    TooLarge(TooLarge),
}

impl fmt::Display for Note {
    ghost use Rattle.std.specs.Prelude.{Some};
    ghost use Rattle.sim_scenario.specs.Notes.{note_text};

    ghost output = { λ n. Some (note_text n) };

    fn fmt<W: fmt::Write>(&self, f: &mut fmt::Formatter<W>) -> fmt::Result {
        match self {
            Note::Absent(absence) => write!(f, "{absence}"),
            Note::TooLarge(group) => write!(f, "{group}"),
        }
    }
}

/// A server, a client or a node that a step names.
#[derive(Clone, Copy, Debug)]
pub enum Named {
    /// A server.
    Server(ServerId),
    /// A client.
    Client(ClientId),
    /// A node.
    Node(NodeId),
}

/// The kind and the number, as `server 1`, `client 64` and `node 64`.
impl fmt::Display for Named {
    ghost use Rattle.std.specs.Prelude.{Some};
    ghost use Rattle.sim_scenario.specs.Named.{named_text};

    ghost output = { λ n. Some (named_text n) };

    fn fmt<W: fmt::Write>(&self, f: &mut fmt::Formatter<W>) -> fmt::Result {
        match self {
            Named::Server(server) => write!(f, "server {server}"),
            Named::Client(client) => write!(f, "client {client}"),
            Named::Node(node) => write!(f, "node {node}"),
        }
    }
}

/// A step that never does anything: it names someone whom the group lacks.
#[derive(Clone, Copy, Debug)]
pub struct Absence {
    /// The step, counted from 1.
    pub step: usize,
    /// Whom it names.
    pub named: Named,
}

impl fmt::Display for Absence {
    ghost use Rattle.std.specs.Prelude.{Some};
    ghost use Rattle.sim_scenario.specs.Notes.{absence_text};

    ghost output = { λ a. Some (absence_text a) };

    fn fmt<W: fmt::Write>(&self, f: &mut fmt::Formatter<W>) -> fmt::Result {
        let (step, named) = (self.step, self.named);
        write!(
            f,
            "note: step {step}: the group has no {named}, so the step never does anything"
        )
    }
}

/// A group that a step puts, and that no node has room for, even with nothing else on it: its
/// evaluation is blocked until such a node registers.
#[derive(Clone, Copy, Debug)]
pub struct TooLarge {
    /// The step, counted from 1.
    pub step: usize,
    /// The job that it puts.
    pub job: JobName,
    /// The job's group.
    pub group: GroupName,
    /// The class of the nodes that it may run on.
    pub class: ClassName,
    /// What one of the group takes.
    pub size: Size,
}

impl fmt::Display for TooLarge {
    ghost use Rattle.std.specs.Prelude.{Some};
    ghost use Rattle.sim_scenario.specs.Notes.{group_text};

    ghost output = { λ n. Some (group_text n) };

    fn fmt<W: fmt::Write>(&self, f: &mut fmt::Formatter<W>) -> fmt::Result {
        let (step, job, group) = (self.step, self.job.as_str(), self.group.as_str());
        let (class, cpu, mem, disk) = (
            self.class.as_str(),
            self.size.cpu.get(),
            self.size.mem.get(),
            self.size.disk.get(),
        );
        write!(
            f,
            "note: step {step}: group {group} of job {job} takes {cpu} MHz, {mem} MB and {disk} MB \
             of disk of class {class}; no node has that, so nothing of it is placed"
        )
    }
}

// Whether a node with nothing else on it has room for one of the group.
fn can_hold(group: &Group, node: &NodeSpec) -> bool
    ensures { result ≡ can_hold group.now node.now }
{
    node.class == group.class
        && group.size.cpu <= node.size.cpu
        && group.size.mem <= node.size.mem
        && group.size.disk <= node.size.disk
}

// Whether some node has room for one of the group.
fn fits_somewhere(nodes: &[NodeSpec], group: &Group) -> bool
    ensures { result ≡ list_any (λ n. can_hold group.now n) nodes.now }
{
    nodes.iter().any(|node| can_hold(group, node))
}

/// Whether no node has room for one of the group.
pub fn is_too_large(nodes: &[NodeSpec], group: &Group) -> bool
    ensures { result ≡ is_too_large nodes.now group.now }
{
    !fits_somewhere(nodes, group)
}

/// What is noted of a scenario: of each of its steps, in order, whom it names and the group lacks,
/// and then the groups of the job that it puts, at least one of each, that no node has room for, in
/// their order.
pub fn notes(alloc: Global, scenario: &Scenario) -> Result<Vec<Note>, NoMemory>
    ensures { IfOk result (λ notes. AreNotes scenario.now notes.items) }
{
    let mut found = Vec::new(alloc);
    // A step's number is at most that of all steps.
    let _steps = scenario.steps.len();
    let mut number = 0usize;
    for line in &scenario.steps {
        number += 1;
        note_line(alloc, number, line.as_str(), scenario, &mut found)?;
    }
    Ok(found)
}

// Notes what is to be noted of the step of a line.
fn note_line(
    alloc: Global,
    number: usize,
    line: &str,
    scenario: &Scenario,
    found: &mut Vec<Note>,
) -> Result<(), NoMemory>
    ensures { OnOk result (GrowsByOwed (AreLineNotes scenario.now number line.now)
        found.old.items found.new.items) }
{
    match read_step(alloc, line)? {
        Some(step) => note_step(number, &step, scenario, found),
        None => Ok(()),
    }
}

// Notes whom a step names and the group lacks, and the groups that it puts.
fn note_step(
    number: usize,
    step: &Step,
    scenario: &Scenario,
    found: &mut Vec<Note>,
) -> Result<(), NoMemory>
    ensures { OnOk result (found.new.items
        ≡ found.old.items ++ step_notes scenario.now number (played_step step.now)) }
{
    note_absence(number, taker_of(step), scenario, found)?;
    note_absence(number, names_of(step), scenario, found)?;
    match job_of_step(step) {
        Some(job) => note_groups(number, job, &scenario.nodes, found),
        None => Ok(()),
    }
}

// Notes the one whom a step names, if the group lacks it.
fn note_absence(
    number: usize,
    named: Option<Named>,
    scenario: &Scenario,
    found: &mut Vec<Note>,
) -> Result<(), NoMemory>
    ensures { OnOk result (found.new.items
        ≡ found.old.items ++ absence_notes scenario.now number named) }
{
    let Some(named) = named else {
        return Ok(());
    };
    if is_absent(scenario, &named) {
        let step = number;
        return put(Note::Absent(Absence { step, named }), found);
    }
    Ok(())
}

// The job that a step puts, if it puts one.
fn job_of_step(step: &Step) -> Option<&JobSpec>
    ensures { option_map (λ job. job.now) result ≡ step_job (played_step step.now) }
{
    match step {
        Step::Event(Event::Server(_, input)) => job_of_input(input.as_ref()),
        _ => None,
    }
}

// The job that an input puts, if it puts one.
fn job_of_input(input: &ServerInput) -> Option<&JobSpec>
    ensures { option_map (λ job. job.now) result ≡ input_job (server_input (handing input.now)) }
{
    match input {
        ServerInput::Request(OperatorRequest::JobPut(job)) => Some(job),
        _ => None,
    }
}

// Notes the groups of a job that a step puts.
fn note_groups(
    step: usize,
    job: &JobSpec,
    nodes: &[NodeSpec],
    found: &mut Vec<Note>,
) -> Result<(), NoMemory>
    ensures { OnOk result (found.new.items
        ≡ found.old.items ++ job_notes nodes.now step job.now) }
{
    let groups = job.groups.as_slice();
    for group in groups {
        note_group(step, job.name, group, nodes, found)?;
    }
    Ok(())
}

// Notes one group of a job that a step puts.
fn note_group(
    step: usize,
    job: JobName,
    group: &Group,
    nodes: &[NodeSpec],
    found: &mut Vec<Note>,
) -> Result<(), NoMemory>
    ensures { OnOk result (found.new.items ≡ found.old.items
        ++ (if needs_note nodes.now group.now then note_of step job group.now ∷ [] else [])) }
{
    if is_noted(nodes, group) {
        return put(note_of(step, job, group), found);
    }
    Ok(())
}

// Puts a note behind the others. It is taken apart since the borrow checker has to be told of the
// types that it is made of.
fn put(note: Note, found: &mut Vec<Note>) -> Result<(), NoMemory>
    ensures { OnOk result (found.new.items ≡ found.old.items ++ note ∷ []) }
{
    match note {
        Note::Absent(Absence { step, named }) => {
            found.push(Note::Absent(Absence { step, named }))?;
        }
        Note::TooLarge(group) => found.push(Note::TooLarge(group))?,
    }
    Ok(())
}

// The note of a group of a job that a step puts.
fn note_of(step: usize, job: JobName, group: &Group) -> Note
    ensures { result ≡ note_of step job group.now }
{
    Note::TooLarge(TooLarge {
        step,
        job,
        group: group.name,
        class: group.class,
        size: group.size,
    })
}

// Whether a group that a step puts is noted.
fn is_noted(nodes: &[NodeSpec], group: &Group) -> bool
    ensures { result ≡ needs_note nodes.now group.now }
{
    group.count.get() > 0 && is_too_large(nodes, group)
}
