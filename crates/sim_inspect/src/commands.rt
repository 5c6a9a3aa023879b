//! The commands of a log, in words.
use rows::{
    AcceptedPlan, AllocId, Command, JobSpec, NoMemory, NodeSpec, ReportedState, Reports, RisingIds,
    StatusChange,
};
use sim_labels::{eval_text, status_word};
use sim_report_lines::owned;
use std::alloc::Global;

/// The words of a command.
pub(crate) fn command_text(alloc: Global, command: &Command) -> Result<String, NoMemory> {
    match command {
        Command::Noop => owned(alloc, "no-op"),
        Command::JobPut(job) => job_text(alloc, job),
        Command::JobStop(name) => Ok(format!(in alloc; "stop {name}")?),
        Command::EvalPut(name) => Ok(format!(in alloc; "eval {name}")?),
        Command::NodePut(node) => node_text(alloc, node),
        Command::NodeDown(node) => Ok(format!(in alloc; "node {node} down")?),
        Command::Disconnect(node) => Ok(format!(in alloc; "node {node} disconnected")?),
        Command::Drain(node, true) => Ok(format!(in alloc; "drain {node} force")?),
        Command::Drain(node, false) => Ok(format!(in alloc; "drain {node} slow")?),
        Command::DrainDone(node) => Ok(format!(in alloc; "node {node} drained")?),
        Command::Migrate(ids) => migrate_text(alloc, ids),
        Command::EvalStatus(eval, change) => {
            let eval = eval_text(alloc, eval)?;
            change_text(alloc, &eval, *change)
        }
        Command::Plan(plan) => plan_text(alloc, plan),
        Command::Report(node, reports) => {
            let node = node.number();
            report_text(alloc, node, reports)
        }
    }
}

fn job_text(alloc: Global, job: &JobSpec) -> Result<String, NoMemory> {
    let (name, priority) = (job.name, job.priority.get());
    let mut words = format!(in alloc; "put {name} {priority}")?;
    for group in job.groups.as_slice() {
        let (name, count, class) = (group.name, group.count.get(), group.class);
        let (cpu, mem) = (group.size.cpu.get(), group.size.mem.get());
        let disk = group.size.disk.get();
        write!(words, " {name}:{count}:{class}:{cpu}:{mem}:{disk}")?;
    }
    Ok(words)
}

fn node_text(alloc: Global, node: &NodeSpec) -> Result<String, NoMemory> {
    let (number, class) = (node.number, node.class);
    let (cpu, mem, disk) = (
        node.size.cpu.get(),
        node.size.mem.get(),
        node.size.disk.get(),
    );
    Ok(format!(in alloc; "node {number} {class} {cpu} {mem} {disk}")?)
}

fn push_id(words: &mut String, id: &AllocId) -> Result<(), NoMemory> {
    let (entry, slot) = (id.index.get(), id.slot.get());
    write!(words, " {entry}.{slot}")?;
    Ok(())
}

fn migrate_text(alloc: Global, ids: &RisingIds) -> Result<String, NoMemory> {
    let mut words = owned(alloc, "migrate")?;
    for id in ids.as_slice() {
        push_id(&mut words, id)?;
    }
    Ok(words)
}

fn change_text(alloc: Global, eval: &str, change: StatusChange) -> Result<String, NoMemory> {
    let status = status_word(change.status());
    if let StatusChange::Blocked(snapshot) = change {
        return Ok(format!(in alloc; "eval {eval} {status} at {snapshot}")?);
    }
    Ok(format!(in alloc; "eval {eval} {status}")?)
}

fn plan_text(alloc: Global, plan: &AcceptedPlan) -> Result<String, NoMemory> {
    let eval = eval_text(alloc, &plan.eval)?;
    let job = plan.job;
    let mut words = format!(in alloc; "plan {eval} of {job}")?;
    for place in plan.places.as_slice() {
        let (group, index, node) = (place.group, place.index.get(), place.node);
        write!(words, " {group}[{index}]@{node}")?;
    }
    if !plan.stops.as_slice().is_empty() {
        words.push_str(" stops")?;
    }
    for id in plan.stops.as_slice() {
        push_id(&mut words, id)?;
    }
    Ok(words)
}

fn reported_word(state: ReportedState) -> &'static str {
    match state {
        ReportedState::Running => "running",
        ReportedState::Complete => "complete",
        ReportedState::Failed => "failed",
    }
}

fn report_text(alloc: Global, node: u8, reports: &Reports) -> Result<String, NoMemory> {
    let mut words = format!(in alloc; "report of node {node}")?;
    for report in reports.as_slice() {
        push_id(&mut words, &report.id)?;
        let state = reported_word(report.state);
        write!(words, " {state}")?;
    }
    Ok(words)
}
