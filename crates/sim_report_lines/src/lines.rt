//! A report as lines of text.
ghost use Rattle.std.specs.Prelude.{◌≡◌, ◌<◌, ◌≤◌, IfOk, OnOk, length, string_bytes};
ghost use Rattle.sim_report_lines.specs.Heads.{head_line};

use crate::entries::entries_table;
use crate::grid::{Grid, owned};
use crate::tables::{
    allocations_table, beats_table, blocked_table, clients_table, evaluations_table, given_table,
    jobs_table, nodes_table, plans_table, servers_table,
};
use rows::NoMemory;
use sim_reports::{
    ClientReport, DeskReport, EvaluationReport, NodesReport, PlacementReport, Report, ServerReport,
    StateReport,
};
use std::alloc::Global;

/// The lines of a report: one that says after how many events, and behind an empty line each a table
/// of the servers, of their entries, of each desk, of the clients and of each state.
pub fn report_lines(alloc: Global, report: &Report) -> Result<Vec<String>, NoMemory>
    ensures { IfOk result (λ lines. 0 < length lines.items) }
{
    let mut lines = Vec::new(alloc);
    lines.push(head_line(alloc, report.after, report.events, report.messages)?)?;
    put_table(alloc, &mut lines, servers_table(alloc, &report.servers))?;
    put_table(alloc, &mut lines, entries_table(alloc, &report.servers))?;
    for desk in &report.desks {
        put_desk(alloc, &mut lines, desk)?;
    }
    put_table(alloc, &mut lines, clients_table(alloc, &report.clients))?;
    for state in &report.states {
        put_state(alloc, &mut lines, state)?;
    }
    Ok(lines)
}

/// The first line of a report: after how many of how many events it is, and how many messages were
/// sent.
pub(crate) fn head_line(
    alloc: Global,
    after: usize,
    events: usize,
    messages: usize,
) -> Result<String, NoMemory>
    ensures { IfOk result (λ line. string_bytes line ≡ head_line after events messages) }
{
    Ok(format!(in alloc; "after {after} of {events} events, {messages} messages sent")?)
}

/// The lines of a report's servers.
pub(crate) fn server_lines(
    alloc: Global,
    servers: &[ServerReport],
) -> Result<Vec<String>, NoMemory> {
    let mut lines = Vec::new(alloc);
    put_table(alloc, &mut lines, servers_table(alloc, servers))?;
    Ok(lines)
}

/// The lines of a report's desks.
pub(crate) fn desk_lines(alloc: Global, desks: &[DeskReport]) -> Result<Vec<String>, NoMemory> {
    let mut lines = Vec::new(alloc);
    for desk in desks {
        put_desk(alloc, &mut lines, desk)?;
    }
    Ok(lines)
}

/// The lines of a report's clients.
pub(crate) fn client_lines(
    alloc: Global,
    clients: &[ClientReport],
) -> Result<Vec<String>, NoMemory> {
    let mut lines = Vec::new(alloc);
    put_table(alloc, &mut lines, clients_table(alloc, clients))?;
    Ok(lines)
}

/// The lines of a state.
pub(crate) fn state_lines(alloc: Global, state: &StateReport) -> Result<Vec<String>, NoMemory> {
    let mut lines = Vec::new(alloc);
    put_state(alloc, &mut lines, state)?;
    Ok(lines)
}

// An empty line, and then the lines of a table, if there was memory and it has more than its heads.
fn put_table(
    alloc: Global,
    lines: &mut Vec<String>,
    made: Result<Grid, NoMemory>,
) -> Result<(), NoMemory>
    ensures { OnOk result (length lines.old.items ≤ length lines.new.items) }
{
    let table = made?;
    if table.rows.len() < 2 {
        return Ok(());
    }
    lines.push(String::new(alloc))?;
    for line in table.lines(alloc)? {
        lines.push(line)?;
    }
    Ok(())
}

fn put_desk(alloc: Global, lines: &mut Vec<String>, desk: &DeskReport) -> Result<(), NoMemory>
    ensures { OnOk result (length lines.old.items ≤ length lines.new.items) }
{
    let (server, term) = (desk.server, desk.term);
    let state = if desk.open { "open" } else { "not open yet" };
    lines.push(String::new(alloc))?;
    lines.push(format!(in alloc; "desk of S{server} in term {term}: {state}")?)?;
    put_table(alloc, lines, given_table(alloc, &desk.given_out))?;
    put_table(alloc, lines, plans_table(alloc, &desk.plans))?;
    put_table(alloc, lines, blocked_table(alloc, &desk.blocked))?;
    put_table(alloc, lines, beats_table(alloc, &desk.beats))
}

fn put_state(alloc: Global, lines: &mut Vec<String>, state: &StateReport) -> Result<(), NoMemory>
    ensures { OnOk result (length lines.old.items ≤ length lines.new.items) }
{
    lines.push(String::new(alloc))?;
    lines.push(state_head(alloc, state.applied, &state.servers)?)?;
    put_table(alloc, lines, jobs_table(alloc, &state.jobs))?;
    put_table(alloc, lines, nodes_table(alloc, &state.nodes))?;
    put_table(alloc, lines, evaluations_table(alloc, &state.evaluations))?;
    put_placements(alloc, lines, &state.evaluations)?;
    put_table(alloc, lines, allocations_table(alloc, &state.allocations))
}

/// The head of a state: after how many entries it is, and which servers have applied it.
pub(crate) fn state_head(alloc: Global, applied: u64, servers: &[u8]) -> Result<String, NoMemory> {
    let mut head = format!(in alloc; "state after {applied} entries, at")?;
    for server in servers {
        write!(head, " S{server}")?;
    }
    Ok(head)
}

// Of each evaluation that is pending or blocked, a line for each group of its job.
fn put_placements(
    alloc: Global,
    lines: &mut Vec<String>,
    evaluations: &[EvaluationReport],
) -> Result<(), NoMemory>
    ensures { OnOk result (length lines.old.items ≤ length lines.new.items) }
{
    let mut first = true;
    for evaluation in evaluations {
        for group in &evaluation.groups {
            if first {
                lines.push(String::new(alloc))?;
                first = false;
            }
            lines.push(placement_line(alloc, evaluation, group)?)?;
        }
    }
    Ok(())
}

// What a worker would find for a group, and how many nodes there are for which reason.
fn placement_line(
    alloc: Global,
    evaluation: &EvaluationReport,
    group: &PlacementReport,
) -> Result<String, NoMemory> {
    let mut line = owned(alloc, &evaluation.evaluation)?;
    let (status, job, name) = (
        evaluation.status,
        evaluation.job.as_str(),
        group.group.as_str(),
    );
    write!(line, " {status}: group {name} of {job}: ")?;
    push_finding(&mut line, group)?;
    push_reasons(&mut line, &group.nodes)?;
    Ok(line)
}

fn push_finding(line: &mut String, group: &PlacementReport) -> Result<(), NoMemory> {
    let (missing, placed) = (group.missing, group.placed);
    if missing == 0 {
        line.push_str("none missing, nodes:")?;
        return Ok(());
    }
    if group.fits_on_none {
        write!(line, "{missing} missing, fits on none, nodes:")?;
        return Ok(());
    }
    write!(line, "{missing} missing, a plan places {placed}, nodes:")?;
    Ok(())
}

// The counts that are not 0.
fn push_reasons(line: &mut String, nodes: &NodesReport) -> Result<(), NoMemory> {
    let mut any = false;
    push_count(line, &mut any, nodes.other_class, "of another class")?;
    push_count(line, &mut any, nodes.not_ready, "not ready")?;
    push_count(line, &mut any, nodes.not_eligible, "drained")?;
    push_count(line, &mut any, nodes.lack_cpu, "short of cpu")?;
    push_count(line, &mut any, nodes.lack_memory, "short of memory")?;
    push_count(line, &mut any, nodes.lack_disk, "short of disk")?;
    push_count(line, &mut any, nodes.have_room, "with room")?;
    if !any {
        line.push_str(" none is registered")?;
    }
    Ok(())
}

fn push_count(line: &mut String, any: &mut bool, count: usize, what: &str) -> Result<(), NoMemory> {
    if count == 0 {
        return Ok(());
    }
    if *any {
        line.push(',')?;
    }
    *any = true;
    write!(line, " {count} {what}")?;
    Ok(())
}
