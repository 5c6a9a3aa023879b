//! The tables of a report.
ghost use Rattle.std.specs.Prelude.{◌≡◌, IfOk, length};

use crate::grid::{Grid, heads_of, owned};
use rows::NoMemory;
use sim_reports::{
    AllocationReport, BlockedReport, ClientReport, DeliveryReport, EvaluationReport, GroupReport,
    HeartbeatReport, JobReport, NodeReport, PlanReport, ServerReport,
};
use std::alloc::Global;

// A table that has heads alone.
fn headed(alloc: Global, heads: &[&str]) -> Result<Grid, NoMemory> {
    let mut grid = Grid::new(alloc);
    grid.rows.push(heads_of(alloc, heads)?)?;
    Ok(grid)
}

/// What stands in a cell.
#[derive(Clone, Copy)]
pub(crate) enum Cell<'a> {
    Text(&'a str),
    Number(u64),
    // A dash where there is none.
    NumberOrDash(Option<u64>),
    Server(u8),
    // A dash where there is none.
    ServerOrDash(Option<u8>),
    Client(u8),
    YesOrNo(bool),
    // These texts with a space between, or a dash where there is none.
    Spaced(&'a [String]),
}

/// The text of a cell.
pub(crate) fn cell_text(alloc: Global, cell: Cell) -> Result<String, NoMemory> {
    match cell {
        Cell::Text(text) => owned(alloc, text),
        Cell::Number(number) | Cell::NumberOrDash(Some(number)) => {
            Ok(format!(in alloc; "{number}")?)
        }
        Cell::Server(number) | Cell::ServerOrDash(Some(number)) => {
            Ok(format!(in alloc; "S{number}")?)
        }
        Cell::NumberOrDash(None) | Cell::ServerOrDash(None) => owned(alloc, "-"),
        Cell::Client(number) => Ok(format!(in alloc; "c{number}")?),
        Cell::YesOrNo(yes) => owned(alloc, if yes { "yes" } else { "no" }),
        Cell::Spaced(texts) => spaced(alloc, texts),
    }
}

fn spaced(alloc: Global, texts: &[String]) -> Result<String, NoMemory> {
    let mut all = String::new(alloc);
    for text in texts {
        if !all.is_empty() {
            all.push(' ')?;
        }
        all.push_str(text)?;
    }
    if all.is_empty() {
        all.push('-')?;
    }
    Ok(all)
}

/// A row of these cells.
pub(crate) fn row_of_cells(alloc: Global, cells: &[Cell]) -> Result<Vec<String>, NoMemory>
    ensures { IfOk result (λ row. length row.items ≡ length cells.now) }
{
    let mut row = Vec::new(alloc);
    for cell in cells {
        row.push(cell_text(alloc, *cell)?)?;
    }
    Ok(row)
}

/// The servers.
pub(crate) fn servers_table(alloc: Global, servers: &[ServerReport]) -> Result<Grid, NoMemory> {
    let heads = [
        "server", "role", "term", "vote", "last", "covered", "applied",
    ];
    let mut grid = headed(alloc, &heads)?;
    for server in servers {
        grid.rows.push(server_row(alloc, server)?)?;
    }
    Ok(grid)
}

fn server_row(alloc: Global, server: &ServerReport) -> Result<Vec<String>, NoMemory> {
    let cells = [
        Cell::Server(server.server),
        Cell::Text(server.role),
        Cell::Number(server.term),
        Cell::ServerOrDash(server.vote),
        Cell::Number(server.last),
        Cell::Number(server.covered),
        Cell::NumberOrDash(server.applied),
    ];
    row_of_cells(alloc, &cells)
}

/// What a desk gave out.
pub(crate) fn given_table(alloc: Global, given: &[DeliveryReport]) -> Result<Grid, NoMemory> {
    let mut grid = headed(alloc, &["given out", "to", "token", "times", "now"])?;
    for delivery in given {
        let cells = [
            Cell::Text(delivery.evaluation.as_str()),
            Cell::Text(delivery.to.as_str()),
            Cell::Text(delivery.token.as_str()),
            Cell::Number(delivery.times as u64),
            Cell::Text(delivery.now),
        ];
        grid.rows.push(row_of_cells(alloc, &cells)?)?;
    }
    Ok(grid)
}

/// The plans that wait at a desk.
pub(crate) fn plans_table(alloc: Global, plans: &[PlanReport]) -> Result<Grid, NoMemory> {
    let heads = ["plan of", "token", "priority", "from", "stops", "places"];
    let mut grid = headed(alloc, &heads)?;
    for plan in plans {
        grid.rows.push(plan_row(alloc, plan)?)?;
    }
    Ok(grid)
}

fn plan_row(alloc: Global, plan: &PlanReport) -> Result<Vec<String>, NoMemory> {
    let cells = [
        Cell::Text(plan.evaluation.as_str()),
        Cell::Text(plan.token.as_str()),
        Cell::Number(plan.priority as u64),
        Cell::Text(plan.from.as_str()),
        Cell::Number(plan.stops as u64),
        Cell::Number(plan.places as u64),
    ];
    row_of_cells(alloc, &cells)
}

/// The blocked evaluations that a desk keeps.
pub(crate) fn blocked_table(alloc: Global, blocked: &[BlockedReport]) -> Result<Grid, NoMemory> {
    let mut grid = headed(alloc, &["blocked", "since", "due"])?;
    for one in blocked {
        let cells = [
            Cell::Text(one.evaluation.as_str()),
            Cell::Number(one.snapshot),
            Cell::YesOrNo(one.due),
        ];
        grid.rows.push(row_of_cells(alloc, &cells)?)?;
    }
    Ok(grid)
}

/// How often a desk heard of its nodes.
pub(crate) fn beats_table(alloc: Global, beats: &[HeartbeatReport]) -> Result<Grid, NoMemory> {
    let mut grid = headed(alloc, &["node", "beats"])?;
    for one in beats {
        let cells = [Cell::Number(one.node as u64), Cell::Number(one.beats)];
        grid.rows.push(row_of_cells(alloc, &cells)?)?;
    }
    Ok(grid)
}

/// The clients.
pub(crate) fn clients_table(alloc: Global, clients: &[ClientReport]) -> Result<Grid, NoMemory> {
    let mut grid = headed(alloc, &["client", "state", "seen", "running", "started"])?;
    for client in clients {
        grid.rows.push(client_row(alloc, client)?)?;
    }
    Ok(grid)
}

fn client_row(alloc: Global, client: &ClientReport) -> Result<Vec<String>, NoMemory> {
    let cells = [
        Cell::Client(client.client),
        Cell::Text(if client.up { "up" } else { "down" }),
        Cell::NumberOrDash(client.seen),
        Cell::Spaced(client.running.as_slice()),
        Cell::Spaced(client.started.as_slice()),
    ];
    row_of_cells(alloc, &cells)
}

/// The jobs, a row for each group.
pub(crate) fn jobs_table(alloc: Global, jobs: &[JobReport]) -> Result<Grid, NoMemory> {
    let heads = [
        "job", "priority", "version", "state", "group", "count", "class", "cpu", "mem", "disk",
    ];
    let mut grid = headed(alloc, &heads)?;
    for job in jobs {
        add_groups(alloc, &mut grid, job)?;
    }
    Ok(grid)
}

fn add_groups(alloc: Global, grid: &mut Grid, job: &JobReport) -> Result<(), NoMemory> {
    for group in &job.groups {
        grid.rows.push(group_row(alloc, job, group)?)?;
    }
    Ok(())
}

fn group_row<'a>(
    alloc: Global,
    job: &'a JobReport,
    group: &'a GroupReport,
) -> Result<Vec<String>, NoMemory> {
    let cells = [
        Cell::Text(job.job.as_str()),
        Cell::Number(job.priority as u64),
        Cell::Number(job.version),
        Cell::Text(if job.stopped { "stopped" } else { "wanted" }),
        Cell::Text(group.group.as_str()),
        Cell::Number(group.count as u64),
        Cell::Text(group.class.as_str()),
        Cell::Number(group.cpu as u64),
        Cell::Number(group.mem as u64),
        Cell::Number(group.disk as u64),
    ];
    row_of_cells(alloc, &cells)
}

/// The nodes, with what is in use of each.
pub(crate) fn nodes_table(alloc: Global, nodes: &[NodeReport]) -> Result<Grid, NoMemory> {
    let heads = [
        "node",
        "class",
        "status",
        "eligible",
        "drain",
        "cpu used",
        "of",
        "mem used",
        "of",
        "disk used",
        "of",
    ];
    let mut grid = headed(alloc, &heads)?;
    for node in nodes {
        grid.rows.push(node_row(alloc, node)?)?;
    }
    Ok(grid)
}

fn node_row(alloc: Global, node: &NodeReport) -> Result<Vec<String>, NoMemory> {
    let cells = [
        Cell::Number(node.node as u64),
        Cell::Text(node.class.as_str()),
        Cell::Text(node.status),
        Cell::YesOrNo(node.eligible),
        Cell::Text(node.drain),
        Cell::Number(node.cpu_used),
        Cell::Number(node.cpu as u64),
        Cell::Number(node.mem_used),
        Cell::Number(node.mem as u64),
        Cell::Number(node.disk_used),
        Cell::Number(node.disk as u64),
    ];
    row_of_cells(alloc, &cells)
}

/// The evaluations.
pub(crate) fn evaluations_table(
    alloc: Global,
    evaluations: &[EvaluationReport],
) -> Result<Grid, NoMemory> {
    let heads = ["evaluation", "job", "priority", "status", "snapshot"];
    let mut grid = headed(alloc, &heads)?;
    for evaluation in evaluations {
        grid.rows.push(evaluation_row(alloc, evaluation)?)?;
    }
    Ok(grid)
}

fn evaluation_row(alloc: Global, row: &EvaluationReport) -> Result<Vec<String>, NoMemory> {
    let cells = [
        Cell::Text(row.evaluation.as_str()),
        Cell::Text(row.job.as_str()),
        Cell::Number(row.priority as u64),
        Cell::Text(row.status),
        Cell::Number(row.snapshot),
    ];
    row_of_cells(alloc, &cells)
}

/// The allocations.
pub(crate) fn allocations_table(
    alloc: Global,
    allocations: &[AllocationReport],
) -> Result<Grid, NoMemory> {
    let heads = [
        "allocation",
        "name",
        "node",
        "cpu",
        "mem",
        "disk",
        "desired",
        "state",
        "to move",
        "evaluation",
    ];
    let mut grid = headed(alloc, &heads)?;
    for allocation in allocations {
        grid.rows.push(allocation_row(alloc, allocation)?)?;
    }
    Ok(grid)
}

fn allocation_row(alloc: Global, row: &AllocationReport) -> Result<Vec<String>, NoMemory> {
    let cells = [
        Cell::Text(row.allocation.as_str()),
        Cell::Text(row.name.as_str()),
        Cell::Number(row.node as u64),
        Cell::Number(row.cpu as u64),
        Cell::Number(row.mem as u64),
        Cell::Number(row.disk as u64),
        Cell::Text(row.desired),
        Cell::Text(row.state),
        Cell::YesOrNo(row.migrate),
        Cell::Text(row.evaluation.as_str()),
    ];
    row_of_cells(alloc, &cells)
}
