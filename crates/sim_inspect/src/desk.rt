//! The desk of a server that leads.
ghost use Rattle.std.specs.Prelude.{◌≡◌};
ghost use Rattle.std.specs.List.{list_any};
ghost use Rattle.fsm_model.specs.Words.{same_eval};
ghost use Rattle.group_model.specs.Brokers.{task_of};
ghost use Rattle.sim_inspect.specs.Inner.Deliveries.{delivery_word};

use crate::deliveries::{Deliveries, Sent, last_of};
use eval_broker::Broker;
use fsm_state::Cluster;
use leader::Desk;
use plan_queue::QueuedPlan;
use raft_core::Role;
use rows::{EvalId, EvalStatus, Evaluation, NoMemory};
use server::Server;
use sim_labels::{eval_text, token_text};
use sim_reports::{BlockedReport, DeliveryReport, DeskReport, HeartbeatReport, PlanReport};
use std::alloc::Global;

/// The desk of a server, if that leads.
pub(crate) fn desk_report(
    alloc: Global,
    server: &Server,
    sent: &Deliveries,
) -> Result<Option<DeskReport>, NoMemory> {
    let (Some(Role::Leader), Some(state)) = (server.role(), server.state()) else {
        return Ok(None);
    };
    let desk = server.desk();
    Ok(Some(DeskReport {
        server: server.me().number(),
        term: server.term().get(),
        open: desk.is_open(),
        given_out: given_out(alloc, server, state, sent)?,
        plans: plans(alloc, desk)?,
        blocked: blocked(alloc, desk, state)?,
        beats: beats(alloc, desk, state)?,
    }))
}

// The pending evaluations of a state that the server's desk gave out.
fn given_out(
    alloc: Global,
    server: &Server,
    state: &Cluster,
    sent: &Deliveries,
) -> Result<Vec<DeliveryReport>, NoMemory> {
    let mut reports = Vec::new(alloc);
    let Some(broker) = server.desk().broker() else {
        return Ok(reports);
    };
    let sent = sent.of_server(alloc, server)?;
    for row in state.eval_table().rows() {
        if let Some(report) = delivery(alloc, row.id, broker, &sent)? {
            reports.push(report)?;
        }
    }
    Ok(reports)
}

// The last delivery of an evaluation, if the broker gave it out.
fn delivery(
    alloc: Global,
    eval: EvalId,
    broker: &Broker,
    sent: &[Sent],
) -> Result<Option<DeliveryReport>, NoMemory> {
    let times = broker.deliveries(eval).unwrap_or(0);
    if times == 0 {
        return Ok(None);
    }
    let Some(last) = last_of(eval, sent) else {
        return Ok(None);
    };
    let to = last.to;
    Ok(Some(DeliveryReport {
        evaluation: eval_text(alloc, &eval)?,
        token: token_text(alloc, &last.delivery.token)?,
        to: format!(in alloc; "S{to}")?,
        times,
        now: now(broker, &eval, times),
    }))
}

// What became of an evaluation that was given out so often.
fn now(broker: &Broker, eval: &EvalId, times: u8) -> &'static str
    ensures { result.now ≡ delivery_word (task_of eval.now broker.now.tasks) times }
{
    if broker.is_acked(*eval) {
        return "done";
    }
    match broker.outstanding(*eval) {
        Some(_) => "out",
        None => { if times >= 3 { "failed" } else { "back" } }
    }
}

fn plans(alloc: Global, desk: &Desk) -> Result<Vec<PlanReport>, NoMemory> {
    let mut reports = Vec::new(alloc);
    let Some(queue) = desk.plans() else {
        return Ok(reports);
    };
    for queued in queue.plans() {
        reports.push(plan(alloc, queued)?)?;
    }
    Ok(reports)
}

fn plan(alloc: Global, queued: &QueuedPlan) -> Result<PlanReport, NoMemory> {
    let from = queued.from.number();
    Ok(PlanReport {
        evaluation: eval_text(alloc, &queued.plan.eval)?,
        token: token_text(alloc, &queued.plan.token)?,
        priority: queued.priority.get(),
        from: format!(in alloc; "S{from}")?,
        stops: queued.plan.stops.as_slice().len(),
        places: queued.plan.places.as_slice().len(),
    })
}

// The blocked evaluations of a state, with which the desk goes on.
fn blocked(alloc: Global, desk: &Desk, state: &Cluster) -> Result<Vec<BlockedReport>, NoMemory> {
    let mut reports = Vec::new(alloc);
    let Some(blocked) = desk.blocked() else {
        return Ok(reports);
    };
    let due = blocked.due(alloc)?;
    for row in state.eval_table().rows() {
        if row.status == EvalStatus::Blocked {
            reports.push(blocked_one(alloc, row, due.as_slice())?)?;
        }
    }
    Ok(reports)
}

fn blocked_one(alloc: Global, row: &Evaluation, due: &[EvalId]) -> Result<BlockedReport, NoMemory> {
    Ok(BlockedReport {
        evaluation: eval_text(alloc, &row.id)?,
        snapshot: row.snapshot.get(),
        due: is_among(row.id, due),
    })
}

fn is_among(eval: EvalId, ids: &[EvalId]) -> bool
    ensures { result ≡ list_any (λ id. same_eval id eval) ids.now }
{
    ids.iter().any(|id| *id == eval)
}

// How often the desk heard of each node of a state that is not down.
fn beats(alloc: Global, desk: &Desk, state: &Cluster) -> Result<Vec<HeartbeatReport>, NoMemory> {
    let mut reports = Vec::new(alloc);
    let Some(expiry) = desk.expiry() else {
        return Ok(reports);
    };
    for row in state.node_table().rows() {
        if let Some(beats) = expiry.beats(row.number) {
            let (node, beats) = (row.number.number(), beats.get());
            reports.push(HeartbeatReport { node, beats })?;
        }
    }
    Ok(reports)
}
