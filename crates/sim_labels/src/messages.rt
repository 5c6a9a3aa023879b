//! What stands beside an arrow: the kind of the message, and what matters in it.
ghost use Rattle.std.specs.Prelude.{◌≡◌, IfOk, string_bytes};
ghost use Rattle.sim_labels.specs.Labels.{eval_label, plan_label, finish_label, vote_label, append_label, reply_label, request_label, delivery_label, response_label, reports_label, told_number, body_label, frame_label, outcome_label};

use fsm_state::Cluster;
use rows::{
    Delivery, EvalId, EvalOutcome, NoMemory, Plan, Reason, Refusal, Reports, WorkerRequest,
    WorkerResponse,
};
use std::alloc::Global;
use wire::{Append, AppendReply, Body, VoteReply, read_message};

/// The label of a frame.
pub fn message_label(alloc: Global, frame: &[u8]) -> Result<String, NoMemory>
    ensures { IfOk result (λ label. string_bytes label ≡ frame_label frame.now) }
{
    match read_message::<Cluster>(alloc, frame) {
        Ok(message) => body_label(alloc, message.body()),
        Err(refusal) if refusal == Refusal::NoMemory => Err(NoMemory),
        Err(_) => plain(alloc, "no message"),
    }
}

/// A text as a label.
pub(crate) fn plain(alloc: Global, text: &str) -> Result<String, NoMemory>
    ensures { IfOk result (λ label. string_bytes label ≡ text.now) }
{
    Ok(String::from_str(alloc, text)?)
}

fn body_label(alloc: Global, body: &Body<Cluster>) -> Result<String, NoMemory>
    ensures { IfOk result (λ label. string_bytes label ≡ body_label body.now) }
{
    match body {
        Body::VoteRequest(request) => Ok(format!(in alloc; "VoteRequest t{}", request.term)?),
        Body::VoteReply(reply) => vote_label(alloc, reply),
        Body::Append(append) => append_label(alloc, append),
        Body::AppendReply(reply) => reply_label(alloc, reply),
        Body::Install(install) => {
            let head = install.head();
            let (term, place) = (head.term, head.index);
            Ok(format!(in alloc; "Install t{term} @{place}")?)
        }
        Body::InstallReply(reply) => Ok(format!(in alloc; "InstallReply @{}", reply.at)?),
        Body::Request(request) => request_label(alloc, request),
        Body::Response(response) => response_label(alloc, response),
        Body::Register(_, _) => plain(alloc, "Register"),
        Body::Heartbeat => plain(alloc, "Heartbeat"),
        Body::Pull => plain(alloc, "Pull"),
        Body::List(index, rows) => {
            let count = rows.as_slice().len();
            Ok(format!(in alloc; "List @{index} {count}")?)
        }
        Body::Report(reports) => reports_label(alloc, reports),
        Body::Told(_, reason) => {
            let number = told_number(reason);
            Ok(format!(in alloc; "Told {number}")?)
        }
    }
}

fn vote_label(alloc: Global, reply: &VoteReply) -> Result<String, NoMemory>
    ensures { IfOk result (λ label. string_bytes label ≡ vote_label reply.now) }
{
    if reply.granted {
        return Ok(format!(in alloc; "VoteReply yes t{}", reply.term)?);
    }
    Ok(format!(in alloc; "VoteReply no t{}", reply.term)?)
}

fn append_label(alloc: Global, append: &Append<Cluster>) -> Result<String, NoMemory>
    ensures { IfOk result (λ label. string_bytes label ≡ append_label append.now) }
{
    let head = append.head();
    let (term, place) = (head.term, head.prev_index);
    let count = append.entries().len();
    Ok(format!(in alloc; "Append t{term} @{place} +{count}")?)
}

fn reply_label(alloc: Global, reply: &AppendReply) -> Result<String, NoMemory>
    ensures { IfOk result (λ label. string_bytes label ≡ reply_label reply.now) }
{
    if reply.ok {
        return Ok(format!(in alloc; "AppendReply ok @{}", reply.at)?);
    }
    Ok(format!(in alloc; "AppendReply no @{}", reply.at)?)
}

fn request_label(alloc: Global, request: &WorkerRequest) -> Result<String, NoMemory>
    ensures { IfOk result (λ label. string_bytes label ≡ request_label request.now) }
{
    match request {
        WorkerRequest::Take => plain(alloc, "Take"),
        WorkerRequest::Submit(plan) => plan_label(alloc, "Submit", plan),
        WorkerRequest::Finish(eval, _, outcome) => finish_label(alloc, "Finish", eval, outcome),
        WorkerRequest::Nack(eval, _) => eval_label(alloc, "Nack", eval),
    }
}

fn response_label(alloc: Global, response: &WorkerResponse) -> Result<String, NoMemory>
    ensures { IfOk result (λ label. string_bytes label ≡ response_label response.now) }
{
    match response {
        WorkerResponse::Delivered(delivery) => delivery_label(alloc, delivery),
        WorkerResponse::PlanResult(result) => {
            let placed = result.placed.get();
            Ok(format!(in alloc; "PlanResult {placed} placed")?)
        }
        WorkerResponse::Refused(_, reason) => {
            let number = reason.number();
            Ok(format!(in alloc; "Refused {number}")?)
        }
    }
}

fn delivery_label(alloc: Global, delivery: &Option<Delivery>) -> Result<String, NoMemory>
    ensures { IfOk result (λ label. string_bytes label ≡ delivery_label delivery.now) }
{
    match delivery {
        Some(delivery) => eval_label(alloc, "Delivered", &delivery.eval),
        None => plain(alloc, "Delivered none"),
    }
}

/// A word and an evaluation.
pub(crate) fn eval_label(alloc: Global, word: &str, eval: &EvalId) -> Result<String, NoMemory>
    ensures { IfOk result (λ label. string_bytes label ≡ eval_label word.now eval.now) }
{
    let (entry, slot) = (eval.index.get(), eval.slot);
    Ok(format!(in alloc; "{word} {entry}.{slot}")?)
}

/// A word, a plan's evaluation, and how many allocations it is to make and to stop.
pub(crate) fn plan_label(alloc: Global, word: &str, plan: &Plan) -> Result<String, NoMemory>
    ensures { IfOk result (λ label. string_bytes label ≡ plan_label word.now plan.now) }
{
    let front = eval_label(alloc, word, &plan.eval)?;
    let places = plan.places.as_slice().len();
    let stops = plan.stops.as_slice().len();
    if stops == 0 {
        return Ok(format!(in alloc; "{front} +{places}")?);
    }
    Ok(format!(in alloc; "{front} +{places} -{stops}")?)
}

/// A word, an evaluation, and what was made of it.
pub(crate) fn finish_label(
    alloc: Global,
    word: &str,
    eval: &EvalId,
    outcome: &EvalOutcome,
) -> Result<String, NoMemory>
    ensures { IfOk result (λ label.
        string_bytes label ≡ finish_label word.now eval.now outcome.now) }
{
    let front = eval_label(alloc, word, eval)?;
    let end = outcome_label(outcome);
    Ok(format!(in alloc; "{front} {end}")?)
}

fn outcome_label(outcome: &EvalOutcome) -> &'static str
    ensures { result.now ≡ outcome_label outcome.now }
{
    match outcome {
        EvalOutcome::Blocked(_) => "blocked",
        EvalOutcome::Complete => "complete",
        EvalOutcome::Failed => "failed",
    }
}

// The first allocation of a report, and how many more there are.
fn reports_label(alloc: Global, reports: &Reports) -> Result<String, NoMemory>
    ensures { IfOk result (λ label. string_bytes label ≡ reports_label reports.now) }
{
    let items = reports.as_slice();
    let Some(first) = items.first() else {
        return plain(alloc, "Report");
    };
    let (entry, slot) = (first.id.index.get(), first.id.slot.get());
    let more = items.len().saturating_sub(1);
    if more == 0 {
        return Ok(format!(in alloc; "Report {entry}.{slot}")?);
    }
    Ok(format!(in alloc; "Report {entry}.{slot} +{more}")?)
}

// The number of a refusal that an agent is told, or 0.
fn told_number(reason: &Option<Reason>) -> u8
    ensures { result ≡ told_number reason.now }
{
    match reason {
        Some(reason) => reason.number(),
        None => 0,
    }
}
