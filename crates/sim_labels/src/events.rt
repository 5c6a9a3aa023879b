//! What stands beside an actor that takes an input of its own, in the words of a transcript.
ghost use Rattle.std.specs.Prelude.{◌≡◌, IfOk, string_bytes};
ghost use Rattle.sim_labels.specs.Labels.{to_label, end_label, operator_label, server_input_label, client_input_label, event_label, named_label};

use crate::messages::{eval_label, finish_label, plain, plan_label};
use group_inputs::{ClientInput, Event, ServerInput};
use rows::{AllocId, NoMemory, OperatorRequest, ServerId};
use std::alloc::Global;

/// The label of an event that is no delivery; a delivery has none here.
pub fn event_label(alloc: Global, event: &Event) -> Result<String, NoMemory>
    ensures { IfOk result (λ label. string_bytes label ≡ event_label event.now) }
{
    match event {
        Event::Deliver(_) => plain(alloc, ""),
        Event::Server(_, input) => server_label(alloc, input.as_ref()),
        Event::Client(_, input) => client_label(alloc, input.as_ref()),
    }
}

/// The same, with the name of the actor before it, as on its lifeline.
pub fn named_label(alloc: Global, event: &Event) -> Result<String, NoMemory>
    ensures { IfOk result (λ label. string_bytes label ≡ named_label event.now) }
{
    let input = event_label(alloc, event)?;
    match event {
        Event::Deliver(_) => Ok(input),
        Event::Server(server, _) => Ok(format!(in alloc; "S{server} {input}")?),
        Event::Client(client, _) => Ok(format!(in alloc; "c{client} {input}")?),
    }
}

fn server_label(alloc: Global, input: &ServerInput) -> Result<String, NoMemory>
    ensures { IfOk result (λ label. string_bytes label ≡ server_input_label input.now) }
{
    match input {
        ServerInput::Frame(_) => plain(alloc, "frame"),
        ServerInput::Timeout => plain(alloc, "timeout"),
        ServerInput::Beat => plain(alloc, "beat"),
        ServerInput::Request(request) => operator_label(alloc, request),
        ServerInput::Take(to) => to_label(alloc, "take", *to),
        ServerInput::Submit(_, plan) => plan_label(alloc, "submit", plan),
        ServerInput::Finish(_, eval, _, outcome) => finish_label(alloc, "finish", eval, outcome),
        ServerInput::Nack(_, eval, _) => eval_label(alloc, "nack", eval),
        ServerInput::PlanTurn => plain(alloc, "plan"),
        ServerInput::Lapse(eval) => eval_label(alloc, "lapse", eval),
        ServerInput::Expire(node, beats) => {
            let node = node.number();
            Ok(format!(in alloc; "expire {node} {beats}")?)
        }
        ServerInput::DrainTurn(node) => {
            let node = node.number();
            Ok(format!(in alloc; "drain {node}")?)
        }
        ServerInput::FreeTurn => plain(alloc, "free"),
        ServerInput::Reap => plain(alloc, "reap"),
        ServerInput::Compact => plain(alloc, "compact"),
        ServerInput::Crash => plain(alloc, "crash"),
        ServerInput::Restart => plain(alloc, "restart"),
    }
}

fn client_label(alloc: Global, input: &ClientInput) -> Result<String, NoMemory>
    ensures { IfOk result (λ label. string_bytes label ≡ client_input_label input.now) }
{
    match input {
        ClientInput::Frame(_) => plain(alloc, "frame"),
        ClientInput::Register(to) => to_label(alloc, "register", *to),
        ClientInput::Ping(to) => to_label(alloc, "ping", *to),
        ClientInput::Pull(to) => to_label(alloc, "pull", *to),
        ClientInput::End(id, ok) => end_label(alloc, id, *ok),
        ClientInput::Crash => plain(alloc, "crash"),
        ClientInput::Restart => plain(alloc, "restart"),
    }
}

fn to_label(alloc: Global, word: &str, to: ServerId) -> Result<String, NoMemory>
    ensures { IfOk result (λ label. string_bytes label ≡ to_label word.now to) }
{
    Ok(format!(in alloc; "{word} S{to}")?)
}

fn end_label(alloc: Global, id: &AllocId, ok: bool) -> Result<String, NoMemory>
    ensures { IfOk result (λ label. string_bytes label ≡ end_label id.now ok) }
{
    let (entry, slot) = (id.index.get(), id.slot.get());
    if ok {
        return Ok(format!(in alloc; "end {entry}.{slot} complete")?);
    }
    Ok(format!(in alloc; "end {entry}.{slot} failed")?)
}

fn operator_label(alloc: Global, request: &OperatorRequest) -> Result<String, NoMemory>
    ensures { IfOk result (λ label. string_bytes label ≡ operator_label request.now) }
{
    match request {
        OperatorRequest::JobPut(job) => Ok(format!(in alloc; "put {}", job.name)?),
        OperatorRequest::JobStop(name) => Ok(format!(in alloc; "stop {name}")?),
        OperatorRequest::EvalPut(name) => Ok(format!(in alloc; "eval {name}")?),
        OperatorRequest::Drain(node, force) => {
            let number = node.number();
            if *force {
                return Ok(format!(in alloc; "drain {number} force")?);
            }
            Ok(format!(in alloc; "drain {number} slow")?)
        }
    }
}
