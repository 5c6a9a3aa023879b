//! What workers and the leader's desk send each other, as bodies.
ghost use Rattle.std.specs.Prelude.{◌≡◌, true, IfOk};
ghost use Rattle.fields_model.specs.Format.{GivesExactly, Puts, option};
ghost use Rattle.fields_model.specs.Ids.{delivery};
ghost use Rattle.wire.specs.declared.body.Body.TheVariants as bodies;
ghost use Rattle.wire.specs.Messages.{takes_memory, kind_of, request_kind, response_kind, is_of_desk};
ghost use Rattle.wire.specs.Grammar.{body};
ghost use Rattle.wire.specs.Inner.Readings.{AnswersBody};

use crate::body::Body;
use crate::kind::Kind;
use fields::{Field, read_bool, write_option};
use machine::Machine;
use rows::{
    AskedRequest, Delivery, EvalId, EvalOutcome, NoMemory, Plan, PlanResult, Reason, Refusal,
    Token, Version, WorkerRequest, WorkerResponse,
};
use std::alloc::Global;

/// The kind of a message that asks this.
pub fn request_kind(request: &WorkerRequest) -> Kind
    ensures { result ≡ request_kind request.now }
{
    match request {
        WorkerRequest::Take => Kind::Take,
        WorkerRequest::Submit(_) => Kind::Submit,
        WorkerRequest::Finish(_, _, _) => Kind::Finish,
        WorkerRequest::Nack(_, _) => Kind::Nack,
    }
}

/// The kind of a message that answers this.
pub fn response_kind(response: &WorkerResponse) -> Kind
    ensures { result ≡ response_kind response.now }
{
    match response {
        WorkerResponse::Delivered(_) => Kind::Delivered,
        WorkerResponse::PlanResult(_) => Kind::PlanResult,
        WorkerResponse::Refused(_, _) => Kind::Refused,
    }
}

// What a worker is delivered, if anything. `read_option` would do, but it says of any field that it
// may take memory, and a delivery takes none.
fn read_delivered(
    alloc: Global,
    bytes: &[u8],
    at: usize,
) -> Result<(Option<Delivery>, usize), Refusal>
    ensures { GivesExactly result ((option delivery).read bytes.now at) }
{
    let (there, at) = read_bool(bytes, at)?;
    if there {
        let (value, end) = Delivery::read_at(Version::newest(), alloc, bytes, at)?;
        Ok((Some(value), end))
    } else {
        Ok((None, at))
    }
}

/// The body of a message of this kind, which workers and the leader's desk send each other, and the
/// place after it.
pub fn read_desk_body<M: Machine>(
    alloc: Global,
    kind: Kind,
    bytes: &[u8],
    at: usize,
) -> Result<(Body<M>, usize), Refusal>
    requires { is_of_desk kind ≡ true }
    // Memory is wanted for a kind that holds a list alone.
    ensures value { AnswersBody M.spec (takes_memory kind ≡ true) (λ b. b) bytes.now at result
        ((body M.spec kind).read bytes.now at) }
    ensures same_kind { IfOk result (λ b. kind_of b.0 ≡ kind) }
{
    let version = Version::newest();
    match kind {
        Kind::Delivered => {
            let (delivery, end) = read_delivered(alloc, bytes, at)?;
            Ok((Body::Response(WorkerResponse::Delivered(delivery)), end))
        }
        Kind::PlanResult => {
            let (result, end) = PlanResult::read_at(version, alloc, bytes, at)?;
            Ok((Body::Response(WorkerResponse::PlanResult(result)), end))
        }
        Kind::Refused => {
            let (asked, at) = AskedRequest::read_at(version, alloc, bytes, at)?;
            let (reason, end) = Reason::read_at(version, alloc, bytes, at)?;
            Ok((Body::Response(WorkerResponse::Refused(asked, reason)), end))
        }
        Kind::Take => Ok((Body::Request(WorkerRequest::Take), at)),
        Kind::Submit => {
            let (plan, end) = Plan::read_at(version, alloc, bytes, at)?;
            Ok((Body::Request(WorkerRequest::Submit(plan)), end))
        }
        Kind::Finish => {
            let (eval, at) = EvalId::read_at(version, alloc, bytes, at)?;
            let (token, at) = Token::read_at(version, alloc, bytes, at)?;
            let (outcome, end) = EvalOutcome::read_at(version, alloc, bytes, at)?;
            let request = WorkerRequest::Finish(eval, token, outcome);
            Ok((Body::Request(request), end))
        }
        Kind::Nack => {
            let (eval, at) = EvalId::read_at(version, alloc, bytes, at)?;
            let (token, end) = Token::read_at(version, alloc, bytes, at)?;
            Ok((Body::Request(WorkerRequest::Nack(eval, token)), end))
        }
        _ => unreachable!(),
    }
}

/// Puts what a worker asks to the end, as the body of its kind.
pub fn append_request<M: Machine>(
    request: &WorkerRequest,
    out: &mut Vec<u8>,
) -> Result<(), NoMemory>
    ensures { Puts (body M.spec (request_kind request.now)) (bodies.Request request.now)
        result out.old.items out.new.items }
{
    match request {
        WorkerRequest::Take => Ok(()),
        WorkerRequest::Submit(plan) => plan.append(out),
        WorkerRequest::Finish(eval, token, outcome) => {
            eval.append(out)?;
            token.append(out)?;
            outcome.append(out)
        }
        WorkerRequest::Nack(eval, token) => {
            eval.append(out)?;
            token.append(out)
        }
    }
}

/// Puts what the leader's desk answers to the end, as the body of its kind.
pub fn append_response<M: Machine>(
    response: &WorkerResponse,
    out: &mut Vec<u8>,
) -> Result<(), NoMemory>
    ensures { Puts (body M.spec (response_kind response.now)) (bodies.Response response.now)
        result out.old.items out.new.items }
{
    match response {
        WorkerResponse::Delivered(delivery) => write_option(delivery, out),
        WorkerResponse::PlanResult(result) => result.append(out),
        WorkerResponse::Refused(asked, reason) => {
            asked.append(out)?;
            reason.append(out)
        }
    }
}
