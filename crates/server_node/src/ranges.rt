//! The parts of an input that a command may take up are within their limits.
ghost use Rattle.rows.specs.Fits.{CommandFits};
ghost use Rattle.rows.specs.Requests.{command_of};
ghost use Rattle.group_inputs.specs.Events.{server_input};
ghost use Rattle.group_inputs.specs.Handings.{handing};
ghost use Rattle.group_safety.specs.Limits.{InputFits};

use group_inputs::ServerInput;
use rows::{EvalOutcome, OperatorRequest, Ranged};

/// Says that the parts of a request are within their limits; it does nothing.
fn request_ranges(request: &OperatorRequest)
    ensures { CommandFits (command_of request.now) }
{
    match request {
        OperatorRequest::JobPut(job) => job.ranges(),
        OperatorRequest::JobStop(name) | OperatorRequest::EvalPut(name) => {
            let _name = name.as_bytes();
        }
        OperatorRequest::Drain(node, _) => {
            let _node = node.number();
        }
    }
}

/// Says that the parts of an input that a command may take up are within their limits; it does
/// nothing.
pub fn ranges(input: &ServerInput)
    ensures { InputFits (server_input (handing input.now)) }
{
    match input {
        ServerInput::Request(request) => request_ranges(request),
        ServerInput::Submit(_, plan) => plan.ranges(),
        ServerInput::Finish(_, eval, _, outcome) => {
            eval.ranges();
            if let EvalOutcome::Blocked(snapshot) = outcome {
                let _snapshot = snapshot.get();
            }
        }
        ServerInput::Expire(node, _) => {
            let _node = node.number();
        }
        _ => {}
    }
}
