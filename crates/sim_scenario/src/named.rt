//! Whom a step names, and which of them a group lacks.
ghost use Rattle.std.specs.Prelude.{◌≡◌};
ghost use Rattle.group_inputs.specs.Handings.{handing};
ghost use Rattle.group_inputs.specs.Events.{client_input, server_input};
ghost use Rattle.sim_scenario.specs.Named.{client_input_names, input_names, is_absent, request_names, step_names, step_taker};
ghost use Rattle.sim_scenario.specs.Steps.{played_step};

use crate::noting::Named;
use crate::scenario::Scenario;
use crate::step::Step;
use group_inputs::{ClientInput, Event, ServerInput};
use rows::OperatorRequest;

/// Whose step it is: none where it is the net's.
pub(crate) fn taker_of(step: &Step) -> Option<Named>
    ensures { result ≡ step_taker (played_step step.now) }
{
    match step {
        Step::Event(Event::Server(server, _)) => Some(Named::Server(*server)),
        Step::Event(Event::Client(client, _)) => Some(Named::Client(*client)),
        Step::Event(Event::Deliver(_)) => None,
        Step::Work(server) => Some(Named::Server(*server)),
        Step::Flow(_) => None,
    }
}

/// Whom a step names beside the one whose it is, if anyone.
pub(crate) fn names_of(step: &Step) -> Option<Named>
    ensures { result ≡ step_names (played_step step.now) }
{
    match step {
        Step::Event(Event::Server(_, input)) => names_of_input(input.as_ref()),
        Step::Event(Event::Client(_, input)) => names_of_client_input(input.as_ref()),
        _ => None,
    }
}

fn names_of_input(input: &ServerInput) -> Option<Named>
    ensures { result ≡ input_names (server_input (handing input.now)) }
{
    match input {
        ServerInput::Take(to) => Some(Named::Server(*to)),
        ServerInput::Submit(to, _) => Some(Named::Server(*to)),
        ServerInput::Finish(to, _, _, _) => Some(Named::Server(*to)),
        ServerInput::Nack(to, _, _) => Some(Named::Server(*to)),
        ServerInput::Request(request) => names_of_request(request),
        ServerInput::Expire(node, _) => Some(Named::Node(*node)),
        ServerInput::DrainTurn(node) => Some(Named::Node(*node)),
        _ => None,
    }
}

fn names_of_request(request: &OperatorRequest) -> Option<Named>
    ensures { result ≡ request_names request.now }
{
    match request {
        OperatorRequest::Drain(node, _) => Some(Named::Node(*node)),
        _ => None,
    }
}

fn names_of_client_input(input: &ClientInput) -> Option<Named>
    ensures { result ≡ client_input_names (client_input input.now) }
{
    match input {
        ClientInput::Register(server) => Some(Named::Server(*server)),
        ClientInput::Ping(server) => Some(Named::Server(*server)),
        ClientInput::Pull(server) => Some(Named::Server(*server)),
        _ => None,
    }
}

/// Whether a scenario's group lacks the one that is named: it has so many servers, and as many
/// clients as nodes.
pub(crate) fn is_absent(scenario: &Scenario, named: &Named) -> bool
    ensures { result ≡ is_absent scenario.now named.now }
{
    match named {
        Named::Server(server) => server.position() >= usize::from(scenario.settings.servers),
        Named::Client(client) => usize::from(client.number()) > scenario.nodes.len(),
        Named::Node(node) => usize::from(node.number()) > scenario.nodes.len(),
    }
}
