//! The lines of events, written.
ghost use Rattle.std.specs.Prelude.{◌≡◌, ◌++◌, ◌∷◌, OnOk};
ghost use Rattle.group_model.specs.Worlds.{AtClient, AtServer};
ghost use Rattle.group_inputs.specs.Handings.{handing};
ghost use Rattle.group_inputs.specs.Events.{client_input, group_event, server_input};
ghost use Rattle.event_texts.specs.EventLines.{HasLine, IsSayable, ServerFits, event_line, server_text};
ghost use Rattle.event_texts.specs.Inner.Lines.{verb_of};

use crate::request::append_request;
use crate::spelled::append_word;
use crate::word::{append_next, append_text};
use crate::worker::{append_finish, append_plan};
use group_inputs::{ClientInput, Event, ServerInput};
use rows::{Actor, ClientId, NoMemory, ServerId};

// Puts a verb and a server to the end.
fn append_turn(verb: &str, server: ServerId, out: &mut Vec<u8>) -> Result<(), NoMemory>
    ensures { OnOk result (ServerFits server
        × (out.new.items ≡ out.old.items ++ (verb.now ++ 32 ∷ server_text server))) }
{
    append_text(verb, out)?;
    append_word(&server, out)
}

// The first word of the line of a server's input; none of a frame.
fn server_verb(input: &ServerInput) -> &'static str
    ensures { result.now ≡ verb_of (AtServer 0 (server_input (handing input.now))) }
{
    match input {
        ServerInput::Frame(_) => "",
        ServerInput::Timeout => "timeout",
        ServerInput::Beat => "beat",
        ServerInput::Request(_) => "request",
        ServerInput::Take(_) => "take",
        ServerInput::Submit(_, _) => "submit",
        ServerInput::Finish(_, _, _, _) => "finish",
        ServerInput::Nack(_, _, _) => "nack",
        ServerInput::PlanTurn => "plan",
        ServerInput::Lapse(_) => "lapse",
        ServerInput::Expire(_, _) => "expire",
        ServerInput::DrainTurn(_) => "drain",
        ServerInput::FreeTurn => "free",
        ServerInput::Reap => "reap",
        ServerInput::Compact => "compact",
        ServerInput::Crash => "crash",
        ServerInput::Restart => "restart",
    }
}

// Puts the line of a server's input to the end.
fn append_server(server: ServerId, input: &ServerInput, out: &mut Vec<u8>) -> Result<(), NoMemory>
    requires { IsSayable (AtServer server (server_input (handing input.now))) }
    ensures { OnOk result (HasLine (AtServer server (server_input (handing input.now)))
        × (out.new.items ≡ out.old.items
        ++ event_line (AtServer server (server_input (handing input.now))))) }
{
    append_turn(server_verb(input), server, out)?;
    match input {
        ServerInput::Request(request) => {
            out.push(b' ')?;
            append_request(request, out)
        }
        ServerInput::Take(to) => append_word(to, out),
        ServerInput::Submit(to, plan) => {
            append_word(to, out)?;
            out.push(b' ')?;
            append_plan(plan, out)
        }
        ServerInput::Finish(to, eval, token, outcome) => {
            append_word(to, out)?;
            out.push(b' ')?;
            append_finish(*eval, *token, outcome, out)
        }
        ServerInput::Nack(to, eval, token) => {
            append_word(to, out)?;
            append_word(eval, out)?;
            append_word(token, out)
        }
        ServerInput::Lapse(eval) => append_word(eval, out),
        ServerInput::Expire(node, beats) => {
            append_word(node, out)?;
            append_word(beats, out)
        }
        ServerInput::DrainTurn(node) => append_word(node, out),
        _ => Ok(()),
    }
}

// Puts the line of a client's input to the end.
fn append_client(client: ClientId, input: &ClientInput, out: &mut Vec<u8>) -> Result<(), NoMemory>
    requires { IsSayable (AtClient client (client_input input.now)) }
    ensures { OnOk result (HasLine (AtClient client (client_input input.now))
        × (out.new.items ≡ out.old.items
        ++ event_line (AtClient client (client_input input.now)))) }
{
    match input {
        ClientInput::Frame(_) => Ok(()),
        ClientInput::Register(server) => {
            append_text("register", out)?;
            append_word(&client, out)?;
            append_word(server, out)
        }
        ClientInput::Ping(server) => {
            append_text("ping", out)?;
            append_word(&client, out)?;
            append_word(server, out)
        }
        ClientInput::Pull(server) => {
            append_text("pull", out)?;
            append_word(&client, out)?;
            append_word(server, out)
        }
        ClientInput::End(id, ok) => {
            append_text("end", out)?;
            append_word(&client, out)?;
            append_word(id, out)?;
            append_text(if *ok { " complete" } else { " failed" }, out)
        }
        ClientInput::Crash => {
            append_text("crash", out)?;
            append_word(&Actor::Client(client), out)
        }
        ClientInput::Restart => {
            append_text("restart", out)?;
            append_word(&Actor::Client(client), out)
        }
    }
}

/// Puts the line of an event, without its newline, to the end. Without memory a part of it may
/// stand there.
pub(crate) fn push_event(text: &mut Vec<u8>, event: &Event) -> Result<(), NoMemory>
    requires { IsSayable (group_event event.now) }
    ensures { OnOk result (HasLine (group_event event.now)
        × (text.new.items ≡ text.old.items ++ event_line (group_event event.now))) }
{
    match event {
        Event::Deliver(message) => {
            append_text("deliver", text)?;
            append_next(b' ', *message, text)
        }
        Event::Server(server, input) => append_server(*server, input.as_ref(), text),
        Event::Client(client, input) => append_client(*client, input.as_ref(), text),
    }
}
