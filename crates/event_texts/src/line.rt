//! The lines of events, read.
ghost use Rattle.std.specs.Prelude.{◌≡◌, ◌<◌, ◌≤◌, ◌^◌, ℕ, Some, IfOk, IfSome, IsSomeAnd, OnErr, codes, decimal};
ghost use Rattle.group_model.specs.Worlds as group;
ghost use Rattle.event_texts.specs.declared.line.Line.TheVariants as lines;
ghost use Rattle.event_texts.specs.EventLines.{IsEventLine, TakesMemory};
ghost use Rattle.event_texts.specs.Inner.Lines.{BeginsJobRequest, BeginsPlan, HasParts, IsCrash, IsEnd, IsExpire, IsFinish, IsRequest, IsRestart, IsSmall, IsSubmit, IsTurnEvent, line_event};

use crate::request::read_request;
use crate::spelled::{Spelled, cut_pair, cut_word, read_pair};
use crate::word::{cut, read_number};
use crate::worker::{read_outcome, read_plan};
use group_inputs::{ClientInput, ServerInput};
use rows::{Actor, ClientId, Index, NoMemory, ServerId};
use std::alloc::Global;

/// An event whose input has no memory of its own yet.
#[derive(Drop)]
pub(crate) enum Line {
    /// The message of this number, from 1, comes to its receiver.
    Deliver(u64),
    /// A server takes an input of its own.
    Server(ServerId, ServerInput),
    /// A client takes an input of its own.
    Client(ClientId, ClientInput),
}

/// Reads the line of an event: exactly the one text of each event, with one space between words and
/// numbers in decimal without leading zeros.
pub(crate) fn read_line(alloc: Global, line: &str) -> Result<Option<Line>, NoMemory>
    ensures named { IfOk result (λ read. IfSome read (λ said.
        IsEventLine (line_event said) line.now)) }
    ensures read { (event : group.Event) → IsEventLine event line.now
        → IfOk result (λ read. IsSomeAnd read (λ said. line_event said ≡ event)) }
    ensures memory { OnErr result (TakesMemory line.now) }
{
    let Some((verb, words)) = cut(line, ' ') else {
        return Ok(None);
    };
    match verb {
        "request" => read_request_line(alloc, words),
        "submit" => read_submit(alloc, words),
        _ => Ok(read_small_line(verb, words)),
    }
}

// What stands behind `request`.
fn read_request_line(alloc: Global, words: &str) -> Result<Option<Line>, NoMemory>
    ensures named { IfOk result (λ read. IfSome read (λ said. IsRequest (line_event said)
        × HasParts (line_event said) (codes "request") words.now)) }
    ensures read { (event : group.Event) → IsRequest event
        → HasParts event (codes "request") words.now
        → IfOk result (λ read. IsSomeAnd read (λ said. line_event said ≡ event)) }
    ensures memory { OnErr result (BeginsJobRequest words.now) }
{
    let Some((server, text)) = cut_word(words) else {
        return Ok(None);
    };
    match read_request(alloc, text)? {
        Some(request) => Ok(Some(Line::Server(server, ServerInput::Request(request)))),
        None => Ok(None),
    }
}

// What stands behind `submit`.
fn read_submit(alloc: Global, words: &str) -> Result<Option<Line>, NoMemory>
    ensures named { IfOk result (λ read. IfSome read (λ said. IsSubmit (line_event said)
        × HasParts (line_event said) (codes "submit") words.now)) }
    ensures read { (event : group.Event) → IsSubmit event
        → HasParts event (codes "submit") words.now
        → IfOk result (λ read. IsSomeAnd read (λ said. line_event said ≡ event)) }
    ensures memory { OnErr result (BeginsPlan words.now) }
{
    let Some((server, to, text)) = cut_pair(words) else {
        return Ok(None);
    };
    match read_plan(alloc, text)? {
        Some(plan) => Ok(Some(Line::Server(server, ServerInput::Submit(to, plan)))),
        None => Ok(None),
    }
}

// A line that takes no memory to read.
fn read_small_line(verb: &str, words: &str) -> Option<Line>
    ensures named { IfSome result (λ said. IsSmall (line_event said)
        × HasParts (line_event said) verb.now words.now) }
    ensures read { (event : group.Event) → IsSmall event → HasParts event verb.now words.now
        → IsSomeAnd result (λ said. line_event said ≡ event) }
{
    match verb {
        "deliver" => read_delivery(words),
        "lapse" => {
            let (server, eval) = read_pair(words)?;
            Some(Line::Server(server, ServerInput::Lapse(eval)))
        }
        "crash" => read_crash(words),
        "restart" => read_restart(words),
        "register" => {
            let (client, server) = read_pair(words)?;
            Some(Line::Client(client, ClientInput::Register(server)))
        }
        "ping" => {
            let (client, server) = read_pair(words)?;
            Some(Line::Client(client, ClientInput::Ping(server)))
        }
        "pull" => {
            let (client, server) = read_pair(words)?;
            Some(Line::Client(client, ClientInput::Pull(server)))
        }
        "end" => read_end(words),
        "expire" => read_expiry(words),
        "drain" => {
            let (server, node) = read_pair(words)?;
            Some(Line::Server(server, ServerInput::DrainTurn(node)))
        }
        "take" => {
            let (server, to) = read_pair(words)?;
            Some(Line::Server(server, ServerInput::Take(to)))
        }
        "finish" => read_finish(words),
        "nack" => {
            let Some((server, to, rest)) = cut_pair(words) else {
                return None;
            };
            let (eval, token) = read_pair(rest)?;
            Some(Line::Server(server, ServerInput::Nack(to, eval, token)))
        }
        _ => read_turn(verb, words),
    }
}

// A line that names a server and nothing else.
fn read_turn(verb: &str, words: &str) -> Option<Line>
    ensures named { IfSome result (λ said. IsTurnEvent (line_event said)
        × HasParts (line_event said) verb.now words.now) }
    ensures read { (event : group.Event) → IsTurnEvent event → HasParts event verb.now words.now
        → IsSomeAnd result (λ said. line_event said ≡ event) }
{
    let server = ServerId::read_text(words)?;
    match verb {
        "timeout" => Some(Line::Server(server, ServerInput::Timeout)),
        "beat" => Some(Line::Server(server, ServerInput::Beat)),
        "plan" => Some(Line::Server(server, ServerInput::PlanTurn)),
        "free" => Some(Line::Server(server, ServerInput::FreeTurn)),
        "reap" => Some(Line::Server(server, ServerInput::Reap)),
        "compact" => Some(Line::Server(server, ServerInput::Compact)),
        _ => None,
    }
}

// What stands behind `deliver`.
fn read_delivery(words: &str) -> Option<Line>
    ensures named { IfSome result (λ said. (message : ℕ) × (said ≡ lines.Deliver message)
        × (1 ≤ message) × (message < 2 ^ 64) × (words.now ≡ decimal message)) }
    ensures read { (message : ℕ) → 1 ≤ message → message < 2 ^ 64 → words.now ≡ decimal message
        → result ≡ Some (lines.Deliver message) }
{
    let message = read_number(words)?;
    if message == 0 {
        None
    } else {
        Some(Line::Deliver(message))
    }
}

// What stands behind `crash`.
fn read_crash(words: &str) -> Option<Line>
    ensures named { IfSome result (λ said. IsCrash (line_event said)
        × HasParts (line_event said) (codes "crash") words.now) }
    ensures read { (event : group.Event) → IsCrash event → HasParts event (codes "crash") words.now
        → IsSomeAnd result (λ said. line_event said ≡ event) }
{
    match Actor::read_text(words)? {
        Actor::Server(server) => Some(Line::Server(server, ServerInput::Crash)),
        Actor::Client(client) => Some(Line::Client(client, ClientInput::Crash)),
    }
}

// What stands behind `restart`.
fn read_restart(words: &str) -> Option<Line>
    ensures named { IfSome result (λ said. IsRestart (line_event said)
        × HasParts (line_event said) (codes "restart") words.now) }
    ensures read { (event : group.Event) → IsRestart event
        → HasParts event (codes "restart") words.now
        → IsSomeAnd result (λ said. line_event said ≡ event) }
{
    match Actor::read_text(words)? {
        Actor::Server(server) => Some(Line::Server(server, ServerInput::Restart)),
        Actor::Client(client) => Some(Line::Client(client, ClientInput::Restart)),
    }
}

// What stands behind `end`.
fn read_end(words: &str) -> Option<Line>
    ensures named { IfSome result (λ said. IsEnd (line_event said)
        × HasParts (line_event said) (codes "end") words.now) }
    ensures read { (event : group.Event) → IsEnd event → HasParts event (codes "end") words.now
        → IsSomeAnd result (λ said. line_event said ≡ event) }
{
    let Some((client, id, end)) = cut_pair(words) else {
        return None;
    };
    match end {
        "complete" => Some(Line::Client(client, ClientInput::End(id, true))),
        "failed" => Some(Line::Client(client, ClientInput::End(id, false))),
        _ => None,
    }
}

// What stands behind `expire`.
fn read_expiry(words: &str) -> Option<Line>
    ensures named { IfSome result (λ said. IsExpire (line_event said)
        × HasParts (line_event said) (codes "expire") words.now) }
    ensures read { (event : group.Event) → IsExpire event
        → HasParts event (codes "expire") words.now
        → IsSomeAnd result (λ said. line_event said ≡ event) }
{
    let Some((server, node, beats)) = cut_pair(words) else {
        return None;
    };
    let beats = Index::read_text(beats)?;
    Some(Line::Server(server, ServerInput::Expire(node, beats)))
}

// What stands behind `finish`.
fn read_finish(words: &str) -> Option<Line>
    ensures named { IfSome result (λ said. IsFinish (line_event said)
        × HasParts (line_event said) (codes "finish") words.now) }
    ensures read { (event : group.Event) → IsFinish event
        → HasParts event (codes "finish") words.now
        → IsSomeAnd result (λ said. line_event said ≡ event) }
{
    let Some((server, to, rest)) = cut_pair(words) else {
        return None;
    };
    let Some((eval, token, rest)) = cut_pair(rest) else {
        return None;
    };
    let outcome = read_outcome(rest)?;
    Some(Line::Server(server, ServerInput::Finish(to, eval, token, outcome)))
}
