//! The cells of an event's line.
ghost use Rattle.std.specs.Prelude.{◌≡◌, IfOk, IsOkAnd, OnOk, Some, decimal, option_copied, option_map, string_bytes};
ghost use Rattle.sim_report_lines.specs.Grids.{cells_of};
ghost use Rattle.sim_tell.specs.Inner.Cells.{PutsCell};
ghost use Rattle.sim_tell.specs.Events.{TellsEvent, actor_of, answered_text, delivered_text, frame_of, sender_text, server_of, took_text, who_text};
ghost use Rattle.sim_tell.specs.Inner.Newest.{mark_of};
ghost use Rattle.sim_tell.specs.Marks.{TellsNewest};
ghost use Rattle.sim_tell.specs.StandingWords.{change_words};

use crate::newest::Newest;
use crate::sent::sent_since;
use crate::standing::{Standing, changed};
use fsm_state::Cluster;
use group_inputs::Event;
use rows::{Actor, NoMemory, Refusal};
use server::Server;
use sim_labels::{actor_text, event_label, message_label};
use sim_playback::hand_event;
use sim_report_lines::owned;
use std::alloc::Global;
use wire::{Frame, Frames, read_message};
use world::World;

/// The cells of an event, which the group takes or refuses.
pub(crate) fn row_of(
    alloc: Global,
    world: &mut World,
    newest: &mut Newest,
    number: usize,
    event: &Event,
) -> Result<Vec<String>, NoMemory>
    ensures { IfOk result (λ row. TellsEvent world.old (mark_of newest.old) number event.now
        world.new (mark_of newest.new) (cells_of row)) }
{
    let actor = actor_of(world.sent(), event);
    let took = took_of(alloc, world.sent(), event);
    let before = Standing::of(world, actor);
    let sent = world.sent().len();
    let answer = hand_event(world, event.try_clone(alloc)?)?;
    let server = server_of(world, actor);
    let after = Standing::of(world, actor);
    let change = change_of(alloc, newest, server, before, after);
    let mut row = Vec::new(alloc);
    push_cell(&mut row, number_of(alloc, number))?;
    push_cell(&mut row, who_of(alloc, actor))?;
    push_cell(&mut row, answered(alloc, answer, took))?;
    push_cell(&mut row, change)?;
    push_cell(&mut row, sent_since(alloc, world.sent(), sent))?;
    Ok(row)
}

/// A cell more, if there was memory for it.
pub(crate) fn push_cell(
    row: &mut Vec<String>,
    cell: Result<String, NoMemory>,
) -> Result<(), NoMemory>
    ensures { OnOk result (PutsCell cell row.old.items row.new.items) }
{
    row.push(cell?)?;
    Ok(())
}

fn number_of(alloc: Global, number: usize) -> Result<String, NoMemory>
    ensures { IfOk result (λ text. string_bytes text ≡ decimal number) }
{
    Ok(format!(in alloc; "{number}")?)
}

// What an event changed of its actor, a server or none, and of the state's rows.
fn change_of(
    alloc: Global,
    newest: &mut Newest,
    server: Option<&Server>,
    before: Standing,
    after: Standing,
) -> Result<String, NoMemory>
    ensures { IfOk result (λ text. TellsNewest (mark_of newest.old) (option_copied server.entry)
        (change_words before after) (mark_of newest.new) (string_bytes text)) }
{
    let mut words = changed(alloc, before, after)?;
    newest.push_rows(&mut words, server)?;
    Ok(words)
}

// Who takes an event.
fn actor_of(sent: &Frames, event: &Event) -> Option<Actor>
    ensures { result ≡ actor_of sent.now event.now }
{
    match event {
        Event::Deliver(number) => receiver_of(sent, *number),
        Event::Server(id, _) => Some(Actor::Server(*id)),
        Event::Client(id, _) => Some(Actor::Client(*id)),
    }
}

fn receiver_of(sent: &Frames, number: u64) -> Option<Actor>
    ensures { result ≡ option_map (λ frame. frame.to) (frame_of sent.now number) }
{
    match frame_of(sent, number) {
        Some(frame) => Some(frame.to()),
        None => None,
    }
}

// An actor, if it is a server that is there.
fn server_of(world: &World, actor: Option<Actor>) -> Option<&Server>
    ensures { option_copied result ≡ server_of world.now actor }
{
    match actor {
        Some(actor) => server_at(world, actor),
        None => None,
    }
}

fn server_at(world: &World, actor: Actor) -> Option<&Server>
    ensures { option_copied result ≡ server_of world.now (Some actor) }
{
    match actor {
        Actor::Server(id) => world.server(id),
        Actor::Client(_) => None,
    }
}

fn who_of(alloc: Global, actor: Option<Actor>) -> Result<String, NoMemory>
    ensures { IfOk result (λ text. string_bytes text ≡ who_text actor) }
{
    match actor {
        Some(actor) => actor_text(alloc, actor),
        None => owned(alloc, "-"),
    }
}

// What an actor takes: a message, with its number and its sender, or an input of its own.
fn took_of(alloc: Global, sent: &Frames, event: &Event) -> Result<String, NoMemory>
    ensures { IfOk result (λ text. string_bytes text ≡ took_text sent.now event.now) }
{
    match event {
        Event::Deliver(number) => delivered(alloc, sent, *number),
        Event::Server(_, _) | Event::Client(_, _) => event_label(alloc, event),
    }
}

fn delivered(alloc: Global, sent: &Frames, number: u64) -> Result<String, NoMemory>
    ensures { IfOk result (λ text.
        string_bytes text ≡ delivered_text number (frame_of sent.now number)) }
{
    let Some(frame) = frame_of(sent, number) else {
        return Ok(format!(in alloc; "#{number}")?);
    };
    let label = message_label(alloc, frame.bytes())?;
    let from = sender_of(alloc, frame.bytes())?;
    Ok(format!(in alloc; "#{number} {label} from {from}")?)
}

// The message of a number, from 1, if it was sent.
fn frame_of(sent: &Frames, number: u64) -> Option<Frame<'_>>
    ensures { result ≡ frame_of sent.now number }
{
    if number == 0 {
        return None;
    }
    sent.get((number - 1) as usize)
}

// Who sent a frame.
fn sender_of(alloc: Global, frame: &[u8]) -> Result<String, NoMemory>
    ensures { IfOk result (λ text. string_bytes text ≡ sender_text frame.now) }
{
    match read_message::<Cluster>(alloc, frame) {
        Ok(message) => actor_text(alloc, message.from()),
        Err(refusal) if refusal == Refusal::NoMemory => Err(NoMemory),
        Err(_) => owned(alloc, "-"),
    }
}

// What an actor took, or that it was refused.
fn answered(
    alloc: Global,
    answer: Option<u8>,
    took: Result<String, NoMemory>,
) -> Result<String, NoMemory>
    ensures { IfOk result (λ text. IsOkAnd took (λ own.
        string_bytes text ≡ answered_text answer (string_bytes own))) }
{
    let took = took?;
    match answer {
        Some(number) => Ok(format!(in alloc; "refused {number} {took}")?),
        None => Ok(took),
    }
}
