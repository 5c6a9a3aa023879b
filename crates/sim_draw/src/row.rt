//! What stands in the row of one event: its number, its mark on the lifeline, and its label.
ghost use Rattle.std.specs.Prelude.{◌≡◌, slice_get, OnOk, IfOk, string_bytes};
ghost use Rattle.sim_draw.specs.Inner.Drawn.{Draws};
ghost use Rattle.sim_labels.specs.Labels.{named_label};
ghost use Rattle.sim_draw.specs.Inner.Labels.{refused_label, sent_label, said_ink, said_text};
ghost use Rattle.sim_draw.specs.Inner.Rows.{event_number, message_number, origin_at, origin_number, numbers_text, tick_text, mark_text, label_side, note_width};

use crate::ink::{Ink, Spot, Stroke};
use crate::layout::{Layout, Point, Side, is_parted};
use crate::note::{commits, note_of};
use crate::record::{Record, Step};
use crate::shape::{Shape, cross, label, put, width_of};
use group_inputs::Event;
use rows::NoMemory;
use sim_labels::{event_label, message_label, named_label};
use std::alloc::Global;
use wire::Frames;

// Where the numbers of events and of messages end, and where that of the event of an arrow begins.
const EVENT: u64 = 34;

const MESSAGE: u64 = 70;

const ORIGIN: u64 = 74;

/// The label of a message that was sent, by its place among all; empty where there is none.
pub(crate) fn sent_label(alloc: Global, sent: &Frames, place: usize) -> Result<String, NoMemory>
    ensures { IfOk result (λ label. string_bytes label ≡ sent_label (slice_get sent.now place)) }
{
    match sent.get(place) {
        Some(frame) => message_label(alloc, frame.bytes()),
        None => Ok(String::new(alloc)),
    }
}

/// Draws the row of an event.
pub(crate) fn draw_row(
    alloc: Global,
    shapes: &mut Vec<Shape>,
    record: &Record,
    layout: &Layout,
    sent: &Frames,
    row: usize,
    step: &Step,
    event: &Event,
) -> Result<(), NoMemory> {
    let y = layout.y_of(row);
    draw_numbers(alloc, shapes, y, row, step)?;
    draw_origin(alloc, shapes, y, origin_of(record, row, step))?;
    let side = side_of(record, step);
    let at = match step.column {
        Some(column) => layout.at(column, row),
        None => Point { x: MESSAGE, y },
    };
    if step.column.is_some() {
        draw_mark(shapes, at, step)?;
    }
    let at = at.aside(side, 9).up(3);
    let note = note_of(alloc, step.before, step.after)?;
    let shift = shift_of(&note);
    label(shapes, at, side, Ink::Note, note)?;
    let (ink, text) = said_of(alloc, sent, step, event)?;
    label(shapes, at.aside(side, shift), side, ink, text)
}

// How wide a note is.
fn shift_of(note: &str) -> u64
    ensures { result ≡ note_width note.now }
{
    if note.is_empty() {
        0
    } else {
        width_of(Ink::Note, note).saturating_add(8)
    }
}

// The number of the event, and that of the message that came.
fn draw_numbers(
    alloc: Global,
    shapes: &mut Vec<Shape>,
    y: u64,
    row: usize,
    step: &Step,
) -> Result<(), NoMemory>
    ensures { OnOk result (Draws shapes.old.items shapes.new.items
        (numbers_text y row step.now.message)) }
{
    draw_event_number(alloc, shapes, y, row)?;
    draw_message_number(alloc, shapes, y, step.message)
}

fn draw_event_number(
    alloc: Global,
    shapes: &mut Vec<Shape>,
    y: u64,
    row: usize,
) -> Result<(), NoMemory>
    ensures { OnOk result (Draws shapes.old.items shapes.new.items (event_number y row)) }
{
    let number = format!(in alloc; "{}", row.saturating_add(1))?;
    let at = Point { x: EVENT, y };
    label(shapes, at.down(3), Side::Left, Ink::Number, number)
}

fn draw_message_number(
    alloc: Global,
    shapes: &mut Vec<Shape>,
    y: u64,
    message: Option<usize>,
) -> Result<(), NoMemory>
    ensures { OnOk result (Draws shapes.old.items shapes.new.items (message_number y message)) }
{
    let Some(place) = message else {
        return Ok(());
    };
    let number = format!(in alloc; "#{}", place.saturating_add(1))?;
    let at = Point { x: MESSAGE, y };
    label(shapes, at.down(3), Side::Left, Ink::Number, number)
}

// The event in which a message was sent that came, where the names of the lifelines stand between.
fn origin_of(record: &Record, row: usize, step: &Step) -> Option<usize>
    ensures { result ≡ origin_at «record».now.sendings.items row step.now.message step.now.refusal }
{
    let (Some(place), None) = (step.message, step.refusal) else {
        return None;
    };
    let sending = record.sendings.get(place)?;
    if is_parted(sending.row, row) {
        return Some(sending.row);
    }
    None
}

fn draw_origin(
    alloc: Global,
    shapes: &mut Vec<Shape>,
    y: u64,
    origin: Option<usize>,
) -> Result<(), NoMemory>
    ensures { OnOk result (Draws shapes.old.items shapes.new.items (origin_number y origin)) }
{
    let Some(row) = origin else {
        return Ok(());
    };
    let text = format!(in alloc; "from {}", row.saturating_add(1))?;
    let at = Point { x: ORIGIN, y };
    label(shapes, at.down(3), Side::Right, Ink::Number, text)
}

// The side of a label: the one that the message does not come from, where no arrow of the event
// stands above its row; else the right one.
fn side_of(record: &Record, step: &Step) -> Side
    ensures { result ≡ label_side «record».now.sendings.items step.now.message step.now.column }
{
    let (Some(place), Some(column)) = (step.message, step.column) else {
        return Side::Right;
    };
    match record.sendings.get(place) {
        Some(sending) => Side::towards(column, sending.from).other(),
        None => Side::Right,
    }
}

// The label of an event.
fn said_of(
    alloc: Global,
    sent: &Frames,
    step: &Step,
    event: &Event,
) -> Result<(Ink, String), NoMemory>
    ensures ink { IfOk result (λ said. said.0 ≡ said_ink step.now.refusal step.now.message) }
    ensures text { IfOk result (λ said. string_bytes said.1
        ≡ said_text sent.now event.now step.now.refusal step.now.message) }
{
    if let Some(number) = step.refusal {
        return Ok((Ink::Refused, refused_label(alloc, number, event)?));
    }
    match step.message {
        Some(place) => Ok((Ink::Message, sent_label(alloc, sent, place)?)),
        None => Ok((Ink::Input, event_label(alloc, event)?)),
    }
}

// That an event was refused, why, and whose input it was, and which; a delivery has none.
fn refused_label(alloc: Global, number: u8, event: &Event) -> Result<String, NoMemory>
    ensures { IfOk result (λ label.
        string_bytes label ≡ refused_label number (named_label event.now)) }
{
    let input = named_label(alloc, event)?;
    if input.is_empty() {
        return Ok(format!(in alloc; "refused {number}")?);
    }
    Ok(format!(in alloc; "refused {number} {input}")?)
}

// The mark on the lifeline: a cross where the actor stops, a circle where it begins again, a tick
// where it applies entries, else a dot.
fn draw_mark(shapes: &mut Vec<Shape>, at: Point, step: &Step) -> Result<(), NoMemory>
    ensures { OnOk result (Draws shapes.old.items shapes.new.items (mark_text at step.now)) }
{
    if step.refusal.is_some() {
        return put(shapes, Shape::Circle(at, Spot::Refused));
    }
    draw_tick(shapes, at, step)?;
    match (step.before.up, step.after.up) {
        (true, false) => cross(shapes, at, 6, Stroke::Crash),
        (false, true) => put(shapes, Shape::Circle(at, Spot::Begins)),
        _ => put(shapes, Shape::Circle(at, Spot::Event)),
    }
}

// The tick where an actor applies entries.
fn draw_tick(shapes: &mut Vec<Shape>, at: Point, step: &Step) -> Result<(), NoMemory>
    ensures { OnOk result (Draws shapes.old.items shapes.new.items (tick_text at step.now)) }
{
    if !commits(step.before, step.after) {
        return Ok(());
    }
    let left = at.aside(Side::Left, 8);
    let right = at.aside(Side::Right, 8);
    put(shapes, Shape::Line(left, right, Stroke::Commit))
}
