//! A run as a picture: it is played again and noted, and then drawn from below to above, the
//! lifelines first and the labels last.
ghost use Rattle.std.specs.Prelude.{◌≡◌, ◌≢◌, ◌++◌, length, OnOk, IfOk, IfErr, string_bytes};
ghost use Rattle.std.specs.List.{count_by};
ghost use Rattle.std.specs.Io.KnownBytes.{Appends};
ghost use Rattle.sim_draw.specs.declared.fault.DrawError.TheVariants as errors;
ghost use Rattle.sim_labels.specs.Groups.{MayBe, MayNotBe};
ghost use Rattle.sim_draw.specs.Pictures.{IsPicture, IsRunPicture, GrowsByPicture, declaration, run_title};
ghost use Rattle.sim_draw.specs.Inner.Records.{is_lost};
ghost use Rattle.sim_draw.specs.Inner.Drawn.{Draws, first_texts, lifeline_name, band_in, arrow_text, arrow_in, stub_end, lost_end_text, stub_text, row_corner, tip_in};
ghost use Rattle.sim_draw.specs.Inner.Shapes.{tip_text};

use crate::fault::DrawError;
use crate::ink::{Ink, Stroke};
use crate::layout::{Layout, Point, ROW, SLOT, Side, distance, has_band};
use crate::lifeline::draw_lifelines;
use crate::record::{Record, Sending};
use crate::row::{draw_row, sent_label};
use crate::shape::{Shape, cross, heading, label, name, put};
use crate::svg::svg_of;
use group_inputs::Event;
use rows::{NoMemory, NodeSpec, Refusal};
use std::alloc::Global;
use std::io::Write;
use wire::Frames;
use world::World;

// The line that begins a file of XML.
const DECLARATION: &str = "<?xml version=\"1.0\" encoding=\"UTF-8\"?>\n";

// What the signs mean: of a message, of an actor, and in a label.
const ARROWS: &str = "\
    Arrow: a message that came. Dashed: it came again. Bow: to itself. \
    With a cross: it never came. #7: message 7.";

const MARKS: &str = "\
    Dot: an event. Bold: its input, or what it changed. Thick: leads. Tick: commits. \
    Cross: crashed. Circle: begins again; small: refused.";

const LETTERS: &str = "\
    t1: a term. @3: a place in the log. +2: entries, places, or reports more. -1: stops. \
    4.0: an evaluation, or an allocation. Told 0: taken.";

/// Draws a run as SVG: the group of so many servers and of these nodes' clients takes these events
/// from its beginning, and what is drawn is what it did. A refused event is drawn as refused.
///
/// There is a lifeline for each server and client, an arrow for each delivery, and a short one with
/// a cross for each message that never came. Of each event the line at its place in `told` is told
/// where a pointer rests on its row; nothing where there is no such line. It is refused with `Group` where there is no such
/// group and with `NoMemory`, and then nothing is written; and with `Output` where the output
/// failed, and then the front of the picture may have been written.
pub fn draw<W: Write>(
    alloc: Global,
    servers: usize,
    nodes: &[NodeSpec],
    events: &[Event],
    told: &[String],
    out: &mut W,
) -> Result<(), DrawError>
    // What is written is one picture, and nothing else; its title counts what is drawn.
    ensures picture { OnOk result (GrowsByPicture servers (length nodes.now) (length events.now)
        (W.contents out.old) (W.contents out.new)) }
    // An answer, and want of memory or of an output, only of a group that may be.
    ensures group { OnOk result (MayBe servers nodes.now) }
    ensures fault { IfErr result (λ error. error ≢ errors.Group → MayBe servers nodes.now) }
    ensures no_group { IfErr result (λ error. error ≡ errors.Group → MayNotBe servers nodes.now) }
    // Nothing is written but where the output failed.
    ensures left { IfErr result (λ error. error ≢ errors.Output → out.new ≡ out.old) }
{
    let picture = picture(alloc, servers, nodes, events, told)?;
    write_picture(alloc, out, picture.as_str())?;
    Ok(())
}

/// The picture that `draw` writes, as a text: its element `svg` alone.
///
/// It is refused with `Group` where there is no such group, and with `NoMemory`.
pub fn picture(
    alloc: Global,
    servers: usize,
    nodes: &[NodeSpec],
    events: &[Event],
    told: &[String],
) -> Result<String, DrawError>
    ensures picture { IfOk result (λ picture. IsRunPicture servers (length nodes.now)
        (length events.now) (string_bytes picture)) }
    ensures group { OnOk result (MayBe servers nodes.now) }
    ensures fault { IfErr result (λ error. error ≢ errors.Group
        → (error ≡ errors.NoMemory) × MayBe servers nodes.now) }
    ensures no_group { IfErr result (λ error. error ≡ errors.Group → MayNotBe servers nodes.now) }
{
    let world = group(alloc, servers, nodes)?;
    let picture = picture_of(alloc, world, servers, nodes.len(), events, told)?;
    Ok(picture)
}

fn group(alloc: Global, servers: usize, nodes: &[NodeSpec]) -> Result<World, DrawError>
    ensures group { OnOk result (MayBe servers nodes.now) }
    ensures memory { IfErr result (λ error. error ≢ errors.Group
        → (error ≡ errors.NoMemory) × MayBe servers nodes.now) }
    ensures no_group { IfErr result (λ error. error ≡ errors.Group → MayNotBe servers nodes.now) }
{
    match World::new(alloc, servers, nodes) {
        Ok(world) => Ok(world),
        Err(refusal) => match refusal {
            Refusal::NoMemory => Err(DrawError::NoMemory),
            _ => Err(DrawError::Group),
        },
    }
}

// Writes a picture as a file of XML.
fn write_picture<W: Write>(alloc: Global, out: &mut W, picture: &str) -> Result<(), DrawError>
    ensures ok { OnOk result (Appends (W.contents out.old) (W.contents out.new)
        (declaration ++ picture.now)) }
    ensures group { IfErr result (λ error. error ≢ errors.Group) }
    ensures left { IfErr result (λ error. error ≢ errors.Output → out.new ≡ out.old) }
{
    let file = file_of(alloc, picture)?;
    write_out(out, file.as_str())
}

fn file_of(alloc: Global, picture: &str) -> Result<String, NoMemory>
    ensures { IfOk result (λ file. string_bytes file ≡ declaration ++ picture.now) }
{
    let mut file = String::from_str(alloc, DECLARATION)?;
    file.push_str(picture)?;
    Ok(file)
}

fn write_out<W: Write>(out: &mut W, file: &str) -> Result<(), DrawError>
    ensures ok { OnOk result (Appends (W.contents out.old) (W.contents out.new) file.now) }
    ensures err { IfErr result (λ error. error ≡ errors.Output) }
{
    match out.write_all(file.as_bytes()) {
        Ok(()) => match out.flush() {
            Ok(()) => Ok(()),
            Err(_) => Err(DrawError::Output),
        },
        Err(_) => Err(DrawError::Output),
    }
}

// The picture of what a group does from its beginning.
fn picture_of(
    alloc: Global,
    world: World,
    servers: usize,
    clients: usize,
    events: &[Event],
    told: &[String],
) -> Result<String, NoMemory>
    ensures { IfOk result (λ picture.
        IsRunPicture servers clients (length events.now) (string_bytes picture)) }
{
    let mut world = world;
    let mut record = Record::new(alloc, servers, clients);
    record.take_all(alloc, &mut world, events)?;
    let layout = Layout::new(alloc, &record)?;
    let title = counts(alloc, &record)?;
    let mut shapes = shapes_of(alloc, &record, &layout, world.sent(), events, &title)?;
    draw_tips(alloc, &mut shapes, &record, &layout, told)?;
    whole(alloc, layout.size(), &title, &shapes)
}

fn whole(alloc: Global, size: (u64, u64), title: &str, shapes: &[Shape]) -> Result<String, NoMemory>
    ensures { IfOk result (λ picture. IsPicture title.now (string_bytes picture)) }
{
    let svg = svg_of(alloc, size, title, shapes)?;
    Ok(svg)
}

// All that is drawn, from below to above.
fn shapes_of(
    alloc: Global,
    record: &Record,
    layout: &Layout,
    sent: &Frames,
    events: &[Event],
    title: &str,
) -> Result<Vec<Shape>, NoMemory> {
    let mut shapes = Vec::new(alloc);
    draw_head(alloc, &mut shapes, title)?;
    draw_lifelines(&mut shapes, record, layout)?;
    draw_arrows(&mut shapes, record, layout)?;
    draw_names(alloc, &mut shapes, record, layout)?;
    draw_lost(alloc, &mut shapes, record, layout, sent)?;
    draw_rows(alloc, &mut shapes, record, layout, sent, events)?;
    Ok(shapes)
}

fn counts(alloc: Global, record: &Record) -> Result<String, NoMemory>
    ensures { IfOk result (λ title. string_bytes title ≡ run_title «record».now.servers
        «record».now.clients (length «record».now.steps.items) (length «record».now.sendings.items)
        (count_by is_lost «record».now.sendings.items)) }
{
    let (servers, clients) = (record.servers, record.clients);
    let (events, messages) = (record.steps.len(), record.sendings.len());
    let lost = record.lost();
    let actors = format!(in alloc; "servers {servers}, clients {clients}")?;
    Ok(format!(in alloc; "{actors}, events {events}, messages {messages}, lost {lost}")?)
}

fn draw_head(alloc: Global, shapes: &mut Vec<Shape>, title: &str) -> Result<(), NoMemory> {
    let at = Point { x: 12, y: 22 };
    heading(shapes, at, Ink::Title, String::from_str(alloc, title)?)?;
    let mut at = at.down(4);
    for signs in [ARROWS, MARKS, LETTERS] {
        at = at.down(12);
        heading(shapes, at, Ink::Legend, String::from_str(alloc, signs)?)?;
    }
    Ok(())
}

// The names of the lifelines: S1 for the first server, c1 for the first client.
fn name_of(alloc: Global, record: &Record, column: usize) -> Result<String, NoMemory>
    ensures { IfOk result (λ name. string_bytes name ≡ lifeline_name «record».now.servers column) }
{
    if column < record.servers {
        return Ok(format!(in alloc; "S{}", column.saturating_add(1))?);
    }
    let behind = column - record.servers;
    Ok(format!(in alloc; "c{}", behind.saturating_add(1))?)
}

fn draw_names(
    alloc: Global,
    shapes: &mut Vec<Shape>,
    record: &Record,
    layout: &Layout,
) -> Result<(), NoMemory> {
    for column in 0..record.columns() {
        if layout.is_shown(column) {
            let text = name_of(alloc, record, column)?;
            name(alloc, shapes, layout.name_at(column), &text)?;
            draw_bands(alloc, shapes, record, layout, column, &text)?;
        }
    }
    Ok(())
}

// The name of a lifeline once more above some events.
fn draw_bands(
    alloc: Global,
    shapes: &mut Vec<Shape>,
    record: &Record,
    layout: &Layout,
    column: usize,
    text: &str,
) -> Result<(), NoMemory>
    ensures { OnOk result (Draws shapes.old.items shapes.new.items
        (first_texts (band_in layout.now column text.now) (length «record».now.steps.items))) }
{
    for row in 0..record.steps.len() {
        draw_band_in(alloc, shapes, layout, column, row, text)?;
    }
    Ok(())
}

// The name of a lifeline once more above an event, if it stands there.
fn draw_band_in(
    alloc: Global,
    shapes: &mut Vec<Shape>,
    layout: &Layout,
    column: usize,
    row: usize,
    text: &str,
) -> Result<(), NoMemory>
    ensures { OnOk result (Draws shapes.old.items shapes.new.items
        (band_in layout.now column text.now row)) }
{
    if has_band(row) {
        return name(alloc, shapes, layout.band_at(column, row), text);
    }
    Ok(())
}

// An arrow for each delivery.
fn draw_arrows(shapes: &mut Vec<Shape>, record: &Record, layout: &Layout) -> Result<(), NoMemory>
    ensures { OnOk result (Draws shapes.old.items shapes.new.items
        (first_texts (arrow_in layout.now «record».now) (length «record».now.steps.items))) }
{
    for row in 0..record.steps.len() {
        draw_arrow_in(shapes, record, layout, row)?;
    }
    Ok(())
}

// The arrow of the event in a row, if it has one.
fn draw_arrow_in(
    shapes: &mut Vec<Shape>,
    record: &Record,
    layout: &Layout,
    row: usize,
) -> Result<(), NoMemory>
    ensures { OnOk result (Draws shapes.old.items shapes.new.items
        (arrow_in layout.now «record».now row)) }
{
    let Some(step) = record.steps.get(row) else {
        return Ok(());
    };
    let (Some(place), None) = (step.message, step.refusal) else {
        return Ok(());
    };
    match record.sendings.get(place) {
        Some(sending) => draw_arrow(shapes, layout, sending, row, step.again),
        None => Ok(()),
    }
}

// One that passes other lifelines is bent, so that it misses what stands on these at the rows between:
// else what one actor sends to several, who take it one after the other, would look handed on.
fn draw_arrow(
    shapes: &mut Vec<Shape>,
    layout: &Layout,
    sending: &Sending,
    row: usize,
    again: bool,
) -> Result<(), NoMemory>
    ensures { OnOk result (Draws shapes.old.items shapes.new.items
        (arrow_text layout.now sending.now row again)) }
{
    let stroke = Stroke::of_way(again);
    let from = layout.at(sending.from, sending.row);
    let to = layout.at(sending.to, row);
    if sending.from == sending.to {
        let to = to.aside(Side::Right, 4);
        let far = from.aside(Side::Right, 44).x;
        return put(shapes, Shape::Bow(from, to, far, stroke));
    }
    let side = Side::towards(sending.to, sending.from);
    let to = to.aside(side, 4);
    if distance(sending.from as u64, sending.to as u64) < 2 {
        return put(shapes, Shape::Line(from, to, stroke));
    }
    let far = from.aside(side.other(), distance(from.x, to.x) / 4).x;
    put(shapes, Shape::Bow(from, to, far, stroke))
}

// A short arrow with a cross for each message that never came.
fn draw_lost(
    alloc: Global,
    shapes: &mut Vec<Shape>,
    record: &Record,
    layout: &Layout,
    sent: &Frames,
) -> Result<(), NoMemory> {
    for (place, sending) in record.sendings.iter().enumerate() {
        if !sending.came {
            let what = sent_label(alloc, sent, place)?;
            let to = name_of(alloc, record, sending.to)?;
            let text = format!(in alloc; "{to} {what}")?;
            draw_stub(shapes, layout, place, sending, text)?;
        }
    }
    Ok(())
}

fn draw_stub(
    shapes: &mut Vec<Shape>,
    layout: &Layout,
    place: usize,
    sending: &Sending,
    text: String,
) -> Result<(), NoMemory>
    ensures { OnOk result (Draws shapes.old.items shapes.new.items
        (stub_text layout.now place sending.now (string_bytes text))) }
{
    let from = layout.at(sending.from, sending.row);
    let end = stub_end(layout, place, sending);
    put(shapes, Shape::Line(from, end, Stroke::Lost))?;
    let side = Side::towards(sending.from, sending.to);
    draw_lost_end(shapes, end, side, text)
}

// Where the short arrow of a message ends that never came.
fn stub_end(layout: &Layout, place: usize, sending: &Sending) -> Point
    ensures { result ≡ stub_end layout.now place sending.now }
{
    let side = Side::towards(sending.from, sending.to);
    let down = layout.slot_of(place).saturating_mul(SLOT).saturating_add(6);
    layout
        .at(sending.from, sending.row)
        .aside(side, 26)
        .down(down)
}

// The cross where a message was lost, with its label.
fn draw_lost_end(
    shapes: &mut Vec<Shape>,
    end: Point,
    side: Side,
    text: String,
) -> Result<(), NoMemory>
    ensures { OnOk result (Draws shapes.old.items shapes.new.items
        (lost_end_text end side (string_bytes text))) }
{
    cross(shapes, end, 3, Stroke::Lost)?;
    label(shapes, end.aside(side, 7).down(3), side, Ink::Lost, text)
}

fn draw_rows(
    alloc: Global,
    shapes: &mut Vec<Shape>,
    record: &Record,
    layout: &Layout,
    sent: &Frames,
    events: &[Event],
) -> Result<(), NoMemory> {
    for (row, (step, event)) in record.steps.iter().zip(events).enumerate() {
        draw_row(alloc, shapes, record, layout, sent, row, step, event)?;
    }
    Ok(())
}

// What is told of the events, above all else, so that nothing keeps a pointer off it.
fn draw_tips(
    alloc: Global,
    shapes: &mut Vec<Shape>,
    record: &Record,
    layout: &Layout,
    told: &[String],
) -> Result<(), NoMemory> {
    let (width, _height) = layout.size();
    put_tips(alloc, shapes, layout, width, record.steps.len(), told)
}

fn put_tips(
    alloc: Global,
    shapes: &mut Vec<Shape>,
    layout: &Layout,
    width: u64,
    events: usize,
    told: &[String],
) -> Result<(), NoMemory>
    ensures { OnOk result (Draws shapes.old.items shapes.new.items
        (first_texts (tip_in layout.now width told.now) events)) }
{
    for row in 0..events {
        put_tip(alloc, shapes, layout, width, row, told)?;
    }
    Ok(())
}

// What is told of the event in a row, over all its row.
fn put_tip(
    alloc: Global,
    shapes: &mut Vec<Shape>,
    layout: &Layout,
    width: u64,
    row: usize,
    told: &[String],
) -> Result<(), NoMemory>
    ensures { OnOk result (Draws shapes.old.items shapes.new.items
        (tip_in layout.now width told.now row)) }
{
    match told.get(row) {
        Some(line) => put_line_tip(alloc, shapes, corner_of(layout, row), width, line.as_str()),
        None => Ok(()),
    }
}

// The upper left corner of the row of an event.
fn corner_of(layout: &Layout, row: usize) -> Point
    ensures { result ≡ row_corner layout.now row }
{
    let y = layout.y_of(row);
    Point { x: 0, y }.up(11)
}

fn put_line_tip(
    alloc: Global,
    shapes: &mut Vec<Shape>,
    corner: Point,
    width: u64,
    line: &str,
) -> Result<(), NoMemory>
    ensures { OnOk result (Draws shapes.old.items shapes.new.items
        (tip_text corner width 22 line.now)) }
{
    let text = String::from_str(alloc, line)?;
    put(shapes, Shape::Tip(corner, width, ROW, text))
}
