//! The lifelines: a line while an actor is up, a thick one while a server leads, none while it is
//! down.
ghost use Rattle.std.specs.Prelude.{OnOk};
ghost use Rattle.sim_draw.specs.Inner.Drawn.{Draws, stretch_text};

use crate::ink::Stroke;
use crate::layout::{Layout, Point};
use crate::note::turns;
use crate::record::{Face, Record};
use crate::shape::{Shape, put};
use rows::NoMemory;

/// Draws the lifelines, but for those of clients that did nothing.
pub(crate) fn draw_lifelines(
    shapes: &mut Vec<Shape>,
    record: &Record,
    layout: &Layout,
) -> Result<(), NoMemory> {
    for column in 0..record.columns() {
        if layout.is_shown(column) {
            draw_lifeline(shapes, record, layout, column)?;
        }
    }
    Ok(())
}

fn draw_lifeline(
    shapes: &mut Vec<Shape>,
    record: &Record,
    layout: &Layout,
    column: usize,
) -> Result<(), NoMemory> {
    let (mut from, end) = layout.ends(column);
    let mut face = Face::NEW;
    for (row, step) in record.steps.iter().enumerate() {
        if step.column == Some(column) && turns(step.before, step.after) {
            let to = layout.at(column, row);
            draw_stretch(shapes, from, to, face)?;
            from = to;
            face = step.after;
        }
    }
    draw_stretch(shapes, from, end, face)
}

// A part of a lifeline, along which the actor stays what it is.
fn draw_stretch(shapes: &mut Vec<Shape>, from: Point, to: Point, face: Face) -> Result<(), NoMemory>
    ensures { OnOk result (Draws shapes.old.items shapes.new.items (stretch_text from to face)) }
{
    if !face.up {
        return Ok(());
    }
    put(shapes, Shape::Line(from, to, Stroke::of_life(face.leads)))
}
