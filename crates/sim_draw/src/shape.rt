//! What a picture is made of: lines, circles, and texts on white.
ghost use Rattle.std.specs.Prelude.{◌≡◌, OnOk, string_bytes};
ghost use Rattle.sim_draw.specs.Inner.Shapes.{text_of, words_text};
ghost use Rattle.sim_draw.specs.declared.ink.Anchor.TheVariants.{Start};
ghost use Rattle.sim_draw.specs.Inner.Drawn.{Draws, cross_text, width_in, label_left, label_anchor, label_text, name_text};

use crate::ink::{Anchor, Cover, Ink, MOST, Spot, Stroke};
use crate::layout::{Point, Side};
use rows::NoMemory;
use std::alloc::Global;

/// One element of a picture.
#[derive(Drop)]
pub(crate) enum Shape {
    /// A straight line.
    Line(Point, Point, Stroke),
    /// A line that leaves a lifeline to the right and comes back to it, by way of so far from the
    /// left edge.
    Bow(Point, Point, u64, Stroke),
    /// A circle around a point.
    Circle(Point, Spot),
    /// White below a text: its upper left corner, its width and its height.
    White(Point, u64, u64, Cover),
    /// The front of a text, at a point of its base line.
    Text(Point, Anchor, Ink, String),
    /// An area that is not seen, its upper left corner, its width and its height, and the text that
    /// is told where a pointer rests on it.
    Tip(Point, u64, u64, String),
}

/// Puts an element above these.
pub(crate) fn put(shapes: &mut Vec<Shape>, shape: Shape) -> Result<(), NoMemory>
    ensures { OnOk result (Draws shapes.old.items shapes.new.items (text_of shape)) }
{
    shapes.push(shape)?;
    Ok(())
}

/// A cross with its middle there, from corner to corner so far from the middle.
pub(crate) fn cross(
    shapes: &mut Vec<Shape>,
    at: Point,
    reach: u64,
    stroke: Stroke,
) -> Result<(), NoMemory>
    ensures { OnOk result (Draws shapes.old.items shapes.new.items (cross_text at reach stroke)) }
{
    let left = at.aside(Side::Left, reach);
    let right = at.aside(Side::Right, reach);
    put(
        shapes,
        Shape::Line(left.up(reach), right.down(reach), stroke),
    )?;
    put(
        shapes,
        Shape::Line(left.down(reach), right.up(reach), stroke),
    )
}

/// How wide the front of a text is that is drawn.
pub(crate) fn width_of(ink: Ink, text: &str) -> u64
    ensures { result ≡ width_in ink text.now }
{
    let count = text.len().min(MOST) as u64;
    count.saturating_mul(ink.width()) / 10
}

/// A label of at most 24 characters that begins or ends at a point, on white, so that it can be
/// read over a line. An empty one draws nothing.
pub(crate) fn label(
    shapes: &mut Vec<Shape>,
    at: Point,
    side: Side,
    ink: Ink,
    text: String,
) -> Result<(), NoMemory>
    ensures { OnOk result (Draws shapes.old.items shapes.new.items
        (label_text at side ink (string_bytes text))) }
{
    if text.is_empty() {
        return Ok(());
    }
    let width = width_of(ink, &text);
    let height = ink.height();
    let corner = left_of(at, side, width).up(height);
    let size = height.saturating_add(2);
    put(shapes, Shape::White(corner, width, size, Cover::Thin))?;
    put(shapes, Shape::Text(at, anchor_of(side), ink, text))
}

// The left end of a label that stands on this side of a point.
fn left_of(at: Point, side: Side, width: u64) -> Point
    ensures { result ≡ label_left at side width }
{
    match side {
        Side::Left => at.aside(Side::Left, width),
        Side::Right => at,
    }
}

// Which part of a label stands at its point.
fn anchor_of(side: Side) -> Anchor
    ensures { result ≡ label_anchor side }
{
    match side {
        Side::Left => Anchor::End,
        Side::Right => Anchor::Start,
    }
}

/// A text whose middle is at a point, on white.
pub(crate) fn name(
    alloc: Global,
    shapes: &mut Vec<Shape>,
    at: Point,
    text: &str,
) -> Result<(), NoMemory>
    ensures { OnOk result (Draws shapes.old.items shapes.new.items (name_text at text.now)) }
{
    let width = width_of(Ink::Name, text);
    let corner = at.aside(Side::Left, width / 2).up(Ink::Name.height());
    put(shapes, Shape::White(corner, width, 15, Cover::Whole))?;
    let text = String::from_str(alloc, text)?;
    put(shapes, Shape::Text(at, Anchor::Middle, Ink::Name, text))
}

/// A line of text that begins at a point, however long.
pub(crate) fn heading(
    shapes: &mut Vec<Shape>,
    at: Point,
    ink: Ink,
    text: String,
) -> Result<(), NoMemory>
    ensures { OnOk result (Draws shapes.old.items shapes.new.items
        (words_text at Start ink (string_bytes text))) }
{
    put(shapes, Shape::Text(at, Anchor::Start, ink, text))
}
