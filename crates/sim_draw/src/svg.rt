//! The picture, written: each element a line of SVG 1.1.
ghost use Rattle.std.specs.Prelude.{◌≡◌, ◌++◌, OnOk, IfOk, string_bytes};
ghost use Rattle.sim_draw.specs.Inner.Shapes.{text_of, head_text, open_text, title_text, about_text, sheet_text, svg_text, line_text, bow_text, circle_text, white_text, words_text, tip_text};

use crate::escape::{all_escaped, escaped};
use crate::ink::{Anchor, Cover, Ink, Spot, Stroke};
use crate::layout::Point;
use crate::shape::Shape;
use rows::NoMemory;
use std::alloc::Global;

// What a reader is told who does not see the picture, behind the counts.
const ABOUT: &str = "\
    A sequence diagram: a vertical lifeline for each server, and for each client that did \
    anything, time downward, one row an event, and an arrow for each message from where it was \
    sent to where it came.";

// The head of an arrow.
const HEAD: &str = "\
    <defs><marker id=\"head\" viewBox=\"0 0 9 8\" refX=\"9\" refY=\"4\" \
    markerWidth=\"9\" markerHeight=\"8\" markerUnits=\"userSpaceOnUse\" orient=\"auto\">\
    <path d=\"M0,0.5 L9,4 L0,7.5 z\" fill=\"#1f4e79\"/></marker></defs>";

/// A picture of a size, with what readers are told who do not see it.
pub(crate) fn svg_of(
    alloc: Global,
    size: (u64, u64),
    title: &str,
    shapes: &[Shape],
) -> Result<String, NoMemory>
    ensures { IfOk result (λ svg. string_bytes svg ≡ svg_text size.0 size.1 title.now shapes.now) }
{
    let mut svg = head(alloc, size, title)?;
    for shape in shapes {
        push_shape(alloc, &mut svg, shape)?;
    }
    svg.push_str("</g>\n</svg>\n")?;
    Ok(svg)
}

fn head(alloc: Global, size: (u64, u64), title: &str) -> Result<String, NoMemory>
    ensures { IfOk result (λ svg. string_bytes svg ≡ head_text size.0 size.1 title.now) }
{
    let (width, height) = size;
    let mut svg = opened(alloc, width, height)?;
    push_title(alloc, &mut svg, title)?;
    push_about(&mut svg)?;
    push_sheet(&mut svg, width, height)?;
    Ok(svg)
}

fn opened(alloc: Global, width: u64, height: u64) -> Result<String, NoMemory>
    ensures { IfOk result (λ svg. string_bytes svg ≡ open_text width height) }
{
    Ok(format!(in alloc;
        "<svg xmlns=\"http://www.w3.org/2000/svg\" version=\"1.1\" \
        width=\"{width}\" height=\"{height}\" viewBox=\"0 0 {width} {height}\">\n"
    )?)
}

fn push_title(alloc: Global, svg: &mut String, title: &str) -> Result<(), NoMemory>
    ensures { OnOk result (string_bytes svg.new ≡ string_bytes svg.old ++ title_text title.now) }
{
    let title = escaped(alloc, title, title.len())?;
    Ok(write!(svg, "<title>{title}</title>\n")?)
}

fn push_about(svg: &mut String) -> Result<(), NoMemory>
    ensures { OnOk result (string_bytes svg.new ≡ string_bytes svg.old ++ about_text) }
{
    Ok(write!(svg, "<desc>{ABOUT}</desc>\n{HEAD}\n")?)
}

// The white sheet below all, and the beginning of what is drawn on it.
fn push_sheet(svg: &mut String, width: u64, height: u64) -> Result<(), NoMemory>
    ensures { OnOk result (string_bytes svg.new ≡ string_bytes svg.old ++ sheet_text width height) }
{
    Ok(write!(
        svg,
        "<rect x=\"0\" y=\"0\" width=\"{width}\" height=\"{height}\" fill=\"#ffffff\"/>\n\
        <g font-family=\"sans-serif\" fill=\"none\">\n"
    )?)
}

fn push_shape(alloc: Global, svg: &mut String, shape: &Shape) -> Result<(), NoMemory>
    ensures { OnOk result (string_bytes svg.new ≡ string_bytes svg.old ++ text_of shape.now) }
{
    match shape {
        Shape::Line(from, to, stroke) => push_line(svg, *from, *to, *stroke),
        Shape::Bow(from, to, far, stroke) => push_bow(svg, *from, *to, *far, *stroke),
        Shape::Circle(at, spot) => push_circle(svg, *at, *spot),
        Shape::White(corner, width, height, cover) => {
            push_white(svg, *corner, *width, *height, *cover)
        }
        Shape::Text(at, anchor, ink, text) => push_text(alloc, svg, *at, *anchor, *ink, text),
        Shape::Tip(corner, width, height, text) => {
            push_tip(alloc, svg, *corner, *width, *height, text)
        }
    }
}

fn push_line(svg: &mut String, from: Point, to: Point, stroke: Stroke) -> Result<(), NoMemory>
    ensures { OnOk result (string_bytes svg.new ≡ string_bytes svg.old ++ line_text from to stroke) }
{
    let look = stroke.attributes();
    let (x1, y1, x2, y2) = (from.x, from.y, to.x, to.y);
    Ok(write!(
        svg,
        "<line x1=\"{x1}\" y1=\"{y1}\" x2=\"{x2}\" y2=\"{y2}\" {look}/>\n"
    )?)
}

fn push_bow(
    svg: &mut String,
    from: Point,
    to: Point,
    far: u64,
    stroke: Stroke,
) -> Result<(), NoMemory>
    ensures { OnOk result (string_bytes svg.new ≡ string_bytes svg.old ++ bow_text from to far stroke) }
{
    let look = stroke.attributes();
    let (x1, y1, x2, y2) = (from.x, from.y, to.x, to.y);
    Ok(write!(
        svg,
        "<path d=\"M{x1},{y1} C{far},{y1} {far},{y2} {x2},{y2}\" {look}/>\n"
    )?)
}

fn push_circle(svg: &mut String, at: Point, spot: Spot) -> Result<(), NoMemory>
    ensures { OnOk result (string_bytes svg.new ≡ string_bytes svg.old ++ circle_text at spot) }
{
    let look = spot.attributes();
    let (x, y) = (at.x, at.y);
    Ok(write!(svg, "<circle cx=\"{x}\" cy=\"{y}\" {look}/>\n")?)
}

fn push_white(
    svg: &mut String,
    corner: Point,
    width: u64,
    height: u64,
    cover: Cover,
) -> Result<(), NoMemory>
    ensures { OnOk result (string_bytes svg.new
        ≡ string_bytes svg.old ++ white_text corner width height cover) }
{
    let look = cover.attributes();
    let (x, y) = (corner.x, corner.y);
    Ok(write!(
        svg,
        "<rect x=\"{x}\" y=\"{y}\" width=\"{width}\" height=\"{height}\" {look}/>\n"
    )?)
}

fn push_text(
    alloc: Global,
    svg: &mut String,
    at: Point,
    anchor: Anchor,
    ink: Ink,
    text: &str,
) -> Result<(), NoMemory>
    ensures { OnOk result (string_bytes svg.new
        ≡ string_bytes svg.old ++ words_text at anchor ink text.now) }
{
    let end = anchor.attributes();
    let look = ink.attributes();
    let (x, y) = (at.x, at.y);
    let said = escaped(alloc, text, ink.most())?;
    Ok(write!(
        svg,
        "<text x=\"{x}\" y=\"{y}\" {end} {look}>{said}</text>\n"
    )?)
}

fn push_tip(
    alloc: Global,
    svg: &mut String,
    corner: Point,
    width: u64,
    height: u64,
    text: &str,
) -> Result<(), NoMemory>
    ensures { OnOk result (string_bytes svg.new
        ≡ string_bytes svg.old ++ tip_text corner width height text.now) }
{
    let (x, y) = (corner.x, corner.y);
    let told = all_escaped(alloc, text)?;
    Ok(write!(
        svg,
        "<rect x=\"{x}\" y=\"{y}\" width=\"{width}\" height=\"{height}\" class=\"event\" \
        pointer-events=\"all\"><title>{told}</title></rect>\n"
    )?)
}
