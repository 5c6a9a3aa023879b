//! What was to come in a transcript where its first line at fault begins.
use rows::NoMemory;
use sim_scenario::flaws::{GroupSize, LineFlaw, flaw_of};
use sim_scenario::step::is_step;
use sim_scenario::wrong::TextPosition;
use std::alloc::{AllocError, Global};
use std::fmt;

/// What was to come in a transcript, and where.
#[derive(Debug, Drop)]
pub struct Hint {
    /// The place.
    pub place: TextPosition,
    /// What was to come there, or what stands there and may not.
    pub wanted: String,
}

/// The place, and what was to come.
impl fmt::Display for Hint {
    ghost use Rattle.std.specs.Prelude.{Some};
    ghost use Rattle.sim_files.specs.Hints.{hint_text};

    ghost output = { λ h. Some (hint_text h) };

    fn fmt<W: fmt::Write>(&self, f: &mut fmt::Formatter<W>) -> fmt::Result {
        let (place, wanted) = (self.place, self.wanted.as_str());
        write!(f, "{place}: {wanted}")
    }
}

// A column of a line, and what was to come there.
type InLine = (usize, String);

/// What was to come in a transcript of these bytes, whose first line at fault begins behind so many.
pub(crate) fn hint_of(alloc: Global, bytes: &[u8], place: usize) -> Result<Hint, NoMemory> {
    let front = bytes.get(..place).unwrap_or(&[]);
    let rest = bytes.get(place..).unwrap_or(&[]);
    let (column, wanted) = wanted_at(alloc, front, rest)?;
    let line = lines_in(front, b"").saturating_add(1);
    Ok(Hint {
        place: TextPosition { line, column },
        wanted,
    })
}

// How many lines of whole lines begin so.
fn lines_in(lines: &[u8], start: &[u8]) -> usize {
    let mut count = 0usize;
    for line in lines.split(|byte| *byte == b'\n') {
        if line.starts_with(start) {
            count = count.saturating_add(1);
        }
    }
    // What is behind the last line's end is no line.
    if start.is_empty() {
        count.saturating_sub(1)
    } else {
        count
    }
}

// What was to come at the begin of what is behind these whole lines.
fn wanted_at(alloc: Global, front: &[u8], rest: &[u8]) -> Result<InLine, NoMemory> {
    if front.is_empty() {
        return Ok((
            1,
            text_of(alloc, "'servers 3' or 'servers 5' has to stand here")?,
        ));
    }
    let Some(end) = rest.iter().position(|byte| *byte == b'\n') else {
        let column = rest.len().saturating_add(1);
        return Ok((column, text_of(alloc, "the line has no end")?));
    };
    match std::str::from_utf8(rest.get(..end).unwrap_or(&[])) {
        Ok(line) => wanted_line(alloc, front, line),
        Err(_) => Ok((1, text_of(alloc, "the line is no UTF-8")?)),
    }
}

fn text_of(alloc: Global, text: &str) -> Result<String, AllocError> {
    String::from_str(alloc, text)
}

// What was to come in place of this line behind others.
fn wanted_line(alloc: Global, front: &[u8], line: &str) -> Result<InLine, NoMemory> {
    let group = group_of(front);
    if line.starts_with("node ") {
        return Ok((1, wanted_node(alloc, front, group)?));
    }
    if is_step(alloc, line)? {
        return Ok((1, text_of(alloc, "'flow' and 'work' are no events")?));
    }
    let LineFlaw { column, flaw } = flaw_of(alloc, line, group)?;
    Ok((column, format!(in alloc; "{flaw}")?))
}

// What was to come in place of the line of a node behind others.
fn wanted_node(alloc: Global, front: &[u8], group: GroupSize) -> Result<String, AllocError> {
    let nodes = group.clients;
    if nodes.saturating_add(1) < lines_in(front, b"") {
        return text_of(alloc, "nodes stand before the first event");
    }
    if 64 <= nodes {
        return text_of(alloc, "there are more than 64 nodes");
    }
    format!(in alloc;
        "'node {} CLASS CPU MEM DISK' has to stand here",
        nodes.saturating_add(1)
    )
}

// The size of the group that these whole lines are of.
fn group_of(front: &[u8]) -> GroupSize {
    GroupSize {
        servers: if front.starts_with(b"servers 5") {
            5
        } else {
            3
        },
        clients: lines_in(front, b"node "),
    }
}
