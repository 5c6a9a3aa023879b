//! A key that an object of a JSON text has twice.
use crate::wrong::{TextPosition, Wrong};
use json::{Reader, Scratch, Token};
use rows::NoMemory;
use std::alloc::Global;
use std::collections::BTreeMap;

// The keys of an object that is not ended, and where in the text each begins. There may be as many as
// a text has room for, so none is looked for one by one.
type Keys = BTreeMap<String, usize>;

/// The first key that its object has had already, and where both stand; none in a text without one.
/// A text that is no JSON is looked at as far as it is.
pub(crate) fn duplicate_key(alloc: Global, text: &str) -> Result<Option<Wrong>, NoMemory> {
    let mut scratch = Scratch::new(alloc);
    let mut reader = Reader::new(text, &mut scratch)?;
    // Of the objects that are not ended, the outermost first.
    let mut open: Vec<Keys> = Vec::new(alloc);
    // A text has no more tokens than bytes.
    for _ in 0..=text.len() {
        let before = reader.offset();
        match reader.next() {
            Some(Token::BeginObject) => open.push(BTreeMap::new(alloc))?,
            Some(Token::EndObject) => drop(open.pop()),
            Some(Token::Key(name)) => {
                let start = quote_from(text, before);
                if let Some(first) = had(alloc, &mut open, name, start)? {
                    let key = String::from_str(alloc, name)?;
                    let (first, second) = (position_of(text, first), position_of(text, start));
                    return Ok(Some(Wrong::KeyTwice(key, first, second)));
                }
            }
            Some(Token::Bad) | None => return Ok(None),
            Some(_) => {}
        }
    }
    Ok(None)
}

// Where the key of this name begins that the innermost object has had; else it has this one, which
// begins there.
fn had(
    alloc: Global,
    open: &mut [Keys],
    name: &str,
    start: usize,
) -> Result<Option<usize>, NoMemory> {
    let Some(keys) = open.last_mut() else {
        return Ok(None);
    };
    if let Some(first) = keys.get(name) {
        return Ok(Some(*first));
    }
    keys.insert(String::from_str(alloc, name)?, start)?;
    Ok(None)
}

// Where the first quotation mark from a place on stands: between a token and the key behind it there
// is none.
fn quote_from(text: &str, from: usize) -> usize {
    let rest = text.as_bytes().get(from..).unwrap_or(&[]);
    let skipped = rest.iter().position(|byte| *byte == b'"').unwrap_or(0);
    from.saturating_add(skipped)
}

// The line and the column of the byte at a place.
fn position_of(text: &str, at: usize) -> TextPosition {
    let front = text.as_bytes().get(..at).unwrap_or(&[]);
    let mut place = TextPosition { line: 1, column: 1 };
    for byte in front {
        if *byte == b'\n' {
            place.line = place.line.saturating_add(1);
            place.column = 1;
        } else {
            place.column = place.column.saturating_add(1);
        }
    }
    place
}
