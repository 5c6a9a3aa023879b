//! Lines, each of which stands once.
use crate::grid::owned;
use rows::NoMemory;
use std::alloc::Global;
use std::collections::BTreeMap;

/// The place of the empty line.
pub(crate) const EMPTY_LINE: usize = 0;

/// Lines, each of which stands once, and its place.
#[derive(Drop)]
pub(crate) struct Texts {
    lines: Vec<String>,
    places: BTreeMap<String, usize>,
}

impl Texts {
    /// The empty line alone.
    pub fn new(alloc: Global) -> Result<Texts, NoMemory> {
        let mut texts = Texts {
            lines: Vec::new(alloc),
            places: BTreeMap::new(alloc),
        };
        texts.place_of(alloc, String::new(alloc))?;
        Ok(texts)
    }

    /// The place of a line, which is put where it does not stand yet.
    pub fn place_of(&mut self, alloc: Global, line: String) -> Result<usize, NoMemory> {
        if let Some(place) = self.places.get(line.as_str()) {
            return Ok(*place);
        }
        let place = self.lines.len();
        let own = owned(alloc, line.as_str())?;
        self.lines.push(own)?;
        self.places.insert(line, place)?;
        Ok(place)
    }

    /// The places of these lines.
    pub fn places_of(&mut self, alloc: Global, lines: Vec<String>) -> Result<Vec<usize>, NoMemory> {
        let mut places = Vec::new(alloc);
        for line in lines {
            places.push(self.place_of(alloc, line)?)?;
        }
        Ok(places)
    }

    /// How many lines there are.
    pub fn len(&self) -> usize {
        self.lines.len()
    }

    /// The lines.
    pub fn into_lines(self) -> Vec<String> {
        let Texts { lines, places: _ } = self;
        lines
    }
}
