//! Tables that are laid out moment by moment, whose rows mostly stay.
use crate::grid::{Grid, line_of, widen_row};
use crate::texts::Texts;
use rows::NoMemory;
use std::alloc::Global;
use std::mem;

/// What a row is made of.
pub(crate) trait RowKey: Drop {
    /// Whether a row of this key stands before one of that.
    fn is_before(&self, other: &Self) -> bool;

    /// Whether the cells of these two are the same.
    fn is_same(&self, other: &Self) -> bool;
}

// A row, and which one it was at the last layout.
#[derive(Drop)]
struct KeptRow<K: RowKey> {
    key: K,
    cells: Vec<String>,
    was: Option<usize>,
}

/// A table. Its rows are put anew before each layout, in the order of their keys; the cells and the
/// line of a row that is as it was are not made anew.
#[derive(Drop)]
pub(crate) struct KeptTable<K: RowKey> {
    heads: Vec<String>,
    rows: Vec<KeptRow<K>>,
    // Those of the last layout that were not passed yet, the first one last.
    old: Vec<KeptRow<K>>,
    passed: usize,
    widths: Vec<usize>,
}

// How many lines of a laid out table stand before its rows: an empty one, and the heads.
const BEFORE_ROWS: usize = 2;

impl<K: RowKey> KeptTable<K> {
    /// A table without rows.
    pub fn new(alloc: Global, heads: Vec<String>) -> KeptTable<K> {
        KeptTable {
            heads,
            rows: Vec::new(alloc),
            old: Vec::new(alloc),
            passed: 0,
            widths: Vec::new(alloc),
        }
    }

    /// Puts the row that the last layout had of this key, if it had it: whether it had.
    pub fn keeps(&mut self, key: &K) -> Result<bool, NoMemory> {
        self.pass_before(key);
        if !self.is_next(key) {
            return Ok(false);
        }
        let was = Some(self.passed);
        self.passed = self.passed.saturating_add(1);
        let Some(row) = self.old.pop() else {
            return Ok(false);
        };
        let KeptRow { key, cells, was: _ } = row;
        self.rows.push(KeptRow { key, cells, was })?;
        Ok(true)
    }

    /// Puts a row.
    pub fn put(&mut self, key: K, cells: Vec<String>) -> Result<(), NoMemory> {
        let was = None;
        self.rows.push(KeptRow { key, cells, was })?;
        Ok(())
    }

    // Passes the old rows that stand before this one.
    fn pass_before(&mut self, key: &K) {
        for _ in 0..self.old.len() {
            match self.old.last() {
                Some(row) if row.key.is_before(key) => {}
                _ => return,
            }
            let _passed = self.old.pop();
            self.passed = self.passed.saturating_add(1);
        }
    }

    fn is_next(&self, key: &K) -> bool {
        match self.old.last() {
            Some(row) => row.key.is_same(key),
            None => false,
        }
    }

    /// The rows with their heads.
    pub fn into_grid(self, alloc: Global) -> Result<Grid, NoMemory> {
        let KeptTable {
            heads,
            rows,
            old: _,
            passed: _,
            widths: _,
        } = self;
        let mut grid = Grid::new(alloc);
        grid.rows.push(heads)?;
        for row in rows {
            let KeptRow {
                key: _,
                cells,
                was: _,
            } = row;
            grid.rows.push(cells)?;
        }
        Ok(grid)
    }

    /// The places of the lines of the rows that were put, behind an empty line and that of the
    /// heads; none where there are no rows. `old` is where the lines of the last layout stand.
    pub fn lay_out(
        &mut self,
        alloc: Global,
        texts: &mut Texts,
        old: &[usize],
    ) -> Result<Vec<usize>, NoMemory> {
        let widths = self.row_widths(alloc)?;
        let known = known_places(&widths, &self.widths, old);
        let mut places = Vec::new(alloc);
        if !self.rows.is_empty() {
            put_heads(alloc, texts, &mut places, &self.heads, &widths)?;
        }
        for row in &self.rows {
            let place = place_of(alloc, texts, known, &row.cells, row.was, &widths)?;
            places.push(place)?;
        }
        self.widths = widths;
        self.turn(alloc)?;
        Ok(places)
    }

    // How wide the columns are.
    fn row_widths(&self, alloc: Global) -> Result<Vec<usize>, NoMemory> {
        let mut widths = Vec::new(alloc);
        widen_row(&mut widths, &self.heads)?;
        for row in &self.rows {
            widen_row(&mut widths, &row.cells)?;
        }
        Ok(widths)
    }

    // The rows become the old ones.
    fn turn(&mut self, alloc: Global) -> Result<(), NoMemory> {
        let mut rows = mem::replace(&mut self.rows, Vec::new(alloc));
        rows.reverse();
        self.old = rows;
        self.passed = 0;
        Ok(())
    }
}

// The places of lines of these widths, where they were made with those.
fn known_places<'a>(widths: &[usize], old_widths: &[usize], old: &'a [usize]) -> &'a [usize] {
    if widths == old_widths { old } else { &[] }
}

// An empty line, and the line of the heads.
fn put_heads(
    alloc: Global,
    texts: &mut Texts,
    places: &mut Vec<usize>,
    heads: &[String],
    widths: &[usize],
) -> Result<(), NoMemory> {
    let empty = texts.place_of(alloc, String::new(alloc))?;
    places.push(empty)?;
    let line = line_of(alloc, heads, widths)?;
    let place = texts.place_of(alloc, line)?;
    places.push(place)?;
    Ok(())
}

// The place of a row's line: that of the row that it was, or, where there is none, it is put.
fn place_of(
    alloc: Global,
    texts: &mut Texts,
    old: &[usize],
    cells: &[String],
    was: Option<usize>,
    widths: &[usize],
) -> Result<usize, NoMemory> {
    if let Some(place) = old_place(old, was) {
        return Ok(place);
    }
    let line = line_of(alloc, cells, widths)?;
    texts.place_of(alloc, line)
}

// Where the line of the row stands that this one was.
fn old_place(old: &[usize], was: Option<usize>) -> Option<usize> {
    let at = was?.saturating_add(BEFORE_ROWS);
    old.get(at).copied()
}
