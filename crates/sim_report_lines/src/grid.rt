//! Rows of cells whose columns line up.
ghost use Rattle.std.specs.Prelude.{◌≡◌, ◌≤◌, ◌+◌, ◌++◌, [], IfOk, OnOk, length, map, replicate, string_bytes, vec_len};
ghost use Rattle.sim_report_lines.specs.Grids.{aligned_line, aligned_lines, cells_of, column_widths, laid, loose_line, widened, with_cell, with_column};
ghost use Rattle.sim_report_lines.specs.Inner.Widths.{with_width};

use rows::NoMemory;
use std::alloc::Global;

/// A text of one's own.
pub fn owned(alloc: Global, text: &str) -> Result<String, NoMemory>
    ensures { IfOk result (λ own. string_bytes own ≡ text.now) }
{
    Ok(String::from_str(alloc, text)?)
}

/// A row of these heads.
pub(crate) fn heads_of(alloc: Global, heads: &[&str]) -> Result<Vec<String>, NoMemory> {
    let mut row = Vec::new(alloc);
    for head in heads {
        row.push(owned(alloc, head)?)?;
    }
    Ok(row)
}

/// Rows of cells whose columns line up.
#[derive(Drop)]
pub struct Grid {
    /// The rows, of which the first may be heads.
    pub rows: Vec<Vec<String>>,
}

// A column is so wide at least.
fn widen(widths: &mut Vec<usize>, column: usize, width: usize) -> Result<(), NoMemory>
    requires { column ≤ vec_len widths.old }
    ensures { OnOk result (widths.new.items ≡ with_width column width widths.old.items) }
{
    if column < widths.len() {
        let wide = widths[column].max(width);
        widths[column] = wide;
        return Ok(());
    }
    widths.push(width)?;
    Ok(())
}

// How wide the columns of these rows are.
fn widths(alloc: Global, rows: &[Vec<String>]) -> Result<Vec<usize>, NoMemory>
    ensures { IfOk result (λ widths. widths.items ≡ column_widths (map cells_of rows.now)) }
{
    let mut widths = Vec::new(alloc);
    for row in rows {
        widen_row(&mut widths, row)?;
    }
    Ok(widths)
}

/// Columns are as wide as these cells too.
pub(crate) fn widen_row(widths: &mut Vec<usize>, row: &[String]) -> Result<(), NoMemory>
    ensures { OnOk result (widths.new.items
        ≡ widened widths.old.items (map string_bytes row.now)) }
{
    for (column, cell) in row.iter().enumerate() {
        widen(widths, column, cell.len())?;
    }
    Ok(())
}

fn push_spaces(line: &mut String, count: usize) -> Result<(), NoMemory>
    ensures { OnOk result (string_bytes line.new ≡ string_bytes line.old ++ replicate count 32) }
{
    for _ in 0..count {
        line.push(' ')?;
    }
    Ok(())
}

/// The line of a row, without spaces at its end.
pub(crate) fn line_of(alloc: Global, row: &[String], widths: &[usize]) -> Result<String, NoMemory>
    ensures { IfOk result (λ line.
        string_bytes line ≡ aligned_line widths.now (map string_bytes row.now)) }
{
    let mut line = String::new(alloc);
    let mut owed = 0usize;
    for place in 0..row.len().min(widths.len()) {
        owed = push_column(&mut line, owed, row[place].as_str(), widths[place])?;
    }
    Ok(line)
}

// A cell more, behind so many spaces; how many come before the next one.
fn push_column(line: &mut String, owed: usize, cell: &str, width: usize) -> Result<usize, NoMemory>
    ensures { IfOk result (λ next. laid (string_bytes line.new) next
        ≡ with_column (laid (string_bytes line.old) owed) cell.now width) }
{
    if cell.is_empty() {
        return gap(owed, width);
    }
    push_spaces(line, owed)?;
    line.push_str(cell)?;
    gap(0, width.saturating_sub(cell.len()))
}

// The spaces that are owed behind a column. A line with more than a number holds has no memory.
fn gap(owed: usize, width: usize) -> Result<usize, NoMemory>
    ensures { IfOk result (λ gap. gap ≡ owed + width + 2) }
{
    let Some(wide) = owed.checked_add(width) else {
        return Err(NoMemory);
    };
    match wide.checked_add(2) {
        Some(gap) => Ok(gap),
        None => Err(NoMemory),
    }
}

// The line of a row by itself, with two spaces between its cells.
fn loose_line(alloc: Global, row: &[String]) -> Result<String, NoMemory>
    ensures { IfOk result (λ line. string_bytes line ≡ loose_line (map string_bytes row.now)) }
{
    let mut line = String::new(alloc);
    for cell in row {
        push_cell(&mut line, cell.as_str())?;
    }
    Ok(line)
}

fn push_cell(line: &mut String, cell: &str) -> Result<(), NoMemory>
    ensures { OnOk result (string_bytes line.new ≡ with_cell (string_bytes line.old) cell.now) }
{
    if cell.is_empty() {
        return Ok(());
    }
    if !line.is_empty() {
        line.push_str("  ")?;
    }
    line.push_str(cell)?;
    Ok(())
}

impl Grid {
    /// No rows.
    pub fn new(alloc: Global) -> Grid
        ensures { result.rows.items ≡ [] }
    {
        Grid {
            rows: Vec::new(alloc),
        }
    }

    /// The lines of the rows, one for each, in their order.
    pub fn lines(&self, alloc: Global) -> Result<Vec<String>, NoMemory>
        ensures count { IfOk result (λ lines. length lines.items ≡ length self.now.rows.items) }
        ensures lines { IfOk result (λ lines.
            map string_bytes lines.items ≡ aligned_lines (map cells_of self.now.rows.items)) }
    {
        let widths = widths(alloc, &self.rows)?;
        let mut lines = Vec::new(alloc);
        for row in &self.rows {
            lines.push(line_of(alloc, row, &widths)?)?;
        }
        Ok(lines)
    }

    /// The lines of the rows, one for each, in their order, whose columns do not line up.
    pub fn loose_lines(&self, alloc: Global) -> Result<Vec<String>, NoMemory>
        ensures count { IfOk result (λ lines. length lines.items ≡ length self.now.rows.items) }
        ensures lines { IfOk result (λ lines. map string_bytes lines.items
            ≡ map loose_line (map cells_of self.now.rows.items)) }
    {
        let mut lines = Vec::new(alloc);
        for row in &self.rows {
            lines.push(loose_line(alloc, row)?)?;
        }
        Ok(lines)
    }
}
