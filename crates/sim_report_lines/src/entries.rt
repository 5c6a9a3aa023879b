//! The entries of all logs.
ghost use Rattle.std.specs.Prelude.{◌≡◌, option_copied};
ghost use Rattle.std.specs.List.{list_any};
ghost use Rattle.sim_report_lines.specs.Inner.Entries.{entry_of, has_entry};

use crate::grid::{Grid, heads_of};
use crate::kept::{KeptTable, RowKey};
use crate::tables::{Cell, cell_text, row_of_cells};
use rows::NoMemory;
use sim_reports::{EntryReport, ServerReport};
use std::alloc::Global;

// A group has at most so many servers.
const SERVERS: usize = 5;

/// An entry, and who has it: the servers by their places.
#[derive(Drop)]
pub(crate) struct EntryKey {
    index: u64,
    term: u64,
    holders: [bool; SERVERS],
}

impl RowKey for EntryKey {
    fn is_before(&self, other: &EntryKey) -> bool {
        self.index < other.index
    }

    fn is_same(&self, other: &EntryKey) -> bool {
        self.index == other.index && self.term == other.term && self.holders == other.holders
    }
}

/// The entries of all logs, with the servers that have each; those that a snapshot covers stand
/// where some server has them still.
pub(crate) fn entries_table(alloc: Global, servers: &[ServerReport]) -> Result<Grid, NoMemory> {
    let mut table = no_entries(alloc)?;
    put_entries(alloc, &mut table, servers)?;
    table.into_grid(alloc)
}

/// A table of entries that has none.
pub(crate) fn no_entries(alloc: Global) -> Result<KeptTable<EntryKey>, NoMemory> {
    let heads = heads_of(alloc, &["entry", "term", "held by", "command"])?;
    Ok(KeptTable::new(alloc, heads))
}

/// Puts the entries of all logs.
pub(crate) fn put_entries(
    alloc: Global,
    table: &mut KeptTable<EntryKey>,
    servers: &[ServerReport],
) -> Result<(), NoMemory> {
    for index in 1..=last_index(servers) {
        add_entries(alloc, table, servers, index)?;
    }
    Ok(())
}

// The greatest index of all logs.
fn last_index(servers: &[ServerReport]) -> u64 {
    let mut last = 0;
    for server in servers {
        last = server.last.max(last);
    }
    last
}

// The entries at an index: of those that several servers have, the first one's stands for all.
fn add_entries(
    alloc: Global,
    table: &mut KeptTable<EntryKey>,
    servers: &[ServerReport],
    index: u64,
) -> Result<(), NoMemory> {
    for (place, server) in servers.iter().enumerate() {
        let Some(entry) = entry_of(server, index) else {
            continue;
        };
        if !is_among(&servers[..place], index, entry.term) {
            add_entry(alloc, table, servers, entry)?;
        }
    }
    Ok(())
}

fn add_entry(
    alloc: Global,
    table: &mut KeptTable<EntryKey>,
    servers: &[ServerReport],
    entry: &EntryReport,
) -> Result<(), NoMemory> {
    let key = key_of(servers, entry);
    if table.keeps(&key)? {
        return Ok(());
    }
    let cells = entry_row(alloc, servers, entry)?;
    table.put(key, cells)
}

fn key_of(servers: &[ServerReport], entry: &EntryReport) -> EntryKey {
    let mut holders = [false; SERVERS];
    for (holds, server) in holders.iter_mut().zip(servers) {
        *holds = has_entry(server, entry.index, entry.term);
    }
    EntryKey {
        index: entry.index,
        term: entry.term,
        holders,
    }
}

// The entry at an index of a server's log, if the server has it and its snapshot does not cover it.
fn entry_of(server: &ServerReport, index: u64) -> Option<&EntryReport>
    ensures { option_copied result ≡ entry_of server.now index }
{
    if index <= server.covered {
        return None;
    }
    server.log.get((index - server.covered - 1) as usize)
}

fn has_entry(server: &ServerReport, index: u64, term: u64) -> bool
    ensures { result ≡ has_entry server.now index term }
{
    match entry_of(server, index) {
        Some(entry) => entry.term == term,
        None => false,
    }
}

fn is_among(servers: &[ServerReport], index: u64, term: u64) -> bool
    ensures { result ≡ list_any (λ s. has_entry s index term) servers.now }
{
    servers.iter().any(|server| has_entry(server, index, term))
}

fn entry_row(
    alloc: Global,
    servers: &[ServerReport],
    entry: &EntryReport,
) -> Result<Vec<String>, NoMemory> {
    let holders = holders_of(alloc, servers, entry)?;
    let cells = [
        Cell::Number(entry.index),
        Cell::Number(entry.term),
        Cell::Spaced(holders.as_slice()),
        Cell::Text(entry.command.as_str()),
    ];
    row_of_cells(alloc, &cells)
}

// The servers that have an entry.
fn holders_of(
    alloc: Global,
    servers: &[ServerReport],
    entry: &EntryReport,
) -> Result<Vec<String>, NoMemory> {
    let mut holders = Vec::new(alloc);
    for server in servers {
        if has_entry(server, entry.index, entry.term) {
            holders.push(cell_text(alloc, Cell::Server(server.server))?)?;
        }
    }
    Ok(holders)
}
