//! What a server stores: its vote, and its log.
ghost use Rattle.std.specs.Prelude.{◌≡◌};
ghost use Rattle.sim_inspect.specs.Inner.Applied.{applied_in};

use crate::commands::command_text;
use fsm_state::Cluster;
use machine::{Coded, Entry};
use rows::{NoMemory, ServerId};
use server::Server;
use sim_labels::role_word;
use sim_reports::{EntryReport, ServerReport};
use std::alloc::Global;
use std::mem;

/// What is reported of a server.
pub(crate) fn server_report(alloc: Global, server: &Server) -> Result<ServerReport, NoMemory> {
    let (_term, vote, log) = server.stable()?.into_parts();
    let covered = log.covered().get();
    let known = Vec::new(alloc);
    let entries = entry_reports(alloc, covered, log.behind(covered), known)?;
    Ok(report_of(server, number_of(vote), covered, entries))
}

/// Reports of a server anew, where `report` is what was reported of it before, and whether its log
/// became another one. Two entries of one index and term are the same. What it stores is copied to
/// be looked at, so only where its term or its last index changed, or it may be replaced.
pub(crate) fn renew_server(
    alloc: Global,
    server: &Server,
    report: &mut ServerReport,
    may_replace: bool,
) -> Result<bool, NoMemory> {
    let is_longer = server.last().get() != report.last;
    if may_replace || is_longer || server.term().get() != report.term {
        return renew_stored(alloc, server, report);
    }
    report.role = role_word(server.role());
    report.applied = applied_number(server);
    Ok(false)
}

fn renew_stored(
    alloc: Global,
    server: &Server,
    report: &mut ServerReport,
) -> Result<bool, NoMemory> {
    let (_term, vote, log) = server.stable()?.into_parts();
    let covered = log.covered().get();
    let entries = log.behind(covered);
    let is_same = covered == report.covered && are_reported(entries, &report.log);
    let mut known = mem::replace(&mut report.log, Vec::new(alloc));
    if !is_same {
        known.reverse();
        known = entry_reports(alloc, covered, entries, known)?;
    }
    *report = report_of(server, number_of(vote), covered, known);
    Ok(!is_same)
}

// What is reported of a server with this vote, of whose log so many entries are covered and these
// are not.
fn report_of(
    server: &Server,
    vote: Option<u8>,
    covered: u64,
    log: Vec<EntryReport>,
) -> ServerReport {
    ServerReport {
        server: server.me().number(),
        role: role_word(server.role()),
        term: server.term().get(),
        vote,
        last: server.last().get(),
        covered,
        applied: applied_number(server),
        log,
    }
}

/// How many entries a server has applied, while it is up.
pub(crate) fn applied_number(server: &Server) -> Option<u64>
    ensures { result ≡ applied_in server.now }
{
    match server.applied() {
        Some(applied) => Some(applied.get()),
        None => None,
    }
}

// Whether these are the reports of just these entries, which begin behind the same index.
fn are_reported(entries: &[Entry<Coded<Cluster>>], reports: &[EntryReport]) -> bool {
    if entries.len() != reports.len() {
        return false;
    }
    for (entry, report) in entries.iter().zip(reports) {
        if entry.term.get() != report.term {
            return false;
        }
    }
    true
}

fn number_of(server: Option<ServerId>) -> Option<u8> {
    match server {
        Some(server) => Some(server.number()),
        None => None,
    }
}

// The entries behind an index, where those are reported of already that are known, from the last one
// on.
fn entry_reports(
    alloc: Global,
    covered: u64,
    entries: &[Entry<Coded<Cluster>>],
    known: Vec<EntryReport>,
) -> Result<Vec<EntryReport>, NoMemory> {
    let mut known = known;
    let mut reports = Vec::new(alloc);
    let mut index = covered;
    for entry in entries {
        index = index.saturating_add(1);
        let report = match known_report(&mut known, index, entry.term.get()) {
            Some(report) => report,
            None => entry_report(alloc, index, entry)?,
        };
        reports.push(report)?;
    }
    Ok(reports)
}

// Takes out the report of the entry of this index and term, if it is known; those before it are
// dropped.
fn known_report(known: &mut Vec<EntryReport>, index: u64, term: u64) -> Option<EntryReport> {
    for _ in 0..known.len() {
        let next = known.last()?.index;
        if index <= next {
            break;
        }
        let _passed = known.pop();
    }
    let last = known.last()?;
    if last.index != index || last.term != term {
        return None;
    }
    known.pop()
}

fn entry_report(
    alloc: Global,
    index: u64,
    entry: &Entry<Coded<Cluster>>,
) -> Result<EntryReport, NoMemory> {
    Ok(EntryReport {
        index,
        term: entry.term.get(),
        command: command_text(alloc, entry.command.command())?,
    })
}
