//! How a group stands, moment by moment, as differences.
ghost use Rattle.std.specs.Prelude.{◌≡◌, ◌+◌, [], IfOk, OnErr, OnOk, length};

use crate::changes::{Change, changes_between};
use crate::entries::{EntryKey, no_entries, put_entries};
use crate::kept::KeptTable;
use crate::lines::{client_lines, desk_lines, head_line, server_lines, state_head, state_lines};
use crate::moments::Moments;
use crate::texts::Texts;
use rows::NoMemory;
use sim_reports::{ClientReport, DeskReport, ServerReport, StateReport};
use std::alloc::Global;
use std::marker::Model;

/// A state that some servers have applied.
#[derive(Drop)]
pub struct Standing {
    /// After how many entries it is.
    pub applied: u64,
    /// The servers that have applied just so many, by their numbers.
    pub servers: Vec<u8>,
}

// The lines of a state, by their places.
#[derive(Drop)]
struct StateLines {
    applied: u64,
    places: Vec<usize>,
}

// The lines of the parts of a report, by their places.
#[derive(Drop)]
struct Parts {
    servers: Vec<usize>,
    entries: Vec<usize>,
    desks: Vec<usize>,
    clients: Vec<usize>,
    states: Vec<StateLines>,
}

/// Puts down how a group stands, moment by moment. What changed from one moment to the next is put
/// first, part by part; what did not is not made anew. Contracts see the moments so far.
#[derive(Drop)]
pub struct Recorder {
    texts: Texts,
    table: KeptTable<EntryKey>,
    parts: Parts,
    // The lines of the last moment, and where each line stood last.
    shown: Vec<usize>,
    stood: Vec<usize>,
    moments: Vec<Vec<Change>>,
}

impl Model for Recorder {
    ghost use Rattle.std.specs.Prelude.{List, Vec};
    ghost use Rattle.std.specs.declared.alloc.Global.{Global};
    ghost use Rattle.sim_report_lines.specs.declared.changes.Change.{Change};

    ghost Value = { List (Vec Change Global) };

    ghost view = { λ r. r.moments.items };
}

impl Recorder {
    /// No moment, and nothing put.
    pub fn new(alloc: Global) -> Result<Recorder, NoMemory>
        ensures { IfOk result (λ recorder. recorder ≡ []) }
    {
        Ok(Recorder {
            texts: Texts::new(alloc)?,
            table: no_entries(alloc)?,
            parts: Parts::new(alloc),
            shown: Vec::new(alloc),
            stood: Vec::new(alloc),
            moments: Vec::new(alloc),
        })
    }

    /// The servers stand so now.
    pub fn put_servers(&mut self, alloc: Global, servers: &[ServerReport]) -> Result<(), NoMemory>
        ensures { self.new ≡ self.old }
    {
        let lines = server_lines(alloc, servers)?;
        put(alloc, &mut self.texts, &mut self.parts.servers, lines)
    }

    /// The servers' logs stand so now.
    pub fn put_logs(&mut self, alloc: Global, servers: &[ServerReport]) -> Result<(), NoMemory>
        ensures { self.new ≡ self.old }
    {
        put_entries(alloc, &mut self.table, servers)?;
        lay_out(
            alloc,
            &mut self.texts,
            &mut self.table,
            &mut self.parts.entries,
        )
    }

    /// The desks of the servers that lead stand so now.
    pub fn put_desks(&mut self, alloc: Global, desks: &[DeskReport]) -> Result<(), NoMemory>
        ensures { self.new ≡ self.old }
    {
        let lines = desk_lines(alloc, desks)?;
        put(alloc, &mut self.texts, &mut self.parts.desks, lines)
    }

    /// The clients stand so now.
    pub fn put_clients(&mut self, alloc: Global, clients: &[ClientReport]) -> Result<(), NoMemory>
        ensures { self.new ≡ self.old }
    {
        let lines = client_lines(alloc, clients)?;
        put(alloc, &mut self.texts, &mut self.parts.clients, lines)
    }

    /// Whether the state after so many entries is among those that were put.
    pub fn has_state(&self, applied: u64) -> bool {
        self.parts
            .states
            .iter()
            .any(|state| state.applied == applied)
    }

    /// A state that some servers have applied, which is put for the first time.
    pub fn put_state(&mut self, alloc: Global, state: &StateReport) -> Result<(), NoMemory>
        ensures { self.new ≡ self.old }
    {
        let lines = state_lines(alloc, state)?;
        put_state(
            alloc,
            &mut self.texts,
            &mut self.parts.states,
            state.applied,
            lines,
        )
    }

    /// Which of the states that were put are applied now, in this order, and where. What was put of
    /// others is forgotten.
    pub fn put_standing(&mut self, alloc: Global, standing: &[Standing]) -> Result<(), NoMemory>
        ensures { self.new ≡ self.old }
    {
        arrange(alloc, &mut self.texts, &mut self.parts.states, standing)
    }

    /// One moment more: the group stands as was put, after so many of so many events, and so many
    /// messages were sent.
    pub fn record(
        &mut self,
        alloc: Global,
        after: usize,
        events: usize,
        messages: usize,
    ) -> Result<(), NoMemory>
        ensures ok { OnOk result (length self.new ≡ length self.old + 1) }
        ensures err { OnErr result (self.new ≡ self.old) }
    {
        let head = head_line(alloc, after, events, messages)?;
        let place = self.texts.place_of(alloc, head)?;
        let lines = self.parts.lines(alloc, place)?;
        let changes = changes_between(alloc, &self.shown, &lines, &self.stood)?;
        note_places(&mut self.stood, self.texts.len(), &lines)?;
        self.moments.push(changes)?;
        self.shown = lines;
        Ok(())
    }

    /// The moments.
    pub fn into_moments(self) -> Moments
        ensures { result.moments.items ≡ self }
    {
        let Recorder {
            texts,
            table: _,
            parts: _,
            shown: _,
            stood: _,
            moments,
        } = self;
        let lines = texts.into_lines();
        Moments { lines, moments }
    }
}

impl Parts {
    fn new(alloc: Global) -> Parts {
        Parts {
            servers: Vec::new(alloc),
            entries: Vec::new(alloc),
            desks: Vec::new(alloc),
            clients: Vec::new(alloc),
            states: Vec::new(alloc),
        }
    }

    // The lines of all parts behind the first line, in the order of a report.
    fn lines(&self, alloc: Global, first: usize) -> Result<Vec<usize>, NoMemory> {
        let mut lines = Vec::new(alloc);
        lines.push(first)?;
        lines.extend_from_slice(&self.servers)?;
        lines.extend_from_slice(&self.entries)?;
        lines.extend_from_slice(&self.desks)?;
        lines.extend_from_slice(&self.clients)?;
        for state in &self.states {
            lines.extend_from_slice(&state.places)?;
        }
        Ok(lines)
    }
}

// These lines are the part.
fn put(
    alloc: Global,
    texts: &mut Texts,
    part: &mut Vec<usize>,
    lines: Vec<String>,
) -> Result<(), NoMemory> {
    let places = texts.places_of(alloc, lines)?;
    *part = places;
    Ok(())
}

// The rows that were put into the table are the part.
fn lay_out(
    alloc: Global,
    texts: &mut Texts,
    table: &mut KeptTable<EntryKey>,
    part: &mut Vec<usize>,
) -> Result<(), NoMemory> {
    let places = table.lay_out(alloc, texts, part)?;
    *part = places;
    Ok(())
}

// One state more, of these lines.
fn put_state(
    alloc: Global,
    texts: &mut Texts,
    states: &mut Vec<StateLines>,
    applied: u64,
    lines: Vec<String>,
) -> Result<(), NoMemory> {
    let places = texts.places_of(alloc, lines)?;
    states.push(StateLines { applied, places })?;
    Ok(())
}

// Of these states those that are applied, in this order, with heads that say where.
fn arrange(
    alloc: Global,
    texts: &mut Texts,
    states: &mut Vec<StateLines>,
    standing: &[Standing],
) -> Result<(), NoMemory> {
    let mut arranged = Vec::new(alloc);
    for one in standing {
        move_state(alloc, texts, states, &mut arranged, one)?;
    }
    *states = arranged;
    Ok(())
}

// Moves a state, if it is there, behind these others.
fn move_state(
    alloc: Global,
    texts: &mut Texts,
    from: &mut Vec<StateLines>,
    to: &mut Vec<StateLines>,
    one: &Standing,
) -> Result<(), NoMemory> {
    let head = state_head(alloc, one.applied, &one.servers)?;
    let place = texts.place_of(alloc, head)?;
    if let Some(state) = taken(from, one.applied) {
        to.push(headed(state, place))?;
    }
    Ok(())
}

// Takes out the state after so many entries.
fn taken(states: &mut Vec<StateLines>, applied: u64) -> Option<StateLines> {
    let at = states.iter().position(|state| state.applied == applied)?;
    Some(states.remove(at))
}

// A state with this line in place of its head, which stands behind an empty one.
fn headed(state: StateLines, head: usize) -> StateLines {
    let StateLines {
        applied,
        mut places,
    } = state;
    if let Some(place) = places.get_mut(1) {
        *place = head;
    }
    StateLines { applied, places }
}

// Where each of so many lines stands now, if it is one of these.
fn note_places(stood: &mut Vec<usize>, count: usize, lines: &[usize]) -> Result<(), NoMemory> {
    for _ in stood.len()..count {
        stood.push(0)?;
    }
    for (at, line) in lines.iter().enumerate() {
        if let Some(place) = stood.get_mut(*line) {
            *place = at;
        }
    }
    Ok(())
}
