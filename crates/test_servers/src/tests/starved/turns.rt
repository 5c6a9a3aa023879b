//! The row's events come to a group's cells, a turn for each, and each turn is judged.
ghost use Rattle.std.specs.Prelude.{◌≡◌};

use super::row::{Next, TRIES, is_restart, restart};
use super::shown::{Shown, shown_client, shown_group, shown_server};
use super::stop::{Stop, unmade};
use cluster::{
    CellTurn, Cells, Envelope, GroupActor, KeptEvent, OwnInput, StampedEvent, cells_of, close, turn,
};
use event_book::{BookId, OpenedBook};
use group_inputs::Event;
use rows::{Actor, ClientId, NoMemory, Refusal, ServerId};
use std::alloc::Global;
use std::marker::Brand;
use std::sync::Wait;
use transcript::Transcript;

// A message on its way: the stamp of the event that sent it, and its place in that.
#[derive(Drop)]
struct Message<B: BookId> {
    from: (u64, u64),
    envelope: Envelope<B>,
}

// A group's cells, and all messages that were ever sent, those that came or were lost left out.
#[derive(Drop)]
struct Turns<B: BookId> {
    alloc: Global,
    cells: Cells<B>,
    messages: Vec<Option<Message<B>>>,
}

// What is seen of a cell: how many events it keeps, and its actor.
#[derive(Drop, PartialEq, Eq)]
struct ShownCell {
    inputs: usize,
    actor: Shown,
}

fn shown_actor(alloc: Global, actor: &GroupActor) -> Result<Shown, NoMemory> {
    match actor {
        GroupActor::Server(server) => shown_server(alloc, server),
        GroupActor::Client(client) => shown_client(alloc, client),
    }
}

// Whether a crash kept what is stored: what a server stores, and what a client started.
fn keeps(old: &Shown, new: &Shown) -> bool {
    match (old, new) {
        (Shown::Server(old), Shown::Server(new)) => old.stored == new.stored,
        (Shown::Client(old), Shown::Client(new)) => old.started == new.started,
        _ => false,
    }
}

// Whether an event that is kept is what came: an input of the actor's own, or this message.
fn is_it(found: &StampedEvent, from: Option<(u64, u64)>) -> bool {
    match (&found.event, from) {
        (KeptEvent::Own(_), None) => true,
        (KeptEvent::Delivery { stamp, place }, Some(from)) => (*stamp, *place) == from,
        _ => false,
    }
}

impl<B: BookId> Turns<B> {
    fn shown<R: Wait>(&self, rt: &R, me: Actor) -> Result<ShownCell, Stop> {
        let Some(cell) = self.cells.lock(rt, me) else {
            return Err(Stop::Unmade);
        };
        Ok(ShownCell {
            inputs: cell.inputs().len(),
            actor: shown_actor(self.alloc, cell.actor())?,
        })
    }

    // What was sent is on its way, and has its number behind all others; what was left out too.
    fn post(&mut self, stamp: u64, turn: CellTurn<B>) -> Result<(), Stop> {
        let CellTurn { sent, unsent, .. } = turn;
        for (place, envelope) in sent.into_iter().enumerate() {
            let from = (stamp, place as u64);
            self.messages.push(Some(Message { from, envelope }))?;
        }
        for _ in 0..unsent {
            self.messages.push(None)?;
        }
        Ok(())
    }

    // An actor had its turn: the cell keeps one event more, which is what came or a crash, and as
    // many messages as the turn tells. Answers the event's stamp, and whether it is a crash.
    fn taken<R: Wait>(
        &self,
        rt: &R,
        me: Actor,
        was: &ShownCell,
        from: Option<(u64, u64)>,
        count: usize,
    ) -> Result<(u64, bool), Stop> {
        let Some(cell) = self.cells.lock(rt, me) else {
            return Err(Stop::Unmade);
        };
        let inputs = cell.inputs();
        let Some(last) = inputs.last() else {
            return Err(Stop::Unkept);
        };
        if inputs.len() != was.inputs.saturating_add(1) || last.sent != count {
            return Err(Stop::Unkept);
        }
        if is_it(last, from) {
            return Ok((last.stamp, false));
        }
        if !matches!(last.event, KeptEvent::Crash) || count != 0 {
            return Err(Stop::Unkept);
        }
        if cell.actor().is_up() {
            return Err(Stop::Up);
        }
        if !keeps(&was.actor, &shown_actor(self.alloc, cell.actor())?) {
            return Err(Stop::Changed);
        }
        Ok((last.stamp, true))
    }

    // An actor takes what comes, and the answer is judged.
    fn hand<R: Wait>(
        &mut self,
        rt: &R,
        me: Actor,
        envelope: Envelope<B>,
        from: Option<(u64, u64)>,
    ) -> Result<Next, Stop> {
        let was = self.shown(rt, me)?;
        match turn(rt, &self.cells, me, envelope) {
            Ok(turn) => {
                let count = turn.sent.len().saturating_add(turn.unsent);
                let (stamp, crashed) = self.taken(rt, me, &was, from, count)?;
                self.post(stamp, turn)?;
                Ok(if crashed { Next::Restart(me) } else { Next::On })
            }
            Err(refusal) => {
                if self.shown(rt, me)? != was {
                    return Err(Stop::Changed);
                }
                Ok(match refusal {
                    Refusal::NoMemory if from.is_none() => Next::Again,
                    _ => Next::On,
                })
            }
        }
    }

    // An event comes: a message that is not on its way does not.
    fn come<R: Wait>(&mut self, rt: &R, event: &Event) -> Result<Next, Stop> {
        match event.try_clone(self.alloc)? {
            Event::Deliver(k) => self.deliver(rt, k),
            Event::Server(me, input) => {
                let envelope = Envelope::own(Actor::Server(me), OwnInput::Server(input));
                self.hand(rt, Actor::Server(me), envelope, None)
            }
            Event::Client(me, input) => {
                let envelope = Envelope::own(Actor::Client(me), OwnInput::Client(input));
                self.hand(rt, Actor::Client(me), envelope, None)
            }
        }
    }

    // The k-th message of all that were sent comes, from 1.
    fn deliver<R: Wait>(&mut self, rt: &R, k: u64) -> Result<Next, Stop> {
        let Some(place) = k.checked_sub(1) else {
            return Ok(Next::On);
        };
        let Some(slot) = self.messages.get_mut(place as usize) else {
            return Ok(Next::On);
        };
        match slot.take() {
            Some(Message { from, envelope }) => {
                let me = envelope.receiver();
                self.hand(rt, me, envelope, Some(from))
            }
            None => Ok(Next::On),
        }
    }

    // An actor starts again; once more where it finds no memory.
    fn revive<R: Wait>(&mut self, rt: &R, actor: &Actor) -> Result<Next, Stop> {
        let back = restart(self.alloc, actor)?;
        Ok(match self.come(rt, &back)? {
            Next::Again => Next::Restart(*actor),
            Next::Restart(me) => Next::Restart(me),
            Next::On => Next::On,
        })
    }

    // An event comes, once more where it finds no memory; an actor that goes down for that restarts.
    fn settle<R: Wait>(&mut self, rt: &R, event: &Event) -> Result<(), Stop> {
        let mut next = self.come(rt, event)?;
        for _ in 0..TRIES {
            next = match next {
                Next::On => return Ok(()),
                Next::Again => self.come(rt, event)?,
                Next::Restart(actor) => self.revive(rt, &actor)?,
            };
        }
        Ok(())
    }

    // The row's events come, one by one.
    fn play<R: Wait>(&mut self, rt: &R, row: &Transcript, at: &mut usize) -> Result<(), Stop> {
        for event in &row.events {
            *at = at.saturating_add(1);
            self.settle(rt, event)?;
        }
        Ok(())
    }

    // What is seen of all cells, in their order.
    fn all_shown<R: Wait>(&self, rt: &R) -> Result<(Vec<Shown>, usize), Stop> {
        let mut all = Vec::new(self.alloc);
        let mut count: usize = 0;
        for me in self.cells.actors() {
            let ShownCell { inputs, actor } = self.shown(rt, *me)?;
            count = count.saturating_add(inputs);
            all.push(actor)?;
        }
        Ok((all, count))
    }
}

// The servers of the row's group.
fn push_servers(row: &Transcript, out: &mut Vec<Actor>) -> Result<(), Stop> {
    for position in 0..row.servers {
        let server = ServerId::from_position(position).ok_or(Stop::Unmade)?;
        out.push(Actor::Server(server))?;
    }
    Ok(())
}

// A client for each of the row's nodes.
fn push_clients(row: &Transcript, out: &mut Vec<Actor>) -> Result<(), Stop> {
    for node in &row.nodes {
        let client = ClientId::from_number(node.number.number()).ok_or(Stop::Unmade)?;
        out.push(Actor::Client(client))?;
    }
    Ok(())
}

// The actors of the row's group: its servers, and a client for each of its nodes.
fn actors(alloc: Global, row: &Transcript) -> Result<Vec<Actor>, Stop> {
    let mut actors = Vec::new(alloc);
    push_servers(row, &mut actors)?;
    push_clients(row, &mut actors)?;
    Ok(actors)
}

// The cells of the row's group, before their first turn.
fn open_cells<B: BookId>(
    alloc: Global,
    row: &Transcript,
    opened: OpenedBook<OwnInput>,
) -> Result<Cells<B>, Refusal>
    requires book { opened ≡ (B.table, B.actors) }
    requires nodes { row.now.nodes.items ≡ B.nodes }
{
    let (book, seats) = opened.seats::<B>(alloc)?;
    let cells = cells_of(alloc, row.servers, row.nodes.as_slice(), &book, seats)?;
    Cells::open(alloc, row.servers, row.nodes.len(), book, cells)
}

// The cells close to a world that is as they were: with so many events and messages, and with these
// actors.
fn close_to<B: BookId>(
    alloc: Global,
    cells: Cells<B>,
    shown: &[Shown],
    count: usize,
    sent: usize,
) -> Result<(), Stop> {
    let world = close(alloc, cells.into_cells()?)?;
    let is_same = world.trace().len() == count && world.sent().len() == sent;
    if !is_same || shown_group(alloc, &world)?.as_slice() != shown {
        return Err(Stop::Elsewhere);
    }
    Ok(())
}

// The cells of the row's group, before their first turn, and no message yet.
fn opened_turns<B: BookId>(
    alloc: Global,
    row: &Transcript,
    opened: OpenedBook<OwnInput>,
) -> Result<Turns<B>, Stop>
    requires book { opened ≡ (B.table, B.actors) }
    requires nodes { row.now.nodes.items ≡ B.nodes }
{
    match open_cells::<B>(alloc, row, opened) {
        Ok(cells) => Ok(Turns {
            alloc,
            cells,
            messages: Vec::new(alloc),
        }),
        Err(refusal) => Err(unmade(refusal)),
    }
}

// The row's events come to cells under this name.
fn play_cells<B: BookId, R: Wait>(
    rt: &R,
    alloc: Global,
    row: &Transcript,
    opened: OpenedBook<OwnInput>,
    at: &mut usize,
) -> Result<(), Stop>
    requires book { opened ≡ (B.table, B.actors) }
    requires nodes { row.now.nodes.items ≡ B.nodes }
{
    let mut turns = opened_turns::<B>(alloc, row, opened)?;
    turns.play(rt, row, at)?;
    let (shown, count) = turns.all_shown(rt)?;
    let Turns {
        cells,
        messages,
        ..
    } = turns;
    let sent = messages.len();
    drop(messages);
    close_to(alloc, cells, shown.as_slice(), count, sent)
}

/// The row's events come to a group's cells; `at` counts those that came.
pub(super) fn play_turns<R: Wait>(
    rt: &R,
    alloc: Global,
    row: Result<Transcript, Stop>,
    at: &mut usize,
) -> Result<(), Stop> {
    let row = row?;
    let book = match OpenedBook::new(alloc, actors(alloc, &row)?) {
        Ok(book) => book,
        Err(refusal) => return Err(unmade(refusal)),
    };
    play_cells::<Brand, _>(rt, alloc, &row, book, at)
}
