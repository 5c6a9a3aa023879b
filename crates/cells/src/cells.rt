//! All actors of a group, each in a cell under a lock of its own.
ghost use Rattle.std.specs.Prelude.{◌≡◌, ◌≤◌, true, false, Some, length, map, slice_get, vec_len};
ghost use Rattle.std.specs.Prelude.{IfErr, IfNone, IfOk, IfSome, OnOk, OnSome};
ghost use Rattle.event_book.specs.Seats.{are_apart, lists_actor};
ghost use Rattle.rows.specs.GroupSizes.{IsGroup};
ghost use Rattle.cells.specs.Cells.{AreSent};
ghost use Rattle.cells.specs.Groups.{AreOfGroup, cell_actors, seat_in};
ghost use Rattle.cells.specs.Opening.{MayOpenCells, WhyNotOpen};
ghost use Rattle.cells.specs.Actors.{group_size};
ghost use Rattle.cells.specs.Turns.{TookTurn, WhyNoTurn};

use crate::cell::{Cell, CellTurn};
use crate::envelope::Envelope;
use crate::opening::may_open;
use crate::own_input::OwnInput;
use event_book::{Book, BookId};
use rows::{Actor, NoMemory, Refusal};
use std::alloc::Global;
use std::marker::Model;
use std::sync::{Mutex, MutexGuard, Wait};

/// How many actors there are at most: 5 servers and 64 clients.
const ACTORS: usize = 69;

/// All actors of a group, each in a cell under a lock of its own, and the book in which they note
/// what they do. Contracts see how many servers and clients there are, and who they are.
#[derive(Drop)]
pub struct Cells<B: BookId> {
    pub(crate) alloc: Global,
    pub(crate) size: usize,
    pub(crate) clients: usize,
    pub(crate) book: Book<OwnInput, B>,
    // The actor of the cell at each place.
    pub(crate) actors: Vec<Actor>,
    // Where an actor's cell is, by the actor's index.
    pub(crate) places: [u8; ACTORS],
    pub(crate) cells: Vec<Mutex<Cell<B>>>,
}

impl<B: BookId> Model for Cells<B> {
    ghost use Rattle.std.specs.Prelude.{◌≡◌, ◌≤◌, length, vec_len};
    ghost use Rattle.rows.specs.GroupSizes.{IsGroup};
    ghost use Rattle.cells.specs.Groups.{AreOfGroup, AreSeated};
    ghost use Rattle.cells.specs.Opening.{CellGroup};

    ghost Value = { CellGroup };

    ghost view = { λ c. record {
      servers = c.size;
      clients = c.clients;
      actors = c.actors.items;
    } };

    ghost invariant = { λ c. IsGroup c.size × (c.clients ≤ 64)
        × AreOfGroup c.size c.clients B.actors × (vec_len c.cells ≡ length B.actors)
        × AreSeated c.size c.clients c.actors.items × (vec_len c.actors ≡ vec_len c.cells) };
}

/// Each cell under a lock of its own.
fn locked<B: BookId>(alloc: Global, cells: Vec<Cell<B>>) -> Result<Vec<Mutex<Cell<B>>>, NoMemory>
    ensures { IfOk result (λ locks. vec_len locks ≡ vec_len cells) }
{
    let mut locks = Vec::new(alloc);
    for cell in cells {
        locks.push(Mutex::new(cell))?;
    }
    Ok(locks)
}

/// The cells, once nobody holds their locks.
fn unlocked<B: BookId>(alloc: Global, locks: Vec<Mutex<Cell<B>>>) -> Result<Vec<Cell<B>>, NoMemory>
    ensures { IfOk result (λ cells. vec_len cells ≡ vec_len locks) }
{
    let mut cells = Vec::new(alloc);
    for lock in locks {
        cells.push(lock.into_inner())?;
    }
    Ok(cells)
}

/// The cells of a group that nobody else has, and their book.
#[derive(Drop)]
pub struct OwnedCells<B: BookId> {
    /// How many servers the group has.
    pub servers: usize,
    /// How many clients it has.
    pub clients: usize,
    /// The book in which the actors noted what they did.
    pub book: Book<OwnInput, B>,
    /// The cells, in any order.
    pub cells: Vec<Cell<B>>,
}

/// The actor of each cell, in their order.
fn actors_of<B: BookId>(alloc: Global, cells: &[Cell<B>]) -> Result<Vec<Actor>, NoMemory>
    ensures { IfOk result (λ actors. actors.items ≡ cell_actors cells.now) }
{
    let mut actors = Vec::new(alloc);
    for cell in cells {
        actors.push(cell.seat().actor())?;
    }
    Ok(actors)
}

/// The index of an actor: the servers come first.
fn index_of(actor: Actor) -> usize {
    match actor {
        Actor::Server(server) => server.position(),
        Actor::Client(client) => 4 + usize::from(client.number()),
    }
}

/// The place of each of these actors, by its index.
fn positions_of(actors: &[Actor]) -> [u8; ACTORS] {
    let mut places = [0; ACTORS];
    let mut place = 0u8;
    for actor in actors {
        if let Some(slot) = places.get_mut(index_of(*actor)) {
            *slot = place;
        }
        place = place.saturating_add(1);
    }
    places
}

/// The place of an actor among these; none where it is none of them.
fn position_among(actors: &[Actor], actor: &Actor) -> Option<usize>
    ensures some { IfSome result (λ place. slice_get actors.now place ≡ Some actor.now) }
    ensures none { IfNone result (lists_actor actors.now actor.now ≡ false) }
{
    let (first, rest) = actors.split_first()?;
    if *first == *actor {
        return Some(0);
    }
    Some(position_among(rest, actor)? + 1)
}

impl<B: BookId> Cells<B> {
    /// The cells of a group of `n` servers and `m` clients, each under a lock of its own. They are
    /// new: `cells_of` makes them.
    ///
    /// It is refused with `OutOfRange` where `n` is not 3 or 5 or `m` is more than 64, where the
    /// book's actors are not those of the group, and where the cells are not one for each of them
    /// and for no other, or one of their seats has noted something; and where none of this is so,
    /// with `NoMemory`.
    pub fn open(
        alloc: Global,
        n: usize,
        m: usize,
        book: Book<OwnInput, B>,
        cells: Vec<Cell<B>>,
    ) -> Result<Cells<B>, Refusal>
        ensures ok { OnOk result (MayOpenCells n m B.actors (map seat_in cells.items)) }
        ensures size { IfOk result (λ c. (c.servers ≡ n) × (c.clients ≡ m)) }
        ensures actors { IfOk result (λ c. c.actors ≡ cell_actors cells.items) }
        ensures refused { IfErr result
            (WhyNotOpen (MayOpenCells n m B.actors (map seat_in cells.items))) }
    {
        if !may_open(n, m, book.actors(), cells.as_slice()) {
            return Err(Refusal::OutOfRange);
        }
        let actors = actors_of(alloc, cells.as_slice())?;
        let places = positions_of(actors.as_slice());
        let cells = locked(alloc, cells)?;
        Ok(Cells {
            alloc,
            size: n,
            clients: m,
            book,
            actors,
            places,
            cells,
        })
    }

    /// Where its memory is of. Of an allocator no clause says anything.
    pub fn alloc(&self) -> Global {
        self.alloc
    }

    /// The book in which the actors note what they do.
    pub fn book(&self) -> &Book<OwnInput, B> {
        &self.book
    }

    /// The actors of the group, each once, in the order of their cells.
    pub fn actors(&self) -> &[Actor]
        ensures actors { result.now ≡ self.now.actors }
        ensures are { AreOfGroup self.now.servers self.now.clients result.now }
        ensures once { are_apart result.now ≡ true }
    {
        self.actors.as_slice()
    }

    /// How many of them are servers.
    pub fn servers(&self) -> usize
        ensures { result ≡ self.now.servers }
    {
        self.size
    }

    /// The place of an actor among those of the group; none where it is none of them.
    pub(crate) fn position_of(&self, actor: Actor) -> Option<usize>
        ensures some { IfSome result (λ place.
            slice_get self.now.actors place ≡ Some actor) }
        ensures none { IfNone result (lists_actor self.now.actors actor ≡ false) }
    {
        let actors = self.actors.as_slice();
        if let Some(place) = self.places.get(index_of(actor))
            && let Some(found) = actors.get(usize::from(*place))
            && *found == actor
        {
            return Some(usize::from(*place));
        }
        // No actor of the group comes here.
        position_among(actors, &actor)
    }

    /// Two envelopes of one, for a message that is delivered twice: `Envelope::again`.
    pub fn again(&self, envelope: Envelope<B>) -> Result<(Envelope<B>, Envelope<B>), Envelope<B>>
        ensures both { IfOk result (λ both. (both.0 ≡ envelope) × (both.1 ≡ envelope)) }
        ensures back { IfErr result (λ back. back ≡ envelope) }
    {
        envelope.again(self.alloc, &self.book)
    }

    /// The cell at an actor's place, alone, once it is free; none where the group has no such actor.
    /// While the guard is held that actor takes nothing.
    /// - `some`: there is one only where the group has the actor.
    /// - `none`: there is none only where the group lacks the actor.
    #[tactic(auto, using(crate::proofs::Places::found_within, crate::proofs::Places::found_listed))]
    pub fn lock<R: Wait>(&self, rt: &R, actor: Actor) -> Option<MutexGuard<'_, Cell<B>>>
        ensures some { OnSome result (lists_actor self.now.actors actor ≡ true) }
        ensures none { IfNone result (lists_actor self.now.actors actor ≡ false) }
    {
        let place = self.position_of(actor)?;
        Some(self.cells[place].lock(rt))
    }

    /// The cells, once nobody holds their locks, with what they close to asks for: how many servers
    /// and clients the group has, and its book. Memory may be wanting for the list of the cells.
    /// - `count`: there are as many cells as the book has actors. That each of them has one follows
    ///   when the book closes.
    /// - `size`: the group has as many servers and clients as it was opened with.
    /// - `range`, `group`: these are 3 or 5, and at most 64, and the book's actors are theirs.
    pub fn into_cells(self) -> Result<OwnedCells<B>, NoMemory>
        ensures count { IfOk result (λ c. length c.cells.items ≡ length B.actors) }
        ensures size { IfOk result (λ c.
            (c.servers ≡ self.servers) × (c.clients ≡ self.clients)) }
        ensures range { IfOk result (λ c. IsGroup c.servers × (c.clients ≤ 64)) }
        ensures group { IfOk result (λ c. AreOfGroup c.servers c.clients B.actors) }
    {
        let Cells {
            alloc,
            size,
            clients,
            book,
            actors: _,
            places: _,
            cells,
        } = self;
        Ok(OwnedCells {
            servers: size,
            clients,
            book,
            cells: unlocked(alloc, cells)?,
        })
    }
}

/// An actor takes an envelope: its cell is locked, and no other.
///
/// It is refused with `OutOfRange` where the group has no such actor, and else as `Cell::take`
/// refuses. What the actor sent comes with its tokens.
/// - `ok`: a cell of the envelope's receiver took one step by it, as `Cell::take` says; this came
///   for its workers, this was sent, and so many messages more found no memory.
/// - `sent`: what was sent are first outputs of one event that the receiver noted.
/// - `refused`: the group lacks the actor, or a cell of the actor refuses the envelope so. What is
///   locked is known to be that actor's cell since it is asked; it would be refused with
///   `OutOfRange` if it were not.
pub fn turn<B: BookId, R: Wait>(
    rt: &R,
    cells: &Cells<B>,
    actor: Actor,
    envelope: Envelope<B>,
) -> Result<CellTurn<B>, Refusal>
    ensures ok { IfOk result (λ turn.
        TookTurn (group_size B.actors) envelope turn.work turn.sent.items turn.unsent) }
    ensures sent { IfOk result (λ turn. AreSent envelope.receiver turn.sent.items) }
    ensures refused { IfErr result (λ cause.
        WhyNoTurn (group_size B.actors) cells.now.actors actor envelope cause) }
{
    let me = actor;
    let Some(mut cell) = cells.lock(rt, actor) else {
        return Err(Refusal::OutOfRange);
    };
    cell.take_of(me, cells.alloc, &cells.book, envelope)
}
