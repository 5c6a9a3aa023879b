//! How the cells of a group are opened.
ghost use Rattle.std.specs.Prelude.{◌≡◌, ◌<◌, ◌≤◌, ℕ, suc, true, false, length, map, IfOk, IfErr, MatchBool, OnOk};
ghost use Rattle.std.specs.List.{AllByRecursion};
ghost use Rattle.rows.specs.declared.actor.Actor.TheVariants as actors;
ghost use Rattle.rows.specs.GroupSizes.{IsGroup};
ghost use Rattle.event_book.specs.Seats.{are_apart, lists_actor};
ghost use Rattle.cells.specs.Actors.{group_size, BeginsAs};
ghost use Rattle.cells.specs.Groups.{AreOfGroup, AreSeated, cell_actors, seat_in};
ghost use Rattle.cells.specs.Inner.Begun.{HasSeat, WhyNotBegun};
ghost use Rattle.cells.specs.Opening.{AreNew, IsOfGroup, MayMakeCells, MayOpen, MayOpenCells, WhyNotOpen};

use crate::cell::Cell;
use crate::own_input::OwnInput;
use actor::GroupActor;
use client_agent::Agent;
use event_book::{ActorSeat, Book, BookId};
use rows::{Actor, ClientId, NodeId, NodeSpec, Refusal, ServerId, is_group_size};
use server::Server;
use std::alloc::Global;

/// Whether each of the `n` servers is among these.
fn has_servers(n: usize, all: &[Actor]) -> bool
    requires { n ≤ 5 }
    ensures yes { result ≡ true →
        (i : ℕ) → i < n → lists_actor all.now (actors.Server i) ≡ true }
    ensures no { result ≡ false →
        (i : ℕ) × (i < n) × (lists_actor all.now (actors.Server i) ≡ false) }
{
    for position in 0..n {
        let Some(server) = ServerId::from_position(position) else {
            unreachable!()
        };
        if !all.contains(&Actor::Server(server)) {
            return false;
        }
    }
    true
}

/// Whether each of the `m` clients is among these.
fn has_clients(m: usize, all: &[Actor]) -> bool
    requires { m ≤ 64 }
    ensures yes { result ≡ true →
        (k : ℕ) → k < m → lists_actor all.now (actors.Client (suc k)) ≡ true }
    ensures no { result ≡ false →
        (k : ℕ) × (k < m) × (lists_actor all.now (actors.Client (suc k)) ≡ false) }
{
    for place in 0..m {
        let Some(client) = ClientId::from_number(place as u8 + 1) else {
            unreachable!()
        };
        if !all.contains(&Actor::Client(client)) {
            return false;
        }
    }
    true
}

/// Whether the group has this actor.
fn is_of_group(n: usize, m: usize, actor: Actor) -> bool
    ensures { MatchBool result (IsOfGroup n m actor) (IsOfGroup n m actor → ⊥) }
{
    match actor {
        Actor::Server(server) => server.position() < n,
        Actor::Client(client) => usize::from(client.number()) <= m,
    }
}

/// Whether all of these are actors of the group.
fn are_within(n: usize, m: usize, all: &[Actor]) -> bool
    ensures { MatchBool result (AllByRecursion (IsOfGroup n m) all.now)
        (AllByRecursion (IsOfGroup n m) all.now → ⊥) }
{
    match all.split_first() {
        None => true,
        Some((actor, rest)) => is_of_group(n, m, *actor) && are_within(n, m, rest),
    }
}

/// Whether these are the actors of a group of `n` servers and `m` clients.
fn is_group(n: usize, m: usize, all: &[Actor]) -> bool
    requires servers { n ≤ 5 }
    requires clients { m ≤ 64 }
    ensures { MatchBool result (AreOfGroup n m all.now) (AreOfGroup n m all.now → ⊥) }
{
    if !are_within(n, m, all) {
        return false;
    }
    if !has_servers(n, all) {
        return false;
    }
    has_clients(m, all)
}

/// Whether this seat is of an actor of the group, and noted nothing.
fn is_unused<B: BookId>(n: usize, m: usize, seat: &ActorSeat<OwnInput, B>) -> bool
    ensures { MatchBool result (MayOpen n m seat.now) (MayOpen n m seat.now → ⊥) }
{
    !seat.has_noted() && is_of_group(n, m, seat.actor())
}

/// Whether each of these seats is of an actor of the group, and noted nothing.
fn are_unused<B: BookId>(n: usize, m: usize, seats: &[ActorSeat<OwnInput, B>]) -> bool
    ensures { MatchBool result (AllByRecursion (MayOpen n m) seats.now)
        (AllByRecursion (MayOpen n m) seats.now → ⊥) }
{
    match seats.split_first() {
        None => true,
        Some((seat, rest)) => is_unused(n, m, seat) && are_unused(n, m, rest),
    }
}

/// Whether there may be new cells at these seats, in a group of `n` servers and `m` clients whose
/// book has these actors. It takes no memory.
fn may_make<B: BookId>(n: usize, m: usize, all: &[Actor], seats: &[ActorSeat<OwnInput, B>]) -> bool
    ensures { MatchBool result (MayMakeCells n m all.now seats.now)
        (MayMakeCells n m all.now seats.now → ⊥) }
{
    if !is_group_size(n) || m > 64 {
        return false;
    }
    is_group(n, m, all) && are_unused(n, m, seats)
}

/// Whether the seat of each of these cells is of an actor of the group, and noted nothing.
fn are_fresh<B: BookId>(n: usize, m: usize, cells: &[Cell<B>]) -> bool
    ensures { MatchBool result (AllByRecursion (MayOpen n m) (map seat_in cells.now))
        (AllByRecursion (MayOpen n m) (map seat_in cells.now) → ⊥) }
{
    match cells.split_first() {
        None => true,
        Some((cell, rest)) => is_unused(n, m, cell.seat()) && are_fresh(n, m, rest),
    }
}

/// Whether one of these cells has this actor's seat.
fn has_seat<B: BookId>(cells: &[Cell<B>], actor: Actor) -> bool
    ensures { result ≡ lists_actor (cell_actors cells.now) actor }
{
    match cells.split_first() {
        None => false,
        Some((cell, rest)) => cell.seat().actor() == actor || has_seat(rest, actor),
    }
}

/// Whether each of these actors has its seat in one of these cells.
fn have_seats<B: BookId>(cells: &[Cell<B>], all: &[Actor]) -> bool
    ensures { MatchBool result (AllByRecursion (HasSeat (map seat_in cells.now)) all.now)
        (AllByRecursion (HasSeat (map seat_in cells.now)) all.now → ⊥) }
{
    match all.split_first() {
        None => true,
        Some((actor, rest)) => has_seat(cells, *actor) && have_seats(cells, rest),
    }
}

/// Whether no two of these cells have seats of one actor.
fn are_single<B: BookId>(cells: &[Cell<B>]) -> bool
    ensures { result ≡ are_apart (cell_actors cells.now) }
{
    match cells.split_first() {
        None => true,
        Some((cell, rest)) => !has_seat(rest, cell.seat().actor()) && are_single(rest),
    }
}

/// Whether a group's actors have one each of these cells, whose seats are of actors of the group.
#[tactic(auto, using(crate::proofs::Members::seats_of_group, crate::proofs::Members::group_has_seats))]
fn are_seated<B: BookId>(n: usize, m: usize, all: &[Actor], cells: &[Cell<B>]) -> bool
    requires group { AreOfGroup n m all.now }
    requires unused { AllByRecursion (MayOpen n m) (map seat_in cells.now) }
    ensures { MatchBool result (AreSeated n m (cell_actors cells.now))
        (AreSeated n m (cell_actors cells.now) → ⊥) }
{
    have_seats(cells, all) && are_single(cells)
}

/// Whether these may be the cells of a group of `n` servers and `m` clients, which are these
/// actors. It takes no memory.
pub(crate) fn may_open<B: BookId>(n: usize, m: usize, all: &[Actor], cells: &[Cell<B>]) -> bool
    ensures { MatchBool result (MayOpenCells n m all.now (map seat_in cells.now))
        (MayOpenCells n m all.now (map seat_in cells.now) → ⊥) }
{
    if !is_group_size(n) || m > 64 {
        return false;
    }
    if cells.len() != all.len() {
        return false;
    }
    if !is_group(n, m, all) || !are_fresh(n, m, cells) {
        return false;
    }
    are_seated(n, m, all, cells)
}

/// The actor of a group before its first event.
fn begin(alloc: Global, n: usize, nodes: &[NodeSpec], actor: Actor) -> Result<GroupActor, Refusal>
    requires size { IsGroup n }
    requires few { length nodes.now ≤ 64 }
    ensures ok { IfOk result (λ a. BeginsAs n nodes.now actor a) }
    ensures there { OnOk result (IsOfGroup n (length nodes.now) actor) }
    ensures refused { IfErr result (WhyNotBegun (IsOfGroup n (length nodes.now) actor)) }
{
    match actor {
        Actor::Server(server) => {
            if server.position() >= n {
                return Err(Refusal::OutOfRange);
            }
            Ok(GroupActor::Server(Server::new(alloc, server, n)?))
        }
        Actor::Client(client) => {
            let number = client.number();
            let Some(spec) = nodes.get(usize::from(number - 1)) else {
                return Err(Refusal::OutOfRange);
            };
            let Some(number) = NodeId::from_number(number) else {
                unreachable!()
            };
            let node = NodeSpec {
                number,
                class: spec.class,
                size: spec.size,
            };
            Ok(GroupActor::Client(Agent::new(alloc, node, n)?))
        }
    }
}

/// A cell for each seat, before its actor's first event.
fn new_cells<B: BookId>(
    alloc: Global,
    n: usize,
    nodes: &[NodeSpec],
    seats: Vec<ActorSeat<OwnInput, B>>,
) -> Result<Vec<Cell<B>>, Refusal>
    requires size { IsGroup n }
    requires few { length nodes.now ≤ 64 }
    requires named { group_size B.actors ≡ n }
    requires nodes { nodes.now ≡ B.nodes }
    ensures new { IfOk result (λ cells. AreNew n nodes.now cells.items seats.items) }
    ensures refused { IfErr result
        (WhyNotBegun (AllByRecursion (MayOpen n (length nodes.now)) seats.items)) }
{
    let mut cells = Vec::new(alloc);
    for seat in seats {
        if seat.has_noted() {
            return Err(Refusal::OutOfRange);
        }
        let actor = begin(alloc, n, nodes, seat.actor())?;
        cells.push(Cell::new(alloc, actor, seat))?;
    }
    Ok(cells)
}

/// A new cell for each of these seats of a book, in a group of `n` servers and a client for each of
/// these nodes, which are those that the book's name has. Its actor is the one with which
/// `World::new(n, nodes)` begins, so that the k-th client, from 1, has the k-th node; and it has no
/// inputs.
///
/// It is refused with `OutOfRange` where `n` is not 3 or 5 or there are more than 64 nodes, where
/// the book's actors are not those of the group, and where a seat is of no actor of the group or
/// has noted something; and where none of this is so, with `NoMemory`.
/// - `new`: each cell has its seat, which noted nothing, and its actor is that of the group that
///   begins.
pub fn cells_of<B: BookId>(
    alloc: Global,
    n: usize,
    nodes: &[NodeSpec],
    book: &Book<OwnInput, B>,
    seats: Vec<ActorSeat<OwnInput, B>>,
) -> Result<Vec<Cell<B>>, Refusal>
    requires { nodes.now ≡ B.nodes }
    ensures ok { OnOk result (MayMakeCells n (length nodes.now) B.actors seats.items) }
    ensures new { IfOk result (λ cells. AreNew n nodes.now cells.items seats.items) }
    ensures refused { IfErr result
        (WhyNotOpen (MayMakeCells n (length nodes.now) B.actors seats.items)) }
{
    if !may_make(n, nodes.len(), book.actors(), seats.as_slice()) {
        return Err(Refusal::OutOfRange);
    }
    new_cells(alloc, n, nodes, seats)
}
