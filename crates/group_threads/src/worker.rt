//! A worker of one server.
ghost use Rattle.std.specs.Arc.{arc_value};
ghost use Rattle.std.specs.Bool.{OnTrue};
ghost use Rattle.std.specs.Prelude.{◌≡◌, false, None, IfErr, IfOk, IfSome, MatchBool};
ghost use Rattle.rows.specs.declared.actor.Actor.TheVariants as actors;
ghost use Rattle.cells.specs.Actors.{group_size};
ghost use Rattle.cells.specs.Cells.{AreSent};
ghost use Rattle.cells.specs.Turns.{CellHasState};
ghost use Rattle.group_threads.specs.WorkerTurns.{CellIsBehind, IsBehind, least_index};
ghost use Rattle.group_threads.specs.WorkerTurns.{RestsWith, TookAsked, TookAsking, WentSo};
ghost use Rattle.group_threads.specs.WorkerTurns.{WhyNoState, WhyNotAsked, WhyNoWorkerTurn};
ghost use Rattle.group_threads.specs.Inner.Asked.{IsHandled, StepsAs, TookOwn, WhyNoStep, WhyNotOwn};

use cells::{CellTurn, Cells, Envelope, GroupActor, OwnInput, turn};
use event_book::BookId;
use fsm_state::Cluster;
use group_inputs::ServerInput;
use rows::{Actor, Delivery, Index, NoMemory, Refusal, ServerId, WorkerResponse};
use std::alloc::Global;
use std::sync::{Arc, Mutex, Wait};
use workers::{Handled, ServerWorkers, TakenWork};

/// What a worker passes before it plans for an evaluation that was delivered to it. It is passed
/// while no lock is held, so it may wait for what other actors and workers do.
pub trait Gate {
    /// Passes the gate with this delivery.
    fn pass(&self, of: &Delivery);
}

/// A gate that is open.
#[derive(Clone, Copy, Drop)]
pub struct OpenGate;

impl Gate for OpenGate {
    fn pass(&self, _of: &Delivery) {}
}

/// What a worker did.
#[derive(Drop)]
pub struct WorkerTurn<B: BookId> {
    /// Whether it took work up and went on with it: not where no work waits, or where what waits
    /// needs a later state of its server.
    pub went_on: bool,
    /// What its server gave, where the worker asked for something.
    pub turn: Option<CellTurn<B>>,
}

// The gate stands before each evaluation that was delivered.
fn pass<G: Gate>(gate: &G, response: &WorkerResponse) {
    if let WorkerResponse::Delivered(Some(delivery)) = response {
        gate.pass(delivery);
    }
}

// How many entries a server must have applied for its workers to go on with what came for them.
fn least_index(response: &WorkerResponse) -> Index
    ensures { result ≡ least_index response.now }
{
    match response {
        WorkerResponse::Delivered(Some(delivery)) => delivery.wait,
        WorkerResponse::PlanResult(result) => result.last,
        WorkerResponse::Delivered(None) | WorkerResponse::Refused(_, _) => Index::ZERO,
    }
}

// Whether this server is up and has applied fewer entries. Its cell is locked meanwhile.
#[tactic(auto, using(crate::proofs::Started::cell_is_behind))]
fn is_behind<B: BookId, R: Wait>(rt: &R, cells: &Cells<B>, server: ServerId, least: Index) -> bool
    ensures { OnTrue result (CellIsBehind (group_size B.actors) server least) }
{
    match cells.lock(rt, Actor::Server(server)) {
        Some(cell) => has_applied_less(cell.actor(), server, least),
        None => false,
    }
}

// Whether the actor is this server, and is up and has applied fewer entries.
fn has_applied_less(actor: &GroupActor, server: ServerId, least: Index) -> bool
    ensures { MatchBool result (IsBehind server least actor.now)
        (¬ IsBehind server least actor.now) }
{
    let GroupActor::Server(found) = actor else {
        return false;
    };
    if found.me() != server {
        return false;
    }
    match found.applied() {
        Some(applied) => applied < least,
        None => false,
    }
}

// A copy of a server's replicated state, and how many entries it comes after. The server's cell is
// locked while the copy is made.
fn applied_fork<B: BookId, R: Wait>(
    rt: &R,
    cells: &Cells<B>,
    server: ServerId,
) -> Result<(Arc<Cluster>, Index), Refusal>
    ensures state { IfOk result (λ p.
        CellHasState (group_size B.actors) (actors.Server server) (arc_value p.0) p.1) }
    ensures refused { IfErr result (WhyNoState (group_size B.actors) cells.now.actors
        (actors.Server server)) }
{
    match cells.lock(rt, Actor::Server(server)) {
        Some(cell) => cell.snapshot_of(Actor::Server(server)),
        None => Err(Refusal::OutOfRange),
    }
}

// The worker asked for nothing.
fn resting<B: BookId>(went_on: bool) -> WorkerTurn<B>
    ensures went_on { result.went_on ≡ went_on }
    ensures turn { result.turn ≡ None }
{
    WorkerTurn {
        went_on,
        turn: None,
    }
}

// What becomes of what a worker took up, at this state. Where there is no memory for a plan, the
// work waits in front again.
#[tactic(auto, using(crate::proofs::Started::each_is_handled))]
fn handled<R: Wait>(
    rt: &R,
    alloc: Global,
    workers: &Mutex<ServerWorkers>,
    taken: TakenWork,
    state: &Cluster,
    index: Index,
) -> Result<Handled, NoMemory>
    ensures { IfOk result (IsHandled state.now index taken) }
{
    match taken.next(alloc, state, index) {
        Ok(step) => workers.lock(rt).go_on(taken, step),
        Err(cause) => {
            workers.lock(rt).put_back(taken)?;
            Err(cause)
        }
    }
}

// The worker's next step with what it took up, at the state of its server, and what becomes of that
// by it. The gate is passed once the state is copied.
#[tactic(auto, using(crate::proofs::Started::steps_as))]
fn stepped<B: BookId, G: Gate, R: Wait>(
    rt: &R,
    cells: &Cells<B>,
    workers: &Mutex<ServerWorkers>,
    server: ServerId,
    gate: &G,
    taken: TakenWork,
) -> Result<Handled, Refusal>
    ensures handled { IfOk result (StepsAs (group_size B.actors) server taken) }
    ensures refused { IfErr result (WhyNoStep (group_size B.actors) cells.now.actors server) }
{
    let (state, index) = applied_fork(rt, cells, server)?;
    pass(gate, &taken.work.response);
    Ok(handled(rt, cells.alloc(), workers, taken, &state, index)?)
}

// A server takes in what its workers ask.
#[tactic(auto, using(crate::proofs::Started::own_lacks_memory))]
fn asked<B: BookId, R: Wait>(
    rt: &R,
    cells: &Cells<B>,
    server: ServerId,
    input: ServerInput,
) -> Result<CellTurn<B>, Refusal>
    ensures took { IfOk result (λ turn.
        TookOwn (group_size B.actors) server input turn.work turn.sent.items turn.unsent) }
    ensures sent { IfOk result (λ turn. AreSent (actors.Server server) turn.sent.items) }
    ensures refused { IfErr result
        (WhyNotOwn (group_size B.actors) cells.now.actors server input) }
{
    let own = OwnInput::server(cells.alloc(), input)?;
    let envelope = Envelope::own(Actor::Server(server), own);
    turn(rt, cells, Actor::Server(server), envelope)
}

// A worker goes on with what it took up, or that waits in front again for a later state.
fn went<B: BookId, G: Gate, R: Wait>(
    rt: &R,
    cells: &Cells<B>,
    workers: &Mutex<ServerWorkers>,
    server: ServerId,
    gate: &G,
    taken: TakenWork,
) -> Result<WorkerTurn<B>, Refusal>
    ensures turn { IfOk result (λ w. IfSome w.turn (λ turn.
        TookAsked (group_size B.actors) server taken turn.work turn.sent.items turn.unsent)) }
    ensures sent { IfOk result (λ w. IfSome w.turn (λ turn.
        AreSent (actors.Server server) turn.sent.items)) }
    ensures resting { IfOk result (λ w. w.went_on ≡ false → w.turn ≡ None) }
    ensures idle { IfOk result (λ w. w.turn ≡ None →
        RestsWith (group_size B.actors) server taken w.went_on) }
    ensures refused { IfErr result
        (WhyNotAsked (group_size B.actors) cells.now.actors server taken) }
{
    if is_behind(rt, cells, server, least_index(&taken.work.response)) {
        workers.lock(rt).put_back(taken)?;
        return Ok(resting(false));
    }
    match stepped(rt, cells, workers, server, gate, taken)? {
        Handled::Waits => Ok(resting(false)),
        Handled::Dropped => Ok(resting(true)),
        Handled::Asks(input) => {
            let turned = asked(rt, cells, server, input)?;
            Ok(WorkerTurn {
                went_on: true,
                turn: Some(turned),
            })
        }
    }
}

/// A worker of a server takes up the oldest work that waits: it copies its server's state under the
/// lock of the server's cell, passes the gate where an evaluation was delivered, plans, and lets its
/// server take in what it asks. It holds no lock while it passes the gate and plans. Where the work
/// needs a later state, it copies none and passes no gate.
///
/// It is refused with `OutOfRange` where the group has no such server, with `Down` where it is
/// down, with `NoMemory`, and as `Cell::take` refuses; what it took up is lost then, unless there
/// was no memory for a plan.
/// - `turn`: a cell of the server took one step by what its workers ask, as `Cell::take` says: the
///   definitions' next step with the oldest of what waited, at the state that a cell of the server
///   has applied, after as many plans as were counted under the delivery.
/// - `sent`: what was sent are first outputs of one event that the server noted, with their tokens.
/// - `resting`: where it did not go on with anything, its server took no turn.
/// - `idle`: where its server took no turn, the next step with the oldest of what waited is to drop
///   it, and the worker went on; or it waits for a later state, or nothing waited.
/// - `refused`: with nothing else.
pub fn worker_turn<B: BookId, G: Gate, R: Wait>(
    rt: &R,
    cells: &Cells<B>,
    workers: &Mutex<ServerWorkers>,
    server: ServerId,
    gate: &G,
) -> Result<WorkerTurn<B>, Refusal>
    ensures turn { IfOk result (λ w. IfSome w.turn (λ turn.
        TookAsking (group_size B.actors) server turn.work turn.sent.items turn.unsent)) }
    ensures sent { IfOk result (λ w. IfSome w.turn (λ turn.
        AreSent (actors.Server server) turn.sent.items)) }
    ensures resting { IfOk result (λ w. w.went_on ≡ false → w.turn ≡ None) }
    ensures idle { IfOk result (λ w. w.turn ≡ None →
        WentSo (group_size B.actors) server w.went_on) }
    ensures refused { IfErr result (WhyNoWorkerTurn (group_size B.actors) cells.now.actors server) }
{
    let Some(taken) = workers.lock(rt).take() else {
        return Ok(resting(false));
    };
    went(rt, cells, workers, server, gate, taken)
}
