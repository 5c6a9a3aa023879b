//! A group on threads: one for each actor, and one for each worker of each server.
ghost use Rattle.std.specs.Prelude.{◌≡◌, ◌+◌, ◌<◌, ◌≤◌, vec_len, IfErr, IfOk, IfSome, OnOk};
ghost use Rattle.std.specs.Arc.{arc_value};
ghost use Rattle.lossy_net.specs.Queues.{IsCapacity};
ghost use Rattle.cells.specs.Actors.{group_size};
ghost use Rattle.group_threads.specs.Inner.Duties.{IsDuty};
ghost use Rattle.group_threads.specs.Inner.Posting.{ArePutByParts};
ghost use Rattle.group_threads.specs.Running.{TookInput, WhyNotRunning, equal_queues, thread_count};
ghost use Rattle.cells.specs.Turns.{WhyNoTurn, own_envelope};

use crate::bell::Bell;
use crate::posting::{copies, times};
use crate::worker::{Gate, WorkerTurn, worker_turn};
use cells::{CellTurn, Cells, Envelope, OwnInput, turn};
use event_book::BookId;
use lossy_net::{Fates, Net};
use rows::{Actor, NoMemory, Refusal, Sequence, ServerId, Work};
use std::alloc::{AllocError, Global};
use std::marker::Model;
use std::sync::atomic::{AtomicBool, AtomicU64, Ordering};
use std::sync::{Arc, Mutex, Wait};
use std::thread;
use std::thread::{JoinHandle, Threads};
use std::time::Duration;
use workers::ServerWorkers;

// How often a `flow` gives way to the threads before it sleeps between its looks.
const YIELDS: u64 = 64;

// How long a `flow` sleeps at most between two looks, in microseconds.
const PATIENCE: u64 = 1_000;

/// What a group's messages meet on their way.
#[derive(Clone, Copy, Debug, PartialEq, Eq)]
pub struct NetSettings {
    /// How many messages may wait for an actor at a time, from 1 to 65,536.
    pub capacity: usize,
    /// The key of the words that decide what becomes of messages.
    pub key: u64,
    /// How many of a hundred messages are lost.
    pub drop: u8,
    /// How many of a hundred messages come twice.
    pub repeat: u8,
}

/// What the threads of a group share: its cells, the messages on their way, and what waits for the
/// workers of each server. Each message that an actor sends draws one word, whose fate it has: it
/// is lost, put once, or put twice. Where none of a hundred is to be lost or to come twice, each is
/// put once and no word is drawn. One for which there is no room is lost, and counted.
///
/// Contracts see the cells as they see `Cells`, the queues as they see `Net`, the parts of lost and
/// of repeated messages, and the gate. What is on its way, what was lost, what waits for workers, and
/// what lies in the cells, threads may change at any moment.
#[derive(Drop)]
pub struct RunningGroup<B: BookId, G: Gate + Drop> {
    cells: Cells<B>,
    net: Net<Envelope<B>>,
    fates: Mutex<Fates>,
    drop: u8,
    repeat: u8,
    // How many messages were put and are not done with: each counts until the receiver's turn is
    // over and what it sent was put or lost.
    flying: AtomicU64,
    // Rung when the last of those was done with.
    landed: Bell,
    // How many messages found no room or no memory.
    lost: AtomicU64,
    servers: [AtServer; 5],
    // Of each client: rung when a message was put for it.
    clients: Vec<Bell>,
    gate: G,
    stopped: AtomicBool,
}

impl<B: BookId, G: Gate + Drop> Model for RunningGroup<B, G> {
    ghost use Rattle.group_threads.specs.Running.{RunningView};

    ghost Value = { RunningView G };

    ghost view = { λ g. record {
      cells = g.cells;
      net = g.net;
      drop = g.drop;
      repeat = g.repeat;
      gate = g.gate;
    } };
}

// What waits for the workers of a server; a bell that counts the server's turns, and rings where
// something waits after one; and a bell that is rung when a message was put for the server.
#[derive(Drop)]
struct AtServer {
    work: Mutex<ServerWorkers>,
    turned: Bell,
    called: Bell,
}

fn at_server(alloc: Global) -> AtServer {
    AtServer {
        work: Mutex::new(ServerWorkers::new(alloc)),
        turned: Bell::new(),
        called: Bell::new(),
    }
}

// So many bells.
fn bells(alloc: Global, count: usize) -> Result<Vec<Bell>, NoMemory> {
    let mut bells = Vec::new(alloc);
    for _ in 0..count {
        bells.push(Bell::new())?;
    }
    Ok(bells)
}

// What a thread is for: the actor at a place, or a worker of the server at a place.
#[derive(Clone, Copy)]
enum Duty {
    Actor(usize),
    Worker(usize),
}

// What the thread of this number is for: the actors' come first, then so many of each server's
// workers, server by server.
fn duty_of(number: usize, actors: usize, workers: usize) -> Option<Duty>
    ensures { IsDuty number actors workers result }
{
    if number < actors {
        return Some(Duty::Actor(number));
    }
    if workers == 0 {
        return None;
    }
    Some(Duty::Worker((number - actors) / workers))
}

impl<B: BookId, G: Gate + Drop> RunningGroup<B, G> {
    /// A group of these cells, before its threads start. No message is on its way, and no work
    /// waits.
    ///
    /// It is refused with `OutOfRange` where `net.capacity` is not from 1 to 65,536, and else with
    /// `NoMemory` where memory is wanting.
    /// - `group`: it has these cells, for each of their actors a queue with room for just so many
    ///   messages, this gate, and these parts of lost and of repeated messages. Of the key, which
    ///   lies behind a lock, nothing is said.
    /// - `capacity`: there is one only of such a capacity.
    /// - `refused`: with nothing else, and with each just there.
    pub fn new(
        alloc: Global,
        cells: Cells<B>,
        net: NetSettings,
        gate: G,
    ) -> Result<RunningGroup<B, G>, Refusal>
        ensures group { IfOk result (λ g. g ≡ record {
          cells = cells;
          net = equal_queues cells.actors net.capacity;
          drop = net.drop;
          repeat = net.repeat;
          gate = gate;
        }) }
        ensures capacity { OnOk result (IsCapacity net.capacity) }
        ensures refused { IfErr result (WhyNotRunning net.capacity) }
    {
        let queues = Net::new(alloc, cells.actors(), net.capacity)?;
        let clients = bells(alloc, cells.actors().len())?;
        Ok(RunningGroup {
            cells,
            net: queues,
            fates: Mutex::new(Fates::new(net.key)),
            drop: net.drop,
            repeat: net.repeat,
            flying: AtomicU64::new(0),
            landed: Bell::new(),
            lost: AtomicU64::new(0),
            servers: [
                at_server(alloc),
                at_server(alloc),
                at_server(alloc),
                at_server(alloc),
                at_server(alloc),
            ],
            clients,
            gate,
            stopped: AtomicBool::new(false),
        })
    }

    /// The cells.
    pub fn cells(&self) -> &Cells<B>
        ensures { result.now ≡ self.now.cells }
    {
        &self.cells
    }

    /// The gate.
    pub fn gate(&self) -> &G
        ensures { result.now ≡ self.now.gate }
    {
        &self.gate
    }

    /// The cells, once nobody else has the group. What is on its way is lost, and what waits is
    /// dropped.
    pub fn into_cells(self) -> Cells<B>
        ensures { result ≡ self.cells }
    {
        self.cells
    }

    /// An actor takes an input of its own, in the caller's thread: its cell is locked, and no
    /// other. What it sends is put on its way, and what came for workers waits for them.
    ///
    /// It is refused with `OutOfRange` where the group has no such actor, and else as `Cell::take`
    /// refuses. What came for workers and has no memory to wait in is lost, as if a message were.
    /// - `ok`: a cell of the actor took one step by the input, as `Cell::take` says.
    /// - `refused`: the group lacks the actor, or a cell refuses the input so.
    #[tactic(auto, using(crate::proofs::Started::took_input))]
    pub fn hand<R: Wait>(&self, rt: &R, actor: Actor, input: OwnInput) -> Result<(), Refusal>
        ensures ok { OnOk result (TookInput (group_size B.actors) actor input) }
        ensures refused { IfErr result (WhyNoTurn (group_size B.actors) self.now.cells.actors
            actor (own_envelope actor input)) }
    {
        let envelope = Envelope::own(actor, input);
        let receiver = envelope.receiver();
        let turned = turn(rt, &self.cells, envelope.receiver(), envelope)?;
        self.pass_on(rt, receiver, turned);
        Ok(())
    }

    /// Waits until each message that was put is done with: its receiver took it or refused it, and
    /// what that sent was put or lost. It looks so often at most, and then goes on; it answers how
    /// often it looked. Other threads change what it sees, so no clause says what that was. Between
    /// its looks it gives way to the threads, and later sleeps until the last message is done with,
    /// or for a millisecond.
    /// - `most`: it does not look more often.
    /// - `least`: it looks where it may.
    pub fn flow<R: Wait>(&self, rt: &R, looks: u64) -> u64
        ensures most { result ≤ looks }
        ensures least { 0 < looks → 0 < result }
    {
        let mut looked = 0;
        for _ in 0..looks {
            looked += 1;
            let heard = self.landed.rings();
            if self.in_flight() == 0 {
                break;
            }
            self.rest(rt, looked, heard);
        }
        looked
    }

    // What a `flow` does after this look.
    fn rest<R: Wait>(&self, rt: &R, looked: u64, heard: u64) {
        if looked <= YIELDS {
            thread::yield_now();
        } else {
            self.landed
                .wait_once(rt, heard, Duration::from_micros(PATIENCE));
        }
    }

    /// How many messages were put and are not done with. Other threads change the number, so no
    /// clause says what it is.
    pub fn in_flight(&self) -> u64 {
        self.flying.load(Ordering::SeqCst)
    }

    /// How many messages were lost so far since a queue had no room, or since there was no memory
    /// for them, modulo 2^64: not those that are lost by their fate. A message that comes twice may
    /// find no room twice; one for which there is no memory to come twice comes once, and is not
    /// lost. What is on its way when a group is stopped is not counted either. Other threads change
    /// the number, so no clause says what it is.
    pub fn lost_messages(&self) -> u64 {
        self.lost.load(Ordering::SeqCst)
    }

    /// How often the workers of a server were called so far, modulo 2^64: once by each turn of the
    /// server, once more where something waits for them after it, and once where the threads were
    /// stopped. Other threads change the number, so no clause says what it is.
    pub fn worker_calls(&self, server: ServerId) -> u64 {
        self.servers[server.position()].turned.rings()
    }

    // What comes of a turn goes where it belongs. The workers of a server look again. Messages that
    // found no memory are lost.
    fn pass_on<R: Wait>(&self, rt: &R, actor: Actor, turned: CellTurn<B>) {
        let CellTurn { work, sent, unsent } = turned;
        self.lost.fetch_add(unsent as u64, Ordering::SeqCst);
        for envelope in sent {
            self.post(rt, envelope);
        }
        if let Actor::Server(server) = actor {
            self.enqueue(rt, server, work);
        }
    }

    // What came for a server's workers waits for them, and they are woken; what there is no memory
    // for is lost. Where nothing came, those that sleep are woken only where something waits.
    //
    // The turn is counted first: a worker that took work up before it, and puts it back for a later
    // state, looks again.
    fn enqueue<R: Wait>(&self, rt: &R, server: ServerId, work: Sequence<Work>) {
        let workers = &self.servers[server.position()];
        workers.turned.count();
        if !work.is_empty() {
            let _ = workers.work.lock(rt).enqueue(work);
            workers.turned.ring();
        } else if !workers.work.lock(rt).is_idle() {
            self.look_again(rt, server);
        }
    }

    // Something waits for a server's workers after a turn. Where the server is down, also for want
    // of memory, they have nothing any more.
    fn look_again<R: Wait>(&self, rt: &R, server: ServerId) {
        let workers = &self.servers[server.position()];
        if self.is_up(rt, server) {
            workers.turned.ring();
        } else {
            workers.work.lock(rt).forget();
        }
    }

    fn is_up<R: Wait>(&self, rt: &R, server: ServerId) -> bool {
        match self.cells.lock(rt, Actor::Server(server)) {
            Some(cell) => cell.actor().is_up(),
            None => false,
        }
    }

    // What becomes of a message that is sent.
    fn post<R: Wait>(&self, rt: &R, envelope: Envelope<B>) {
        let (first, second) = self.fated(rt, envelope);
        if let Some(envelope) = first {
            self.put(rt, envelope);
        }
        if let Some(envelope) = second {
            self.put(rt, envelope);
        }
    }

    // What is put of a message, for the group's parts of lost and of repeated messages.
    #[tactic(auto, using(crate::proofs::NetWords::by_parts))]
    fn fated<R: Wait>(
        &self,
        rt: &R,
        envelope: Envelope<B>,
    ) -> (Option<Envelope<B>>, Option<Envelope<B>>)
        ensures { ArePutByParts self.now.drop self.now.repeat envelope result.0 result.1 }
    {
        let times = times(rt, &self.fates, self.drop, self.repeat);
        copies(&self.cells, envelope, times)
    }

    // A message is put on its way, and the thread of its receiver is woken. Where there is no room
    // it is lost.
    fn put<R: Wait>(&self, rt: &R, envelope: Envelope<B>) {
        let receiver = envelope.receiver();
        self.flying.fetch_add(1, Ordering::SeqCst);
        if self.net.put(rt, envelope.receiver(), envelope).is_err() {
            self.lost.fetch_add(1, Ordering::SeqCst);
            self.land();
            return;
        }
        if let Some(bell) = self.bell_of(receiver) {
            bell.ring();
        }
    }

    // A message is done with. Where it was the last, who waits in a `flow` is woken.
    fn land(&self) {
        if self.flying.fetch_sub(1, Ordering::SeqCst) == 1 {
            self.landed.ring();
        }
    }

    // The bell of an actor.
    fn bell_of(&self, actor: Actor) -> Option<&Bell> {
        match actor {
            Actor::Server(server) => Some(&self.servers[server.position()].called),
            Actor::Client(client) => self.clients.get(usize::from(client.number()) - 1),
        }
    }

    // An actor takes the message that waits longest for it; whether there was one.
    fn serve<R: Wait>(&self, rt: &R, actor: Actor) -> bool {
        let Ok(Some(envelope)) = self.net.take(rt, actor) else {
            return false;
        };
        let receiver = envelope.receiver();
        let turned = turn(rt, &self.cells, envelope.receiver(), envelope);
        // A refused message is used up.
        if let Ok(turned) = turned {
            self.pass_on(rt, receiver, turned);
        }
        self.land();
        true
    }

    // The thread of the actor at this place.
    fn run_actor<R: Wait>(&self, rt: &R, place: usize) {
        let Some(actor) = self.cells.actors().get(place) else {
            return;
        };
        let Some(bell) = self.bell_of(*actor) else {
            return;
        };
        for _ in rt.forever() {
            let heard = bell.rings();
            if self.stopped.load(Ordering::SeqCst) {
                return;
            }
            if !self.serve(rt, *actor) {
                bell.wait(rt, heard);
            }
        }
    }

    // A worker of a server does what it can; whether it went on with something.
    fn work<R: Wait>(&self, rt: &R, server: ServerId) -> bool {
        let workers = &self.servers[server.position()];
        match worker_turn(rt, &self.cells, &workers.work, server, &self.gate) {
            Ok(WorkerTurn { went_on, turn }) => {
                if let Some(turned) = turn {
                    self.pass_on(rt, Actor::Server(server), turned);
                }
                went_on
            }
            // What its server refuses to ask for is used up.
            Err(_) => true,
        }
    }

    // The thread of a worker of the server at this place.
    fn run_worker<R: Wait>(&self, rt: &R, position: usize) {
        let Some(server) = ServerId::from_position(position) else {
            return;
        };
        let bell = &self.servers[server.position()].turned;
        for _ in rt.forever() {
            let heard = bell.rings();
            if self.stopped.load(Ordering::SeqCst) {
                return;
            }
            if !self.work(rt, server) {
                bell.wait(rt, heard);
            }
        }
    }

    // The thread of this number.
    fn run<R: Wait>(&self, rt: &R, number: usize, workers: u8) {
        match duty_of(number, self.cells.actors().len(), usize::from(workers)) {
            Some(Duty::Actor(place)) => self.run_actor(rt, place),
            Some(Duty::Worker(place)) => self.run_worker(rt, place),
            None => (),
        }
    }

    // Every thread ends once it is done with what it is at.
    fn stop(&self) {
        self.stopped.store(true, Ordering::SeqCst);
        for bell in &self.clients {
            bell.ring();
        }
        for server in &self.servers {
            server.called.ring();
            server.turned.ring();
        }
    }
}

/// The threads of a group. Contracts see how many there are.
#[derive(Drop)]
pub struct GroupThreads {
    handles: Vec<JoinHandle<()>>,
}

impl Model for GroupThreads {
    ghost use Rattle.std.specs.Prelude.{ℕ, vec_len};

    ghost Value = { ℕ };

    ghost view = { λ t. vec_len t.handles };
}

// Starts a thread for each number.
fn start_all<B, G, R>(
    rt: R,
    group: &Arc<RunningGroup<B, G>, Global>,
    workers: u8,
    handles: &mut Vec<JoinHandle<()>>,
) -> Result<(), AllocError>
where
    B: BookId + Send + Sync + 'static,
    G: Gate + Drop + Send + Sync + 'static,
    R: Threads + Wait + Copy + Send + 'static,
    ensures { OnOk result (vec_len handles.new
        ≡ vec_len handles.old + thread_count (arc_value group.now).cells workers) }
{
    let all_workers = group.cells.servers().saturating_mul(usize::from(workers));
    for number in 0..group.cells.actors().len().saturating_add(all_workers) {
        handles.reserve(1)?;
        let theirs = Arc::try_clone(group)?;
        match thread::spawn(&rt, move || theirs.run(&rt, number, workers)) {
            Ok(handle) => handles.push_reserved(handle),
            Err(_) => return Err(AllocError),
        }
    }
    Ok(())
}

/// Starts a group: a thread for each actor, which takes the messages that come for it, and for each
/// server as many threads as it is to have workers. Where memory or a thread is wanting, those that
/// were started end before this is answered.
/// - `threads`: all of them were started.
pub fn start<B, G, R>(
    rt: R,
    alloc: Global,
    group: &Arc<RunningGroup<B, G>, Global>,
    workers: u8,
) -> Result<GroupThreads, NoMemory>
where
    B: BookId + Send + Sync + 'static,
    G: Gate + Drop + Send + Sync + 'static,
    R: Threads + Wait + Copy + Send + 'static,
    ensures threads { IfOk result (λ threads.
        threads ≡ thread_count (arc_value group.now).cells workers) }
{
    let mut handles = Vec::new(alloc);
    match start_all(rt, group, workers, &mut handles) {
        Ok(()) => Ok(GroupThreads { handles }),
        Err(_) => {
            end(&rt, group, GroupThreads { handles });
            Err(NoMemory)
        }
    }
}

// Ends the threads.
fn end<B, G, R>(rt: &R, group: &RunningGroup<B, G>, threads: GroupThreads)
where
    B: BookId,
    G: Gate + Drop,
    R: Threads + Wait,
{
    group.stop();
    for handle in threads.handles {
        handle.join(rt);
    }
}

/// Stops the threads of a group, each once it is done with what it is at, and gives the group back
/// once all have ended; none where somebody else still has it. Nothing is taken any more then.
/// - `group`: what is given back is the group, with its cells.
pub fn stop<B, G, R>(
    rt: &R,
    group: Arc<RunningGroup<B, G>, Global>,
    threads: GroupThreads,
) -> Option<RunningGroup<B, G>>
where
    B: BookId,
    G: Gate + Drop,
    R: Threads + Wait,
    ensures group { IfSome result (λ stopped. stopped ≡ arc_value group) }
{
    end(rt, &group, threads);
    Arc::into_inner(group)
}
