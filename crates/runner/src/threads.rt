//! A scenario's file, played on threads.
ghost use Rattle.std.specs.Prelude.{◌≡◌, ◌≢◌, ◌≤◌, ◌⊎◌, IfErr, IfNone, IfOk, IfSome, OnOk, length, option_and_then, option_map, take};
ghost use Rattle.std.specs.Io.KnownBytes.{Appends};
ghost use Rattle.cells.specs.Actors.{group_size, own_event};
ghost use Rattle.group_inputs.specs.Events.{group_event};
ghost use Rattle.runner.specs.Inner.Actors.{actors_of, first_servers};
ghost use Rattle.runner.specs.Inner.Printed.{lost_line};
ghost use Rattle.runner.specs.Inner.Closed.{AreWhole, TellsClosed, TellsLinesOn, TellsOnThreads};
ghost use Rattle.sim_files.specs.Faults.{IsOfRun, IsPastReading};
ghost use Rattle.runner.specs.ThreadSteps.{IsDelivery, RefusedOnThreads, TakenOnThreads};
ghost use Rattle.runner.specs.Told.{TellsThreads};
ghost use Rattle.sim_scenario.specs.Complaints.{IsGood};
ghost use Rattle.sim_scenario.specs.Objects.{step_lines};
ghost use Rattle.sim_scenario.specs.Steps.{AnEvent};

use cells::{Cells, OwnInput, OwnedCells, cells_of};
use cluster::close;
use event_book::{BookId, OpenedBook};
use group_inputs::Event;
use group_threads::{NetSettings, OpenGate, RunningGroup, start, stop};
use rows::{Actor, ClientId, NoMemory, Refusal, ServerId};
use sim_files::fault::Fault;
use sim_files::running::{check_steps, end_run, load, play_steps};
use sim_files::shelf::Shelf;
use sim_play::stage::Stage;
use sim_scenario::scenario::Scenario;
use sim_scenario::step::Step;
use std::alloc::Global;
use std::io;
use std::io::Write;
use std::marker::Brand;
use std::sync::{Arc, Wait};
use std::thread::Threads;

// How many messages may wait for an actor at a time.
const CAPACITY: usize = 1_024;

// How often a `flow` looks at most whether every message is done with.
const LOOKS: u64 = 10_000_000;

/// Plays a scenario on threads, one for each actor and so many workers for each server: says each
/// refused step at once, tells the standard error how many messages were lost where any was, writes
/// the transcript where one is asked for, and then says how the group stands.
pub(crate) fn threads_file<'a, F, W, E, R>(
    rt: R,
    alloc: Global,
    shelf: &mut F,
    out: &mut W,
    err: &mut E,
    file: &'a str,
    workers: u8,
    transcript: Option<&'a str>,
) -> Result<u8, Fault<'a>>
where
    F: Shelf,
    W: Write,
    E: Write,
    R: Threads + Wait + Copy + Send + 'static,
    ensures most { IfOk result (λ status. status ≤ 1) }
    ensures told { IfOk result (λ status. TellsThreads (F.file shelf.old file.entry.now)
        (option_and_then (F.file shelf.new) (option_map (λ t. t.now) transcript.entry)) status
        (W.contents out.old) (W.contents out.new)) }
    ensures unsaid { IfErr result (λ fault. (out.new ≡ out.old) ⊎ IsPastReading fault) }
    ensures of_run { IfErr result IsOfRun }
{
    let scenario = load(alloc, shelf, file)?;
    check_steps(alloc, &scenario)?;
    let book = open_book(alloc, &scenario)?;
    run_threads::<Brand, _, _, _, _>(
        rt, alloc, shelf, out, err, &scenario, workers, transcript, book,
    )
}

// A group whose threads run.
#[derive(Drop)]
struct OnThreads<B: BookId, R> {
    rt: R,
    group: Arc<RunningGroup<B, OpenGate>, Global>,
}

impl<B: BookId, R: Wait> Stage for OnThreads<B, R> {
    ghost Takes = { λ step old new.
        (new ≡ old) × TakenOnThreads (group_size B.actors) step };

    ghost Refuses = { λ step old refusal new. (new ≡ old)
        × RefusedOnThreads (group_size B.actors) old.group.value.cells.actors step refusal };

    // Workers run by themselves, and messages come by themselves.
    fn take(&mut self, step: Step) -> Result<(), Refusal> {
        match step {
            Step::Event(event) => self.event(event),
            Step::Work(_) => Ok(()),
            Step::Flow(_) => {
                self.group.flow(&self.rt, LOOKS);
                Ok(())
            }
        }
    }
}

impl<B: BookId, R: Wait> OnThreads<B, R> {
    fn event(&self, event: Event) -> Result<(), Refusal>
        ensures taken { OnOk result
            (TakenOnThreads (group_size B.actors) (AnEvent (group_event event))) }
        ensures refused { IfErr result (RefusedOnThreads (group_size B.actors)
            self.now.group.value.cells.actors (AnEvent (group_event event))) }
    {
        match handed(event) {
            Some((actor, input)) => self.group.hand(&self.rt, actor, input),
            None => Ok(()),
        }
    }
}

// What an event hands to its actor; nothing where it is the delivery of a message.
fn handed(event: Event) -> Option<(Actor, OwnInput)>
    ensures some { IfSome result (λ handed. own_event handed.0 handed.1 ≡ group_event event) }
    ensures none { IfNone result (IsDelivery (group_event event)) }
{
    match event {
        Event::Server(server, input) => Some((Actor::Server(server), OwnInput::Server(input))),
        Event::Client(client, input) => Some((Actor::Client(client), OwnInput::Client(input))),
        Event::Deliver(_) => None,
    }
}

// The actors of a scenario's group: its servers, and a client for each node.
#[tactic(auto, using(crate::proofs::Seats::one_client_more))]
fn actors(alloc: Global, scenario: &Scenario) -> Result<Vec<Actor>, Refusal>
    ensures { IfOk result (λ actors. actors.items
        ≡ actors_of scenario.now.settings.servers scenario.now.nodes.items) }
{
    let mut actors = first_servers(alloc, usize::from(scenario.settings.servers))?;
    for node in &scenario.nodes {
        let client = ClientId::from_number(node.number.number()).ok_or(Refusal::OutOfRange)?;
        actors.push(Actor::Client(client))?;
    }
    Ok(actors)
}

// So many servers.
#[tactic(auto, using(crate::proofs::Seats::one_server_more))]
fn first_servers(alloc: Global, count: usize) -> Result<Vec<Actor>, Refusal>
    ensures { IfOk result (λ actors. actors.items ≡ first_servers count) }
{
    let mut actors = Vec::new(alloc);
    for position in 0..count {
        let server = ServerId::from_position(position).ok_or(Refusal::OutOfRange)?;
        actors.push(Actor::Server(server))?;
    }
    Ok(actors)
}

fn opened(alloc: Global, scenario: &Scenario) -> Result<OpenedBook<OwnInput>, Refusal>
    ensures { IfOk result (λ book. book.1
        ≡ actors_of scenario.now.settings.servers scenario.now.nodes.items) }
{
    OpenedBook::new(alloc, actors(alloc, scenario)?)
}

fn open_book<'a>(alloc: Global, scenario: &Scenario) -> Result<OpenedBook<OwnInput>, Fault<'a>>
    ensures actors { IfOk result (λ book. book.1
        ≡ actors_of scenario.now.settings.servers scenario.now.nodes.items) }
    ensures past { IfErr result IsPastReading }
    ensures of_run { IfErr result IsOfRun }
{
    match opened(alloc, scenario) {
        Ok(book) => Ok(book),
        // A group of a scenario's size has a book, unless there is no memory.
        Err(_) => Err(Fault::NoMemory),
    }
}

// The group of a scenario, before its threads start: a client for each of its nodes.
fn group<B: BookId>(
    alloc: Global,
    scenario: &Scenario,
    opened: OpenedBook<OwnInput>,
) -> Result<Arc<RunningGroup<B, OpenGate>, Global>, Refusal>
    requires book { opened ≡ (B.table, B.actors) }
    requires nodes { scenario.now.nodes.items ≡ B.nodes }
    ensures size { IfOk result (λ group.
        (group.value.cells.servers ≡ scenario.now.settings.servers)
        × (group.value.cells.clients ≡ length scenario.now.nodes.items)) }
    ensures actors { IfOk result (λ group. group.value.cells.actors ≡ B.actors) }
    ensures lost { IfOk result (λ group. group.value.drop ≡ scenario.now.settings.drop) }
    ensures repeated { IfOk result (λ group. group.value.repeat ≡ scenario.now.settings.repeat) }
{
    let (book, seats) = opened.seats::<B>(alloc)?;
    let size = usize::from(scenario.settings.servers);
    let cells = cells_of(alloc, size, scenario.nodes.as_slice(), &book, seats)?;
    let cells = Cells::open(alloc, size, scenario.nodes.len(), book, cells)?;
    let net = NetSettings {
        capacity: CAPACITY,
        key: scenario.settings.key,
        drop: scenario.settings.drop,
        repeat: scenario.settings.repeat,
    };
    Ok(Arc::new(alloc, RunningGroup::new(alloc, cells, net, OpenGate)?)?)
}

// One more hold of a group.
fn held<B: BookId>(
    group: &Arc<RunningGroup<B, OpenGate>, Global>,
) -> Result<Arc<RunningGroup<B, OpenGate>, Global>, NoMemory>
    ensures { IfOk result (λ hold. hold.value ≡ group.now.value) }
{
    Ok(Arc::try_clone(group)?)
}

// Plays the steps on threads, and then says how the group stands to which the cells close.
fn run_threads<'a, B, F, W, E, R>(
    rt: R,
    alloc: Global,
    shelf: &mut F,
    out: &mut W,
    err: &mut E,
    scenario: &Scenario,
    workers: u8,
    transcript: Option<&'a str>,
    opened: OpenedBook<OwnInput>,
) -> Result<u8, Fault<'a>>
where
    B: BookId + Send + Sync + 'static,
    F: Shelf,
    W: Write,
    E: Write,
    R: Threads + Wait + Copy + Send + 'static,
    requires book { opened ≡ (B.table, B.actors) }
    requires nodes { scenario.now.nodes.items ≡ B.nodes }
    ensures most { IfOk result (λ status. status ≤ 1) }
    ensures told { IfOk result (λ status. TellsOnThreads scenario.now
        (option_and_then (F.file shelf.new) (option_map (λ t. t.now) transcript.entry)) status
        (W.contents out.old) (W.contents out.new)) }
    ensures past { IfErr result (λ fault. IsGood scenario.now → IsPastReading fault) }
    ensures of_run { IfErr result IsOfRun }
{
    let (status, cells) = play_threads::<B, _, _, _>(
        rt, alloc, out, err, scenario, workers, opened,
    )?;
    end_threads(alloc, shelf, out, cells, transcript)?;
    Ok(status)
}

// Plays the steps while the threads run; then the threads end, and the cells are given back.
fn play_threads<'a, B, W, E, R>(
    rt: R,
    alloc: Global,
    out: &mut W,
    err: &mut E,
    scenario: &Scenario,
    workers: u8,
    opened: OpenedBook<OwnInput>,
) -> Result<(u8, OwnedCells<B>), Fault<'a>>
where
    B: BookId + Send + Sync + 'static,
    W: Write,
    E: Write,
    R: Threads + Wait + Copy + Send + 'static,
    requires book { opened ≡ (B.table, B.actors) }
    requires nodes { scenario.now.nodes.items ≡ B.nodes }
    ensures status { IfOk result (λ played. played.0 ≤ 1) }
    ensures told { IfOk result (λ played. TellsLinesOn (group_size B.actors) B.actors
        (step_lines scenario.now) played.0 (W.contents out.old) (W.contents out.new)) }
    ensures whole { IfOk result (λ played. AreWhole played.1.servers played.1.clients B.actors
        played.1.cells.items) }
    ensures servers { IfOk result (λ played. played.1.servers ≡ scenario.now.settings.servers) }
    ensures nodes { IfOk result (λ played.
        take played.1.clients B.nodes ≡ scenario.now.nodes.items) }
    ensures past { IfErr result (λ fault. IsGood scenario.now → IsPastReading fault) }
    ensures of_run { IfErr result IsOfRun }
{
    let group = match group::<B>(alloc, scenario, opened) {
        Ok(group) => group,
        // A group of a scenario's size is made, unless there is no memory.
        Err(_) => return Err(Fault::NoMemory),
    };
    let threads = start(rt, alloc, &group, workers)?;
    let played = play_on(rt, alloc, out, &group, scenario);
    // Nobody else has the group once its threads have ended.
    let group = stop(&rt, group, threads).ok_or(Fault::NoMemory)?;
    // Where the standard error fails, the run goes on.
    let _ = tell_lost(err, group.lost_messages());
    Ok((played?, group.into_cells().into_cells()?))
}

// Plays the steps on a group whose threads run: says each refused step at once.
fn play_on<'a, B, W, R>(
    rt: R,
    alloc: Global,
    out: &mut W,
    group: &Arc<RunningGroup<B, OpenGate>, Global>,
    scenario: &Scenario,
) -> Result<u8, Fault<'a>>
where
    B: BookId,
    W: Write,
    R: Wait + Copy,
    requires { group.now.value.cells.actors ≡ B.actors }
    ensures most { IfOk result (λ status. status ≤ 1) }
    ensures told { IfOk result (λ status. TellsLinesOn (group_size B.actors) B.actors
        (step_lines scenario.now) status (W.contents out.old) (W.contents out.new)) }
    ensures past { IfErr result (λ fault. IsGood scenario.now → IsPastReading fault) }
    ensures of_run { IfErr result IsOfRun }
{
    let mut stage = OnThreads {
        rt,
        group: held(group)?,
    };
    play_steps(alloc, out, &mut stage, scenario)
}

// Closes a group, writes the transcript of the world to which its cells close where one is asked
// for, and then says how that stands.
fn end_threads<'a, B: BookId, F: Shelf, W: Write>(
    alloc: Global,
    shelf: &mut F,
    out: &mut W,
    cells: OwnedCells<B>,
    transcript: Option<&'a str>,
) -> Result<(), Fault<'a>>
    requires { AreWhole cells.servers cells.clients B.actors cells.cells.items }
    ensures told { OnOk result (TellsClosed cells.servers (take cells.clients B.nodes) B.actors
        cells.cells.items
        (option_and_then (F.file shelf.new) (option_map (λ t. t.now) transcript.entry))
        (W.contents out.old) (W.contents out.new)) }
    ensures past { IfErr result IsPastReading }
    ensures of_run { IfErr result IsOfRun }
{
    let world = close(alloc, cells)?;
    end_run(alloc, shelf, out, &world, transcript)
}

// Tells the standard error how many messages were lost, where any was.
fn tell_lost<E: Write>(err: &mut E, lost: u64) -> io::Result<()>
    ensures none { lost ≡ 0 → err.new ≡ err.old }
    ensures line { OnOk result (lost ≢ 0
        → Appends (E.contents err.old) (E.contents err.new) (lost_line lost)) }
{
    if lost == 0 {
        return Ok(());
    }
    writeln!(err, "nomadsim: lost {lost} messages")?;
    err.flush()
}
