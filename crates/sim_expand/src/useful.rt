//! Which steps would be of use to a group as it stands.
ghost use Rattle.std.specs.Prelude.{◌≡◌, ◌<◌, ◌↔◌, ℕ, IfOk, bytes_eq, slice_get};
ghost use Rattle.std.specs.List.{list_any};
ghost use Rattle.rows.specs.State.{State};
ghost use Rattle.group_model.specs.Agents.{runs};
ghost use Rattle.group_model.specs.Brokers.{task_of};
ghost use Rattle.group_model.specs.NextStep.{IsNextStep, Later, WorkerStep};
ghost use Rattle.sim_expand.specs.Inner.Uses.{busy_jobs, changes_by, gives_one, gives_out, goes_on};
ghost use Rattle.sim_expand.specs.Inner.Uses.{goes_first, has_news, is_asking, is_in, is_known};
ghost use Rattle.sim_expand.specs.Inner.Uses.{is_listed, is_ready, is_running, is_taken, may_go};
ghost use Rattle.sim_expand.specs.Inner.Uses.{starts_by, stops_by, wait_of};

use client_agent::{Agent, RunningAllocation};
use eval_broker::Broker;
use fsm_state::{Cluster, is_among};
use leader::Desk;
use rows::{
    AllocId, Allocation, ClientState, Evaluation, Index, JobName, NoMemory, ServerId, Work,
    WorkerResponse,
};
use server::Server;
use sim_play::play::Play;
use std::alloc::Global;
use workers::ServerWorkers;

// ---- workers

/// Whether a worker of a server does something with the oldest answer that waits for it.
pub(crate) fn goes_on(play: &Play, server: ServerId) -> bool
    ensures { result ≡ goes_on play.now server }
{
    match play.world.server(server) {
        Some(member) => is_ready(member, &play.workers[server.position()]),
        None => false,
    }
}

// Whether a server is up, and the oldest that waits for its workers asks for no later state.
fn is_ready(server: &Server, workers: &ServerWorkers) -> bool
    ensures { result ≡ is_ready server.now.raft.server (slice_get workers.now.waiting 0) }
{
    match (server.applied(), workers.first()) {
        (Some(applied), Some(work)) => wait_of(work) <= applied,
        _ => false,
    }
}

// From which state on a worker does something with this: before that it waits.
fn wait_of(work: &Work) -> Index
    ensures value { result ≡ wait_of work.now.response }
    ensures later { (s : State) (index plans : ℕ) (step : WorkerStep)
        → IsNextStep s index work.now.response plans step → (step ≡ Later) ↔ (index < result) }
{
    match &work.response {
        WorkerResponse::Delivered(Some(delivery)) => delivery.wait,
        WorkerResponse::PlanResult(result) => result.last,
        WorkerResponse::Delivered(None) | WorkerResponse::Refused(_, _) => Index::ZERO,
    }
}

// ---- evaluations

// How often an evaluation is given out at most.
const MOST_DELIVERIES: u8 = 3;

/// Whether a desk over a state gives out an evaluation where it is asked for one.
#[tactic(auto, using(crate::proofs::Tasks::no_broker, crate::proofs::Tasks::one_broker))]
pub(crate) fn gives_out(alloc: Global, desk: &Desk, state: &Cluster) -> Result<bool, NoMemory>
    ensures { IfOk result (λ gives. gives ≡ gives_out desk.now state.now) }
{
    match desk.broker() {
        Some(broker) => gives_one(alloc, broker, state),
        None => Ok(false),
    }
}

// Whether some evaluation may go, and none of its job is with a worker or done.
fn gives_one(alloc: Global, broker: &Broker, state: &Cluster) -> Result<bool, NoMemory>
    ensures { IfOk result (λ gives. gives ≡ gives_one broker.now.tasks state.now.evals) }
{
    let busy = busy_jobs(alloc, broker, state)?;
    for row in state.eval_table().rows() {
        if goes_first(broker, row, &busy) {
            return Ok(true);
        }
    }
    Ok(false)
}

// Whether an evaluation may go, and its job is none of these.
fn goes_first(broker: &Broker, row: &Evaluation, busy: &[JobName]) -> bool
    ensures { result ≡ goes_first broker.now.tasks busy.now row.now }
{
    may_go(broker, row) && !is_in(busy, &row.job)
}

fn is_in(jobs: &[JobName], job: &JobName) -> bool
    ensures { result ≡ is_in jobs.now job.now }
{
    jobs.iter().any(|other| is_same(other, job))
}

fn is_same(other: &JobName, job: &JobName) -> bool
    ensures { result ≡ bytes_eq other.now job.now }
{
    *other == *job
}

// The jobs of which an evaluation is with a worker or done.
fn busy_jobs(alloc: Global, broker: &Broker, state: &Cluster) -> Result<Vec<JobName>, NoMemory>
    ensures { IfOk result (λ jobs. jobs.items ≡ busy_jobs broker.now.tasks state.now.evals) }
{
    let mut jobs = Vec::new(alloc);
    for row in state.eval_table().rows() {
        if is_taken(broker, row) {
            jobs.push(row.job)?;
        }
    }
    Ok(jobs)
}

// Whether an evaluation is with a worker or done.
#[tactic(auto, using(crate::proofs::Tasks::taken_either))]
fn is_taken(broker: &Broker, row: &Evaluation) -> bool
    ensures { result ≡ is_taken (task_of row.now.id broker.now.tasks) }
{
    let is_out = broker.outstanding(row.id).is_some();
    let is_done = broker.is_acked(row.id);
    is_out || is_done
}

// Whether an evaluation is free, and was given out less than three times.
#[tactic(auto, using(crate::proofs::Tasks::may_go_by))]
fn may_go(broker: &Broker, row: &Evaluation) -> bool
    ensures { result ≡ may_go (task_of row.now.id broker.now.tasks) }
{
    let is_taken = is_taken(broker, row);
    match broker.deliveries(row.id) {
        Some(deliveries) => deliveries < MOST_DELIVERIES && !is_taken,
        None => false,
    }
}

// ---- clients

/// Whether it is of use that some client asks for the list of a server in this state.
pub(crate) fn is_any_asking(
    state: &Cluster,
    clients: &[Agent],
    news: bool,
) -> Result<bool, NoMemory>
    ensures { IfOk result (λ asks. asks ≡ list_any (is_asking news state.now) clients.now) }
{
    for client in clients {
        if is_asking(state, client, news)? {
            return Ok(true);
        }
    }
    Ok(false)
}

/// Whether it is of use that a client asks for the list of a server in this state: where something
/// starts or stops by that, and with `news` also where something is reported. A client that is down
/// takes no list, nor does one that has taken a later one.
pub(crate) fn is_asking(state: &Cluster, client: &Agent, news: bool) -> Result<bool, NoMemory>
    ensures { IfOk result (λ asks. asks ≡ is_asking news state.now client.now) }
{
    let (Some(seen), Some(running)) = (client.seen(), client.running()) else {
        return Ok(false);
    };
    if state.applied() < seen {
        return Ok(false);
    }
    let listed = state.live_on(client.node().number)?;
    let listed = listed.as_slice();
    Ok(changes_by(listed, running, client.started()) || (news && has_news(listed, running)))
}

// Whether something runs that is not listed, or is listed and was never started.
fn changes_by(listed: &[Allocation], running: &[RunningAllocation], started: &[AllocId]) -> bool
    ensures { result ≡ changes_by listed.now running.now started.now }
{
    stops_by(listed, running) || starts_by(listed, started)
}

fn stops_by(listed: &[Allocation], running: &[RunningAllocation]) -> bool
    ensures { result ≡ stops_by listed.now running.now }
{
    running.iter().any(|own| !is_listed(listed, own.id))
}

fn starts_by(listed: &[Allocation], started: &[AllocId]) -> bool
    ensures { result ≡ starts_by listed.now started.now }
{
    listed.iter().any(|row| !is_among(row.id, started))
}

fn is_listed(listed: &[Allocation], id: AllocId) -> bool
    ensures { result ≡ is_listed listed.now id }
{
    listed.iter().any(|row| row.id == id)
}

// Whether something listed does not run, or is not known to.
fn has_news(listed: &[Allocation], running: &[RunningAllocation]) -> bool
    ensures { result ≡ has_news running.now listed.now }
{
    listed.iter().any(|row| !is_known(row, running))
}

fn is_known(row: &Allocation, running: &[RunningAllocation]) -> bool
    ensures { result ≡ is_known running.now row.now }
{
    is_running(row.client) && runs(running, row.id)
}

fn runs(running: &[RunningAllocation], id: AllocId) -> bool
    ensures { result ≡ runs running.now id }
{
    running.iter().any(|own| own.id == id)
}

fn is_running(state: ClientState) -> bool
    ensures { result ≡ is_running state }
{
    match state {
        ClientState::Running => true,
        ClientState::Pending
        | ClientState::Complete
        | ClientState::Failed
        | ClientState::Lost
        | ClientState::Unknown => false,
    }
}
