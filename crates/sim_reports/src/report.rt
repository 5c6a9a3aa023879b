//! What is reported of a group after some events. The schema of its JSON is
//! `docs/inspect.schema.json`.
use serde::Serialize;

/// A group after some events of a run.
#[derive(Drop, Serialize)]
pub struct Report {
    /// How many events happened or were refused.
    pub after: usize,
    /// How many events the run has.
    pub events: usize,
    /// How many messages were sent.
    pub messages: usize,
    /// The servers, in their order.
    pub servers: Vec<ServerReport>,
    /// The desks of the servers that lead.
    pub desks: Vec<DeskReport>,
    /// The clients, in their order.
    pub clients: Vec<ClientReport>,
    /// The states of the servers that are up, from the newest on, each once.
    pub states: Vec<StateReport>,
}

/// A server.
#[derive(Drop, Serialize)]
pub struct ServerReport {
    /// Its number.
    pub server: u8,
    /// `follower`, `candidate`, `leader`, or `down`.
    pub role: &'static str,
    /// Its term.
    pub term: u64,
    /// Whom it voted for in that term.
    pub vote: Option<u8>,
    /// The index of its last entry.
    pub last: u64,
    /// How many entries its snapshot covers.
    pub covered: u64,
    /// How many entries it has applied, while it is up.
    pub applied: Option<u64>,
    /// Its entries behind those that are covered.
    pub log: Vec<EntryReport>,
}

/// An entry of a log.
#[derive(Drop, Serialize)]
pub struct EntryReport {
    /// Its place in the log, from 1.
    pub index: u64,
    /// The term in which a leader appended it.
    pub term: u64,
    /// Its command, in words.
    pub command: String,
}

/// The desk of a server that leads.
#[derive(Drop, Serialize)]
pub struct DeskReport {
    /// The server that leads.
    pub server: u8,
    /// Its term.
    pub term: u64,
    /// Whether it has applied an entry of its term. A desk that is not open holds nothing.
    pub open: bool,
    /// The pending evaluations that it gave out, by id, each with its last delivery.
    pub given_out: Vec<DeliveryReport>,
    /// The plans that wait for a turn, in the order of arrival.
    pub plans: Vec<PlanReport>,
    /// The blocked evaluations, by id.
    pub blocked: Vec<BlockedReport>,
    /// The nodes that are not down, by number.
    pub beats: Vec<HeartbeatReport>,
}

/// A delivery of an evaluation.
#[derive(Drop, Serialize)]
pub struct DeliveryReport {
    /// The evaluation.
    pub evaluation: String,
    /// Its token.
    pub token: String,
    /// The server to whose workers it was sent.
    pub to: String,
    /// How often the evaluation was given out, from 1 to 3.
    pub times: u8,
    /// `out`, `back` where it was given back or lapsed, `failed` where that was the third time, or
    /// `done` where its work is done and its row is to change.
    pub now: &'static str,
}

/// A plan that waits.
#[derive(Drop, Serialize)]
pub struct PlanReport {
    /// Its evaluation.
    pub evaluation: String,
    /// The token under which it was submitted.
    pub token: String,
    /// The priority of the evaluation.
    pub priority: u8,
    /// The server whose worker submitted it.
    pub from: String,
    /// How many allocations it stops.
    pub stops: usize,
    /// How many it places.
    pub places: usize,
}

/// A blocked evaluation.
#[derive(Drop, Serialize)]
pub struct BlockedReport {
    /// The evaluation.
    pub evaluation: String,
    /// The index of the state from which it was found blocked.
    pub snapshot: u64,
    /// Whether a node that its job can use got room since.
    pub due: bool,
}

/// How often a node was heard of.
#[derive(Drop, Serialize)]
pub struct HeartbeatReport {
    /// The node.
    pub node: u8,
    /// How often, since the desk opened or the node came.
    pub beats: u64,
}

/// A client.
#[derive(Drop, Serialize)]
pub struct ClientReport {
    /// Its number.
    pub client: u8,
    /// Whether it is up.
    pub up: bool,
    /// The index of the last list that it took, while it is up.
    pub seen: Option<u64>,
    /// The allocations that it runs.
    pub running: Vec<String>,
    /// All that it ever started.
    pub started: Vec<String>,
}

/// A state that some servers have applied.
#[derive(Drop, Serialize)]
pub struct StateReport {
    /// After how many entries it is.
    pub applied: u64,
    /// The servers that have applied just so many.
    pub servers: Vec<u8>,
    /// Its jobs, by name.
    pub jobs: Vec<JobReport>,
    /// Its nodes, by number.
    pub nodes: Vec<NodeReport>,
    /// Its evaluations, by id.
    pub evaluations: Vec<EvaluationReport>,
    /// Its allocations, by id.
    pub allocations: Vec<AllocationReport>,
}

/// A job.
#[derive(Drop, Serialize)]
pub struct JobReport {
    /// Its name.
    pub job: String,
    /// How urgent it is.
    pub priority: u8,
    /// The entry that put or stopped it last.
    pub version: u64,
    /// Whether it is stopped.
    pub stopped: bool,
    /// Its groups.
    pub groups: Vec<GroupReport>,
}

/// A group of a job.
#[derive(Drop, Serialize)]
pub struct GroupReport {
    /// Its name.
    pub group: String,
    /// How many allocations it is to have.
    pub count: u8,
    /// The class of the nodes that it may run on.
    pub class: String,
    /// The processor time that each takes, in MHz.
    pub cpu: u32,
    /// The memory that each takes, in MB.
    pub mem: u32,
    /// The disk that each takes, in MB.
    pub disk: u32,
}

/// A node.
#[derive(Drop, Serialize)]
pub struct NodeReport {
    /// Its number.
    pub node: u8,
    /// Its class.
    pub class: String,
    /// `ready`, `disconnected` or `down`.
    pub status: &'static str,
    /// Whether allocations may be placed on it.
    pub eligible: bool,
    /// `off`, `slow` or `force`.
    pub drain: &'static str,
    /// Its processor time, in MHz.
    pub cpu: u32,
    /// How much of it live allocations take.
    pub cpu_used: u64,
    /// Its memory, in MB.
    pub mem: u32,
    /// How much of it live allocations take.
    pub mem_used: u64,
    /// Its disk, in MB.
    pub disk: u32,
    /// How much of it live allocations take.
    pub disk_used: u64,
}

/// An evaluation.
#[derive(Drop, Serialize)]
pub struct EvaluationReport {
    /// Its id.
    pub evaluation: String,
    /// Its job.
    pub job: String,
    /// How urgent it is.
    pub priority: u8,
    /// `pending`, `blocked`, `complete` or `failed`.
    pub status: &'static str,
    /// The index of the state from which it was found blocked, else 0.
    pub snapshot: u64,
    /// Of one that is pending or blocked, what a worker would find for each group of its job.
    pub groups: Vec<PlacementReport>,
}

/// What a worker would find for a group.
#[derive(Drop, Serialize)]
pub struct PlacementReport {
    /// The group.
    pub group: String,
    /// How many of its allocations are missing.
    pub missing: usize,
    /// How many of these a plan places.
    pub placed: usize,
    /// Whether some are missing and there is a node for none of them.
    pub fits_on_none: bool,
    /// The nodes, each under one of these.
    pub nodes: NodesReport,
}

/// How many nodes there are, each counted under the first of these that applies.
#[derive(Drop, Serialize)]
pub struct NodesReport {
    /// Those of another class.
    pub other_class: usize,
    /// Those that are not ready: disconnected or down.
    pub not_ready: usize,
    /// Those on which nothing may be placed.
    pub not_eligible: usize,
    /// Those that lack processor time.
    pub lack_cpu: usize,
    /// Those that lack memory.
    pub lack_memory: usize,
    /// Those that lack disk.
    pub lack_disk: usize,
    /// Those that have room.
    pub have_room: usize,
}

/// An allocation.
#[derive(Drop, Serialize)]
pub struct AllocationReport {
    /// Its id.
    pub allocation: String,
    /// Its name: job, group and index.
    pub name: String,
    /// Its node.
    pub node: u8,
    /// The processor time that it takes, in MHz.
    pub cpu: u32,
    /// The memory that it takes, in MB.
    pub mem: u32,
    /// The disk that it takes, in MB.
    pub disk: u32,
    /// `run` or `stop`.
    pub desired: &'static str,
    /// `pending`, `running`, `unknown`, `complete`, `failed` or `lost`.
    pub state: &'static str,
    /// Whether it is to move off its node.
    pub migrate: bool,
    /// The evaluation by which it was placed.
    pub evaluation: String,
}
