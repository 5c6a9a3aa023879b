//! The deliveries that servers sent, as their messages tell.
ghost use Rattle.std.specs.Prelude.{◌≡◌, None, fold};
ghost use Rattle.sim_inspect.specs.Inner.Deliveries.{later, server_of};

use fsm_state::Cluster;
use rows::{Actor, Delivery, EvalId, NoMemory, Refusal, ServerId, WorkerResponse};
use server::Server;
use std::alloc::Global;
use wire::{Body, Frames, Message, read_message};

/// A delivery that a message told of: who sent it, and the number of the server to which it was
/// sent.
#[derive(Clone, Copy)]
pub(crate) struct Sent {
    /// Who sent it.
    pub from: ServerId,
    /// The delivery.
    pub delivery: Delivery,
    /// The number of the server to which it was sent.
    pub to: u8,
}

/// The deliveries of all messages, in order. No message is read twice.
#[derive(Drop)]
pub(crate) struct Deliveries {
    /// Of each message that was read, whether it may replace what a server stores.
    replacing: Vec<bool>,
    /// The deliveries that they told of.
    sent: Vec<Sent>,
}

impl Deliveries {
    /// No message was read.
    pub fn new(alloc: Global) -> Deliveries {
        Deliveries {
            replacing: Vec::new(alloc),
            sent: Vec::new(alloc),
        }
    }

    /// Reads the messages behind those that were read.
    pub fn read(&mut self, alloc: Global, messages: &Frames) -> Result<(), NoMemory> {
        for place in self.replacing.len()..messages.len() {
            self.read_one(message_at(alloc, messages, place)?)?;
        }
        Ok(())
    }

    fn read_one(&mut self, message: Option<Message<Cluster>>) -> Result<(), NoMemory> {
        let Some(message) = message else {
            self.replacing.push(false)?;
            return Ok(());
        };
        self.replacing.push(replaces(message.body()))?;
        if let Some(sent) = sent_by(&message) {
            self.sent.push(sent)?;
        }
        Ok(())
    }

    /// Whether the k-th message, from 1, may replace what its receiver stores, where neither the
    /// receiver's term nor its last index changes.
    pub fn may_replace(&self, k: u64) -> bool {
        match k.checked_sub(1) {
            Some(place) => self.replacing.get(place as usize) == Some(&true),
            None => false,
        }
    }

    /// Those that a server sent in its term.
    pub fn of_server(&self, alloc: Global, server: &Server) -> Result<Vec<Sent>, NoMemory> {
        let (me, term) = (server.me(), server.term());
        let mut own = Vec::new(alloc);
        for one in &self.sent {
            if one.from == me && one.delivery.token.term.get() == term.get() {
                own.push(*one)?;
            }
        }
        Ok(own)
    }
}

// The message at a place, if it is one.
fn message_at(
    alloc: Global,
    messages: &Frames,
    place: usize,
) -> Result<Option<Message<Cluster>>, NoMemory> {
    let Some(frame) = messages.get(place) else {
        return Ok(None);
    };
    match read_message::<Cluster>(alloc, frame.bytes()) {
        Ok(message) => Ok(Some(message)),
        Err(Refusal::NoMemory) => Err(NoMemory),
        Err(_) => Ok(None),
    }
}

// The delivery that a message tells of, if it is one.
fn sent_by(message: &Message<Cluster>) -> Option<Sent> {
    let Body::Response(WorkerResponse::Delivered(Some(delivery))) = message.body() else {
        return None;
    };
    let from = server_of(message.from())?;
    let to = server_of(message.to())?;
    Some(Sent {
        from,
        delivery: *delivery,
        to: to.number(),
    })
}

fn server_of(actor: Actor) -> Option<ServerId>
    ensures { result ≡ server_of actor }
{
    match actor {
        Actor::Server(server) => Some(server),
        Actor::Client(_) => None,
    }
}

// A vote is given, entries come in the place of others, or a state in that of entries.
fn replaces(body: &Body<Cluster>) -> bool {
    match body {
        Body::VoteRequest(_) | Body::Install(_) => true,
        Body::Append(append) => !append.entries().is_empty(),
        _ => false,
    }
}

/// The last delivery of an evaluation among these.
pub(crate) fn last_of(eval: EvalId, sent: &[Sent]) -> Option<Sent>
    ensures { result ≡ fold (later eval) None sent.now }
{
    let mut last = None;
    for one in sent {
        if one.delivery.eval == eval {
            last = Some(*one);
        }
    }
    last
}
