//! The queues of messages in flight, one for each actor.
ghost use Rattle.std.specs.Prelude.{◌≡◌, ◌↔◌, length, map, replicate};
ghost use Rattle.std.specs.Prelude.{IfErr, IfNone, IfOk, IfSome, IsTrue, OnOk};
ghost use Rattle.std.specs.List.{Contains};
ghost use Rattle.lossy_net.specs.Queues.{AreNamedOnce, IsCapacity, NoNet, PutRefused, TakeRefused};

use crossbeam_queue::ArrayQueue;
use rows::{Actor, Refusal};
use std::alloc::Global;
use std::marker::Model;
use std::sync::Wait;

/// The most envelopes that a queue may have room for.
const MOST_CAPACITY: usize = 65_536;

/// An envelope that a net did not keep, and why.
#[derive(Debug, Drop)]
pub struct PutBack<E> {
    /// `OutOfRange` or `QueueFull`, as `Net::put` says.
    pub refusal: Refusal,
    /// The envelope that was to be put, as it was.
    pub envelope: E,
}

/// The queue of one actor.
#[derive(Drop)]
struct Mailbox<E: Drop> {
    actor: Actor,
    queue: ArrayQueue<E>,
}

/// The messages in flight, as envelopes of any type, in one bounded queue for each actor. Threads
/// share it by `&`: any number of them may put and take at a time, also at one queue. A put and a
/// take may wait, where another thread is in the middle of a call at the same queue, until that
/// thread has moved on, and so they need `Wait`. They never wait for an envelope or for room, and
/// where no other thread is at the queue they do not wait at all. Envelopes come from a queue in
/// the order in which they were kept, the oldest first; between queues there is no order.
///
/// Contracts see the actors that have a queue and the capacity of each. They do not see what
/// waits in it, which other threads may change at any moment.
#[derive(Drop)]
pub struct Net<E: Drop> {
    mailboxes: Vec<Mailbox<E>>,
}

impl<E: Drop> Model for Net<E> {
    ghost use Rattle.lossy_net.specs.Queues.{Queues, queues_of};

    ghost Value = { Queues };

    ghost view = { λ n. queues_of n.mailboxes.items };
}

impl<E: Drop> Net<E> {
    /// A net with an empty queue for each actor of the list. `capacity` is the most envelopes that
    /// may wait in a queue at a time, from 1 to 65,536; memory for all of them is taken here.
    /// `OutOfRange` where `capacity` is not in that range or an actor stands in the list twice,
    /// also where memory is wanting; else `NoMemory` where it is.
    /// - `actors`: the net has the actors of the list, in its order.
    /// - `capacities`: the queue of each has that capacity.
    /// - `range`, `once`: there is a net only of such a capacity and of such a list.
    /// - `refused`: `OutOfRange` only where there is none, and `NoMemory` only where there is one.
    pub fn new(alloc: Global, actors: &[Actor], capacity: usize) -> Result<Net<E>, Refusal>
        ensures actors { IfOk result (λ net. net.actors ≡ actors.now) }
        ensures capacities { IfOk result (λ net.
            net.capacities ≡ replicate (length actors.now) capacity) }
        ensures range { OnOk result (IsCapacity capacity) }
        ensures once { OnOk result (AreNamedOnce actors.now) }
        ensures refused { IfErr result (NoNet actors.now capacity) }
    {
        if capacity == 0 || capacity > MOST_CAPACITY || !are_named_once(actors) {
            return Err(Refusal::OutOfRange);
        }
        let mut mailboxes = Vec::new(alloc);
        for actor in actors {
            let queue = ArrayQueue::new(alloc, capacity)?;
            let mailbox = Mailbox {
                actor: *actor,
                queue,
            };
            mailboxes.push(mailbox)?;
        }
        Ok(Net { mailboxes })
    }

    /// Keeps an envelope for its actor, or hands it back: with `OutOfRange` where the net has no
    /// queue for the actor, and with `QueueFull` where as many envelopes wait there as it has room
    /// for. It may wait for another thread's call at the same queue. It takes no memory.
    /// - `known`: only for an actor of the net is an envelope kept.
    /// - `back`: what is handed back is what was to be put.
    /// - `refused`: `OutOfRange` only for an actor that is not of the net, `QueueFull` only for one
    ///   that is, and nothing else.
    pub fn put<R: Wait>(&self, rt: &R, actor: Actor, envelope: E) -> Result<(), PutBack<E>>
        ensures known { OnOk result (Contains self.now.actors actor) }
        ensures back { IfErr result (λ back. back.envelope ≡ envelope) }
        ensures refused { IfErr result (λ back. PutRefused self.now.actors actor back.refusal) }
    {
        let Some(mailbox) = mailbox_of(self.mailboxes.as_slice(), actor) else {
            return Err(PutBack {
                refusal: Refusal::OutOfRange,
                envelope,
            });
        };
        mailbox
            .queue
            .push(rt, envelope)
            .map_err(|envelope| PutBack {
                refusal: Refusal::QueueFull,
                envelope,
            })
    }

    /// Takes the oldest envelope that waits for an actor; none where none waits. `OutOfRange` where
    /// the net has no queue for the actor. It may wait for another thread's call at the same queue,
    /// and does not wait for an envelope to come. It takes no memory.
    /// - `known`: only an actor of the net is answered.
    /// - `refused`: `OutOfRange` only for an actor that is not of the net, and nothing else.
    pub fn take<R: Wait>(&self, rt: &R, actor: Actor) -> Result<Option<E>, Refusal>
        ensures known { OnOk result (Contains self.now.actors actor) }
        ensures refused { IfErr result (TakeRefused self.now.actors actor) }
    {
        match mailbox_of(self.mailboxes.as_slice(), actor) {
            Some(mailbox) => Ok(mailbox.queue.pop(rt)),
            None => Err(Refusal::OutOfRange),
        }
    }
}

// Whether no actor stands in the list twice.
fn are_named_once(actors: &[Actor]) -> bool
    ensures { IsTrue result ↔ AreNamedOnce actors.now }
{
    for place in 0..actors.len() {
        if actors[place + 1..].contains(&actors[place]) {
            return false;
        }
    }
    true
}

// The mailbox of an actor.
fn mailbox_of<E: Drop>(mailboxes: &[Mailbox<E>], actor: Actor) -> Option<&Mailbox<E>>
    ensures some { IfSome result (λ mailbox. Contains mailboxes.now mailbox.now) }
    ensures actor { IfSome result (λ mailbox. mailbox.now.actor ≡ actor) }
    ensures none { IfNone result (¬ Contains (map (λ m. m.actor) mailboxes.now) actor) }
{
    for mailbox in mailboxes {
        if mailbox.actor == actor {
            return Some(mailbox);
        }
    }
    None
}
