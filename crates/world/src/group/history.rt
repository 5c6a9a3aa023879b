//! What is kept beside the servers and clients of a group, and what one event changes.
ghost use Rattle.std.specs.Prelude.{◌≡◌, ◌≢◌, ◌<◌, true, max, [], is_some, length, slice_get, MatchBool, OnOk};
ghost use Rattle.raft_core.specs.RaftView.{SameNumber};
ghost use Rattle.group_model.specs.Servers.{Server as AnyServer};
ghost use Rattle.group_model.specs.Worlds.{Deliver, AtServer, AtClient};
ghost use Rattle.group_inputs.specs.Handings.{FrameBytes, handing};
ghost use Rattle.server.specs.SentBytes.{bytes_of};
ghost use Rattle.server.specs.ServerViews.{RefinesServer};
ghost use Rattle.group_inputs.specs.declared.client_input.ClientInput.TheVariants as client_inputs;
ghost use Rattle.group_inputs.specs.Events.{position_of, server_input, client_input, group_events};
ghost use Rattle.world.specs.Inner.Inputs.{committed};
ghost use Rattle.world.specs.Inner.GroupParts.{ServerDone, ClientDone};

use crate::done::Done;
use actor::{
    Stepped, deliver_sent_to_server, deliver_to_client, hand_client, hand_server, no_output,
};
use client_agent::Agent;
use group_inputs::{ClientInput, Event, ServerInput};
use rows::{ClientId, Index, NoMemory, Refusal, Sequence, ServerId, Work};
use server::{Outbox, Server};
use std::alloc::Global;
use std::marker::Model;
use wire::{Frame, Frames};

/// All messages that were ever sent in the group, with what came for workers; all events that
/// happened; and the greatest number of entries that any server has applied.
#[derive(Drop)]
pub(crate) struct GroupHistory {
    alloc: Global,
    outbox: Outbox,
    // The frame that is delivered to a client, apart from the others, to which its receiver adds.
    delivered: Vec<u8>,
    trace: Vec<Event>,
    chain: Index,
    // A spare box for the crash of a server, or a client, that finds no memory for a frame.
    server_spare: Option<Box<ServerInput>>,
    client_spare: Option<Box<ClientInput>>,
}

impl Model for GroupHistory {
    ghost use Rattle.world.specs.Inner.GroupParts.{GroupHistoryView};
    ghost use Rattle.group_inputs.specs.Events.{group_events};

    ghost Value = { GroupHistoryView };

    ghost view = { λ a. record { outbox = a.outbox; trace = group_events a.trace.items; chain = a.chain } };
}

/// The greater of the chain so far and what a server has applied.
fn longer(chain: Index, server: &Server) -> Index
    ensures { (s : AnyServer) → RefinesServer server.now s → result ≡ max chain (committed s.raft) }
{
    match server.applied() {
        Some(applied) if applied.get() > chain.get() => applied,
        _ => chain,
    }
}

/// The k-th frame, from 1.
fn frame_at(sent: &Frames, k: u64) -> Option<Frame<'_>>
    ensures { result ≡ slice_get sent.now (position_of k) }
{
    let count = sent.len() as u64;
    if k == 0 || k > count {
        return None;
    }
    sent.get((k - 1) as usize)
}

/// The place of the k-th frame, from 1, which is there.
fn place(sent: &Frames, k: u64) -> usize
    requires { position_of k < length sent.now }
    ensures { result ≡ position_of k }
{
    // No list in memory is so long that the number 0 has a place in it.
    let _ = sent.len();
    (k - 1) as usize
}

/// Copies the frame at this place.
fn copy_frame(sent: &Frames, at: usize, frame: &mut Vec<u8>) -> Result<(), NoMemory>
    requires { at < length sent.now }
    ensures { OnOk result (frame.new.items ≡ bytes_of (slice_get sent.now at)) }
{
    frame.clear();
    frame.extend_from_slice(sent.get(at).unwrap().bytes())?;
    Ok(())
}

/// A box is made for a server's crash. It stands apart from what each delivery goes through.
#[cold]
#[inline(never)]
fn new_server_spare(alloc: Global, spare: &mut Option<Box<ServerInput>>) -> Result<(), NoMemory>
    ensures { OnOk result (is_some spare.new ≡ true) }
{
    *spare = Some(Box::new(alloc, ServerInput::Crash)?);
    Ok(())
}

/// A box is made for a server's crash, where there is none.
fn make_server_spare(alloc: Global, spare: &mut Option<Box<ServerInput>>) -> Result<(), NoMemory>
    ensures { OnOk result (is_some spare.new ≡ true) }
{
    if spare.is_none() {
        return new_server_spare(alloc, spare);
    }
    Ok(())
}

/// A box is made for a client's crash, where there is none.
fn make_client_spare(alloc: Global, spare: &mut Option<Box<ClientInput>>) -> Result<(), NoMemory>
    ensures { OnOk result (is_some spare.new ≡ true) }
{
    if spare.is_none() {
        *spare = Some(Box::new(alloc, ClientInput::Crash)?);
    }
    Ok(())
}

/// The spare box, with this in it.
fn take_spare<T: Drop>(spare: &mut Option<Box<T>>, value: T) -> Box<T>
    requires { is_some spare.old ≡ true }
    ensures { result.value ≡ value }
{
    let mut taken = std::mem::replace(spare, None).unwrap();
    Box::replace(&mut taken, value);
    taken
}

impl GroupHistory {
    /// Before the first event.
    pub(crate) fn new(alloc: Global) -> GroupHistory
        ensures { result ≡ record { outbox = record { frames = []; work = [] }; trace = []; chain = 0 } }
    {
        GroupHistory {
            alloc,
            outbox: no_output(alloc),
            delivered: Vec::new(alloc),
            trace: Vec::new(alloc),
            chain: Index::ZERO,
            server_spare: None,
            client_spare: None,
        }
    }

    pub(crate) fn sent(&self) -> &Frames
        ensures { result.now ≡ self.now.outbox.frames }
    {
        &self.outbox.frames
    }

    pub(crate) fn trace(&self) -> &[Event]
        ensures { group_events result.now ≡ self.now.trace }
    {
        &self.trace
    }

    pub(crate) fn chain(&self) -> Index
        ensures { result ≡ self.now.chain }
    {
        self.chain
    }

    /// Whether something came for workers and was not fetched yet.
    pub(crate) fn has_work(&self) -> bool
        ensures { MatchBool result (self.now.outbox.work ≢ []) (self.now.outbox.work ≡ []) }
    {
        if self.outbox.work.is_empty() {
            return false;
        }
        true
    }

    /// What came for workers and was not fetched yet.
    pub(crate) fn take_work(&mut self) -> Sequence<Work>
        ensures work { result ≡ self.old.outbox.work }
        ensures rest { self.new ≡ record { outbox = record { frames = self.old.outbox.frames; work = [] }; trace = self.old.trace; chain = self.old.chain } }
    {
        std::mem::replace(&mut self.outbox.work, Sequence::new(self.alloc))
    }

    /// The k-th frame, from 1.
    pub(crate) fn frame(&self, k: u64) -> Option<Frame<'_>>
        ensures { result ≡ slice_get self.now.outbox.frames (position_of k) }
    {
        frame_at(&self.outbox.frames, k)
    }

    /// A server takes an input of its own, and what it sends is put behind what was sent. Where it
    /// finds no memory, its crash is kept instead; where there is none to keep the event, nothing
    /// happens.
    pub(crate) fn hand_server(
        &mut self,
        server: &mut Server,
        me: ServerId,
        input: Box<ServerInput>,
    ) -> Result<Done, Refusal>
        ensures same { SameNumber server.old.raft server.new.raft }
        ensures done { ServerDone server.old self.old (handing input.value)
            (AtServer me (server_input (handing input.value))) me result server.new self.new }
    {
        self.trace.reserve(1)?;
        let again = input.as_ref().try_clone(self.alloc)?;
        match hand_server(server, again, &mut self.outbox) {
            Ok(Stepped::Taken) => {
                self.chain = longer(self.chain, server);
                self.trace.push_reserved(Event::Server(me, input));
                Ok(Done::Taken)
            }
            Ok(Stepped::Crashed) => {
                let mut crash = input;
                Box::replace(&mut crash, ServerInput::Crash);
                self.trace.push_reserved(Event::Server(me, crash));
                Ok(Done::Crashed)
            }
            Err(cause) => match cause {
                // It found no memory to start again.
                Refusal::NoMemory => Ok(Done::Crashed),
                other => Err(other),
            },
        }
    }

    /// A frame that was sent comes to a server. Where that finds no memory, its crash is kept
    /// instead; where there is none to keep the event, nothing happens.
    #[inline(always)]
    pub(crate) fn deliver_to_server(
        &mut self,
        server: &mut Server,
        me: ServerId,
        k: u64,
    ) -> Result<Done, Refusal>
        requires { position_of k < length self.old.outbox.frames }
        ensures same { SameNumber server.old.raft server.new.raft }
        ensures done { ServerDone server.old self.old
            (FrameBytes (bytes_of (slice_get self.old.outbox.frames (position_of k))))
            (Deliver (position_of k)) me result server.new self.new }
    {
        self.trace.reserve(1)?;
        make_server_spare(self.alloc, &mut self.server_spare)?;
        let at = place(&self.outbox.frames, k);
        match deliver_sent_to_server(server, at, &mut self.outbox) {
            Ok(Stepped::Taken) => {
                self.chain = longer(self.chain, server);
                self.trace.push_reserved(Event::Deliver(k));
                Ok(Done::Taken)
            }
            Ok(Stepped::Crashed) => {
                let crash = take_spare(&mut self.server_spare, ServerInput::Crash);
                self.trace.push_reserved(Event::Server(me, crash));
                Ok(Done::Crashed)
            }
            Err(cause) => Err(cause),
        }
    }

    /// A client takes an input of its own, and what it sends is put behind what was sent. Where it
    /// finds no memory, its crash is kept instead; where there is none to keep the event, nothing
    /// happens.
    pub(crate) fn hand_client(
        &mut self,
        client: &mut Agent,
        me: ClientId,
        input: Box<ClientInput>,
    ) -> Result<Done, Refusal>
        ensures same { client.new.size ≡ client.old.size }
        ensures done { ClientDone client.old self.old input.value (AtClient me (client_input input.value)) me
            result client.new self.new }
    {
        self.trace.reserve(1)?;
        let again = input.as_ref().try_clone(self.alloc)?;
        match hand_client(client, again, &mut self.outbox.frames) {
            Ok(Stepped::Taken) => {
                self.trace.push_reserved(Event::Client(me, input));
                Ok(Done::Taken)
            }
            Ok(Stepped::Crashed) => {
                let mut crash = input;
                Box::replace(&mut crash, ClientInput::Crash);
                self.trace.push_reserved(Event::Client(me, crash));
                Ok(Done::Crashed)
            }
            Err(cause) => Err(cause),
        }
    }

    /// A frame that was sent comes to a client. Where that finds no memory, its crash is kept
    /// instead; where there is none for the frame or to keep the event, nothing happens.
    pub(crate) fn deliver_to_client(
        &mut self,
        client: &mut Agent,
        me: ClientId,
        k: u64,
    ) -> Result<Done, Refusal>
        requires { position_of k < length self.old.outbox.frames }
        ensures same { client.new.size ≡ client.old.size }
        ensures done { ClientDone client.old self.old
            (client_inputs.Frame (bytes_of (slice_get self.old.outbox.frames (position_of k))))
            (Deliver (position_of k)) me result client.new self.new }
    {
        self.trace.reserve(1)?;
        let at = place(&self.outbox.frames, k);
        copy_frame(&self.outbox.frames, at, &mut self.delivered)?;
        make_client_spare(self.alloc, &mut self.client_spare)?;
        match deliver_to_client(client, &self.delivered, &mut self.outbox.frames) {
            Ok(Stepped::Taken) => {
                self.trace.push_reserved(Event::Deliver(k));
                Ok(Done::Taken)
            }
            Ok(Stepped::Crashed) => {
                let crash = take_spare(&mut self.client_spare, ClientInput::Crash);
                self.trace.push_reserved(Event::Client(me, crash));
                Ok(Done::Crashed)
            }
            Err(cause) => Err(cause),
        }
    }
}
