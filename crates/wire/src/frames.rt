//! Frames one after the other in one buffer.
ghost use Rattle.std.specs.Prelude.{◌≡◌, [], ◌+◌, ◌<◌, ◌≤◌, ◌^◌, true, length, take, slice_get, slice_range, ◌==◌, OnOk, OnErr};
ghost use Rattle.rows.specs.declared.actor.Actor.TheVariants as actors;
ghost use Rattle.wire.specs.declared.kind.Kind.TheVariants as kinds;
ghost use Rattle.wire.specs.Messages.{append_message, answer_message, install_message, may_go};
ghost use Rattle.wire.specs.Frames.{ListsFrame};
ghost use Rattle.wire.specs.Inner.Ends.{start_of};

use crate::append::{AppendHead, AppendReply};
use crate::body::Said;
use crate::install::InstallHead;
use crate::message::Message;
use crate::writing::{write_frame, write_message};
use machine::{Coded, Entry, Machine};
use rows::{Actor, NoMemory, ServerId};
use std::alloc::Global;
use std::marker::Model;

/// A frame on its way: its bytes, which lie with others, and who is to receive them.
#[derive(Drop)]
pub struct Frame<'a> {
    to: Actor,
    bytes: &'a [u8],
}

impl<'a> Model for Frame<'a> {
    ghost use Rattle.wire.specs.Frames.{Frame};

    ghost Value = { Frame };

    ghost view = { λ f. record { to = f.to; bytes = f.bytes.now } };
}

impl<'a> Frame<'a> {
    /// Who is to receive it.
    pub fn to(&self) -> Actor
        ensures { result ≡ self.now.to }
    {
        self.to
    }

    /// Its bytes.
    pub fn bytes(&self) -> &'a [u8]
        ensures { result.now ≡ self.now.bytes }
    {
        self.bytes
    }
}

/// Who is to receive a frame, and the place behind its last byte.
#[derive(Clone, Copy, Debug)]
pub struct End {
    /// Who is to receive it.
    pub to: Actor,
    /// The place behind its last byte, among the bytes of all frames.
    pub end: usize,
}

/// Frames, in the order in which they were put there. Their bytes lie one after the other, so a
/// frame costs its bytes and the 16 of its end. No call walks over frames.
#[derive(Drop)]
pub struct Frames {
    bytes: Vec<u8>,
    ends: Vec<End>,
}

impl Model for Frames {
    ghost use Rattle.std.specs.Prelude.{List, length};
    ghost use Rattle.wire.specs.Frames.{Frame};

    ghost Value = { List Frame };

    ghost use Rattle.wire.specs.Buffers.{frames_from, EndsAt};

    ghost view = { λ a. frames_from 0 a.ends.items a.bytes.items };

    ghost invariant = { λ a. EndsAt 0 a.ends.items (length a.bytes.items) };
}

/// Where the frame at a place among these begins; past the last one, where all of them end.
fn start_of(ends: &[End], at: usize) -> usize
    requires { at ≤ length ends.now }
    ensures { result ≡ start_of 0 ends.now at }
{
    if at == 0 { 0 } else { ends[at - 1].end }
}

/// The bytes from one place to another.
fn between(bytes: &[u8], start: usize, end: usize) -> &[u8]
    requires rises { start ≤ end }
    requires inside { end ≤ length bytes.now }
    ensures { result.now ≡ slice_range bytes.now start end }
{
    &bytes[start..end]
}

impl Frames {
    /// No frames. It takes no memory.
    pub fn new(alloc: Global) -> Frames
        ensures { result ≡ [] }
    {
        Frames {
            bytes: Vec::new(alloc),
            ends: Vec::new(alloc),
        }
    }

    /// Puts the frame of a message to the end, for the message's receiver, or changes nothing.
    pub fn send<M: Machine>(&mut self, message: &Message<M>) -> Result<(), NoMemory>
        ensures ok { OnOk result (ListsFrame M.spec message.now self.old self.new) }
        ensures err { OnErr result (self.new ≡ self.old) }
    {
        self.ends.reserve(1)?;
        write_message(message, &mut self.bytes)?;
        self.ends.push_reserved(End {
            to: message.to(),
            end: self.bytes.len(),
        });
        Ok(())
    }

    /// Puts the frame of an `Append` of these parts to the end, or changes nothing. The entries
    /// stay with the caller: at most 32, each with a place in the log, below 2^40. It goes to
    /// another server.
    pub fn send_append<M: Machine>(
        &mut self,
        from: ServerId,
        to: ServerId,
        head: &AppendHead,
        entries: &[Entry<Coded<M>>],
    ) -> Result<(), NoMemory>
        requires allowed { may_go kinds.Append (actors.Server from) (actors.Server to) ≡ true }
        requires few { length entries.now ≤ 32 }
        requires places { head.now.prev_index + length entries.now < 2 ^ 40 }
        ensures ok { OnOk result (ListsFrame M.spec (append_message {S = M} from to head.now entries.now)
            self.old self.new) }
        ensures err { OnErr result (self.new ≡ self.old) }
    {
        let (from, to) = (Actor::Server(from), Actor::Server(to));
        self.ends.reserve(1)?;
        write_frame(&from, &to, &Said::Entries(head, entries), &mut self.bytes)?;
        self.ends.push_reserved(End {
            to,
            end: self.bytes.len(),
        });
        Ok(())
    }

    /// Puts the frame of an answer to a leader to the end, or changes nothing. It goes to another
    /// server.
    pub fn send_answer<M: Machine>(
        &mut self,
        from: ServerId,
        to: ServerId,
        reply: &AppendReply,
    ) -> Result<(), NoMemory>
        requires { may_go kinds.AppendReply (actors.Server from) (actors.Server to) ≡ true }
        ensures ok { OnOk result (ListsFrame M.spec (answer_message {S = M} from to reply.now)
            self.old self.new) }
        ensures err { OnErr result (self.new ≡ self.old) }
    {
        let (from, to) = (Actor::Server(from), Actor::Server(to));
        self.ends.reserve(1)?;
        write_frame::<M>(&from, &to, &Said::Answer(reply), &mut self.bytes)?;
        self.ends.push_reserved(End {
            to,
            end: self.bytes.len(),
        });
        Ok(())
    }

    /// Puts the frame of an `Install` of these parts to the end, or changes nothing. The state
    /// stays with the caller, and only its text is written: it has seen as many commands as the
    /// index says, one at least. It goes to another server.
    pub fn send_install<M: Machine>(
        &mut self,
        from: ServerId,
        to: ServerId,
        head: &InstallHead,
        state: &M,
    ) -> Result<(), NoMemory>
        requires allowed { may_go kinds.Install (actors.Server from) (actors.Server to) ≡ true }
        requires index { 1 ≤ head.now.index }
        requires count { M.spec.count state.now ≡ head.now.index }
        ensures ok { OnOk result (ListsFrame M.spec
            (install_message {C = M.Command} from to head.now state.now) self.old self.new) }
        ensures err { OnErr result (self.new ≡ self.old) }
    {
        let (from, to) = (Actor::Server(from), Actor::Server(to));
        self.ends.reserve(1)?;
        write_frame(&from, &to, &Said::State(head, state), &mut self.bytes)?;
        self.ends.push_reserved(End {
            to,
            end: self.bytes.len(),
        });
        Ok(())
    }

    /// How many frames there are.
    pub fn len(&self) -> usize
        ensures { result ≡ length self.now }
    {
        self.ends.len()
    }

    /// Whether there are none.
    pub fn is_empty(&self) -> bool
        ensures { result ≡ (length self.now == 0) }
    {
        self.ends.is_empty()
    }

    /// The frame at a place, from 0; none past the last one.
    pub fn get(&self, at: usize) -> Option<Frame<'_>>
        ensures { result ≡ slice_get self.now at }
    {
        if at >= self.ends.len() {
            return None;
        }
        let end = self.ends[at];
        Some(Frame {
            to: end.to,
            bytes: between(&self.bytes, start_of(&self.ends, at), end.end),
        })
    }

    /// Keeps the first frames, so many, and drops the others. The memory stays for later frames.
    pub fn truncate(&mut self, count: usize)
        ensures { self.new ≡ take count self.old }
    {
        if count < self.ends.len() {
            let end = start_of(&self.ends, count);
            self.bytes.truncate(end);
            self.ends.truncate(count);
        }
    }
}
