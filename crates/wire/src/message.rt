ghost use Rattle.std.specs.Prelude.{◌≡◌, true, false, IfSome, IfNone};
ghost use Rattle.rows.specs.declared.actor.Actor.TheVariants as actors;
ghost use Rattle.wire.specs.Messages.{kind_of, may_go};
ghost use Rattle.wire.specs.Frames.{header_of};

use crate::body::Body;
use crate::header::Header;
use crate::kind::Kind;
use machine::Machine;
use rows::{Actor, ClientId, ServerId};
use std::marker::Model;

/// A message of one actor to another, in a group that replicates the machine `M`. Each message goes
/// between actors that its kind allows, so it has a frame.
#[derive(Drop)]
pub struct Message<M: Machine> {
    from: Actor,
    to: Actor,
    body: Body<M>,
}

impl<M: Machine> Model for Message<M> {
    ghost use Rattle.std.specs.Prelude.{◌≡◌, true};
    ghost use Rattle.wire.specs.Messages.{Message, kind_of, may_go};

    ghost Value = { Message M M.Command };

    ghost view = { λ m. record { from = m.from; to = m.to; body = m.body } };

    ghost invariant = { λ m. may_go (kind_of m.body) m.from m.to ≡ true };
}

impl<M: Machine> Message<M> {
    /// The message of these parts; none where its kind does not go from there to there.
    pub fn new(from: Actor, to: Actor, body: Body<M>) -> Option<Message<M>>
        ensures some { IfSome result (λ m. (m ≡ record { from = from; to = to; body = body })
            × (may_go (kind_of body) from to ≡ true)) }
        ensures none { IfNone result (may_go (kind_of body) from to ≡ false) }
    {
        if body.kind().may_go(&from, &to) {
            Some(Message { from, to, body })
        } else {
            None
        }
    }

    /// The message of one server to another, or to itself, for a kind that goes there.
    pub fn between(from: ServerId, to: ServerId, body: Body<M>) -> Message<M>
        requires { may_go (kind_of body) (actors.Server from) (actors.Server to) ≡ true }
        ensures { result ≡ record { from = actors.Server from; to = actors.Server to; body = body } }
    {
        Message {
            from: Actor::Server(from),
            to: Actor::Server(to),
            body,
        }
    }

    /// The message of a client's agent to a server, for a kind that goes there.
    pub fn to_server(from: ClientId, to: ServerId, body: Body<M>) -> Message<M>
        requires { may_go (kind_of body) (actors.Client from) (actors.Server to) ≡ true }
        ensures { result ≡ record { from = actors.Client from; to = actors.Server to; body = body } }
    {
        let (from, to) = (Actor::Client(from), Actor::Server(to));
        Message { from, to, body }
    }

    /// The message of a server to a client's agent, for a kind that goes there.
    pub fn to_client(from: ServerId, to: ClientId, body: Body<M>) -> Message<M>
        requires { may_go (kind_of body) (actors.Server from) (actors.Client to) ≡ true }
        ensures { result ≡ record { from = actors.Server from; to = actors.Client to; body = body } }
    {
        Message {
            from: Actor::Server(from),
            to: Actor::Client(to),
            body,
        }
    }

    /// Who sends it.
    pub fn from(&self) -> Actor
        ensures { result ≡ self.now.from }
    {
        self.from
    }

    /// Who receives it.
    pub fn to(&self) -> Actor
        ensures { result ≡ self.now.to }
    {
        self.to
    }

    /// What it says.
    pub fn body(&self) -> &Body<M>
        ensures value { result.now ≡ self.now.body }
        ensures allowed { may_go (kind_of self.now.body) self.now.from self.now.to ≡ true }
    {
        &self.body
    }

    /// What it says, for keeps.
    pub fn into_body(self) -> Body<M>
        ensures value { result ≡ self.body }
        ensures allowed { may_go (kind_of self.body) self.from self.to ≡ true }
    {
        let Message { body, .. } = self;
        body
    }

    /// Its kind.
    pub fn kind(&self) -> Kind
        ensures { result ≡ kind_of self.now.body }
    {
        self.body.kind()
    }
}

/// What the frame of a message begins with, behind its version.
pub fn header_of<M: Machine>(message: &Message<M>) -> Header
    ensures value { result ≡ header_of message.now }
    ensures allowed { may_go result.kind result.from result.to ≡ true }
{
    Header {
        kind: message.body.kind(),
        from: message.from,
        to: message.to,
    }
}

/// The message of a header and a body of its kind.
pub fn message_of<M: Machine>(header: &Header, body: Body<M>) -> Message<M>
    requires { may_go (kind_of body) header.now.from header.now.to ≡ true }
    ensures { result ≡ record { from = header.now.from; to = header.now.to; body = body } }
{
    Message {
        from: header.from,
        to: header.to,
        body,
    }
}
