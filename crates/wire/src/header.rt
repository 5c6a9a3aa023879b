ghost use Rattle.std.specs.Prelude.{◌≡◌, true, IfOk};
ghost use Rattle.fields_model.specs.Format.{GivesExactly, Puts};
ghost use Rattle.wire.specs.Messages.{may_go};
ghost use Rattle.wire.specs.Grammar.{header};

use crate::kind::Kind;
use fields::{Field, read_actor, read_u8, write_actor, write_u8};
use rows::{Actor, NoMemory, Refusal, Version};
use std::alloc::Global;

/// What a frame begins with, behind its version.
#[derive(Clone, Copy, Debug)]
pub struct Header {
    /// What the message is.
    pub kind: Kind,
    /// Who sends it.
    pub from: Actor,
    /// Who is to receive it.
    pub to: Actor,
}

/// The header at a place, and the place after it.
#[inline(always)]
pub fn read_header(alloc: Global, bytes: &[u8], at: usize) -> Result<(Header, usize), Refusal>
    ensures value { GivesExactly result (header.read bytes.now at) }
    ensures allowed { IfOk result (λ h. may_go h.0.kind h.0.from h.0.to ≡ true) }
{
    let version = Version::newest();
    let (number, kind_at) = read_u8(bytes, at)?;
    if number != version.number() {
        return Err(Refusal::Frame(at));
    }
    let (kind, from_at) = Kind::read_at(version, alloc, bytes, kind_at)?;
    let (from, to_at) = read_actor(bytes, from_at)?;
    if !kind.may_come_from(&from) {
        return Err(Refusal::Frame(from_at));
    }
    let (to, end) = read_actor(bytes, to_at)?;
    if !kind.may_go(&from, &to) {
        return Err(Refusal::Frame(to_at));
    }
    Ok((Header { kind, from, to }, end))
}

/// Puts the header to the end.
#[inline(always)]
pub fn append_header(value: &Header, out: &mut Vec<u8>) -> Result<(), NoMemory>
    requires { may_go value.now.kind value.now.from value.now.to ≡ true }
    ensures { Puts header value.now result out.old.items out.new.items }
{
    write_u8(&Version::newest().number(), out)?;
    value.kind.append(out)?;
    write_actor(&value.from, out)?;
    write_actor(&value.to, out)
}
