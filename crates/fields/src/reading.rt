//! Reading a field at a place. A reader answers the value whose text stands there, whatever
//! follows, with the place after it; else `Frame` with the place of the field. These readers take
//! no memory: they answer no other refusal.
ghost use Rattle.std.specs.Prelude.{◌≡◌, ◌≤◌, ◌+◌, ◌<◌, length, drop, IfSome, IfNone};
ghost use Rattle.fields_model.specs.Format.{GivesExactly, number};
ghost use Rattle.fields_model.specs.Ids.{name};
ghost use Rattle.fields_model.specs.Fields.{term, index, server, byte, u16, u32, u64, bool, actor};

use byteorder::{BigEndian, ByteOrder};
use rows::{Actor, ClientId, Index, Name, Refusal, ServerId, Term};

/// The bytes from a place on, where at least so many stand there.
fn rest_of(bytes: &[u8], at: usize, count: usize) -> Option<&[u8]>
    ensures some { IfSome result (λ rest. (rest.now ≡ drop at bytes.now)
        × (at + count ≤ length bytes.now)) }
    ensures none { IfNone result (length bytes.now < at + count) }
{
    if at <= bytes.len() && bytes.len() - at >= count {
        Some(&bytes[at..])
    } else {
        None
    }
}

/// A number of one byte. `Frame` names its place where it is cut.
pub fn read_u8(bytes: &[u8], at: usize) -> Result<(u8, usize), Refusal>
    ensures { GivesExactly result (byte.read bytes.now at) }
{
    match rest_of(bytes, at, 1) {
        Some(rest) => Ok((rest[0], at + 1)),
        None => Err(Refusal::Frame(at)),
    }
}

/// A number of two bytes, the highest first. `Frame` names its place where it is cut.
pub fn read_u16(bytes: &[u8], at: usize) -> Result<(u16, usize), Refusal>
    ensures { GivesExactly result (u16.read bytes.now at) }
{
    match rest_of(bytes, at, 2) {
        Some(rest) => Ok((BigEndian::read_u16(rest), at + 2)),
        None => Err(Refusal::Frame(at)),
    }
}

/// A number of four bytes, the highest first. `Frame` names its place where it is cut.
pub fn read_u32(bytes: &[u8], at: usize) -> Result<(u32, usize), Refusal>
    ensures { GivesExactly result (u32.read bytes.now at) }
{
    match rest_of(bytes, at, 4) {
        Some(rest) => Ok((BigEndian::read_u32(rest), at + 4)),
        None => Err(Refusal::Frame(at)),
    }
}

/// A number of eight bytes, the highest first. `Frame` names its place where it is cut.
pub fn read_u64(bytes: &[u8], at: usize) -> Result<(u64, usize), Refusal>
    ensures { GivesExactly result (u64.read bytes.now at) }
{
    match rest_of(bytes, at, 8) {
        Some(rest) => Ok((BigEndian::read_u64(rest), at + 8)),
        None => Err(Refusal::Frame(at)),
    }
}

/// A term: eight bytes, below 2^40. `Frame` names its first byte where it is cut or out of range.
pub fn read_term(bytes: &[u8], at: usize) -> Result<(Term, usize), Refusal>
    ensures { GivesExactly result (term.read bytes.now at) }
{
    let (number, next) = read_u64(bytes, at)?;
    match Term::new(number) {
        Some(term) => Ok((term, next)),
        None => Err(Refusal::Frame(at)),
    }
}

/// A place in the log: eight bytes, below 2^40. `Frame` names its first byte where it is cut or out
/// of range.
pub fn read_index(bytes: &[u8], at: usize) -> Result<(Index, usize), Refusal>
    ensures { GivesExactly result (index.read bytes.now at) }
{
    let (number, next) = read_u64(bytes, at)?;
    match Index::new(number) {
        Some(index) => Ok((index, next)),
        None => Err(Refusal::Frame(at)),
    }
}

/// A server: one byte, its number from 1 to 5. `Frame` names it where it is cut or out of range.
pub fn read_server(bytes: &[u8], at: usize) -> Result<(ServerId, usize), Refusal>
    ensures { GivesExactly result (server.read bytes.now at) }
{
    let (number, next) = read_u8(bytes, at)?;
    match ServerId::from_number(number) {
        Some(server) => Ok((server, next)),
        None => Err(Refusal::Frame(at)),
    }
}

/// A flag: one byte, 0 or 1. `Frame` names it where it is cut or another number.
pub fn read_bool(bytes: &[u8], at: usize) -> Result<(bool, usize), Refusal>
    ensures { GivesExactly result (bool.read bytes.now at) }
{
    match read_u8(bytes, at)? {
        (0, next) => Ok((false, next)),
        (1, next) => Ok((true, next)),
        _ => Err(Refusal::Frame(at)),
    }
}

/// An actor: one byte, from 1 to 5 for the server of that number, or 128 more than its number for a
/// client, 129 to 192. `Frame` names it where it is cut or another number.
pub fn read_actor(bytes: &[u8], at: usize) -> Result<(Actor, usize), Refusal>
    ensures { GivesExactly result (actor.read bytes.now at) }
{
    let (code, next) = read_u8(bytes, at)?;
    if code < 128 {
        match ServerId::from_number(code) {
            Some(server) => Ok((Actor::Server(server), next)),
            None => Err(Refusal::Frame(at)),
        }
    } else {
        match ClientId::from_number(code - 128) {
            Some(client) => Ok((Actor::Client(client), next)),
            None => Err(Refusal::Frame(at)),
        }
    }
}

/// Eight bytes that are all 0. `Frame` names the first where they are cut or another number.
pub(crate) fn read_zero(bytes: &[u8], at: usize) -> Result<(u64, usize), Refusal>
    ensures { GivesExactly result ((number 8 0 1).read bytes.now at) }
{
    match read_u64(bytes, at)? {
        (0, next) => Ok((0, next)),
        _ => Err(Refusal::Frame(at)),
    }
}

/// The count of a list, in one byte. `Frame` names it where it is cut or more than `most`.
pub(crate) fn read_count(bytes: &[u8], at: usize, most: u8) -> Result<(usize, usize), Refusal>
    ensures { GivesExactly result ((number 1 0 (most + 1)).read bytes.now at) }
{
    match read_u8(bytes, at)? {
        (count, next) if count <= most => Ok((count as usize, next)),
        _ => Err(Refusal::Frame(at)),
    }
}

/// The count of a list, in four bytes. `Frame` names its first byte where it is cut or more than
/// `most`.
pub(crate) fn read_long_count(bytes: &[u8], at: usize, most: u32) -> Result<(usize, usize), Refusal>
    ensures { GivesExactly result ((number 4 0 (most + 1)).read bytes.now at) }
{
    match read_u32(bytes, at)? {
        (count, next) if count <= most => Ok((count as usize, next)),
        _ => Err(Refusal::Frame(at)),
    }
}

/// A name: its length in one byte, from 1 to 32, and its bytes. `Frame` names the length, whatever
/// is wrong.
pub(crate) fn read_name(bytes: &[u8], at: usize) -> Result<(Name, usize), Refusal>
    ensures { GivesExactly result (name.read bytes.now at) }
{
    let (size, start) = read_u8(bytes, at)?;
    let size = size as usize;
    match rest_of(bytes, start, size) {
        Some(rest) => match Name::from_bytes(&rest[..size]) {
            Some(name) => Ok((name, start + size)),
            None => Err(Refusal::Frame(at)),
        },
        None => Err(Refusal::Frame(at)),
    }
}
