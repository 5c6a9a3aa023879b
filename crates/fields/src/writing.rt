//! Writing a field to the end of a buffer. A writer puts the one text of the value there; without
//! memory it leaves the buffer as it was.
ghost use Rattle.std.specs.Prelude.{◌≡◌, take, OnOk, OnErr};
ghost use Rattle.fields_model.specs.Format.{Writes};
ghost use Rattle.fields_model.specs.Fields.{term, index, server, byte, u16, u32, u64, bool, actor};

use byteorder::{BigEndian, ByteOrder};
use rows::{Actor, Index, NoMemory, ServerId, Term};

/// Cuts the buffer back to a length, where what was put behind it came to an error.
pub(crate) fn take_back(
    done: Result<(), NoMemory>,
    start: usize,
    out: &mut Vec<u8>,
) -> Result<(), NoMemory>
    ensures same { result ≡ done }
    ensures ok { OnOk done (out.new.items ≡ out.old.items) }
    ensures err { OnErr done (out.new.items ≡ take start out.old.items) }
{
    if done.is_err() {
        out.truncate(start);
    }
    done
}

/// A number in one byte.
#[tactic(auto, unfolding(fields_model::specs::Format::spelled))]
pub fn write_u8(value: &u8, out: &mut Vec<u8>) -> Result<(), NoMemory>
    ensures { Writes byte value.now result out.old.items out.new.items }
{
    out.push(*value)?;
    Ok(())
}

/// A number in two bytes, the highest first.
#[tactic(auto, unfolding(fields_model::specs::Format::spelled))]
pub fn write_u16(value: &u16, out: &mut Vec<u8>) -> Result<(), NoMemory>
    ensures { Writes u16 value.now result out.old.items out.new.items }
{
    let mut text = [0; 2];
    BigEndian::write_u16(&mut text, *value);
    out.extend_from_slice(&text)?;
    Ok(())
}

/// A number in four bytes, the highest first.
#[tactic(auto, unfolding(fields_model::specs::Format::spelled))]
pub fn write_u32(value: &u32, out: &mut Vec<u8>) -> Result<(), NoMemory>
    ensures { Writes u32 value.now result out.old.items out.new.items }
{
    let mut text = [0; 4];
    BigEndian::write_u32(&mut text, *value);
    out.extend_from_slice(&text)?;
    Ok(())
}

/// A number in eight bytes, the highest first.
#[tactic(auto, unfolding(fields_model::specs::Format::spelled))]
pub fn write_u64(value: &u64, out: &mut Vec<u8>) -> Result<(), NoMemory>
    ensures { Writes u64 value.now result out.old.items out.new.items }
{
    let mut text = [0; 8];
    BigEndian::write_u64(&mut text, *value);
    out.extend_from_slice(&text)?;
    Ok(())
}

/// A term in eight bytes.
pub fn write_term(value: &Term, out: &mut Vec<u8>) -> Result<(), NoMemory>
    ensures { Writes term value.now result out.old.items out.new.items }
{
    let number = value.get();
    write_u64(&number, out)
}

/// A place in the log in eight bytes.
pub fn write_index(value: &Index, out: &mut Vec<u8>) -> Result<(), NoMemory>
    ensures { Writes index value.now result out.old.items out.new.items }
{
    write_u64(&value.get(), out)
}

/// A server in one byte, its number from 1 to 5.
pub fn write_server(value: &ServerId, out: &mut Vec<u8>) -> Result<(), NoMemory>
    ensures { Writes server value.now result out.old.items out.new.items }
{
    write_u8(&value.number(), out)
}

/// A flag in one byte, 0 or 1.
pub fn write_bool(value: &bool, out: &mut Vec<u8>) -> Result<(), NoMemory>
    ensures { Writes bool value.now result out.old.items out.new.items }
{
    write_u8(if *value { &1 } else { &0 }, out)
}

/// An actor in one byte: a server is its number, and a client is 128 more than its own.
pub fn write_actor(value: &Actor, out: &mut Vec<u8>) -> Result<(), NoMemory>
    ensures { Writes actor value.now result out.old.items out.new.items }
{
    match value {
        Actor::Server(server) => write_u8(&server.number(), out),
        Actor::Client(client) => write_u8(&(128 + client.number()), out),
    }
}
