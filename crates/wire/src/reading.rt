ghost use Rattle.std.specs.Prelude.{◌≡◌, true, IfErr, IfOk, Ok};
ghost use Rattle.rows.specs.declared.refusal.Refusal.TheVariants as refusals;
ghost use Rattle.fields_model.specs.Format.{Answers, Gives, GivesExactly};
ghost use Rattle.wire.specs.Messages.{Message as MessageOf, kind_of, is_of_log};
ghost use Rattle.wire.specs.Frames.{frame_takes_memory, size_at, message_at, message_text, is_log_frame, IsFrame, MessageFits};

use crate::body::read_body;
use crate::header::read_header;
use crate::message::{Message, message_of};
use byteorder::{BigEndian, ByteOrder};
use machine::Machine;
use rows::Refusal;
use std::alloc::Global;

/// The greatest length of a frame in bytes.
const FRAME_LIMIT: usize = 16_777_216;

/// How many bytes stand before the body.
const BODY_AT: usize = 8;

/// The length of the body, which is that of the bytes behind it, and the place after it.
pub fn read_size(bytes: &[u8], at: usize) -> Result<(u32, usize), Refusal>
    ensures { GivesExactly result (size_at bytes.now at) }
{
    if at > bytes.len() || bytes.len() - at < 4 {
        return Err(Refusal::Frame(at));
    }
    let size = BigEndian::read_u32(&bytes[at..]);
    if size as usize + BODY_AT != bytes.len() || bytes.len() > FRAME_LIMIT {
        return Err(Refusal::Frame(at));
    }
    Ok((size, at + 4))
}

/// The message of a frame, or its first fault.
#[tactic(auto, unfolding(crate::specs::Frames::message_at))]
fn read_frame<M: Machine>(alloc: Global, bytes: &[u8]) -> Result<Message<M>, Refusal>
    ensures { Answers (frame_takes_memory bytes.now ≡ true) result
        (message_at M.spec bytes.now) }
{
    let (header, at) = read_header(alloc, bytes, 0)?;
    let (_, at) = read_size(bytes, at)?;
    let (body, end) = read_body(alloc, header.kind, bytes, at)?;
    if end != bytes.len() {
        return Err(Refusal::Frame(end));
    }
    Ok(message_of(&header, body))
}

/// The message of a frame, which must be all of the bytes.
///
/// Bytes that are no frame are refused with the offset of the first field that is cut or out of its
/// range. The length of the body is at fault where it is not that of the bytes behind it, or where
/// the frame is longer than 16,777,216 bytes; bytes that are left over in the body are at fault at
/// the first of them. Behind all of these stands that a state has seen as many commands as its
/// message says: where it has not, its first byte is at fault.
pub fn read_message<M: Machine>(alloc: Global, bytes: &[u8]) -> Result<Message<M>, Refusal>
    // What is read has just these bytes.
    ensures found { IfOk result (λ m. IsFrame M.spec m bytes.now) }
    // A message's bytes are read, unless memory runs out.
    ensures only { (m : MessageOf M M.Command) → MessageFits M.spec m
        → bytes.now ≡ message_text M.spec m → Gives result (Ok m) }
    // Which field is at fault.
    ensures exact { Gives result (message_at M.spec bytes.now) }
    // Memory can run out only where the second byte says that there is a list or a state.
    ensures memory { IfErr result (λ e. e ≡ refusals.NoMemory
        → frame_takes_memory bytes.now ≡ true) }
    // The second byte says whether the message is one by which servers keep one log.
    ensures log { IfOk result (λ m. is_of_log (kind_of m.body) ≡ is_log_frame bytes.now) }
{
    read_frame(alloc, bytes)
}
