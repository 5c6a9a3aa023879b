ghost use Rattle.std.specs.Prelude.{◌≡◌, ◌++◌, ◌+◌, ◌<◌, ◌≤◌, ◌^◌, true, length, take, drop, OnOk, OnErr};
ghost use Rattle.fields_model.specs.Format.{Grows};
ghost use Rattle.wire.specs.Messages.{kind_of, may_go};
ghost use Rattle.wire.specs.Grammar.{body};
ghost use Rattle.wire.specs.Frames.{sized, agrees, AddsFrame};
ghost use Rattle.wire.specs.Inner.Said.{said_body, IsInRange};
ghost use Rattle.wire.specs.Inner.Sizes.{AddsSized};

use crate::body::{Said, append_said};
use crate::header::{Header, append_header};
use crate::message::Message;
use machine::Machine;
use rows::{Actor, NoMemory};

/// Puts the number of the bytes behind the four at a place into those four.
#[tactic(auto, unfolding(fields_model::specs::Format::spelled), using(crate::proofs::Rules::drops))]
fn put_size(out: &mut Vec<u8>, at: usize)
    requires room { at + 4 ≤ length out.old.items }
    requires short { length out.old.items < at + 4 + 2 ^ 32 }
    ensures { out.new.items ≡ take at out.old.items ++ sized (drop (at + 4) out.old.items) }
{
    let size = (out.len() - at - 4) as u32;
    out[at..at + 4].copy_from_slice(&size.to_be_bytes());
}

/// Puts what is said to the end, behind its length.
#[inline(always)]
fn append_sized<M: Machine>(said: &Said<'_, M>, out: &mut Vec<u8>) -> Result<(), NoMemory>
    requires { IsInRange M.spec said.now }
    ensures ok { OnOk result (AddsSized (body M.spec (kind_of (said_body said.now)))
        (said_body said.now) out.old.items out.new.items) }
    ensures agrees { OnOk result (agrees M.spec (said_body said.now) ≡ true) }
    ensures err { OnErr result (Grows out.old.items out.new.items) }
{
    let size_at = out.len();
    out.extend_from_slice(&[0; 4])?;
    append_said(said, out)?;
    put_size(out, size_at);
    Ok(())
}

/// Puts the frame to the end; after an error a part of it may stand there.
#[tactic(auto, using(crate::proofs::Rules::appends))]
#[inline(always)]
fn append_frame<M: Machine>(
    from: &Actor,
    to: &Actor,
    said: &Said<'_, M>,
    out: &mut Vec<u8>,
) -> Result<(), NoMemory>
    requires allowed { may_go (kind_of (said_body said.now)) from.now to.now ≡ true }
    requires range { IsInRange M.spec said.now }
    ensures ok { OnOk result (AddsFrame M.spec
        (record { from = from.now; to = to.now; body = said_body said.now }) out.old.items out.new.items) }
    ensures err { OnErr result (Grows out.old.items out.new.items) }
{
    let header = Header {
        kind: said.kind(),
        from: *from,
        to: *to,
    };
    append_header(&header, out)?;
    append_sized(said, out)
}

/// Puts the one frame of the message of these parts to the end, or changes nothing. Its kind goes
/// from there to there; the entries of an `Append` are at most 32, each with a place in the log,
/// below 2^40; the state of an `Install` has seen as many commands as its index says, one at least.
#[inline(always)]
pub fn write_frame<M: Machine>(
    from: &Actor,
    to: &Actor,
    said: &Said<'_, M>,
    out: &mut Vec<u8>,
) -> Result<(), NoMemory>
    requires allowed { may_go (kind_of (said_body said.now)) from.now to.now ≡ true }
    requires range { IsInRange M.spec said.now }
    ensures ok { OnOk result (AddsFrame M.spec
        (record { from = from.now; to = to.now; body = said_body said.now }) out.old.items out.new.items) }
    ensures err { OnErr result (out.new.items ≡ out.old.items) }
{
    let start = out.len();
    let done = append_frame(from, to, said, out);
    if done.is_err() {
        out.truncate(start);
    }
    done
}

/// Puts the one frame of a message to the end, or changes nothing.
pub fn write_message<M: Machine>(message: &Message<M>, out: &mut Vec<u8>) -> Result<(), NoMemory>
    ensures ok { OnOk result (AddsFrame M.spec message.now out.old.items out.new.items) }
    ensures err { OnErr result (out.new.items ≡ out.old.items) }
{
    let said = Said::Body(message.body());
    write_frame(&message.from(), &message.to(), &said, out)
}
