//! What a client sends, says to whoever runs allocations, and tells the standard error.
ghost use Rattle.std.specs.Prelude.{◌≡◌, ◌↔◌, ◌++◌, ◌∷◌, [], IfOk, IsOk, OnOk, filter, map};
ghost use Rattle.group_model.specs.Agents.{Running};
ghost use Rattle.client_agent.specs.AgentView.{AgentView};
ghost use Rattle.wire.specs.Frames.{sized};
ghost use Rattle.journal.specs.Events.{BytesSent, LineReported};
ghost use Rattle.journal.specs.Savings.{output_event};
ghost use Rattle.client_node.specs.Turns.{is_not_among, lines_of, refused_line, runs_in, said_between, said_of, sends, word_text};

use client_agent::{Agent, RunningAllocation};
use fsm_state::is_among;
use journal::{Out, item_of};
use rows::{AllocId, NoMemory, Refusal};
use std::alloc::Global;
use std::io;
use std::io::Write;
use wire::Frames;

/// What was written to a buffer, or that there was no memory.
fn written(done: io::Result<()>) -> Result<(), NoMemory>
    ensures { IsOk result ↔ IsOk done }
{
    match done {
        Ok(()) => Ok(()),
        Err(_) => Err(NoMemory),
    }
}

/// The ids of these.
fn ids_of(alloc: Global, running: &[RunningAllocation]) -> Result<Vec<AllocId>, NoMemory>
    ensures { IfOk result (λ ids. ids.items ≡ map (λ (r : Running). r.id) running.now) }
{
    let mut ids = Vec::new(alloc);
    for one in running {
        ids.push(one.id)?;
    }
    Ok(ids)
}

/// The ids of what runs.
pub fn running_ids(alloc: Global, agent: &Agent) -> Result<Vec<AllocId>, NoMemory>
    ensures { IfOk result (λ ids. ids.items ≡ runs_in agent.now) }
{
    match agent.running() {
        Some(running) => ids_of(alloc, running),
        None => Ok(Vec::new(alloc)),
    }
}

/// Puts these bytes, as an item, behind what is sent and reported.
fn put_item(alloc: Global, bytes: &[u8], outs: &mut Vec<Out>) -> Result<(), NoMemory>
    ensures { OnOk result (map output_event outs.new.items
        ≡ map output_event outs.old.items ++ BytesSent (sized bytes.now) ∷ []) }
{
    let item = item_of(alloc, bytes)?;
    outs.push(Out::Item(item))?;
    Ok(())
}

/// Puts a line behind what is sent and reported.
fn put_line(line: Vec<u8>, outs: &mut Vec<Out>) -> Result<(), NoMemory>
    ensures { OnOk result (map output_event outs.new.items
        ≡ map output_event outs.old.items ++ LineReported line.items ∷ []) }
{
    outs.push(Out::Line(line))?;
    Ok(())
}

/// Puts each frame, as an item, behind what is sent and reported.
fn put_frames(alloc: Global, frames: &Frames, outs: &mut Vec<Out>) -> Result<(), NoMemory>
    ensures { OnOk result (map output_event outs.new.items
        ≡ map output_event outs.old.items ++ sends frames.now) }
{
    for place in 0..frames.len() {
        let Some(frame) = frames.get(place) else {
            unreachable!()
        };
        put_item(alloc, frame.bytes(), outs)?;
    }
    Ok(())
}

/// `WORD INDEX.PLACE`.
fn word_text(alloc: Global, word: &str, id: AllocId) -> Result<Vec<u8>, NoMemory>
    ensures { IfOk result (λ text. text.items ≡ word_text word.now id) }
{
    let mut text = Vec::new(alloc);
    let index = id.index.get();
    let slot = id.slot.get();
    written(write!(text, "{word} {index}.{slot}"))?;
    Ok(text)
}

/// Puts `WORD INDEX.PLACE`, as an item, behind what is sent and reported.
fn put_word(alloc: Global, word: &str, id: AllocId, outs: &mut Vec<Out>) -> Result<(), NoMemory>
    ensures { OnOk result (map output_event outs.new.items
        ≡ map output_event outs.old.items ++ said_of word.now id ∷ []) }
{
    let text = word_text(alloc, word, id)?;
    put_item(alloc, text.as_slice(), outs)
}

/// The same, where the id is not among these.
fn put_word_unless(
    alloc: Global,
    word: &str,
    id: &AllocId,
    others: &[AllocId],
    outs: &mut Vec<Out>,
) -> Result<(), NoMemory>
    ensures { OnOk result (map output_event outs.new.items ≡ map output_event outs.old.items
        ++ map (said_of word.now) (filter (is_not_among others.now) (id.now ∷ []))) }
{
    if is_among(*id, others) {
        return Ok(());
    }
    put_word(alloc, word, *id, outs)
}

/// Puts a word for each of these ids that is not among the others, in order.
fn put_words(
    alloc: Global,
    word: &str,
    ids: &[AllocId],
    others: &[AllocId],
    outs: &mut Vec<Out>,
) -> Result<(), NoMemory>
    ensures { OnOk result (map output_event outs.new.items ≡ map output_event outs.old.items
        ++ map (said_of word.now) (filter (is_not_among others.now) ids.now)) }
{
    for id in ids {
        put_word_unless(alloc, word, id, others, outs)?;
    }
    Ok(())
}

/// `refused N: WORDS`.
fn refused_line(alloc: Global, cause: Refusal) -> Result<Vec<u8>, NoMemory>
    ensures { IfOk result (λ line. line.items ≡ refused_line cause) }
{
    let mut line = Vec::new(alloc);
    let number = cause.number();
    written(writeln!(line, "refused {number}: {cause}"))?;
    Ok(line)
}

/// Puts what is refused, if it is, as a line behind what is sent and reported.
fn put_refusal(alloc: Global, told: Option<Refusal>, outs: &mut Vec<Out>) -> Result<(), NoMemory>
    ensures { OnOk result (map output_event outs.new.items
        ≡ map output_event outs.old.items ++ lines_of told) }
{
    match told {
        None => Ok(()),
        Some(cause) => {
            let line = refused_line(alloc, cause)?;
            put_line(line, outs)
        }
    }
}

/// Puts all that a turn sends and says behind what is sent and reported, where these allocations ran
/// before.
pub fn put_turn(
    alloc: Global,
    ran: &[AllocId],
    agent: &Agent,
    frames: &Frames,
    told: Option<Refusal>,
    outs: &mut Vec<Out>,
) -> Result<(), NoMemory>
    ensures { (old : AgentView) → ran.now ≡ runs_in old →
        OnOk result (map output_event outs.new.items ≡ map output_event outs.old.items
        ++ (sends frames.now ++ (said_between old agent.now ++ lines_of told))) }
{
    let runs = running_ids(alloc, agent)?;
    put_frames(alloc, frames, outs)?;
    put_words(alloc, "stop", ran, runs.as_slice(), outs)?;
    put_words(alloc, "start", runs.as_slice(), ran, outs)?;
    put_refusal(alloc, told, outs)
}
