//! Transcripts, read.
ghost use Rattle.std.specs.Prelude.{◌≡◌, ◌++◌, ◌∷◌, ◌⊎◌, ◌==◌, ℕ, suc, Some, List, [], Err, IfOk, IfErr, IfSome, IsSomeAnd, OnErr, length, map};
ghost use Rattle.std.specs.List.{AllByRecursion, position};
ghost use Rattle.rows.specs.Fits.{NodeSpecFits};
ghost use Rattle.rows.specs.declared.node.NodeSpec.{NodeSpec};
ghost use Rattle.rows.specs.declared.refusal.Refusal.TheVariants as refusals;
ghost use Rattle.group_model.specs.Worlds as models;
ghost use Rattle.rows.specs.GroupSizes.{IsGroup};
ghost use Rattle.group_inputs.specs.Events.{group_event, group_events};
ghost use Rattle.event_texts.specs.EventLines.{HasLine, event_line};
ghost use Rattle.event_texts.specs.Transcripts.{AreNumberedFrom, BeginsKept, IsFault, IsTranscript, KeepsLines, Recorded, lines_text, node_line, recorded, servers_line};
ghost use Rattle.event_texts.specs.Inner.Printable.{IsPrintable};

use crate::event::read_event;
use crate::transcript::Transcript;
use crate::word::{cut, read_name, read_node, read_quantity, read_space};
use group_inputs::Event;
use rows::{NoMemory, NodeSpec, Refusal, Size};
use std::alloc::Global;

// Where the first newline stands.
fn newline(text: &[u8]) -> Option<usize>
    ensures { result ≡ position (λ byte. byte == 10) text.now }
{
    text.iter().position(|byte| *byte == b'\n')
}

// The first line without its newline, and what stands behind that; none where there is no newline,
// or the line is no text.
fn cut_line(text: &[u8]) -> Option<(&str, &[u8])>
    ensures parts { IfSome result (λ parts. text.now ≡ parts.0.now ++ 10 ∷ parts.1.now) }
    ensures first { (front back : List ℕ) → IsPrintable front → text.now ≡ front ++ 10 ∷ back
        → IsSomeAnd result (λ parts. (parts.0.now ≡ front) × (parts.1.now ≡ back)) }
{
    let end = newline(text)?;
    let line = str::from_utf8(&text[..end]).ok()?;
    Some((line, &text[end + 1..]))
}

// The number of servers that the first line says, and what stands behind that line.
fn cut_servers(text: &[u8]) -> Option<(usize, &[u8])>
    ensures named { IfSome result (λ parts. IsGroup parts.0
        × (text.now ≡ servers_line parts.0 ++ 10 ∷ parts.1.now)) }
    ensures read { (n : ℕ) (behind : List ℕ) → IsGroup n
        → text.now ≡ servers_line n ++ 10 ∷ behind
        → IsSomeAnd result (λ parts. (parts.0 ≡ n) × (parts.1.now ≡ behind)) }
{
    let (line, rest) = cut_line(text)?;
    match line {
        "servers 3" => Some((3, rest)),
        "servers 5" => Some((5, rest)),
        _ => None,
    }
}

// The node of a line.
fn read_node_line(line: &str) -> Option<NodeSpec>
    ensures named { IfSome result (λ node. NodeSpecFits node × (line.now ≡ node_line node)) }
    ensures read { (node : NodeSpec) → NodeSpecFits node → line.now ≡ node_line node
        → result ≡ Some node }
{
    let words = line.strip_prefix("node ")?;
    let (number, words) = cut(words, ' ')?;
    let (class, words) = cut(words, ' ')?;
    let (cpu, words) = cut(words, ' ')?;
    let (mem, disk) = cut(words, ' ')?;
    Some(NodeSpec {
        number: read_node(number)?,
        class: read_name(class)?,
        size: Size {
            cpu: read_quantity(cpu)?,
            mem: read_quantity(mem)?,
            disk: read_space(disk)?,
        },
    })
}

// The node of the first line, behind so many others, and what stands behind that line.
fn cut_node(text: &[u8], others: usize) -> Option<(NodeSpec, &[u8])>
    ensures named { IfSome result (λ parts. NodeSpecFits parts.0 × (parts.0.number ≡ suc others)
        × (text.now ≡ node_line parts.0 ++ 10 ∷ parts.1.now)) }
    ensures read { (node : NodeSpec) (behind : List ℕ) → NodeSpecFits node
        → node.number ≡ suc others → text.now ≡ node_line node ++ 10 ∷ behind
        → IsSomeAnd result (λ parts. (parts.0 ≡ node) × (parts.1.now ≡ behind)) }
{
    let (line, rest) = cut_line(text)?;
    let node = read_node_line(line)?;
    if usize::from(node.number.number() - 1) != others {
        return None;
    }
    Some((node, rest))
}

// The event of the first line, and what stands behind that line.
fn cut_event(alloc: Global, text: &[u8]) -> Result<Option<(Event, &[u8])>, NoMemory>
    ensures named { IfOk result (λ cut. IfSome cut (λ parts. HasLine (group_event parts.0)
        × (text.now ≡ event_line (group_event parts.0) ++ 10 ∷ parts.1.now))) }
    ensures read { (event : models.Event) (behind : List ℕ) → HasLine event
        → text.now ≡ event_line event ++ 10 ∷ behind
        → IfOk result (λ cut. IsSomeAnd cut (λ parts. (group_event parts.0 ≡ event)
        × (parts.1.now ≡ behind))) }
    ensures memory { OnErr result (BeginsKept text.now) }
{
    let Some((line, rest)) = cut_line(text) else {
        return Ok(None);
    };
    match read_event(alloc, line) {
        Ok(event) => Ok(Some((event, rest))),
        Err(cause) => match cause {
            Refusal::NoMemory => Err(NoMemory),
            _ => Ok(None),
        },
    }
}

// The nodes of the first lines, and what stands behind those.
fn read_nodes(alloc: Global, text: &[u8]) -> Result<(Vec<NodeSpec>, &[u8]), NoMemory>
    ensures numbered { IfOk result (λ parts. AreNumberedFrom 1 parts.0.items) }
    ensures front { IfOk result (λ parts.
        text.now ≡ lines_text (map node_line parts.0.items) ++ parts.1.now) }
    ensures stops { IfOk result (λ parts. (node : NodeSpec) (behind : List ℕ) → NodeSpecFits node
        → node.number ≡ suc (length parts.0.items)
        → parts.1.now ≡ node_line node ++ 10 ∷ behind → ⊥) }
    ensures read { (nodes : List NodeSpec) (events : List models.Event) → AreNumberedFrom 1 nodes
        → AllByRecursion HasLine events
        → text.now ≡ lines_text (map node_line nodes ++ map event_line events)
        → IfOk result (λ parts. (parts.0.items ≡ nodes)
        × (parts.1.now ≡ lines_text (map event_line events))) }
    ensures memory { OnErr result (BeginsKept text.now) }
{
    let mut nodes = Vec::new(alloc);
    let mut rest = text;
    while let Some((node, behind)) = cut_node(rest, nodes.len()) {
        nodes.push(node)?;
        rest = behind;
    }
    Ok((nodes, rest))
}

// The events of the first lines, and what stands behind those.
fn read_events(alloc: Global, text: &[u8]) -> Result<(Vec<Event>, &[u8]), NoMemory>
    ensures lines { IfOk result (λ parts. AllByRecursion HasLine (group_events parts.0.items)) }
    ensures front { IfOk result (λ parts.
        text.now ≡ lines_text (map event_line (group_events parts.0.items)) ++ parts.1.now) }
    ensures stops { IfOk result (λ parts. (event : models.Event) (behind : List ℕ) → HasLine event
        → parts.1.now ≡ event_line event ++ 10 ∷ behind → ⊥) }
    ensures read { (events : List models.Event) → AllByRecursion HasLine events
        → text.now ≡ lines_text (map event_line events)
        → IfOk result (λ parts. (group_events parts.0.items ≡ events) × (parts.1.now ≡ [])) }
    ensures memory { OnErr result (BeginsKept text.now) }
{
    let mut events = Vec::new(alloc);
    let mut rest = text;
    while let Some((event, behind)) = cut_event(alloc, rest)? {
        events.push(event)?;
        rest = behind;
    }
    Ok((events, rest))
}

/// Reads a transcript: exactly the one text of each group's servers, nodes and events.
///
/// It is refused with `Frame` and the offset of the first byte of the first line at fault: the
/// first that may not stand where it does, has no newline at its end, or is no text; where no group
/// has the first line, that is 0. It is refused with `NoMemory` too, but only where behind a
/// group's line stands one that is kept or takes memory to read.
pub fn read(alloc: Global, bytes: &[u8]) -> Result<Transcript, Refusal>
    ensures named { IfOk result (λ t. IsTranscript (recorded t) bytes.now) }
    ensures read { (r : Recorded) → IsTranscript r bytes.now
        → IfOk result (λ t. recorded t ≡ r) }
    ensures refused { IfErr result (λ cause. (cause ≡ refusals.NoMemory)
        ⊎ ((at : ℕ) × (cause ≡ refusals.Frame at) × IsFault bytes.now at
        × ((r : Recorded) → ¬ IsTranscript r bytes.now))) }
    ensures memory { result ≡ Err refusals.NoMemory → KeepsLines bytes.now }
{
    let Some((servers, lines)) = cut_servers(bytes) else {
        return Err(Refusal::Frame(0));
    };
    let (nodes, lines) = read_nodes(alloc, lines)?;
    let (events, rest) = read_events(alloc, lines)?;
    if !rest.is_empty() {
        return Err(Refusal::Frame(bytes.len() - rest.len()));
    }
    Ok(Transcript {
        servers,
        nodes,
        events,
    })
}
