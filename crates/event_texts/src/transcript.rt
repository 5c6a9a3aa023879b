//! Transcripts, and how they are written.
ghost use Rattle.std.specs.Prelude.{◌≡◌, ◌++◌, ◌∷◌, [], IfOk, OnOk, map};
ghost use Rattle.std.specs.List.{AllByRecursion};
ghost use Rattle.rows.specs.GroupSizes.{IsGroup};
ghost use Rattle.group_inputs.specs.Events.{group_events};
ghost use Rattle.event_texts.specs.EventLines.{HasLine, IsSayable, event_line};
ghost use Rattle.event_texts.specs.Transcripts.{AreNumberedFrom, IsTranscript, lines_text, node_line, recorded_of};

use crate::word::{append_next, append_size, append_text};
use crate::writing::push_event;
use group_inputs::Event;
use rows::{NoMemory, NodeSpec};
use std::alloc::Global;

/// A group's servers and nodes, and what happened to it: all that it takes to play it again.
#[derive(Drop)]
pub struct Transcript {
    /// How many servers there are, 3 or 5.
    pub servers: usize,
    /// The clients' nodes, numbered from 1 in their order, at most 64.
    pub nodes: Vec<NodeSpec>,
    /// The events, in order.
    pub events: Vec<Event>,
}

// Puts the line of a node to the end, and a newline.
fn append_node(node: &NodeSpec, out: &mut Vec<u8>) -> Result<(), NoMemory>
    ensures { OnOk result (out.new.items ≡ out.old.items ++ (node_line node.now ++ 10 ∷ [])) }
{
    append_text("node", out)?;
    append_next(b' ', u64::from(node.number.number()), out)?;
    out.push(b' ')?;
    append_text(node.class.as_str(), out)?;
    append_size(b' ', node.size, out)?;
    out.push(b'\n')?;
    Ok(())
}

// Puts the lines of nodes to the end.
fn append_nodes(nodes: &[NodeSpec], out: &mut Vec<u8>) -> Result<(), NoMemory>
    ensures { OnOk result (out.new.items
        ≡ out.old.items ++ lines_text (map node_line nodes.now)) }
{
    for node in nodes {
        append_node(node, out)?;
    }
    Ok(())
}

// Puts the lines of events to the end.
fn append_events(events: &[Event], out: &mut Vec<u8>) -> Result<(), NoMemory>
    requires { AllByRecursion IsSayable (group_events events.now) }
    ensures have { OnOk result (AllByRecursion HasLine (group_events events.now)) }
    ensures text { OnOk result (out.new.items
        ≡ out.old.items ++ lines_text (map event_line (group_events events.now))) }
{
    for event in events {
        push_event(out, event)?;
        out.push(b'\n')?;
    }
    Ok(())
}

/// The one text of a group's servers, of which there are 3 or 5, its clients' nodes, numbered from 1
/// in their order, and its events, of which none is an arrival and none delivers a message with a
/// number past 2^64 - 1.
pub fn write(
    alloc: Global,
    servers: usize,
    nodes: &[NodeSpec],
    events: &[Event],
) -> Result<Vec<u8>, NoMemory>
    requires group { IsGroup servers }
    requires numbered { AreNumberedFrom 1 nodes.now }
    requires sayable { AllByRecursion IsSayable (group_events events.now) }
    ensures { IfOk result (λ text. IsTranscript
        (recorded_of servers nodes.now (group_events events.now)) text.items) }
{
    let mut text = Vec::new(alloc);
    append_text("servers", &mut text)?;
    append_next(b' ', servers as u64, &mut text)?;
    text.push(b'\n')?;
    append_nodes(nodes, &mut text)?;
    append_events(events, &mut text)?;
    Ok(text)
}
