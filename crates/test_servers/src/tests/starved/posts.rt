//! Messages of a group whose threads did not start, and whose queues have room for one: each that
//! was sent is on its way or counted as lost.
ghost use Rattle.std.specs.Prelude.{◌≡◌};

use super::stop::{Stop, unmade};
use crate::tests::held_cells::{nodes, opened};
use crate::tests::running::group;
use cluster::{NetSettings, OpenGate, OwnInput, RunningGroup, close};
use event_book::{BookId, OpenedBook};
use group_inputs::ServerInput;
use rows::{Actor, NodeSpec, Refusal, ServerId};
use std::alloc::Global;
use std::marker::Brand;
use std::sync::Wait;

const NARROW: NetSettings = NetSettings {
    capacity: 1,
    key: 0,
    drop: 0,
    repeat: 0,
};

/// How often server 1 stands for election. Each time both others are asked.
const STANDS: u32 = 3;

// Server 1 stands. Where it finds no memory it does not, or goes down, and sends nothing then.
fn stand<B: BookId, R: Wait>(
    rt: &R,
    alloc: Global,
    group: &RunningGroup<B, OpenGate>,
) -> Result<(), Refusal> {
    let first = ServerId::from_number(1).ok_or(Refusal::OutOfRange)?;
    let input = OwnInput::server(alloc, ServerInput::Timeout)?;
    match group.hand(rt, Actor::Server(first), input) {
        Ok(()) | Err(Refusal::NoMemory | Refusal::Down) => Ok(()),
        Err(refusal) => Err(refusal),
    }
}

// How many messages are on their way or counted as lost, and how many were sent.
fn posts<B: BookId, R: Wait>(
    rt: &R,
    alloc: Global,
    opened: OpenedBook<OwnInput>,
    nodes: Vec<NodeSpec>,
) -> Result<(u64, u64), Refusal>
    requires book { opened ≡ (B.table, B.actors) }
    requires nodes { nodes.items ≡ B.nodes }
{
    let group = group::<B, _>(alloc, opened, nodes, NARROW, OpenGate)?;
    for _ in 0..STANDS {
        stand(rt, alloc, &group)?;
    }
    let told = group.in_flight().saturating_add(group.lost_messages());
    let world = close(alloc, group.into_cells().into_cells()?)?;
    Ok((told, world.sent().len() as u64))
}

fn posted<R: Wait>(rt: &R, alloc: Global) -> Result<(u64, u64), Refusal> {
    let book = opened(alloc, &[1, 2, 3], 0)?;
    let nodes = nodes(alloc, 0)?;
    posts::<Brand, _>(rt, alloc, book, nodes)
}

/// Server 1 stands several times, and nobody takes what it sends.
pub(super) fn play_posts<R: Wait>(rt: &R, alloc: Global) -> Result<(), Stop> {
    match posted(rt, alloc) {
        Ok((told, sent)) if told == sent => Ok(()),
        Ok(_) => Err(Stop::Uncounted),
        Err(refusal) => Err(unmade(refusal)),
    }
}
