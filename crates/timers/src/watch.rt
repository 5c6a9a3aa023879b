//! What is seen, and for how long it has been so.
ghost use Rattle.std.specs.Prelude.{◌≡◌, ◌<◌, ◌^◌, IfOk};
ghost use Rattle.timers.specs.declared.watch.Sighting.TheVariants as sightings;
ghost use Rattle.timers.specs.Watches.{is_same, so_long, is_long, seen_for, watch_all};

use rows::{EvalId, Index, NoMemory, NodeId, Token};
use std::alloc::Global;

/// What a leader may see for too long.
#[derive(Clone, Copy, Debug, PartialEq, Eq)]
pub enum Sighting {
    /// A node that was heard of so often.
    Node(NodeId, Index),
    /// A delivery of an evaluation that a worker has.
    Delivery(EvalId, Token),
}

/// What was seen when it was last looked, and for how many milliseconds it had been seen by then.
#[derive(Clone, Copy, Debug)]
pub(crate) struct Watched {
    pub(crate) what: Sighting,
    pub(crate) passed: u32,
}

/// Whether both are deliveries of one evaluation under one token.
fn is_delivery(other: &Sighting, eval: &EvalId, token: &Token) -> bool
    ensures { result ≡ is_same other.now (sightings.Delivery eval.now token.now) }
{
    match other {
        Sighting::Node(_, _) => false,
        Sighting::Delivery(theirs, under) => {
            theirs.index.get() == eval.index.get()
                && theirs.slot == eval.slot
                && under.term.get() == token.term.get()
                && under.serial.get() == token.serial.get()
        }
    }
}

/// Whether both are one node that was heard of equally often.
fn is_node(other: &Sighting, node: NodeId, beats: Index) -> bool
    ensures { result ≡ is_same other.now (sightings.Node node beats) }
{
    match other {
        Sighting::Node(theirs, heard) => {
            theirs.number() == node.number() && heard.get() == beats.get()
        }
        Sighting::Delivery(_, _) => false,
    }
}

/// Whether both are the same.
fn is_same(other: &Sighting, what: &Sighting) -> bool
    ensures { result ≡ is_same other.now what.now }
{
    match what {
        Sighting::Node(node, beats) => is_node(other, *node, *beats),
        Sighting::Delivery(eval, token) => is_delivery(other, eval, token),
    }
}

/// For how long it is seen by now: so much longer than it was; none where it was not seen.
fn so_long(before: &[Watched], what: &Sighting, ms: u64) -> u64
    requires { ms < 2 ^ 34 }
    ensures { result ≡ so_long ms before.now what.now }
{
    for was in before {
        if is_same(&was.what, what) {
            return u64::from(was.passed) + ms;
        }
    }
    0
}

/// What is seen of it from now on: where it was long enough it begins anew.
fn seen_for(grace: u32, what: Sighting, long: u64) -> Watched
    ensures { result ≡ seen_for grace what long }
{
    let passed = if long < u64::from(grace) {
        long as u32
    } else {
        0
    };
    Watched { what, passed }
}

/// What is watched from now on, where this is seen: all of it.
pub(crate) fn watch_all(
    alloc: Global,
    before: &[Watched],
    seen: &[Sighting],
    grace: u32,
    ms: u64,
) -> Result<Vec<Watched>, NoMemory>
    requires { ms < 2 ^ 34 }
    ensures { IfOk result (λ now. now.items ≡ watch_all grace ms before.now seen.now) }
{
    let mut now = Vec::new(alloc);
    for what in seen {
        let long = so_long(before, what, ms);
        now.push(seen_for(grace, *what, long))?;
    }
    Ok(now)
}

/// Whether it was seen for long enough.
pub(crate) fn is_long(before: &[Watched], what: &Sighting, grace: u32, ms: u64) -> bool
    requires { ms < 2 ^ 34 }
    ensures { result ≡ is_long grace ms before.now what.now }
{
    so_long(before, what, ms) >= u64::from(grace)
}
