//! A server that goes on from what it stored in the first version, which says nothing of disk.
use crate::apart::{V, answer_of, no_output};
use crate::samples::Sample;
use fsm_state::Cluster;
use group_inputs::ServerInput;
use raft_snapshot::read_stable;
use rows::{AllocId, EntryIndex, Ordinal, ServerId};
use server::Server;
use std::alloc::Global;
use std::rt::Files;
use std::{fs, io};

// Server 2 gives server 1 its vote in term 2; and then has its entries up to the ninth.
const VOTES: &[u8] = &[
    V, 2, 2, 1, 0, 0, 0, 17, 0, 0, 0, 0, 0, 0, 0, 2, 0, 0, 0, 0, 0, 0, 0, 2, 1,
];

const HAS_NINE: &[u8] = &[
    V, 4, 2, 1, 0, 0, 0, 25, 0, 0, 0, 0, 0, 0, 0, 2, 0, 0, 0, 0, 0, 0, 0, 2, 1, 0, 0, 0, 0, 0, 0,
    0, 9,
];

// Client 1 registers with server 1: node 1, `linux` 1000 1000, with disk 1; and with none.
const WITH_DISK: &[u8] = &[
    V, 14, 129, 1, 0, 0, 0, 18, 5, 108, 105, 110, 117, 120, 0, 0, 3, 232, 0, 0, 3, 232, 0, 0, 0, 1,
];

const WITHOUT_DISK: &[u8] = &[
    V, 14, 129, 1, 0, 0, 0, 18, 5, 108, 105, 110, 117, 120, 0, 0, 3, 232, 0, 0, 3, 232, 0, 0, 0, 0,
];

// Server 1 of three, from what it stored.
fn started(alloc: Global, text: &[u8]) -> Option<Server> {
    let me = ServerId::from_number(1)?;
    let stable = read_stable::<Cluster>(alloc, text).ok()?;
    Server::restart(alloc, me, 3, stable).ok()
}

// The disk of allocation 5.0.
fn disk_of(server: &Server) -> Option<u32> {
    let index = EntryIndex::new(5)?;
    let slot = Ordinal::new(0)?;
    let row = server.state()?.alloc(AllocId { index, slot })?;
    Some(row.size.disk.get())
}

// It is elected in term 2, and its first entry of that term is committed.
fn lead(server: &mut Server, alloc: Global) -> Option<()> {
    let mut sent = no_output(alloc);
    server.step(ServerInput::Timeout, &mut sent).ok()?;
    server.receive(VOTES, &mut sent).ok()?;
    server.step(ServerInput::Beat, &mut sent).ok()?;
    server.receive(HAS_NINE, &mut sent).ok()
}

fn say_told(rt: &HostRuntime, server: &mut Server, frame: &[u8]) -> io::Result<()> {
    match answer_of(server, rt.alloc(), frame) {
        Some(bytes) => print!(rt; ", told {bytes:?}"),
        None => print!(rt; ", told nothing"),
    }
}

fn say_all(rt: &HostRuntime, server: &mut Server) -> io::Result<()> {
    print!(rt; "stored in version 1: last {}", server.last())?;
    if let Some(disk) = disk_of(server) {
        print!(rt; ", 5.0 with disk {disk}")?;
    }
    let is_led = lead(server, rt.alloc()).is_some();
    print!(rt; ", leads {is_led} in term {}", server.term())?;
    say_told(rt, server, WITH_DISK)?;
    say_told(rt, server, WITHOUT_DISK)?;
    println!(rt;)
}

/// Says of server 1 of the long row, started again from the first text of `stored-v1`, what is its
/// log's end, and the disk of allocation 5.0; and when it leads, what it answers to a Register of
/// node 1 with disk, and to one without.
pub(crate) fn starts(rt: &HostRuntime) -> io::Result<()> {
    let text = fs::read_to_string(rt, "stored-v1")?;
    let line = text.lines().next().unwrap_or("");
    let Some(digits) = line.strip_prefix("text compacted ") else {
        return Ok(());
    };
    let sample = Sample::of(rt.alloc(), digits)?;
    let Some(mut server) = started(rt.alloc(), &sample.bytes) else {
        return println!(rt; "stored in version 1: not read");
    };
    say_all(rt, &mut server)
}
