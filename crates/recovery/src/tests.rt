//! Five servers with a tally, settled four times: before their first event; with forty entries that
//! only the leader has, where another that stood thrice is ahead in term and one is down; after the
//! leader has compacted its log and crashed; and with three down. And a group of three, settled
//! four times: before its first event; with its leader down, to whom a worker's plan is under way;
//! with that server back; and once more.
use crate::calls::{settle, settle_group};
use crate::unsettled::Unsettled;
use group_inputs::{Event, ServerInput};
use machine::{Tally, TallyCommand};
use rows::{Batch, EntryIndex, EvalId, Index, LeaderTerm, Name, Plan, Serial, ServerId, Token};
use std::alloc::Global;
use world::{RaftEvent, RaftWorld, World};

/// Whether the server leads, and each that is up has applied as many entries as its log has.
fn is_settled(world: &RaftWorld<Tally>, who: ServerId) -> bool {
    let Some(leader) = world.raft(who) else {
        return false;
    };
    if leader.leader_term().is_none() {
        return false;
    }
    let last = leader.last();
    for position in 0..5 {
        if let Some(server) = ServerId::from_position(position)
            && let Some(raft) = world.raft(server)
            && let Some(applied) = raft.applied()
            && applied != last
        {
            return false;
        }
    }
    true
}

/// The server that leads once the group is settled, if it is.
fn settled(world: &mut RaftWorld<Tally>) -> Option<ServerId> {
    match settle(world) {
        Ok(who) if is_settled(world, who) => Some(who),
        _ => None,
    }
}

fn propose(alloc: Global, world: &mut RaftWorld<Tally>, who: ServerId) -> bool {
    match Box::new(alloc, TallyCommand::Noop) {
        Ok(command) => world.step(RaftEvent::Propose(who, command)).is_ok(),
        Err(_) => false,
    }
}

#[test]
fn a_group_settles(rt: HostRuntime) {
    let alloc = rt.alloc();
    let Ok(mut world) = RaftWorld::<Tally>::new(alloc, 5) else {
        panic!(rt; "there is no group");
    };
    let Some(leader) = settled(&mut world) else {
        panic!(rt; "it does not settle at first");
    };
    // A timeout and two beats, with two deliveries for each of four servers.
    assert!(rt; world.trace().len() == 27, "{} events", world.trace().len());
    for _ in 0..40 {
        assert!(rt; propose(alloc, &mut world, leader));
    }
    let Some(ahead) = ServerId::from_number(2) else {
        panic!(rt; "there is no server 2");
    };
    let Some(away) = ServerId::from_number(3) else {
        panic!(rt; "there is no server 3");
    };
    for _ in 0..3 {
        assert!(rt; world.step(RaftEvent::Timeout(ahead)).is_ok());
    }
    assert!(rt; world.step(RaftEvent::Crash(away)).is_ok());
    assert!(rt; settled(&mut world) == Some(leader));
    assert!(rt; world.step(RaftEvent::Compact(leader)).is_ok());
    assert!(rt; world.step(RaftEvent::Crash(leader)).is_ok());
    assert!(rt; world.step(RaftEvent::Restart(away)).is_ok());
    let Some(next) = settled(&mut world) else {
        panic!(rt; "it does not settle without its leader");
    };
    assert!(rt; next != leader && next != away);
    assert!(rt; world.step(RaftEvent::Crash(next)).is_ok());
    assert!(rt; world.step(RaftEvent::Crash(away)).is_ok());
    assert!(rt; settle(&mut world) == Err(Unsettled::NoQuorum));
}

/// Whether the server leads with an open desk, and each that is up has applied as many entries as
/// its log has.
fn is_group_settled(world: &World, who: ServerId) -> bool {
    let Some(leader) = world.server(who) else {
        return false;
    };
    if leader.raft().leader_term().is_none() || !leader.desk().is_open() {
        return false;
    }
    let last = leader.last();
    for position in 0..3 {
        if let Some(id) = ServerId::from_position(position)
            && let Some(server) = world.server(id)
            && let Some(applied) = server.applied()
            && applied != last
        {
            return false;
        }
    }
    true
}

/// The number of the server that leads once the group is settled, if it is.
fn settled_group(alloc: Global, world: &mut World) -> Option<u8> {
    match settle_group(alloc, world) {
        Ok(who) if is_group_settled(world, who) => Some(who.number()),
        _ => None,
    }
}

/// A plan of nothing, for an evaluation that nobody has.
fn plan(alloc: Global) -> Option<Plan> {
    Some(Plan {
        eval: EvalId {
            index: EntryIndex::new(2)?,
            slot: 0,
        },
        token: Token {
            term: LeaderTerm::new(1)?,
            serial: Serial::new(1)?,
        },
        job: Name::from_bytes(b"web")?,
        version: Index::ZERO,
        snapshot: Index::ZERO,
        stops: Batch::new(alloc),
        places: Batch::new(alloc),
    })
}

/// Whether a server of the group takes this input.
fn takes(alloc: Global, world: &mut World, number: u8, input: ServerInput) -> bool {
    let Some(server) = ServerId::from_number(number) else {
        return false;
    };
    match Event::server(alloc, server, input) {
        Ok(event) => world.step(event).is_ok(),
        Err(_) => false,
    }
}

#[test]
fn a_whole_group_settles(rt: HostRuntime) {
    let alloc = rt.alloc();
    let Ok(mut world) = World::new(alloc, 3, &[]) else {
        panic!(rt; "there is no group");
    };
    assert!(rt; settled_group(alloc, &mut world) == Some(1));
    // A timeout and two beats, with two deliveries for each of two servers.
    assert!(rt; world.trace().len() == 15, "{} events", world.trace().len());
    let (Some(plan), Some(leader)) = (plan(alloc), ServerId::from_number(1)) else {
        panic!(rt; "there is no plan");
    };
    assert!(rt; takes(alloc, &mut world, 3, ServerInput::Submit(leader, plan)));
    let under_way = world.sent().len() as u64;
    assert!(rt; takes(alloc, &mut world, 1, ServerInput::Crash));
    assert!(rt; settled_group(alloc, &mut world) == Some(2));
    // The plan and the crash; then a timeout and two beats, with two deliveries for server 3.
    assert!(rt; world.trace().len() == 26, "{} events", world.trace().len());
    assert!(rt; takes(alloc, &mut world, 1, ServerInput::Restart));
    assert!(rt; settled_group(alloc, &mut world) == Some(2));
    // The restart; then a beat, with two deliveries for each of two servers: server 1 has all but
    // the last entry, and hears with that how much is committed.
    assert!(rt; world.trace().len() == 32, "{} events", world.trace().len());
    // Server 1 has as good a log now, but server 2 leads: nothing is left to do.
    assert!(rt; settled_group(alloc, &mut world) == Some(2));
    assert!(rt; world.trace().len() == 32, "{} events", world.trace().len());
    // The plan is still under way.
    assert!(rt; world.step(Event::Deliver(under_way)).is_ok());
    assert!(rt; takes(alloc, &mut world, 1, ServerInput::Crash));
    assert!(rt; takes(alloc, &mut world, 3, ServerInput::Crash));
    assert!(rt; settle_group(alloc, &mut world) == Err(Unsettled::NoQuorum));
}
