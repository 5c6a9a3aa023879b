//! Five servers whose logs are those of Figure 7 of Raft (extended version, section 5.3): of the
//! leader at its top, and of its followers (a), (c), (d) and (f), which are servers 1 to 5. Each
//! log comes about by elections, proposals, crashes and losses. Then the group settles: by itself;
//! before that leader has its last vote; and where servers are down, with those that are up and
//! with all. Who leads, its log, and how many events of each kind that takes are counted by hand,
//! from sections 5.2 to 5.4 and Figure 2.
use machine::{Tally, TallyCommand};
use raft_core::Raft;
use recovery::{Unsettled, settle, settle_all};
use rows::{Index, ServerId};
use std::alloc::Global;
use world::{Done, RaftEvent, RaftWorld};

/// What happens. Messages and servers are numbered from 1.
#[derive(Clone, Copy)]
enum Step {
    Deliver(u64),
    Timeout(u8),
    Beat(u8),
    Propose(u8),
    Crash(u8),
    Restart(u8),
}

use Step::{Beat, Crash, Deliver, Propose, Restart, Timeout};

/// A server that gets a quorum's votes leads, and appends its no-op.
const STEPS: &[Step] = &[
    // Term 1. Server 3 asks by messages 1 to 4, and has the votes of servers 1 and 2 by 5 and 6. It
    // takes two commands, and messages 7 to 10 bring the three entries; 11 to 14 say so, and are
    // lost.
    Timeout(3),
    Deliver(1),
    Deliver(2),
    Deliver(5),
    Deliver(6),
    Propose(3),
    Propose(3),
    Beat(3),
    Deliver(7),
    Deliver(8),
    Deliver(9),
    Deliver(10),
    // Term 2. Server 5 asks by 15 to 18, and has the votes of servers 1 and 2 by 19 and 20. It
    // takes two commands that it sends nobody, and crashes.
    Timeout(5),
    Deliver(15),
    Deliver(16),
    Deliver(19),
    Deliver(20),
    Propose(5),
    Propose(5),
    Crash(5),
    // Term 3. It asks again by 21 to 24, and has the votes of servers 1 and 2 by 25 and 26. It
    // takes four more, and crashes again.
    Restart(5),
    Timeout(5),
    Deliver(21),
    Deliver(22),
    Deliver(25),
    Deliver(26),
    Propose(5),
    Propose(5),
    Propose(5),
    Propose(5),
    Crash(5),
    // Term 4. Server 1 asks by 27 to 30, and has the votes of servers 3 and 4 by 31 and 32. It
    // takes one command. Messages 33 to 36 have its two entries, and server 5 is down; 37 to 39 are
    // lost.
    Timeout(1),
    Deliver(28),
    Deliver(29),
    Deliver(31),
    Deliver(32),
    Propose(1),
    Beat(1),
    Deliver(33),
    Deliver(34),
    Deliver(35),
    // Term 5. Server 4 asks by 40 to 43, and has the votes of servers 1 and 2 by 44 and 45. It
    // takes one command. Messages 46 to 49 have its two entries; 50 to 52 are lost.
    Timeout(4),
    Deliver(40),
    Deliver(41),
    Deliver(44),
    Deliver(45),
    Propose(4),
    Beat(4),
    Deliver(46),
    Deliver(47),
    Deliver(48),
    // Term 6. Server 3 asks by 53 to 56, and has the votes of servers 1 and 2 by 57 and 58. It
    // takes one command, and messages 59 to 62 have its two entries; server 2 alone gets them, and
    // 63 is lost. It takes one more, and servers 1 and 4 get the three by 64 and 66; 68 and 69 are
    // lost. It takes one more, for itself.
    Timeout(3),
    Deliver(53),
    Deliver(54),
    Deliver(57),
    Deliver(58),
    Propose(3),
    Beat(3),
    Deliver(60),
    Propose(3),
    Beat(3),
    Deliver(64),
    Deliver(66),
    Propose(3),
    // Term 7. Server 4 asks by 70 to 73, and has the votes of servers 1 and 2 by 74 and 75. It
    // takes one command.
    Timeout(4),
    Deliver(70),
    Deliver(71),
    Deliver(74),
    Deliver(75),
    Propose(4),
    // Term 8. Server 1 asks by 76 to 79, and has the vote of server 2 by 80. Server 5, which has
    // restarted, gives its vote by 81.
    Restart(5),
    Timeout(1),
    Deliver(76),
    Deliver(79),
    Deliver(80),
];

/// The logs then, as the terms of their entries.
const LOGS: [&[u64]; 5] = [
    &[1, 1, 1, 4, 4, 5, 5, 6, 6, 6],
    &[1, 1, 1, 4, 4, 5, 5, 6, 6],
    &[1, 1, 1, 4, 4, 5, 5, 6, 6, 6, 6],
    &[1, 1, 1, 4, 4, 5, 5, 6, 6, 6, 7, 7],
    &[1, 1, 1, 2, 2, 2, 3, 3, 3, 3, 3],
];

/// How many restarts, timeouts, beats and deliveries.
type Counts = (usize, usize, usize, usize);

struct Case {
    /// What happens then.
    further: &'static [Step],
    /// Whether who is down restarts.
    is_of_all: bool,
    /// Who leads in the end; none where no quorum is up.
    leader: Option<u8>,
    /// The log of each server that is up then.
    log: &'static [u64],
    counts: Counts,
}

/// A round of a leader is a beat, and a delivery and an answer for each other server that is up.
const CASES: &[Case] = &[
    // Server 1 leads. It sends the entry of term 8 behind index 10: servers 3 and 4 take it in
    // place of their own, and it is committed; (a) lacks index 10. The second round brings (a) two
    // entries. With (f) the leader goes back an index a round, from 10 to 3, which is the last that
    // they have in common: by the eighth round all have all, and what is committed.
    Case {
        further: &[Deliver(81)],
        is_of_all: false,
        leader: Some(1),
        log: &[1, 1, 1, 4, 4, 5, 5, 6, 6, 6, 8],
        counts: (0, 0, 8, 64),
    },
    // Server 4 has the best log, but server 1 is ahead in term: a beat, its message to server 1 and
    // the answer tell. It stands in term 9, four requests and four votes. In the first round nobody
    // holds index 12. In the second servers 1 and 2, which have 10 and 9 entries, get the rest, and
    // in the third server 3, which goes back from 11 to 10. With (f) it is 12, 11, .., 3: ten
    // rounds.
    Case {
        further: &[],
        is_of_all: false,
        leader: Some(4),
        log: &[1, 1, 1, 4, 4, 5, 5, 6, 6, 6, 7, 7, 9],
        counts: (0, 1, 11, 90),
    },
    // With servers 3 and 4 down (f) is needed to commit. It holds all by the eighth round, and a
    // ninth tells that it is committed.
    Case {
        further: &[Deliver(81), Crash(3), Crash(4)],
        is_of_all: false,
        leader: Some(1),
        log: &[1, 1, 1, 4, 4, 5, 5, 6, 6, 6, 8],
        counts: (0, 0, 9, 36),
    },
    // With two restarts first it goes as if they had been up.
    Case {
        further: &[Deliver(81), Crash(3), Crash(4)],
        is_of_all: true,
        leader: Some(1),
        log: &[1, 1, 1, 4, 4, 5, 5, 6, 6, 6, 8],
        counts: (2, 0, 8, 64),
    },
    // Where all are down they restart, and server 1, whose last entry is of the greatest term,
    // stands in term 9. In the first round nobody holds index 11. In the second servers 2, 3 and 4,
    // which agree up to 9, 10 and 10, get the rest. With (f) it is 11, 10, .., 3: nine rounds.
    Case {
        further: &[
            Deliver(81),
            Crash(1),
            Crash(2),
            Crash(3),
            Crash(4),
            Crash(5),
        ],
        is_of_all: true,
        leader: Some(1),
        log: &[1, 1, 1, 4, 4, 5, 5, 6, 6, 6, 8, 9],
        counts: (5, 1, 9, 80),
    },
    // Where three are down those that are up cannot.
    Case {
        further: &[Deliver(81), Crash(2), Crash(3), Crash(4)],
        is_of_all: false,
        leader: None,
        log: &[],
        counts: (0, 0, 0, 0),
    },
];

fn event_of(alloc: Global, step: Step) -> Option<RaftEvent<Tally>> {
    Some(match step {
        Deliver(message) => RaftEvent::Deliver(message),
        Timeout(server) => RaftEvent::Timeout(ServerId::from_number(server)?),
        Beat(server) => RaftEvent::Beat(ServerId::from_number(server)?),
        Propose(server) => RaftEvent::Propose(
            ServerId::from_number(server)?,
            Box::new(alloc, TallyCommand::Noop).ok()?,
        ),
        Crash(server) => RaftEvent::Crash(ServerId::from_number(server)?),
        Restart(server) => RaftEvent::Restart(ServerId::from_number(server)?),
    })
}

/// Whether it is taken.
fn take(alloc: Global, world: &mut RaftWorld<Tally>, step: Step) -> bool {
    match event_of(alloc, step) {
        Some(event) => world.step(event) == Ok(Done::Taken),
        None => false,
    }
}

/// Whether all these are.
fn play(alloc: Global, world: &mut RaftWorld<Tally>, steps: &[Step]) -> bool {
    for step in steps {
        if !take(alloc, world, *step) {
            return false;
        }
    }
    true
}

/// Whether a log is of these terms.
fn has_terms(raft: &Raft<Tally>, terms: &[u64]) -> bool {
    for (position, term) in terms.iter().enumerate() {
        let Some(index) = Index::new(position as u64 + 1) else {
            return false;
        };
        if raft.term_at(index).is_none_or(|found| found.get() != *term) {
            return false;
        }
    }
    raft.last().get() == terms.len() as u64
}

fn are_logs(world: &RaftWorld<Tally>, logs: &[&[u64]]) -> bool {
    for (position, terms) in logs.iter().enumerate() {
        match ServerId::from_position(position) {
            Some(server)
                if world
                    .raft(server)
                    .is_some_and(|raft| has_terms(raft, terms)) => {}
            _ => return false,
        }
    }
    true
}

/// Whether each server that is up has this log, and has applied all of it.
fn have_applied(world: &RaftWorld<Tally>, log: &[u64]) -> bool {
    for position in 0..5 {
        if let Some(server) = ServerId::from_position(position)
            && let Some(raft) = world.raft(server)
            && let Some(applied) = raft.applied()
            && !(has_terms(raft, log) && applied == raft.last())
        {
            return false;
        }
    }
    true
}

fn are_all_up(world: &RaftWorld<Tally>) -> bool {
    for position in 0..5 {
        if let Some(server) = ServerId::from_position(position)
            && !world.raft(server).is_some_and(|raft| raft.is_up())
        {
            return false;
        }
    }
    true
}

fn with_one(counts: Counts, event: &RaftEvent<Tally>) -> Option<Counts> {
    let (restarts, timeouts, beats, deliveries) = counts;
    match event {
        RaftEvent::Restart(_) => Some((restarts.saturating_add(1), timeouts, beats, deliveries)),
        RaftEvent::Timeout(_) => Some((restarts, timeouts.saturating_add(1), beats, deliveries)),
        RaftEvent::Beat(_) => Some((restarts, timeouts, beats.saturating_add(1), deliveries)),
        RaftEvent::Deliver(_) => Some((restarts, timeouts, beats, deliveries.saturating_add(1))),
        _ => None,
    }
}

/// How many events of each kind a trace has behind its first ones; none where one is of another.
fn counted(trace: &[RaftEvent<Tally>], first: usize) -> Option<Counts> {
    let mut counts = (0, 0, 0, 0);
    for event in trace.iter().skip(first) {
        counts = with_one(counts, event)?;
    }
    Some(counts)
}

fn leads(world: &RaftWorld<Tally>, who: ServerId) -> bool {
    world
        .raft(who)
        .is_some_and(|raft| raft.leader_term().is_some())
}

/// Whether the group settles as the case says.
fn settles(world: &mut RaftWorld<Tally>, case: &Case) -> bool {
    let first = world.trace().len();
    let done = if case.is_of_all {
        settle_all(world)
    } else {
        settle(world)
    };
    if counted(world.trace(), first) != Some(case.counts) {
        return false;
    }
    match (done, case.leader) {
        (Ok(who), Some(number)) => {
            who.number() == number && leads(world, who) && have_applied(world, case.log)
        }
        (Err(why), None) => why == Unsettled::NoQuorum,
        _ => false,
    }
}

fn goes(alloc: Global, case: &Case) -> bool {
    let Ok(mut world) = RaftWorld::<Tally>::new(alloc, 5) else {
        return false;
    };
    play(alloc, &mut world, STEPS)
        && world.sent().len() == 81
        && are_logs(&world, &LOGS)
        && play(alloc, &mut world, case.further)
        && settles(&mut world, case)
        && (!case.is_of_all || are_all_up(&world))
}

#[test]
fn figure_seven_settles(rt: HostRuntime) {
    for (number, case) in CASES.iter().enumerate() {
        assert!(rt; goes(rt.alloc(), case), "case {number}");
    }
}
