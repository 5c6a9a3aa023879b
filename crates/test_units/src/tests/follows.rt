//! The parts of a desk that follow a state, command by command, and the desk's heartbeats.
use crate::tests::desks::eval_of;
use crate::tests::lines::put_line;
use crate::tests::states::numbers;
use blocked::Blocked;
use eval_broker::Broker;
use expiry::Expiry;
use fsm_state::Cluster;
use leader::{Desk, DeskError, follow};
use machine::Machine;
use rows::{Command, EvalId, Index, LeaderTerm, NodeId, Refusal, Version};
use std::alloc::Global;

// Each line is a command, which is admitted, applied and followed; or says what is found then.
// `gives ID`: the broker gives out this evaluation; `due ID`: this one is due; `-` for none.
// `held N`, `lost N`: heartbeats of the node are counted, or not.
const RUN: &str = "\
noop
join 1 linux 2000 2000 0
held 1
put a 50 main:2:linux:600:300:0
put b 70 main:1:linux:600:300:0,side:1:arm:300:300:0
gives 4.0
gives 3.0
plan 3.0 1.2 a 4 - main:0:1:600:300:0
plan 4.0 1.1 b 4 - main:0:1:600:300:0
status 4.0 complete 0
status 3.0 blocked 7
gives -
due -
report 1 5.0:complete
due 3.0
gives 9.0
put a 50 main:1:arm:600:300:0
due -
join 2 arm 1000 1000 0
held 2
due 3.0
status 3.0 pending 0
due -
status 9.0 complete 0
gives 3.0
plan 3.0 1.4 a 13 - main:0:2:600:300:0
status 3.0 complete 0
gives 10.0
status 10.0 complete 0
lose 1
lost 1
held 2
gives 17.0
join 1 linux 2000 2000 0
held 1
plan 17.0 1.6 b 18 - side:0:2:300:300:0
status 17.0 complete 0
lose 2
lost 2
gives 21.1
gives 21.0
gives -";

// `open`, `close`: so is the desk from then on. `beat NODE N`: a heartbeat of the node is refused
// with N, or counted where N is 0. `expire NODE BEATS LINE`: an expiry of the node after so many
// heartbeats proposes the command of that line; `expire NODE BEATS N`: it is refused with N.
const HEARD: &str = "\
noop
beat 1 3
expire 1 0 3
join 1 linux 1000 1000 0
join 2 arm 1000 1000 0
beat 1 3
expire 1 0 3
open
beat 3 9
expire 3 0 9
expire 1 1 19
expire 1 0 disconnect 1
beat 1 0
expire 1 0 19
expire 1 1 disconnect 1
expire 1 1 disconnect 1
expire 1 2 19
expire 1 1099511627775 19
expire 2 1 19
expire 2 0 disconnect 2
put a 50 main:1:linux:600:300:0
expire 1 1 disconnect 1
join 1 linux 1000 1000 0
expire 1 1 disconnect 1
drain 1 slow
expire 1 1 disconnect 1
beat 1 0
beat 2 0
expire 1 1 19
expire 1 2 disconnect 1
expire 2 1 disconnect 2
lose 1
beat 1 9
expire 1 2 9
expire 1 0 9
expire 2 1 disconnect 2
join 1 linux 1000 1000 0
expire 1 2 19
expire 1 0 disconnect 1
beat 1 0
expire 1 1 disconnect 1
open
expire 1 1 19
expire 1 0 disconnect 1
expire 2 1 19
expire 2 0 disconnect 2
close
beat 1 3
expire 1 0 3
expire 1 1 3";

// A node that is away is held, and keeps its number from ready to disconnected and back; heartbeats
// of it count. Expired while it is away it is lost. It takes up no worker.
const AWAY: &str = "\
noop
join 1 linux 1000 1000 0
join 2 linux 1000 1000 0
put web 50 main:1:linux:600:300:0
gives 4.0
plan 4.0 1.1 web 4 - main:0:1:600:300:0
report 1 5.0:running
status 4.0 complete 0
open
beat 1 0
beat 1 0
expire 1 2 disconnect 1
disconnect 1
held 1
gives -
expire 1 0 19
expire 1 2 lose 1
beat 1 0
expire 1 2 19
expire 1 3 lose 1
report 1 5.0:running
expire 1 3 lose 1
join 1 linux 1000 1000 0
held 1
expire 1 2 19
expire 1 3 disconnect 1
disconnect 1
held 1
open
expire 1 3 19
expire 1 0 lose 1
expire 2 0 disconnect 2
beat 1 0
lose 1
lost 1
gives 12.0
beat 1 9
expire 1 1 9
join 1 linux 1000 1000 0
expire 1 0 disconnect 1
status 12.0 blocked 12
due 12.0
disconnect 1
due 12.0
lose 2
lost 2
held 1
expire 2 0 9
close
expire 1 0 3";

// `moves NODE LINE`: a turn of the node's drain proposes the command of that line, `-` for none.
// `turned NODE N`: it is refused with N.
const DRAINED: &str = "\
noop
join 1 linux 1000 1000 0
join 2 linux 1000 1000 0
put web 50 main:2:linux:400:300:0
plan 4.0 1.1 web 4 - main:0:1:400:300:0,main:1:1:400:300:0
turned 1 3
open
turned 1 20
turned 3 9
drain 1 slow
moves 1 migrate 5.0
drain 1 force
moves 1 migrate 5.0,5.1
migrate 5.0
moves 1 migrate 5.1
drain 1 slow
moves 1 -
disconnect 1
moves 1 -
report 1 5.0:complete
moves 1 migrate 5.1
turned 2 20
report 1 5.1:failed
moves 1 drained 1
drained 1
turned 1 20
drain 2 force
moves 2 drained 2
close
turned 2 3";

#[derive(Drop)]
struct Followed {
    state: Cluster,
    broker: Broker,
    blocked: Blocked,
    expiry: Expiry,
    desk: Desk,
}

fn changes(parts: &mut Followed, alloc: Global, command: &Command) -> bool {
    matches!(parts.state.admits(command), Ok(None))
        && parts.state.count() < 1_000_000
        && parts.state.apply(command).is_ok()
        && parts.desk.changed(command, &parts.state).is_ok()
        && follow(
            alloc,
            &mut parts.broker,
            &mut parts.blocked,
            &mut parts.expiry,
            command,
            &parts.state,
        )
        .is_ok()
}

fn takes(parts: &mut Followed, alloc: Global, line: &str) -> bool {
    let mut bytes = Vec::new(alloc);
    if !put_line(&mut bytes, line) {
        return false;
    }
    match Cluster::read_command(Version::newest(), alloc, &bytes) {
        Ok((command, _)) => changes(parts, alloc, &command),
        Err(_) => false,
    }
}

fn is_it(found: Option<EvalId>, alloc: Global, word: &str) -> bool {
    match found {
        Some(id) => eval_of(alloc, word) == Some(id),
        None => word == "-",
    }
}

fn gives(broker: &mut Broker, alloc: Global, word: &str) -> bool {
    let Some(term) = LeaderTerm::new(1) else {
        return false;
    };
    match broker.next(term, Index::ZERO) {
        Ok(Some(delivery)) => is_it(Some(delivery.eval), alloc, word),
        Ok(None) => is_it(None, alloc, word),
        Err(_) => false,
    }
}

fn is_due(blocked: &Blocked, alloc: Global, word: &str) -> bool {
    match blocked.due(alloc) {
        Ok(ids) => ids.len() < 2 && is_it(ids.as_slice().first().copied(), alloc, word),
        Err(_) => false,
    }
}

fn is_held(expiry: &Expiry, word: &str, wanted: bool) -> bool {
    match NodeId::from_number(word.parse::<u8>().unwrap_or(0)) {
        Some(node) => expiry.beats(node).is_some() == wanted,
        None => false,
    }
}

fn opens(desk: &mut Desk, state: &Cluster) -> bool {
    match LeaderTerm::new(1) {
        Some(term) => desk.rebuild(state, term).is_ok() && desk.is_open(),
        None => false,
    }
}

fn closes(desk: &mut Desk) -> bool {
    desk.clear();
    !desk.is_open()
}

/// The number of a refusal, 0 for none.
fn number(answer: Result<(), DeskError>) -> usize {
    match answer {
        Ok(()) => 0,
        Err(error) => usize::from(Refusal::from(error).number()),
    }
}

fn node_of(number: usize) -> Option<NodeId> {
    NodeId::from_number(number.min(255) as u8)
}

fn hears(desk: &mut Desk, words: &str) -> bool {
    let [node, wanted, _, _] = numbers(words);
    match node_of(node) {
        Some(node) => number(desk.beat(node)) == wanted,
        None => false,
    }
}

// Whether it is the command of a line.
fn is_line(command: &Command, alloc: Global, line: &str) -> bool {
    let mut wanted = Vec::new(alloc);
    let mut bytes = Vec::new(alloc);
    put_line(&mut wanted, line)
        && Cluster::write_command(command, &mut bytes).is_ok()
        && bytes == wanted
}

// Whether an expiry of a node after so many heartbeats proposes the command of a line, or is
// refused with a number.
fn expires(parts: &Followed, alloc: Global, words: &str) -> bool {
    let (front, rest) = words.split_once(' ').unwrap_or((words, ""));
    let (beats, line) = rest.split_once(' ').unwrap_or((rest, ""));
    let node = node_of(front.parse::<usize>().unwrap_or(0));
    let beats = Index::new(beats.parse::<u64>().unwrap_or(u64::MAX));
    let (Some(node), Some(beats)) = (node, beats) else {
        return false;
    };
    match parts.desk.expire(node, beats, &parts.state) {
        Ok(command) => is_line(&command, alloc, line),
        Err(error) => line.parse::<u8>() == Ok(Refusal::from(error).number()),
    }
}

// Whether a turn of a node's drain proposes the command of a line.
fn moves(parts: &Followed, alloc: Global, words: &str) -> bool {
    let (node, line) = words.split_once(' ').unwrap_or((words, ""));
    let Some(node) = node_of(node.parse::<usize>().unwrap_or(0)) else {
        return false;
    };
    match parts.desk.drain_turn(node, &parts.state) {
        Ok(Some(command)) => is_line(&command, alloc, line),
        Ok(None) => line == "-",
        Err(_) => false,
    }
}

// Whether a turn of a node's drain is refused with a number.
fn turned(parts: &Followed, words: &str) -> bool {
    let [node, wanted, _, _] = numbers(words);
    let Some(node) = node_of(node) else {
        return false;
    };
    match parts.desk.drain_turn(node, &parts.state).err() {
        Some(refusal) => usize::from(refusal.number()) == wanted,
        None => false,
    }
}

fn turn(parts: &mut Followed, alloc: Global, line: &str) -> bool {
    let (head, word) = line.split_once(' ').unwrap_or((line, ""));
    match head {
        "gives" => gives(&mut parts.broker, alloc, word),
        "due" => is_due(&parts.blocked, alloc, word),
        "held" => is_held(&parts.expiry, word, true),
        "lost" => is_held(&parts.expiry, word, false),
        "open" => opens(&mut parts.desk, &parts.state),
        "close" => closes(&mut parts.desk),
        "beat" => hears(&mut parts.desk, word),
        "expire" => expires(parts, alloc, word),
        "moves" => moves(parts, alloc, word),
        "turned" => turned(parts, word),
        _ => takes(parts, alloc, line),
    }
}

fn start(alloc: Global) -> Option<Followed> {
    let state = Cluster::new(alloc);
    let broker = Broker::rebuild(alloc, &state).ok()?;
    Some(Followed {
        state,
        broker,
        blocked: Blocked::new(alloc),
        expiry: Expiry::new(alloc),
        desk: Desk::closed(alloc),
    })
}

#[test]
fn parts_follow_the_state(rt: HostRuntime) {
    for table in [RUN, HEARD, AWAY, DRAINED] {
        let Some(mut parts) = start(rt.alloc()) else {
            panic!(rt; "no memory")
        };
        for line in table.lines() {
            assert!(rt; turn(&mut parts, rt.alloc(), line), "{line}");
        }
    }
}
