//! The parts of a leader's desk, over states that are played: rows worked out by hand from the
//! rules, and each call that may lack memory, with enough of it.
use crate::tests::lines::put_pair;
use blocked::Blocked;
use drain::{is_done, next_moves};
use eval_broker::{Broker, PairError};
use expiry::{Expiry, ExpiryError};
use fields::{read_whole, write};
use fsm_state::Cluster;
use plan_queue::PlanQueue;
use rows::{
    AllocId, Batch, ClassName, Delivery, EvalId, EvalStatus, Index, JobName, LeaderTerm, NodeId,
    Plan, Priority, Refusal, Sequence, Serial, ServerId, Token, Version,
};
use std::alloc::Global;

// Entries 2 to 5: two jobs, whose evaluations are 2.0 and 3.0, and one more of each.
const TWO_JOBS: &str = "\
take noop
take put a 50 main:1:linux:1:1:0
take put b 70 main:1:linux:1:1:0
take eval b
take eval a
broker";

// Evaluation 2.0 found no room in the state of index 5.
const NO_ROOM: &str = "\
take noop
take put a 50 main:1:linux:1:1:0
take noop
take noop
take noop
take status 2.0 blocked 5
blocked";

// 5.0 and 5.1 live on node 1, which is drained slow, and then by force.
const DRAINED: &str = "\
take noop
take join 1 linux 2000 2000 0
take put web 50 main:2:linux:600:300:0
take noop
take plan 3.0 1.1 web 3 - main:0:1:600:300:0,main:1:1:600:300:0
keep
moves 1 20
moves 2 9
heartbeats
take drain 1 slow
moves 1 5.0
take migrate 5.0
moves 1 -
again
take drain 1 force
moves 1 5.0 5.1
take migrate 5.0
moves 1 5.1
queue";

pub(crate) const PLAYS: &[&[&str]] = &[&[TWO_JOBS], &[NO_ROOM], &[DRAINED]];

/// Whether what the words say of a desk's part over the state holds, behind the word of this
/// letter. `broker`, `blocked`, `heartbeats`, `queue`: the worked rows. `moves NODE IDS`: these
/// move next, or the refusal has this number.
pub(crate) fn holds(state: &Cluster, alloc: Global, verb: char, words: &str) -> bool {
    match verb {
        'B' => gives_out(state, alloc),
        'Z' => finds_room(state, alloc),
        'H' => hears(state, alloc),
        'M' => moves(state, alloc, words),
        'Q' => queues(state, alloc),
        _ => false,
    }
}

pub(crate) fn eval_of(alloc: Global, word: &str) -> Option<EvalId> {
    let mut bytes = Vec::new(alloc);
    if put_pair(&mut bytes, word, 2) {
        read_whole(Version::newest(), alloc, &bytes).ok()
    } else {
        None
    }
}

fn token(serial: u64) -> Option<Token> {
    let term = LeaderTerm::new(1)?;
    let serial = Serial::new(serial)?;
    Some(Token { term, serial })
}

fn give(broker: &mut Broker) -> Option<Delivery> {
    let term = LeaderTerm::new(1)?;
    let wait = Index::new(5)?;
    match broker.next(term, wait) {
        Ok(delivery) => delivery,
        Err(_) => None,
    }
}

fn gives(broker: &mut Broker, alloc: Global, eval: &str, serial: u64) -> bool {
    match give(broker) {
        Some(delivery) => {
            eval_of(alloc, eval) == Some(delivery.eval) && token(serial) == Some(delivery.token)
        }
        None => false,
    }
}

fn number(answer: Result<(), PairError>) -> u8 {
    match answer {
        Ok(()) => 0,
        Err(error) => Refusal::from(error).number(),
    }
}

fn ack(broker: &mut Broker, alloc: Global, eval: &str, serial: u64) -> u8 {
    let (Some(eval), Some(token)) = (eval_of(alloc, eval), token(serial)) else {
        return 255;
    };
    number(broker.ack(eval, token))
}

fn nack(broker: &mut Broker, alloc: Global, eval: &str, serial: u64) -> u8 {
    let (Some(eval), Some(token)) = (eval_of(alloc, eval), token(serial)) else {
        return 255;
    };
    number(broker.nack(eval, token))
}

// The evaluation's row is complete.
fn completes(broker: &mut Broker, state: &Cluster, eval: Option<EvalId>) -> bool {
    let Some(eval) = eval else {
        return false;
    };
    let Some(row) = state.eval(eval) else {
        return false;
    };
    let mut row = *row;
    row.status = EvalStatus::Complete;
    broker.changed(&row).is_ok()
}

fn gives_out(state: &Cluster, alloc: Global) -> bool {
    let Ok(mut broker) = Broker::rebuild(alloc, state) else {
        return false;
    };
    gives(&mut broker, alloc, "3.0", 1)
        && gives(&mut broker, alloc, "2.0", 2)
        && give(&mut broker).is_none()
        && nack(&mut broker, alloc, "3.0", 1) == 0
        && gives(&mut broker, alloc, "3.0", 3)
        && ack(&mut broker, alloc, "3.0", 1) == 5
        && ack(&mut broker, alloc, "2.0", 2) == 0
        && give(&mut broker).is_none()
        && completes(&mut broker, state, eval_of(alloc, "2.0"))
        && gives(&mut broker, alloc, "5.0", 4)
        && ack(&mut broker, alloc, "2.0", 2) == 4
}

// Whether the one evaluation of the state is, or is not, among these.
fn is_it(ids: &[EvalId], alloc: Global, wanted: bool) -> bool {
    match ids {
        [] => !wanted,
        [id] => wanted && eval_of(alloc, "2.0") == Some(*id),
        _ => false,
    }
}

fn frees(blocked: &mut Blocked, alloc: Global, class: &str, index: u64, wanted: bool) -> bool {
    let (Ok(class), Some(index)) = (ClassName::read(class), Index::new(index)) else {
        return false;
    };
    match blocked.room(alloc, &class, index) {
        Ok(ids) => is_it(ids.as_slice(), alloc, wanted),
        Err(_) => false,
    }
}

fn is_due(blocked: &Blocked, alloc: Global, wanted: bool) -> bool {
    match blocked.due(alloc) {
        Ok(ids) => is_it(ids.as_slice(), alloc, wanted),
        Err(_) => false,
    }
}

// The evaluation waits for no class, and then for those of its job again.
fn is_put_anew(blocked: &mut Blocked, state: &Cluster, alloc: Global) -> bool {
    let mut put = true;
    for row in state.eval_table().rows() {
        put = put && blocked.put(*row, Sequence::new(alloc)).is_ok();
    }
    put = put && is_due(blocked, alloc, false);
    for row in state.job_table().rows() {
        put = put && blocked.put_job(alloc, row).is_ok();
    }
    put && is_due(blocked, alloc, true)
}

fn finds_room(state: &Cluster, alloc: Global) -> bool {
    let Ok(mut blocked) = Blocked::rebuild(alloc, state) else {
        return false;
    };
    frees(&mut blocked, alloc, "linux", 5, false)
        && frees(&mut blocked, alloc, "arm", 9, false)
        && is_due(&blocked, alloc, false)
        && frees(&mut blocked, alloc, "linux", 6, true)
        && is_put_anew(&mut blocked, state, alloc)
}

// Node 1 was heard of once since the desk opened.
fn hears(state: &Cluster, alloc: Global) -> bool {
    let Ok(mut expiry) = Expiry::rebuild(alloc, state) else {
        return false;
    };
    let Some(node) = NodeId::from_number(1) else {
        return false;
    };
    let mut heard = expiry.beat(node).is_ok();
    for row in state.node_table().rows() {
        heard = heard && expiry.changed(row).is_ok();
    }
    heard
        && expiry.expire(node, Index::ZERO) == Err(ExpiryError::StaleExpiry)
        && expiry.expire(node, Index::ZERO.next()).is_ok()
}

// Whether the ids are those of the words, `-` for none.
fn are_ids(ids: &[AllocId], alloc: Global, words: &str) -> bool {
    let (mut bytes, mut wanted) = (Vec::new(alloc), Vec::new(alloc));
    let mut put = true;
    for id in ids {
        put = put && write(id, &mut bytes).is_ok();
    }
    if words != "-" {
        for word in words.split(' ') {
            put = put && put_pair(&mut wanted, word, 1);
        }
    }
    put && bytes == wanted
}

fn moves(state: &Cluster, alloc: Global, words: &str) -> bool {
    let (head, rest) = words.split_once(' ').unwrap_or((words, ""));
    let Some(node) = NodeId::from_number(head.parse::<u8>().unwrap_or(0)) else {
        return false;
    };
    match next_moves(alloc, state, node) {
        Ok(ids) => are_ids(ids.as_slice(), alloc, rest) && !is_done(state, node),
        Err(refusal) => rest.parse::<u8>() == Ok(refusal.number()),
    }
}

fn plan(alloc: Global) -> Option<Plan> {
    Some(Plan {
        eval: eval_of(alloc, "3.0")?,
        token: token(1)?,
        job: JobName::read("web").ok()?,
        version: Index::ZERO,
        snapshot: Index::ZERO,
        stops: Batch::new(alloc),
        places: Batch::new(alloc),
    })
}

// A plan of this priority, from the server of this number.
fn is_queued(queue: &mut PlanQueue, alloc: Global, priority: u8, from: u8) -> bool {
    let (Some(plan), Some(priority), Some(from)) = (
        plan(alloc),
        Priority::new(priority),
        ServerId::from_number(from),
    ) else {
        return false;
    };
    queue.push(plan, priority, from).is_ok()
}

fn goes(queue: &mut PlanQueue, from: u8) -> bool {
    match queue.pop() {
        Some(first) => Some(first.from) == ServerId::from_number(from),
        None => false,
    }
}

// Plans of priority 50, 70 and 70: the second goes, then the third, then the first. And the
// look-ups that a plan's check will want.
fn queues(state: &Cluster, alloc: Global) -> bool {
    let mut queue = PlanQueue::new(alloc);
    let (Some(node), Ok(job)) = (NodeId::from_number(1), JobName::read("web")) else {
        return false;
    };
    is_queued(&mut queue, alloc, 50, 1)
        && is_queued(&mut queue, alloc, 70, 2)
        && is_queued(&mut queue, alloc, 70, 3)
        && goes(&mut queue, 2)
        && goes(&mut queue, 3)
        && goes(&mut queue, 1)
        && queue.pop().is_none()
        && matches!(state.live_on(node), Ok(rows) if rows.len() == 2)
        && matches!(state.active_on(node), Ok(rows) if rows.len() == 2)
        && matches!(state.live_of_job(&job), Ok(rows) if rows.len() == 2)
}
