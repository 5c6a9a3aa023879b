//! What scheduling workers plan, and what they do next, over states that are played: plans and
//! steps worked out by hand from the rules.
use crate::tests::lines::{put_line, put_pair};
use fields::{read_whole, write};
use fsm_state::Cluster;
use rows::{
    AskedRequest, Delivery, EvalId, EvalOutcome, Index, Leader, LeaderTerm, NoMemory, PlaceCount,
    PlanResult, Reason, Refusal, RisingNodes, Sequence, Serial, Token, Version, WorkerRequest,
    WorkerResponse,
};
use scheduler::{WorkerStep, next_step, plan};
use std::alloc::Global;

// `plans EVAL INDEX : planned STOPS PLACES VERSION SNAPSHOT ALL`: the plan for an evaluation from
// the state of this index. `work INDEX PLANS WORK : STEP`: the step with such work, after so many
// plans. Work is `delivered EVAL WAIT`, `placed EVAL LAST`, `none - 0`, or `refused WHAT NUMBER` of
// a request for 4.0; all are under token 1.1.

// Two nodes run a job of two, which then asks for one of another size.
const REPLACED: &str = "\
take noop
take join 1 linux 1000 1000 0
take join 2 linux 1000 1000 0
take put web 50 main:2:linux:600:300:0
plans 4.0 4 : planned - main:0:1,main:1:2 4 4 yes
take plan 4.0 1.1 web 4 - main:0:1:600:300:0,main:1:2:600:300:0
plans 4.0 5 : planned - - 4 5 yes
work 5 1 placed 4.0 5 : finish 4.0 1.1 complete 0
keep
take put web 50 main:1:linux:700:300:0
plans 6.0 6 : planned 5.1,5.0 main:0:1 6 6 yes
again
take put web 50 main:1:linux:1100:300:0
plans 6.0 6 : planned 5.1 - 6 6 no
work 6 0 delivered 6.0 6 : submit 6.0 1.1 web 6 6 5.1 -
again
take stop web
plans 6.0 6 : planned 5.0,5.1 - 6 6 yes
again
take put web 50 main:1:arm:600:300:0,side:1:linux:400:300:0
plans 6.0 6 : planned 5.1 side:0:1 6 6 no
again
take drain 1 slow
take migrate 5.0
plans 7.0 7 : planned - - 4 7 no
take join 3 linux 700 1000 0
plans 7.0 8 : planned 5.0 main:0:3 4 8 yes
again
take lose 1
plans 6.0 6 : planned - - 4 6 no";

// What is unknown is current: while its node is disconnected nothing of it is placed elsewhere, and
// nothing new on that node. When the node is lost, it is; when the node is back, it takes more.
const AWAY: &str = "\
take noop
take join 1 linux 1000 1000 0
take join 2 linux 1000 1000 0
take put web 50 main:2:linux:400:300:0
take plan 4.0 1.1 web 4 - main:0:1:400:300:0,main:1:1:400:300:0
take report 1 5.0:running
take disconnect 1
plans 4.0 7 : planned - - 4 7 yes
work 7 1 placed 4.0 5 : finish 4.0 1.1 complete 0
keep
take put web 50 main:3:linux:400:300:0
plans 8.0 8 : planned - main:2:2 8 8 yes
again
take put web 50 main:1:linux:400:300:0
plans 8.0 8 : planned 5.1 - 8 8 yes
again
take put web 50 main:2:linux:500:300:0
plans 8.0 8 : planned 5.0,5.1 main:0:2,main:1:2 8 8 yes
again
take put web 50 main:2:linux:501:300:0
plans 8.0 8 : planned 5.0 main:0:2 8 8 no
again
take lose 1
plans 8.0 8 : planned - main:0:2,main:1:2 4 8 yes
again
take join 1 linux 1000 1000 0
take put web 50 main:4:linux:100:100:0
plans 9.0 9 : planned 5.0,5.1 main:0:1,main:1:1,main:2:1,main:3:1 9 9 yes
again
take disconnect 2
take put api 50 main:1:linux:1:1:0
plans 9.0 9 : planned - - 9 9 no
work 9 0 delivered 9.0 9 : finish 9.0 1.1 blocked 9";

// Which node: the one that gets fullest by cpu and memory, then the lower number.
const BEST: &str = "\
take noop
take join 1 linux 1200 1000 0
take join 2 linux 1000 1000 0
take join 3 linux 1000 1000 0
take join 4 arm 600 300 0
take put web 50 main:3:linux:600:300:0
plans 6.0 6 : planned - main:0:2,main:1:3,main:2:1 6 6 yes
take put web 50 main:3:linux:400:300:0
plans 7.0 7 : planned - main:0:2,main:1:2,main:2:3 7 7 yes
take put web 50 main:1:linux:1000:1000:0,side:1:linux:1:1:0
plans 8.0 8 : planned - main:0:2,side:0:3 8 8 yes
take put web 50 main:64:arm:9:3:0,side:1:linux:1:1:0
plans 9.0 9 : planned - main:0:4,main:1:4,main:2:4,main:3:4,main:4:4,main:5:4,main:6:4,\
main:7:4,main:8:4,main:9:4,main:10:4,main:11:4,main:12:4,main:13:4,main:14:4,main:15:4,\
main:16:4,main:17:4,main:18:4,main:19:4,main:20:4,main:21:4,main:22:4,main:23:4,main:24:4,\
main:25:4,main:26:4,main:27:4,main:28:4,main:29:4,main:30:4,main:31:4,main:32:4,main:33:4,\
main:34:4,main:35:4,main:36:4,main:37:4,main:38:4,main:39:4,main:40:4,main:41:4,main:42:4,\
main:43:4,main:44:4,main:45:4,main:46:4,main:47:4,main:48:4,main:49:4,main:50:4,main:51:4,\
main:52:4,main:53:4,main:54:4,main:55:4,main:56:4,main:57:4,main:58:4,main:59:4,main:60:4,\
main:61:4,main:62:4,main:63:4 9 9 no";

// Disk alone decides, and does not count for what is fullest. Of two places of 60 one fits on node
// 1, which has 100, and none on node 2, which has 50. Of 50 the first goes to node 1, the lower
// number, and so does the second: node 1 gets fuller, and has room. What has another disk than its
// group is not current.
const DISK: &str = "\
take noop
take join 1 linux 1000 1000 100
take join 2 linux 1000 1000 50
take put web 50 main:2:linux:100:100:60
plans 4.0 4 : planned - main:0:1 4 4 no
take put web 50 main:2:linux:100:100:50
plans 5.0 5 : planned - main:0:1,main:1:1 5 5 yes
take plan 5.0 1.1 web 5 - main:0:1:100:100:50,main:1:1:100:100:50
used 1 200 200 100
used 2 0 0 0
plans 5.0 6 : planned - - 5 6 yes
take put web 50 main:3:linux:100:100:50
plans 7.0 7 : planned - main:2:2 7 7 yes
take put web 50 main:2:linux:100:100:40
plans 8.0 8 : planned 6.0,6.1 main:0:1,main:1:1 8 8 yes
take put web 50 main:2:linux:100:100:101
plans 9.0 9 : planned - - 9 9 no";

// One of two fits on the one node; the evaluation is then blocked. Each other step, and with two
// that would apply the first.
const STEPS: &str = "\
take noop
take join 1 linux 1000 1000 0
take put web 50 main:2:linux:600:300:0
take noop
work 4 0 delivered 3.0 4 : submit 3.0 1.1 web 3 4 - main:0:1
work 4 15 delivered 3.0 4 : submit 3.0 1.1 web 3 4 - main:0:1
work 4 16 delivered 3.0 4 : nack 3.0 1.1
work 4 16 delivered 3.0 5 : later
work 4 0 placed 3.0 5 : later
work 4 0 delivered 4.0 5 : later
work 4 0 delivered 4.0 4 : nothing
work 4 16 delivered 4.0 4 : nothing
work 4 0 none - 0 : nothing
take plan 3.0 1.1 web 4 - main:0:1:600:300:0
work 5 1 placed 3.0 5 : finish 3.0 1.1 blocked 5
work 9 1 placed 3.0 5 : finish 3.0 1.1 blocked 9
work 5 16 placed 3.0 5 : nack 3.0 1.1
work 4 16 placed 3.0 5 : later
work 0 16 refused submit 6 : nack 4.0 1.1
work 0 0 refused submit 7 : nack 4.0 1.1
work 0 0 refused submit 8 : nack 4.0 1.1
work 0 0 refused submit 17 : nack 4.0 1.1
work 0 0 refused submit 18 : nack 4.0 1.1
work 0 0 refused submit 2 : nothing
work 0 0 refused submit 3 : nothing
work 0 0 refused submit 4 : nothing
work 0 0 refused submit 5 : nothing
work 0 0 refused finish 6 : nothing
work 0 0 refused nack 7 : nothing
work 0 0 refused take 17 : nothing";

pub(crate) const PLAYS: &[&[&str]] = &[&[REPLACED], &[AWAY], &[BEST], &[DISK], &[STEPS]];

/// Whether what the words say of a worker over the state holds, behind the word of this letter.
pub(crate) fn holds(state: &Cluster, alloc: Global, verb: char, words: &str) -> bool {
    match verb {
        'P' => plans(state, alloc, words),
        'W' => steps(state, alloc, words),
        _ => false,
    }
}

fn eval_of(alloc: Global, word: &str) -> Option<EvalId> {
    let mut bytes = Vec::new(alloc);
    if put_pair(&mut bytes, word, 2) {
        read_whole(Version::newest(), alloc, &bytes).ok()
    } else {
        None
    }
}

fn index_of(word: &str) -> Option<Index> {
    match word.parse::<u64>() {
        Ok(number) => Index::new(number),
        Err(_) => None,
    }
}

fn token() -> Option<Token> {
    let term = LeaderTerm::new(1)?;
    let serial = Serial::new(1)?;
    Some(Token { term, serial })
}

// Whether the bytes are those of a line.
fn are_of(bytes: &[u8], alloc: Global, line: &str) -> bool {
    let mut wanted = Vec::new(alloc);
    put_line(&mut wanted, line) && bytes == wanted.as_slice()
}

// The plan for an evaluation: its stops, places, version and snapshot, and whether all is placed.
fn put_plan(
    out: &mut Vec<u8>,
    alloc: Global,
    state: &Cluster,
    eval: &str,
    index: &str,
) -> Result<bool, NoMemory> {
    let (Some(eval), Some(index)) = (eval_of(alloc, eval), index_of(index)) else {
        return Ok(false);
    };
    let Some(row) = state.eval(eval) else {
        return Ok(false);
    };
    let plan = plan(alloc, state, row, index)?;
    write(&plan.stops, out)?;
    write(&plan.places, out)?;
    write(&plan.version, out)?;
    write(&plan.snapshot, out)?;
    write(&plan.all_placed, out)?;
    Ok(true)
}

fn plans(state: &Cluster, alloc: Global, words: &str) -> bool {
    let (asked, wanted) = words.split_once(" : ").unwrap_or((words, ""));
    let (eval, index) = asked.split_once(' ').unwrap_or((asked, ""));
    let mut bytes = Vec::new(alloc);
    match put_plan(&mut bytes, alloc, state, eval, index) {
        Ok(true) => are_of(&bytes, alloc, wanted),
        _ => false,
    }
}

fn refusal_of(word: &str) -> Refusal {
    match word {
        "2" => Refusal::NotLeader(Leader::new(None)),
        "3" => Refusal::NotOpen,
        "4" => Refusal::NotOutstanding,
        "5" => Refusal::TokenDiffers,
        "6" => Refusal::SnapshotTooOld,
        "7" => Refusal::JobChanged,
        "8" => Refusal::UnknownJob,
        "17" => Refusal::QueueFull,
        "18" => Refusal::JobStopped,
        _ => Refusal::NoMemory,
    }
}

fn asked_of(word: &str, eval: EvalId, token: Token) -> AskedRequest {
    match word {
        "submit" => AskedRequest::Submit(eval, token),
        "finish" => AskedRequest::Finish(eval, token),
        "nack" => AskedRequest::Nack(eval, token),
        _ => AskedRequest::Take,
    }
}

// The response of a kind, of an evaluation and an index.
fn answered(alloc: Global, kind: &str, eval: EvalId, index: Index) -> Option<WorkerResponse> {
    let token = token()?;
    match kind {
        "delivered" => Some(WorkerResponse::Delivered(Some(Delivery {
            eval,
            token,
            wait: index,
        }))),
        "placed" => Some(WorkerResponse::PlanResult(PlanResult {
            eval,
            token,
            last: index,
            placed: PlaceCount::new(1)?,
            refused: RisingNodes::check(Sequence::new(alloc)).ok()?,
        })),
        _ => None,
    }
}

fn response_of(alloc: Global, kind: &str, words: &str) -> Option<WorkerResponse> {
    let (first, second) = words.split_once(' ')?;
    match kind {
        "none" => Some(WorkerResponse::Delivered(None)),
        "refused" => {
            let asked = asked_of(first, eval_of(alloc, "4.0")?, token()?);
            let reason = Reason::of(refusal_of(second));
            Some(WorkerResponse::Refused(asked, reason))
        }
        _ => answered(alloc, kind, eval_of(alloc, first)?, index_of(second)?),
    }
}

// An outcome as the status that it gives the evaluation, and its snapshot.
fn put_outcome(out: &mut Vec<u8>, outcome: EvalOutcome) -> Result<(), NoMemory> {
    let (number, snapshot): (u8, Index) = match outcome {
        EvalOutcome::Blocked(snapshot) => (1, snapshot),
        EvalOutcome::Complete => (2, Index::ZERO),
        EvalOutcome::Failed => (3, Index::ZERO),
    };
    write(&number, out)?;
    write(&snapshot, out)
}

fn put_pair_of(out: &mut Vec<u8>, kind: u8, eval: EvalId, token: Token) -> Result<(), NoMemory> {
    write(&kind, out)?;
    write(&eval, out)?;
    write(&token, out)
}

// What is asked of the leader as a line of its kind.
fn put_asked(out: &mut Vec<u8>, request: &WorkerRequest) -> Result<(), NoMemory> {
    match request {
        WorkerRequest::Take => write(&95u8, out),
        WorkerRequest::Submit(plan) => {
            write(&92u8, out)?;
            write(plan, out)
        }
        WorkerRequest::Finish(eval, token, outcome) => {
            put_pair_of(out, 93, *eval, *token)?;
            put_outcome(out, *outcome)
        }
        WorkerRequest::Nack(eval, token) => put_pair_of(out, 94, *eval, *token),
    }
}

// A step as a line of its kind.
fn put_step(out: &mut Vec<u8>, step: &WorkerStep) -> Result<(), NoMemory> {
    match step {
        WorkerStep::Later => write(&90u8, out),
        WorkerStep::Drop => write(&91u8, out),
        WorkerStep::Ask(request) => put_asked(out, request),
    }
}

fn step_is(state: &Cluster, alloc: Global, asked: &str, wanted: &str) -> Option<bool> {
    let (index, rest) = asked.split_once(' ')?;
    let (plans, rest) = rest.split_once(' ')?;
    let (kind, rest) = rest.split_once(' ')?;
    let index = index_of(index)?;
    let plans = index_of(plans)?.get();
    let response = response_of(alloc, kind, rest)?;
    let mut bytes = Vec::new(alloc);
    match next_step(alloc, state, index, &response, plans) {
        Ok(step) => Some(put_step(&mut bytes, &step).is_ok() && are_of(&bytes, alloc, wanted)),
        Err(_) => None,
    }
}

fn steps(state: &Cluster, alloc: Global, words: &str) -> bool {
    let (asked, wanted) = words.split_once(" : ").unwrap_or((words, ""));
    step_is(state, alloc, asked, wanted) == Some(true)
}
