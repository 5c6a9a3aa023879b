//! What a leader keeps of a plan, over states that are played. What is wanted is worked out by hand
//! from the rules.
use crate::tests::lines::put_line;
use fields::{read_whole, write};
use fsm_state::Cluster;
use plan_apply::{Accepted, accept};
use rows::{Delivery, Index, Plan, Version};
use std::alloc::Global;

// 5.0 lives on node 1 as main[0] of web, and of node 2 so much is in use: 400. Its move to node 2
// is kept whole, and is then done.
const FULL_USE: &str = "\
take noop
take join 1 linux 1000 1000 0
take join 2 linux 1000 1000 0
take put web 50 main:1:linux:600:300:0
take plan 4.0 1.1 web 4 - main:0:1:600:300:0
take put api 50 main:1:linux:400:100:0
take plan 6.0 1.2 api 6 - main:0:2:400:100:0
accept 7 offer 4.0 1.1 web 4 7 5.0 main:0:2 = kept 4.0 1.1 web 7 5.0 main:0:2:600:300:0 -
take plan 4.0 1.1 web 7 5.0 main:0:2:600:300:0
used 1 0 0 0
used 2 1000 400 0";

// One more in use, and the stop alone is kept.
const ONE_MORE_IN_USE: &str = "\
take noop
take join 1 linux 1000 1000 0
take join 2 linux 1000 1000 0
take put web 50 main:1:linux:600:300:0
take plan 4.0 1.1 web 4 - main:0:1:600:300:0
take put api 50 main:1:linux:401:100:0
take plan 6.0 1.2 api 6 - main:0:2:401:100:0
accept 7 offer 4.0 1.1 web 4 7 5.0 main:0:2 = kept 4.0 1.1 web 7 5.0 - 2";

// The sum of disk counts too. Of two places of 60 on node 1, which has 100, none is kept; one is,
// and none on node 2, which has 50. Two of 50 fill node 1.
const DISK: &str = "\
take noop
take join 1 linux 1000 1000 100
take join 2 linux 1000 1000 50
take put web 50 main:2:linux:100:100:60
accept 4 offer 4.0 1.1 web 4 4 - main:0:1,main:1:1 = kept 4.0 1.1 web 4 - - 1
accept 4 offer 4.0 1.1 web 4 4 - main:0:1 = kept 4.0 1.1 web 4 - main:0:1:100:100:60 -
accept 4 offer 4.0 1.1 web 4 4 - main:0:2 = kept 4.0 1.1 web 4 - - 2
accept 4 offer 4.0 1.1 web 4 4 - main:0:1,main:1:2 = kept 4.0 1.1 web 4 - main:0:1:100:100:60 2
take put web 50 main:2:linux:100:100:50
accept 5 offer 5.0 1.1 web 5 5 - main:0:1,main:1:1 = \
kept 5.0 1.1 web 5 - main:0:1:100:100:50,main:1:1:100:100:50 -
take plan 5.0 1.1 web 5 - main:0:1:100:100:50,main:1:1:100:100:50
used 1 200 200 100
take put api 50 main:1:linux:1:1:1
accept 7 offer 7.0 1.1 api 7 7 - main:0:1 = kept 7.0 1.1 api 7 - - 1
accept 7 offer 7.0 1.1 api 7 7 - main:0:2 = kept 7.0 1.1 api 7 - main:0:2:1:1:1 -";

// Jobs web and api, whose evaluations are 5.0 and 6.0; 7.0 lives on node 1 as main[0] of web, 8.0
// on node 2 as main[0] of api. Of node 1 400 and 700 are left, of node 2 600 and 900, of node 4
// all.
const BASE: &str = "\
take noop
take join 1 linux 1000 1000 0
take join 2 linux 1000 1000 0
take join 4 arm 1000 1000 0
take put web 50 main:3:linux:600:300:0,side:4:linux:100:100:0,wide:2:linux:401:1:0,\
tall:1:linux:1:701:0,arm:1:arm:1:1:0
take put api 60 main:1:linux:400:100:0
take plan 5.0 1.1 web 6 - main:0:1:600:300:0
take plan 6.0 1.2 api 7 - main:0:2:400:100:0
keep";

// Why a plan is refused as a whole; of two reasons the first.
const REFUSALS: &str = "\
accept 9 offer 5.0 1.1 web 5 8 7.0 - = 6
accept 8 offer 5.0 1.1 web 5 8 7.0 - = kept 5.0 1.1 web 8 7.0 - -
accept 7 offer 5.0 1.1 web 5 8 7.0 - = kept 5.0 1.1 web 8 7.0 - -
accept 8 offer 5.0 1.1 web 5 8 - - = kept 5.0 1.1 web 8 - - -
accept 8 offer 5.0 1.1 none 5 8 7.0 - = 8
accept 8 offer 9.0 1.1 web 5 8 7.0 - = 8
accept 8 offer 6.0 1.1 web 5 8 7.0 - = 8
accept 8 offer 5.0 1.1 web 4 8 7.0 - = 7
accept 8 offer 5.0 1.1 web 6 8 7.0 - = 7
accept 9 offer 5.0 1.1 none 5 8 7.0 - = 6
accept 9 offer 5.0 1.1 web 4 8 7.0 - = 6
accept 8 offer 6.0 1.1 web 4 8 7.0 - = 8
take stop web
accept 9 offer 5.0 1.1 web 9 9 7.0 - = kept 5.0 1.1 web 9 7.0 - -
accept 9 offer 5.0 1.1 web 9 9 7.0 main:1:2 = 18
accept 9 offer 5.0 1.1 web 5 9 7.0 main:1:2 = 7
accept 9 offer 6.0 1.1 web 9 9 7.0 main:1:2 = 8
accept 10 offer 5.0 1.1 web 9 9 7.0 main:1:2 = 6
again
take status 5.0 complete 0
accept 9 offer 5.0 1.1 web 5 9 7.0 - = kept 5.0 1.1 web 9 7.0 - -";

// Stops are those of live allocations of the job, once each, as they are first named.
const STOPS: &str = "\
again
accept 8 offer 5.0 1.1 web 5 8 8.0,7.0,9.0,7.0 - = kept 5.0 1.1 web 8 7.0 - -
take plan 5.0 1.1 web 8 - side:0:2:100:100:0
accept 9 offer 5.0 1.1 web 5 9 9.0,7.0,9.0 - = kept 5.0 1.1 web 9 9.0,7.0 - -
take report 1 7.0:failed
accept 10 offer 5.0 1.1 web 5 10 9.0,7.0 - = kept 5.0 1.1 web 10 9.0 - -";

// A name is held once: by a row that does not stop, by a place of a lower node, or by one place of
// this node.
const NAMES: &str = "\
again
accept 8 offer 5.0 1.1 web 5 8 - main:0:2 = kept 5.0 1.1 web 8 - - 2
accept 8 offer 5.0 1.1 web 5 8 8.0 main:0:2 = kept 5.0 1.1 web 8 - - 2
accept 8 offer 5.0 1.1 web 5 8 7.0 main:0:2 = kept 5.0 1.1 web 8 7.0 main:0:2:600:300:0 -
accept 8 offer 5.0 1.1 web 5 8 7.0 main:0:1 = kept 5.0 1.1 web 8 7.0 main:0:1:600:300:0 -
accept 8 offer 5.0 1.1 web 5 8 7.0 main:1:2,main:1:1 = kept 5.0 1.1 web 8 7.0 main:1:1:600:300:0 2
accept 8 offer 5.0 1.1 web 5 8 - side:0:2,side:0:2 = kept 5.0 1.1 web 8 - - 2
accept 8 offer 5.0 1.1 web 5 8 - side:0:2,side:1:2 = \
kept 5.0 1.1 web 8 - side:0:2:100:100:0,side:1:2:100:100:0 -";

// A node's use is within its size, with all of its places or none, and what was not stopped gives
// back nothing.
const ROOM: &str = "\
accept 8 offer 5.0 1.1 web 5 8 - main:1:2 = kept 5.0 1.1 web 8 - main:1:2:600:300:0 -
accept 8 offer 5.0 1.1 web 5 8 - side:0:2,main:1:2 = kept 5.0 1.1 web 8 - - 2
accept 8 offer 5.0 1.1 web 5 8 8.0 side:0:2,main:1:2 = kept 5.0 1.1 web 8 - - 2
accept 8 offer 5.0 1.1 web 5 8 - side:1:2,side:0:1,main:1:2 = \
kept 5.0 1.1 web 8 - side:0:1:100:100:0 2
accept 8 offer 5.0 1.1 web 5 8 - wide:0:1 = kept 5.0 1.1 web 8 - - 1
accept 8 offer 5.0 1.1 web 5 8 7.0,7.0 wide:0:1,wide:1:1 = \
kept 5.0 1.1 web 8 7.0 wide:0:1:401:1:0,wide:1:1:401:1:0 -
accept 8 offer 5.0 1.1 web 5 8 7.0,7.0 main:1:1,wide:0:1 = kept 5.0 1.1 web 8 7.0 - 1
accept 8 offer 5.0 1.1 web 5 8 - tall:0:1 = kept 5.0 1.1 web 8 - - 1
accept 8 offer 5.0 1.1 web 5 8 - tall:0:2 = kept 5.0 1.1 web 8 - tall:0:2:1:701:0 -";

// A node takes places of the job's groups, of its class, below their counts, where it is ready and
// eligible. Nodes come in rising number.
const NODES: &str = "\
accept 8 offer 5.0 1.1 web 5 8 - none:0:2 = kept 5.0 1.1 web 8 - - 2
accept 8 offer 5.0 1.1 web 5 8 - side:3:2 = kept 5.0 1.1 web 8 - side:3:2:100:100:0 -
accept 8 offer 5.0 1.1 web 5 8 - side:4:2 = kept 5.0 1.1 web 8 - - 2
accept 8 offer 5.0 1.1 web 5 8 - side:0:4 = kept 5.0 1.1 web 8 - - 4
accept 8 offer 5.0 1.1 web 5 8 - arm:0:2 = kept 5.0 1.1 web 8 - - 2
accept 8 offer 5.0 1.1 web 5 8 - arm:0:4 = kept 5.0 1.1 web 8 - arm:0:4:1:1:0 -
accept 8 offer 5.0 1.1 web 5 8 - side:0:64,side:1:3 = kept 5.0 1.1 web 8 - - 3,64
accept 8 offer 5.0 1.1 web 5 8 - side:0:2,side:1:1,side:2:2 = \
kept 5.0 1.1 web 8 - side:1:1:100:100:0,side:0:2:100:100:0,side:2:2:100:100:0 -
take drain 2 slow
accept 9 offer 5.0 1.1 web 5 9 - side:0:2,side:1:1 = kept 5.0 1.1 web 9 - side:1:1:100:100:0 2
again
take lose 2
accept 9 offer 5.0 1.1 web 5 9 - side:0:2,side:1:1 = kept 5.0 1.1 web 9 - side:1:1:100:100:0 2";

// A node that is disconnected takes nothing, and what is unknown on it holds its name until it is
// stopped.
const AWAY: &str = "\
again
take disconnect 1
accept 9 offer 5.0 1.1 web 5 9 - side:0:2,side:1:1 = kept 5.0 1.1 web 9 - side:0:2:100:100:0 1
accept 9 offer 5.0 1.1 web 5 9 - main:0:2 = kept 5.0 1.1 web 9 - - 2
accept 9 offer 5.0 1.1 web 5 9 7.0 main:0:2 = kept 5.0 1.1 web 9 7.0 main:0:2:600:300:0 -
accept 9 offer 5.0 1.1 web 5 9 7.0 main:0:1 = kept 5.0 1.1 web 9 7.0 - 1
take lose 1
accept 10 offer 5.0 1.1 web 5 10 7.0 main:0:2 = kept 5.0 1.1 web 10 - main:0:2:600:300:0 -
take join 1 linux 1000 1000 0
take disconnect 2
accept 12 offer 5.0 1.1 web 5 12 - side:0:1,side:1:2 = kept 5.0 1.1 web 12 - side:0:1:100:100:0 2
take join 2 linux 1000 1000 0
accept 13 offer 5.0 1.1 web 5 13 - main:1:2,side:1:2 = kept 5.0 1.1 web 13 - - 2
accept 13 offer 5.0 1.1 web 5 13 - main:1:2 = kept 5.0 1.1 web 13 - main:1:2:600:300:0 -";

// A name that is live twice, and a node past its size: states that no log makes.
const UNSAFE: &str = "\
again
force plan 5.0 1.1 web 8 - main:0:2:600:300:0
accept 9 offer 5.0 1.1 web 5 9 7.0 main:0:1 = kept 5.0 1.1 web 9 7.0 - 1
accept 9 offer 5.0 1.1 web 5 9 9.0 main:0:1 = kept 5.0 1.1 web 9 9.0 - 1
accept 9 offer 5.0 1.1 web 5 9 7.0,9.0 main:0:1 = \
kept 5.0 1.1 web 9 7.0,9.0 main:0:1:600:300:0 -
force plan 5.0 1.1 web 9 - main:1:2:600:300:0
accept 10 offer 5.0 1.1 web 5 10 - side:0:2 = kept 5.0 1.1 web 10 - - 2
accept 10 offer 5.0 1.1 web 5 10 10.0 side:0:2 = kept 5.0 1.1 web 10 10.0 - 2
accept 10 offer 5.0 1.1 web 5 10 9.0,10.0 side:0:2 = \
kept 5.0 1.1 web 10 9.0,10.0 side:0:2:100:100:0 -";

pub(crate) const PLAYS: &[&[&str]] = &[
    &[FULL_USE],
    &[ONE_MORE_IN_USE],
    &[DISK],
    &[BASE, REFUSALS, STOPS, NAMES, ROOM, NODES, AWAY, UNSAFE],
];

/// Whether this is kept of a plan, behind the least index that its delivery allows and the plan's
/// line: the line of what is kept, with the nodes that refuse theirs, or the number of a refusal.
pub(crate) fn accepts(state: &Cluster, alloc: Global, words: &str) -> bool {
    let (wait, rest) = words.split_once(' ').unwrap_or((words, ""));
    let (line, answer) = rest.split_once(" = ").unwrap_or((rest, ""));
    let mut bytes = Vec::new(alloc);
    let Some(wait) = Index::new(wait.parse::<u64>().unwrap_or(0)) else {
        return false;
    };
    if !put_line(&mut bytes, line) {
        return false;
    }
    match read_whole(Version::newest(), alloc, &bytes) {
        Ok(plan) => answers(state, alloc, &plan, wait, answer),
        Err(_) => false,
    }
}

fn answers(state: &Cluster, alloc: Global, plan: &Plan, wait: Index, answer: &str) -> bool {
    let delivery = Delivery {
        eval: plan.eval,
        token: plan.token,
        wait,
    };
    match accept(alloc, state, plan, &delivery) {
        Ok(accepted) => is_kept(&accepted, alloc, answer),
        Err(refusal) => answer.parse::<u8>() == Ok(refusal.number()),
    }
}

fn is_kept(accepted: &Accepted, alloc: Global, line: &str) -> bool {
    let (mut bytes, mut wanted) = (Vec::new(alloc), Vec::new(alloc));
    let refused = accepted.refused.as_slice();
    let mut put = put_line(&mut wanted, line)
        && write(&accepted.plan, &mut bytes).is_ok()
        && bytes.push(refused.len().min(255) as u8).is_ok();
    for node in refused {
        put = put && bytes.push(node.number()).is_ok();
    }
    put && bytes == wanted
}
