//! What commands do to the replicated state, the rows worked out by hand from the rules.
// Entries 1 to 4: two nodes, a job, whose evaluation is 3.0, and its allocations 4.0 on node 1 and
// 4.1 on node 2.
const TWO_NODES: &str = "\
take join 1 linux 1000 1000 0
take join 2 linux 1000 1000 0
take put web 50 main:2:linux:600:300:0
keep
take plan 3.0 1.1 web 0 - main:0:1:600:300:0,main:1:2:600:300:0";

// A node's loss; and what a lost node reports late changes nothing.
const LOSS: &str = "\
has allocation 4.0 web main 0 1 600 300 0 run pending no 3.0
has allocation 4.1 web main 1 2 600 300 0 run pending no 3.0
used 1 600 300 0
live 4.0
has evaluation 3.0 web 50 pending 0
take lose 1
has allocation 4.0 web main 0 1 600 300 0 run lost no 3.0
has allocation 4.1 web main 1 2 600 300 0 run pending no 3.0
has evaluation 5.0 web 50 pending 0
used 1 0 0 0
used 2 600 300 0
has node 1 linux 1000 1000 0 down yes none 1
dead 4.0
take report 1 4.0:running
has allocation 4.0 web main 0 1 600 300 0 run lost no 3.0
counts 1 2 2 2
used 1 0 0 0
has node 1 linux 1000 1000 0 down yes none 1";

// A node that is not heard of is disconnected: what waits or runs on it is unknown, holds its name
// and its room, and no job is touched. What ended stays as it ended. A report that it runs makes it
// so again, and the node stays as it is.
const AWAY: &str = "\
take report 1 4.0:running
take disconnect 1
has node 1 linux 1000 1000 0 disconnected yes none 1
has node 2 linux 1000 1000 0 ready yes none 2
has allocation 4.0 web main 0 1 600 300 0 run unknown no 3.0
has allocation 4.1 web main 1 2 600 300 0 run pending no 3.0
has evaluation 3.0 web 50 pending 0
counts 1 2 1 2
used 1 600 300 0
live 4.0
take report 1 4.0:running
has allocation 4.0 web main 0 1 600 300 0 run running no 3.0
has node 1 linux 1000 1000 0 disconnected yes none 1
counts 1 2 1 2
used 1 600 300 0
live 4.0
take report 2 4.1:failed
take disconnect 2
has allocation 4.1 web main 1 2 600 300 0 run failed no 3.0
has node 2 linux 1000 1000 0 disconnected yes none 8
counts 1 2 2 2
used 2 0 0 0";

// What is unknown ends as what runs does: it gives room, and touches its job.
const UNKNOWN_ENDS: &str = "\
take disconnect 1
has allocation 4.0 web main 0 1 600 300 0 run unknown no 3.0
take report 1 4.0:complete
has allocation 4.0 web main 0 1 600 300 0 run complete no 3.0
has node 1 linux 1000 1000 0 disconnected yes none 6
has evaluation 6.0 web 50 pending 0
counts 1 2 2 2
used 1 0 0 0
dead 4.0
take lose 1
has allocation 4.0 web main 0 1 600 300 0 run complete no 3.0
has node 1 linux 1000 1000 0 down yes none 6
counts 1 2 2 2";

// A disconnected node's loss: what was unknown is lost, its job is touched, and a late report that
// it runs changes nothing.
const UNKNOWN_LOST: &str = "\
take report 1 4.0:running
take disconnect 1
take lose 1
has allocation 4.0 web main 0 1 600 300 0 run lost no 3.0
has node 1 linux 1000 1000 0 down yes none 1
has evaluation 7.0 web 50 pending 0
counts 1 2 2 2
used 1 0 0 0
dead 4.0
take report 1 4.0:running
has allocation 4.0 web main 0 1 600 300 0 run lost no 3.0
has node 1 linux 1000 1000 0 down yes none 1
counts 1 2 2 2
force disconnect 1
has allocation 4.0 web main 0 1 600 300 0 run lost no 3.0
has node 1 linux 1000 1000 0 disconnected yes none 1
counts 1 2 2 2
used 1 0 0 0";

// A node that comes back from being away is ready and has room; what is unknown stays so until it
// is reported. A second time is as the first.
const BACK_FROM_AWAY: &str = "\
take disconnect 1
take drain 1 slow
has node 1 linux 1000 1000 0 disconnected no slow 1
take join 1 linux 1000 1000 0
has node 1 linux 1000 1000 0 ready no slow 7
has allocation 4.0 web main 0 1 600 300 0 run unknown no 3.0
used 1 600 300 0
live 4.0
counts 1 2 1 2
take disconnect 1
has node 1 linux 1000 1000 0 disconnected no slow 7
has allocation 4.0 web main 0 1 600 300 0 run unknown no 3.0
take join 1 linux 1000 1000 0
take report 1 4.0:running
has node 1 linux 1000 1000 0 ready no slow 9
has allocation 4.0 web main 0 1 600 300 0 run running no 3.0
counts 1 2 1 2";

// What is to stop is unknown too; it holds nothing, and gives nothing when it ends or is lost. What
// is unknown is stopped, and moved, as what runs is.
const STOPPED_AWAY: &str = "\
take plan 3.0 1.1 web 0 4.0 -
take disconnect 1
has allocation 4.0 web main 0 1 600 300 0 stop unknown no 3.0
has node 1 linux 1000 1000 0 disconnected yes none 5
used 1 0 0 0
dead 4.0
counts 1 2 1 2
take lose 1
has allocation 4.0 web main 0 1 600 300 0 stop lost no 3.0
counts 1 2 1 2
take drain 2 slow
take disconnect 2
take migrate 4.1
has allocation 4.1 web main 1 2 600 300 0 run unknown yes 3.0
has evaluation 10.0 web 50 pending 0
has node 2 linux 1000 1000 0 disconnected no slow 2
take plan 3.0 1.1 web 0 4.1 -
has allocation 4.1 web main 1 2 600 300 0 stop unknown yes 3.0
has node 2 linux 1000 1000 0 disconnected no slow 11
used 2 0 0 0
take report 2 4.1:complete
has allocation 4.1 web main 1 2 600 300 0 stop complete yes 3.0
has node 2 linux 1000 1000 0 disconnected no slow 11
counts 1 2 2 2";

// A report of running changes the state of the client alone; one of an end gives room, and touches
// the job; one behind the end changes nothing.
const ENDS: &str = "\
counts 1 2 1 2
take report 1 4.0:running
has allocation 4.0 web main 0 1 600 300 0 run running no 3.0
has node 1 linux 1000 1000 0 ready yes none 1
counts 1 2 1 2
live 4.0
take report 1 4.0:failed
has allocation 4.0 web main 0 1 600 300 0 run failed no 3.0
has node 1 linux 1000 1000 0 ready yes none 6
has evaluation 6.0 web 50 pending 0
used 1 0 0 0
dead 4.0
take report 1 4.0:complete
has allocation 4.0 web main 0 1 600 300 0 run failed no 3.0
has node 1 linux 1000 1000 0 ready yes none 6
counts 1 2 2 2";

// Of the reports of one command the first that ends an allocation counts, and its job is touched
// once.
const SAME_TWICE: &str = "\
take report 1 4.0:running,4.0:complete,4.0:failed
has allocation 4.0 web main 0 1 600 300 0 run complete no 3.0
has evaluation 5.0 web 50 pending 0
counts 1 2 2 2";

// What ends after it was stopped gives no room a second time, and touches nothing; what was stopped
// is lost too, and no job is touched for it.
const STOPPED_ONES: &str = "\
take plan 3.0 1.1 web 0 4.0,4.1 -
has allocation 4.1 web main 1 2 600 300 0 stop pending no 3.0
has node 1 linux 1000 1000 0 ready yes none 5
has node 2 linux 1000 1000 0 ready yes none 5
used 2 0 0 0
take report 2 4.1:complete
has allocation 4.1 web main 1 2 600 300 0 stop complete no 3.0
has node 2 linux 1000 1000 0 ready yes none 5
counts 1 2 1 2
take lose 1
has allocation 4.0 web main 0 1 600 300 0 stop lost no 3.0
counts 1 2 1 2";

// A plan stops an allocation, and places its name again on the node that it leaves.
const PLACED_AGAIN: &str = "\
take plan 3.0 1.1 web 0 4.0 main:0:1:600:300:0
has allocation 4.0 web main 0 1 600 300 0 stop pending no 3.0
has allocation 5.0 web main 0 1 600 300 0 run pending no 3.0
live 5.0
live 4.1
has node 1 linux 1000 1000 0 ready yes none 5
has node 2 linux 1000 1000 0 ready yes none 2
used 1 600 300 0
used 2 600 300 0
counts 1 2 1 3
has evaluation 3.0 web 50 pending 0";

// A node that comes back is ready and has room; all else stays.
const COMES_BACK: &str = "\
take drain 1 slow
has node 1 linux 1000 1000 0 ready no slow 1
take lose 1
has node 1 linux 1000 1000 0 down no slow 1
take join 1 linux 1000 1000 0
has node 1 linux 1000 1000 0 ready no slow 7
take drained 1
has node 1 linux 1000 1000 0 ready no none 7
take drain 1 force
has node 1 linux 1000 1000 0 ready no force 7
has node 2 linux 1000 1000 0 ready yes none 2";

// Marked allocations are live still, and their job is touched once.
const MARKED: &str = "\
take drain 1 slow
counts 1 2 1 2
take drain 2 slow
counts 1 2 1 2
take migrate 4.0,4.1
has allocation 4.0 web main 0 1 600 300 0 run pending yes 3.0
has allocation 4.1 web main 1 2 600 300 0 run pending yes 3.0
live 4.0
counts 1 2 2 2
has evaluation 7.0 web 50 pending 0
has node 1 linux 1000 1000 0 ready no slow 1";

// A job that is put has the entry as its version, and so has one that is stopped.
const VERSIONS: &str = "\
has job web 50 no 3 main:2:linux:600:300:0
take noop
has job web 50 no 3 main:2:linux:600:300:0
counts 1 2 1 2
take stop web
has job web 50 yes 6 main:2:linux:600:300:0
has evaluation 6.0 web 50 pending 0
take eval web
has job web 50 yes 6 main:2:linux:600:300:0
has evaluation 7.0 web 50 pending 0
take put web 60 main:2:linux:600:300:0
has job web 60 no 8 main:2:linux:600:300:0
has evaluation 8.0 web 60 pending 0
has evaluation 7.0 web 50 pending 0
counts 1 2 4 2";

// A blocked evaluation keeps the index of its state until it is pending again.
const STATUSES: &str = "\
again
take status 3.0 blocked 2
has evaluation 3.0 web 50 blocked 2
take status 3.0 pending 0
has evaluation 3.0 web 50 pending 0
take status 3.0 complete 0
has evaluation 3.0 web 50 complete 0";

// Four jobs, put in another order than that of their names, three of which run on one node: the
// evaluations of touched jobs are made in rising name, each job once.
const TOUCHED: &str = "\
take join 1 x 10 10 0
take put b 50 g:2:x:1:1:0
take put a 60 g:1:x:1:1:0
take put ab 70 g:1:x:1:1:0
take put c 80 g:1:x:1:1:0
take plan 2.0 1.1 b 0 - g:1:1:1:1:0,g:0:1:1:1:0
take plan 4.0 1.1 ab 0 - g:0:1:1:1:0
take plan 3.0 1.1 a 0 - g:0:1:1:1:0
take lose 1
counts 4 1 7 4
has evaluation 9.0 a 60 pending 0
has evaluation 9.1 ab 70 pending 0
has evaluation 9.2 b 50 pending 0
has allocation 6.0 b g 1 1 1 1 0 run lost no 2.0
has allocation 6.1 b g 0 1 1 1 0 run lost no 2.0";

// A plan that nobody would admit is applied all the same: nothing is tested then, not even what a
// node has left.
const NOT_ADMITTED: &str = "\
again
force plan 9.0 1.1 none 0 8.0 main:0:1:600:300:0,main:0:1:600:300:0
has allocation 4.0 none main 0 1 600 300 0 run pending no 9.0
has allocation 4.1 none main 0 1 600 300 0 run pending no 9.0
live 4.0
used 1 1200 600 0
counts 1 2 1 2";

// Nor what it has left of disk; and what ends gives back its disk, and what is lost.
const PAST_ITS_DISK: &str = "\
take join 1 x 10 10 100
take put w 50 g:2:x:1:1:60
force plan 2.0 1.1 w 0 - g:0:1:1:1:60,g:1:1:1:1:60
has allocation 3.0 w g 0 1 1 1 60 run pending no 2.0
has allocation 3.1 w g 1 1 1 1 60 run pending no 2.0
counts 1 1 1 2
used 1 2 2 120
take report 1 3.0:complete
used 1 1 1 60
take lose 1
used 1 0 0 0
has node 1 x 10 10 100 down yes none 4";

// The loss of a node that has no row changes nothing but the count, even where an allocation names
// it; nor does it when such a node is disconnected.
const NO_SUCH_NODE: &str = "\
= state 7
= rows 1
= job web 50 no 2 main:2:linux:600:300:0
= rows 1
= node 1 linux 1000 1000 0 ready yes none 1
= rows 1
= evaluation 2.0 web 50 pending 0
= rows 2
= allocation 3.0 web main 0 9 600 300 0 run running no 2.0
= allocation 3.1 web main 1 1 600 300 0 run pending no 2.0
load
9 lose 9
force lose 9
= state 8
= rows 1
= job web 50 no 2 main:2:linux:600:300:0
= rows 1
= node 1 linux 1000 1000 0 ready yes none 1
= rows 1
= evaluation 2.0 web 50 pending 0
= rows 2
= allocation 3.0 web main 0 9 600 300 0 run running no 2.0
= allocation 3.1 web main 1 1 600 300 0 run pending no 2.0
same
9 disconnect 9
force disconnect 9
= state 9
= rows 1
= job web 50 no 2 main:2:linux:600:300:0
= rows 1
= node 1 linux 1000 1000 0 ready yes none 1
= rows 1
= evaluation 2.0 web 50 pending 0
= rows 2
= allocation 3.0 web main 0 9 600 300 0 run running no 2.0
= allocation 3.1 web main 1 1 600 300 0 run pending no 2.0
same";

/// The plays of effects, each from the empty state.
pub(crate) const PLAYS: &[&[&str]] = &[
    &[TWO_NODES, LOSS],
    &[TWO_NODES, AWAY],
    &[TWO_NODES, UNKNOWN_ENDS],
    &[TWO_NODES, UNKNOWN_LOST],
    &[TWO_NODES, BACK_FROM_AWAY],
    &[TWO_NODES, STOPPED_AWAY],
    &[TWO_NODES, ENDS],
    &[TWO_NODES, SAME_TWICE],
    &[TWO_NODES, STOPPED_ONES],
    &[TWO_NODES, PLACED_AGAIN],
    &[TWO_NODES, COMES_BACK],
    &[TWO_NODES, MARKED],
    &[TWO_NODES, VERSIONS],
    &[TWO_NODES, STATUSES],
    &[TOUCHED],
    &[TWO_NODES, NOT_ADMITTED],
    &[PAST_ITS_DISK],
    &[NO_SUCH_NODE],
];
