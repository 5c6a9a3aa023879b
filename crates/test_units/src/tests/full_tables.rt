//! States whose tables are full or all but full, from texts put together row by row: what they
//! refuse, and that the longest text of all is read and written.
// The longest text: each table is full, each name has 32 bytes, and each number is the greatest: 24
// bytes, 676 for each job, 57 for each node, 53 for each evaluation, and 102 for each allocation.
const LONGEST: &str = "\
= state 1099511627775
= rows 256
any any-job 100 yes 1099511627775 zzzzzzzzzzzzzzzzzzzzzzzzzzzzzzza:64:zzzzzzzzzzzzzzzzzzzzzzzzzzzzzzzz:1000000:1000000:1000000,zzzzzzzzzzzzzzzzzzzzzzzzzzzzzzzb:64:zzzzzzzzzzzzzzzzzzzzzzzzzzzzzzzz:1000000:1000000:1000000,zzzzzzzzzzzzzzzzzzzzzzzzzzzzzzzc:64:zzzzzzzzzzzzzzzzzzzzzzzzzzzzzzzz:1000000:1000000:1000000,zzzzzzzzzzzzzzzzzzzzzzzzzzzzzzzd:64:zzzzzzzzzzzzzzzzzzzzzzzzzzzzzzzz:1000000:1000000:1000000,zzzzzzzzzzzzzzzzzzzzzzzzzzzzzzze:64:zzzzzzzzzzzzzzzzzzzzzzzzzzzzzzzz:1000000:1000000:1000000,zzzzzzzzzzzzzzzzzzzzzzzzzzzzzzzf:64:zzzzzzzzzzzzzzzzzzzzzzzzzzzzzzzz:1000000:1000000:1000000,zzzzzzzzzzzzzzzzzzzzzzzzzzzzzzzg:64:zzzzzzzzzzzzzzzzzzzzzzzzzzzzzzzz:1000000:1000000:1000000,zzzzzzzzzzzzzzzzzzzzzzzzzzzzzzzh:64:zzzzzzzzzzzzzzzzzzzzzzzzzzzzzzzz:1000000:1000000:1000000
many job 0 255
= rows 64
any any-node zzzzzzzzzzzzzzzzzzzzzzzzzzzzzzzz 1000000 1000000 1000000 down no force 1099511627775
many node 1 64
= rows 65536
any any-evaluation zzzzzzzzzzzzzzzzzzzzzzzzzzzzzzzz 100 blocked 1099511627775
many evaluation 0 65535
= rows 65536
any any-allocation zzzzzzzzzzzzzzzzzzzzzzzzzzzzzzzz zzzzzzzzzzzzzzzzzzzzzzzzzzzzzzzz 63 64 1000000 1000000 1000000 stop lost yes 1099511627775.255
many allocation 0 65535
length 10334808
load
fork
counts 256 64 65536 65536";

// The jobs api, which is stopped, db and web, each of one group of one of a node's processor time
// and memory; node 1, node 2, which is down, and node 3, which is drained.
const CROWD: &str = "\
= state 2000
= rows 3
= job api 50 yes 1 main:64:linux:1:1:0
= job db 50 no 1 main:64:linux:1:1:0
= job web 50 no 1 main:64:linux:1:1:0
= rows 3
= node 1 linux 1000 1000 0 ready yes none 1
= node 2 linux 1000 1000 0 down yes none 1
= node 3 linux 1000 1000 0 ready no slow 1";

// Live allocations 1.0 to 1.3, each with one of processor time and memory: those of web on nodes 1,
// 2 and 3, and one of db on node 1.
const LIVE: &str = "\
= allocation 1.0 web main 0 1 1 1 0 run pending no 1.0
= allocation 1.1 web main 1 2 1 1 0 run pending no 1.0
= allocation 1.2 web main 2 3 1 1 0 run pending no 1.0
= allocation 1.3 db main 0 1 1 1 0 run pending no 1.0";

// 65,536 pending evaluations of web, and as many allocations, of which the first four are live and
// the others complete. A thousand copies are kept of this state, each before another page changes:
// were a table copied for each, they would take ten gigabytes.
const EVALS: &str = "\
= rows 65536
any any-evaluation web 50 pending 0
many evaluation 0 65535
= rows 65536";

const ALLOCS: &str = "\
any any-allocation web main 0 1 1 1 0 stop complete no 1.0
many allocation 4 65535
load
fork
copies 1000 65
counts 3 3 65536 65536";

// What makes one more is refused, and what makes none is not; but first what is unknown, stopped,
// down, not live, or not to be moved; and only then a plan for a stopped job, or with a bad place.
const FULL: &str = "\
0 noop
13 put web 50 main:1:linux:1:1:0
13 put new 50 main:1:linux:1:1:0
8 stop none
18 stop api
13 stop web
0 join 1 linux 1000 1000 0
0 join 4 linux 1000 1000 0
9 lose 4
19 lose 2
13 lose 3
9 disconnect 4
19 disconnect 2
0 disconnect 3
0 disconnect 1
0 drain 1 slow
20 drained 3
21 migrate 1.0,2000.0
20 migrate 1.0
13 migrate 1.2
8 eval none
13 eval api
0 plan 1.0 1.1 web 0 1.0 -
8 plan 1.0 1.1 none 0 - main:3:1:1:1:0
21 plan 1.0 1.1 web 0 1.4 main:3:1:1:1:0
13 plan 1.0 1.1 web 0 1.0 main:3:1:1:1:0
13 plan 1.0 1.1 api 0 - main:0:1:1:1:0
13 plan 1.0 1.1 web 0 - none:0:1:1:1:0
9 report 4 1.0:complete
21 report 1 1.0:complete,1.1:complete
13 report 1 1.0:complete
0 report 1 1.0:running,1.4:complete";

// One evaluation and one allocation less.
const EVALS_BUT_ONE: &str = "\
= rows 65535
any any-evaluation web 50 pending 0
many evaluation 0 65534
= rows 65535";

const ALLOCS_BUT_ONE: &str = "\
any any-allocation web main 0 1 1 1 0 stop complete no 1.0
many allocation 4 65534
load
fork
counts 3 3 65535 65535";

// With one row less one more is made, and not two: of two jobs on a lost node, or with reported
// ends; and of two places, whatever the plan stops.
const ONE_LEFT: &str = "\
0 put web 50 main:1:linux:1:1:0
0 put new 50 main:1:linux:1:1:0
0 stop web
0 eval api
0 lose 3
13 lose 1
0 migrate 1.2
0 report 1 1.0:complete
13 report 1 1.0:complete,1.3:complete
0 report 1 1.0:complete,1.3:running
0 plan 1.0 1.1 web 0 - main:3:1:1:1:0
0 plan 1.0 1.1 web 0 1.0 main:0:1:1:1:0
13 plan 1.0 1.1 web 0 - main:3:1:1:1:0,main:4:1:1:1:0
13 plan 1.0 1.1 web 0 1.0 main:0:1:1:1:0,main:3:1:1:1:0
force eval web
13 eval web
force plan 1.0 1.1 web 0 - main:3:1:1:1:0
13 plan 1.0 1.1 web 0 - main:3:1:1:1:0
counts 3 3 65536 65536";

// There are 256 jobs at most, here of names from zzz..aa to zzz..pp; each of them may be put again.
const MOST_JOBS: &str = "\
= state 256
= rows 256
any any-job 50 no 1 main:64:linux:1:1:0
many job 0 255
= rows 0
= rows 0
= rows 0
load
fork
counts 256 0 0 0
13 put more 50 main:1:linux:1:1:0
0 put zzzzzzzzzzzzzzzzzzzzzzzzzzzzzzpp 50 main:1:linux:1:1:0
0 eval zzzzzzzzzzzzzzzzzzzzzzzzzzzzzzpp";

/// The plays of full tables, each from the empty state.
pub(crate) const PLAYS: &[&[&str]] = &[
    &[LONGEST],
    &[CROWD, EVALS, LIVE, ALLOCS, FULL],
    &[CROWD, EVALS_BUT_ONE, LIVE, ALLOCS_BUT_ONE, ONE_LEFT],
    &[MOST_JOBS],
];
