// ! What each command is refused for by the replicated state, and that of two refusals that apply !
// the first is answered. What needs a full table stands in `full_tables`. Nodes and jobs come to an
// empty state. Entries 1 to 7: nodes 1 and 2 of class linux and 3 of class arm; jobs web, api and
// old, whose evaluations are 4.0, 5.0 and 6.0; and allocations 7.0 and 7.1 of web on nodes 1 and 2.
// Of each node 400 and 700 are left, of node 3 all.
const BASE: &str = "\
0 noop
0 put web 50 main:2:linux:600:300:0
0 join 64 linux 1 1000000 0
take join 1 linux 1000 1000 0
take join 2 linux 1000 1000 0
take join 3 arm 1000 1000 0
take put web 50 main:3:linux:600:300:0,side:1:linux:400:700:0,wide:1:linux:401:1:0,\
tall:1:linux:1:701:0
take put api 60 one:1:linux:400:300:0,big:1:arm:100:100:0
take put old 1 one:1:arm:1:1:0
take plan 4.0 1.1 web 0 - main:0:1:600:300:0,main:1:2:600:300:0
keep";

// Jobs that are put, stopped and looked at.
const JOBS: &str = "\
0 noop
0 put web 50 main:2:linux:600:300:0
8 stop none
0 stop web
8 eval none
0 eval web
take stop web
0 put web 1 b:1:c:1:1:0
18 stop web
0 stop api
0 eval web
again
take stop api
take put api 60 one:1:linux:400:300:0
0 stop api";

// A node that comes has the class and the size of its row, if there is one; a lost one is not lost
// again.
const NODES: &str = "\
again
0 join 1 linux 1000 1000 0
0 join 4 arm 1 1 0
10 join 1 arm 1000 1000 0
10 join 1 linux 999 1000 0
10 join 1 linux 1000 1001 0
10 join 1 linux 1000 1000 1
9 lose 4
0 lose 1
take lose 1
0 join 1 linux 1000 1000 0
10 join 1 arm 1000 1000 0
19 lose 1
0 lose 2
take join 1 linux 1000 1000 0
0 lose 1";

// A ready node is disconnected, and no other; one that is disconnected is lost, and one that is
// ready is too. Meanwhile it takes nothing; what is unknown on it holds its name, and is stopped,
// moved and reported as what runs.
const AWAY: &str = "\
again
take join 4 linux 1000 1000 0
9 disconnect 5
0 disconnect 1
0 disconnect 4
take disconnect 1
19 disconnect 1
0 lose 1
0 join 1 linux 1000 1000 0
10 join 1 linux 1000 1000 1
0 drain 1 slow
20 drained 1
20 migrate 7.0
12 plan 5.0 1.1 api 0 - one:0:1:400:300:0
12 plan 4.0 1.1 web 0 - main:0:4:600:300:0
0 plan 4.0 1.1 web 0 7.0 main:0:4:600:300:0
0 plan 4.0 1.1 web 0 - main:2:4:600:300:0
0 report 1 7.0:running
0 report 1 7.0:complete,7.0:failed
21 report 1 7.1:running
9 report 5 7.0:running
take drain 1 slow
20 drained 1
0 migrate 7.0
take lose 1
19 disconnect 1
19 lose 1
20 migrate 7.0
0 drained 1
12 plan 4.0 1.1 web 0 - main:0:1:600:300:0
0 plan 4.0 1.1 web 0 - main:0:4:600:300:0
take join 1 linux 1000 1000 0
0 disconnect 1
0 lose 1";

// A node that is emptied is drained, and nothing on it is live.
const DRAINS: &str = "\
again
9 drain 4 slow
0 drain 1 slow
9 drained 4
20 drained 3
20 drained 1
take drain 1 force
0 drain 1 slow
again
take lose 1
0 drain 1 force
again
take drain 3 slow
0 drained 3
take drained 3
20 drained 3
again
take drain 3 force
0 drained 3
again
take drain 2 slow
20 drained 1
again
take drain 1 slow
20 drained 1
take plan 4.0 1.1 web 0 7.0 -
0 drained 1
again
take drain 1 slow
take report 1 7.0:failed
0 drained 1";

// An unknown one counts before one that cannot move.
const MOVES: &str = "\
again
20 migrate 7.0
21 migrate 7.0,7.2
take drain 1 slow
0 migrate 7.0
21 migrate 6.0
21 migrate 7.2
20 migrate 7.0,7.1
take migrate 7.0
0 migrate 7.0
again
take drain 1 slow
take drain 2 force
0 migrate 7.0,7.1
again
take drain 1 slow
take plan 4.0 1.1 web 0 7.0 -
20 migrate 7.0
again
take drain 1 slow
take lose 1
20 migrate 7.0";

// A plan without a place or a stop; and where two are to be said, the first counts: that of the
// evaluation, of the job, of a stop, of the stopped job, of a place.
const PLANS: &str = "\
again
0 plan 4.0 1.1 web 0 - -
4 plan 7.0 1.1 web 0 - -
8 plan 4.0 1.1 none 0 - -
8 plan 4.0 1.1 none 0 9.0 -
take status 4.0 complete 0
4 plan 4.0 1.1 web 0 - -
again
take status 4.0 blocked 0
4 plan 4.0 1.1 web 0 - -
again
take status 4.0 failed 0
4 plan 4.0 1.1 none 0 - -
again
take stop web
21 plan 4.0 1.1 web 0 9.0 main:2:1:600:300:0
18 plan 4.0 1.1 web 0 7.0 none:2:1:600:300:0";

// Stops are of live allocations of the plan's job.
const STOPS: &str = "\
again
0 plan 4.0 1.1 web 0 7.0,7.1 -
21 plan 4.0 1.1 web 0 7.0,7.2 -
21 plan 5.0 1.1 api 0 7.0 -
take plan 4.0 1.1 web 0 7.0 -
21 plan 4.0 1.1 web 0 7.0 -
again
take lose 1
21 plan 4.0 1.1 web 0 7.0 -
again
take report 1 7.0:complete
21 plan 4.0 1.1 web 0 7.0 -
again
take report 1 7.0:running
0 plan 4.0 1.1 web 0 7.0 -
again
take stop web
0 plan 4.0 1.1 web 0 7.0,7.1 -
18 plan 4.0 1.1 web 0 - main:2:1:600:300:0";

// Places of no group, of another size, past the count of the group, and where nothing may be
// placed.
const PLACES: &str = "\
again
0 plan 5.0 1.1 api 0 - one:0:1:400:300:0
12 plan 5.0 1.1 api 0 - main:0:1:400:300:0
12 plan 5.0 1.1 api 0 - one:0:1:399:300:0
12 plan 5.0 1.1 api 0 - one:0:1:400:299:0
12 plan 5.0 1.1 api 0 - one:0:1:400:300:1
12 plan 5.0 1.1 api 0 - one:1:1:400:300:0
12 plan 5.0 1.1 api 0 - one:0:4:400:300:0
12 plan 5.0 1.1 api 0 - one:0:3:400:300:0
0 plan 5.0 1.1 api 0 - big:0:3:100:100:0
take lose 1
12 plan 5.0 1.1 api 0 - one:0:1:400:300:0
take join 1 linux 1000 1000 0
0 plan 5.0 1.1 api 0 - one:0:1:400:300:0
again
take drain 1 slow
12 plan 5.0 1.1 api 0 - one:0:1:400:300:0
again
take drain 3 slow
take drained 3
12 plan 5.0 1.1 api 0 - big:0:3:100:100:0";

// What fits exactly is placed, and one more is not, of processor time or of memory; and no name is
// live twice.
const SAFE_PLACES: &str = "\
again
0 plan 4.0 1.1 web 0 - side:0:1:400:700:0
12 plan 4.0 1.1 web 0 - wide:0:1:401:1:0
12 plan 4.0 1.1 web 0 - tall:0:1:1:701:0
0 plan 4.0 1.1 web 0 7.0 wide:0:1:401:1:0
12 plan 4.0 1.1 web 0 7.1 wide:0:1:401:1:0
12 plan 4.0 1.1 web 0 - side:0:1:400:700:0,tall:0:2:1:701:0
take join 4 linux 1000 1000 0
0 plan 4.0 1.1 web 0 - main:2:4:600:300:0
12 plan 4.0 1.1 web 0 - main:0:4:600:300:0
again
take join 4 linux 1200 1000 0
12 plan 4.0 1.1 web 0 - main:2:4:600:300:0,main:2:4:600:300:0
0 plan 4.0 1.1 web 0 7.0 main:2:4:600:300:0,main:0:4:600:300:0
again
take join 4 linux 1199 1000 0
12 plan 4.0 1.1 web 0 7.0 main:2:4:600:300:0,main:0:4:600:300:0";

// Disk is a size of its own: node 4 has 100 of it, nodes 1 and 2 have none. A node that comes again
// has the disk of its row, a place that of its group; and what fits exactly is placed.
const DISKS: &str = "\
again
take join 4 linux 1000 1000 100
take put disks 50 a:2:linux:100:100:60,b:2:linux:100:100:50,c:1:linux:1:1:0,d:1:linux:1:1:1
0 join 4 linux 1000 1000 100
10 join 4 linux 1000 1000 99
10 join 4 linux 1000 1000 0
0 plan 9.0 1.1 disks 0 - a:0:4:100:100:60
12 plan 9.0 1.1 disks 0 - a:0:4:100:100:50
12 plan 9.0 1.1 disks 0 - a:0:4:100:100:0
12 plan 9.0 1.1 disks 0 - a:0:1:100:100:60
12 plan 9.0 1.1 disks 0 - a:0:4:100:100:60,a:1:4:100:100:60
12 plan 9.0 1.1 disks 0 - a:0:4:100:100:60,b:0:4:100:100:50
0 plan 9.0 1.1 disks 0 - b:0:4:100:100:50,b:1:4:100:100:50
0 plan 9.0 1.1 disks 0 - b:0:4:100:100:50,b:1:4:100:100:50,c:0:4:1:1:0
12 plan 9.0 1.1 disks 0 - b:0:4:100:100:50,b:1:4:100:100:50,d:0:4:1:1:1
take plan 9.0 1.1 disks 0 - a:0:4:100:100:60
0 plan 9.0 1.1 disks 0 10.0 a:0:4:100:100:60
12 plan 9.0 1.1 disks 0 - b:0:4:100:100:50
0 plan 9.0 1.1 disks 0 10.0 b:0:4:100:100:50,b:1:4:100:100:50
take report 4 10.0:complete
0 plan 9.0 1.1 disks 0 - b:0:4:100:100:50,b:1:4:100:100:50";

// An unknown node counts before an unknown allocation. Ended ones are reported as often as one
// likes.
const REPORTS: &str = "\
again
9 report 4 7.0:running
9 report 4 9.0:running
21 report 1 9.0:running
21 report 1 7.1:complete
21 report 1 7.0:running,7.1:failed
0 report 1 7.0:running
0 report 2 7.1:failed
take report 1 7.0:complete
0 report 1 7.0:running,7.0:failed
again
take lose 1
0 report 1 7.0:running";

// An evaluation that is pending takes each status but pending; one that is not takes no status but
// pending, and takes that only from blocked.
const STATUSES: &str = "\
again
4 status 4.0 pending 0
0 status 4.0 blocked 0
0 status 4.0 complete 0
0 status 4.0 failed 0
4 status 7.0 pending 0
4 status 7.0 blocked 0
4 status 7.0 complete 0
4 status 7.0 failed 0
take status 4.0 blocked 7
0 status 4.0 pending 0
4 status 4.0 blocked 7
4 status 4.0 complete 0
4 status 4.0 failed 0
again
take status 4.0 complete 0
4 status 4.0 pending 0
4 status 4.0 blocked 7
4 status 4.0 complete 0
4 status 4.0 failed 0
again
take status 4.0 failed 0
4 status 4.0 pending 0
4 status 4.0 blocked 7
4 status 4.0 complete 0
4 status 4.0 failed 0";

/// The plays of admission.
pub(crate) const PLAYS: &[&str] = &[
    BASE,
    JOBS,
    NODES,
    AWAY,
    DRAINS,
    MOVES,
    PLANS,
    STOPS,
    PLACES,
    SAFE_PLACES,
    DISKS,
    REPORTS,
    STATUSES,
];
