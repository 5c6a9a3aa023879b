//! Commands of the replicated state, byte by byte.

// Commands, and their bytes: the tag, names with the number of their bytes, priorities, groups,
// nodes, ids. What stands behind a command is not read.
const WORDS: &str = "\
= put web 50 main:2:linux:600:300:0
is raw 1 3 119 101 98 50 1 4 109 97 105 110 2 5 108 105 110 117 120 0 0 2 88 0 0 1 44 0 0 0 0
= raw 255
command 31
= put 0 100 b-2:0:x:1:1000000:0,a:64:y:1000000:1:0
is raw 1 1 48 100 2 3 98 45 50 0 1 120 0 0 0 1 0 15 66 64 0 0 0 0 1 97 64 1 121 0 15 66 64 0 0 0 1 0 0 0 0
= raw 255
command 41
= put w 1 a:1:x:1:1:0,b:1:x:1:1:0,c:1:x:1:1:0,d:1:x:1:1:0,e:1:x:1:1:0,f:1:x:1:1:0,g:1:x:1:1:0,h:1:x:1:1:0
is raw 1 1 119 1 8 1 97 1 1 120 0 0 0 1 0 0 0 1 0 0 0 0 1 98 1 1 120 0 0 0 1 0 0 0 1 0 0 0 0 1 99 1 1 120 0 0 0 1 0 0 0 1 0 0 0 0 1 100 1 1 120 0 0 0 1 0 0 0 1 0 0 0 0 1 101 1 1 120 0 0 0 1 0 0 0 1 0 0 0 0 1 102 1 1 120 0 0 0 1 0 0 0 1 0 0 0 0 1 103 1 1 120 0 0 0 1 0 0 0 1 0 0 0 0 1 104 1 1 120 0 0 0 1 0 0 0 1 0 0 0 0
= raw 255
command 141
= stop web-1
is raw 2 5 119 101 98 45 49
= raw 255
command 7
= eval 0
is raw 8 1 48
= raw 255
command 3
= drain 64 slow
is raw 5 64 0
= raw 255
command 3
= drain 1 force
is raw 5 1 1
= raw 255
command 3
= noop
is raw 0
= raw 255
command 1
= status 4.0 blocked 7
is raw 9 0 0 0 0 0 0 0 4 0 0 1 0 0 0 0 0 0 0 7
= raw 255
command 20
= plan 4.0 1.1 w 0 3.63 g:63:64:1:2:0
is raw 10 0 0 0 0 0 0 0 4 0 0 0 0 0 0 0 0 0 1 0 0 0 0 0 0 0 1 1 119 0 0 0 0 0 0 0 0 1 0 0 0 0 0 0 0 3 63 1 1 103 63 64 0 0 0 1 0 0 0 2 0 0 0 0
= raw 255
command 64
= report 2 3.0:complete
is raw 11 2 1 0 0 0 0 0 0 0 3 0 2
= raw 255
command 13
= lose 64
is raw 4 64
= raw 255
command 2
= disconnect 64
is raw 12 64
= raw 255
command 2";

// Disk is at most 1,000,000, and stands behind memory.
const DISK: &str = "\
= put w 50 g:2:x:600:300:1000000
is raw 1 1 119 50 1 1 103 2 1 120 0 0 2 88 0 0 1 44 0 15 66 64
= raw 255
command 22
= raw 1 1 119 50 1 1 103 2 1 120 0 0 2 88 0 0 1 44 0 15 66 65
bad 18
= join 1 x 1000 2000 7
is raw 3 1 1 120 0 0 3 232 0 0 7 208 0 0 0 7
= raw 255
command 16
= raw 3 1 1 120 0 0 3 232 0 0 7 208 0 0 0
bad 12
= raw 10 0 0 0 0 0 0 0 4 0 0 0 0 0 0 0 0 0 1 0 0 0 0 0 0 0 1 1 119 0 0 0 0 0 0 0 0 0 1 1 103 0 1 0 0 0 1 0 0 0 1 0 15 66 65
bad 51";

// Commands of the first version, which says nothing of disk: each is the same with disk 0.
const OLD: &str = "\
= raw 1 3 119 101 98 50 1 4 109 97 105 110 2 5 108 105 110 117 120 0 0 2 88 0 0 1 44
= raw 255
old-command 1 put web 50 main:2:linux:600:300:0
= raw 1 1 48 100 2 3 98 45 50 0 1 120 0 0 0 1 0 15 66 64 1 97 64 1 121 0 15 66 64 0 0 0 1
= raw 255
old-command 1 put 0 100 b-2:0:x:1:1000000:0,a:64:y:1000000:1:0
= raw 3 1 5 108 105 110 117 120 0 0 3 232 0 0 3 232
= raw 255
old-command 1 join 1 linux 1000 1000 0
= raw 10 0 0 0 0 0 0 0 4 0 0 0 0 0 0 0 0 0 1 0 0 0 0 0 0 0 1 1 119 0 0 0 0 0 0 0 0 1 0 0 0 0 0 0 0 3 63 1 1 103 63 64 0 0 0 1 0 0 0 2
= raw 255
old-command 1 plan 4.0 1.1 w 0 3.63 g:63:64:1:2:0
= raw 8 1 48
= raw 255
old-command 1 eval 0
= raw 0 255
old-command 1 noop
= raw 4 9 255
old-command 1 lose 9";

// Commands of the second version, which are as they are today. Neither it nor the first has a node
// that is disconnected: the tag is at fault, also where what follows is cut, and a greater one.
const SECOND: &str = "\
= put web 50 main:2:linux:600:300:7
= raw 255
old-command 2 put web 50 main:2:linux:600:300:7
= join 1 linux 1000 1000 1000000
= raw 255
old-command 2 join 1 linux 1000 1000 1000000
= raw 4 9 255
old-command 2 lose 9
= raw 11 2 1 0 0 0 0 0 0 0 3 0 2 255
old-command 2 report 2 3.0:complete
= raw 12 9 255
old-bad 2 0
= raw 12 9 255
old-bad 1 0
= raw 12
old-bad 2 0
= raw 12
old-bad 1 0
= raw 13 9 255
old-bad 2 0
= raw 12 9 255
old-command 3 disconnect 9
= raw 12 0
old-bad 3 1";

// The least command, the greatest tag and its node, and tags of none.
const TAGS: &str = "\
= raw 0
command 1
= raw 12 1
command 2
= raw 12
bad 1
= raw 12 0
bad 1
= raw 12 65
bad 1
= raw 13 1
bad 0
= raw 255
bad 0";

// Job web of priority 50 with the group main, of 2 on linux, cpu 600, mem 300 and
// disk 0; a node; drains.
const ROWS: &str = "\
= raw 1 3 119 101 98 50 1 4 109 97 105 110 2 5 108 105 110 117 120 0 0 2 88 0 0 1 44 0 0 0 0
command 31
= raw 3 1 5 108 105 110 117 120 0 0 3 232 0 0 3 232 0 0 0 0
command 20
= raw 5 64 1
command 3
= raw 5 64 2
bad 2";

// No groups: a fault at their count.
const NO_GROUPS: &str = "\
= raw 1 3 119 101 98 50 0
bad 6";

// The second group has the first one's name, and its count is out of range too.
const SAME_GROUP: &str = "\
= raw 1 3 119 101 98 50 2 1 97 2 1 120 0 0 0 1 0 0 0 1 0 0 0 0 1 97 65
bad 24";

// An evaluation that is complete has no snapshot; one that is blocked has.
const SNAPSHOTS: &str = "\
= raw 9 0 0 0 0 0 0 0 4 0 0 2 0 0 0 0 0 0 0 0
command 20
= raw 9 0 0 0 0 0 0 0 4 0 0 2 0 0 0 0 0 0 0 1
bad 12
= raw 9 0 0 0 0 0 0 0 4 0 0 1 0 0 0 0 0 0 0 1
command 20";

// Ids that rise, ids that do not, none, and too many.
const IDS: &str = "\
= raw 7 2 0 0 0 0 0 0 0 5 0 0 0 0 0 0 0 0 5 1
command 20
= raw 7 2 0 0 0 0 0 0 0 5 0 0 0 0 0 0 0 0 5 0
bad 11
= raw 7 0
bad 1
= raw 7 65
bad 1";

// A report of an allocation, and one of a state that there is not.
const REPORTS: &str = "\
= raw 11 1 1 0 0 0 0 0 0 0 5 0 3
command 13
= raw 11 1 1 0 0 0 0 0 0 0 5 0 4
bad 12";

/// The plays of commands.
pub(crate) const PLAYS: &[&str] = &[
    WORDS, DISK, OLD, SECOND, TAGS, ROWS, NO_GROUPS, SAME_GROUP, SNAPSHOTS, IDS, REPORTS,
];
