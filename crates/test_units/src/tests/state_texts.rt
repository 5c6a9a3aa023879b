//! Texts of the replicated state, put together by hand from the format: an empty one, a small one,
//! one of a node that is away, and one of greatest values; and texts of older versions. And each
//! call of it that may lack memory, with enough of it.

// The empty state, as both calls make it.
const EMPTY: &str = "\
= raw 0 0 0 0 0 0 0 0 0 0 0 0 0 0 0 0 0 0 0 0 0 0 0 0
same
= state 0
= rows 0
= rows 0
= rows 0
= rows 0
load
fork
applied 0
counts 0 0 0 0
= raw 0 0 0 0 0 0 0 0 0 0 0 0 0 0 0 0 0 0 0 0 0 0 0 0 0
fault 24
clear";

// A state with one row of each kind, by the bytes of its count, of a job, a node, an evaluation and
// an allocation, and in words.
const SMALL: &str = "\
take join 1 x 1000 2000 100
take put w 50 g:2:x:600:300:50
take plan 2.0 1.1 w 0 - g:0:1:600:300:50
take noop
take report 1 3.0:running
= raw 0 0 0 0 0 0 0 5
= raw 0 0 0 1
= raw 1 119 50 0 0 0 0 0 0 0 0 2 1 1 103 2 1 120 0 0 2 88 0 0 1 44 0 0 0 50
= raw 0 0 0 1
= raw 1 1 120 0 0 3 232 0 0 7 208 0 0 0 100 0 1 0 0 0 0 0 0 0 0 1
= raw 0 0 0 1
= raw 0 0 0 0 0 0 0 2 0 0 1 119 50 0 0 0 0 0 0 0 0 0
= raw 0 0 0 1
= raw 0 0 0 0 0 0 0 3 0 1 119 1 103 0 1 0 0 2 88 0 0 1 44 0 0 0 50 0 1 0 0 0 0 0 0 0 0 2 0 0
same";

// That text, read.
const SMALL_READ: &str = "\
= state 5
= rows 1
= job w 50 no 2 g:2:x:600:300:50
= rows 1
= node 1 x 1000 2000 100 ready yes none 1
= rows 1
= evaluation 2.0 w 50 pending 0
= rows 1
= allocation 3.0 w g 0 1 600 300 50 run running no 2.0
load
fork
used 1 600 300 50
live 3.0
lists";

// A state whose one node is disconnected, so that what was to run on it is unknown; and that text,
// read.
const AWAY: &str = "\
take join 1 x 1000 2000 100
take put w 50 g:2:x:600:300:50
take plan 2.0 1.1 w 0 - g:0:1:600:300:50
take disconnect 1
= raw 0 0 0 0 0 0 0 4
= raw 0 0 0 1
= raw 1 119 50 0 0 0 0 0 0 0 0 2 1 1 103 2 1 120 0 0 2 88 0 0 1 44 0 0 0 50
= raw 0 0 0 1
= raw 1 1 120 0 0 3 232 0 0 7 208 0 0 0 100 2 1 0 0 0 0 0 0 0 0 1
= raw 0 0 0 1
= raw 0 0 0 0 0 0 0 2 0 0 1 119 50 0 0 0 0 0 0 0 0 0
= raw 0 0 0 1
= raw 0 0 0 0 0 0 0 3 0 1 119 1 103 0 1 0 0 2 88 0 0 1 44 0 0 0 50 0 5 0 0 0 0 0 0 0 0 2 0 0
same
= state 4
= rows 1
= job w 50 no 2 g:2:x:600:300:50
= rows 1
= node 1 x 1000 2000 100 disconnected yes none 1
= rows 1
= evaluation 2.0 w 50 pending 0
= rows 1
= allocation 3.0 w g 0 1 600 300 50 run unknown no 2.0
load
fork
used 1 600 300 50
live 3.0
lists";

// In the second version, whose texts have the same fields, no node is disconnected and no
// allocation is unknown: its text is at fault at the first of them. Without them it is read, and is
// the same today.
const SECOND: &str = "\
= state 4
= rows 1
= job w 50 no 2 g:2:x:600:300:50
= rows 1
= node 1 x 1000 2000 100 disconnected yes none 1
= rows 1
= evaluation 2.0 w 50 pending 0
= rows 1
= allocation 3.0 w g 0 1 600 300 50 run unknown no 2.0
length 142
old-fault 2 61
set 61 3
old-fault 2 61
set 61 1
old-fault 2 130
set 130 6
old-fault 2 130
set 130 4
old-load 2
used 1 0 0 0
= state 4
= rows 1
= job w 50 no 2 g:2:x:600:300:50
= rows 1
= node 1 x 1000 2000 100 down yes none 1
= rows 1
= evaluation 2.0 w 50 pending 0
= rows 1
= allocation 3.0 w g 0 1 600 300 50 run lost no 2.0
same";

// A state of the greatest values of its fields, none of whose rows names another: nodes,
// evaluations and allocations.
const GREAT: &str = "\
= raw 0 0 0 255 255 255 255 255
= raw 0 0 0 0
= raw 0 0 0 1
= raw 64 1 45 0 15 66 64 0 15 66 64 0 15 66 64 1 0 2 0 0 0 255 255 255 255 255
= raw 0 0 0 1
= raw 0 0 0 255 255 255 255 255 0 255 1 122 100 1 0 0 0 255 255 255 255 255
= raw 0 0 0 1
= raw 0 0 0 255 255 255 255 255 63
= raw 1 48 1 57 63 64 0 15 66 64 0 15 66 64 0 15 66 64 1 4 1 0 0 0 255 255 255 255 255 0 255
load
fork
applied 1099511627775
has node 64 - 1000000 1000000 1000000 down no force 1099511627775
has evaluation 1099511627775.255 z 100 blocked 1099511627775
has allocation 1099511627775.63 0 9 63 64 1000000 1000000 1000000 stop lost yes 1099511627775.255";

// The text of the small state, cut between the places where its fields begin: it is refused at the
// field that is cut. And with one byte changed: at the field of that byte.
const SMALL_TEXT: &str = "\
= state 5
= rows 1
= job w 50 no 2 g:2:x:600:300:50
= rows 1
= node 1 x 1000 2000 100 ready yes none 1
= rows 1
= evaluation 2.0 w 50 pending 0
= rows 1
= allocation 3.0 w g 0 1 600 300 50 run running no 2.0
length 142
cuts 0 8 12 14 15 16 24 25 27 28 30 34 38 42
cuts 42 46 47 49 53 57 61 62 63 64 72
cuts 72 76 84 86 88 89 90 98
cuts 98 102 110 111 113 115 116 117 121 125 129 130 131 132 140 142
byte 2 1 0
byte 10 1 8
byte 12 0 12
byte 12 33 12
byte 13 87 12
byte 14 0 14
byte 14 101 14
byte 15 2 15
byte 18 1 16
byte 24 0 24
byte 24 9 24
byte 27 65 27
byte 30 1 30
byte 34 1 34
byte 38 1 38
byte 44 1 42
byte 46 0 46
byte 46 65 46
byte 57 1 57
byte 61 3 61
byte 62 2 62
byte 63 3 63
byte 66 1 64
byte 73 2 72
byte 83 0 76
byte 84 1 84
byte 87 95 86
byte 89 4 89
byte 92 1 90
byte 99 2 98
byte 109 0 102
byte 110 64 110
byte 111 33 111
byte 115 64 115
byte 116 0 116
byte 117 1 117
byte 125 1 125
byte 129 2 129
byte 130 6 130
byte 131 2 131
byte 140 1 140
clear";

// The small state in the first version, which says nothing of disk: each disk is 0. Cut, it is
// refused at the field that is cut. Nor is a node disconnected there, or an allocation unknown.
const OLD: &str = "\
= raw 0 0 0 0 0 0 0 5
= raw 0 0 0 1
= raw 1 119 50 0 0 0 0 0 0 0 0 2 1 1 103 2 1 120 0 0 2 88 0 0 1 44
= raw 0 0 0 1
= raw 1 1 120 0 0 3 232 0 0 7 208 0 1 0 0 0 0 0 0 0 0 1
= raw 0 0 0 1
= raw 0 0 0 0 0 0 0 2 0 0 1 119 50 0 0 0 0 0 0 0 0 0
= raw 0 0 0 1
= raw 0 0 0 0 0 0 0 3 0 1 119 1 103 0 1 0 0 2 88 0 0 1 44 0 1 0 0 0 0 0 0 0 0 2 0 0
length 130
old-load 1
applied 5
used 1 600 300 0
= state 5
= rows 1
= job w 50 no 2 g:2:x:600:300:0
= rows 1
= node 1 x 1000 2000 0 ready yes none 1
= rows 1
= evaluation 2.0 w 50 pending 0
= rows 1
= allocation 3.0 w g 0 1 600 300 0 run running no 2.0
same
= raw 0 0 0 0 0 0 0 5
= raw 0 0 0 1
= raw 1 119 50 0 0 0 0 0 0 0 0 2 1 1 103 2 1 120 0 0 2 88 0 0 1
old-fault 1 34
clear
= raw 0 0 0 0 0 0 0 5
= raw 0 0 0 1
= raw 1 119 50 0 0 0 0 0 0 0 0 2 1 1 103 2 1 120 0 0 2 88 0 0 1 44
= raw 0 0 0 1
= raw 1 1 120 0 0 3 232 0 0 7 208 2 1 0 0 0 0 0 0 0 0 1
= raw 0 0 0 1
= raw 0 0 0 0 0 0 0 2 0 0 1 119 50 0 0 0 0 0 0 0 0 0
= raw 0 0 0 1
= raw 0 0 0 0 0 0 0 3 0 1 119 1 103 0 1 0 0 2 88 0 0 1 44 0 5 0 0 0 0 0 0 0 0 2 0 0
old-fault 1 53
set 53 0
old-fault 1 118
set 118 1
old-load 1
used 1 600 300 0";

// In a text of the first version bytes of disk are the next fields, and the last bytes are left
// over. Without them a text of today is cut.
const OLD_WITH_DISK: &str = "\
= state 1
= rows 1
= job w 50 no 1 g:2:x:600:300:0
= rows 0
= rows 0
= rows 0
old-fault 1 50
load
= state 1
= rows 1
= raw 1 119 50 0 0 0 0 0 0 0 0 1 1 1 103 2 1 120 0 0 2 88 0 0 1 44
= rows 0
= rows 0
= rows 0
fault 50
old-load 1
= state 1
= rows 1
= job w 50 no 1 g:2:x:600:300:0
= rows 0
= rows 0
= rows 0
same";

// Jobs, nodes, evaluations and allocations are in strictly rising key: a second row of the same
// key, or of a lower one, is refused at its first byte, and one of a higher key is read.
const ORDERS: &str = "\
= state 5
= rows 2
= job w 50 no 2 g:2:x:600:300:0
= job w 50 no 2 g:2:x:600:300:0
= rows 0
= rows 0
= rows 0
fault 42
set 13 120
fault 42
set 43 120
fault 42
set 43 121
load
fork
= state 5
= rows 0
= rows 2
= node 1 x 1000 2000 0 ready yes none 1
= node 1 x 1000 2000 0 ready yes none 1
= rows 0
= rows 0
fault 42
set 16 2
fault 42
set 42 2
fault 42
set 42 3
load
fork
= state 5
= rows 0
= rows 0
= rows 2
= evaluation 2.0 w 50 pending 0
= evaluation 2.0 w 50 pending 0
= rows 0
fault 42
set 27 3
fault 42
set 49 3
fault 42
set 49 4
load
fork
= state 5
= rows 0
= rows 0
= rows 0
= rows 2
= allocation 3.0 w g 0 1 600 300 0 run running no 2.0
= allocation 3.0 w g 0 1 600 300 0 run running no 2.0
fault 64
set 31 4
fault 64
set 71 4
fault 64
set 71 5
load
fork";

// Each table has at most so many rows; what is behind a greater count is not read.
const LONGER_TABLES: &str = "\
= state 0
= rows 257
fault 8
clear
= state 0
= rows 0
= rows 65
fault 12
clear
= state 0
= rows 0
= rows 0
= rows 65537
fault 16
clear
= state 0
= rows 0
= rows 0
= rows 0
= rows 65537
fault 20
clear";

/// The plays of texts, each from the empty state.
pub(crate) const PLAYS: &[&[&str]] = &[
    &[EMPTY],
    &[SMALL],
    &[SMALL_READ],
    &[AWAY],
    &[SECOND],
    &[GREAT],
    &[SMALL_TEXT, ORDERS, LONGER_TABLES],
    &[OLD, OLD_WITH_DISK],
];
