//! Single servers and their snapshots: what each makes of one that comes, what it keeps of its own,
//! and what a leader sends to one that lacks what is covered. (Raft, extended version 2014, section
//! 7 and Figure 13.)
use crate::tests::servers::{
    Act, Case, Frame, LEADS, NOT_OK, OF_1_1, OF_2, OF_2_2_2, OF_NONE, OK_2, OK_3, RaftTurn, TAKEN,
    YES, is_played,
};
use Act::{Ahead, Beat, Compact, Crash, Hear, Propose, Reload, Restart, Timeout};

// Of an answer to an Append: the log is held up to a place.
const OK_6: &[u8] = &[1, 0, 0, 0, 0, 0, 0, 0, 6];

const OK_7: &[u8] = &[1, 0, 0, 0, 0, 0, 0, 0, 7];

const OK_8: &[u8] = &[1, 0, 0, 0, 0, 0, 0, 0, 8];

// Of an Append: eight no-ops of term 1; three of term 1 and one of term 2; a command of term 3 that
// adds 5.
const OF_EIGHT: &[u8] = &[
    8, 0, 0, 0, 0, 0, 0, 0, 1, 0, 0, 0, 0, 0, 0, 0, 0, 1, 0, 0, 0, 0, 0, 0, 0, 0, 1, 0, 0, 0, 0, 0,
    0, 0, 0, 1, 0, 0, 0, 0, 0, 0, 0, 0, 1, 0, 0, 0, 0, 0, 0, 0, 0, 1, 0, 0, 0, 0, 0, 0, 0, 0, 1, 0,
    0, 0, 0, 0, 0, 0, 0, 1, 0,
];

const OF_1_1_1_2: &[u8] = &[
    4, 0, 0, 0, 0, 0, 0, 0, 1, 0, 0, 0, 0, 0, 0, 0, 0, 1, 0, 0, 0, 0, 0, 0, 0, 0, 1, 0, 0, 0, 0, 0,
    0, 0, 0, 2, 0,
];

const OF_ADD_5: &[u8] = &[1, 0, 0, 0, 0, 0, 0, 0, 3, 1, 0, 5];

// Of an Install: the state after so many commands, which add nothing, and one whose five add 7.
const NONE_YET: &[u8] = &[0, 0, 0, 0, 0, 0, 0, 0, 0, 0];

const TWO: &[u8] = &[0, 0, 0, 0, 0, 0, 0, 2, 0, 0];

const FOUR: &[u8] = &[0, 0, 0, 0, 0, 0, 0, 4, 0, 0];

const FIVE: &[u8] = &[0, 0, 0, 0, 0, 0, 0, 5, 0, 0];

const SIX: &[u8] = &[0, 0, 0, 0, 0, 0, 0, 6, 0, 0];

const FIVE_7: &[u8] = &[0, 0, 0, 0, 0, 0, 0, 5, 0, 7];

// Server 2 has eight entries of term 1, of which five are committed.
const HAS_EIGHT: &[RaftTurn] = &[(
    Hear(Frame(3, 1, 2, 105, &[1, 0, 0, 5], OF_EIGHT)),
    TAKEN,
    [1, 1, 8, 5, 1],
    1,
    &[Frame(4, 2, 1, 25, &[1, 1], OK_8)],
)];

// Server 1 has three entries of term 2, of which none is committed.
const HAS_THREE: &[RaftTurn] = &[(
    Hear(Frame(3, 2, 1, 60, &[2, 0, 0, 0], OF_2_2_2)),
    TAKEN,
    [1, 2, 3, 0, 2],
    1,
    &[Frame(4, 1, 2, 25, &[2, 2], OK_3)],
)];

// A snapshot comes.
const RECEIVED: &[Case] = &[
    // At or below the commit index it changes nothing, and is answered.
    (
        2,
        3,
        HAS_EIGHT,
        &[
            (
                Hear(Frame(5, 1, 2, 34, &[1, 4, 1], FOUR)),
                TAKEN,
                [1, 1, 8, 5, 1],
                1,
                &[Frame(6, 2, 1, 24, &[1, 1, 4], &[])],
            ),
            (Crash, TAKEN, [0, 1, 8, 99, 0], 0, &[]),
            (Restart, TAKEN, [1, 1, 8, 0, 0], 0, &[]),
        ],
    ),
    // Above it, what follows is kept where its last entry is held. The next Append begins within
    // what is covered.
    (
        2,
        3,
        HAS_EIGHT,
        &[
            (
                Hear(Frame(5, 1, 2, 34, &[1, 6, 1], SIX)),
                TAKEN,
                [1, 1, 8, 6, 1],
                1,
                &[Frame(6, 2, 1, 24, &[1, 1, 6], &[])],
            ),
            (
                Hear(Frame(5, 1, 2, 34, &[1, 6, 1], SIX)),
                TAKEN,
                [1, 1, 8, 6, 1],
                1,
                &[Frame(6, 2, 1, 24, &[1, 1, 6], &[])],
            ),
            (Crash, TAKEN, [0, 1, 8, 99, 0], 0, &[]),
            (Restart, TAKEN, [1, 1, 8, 6, 0], 0, &[]),
            (Reload, TAKEN, [1, 1, 8, 6, 0], 0, &[]),
            (
                Hear(Frame(3, 1, 2, 51, &[1, 5, 1, 7], OF_1_1)),
                TAKEN,
                [1, 1, 8, 7, 1],
                1,
                &[Frame(4, 2, 1, 25, &[1, 1], OK_7)],
            ),
        ],
    ),
    // Where the log is shorter it goes, and the next entry stands behind the snapshot.
    (
        1,
        3,
        HAS_THREE,
        &[
            (
                Hear(Frame(5, 2, 1, 34, &[2, 5, 2], FIVE_7)),
                TAKEN,
                [1, 2, 5, 5, 2],
                1,
                &[Frame(6, 1, 2, 24, &[2, 2, 5], &[])],
            ),
            (
                Hear(Frame(3, 2, 1, 42, &[2, 5, 2, 5], OF_2)),
                TAKEN,
                [1, 2, 6, 5, 2],
                1,
                &[Frame(4, 1, 2, 25, &[2, 2], OK_6)],
            ),
            (Reload, TAKEN, [1, 2, 6, 5, 0], 0, &[]),
        ],
    ),
    // With nothing behind it the snapshot's last entry is the log's, as it says when it stands.
    (
        1,
        3,
        &[],
        &[
            (
                Hear(Frame(5, 2, 1, 34, &[3, 5, 2], FIVE_7)),
                TAKEN,
                [1, 3, 5, 5, 2],
                1,
                &[Frame(6, 1, 2, 24, &[3, 3, 5], &[])],
            ),
            (
                Timeout,
                TAKEN,
                [2, 4, 5, 5, 0],
                2,
                &[Frame(1, 1, 2, 24, &[4, 5, 2], &[])],
            ),
        ],
    ),
    // Where the log holds that place with another term, all of it goes.
    (
        1,
        3,
        HAS_THREE,
        &[(
            Hear(Frame(5, 2, 1, 34, &[2, 2, 1], TWO)),
            TAKEN,
            [1, 2, 2, 2, 2],
            1,
            &[Frame(6, 1, 2, 24, &[2, 2, 2], &[])],
        )],
    ),
    (
        1,
        3,
        HAS_THREE,
        &[
            (
                Hear(Frame(5, 2, 1, 34, &[2, 2, 2], TWO)),
                TAKEN,
                [1, 2, 3, 2, 2],
                1,
                &[Frame(6, 1, 2, 24, &[2, 2, 2], &[])],
            ),
            (
                Hear(Frame(3, 2, 1, 33, &[2, 3, 2, 3], OF_NONE)),
                TAKEN,
                [1, 2, 3, 3, 2],
                1,
                &[Frame(4, 1, 2, 25, &[2, 2], OK_3)],
            ),
        ],
    ),
    // One of a lower term changes nothing; one of its own makes a candidate follow.
    (
        1,
        3,
        &[],
        &[
            (
                Timeout,
                TAKEN,
                [2, 1, 0, 0, 0],
                2,
                &[Frame(1, 1, 2, 24, &[1, 0, 0], &[])],
            ),
            (
                Timeout,
                TAKEN,
                [2, 2, 0, 0, 0],
                2,
                &[Frame(1, 1, 2, 24, &[2, 0, 0], &[])],
            ),
            (
                Hear(Frame(5, 2, 1, 34, &[1, 5, 1], FIVE)),
                TAKEN,
                [2, 2, 0, 0, 0],
                1,
                &[Frame(6, 1, 2, 24, &[2, 1, 0], &[])],
            ),
            (
                Hear(Frame(5, 3, 1, 34, &[2, 5, 1], FIVE)),
                TAKEN,
                [1, 2, 5, 5, 3],
                1,
                &[Frame(6, 1, 3, 24, &[2, 2, 5], &[])],
            ),
        ],
    ),
    // A leader is silent to one of its own term; in a greater one it follows.
    (
        1,
        5,
        LEADS,
        &[
            (
                Hear(Frame(5, 2, 1, 34, &[3, 5, 3], FIVE)),
                TAKEN,
                [3, 3, 2, 0, 0],
                0,
                &[],
            ),
            (
                Hear(Frame(5, 2, 1, 34, &[2, 5, 2], FIVE)),
                TAKEN,
                [3, 3, 2, 0, 0],
                1,
                &[Frame(6, 1, 2, 24, &[3, 2, 0], &[])],
            ),
            (
                Hear(Frame(5, 2, 1, 34, &[4, 5, 4], FIVE)),
                TAKEN,
                [1, 4, 5, 5, 2],
                1,
                &[Frame(6, 1, 2, 24, &[4, 4, 5], &[])],
            ),
        ],
    ),
    // A state of another count, no entry at all, another receiver; and an answer that nobody asked
    // for.
    (
        1,
        3,
        &[],
        &[
            (
                Hear(Frame(5, 2, 1, 34, &[1, 4, 1], FIVE)),
                (15, 32),
                [1, 0, 0, 0, 0],
                0,
                &[],
            ),
            (
                Hear(Frame(5, 2, 1, 34, &[1, 0, 1], NONE_YET)),
                (15, 16),
                [1, 0, 0, 0, 0],
                0,
                &[],
            ),
            (
                Hear(Frame(5, 2, 3, 34, &[1, 5, 1], FIVE)),
                (15, 3),
                [1, 0, 0, 0, 0],
                0,
                &[],
            ),
            (
                Hear(Frame(6, 2, 1, 24, &[0, 0, 9], &[])),
                TAKEN,
                [1, 0, 0, 0, 0],
                0,
                &[],
            ),
        ],
    ),
];

// A server makes its own.
const COMPACTED: &[Case] = &[
    // Nothing is applied.
    (
        1,
        3,
        &[],
        &[
            (Compact, TAKEN, [1, 0, 0, 0, 0], 0, &[]),
            (Crash, TAKEN, [0, 0, 0, 99, 0], 0, &[]),
            (Compact, (16, 0), [0, 0, 0, 99, 0], 0, &[]),
            (Restart, TAKEN, [1, 0, 0, 0, 0], 0, &[]),
        ],
    ),
    // A follower, twice in a row, and once more when more is applied.
    (
        2,
        3,
        HAS_EIGHT,
        &[
            (Compact, TAKEN, [1, 1, 8, 5, 1], 0, &[]),
            (Compact, TAKEN, [1, 1, 8, 5, 1], 0, &[]),
            (Crash, TAKEN, [0, 1, 8, 99, 0], 0, &[]),
            (Restart, TAKEN, [1, 1, 8, 5, 0], 0, &[]),
            (
                Hear(Frame(3, 1, 2, 33, &[1, 8, 1, 8], OF_NONE)),
                TAKEN,
                [1, 1, 8, 8, 1],
                1,
                &[Frame(4, 2, 1, 25, &[1, 1], OK_8)],
            ),
            (Reload, TAKEN, [1, 1, 8, 5, 0], 0, &[]),
            (
                Hear(Frame(3, 1, 2, 33, &[1, 8, 1, 8], OF_NONE)),
                TAKEN,
                [1, 1, 8, 8, 1],
                1,
                &[Frame(4, 2, 1, 25, &[1, 1], OK_8)],
            ),
            (Compact, TAKEN, [1, 1, 8, 8, 1], 0, &[]),
            (Reload, TAKEN, [1, 1, 8, 8, 0], 0, &[]),
        ],
    ),
    // A candidate, which then leads. Who refuses an Append so far back that its entries are covered
    // gets the snapshot, and then what follows it.
    (
        2,
        3,
        HAS_EIGHT,
        &[
            (
                Timeout,
                TAKEN,
                [2, 2, 8, 5, 0],
                2,
                &[Frame(1, 2, 1, 24, &[2, 8, 1], &[])],
            ),
            (Compact, TAKEN, [2, 2, 8, 5, 0], 0, &[]),
            (
                Hear(Frame(2, 1, 2, 17, &[2, 2], YES)),
                TAKEN,
                [3, 2, 9, 5, 0],
                0,
                &[],
            ),
            (
                Hear(Frame(4, 1, 2, 25, &[2, 2], NOT_OK)),
                TAKEN,
                [3, 2, 9, 5, 0],
                0,
                &[],
            ),
            (
                Beat,
                TAKEN,
                [3, 2, 9, 5, 0],
                2,
                &[
                    Frame(5, 2, 1, 34, &[2, 5, 1], FIVE),
                    Frame(3, 2, 3, 42, &[2, 8, 1, 5], OF_2),
                ],
            ),
            (
                Hear(Frame(6, 1, 2, 24, &[2, 2, 5], &[])),
                TAKEN,
                [3, 2, 9, 5, 0],
                0,
                &[],
            ),
            (
                Beat,
                TAKEN,
                [3, 2, 9, 5, 0],
                2,
                &[
                    Frame(3, 2, 1, 69, &[2, 5, 1, 5], OF_1_1_1_2),
                    Frame(3, 2, 3, 42, &[2, 8, 1, 5], OF_2),
                ],
            ),
        ],
    ),
    // A leader in whose log more stands. An answer to a snapshot counts in its own term, and no
    // further than its log reaches; it counts towards a quorum. What is proposed is weighed against
    // the snapshot's state and what follows.
    (
        1,
        5,
        LEADS,
        &[
            (
                Hear(Frame(4, 2, 1, 25, &[3, 3], OK_2)),
                TAKEN,
                [3, 3, 2, 0, 0],
                0,
                &[],
            ),
            (
                Hear(Frame(4, 3, 1, 25, &[3, 3], OK_2)),
                TAKEN,
                [3, 3, 2, 2, 0],
                0,
                &[],
            ),
            (Propose(5), TAKEN, [3, 3, 3, 2, 0], 0, &[]),
            (Compact, TAKEN, [3, 3, 3, 2, 0], 0, &[]),
            (Ahead(3, 5), TAKEN, [3, 3, 3, 2, 0], 0, &[]),
            (
                Beat,
                TAKEN,
                [3, 3, 3, 2, 0],
                4,
                &[
                    Frame(3, 1, 2, 44, &[3, 2, 3, 2], OF_ADD_5),
                    Frame(3, 1, 3, 44, &[3, 2, 3, 2], OF_ADD_5),
                    Frame(5, 1, 4, 34, &[3, 2, 3], TWO),
                    Frame(5, 1, 5, 34, &[3, 2, 3], TWO),
                ],
            ),
            (
                Hear(Frame(6, 4, 1, 24, &[3, 3, 2], &[])),
                TAKEN,
                [3, 3, 3, 2, 0],
                0,
                &[],
            ),
            (
                Hear(Frame(6, 5, 1, 24, &[3, 2, 2], &[])),
                TAKEN,
                [3, 3, 3, 2, 0],
                0,
                &[],
            ),
            (
                Hear(Frame(6, 5, 1, 24, &[3, 3, 4], &[])),
                TAKEN,
                [3, 3, 3, 2, 0],
                0,
                &[],
            ),
            (
                Beat,
                TAKEN,
                [3, 3, 3, 2, 0],
                4,
                &[
                    Frame(3, 1, 2, 44, &[3, 2, 3, 2], OF_ADD_5),
                    Frame(3, 1, 3, 44, &[3, 2, 3, 2], OF_ADD_5),
                    Frame(3, 1, 4, 44, &[3, 2, 3, 2], OF_ADD_5),
                    Frame(5, 1, 5, 34, &[3, 2, 3], TWO),
                ],
            ),
            (
                Hear(Frame(4, 2, 1, 25, &[3, 3], OK_3)),
                TAKEN,
                [3, 3, 3, 2, 0],
                0,
                &[],
            ),
            (
                Hear(Frame(6, 4, 1, 24, &[3, 3, 3], &[])),
                TAKEN,
                [3, 3, 3, 3, 0],
                0,
                &[],
            ),
            (Compact, TAKEN, [3, 3, 3, 3, 0], 0, &[]),
            (Propose(996), (12, 0), [3, 3, 3, 3, 0], 0, &[]),
            (Propose(995), TAKEN, [3, 3, 4, 3, 0], 0, &[]),
            (Ahead(4, 1000), TAKEN, [3, 3, 4, 3, 0], 0, &[]),
            (
                Hear(Frame(6, 5, 1, 24, &[4, 3, 0], &[])),
                TAKEN,
                [1, 4, 4, 3, 0],
                0,
                &[],
            ),
            (Reload, TAKEN, [1, 4, 4, 3, 0], 0, &[]),
        ],
    ),
];

#[test]
fn acts_by_snapshots(rt: HostRuntime) {
    for cases in [RECEIVED, COMPACTED] {
        for (number, case) in cases.iter().enumerate() {
            assert!(rt; is_played(rt.alloc(), case) == Some(true), "case {number}");
        }
    }
}
