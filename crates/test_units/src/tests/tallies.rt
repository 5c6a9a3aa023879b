//! The tally as it is played: what it admits, and its texts.
use crate::tests::states::{Played, numbers, play};
use machine::{Machine, Tally};
use std::alloc::Global;

// `is-at COUNT SUM`: so many commands, and their sum.
impl Played for Tally {
    fn holds(&self, _alloc: Global, verb: char, words: &str) -> bool {
        let [count, sum, _, _] = numbers(words);
        verb == 'T' && self.count() == count as u64 && usize::from(self.sum()) == sum
    }
}

// It adds up to 1,000. What is not admitted is counted, and adds nothing.
const ADDITIONS: &str = "\
take noop
is-at 1 0
= raw 0 0 0 0 0 0 0 1 0 0
same
take add 999
is-at 2 999
= raw 0 0 0 0 0 0 0 2 3 231
same
take add 1
is-at 3 1000
= raw 0 0 0 0 0 0 0 3 3 232
same
12 add 1
force add 1
is-at 4 1000
= raw 0 0 0 0 0 0 0 4 3 232
same";

// The text of the tally of one command that adds 1,000; with a byte more; and cut. Those of older
// versions are as today's.
const TEXTS: &str = "\
take add 1000
is-at 1 1000
= raw 0 0 0 0 0 0 0 1 3 232
same
take noop
= raw 0 0 0 0 0 0 0 1 3 232
load
is-at 1 1000
= raw 0 0 0 0 0 0 0 1 3 232 0
fault 10
clear
= raw 0 0 0 0 0 0 0 1 3 232
cuts 0 8 10
clear
take noop
= raw 0 0 0 0 0 0 0 1 3 232
old-load 1
is-at 1 1000
take noop
= raw 0 0 0 0 0 0 0 1 3 232
old-load 2
is-at 1 1000
= raw 0 0 0 0 0 0 0 1 3 232 0
old-fault 1 10
old-fault 2 10
clear";

// Commands, whatever follows: one that adds 1,000, the no-op, and one that would add 1,001. Those
// of older versions are as today's.
const COMMANDS: &str = "\
= raw 1 3 232 9
command 3
= raw 0 9
command 1
= raw 1 3 233
bad 1
= raw 1 3 232 9
old-command 1 add 1000
= raw 1 3 232 9
old-command 2 add 1000";

#[test]
fn tallies_are_as_they_are_played(rt: HostRuntime) {
    let alloc = rt.alloc();
    for table in [ADDITIONS, TEXTS, COMMANDS] {
        play(&rt, alloc, Tally::empty(alloc), &[table]);
    }
}
