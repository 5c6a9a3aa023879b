//! Logs of which a snapshot covers the first entries: each call, with entries behind those and with
//! none.
ghost use Rattle.std.specs.Prelude.{◌≡◌, ◌≤◌, length, take, IfSome};
ghost use Rattle.raft_snapshot.specs.Bases.{state_from};

use crate::tests::states::numbers;
use machine::{Amount, Coded, Entry, Machine, Tally, TallyCommand};
use raft_snapshot::{Log, Snapshot, Stable, append_entries, apply_range, project, project_next};
use rows::{Index, ServerId, Term, Version};
use std::alloc::Global;

// Each line has to hold. `add T K`: an entry of term T, which adds K, comes to the end. `cut I`:
// the entry at I goes with all behind it. `replace I T K`: two such entries come behind I. `compact
// I`: what is up to I is covered, by the state after it. `install I T S`: a snapshot of I entries,
// the last of term T, with the sum S.
//
// `is L T C S`: the last index and its term, how many are covered, and the sum after these. `term I
// T`: the entry at I has term T. `lost I`: its term is not known. `holds I T`, `without I T`:
// whether there is an entry of that term. `behind I N T`: N entries are behind I, the first of term
// T. `takes I N`, `refuses I N`: whether a snapshot of I entries has a state of N commands.
//
// C entries are committed, those that are covered among them. `stays C I T`, `moves C I T`:
// whether what stands at I stays where a leader names term T there. `state C S`: the machine after
// the first C has the sum S. `project C S`: a fork of that one, brought on to the end of the log,
// has the sum S, and the machine itself is as it was. `brought S`: the machine after all entries
// but the last, brought on by that one, has the sum S. `append_entries C R P T`: two entries of
// term T come behind P, which add 1 and 2, and R are committed then; the machine is the one after
// the first R, as `state` has it.
const FROM_NOTHING: &str = "\
is 0 0 0 0
term 0 0
term 1 0
holds 0 0
without 1 0
behind 0 0 0
add 1 0
add 1 5
add 2 6
add 2 7
is 4 2 0 0
term 2 1
term 3 2
term 5 0
compact 3
is 4 2 3 11
term 0 0
lost 1
lost 2
term 3 2
term 4 2
term 5 0
holds 3 2
without 3 1
holds 4 2
without 5 0
behind 3 1 2
behind 4 0 0
behind 9 0 0";

// The snapshot covers three entries, with one behind it, and then with none.
const CUT_AND_REPLACED: &str = "\
add 3 1
is 5 3 3 11
behind 3 2 2
behind 4 1 3
cut 5
is 4 2 3 11
cut 9
is 4 2 3 11
replace 4 4 2
is 6 4 3 11
replace 3 3 4
is 5 3 3 11
cut 4
is 3 2 3 11
term 3 2
lost 2
add 3 4
compact 3
is 4 3 3 11
compact 4
is 4 3 4 15
term 4 3
term 5 0
lost 3
behind 4 0 0
holds 4 3
without 4 2
cut 5
is 4 3 4 15
replace 4 4 1
is 6 4 4 15";

// What follows a snapshot is kept where the log holds its last entry, else it goes.
const INSTALLED: &str = "\
install 5 4 77
is 6 4 5 77
behind 5 1 4
term 5 4
lost 4
install 6 3 80
is 6 3 6 80
behind 6 0 0
add 3 1
install 7 2 1
is 7 2 7 1
add 5 9
install 9 5 33
is 9 5 9 33
add 6 1
install 9 5 34
is 10 6 9 34
install 9 4 35
is 9 4 9 35
add 4 1
install 10 4 36
is 10 4 10 36
takes 1 1
refuses 0 0
refuses 1 2
refuses 2 1";

// Nothing is covered. Entries come into an empty log, in place of others, and late. Where entries
// of their terms are there already, those stay, with their own amounts.
const ADOPTED_FROM_NOTHING: &str = "\
state 0 0
project 0 0
stays 0 0 5
moves 0 1 1
moves 0 1 0
adopt 0 0 0 2
is 2 2 0 0
state 0 0
state 1 1
state 2 3
project 0 3
brought 3
stays 1 0 9
stays 1 1 9
stays 1 2 2
moves 1 2 1
moves 1 3 2
stays 0 1 2
moves 0 1 9
add 2 40
add 3 300
add 3 500
state 3 43
state 4 343
state 5 843
project 1 843
brought 843
adopt 0 3 2 4
is 4 4 0 0
term 2 2
term 3 4
state 2 3
state 3 4
state 4 6
project 3 6
brought 6
adopt 3 4 2 4
is 4 4 0 0
state 4 6
add 5 60
add 5 200
adopt 4 6 4 5
is 6 5 0 0
state 5 66
state 6 266
project 4 266
project 6 266
brought 266
adopt 6 6 0 9
is 6 5 0 0
state 6 266
cut 1
is 0 0 0 0";

// The snapshot covers twelve entries, with none behind it, and then with some. What comes for a
// covered or a committed entry is passed over, whatever its term.
const ADOPTED_OVER_A_BASE: &str = "\
install 12 7 100
is 12 7 12 100
state 12 100
project 12 100
stays 12 12 1
stays 12 5 1
moves 12 13 7
moves 12 13 0
adopt 12 12 3 9
is 12 7 12 100
state 12 100
adopt 12 12 10 9
is 12 7 12 100
state 12 100
adopt 12 12 11 8
is 13 8 12 100
state 12 100
state 13 102
project 12 102
brought 102
add 8 30
add 9 400
add 9 300
is 16 9 12 100
state 14 132
state 15 532
state 16 832
project 12 832
project 13 832
project 16 832
brought 832
stays 13 12 1
stays 13 13 1
stays 13 14 8
moves 13 14 9
stays 13 15 9
moves 13 15 8
moves 13 17 9
moves 13 17 0
stays 12 13 8
moves 12 13 7
adopt 12 13 12 8
is 16 9 12 100
state 13 102
state 16 832
adopt 13 14 13 8
is 15 8 12 100
state 14 132
state 15 134
project 14 134
brought 134
add 10 50
state 16 184
adopt 14 14 15 11
is 17 11 12 100
state 14 132
state 17 137
adopt 14 17 15 14
is 17 14 12 100
state 15 134
state 16 135
state 17 137
project 14 137
project 17 137
brought 137
add 14 5
add 15 70
adopt 17 19 17 14
is 19 14 12 100
state 18 142
state 19 144
adopt 19 19 4 6
is 19 14 12 100
state 19 144";

fn tally(alloc: Global, count: usize, sum: usize) -> Option<Tally> {
    let mut text = Vec::new(alloc);
    if text
        .extend_from_slice(&(count as u64).to_be_bytes())
        .is_err()
    {
        return None;
    }
    if text
        .extend_from_slice(&(sum.min(65535) as u16).to_be_bytes())
        .is_err()
    {
        return None;
    }
    Tally::load(Version::newest(), alloc, &text).ok()
}

fn snapshot(
    alloc: Global,
    index: usize,
    term: usize,
    count: usize,
    sum: usize,
) -> Option<Snapshot<Tally>> {
    let state = tally(alloc, count, sum)?;
    Snapshot::new(Index::new(index as u64)?, Term::new(term as u64)?, state)
}

fn entry(term: usize, amount: usize) -> Entry<Coded<Tally>> {
    let amount = Amount::new(amount.min(1000) as u16).unwrap_or(Amount::ZERO);
    Entry {
        term: Term::new(term as u64).unwrap_or(Term::ZERO),
        command: Coded::new(TallyCommand::Add(amount)),
    }
}

fn appended(log: &mut Log<Tally>, term: usize, amount: usize) -> bool {
    log.last().get() + 1 < Index::LIMIT && log.append(entry(term, amount)).is_ok()
}

fn cut(log: &mut Log<Tally>, index: usize) -> bool {
    if index as u64 <= log.covered().get() {
        return false;
    }
    log.cut_from(index as u64);
    true
}

fn replaced(log: &mut Log<Tally>, alloc: Global, index: usize, term: usize, amount: usize) -> bool {
    let index = index as u64;
    let Ok(more) = vec![in alloc; entry(term, amount), entry(term, amount)] else {
        return false;
    };
    index >= log.covered().get()
        && index <= log.last().get()
        && index + 2 < Index::LIMIT
        && log.replace_behind(index, more).is_ok()
}

fn apply_each(state: &mut Tally, entries: &[Entry<Coded<Tally>>]) -> bool {
    for entry in entries {
        if state.count() > 1_000_000 || state.apply(entry.command.command()).is_err() {
            return false;
        }
    }
    true
}

fn compacted(log: &mut Log<Tally>, index: usize) -> bool {
    let covered = log.covered().get();
    let index = index as u64;
    let (Ok(mut state), Some(place)) = (log.state().fork(), Index::new(index)) else {
        return false;
    };
    if index == 0 || index < covered || index > log.last().get() {
        return false;
    }
    let Some(part) = log.behind(covered).get(..(index - covered) as usize) else {
        return false;
    };
    if !apply_each(&mut state, part) || state.count() != index {
        return false;
    }
    log.compact(place, state);
    true
}

fn installed(log: &mut Log<Tally>, alloc: Global, index: usize, term: usize, sum: usize) -> bool {
    let Some(snapshot) = snapshot(alloc, index, term, index, sum) else {
        return false;
    };
    if snapshot.index().get() < log.covered().get() {
        return false;
    }
    log.install(snapshot);
    true
}

fn is_as(log: &Log<Tally>, last: usize, term: usize, covered: usize, sum: usize) -> bool {
    let base = log.snapshot();
    log.last().get() == last as u64
        && log.last_term().get() == term as u64
        && log.covered().get() == covered as u64
        && base.index().get() == covered as u64
        && log.state().count() == covered as u64
        && usize::from(base.state().sum()) == sum
        && log.term_at(covered as u64) == Some(base.term())
}

fn holds(log: &Log<Tally>, index: usize, term: usize) -> bool {
    match Term::new(term as u64) {
        Some(term) => index as u64 >= log.covered().get() && log.holds(index as u64, term),
        None => false,
    }
}

fn is_behind(log: &Log<Tally>, index: usize, count: usize, term: usize) -> bool {
    if (index as u64) < log.covered().get() {
        return false;
    }
    let rest = log.behind(index as u64);
    let first = match rest.first() {
        Some(entry) => entry.term.get(),
        None => 0,
    };
    rest.len() == count && first == term as u64
}

fn stays(log: &Log<Tally>, commit: usize, index: usize, term: usize) -> Option<bool> {
    let term = Term::new(term as u64)?;
    if (commit as u64) < log.covered().get() {
        return None;
    }
    Some(log.stays(commit as u64, index as u64, term))
}

// The machine after so many entries; none where they are fewer than are covered, or than there are.
fn state_at<M: Machine>(log: &Log<M>, to: u64) -> Option<M>
    ensures covered { IfSome result (λ m. log.now.base.index ≤ to) }
    ensures within { IfSome result (λ m. to ≤ length log.now.entries) }
    ensures state { IfSome result (λ m. m
        ≡ state_from M.spec log.now.base (take to log.now.entries)) }
{
    let covered = log.covered().get();
    if to < covered || to > log.last().get() {
        return None;
    }
    let Ok(mut state) = log.state().fork() else {
        return None;
    };
    match apply_range(&mut state, log, covered, to) {
        Ok(()) => Some(state),
        Err(_) => None,
    }
}

fn has(state: &Tally, count: u64, sum: usize) -> bool {
    state.count() == count && usize::from(state.sum()) == sum
}

fn is_at(log: &Log<Tally>, to: usize, sum: usize) -> bool {
    match state_at(log, to as u64) {
        Some(state) => has(&state, to as u64, sum),
        None => false,
    }
}

fn projects(log: &Log<Tally>, commit: usize, sum: usize) -> bool {
    let commit = commit as u64;
    let Some(state) = state_at(log, commit) else {
        return false;
    };
    let before = usize::from(state.sum());
    match project(&state, commit, log) {
        Ok(ahead) => has(&ahead, log.last().get(), sum) && has(&state, commit, before),
        Err(_) => false,
    }
}

fn brings(log: &Log<Tally>, sum: usize) -> bool {
    let last = log.last().get();
    if last <= log.covered().get() {
        return false;
    }
    let mut ahead = state_at(log, last - 1);
    project_next(&mut ahead, log);
    match ahead {
        Some(state) => has(&state, last, sum),
        None => false,
    }
}

fn adopted(
    log: &mut Log<Tally>,
    alloc: Global,
    commit: usize,
    risen: usize,
    prev: usize,
    term: usize,
) -> bool {
    let (commit, risen, prev) = (commit as u64, risen as u64, prev as u64);
    let Some(mut state) = state_at(log, commit) else {
        return false;
    };
    let Ok(entries) = vec![in alloc; entry(term, 1), entry(term, 2)] else {
        return false;
    };
    if prev > log.last().get() || prev + 2 >= Index::LIMIT {
        return false;
    }
    if risen < commit || risen > commit.max(prev + 2) {
        return false;
    }
    append_entries(log, &mut state, commit, risen, prev, entries).is_ok()
        && state.count() == risen
        && is_at(log, risen as usize, usize::from(state.sum()))
}

fn turn(log: &mut Log<Tally>, alloc: Global, line: &str) -> bool {
    let (head, rest) = line.split_once(' ').unwrap_or((line, ""));
    let [a, b, c, d] = numbers(rest);
    match head {
        "add" => appended(log, a, b),
        "cut" => cut(log, a),
        "replace" => replaced(log, alloc, a, b, c),
        "compact" => compacted(log, a),
        "install" => installed(log, alloc, a, b, c),
        "is" => is_as(log, a, b, c, d),
        "term" => log.term_at(a as u64) == Term::new(b as u64),
        "lost" => log.term_at(a as u64).is_none(),
        "holds" => holds(log, a, b),
        "without" => !holds(log, a, b),
        "behind" => is_behind(log, a, b, c),
        "takes" => snapshot(alloc, a, 1, b, 0).is_some(),
        "refuses" => snapshot(alloc, a, 1, b, 0).is_none(),
        "stays" => stays(log, a, b, c) == Some(true),
        "moves" => stays(log, a, b, c) == Some(false),
        "state" => is_at(log, a, b),
        "project" => projects(log, a, b),
        "brought" => brings(log, a),
        "adopt" => adopted(log, alloc, a, b, c, d),
        _ => false,
    }
}

#[test]
fn logs_are_as_they_are_played(rt: HostRuntime) {
    let alloc = rt.alloc();
    let (_, _, mut log) = Stable::new(alloc).into_parts();
    for table in [
        ADOPTED_FROM_NOTHING,
        FROM_NOTHING,
        CUT_AND_REPLACED,
        INSTALLED,
        ADOPTED_OVER_A_BASE,
    ] {
        for line in table.lines() {
            assert!(rt; turn(&mut log, alloc, line), "{line}");
        }
    }
    let vote = ServerId::from_number(2);
    let stored = Stable::from_parts(Term::ZERO.next(), vote, log);
    let (term, voted, log) = stored.into_parts();
    assert!(rt; term.get() == 1 && voted == vote && is_as(&log, 19, 14, 12, 100));
}
