//! The replicated state as it is played: what numbers say of it, its lists, and its look-ups.
use crate::tests::lines::put_pair;
use crate::tests::states::{Played, is_text, numbers, play};
use crate::tests::{
    admission, commands, desks, effects, full_tables, plan_checks, state_texts, workers,
};
use fields::{RuledField, read_whole, write, write_long_list};
use fsm_state::Cluster;
use fsm_tables::{AllocName, Tables};
use machine::Machine;
use rows::{
    AllocId, Allocation, Command, EvalId, EvalStatus, NoMemory, NodeId, Sequence, StatusChange,
    Version,
};
use std::alloc::Global;

// `counts JOBS NODES EVALUATIONS ALLOCATIONS`: so many rows. `applied N`: so many commands. `used
// NODE CPU MEMORY DISK`: of the node. `live ID`: the allocation is the live one of its name. `dead
// ID`: none is live under its name. `fork`: a copy has the same text. `copies N STEP`: of so many
// copies each has an evaluation pending that the state completed after it, each the STEPth behind
// the one before. `lists`: the lists of its rows are its text, each row is found by its key, and
// its one allocation is put into other tables. `accept WAIT PLAN = ANSWER`: of the plan this is
// kept. Others are of the parts of a desk over it, and of workers.
impl Played for Cluster {
    fn holds(&self, alloc: Global, verb: char, words: &str) -> bool {
        let [first, second, third, fourth] = numbers(words);
        match verb {
            'C' => has_counts(self, [first, second, third, fourth]),
            'A' => self.count() == first as u64 && self.applied().get() == first as u64,
            'U' => uses(self, first, [second as u64, third as u64, fourth as u64]),
            'L' => lives(self, id_of(alloc, words), true),
            'D' => lives(self, id_of(alloc, words), false),
            'F' => match self.fork() {
                Ok(copy) => is_same(self, &copy, alloc),
                Err(_) => false,
            },
            'E' => has_copies(self, alloc, first, second),
            'S' => lists(self, alloc) && finds_rows(self) && puts_allocations(self, alloc),
            'Y' => plan_checks::accepts(self, alloc, words),
            'P' | 'W' => workers::holds(self, alloc, verb, words),
            _ => desks::holds(self, alloc, verb, words),
        }
    }
}

fn has_counts(state: &Cluster, counts: [usize; 4]) -> bool {
    let found = [
        state.job_table().len(),
        state.node_table().len(),
        state.eval_table().len(),
        state.alloc_table().len(),
    ];
    found == counts
}

fn uses(state: &Cluster, node: usize, usage: [u64; 3]) -> bool {
    match NodeId::from_number(node.min(255) as u8) {
        Some(node) => {
            let used = state.used(node);
            [used.cpu(), used.mem(), used.disk()] == usage
        }
        None => false,
    }
}

fn id_of(alloc: Global, words: &str) -> Option<AllocId> {
    let mut bytes = Vec::new(alloc);
    if put_pair(&mut bytes, words, 1) {
        read_whole(Version::newest(), alloc, &bytes).ok()
    } else {
        None
    }
}

fn lives(state: &Cluster, id: Option<AllocId>, wanted: bool) -> bool {
    let Some(id) = id else {
        return false;
    };
    let Some(row) = state.alloc(id) else {
        return false;
    };
    match state.live_named(&AllocName::of(row)) {
        Some(live) => wanted && live.id == id,
        None => !wanted,
    }
}

fn is_same(state: &Cluster, copy: &Cluster, alloc: Global) -> bool {
    let mut text = Vec::new(alloc);
    state.save(&mut text).is_ok() && is_text(copy, alloc, &text)
}

// One more copy, after which the state completes an evaluation.
fn copy_once(state: &mut Cluster, id: EvalId) -> Option<Cluster> {
    let copy = state.fork().ok()?;
    let complete = Command::EvalStatus(id, StatusChange::Complete);
    if state.count() < 1_000_000 && state.apply(&complete).is_ok() {
        Some(copy)
    } else {
        None
    }
}

fn has_status(state: &Cluster, id: EvalId, status: EvalStatus) -> bool {
    match state.eval(id) {
        Some(row) => row.status == status,
        None => false,
    }
}

// Copies that are kept stay as they were, and are no more than the pages that were changed.
fn has_copies(state: &Cluster, alloc: Global, count: usize, step: usize) -> bool {
    let Ok(mut own) = state.fork() else {
        return false;
    };
    let mut copies = Vec::new(alloc);
    for place in 0..count {
        let Some(row) = state.eval_table().at(place.saturating_mul(step)) else {
            return false;
        };
        let Some(copy) = copy_once(&mut own, row.id) else {
            return false;
        };
        if copies.push((row.id, copy)).is_err() {
            return false;
        }
    }
    let mut kept = true;
    for (id, copy) in &copies {
        kept = kept
            && has_status(copy, *id, EvalStatus::Pending)
            && has_status(&own, *id, EvalStatus::Complete);
    }
    kept
}

fn put_list<T: RuledField + Drop>(rows: Result<Sequence<T>, NoMemory>, out: &mut Vec<u8>) -> bool {
    match rows {
        Ok(rows) => rows.len() < 65537 && write_long_list(&rows, 65536, out).is_ok(),
        Err(_) => false,
    }
}

fn lists(state: &Cluster, alloc: Global) -> bool {
    let mut text = Vec::new(alloc);
    write(&state.applied(), &mut text).is_ok()
        && put_list(state.jobs(alloc), &mut text)
        && put_list(state.nodes(alloc), &mut text)
        && put_list(state.evals(alloc), &mut text)
        && put_list(state.allocs(alloc), &mut text)
        && is_text(state, alloc, &text)
}

// Each row is found by its key.
fn finds_rows(state: &Cluster) -> bool {
    let mut found = true;
    for row in state.job_table().rows() {
        found = found && state.job(&row.name).is_some();
    }
    for row in state.node_table().rows() {
        found = found && state.node(row.number).is_some();
    }
    for row in state.eval_table().rows() {
        found = found && state.eval(row.id).is_some();
    }
    found
}

// Whether these are the row of the id, and no other.
fn is_alone(rows: Result<Sequence<Allocation>, NoMemory>, id: AllocId) -> bool {
    match rows {
        Ok(rows) => match rows.as_slice() {
            [row] => row.id == id,
            _ => false,
        },
        Err(_) => false,
    }
}

// Whether the look-ups of live rows find this one alone, and what is in use is its size.
fn finds_alone(tables: &Tables, row: &Allocation) -> bool {
    let usage = tables.used(row.node);
    is_alone(tables.all_live_named(&AllocName::of(row)), row.id)
        && is_alone(tables.live_of_job(&row.job), row.id)
        && is_alone(tables.live_on(row.node), row.id)
        && is_alone(tables.active_on(row.node), row.id)
        && usage.cpu() == 600
        && usage.mem() == 300
        && usage.disk() == 50
        && tables.allocs().len() == 1
}

// An allocation that is put again counts once, for what is in use too.
fn puts_allocations(state: &Cluster, alloc: Global) -> bool {
    let mut tables = Tables::empty(alloc);
    let mut put = true;
    for row in state.alloc_table().rows() {
        put = put
            && tables.put_alloc(*row).is_ok()
            && tables.put_alloc(*row).is_ok()
            && finds_alone(&tables, row);
    }
    put
}

#[test]
fn states_are_as_they_are_played(rt: HostRuntime) {
    let alloc = rt.alloc();
    play(&rt, alloc, Cluster::new(alloc), commands::PLAYS);
    play(&rt, alloc, Cluster::new(alloc), admission::PLAYS);
    for plays in [
        effects::PLAYS,
        full_tables::PLAYS,
        state_texts::PLAYS,
        desks::PLAYS,
        plan_checks::PLAYS,
        workers::PLAYS,
    ] {
        for tables in plays {
            play(&rt, alloc, Cluster::empty(alloc), tables);
        }
    }
}
