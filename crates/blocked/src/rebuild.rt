//! The blocked evaluations of a whole state.
ghost use Rattle.std.specs.Prelude.{◌≡◌, ◌≤◌, true, IfOk, OnErr, filter, length, map};
ghost use Rattle.std.specs.List.{list_any};
ghost use Rattle.fsm_model.specs.Words.{is_blocked};
ghost use Rattle.group_model.specs.Blocked.{blocked_eval, room_over};
ghost use Rattle.blocked.specs.Rooms.{room_in};

use crate::held::BlockedEval;
use crate::rooms::Rooms;
use fsm_state::Cluster;
use fsm_tables::{ReservedTable, Table};
use rows::{ClassName, EvalStatus, Evaluation, Job, NoMemory, Node, Sequence};
use std::alloc::Global;

/// Whether an evaluation is blocked.
pub(crate) fn is_blocked(row: &Evaluation) -> bool
    ensures { result ≡ is_blocked row.now.status }
{
    match row.status {
        EvalStatus::Blocked => true,
        EvalStatus::Pending | EvalStatus::Complete | EvalStatus::Failed => false,
    }
}

/// The classes that the groups of a job ask for.
pub(crate) fn classes_of(alloc: Global, job: &Job) -> Result<Sequence<ClassName>, NoMemory>
    ensures { IfOk result (λ classes. classes ≡ map (λ g. g.class) job.now.groups) }
{
    let mut classes = Sequence::new(alloc);
    for group in job.groups.as_slice() {
        classes.push(group.class)?;
    }
    Ok(classes)
}

/// A blocked evaluation of a state.
pub(crate) fn held_of(
    alloc: Global,
    state: &Cluster,
    row: &Evaluation,
) -> Result<BlockedEval, NoMemory>
    ensures { IfOk result (λ held. held ≡ blocked_eval state.now row.now) }
{
    let classes = match state.job(&row.job) {
        Some(job) => classes_of(alloc, job)?,
        None => Sequence::new(alloc),
    };
    Ok(BlockedEval { row: *row, classes })
}

/// The blocked evaluations of a state, in rising id.
pub(crate) fn evals_of(
    alloc: Global,
    state: &Cluster,
) -> Result<ReservedTable<BlockedEval>, NoMemory>
    ensures ok { let blocked = filter (λ e. is_blocked e.status) state.now.evals in
        IfOk result (λ evals. evals.rows ≡ map (blocked_eval state.now) blocked) }
    ensures memory { OnErr result (list_any (λ e. is_blocked e.status) state.now.evals ≡ true) }
{
    let table = state.eval_table();
    table.ranges();
    let mut held = Vec::new(alloc);
    for row in table.rows() {
        if !is_blocked(row) {
            continue;
        }
        held.push(held_of(alloc, state, row)?)?;
    }
    Ok(ReservedTable::of_rising(held))
}

/// The room that nodes of a class got last.
pub(crate) fn rooms_of(alloc: Global, nodes: &Table<Node>) -> Result<Rooms, NoMemory>
    ensures ok { IfOk result (λ rooms. room_in rooms ≡ room_over nodes.now) }
    ensures memory { OnErr result (1 ≤ length nodes.now) }
{
    let mut rooms = Rooms::none(alloc);
    let mut at = nodes.len();
    while at > 0 {
        at -= 1;
        let Some(row) = nodes.at(at) else {
            unreachable!()
        };
        rooms.note(&row.class, row.room)?;
    }
    Ok(rooms)
}
