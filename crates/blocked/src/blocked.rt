ghost use Rattle.std.specs.Prelude.{◌≡◌, ◌≤◌, ◌⊎◌, [], true, false, OnOk, OnErr, IfOk, length, map, T as Holds};
ghost use Rattle.std.specs.List.{list_any};
ghost use Rattle.rows.specs.Keys.{eval_cmp};
ghost use Rattle.fsm_tables.specs.Rows.{has_row};
ghost use Rattle.fsm_tables.specs.ReservedTables.{has_space};
ghost use Rattle.fsm_model.specs.Words.{is_blocked};
ghost use Rattle.group_model.specs.Order.{in_order};
ghost use Rattle.group_model.specs.Blocked.{BlockedEval as AnyBlockedEval, blocked_id, due, made_due};
ghost use Rattle.group_model.specs.Blocked.{with_blocked, without_blocked, with_class_room};
ghost use Rattle.group_model.specs.Blocked.{blocked_over, blocked_with_eval, blocked_with_job};
ghost use Rattle.blocked.specs.Rooms.{blocked_of, is_of_job, some_due, with_room_of};

use crate::due::{due_now, due_then};
use crate::held::BlockedEval;
use crate::of_job::{anew_of_job, put_all};
use crate::order::in_order;
use crate::rebuild::{evals_of, held_of, is_blocked, rooms_of};
use crate::rooms::Rooms;
use fsm_state::Cluster;
use fsm_tables::{ReservedTable, Table};
use rows::{ClassName, EvalId, Evaluation, Index, Job, NoMemory, Node, Sequence};
use std::alloc::Global;
use std::marker::Model;

/// The blocked evaluations with the classes that their jobs ask for, and for each class the
/// greatest index at which a node of it got room. An evaluation is due where a node of a class that
/// its job asks for got room past the evaluation's snapshot; else it waits. Contracts see the
/// evaluations in rising id and the rooms in rising class, and speak of what these are. (Nomad
/// documentation, "Scheduling in Nomad": blocked evaluations.)
#[derive(Drop)]
pub struct Blocked {
    evals: ReservedTable<BlockedEval>,
    rooms: Rooms,
}

impl Model for Blocked {
    ghost use Rattle.blocked.specs.Rooms.{BlockedRows};

    ghost Value = { BlockedRows };

    ghost view = { λ b. record { evals = b.evals.rows; rooms = b.rooms } };
}

impl Blocked {
    /// No evaluations, and no room. It takes no memory.
    pub fn new(alloc: Global) -> Blocked
        ensures { result ≡ record { evals = []; rooms = [] } }
    {
        Blocked {
            evals: ReservedTable::empty(alloc),
            rooms: Rooms::none(alloc),
        }
    }

    /// The blocked evaluations of a state, and the room of its nodes.
    pub fn rebuild(alloc: Global, state: &Cluster) -> Result<Blocked, NoMemory>
        ensures ok { IfOk result (λ b. blocked_of b ≡ blocked_over state.now) }
        ensures memory { let blocked = λ (e : Evaluation). is_blocked e.status in
            OnErr result (
            (list_any blocked state.now.evals ≡ true) ⊎ (1 ≤ length state.now.nodes)) }
    {
        let evals = evals_of(alloc, state)?;
        let rooms = rooms_of(alloc, state.node_table())?;
        Ok(Blocked { evals, rooms })
    }

    /// An evaluation is blocked, at a job that asks for these classes; it takes the place of one of
    /// its id, which takes no memory. It is due at once where a node of one of them got room past
    /// its snapshot. Without memory nothing changes.
    pub fn put(&mut self, row: Evaluation, classes: Sequence<ClassName>) -> Result<(), NoMemory>
        ensures ok { OnOk result
            (blocked_of self.new ≡ with_blocked row classes (blocked_of self.old)) }
        ensures err { OnErr result (self.new ≡ self.old) }
        ensures memory { OnErr result (has_row eval_cmp blocked_id row.id self.old.evals ≡ false) }
    {
        let held = BlockedEval { row, classes };
        make_space(&mut self.evals, &held)?;
        self.evals.put(held);
        Ok(())
    }

    /// Follows a row that was made or replaced in this state: one that is blocked is put, with the
    /// classes that its job asks for; any other is taken, which takes no memory. Without memory
    /// nothing changes.
    pub fn changed(
        &mut self,
        alloc: Global,
        row: &Evaluation,
        state: &Cluster,
    ) -> Result<(), NoMemory>
        ensures ok { OnOk result (
            blocked_of self.new ≡ blocked_with_eval state.now row.now (blocked_of self.old)) }
        ensures err { OnErr result (self.new ≡ self.old) }
        ensures memory { OnErr result (is_blocked row.now.status ≡ true) }
    {
        if is_blocked(row) {
            let held = held_of(alloc, state, row)?;
            self.put(held.row, held.classes)
        } else {
            self.take(row.id);
            Ok(())
        }
    }

    /// A job's row was made or replaced: its blocked evaluations are put anew, with the classes
    /// that its groups ask for; where there are none it takes no memory. Without memory nothing
    /// changes.
    pub fn put_job(&mut self, alloc: Global, job: &Job) -> Result<(), NoMemory>
        ensures ok { OnOk result
            (blocked_of self.new ≡ blocked_with_job job.now (blocked_of self.old)) }
        ensures err { OnErr result (self.new ≡ self.old) }
        ensures memory { OnErr result (list_any (is_of_job job.now.name) self.old.evals ≡ true) }
    {
        let anew = anew_of_job(alloc, self.evals.rows(), job)?;
        put_all(&mut self.evals, anew);
        Ok(())
    }

    /// An evaluation is blocked no more, if it was. It takes no memory.
    pub fn take(&mut self, id: EvalId)
        ensures { blocked_of self.new ≡ without_blocked id (blocked_of self.old) }
    {
        self.evals.cut(&id);
    }

    /// A node of the class got room at this index: the ids of just those evaluations that this
    /// makes due, higher priority first and then lower id. Without memory nothing changes.
    pub fn room(
        &mut self,
        alloc: Global,
        class: &ClassName,
        index: Index,
    ) -> Result<Sequence<EvalId>, NoMemory>
        ensures ids { let made = made_due class.now index (blocked_of self.old) in
            IfOk result (λ ids. ids ≡ map blocked_id made) }
        ensures ok { OnOk result
            (blocked_of self.new ≡ with_class_room class.now index (blocked_of self.old)) }
        ensures err { OnErr result (self.new ≡ self.old) }
    {
        let urgencies = due_then(alloc, &self.rooms, class, index, self.evals.rows())?;
        let ids = in_order(alloc, urgencies.as_slice())?;
        self.rooms.note(class, index)?;
        Ok(ids)
    }

    /// The room of these nodes takes the place of what was noted before; it takes time of the
    /// nodes alone, and no memory without nodes. Without memory nothing changes.
    pub fn renew_rooms(&mut self, alloc: Global, nodes: &Table<Node>) -> Result<(), NoMemory>
        ensures ok { OnOk result
            (blocked_of self.new ≡ with_room_of nodes.now (blocked_of self.old)) }
        ensures err { OnErr result (self.new ≡ self.old) }
        ensures memory { OnErr result (1 ≤ length nodes.now) }
    {
        self.rooms = rooms_of(alloc, nodes)?;
        Ok(())
    }

    /// The ids of the evaluations that are due, higher priority first and then lower id; none take
    /// no memory.
    pub fn due(&self, alloc: Global) -> Result<Sequence<EvalId>, NoMemory>
        ensures ok { let priority = λ (b : AnyBlockedEval). b.row.priority in
            let all = in_order priority (due (blocked_of self.now)) in
            IfOk result (λ ids. ids ≡ map blocked_id all) }
        ensures memory { OnErr result (some_due (blocked_of self.now) ≡ true) }
    {
        let urgencies = due_now(alloc, &self.rooms, self.evals.rows())?;
        let ids = in_order(alloc, urgencies.as_slice())?;
        Ok(ids)
    }
}

/// Makes room for an evaluation, unless one of its id is held. Without memory no row changes.
fn make_space(evals: &mut ReservedTable<BlockedEval>, held: &BlockedEval) -> Result<(), NoMemory>
    ensures rows { evals.new.rows ≡ evals.old.rows }
    ensures ok { OnOk result (Holds (has_space eval_cmp blocked_id held.now evals.new)) }
    ensures memory { OnErr result
        (has_row eval_cmp blocked_id held.now.row.id evals.old.rows ≡ false) }
{
    if evals.get(&held.row.id).is_some() {
        return Ok(());
    }
    let count = evals.rows().len() + 1;
    evals.reserve_rows(count)
}
