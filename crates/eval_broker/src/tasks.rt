//! The tasks, with the lists beside them.
ghost use Rattle.std.specs.Prelude.{◌≡◌, ◌≤◌, ◌+◌, OnOk, option_map, length, map, filter, T as Holds};
ghost use Rattle.rows.specs.Keys.{eval_cmp};
ghost use Rattle.rows.specs.Rising.{is_rising};
ghost use Rattle.fsm_tables.specs.Rows.{put};
ghost use Rattle.fsm_tables.specs.ReservedTables.{without, has_space};
ghost use Rattle.group_model.specs.Brokers.{task_id, task_of, next};
ghost use Rattle.eval_broker.specs.Inner.Lists.{AreKept, AreTaskLists, HaveCapacity, is_failed};
ghost use Rattle.eval_broker.specs.Answers.{urgency_of};
ghost use Rattle.group_model.specs.Order.{in_order};

use crate::lists::Lists;
use crate::reserved_tree::ReservedTree;
use crate::task::Task;
use fsm_tables::Urgency;
use rows::{EvalId, NoMemory};

/// The tasks by id, and the lists beside them.
#[derive(Drop)]
pub(crate) struct Tasks {
    pub tasks: ReservedTree<Task>,
    pub lists: Lists,
}

impl Tasks {
    /// The task of an id, if there is one.
    pub fn get(&self, id: &EvalId) -> Option<&Task>
        ensures { option_map (λ t. t.now) result ≡ task_of id.now self.now.tasks.rows }
    {
        self.tasks.get(id)
    }

    /// Makes room for one task more, by means of any task. Without memory no row changes.
    pub fn reserve_rows(&mut self, any: &Task) -> Result<(), NoMemory>
        requires kept { AreKept self.old }
        ensures kept { AreKept self.new }
        ensures rows { self.new.tasks.rows ≡ self.old.tasks.rows }
        ensures tasks { OnOk result (length self.old.tasks.rows + 1 ≤ self.new.tasks.capacity) }
        ensures lists { OnOk result (HaveCapacity (length self.old.tasks.rows + 1) self.new.lists) }
    {
        self.tasks.make_space(*any)?;
        self.lists.reserve_rows(self.tasks.capacity(), any)
    }

    /// Makes or replaces a task. There is room for it, so it takes no memory.
    pub fn put(&mut self, task: Task)
        requires kept { AreKept self.old }
        requires space { Holds (has_space eval_cmp task_id task self.old.tasks) }
        requires capacity { let new = put eval_cmp task_id task self.old.tasks.rows in
            HaveCapacity (length new) self.old.lists }
        ensures kept { AreKept self.new }
        ensures rows { self.new.tasks.rows ≡ put eval_cmp task_id task self.old.tasks.rows }
    {
        self.lists.take_out(&self.tasks, &task.id());
        self.bring_in(task);
    }

    /// Makes or replaces a task of which the lists have nothing. There is room for it, so it takes
    /// no memory.
    pub fn bring_in(&mut self, task: Task)
        requires rising { Holds (is_rising eval_cmp task_id self.old.tasks.rows) }
        requires listed { let others = without eval_cmp task_id task.id self.old.tasks.rows in
            AreTaskLists others self.old.lists }
        requires space { Holds (has_space eval_cmp task_id task self.old.tasks) }
        requires capacity { let new = put eval_cmp task_id task self.old.tasks.rows in
            HaveCapacity (length new) self.old.lists }
        ensures kept { AreKept self.new }
        ensures rows { self.new.tasks.rows ≡ put eval_cmp task_id task self.old.tasks.rows }
    {
        self.lists.add_rank(task.rank());
        self.lists.add_failed(&task);
        self.tasks.put(task);
    }

    /// Takes out the task of an id, if there is one. It takes no memory.
    pub fn cut(&mut self, id: &EvalId)
        requires kept { AreKept self.old }
        ensures kept { AreKept self.new }
        ensures rows { self.new.tasks.rows
            ≡ without eval_cmp task_id id.now self.old.tasks.rows }
    {
        self.lists.take_out(&self.tasks, id);
        self.tasks.cut(id);
    }

    /// The task that is given out next, if there is one.
    pub fn next(&self) -> Option<&Task>
        requires { AreKept self.now }
        ensures { option_map (λ t. t.now) result ≡ next self.now.tasks.rows }
    {
        let head = self.lists.heads.first()?;
        self.tasks.get(&head.urgency.id)
    }

    /// Those given out as often as may be, and neither out nor acked, in the order of tasks.
    pub fn failed(&self) -> &[Urgency]
        requires { AreKept self.now }
        ensures { let failed = filter is_failed self.now.tasks.rows in
            result.now ≡ map urgency_of (in_order (λ t. t.priority) failed) }
    {
        self.lists.failed.rows()
    }
}
