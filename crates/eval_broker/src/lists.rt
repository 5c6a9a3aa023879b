//! The lists beside the tasks.
ghost use Rattle.std.specs.Prelude.{◌≡◌, ◌≤◌, OnOk, length, T as Holds, if◌then◌else◌};
ghost use Rattle.rows.specs.Keys.{eval_cmp};
ghost use Rattle.rows.specs.Rising.{is_rising};
ghost use Rattle.fsm_tables.specs.Rows.{put};
ghost use Rattle.fsm_tables.specs.ReservedTables.{without, has_space};
ghost use Rattle.fsm_tables.specs.Urgencies.{urgency_cmp};
ghost use Rattle.group_model.specs.Brokers.{task_id};
ghost use Rattle.eval_broker.specs.Answers.{urgency_of};
ghost use Rattle.eval_broker.specs.Inner.Lists.{rank_cmp, is_failed, head_of, AreHeads, AreHeadsBut, HasHeadsUpTo, AreTaskLists, HaveCapacity, KeepCapacity};

use crate::ranks::{Head, Rank, head_of, is_behind};
use crate::reserved_tree::ReservedTree;
use crate::task::Task;
use fsm_tables::{ReservedTable, Urgency};
use rows::{EvalId, JobName, NoMemory};

/// The lists beside the tasks: so nothing is searched by walking.
#[derive(Drop)]
pub(crate) struct Lists {
    /// All of them, by job.
    pub ranks: ReservedTree<Rank>,
    /// Of each job of which none is out or acked, the first that waits for a worker.
    pub heads: ReservedTree<Head>,
    /// Those given out as often as may be, and neither out nor acked.
    pub failed: ReservedTable<Urgency>,
}

impl Lists {
    /// Makes room for so many tasks in all, by means of any task. Without memory no row changes,
    /// and no room goes.
    pub fn reserve_rows(&mut self, count: usize, any: &Task) -> Result<(), NoMemory>
        ensures ranks { self.new.ranks.rows ≡ self.old.ranks.rows }
        ensures heads { self.new.heads.rows ≡ self.old.heads.rows }
        ensures failed { self.new.failed.rows ≡ self.old.failed.rows }
        ensures ok { OnOk result (HaveCapacity count self.new) }
        ensures kept { KeepCapacity self.old self.new }
    {
        self.ranks.reserve_rows(count, any.rank())?;
        self.heads.reserve_rows(count, any.head())?;
        self.failed.reserve_rows(count)
    }

    /// The first of a job that waits, where none of the job is out or acked.
    fn head_of(&self, job: &JobName) -> Option<Head>
        ensures { result ≡ head_of job.now self.now.ranks.rows }
    {
        head_of(self.ranks.tree(), job)
    }

    /// Takes out the head of a job.
    fn drop_head(&mut self, job: &JobName)
        requires { AreHeads self.old.ranks.rows self.old.heads.rows }
        ensures heads { AreHeadsBut job.now self.old.ranks.rows self.new.heads.rows }
        ensures ranks { self.new.ranks ≡ self.old.ranks }
        ensures failed { self.new.failed ≡ self.old.failed }
        ensures capacity { self.old.heads.capacity ≤ self.new.heads.capacity }
    {
        if let Some(head) = self.head_of(job) {
            self.heads.cut(&head);
        }
    }

    /// Brings in the head of a job.
    fn add_head(&mut self, job: &JobName)
        requires heads { AreHeadsBut job.now self.old.ranks.rows self.old.heads.rows }
        requires capacity { HasHeadsUpTo self.old.heads.capacity self.old.ranks.rows }
        ensures heads { AreHeads self.old.ranks.rows self.new.heads.rows }
        ensures ranks { self.new.ranks ≡ self.old.ranks }
        ensures failed { self.new.failed ≡ self.old.failed }
        ensures capacity { self.old.heads.capacity ≤ self.new.heads.capacity }
    {
        if let Some(head) = self.head_of(job) {
            self.heads.put(head);
        }
    }

    /// Brings in a rank, and the head of its job where that is another now: where the first of the
    /// job comes before the rank, the heads stay as they are.
    pub fn add_rank(&mut self, rank: Rank)
        requires heads { AreHeads self.old.ranks.rows self.old.heads.rows }
        requires space { Holds (has_space rank_cmp (λ p. p) rank self.old.ranks) }
        requires capacity { let new = put rank_cmp (λ p. p) rank self.old.ranks.rows in
            HasHeadsUpTo self.old.heads.capacity new }
        ensures ranks { self.new.ranks.rows ≡ put rank_cmp (λ p. p) rank self.old.ranks.rows }
        ensures heads { AreHeads self.new.ranks.rows self.new.heads.rows }
        ensures failed { self.new.failed ≡ self.old.failed }
        ensures kept { KeepCapacity self.old self.new }
    {
        if is_behind(self.ranks.tree(), &rank) {
            self.ranks.put(rank);
            return;
        }
        self.drop_head(&rank.job);
        self.ranks.put(rank);
        self.add_head(&rank.job);
    }

    /// Brings in a task that was given out as often as may be, if this is one.
    pub fn add_failed(&mut self, task: &Task)
        requires { Holds (has_space urgency_cmp (λ u. u) (urgency_of task.now) self.old.failed) }
        ensures failed { let old = self.old.failed.rows in
            let one = put urgency_cmp (λ u. u) (urgency_of task.now) old in
            self.new.failed.rows ≡ (if is_failed task.now then one else old) }
        ensures ranks { self.new.ranks ≡ self.old.ranks }
        ensures heads { self.new.heads ≡ self.old.heads }
        ensures kept { KeepCapacity self.old self.new }
    {
        if task.is_failed() {
            self.failed.put(task.urgency());
        }
    }

    /// Takes out what the lists have of a task, if it is there.
    pub fn take_out(&mut self, tasks: &ReservedTree<Task>, id: &EvalId)
        requires rising { Holds (is_rising eval_cmp task_id tasks.now.rows) }
        requires listed { AreTaskLists tasks.now.rows self.old }
        requires capacity { HaveCapacity (length tasks.now.rows) self.old }
        ensures listed { AreTaskLists (without eval_cmp task_id id.now tasks.now.rows) self.new }
        ensures kept { KeepCapacity self.old self.new }
    {
        if let Some(task) = tasks.get(id) {
            let job = task.job();
            self.drop_head(&job);
            self.ranks.cut(&task.rank());
            self.failed.cut(&task.urgency());
            self.add_head(&job);
        }
    }
}
