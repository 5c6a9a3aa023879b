//! A task's rank among those of its job, and the heads of jobs.
ghost use Rattle.std.specs.Prelude.{◌≡◌, Some, None, bytes_eq, if◌then◌else◌, option_map, T as Holds};
ghost use Rattle.rows.specs.Keys.{name_cmp};
ghost use Rattle.rows.specs.Rising.{is_rising};
ghost use Rattle.fsm_tables.specs.Rows.{row_of};
ghost use Rattle.eval_broker.specs.Inner.Trees.{tree_rows};
ghost use Rattle.eval_broker.specs.Inner.Lists.{rank_cmp, rank_job, head_at, head_of, is_behind};

use crate::tree::Tree;
use fsm_tables::{Row, Urgency};
use rows::{JobName, Ranged};

/// A task's rank among those of its job: first those that are out or acked, then those that wait
/// for a worker, then those given out as often as may be; of each the most urgent first.
#[derive(Clone, Copy, Debug, PartialEq, Eq, PartialOrd, Ord)]
pub(crate) struct Rank {
    /// Its job.
    pub job: JobName,
    /// Whether it is neither out nor acked.
    pub is_free: bool,
    /// Whether it was given out as often as may be.
    pub is_spent: bool,
    /// How early it comes among others.
    pub urgency: Urgency,
}

/// The head of a job: of those of its tasks that wait for a worker the first, where none of the job
/// is out or acked. Heads come in the order in which they are given out.
#[derive(Clone, Copy, Debug, PartialEq, Eq, PartialOrd, Ord)]
pub(crate) struct Head {
    /// How early it comes.
    pub urgency: Urgency,
    /// Its job.
    pub job: JobName,
}

impl Rank {
    /// The task of this rank as a head, if it waits for a worker.
    fn head(&self) -> Option<Head>
        ensures { result ≡ head_at self.now }
    {
        if self.is_free && !self.is_spent {
            Some(Head {
                urgency: self.urgency,
                job: self.job,
            })
        } else {
            None
        }
    }

    /// The rank, if it is of a job.
    fn of_job(&self, job: &JobName) -> Option<&Rank>
        ensures { option_map (λ p. p.now) result
            ≡ (if bytes_eq self.now.job job.now then Some self.now else None) }
    {
        if self.job == *job { Some(self) } else { None }
    }
}

/// The first rank of a job. It takes time in the logarithm of all ranks.
fn first_of<'a>(ranks: &'a Tree<Rank>, job: &JobName) -> Option<&'a Rank>
    requires { Holds (is_rising rank_cmp (λ p. p) (tree_rows ranks.now)) }
    ensures { option_map (λ p. p.now) result
        ≡ row_of name_cmp rank_job job.now (tree_rows ranks.now) }
{
    match ranks {
        Tree::Leaf => None,
        Tree::Fork(branch) => {
            if branch.row.job < *job {
                return first_of(&branch.right, job);
            }
            match first_of(&branch.left, job) {
                None => branch.row.of_job(job),
                found => found,
            }
        }
    }
}

/// The first of a job that waits, where none of the job is out or acked.
pub(crate) fn head_of(ranks: &Tree<Rank>, job: &JobName) -> Option<Head>
    requires { Holds (is_rising rank_cmp (λ p. p) (tree_rows ranks.now)) }
    ensures { result ≡ head_of job.now (tree_rows ranks.now) }
{
    first_of(ranks, job)?.head()
}

/// Whether the first of its job comes before it.
pub(crate) fn is_behind(ranks: &Tree<Rank>, rank: &Rank) -> bool
    requires { Holds (is_rising rank_cmp (λ p. p) (tree_rows ranks.now)) }
    ensures { let first = row_of name_cmp rank_job rank.now.job (tree_rows ranks.now) in
        result ≡ is_behind rank.now first }
{
    match first_of(ranks, &rank.job) {
        Some(first) => *first < *rank,
        None => false,
    }
}

impl Ranged for Rank {
    ghost Fits = { λ _. Unit {0} };

    fn ranges(&self) {}
}

impl Ranged for Head {
    ghost Fits = { λ _. Unit {0} };

    fn ranges(&self) {}
}

/// Rows that are their own keys.
impl Row for Rank {
    type Key = Rank;

    ghost key_of = { λ p. p };

    fn key(&self) -> &Rank {
        self
    }
}

/// Rows that are their own keys.
impl Row for Head {
    type Key = Head;

    ghost key_of = { λ t. t };

    fn key(&self) -> &Head {
        self
    }
}
