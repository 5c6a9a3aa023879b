//! A pending evaluation as the broker keeps it.
ghost use Rattle.std.specs.Prelude.{◌≡◌, ◌<◌, Some, None};
ghost use Rattle.group_model.specs.Brokers.{Free, Acked, MOST, is_free, carry, goes_out, set_mark};
ghost use Rattle.eval_broker.specs.Answers.{pair_of_mark, is_acked, urgency_of};
ghost use Rattle.eval_broker.specs.Inner.Lists.{rank_of, head_for, is_spent, is_failed};

use crate::ranks::{Head, Rank};
use fsm_tables::{Row, Urgency};
use rows::{Delivery, EvalId, Evaluation, Index, JobName, Priority, Ranged, Token};
use std::marker::Model;

/// How often an evaluation is given out at most.
const MOST_DELIVERIES: u8 = 3;

/// Whether an evaluation is with a worker.
#[derive(Clone, Copy, Debug, PartialEq, Eq)]
pub(crate) enum Mark {
    /// No worker has it.
    Free,
    /// A worker has it under a token, to plan from a state of this index or later.
    Out(Token, Index),
    /// Its work is done, and its row is to change.
    Acked,
}

/// A pending evaluation, how often it was given out, and its mark. Contracts see a task of the
/// broker's definitions.
#[derive(Clone, Copy)]
pub(crate) struct Task {
    id: EvalId,
    job: JobName,
    priority: Priority,
    deliveries: u8,
    mark: Mark,
}

impl Model for Task {
    ghost use Rattle.group_model.specs.Brokers.{Task as AnyTask};
    ghost use Rattle.eval_broker.specs.Inner.Tasks.{mark_of, held_of};

    ghost Value = { AnyTask };

    ghost view = { λ t. record {
      id = t.id;
      job = t.job;
      priority = t.priority;
      deliveries = t.deliveries;
      mark = mark_of t.mark;
    } };

    ghost inverse = { λ t. record {
      id = t.id;
      job = t.job;
      priority = t.priority;
      deliveries = t.deliveries;
      mark = held_of t.mark;
    } };

    ghost use Rattle.eval_broker.specs.Laws.Marks.{given_back};

    ghost inverse_ok = { λ t h i. record {
      id = t.id;
      job = t.job;
      priority = t.priority;
      deliveries = t.deliveries;
      mark = given_back t.mark i;
    } };
}

impl Task {
    /// An evaluation that comes in.
    pub fn of(row: &Evaluation) -> Task
        ensures { result ≡ carry row.now None }
    {
        Task {
            id: row.id,
            job: row.job,
            priority: row.priority,
            deliveries: 0,
            mark: Mark::Free,
        }
    }

    /// An evaluation that stays, with what is kept of it.
    pub fn carried(row: &Evaluation, old: &Task) -> Task
        ensures { result ≡ carry row.now (Some old.now) }
    {
        Task {
            id: row.id,
            job: row.job,
            priority: row.priority,
            deliveries: old.deliveries,
            mark: old.mark,
        }
    }

    /// Its id.
    pub fn id(&self) -> EvalId
        ensures { result ≡ self.now.id }
    {
        self.id
    }

    /// Its job.
    pub fn job(&self) -> JobName
        ensures { result ≡ self.now.job }
    {
        self.job
    }

    /// The same, given out once more.
    pub fn given(&self, delivery: &Delivery) -> Task
        requires { self.now.deliveries < MOST }
        ensures { result ≡ goes_out delivery.now.token delivery.now.wait self.now }
    {
        Task {
            id: self.id,
            job: self.job,
            priority: self.priority,
            deliveries: self.deliveries + 1,
            mark: Mark::Out(delivery.token, delivery.wait),
        }
    }

    /// The same, with its work done.
    pub fn acked(&self) -> Task
        ensures { result ≡ set_mark Acked self.now }
    {
        Task {
            id: self.id,
            job: self.job,
            priority: self.priority,
            deliveries: self.deliveries,
            mark: Mark::Acked,
        }
    }

    /// The same, with no worker.
    pub fn freed(&self) -> Task
        ensures { result ≡ set_mark Free self.now }
    {
        Task {
            id: self.id,
            job: self.job,
            priority: self.priority,
            deliveries: self.deliveries,
            mark: Mark::Free,
        }
    }

    /// Under which token and for a state of which index it is out, if it is.
    pub fn pair(&self) -> Option<(Token, Index)>
        ensures { result ≡ pair_of_mark self.now.mark }
    {
        match self.mark {
            Mark::Out(token, wait) => Some((token, wait)),
            _ => None,
        }
    }

    /// How often it was given out, from 0 to 3.
    pub fn deliveries(&self) -> u8
        ensures { result ≡ self.now.deliveries }
    {
        self.deliveries
    }

    /// Whether its work is done, and its row is to change.
    pub fn is_acked(&self) -> bool
        ensures { result ≡ is_acked self.now.mark }
    {
        match self.mark {
            Mark::Acked => true,
            _ => false,
        }
    }

    /// How early it comes among others.
    pub fn urgency(&self) -> Urgency
        ensures { result ≡ urgency_of self.now }
    {
        Urgency::of(self.priority, self.id)
    }

    /// Its rank among those of its job.
    pub fn rank(&self) -> Rank
        ensures { result ≡ rank_of self.now }
    {
        Rank {
            job: self.job,
            is_free: self.is_free(),
            is_spent: self.is_spent(),
            urgency: self.urgency(),
        }
    }

    /// The task as the head of its job.
    pub fn head(&self) -> Head
        ensures { result ≡ head_for self.now }
    {
        Head {
            urgency: self.urgency(),
            job: self.job,
        }
    }

    /// Whether it was given out as often as may be, and is neither out nor acked.
    pub fn is_failed(&self) -> bool
        ensures { result ≡ is_failed self.now }
    {
        self.is_free() && self.is_spent()
    }
}

impl Task {
    /// Whether it is neither out nor acked.
    fn is_free(&self) -> bool
        ensures { result ≡ is_free self.now.mark }
    {
        match self.mark {
            Mark::Free => true,
            _ => false,
        }
    }

    /// Whether it was given out as often as may be.
    fn is_spent(&self) -> bool
        ensures { result ≡ is_spent self.now }
    {
        self.deliveries >= MOST_DELIVERIES
    }
}

impl Ranged for Task {
    ghost use Rattle.rows.specs.Fits.{EvalIdFits};

    ghost Fits = { λ t. EvalIdFits t.id };

    fn ranges(&self) {
        self.id.ranges();
    }
}

/// Tasks by the evaluation's id.
impl Row for Task {
    type Key = EvalId;

    ghost key_of = { λ t. t.id };

    fn key(&self) -> &EvalId {
        &self.id
    }
}
