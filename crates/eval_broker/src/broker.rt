//! The broker.
ghost use Rattle.std.specs.Prelude.{◌≡◌, ◌+◌, ◌<◌, ◌^◌, None, true, false, nat_lt, option_map, IfOk, IfErr, IfSome, IfNone, OnOk, OnErr, Ok};
ghost use Rattle.raft_model.specs.Logs.{MAX};
ghost use Rattle.fsm_model.specs.Words.{is_pending};
ghost use Rattle.group_model.specs.Brokers.{Nothing, UsedUp, Gives, no_tasks, task_of, broker_over, broker_with, deliver};
ghost use Rattle.group_model.specs.Brokers.{outstanding, with_ack, with_nack};
ghost use Rattle.eval_broker.specs.Answers.{pair_of, is_task_acked, IsPair, RefusesPair, failed_in_order};

use crate::answers::{PairError, SerialsUsedUp};
use crate::task::Task;
use crate::tasks::Tasks;
use fsm_state::Cluster;
use fsm_tables::Urgency;
use rows::{Delivery, EvalId, EvalStatus, Evaluation, Index, LeaderTerm, NoMemory, Serial, Token};
use std::alloc::Global;
use std::marker::Model;

/// The pending evaluations of the applied state: which are with a worker, how often each was given
/// out, and which comes next. Contracts see the tasks in rising id, and the last serial. (Nomad
/// documentation, "Scheduling in Nomad": evaluation broker.)
#[derive(Drop)]
pub struct Broker {
    tasks: Tasks,
    serial: Index,
}

impl Model for Broker {
    ghost use Rattle.group_model.specs.Brokers.{Broker as AnyBroker};
    ghost use Rattle.eval_broker.specs.Inner.Lists.{AreKept};

    ghost Value = { AnyBroker };

    ghost view = { λ b. record { tasks = b.tasks.tasks.rows; serial = b.serial } };

    ghost invariant = { λ b. AreKept b.tasks };
}

/// The serial after the last one; none after 2^40 - 1.
fn serial_after(last: Index) -> Option<Serial>
    ensures some { IfSome result (λ s.
        (s ≡ last + 1) × (last + 1 < 2 ^ 40) × (nat_lt last MAX ≡ true)) }
    ensures none { IfNone result (nat_lt last MAX ≡ false) }
{
    Serial::new(last.get() + 1)
}

impl Broker {
    /// The broker over the pending evaluations of a state: none out or acked, none given out yet,
    /// and no serial used.
    pub fn rebuild(alloc: Global, state: &Cluster) -> Result<Broker, NoMemory>
        ensures { IfOk result (λ b. b ≡ broker_over state.now.evals no_tasks) }
    {
        let evals = state.evals(alloc)?;
        let tasks = Tasks::over(alloc, evals.as_slice())?;
        Ok(Broker {
            tasks,
            serial: Index::ZERO,
        })
    }

    /// Follows a row of the applied state that was made or replaced: one that is pending comes in,
    /// or stays with its deliveries and its mark; any other goes. Only one that comes in takes
    /// memory; without it nothing changes.
    pub fn changed(&mut self, row: &Evaluation) -> Result<(), NoMemory>
        ensures ok { OnOk result (self.new ≡ broker_with row.now self.old) }
        ensures err { OnErr result (self.new ≡ self.old) }
        ensures memory { let old = task_of row.now.id self.old.tasks in
            OnErr result ((is_pending row.now.status ≡ true) × (old ≡ None)) }
    {
        let EvalStatus::Pending = row.status else {
            self.tasks.cut(&row.id);
            return Ok(());
        };
        match self.tasks.get(&row.id) {
            Some(old) => {
                let task = Task::carried(row, old);
                self.tasks.put(task);
            }
            None => {
                let task = Task::of(row);
                self.tasks.reserve_rows(&task)?;
                self.tasks.bring_in(task);
            }
        }
        Ok(())
    }

    /// Gives out the next evaluation in a leader's term, to be planned from a state of index `wait`
    /// or later: the most urgent of those that are free and were given out less than three times,
    /// and of whose job none is out or acked. None where there is none; refused where there is one
    /// and no serial is left. It takes no memory.
    pub fn next(&mut self, term: LeaderTerm, wait: Index) -> Result<Option<Delivery>, SerialsUsedUp>
        ensures gives { IfOk result (λ d. IfSome d (λ what.
            deliver term wait self.old ≡ Gives what self.new)) }
        ensures nothing { IfOk result (λ d. IfNone d (
            (deliver term wait self.old ≡ Nothing) × (self.new ≡ self.old))) }
        ensures used_up { OnErr result (
            (deliver term wait self.old ≡ UsedUp) × (self.new ≡ self.old)) }
    {
        let Some(task) = self.tasks.next() else {
            return Ok(None);
        };
        let Some(serial) = serial_after(self.serial) else {
            return Err(SerialsUsedUp);
        };
        let delivery = Delivery {
            eval: task.id(),
            token: Token { term, serial },
            wait,
        };
        let task = task.given(&delivery);
        self.tasks.put(task);
        self.serial = self.serial.next();
        Ok(Some(delivery))
    }

    /// A worker is done with an evaluation: its job waits until the evaluation's row changes.
    /// Refused where the pair is not outstanding. It takes no memory.
    pub fn ack(&mut self, eval: EvalId, token: Token) -> Result<(), PairError>
        ensures ok { OnOk result (IsPair eval token self.old × (self.new ≡ with_ack eval self.old)) }
        ensures err { IfErr result (λ e.
            RefusesPair eval token self.old e × (self.new ≡ self.old)) }
    {
        self.check(eval, token)?;
        self.set_acked(&eval);
        Ok(())
    }

    /// A worker gives an evaluation back. Refused where the pair is not outstanding. It takes no
    /// memory.
    pub fn nack(&mut self, eval: EvalId, token: Token) -> Result<(), PairError>
        ensures ok { OnOk result (IsPair eval token self.old × (self.new ≡ with_nack eval self.old)) }
        ensures err { IfErr result (λ e.
            RefusesPair eval token self.old e × (self.new ≡ self.old)) }
    {
        self.check(eval, token)?;
        self.set_free(&eval);
        Ok(())
    }

    /// For a state of which index an outstanding pair waits; refused where it is none.
    pub fn check(&self, eval: EvalId, token: Token) -> Result<Index, PairError>
        ensures ok { IfOk result (λ wait. outstanding eval token self.now ≡ Ok wait) }
        ensures err { IfErr result (λ e. RefusesPair eval token self.now e) }
    {
        match self.outstanding(eval) {
            None => Err(PairError::NotOutstanding),
            Some((held, wait)) => {
                if held == token {
                    Ok(wait)
                } else {
                    Err(PairError::TokenDiffers)
                }
            }
        }
    }

    /// Under which token, and for a state of which index or later, an evaluation is with a worker;
    /// none where no worker has it.
    pub fn outstanding(&self, eval: EvalId) -> Option<(Token, Index)>
        ensures { result ≡ pair_of (task_of eval self.now.tasks) }
    {
        self.tasks.get(&eval)?.pair()
    }

    /// How often an evaluation was given out, from 0 to 3; none where it is not pending.
    pub fn deliveries(&self, eval: EvalId) -> Option<u8>
        ensures { result ≡ option_map (λ t. t.deliveries) (task_of eval self.now.tasks) }
    {
        match self.tasks.get(&eval) {
            Some(task) => Some(task.deliveries()),
            None => None,
        }
    }

    /// Whether an evaluation's work is done, and its row is to change.
    pub fn is_acked(&self, eval: EvalId) -> bool
        ensures { result ≡ is_task_acked (task_of eval self.now.tasks) }
    {
        match self.tasks.get(&eval) {
            Some(task) => task.is_acked(),
            None => false,
        }
    }

    /// The evaluations that were given out three times and are neither out nor acked: the higher
    /// priority first, and of one priority the lower id. They are not given out again, and hinder
    /// no other of their job.
    pub fn failed(&self) -> &[Urgency]
        ensures { result.now ≡ failed_in_order self.now }
    {
        self.tasks.failed()
    }

    /// Marks an evaluation as done, if it is there.
    fn set_acked(&mut self, eval: &EvalId)
        ensures { self.new ≡ with_ack eval.now self.old }
    {
        if let Some(task) = self.tasks.get(eval) {
            let task = task.acked();
            self.tasks.put(task);
        }
    }

    /// Marks an evaluation as free, if it is there.
    fn set_free(&mut self, eval: &EvalId)
        ensures { self.new ≡ with_nack eval.now self.old }
    {
        if let Some(task) = self.tasks.get(eval) {
            let task = task.freed();
            self.tasks.put(task);
        }
    }
}
