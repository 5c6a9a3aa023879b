//! What an agent knows while it is up.
ghost use Rattle.std.specs.Prelude.{◌≡◌, OnOk, IfOk};
ghost use Rattle.rows.specs.Listings.{AreListed};
ghost use Rattle.group_model.specs.Agents.{new_life, runs, with_end, news};
ghost use Rattle.client_agent.specs.Capacity.{FitTogether};
ghost use Rattle.client_agent.specs.Inner.Runs.{runs_of, followed, MoreIds};

use crate::ended::Ended;
use crate::reporting::news;
use crate::running::{RunningAllocation, is_running, keep_shown, stop};
use crate::started::Started;
use crate::starting::start_listed;
use rows::{AllocId, Index, ListedAllocation, NoMemory, Report, Sequence, Size};
use std::alloc::Global;
use std::marker::Model;

/// What an agent knows while it is up, and loses in a crash: the index of the last list that it
/// took, what runs, and what ended. Contracts see the definitions' own.
#[derive(Drop)]
pub(crate) struct Life {
    seen: Index,
    running: Vec<RunningAllocation>,
    ended: Ended,
}

impl Model for Life {
    ghost use Rattle.group_model.specs.Agents.{Life as AnyLife};

    ghost Value = { AnyLife };

    ghost view = { λ l. record {
      seen = l.seen;
      running = l.running.items;
      ended = l.ended;
    } };
}

impl Life {
    /// No list was taken, and nothing runs. It takes no memory.
    pub fn new(alloc: Global) -> Life
        ensures { result ≡ new_life }
    {
        Life {
            seen: Index::ZERO,
            running: Vec::new(alloc),
            ended: Ended::none(alloc),
        }
    }

    /// The index of the last list that was taken, or 0.
    pub fn last_list(&self) -> Index
        ensures { result ≡ self.now.seen }
    {
        self.seen
    }

    /// What runs, in the order in which it was started.
    pub fn running(&self) -> &[RunningAllocation]
        ensures { result.now ≡ self.now.running }
    {
        &self.running
    }

    /// Whether an allocation runs.
    pub fn runs(&self, id: &AllocId) -> bool
        ensures { result ≡ runs self.now.running id.now }
    {
        is_running(&self.running, id)
    }

    /// One that runs ends. Without memory the value is only to be dropped.
    pub fn end(&mut self, id: &AllocId, ok: bool) -> Result<(), NoMemory>
        ensures { OnOk result (self.new ≡ with_end self.old id.now ok) }
    {
        stop(&mut self.running, id);
        self.ended.push(id, ok)
    }

    /// The list of this index is taken, on a node of this size: what is not listed stops, and what
    /// never was started starts, if it fits. Without memory the value is only to be dropped.
    pub fn follow(
        &mut self,
        whole: Size,
        index: Index,
        rows: &[ListedAllocation],
        started: &mut Started,
    ) -> Result<(), NoMemory>
        requires fit { FitTogether whole self.old.running }
        requires listed { AreListed rows.now }
        ensures ok { let next = followed whole rows.now started.old self.old in
            OnOk result ((started.new ≡ next.ids)
            × (self.new ≡ record self.old { seen = index; running = next.running })) }
        ensures fit { OnOk result (FitTogether whole self.new.running) }
        ensures grows { MoreIds started.old started.new }
    {
        self.seen = index;
        keep_shown(&mut self.running, rows);
        start_listed(whole, rows, started, &mut self.running)
    }

    /// What is to be reported of a list that was taken.
    pub fn news(
        &self,
        alloc: Global,
        rows: &[ListedAllocation],
        started: &Started,
    ) -> Result<Sequence<Report>, NoMemory>
        ensures { let now = runs_of started.now self.now.running in
            IfOk result (λ items. items ≡ news now self.now.ended rows.now) }
    {
        news(alloc, rows, started, &self.running, &self.ended)
    }
}
