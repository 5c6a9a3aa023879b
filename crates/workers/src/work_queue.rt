//! What waits for one server's workers.
ghost use Rattle.std.specs.Prelude.{◌≡◌, ◌≢◌, ◌++◌, ◌∷◌, []};
ghost use Rattle.std.specs.Prelude.{MatchBool, MatchOption, OnErr, OnOk};
ghost use Rattle.std.specs.Prelude.{length, option_map, slice_get};

use rows::{NoMemory, Work};
use std::alloc::Global;
use std::collections::VecDeque;
use std::marker::Model;

/// What came for the workers of one server and is not taken up, the oldest first. Contracts see the
/// list.
#[derive(Drop)]
pub(crate) struct WorkQueue {
    items: VecDeque<Work>,
}

impl Model for WorkQueue {
    ghost use Rattle.std.specs.Prelude.{List};
    ghost use Rattle.rows.specs.declared.worker.Work.{Work};

    ghost Value = { List Work };

    ghost view = { λ q. q.items.items };
}

impl WorkQueue {
    /// Nothing waits.
    pub(crate) fn new(alloc: Global) -> WorkQueue
        ensures { result ≡ [] }
    {
        WorkQueue {
            items: VecDeque::new(alloc),
        }
    }

    /// What comes is put behind the others.
    pub(crate) fn put(&mut self, work: Work) -> Result<(), NoMemory>
        ensures ok { OnOk result (self.new ≡ self.old ++ work ∷ []) }
        ensures err { OnErr result (self.new ≡ self.old) }
    {
        self.items.push_back(work)?;
        Ok(())
    }

    /// What was taken is put in front again.
    pub(crate) fn put_back(&mut self, work: Work) -> Result<(), NoMemory>
        ensures ok { OnOk result (self.new ≡ work ∷ self.old) }
        ensures err { OnErr result (self.new ≡ self.old) }
    {
        self.items.push_front(work)?;
        Ok(())
    }

    /// Whether nothing waits.
    pub(crate) fn is_empty(&self) -> bool
        ensures { MatchBool result (self.now ≡ []) (self.now ≢ []) }
    {
        self.items.is_empty()
    }

    /// How much waits.
    pub(crate) fn len(&self) -> usize
        ensures { result ≡ length self.now }
    {
        self.items.len()
    }

    /// The oldest; none where nothing waits.
    pub(crate) fn first(&self) -> Option<&Work>
        ensures { option_map (λ work. work.now) result ≡ slice_get self.now 0 }
    {
        self.items.front()
    }

    /// Takes the oldest; none where nothing waits.
    pub(crate) fn take(&mut self) -> Option<Work>
        ensures { MatchOption result ((self.old ≡ []) × (self.new ≡ []))
            (λ work. self.old ≡ work ∷ self.new) }
    {
        self.items.pop_front()
    }

    /// Nothing waits any more.
    pub(crate) fn clear(&mut self)
        ensures { self.new ≡ [] }
    {
        self.items.clear();
    }
}
