ghost use Rattle.std.specs.Prelude.{◌≡◌, ◌≤◌, ◌<◌, [], length, IfOk, IfErr};
ghost use Rattle.rows.specs.declared.refusal.Refusal.TheVariants as refusals;

use crate::list_rules::{Ranged, all_ranges};
use crate::refusal::{NoMemory, Refusal};
use crate::sequence::Sequence;
use std::alloc::Global;
use std::marker::Model;

/// A list of at most 64 items: what one plan stops and places. Contracts see the list.
#[derive(Drop)]
pub struct Batch<T> {
    items: Vec<T>,
}

impl<T> Model for Batch<T> {
    ghost use Rattle.std.specs.Prelude.{List, ◌≤◌, length};

    ghost Value = { List T };

    ghost view = { λ b. b.items.items };

    ghost invariant = { λ b. length b.items.items ≤ 64 };
}

impl<T> Batch<T> {
    /// The list without items. It takes no memory.
    pub fn new(alloc: Global) -> Batch<T>
        ensures { result ≡ [] }
    {
        Batch {
            items: Vec::new(alloc),
        }
    }

    /// The items, in their order.
    pub fn as_slice(&self) -> &[T]
        ensures items { result.now ≡ self.now }
        ensures limit { length result.now ≤ 64 }
    {
        &self.items
    }
}

impl<T: Drop> Batch<T> {
    /// A list of at most 64 items. `OutOfRange` where there are more.
    pub fn check(items: Sequence<T>) -> Result<Batch<T>, Refusal>
        ensures ok { IfOk result (λ batch. (batch ≡ items) × (length items ≤ 64)) }
        ensures err { IfErr result (λ e. (e ≡ refusals.OutOfRange) × (64 < length items)) }
    {
        let items = items.into_vec();
        if items.len() <= 64 {
            Ok(Batch { items })
        } else {
            Err(Refusal::OutOfRange)
        }
    }
}

impl<T: Copy + Drop> Batch<T> {
    /// The same items once more.
    pub fn try_clone(&self, alloc: Global) -> Result<Batch<T>, NoMemory>
        ensures { IfOk result (λ batch. batch ≡ self.now) }
    {
        let mut items = Vec::new(alloc);
        items.extend_from_slice(&self.items)?;
        Ok(Batch { items })
    }
}

impl<T: Ranged> Ranged for Batch<T> {
    ghost use Rattle.rows.specs.Batches.{BatchFits};

    ghost Fits = { BatchFits T.Fits };

    fn ranges(&self) {
        all_ranges(self.as_slice());
    }
}
