//! A log once more: its state by a fork, each entry by its text.

ghost use Rattle.std.specs.Prelude.{◌≡◌, IfOk};

use crate::again::command_again;
use crate::log::Log;
use crate::snapshot::Snapshot;
use machine::{Coded, Entry, Machine};
use rows::NoMemory;
use std::alloc::Global;

fn entry_again<M: Machine>(
    alloc: Global,
    entry: &Entry<Coded<M>>,
) -> Result<Entry<Coded<M>>, NoMemory>
    ensures { IfOk result (λ again. again ≡ entry.now) }
{
    let command = command_again::<M>(alloc, entry.command.command())?;
    Ok(Entry {
        term: entry.term,
        command: Coded::new(command),
    })
}

fn entries_again<M: Machine>(
    alloc: Global,
    entries: &[Entry<Coded<M>>],
) -> Result<Vec<Entry<Coded<M>>>, NoMemory>
    ensures { IfOk result (λ again. again.items ≡ entries.now) }
{
    let mut again = Vec::with_capacity(alloc, entries.len())?;
    for entry in entries {
        again.push(entry_again(alloc, entry)?)?;
    }
    Ok(again)
}

fn snapshot_again<M: Machine>(snapshot: &Snapshot<M>) -> Result<Snapshot<M>, NoMemory>
    ensures { IfOk result (λ again. again ≡ snapshot.now) }
{
    let state = snapshot.state().fork()?;
    Ok(Snapshot::of(snapshot.index(), snapshot.term(), state))
}

impl<M: Machine> Log<M> {
    /// The same log once more, in time of a fork of its snapshot's state and of the texts of the
    /// entries behind that. `NoMemory` where there is no memory for it.
    pub fn copied(&self, alloc: Global) -> Result<Log<M>, NoMemory>
        ensures { IfOk result (λ again. again ≡ self.now) }
    {
        Ok(Log {
            base: snapshot_again(&self.base)?,
            tail: entries_again(alloc, &self.tail)?,
        })
    }
}
