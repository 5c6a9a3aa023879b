//! A state as bytes.
ghost use Rattle.std.specs.Prelude.{◌≤◌, length};
ghost use Rattle.rows.specs.Versions.{newest};
ghost use Rattle.fields_model.specs.Commands.{command};
ghost use Rattle.fields_model.specs.Format.{Puts, items, list};
ghost use Rattle.fields_model.specs.StateText.{state};
ghost use Rattle.fields_model.proofs.StateTextLaws.{state_lawful};

use crate::cluster::Cluster;
use fields::{Field, read_long_ruled_list, write_u32};
use fsm_tables::{CopiedRow, Table};
use rows::{Allocation, Command, Evaluation, Index, Job, NoMemory, Node, Ranged, Refusal, Version};
use std::alloc::Global;

impl Cluster {
    /// Says that the state is one that has a text. It does nothing.
    pub(crate) fn fits(&self)
        ensures { (state newest).Fits self.now }
    {
        self.ranges();
    }
}

/// Says that a command is one that has a text. It does nothing.
pub(crate) fn has_text(value: &Command)
    ensures { (command newest).Fits value.now }
{
    value.ranges();
}

/// Puts the rows of a table to the end, in rising key. Without memory some of them may stand there.
fn append_each<T: CopiedRow + Field>(table: &Table<T>, out: &mut Vec<u8>) -> Result<(), NoMemory>
    ensures { Puts (items (length table.now) (T.format newest)) table.now result
        out.old.items out.new.items }
{
    for row in table.rows() {
        row.append(out)?;
    }
    Ok(())
}

/// Puts the count of a table's rows in four bytes to the end, and the rows: at most `most` of them.
/// Without memory a part of this may stand there.
fn append_table<T: CopiedRow + Field>(
    table: &Table<T>,
    most: u32,
    out: &mut Vec<u8>,
) -> Result<(), NoMemory>
    requires { length table.now ≤ most }
    ensures { Puts (list 4 most (T.format newest)) table.now result out.old.items out.new.items }
{
    write_u32(&(table.len() as u32), out)?;
    append_each(table, out)
}

/// The count in eight bytes, and then the rows of jobs, nodes, evaluations and allocations: each
/// list is its length in four bytes, and its rows in rising key.
impl Field for Cluster {
    ghost format = { state };

    ghost lawful = { state_lawful };

    fn read_at(
        version: Version,
        alloc: Global,
        bytes: &[u8],
        at: usize,
    ) -> Result<(Cluster, usize), Refusal> {
        let (count, at) = Index::read_at(version, alloc, bytes, at)?;
        let (jobs, at) = read_long_ruled_list::<Job>(version, alloc, bytes, at, 256)?;
        let (nodes, at) = read_long_ruled_list::<Node>(version, alloc, bytes, at, 64)?;
        let (evals, at) = read_long_ruled_list::<Evaluation>(version, alloc, bytes, at, 65_536)?;
        let (allocs, at) = read_long_ruled_list::<Allocation>(version, alloc, bytes, at, 65_536)?;
        let state = Cluster::from_rows(alloc, count, jobs, nodes, evals, allocs)?;
        Ok((state, at))
    }

    fn append(&self, out: &mut Vec<u8>) -> Result<(), NoMemory> {
        self.fits();
        self.applied().append(out)?;
        append_table(self.job_table(), 256, out)?;
        append_table(self.node_table(), 64, out)?;
        append_table(self.eval_table(), 65_536, out)?;
        append_table(self.alloc_table(), 65_536, out)
    }
}
