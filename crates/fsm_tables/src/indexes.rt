//! The two indexes of the allocations' rows, and a put that keeps them.
ghost use Rattle.std.specs.Prelude.{◌≡◌, [], OnOk, OnErr, IfOk, option_map};
ghost use Rattle.rows.specs.Keys.{alloc_cmp, alloc_id};
ghost use Rattle.fsm_tables.specs.Inner.Index.{entry_of, Gains, Loses, Grows, Keeps};
ghost use Rattle.fsm_tables.specs.Inner.Keys.{alloc_name_cmp, live_name, on_node_cmp, active_on, AreRowIndexes};
ghost use Rattle.fsm_tables.specs.Rows.{put};

use crate::index::{AllocIndex, Entry, entry_of};
use crate::index_keys::OnNode;
use crate::name::AllocName;
use pages::Table;
use rows::{Allocation, NoMemory};
use std::alloc::Global;

/// The indexes of the allocations' rows.
#[derive(Drop)]
pub(crate) struct Indexes {
    /// The live ones, by name and then by id.
    pub names: AllocIndex<AllocName>,
    /// Those that are pending, running or unknown, by node, whether they are live, and id.
    pub nodes: AllocIndex<OnNode>,
}

/// The entries of a row in the two indexes.
#[derive(Clone, Copy)]
pub(crate) struct RowEntries {
    pub name: Option<Entry<AllocName>>,
    pub node: Option<Entry<OnNode>>,
}

impl RowEntries {
    /// The entries of a row, if there is a row.
    fn of(row: Option<&Allocation>) -> RowEntries
        ensures name { result.name ≡ entry_of live_name (option_map (λ r. r.now) row.entry) }
        ensures node { result.node ≡ entry_of active_on (option_map (λ r. r.now) row.entry) }
    {
        RowEntries {
            name: entry_of(row),
            node: entry_of(row),
        }
    }
}

impl Indexes {
    /// No entries.
    pub fn empty(alloc: Global) -> Indexes
        ensures names { result.names ≡ [] }
        ensures nodes { result.nodes ≡ [] }
    {
        Indexes {
            names: AllocIndex::empty(alloc),
            nodes: AllocIndex::empty(alloc),
        }
    }

    /// The entries of rows.
    pub fn of_rows(alloc: Global, rows: &Table<Allocation>) -> Result<Indexes, NoMemory>
        ensures { IfOk result (λ indexes. AreRowIndexes rows.now indexes) }
    {
        Ok(Indexes {
            names: AllocIndex::of_rows(alloc, rows)?,
            nodes: AllocIndex::of_rows(alloc, rows)?,
        })
    }

    /// The same entries once more.
    pub fn fork(&self) -> Result<Indexes, NoMemory>
        ensures { IfOk result (λ copy. copy ≡ self.now) }
    {
        Ok(Indexes {
            names: self.names.fork()?,
            nodes: self.nodes.fork()?,
        })
    }

    /// Adds the entries of a row, unless they are those that were there; without memory perhaps
    /// only one of them.
    fn add_unless(&mut self, more: &RowEntries, had: &RowEntries) -> Result<(), NoMemory>
        ensures names { OnOk result (Gains alloc_name_cmp more.now.name had.now.name self.old.names self.new.names) }
        ensures nodes { OnOk result (Gains on_node_cmp more.now.node had.now.node self.old.nodes self.new.nodes) }
        ensures names_stay { OnErr result (Grows alloc_name_cmp self.old.names self.new.names) }
        ensures nodes_stay { OnErr result (Grows on_node_cmp self.old.nodes self.new.nodes) }
    {
        self.names.add_unless(&more.name, &had.name)?;
        self.nodes.add_unless(&more.node, &had.node)?;
        Ok(())
    }

    /// Removes the entries of a row, unless they are those that are kept; without memory perhaps
    /// only one of them, or none.
    fn remove_unless(&mut self, gone: &RowEntries, kept: &RowEntries) -> Result<(), NoMemory>
        ensures names { OnOk result (Loses alloc_name_cmp gone.now.name kept.now.name self.old.names self.new.names) }
        ensures nodes { OnOk result (Loses on_node_cmp gone.now.node kept.now.node self.old.nodes self.new.nodes) }
        ensures names_stay { Keeps alloc_name_cmp gone.now.name kept.now.name self.old.names self.new.names }
        ensures nodes_stay { Keeps on_node_cmp gone.now.node kept.now.node self.old.nodes self.new.nodes }
    {
        self.names.remove_unless(&gone.name, &kept.name)?;
        self.nodes.remove_unless(&gone.node, &kept.node)?;
        Ok(())
    }
}

/// Makes or replaces the row of the id, and keeps the entries of the rows. Without memory no row
/// changes, and an index may have an entry more.
pub(crate) fn put_indexed(
    rows: &mut Table<Allocation>,
    indexes: &mut Indexes,
    row: Allocation,
) -> Result<(), NoMemory>
    requires { AreRowIndexes rows.old indexes.old }
    ensures listed { AreRowIndexes rows.new indexes.new }
    ensures ok { OnOk result (rows.new ≡ put alloc_cmp alloc_id row rows.old) }
    ensures err { OnErr result (rows.new ≡ rows.old) }
{
    let new = RowEntries::of(Some(&row));
    let old = RowEntries::of(rows.get(&row.id));
    indexes.add_unless(&new, &old)?;
    rows.put(row)?;
    let _ = indexes.remove_unless(&old, &new);
    Ok(())
}
