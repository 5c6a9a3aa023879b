ghost use Rattle.std.specs.Prelude.{◌≡◌, List, [], ◌≤◌, OnOk, OnErr, IfOk, filter, option_map, length, nat_lt, ◌||◌, T as Holds};
ghost use Rattle.fsm_tables.specs.Rows.{row_of, has_row, put, put_within};
ghost use Rattle.rows.specs.Keys.{alloc_cmp, alloc_id};
ghost use Rattle.fsm_tables.specs.Claims.{claims, used, are_distinct};
ghost use Rattle.fsm_tables.specs.LiveNames.{live_named};
ghost use Rattle.fsm_tables.specs.Lookups.{lives_as, lives_for, lives_on, is_active_on, GivesRows};

use crate::index_keys::{OnNode, first, last};
use crate::indexes::{Indexes, put_indexed};
use crate::listing::{first_under, rows_between};
use crate::name::AllocName;
use crate::usage::{held_by, put_on, sums_of, take_off};
use pages::Table;
use rows::{AllocId, Allocation, JobName, NoMemory, NodeId, Sequence, Usage};
use std::alloc::Global;
use std::marker::Model;

/// The allocations' rows, at most 65,536, with what the live ones take of each node. Contracts see
/// the list of the rows.
#[derive(Drop)]
pub(crate) struct Allocations {
    rows: Table<Allocation>,
    /// By node number.
    sums: [Usage; 65],
    indexes: Indexes,
}

impl Model for Allocations {
    ghost use Rattle.std.specs.Prelude.{List, ◌≤◌, length};
    ghost use Rattle.rows.specs.declared.allocation.Allocation.{Allocation};
    ghost use Rattle.fsm_tables.specs.Inner.Sums.{AreSummed};
    ghost use Rattle.fsm_tables.specs.Inner.Keys.{AreRowIndexes};

    ghost Value = { List Allocation };

    ghost view = { λ a. a.rows };

    ghost invariant = { λ a. record {
      summed : AreSummed a.rows a.sums;
      listed : AreRowIndexes a.rows a.indexes;
      few : length a.rows ≤ 65536;
    } };
}

impl Allocations {
    /// The greatest number of rows: 65,536.
    pub const MOST: usize = 65_536;

    /// No rows.
    pub fn empty(alloc: Global) -> Allocations
        ensures { result ≡ [] }
    {
        Allocations {
            rows: Table::empty(alloc),
            sums: [Usage::NONE; 65],
            indexes: Indexes::empty(alloc),
        }
    }

    /// These rows: the sums are added up in one walk, and the entries of each index are put in
    /// another.
    pub fn of_rows(rows: Table<Allocation>) -> Result<Allocations, NoMemory>
        requires { length rows ≤ 65536 }
        ensures { IfOk result (λ a. a ≡ rows) }
    {
        let sums = sums_of(&rows);
        let indexes = Indexes::of_rows(rows.memory(), &rows)?;
        Ok(Allocations {
            rows,
            sums,
            indexes,
        })
    }

    /// The same rows once more.
    pub fn fork(&self) -> Result<Allocations, NoMemory>
        ensures { IfOk result (λ copy. copy ≡ self.now) }
    {
        Ok(Allocations {
            rows: self.rows.fork()?,
            sums: self.sums,
            indexes: self.indexes.fork()?,
        })
    }

    /// The number of rows.
    pub fn len(&self) -> usize
        ensures { result ≡ length self.now }
    {
        self.rows.len()
    }

    /// The rows.
    pub fn rows(&self) -> &Table<Allocation>
        ensures rows { result.now ≡ self.now }
        ensures few { length result.now ≤ 65536 }
    {
        &self.rows
    }

    /// The live allocation of a name: that of the least id, where several have it. It takes time in
    /// the logarithm of the table.
    pub fn live_named(&self, name: &AllocName) -> Option<&Allocation>
        ensures { option_map (λ row. row.now) result ≡ live_named name.now self.now }
    {
        self.rows.ranges();
        first_under(&self.rows, &self.indexes.names, *name)
    }

    /// The live allocations of a name.
    pub fn all_live_named(&self, name: &AllocName) -> Result<Sequence<Allocation>, NoMemory>
        ensures { GivesRows result (filter (lives_as name.now) self.now) }
    {
        self.rows.ranges();
        let least = first(*name);
        let greatest = last(*name);
        rows_between(&self.rows, &self.indexes.names, least, greatest)
    }

    /// The live allocations of a job.
    pub fn live_of_job(&self, job: &JobName) -> Result<Sequence<Allocation>, NoMemory>
        ensures { GivesRows result (filter (lives_for job.now) self.now) }
    {
        self.rows.ranges();
        let least = first(AllocName::least_of(*job));
        let greatest = last(AllocName::greatest_of(*job));
        rows_between(&self.rows, &self.indexes.names, least, greatest)
    }

    /// The live allocations on a node.
    pub fn live_on(&self, node: NodeId) -> Result<Sequence<Allocation>, NoMemory>
        ensures { GivesRows result (filter (lives_on node) self.now) }
    {
        self.rows.ranges();
        let least = first(OnNode::live(node));
        let greatest = last(OnNode::live(node));
        rows_between(&self.rows, &self.indexes.nodes, least, greatest)
    }

    /// The allocations on a node that are pending, running or unknown.
    pub fn active_on(&self, node: NodeId) -> Result<Sequence<Allocation>, NoMemory>
        ensures { GivesRows result (filter (is_active_on node) self.now) }
    {
        self.rows.ranges();
        let least = first(OnNode::stopping(node));
        let greatest = last(OnNode::live(node));
        rows_between(&self.rows, &self.indexes.nodes, least, greatest)
    }

    /// Whether no two live allocations are of one name.
    pub fn are_named_once(&self) -> bool
        ensures { result ≡ are_distinct (claims self.now) }
    {
        self.rows.ranges();
        self.indexes.names.has_keys_once(&self.rows)
    }

    /// The row of an id.
    pub fn get(&self, id: &AllocId) -> Option<&Allocation>
        ensures { option_map (λ row. row.now) result ≡ row_of alloc_cmp alloc_id id.now self.now }
    {
        self.rows.get(id)
    }

    /// What the live allocations take of a node.
    pub fn used(&self, node: NodeId) -> Usage
        ensures { result ≡ used node (claims self.now) }
    {
        self.sums[node.number() as usize]
    }

    /// Makes or replaces the row of the id, and changes no other; a row under a new id is not made
    /// where there are `MOST`.
    pub fn put(&mut self, row: Allocation) -> Result<(), NoMemory>
        ensures ok { OnOk result (self.new ≡ put_within alloc_cmp alloc_id 65536 row self.old) }
        ensures err { OnErr result (self.new ≡ self.old) }
    {
        let has_row = self.get(&row.id).is_some();
        if has_row || self.rows.len() < Allocations::MOST {
            self.store(row)?;
        }
        Ok(())
    }

    /// The same, where there is room for the row.
    fn store(&mut self, row: Allocation) -> Result<(), NoMemory>
        requires { Holds (has_row alloc_cmp alloc_id row.id self.old || nat_lt (length self.old) 65536) }
        ensures ok { OnOk result (self.new ≡ put alloc_cmp alloc_id row self.old) }
        ensures err { OnErr result (self.new ≡ self.old) }
    {
        self.rows.ranges();
        let to = held_by(Some(&row));
        let from = held_by(self.rows.get(&row.id));
        put_indexed(&mut self.rows, &mut self.indexes, row)?;
        put_on(&mut self.sums, to);
        take_off(&mut self.sums, from);
        Ok(())
    }
}
