ghost use Rattle.std.specs.Prelude.{◌≡◌, ◌≤◌, OnOk, OnErr, IfOk, filter, option_map, length, if◌then◌else◌};
ghost use Rattle.std.specs.Ordering.{nat_cmp};
ghost use Rattle.rows.specs.Keys.{name_cmp, eval_cmp, alloc_cmp, job_name, node_number, eval_id, alloc_id};
ghost use Rattle.fsm_tables.specs.Rows.{row_of, put_within};
ghost use Rattle.fsm_tables.specs.Claims.{claims, used, are_distinct};
ghost use Rattle.fsm_tables.specs.LiveNames.{live_named};
ghost use Rattle.fsm_tables.specs.Lookups.{lives_as, lives_for, lives_on, is_active_on, GivesRows};
ghost use Rattle.fsm_tables.specs.TableRows.{no_table_rows, TablesFit};

use crate::allocations::Allocations;
use crate::name::AllocName;
use pages::Table;
use rows::{
    AllocId, Allocation, EvalId, Evaluation, Job, JobName, NoMemory, Node, NodeId, Sequence, Usage,
};
use std::alloc::Global;
use std::marker::Model;

/// The four tables: at most 256 jobs by name, 64 nodes by number, 65,536 evaluations and 65,536
/// allocations by id. Contracts see the lists of their rows, each in strictly rising key.
#[derive(Drop)]
pub struct Tables {
    jobs: Table<Job>,
    nodes: Table<Node>,
    evals: Table<Evaluation>,
    allocs: Allocations,
}

impl Model for Tables {
    ghost use Rattle.std.specs.Prelude.{◌≤◌, length};
    ghost use Rattle.fsm_tables.specs.TableRows.{TableRows};

    ghost Value = { TableRows };

    ghost view = { λ t. record { jobs = t.jobs; nodes = t.nodes; evals = t.evals; allocs = t.allocs } };

    ghost invariant = { λ t. record { jobs : length t.jobs ≤ 256; nodes : length t.nodes ≤ 64; evals : length t.evals ≤ 65536 } };
}

impl Tables {
    /// The greatest number of jobs: 256.
    pub const MOST_JOBS: usize = 256;

    /// The greatest number of nodes: 64.
    pub const MOST_NODES: usize = 64;

    /// The greatest number of evaluations: 65,536.
    pub const MOST_EVALS: usize = 65_536;

    /// The greatest number of allocations: 65,536.
    pub const MOST_ALLOCS: usize = Allocations::MOST;

    /// The tables without rows. It takes no memory.
    pub fn empty(alloc: Global) -> Tables
        ensures { result ≡ no_table_rows }
    {
        Tables {
            jobs: Table::empty(alloc),
            nodes: Table::empty(alloc),
            evals: Table::empty(alloc),
            allocs: Allocations::empty(alloc),
        }
    }

    /// The tables of these rows. Each sum of what nodes have in use is added up in one walk, and
    /// the entries of each index are put in another. `NoMemory` where there is no memory for an
    /// index.
    pub fn of_rows(
        jobs: Table<Job>,
        nodes: Table<Node>,
        evals: Table<Evaluation>,
        allocs: Table<Allocation>,
    ) -> Result<Tables, NoMemory>
        requires jobs { length jobs ≤ 256 }
        requires nodes { length nodes ≤ 64 }
        requires evals { length evals ≤ 65536 }
        requires allocs { length allocs ≤ 65536 }
        ensures { IfOk result (λ t. t ≡ record { jobs = jobs; nodes = nodes; evals = evals; allocs = allocs }) }
    {
        Ok(Tables {
            jobs,
            nodes,
            evals,
            allocs: Allocations::of_rows(allocs)?,
        })
    }

    /// The same tables once more, which share their pages and those of the indexes; the sums are
    /// copied. No row and no page is copied. `NoMemory` where there is no memory for the lists of
    /// the greatest parts.
    pub fn fork(&self) -> Result<Tables, NoMemory>
        ensures { IfOk result (λ t. t ≡ self.now) }
    {
        Ok(Tables {
            jobs: self.jobs.fork()?,
            nodes: self.nodes.fork()?,
            evals: self.evals.fork()?,
            allocs: self.allocs.fork()?,
        })
    }

    /// The row of a job, if there is one.
    pub fn job(&self, name: &JobName) -> Option<&Job>
        ensures { option_map (λ row. row.now) result ≡ row_of name_cmp job_name name.now self.now.jobs }
    {
        self.jobs.get(name)
    }

    /// The row of a node, if there is one.
    pub fn node(&self, number: NodeId) -> Option<&Node>
        ensures { option_map (λ row. row.now) result ≡ row_of nat_cmp node_number number self.now.nodes }
    {
        self.nodes.get(&number)
    }

    /// The row of an evaluation, if there is one.
    pub fn eval(&self, id: EvalId) -> Option<&Evaluation>
        ensures { option_map (λ row. row.now) result ≡ row_of eval_cmp eval_id id self.now.evals }
    {
        self.evals.get(&id)
    }

    /// The row of an allocation, if there is one.
    pub fn alloc(&self, id: AllocId) -> Option<&Allocation>
        ensures { option_map (λ row. row.now) result ≡ row_of alloc_cmp alloc_id id self.now.allocs }
    {
        self.allocs.get(&id)
    }

    /// The live allocation of a name, if there is one: that of the least id, where several have the
    /// name. It takes time in the logarithm of the table.
    pub fn live_named(&self, name: &AllocName) -> Option<&Allocation>
        ensures { option_map (λ row. row.now) result ≡ live_named name.now self.now.allocs }
    {
        self.allocs.live_named(name)
    }

    /// The live allocations of a name, in rising id: none, one, or several where the state is not
    /// safe. It takes time in the logarithm of the table, and so much again for each of them.
    /// `NoMemory` where there is no memory for them.
    pub fn all_live_named(&self, name: &AllocName) -> Result<Sequence<Allocation>, NoMemory>
        ensures { GivesRows result (filter (lives_as name.now) self.now.allocs) }
    {
        self.allocs.all_live_named(name)
    }

    /// The live allocations of a job, in rising id. It takes time in the logarithm of the table,
    /// and so much again for each of them. `NoMemory` where there is no memory for them.
    pub fn live_of_job(&self, job: &JobName) -> Result<Sequence<Allocation>, NoMemory>
        ensures { GivesRows result (filter (lives_for job.now) self.now.allocs) }
    {
        self.allocs.live_of_job(job)
    }

    /// The live allocations on a node, in rising id. It takes time in the logarithm of the table,
    /// and so much again for each of them. `NoMemory` where there is no memory for them.
    pub fn live_on(&self, node: NodeId) -> Result<Sequence<Allocation>, NoMemory>
        ensures { GivesRows result (filter (lives_on node) self.now.allocs) }
    {
        self.allocs.live_on(node)
    }

    /// The allocations on a node that it has still to start, or runs, whether they are to run or to
    /// stop, in rising id: what is lost with the node. It takes time in the logarithm of the table,
    /// and so much again for each of them. `NoMemory` where there is no memory for them.
    pub fn active_on(&self, node: NodeId) -> Result<Sequence<Allocation>, NoMemory>
        ensures { GivesRows result (filter (is_active_on node) self.now.allocs) }
    {
        self.allocs.active_on(node)
    }

    /// Whether no two live allocations are of one name. It takes one walk over the index by name.
    pub fn are_named_once(&self) -> bool
        ensures { result ≡ are_distinct (claims self.now.allocs) }
    {
        self.allocs.are_named_once()
    }

    /// What the live allocations on a node take of it: the sums of their processor time, of
    /// their memory and of their disk. It takes one step.
    pub fn used(&self, node: NodeId) -> Usage
        ensures { result ≡ used node (claims self.now.allocs) }
    {
        self.allocs.used(node)
    }

    /// The jobs, by name.
    pub fn jobs(&self) -> &Table<Job>
        ensures { result.now ≡ self.now.jobs }
    {
        &self.jobs
    }

    /// The nodes, by number.
    pub fn nodes(&self) -> &Table<Node>
        ensures { result.now ≡ self.now.nodes }
    {
        &self.nodes
    }

    /// The evaluations, by id.
    pub fn evals(&self) -> &Table<Evaluation>
        ensures { result.now ≡ self.now.evals }
    {
        &self.evals
    }

    /// The allocations, by id.
    pub fn allocs(&self) -> &Table<Allocation>
        ensures { result.now ≡ self.now.allocs }
    {
        self.allocs.rows()
    }

    /// Says what the tables keep: strictly rising keys, their limits, and the ranges of their rows'
    /// parts. It does nothing.
    pub fn ranges(&self)
        ensures { TablesFit self.now }
    {
        self.jobs.ranges();
        self.nodes.ranges();
        self.evals.ranges();
        self.allocs.rows().ranges();
    }

    /// Makes or replaces the row of the job, and changes no other; a new row is not made where
    /// there are 256. Without memory nothing changes.
    pub fn put_job(&mut self, row: Job) -> Result<(), NoMemory>
        ensures ok { OnOk result (self.new ≡ record self.old { jobs = put_within name_cmp job_name 256 row self.old.jobs }) }
        ensures err { OnErr result (self.new ≡ self.old) }
    {
        self.jobs.put_within(Tables::MOST_JOBS, row)
    }

    /// Puts a row as `put_job` does, and says whether the job has a row now: if so, this one.
    pub fn put_job_within(&mut self, row: Job) -> Result<bool, NoMemory>
        ensures ok { OnOk result (self.new ≡ record self.old { jobs = put_within name_cmp job_name 256 row self.old.jobs }) }
        ensures row { IfOk result (λ is_there. row_of name_cmp job_name row.name self.new.jobs
            ≡ (if is_there then Some row else None)) }
        ensures err { OnErr result (self.new ≡ self.old) }
    {
        let is_there = self.jobs.len() < Tables::MOST_JOBS || self.jobs.get(&row.name).is_some();
        self.jobs.put_within(Tables::MOST_JOBS, row)?;
        Ok(is_there)
    }

    /// Makes or replaces the row of the node, and changes no other; a new row is not made where
    /// there are 64. Without memory nothing changes.
    pub fn put_node(&mut self, row: Node) -> Result<(), NoMemory>
        ensures ok { OnOk result (self.new ≡ record self.old { nodes = put_within nat_cmp node_number 64 row self.old.nodes }) }
        ensures err { OnErr result (self.new ≡ self.old) }
    {
        self.nodes.put_within(Tables::MOST_NODES, row)
    }

    /// Makes or replaces the row of the evaluation, and changes no other; a new row is not made
    /// where there are 65,536. Without memory nothing changes.
    pub fn put_eval(&mut self, row: Evaluation) -> Result<(), NoMemory>
        ensures ok { OnOk result (self.new ≡ record self.old { evals = put_within eval_cmp eval_id 65536 row self.old.evals }) }
        ensures err { OnErr result (self.new ≡ self.old) }
    {
        self.evals.put_within(Tables::MOST_EVALS, row)
    }

    /// Makes or replaces the row of the allocation, and changes no other; a new row is not made
    /// where there are 65,536. Without memory nothing changes.
    pub fn put_alloc(&mut self, row: Allocation) -> Result<(), NoMemory>
        ensures ok { OnOk result (self.new ≡ record self.old { allocs = put_within alloc_cmp alloc_id 65536 row self.old.allocs }) }
        ensures err { OnErr result (self.new ≡ self.old) }
    {
        self.allocs.put(row)
    }
}
