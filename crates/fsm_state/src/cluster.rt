//! The replicated state as a value: its rows, and one row put.
ghost use Rattle.std.specs.Prelude.{◌≡◌, ◌∷◌, [], ◌+◌, ◌<◌, ◌^◌, ◌||◌, not, Some, None, OnOk, OnErr, IfOk, filter, option_map, T as Holds, if◌then◌else◌};
ghost use Rattle.std.specs.List.{list_any};
ghost use Rattle.fsm_tables.specs.Claims.{claim_of, claims, used, is_live};
ghost use Rattle.fsm_tables.specs.LiveNames.{live_named};
ghost use Rattle.fsm_tables.specs.Lookups.{lives_for, lives_on, is_active_on, GivesRows};
ghost use Rattle.fsm_tables.specs.TableRows.{TablesFit};
ghost use Rattle.fsm_model.specs.Words.{no_rows, same_alloc, job_of, node_of, eval_of, alloc_of};
ghost use Rattle.fsm_model.specs.Effect.{with_next_count};
ghost use Rattle.fsm_model.specs.Safe.{are_distinct};
ghost use Rattle.fsm_state.specs.Inner.Alone.{is_free_but, is_name_free};
ghost use Rattle.fsm_state.specs.Inner.Steps.{rows_of, put_job, put_node, put_eval, put_alloc};

use fsm_tables::{AllocName, Table, Tables, is_live};
use rows::{
    AllocId, Allocation, EntryIndex, EvalId, Evaluation, Index, Job, JobName, NoMemory, Node,
    NodeId, Sequence, Usage,
};
use std::alloc::Global;
use std::marker::Model;

/// The replicated state of a server group: how many commands were applied, and the rows of jobs,
/// nodes, evaluations and allocations. Contracts see the number and the four lists of rows, each in
/// strictly rising key. (Nomad documentation, "Consensus Protocol": what the servers replicate.)
#[derive(Drop)]
pub struct Cluster {
    alloc: Global,
    count: Index,
    tables: Tables,
    /// Whether it is known that no two live allocations are of one name: each put keeps it by a
    /// look at the row's own name.
    knows_names_distinct: bool,
}

impl Model for Cluster {
    ghost use Rattle.std.specs.Prelude.{T as Holds};
    ghost use Rattle.rows.specs.State.{State};
    ghost use Rattle.fsm_tables.specs.Claims.{claims};
    ghost use Rattle.fsm_model.specs.Safe.{are_distinct};

    ghost Value = { State };

    ghost view = { λ c. record {
      count = c.count;
      jobs = c.tables.jobs;
      nodes = c.tables.nodes;
      evals = c.tables.evals;
      allocs = c.tables.allocs;
    } };

    ghost invariant = { λ c. Holds c.knows_names_distinct
        → Holds (are_distinct (claims c.tables.allocs)) };
}

/// Whether the id is among these. It takes time of the list.
pub fn is_among(id: AllocId, ids: &[AllocId]) -> bool
    ensures { result ≡ list_any (same_alloc id) ids.now }
{
    for other in ids {
        if id == *other {
            return true;
        }
    }
    false
}

impl Cluster {
    /// The state before the first command. It takes no memory.
    pub fn new(alloc: Global) -> Cluster
        ensures { result ≡ no_rows }
    {
        Cluster {
            alloc,
            count: Index::ZERO,
            tables: Tables::empty(alloc),
            knows_names_distinct: true,
        }
    }

    /// The state of these tables, after so many commands.
    pub(crate) fn of_tables(alloc: Global, count: Index, tables: Tables) -> Cluster
        ensures { result ≡ record {
          count = count;
          jobs = tables.jobs;
          nodes = tables.nodes;
          evals = tables.evals;
          allocs = tables.allocs;
        } }
    {
        let knows_names_distinct = tables.are_named_once();
        Cluster {
            alloc,
            count,
            tables,
            knows_names_distinct,
        }
    }

    /// The same state once more, which shares the pages of its tables.
    pub(crate) fn copied(&self) -> Result<Cluster, NoMemory>
        ensures { IfOk result (λ copy. copy ≡ self.now) }
    {
        Ok(Cluster {
            alloc: self.alloc,
            count: self.count,
            tables: self.tables.fork()?,
            knows_names_distinct: self.knows_names_distinct,
        })
    }

    /// How many commands were applied.
    pub fn applied(&self) -> Index
        ensures { result ≡ self.now.count }
    {
        self.count
    }

    /// The row of a job, if there is one.
    pub fn job(&self, name: &JobName) -> Option<&Job>
        ensures { option_map (λ row. row.now) result ≡ job_of name.now self.now }
    {
        self.tables.job(name)
    }

    /// The row of a node, if there is one.
    pub fn node(&self, number: NodeId) -> Option<&Node>
        ensures { option_map (λ row. row.now) result ≡ node_of number self.now }
    {
        self.tables.node(number)
    }

    /// The row of an evaluation, if there is one.
    pub fn eval(&self, id: EvalId) -> Option<&Evaluation>
        ensures { option_map (λ row. row.now) result ≡ eval_of id self.now }
    {
        self.tables.eval(id)
    }

    /// The row of an allocation, if there is one.
    pub fn alloc(&self, id: AllocId) -> Option<&Allocation>
        ensures { option_map (λ row. row.now) result ≡ alloc_of id self.now }
    {
        self.tables.alloc(id)
    }

    /// The live allocation of a name, if there is one: that of the least id, where several have the
    /// name.
    pub fn live_named(&self, name: &AllocName) -> Option<&Allocation>
        ensures { option_map (λ row. row.now) result ≡ live_named name.now self.now.allocs }
    {
        self.tables.live_named(name)
    }

    /// The live allocations of a job, in rising id. It takes time in the logarithm of the table,
    /// and so much again for each of them. `NoMemory` where there is no memory for them.
    pub fn live_of_job(&self, job: &JobName) -> Result<Sequence<Allocation>, NoMemory>
        ensures { GivesRows result (filter (lives_for job.now) self.now.allocs) }
    {
        self.tables.live_of_job(job)
    }

    /// The live allocations on a node, in rising id. It takes time in the logarithm of the table,
    /// and so much again for each of them. `NoMemory` where there is no memory for them.
    pub fn live_on(&self, node: NodeId) -> Result<Sequence<Allocation>, NoMemory>
        ensures { GivesRows result (filter (lives_on node) self.now.allocs) }
    {
        self.tables.live_on(node)
    }

    /// The allocations on a node that are pending, running or unknown, in rising id. It takes time
    /// in the logarithm of the table, and so much again for each of them. `NoMemory` where there is
    /// no memory for them.
    pub fn active_on(&self, node: NodeId) -> Result<Sequence<Allocation>, NoMemory>
        ensures { GivesRows result (filter (is_active_on node) self.now.allocs) }
    {
        self.tables.active_on(node)
    }

    /// What the live allocations on a node take of it: the sums of their processor time, of
    /// their memory and of their disk.
    pub fn used(&self, node: NodeId) -> Usage
        ensures { result ≡ used node (claims self.now.allocs) }
    {
        self.tables.used(node)
    }

    /// The jobs, by name.
    pub fn job_table(&self) -> &Table<Job>
        ensures rows { result.now ≡ self.now.jobs }
    {
        self.tables.jobs()
    }

    /// The nodes, by number.
    pub fn node_table(&self) -> &Table<Node>
        ensures rows { result.now ≡ self.now.nodes }
    {
        self.tables.nodes()
    }

    /// The evaluations, by id.
    pub fn eval_table(&self) -> &Table<Evaluation>
        ensures rows { result.now ≡ self.now.evals }
    {
        self.tables.evals()
    }

    /// The allocations, by id.
    pub fn alloc_table(&self) -> &Table<Allocation>
        ensures rows { result.now ≡ self.now.allocs }
    {
        self.tables.allocs()
    }

    /// Says what the tables keep. It does nothing.
    pub(crate) fn ranges(&self)
        ensures count { self.now.count < 2 ^ 40 }
        ensures tables { TablesFit (rows_of self.now) }
    {
        let _count = self.count.get();
        self.tables.ranges();
    }

    /// Where it takes its memory from.
    pub(crate) fn memory(&self) -> Global {
        self.alloc
    }

    /// One more command.
    pub(crate) fn advance(&mut self) -> EntryIndex
        requires { self.old.count + 1 < 2 ^ 40 }
        ensures state { self.new ≡ with_next_count self.old }
        ensures entry { result ≡ self.old.count + 1 }
    {
        let entry = EntryIndex::after(self.count);
        self.count = entry.index();
        entry
    }

    /// Makes or replaces the row of the job.
    pub(crate) fn put_job(&mut self, row: Job) -> Result<(), NoMemory>
        ensures { OnOk result (self.new ≡ put_job row self.old) }
    {
        self.tables.put_job(row)
    }

    /// Puts a row as `put_job` does, and says whether the job has a row now: if so, this one.
    pub(crate) fn put_job_within(&mut self, row: Job) -> Result<bool, NoMemory>
        ensures ok { OnOk result (self.new ≡ put_job row self.old) }
        ensures row { IfOk result (λ is_there. job_of row.name self.new
            ≡ (if is_there then Some row else None)) }
    {
        self.tables.put_job_within(row)
    }

    /// Makes or replaces the row of the node.
    pub(crate) fn put_node(&mut self, row: Node) -> Result<(), NoMemory>
        ensures { OnOk result (self.new ≡ put_node row self.old) }
    {
        self.tables.put_node(row)
    }

    /// Makes or replaces the row of the evaluation.
    pub(crate) fn put_eval(&mut self, row: Evaluation) -> Result<(), NoMemory>
        ensures { OnOk result (self.new ≡ put_eval row self.old) }
    {
        self.tables.put_eval(row)
    }

    /// Whether it is known that no two live allocations are of one name. It is known of each state
    /// that was made by puts none of which gave a live row the name of another; where it is not
    /// known, names may be held once all the same.
    pub fn knows_names_distinct(&self) -> bool
        ensures { Holds result → Holds (are_distinct (claims self.now.allocs)) }
    {
        self.knows_names_distinct
    }

    /// Whether no two live allocations are of one name, by a walk over the live ones.
    pub(crate) fn are_named_once(&self) -> bool
        ensures { result ≡ are_distinct (claims self.now.allocs) }
    {
        self.tables.are_named_once()
    }

    /// Whether the live allocation that the name finds, if there is one, is among these.
    pub(crate) fn is_free_but(&self, name: &AllocName, ids: &[AllocId]) -> bool
        ensures { result ≡ is_free_but ids.now (live_named name.now self.now.allocs) }
    {
        match self.live_named(name) {
            Some(row) => is_among(row.id, ids),
            None => true,
        }
    }

    /// Whether a row takes no name from another: it is not live, or its name finds no other row.
    fn takes_no_name(&self, row: &Allocation) -> bool
        ensures { let claim = claim_of row.now in result ≡ (
            not (is_live row.now) || is_name_free (row.now.id ∷ []) self.now.allocs claim) }
    {
        !is_live(row) || self.is_free_but(&AllocName::of(row), &[row.id])
    }

    /// Makes or replaces the row of the allocation.
    pub(crate) fn put_alloc(&mut self, row: Allocation) -> Result<(), NoMemory>
        ensures { OnOk result (self.new ≡ put_alloc row self.old) }
    {
        self.ranges();
        self.knows_names_distinct = self.knows_names_distinct && self.takes_no_name(&row);
        self.tables.put_alloc(row)
    }
}
