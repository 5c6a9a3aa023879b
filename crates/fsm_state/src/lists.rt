//! States made of rows.
ghost use Rattle.rows.specs.Limits.{most_allocs, most_evals, most_jobs, most_nodes};
ghost use Rattle.std.specs.Prelude.{◌≡◌, IfOk, T as Holds};
ghost use Rattle.std.specs.Ordering.{nat_cmp};
ghost use Rattle.rows.specs.Keys.{name_cmp, eval_cmp, alloc_cmp, job_name, node_number, eval_id, alloc_id};
ghost use Rattle.rows.specs.Rising.{is_rising};
ghost use Rattle.fsm_tables.specs.Lookups.{GivesRows};
ghost use Rattle.rows.specs.States.{InOrder};

use crate::cluster::Cluster;
use fsm_tables::{Table, Tables};
use rows::{Allocation, Evaluation, Index, Job, NoMemory, Node, Sequence};
use std::alloc::Global;

impl Cluster {
    /// The state of a count and of rows, each list within its limit and in strictly rising key.
    pub(crate) fn from_rows(
        alloc: Global,
        count: Index,
        jobs: Sequence<Job>,
        nodes: Sequence<Node>,
        evals: Sequence<Evaluation>,
        allocs: Sequence<Allocation>,
    ) -> Result<Cluster, NoMemory>
        requires jobs { InOrder name_cmp job_name most_jobs jobs }
        requires nodes { InOrder nat_cmp node_number most_nodes nodes }
        requires evals { InOrder eval_cmp eval_id most_evals evals }
        requires allocs { InOrder alloc_cmp alloc_id most_allocs allocs }
        ensures { IfOk result (λ s. s ≡ record {
          count = count;
          jobs = jobs;
          nodes = nodes;
          evals = evals;
          allocs = allocs;
        }) }
    {
        let tables = Tables::of_rows(
            Table::of_rising(jobs.into_vec())?,
            Table::of_rising(nodes.into_vec())?,
            Table::of_rising(evals.into_vec())?,
            Table::of_rising(allocs.into_vec())?,
        )?;
        Ok(Cluster::of_tables(alloc, count, tables))
    }

    /// All jobs, by name.
    pub fn jobs(&self, alloc: Global) -> Result<Sequence<Job>, NoMemory>
        ensures rows { GivesRows result self.now.jobs }
        ensures rising { IfOk result (λ rows. Holds (is_rising name_cmp job_name rows)) }
    {
        let table = self.job_table();
        table.ranges();
        table.copied_rows(alloc)
    }

    /// All nodes, by number.
    pub fn nodes(&self, alloc: Global) -> Result<Sequence<Node>, NoMemory>
        ensures rows { GivesRows result self.now.nodes }
        ensures rising { IfOk result (λ rows. Holds (is_rising nat_cmp node_number rows)) }
    {
        let table = self.node_table();
        table.ranges();
        table.copied_rows(alloc)
    }

    /// All evaluations, by id.
    pub fn evals(&self, alloc: Global) -> Result<Sequence<Evaluation>, NoMemory>
        ensures rows { GivesRows result self.now.evals }
        ensures rising { IfOk result (λ rows. Holds (is_rising eval_cmp eval_id rows)) }
    {
        let table = self.eval_table();
        table.ranges();
        table.copied_rows(alloc)
    }

    /// All allocations, by id.
    pub fn allocs(&self, alloc: Global) -> Result<Sequence<Allocation>, NoMemory>
        ensures rows { GivesRows result self.now.allocs }
        ensures rising { IfOk result (λ rows. Holds (is_rising alloc_cmp alloc_id rows)) }
    {
        let table = self.alloc_table();
        table.ranges();
        table.copied_rows(alloc)
    }
}
