//! What holds of each execution of processes. Each function has an empty body: what it says is its
//! contract.
ghost use Rattle.processes.specs.Batches.{EachBatchMayHappen};
ghost use Rattle.processes.specs.Claims.{RefinesWorld};
ghost use Rattle.processes.specs.Groups.{group_abstraction, group_actors, stopped_by};
ghost use Rattle.processes.specs.Headline.{EachExecution, EachInterleaving, KeepsHeadline};
ghost use Rattle.processes.specs.Headline.{KeepsPromises};
ghost use Rattle.processes.specs.Logs.{EachLogExecution, KeepsOneList, log_abstraction};
ghost use Rattle.processes.specs.Logs.{log_actors, stopped};
ghost use Rattle.processes.specs.Loops.{ExecutionTo};

use machine_model::Machine;

/// Each execution of the log's servers as processes, killed at any moment, refines the log's world,
/// whatever the machine. (Raft, extended version 2014, figure 2: what is persistent.)
pub fn processes_refine_the_log<M: Machine>()
    ensures { EachLogExecution M.spec (λ n past g.
        RefinesWorld (log_actors M.spec n) (log_abstraction M.spec n) stopped past g) }
{}

/// What they may have told is of one list, with one leader a term.
pub fn processes_keep_one_list<M: Machine>()
    ensures { EachLogExecution M.spec (λ n past g. KeepsOneList M.spec n g) }
{}

/// Each execution of the group's servers and clients as processes, killed at any moment, refines
/// the group's world.
pub fn processes_refine_the_group()
    ensures { EachExecution (λ n nodes past g.
        RefinesWorld (group_actors n nodes) (group_abstraction n nodes) stopped_by past g) }
{}

/// What processes may have told keeps what is promised of the group.
pub fn processes_keep_the_headline()
    ensures { EachExecution (λ n nodes past g. KeepsPromises n nodes past g) }
{}

/// A batch of items is taken as a whole, cut or dropped: each is an execution.
pub fn a_batch_may_happen()
    ensures { EachBatchMayHappen }
{}

/// Where each process does alone what it may, and takes only messages that had left, then in
/// whatever order all of it happens that is an execution.
pub fn interleavings_are_executions()
    ensures { EachInterleaving (λ n nodes moves process.
        ExecutionTo (group_actors n nodes) moves process) }
{}

/// So what is promised of the group holds of whatever such processes may have told.
pub fn interleavings_keep_the_headline()
    ensures { EachInterleaving KeepsHeadline }
{}
