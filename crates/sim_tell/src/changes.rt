//! Which rows of the state entries changed.
ghost use Rattle.std.specs.Prelude.{◌≡◌, ◌≢◌, ◌++◌, Some, MatchBool, OnOk, string_bytes};
ghost use Rattle.sim_tell.specs.Words.{TellsRow, TellsNew, with_word};
ghost use Rattle.sim_tell.specs.Changes.{IsOldJob, IsOldNode, IsOldEval, IsOldAlloc, TellsTables, job_state, job_words, node_words, care_words, eval_words, alloc_words, wish_words};

use crate::words::part;
use fsm_state::Cluster;
use rows::{Allocation, Desired, DrainMode, Evaluation, Job, NoMemory, Node};
use sim_labels::{client_word, drain_word, node_word, status_word};

/// The rows that another state has otherwise, by name, as they are there.
pub(crate) fn push_rows(words: &mut String, old: &Cluster, new: &Cluster) -> Result<(), NoMemory>
    ensures { OnOk result (TellsTables old.now new.now
        (string_bytes words.old) (string_bytes words.new)) }
{
    push_jobs(words, old, new)?;
    push_nodes(words, old, new)?;
    push_evals(words, old, new)?;
    push_allocs(words, old, new)
}

fn push_jobs(words: &mut String, old: &Cluster, new: &Cluster) -> Result<(), NoMemory>
    ensures { OnOk result (TellsNew (IsOldJob old.now) job_words new.now.jobs
        (string_bytes words.old) (string_bytes words.new)) }
{
    for row in new.job_table().rows() {
        push_new_job(words, old, row)?;
    }
    Ok(())
}

fn push_new_job(words: &mut String, old: &Cluster, row: &Job) -> Result<(), NoMemory>
    ensures { OnOk result (TellsRow (IsOldJob old.now) job_words row.now
        (string_bytes words.old) (string_bytes words.new)) }
{
    if is_old_job(old, row) {
        return Ok(());
    }
    push_job(words, row)
}

// Whether a job was put or stopped last by the same entry.
fn is_old_job(old: &Cluster, row: &Job) -> bool
    ensures { MatchBool result (IsOldJob old.now row.now) (IsOldJob old.now row.now → ⊥) }
{
    match old.job(&row.name) {
        Some(before) => before.version == row.version,
        None => false,
    }
}

fn push_job(words: &mut String, row: &Job) -> Result<(), NoMemory>
    ensures { OnOk result (string_bytes words.new
        ≡ with_word (string_bytes words.old) (job_words row.now)) }
{
    let (name, state) = (row.name, job_state(row.stopped));
    part(words)?;
    write!(words, "job {name} {state}")?;
    Ok(())
}

fn job_state(stopped: bool) -> &'static str
    ensures { result.now ≡ job_state stopped }
{
    if stopped { "stopped" } else { "put" }
}

fn push_nodes(words: &mut String, old: &Cluster, new: &Cluster) -> Result<(), NoMemory>
    ensures { OnOk result (TellsNew (IsOldNode old.now) node_words new.now.nodes
        (string_bytes words.old) (string_bytes words.new)) }
{
    for row in new.node_table().rows() {
        push_new_node(words, old, row)?;
    }
    Ok(())
}

fn push_new_node(words: &mut String, old: &Cluster, row: &Node) -> Result<(), NoMemory>
    ensures { OnOk result (TellsRow (IsOldNode old.now) node_words row.now
        (string_bytes words.old) (string_bytes words.new)) }
{
    if is_old_node(old, row) {
        return Ok(());
    }
    push_node(words, row)
}

// Whether a node is as it was, but for the entry that gave room on it.
fn is_old_node(old: &Cluster, row: &Node) -> bool
    ensures { MatchBool result (IsOldNode old.now row.now) (IsOldNode old.now row.now → ⊥) }
{
    match old.node(row.number) {
        Some(before) => {
            before.status == row.status
                && before.eligible == row.eligible
                && before.drain == row.drain
        }
        None => false,
    }
}

fn push_node(words: &mut String, row: &Node) -> Result<(), NoMemory>
    ensures { OnOk result (string_bytes words.new
        ≡ with_word (string_bytes words.old) (node_words row.now)) }
{
    let (number, status) = (row.number, node_word(row.status));
    part(words)?;
    write!(words, "node {number} {status}")?;
    push_care(words, row.drain, row.eligible)
}

// How a node is emptied; or, where it is not, that nothing may be placed on it.
fn push_care(words: &mut String, drain: DrainMode, eligible: bool) -> Result<(), NoMemory>
    ensures { OnOk result (string_bytes words.new
        ≡ string_bytes words.old ++ care_words drain eligible) }
{
    if drain != DrainMode::Off {
        let drain = drain_word(drain);
        write!(words, " draining {drain}")?;
    } else if !eligible {
        words.push_str(" not eligible")?;
    }
    Ok(())
}

fn push_evals(words: &mut String, old: &Cluster, new: &Cluster) -> Result<(), NoMemory>
    ensures { OnOk result (TellsNew (IsOldEval old.now) eval_words new.now.evals
        (string_bytes words.old) (string_bytes words.new)) }
{
    for row in new.eval_table().rows() {
        push_new_eval(words, old, row)?;
    }
    Ok(())
}

fn push_new_eval(words: &mut String, old: &Cluster, row: &Evaluation) -> Result<(), NoMemory>
    ensures { OnOk result (TellsRow (IsOldEval old.now) eval_words row.now
        (string_bytes words.old) (string_bytes words.new)) }
{
    if is_old_eval(old, row) {
        return Ok(());
    }
    push_eval(words, row)
}

fn is_old_eval(old: &Cluster, row: &Evaluation) -> bool
    ensures { MatchBool result (IsOldEval old.now row.now) (IsOldEval old.now row.now → ⊥) }
{
    match old.eval(row.id) {
        Some(before) => *before == *row,
        None => false,
    }
}

fn push_eval(words: &mut String, row: &Evaluation) -> Result<(), NoMemory>
    ensures { OnOk result (string_bytes words.new
        ≡ with_word (string_bytes words.old) (eval_words row.now)) }
{
    let (entry, slot) = (row.id.index.get(), row.id.slot);
    let (job, status) = (row.job, status_word(row.status));
    part(words)?;
    write!(words, "eval {entry}.{slot} of {job} {status}")?;
    Ok(())
}

fn push_allocs(words: &mut String, old: &Cluster, new: &Cluster) -> Result<(), NoMemory>
    ensures { OnOk result (TellsNew (IsOldAlloc old.now) alloc_words new.now.allocs
        (string_bytes words.old) (string_bytes words.new)) }
{
    for row in new.alloc_table().rows() {
        push_new_alloc(words, old, row)?;
    }
    Ok(())
}

fn push_new_alloc(words: &mut String, old: &Cluster, row: &Allocation) -> Result<(), NoMemory>
    ensures { OnOk result (TellsRow (IsOldAlloc old.now) alloc_words row.now
        (string_bytes words.old) (string_bytes words.new)) }
{
    if is_old_alloc(old, row) {
        return Ok(());
    }
    push_alloc(words, row)
}

// Whether what may change of an allocation is as it was.
fn is_old_alloc(old: &Cluster, row: &Allocation) -> bool
    ensures { MatchBool result (IsOldAlloc old.now row.now) (IsOldAlloc old.now row.now → ⊥) }
{
    match old.alloc(row.id) {
        Some(before) => {
            before.desired == row.desired
                && before.client == row.client
                && before.migrate == row.migrate
        }
        None => false,
    }
}

fn push_alloc(words: &mut String, row: &Allocation) -> Result<(), NoMemory>
    ensures { OnOk result (string_bytes words.new
        ≡ with_word (string_bytes words.old) (alloc_words row.now)) }
{
    let (entry, slot) = (row.id.index.get(), row.id.slot.get());
    let (job, group, index) = (row.job, row.group, row.index.get());
    let (node, state) = (row.node, client_word(row.client));
    part(words)?;
    write!(
        words,
        "alloc {entry}.{slot} {job}.{group}[{index}] node {node} {state}"
    )?;
    push_wish(words, row.desired, row.migrate)
}

// That an allocation is to stop, or to move.
fn push_wish(words: &mut String, desired: Desired, migrate: bool) -> Result<(), NoMemory>
    ensures { OnOk result (string_bytes words.new
        ≡ string_bytes words.old ++ wish_words desired migrate) }
{
    if desired == Desired::Stop {
        words.push_str(" to stop")?;
    } else if migrate {
        words.push_str(" to move")?;
    }
    Ok(())
}
