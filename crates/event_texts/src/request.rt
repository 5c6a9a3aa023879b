//! Requests to the leader, as a line of a scenario says them.
ghost use Rattle.std.specs.Prelude.{◌≡◌, ◌++◌, ◌∷◌, ℕ, Bool, List, Some, IfOk, IfSome, IsSomeAnd, OnOk, OnErr, codes, decimal};
ghost use Rattle.rows.specs.Fits.{GroupFits, GroupsFit, JobSpecFits, NodeIdFits, PriorityFits};
ghost use Rattle.rows.specs.Names.{NameFits};
ghost use Rattle.rows.specs.declared.job.Group.{Group};
ghost use Rattle.rows.specs.declared.job.JobSpec.{JobSpec};
ghost use Rattle.rows.specs.declared.request.OperatorRequest.{OperatorRequest};
ghost use Rattle.rows.specs.declared.request.OperatorRequest.TheVariants.{Drain, EvalPut, JobStop};
ghost use Rattle.event_texts.specs.Requests.{RequestFits, drain_text, group_text, groups_text, job_text, request_text};
ghost use Rattle.event_texts.specs.Inner.Lines.{BeginsJob};
ghost use Rattle.event_texts.specs.Inner.Plain.{IsRequestText};

use crate::list::{append_items, read_items};
use crate::spelled::{Spelled, append_word};
use crate::word::{
    append_next, append_size, append_text, cut, read_count, read_name, read_node, read_priority,
    read_quantity, read_space,
};
use rows::{Group, Groups, JobName, JobSpec, NoMemory, OperatorRequest, Priority, Size};
use std::alloc::Global;

/// Reads the text of a request: `put NAME PRIORITY GROUPS`, `stop NAME`, `eval NAME`, and
/// `drain NODE slow` or `drain NODE force`. A group is written as
/// `NAME:COUNT:CLASS:CPU:MEMORY:DISK`, with commas between groups. It reads exactly the one text of
/// each request, with one space between words and numbers in decimal without leading zeros.
pub(crate) fn read_request(alloc: Global, text: &str) -> Result<Option<OperatorRequest>, NoMemory>
    ensures named { IfOk result (λ read. IfSome read (λ request. IsRequestText request text.now)) }
    ensures read { (request : OperatorRequest) → RequestFits request
        → text.now ≡ request_text request → IfOk result (λ read. read ≡ Some request) }
    ensures memory { OnErr result (BeginsJob text.now) }
{
    let Some((verb, words)) = cut(text, ' ') else {
        return Ok(None);
    };
    if verb != "put" {
        return Ok(read_small_request(verb, words));
    }
    match read_job(alloc, words)? {
        Some(job) => Ok(Some(OperatorRequest::JobPut(job))),
        None => Ok(None),
    }
}

// A request other than `put`: it takes no memory.
fn read_small_request(verb: &str, words: &str) -> Option<OperatorRequest>
    ensures named { IfSome result (λ request. IsRequestText request (verb.now ++ 32 ∷ words.now)) }
    ensures stop { (name : List ℕ) → NameFits name → verb.now ≡ codes "stop" → words.now ≡ name
        → result ≡ Some (JobStop name) }
    ensures eval { (name : List ℕ) → NameFits name → verb.now ≡ codes "eval" → words.now ≡ name
        → result ≡ Some (EvalPut name) }
    ensures drain { (node : ℕ) (force : Bool) → NodeIdFits node → verb.now ≡ codes "drain"
        → words.now ≡ drain_text node force → result ≡ Some (Drain node force) }
{
    match verb {
        "stop" => Some(OperatorRequest::JobStop(read_name(words)?)),
        "eval" => Some(OperatorRequest::EvalPut(read_name(words)?)),
        "drain" => read_drain(words),
        _ => None,
    }
}

// What stands behind `drain`.
fn read_drain(words: &str) -> Option<OperatorRequest>
    ensures named { IfSome result (λ request. (node : ℕ) × (force : Bool) × NodeIdFits node
        × (words.now ≡ drain_text node force) × (request ≡ Drain node force)) }
    ensures read { (node : ℕ) (force : Bool) → NodeIdFits node → words.now ≡ drain_text node force
        → result ≡ Some (Drain node force) }
{
    let (node, mode) = cut(words, ' ')?;
    let node = read_node(node)?;
    match mode {
        "slow" => Some(OperatorRequest::Drain(node, false)),
        "force" => Some(OperatorRequest::Drain(node, true)),
        _ => None,
    }
}

// What stands behind `put`.
fn read_job(alloc: Global, text: &str) -> Result<Option<JobSpec>, NoMemory>
    ensures named { IfOk result (λ read. IfSome read (λ job. JobSpecFits job
        × (text.now ≡ job_text job))) }
    ensures read { (job : JobSpec) → JobSpecFits job → text.now ≡ job_text job
        → IfOk result (λ read. read ≡ Some job) }
{
    let Some((name, priority, groups)) = read_head(text) else {
        return Ok(None);
    };
    let Some(groups) = read_groups(alloc, groups)? else {
        return Ok(None);
    };
    Ok(Some(JobSpec {
        name,
        priority,
        groups,
    }))
}

// The name and the priority of a job, and the text of its groups.
fn read_head(text: &str) -> Option<(JobName, Priority, &str)>
    ensures named { IfSome result (λ head. NameFits head.0 × PriorityFits head.1
        × (text.now ≡ head.0 ++ 32 ∷ (decimal head.1 ++ 32 ∷ head.2.now))) }
    ensures read { (name : List ℕ) (priority : ℕ) (groups : List ℕ) → NameFits name
        → PriorityFits priority
        → text.now ≡ name ++ 32 ∷ (decimal priority ++ 32 ∷ groups)
        → IsSomeAnd result (λ head. (head.0 ≡ name) × (head.1 ≡ priority) × (head.2.now ≡ groups)) }
{
    let (name, rest) = cut(text, ' ')?;
    let (priority, groups) = cut(rest, ' ')?;
    Some((read_name(name)?, read_priority(priority)?, groups))
}

// The groups of a job.
fn read_groups(alloc: Global, text: &str) -> Result<Option<Groups>, NoMemory>
    ensures named { IfOk result (λ read. IfSome read (λ groups. GroupsFit groups
        × (text.now ≡ groups_text groups))) }
    ensures read { (groups : List Group) → GroupsFit groups → text.now ≡ groups_text groups
        → IfOk result (λ read. read ≡ Some groups) }
{
    let Some(groups) = read_items(alloc, text)? else {
        return Ok(None);
    };
    Ok(Groups::check(groups).ok())
}

/// One group, as `NAME:COUNT:CLASS:CPU:MEMORY:DISK`.
pub(crate) fn read_group(text: &str) -> Option<Group>
    ensures named { IfSome result (λ group. GroupFits group × (text.now ≡ group_text group)) }
    ensures read { (group : Group) → GroupFits group → text.now ≡ group_text group
        → result ≡ Some group }
{
    let (name, rest) = cut(text, ':')?;
    let (count, rest) = cut(rest, ':')?;
    let (class, rest) = cut(rest, ':')?;
    let (cpu, rest) = cut(rest, ':')?;
    let (mem, disk) = cut(rest, ':')?;
    Some(Group {
        name: read_name(name)?,
        count: read_count(count)?,
        class: read_name(class)?,
        size: Size {
            cpu: read_quantity(cpu)?,
            mem: read_quantity(mem)?,
            disk: read_space(disk)?,
        },
    })
}

/// Puts a group to the end, as `NAME:COUNT:CLASS:CPU:MEMORY:DISK`.
pub(crate) fn append_group(group: &Group, out: &mut Vec<u8>) -> Result<(), NoMemory>
    ensures { OnOk result (GroupFits group.now
        × (out.new.items ≡ out.old.items ++ group_text group.now)) }
{
    group.name.append(out)?;
    append_next(b':', group.count.get() as u64, out)?;
    out.push(b':')?;
    group.class.append(out)?;
    append_size(b':', group.size, out)
}

// What stands behind `put`.
fn append_job(job: &JobSpec, out: &mut Vec<u8>) -> Result<(), NoMemory>
    ensures { OnOk result (JobSpecFits job.now
        × (out.new.items ≡ out.old.items ++ job_text job.now)) }
{
    job.name.append(out)?;
    append_next(b' ', job.priority.get() as u64, out)?;
    out.push(b' ')?;
    append_items(job.groups.as_slice(), out)
}

/// Puts the text of a request to the end.
pub(crate) fn append_request(request: &OperatorRequest, out: &mut Vec<u8>) -> Result<(), NoMemory>
    ensures { OnOk result (RequestFits request.now
        × (out.new.items ≡ out.old.items ++ request_text request.now)) }
{
    match request {
        OperatorRequest::JobPut(job) => {
            append_text("put ", out)?;
            append_job(job, out)
        }
        OperatorRequest::JobStop(name) => {
            append_text("stop", out)?;
            append_word(name, out)
        }
        OperatorRequest::EvalPut(name) => {
            append_text("eval", out)?;
            append_word(name, out)
        }
        OperatorRequest::Drain(node, force) => {
            append_text("drain", out)?;
            append_word(node, out)?;
            append_text(if *force { " force" } else { " slow" }, out)
        }
    }
}
