//! A machine after a whole log, beside the one after its committed entries.

ghost use Rattle.std.specs.Prelude.{◌≡◌, ◌-◌, ◌<◌, ◌≤◌, length, take, None, IfOk, IfSome};
ghost use Rattle.raft_snapshot.specs.Bases.{state_from};

use crate::apply::apply_range;
use crate::log::Log;
use machine::Machine;
use rows::NoMemory;

/// A fork of the machine, brought on from commit to the end of the log.
pub fn project<M: Machine>(machine: &M, commit: u64, log: &Log<M>) -> Result<M, NoMemory>
    requires covered { log.now.base.index ≤ commit }
    requires committed { commit ≤ length log.now.entries }
    requires state { machine.now
        ≡ state_from M.spec log.now.base (take commit log.now.entries) }
    ensures { IfOk result (λ projected. projected
        ≡ state_from M.spec log.now.base log.now.entries) }
{
    let mut projected = machine.fork()?;
    apply_range(&mut projected, log, commit, log.last().get())?;
    Ok(projected)
}

/// Lets go of a machine. It is large: so this stands apart from what each proposal goes through.
#[cold]
#[inline(never)]
fn let_go<M: Machine>(projected: &mut Option<M>)
    ensures { projected.new ≡ None }
{
    *projected = None;
}

/// A second machine, where there is one, is brought on by the last entry of the log; it is let go
/// of where it finds no memory.
pub fn project_next<M: Machine>(projected: &mut Option<M>, log: &Log<M>)
    requires some { log.now.base.index < length log.now.entries }
    requires state { IfSome projected.old (λ old. old ≡ state_from M.spec log.now.base
        (take (length log.now.entries - 1) log.now.entries)) }
    ensures { IfSome projected.new (λ new. new ≡ state_from M.spec log.now.base log.now.entries) }
{
    let last = log.last().get();
    let lacks = match projected {
        Some(machine) => apply_range(machine, log, last - 1, last).is_err(),
        None => false,
    };
    if lacks {
        let_go(projected);
    }
}
