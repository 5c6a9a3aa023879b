//! The blocked evaluations of a job, put anew with the classes that it asks for.
ghost use Rattle.std.specs.Prelude.{◌≡◌, true, IfOk, OnErr, filter, map};
ghost use Rattle.std.specs.List.{list_all, list_any};
ghost use Rattle.blocked.specs.Rooms.{is_of_job};
ghost use Rattle.blocked.specs.Inner.Anew.{anew_of, is_held, put_all};

use crate::held::BlockedEval;
use crate::rebuild::classes_of;
use fsm_tables::ReservedTable;
use rows::{Job, NoMemory};
use std::alloc::Global;

/// Those that are of a job, in rising id, with the classes that its groups ask for.
pub(crate) fn anew_of_job(
    alloc: Global,
    evals: &[BlockedEval],
    job: &Job,
) -> Result<Vec<BlockedEval>, NoMemory>
    ensures ok { let those = filter (is_of_job job.now.name) evals.now in
        IfOk result (λ anew. anew.items ≡ map (anew_of job.now) those) }
    ensures memory { OnErr result (list_any (is_of_job job.now.name) evals.now ≡ true) }
{
    let mut anew = Vec::new(alloc);
    for held in evals {
        if held.row.job == job.name {
            let classes = classes_of(alloc, job)?;
            let row = held.row;
            anew.push(BlockedEval { row, classes })?;
        }
    }
    Ok(anew)
}

/// Evaluations take the place of those of their ids, which are held. It takes no memory.
pub(crate) fn put_all(evals: &mut ReservedTable<BlockedEval>, anew: Vec<BlockedEval>)
    requires { list_all (is_held evals.old.rows) anew.items ≡ true }
    ensures { evals.new.rows ≡ put_all anew.items evals.old.rows }
{
    let mut anew = anew;
    while let Some(held) = anew.pop() {
        evals.put(held);
    }
}
