//! What is proposed of a node's drain.
ghost use Rattle.std.specs.Prelude.{◌≡◌, ◌≤◌, ◌⊎◌, [], true, false, length, is_ok, IfOk, IfErr, Ok, Err};
ghost use Rattle.rows.specs.declared.refusal.Refusal.TheVariants as refusals;
ghost use Rattle.rows.specs.Ids.{id_rises};
ghost use Rattle.rows.specs.Rising.{keeps};
ghost use Rattle.group_model.specs.Drains.{is_done};
ghost use Rattle.leader.specs.OpenDesks.{migrate_if_any, drain_command};

use drain::{is_done, next_moves};
use fsm_state::Cluster;
use rows::{AllocId, Command, NodeId, Refusal, RisingIds, Sequence};
use std::alloc::Global;

/// The command that these allocations are to move, if there are any.
fn migrate_if_any(ids: Sequence<AllocId>) -> Option<Command>
    requires { (length ids ≤ 64) × (keeps id_rises [] ids ≡ true) }
    ensures { result ≡ migrate_if_any ids }
{
    if ids.is_empty() {
        return None;
    }
    match RisingIds::check(ids) {
        Ok(ids) => Some(Command::Migrate(ids)),
        Err(_) => unreachable!(),
    }
}

/// What is proposed of a node's drain by a state, if anything is.
pub(crate) fn drain_command(
    alloc: Global,
    projected: &Cluster,
    node: NodeId,
) -> Result<Option<Command>, Refusal>
    ensures ok { IfOk result (λ c. drain_command projected.now node ≡ Ok c) }
    ensures err { let command = drain_command projected.now node in
        IfErr result (λ e. (e ≡ refusals.NoMemory) ⊎ (command ≡ Err e)) }
    ensures memory { let command = drain_command projected.now node in
        IfErr result (λ e. e ≡ refusals.NoMemory → is_ok command ≡ true) }
    ensures lives { IfErr result (λ e. e ≡ refusals.NoMemory → is_done node projected.now ≡ false) }
{
    projected.alloc_table().ranges();
    let ids = next_moves(alloc, projected, node)?;
    if is_done(projected, node) {
        return Ok(Some(Command::DrainDone(node)));
    }
    Ok(migrate_if_any(ids))
}
