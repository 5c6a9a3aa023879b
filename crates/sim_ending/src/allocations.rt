//! The lines of live allocations.
ghost use Rattle.std.specs.Prelude.{◌≡◌, ◌≢◌, [], filter, IfErr, IfOk, OnErr, OnOk};
ghost use Rattle.std.specs.Io.KnownBytes.{Appends};
ghost use Rattle.std.specs.List.{flat_map};
ghost use Rattle.fsm_tables.specs.Claims.{is_live};
ghost use Rattle.sim_ending.specs.declared.fault.EndError.TheVariants as errors;
ghost use Rattle.sim_ending.specs.Endings.{AreLiveRows, row_line, state_word};

use crate::fault::{EndError, told};
use fsm_state::Cluster;
use fsm_tables::{AllocName, Table, is_live};
use rows::{Allocation, ClientState, NoMemory};
use std::alloc::Global;
use std::io::Write;

/// The live allocations of a state, by job, group and index.
pub(crate) fn live_rows(alloc: Global, state: &Cluster) -> Result<Vec<Allocation>, NoMemory>
    ensures rows { IfOk result (λ rows. AreLiveRows state.now.allocs rows.items) }
    ensures memory { OnErr result (filter is_live state.now.allocs ≢ []) }
{
    let mut live = live_of(alloc, state.alloc_table())?;
    live.sort_by_key(|row| AllocName::of(row))?;
    Ok(live)
}

// The live ones of these, in their order.
#[tactic(auto, using(crate::proofs::Live::some_live))]
fn live_of(alloc: Global, rows: &Table<Allocation>) -> Result<Vec<Allocation>, NoMemory>
    ensures live { IfOk result (λ live. live.items ≡ filter is_live rows.now) }
    ensures memory { OnErr result (filter is_live rows.now ≢ []) }
{
    let mut live = Vec::new(alloc);
    for row in rows.rows() {
        if is_live(row) {
            live.push(*row)?;
        }
    }
    Ok(live)
}

/// Tells of each of these allocations.
#[tactic(auto, using(crate::proofs::Told::line_more))]
pub(crate) fn print_rows<W: Write>(out: &mut W, rows: &[Allocation]) -> Result<(), EndError>
    ensures lines { OnOk result (Appends (W.contents out.old) (W.contents out.new)
        (flat_map row_line rows.now)) }
    ensures fault { IfErr result (λ fault. fault ≡ errors.Output) }
{
    for row in rows {
        print_row(out, row)?;
    }
    Ok(())
}

fn print_row<W: Write>(out: &mut W, row: &Allocation) -> Result<(), EndError>
    ensures line { OnOk result (Appends (W.contents out.old) (W.contents out.new)
        (row_line row.now)) }
    ensures fault { IfErr result (λ fault. fault ≡ errors.Output) }
{
    let (job, group, node) = (row.job, row.group, row.node);
    let index = row.index.get();
    let entry = row.id.index.get();
    let slot = row.id.slot.get();
    let state = state_word(row.client);
    told(writeln!(
        out,
        "alloc {job}.{group}[{index}] id {entry}.{slot} node {node} {state}"
    ))
}

fn state_word(state: ClientState) -> &'static str
    ensures { result.now ≡ state_word state }
{
    match state {
        ClientState::Pending => "pending",
        ClientState::Running => "running",
        ClientState::Complete => "complete",
        ClientState::Failed => "failed",
        ClientState::Lost => "lost",
        ClientState::Unknown => "unknown",
    }
}
