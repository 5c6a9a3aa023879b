//! The lines of clients.
ghost use Rattle.std.specs.Prelude.{◌≡◌, ◌++◌, IfErr, OnOk};
ghost use Rattle.std.specs.Io.KnownBytes.{Appends};
ghost use Rattle.sim_ending.specs.declared.fault.EndError.TheVariants as errors;
ghost use Rattle.sim_ending.specs.Endings.{client_line, id_text, numbered_lines, running_words};
ghost use Rattle.sim_ending.specs.Inner.Tells.{agent_line};

use crate::fault::{EndError, told};
use client_agent::{Agent, RunningAllocation};
use rows::AllocId;
use std::io::Write;

/// Tells how each client stands.
#[tactic(auto, using(crate::proofs::Told::numbered_more))]
pub(crate) fn print_clients<W: Write>(out: &mut W, clients: &[Agent]) -> Result<(), EndError>
    ensures lines { OnOk result (Appends (W.contents out.old) (W.contents out.new)
        (numbered_lines agent_line 1 clients.now)) }
    ensures fault { IfErr result (λ fault. fault ≡ errors.Output) }
{
    for (place, client) in clients.iter().enumerate() {
        print_client(out, place + 1, client)?;
    }
    Ok(())
}

fn print_client<W: Write>(out: &mut W, number: usize, client: &Agent) -> Result<(), EndError>
    ensures line { OnOk result (Appends (W.contents out.old) (W.contents out.new)
        (client_line number client.now.client)) }
    ensures fault { IfErr result (λ fault. fault ≡ errors.Output) }
{
    let (Some(seen), Some(running)) = (client.seen(), client.running()) else {
        return told(writeln!(out, "client {number} down"));
    };
    told(write!(out, "client {number} up seen {seen} running "))?;
    print_running(out, running)?;
    told(writeln!(out))
}

// The ids of what runs, with commas between, and a dash where nothing runs.
#[tactic(auto, using(crate::proofs::Told::line_more, crate::proofs::Told::told_both))]
fn print_running<W: Write>(out: &mut W, running: &[RunningAllocation]) -> Result<(), EndError>
    ensures words { OnOk result (Appends (W.contents out.old) (W.contents out.new)
        (running_words running.now)) }
    ensures fault { IfErr result (λ fault. fault ≡ errors.Output) }
{
    let Some((first, others)) = running.split_first() else {
        return told(write!(out, "-"));
    };
    print_id(out, "", first.id)?;
    for other in others {
        print_id(out, ",", other.id)?;
    }
    Ok(())
}

// An id, behind what stands between it and the one before it.
fn print_id<W: Write>(out: &mut W, between: &str, id: AllocId) -> Result<(), EndError>
    ensures id { OnOk result (Appends (W.contents out.old) (W.contents out.new)
        (between.now ++ id_text id)) }
    ensures fault { IfErr result (λ fault. fault ≡ errors.Output) }
{
    let entry = id.index.get();
    let slot = id.slot.get();
    told(write!(out, "{between}{entry}.{slot}"))
}
