//! The last lines of a run.
ghost use Rattle.std.specs.Prelude.{◌≡◌, length, IfErr, IsOk, OnOk};
ghost use Rattle.std.specs.Io.KnownBytes.{Appends};
ghost use Rattle.sim_ending.specs.declared.fault.EndError.TheVariants as errors;
ghost use Rattle.sim_ending.specs.Endings.{HasRows, NoneIsUp, StopsAtRows, TellsEnding, total_line};
ghost use Rattle.sim_ending.specs.Inner.Tells.{OfServers, TellsRows};

use crate::allocations::{live_rows, print_rows};
use crate::clients::print_clients;
use crate::fault::{EndError, told};
use crate::newest::newest_state;
use crate::servers::print_servers;
use std::alloc::Global;
use std::io::Write;
use world::World;

/// Tells each server, the live allocations of the greatest applied state of the servers that are
/// up, each client, and how many events happened and messages were sent; then it flushes the
/// output.
///
/// Where there is no memory for the allocations it ends behind the servers. Where the output fails
/// nothing more is told.
pub fn print_end<W: Write>(alloc: Global, out: &mut W, world: &World) -> Result<(), EndError>
    ensures told { OnOk result (TellsEnding world.now (W.contents out.old) (W.contents out.new)) }
    ensures memory { IfErr result (λ fault. fault ≡ errors.NoMemory
        → StopsAtRows world.now (W.contents out.old) (W.contents out.new)) }
{
    // Each group has a run.
    world.one_list();
    print_servers(out, world)?;
    print_allocations(alloc, out, world)?;
    print_clients(out, world.clients())?;
    print_total(out, world)?;
    told(out.flush())
}

// Tells the live allocations of the state of the server that has applied most.
fn print_allocations<W: Write>(alloc: Global, out: &mut W, world: &World) -> Result<(), EndError>
    ensures lines { OnOk result (OfServers world.now.servers
        (TellsRows (W.contents out.old) (W.contents out.new))) }
    ensures memory { IfErr result (λ fault. fault ≡ errors.NoMemory
        → (out.new ≡ out.old) × OfServers world.now.servers HasRows) }
    ensures none { OfServers world.now.servers (λ servers. NoneIsUp servers
        → IsOk result × (out.new ≡ out.old)) }
{
    let Some(state) = newest_state(world) else {
        return Ok(());
    };
    let rows = live_rows(alloc, state)?;
    print_rows(out, &rows)
}

// Tells how many events happened, and how many messages were sent.
fn print_total<W: Write>(out: &mut W, world: &World) -> Result<(), EndError>
    ensures line { OnOk result (Appends (W.contents out.old) (W.contents out.new)
        (total_line (length world.now.trace) (length world.now.outbox.frames))) }
    ensures fault { IfErr result (λ fault. fault ≡ errors.Output) }
{
    let events = world.trace().len();
    let messages = world.sent().len();
    told(writeln!(out, "events {events} messages {messages}"))
}
