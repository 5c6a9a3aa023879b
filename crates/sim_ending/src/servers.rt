//! The lines of servers.
ghost use Rattle.std.specs.Prelude.{◌≡◌, ◌<◌, Some, length, slice_get, IfErr, OnOk};
ghost use Rattle.std.specs.Io.KnownBytes.{Appends};
ghost use Rattle.group_model.specs.Servers.{Server as AnyServer};
ghost use Rattle.server.specs.ServerViews.{RefinesServer};
ghost use Rattle.sim_ending.specs.declared.fault.EndError.TheVariants as errors;
ghost use Rattle.sim_ending.specs.Endings.{server_line};
ghost use Rattle.sim_ending.specs.Inner.Tells.{OfServers, TellsServers, down_line, role_words, up_line};

use crate::fault::{EndError, told};
use raft_core::Role;
use rows::{Index, ServerId, Term};
use server::Server;
use std::io::Write;
use world::World;

/// The server at a place, from 0.
pub(crate) fn server_at(world: &World, position: usize) -> &Server
    requires { position < length world.now.servers }
    ensures { slice_get world.now.servers position ≡ Some result.now }
{
    // There are at most five.
    world.size_is_3_or_5();
    let Some(id) = ServerId::from_position(position) else {
        unreachable!()
    };
    let Some(server) = world.server(id) else {
        unreachable!()
    };
    server
}

/// Tells how each server stands.
pub(crate) fn print_servers<W: Write>(out: &mut W, world: &World) -> Result<(), EndError>
    ensures lines { OnOk result (OfServers world.now.servers
        (TellsServers (W.contents out.old) (W.contents out.new))) }
    ensures fault { IfErr result (λ fault. fault ≡ errors.Output) }
{
    for place in 0..world.size() {
        print_server(out, place + 1, server_at(world, place))?;
    }
    Ok(())
}

fn print_server<W: Write>(out: &mut W, number: usize, server: &Server) -> Result<(), EndError>
    ensures line { OnOk result ((s : AnyServer) → RefinesServer server.now s
        → Appends (W.contents out.old) (W.contents out.new) (server_line number s)) }
    ensures fault { IfErr result (λ fault. fault ≡ errors.Output) }
{
    let (term, last) = (server.term(), server.last());
    let (Some(role), Some(applied)) = (server.role(), server.applied()) else {
        return print_down(out, number, term, last);
    };
    print_up(out, number, role, term, last, applied)
}

fn print_down<W: Write>(out: &mut W, number: usize, term: Term, last: Index) -> Result<(), EndError>
    ensures line { OnOk result (Appends (W.contents out.old) (W.contents out.new)
        (down_line number term last)) }
    ensures fault { IfErr result (λ fault. fault ≡ errors.Output) }
{
    told(writeln!(out, "server {number} down term {term} last {last}"))
}

fn print_up<W: Write>(
    out: &mut W,
    number: usize,
    role: Role,
    term: Term,
    last: Index,
    applied: Index,
) -> Result<(), EndError>
    ensures line { OnOk result (Appends (W.contents out.old) (W.contents out.new)
        (up_line number role term last applied)) }
    ensures fault { IfErr result (λ fault. fault ≡ errors.Output) }
{
    let role = role_word(role);
    told(writeln!(
        out,
        "server {number} {role} term {term} last {last} applied {applied}"
    ))
}

fn role_word(role: Role) -> &'static str
    ensures { result.now ≡ role_words role }
{
    match role {
        Role::Follower => "follower",
        Role::Candidate => "candidate",
        Role::Leader => "leader",
    }
}
