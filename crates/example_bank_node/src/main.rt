//! One server of a group that replicates a bank, as a process. It reads items from its standard
//! input, writes frames to its output, and keeps its journal in a file.
#![tactic(auto)]

ghost use Rattle.std.specs.Prelude.{◌≡◌, IfOk};
ghost use Rattle.example_bank_server.specs.Lives.{header_text};

mod fault;

use example_bank::Bank;
use example_bank_server::{Node, begin, live};
use fault::Fault;
use journal::{Host, MAGIC};
use rows::{NoMemory, ServerId};
use std::alloc::Global;
use std::env;
use std::io::Write;
use std::process::ExitCode;

fn main(rt: HostRuntime) -> ExitCode {
    let Err(fault) = run(&rt) else {
        return ExitCode::SUCCESS;
    };
    // Where the standard error fails too, the status still says what went wrong.
    let _ = eprint!(rt; "{fault}");
    ExitCode::from(fault.status())
}

/// The words of the command line, of which the first is the program's name.
fn words_of(rt: &HostRuntime) -> Result<Vec<String>, Fault> {
    match env::args(rt) {
        Ok(words) => Ok(words.collect(rt.alloc())?),
        Err(error) => Err(Fault::Usage.unless_memory(&error)),
    }
}

/// The first line of a server's journal.
fn header_of(alloc: Global, me: ServerId, size: usize) -> Result<Vec<u8>, NoMemory>
    ensures { IfOk result (λ header. header.items ≡ header_text size me) }
{
    let mut header = Vec::new(alloc);
    header.extend_from_slice(MAGIC)?;
    match writeln!(header, "1 bank_node {me} of {size}") {
        Ok(()) => Ok(header),
        Err(_) => Err(NoMemory),
    }
}

/// Runs the server that the words of the command line name: `bank_node ME OF STORE`.
fn run(rt: &HostRuntime) -> Result<(), Fault> {
    let alloc = rt.alloc();
    let words = words_of(rt)?;
    let [_, me, of, store] = words.as_slice() else {
        return Err(Fault::Usage);
    };
    let (Some(me), Ok(size)) = (server_of(me.as_str()), of.as_str().parse()) else {
        return Err(Fault::Usage);
    };
    let header = header_of(alloc, me, size)?;
    let (mut host, stored) = Host::open(rt, store.as_str(), header.clone()?)?;
    let server = begin::<Bank>(
        alloc,
        me,
        size,
        header.as_slice(),
        stored.as_ref().map(|text| text.as_slice()),
    )?;
    let mut node = Node::new(server);
    live(alloc, &mut node, &mut host)?;
    Ok(())
}

/// The server of this number, from 1 to 5.
fn server_of(word: &str) -> Option<ServerId> {
    ServerId::from_number(word.parse().ok()?)
}
