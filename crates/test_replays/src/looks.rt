//! Two groups of three servers, that applied as many entries, of jobs whose names differ in one
//! letter, as one plain look sees them one after the other.
use event_texts::read_event;
use group_inputs::Event;
use rows::Refusal;
use std::alloc::Global;
use std::io;
use test_oracle::{Fault, Looks};
use world::World;

// Server 1 is elected, and its first entry is committed.
const LED: &str = "\
timeout 1
deliver 1
deliver 2
deliver 3
deliver 4
beat 1
deliver 5
deliver 6
deliver 7
deliver 8";

// The entry behind that comes to all servers, and is applied by all.
const APPLIED: &str = "\
beat 1
deliver 9
deliver 10
deliver 11
deliver 12
beat 1
deliver 13
deliver 14";

const WEB: &[&str] = &[LED, "request 1 put web 50 main:1:linux:600:300:0", APPLIED];

// Server 3 alone is up in the end.
const WEN: &[&str] = &[
    LED,
    "request 1 put wen 50 main:1:linux:600:300:0",
    APPLIED,
    "crash 1\ncrash 2",
];

fn push(alloc: Global, line: &str, out: &mut Vec<Event>) -> Result<(), Refusal> {
    out.push(read_event(alloc, line)?)?;
    Ok(())
}

// The events of the lines of a text.
fn push_all(alloc: Global, text: &str, out: &mut Vec<Event>) -> Result<(), Refusal> {
    for line in text.lines() {
        push(alloc, line, out)?;
    }
    Ok(())
}

fn group(alloc: Global, parts: &[&str]) -> Result<World, Refusal> {
    let mut events = Vec::new(alloc);
    for part in parts {
        push_all(alloc, part, &mut events)?;
    }
    World::run(alloc, 3, &[], &events)
}

type Found = (Option<Fault>, Option<Fault>);

// What is found in a group, and what is when it is looked at once more.
fn found_in(
    alloc: Global,
    looks: &mut Looks,
    group: Result<World, Refusal>,
) -> Result<Found, Refusal> {
    let world = group?;
    let found = looks.look(alloc, &world)?;
    Ok((found, looks.look_back(alloc, &world)?))
}

// What is found in the first group, and then in the other.
fn found(alloc: Global) -> Result<(Found, Found), Refusal> {
    let mut looks = Looks::new(alloc);
    let web = found_in(alloc, &mut looks, group(alloc, WEB))?;
    let wen = found_in(alloc, &mut looks, group(alloc, WEN))?;
    Ok((web, wen))
}

/// Says what is found in the group of `web`, in which all servers applied two entries, and when it
/// is looked at once more; and then in that of `wen`, of which server 3 alone is still up.
pub(crate) fn looks(rt: &HostRuntime) -> io::Result<()> {
    match found(rt.alloc()) {
        Ok((web, wen)) => {
            println!(rt; "web at two entries: {:?}, again {:?}", web.0, web.1)?;
            println!(rt; "wen at as many: {:?}, again {:?}", wen.0, wen.1)
        }
        Err(refusal) => println!(rt; "refused {}", refusal.number()),
    }
}
