//! The lines of steps, and the nodes of scenarios: which are read, whatever the program makes of
//! them.
use rows::NodeSpec;
use sim_scenario::reading::scenario;
use sim_scenario::step::read_step;
use std::rt::Files;
use std::{fs, io};

/// Says of each line of `lines` whether it is the line of a step.
pub(crate) fn lines(rt: &HostRuntime) -> io::Result<()> {
    let lines = fs::read_to_string(rt, "lines")?;
    for line in lines.lines() {
        println!(rt; "{line}: {}", is_step(rt, line))?;
    }
    Ok(())
}

fn is_step(rt: &HostRuntime, line: &str) -> bool {
    matches!(read_step(rt.alloc(), line), Ok(Some(_)))
}

fn say_nodes(rt: &HostRuntime, nodes: &[NodeSpec]) -> io::Result<()> {
    for node in nodes {
        let (cpu, mem) = (node.size.cpu.get(), node.size.mem.get());
        let disk = node.size.disk.get();
        print!(rt; " {} {} {cpu} {mem} {disk}", node.number, node.class)?;
    }
    println!(rt;)
}

fn say_scenario(rt: &HostRuntime, text: &str) -> io::Result<()> {
    match scenario(rt.alloc(), text) {
        Ok(read) => say_nodes(rt, &read.nodes),
        Err(refusal) => println!(rt; " refused {}", refusal.number()),
    }
}

/// Says the nodes of each line of `nodes`, which is a scenario's text, or by which number it is
/// refused. The first is line 1.
pub(crate) fn nodes(rt: &HostRuntime) -> io::Result<()> {
    let texts = fs::read_to_string(rt, "nodes")?;
    for (place, text) in texts.lines().enumerate() {
        print!(rt; "nodes {}:", place + 1)?;
        say_scenario(rt, text)?;
    }
    Ok(())
}
