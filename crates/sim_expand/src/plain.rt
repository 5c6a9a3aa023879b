//! Plain scenarios as texts.
ghost use Rattle.std.specs.Prelude.{◌≡◌, ◌++◌, IfErr, IfOk, OnOk, map, string_bytes};
ghost use Rattle.std.specs.Bool.{Decides};
ghost use Rattle.sim_scenario.specs.Objects.{order_text, step_lines};
ghost use Rattle.sim_expand.specs.Plains.{IsPlainOf, WhyNoPlain, disk_form, line_form, list_form};
ghost use Rattle.sim_expand.specs.Plains.{node_form, others_form, plain_form, settings_form};

use rows::{NodeSpec, Refusal};
use sim_scenario::reading::scenario;
use sim_scenario::scenario::{Order, Scenario, Settings};
use std::alloc::{AllocError, Global};

/// The text of a scenario of these settings, nodes and steps, as `scenario` reads it: it is read
/// again before it is answered. A line for each node and each step. Fails with 12 where the text of
/// these is no scenario of them, as where a line has a quote or the nodes are not numbered from 1 in
/// their order; with 1 where there is no memory.
pub fn plain_text(
    alloc: Global,
    settings: Settings,
    nodes: &[NodeSpec],
    lines: &[String],
) -> Result<String, Refusal>
    ensures ok { IfOk result (λ text. IsPlainOf (string_bytes text) settings nodes.now
        (map string_bytes lines.now)) }
    ensures form { IfOk result (λ text. string_bytes text ≡ plain_form settings nodes.now
        (map string_bytes lines.now)) }
    ensures refused { IfErr result (WhyNoPlain settings nodes.now (map string_bytes lines.now)) }
{
    let text = text_of(alloc, settings, nodes, lines)?;
    let read = scenario(alloc, text.as_str())?;
    if !is_of(&read, settings, nodes, lines) {
        return Err(Refusal::OutOfRange);
    }
    Ok(text)
}

// Whether a scenario has these settings, nodes and steps.
fn is_of(read: &Scenario, settings: Settings, nodes: &[NodeSpec], lines: &[String]) -> bool
    ensures { Decides result ((read.now.settings ≡ settings) × (read.now.nodes.items ≡ nodes.now)
        × (step_lines read.now ≡ map string_bytes lines.now)) }
{
    if !are_settings(read.settings, settings) {
        return false;
    }
    if !are_nodes(&read.nodes, nodes) {
        return false;
    }
    are_lines(&read.steps, lines)
}

fn are_settings(own: Settings, settings: Settings) -> bool
    ensures { Decides result (own ≡ settings) }
{
    own == settings
}

fn are_nodes(own: &[NodeSpec], nodes: &[NodeSpec]) -> bool
    ensures { Decides result (own.now ≡ nodes.now) }
{
    own == nodes
}

fn are_lines(own: &[String], lines: &[String]) -> bool
    ensures { Decides result (map string_bytes own.now ≡ map string_bytes lines.now) }
{
    own == lines
}

fn text_of(
    alloc: Global,
    settings: Settings,
    nodes: &[NodeSpec],
    lines: &[String],
) -> Result<String, AllocError>
    ensures { IfOk result (λ text. string_bytes text ≡ plain_form settings nodes.now
        (map string_bytes lines.now)) }
{
    let mut text = String::new(alloc);
    let servers = settings.servers;
    write!(text, "{{\n  \"servers\": {servers},\n  \"nodes\": [")?;
    put_nodes(nodes, &mut text)?;
    put_settings(settings, &mut text)?;
    put_lines(lines, &mut text)?;
    text.push_str("]\n}\n")?;
    Ok(text)
}

fn put_settings(settings: Settings, text: &mut String) -> Result<(), AllocError>
    ensures { OnOk result (string_bytes text.new ≡ string_bytes text.old
        ++ settings_form settings) }
{
    let (key, drop, repeat) = (settings.key, settings.drop, settings.repeat);
    write!(
        text,
        "],\n  \"key\": {key},\n  \"drop\": {drop},\n  \"repeat\": {repeat},\n"
    )?;
    let order = order_word(settings.order);
    write!(text, "  \"order\": \"{order}\",\n  \"steps\": [")?;
    Ok(())
}

fn order_word(order: Order) -> &'static str
    ensures { result.now ≡ order_text order }
{
    match order {
        Order::Sent => "sent",
        Order::Any => "any",
    }
}

fn put_nodes(nodes: &[NodeSpec], text: &mut String) -> Result<(), AllocError>
    ensures { OnOk result (string_bytes text.new ≡ string_bytes text.old
        ++ list_form (map node_form nodes.now)) }
{
    let Some((first, others)) = nodes.split_first() else {
        return Ok(());
    };
    put_node(first, text)?;
    put_other_nodes(others, text)?;
    text.push_str("\n  ")
}

fn put_other_nodes(nodes: &[NodeSpec], text: &mut String) -> Result<(), AllocError>
    ensures { OnOk result (string_bytes text.new ≡ string_bytes text.old
        ++ others_form (map node_form nodes.now)) }
{
    for node in nodes {
        text.push(',')?;
        put_node(node, text)?;
    }
    Ok(())
}

fn put_node(node: &NodeSpec, text: &mut String) -> Result<(), AllocError>
    ensures { OnOk result (string_bytes text.new ≡ string_bytes text.old ++ node_form node.now) }
{
    let (class, cpu, mem) = (node.class, node.size.cpu.get(), node.size.mem.get());
    write!(
        text,
        "\n    {{\"class\": \"{class}\", \"cpu\": {cpu}, \"mem\": {mem}"
    )?;
    put_disk(node.size.disk.get(), text)?;
    text.push_str("}")?;
    Ok(())
}

// A node that has no disk says nothing of it.
fn put_disk(disk: u32, text: &mut String) -> Result<(), AllocError>
    ensures { OnOk result (string_bytes text.new ≡ string_bytes text.old ++ disk_form disk) }
{
    if disk == 0 {
        return Ok(());
    }
    write!(text, ", \"disk\": {disk}")
}

fn put_lines(lines: &[String], text: &mut String) -> Result<(), AllocError>
    ensures { OnOk result (string_bytes text.new ≡ string_bytes text.old
        ++ list_form (map line_form (map string_bytes lines.now))) }
{
    let Some((first, others)) = lines.split_first() else {
        return Ok(());
    };
    put_line(first.as_str(), text)?;
    put_other_lines(others, text)?;
    text.push_str("\n  ")
}

fn put_other_lines(lines: &[String], text: &mut String) -> Result<(), AllocError>
    ensures { OnOk result (string_bytes text.new ≡ string_bytes text.old
        ++ others_form (map line_form (map string_bytes lines.now))) }
{
    for line in lines {
        text.push(',')?;
        put_line(line.as_str(), text)?;
    }
    Ok(())
}

// A step stands between quotes as it is: the line of a step has none, and nothing that is to be
// escaped.
fn put_line(line: &str, text: &mut String) -> Result<(), AllocError>
    ensures { OnOk result (string_bytes text.new ≡ string_bytes text.old ++ line_form line.now) }
{
    write!(text, "\n    \"{line}\"")
}
