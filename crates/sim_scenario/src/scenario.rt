//! Scenario files.
ghost use Rattle.std.specs.Prelude.{◌≡◌, ◌≢◌, ◌+◌, ◌≤◌, ◌<◌, ◌⊎◌, ℕ, List, Some, IfOk, IfErr, MatchOption, codes, map, option_map, string_bytes};
ghost use Rattle.rows.specs.Fits.{QuantityFits, SpaceFits};
ghost use Rattle.rows.specs.Names.{NameFits};
ghost use Rattle.rows.specs.declared.node.NodeSpec.{NodeSpec};
ghost use Rattle.rows.specs.declared.size.Size.{Size};
ghost use Rattle.rows.specs.declared.refusal.Refusal.TheVariants.{NoMemory, OutOfRange};
ghost use Rattle.serde_json.specs.Find.{as_object};
ghost use Rattle.serde_json.specs.View.{view, items_view};
ghost use Rattle.rows.specs.GroupSizes.{IsGroup};
ghost use Rattle.sim_scenario.specs.declared.scenario.Order.{Order};
ghost use Rattle.sim_scenario.specs.declared.scenario.Settings.{Settings};
ghost use Rattle.sim_scenario.specs.declared.scenario.Scenario.{Scenario};
ghost use Rattle.sim_scenario.specs.Objects.{AreNodes, HasDisk, HasSettings, HasSize, IsNode, IsScenario, list_at, members_count, whole_number_at, order_text, strings, text_at};

use rows::{ClassName, Name, NodeId, NodeSpec, Quantity, Refusal, Size, Space, is_group_size};
use serde_json::Value;
use std::alloc::Global;

/// Which message in flight a flow takes next.
#[derive(Clone, Copy, Debug, PartialEq, Eq)]
pub enum Order {
    /// `"sent"`: the one that was sent first.
    Sent,
    /// `"any"`: one drawn from all of them.
    Any,
}

/// What a scenario says beside its nodes and its steps.
#[derive(Clone, Copy, Debug, PartialEq, Eq)]
pub struct Settings {
    /// How many servers there are, 3 or 5.
    pub servers: u8,
    /// The key that what is drawn by lot is drawn from.
    pub key: u64,
    /// How many of a hundred messages are lost. With `repeat` at most 100.
    pub drop: u8,
    /// How many of a hundred messages come again.
    pub repeat: u8,
    /// Which message in flight is taken next.
    pub order: Order,
}

/// A scenario: its settings, its nodes, and its steps as texts.
#[derive(Drop)]
pub struct Scenario {
    /// What is said beside the nodes and the steps.
    pub settings: Settings,
    /// The nodes, numbered from 1 in their order, at most 64.
    pub nodes: Vec<NodeSpec>,
    /// The lines of the steps, in order.
    pub steps: Vec<String>,
}

/// The whole number at a key of an object, below 2^64.
pub fn number_of(value: &Value, key: &str) -> Option<u64>
    ensures { result ≡ whole_number_at key.now (view value.now) }
{
    value.get(key).and_then(Value::as_u64)
}

fn text_of<'v>(value: &'v Value, key: &str) -> Option<&'v str>
    ensures { option_map (λ s. s.now) result ≡ text_at key.now (view value.now) }
{
    match value.get(key) {
        Some(found) => found.as_str(),
        None => None,
    }
}

/// The list at a key of an object.
pub fn list_of<'v>(value: &'v Value, key: &str) -> Option<&'v Vec<Value>>
    ensures { option_map (λ v. items_view v.now.items) result ≡ list_at key.now (view value.now) }
{
    match value.get(key) {
        Some(found) => found.as_array(),
        None => None,
    }
}

/// How many keys an object has.
pub fn keys_of(value: &Value) -> Option<usize>
    ensures { result ≡ option_map members_count (as_object (view value.now)) }
{
    match value.as_object() {
        Some(members) => Some(members.len()),
        None => None,
    }
}

pub(crate) fn percent_of(value: &Value, key: &str) -> Option<u8>
    ensures { MatchOption result
        ((n : ℕ) → whole_number_at key.now (view value.now) ≡ Some n → 100 < n)
        (λ n. (whole_number_at key.now (view value.now) ≡ Some n) × (n ≤ 100)) }
{
    let number = number_of(value, key)?;
    if 100 < number {
        return None;
    }
    Some(number as u8)
}

pub(crate) fn servers_of(value: &Value) -> Option<u8>
    ensures { MatchOption result
        ((n : ℕ) → whole_number_at (codes "servers") (view value.now) ≡ Some n → IsGroup n → ⊥)
        (λ n. (whole_number_at (codes "servers") (view value.now) ≡ Some n) × IsGroup n) }
{
    let number = number_of(value, "servers")?;
    if !is_group_size(number as usize) {
        return None;
    }
    Some(number as u8)
}

pub(crate) fn order_of(value: &Value) -> Option<Order>
    ensures { MatchOption result
        ((o : Order) → text_at (codes "order") (view value.now) ≢ Some (order_text o))
        (λ o. text_at (codes "order") (view value.now) ≡ Some (order_text o)) }
{
    match text_of(value, "order")? {
        "sent" => Some(Order::Sent),
        "any" => Some(Order::Any),
        _ => None,
    }
}

/// What an object of seven keys says beside its nodes and its steps.
pub fn settings_of(value: &Value) -> Option<Settings>
    ensures { MatchOption result
        ((s : Settings) → ¬ HasSettings (view value.now) s) (HasSettings (view value.now)) }
{
    if keys_of(value)? != 7 {
        return None;
    }
    let servers = servers_of(value)?;
    let key = number_of(value, "key")?;
    let drop = percent_of(value, "drop")?;
    let repeat = percent_of(value, "repeat")?;
    if 100 < drop + repeat {
        return None;
    }
    let order = order_of(value)?;
    Some(Settings {
        servers,
        key,
        drop,
        repeat,
        order,
    })
}

fn class_of(value: &Value) -> Option<ClassName>
    ensures { MatchOption result
        ((n : List ℕ) → text_at (codes "class") (view value.now) ≡ Some n → ¬ NameFits n)
        (λ n. (text_at (codes "class") (view value.now) ≡ Some n) × NameFits n) }
{
    Name::read(text_of(value, "class")?).ok()
}

fn quantity_of(value: &Value, key: &str) -> Option<Quantity>
    ensures { MatchOption result
        ((n : ℕ) → whole_number_at key.now (view value.now) ≡ Some n → ¬ QuantityFits n)
        (λ n. (whole_number_at key.now (view value.now) ≡ Some n) × QuantityFits n) }
{
    let number = number_of(value, key)?;
    Quantity::new(u32::try_from(number).ok()?)
}

fn space_of(value: &Value, key: &str) -> Option<Space>
    ensures { MatchOption result
        ((n : ℕ) → whole_number_at key.now (view value.now) ≡ Some n → ¬ SpaceFits n)
        (λ n. (whole_number_at key.now (view value.now) ≡ Some n) × SpaceFits n) }
{
    let number = number_of(value, key)?;
    Space::new(u32::try_from(number).ok()?)
}

// The disk of a node: none where its object has the three other keys alone.
fn disk_of(value: &Value) -> Option<Space>
    ensures { MatchOption result
        ((n : ℕ) → SpaceFits n → ¬ HasDisk (view value.now) n)
        (λ n. HasDisk (view value.now) n × SpaceFits n) }
{
    match keys_of(value)? {
        3 => Some(Space::NONE),
        4 => space_of(value, "disk"),
        _ => None,
    }
}

fn size_of(value: &Value) -> Option<Size>
    ensures { MatchOption result
        ((z : Size) → ¬ HasSize (view value.now) z) (HasSize (view value.now)) }
{
    let cpu = quantity_of(value, "cpu")?;
    let mem = quantity_of(value, "mem")?;
    let disk = disk_of(value)?;
    Some(Size { cpu, mem, disk })
}

// The node behind so many others.
pub(crate) fn node_of(value: &Value, others: usize) -> Option<NodeSpec>
    ensures { MatchOption result
        ((n : NodeSpec) → n.number ≡ others + 1 → ¬ IsNode (view value.now) n)
        (λ n. (n.number ≡ others + 1) × IsNode (view value.now) n) }
{
    if 64 <= others {
        return None;
    }
    let number = NodeId::from_number(others as u8 + 1)?;
    let class = class_of(value)?;
    let size = size_of(value)?;
    Some(NodeSpec {
        number,
        class,
        size,
    })
}

/// The nodes that the values of a list are, numbered from 1. Refused with 12 where one is none, or
/// where there are more than 64; with 1 where there is no memory.
pub fn nodes_of(alloc: Global, list: &[Value]) -> Result<Vec<NodeSpec>, Refusal>
    ensures ok { IfOk result (λ nodes. AreNodes 1 (map view list.now) nodes.items) }
    ensures refused { IfErr result (λ refusal. (refusal ≡ NoMemory)
        ⊎ ((refusal ≡ OutOfRange)
        × ((nodes : List NodeSpec) → ¬ AreNodes 1 (map view list.now) nodes))) }
{
    let mut nodes = Vec::new(alloc);
    for value in list {
        let Some(node) = node_of(value, nodes.len()) else {
            return Err(Refusal::OutOfRange);
        };
        nodes.push(node)?;
    }
    Ok(nodes)
}

// The list at a key, taken out of the value.
fn taken_list(value: &mut Value, key: &str) -> Option<Vec<Value>>
    ensures { option_map (λ v. items_view v.items) result ≡ list_at key.now (view value.old) }
{
    match value.get_mut(key)?.take() {
        Value::Array(list) => Some(list),
        _ => None,
    }
}

// The texts that the values of a list are; no text is copied.
fn texts_of(alloc: Global, list: Vec<Value>) -> Result<Vec<String>, Refusal>
    ensures ok { IfOk result (λ texts.
        map view list.items ≡ strings (map string_bytes texts.items)) }
    ensures refused { IfErr result (λ refusal. (refusal ≡ NoMemory)
        ⊎ ((refusal ≡ OutOfRange)
        × ((texts : List (List ℕ)) → map view list.items ≢ strings texts))) }
{
    let mut texts = Vec::with_capacity(alloc, list.len())?;
    for value in list {
        let Value::String(text) = value else {
            return Err(Refusal::OutOfRange);
        };
        texts.push(text)?;
    }
    Ok(texts)
}

/// The scenario that a JSON value is. Its steps are taken out of the value.
pub(crate) fn scenario_of(alloc: Global, value: &mut Value) -> Result<Scenario, Refusal>
    ensures ok { IfOk result (IsScenario (view value.old)) }
    ensures refused { IfErr result (λ refusal. (refusal ≡ NoMemory)
        ⊎ ((refusal ≡ OutOfRange) × ((s : Scenario) → ¬ IsScenario (view value.old) s))) }
{
    let Some(settings) = settings_of(value) else {
        return Err(Refusal::OutOfRange);
    };
    let Some(nodes) = list_of(value, "nodes") else {
        return Err(Refusal::OutOfRange);
    };
    let nodes = nodes_of(alloc, nodes)?;
    let Some(steps) = taken_list(value, "steps") else {
        return Err(Refusal::OutOfRange);
    };
    let steps = texts_of(alloc, steps)?;
    Ok(Scenario {
        settings,
        nodes,
        steps,
    })
}
