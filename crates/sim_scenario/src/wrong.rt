//! What is wrong with a text that is no scenario.
use crate::scenario::{list_of, node_of, number_of, order_of, percent_of, servers_of};
use rows::NoMemory;
use serde_json::Value;
use std::alloc::Global;
use std::fmt;

// The keys of a scenario.
const KEYS: [&str; 7] = [
    "servers", "nodes", "key", "drop", "repeat", "order", "steps",
];

/// A place in a text.
#[derive(Clone, Copy, Debug, PartialEq, Eq)]
pub struct TextPosition {
    /// The line, from 1.
    pub line: usize,
    /// The column, in bytes, from 1.
    pub column: usize,
}

impl fmt::Display for TextPosition {
    ghost use Rattle.std.specs.Prelude.{Some};
    ghost use Rattle.sim_scenario.specs.WrongTexts.{position_text};

    ghost output = { λ p. Some (position_text p) };

    fn fmt<W: fmt::Write>(&self, f: &mut fmt::Formatter<W>) -> fmt::Result {
        write!(f, "line {}, column {}", self.line, self.column)
    }
}

/// What is wrong with a text that is no scenario: the first of these that is found.
#[derive(Debug, Drop, PartialEq, Eq)]
pub enum Wrong {
    /// Its bytes are no UTF-8.
    NoText,
    /// There is nothing in it but white space.
    Empty,
    /// It begins with a byte order mark.
    ByteOrderMark,
    /// It is no JSON from this place on.
    NoJson(TextPosition),
    /// An object in it has this key twice, at these two places.
    KeyTwice(String, TextPosition, TextPosition),
    /// It is no object.
    NoObject,
    /// This key is missing.
    Missing(&'static str),
    /// This key is missing, and it has that one, which no scenario has.
    Misspelt(&'static str, String),
    /// It has this key, which no scenario has.
    OtherKey(String),
    /// At this key something else is wanted, namely this.
    Wanted(&'static str, &'static str),
    /// This node, counted from 1, is at fault.
    BadNode(usize),
}

impl fmt::Display for Wrong {
    ghost use Rattle.sim_scenario.specs.WrongTexts.{wrong_text};

    ghost output = { wrong_text };

    fn fmt<W: fmt::Write>(&self, f: &mut fmt::Formatter<W>) -> fmt::Result {
        match self {
            Wrong::NoText => write!(f, "it is no UTF-8"),
            Wrong::Empty => write!(f, "it is empty"),
            Wrong::ByteOrderMark => write!(f, "it begins with a byte order mark"),
            Wrong::NoJson(place) => write!(f, "it is no JSON, at {place}"),
            Wrong::KeyTwice(key, first, again) => {
                write!(
                    f,
                    "an object in it has the key {key:?} twice, at {first}, and at {again}"
                )
            }
            Wrong::NoObject => write!(f, "it is no JSON object"),
            Wrong::Missing(key) => write!(f, "the key \"{key}\" is missing"),
            Wrong::Misspelt(key, other) => write!(
                f,
                "the key \"{key}\" is missing, and it has a key that no scenario has: {other:?}"
            ),
            Wrong::OtherKey(key) => write!(f, "it has a key that no scenario has: {key:?}"),
            Wrong::Wanted(key, what) => write!(f, "\"{key}\" has to be {what}"),
            Wrong::BadNode(number) => write!(
                f,
                "node {number} has to be an object of exactly the keys \"class\", a name of 1 to \
                 32 of a-z0-9-, \"cpu\" and \"mem\", whole numbers from 1 to 1000000, and \
                 \"disk\", one from 0 to 1000000, which may be left out"
            ),
        }
    }
}

/// What is wrong with a JSON value that is no scenario.
pub(crate) fn wrong_in(alloc: Global, value: &Value) -> Result<Wrong, NoMemory> {
    if value.as_object().is_none() {
        return Ok(Wrong::NoObject);
    }
    if let Some(key) = missing_key(value) {
        return missing(alloc, key, other_key(value));
    }
    if let Some(key) = other_key(value) {
        return Ok(Wrong::OtherKey(String::from_str(alloc, key)?));
    }
    match wrong_setting(value) {
        Some(wrong) => Ok(wrong),
        None => Ok(wrong_list(value)),
    }
}

// The first key that is missing.
fn missing_key(value: &Value) -> Option<&'static str> {
    for key in KEYS {
        if value.get(key).is_none() {
            return Some(key);
        }
    }
    None
}

// That a key is missing; and which one may stand there for it.
fn missing(alloc: Global, key: &'static str, other: Option<&str>) -> Result<Wrong, NoMemory> {
    match other {
        Some(other) => Ok(Wrong::Misspelt(key, String::from_str(alloc, other)?)),
        None => Ok(Wrong::Missing(key)),
    }
}

// The first of its keys, in the order of their bytes, that no scenario has.
fn other_key(value: &Value) -> Option<&str> {
    for key in value.as_object()?.keys() {
        if !KEYS.contains(&key.as_str()) {
            return Some(key.as_str());
        }
    }
    None
}

// What is wrong beside the nodes and the steps.
fn wrong_setting(value: &Value) -> Option<Wrong> {
    if servers_of(value).is_none() {
        return Some(Wrong::Wanted("servers", "3 or 5"));
    }
    if number_of(value, "key").is_none() {
        let what = "a whole number from 0 to 18446744073709551615";
        return Some(Wrong::Wanted("key", what));
    }
    let Some(drop) = percent_of(value, "drop") else {
        return Some(Wrong::Wanted("drop", "a whole number from 0 to 100"));
    };
    let Some(repeat) = percent_of(value, "repeat") else {
        return Some(Wrong::Wanted("repeat", "a whole number from 0 to 100"));
    };
    if 100 < drop + repeat {
        return Some(Wrong::Wanted("repeat", "at most 100 together with \"drop\""));
    }
    if order_of(value).is_none() {
        return Some(Wrong::Wanted("order", "\"sent\" or \"any\""));
    }
    None
}

// What is wrong with the nodes or the steps.
fn wrong_list(value: &Value) -> Wrong {
    let Some(nodes) = list_of(value, "nodes") else {
        return Wrong::Wanted("nodes", "a list");
    };
    if 64 < nodes.len() {
        return Wrong::Wanted("nodes", "a list of at most 64");
    }
    for (others, node) in nodes.iter().enumerate() {
        if node_of(node, others).is_none() {
            return Wrong::BadNode(others + 1);
        }
    }
    Wrong::Wanted("steps", "a list of texts")
}
