//! Formats as definitions: what a text of bytes is, both ways, the ways to put formats together,
//! and the format of each field, row, command and replicated state, with their laws. The
//! definitions stand in `specs/`; the functions here state the laws, by their contracts.
#![tactic(auto)]

mod laws;

pub use laws::{
    actors_are_lawful, numbers_are_lawful, rows_are_lawful, services_are_lawful,
    texts_are_within_limits,
};
