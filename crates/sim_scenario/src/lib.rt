//! Scenario files: what a scenario is, the lines of its steps, and what is wrong with one.
#![tactic(auto)]

pub mod checking;
mod duplicate_keys;
pub mod flaw;
pub mod flaws;
mod grammar;
pub mod named;
pub mod noting;
pub mod reading;
pub mod scenario;
pub mod step;
pub mod wrong;
