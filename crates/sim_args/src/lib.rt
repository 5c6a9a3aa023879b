//! The command line of `nomadsim`: what its words ask for, and its help.
#![tactic(auto)]

pub mod command;
mod help;
mod numbers;
