//! The program `nomadsim`: what it does with scenario files and with transcripts, over files and
//! streams that are handed in. Its command line and its scenario files are crates of their own,
//! whose modules it hands on.
#![tactic(auto)]

mod checks;
mod drawing;
mod expanding;
mod frame;
mod paging;
pub mod program;
mod recovering;
mod script;
mod seeing;
mod sweeping;
mod threads;

pub use program::nomadsim;
pub use sim_args::command;
pub use sim_files::{checking, fault, shelf};
pub use sim_scenario::{flaw, named, noting, reading, scenario, step, wrong};
pub use sim_sweep::sweeping::{Progress, Unseen};
