//! Code round replicated machines: a machine's command as a field, and the tally, a small machine.
//! What a machine is stands in `machine_model`, whose names are here once more.
#![tactic(auto)]

mod coded;
mod tally;

pub use coded::Coded;
pub use machine_model::{
    Amount, Entry, Machine, TallyCommand, admitted_is_safe, commands_are_whole, entries_are_lawful,
    states_are_whole,
};
pub use tally::Tally;
