//! Machines that are replicated, as definitions: the trait with its meaning and its law, entries of
//! a log, and the tally, a small machine. What a machine does is in its meaning; the functions here
//! state what holds of every machine, by their contracts.
#![tactic(auto)]

mod amount;
mod entry;
mod laws;
mod machine;
mod tally;

pub use amount::Amount;
pub use entry::Entry;
pub use laws::{admitted_is_safe, commands_are_whole, entries_are_lawful, states_are_whole};
pub use machine::Machine;
pub use tally::TallyCommand;
