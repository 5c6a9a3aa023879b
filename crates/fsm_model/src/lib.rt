//! The replicated state of a Nomad server group as definitions: the state, what each command does
//! to it, which a state refuses, when it is safe, and the machine that they make. The definitions
//! stand in `specs/`; the functions here show, by their contracts, what holds of them and what they
//! answer for states and commands written out.
#![tactic(auto)]

mod laws;
mod worked;

pub use laws::{
    commands_are_lawful, empty_is_lawful, old_commands_have_no_disk, old_states_stay_safe,
    plans_are_decided, safety_is_decided,
};
pub use worked::{
    worked_absence, worked_disks, worked_drain, worked_ends, worked_loss, worked_move,
    worked_refusals,
};
