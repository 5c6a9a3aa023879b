//! Actors as processes that are killed at any moment: each execution of them refines a world.
//! Servers and clients of the group are such.
#![tactic(auto)]

mod laws;

pub use laws::{
    a_batch_may_happen, interleavings_are_executions, interleavings_keep_the_headline,
    processes_keep_one_list, processes_keep_the_headline, processes_refine_the_group,
    processes_refine_the_log,
};
