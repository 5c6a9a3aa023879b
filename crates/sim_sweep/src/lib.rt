//! One scenario under many keys: how each run ends, and what the runs come to.
#![tactic(auto)]

pub mod row;
pub mod spread;
pub mod summary;
pub mod sweeping;
pub mod table;
pub mod task;
