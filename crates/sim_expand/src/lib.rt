//! Scenarios in short form, and the plain ones that they stand for.
#![tactic(auto)]

pub mod checking;
pub mod expanding;
mod flowing;
pub mod plain;
mod settling;
pub mod short;
mod standing;
mod useful;
