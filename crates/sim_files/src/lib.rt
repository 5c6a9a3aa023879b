//! What the program does with a scenario's file and with a transcript's on one thread: it plays the
//! first, or says what is wrong with it, and plays the second again.
#![tactic(auto)]

pub mod checking;
pub mod fault;
pub mod hint;
pub mod replaying;
pub mod running;
pub mod shelf;
