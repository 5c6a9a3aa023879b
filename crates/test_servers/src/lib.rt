//! Tests of messages, single actors, a bank, cells and threads; and what callers of a group know by
//! its contracts. No other crate stands on these, so they are proved with the tests alone.
#![tactic(auto)]

#[cfg(test)]
mod claims;
#[cfg(test)]
mod tests;
