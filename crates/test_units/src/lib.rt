//! Tests of bytes and of the replicated state: texts of fields, values, commands and machines.
#![tactic(auto)]

#[cfg(test)]
mod tests;
