//! The replicated log as definitions: entries, messages, one server's step, worlds, events and
//! runs, for every machine. They are those of Raft (Ongaro and Ousterhout, extended version 2014,
//! Figures 2 and 13). The definitions stand in `specs/`; the functions here show, by their
//! contracts, what the definitions answer for servers and messages written out.
#![tactic(auto)]

mod worked;

pub use worked::{
    late_append_then_install, refusal_comes_again, worked_leader, worked_logs, worked_run,
    worked_terms, worked_votes,
};
