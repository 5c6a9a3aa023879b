//! One server of a replicated log: what it stores, what it keeps in memory, and what it does with
//! each input. (Raft, extended version 2014, section 5 and Figure 2.)
#![tactic(auto)]

mod commit;
mod input;
mod log;
mod not_projected;
mod raft;
mod release;
mod role;
mod sending;
mod ticket;

pub use commit::commit_is_greatest;
pub use input::Input;
pub use not_projected::NotProjected;
pub use raft::{NotRestarted, Raft};
pub use raft_snapshot::{Stable, Unwatched, Watch};
pub use role::Role;
pub use ticket::{ProposalStatus, Ticket};
