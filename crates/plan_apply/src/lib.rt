//! Which part of a submitted plan a leader keeps.
#![tactic(auto)]

mod accepted;
mod check;
mod laws;
mod names;
mod nodes;
mod places;
mod room;
mod stops;

pub use accepted::Accepted;
pub use check::accept;
pub use laws::what_is_kept_is_admitted;
