//! What brings a group back: from one moment of a run, or from many.
#![tactic(auto)]

mod counts;
mod farthest;
mod fault;
mod recovering;
mod steps;
mod table;
mod texts;

pub use counts::{Counts, Kind};
pub use fault::RecoveryError;
pub use recovering::{Recovery, election, recovery_of};
pub use table::{MOST_ROWS, Table, WayRow, table_of};
pub use texts::{recovery_text, table_text};
