//! Tables of the replicated state: rows in the order of their keys, the look-ups, and what the live
//! allocations use.
#![tactic(auto)]

mod allocations;
mod index;
mod index_keys;
mod indexes;
mod laws;
mod listing;
mod name;
mod reserved_table;
mod tables;
mod urgency;
mod usage;

pub use laws::tables_are_sets;
pub use name::AllocName;
pub use pages::{CopiedRow, Row, Rows, Table};
pub use reserved_table::ReservedTable;
pub use tables::Tables;
pub use urgency::Urgency;
pub use usage::{is_active, is_live};
