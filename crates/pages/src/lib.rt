//! Tables in pages that are shared: a table is the list of its rows in strictly rising key, and its
//! fork takes next to no time and memory.
#![tactic(auto)]

mod keys;
mod level;
mod page;
mod part;
mod row;
mod search;
mod slot;
mod slot_type;
mod table;
mod walk;
mod walk_type;

pub use row::{CopiedRow, Row};
pub use search::position;
pub use table::Table;
pub use walk_type::Rows;
