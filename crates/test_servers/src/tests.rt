//! The tests. What they want is published, or worked out by hand from the rules, and never taken
//! from the program's own output.

mod agents;
mod banks;
mod frames;
mod held_cells;
mod killed;
mod messages;
mod old_texts;
mod plain_faults;
mod running;
mod servers;
mod settling;
mod snapshots;
mod starved;
mod waiting;
mod watching;
