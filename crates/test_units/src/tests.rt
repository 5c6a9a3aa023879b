//! The tests. What they want is published, or worked out by hand from the rules, and never taken
//! from the program's own output.

mod admission;
mod books;
mod clusters;
mod commands;
mod desks;
mod effects;
mod fates;
mod follows;
mod full_tables;
mod lines;
mod logs;
mod nets;
mod orders;
mod plan_checks;
mod service_frames;
mod services;
mod state_texts;
mod states;
mod stored;
mod tallies;
mod texts;
mod values;
mod workers;
