//! What is reported of a group, as lines of text whose columns line up; and of each moment of a run
//! the lines that change.
#![tactic(auto)]

mod changes;
mod entries;
mod grid;
mod kept;
mod lines;
mod moments;
mod recorder;
mod tables;
mod texts;

pub use changes::Change;
pub use grid::{Grid, owned};
pub use lines::report_lines;
pub use moments::Moments;
pub use recorder::{Recorder, Standing};
