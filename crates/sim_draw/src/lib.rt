//! A picture of a run, as SVG: who sent what to whom and when it came, who led in which term, what
//! was committed, and who crashed and came back.
#![tactic(auto)]

mod drawing;
mod escape;
mod fault;
mod ink;
mod layout;
mod lifeline;
mod note;
mod record;
mod row;
mod shape;
mod svg;

pub use drawing::{draw, picture};
pub use escape::all_escaped;
pub use fault::DrawError;
