//! The actors of a group, each in a cell with the events that it took and the seat that noted them;
//! cells under locks, and their turns.
#![tactic(auto)]

mod cell;
mod cells;
mod envelope;
mod opening;
mod own_input;
mod rest;
mod stepping;

pub use actor::{GroupActor, Stepped};
pub use cell::{Cell, CellTurn, KeptEvent, StampedEvent};
pub use cells::{Cells, OwnedCells, turn};
pub use envelope::Envelope;
pub use opening::cells_of;
pub use own_input::OwnInput;
pub use rest::{Rest, take_apart};
