//! A book in which threads note what actors do, in one order for all.
#![tactic(auto)]

mod book;
mod noted;
mod opened;
mod rule;
mod seat;
mod token;
mod view;

pub use book::{Book, BookId};
pub use noted::{ActorEvent, Noted, OutputList, Outputs};
pub use opened::{OpenedBook, are_apart};
pub use seat::ActorSeat;
pub use token::MessageToken;
pub use view::{EventView, MessageTokenView, Note, NotedView, Output, SeatView};
