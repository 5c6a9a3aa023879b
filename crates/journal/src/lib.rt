//! A journal of what an actor stores (a write-ahead log), and the loop of its process: a batch of
//! items is taken, then what it changed is in the journal, and only then all that it sends and
//! reports leaves (group commit).
#![tactic(auto)]

mod actor;
mod batches;
mod host;
mod items;
mod laws;
mod outside;
mod records;
mod serving;
mod stop;
mod storing;

pub use actor::Actor;
pub use host::{Host, MAGIC, OpenError};
pub use items::{MOST_BYTES, item_of};
pub use laws::{any_crash_is_read, journals_are_read};
pub use outside::Outside;
pub use records::{may_be_torn, next_record, write_record};
pub use serving::serve;
pub use stop::Stop;
pub use storing::{Out, Saving};
